//! What an expression is behind levels of operators that have no operator.
ghost use Rattle.std.specs.Prelude.{◌≡◌};
ghost use Rattle.sim_tree.specs.SyntaxOf.{syntax_of};
ghost use Rattle.sim_meaning.specs.Closing.{typed_token as typed_token_of};
ghost use Rattle.codegen_expr.specs.Forms.{FindsForm};

use sim_base::TokenNo;
use sim_tree::{Expr, Identifier, Selector, naming_token};

/// What an expression is.
#[derive(Clone, Copy)]
pub enum Form<'a> {
    /// An identifier, with actual parameters or subscripts or without.
    Named {
        name: &'a Identifier,
        arguments: &'a [Expr],
    },
    /// What is taken of an operand; at least one thing.
    Taken {
        primary: &'a Expr,
        rest: &'a [Selector],
    },
    /// An expression in parentheses.
    Closed {
        inner: &'a Expr,
    },
    /// A generation.
    New,
    /// Something else.
    Other,
}

/// What an expression is.
#[tactic(auto, using(crate::proofs::Formed::formed))]
pub fn form_of(expr: &Expr) -> Form
    ensures { FindsForm result expr.now }
{
    match expr {
        Expr::Named { name, arguments } => Form::Named { name, arguments },
        Expr::Parentheses { inner, .. } => Form::Closed { inner },
        Expr::Postfix { primary, rest } => {
            if rest.len() == 0 {
                return form_of(primary);
            }
            Form::Taken { primary, rest }
        }
        Expr::OrElse { first, rest } => {
            if rest.len() == 0 {
                return form_of(first);
            }
            Form::Other
        }
        Expr::AndThen { first, rest } => {
            if rest.len() == 0 {
                return form_of(first);
            }
            Form::Other
        }
        Expr::Eqv { first, rest } => {
            if rest.len() == 0 {
                return form_of(first);
            }
            Form::Other
        }
        Expr::Imp { first, rest } => {
            if rest.len() == 0 {
                return form_of(first);
            }
            Form::Other
        }
        Expr::Or { first, rest } => {
            if rest.len() == 0 {
                return form_of(first);
            }
            Form::Other
        }
        Expr::And { first, rest } => {
            if rest.len() == 0 {
                return form_of(first);
            }
            Form::Other
        }
        Expr::Not { tokens, operand } => {
            if tokens.len() == 0 {
                return form_of(operand);
            }
            Form::Other
        }
        Expr::Concatenation { first, rest } => {
            if rest.len() == 0 {
                return form_of(first);
            }
            Form::Other
        }
        Expr::Sum { sign, first, rest } => match sign {
            Some(_) => Form::Other,
            None => {
                if rest.len() == 0 {
                    return form_of(first);
                }
                Form::Other
            }
        },
        Expr::Product { first, rest } => {
            if rest.len() == 0 {
                return form_of(first);
            }
            Form::Other
        }
        Expr::Power { first, rest } => {
            if rest.len() == 0 {
                return form_of(first);
            }
            Form::Other
        }
        Expr::If { .. } => Form::Other,
        Expr::Related { .. } => Form::Other,
        Expr::Member { .. } => Form::Other,
        Expr::Integer { .. } => Form::Other,
        Expr::Character { .. } => Form::Other,
        Expr::Text { .. } => Form::Other,
        Expr::True { .. } => Form::Other,
        Expr::False { .. } => Form::Other,
        Expr::NoObject { .. } => Form::Other,
        Expr::Notext { .. } => Form::Other,
        Expr::This { .. } => Form::Other,
        Expr::New { .. } => Form::New,
    }
}

/// The token at which the type of an expression stands.
#[tactic(auto, using(crate::proofs::Formed::formed))]
pub fn typed_token(expr: &Expr) -> TokenNo
    ensures { result.0 ≡ typed_token_of (syntax_of expr.now) }
{
    match form_of(expr) {
        Form::Closed { inner } => typed_token(inner),
        Form::Named { .. } => naming_token(expr),
        Form::Taken { .. } => naming_token(expr),
        Form::New => naming_token(expr),
        Form::Other => naming_token(expr),
    }
}
