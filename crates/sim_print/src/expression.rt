// The tokens of expressions.
ghost use Rattle.std.specs.Prelude.{◌≡◌, OnOk};
ghost use Rattle.sim_tree.specs.Derivation.{membership_kind, multiplication_kind, relation_kind, sign_kind};
ghost use Rattle.sim_print.specs.Laid.{Prints};
ghost use Rattle.sim_print.specs.Spelling.{each};
ghost use Rattle.sim_print.specs.Trees.{of_actuals, of_expr, of_factor, of_not, of_operand, of_selector, of_sign, of_term};

use crate::layout::Layout;
use sim_base::{TokenKind, TokenNo};
use sim_tree::{
    Expr, Factor, LeadingSign, Membership, Multiplication, Operand, Relation, Selector, Sign, Term,
};
use std::alloc::AllocError;

/// A sign.
pub(crate) fn sign_kind(sign: Sign) -> TokenKind
    ensures { result ≡ sign_kind sign }
{
    match sign {
        Sign::Plus => TokenKind::Plus,
        Sign::Minus => TokenKind::Minus,
    }
}

fn multiplication_kind(operator: Multiplication) -> TokenKind
    ensures { result ≡ multiplication_kind operator }
{
    match operator {
        Multiplication::Times => TokenKind::Times,
        Multiplication::Divide => TokenKind::Divide,
    }
}

fn relation_kind(relation: Relation) -> TokenKind
    ensures { result ≡ relation_kind relation }
{
    match relation {
        Relation::Less => TokenKind::Less,
        Relation::LessEqual => TokenKind::LessEqual,
        Relation::Equal => TokenKind::Equal,
        Relation::GreaterEqual => TokenKind::GreaterEqual,
        Relation::Greater => TokenKind::Greater,
        Relation::NotEqual => TokenKind::NotEqual,
        Relation::SameReference => TokenKind::SameReference,
        Relation::OtherReference => TokenKind::OtherReference,
    }
}

fn membership_kind(membership: Membership) -> TokenKind
    ensures { result ≡ membership_kind membership }
{
    match membership {
        Membership::Is => TokenKind::Is,
        Membership::In => TokenKind::In,
    }
}

/// The sign in front, where one is written.
#[tactic(auto, using(crate::proofs::Signs::sign_rules))]
pub(crate) fn leading_sign(
    layout: &mut Layout,
    sign: &Option<LeadingSign>,
) -> Result<(), AllocError>
    ensures { OnOk result (Prints layout.old layout.new (of_sign sign.now)) }
{
    match sign {
        Some(sign) => layout.word(sign_kind(sign.sign)),
        None => Ok(()),
    }
}

/// An expression.
#[cycle(expression)]
#[tactic(auto, using(crate::proofs::Expressions::expression_rules))]
pub(crate) fn expression(layout: &mut Layout, tree: &Expr) -> Result<(), AllocError>
    ensures { OnOk result (Prints layout.old layout.new (of_expr tree.now)) }
{
    match tree {
        Expr::If {
            condition,
            first,
            second,
            ..
        } => {
            layout.word(TokenKind::If)?;
            expression(layout, condition)?;
            layout.word(TokenKind::Then)?;
            expression(layout, first)?;
            layout.word(TokenKind::Else)?;
            expression(layout, second)
        }
        Expr::OrElse { first, rest } => {
            expression(layout, first)?;
            operands(layout, TokenKind::OrElse, rest)
        }
        Expr::AndThen { first, rest } => {
            expression(layout, first)?;
            operands(layout, TokenKind::AndThen, rest)
        }
        Expr::Eqv { first, rest } => {
            expression(layout, first)?;
            operands(layout, TokenKind::Eqv, rest)
        }
        Expr::Imp { first, rest } => {
            expression(layout, first)?;
            operands(layout, TokenKind::Imp, rest)
        }
        Expr::Or { first, rest } => {
            expression(layout, first)?;
            operands(layout, TokenKind::Or, rest)
        }
        Expr::And { first, rest } => {
            expression(layout, first)?;
            operands(layout, TokenKind::And, rest)
        }
        Expr::Not { tokens, operand } => {
            nots(layout, tokens)?;
            expression(layout, operand)
        }
        Expr::Related {
            left,
            relation,
            right,
            ..
        } => {
            expression(layout, left)?;
            layout.word(relation_kind(*relation))?;
            expression(layout, right)
        }
        Expr::Member {
            object,
            membership,
            class,
            ..
        } => {
            expression(layout, object)?;
            layout.word(membership_kind(*membership))?;
            layout.name(class)
        }
        Expr::Concatenation { first, rest } => {
            expression(layout, first)?;
            operands(layout, TokenKind::Ampersand, rest)
        }
        Expr::Sum { sign, first, rest } => {
            leading_sign(layout, sign)?;
            expression(layout, first)?;
            terms(layout, rest)
        }
        Expr::Product { first, rest } => {
            expression(layout, first)?;
            factors(layout, rest)
        }
        Expr::Power { first, rest } => {
            expression(layout, first)?;
            operands(layout, TokenKind::Power, rest)
        }
        Expr::Postfix { primary, rest } => {
            expression(layout, primary)?;
            selectors(layout, rest)
        }
        Expr::Integer { value, .. } => layout.integer(*value),
        Expr::Character { value, .. } => layout.character(*value),
        Expr::Text { value, .. } => layout.text(value),
        Expr::True { .. } => layout.word(TokenKind::True),
        Expr::False { .. } => layout.word(TokenKind::False),
        Expr::NoObject { .. } => layout.word(TokenKind::None),
        Expr::Notext { .. } => layout.word(TokenKind::Notext),
        Expr::Named { name, arguments } => {
            layout.name(name)?;
            actuals(layout, arguments)
        }
        Expr::This { class, .. } => {
            layout.word(TokenKind::This)?;
            layout.name(class)
        }
        Expr::New {
            class,
            arguments,
            ..
        } => {
            layout.word(TokenKind::New)?;
            layout.name(class)?;
            actuals(layout, arguments)
        }
        Expr::Parentheses { inner, .. } => {
            layout.word(TokenKind::Open)?;
            expression(layout, inner)?;
            layout.word(TokenKind::Close)
        }
    }
}

// `not`, as often as it is written.
#[tactic(auto, using(crate::proofs::Signs::not_rules))]
fn nots(layout: &mut Layout, tokens: &[TokenNo]) -> Result<(), AllocError>
    ensures { OnOk result (Prints layout.old layout.new (each of_not tokens.now)) }
{
    for _token in tokens {
        layout.word(TokenKind::Not)?;
    }
    Ok(())
}

// The further operands of one operator.
#[cycle(expression)]
#[tactic(auto, using(crate::proofs::Expressions::expression_rules))]
fn operands(layout: &mut Layout, operator: TokenKind, list: &[Operand]) -> Result<(), AllocError>
    ensures { OnOk result (Prints layout.old layout.new (each (of_operand operator) list.now)) }
{
    for item in list {
        layout.word(operator)?;
        expression(layout, &item.operand)?;
    }
    Ok(())
}

#[cycle(expression)]
#[tactic(auto, using(crate::proofs::Expressions::expression_rules))]
fn terms(layout: &mut Layout, list: &[Term]) -> Result<(), AllocError>
    ensures { OnOk result (Prints layout.old layout.new (each of_term list.now)) }
{
    for item in list {
        layout.word(sign_kind(item.sign))?;
        expression(layout, &item.term)?;
    }
    Ok(())
}

#[cycle(expression)]
#[tactic(auto, using(crate::proofs::Expressions::expression_rules))]
fn factors(layout: &mut Layout, list: &[Factor]) -> Result<(), AllocError>
    ensures { OnOk result (Prints layout.old layout.new (each of_factor list.now)) }
{
    for item in list {
        layout.word(multiplication_kind(item.operator))?;
        expression(layout, &item.factor)?;
    }
    Ok(())
}

#[cycle(expression)]
#[tactic(auto, using(crate::proofs::Expressions::expression_rules))]
fn selectors(layout: &mut Layout, list: &[Selector]) -> Result<(), AllocError>
    ensures { OnOk result (Prints layout.old layout.new (each of_selector list.now)) }
{
    for item in list {
        selector(layout, item)?;
    }
    Ok(())
}

#[cycle(expression)]
#[tactic(auto, using(crate::proofs::Expressions::expression_rules))]
fn selector(layout: &mut Layout, selector: &Selector) -> Result<(), AllocError>
    ensures { OnOk result (Prints layout.old layout.new (of_selector selector.now)) }
{
    match selector {
        Selector::Dot {
            name,
            arguments,
            ..
        } => {
            layout.word(TokenKind::Dot)?;
            layout.name(name)?;
            actuals(layout, arguments)
        }
        Selector::Qua { class, .. } => {
            layout.word(TokenKind::Qua)?;
            layout.name(class)
        }
    }
}

/// Actual parameters or subscripts in their parentheses, where there are some.
#[cycle(expression)]
#[tactic(auto, using(crate::proofs::Expressions::expression_rules))]
pub(crate) fn actuals(layout: &mut Layout, list: &[Expr]) -> Result<(), AllocError>
    ensures { OnOk result (Prints layout.old layout.new (of_actuals list.now)) }
{
    let Some((first, rest)) = list.split_first() else {
        return Ok(());
    };
    layout.word(TokenKind::Open)?;
    expression(layout, first)?;
    for item in rest {
        layout.word(TokenKind::Comma)?;
        expression(layout, item)?;
    }
    layout.word(TokenKind::Close)
}
