//! The first token of an expression, and the one that names it.

ghost use Rattle.std.specs.Prelude.{List, ℕ, Some, ◌≡◌};
ghost use Rattle.sim_base.specs.declared.token.Token.{Token};
ghost use Rattle.sim_tree.specs.Derivation.{expression};
ghost use Rattle.sim_tree.specs.SyntaxOf.{FirstIs, NamingIs, SelectorIs};
ghost use Rattle.sim_tree.specs.Tree.{IsExpr, first_leaf};

use crate::expr::{Expr, Selector};
use sim_base::TokenNo;

/// The first token of an expression. Where tokens have it, that is the token at which the grammar reads it.
pub fn first_token(expr: &Expr) -> TokenNo
    ensures first { FirstIs result expr.now }
    ensures reads { (tokens : List Token) (depth start end : ℕ) → IsExpr tokens depth start expr.now end → result.0 ≡ start }
{
    first_leaf_of(expr)
}

// The first token of the syntax and of the derivation that the expression stands for.
#[tactic(auto, using(crate::proofs::FirstTokens::firsts))]
fn first_leaf_of(expr: &Expr) -> TokenNo
    ensures first { FirstIs result expr.now }
    ensures leaf { (i : ℕ) → first_leaf (expression expr.now) ≡ Some i → result.0 ≡ i }
{
    match expr {
        Expr::If { token, .. } => *token,
        Expr::OrElse { first, .. } => first_leaf_of(first),
        Expr::AndThen { first, .. } => first_leaf_of(first),
        Expr::Eqv { first, .. } => first_leaf_of(first),
        Expr::Imp { first, .. } => first_leaf_of(first),
        Expr::Or { first, .. } => first_leaf_of(first),
        Expr::And { first, .. } => first_leaf_of(first),
        Expr::Not { tokens, operand } => match tokens.first() {
            Some(token) => *token,
            None => first_leaf_of(operand),
        },
        Expr::Related { left, .. } => first_leaf_of(left),
        Expr::Member { object, .. } => first_leaf_of(object),
        Expr::Concatenation { first, .. } => first_leaf_of(first),
        Expr::Sum { sign, first, .. } => match sign {
            Some(sign) => sign.token,
            None => first_leaf_of(first),
        },
        Expr::Product { first, .. } => first_leaf_of(first),
        Expr::Power { first, .. } => first_leaf_of(first),
        Expr::Postfix { primary, .. } => first_leaf_of(primary),
        Expr::Integer { token, .. } => *token,
        Expr::Character { token, .. } => *token,
        Expr::Text { token, .. } => *token,
        Expr::True { token } => *token,
        Expr::False { token } => *token,
        Expr::NoObject { token } => *token,
        Expr::Notext { token } => *token,
        Expr::Named { name, .. } => name.token,
        Expr::This { token, .. } => *token,
        Expr::New { token, .. } => *token,
        Expr::Parentheses { token, .. } => *token,
    }
}

/// The token that names an expression: the operator that is applied last, the sign, the word, the dot, the constant, the
/// identifier or the parenthesis.
#[tactic(auto, using(crate::proofs::NamingTokens::names))]
pub fn naming_token(expr: &Expr) -> TokenNo
    ensures { NamingIs result expr.now }
{
    match expr {
        Expr::If { token, .. } => *token,
        Expr::OrElse { first, rest } => match rest.last() {
            Some(last) => last.token,
            None => naming_token(first),
        },
        Expr::AndThen { first, rest } => match rest.last() {
            Some(last) => last.token,
            None => naming_token(first),
        },
        Expr::Eqv { first, rest } => match rest.last() {
            Some(last) => last.token,
            None => naming_token(first),
        },
        Expr::Imp { first, rest } => match rest.last() {
            Some(last) => last.token,
            None => naming_token(first),
        },
        Expr::Or { first, rest } => match rest.last() {
            Some(last) => last.token,
            None => naming_token(first),
        },
        Expr::And { first, rest } => match rest.last() {
            Some(last) => last.token,
            None => naming_token(first),
        },
        Expr::Not { tokens, operand } => match tokens.first() {
            Some(token) => *token,
            None => naming_token(operand),
        },
        Expr::Related { token, .. } => *token,
        Expr::Member { token, .. } => *token,
        Expr::Concatenation { first, rest } => match rest.last() {
            Some(last) => last.token,
            None => naming_token(first),
        },
        Expr::Sum { sign, first, rest } => match rest.last() {
            Some(last) => last.token,
            None => match sign {
                Some(sign) => sign.token,
                None => naming_token(first),
            },
        },
        Expr::Product { first, rest } => match rest.last() {
            Some(last) => last.token,
            None => naming_token(first),
        },
        Expr::Power { first, rest } => match rest.last() {
            Some(last) => last.token,
            None => naming_token(first),
        },
        Expr::Postfix { primary, rest } => match rest.last() {
            Some(last) => selector_token(last),
            None => naming_token(primary),
        },
        Expr::Integer { token, .. } => *token,
        Expr::Character { token, .. } => *token,
        Expr::Text { token, .. } => *token,
        Expr::True { token } => *token,
        Expr::False { token } => *token,
        Expr::NoObject { token } => *token,
        Expr::Notext { token } => *token,
        Expr::Named { name, .. } => name.token,
        Expr::This { token, .. } => *token,
        Expr::New { token, .. } => *token,
        Expr::Parentheses { token, .. } => *token,
    }
}

// The token of the dot or of `qua`.
#[tactic(auto, using(crate::proofs::NamingTokens::names))]
fn selector_token(selector: &Selector) -> TokenNo
    ensures { SelectorIs result selector.now }
{
    match selector {
        Selector::Dot { token, .. } => *token,
        Selector::Qua { token, .. } => *token,
    }
}
