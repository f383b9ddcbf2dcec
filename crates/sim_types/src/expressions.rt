//! The walk over an expression.
ghost use Rattle.std.specs.Prelude.{map};
ghost use Rattle.sim_tree.specs.SyntaxOf.{factor_syntax, operand_syntax, selector_syntax, term_syntax, with_operator};
ghost use Rattle.sim_scope.specs.Actuals.{no_actuals};
ghost use Rattle.sim_scope.specs.ExpressionWalk.{Finds, FindsActuals, FindsNamed, FindsNot, FindsSelected, FindsSide, FindsTail, FindsTaken};

use crate::bindings::{attribute, bound};
use crate::calls::used;
use crate::outcomes::{has, in_parentheses, one, side, three, two};
use crate::parameters::more;
use crate::references::{class_named, member, new_object, qualified, this_object};
use sim_base::TokenNo;
use sim_scope::{Actuals, Denotation, Extent, Found, Outcome, Scopes, Side, SimType};
use sim_tree::{Expr, Factor, Identifier, Operand, Operator, Selector, Term, first_token};

/// What an expression is.
#[cycle(judge)]
#[tactic(auto, using(crate::proofs::Walks::walks))]
pub fn judge(scopes: &Scopes, extent: Extent, found: &mut Found, expr: &Expr) -> Outcome
    ensures { Finds scopes.now extent found.old found.new result expr.now }
{
    match expr {
        Expr::If {
            token,
            condition,
            first,
            second,
        } => {
            let condition = operand(scopes, extent, found, condition);
            let first = operand(scopes, extent, found, first);
            let second = operand(scopes, extent, found, second);
            three(scopes, found, *token, condition, first, second)
        }
        Expr::OrElse { first, rest } => {
            let left = judge(scopes, extent, found, first);
            operands(
                scopes,
                extent,
                found,
                Operator::OrElse,
                first_token(first),
                left,
                rest,
            )
        }
        Expr::AndThen { first, rest } => {
            let left = judge(scopes, extent, found, first);
            operands(
                scopes,
                extent,
                found,
                Operator::AndThen,
                first_token(first),
                left,
                rest,
            )
        }
        Expr::Eqv { first, rest } => {
            let left = judge(scopes, extent, found, first);
            operands(
                scopes,
                extent,
                found,
                Operator::Equivalent,
                first_token(first),
                left,
                rest,
            )
        }
        Expr::Imp { first, rest } => {
            let left = judge(scopes, extent, found, first);
            operands(
                scopes,
                extent,
                found,
                Operator::Implies,
                first_token(first),
                left,
                rest,
            )
        }
        Expr::Or { first, rest } => {
            let left = judge(scopes, extent, found, first);
            operands(
                scopes,
                extent,
                found,
                Operator::Or,
                first_token(first),
                left,
                rest,
            )
        }
        Expr::And { first, rest } => {
            let left = judge(scopes, extent, found, first);
            operands(
                scopes,
                extent,
                found,
                Operator::And,
                first_token(first),
                left,
                rest,
            )
        }
        Expr::Not { tokens, operand } => negated(scopes, extent, found, tokens, operand),
        Expr::Related {
            left,
            token,
            relation,
            right,
        } => {
            let left = operand(scopes, extent, found, left);
            let right = operand(scopes, extent, found, right);
            two(found, Operator::Relate(*relation), *token, left, right)
        }
        Expr::Concatenation { first, rest } => {
            let left = judge(scopes, extent, found, first);
            operands(
                scopes,
                extent,
                found,
                Operator::Concatenate,
                first_token(first),
                left,
                rest,
            )
        }
        Expr::Sum { sign, first, rest } => match sign {
            Some(sign) => {
                let value = operand(scopes, extent, found, first);
                let left = one(found, SimType::Integer, sign.token, value);
                terms(scopes, extent, found, sign.token, left, rest)
            }
            None => {
                let left = judge(scopes, extent, found, first);
                terms(scopes, extent, found, first_token(first), left, rest)
            }
        },
        Expr::Product { first, rest } => {
            let left = judge(scopes, extent, found, first);
            factors(scopes, extent, found, first_token(first), left, rest)
        }
        Expr::Power { first, rest } => {
            let left = judge(scopes, extent, found, first);
            operands(
                scopes,
                extent,
                found,
                Operator::Power,
                first_token(first),
                left,
                rest,
            )
        }
        Expr::Postfix { primary, rest } => {
            let object = judge(scopes, extent, found, primary);
            selections(scopes, extent, found, first_token(primary), object, rest)
        }
        Expr::Integer { token, .. } => has(found, *token, SimType::Integer),
        Expr::Character { token, .. } => has(found, *token, SimType::Character),
        Expr::Text { token, .. } => has(found, *token, SimType::Text),
        Expr::True { token } => has(found, *token, SimType::Boolean),
        Expr::False { token } => has(found, *token, SimType::Boolean),
        Expr::NoObject { token } => has(found, *token, SimType::NoneType),
        Expr::Notext { token } => has(found, *token, SimType::Text),
        Expr::Named { name, arguments } => named(scopes, extent, found, name, arguments),
        Expr::Parentheses { inner, .. } => {
            let outcome = judge(scopes, extent, found, inner);
            in_parentheses(scopes, found, first_token(inner), outcome)
        }
        Expr::Member {
            object,
            token,
            class,
            ..
        } => {
            let object = operand(scopes, extent, found, object);
            let named = class_named(scopes, extent, found, class);
            member(scopes, found, *token, object, class, named)
        }
        Expr::This { token, class } => {
            let named = class_named(scopes, extent, found, class);
            this_object(scopes, extent, found, *token, class, named)
        }
        Expr::New {
            token,
            class,
            arguments,
        } => {
            let named = class_named(scopes, extent, found, class);
            let actuals = actuals(scopes, extent, found, named.denotes, arguments);
            new_object(scopes, found, *token, class, named, actuals)
        }
    }
}

/// An operand.
#[cycle(judge)]
#[tactic(auto, using(crate::proofs::Walks::walks))]
pub fn operand(scopes: &Scopes, extent: Extent, found: &mut Found, expr: &Expr) -> Side
    ensures { FindsSide scopes.now extent found.old found.new result expr.now }
{
    let outcome = judge(scopes, extent, found, expr);
    side(scopes, found, first_token(expr), outcome)
}

/// Further operands behind a first one, which begins at a token.
#[cycle(judge)]
#[tactic(auto, using(crate::proofs::Walks::walks))]
fn operands(
    scopes: &Scopes,
    extent: Extent,
    found: &mut Found,
    operator: Operator,
    first: TokenNo,
    left: Outcome,
    rest: &[Operand],
) -> Outcome
    ensures { FindsTail scopes.now extent found.old found.new result first left (map (with_operator operator) (map operand_syntax rest.now)) }
{
    let mut outcome = left;
    for item in rest {
        let left = side(scopes, found, first, outcome);
        let right = operand(scopes, extent, found, &item.operand);
        outcome = two(found, operator, item.token, left, right);
    }
    outcome
}

#[cycle(judge)]
#[tactic(auto, using(crate::proofs::Walks::walks))]
fn terms(
    scopes: &Scopes,
    extent: Extent,
    found: &mut Found,
    first: TokenNo,
    left: Outcome,
    rest: &[Term],
) -> Outcome
    ensures { FindsTail scopes.now extent found.old found.new result first left (map term_syntax rest.now) }
{
    let mut outcome = left;
    for item in rest {
        let left = side(scopes, found, first, outcome);
        let right = operand(scopes, extent, found, &item.term);
        outcome = two(found, Operator::Add(item.sign), item.token, left, right);
    }
    outcome
}

#[cycle(judge)]
#[tactic(auto, using(crate::proofs::Walks::walks))]
fn factors(
    scopes: &Scopes,
    extent: Extent,
    found: &mut Found,
    first: TokenNo,
    left: Outcome,
    rest: &[Factor],
) -> Outcome
    ensures { FindsTail scopes.now extent found.old found.new result first left (map factor_syntax rest.now) }
{
    let mut outcome = left;
    for item in rest {
        let left = side(scopes, found, first, outcome);
        let right = operand(scopes, extent, found, &item.factor);
        outcome = two(
            found,
            Operator::Multiply(item.operator),
            item.token,
            left,
            right,
        );
    }
    outcome
}

/// An operand behind one `not` or several, the last of which is judged first.
#[cycle(judge)]
#[tactic(auto, using(crate::proofs::Walks::walks))]
fn negated(
    scopes: &Scopes,
    extent: Extent,
    found: &mut Found,
    tokens: &[TokenNo],
    expr: &Expr,
) -> Outcome
    ensures { FindsNot scopes.now extent found.old found.new result tokens.now expr.now }
{
    let mut outcome = judge(scopes, extent, found, expr);
    let mut first = first_token(expr);
    for done in 0..tokens.len() {
        let token = tokens[tokens.len() - 1 - done];
        let value = side(scopes, found, first, outcome);
        outcome = one(found, SimType::Boolean, token, value);
        first = token;
    }
    outcome
}

/// What is taken of an object, one after the other.
#[cycle(judge)]
#[tactic(auto, using(crate::proofs::Walks::walks))]
fn selections(
    scopes: &Scopes,
    extent: Extent,
    found: &mut Found,
    first: TokenNo,
    object: Outcome,
    rest: &[Selector],
) -> Outcome
    ensures { FindsSelected scopes.now extent found.old found.new result first object (map selector_syntax rest.now) }
{
    let mut outcome = object;
    for item in rest {
        outcome = selection(scopes, extent, found, first, outcome, item);
    }
    outcome
}

/// What is taken of an object.
#[cycle(judge)]
#[tactic(auto, using(crate::proofs::Walks::walks))]
fn selection(
    scopes: &Scopes,
    extent: Extent,
    found: &mut Found,
    first: TokenNo,
    object: Outcome,
    selector: &Selector,
) -> Outcome
    ensures { FindsTaken scopes.now extent found.old found.new result first object selector.now }
{
    match selector {
        Selector::Dot {
            token,
            name,
            arguments,
        } => {
            let occurrence = attribute(scopes, extent, found, name, first, object);
            let actuals = actuals(scopes, extent, found, occurrence.denotes, arguments);
            used(scopes, found, *token, name, occurrence, actuals)
        }
        Selector::Qua { token, class } => {
            let object = side(scopes, found, first, object);
            let named = class_named(scopes, extent, found, class);
            qualified(scopes, found, *token, object, class, named)
        }
    }
}

/// An identifier, with actual parameters or subscripts or without.
#[cycle(judge)]
#[tactic(auto, using(crate::proofs::Walks::walks))]
fn named(
    scopes: &Scopes,
    extent: Extent,
    found: &mut Found,
    name: &Identifier,
    arguments: &[Expr],
) -> Outcome
    ensures { FindsNamed scopes.now extent found.old found.new result name.now arguments.now }
{
    let occurrence = bound(scopes, extent, found, name);
    let actuals = actuals(scopes, extent, found, occurrence.denotes, arguments);
    used(scopes, found, name.token, name, occurrence, actuals)
}

/// Actual parameters or subscripts of what an identifier denotes.
#[cycle(judge)]
#[tactic(auto, using(crate::proofs::Walks::walks))]
pub fn actuals(
    scopes: &Scopes,
    extent: Extent,
    found: &mut Found,
    denotation: Option<Denotation>,
    arguments: &[Expr],
) -> Actuals
    ensures { FindsActuals scopes.now extent found.old found.new denotation no_actuals result arguments.now }
{
    let mut actuals = Actuals {
        typed: true,
        count: 0,
        misfit: None,
    };
    for argument in arguments {
        let outcome = judge(scopes, extent, found, argument);
        actuals = more(
            scopes,
            found,
            denotation,
            actuals,
            first_token(argument),
            outcome,
        );
    }
    actuals
}
