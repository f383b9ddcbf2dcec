//! What an expression is where a value is needed, and what operators make of operands.
ghost use Rattle.std.specs.Prelude.{◌≡◌, ◌||◌, length};
ghost use Rattle.sim_scope.specs.Judged.{Judges, bars, next};
ghost use Rattle.sim_scope.specs.Scopes.{entry_of, formals_of};
ghost use Rattle.sim_scope.specs.Standard.{is_standard_class};
ghost use Rattle.sim_scope.specs.Outcomes.{barred_called, breaks, call_of, called, has, in_parentheses, is_stream, one, parenthesized, procedure_called, side, side_of, signature_called, standard_called, three, two, type_in, value_of, valued, varies, without_type};

use crate::fit::{common_type, is_same, operands_fit};
use crate::headings::formals_of;
use sim_base::{DeclNo, Rule, TokenNo};
use sim_scope::{
    Barred, Entry, Fit, Found, Outcome, Scopes, Side, Signature, SimType, StandardName, entry_of,
};
use sim_tree::Operator;

/// A value of a type, at the token that names the expression.
#[tactic(auto, unfolding(sim_scope::specs::Outcomes::has, sim_scope::specs::Judged::telling, sim_scope::specs::Runs::run))]
pub(crate) fn has(found: &mut Found, token: TokenNo, ty: SimType) -> Outcome
    ensures { Judges found.old found.new result (has token.0 ty) }
{
    found.typed(token, ty);
    Outcome::Value(ty)
}

/// A variable of a type.
#[tactic(auto, unfolding(sim_scope::specs::Outcomes::varies, sim_scope::specs::Judged::telling, sim_scope::specs::Runs::run))]
pub(crate) fn varies(found: &mut Found, token: TokenNo, ty: SimType) -> Outcome
    ensures { Judges found.old found.new result (varies token.0 ty) }
{
    found.typed(token, ty);
    Outcome::Variable(ty)
}

/// A rule at a token, which is broken there where this is so.
#[tactic(auto, unfolding(sim_scope::specs::Judged::bars, sim_scope::specs::Judged::gives, sim_scope::specs::Judged::telling, sim_scope::specs::Runs::run))]
pub fn bars(found: &mut Found, so: bool, token: TokenNo, rule: Rule) -> bool
    ensures { Judges found.old found.new result (bars so token.0 rule) }
{
    if so {
        found.note(token, rule);
    }
    so
}

/// Whether one of two rules is broken.
pub fn either(first: bool, second: bool) -> bool
    ensures { result ≡ (first || second) }
{
    first || second
}

/// A rule is broken at a token, and the expression is nothing.
#[tactic(auto, unfolding(sim_scope::specs::Outcomes::breaks, sim_scope::specs::Judged::telling, sim_scope::specs::Runs::run))]
pub(crate) fn breaks(found: &mut Found, token: TokenNo, rule: Rule) -> Outcome
    ensures { Judges found.old found.new result (breaks token.0 rule) }
{
    found.note(token, rule);
    Outcome::Refused
}

/// What a call is.
pub(crate) fn call_of(result_type: Option<SimType>) -> Outcome
    ensures { result ≡ call_of result_type }
{
    match result_type {
        Some(ty) => Outcome::Called(ty),
        None => Outcome::NoValue,
    }
}

#[tactic(auto, unfolding(sim_scope::specs::Judged::gives, sim_scope::specs::Runs::run))]
fn procedure_called(
    found: &mut Found,
    token: TokenNo,
    formals: usize,
    entry: Option<Entry>,
) -> Outcome
    ensures { Judges found.old found.new result (procedure_called token.0 formals entry) }
{
    match entry {
        Some(Entry::Procedure { result, .. }) => {
            if formals == 0 {
                call_of(result)
            } else {
                breaks(found, token, Rule::WrongNumber)
            }
        }
        Some(Entry::Virtual { result, .. }) => call_of(result),
        Some(Entry::Formal(formal)) => call_of(formal.ty),
        Some(
            Entry::Attribute {
                parameter: None,
                result,
                ..
            },
        ) => call_of(result),
        Some(
            Entry::Attribute {
                parameter: Some(_),
                ..
            },
        ) => breaks(found, token, Rule::WrongNumber),
        _ => Outcome::Refused,
    }
}

/// Whether a standard name is `sysin` or `sysout`.
pub fn is_stream(name: StandardName) -> bool
    ensures { result ≡ is_stream name }
{
    match name {
        StandardName::Sysin => true,
        StandardName::Sysout => true,
        _ => false,
    }
}

/// Whether a standard name is the class `simset` or `simulation`.
#[tactic(auto, unfolding(sim_scope::specs::Standard::is_standard_class))]
pub fn is_standard_class(name: StandardName) -> bool
    ensures { result ≡ is_standard_class name }
{
    match name {
        StandardName::Prefix(_) => true,
        _ => false,
    }
}

#[tactic(auto, unfolding(sim_scope::specs::Judged::gives, sim_scope::specs::Runs::run))]
fn signature_called(found: &mut Found, token: TokenNo, signature: Signature) -> Outcome
    ensures { Judges found.old found.new result (signature_called token.0 signature) }
{
    match signature.first {
        Some(_) => breaks(found, token, Rule::WrongNumber),
        None => call_of(signature.result),
    }
}

fn standard_called(found: &mut Found, token: TokenNo, name: StandardName) -> Outcome
    ensures { Judges found.old found.new result (standard_called token.0 name) }
{
    if is_stream(name) {
        breaks(found, token, Rule::StandardNameLeftOut)
    } else {
        signature_called(found, token, name.signature())
    }
}

/// The call of a procedure without actuals.
fn procedure_at(scopes: &Scopes, found: &mut Found, declaration: DeclNo, token: TokenNo) -> Outcome
    ensures { Judges found.old found.new result (procedure_called token.0 (length (formals_of scopes.now declaration)) (entry_of scopes.now declaration)) }
{
    let formals = formals_of(scopes, declaration).len();
    procedure_called(found, token, formals, entry_of(scopes, declaration))
}

/// The call of a procedure that may not stand there: it has no type.
fn barred_procedure(
    scopes: &Scopes,
    found: &mut Found,
    declaration: DeclNo,
    token: TokenNo,
) -> Outcome
    ensures { Judges found.old found.new result (next (procedure_called token.0 (length (formals_of scopes.now declaration)) (entry_of scopes.now declaration)) without_type) }
{
    procedure_at(scopes, found, declaration, token);
    Outcome::Refused
}

fn barred_standard(found: &mut Found, name: StandardName, token: TokenNo) -> Outcome
    ensures { Judges found.old found.new result (next (standard_called token.0 name) without_type) }
{
    standard_called(found, token, name);
    Outcome::Refused
}

/// The call of an identifier that may not stand there.
#[tactic(auto, unfolding(sim_scope::specs::Judged::gives, sim_scope::specs::Runs::run))]
fn barred_called(scopes: &Scopes, found: &mut Found, barred: Barred) -> Outcome
    ensures { Judges found.old found.new result (barred_called scopes.now barred) }
{
    match barred {
        Barred::Procedure { declaration, token } => {
            barred_procedure(scopes, found, declaration, token)
        }
        Barred::Standard { name, token } => barred_standard(found, name, token),
        Barred::Array(_) => Outcome::Barred(barred),
        Barred::Class => Outcome::Barred(barred),
    }
}

/// An identifier alone that is a call.
#[tactic(auto, unfolding(sim_scope::specs::Outcomes::called, sim_scope::specs::Judged::gives, sim_scope::specs::Runs::run))]
pub fn called(scopes: &Scopes, found: &mut Found, outcome: Outcome) -> Outcome
    ensures { Judges found.old found.new result (called scopes.now outcome) }
{
    match outcome {
        Outcome::Procedure {
            declaration,
            token,
            ..
        } => { procedure_at(scopes, found, declaration, token) }
        Outcome::Standard { name, token } => standard_called(found, token, name),
        Outcome::Barred(barred) => barred_called(scopes, found, barred),
        _ => outcome,
    }
}

/// What an expression is where a value is needed, a call of an identifier alone done.
#[tactic(auto, unfolding(sim_scope::specs::Outcomes::value_of, sim_scope::specs::Judged::gives, sim_scope::specs::Runs::run))]
fn value_of(found: &mut Found, first: TokenNo, outcome: Outcome) -> Outcome
    ensures { Judges found.old found.new result (value_of first.0 outcome) }
{
    match outcome {
        Outcome::NoValue => breaks(found, first, Rule::WrongType),
        Outcome::NoValueInParentheses => breaks(found, first, Rule::WrongType),
        Outcome::Value(ty) => Outcome::Value(ty),
        Outcome::Called(ty) => Outcome::Value(ty),
        Outcome::Variable(ty) => Outcome::Value(ty),
        Outcome::Constant(ty) => Outcome::Value(ty),
        Outcome::Array(_) => breaks(found, first, Rule::WrongKind),
        Outcome::Class => breaks(found, first, Rule::WrongKind),
        Outcome::Barred(Barred::Array(_)) => breaks(found, first, Rule::WrongKind),
        Outcome::Barred(Barred::Class) => breaks(found, first, Rule::WrongKind),
        _ => Outcome::Refused,
    }
}

/// What an expression is where a value is needed.
pub(crate) fn valued(
    scopes: &Scopes,
    found: &mut Found,
    first: TokenNo,
    outcome: Outcome,
) -> Outcome
    ensures { Judges found.old found.new result (valued scopes.now first.0 outcome) }
{
    let outcome = called(scopes, found, outcome);
    value_of(found, first, outcome)
}

/// The type of a value.
pub(crate) fn type_in(outcome: Outcome) -> Option<SimType>
    ensures { result ≡ type_in outcome }
{
    match outcome {
        Outcome::Value(ty) => Some(ty),
        _ => None,
    }
}

/// An operand: a value, with its first token.
pub(crate) fn side(scopes: &Scopes, found: &mut Found, first: TokenNo, outcome: Outcome) -> Side
    ensures { Judges found.old found.new result (side scopes.now first.0 outcome) }
{
    let value = valued(scopes, found, first, outcome);
    side_of(first, type_in(value))
}

fn side_of(first: TokenNo, ty: Option<SimType>) -> Side
    ensures { result ≡ side_of first.0 ty }
{
    Side { first, ty }
}

#[tactic(auto, unfolding(sim_scope::specs::Outcomes::parenthesized, sim_scope::specs::Judged::gives, sim_scope::specs::Runs::run))]
fn parenthesized(found: &mut Found, first: TokenNo, outcome: Outcome) -> Outcome
    ensures { Judges found.old found.new result (parenthesized first.0 outcome) }
{
    match outcome {
        Outcome::NoValue => Outcome::NoValueInParentheses,
        Outcome::NoValueInParentheses => Outcome::NoValueInParentheses,
        _ => value_of(found, first, outcome),
    }
}

/// What an expression in parentheses is.
pub(crate) fn in_parentheses(
    scopes: &Scopes,
    found: &mut Found,
    first: TokenNo,
    outcome: Outcome,
) -> Outcome
    ensures { Judges found.old found.new result (in_parentheses scopes.now first.0 outcome) }
{
    let outcome = called(scopes, found, outcome);
    parenthesized(found, first, outcome)
}

/// Two operands of an operator.
#[tactic(auto, unfolding(sim_scope::specs::Outcomes::two, sim_scope::specs::Judged::gives, sim_scope::specs::Runs::run))]
pub(crate) fn two(
    found: &mut Found,
    operator: Operator,
    token: TokenNo,
    left: Side,
    right: Side,
) -> Outcome
    ensures { Judges found.old found.new result (two operator token.0 left right) }
{
    match (left.ty, right.ty) {
        (Some(first), Some(second)) => match operands_fit(operator, first, second) {
            Fit::Fits(ty) => has(found, token, ty),
            Fit::FirstWrong => breaks(found, left.first, Rule::WrongType),
            Fit::SecondWrong => breaks(found, right.first, Rule::WrongType),
        },
        _ => Outcome::Refused,
    }
}

/// One operand, and an expression of the same type.
#[tactic(auto, unfolding(sim_scope::specs::Outcomes::one, sim_scope::specs::Judged::gives, sim_scope::specs::Runs::run))]
pub(crate) fn one(found: &mut Found, wanted: SimType, token: TokenNo, operand: Side) -> Outcome
    ensures { Judges found.old found.new result (one wanted token.0 operand) }
{
    match operand.ty {
        Some(ty) => {
            if is_same(ty, wanted) {
                has(found, token, wanted)
            } else {
                breaks(found, operand.first, Rule::WrongType)
            }
        }
        None => Outcome::Refused,
    }
}

/// A condition and two arms.
#[tactic(auto, unfolding(sim_scope::specs::Outcomes::three, sim_scope::specs::Judged::gives, sim_scope::specs::Runs::run))]
pub(crate) fn three(
    scopes: &Scopes,
    found: &mut Found,
    token: TokenNo,
    condition: Side,
    first: Side,
    second: Side,
) -> Outcome
    ensures { Judges found.old found.new result (three scopes.now token.0 condition first second) }
{
    match (condition.ty, first.ty, second.ty) {
        (Some(ty), Some(one), Some(other)) => {
            if !is_same(ty, SimType::Boolean) {
                return breaks(found, condition.first, Rule::WrongType);
            }
            match common_type(scopes, one, other) {
                Some(ty) => has(found, token, ty),
                None => breaks(found, second.first, Rule::WrongType),
            }
        }
        _ => Outcome::Refused,
    }
}
