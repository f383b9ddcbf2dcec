//! Assignments.
ghost use Rattle.std.specs.Prelude.{◌≡◌, map};
ghost use Rattle.sim_tree.specs.SyntaxOf.{syntax_of};
ghost use Rattle.sim_tree.specs.SyntaxOfProgram.{right_side_syntax};
ghost use Rattle.sim_scope.specs.Assignments.{assigned_to, call_assigned, compared, first_sign, no_target, own_result, fault_unless, procedure_assigned, result_assigned, same_sign, side_unless, sign_agrees, standard_assigned, takes, target, targets, told, types_assigned, value_assigned, with_left, is_text_copied};
ghost use Rattle.sim_scope.specs.Judged.{Judges};
ghost use Rattle.sim_static.specs.StatementWalk.{FindsLeft, FindsLefts, IsLast, Tells, of_assignment};

use sim_base::{DeclNo, Rule, TokenNo};
use sim_scope::{
    Barred, Extent, Fault, Found, LeftSides, Outcome, Scopes, Side, SimType, StandardName,
    entry_of, lesser,
};
use sim_tree::{Assigned, Assignment, Expr, first_token};
use sim_types::{bars, called, either, is_stream, judge, misfit_of, operand, result_in};

#[tactic(auto, unfolding(sim_scope::specs::Assignments::no_target, sim_scope::specs::Judged::telling, sim_scope::specs::Runs::run))]
fn no_target(found: &mut Found, first: TokenNo, rule: Rule) -> Side
    ensures { Judges found.old found.new result (no_target first.0 rule) }
{
    found.note(first, rule);
    Side { first, ty: None }
}

/// A left side of a type, unless a rule bars it.
#[tactic(auto, unfolding(sim_scope::specs::Judged::gives, sim_scope::specs::Runs::run))]
fn side_unless(found: &mut Found, first: TokenNo, ty: SimType, barred: bool) -> Side
    ensures { Judges found.old found.new result (side_unless first.0 ty barred) }
{
    Side {
        first,
        ty: if barred { None } else { Some(ty) },
    }
}

/// A left side of a type: its sign takes that type (`S13`), and it is a variable (`S14`).
fn targets(found: &mut Found, sign: Assignment, first: TokenNo, variable: bool, ty: SimType) -> Side
    ensures { Judges found.old found.new result (targets sign first.0 variable ty) }
{
    let wrong = bars(found, !takes(sign, ty), first, Rule::WrongType);
    let none = bars(found, !variable, first, Rule::LeftSideIsNoVariable);
    side_unless(found, first, ty, either(wrong, none))
}

/// Whether a sign copies the characters of a text.
fn is_text_copied(sign: Assignment, ty: SimType) -> bool
    ensures { result ≡ is_text_copied sign ty }
{
    match (sign, ty) {
        (Assignment::Value, SimType::Text) => true,
        _ => false,
    }
}

fn value_assigned(found: &mut Found, sign: Assignment, first: TokenNo, ty: SimType) -> Side
    ensures { Judges found.old found.new result (value_assigned sign first.0 ty) }
{
    targets(found, sign, first, is_text_copied(sign, ty), ty)
}

/// A left side that is no identifier of a procedure.
#[tactic(auto, unfolding(sim_scope::specs::Assignments::assigned_to, sim_scope::specs::Judged::gives, sim_scope::specs::Runs::run))]
fn assigned_to(found: &mut Found, sign: Assignment, first: TokenNo, outcome: Outcome) -> Side
    ensures { Judges found.old found.new result (assigned_to sign first.0 outcome) }
{
    match outcome {
        Outcome::Variable(ty) => targets(found, sign, first, true, ty),
        Outcome::Value(ty) => value_assigned(found, sign, first, ty),
        Outcome::Called(ty) => value_assigned(found, sign, first, ty),
        Outcome::Constant(ty) => targets(found, sign, first, false, ty),
        Outcome::Array(_) => no_target(found, first, Rule::WrongKind),
        Outcome::Class => no_target(found, first, Rule::WrongKind),
        Outcome::Barred(Barred::Array(_)) => no_target(found, first, Rule::WrongKind),
        Outcome::Barred(Barred::Class) => no_target(found, first, Rule::WrongKind),
        Outcome::NoValue => no_target(found, first, Rule::WrongType),
        Outcome::NoValueInParentheses => no_target(found, first, Rule::WrongType),
        _ => Side { first, ty: None },
    }
}

fn call_assigned(
    scopes: &Scopes,
    found: &mut Found,
    sign: Assignment,
    first: TokenNo,
    outcome: Outcome,
) -> Side
    ensures { Judges found.old found.new result (call_assigned scopes.now sign first.0 outcome) }
{
    let outcome = called(scopes, found, outcome);
    assigned_to(found, sign, first, outcome)
}

/// A call as a left side.
fn result_assigned(
    scopes: &Scopes,
    found: &mut Found,
    sign: Assignment,
    first: TokenNo,
    outcome: Outcome,
    result_type: Option<SimType>,
) -> Side
    ensures { Judges found.old found.new result (result_assigned scopes.now sign first.0 outcome result_type) }
{
    match result_type {
        Some(ty) => {
            if is_text_copied(sign, ty) {
                call_assigned(scopes, found, sign, first, outcome)
            } else {
                targets(found, sign, first, false, ty)
            }
        }
        None => no_target(found, first, Rule::WrongType),
    }
}

/// The result of a procedure as a left side in its own text.
fn own_result(
    found: &mut Found,
    sign: Assignment,
    first: TokenNo,
    result_type: Option<SimType>,
) -> Side
    ensures { Judges found.old found.new result (own_result sign first.0 result_type) }
{
    match result_type {
        Some(ty) => targets(found, sign, first, true, ty),
        None => no_target(found, first, Rule::WrongType),
    }
}

/// A procedure identifier as a left side.
fn procedure_assigned(
    scopes: &Scopes,
    found: &mut Found,
    sign: Assignment,
    first: TokenNo,
    outcome: Outcome,
    declaration: DeclNo,
    own: Option<DeclNo>,
) -> Side
    ensures { Judges found.old found.new result (procedure_assigned scopes.now sign first.0 outcome declaration own) }
{
    match own {
        Some(procedure) => {
            own_result(found, sign, first, result_in(entry_of(scopes, procedure)))
        }
        None => {
            let result_type = result_in(entry_of(scopes, declaration));
            result_assigned(scopes, found, sign, first, outcome, result_type)
        }
    }
}

/// A standard name as a left side.
fn standard_assigned(
    scopes: &Scopes,
    found: &mut Found,
    sign: Assignment,
    first: TokenNo,
    outcome: Outcome,
    name: StandardName,
) -> Side
    ensures { Judges found.old found.new result (standard_assigned scopes.now sign first.0 outcome name) }
{
    if is_stream(name) {
        call_assigned(scopes, found, sign, first, outcome)
    } else {
        result_assigned(scopes, found, sign, first, outcome, name.signature().result)
    }
}

/// A left side.
#[tactic(auto, unfolding(sim_scope::specs::Assignments::target))]
fn target(
    scopes: &Scopes,
    found: &mut Found,
    sign: Assignment,
    first: TokenNo,
    outcome: Outcome,
) -> Side
    ensures { Judges found.old found.new result (target scopes.now sign first.0 outcome) }
{
    match outcome {
        Outcome::Procedure {
            declaration,
            own,
            ..
        } => { procedure_assigned(scopes, found, sign, first, outcome, declaration, own) }
        Outcome::Standard { name, .. } => {
            standard_assigned(scopes, found, sign, first, outcome, name)
        }
        _ => assigned_to(found, sign, first, outcome),
    }
}

fn same_sign(first: Assignment, sign: Assignment) -> bool
    ensures { result ≡ same_sign first sign }
{
    match (first, sign) {
        (Assignment::Value, Assignment::Value) => true,
        (Assignment::Reference, Assignment::Reference) => true,
        _ => false,
    }
}

/// A sign that is another one than the first.
#[tactic(auto, unfolding(sim_scope::specs::Assignments::sign_agrees, sim_scope::specs::Assignments::fine, sim_scope::specs::Assignments::wrong, sim_scope::specs::Judged::gives, sim_scope::specs::Judged::telling, sim_scope::specs::Runs::run))]
fn sign_agrees(found: &mut Found, first: Assignment, sign: Assignment, token: TokenNo)
    ensures { Judges found.old found.new result (sign_agrees first sign token.0) }
{
    if !same_sign(first, sign) {
        found.note(token, Rule::LeftSideIsNoVariable);
    }
}

/// Whether a sign assigns values of a type.
pub(crate) fn takes(sign: Assignment, ty: SimType) -> bool
    ensures { result ≡ takes sign ty }
{
    match (sign, ty) {
        (Assignment::Value, SimType::Ref(_)) => false,
        (Assignment::Value, SimType::NoneType) => false,
        (Assignment::Value, _) => true,
        (Assignment::Reference, SimType::Ref(_)) => true,
        (Assignment::Reference, SimType::NoneType) => true,
        (Assignment::Reference, SimType::Text) => true,
        (Assignment::Reference, _) => false,
    }
}

fn fault_unless(token: TokenNo, rule: Option<Rule>) -> Option<Fault>
    ensures { result ≡ fault_unless token.0 rule }
{
    match rule {
        Some(rule) => Some(Fault { token, rule }),
        None => None,
    }
}

/// What does not fit between a left side and the value: `S13`, and `S16` at the value where both are references.
fn types_assigned(scopes: &Scopes, left: Side, value: Side) -> Option<Fault>
    ensures { result ≡ types_assigned scopes.now value left.ty value.ty }
{
    match (left.ty, value.ty) {
        (Some(wanted), Some(ty)) => { fault_unless(value.first, misfit_of(scopes, wanted, ty)) }
        _ => None,
    }
}

/// One more left side among those so far.
#[tactic(auto, unfolding(sim_scope::specs::Assignments::with_left))]
fn with_left(scopes: &Scopes, value: Side, sides: LeftSides, left: Side) -> LeftSides
    ensures { result ≡ with_left scopes.now value sides left }
{
    LeftSides {
        typed: sides.typed && left.ty.is_some(),
        misfit: match types_assigned(scopes, left, value) {
            Some(fault) => lesser(sides.misfit, fault),
            None => sides.misfit,
        },
    }
}

/// A misfit, where there is one.
#[tactic(auto, unfolding(sim_scope::specs::Assignments::fine, sim_scope::specs::Assignments::wrong, sim_scope::specs::Judged::gives, sim_scope::specs::Judged::telling, sim_scope::specs::Runs::run))]
pub(crate) fn told(found: &mut Found, misfit: Option<Fault>)
    ensures { Judges found.old found.new result (told misfit) }
{
    if let Some(fault) = misfit {
        found.note(fault.token, fault.rule);
    }
}

/// What does not fit counts where all parts have a type.
#[tactic(auto, unfolding(sim_scope::specs::Assignments::compared, sim_scope::specs::Assignments::fine, sim_scope::specs::Judged::gives, sim_scope::specs::Runs::run))]
fn compared(found: &mut Found, sides: LeftSides)
    ensures { Judges found.old found.new result (compared sides) }
{
    if sides.typed {
        told(found, sides.misfit);
    }
}

fn first_sign(parts: &[Assigned]) -> Assignment
    ensures { result ≡ first_sign (map right_side_syntax parts.now) }
{
    match parts.first() {
        Some(part) => part.sign,
        None => Assignment::Value,
    }
}

/// The expression whose value is assigned.
#[tactic(auto, using(crate::proofs::AssignmentSteps::lasts))]
fn last_value<'a>(left: &'a Expr, parts: &'a [Assigned]) -> &'a Expr
    ensures { IsLast result.now left.now parts.now }
{
    if parts.is_empty() {
        return left;
    }
    &parts[parts.len() - 1].value
}

/// A left side with the sign behind it.
#[tactic(auto, using(crate::proofs::AssignmentSteps::left_in_steps))]
fn left_side(
    scopes: &Scopes,
    found: &mut Found,
    first: Assignment,
    part: &Assigned,
    left: &Expr,
) -> Side
    ensures { FindsLeft scopes.now found.old found.new first part.now left.now result }
{
    sign_agrees(found, first, part.sign, part.token);
    let outcome = judge(scopes, Extent::Statement, found, left);
    target(scopes, found, part.sign, first_token(left), outcome)
}

/// The left sides, against the value.
#[tactic(auto, using(crate::proofs::AssignmentSteps::lefts_in_steps))]
fn left_sides(
    scopes: &Scopes,
    found: &mut Found,
    left: &Expr,
    parts: &[Assigned],
    value: Side,
) -> LeftSides
    ensures { FindsLefts scopes.now found.old found.new left.now parts.now value result }
{
    let first = first_sign(parts);
    let mut sides = LeftSides {
        typed: true,
        misfit: None,
    };
    let mut side = left;
    for part in parts {
        let target = left_side(scopes, found, first, part, side);
        sides = with_left(scopes, value, sides, target);
        side = &part.value;
    }
    sides
}

/// An assignment.
#[tactic(auto, using(crate::proofs::AssignmentSteps::assignment_in_steps))]
pub(crate) fn assignment(scopes: &Scopes, found: &mut Found, left: &Expr, parts: &[Assigned])
    ensures { Tells found.old found.new (of_assignment scopes.now left.now parts.now) }
{
    let value = operand(scopes, Extent::Statement, found, last_value(left, parts));
    let sides = left_sides(scopes, found, left, parts, value);
    compared(found, sides);
}
