//! For statements.
ghost use Rattle.std.specs.Prelude.{◌≡◌, map};
ghost use Rattle.sim_tree.specs.SyntaxOfProgram.{element_syntax, reference_element_syntax};
ghost use Rattle.sim_scope.specs.Judged.{Judges};
ghost use Rattle.sim_scope.specs.Runs.{each};
ghost use Rattle.sim_scope.specs.Statements.{control_events, controlled as controlled_by, entry_controlled, formal_controlled, moded_controlled, not_simple, simple, starts, taken_by, told_unless, variable_controlled};
ghost use Rattle.sim_static.specs.StatementWalk.{Tells, of_element, of_first_step, of_first_value, of_reference_element};

use crate::assignment::takes;
use crate::statement::required;
use sim_base::{Rule, TokenNo};
use sim_scope::{
    Denotation, Entry, Extent, FormalKind, Found, Mode, Scopes, Side, SimType, entry_of,
};
use sim_tree::{Assignment, Expr, ForElement, Identifier, ReferenceElement};
use sim_types::{bound, is_same, misfit_of, operand};

/// A variable that a sign assigns to.
#[tactic(auto, unfolding(sim_scope::specs::Judged::telling, sim_scope::specs::Runs::run))]
fn variable_controlled(
    found: &mut Found,
    sign: Assignment,
    token: TokenNo,
    ty: SimType,
) -> Option<SimType>
    ensures { Judges found.old found.new result (variable_controlled sign token.0 ty) }
{
    if takes(sign, ty) {
        found.typed(token, ty);
        Some(ty)
    } else {
        found.note(token, Rule::WrongType);
        None
    }
}

#[tactic(auto, unfolding(sim_scope::specs::Judged::telling, sim_scope::specs::Runs::run))]
fn not_simple(found: &mut Found, token: TokenNo) -> Option<SimType>
    ensures { Judges found.old found.new result (not_simple token.0) }
{
    found.note(token, Rule::ControlledVariableNotSimple);
    None
}

fn moded_controlled(
    found: &mut Found,
    sign: Assignment,
    token: TokenNo,
    mode: Mode,
    ty: SimType,
) -> Option<SimType>
    ensures { Judges found.old found.new result (moded_controlled sign token.0 mode ty) }
{
    match mode {
        Mode::ByName => not_simple(found, token),
        _ => variable_controlled(found, sign, token, ty),
    }
}

/// A formal parameter as a controlled variable.
#[tactic(auto, unfolding(sim_scope::specs::Judged::gives, sim_scope::specs::Runs::run))]
fn formal_controlled(
    found: &mut Found,
    sign: Assignment,
    token: TokenNo,
    mode: Mode,
    kind: FormalKind,
    ty: Option<SimType>,
) -> Option<SimType>
    ensures { Judges found.old found.new result (formal_controlled sign token.0 mode kind ty) }
{
    match (kind, ty) {
        (FormalKind::Simple, None) => None,
        (FormalKind::Simple, Some(ty)) => moded_controlled(found, sign, token, mode, ty),
        (FormalKind::Array, _) => not_simple(found, token),
        (FormalKind::Procedure, _) => not_simple(found, token),
    }
}

/// A declared identifier as a controlled variable.
#[tactic(auto, unfolding(sim_scope::specs::Judged::gives, sim_scope::specs::Runs::run))]
fn entry_controlled(
    found: &mut Found,
    sign: Assignment,
    token: TokenNo,
    entry: Option<Entry>,
) -> Option<SimType>
    ensures { Judges found.old found.new result (entry_controlled sign token.0 entry) }
{
    match entry {
        Some(Entry::Variable(ty)) => variable_controlled(found, sign, token, ty),
        Some(Entry::Formal(formal)) => {
            formal_controlled(found, sign, token, formal.mode, formal.kind, formal.ty)
        }
        Some(Entry::Unspecified { .. }) => None,
        None => None,
        _ => not_simple(found, token),
    }
}

/// What an identifier denotes, as a controlled variable.
#[tactic(auto, unfolding(sim_scope::specs::Statements::simple, sim_scope::specs::Judged::gives, sim_scope::specs::Runs::run))]
fn simple(
    scopes: &Scopes,
    found: &mut Found,
    sign: Assignment,
    token: TokenNo,
    denotation: Option<Denotation>,
) -> Option<SimType>
    ensures { Judges found.old found.new result (simple scopes.now sign token.0 denotation) }
{
    match denotation {
        Some(Denotation::Declared(declaration)) => {
            entry_controlled(found, sign, token, entry_of(scopes, declaration))
        }
        Some(Denotation::Standard(_)) => not_simple(found, token),
        None => None,
    }
}

/// A controlled variable, with its type.
fn controlled(
    scopes: &Scopes,
    found: &mut Found,
    sign: Assignment,
    name: &Identifier,
) -> Option<SimType>
    ensures { Judges found.old found.new result (controlled_by scopes.now sign name.now) }
{
    let occurrence = bound(scopes, Extent::Statement, found, name);
    simple(scopes, found, sign, name.token, occurrence.denotes)
}

/// A rule that is broken, where there is one.
#[tactic(auto, unfolding(sim_scope::specs::Assignments::fine, sim_scope::specs::Assignments::wrong, sim_scope::specs::Judged::gives, sim_scope::specs::Judged::telling, sim_scope::specs::Runs::run))]
pub(crate) fn told_unless(found: &mut Found, first: TokenNo, rule: Option<Rule>)
    ensures { Judges found.old found.new result (told_unless first.0 rule) }
{
    if let Some(rule) = rule {
        found.note(first, rule);
    }
}

/// A value for the controlled variable: of its type (`S13`), or of a class on one prefix chain with its class (`S16`).
#[tactic(auto, unfolding(sim_scope::specs::Statements::taken_by, sim_scope::specs::Assignments::fine, sim_scope::specs::Judged::gives, sim_scope::specs::Runs::run))]
fn taken_by(scopes: &Scopes, found: &mut Found, variable: Option<SimType>, value: Side)
    ensures { Judges found.old found.new result (taken_by scopes.now variable value) }
{
    if let (Some(wanted), Some(ty)) = (variable, value.ty) {
        told_unless(found, value.first, misfit_of(scopes, wanted, ty));
    }
}

/// The first value of a step element.
#[tactic(auto, unfolding(sim_scope::specs::Statements::starts, sim_scope::specs::Assignments::fine, sim_scope::specs::Assignments::wrong, sim_scope::specs::Judged::gives, sim_scope::specs::Judged::telling, sim_scope::specs::Runs::run))]
fn starts(found: &mut Found, variable: Option<SimType>, value: Side)
    ensures { Judges found.old found.new result (starts variable value) }
{
    if let (Some(wanted), Some(ty)) = (variable, value.ty) {
        if !is_same(wanted, SimType::Integer) {
            found.note(value.first, Rule::WrongType);
        } else if !is_same(ty, SimType::Integer) {
            found.note(value.first, Rule::WrongType);
        }
    }
}

#[tactic(auto, using(crate::proofs::Tellings::tell_first_value))]
fn first_value(scopes: &Scopes, found: &mut Found, variable: Option<SimType>, expr: &Expr)
    ensures { Tells found.old found.new (of_first_value scopes.now variable expr.now) }
{
    let value = operand(scopes, Extent::Statement, found, expr);
    taken_by(scopes, found, variable, value);
}

#[tactic(auto, using(crate::proofs::Tellings::tell_first_step))]
fn first_step(scopes: &Scopes, found: &mut Found, variable: Option<SimType>, expr: &Expr)
    ensures { Tells found.old found.new (of_first_step scopes.now variable expr.now) }
{
    let value = operand(scopes, Extent::Statement, found, expr);
    starts(found, variable, value);
}

/// An element over values.
#[tactic(auto, using(crate::proofs::Tellings::elements))]
fn element(scopes: &Scopes, found: &mut Found, variable: Option<SimType>, element: &ForElement)
    ensures { Tells found.old found.new (of_element scopes.now variable element.now) }
{
    match element {
        ForElement::Value { value } => first_value(scopes, found, variable, value),
        ForElement::Step {
            start,
            step,
            limit,
            ..
        } => {
            first_step(scopes, found, variable, start);
            required(scopes, Extent::Statement, found, SimType::Integer, step);
            required(scopes, Extent::Statement, found, SimType::Integer, limit);
        }
        ForElement::While {
            value,
            condition,
            ..
        } => {
            first_value(scopes, found, variable, value);
            required(
                scopes,
                Extent::Statement,
                found,
                SimType::Boolean,
                condition,
            );
        }
    }
}

/// An element over references.
#[tactic(auto, using(crate::proofs::Tellings::elements))]
fn reference_element(
    scopes: &Scopes,
    found: &mut Found,
    variable: Option<SimType>,
    element: &ReferenceElement,
)
    ensures { Tells found.old found.new (of_reference_element scopes.now variable element.now) }
{
    match element {
        ReferenceElement::Value { value } => first_value(scopes, found, variable, value),
        ReferenceElement::While {
            value,
            condition,
            ..
        } => {
            first_value(scopes, found, variable, value);
            required(
                scopes,
                Extent::Statement,
                found,
                SimType::Boolean,
                condition,
            );
        }
    }
}

#[tactic(auto, using(crate::proofs::Tellings::loops))]
fn elements(scopes: &Scopes, found: &mut Found, variable: Option<SimType>, list: &[ForElement])
    ensures { Tells found.old found.new (each (of_element scopes.now variable) list.now) }
{
    for item in list {
        element(scopes, found, variable, item);
    }
}

#[tactic(auto, using(crate::proofs::Tellings::loops))]
fn reference_elements(
    scopes: &Scopes,
    found: &mut Found,
    variable: Option<SimType>,
    list: &[ReferenceElement],
)
    ensures { Tells found.old found.new (each (of_reference_element scopes.now variable) list.now) }
{
    for item in list {
        reference_element(scopes, found, variable, item);
    }
}

/// The controlled variable and the elements over values.
#[tactic(auto, using(crate::proofs::Tellings::tell_control))]
pub(crate) fn values(scopes: &Scopes, found: &mut Found, name: &Identifier, list: &[ForElement])
    ensures { Tells found.old found.new (control_events scopes.now name.now Assignment.Value (map element_syntax list.now)) }
{
    let variable = controlled(scopes, found, Assignment::Value, name);
    elements(scopes, found, variable, list);
}

/// The controlled variable and the elements over references.
#[tactic(auto, using(crate::proofs::Tellings::tell_reference_control))]
pub(crate) fn references(
    scopes: &Scopes,
    found: &mut Found,
    name: &Identifier,
    list: &[ReferenceElement],
)
    ensures { Tells found.old found.new (control_events scopes.now name.now Assignment.Reference (map reference_element_syntax list.now)) }
{
    let variable = controlled(scopes, found, Assignment::Reference, name);
    reference_elements(scopes, found, variable, list);
}
