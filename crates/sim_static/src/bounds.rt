//! Declarations: the classes of references, the values of constants, and the bounds of arrays.
ghost use Rattle.std.specs.Prelude.{◌≡◌};
ghost use Rattle.sim_scope.specs.Runs.{each};
ghost use Rattle.sim_scope.specs.Statements.{class_events, constant_fits, constant_token, constant_type, has_type, result_events, signed_token, type_events, value_fits, value_type, variable_events};
ghost use Rattle.sim_static.specs.StatementWalk.{Tells, of_pair, of_segment};

use crate::statement::required;
use sim_base::{Rule, TokenNo};
use sim_scope::{Extent, Found, Scopes, SimType, binding_and_block};
use sim_tree::{ArraySegment, Bounds, Constant, Identifier, LeadingSign, TypeName, Variable};
use sim_types::{is_same, used_in};

/// The class in the `ref( )` of a declaration is used.
#[tactic(auto, using(crate::proofs::Tellings::classes))]
fn class_of_references(scopes: &Scopes, found: &mut Found, class: &Identifier)
    ensures { Tells found.old found.new (class_events scopes.now class.now) }
{
    let (denotation, block) = binding_and_block(scopes, class.token, class.name.as_bytes());
    if let Some(denotation) = denotation {
        used_in(found, class.token, block, denotation, false);
    }
}

/// The type of a declaration.
#[tactic(auto, using(crate::proofs::Tellings::classes))]
pub(crate) fn declared_type(scopes: &Scopes, found: &mut Found, name: &TypeName)
    ensures { Tells found.old found.new (type_events scopes.now name.now) }
{
    match name {
        TypeName::Integer(_) => {}
        TypeName::Boolean(_) => {}
        TypeName::Character(_) => {}
        TypeName::Text(_) => {}
        TypeName::Reference { class, .. } => class_of_references(scopes, found, class),
    }
}

/// The type of the result of a procedure.
#[tactic(auto, using(crate::proofs::Tellings::classes))]
pub(crate) fn result_type(scopes: &Scopes, found: &mut Found, name: &Option<TypeName>)
    ensures { Tells found.old found.new (result_events scopes.now name.now) }
{
    match name {
        Some(name) => declared_type(scopes, found, name),
        None => {}
    }
}

/// The type of a constant as it is declared, where constants of it are written.
fn value_type(name: &TypeName) -> Option<SimType>
    ensures { result ≡ value_type name.now }
{
    match name {
        TypeName::Integer(_) => Some(SimType::Integer),
        TypeName::Boolean(_) => Some(SimType::Boolean),
        TypeName::Character(_) => Some(SimType::Character),
        TypeName::Text(_) => Some(SimType::Text),
        TypeName::Reference { .. } => None,
    }
}

/// The type of a constant as it is written.
fn constant_type(constant: &Constant) -> SimType
    ensures { result ≡ constant_type constant.now }
{
    match constant {
        Constant::Integer { .. } => SimType::Integer,
        Constant::Character { .. } => SimType::Character,
        Constant::Text { .. } => SimType::Text,
        Constant::True { .. } => SimType::Boolean,
        Constant::False { .. } => SimType::Boolean,
    }
}

fn signed_token(sign: Option<LeadingSign>, token: TokenNo) -> TokenNo
    ensures { result.0 ≡ signed_token sign token.0 }
{
    match sign {
        Some(sign) => sign.token,
        None => token,
    }
}

/// The first token of a constant.
fn constant_token(constant: &Constant) -> TokenNo
    ensures { result.0 ≡ constant_token constant.now }
{
    match constant {
        Constant::Integer { sign, token, .. } => signed_token(*sign, *token),
        Constant::Character { token, .. } => *token,
        Constant::Text { token, .. } => *token,
        Constant::True { token } => *token,
        Constant::False { token } => *token,
    }
}

fn has_type(wanted: Option<SimType>, ty: SimType) -> bool
    ensures { result ≡ has_type wanted ty }
{
    match wanted {
        Some(wanted) => is_same(wanted, ty),
        None => false,
    }
}

/// A constant of a declared type.
#[tactic(auto, unfolding(sim_scope::specs::Runs::Runs, sim_scope::specs::Runs::run))]
fn constant_fits(found: &mut Found, wanted: Option<SimType>, constant: &Constant)
    ensures { Tells found.old found.new (constant_fits wanted constant.now) }
{
    if !has_type(wanted, constant_type(constant)) {
        found.note(constant_token(constant), Rule::WrongType);
    }
}

#[tactic(auto, unfolding(sim_scope::specs::Runs::Runs, sim_scope::specs::Runs::run))]
fn value_fits(found: &mut Found, wanted: Option<SimType>, value: &Option<Constant>)
    ensures { Tells found.old found.new (value_fits wanted value.now) }
{
    match value {
        Some(constant) => constant_fits(found, wanted, constant),
        None => {}
    }
}

#[tactic(auto, unfolding(sim_scope::specs::Statements::variable_events))]
fn variable(found: &mut Found, type_name: &TypeName, variable: &Variable)
    ensures { Tells found.old found.new (variable_events type_name.now variable.now) }
{
    value_fits(found, value_type(type_name), &variable.value);
}

/// Variables and constants of a type.
#[tactic(auto, using(crate::proofs::Tellings::loops))]
pub(crate) fn variables(found: &mut Found, type_name: &TypeName, list: &[Variable])
    ensures { Tells found.old found.new (each (variable_events type_name.now) list.now) }
{
    for item in list {
        variable(found, type_name, item);
    }
}

/// The bounds of a dimension.
#[tactic(auto, using(crate::proofs::Tellings::tell_pair))]
fn pair(scopes: &Scopes, found: &mut Found, bounds: &Bounds)
    ensures { Tells found.old found.new (of_pair scopes.now bounds.now) }
{
    required(
        scopes,
        Extent::Bound,
        found,
        SimType::Integer,
        &bounds.lower,
    );
    required(
        scopes,
        Extent::Bound,
        found,
        SimType::Integer,
        &bounds.upper,
    );
}

#[tactic(auto, using(crate::proofs::Tellings::loops))]
fn pairs(scopes: &Scopes, found: &mut Found, list: &[Bounds])
    ensures { Tells found.old found.new (each (of_pair scopes.now) list.now) }
{
    for item in list {
        pair(scopes, found, item);
    }
}

#[tactic(auto, using(crate::proofs::Tellings::tell_segment))]
fn segment(scopes: &Scopes, found: &mut Found, segment: &ArraySegment)
    ensures { Tells found.old found.new (of_segment scopes.now segment.now) }
{
    pairs(scopes, found, &segment.bounds);
}

/// Arrays.
#[tactic(auto, using(crate::proofs::Tellings::loops))]
pub(crate) fn segments(scopes: &Scopes, found: &mut Found, list: &[ArraySegment])
    ensures { Tells found.old found.new (each (of_segment scopes.now) list.now) }
{
    for item in list {
        segment(scopes, found, item);
    }
}
