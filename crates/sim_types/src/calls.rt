//! What an identifier is: alone, and with actual parameters or subscripts.
ghost use Rattle.std.specs.Prelude.{◌≡◌, Some, nat_eq, true};
ghost use Rattle.sim_scope.specs.Judged.{Judges};
ghost use Rattle.sim_scope.specs.Calls.{alone, applied, applied_untyped, attribute_count, barred_outcome, declared_alone, declared_applied, element_of, formal_alone, formal_applied, inside_match, is_connection_at, is_undotted, match_at, match_found, match_seen, or_barred, own_of, own_undotted, parameter_count, procedure_alone, resulting, standard_applied, through_connection, typed_if, used, used_as};

use crate::headings::{block_in, formals_of, is_inside};
use crate::outcomes::{breaks, call_of, is_standard_class, is_stream, varies};
use sim_base::{DeclNo, Rule, TokenNo};
use sim_scope::{
    Actuals, Barred, Denotation, Entry, Fault, Formal, FormalKind, Found, Occurrence, Outcome,
    Scopes, Signature, SimType, StandardName, block_at, declaration_from, entry_of, found_in,
    is_connection_block,
};
use sim_tree::Identifier;

/// The type of a call, where it has one.
#[tactic(auto, unfolding(sim_scope::specs::Judged::gives, sim_scope::specs::Judged::telling, sim_scope::specs::Runs::run))]
fn typed_if(found: &mut Found, token: TokenNo, ty: Option<SimType>, outcome: Outcome) -> Outcome
    ensures { Judges found.old found.new result (typed_if token.0 ty outcome) }
{
    if let Some(ty) = ty {
        found.typed(token, ty);
    }
    outcome
}

/// A formal parameter alone.
#[tactic(auto, unfolding(sim_scope::specs::Judged::gives, sim_scope::specs::Judged::telling, sim_scope::specs::Runs::run))]
fn formal_alone(found: &mut Found, naming: TokenNo, formal: Formal, outcome: Outcome) -> Outcome
    ensures { Judges found.old found.new result (formal_alone naming.0 formal formal.ty outcome) }
{
    match (formal.kind, formal.ty) {
        (FormalKind::Simple, Some(ty)) => varies(found, naming, ty),
        (FormalKind::Array, Some(ty)) => Outcome::Array(ty),
        (FormalKind::Procedure, Some(ty)) => {
            found.typed(naming, ty);
            outcome
        }
        (FormalKind::Procedure, None) => outcome,
        (_, None) => Outcome::Refused,
    }
}

/// Whether no dot stands in front of an identifier: then its own token names the expression.
fn is_undotted(naming: TokenNo, name: &Identifier) -> bool
    ensures { result ≡ is_undotted naming.0 name.now }
{
    naming == name.token
}

fn match_at(entry: Option<Entry>, declaration: Option<DeclNo>) -> Option<DeclNo>
    ensures { result ≡ match_at entry declaration }
{
    match entry {
        Some(Entry::Virtual { own, .. }) => own,
        _ => declaration,
    }
}

/// The match that a search for a virtual comes to.
fn match_found(scopes: &Scopes, declaration: Option<DeclNo>) -> Option<DeclNo>
    ensures { result ≡ match_found scopes.now declaration }
{
    match declaration {
        Some(found) => match_at(entry_of(scopes, found), declaration),
        None => None,
    }
}

fn inside_match(scopes: &Scopes, token: TokenNo, declaration: Option<DeclNo>) -> bool
    ensures { result ≡ inside_match scopes.now token.0 declaration }
{
    match declaration {
        Some(declaration) => match block_in(entry_of(scopes, declaration)) {
            Some(block) => is_inside(scopes, token, block),
            None => false,
        },
        None => false,
    }
}

fn is_connection_at(scopes: &Scopes, block: Option<u32>) -> bool
    ensures { result ≡ is_connection_at scopes.now block }
{
    match block {
        Some(block) => is_connection_block(scopes, block),
        None => false,
    }
}

/// Whether the search comes to an identifier through a connection.
#[tactic(auto, unfolding(sim_scope::specs::Calls::through_connection))]
fn through_connection(scopes: &Scopes, name: &Identifier) -> bool
    ensures { result ≡ through_connection scopes.now name.now }
{
    is_connection_at(scopes, found_in(scopes, name.token, name.name.as_bytes()))
}

/// A procedure, where an identifier that denotes it stands for its result as a left side.
#[tactic(auto, unfolding(sim_scope::specs::Calls::own_of))]
fn own_of(scopes: &Scopes, name: &Identifier, procedure: Option<DeclNo>) -> Option<DeclNo>
    ensures { result ≡ own_of scopes.now name.now procedure }
{
    if inside_match(scopes, name.token, procedure) && !through_connection(scopes, name) {
        procedure
    } else {
        None
    }
}

/// The match that the search for an identifier of a virtual comes to.
#[tactic(auto, unfolding(sim_scope::specs::Calls::match_seen))]
fn match_seen(scopes: &Scopes, name: &Identifier) -> Option<DeclNo>
    ensures { result ≡ match_seen scopes.now name.now }
{
    let place = block_at(scopes, name.token);
    let declaration = declaration_from(scopes, Some(name.token.0), place, name.name.as_bytes());
    match_found(scopes, declaration)
}

fn own_undotted(
    scopes: &Scopes,
    name: &Identifier,
    undotted: bool,
    procedure: Option<DeclNo>,
) -> Option<DeclNo>
    ensures { result ≡ own_undotted scopes.now name.now undotted procedure }
{
    if undotted {
        own_of(scopes, name, procedure)
    } else {
        None
    }
}

/// A declared identifier alone.
#[tactic(auto, unfolding(sim_scope::specs::Judged::gives, sim_scope::specs::Judged::telling, sim_scope::specs::Runs::run))]
fn declared_alone(
    scopes: &Scopes,
    found: &mut Found,
    naming: TokenNo,
    name: &Identifier,
    declaration: DeclNo,
    entry: Option<Entry>,
) -> Outcome
    ensures { Judges found.old found.new result (declared_alone scopes.now naming.0 name.now declaration entry) }
{
    match entry {
        Some(Entry::Variable(ty)) => varies(found, naming, ty),
        Some(Entry::Constant(ty)) => {
            found.typed(naming, ty);
            Outcome::Constant(ty)
        }
        Some(Entry::Array { element, .. }) => Outcome::Array(element),
        Some(Entry::Procedure { result, .. }) => {
            let own = own_undotted(scopes, name, is_undotted(naming, name), Some(declaration));
            typed_if(
                found,
                naming,
                result,
                procedure_alone(declaration, name, own),
            )
        }
        Some(Entry::Class { .. }) => Outcome::Class,
        Some(Entry::Virtual { result, .. }) => {
            let own = own_undotted(
                scopes,
                name,
                is_undotted(naming, name),
                match_seen(scopes, name),
            );
            typed_if(
                found,
                naming,
                result,
                procedure_alone(declaration, name, own),
            )
        }
        Some(Entry::Attribute { result, .. }) => {
            typed_if(
                found,
                naming,
                result,
                procedure_alone(declaration, name, None),
            )
        }
        Some(Entry::Formal(formal)) => {
            formal_alone(
                found,
                naming,
                formal,
                procedure_alone(declaration, name, None),
            )
        }
        Some(Entry::Unspecified { .. }) => Outcome::Refused,
        None => Outcome::Refused,
    }
}

/// A procedure identifier alone.
fn procedure_alone(declaration: DeclNo, name: &Identifier, own: Option<DeclNo>) -> Outcome
    ensures { result ≡ procedure_alone declaration name.now own }
{
    Outcome::Procedure {
        declaration,
        token: name.token,
        own,
    }
}

/// A standard name alone.
#[tactic(auto, unfolding(sim_scope::specs::Calls::alone, sim_scope::specs::Judged::gives, sim_scope::specs::Runs::run))]
fn standard_alone(
    scopes: &Scopes,
    found: &mut Found,
    naming: TokenNo,
    name: &Identifier,
    standard: StandardName,
) -> Outcome
    ensures { Judges found.old found.new result (alone scopes.now naming.0 name.now (Denotation.Standard standard)) }
{
    if is_standard_class(standard) {
        Outcome::Class
    } else {
        typed_if(
            found,
            naming,
            standard.signature().result,
            Outcome::Standard {
                name: standard,
                token: name.token,
            },
        )
    }
}

/// An identifier alone.
#[tactic(auto, unfolding(sim_scope::specs::Calls::alone))]
fn alone(
    scopes: &Scopes,
    found: &mut Found,
    naming: TokenNo,
    name: &Identifier,
    denotation: Denotation,
) -> Outcome
    ensures { Judges found.old found.new result (alone scopes.now naming.0 name.now denotation) }
{
    match denotation {
        Denotation::Declared(declaration) => {
            let entry = entry_of(scopes, declaration);
            declared_alone(scopes, found, naming, name, declaration, entry)
        }
        Denotation::Standard(standard) => standard_alone(scopes, found, naming, name, standard),
    }
}

/// A misfit among the actuals, or else what the call is.
#[tactic(auto, unfolding(sim_scope::specs::Calls::resulting))]
fn resulting(
    found: &mut Found,
    naming: TokenNo,
    misfit: Option<Fault>,
    result_type: Option<SimType>,
) -> Outcome
    ensures { Judges found.old found.new result (resulting naming.0 misfit result_type) }
{
    match misfit {
        Some(fault) => breaks(found, fault.token, fault.rule),
        None => typed_if(found, naming, result_type, call_of(result_type)),
    }
}

/// A misfit among the subscripts, or else the element.
#[tactic(auto, unfolding(sim_scope::specs::Calls::element_of))]
fn element_of(
    found: &mut Found,
    naming: TokenNo,
    misfit: Option<Fault>,
    element: SimType,
) -> Outcome
    ensures { Judges found.old found.new result (element_of naming.0 misfit element) }
{
    match misfit {
        Some(fault) => breaks(found, fault.token, fault.rule),
        None => varies(found, naming, element),
    }
}

/// How many parameters a standard name has.
fn parameter_count(signature: Signature) -> usize
    ensures { result ≡ parameter_count signature }
{
    match (signature.first, signature.second) {
        (None, _) => 0,
        (Some(_), None) => 1,
        (Some(_), Some(_)) => 2,
    }
}

/// A formal parameter with actuals.
#[tactic(auto, unfolding(sim_scope::specs::Judged::gives, sim_scope::specs::Runs::run))]
fn formal_applied(
    found: &mut Found,
    naming: TokenNo,
    token: TokenNo,
    formal: Formal,
    misfit: Option<Fault>,
) -> Outcome
    ensures { Judges found.old found.new result (formal_applied naming.0 token.0 formal formal.ty misfit) }
{
    match formal.kind {
        FormalKind::Simple => breaks(found, token, Rule::WrongKind),
        FormalKind::Array => match formal.ty {
            Some(element) => element_of(found, naming, misfit, element),
            None => Outcome::Refused,
        },
        FormalKind::Procedure => resulting(found, naming, misfit, formal.ty),
    }
}

/// How many parameters an attribute of a standard class has.
fn attribute_count(parameter: Option<SimType>) -> usize
    ensures { result ≡ attribute_count parameter }
{
    match parameter {
        Some(_) => 1,
        None => 0,
    }
}

/// A declared identifier with actuals.
fn declared_applied(
    found: &mut Found,
    naming: TokenNo,
    token: TokenNo,
    entry: Option<Entry>,
    formals: usize,
    actuals: Actuals,
) -> Outcome
    ensures { Judges found.old found.new result (declared_applied naming.0 token.0 entry formals actuals) }
{
    match entry {
        Some(Entry::Procedure { result, .. }) => {
            if formals == actuals.count {
                resulting(found, naming, actuals.misfit, result)
            } else {
                breaks(found, token, Rule::WrongNumber)
            }
        }
        Some(
            Entry::Array {
                element,
                dimensions,
            },
        ) => {
            if dimensions as usize == actuals.count {
                element_of(found, naming, actuals.misfit, element)
            } else {
                breaks(found, token, Rule::WrongNumber)
            }
        }
        Some(Entry::Virtual { result, .. }) => resulting(found, naming, actuals.misfit, result),
        Some(
            Entry::Attribute {
                parameter,
                result,
                ..
            },
        ) => {
            if attribute_count(parameter) == actuals.count {
                resulting(found, naming, actuals.misfit, result)
            } else {
                breaks(found, token, Rule::WrongNumber)
            }
        }
        Some(Entry::Formal(formal)) => {
            formal_applied(found, naming, token, formal, actuals.misfit)
        }
        _ => breaks(found, token, Rule::WrongKind),
    }
}

/// A standard name with actuals.
fn standard_applied(
    found: &mut Found,
    naming: TokenNo,
    token: TokenNo,
    name: StandardName,
    signature: Signature,
    actuals: Actuals,
) -> Outcome
    ensures { Judges found.old found.new result (standard_applied naming.0 token.0 name signature actuals) }
{
    if is_stream(name) {
        breaks(found, token, Rule::StandardNameLeftOut)
    } else if is_standard_class(name) {
        breaks(found, token, Rule::WrongKind)
    } else if parameter_count(signature) == actuals.count {
        resulting(found, naming, actuals.misfit, signature.result)
    } else {
        breaks(found, token, Rule::WrongNumber)
    }
}

/// An identifier with actuals, each of which is something.
#[tactic(auto, unfolding(sim_scope::specs::Calls::applied))]
fn applied(
    scopes: &Scopes,
    found: &mut Found,
    naming: TokenNo,
    token: TokenNo,
    denotation: Denotation,
    actuals: Actuals,
) -> Outcome
    ensures { Judges found.old found.new result (applied scopes.now naming.0 token.0 denotation actuals) }
{
    match denotation {
        Denotation::Declared(declaration) => {
            let formals = formals_of(scopes, declaration).len();
            let entry = entry_of(scopes, declaration);
            declared_applied(found, naming, token, entry, formals, actuals)
        }
        Denotation::Standard(name) => {
            standard_applied(found, naming, token, name, name.signature(), actuals)
        }
    }
}

/// An identifier with actuals, one of which has no type.
#[tactic(auto, unfolding(sim_scope::specs::Calls::applied_untyped, sim_scope::specs::Judged::gives, sim_scope::specs::Runs::run))]
fn applied_untyped(found: &mut Found, token: TokenNo, denotation: Denotation) -> Outcome
    ensures { Judges found.old found.new result (applied_untyped token.0 denotation) }
{
    match denotation {
        Denotation::Declared(_) => Outcome::Refused,
        Denotation::Standard(name) => {
            if is_stream(name) {
                breaks(found, token, Rule::StandardNameLeftOut)
            } else {
                Outcome::Refused
            }
        }
    }
}

/// An identifier that denotes this, with its actuals.
fn used_as(
    scopes: &Scopes,
    found: &mut Found,
    naming: TokenNo,
    name: &Identifier,
    denotation: Denotation,
    actuals: Actuals,
) -> Outcome
    ensures { Judges found.old found.new result (used_as scopes.now naming.0 name.now denotation actuals) }
{
    if actuals.count == 0 {
        alone(scopes, found, naming, name, denotation)
    } else if actuals.typed {
        applied(scopes, found, naming, name.token, denotation, actuals)
    } else {
        applied_untyped(found, name.token, denotation)
    }
}

/// What is barred has no type; alone it is judged on.
fn barred_outcome(outcome: Outcome) -> Outcome
    ensures { result ≡ barred_outcome outcome }
{
    match outcome {
        Outcome::Array(ty) => Outcome::Barred(Barred::Array(ty)),
        Outcome::Class => Outcome::Barred(Barred::Class),
        Outcome::Procedure {
            declaration,
            token,
            ..
        } => Outcome::Barred(Barred::Procedure { declaration, token }),
        Outcome::Standard { name, token } => Outcome::Barred(Barred::Standard { name, token }),
        _ => Outcome::Refused,
    }
}

/// An identifier that may not stand there, with its actuals: it has no type; alone it is judged on.
fn used_barred(
    scopes: &Scopes,
    found: &mut Found,
    naming: TokenNo,
    name: &Identifier,
    denotation: Denotation,
    actuals: Actuals,
) -> Outcome
    ensures { Judges found.old found.new result (or_barred true (used_as scopes.now naming.0 name.now denotation actuals)) }
{
    let outcome = used_as(scopes, found, naming, name, denotation, actuals);
    barred_outcome(outcome)
}

/// An identifier where it stands, with its actuals. The whole expression is named by a token.
#[tactic(auto, unfolding(sim_scope::specs::Calls::used, sim_scope::specs::Judged::gives, sim_scope::specs::Runs::run))]
pub(crate) fn used(
    scopes: &Scopes,
    found: &mut Found,
    naming: TokenNo,
    name: &Identifier,
    occurrence: Occurrence,
    actuals: Actuals,
) -> Outcome
    ensures { Judges found.old found.new result (used scopes.now naming.0 name.now occurrence actuals) }
{
    match occurrence.denotes {
        Some(denotation) => {
            if occurrence.barred {
                used_barred(scopes, found, naming, name, denotation, actuals)
            } else {
                used_as(scopes, found, naming, name, denotation, actuals)
            }
        }
        None => Outcome::Refused,
    }
}
