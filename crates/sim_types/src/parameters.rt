//! Actual parameters and subscripts.
ghost use Rattle.std.specs.Prelude.{◌≡◌, ◌<◌, ◌+◌, ◌^◌};
ghost use Rattle.sim_scope.specs.Judged.{Judges, gives};
ghost use Rattle.sim_scope.specs.Actuals.{actual, array_actual, array_fits, as_value, attribute_alone, attribute_parameter, barred_actual, barred_alone, conforming, fitting, fitting_unless, formal_or_none, has_value_alone, left_out, misfitting, more, of_formal_procedure, parameter_at, parameter_of, parameter_type, passed_procedure, procedure_actual, procedure_fits, result_fits, result_matches, same_or_misfit, standard_actual, type_matches, typed_or_none, unspecified_procedure, unspecified_standard, untyped, value_fits, with_actual};

use crate::fit::{is_same, misfit_of};
use crate::headings::{formal_of, result_in};
use crate::outcomes::{is_stream, type_in, valued};
use sim_base::{DeclNo, Rule, TokenNo};
use sim_scope::{
    Actual, Actuals, Barred, Denotation, Entry, Fault, Formal, FormalKind, Found, Mode, Outcome,
    Parameter, Scopes, Signature, SimType, class_formal, entry_of, is_in_chain, lesser,
};

/// What an actual is held against: the formal parameter at its place, if there is one.
pub fn formal_or_none(formal: Option<Formal>) -> Parameter
    ensures { result ≡ formal_or_none formal }
{
    match formal {
        Some(formal) => Parameter::Formal(formal),
        None => Parameter::Unknown,
    }
}

fn typed_or_none(ty: Option<SimType>) -> Parameter
    ensures { result ≡ typed_or_none ty }
{
    match ty {
        Some(ty) => Parameter::Formal(Formal {
            mode: Mode::ByValue,
            kind: FormalKind::Simple,
            ty: Some(ty),
        }),
        None => Parameter::Unknown,
    }
}

/// The type of a parameter of a standard name.
fn parameter_type(signature: Signature, place: usize) -> Option<SimType>
    ensures { result ≡ parameter_type signature place }
{
    match place {
        0 => signature.first,
        1 => signature.second,
        _ => None,
    }
}

fn of_formal_procedure(kind: FormalKind) -> Parameter
    ensures { result ≡ of_formal_procedure kind }
{
    match kind {
        FormalKind::Array => Parameter::Subscript,
        FormalKind::Procedure => Parameter::Unspecified,
        FormalKind::Simple => Parameter::Unknown,
    }
}

/// The only parameter of an attribute of a standard class.
fn attribute_parameter(ty: Option<SimType>, place: usize) -> Parameter
    ensures { result ≡ attribute_parameter ty place }
{
    match place {
        0 => typed_or_none(ty),
        _ => Parameter::Unknown,
    }
}

fn parameter_of(
    scopes: &Scopes,
    declaration: DeclNo,
    place: usize,
    entry: Option<Entry>,
) -> Parameter
    ensures { result ≡ parameter_of scopes.now declaration place entry }
{
    match entry {
        Some(Entry::Procedure { .. }) => formal_or_none(formal_of(scopes, declaration, place)),
        Some(Entry::Class { block }) => formal_or_none(class_formal(scopes, block, place)),
        Some(Entry::Attribute { parameter, .. }) => attribute_parameter(parameter, place),
        Some(Entry::Array { .. }) => Parameter::Subscript,
        Some(Entry::Virtual { .. }) => Parameter::Unspecified,
        Some(Entry::Formal(formal)) => of_formal_procedure(formal.kind),
        _ => Parameter::Unknown,
    }
}

/// The parameter or subscript at a place of what an identifier denotes.
#[tactic(auto, unfolding(sim_scope::specs::Actuals::parameter_at))]
fn parameter_at(scopes: &Scopes, denotation: Option<Denotation>, place: usize) -> Parameter
    ensures { result ≡ parameter_at scopes.now denotation place }
{
    match denotation {
        Some(Denotation::Declared(declaration)) => {
            parameter_of(scopes, declaration, place, entry_of(scopes, declaration))
        }
        Some(Denotation::Standard(name)) => typed_or_none(parameter_type(name.signature(), place)),
        None => Parameter::Unknown,
    }
}

fn fitting() -> Actual
    ensures { result ≡ fitting }
{
    Actual {
        typed: true,
        misfit: None,
    }
}

fn untyped() -> Actual
    ensures { result ≡ untyped }
{
    Actual {
        typed: false,
        misfit: None,
    }
}

fn misfitting(first: TokenNo, rule: Rule) -> Actual
    ensures { result ≡ misfitting first.0 rule }
{
    Actual {
        typed: true,
        misfit: Some(Fault { token: first, rule }),
    }
}

fn type_matches(wanted: Option<SimType>, ty: SimType) -> bool
    ensures { result ≡ type_matches wanted ty }
{
    match wanted {
        Some(wanted) => is_same(wanted, ty),
        None => false,
    }
}

fn same_or_misfit(first: TokenNo, wanted: Option<SimType>, ty: SimType) -> Actual
    ensures { result ≡ same_or_misfit first.0 wanted ty }
{
    if type_matches(wanted, ty) {
        fitting()
    } else {
        misfitting(first, Rule::WrongType)
    }
}

fn fitting_unless(first: TokenNo, rule: Option<Rule>) -> Actual
    ensures { result ≡ fitting_unless first.0 rule }
{
    match rule {
        Some(rule) => misfitting(first, rule),
        None => fitting(),
    }
}

/// A value of a type for a simple parameter: `S13`, and `S16` where both are references.
fn conforming(scopes: &Scopes, first: TokenNo, wanted: Option<SimType>, ty: SimType) -> Actual
    ensures { result ≡ conforming scopes.now first.0 wanted ty }
{
    match wanted {
        Some(wanted) => fitting_unless(first, misfit_of(scopes, wanted, ty)),
        None => misfitting(first, Rule::WrongType),
    }
}

/// A value as an actual.
fn value_fits(scopes: &Scopes, first: TokenNo, parameter: Parameter, ty: Option<SimType>) -> Actual
    ensures { result ≡ value_fits scopes.now first.0 parameter ty }
{
    match (parameter, ty) {
        (_, None) => untyped(),
        (Parameter::Subscript, Some(ty)) => same_or_misfit(first, Some(SimType::Integer), ty),
        (Parameter::Formal(formal), Some(ty)) => match formal.kind {
            FormalKind::Simple => conforming(scopes, first, formal.ty, ty),
            _ => misfitting(first, Rule::WrongType),
        },
        (_, Some(_)) => fitting(),
    }
}

fn as_value(
    scopes: &Scopes,
    found: &mut Found,
    first: TokenNo,
    parameter: Parameter,
    outcome: Outcome,
) -> Actual
    ensures { Judges found.old found.new result (as_value scopes.now first.0 parameter outcome) }
{
    let value = valued(scopes, found, first, outcome);
    value_fits(scopes, first, parameter, type_in(value))
}

/// An array alone as an actual.
fn array_fits(first: TokenNo, formal: Formal, element: SimType) -> Actual
    ensures { result ≡ array_fits first.0 formal element }
{
    match formal.kind {
        FormalKind::Array => same_or_misfit(first, formal.ty, element),
        _ => misfitting(first, Rule::WrongType),
    }
}

/// Whether a procedure has a result that a formal procedure may have; a reference may be of a subclass.
fn result_fits(scopes: &Scopes, wanted: SimType, given: SimType) -> bool
    ensures { result ≡ result_fits scopes.now wanted given }
{
    match (wanted, given) {
        (SimType::Ref(wanted), SimType::Ref(given)) => is_in_chain(scopes, given, wanted),
        _ => is_same(wanted, given),
    }
}

fn result_matches(scopes: &Scopes, wanted: Option<SimType>, given: Option<SimType>) -> bool
    ensures { result ≡ result_matches scopes.now wanted given }
{
    match (wanted, given) {
        (None, None) => true,
        (None, Some(_)) => false,
        (Some(_), None) => false,
        (Some(wanted), Some(given)) => result_fits(scopes, wanted, given),
    }
}

/// A procedure alone as an actual.
fn procedure_fits(
    scopes: &Scopes,
    first: TokenNo,
    formal: Formal,
    result_type: Option<SimType>,
) -> Actual
    ensures { result ≡ procedure_fits scopes.now first.0 formal result_type }
{
    if result_matches(scopes, formal.ty, result_type) {
        fitting()
    } else {
        misfitting(first, Rule::WrongType)
    }
}

/// `S23`, which is told whether or not the other actuals have types.
#[tactic(auto, unfolding(sim_scope::specs::Judged::telling, sim_scope::specs::Runs::run))]
fn left_out(found: &mut Found, first: TokenNo) -> Actual
    ensures { Judges found.old found.new result (left_out first.0) }
{
    found.note(first, Rule::StandardNameLeftOut);
    misfitting(first, Rule::StandardNameLeftOut)
}

/// A procedure alone as an actual for a formal procedure. An attribute of a standard class is none (`S23`).
#[tactic(auto, unfolding(sim_scope::specs::Judged::gives, sim_scope::specs::Runs::run))]
fn passed_procedure(
    scopes: &Scopes,
    found: &mut Found,
    first: TokenNo,
    formal: Formal,
    entry: Option<Entry>,
) -> Actual
    ensures { Judges found.old found.new result (passed_procedure scopes.now first.0 formal entry) }
{
    match entry {
        Some(Entry::Attribute { .. }) => left_out(found, first),
        _ => procedure_fits(scopes, first, formal, result_in(entry)),
    }
}

#[tactic(auto, unfolding(sim_scope::specs::Judged::gives, sim_scope::specs::Runs::run))]
fn attribute_alone(
    found: &mut Found,
    first: TokenNo,
    parameter: Option<SimType>,
    result_type: Option<SimType>,
) -> Actual
    ensures { Judges found.old found.new result (attribute_alone first.0 parameter result_type) }
{
    match (parameter, result_type) {
        (None, Some(_)) => fitting(),
        _ => left_out(found, first),
    }
}

/// A procedure alone as an actual of a formal procedure or a virtual. An attribute of a standard class has a value without actuals (`S23`).
#[tactic(auto, unfolding(sim_scope::specs::Judged::gives, sim_scope::specs::Runs::run))]
fn unspecified_procedure(found: &mut Found, first: TokenNo, entry: Option<Entry>) -> Actual
    ensures { Judges found.old found.new result (unspecified_procedure first.0 entry) }
{
    match entry {
        Some(
            Entry::Attribute {
                parameter,
                result,
                ..
            },
        ) => attribute_alone(found, first, parameter, result),
        _ => fitting(),
    }
}

fn has_value_alone(signature: Signature) -> bool
    ensures { result ≡ has_value_alone signature }
{
    match (signature.first, signature.result) {
        (None, Some(_)) => true,
        _ => false,
    }
}

#[tactic(auto, unfolding(sim_scope::specs::Judged::gives, sim_scope::specs::Runs::run))]
fn unspecified_standard(found: &mut Found, first: TokenNo, signature: Signature) -> Actual
    ensures { Judges found.old found.new result (unspecified_standard first.0 signature) }
{
    if has_value_alone(signature) {
        fitting()
    } else {
        left_out(found, first)
    }
}

#[tactic(auto, unfolding(sim_scope::specs::Judged::gives, sim_scope::specs::Runs::run))]
fn procedure_actual(
    scopes: &Scopes,
    found: &mut Found,
    first: TokenNo,
    parameter: Parameter,
    outcome: Outcome,
    declaration: DeclNo,
) -> Actual
    ensures { Judges found.old found.new result (procedure_actual scopes.now first.0 parameter outcome declaration) }
{
    match parameter {
        Parameter::Formal(formal) => match formal.kind {
            FormalKind::Simple => as_value(scopes, found, first, parameter, outcome),
            FormalKind::Array => misfitting(first, Rule::WrongType),
            FormalKind::Procedure => {
                let entry = entry_of(scopes, declaration);
                passed_procedure(scopes, found, first, formal, entry)
            }
        },
        Parameter::Subscript => as_value(scopes, found, first, parameter, outcome),
        Parameter::Unspecified => {
            unspecified_procedure(found, first, entry_of(scopes, declaration))
        }
        Parameter::Unknown => fitting(),
    }
}

#[tactic(auto, unfolding(sim_scope::specs::Judged::gives, sim_scope::specs::Runs::run))]
fn standard_actual(
    scopes: &Scopes,
    found: &mut Found,
    first: TokenNo,
    parameter: Parameter,
    outcome: Outcome,
    signature: Signature,
) -> Actual
    ensures { Judges found.old found.new result (standard_actual scopes.now first.0 parameter outcome signature) }
{
    match parameter {
        Parameter::Formal(formal) => match formal.kind {
            FormalKind::Simple => as_value(scopes, found, first, parameter, outcome),
            FormalKind::Array => misfitting(first, Rule::WrongType),
            FormalKind::Procedure => left_out(found, first),
        },
        Parameter::Subscript => as_value(scopes, found, first, parameter, outcome),
        Parameter::Unspecified => unspecified_standard(found, first, signature),
        Parameter::Unknown => fitting(),
    }
}

#[tactic(auto, unfolding(sim_scope::specs::Judged::gives, sim_scope::specs::Runs::run))]
fn array_actual(
    scopes: &Scopes,
    found: &mut Found,
    first: TokenNo,
    parameter: Parameter,
    outcome: Outcome,
    element: SimType,
) -> Actual
    ensures { Judges found.old found.new result (array_actual scopes.now first.0 parameter outcome element) }
{
    match parameter {
        Parameter::Subscript => as_value(scopes, found, first, parameter, outcome),
        Parameter::Formal(formal) => array_fits(first, formal, element),
        _ => fitting(),
    }
}

/// An identifier alone that may not stand there: what other rules say of it.
fn barred_alone(
    scopes: &Scopes,
    found: &mut Found,
    first: TokenNo,
    parameter: Parameter,
    barred: Barred,
) -> Actual
    ensures { Judges found.old found.new result (barred_alone scopes.now first.0 parameter barred) }
{
    let outcome = Outcome::Barred(barred);
    match barred {
        Barred::Array(element) => {
            array_actual(scopes, found, first, parameter, outcome, element)
        }
        Barred::Class => as_value(scopes, found, first, parameter, outcome),
        Barred::Procedure { declaration, .. } => {
            procedure_actual(scopes, found, first, parameter, outcome, declaration)
        }
        Barred::Standard { name, .. } => {
            standard_actual(scopes, found, first, parameter, outcome, name.signature())
        }
    }
}

/// An identifier alone that may not stand there: it has no type, and is not compared.
fn barred_actual(
    scopes: &Scopes,
    found: &mut Found,
    first: TokenNo,
    parameter: Parameter,
    barred: Barred,
) -> Actual
    ensures { Judges found.old found.new result (barred_actual scopes.now first.0 parameter barred) }
{
    barred_alone(scopes, found, first, parameter, barred);
    untyped()
}

/// One actual parameter or subscript, with its first token.
#[tactic(auto, unfolding(sim_scope::specs::Actuals::actual))]
pub fn actual(
    scopes: &Scopes,
    found: &mut Found,
    first: TokenNo,
    parameter: Parameter,
    outcome: Outcome,
) -> Actual
    ensures { Judges found.old found.new result (actual scopes.now first.0 parameter outcome) }
{
    match outcome {
        Outcome::Array(element) => {
            array_actual(scopes, found, first, parameter, outcome, element)
        }
        Outcome::Procedure { declaration, .. } => {
            procedure_actual(scopes, found, first, parameter, outcome, declaration)
        }
        Outcome::Standard { name, .. } => {
            if is_stream(name) {
                as_value(scopes, found, first, parameter, outcome)
            } else {
                standard_actual(scopes, found, first, parameter, outcome, name.signature())
            }
        }
        Outcome::Barred(barred) => barred_actual(scopes, found, first, parameter, barred),
        _ => as_value(scopes, found, first, parameter, outcome),
    }
}

/// One more actual parameter or subscript among those so far.
#[tactic(auto, unfolding(sim_scope::specs::Actuals::with_actual))]
pub fn with_actual(actuals: Actuals, actual: Actual) -> Actuals
    requires { actuals.count + 1 < 2 ^ 64 }
    ensures { result ≡ with_actual actuals actual }
{
    Actuals {
        typed: actuals.typed && actual.typed,
        count: actuals.count + 1,
        misfit: match actual.misfit {
            Some(fault) => lesser(actuals.misfit, fault),
            None => actuals.misfit,
        },
    }
}

/// One more actual parameter or subscript of what an identifier denotes.
pub(crate) fn more(
    scopes: &Scopes,
    found: &mut Found,
    denotation: Option<Denotation>,
    actuals: Actuals,
    first: TokenNo,
    outcome: Outcome,
) -> Actuals
    requires { actuals.count + 1 < 2 ^ 64 }
    ensures { Judges found.old found.new result (more scopes.now denotation actuals first.0 outcome) }
{
    let parameter = parameter_at(scopes, denotation, actuals.count);
    let one = actual(scopes, found, first, parameter, outcome);
    with_actual(actuals, one)
}
