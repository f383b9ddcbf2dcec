//! Which actual parameters fit formal ones, in a call that is checked when it is done.
ghost use Rattle.std.specs.Prelude.{◌≡◌};
ghost use Rattle.sim_code.specs.Code.{CodeOf};
ghost use Rattle.sim_code.specs.Formals.{alike as alike_of, all_fit as all_fit_of, array_fits as array_fits_of, fits as fits_of, fits_now as fits_now_of, is_reference as is_reference_of, is_within as is_within_of, procedure_fits as procedure_fits_of, same_type as same_type_of, value_fits as value_fits_of};
ghost use Rattle.object_machine.specs.Checking.{on_one_chain as on_one_chain_of};

use crate::classes::is_level;
use crate::leaving::is_nothing;
use sim_base::RunError;
use sim_code::{ClassRecord, CodeActual, CodeFormal, CodeType, FormalShape};

// Whether two types are the same.
#[inline(always)]
fn same_type(a: CodeType, b: CodeType) -> bool
    ensures { result ≡ same_type_of a b }
{
    match (a, b) {
        (CodeType::Nothing, CodeType::Nothing) => true,
        (CodeType::Integer, CodeType::Integer) => true,
        (CodeType::Boolean, CodeType::Boolean) => true,
        (CodeType::Character, CodeType::Character) => true,
        (CodeType::Text, CodeType::Text) => true,
        (CodeType::Reference, CodeType::Reference) => true,
        _ => false,
    }
}

/// Whether it is a type of references.
#[inline(always)]
pub fn is_reference(code_type: CodeType) -> bool
    ensures { result ≡ is_reference_of code_type }
{
    match code_type {
        CodeType::Reference => true,
        _ => false,
    }
}

// Whether types are the same, and where they are those of references their classes passed a test.
#[inline(always)]
fn alike(classes: bool, formal: CodeType, actual: CodeType) -> bool
    ensures { result ≡ alike_of classes formal actual }
{
    if !same_type(formal, actual) {
        return false;
    }
    if is_reference(formal) {
        return classes;
    }
    true
}

// Whether a class is another one, or has it in front.
#[inline(always)]
fn is_within(classes: &[ClassRecord], inner: u32, outer: u32) -> bool
    ensures row { (code : CodeOf) → code.classes ≡ classes.now → result ≡ is_within_of code inner outer }
{
    match is_level(classes, inner, outer as usize) {
        Some(within) => within,
        None => false,
    }
}

// Whether one of two classes is in front of the other or is the same, or there is no class that is given.
fn on_one_chain(classes: &[ClassRecord], wanted: u32, given: u32) -> bool
    ensures row { (code : CodeOf) → code.classes ≡ classes.now → result ≡ on_one_chain_of code wanted given }
{
    if given == 0 {
        return true;
    }
    if is_within(classes, given, wanted) {
        return true;
    }
    is_within(classes, wanted, given)
}

// Whether an expression fits.
fn value_fits(classes: &[ClassRecord], formal: CodeFormal, actual: CodeActual) -> bool
    ensures row { (code : CodeOf) → code.classes ≡ classes.now → result ≡ value_fits_of code formal actual }
{
    if is_nothing(formal.code_type) {
        return false;
    }
    if actual.procedure {
        if actual.formals != 0 {
            return false;
        }
    }
    let chained = on_one_chain(classes, formal.class, actual.class);
    alike(chained, formal.code_type, actual.code_type)
}

// Whether an array fits.
fn array_fits(formal: CodeFormal, actual: CodeActual) -> bool
    ensures { result ≡ array_fits_of formal actual }
{
    if is_nothing(formal.code_type) {
        return false;
    }
    alike(actual.class == formal.class, formal.code_type, actual.array)
}

// Whether a procedure fits.
fn procedure_fits(classes: &[ClassRecord], formal: CodeFormal, actual: CodeActual) -> bool
    ensures row { (code : CodeOf) → code.classes ≡ classes.now → result ≡ procedure_fits_of code formal actual }
{
    if !actual.procedure {
        return false;
    }
    let within = is_within(classes, actual.class, formal.class);
    alike(within, formal.code_type, actual.result_type)
}

// Whether an actual parameter fits a formal one.
fn fits(classes: &[ClassRecord], formal: CodeFormal, actual: CodeActual) -> bool
    ensures row { (code : CodeOf) → code.classes ≡ classes.now → result ≡ fits_of code formal actual }
{
    match formal.shape {
        FormalShape::Simple => value_fits(classes, formal, actual),
        FormalShape::Array => array_fits(formal, actual),
        FormalShape::Procedure => procedure_fits(classes, formal, actual),
    }
}

// Whether all of them fit.
fn all_fit(classes: &[ClassRecord], formals: &[CodeFormal], actuals: &[CodeActual]) -> bool
    ensures row { (code : CodeOf) → code.classes ≡ classes.now → result ≡ all_fit_of code formals.now actuals.now }
{
    for at in 0..formals.len() {
        if at >= actuals.len() {
            return true;
        }
        if !fits(classes, formals[at], actuals[at]) {
            return false;
        }
    }
    true
}

/// Holds the actual parameters of a call against the formal ones of the procedure that is called, before any of them is evaluated. Another
/// number is `WrongNumberOfParameters`, a kind or type that does not fit is `WrongParameter`. The numbers of classes are those of `classes`,
/// from 1 on. Whether the classes of two references belong to the same instance is not asked here.
pub fn fits_now(
    classes: &[ClassRecord],
    formals: &[CodeFormal],
    actuals: &[CodeActual],
) -> Result<(), RunError>
    ensures row { (code : CodeOf) → code.classes ≡ classes.now → result ≡ fits_now_of code formals.now actuals.now }
{
    if formals.len() != actuals.len() {
        return Err(RunError::WrongNumberOfParameters);
    }
    if all_fit(classes, formals, actuals) {
        return Ok(());
    }
    Err(RunError::WrongParameter)
}
