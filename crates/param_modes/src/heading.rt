//! Headings.
ghost use Rattle.std.specs.Prelude.{◌≡◌, IfOk, length, option_map};
ghost use Rattle.sim_scope.specs.Scopes.{class_formals, entry_of as entry_in, formal_in};
ghost use Rattle.param_modes.specs.Headings.{formals_among, heading_of, heading_value, with_result};

use sim_base::{DeclNo, Memory};
use sim_scope::{Entry, Formal, Scopes, SimType, class_formal, class_formals_count, entry_of};
use sim_types::formals_of;
use std::alloc::Global;

/// The heading of a procedure or a class: the type of the result, if it has one, and the formal parameters in order.
#[derive(Drop)]
pub struct Heading {
    /// The type of the result.
    pub result: Option<SimType>,
    /// The formal parameters.
    pub formals: Vec<Formal>,
}

/// What a declaration is as a formal parameter.
fn formal_declared(scopes: &Scopes, declaration: &DeclNo) -> Option<Formal>
    ensures { result ≡ formal_in (entry_in scopes.now declaration.now) }
{
    match entry_of(scopes, *declaration) {
        Some(Entry::Formal(formal)) => Some(formal),
        _ => None,
    }
}

/// What declarations are as formal parameters, and nothing where one of them is none.
fn formals_among(
    alloc: Global,
    scopes: &Scopes,
    numbers: &[DeclNo],
) -> Result<Option<Vec<Formal>>, Memory>
    ensures { IfOk result (λ list. option_map (λ v. v.items) list ≡ formals_among scopes.now numbers.now) }
{
    let mut list = Vec::new(alloc);
    for number in numbers {
        match formal_declared(scopes, number) {
            Some(formal) => list.push(formal)?,
            None => return Ok(None),
        }
    }
    Ok(Some(list))
}

/// How many parameters all levels of a class have. More than can be counted would not fit into memory.
fn class_count(scopes: &Scopes, block: u32) -> Result<usize, Memory>
    ensures { IfOk result (λ count. count ≡ length (class_formals scopes.now block)) }
{
    usize::try_from(class_formals_count(scopes, block)).map_err(|_| Memory)
}

/// What the parameters of all levels of a class are, and nothing where one of them has no specification.
fn class_formals_among(
    alloc: Global,
    scopes: &Scopes,
    block: u32,
) -> Result<Option<Vec<Formal>>, Memory>
    ensures { IfOk result (λ list. option_map (λ v. v.items) list ≡ formals_among scopes.now (class_formals scopes.now block)) }
{
    let mut list = Vec::new(alloc);
    for place in 0..class_count(scopes, block)? {
        match class_formal(scopes, block, place) {
            Some(formal) => list.push(formal)?,
            None => return Ok(None),
        }
    }
    Ok(Some(list))
}

fn with_result(result_type: Option<SimType>, formals: Option<Vec<Formal>>) -> Option<Heading>
    ensures { option_map heading_value result ≡ with_result result_type (option_map (λ v. v.items) formals) }
{
    match formals {
        Some(formals) => Some(Heading {
            result: result_type,
            formals,
        }),
        None => None,
    }
}

/// The heading of a procedure or a class of these tables; a class has the parameters of all its levels, from the outermost prefix inward. There
/// is none where the declaration is neither, or where a formal parameter has no specification, which a program that breaks no rule does not
/// have.
#[tactic(auto, unfolding(crate::specs::Headings::heading_of))]
pub fn heading_of(
    alloc: Global,
    scopes: &Scopes,
    declaration: DeclNo,
) -> Result<Option<Heading>, Memory>
    ensures { IfOk result (λ heading. option_map heading_value heading ≡ heading_of scopes.now declaration) }
{
    match entry_of(scopes, declaration) {
        Some(Entry::Procedure { result, .. }) => {
            let formals = formals_among(alloc, scopes, formals_of(scopes, declaration))?;
            Ok(with_result(result, formals))
        }
        Some(Entry::Class { block }) => {
            let formals = class_formals_among(alloc, scopes, block)?;
            Ok(with_result(None, formals))
        }
        _ => Ok(None),
    }
}
