//! The formal parameters of procedures, and the text of blocks.
ghost use Rattle.std.specs.Prelude.{◌≡◌};
ghost use Rattle.sim_scope.specs.Actuals.{result_in};
ghost use Rattle.sim_scope.specs.Calls.{is_inside};
ghost use Rattle.sim_scope.specs.Scopes.{block_in, formal_declared, formal_in, formal_of, formals_at, formals_of};

use sim_base::{DeclNo, TokenNo};
use sim_scope::{Entry, Formal, Scopes, SimType, entry_of};

/// The block of a procedure or a class.
pub(crate) fn block_in(entry: Option<Entry>) -> Option<u32>
    ensures { result ≡ block_in entry }
{
    match entry {
        Some(Entry::Procedure { block, .. }) => Some(block),
        Some(Entry::Class { block }) => Some(block),
        _ => None,
    }
}

fn formals_at(scopes: &Scopes, block: Option<u32>) -> &[DeclNo]
    ensures { result.now ≡ formals_at scopes.now block }
{
    match block {
        Some(block) => sim_scope::formals_at(scopes, block),
        None => &[],
    }
}

/// The declarations of the formal parameters of a procedure or a class, in order.
#[tactic(auto, unfolding(sim_scope::specs::Scopes::formals_of))]
pub fn formals_of(scopes: &Scopes, declaration: DeclNo) -> &[DeclNo]
    ensures { result.now ≡ formals_of scopes.now declaration }
{
    formals_at(scopes, block_in(entry_of(scopes, declaration)))
}

fn formal_in(entry: Option<Entry>) -> Option<Formal>
    ensures { result ≡ formal_in entry }
{
    match entry {
        Some(Entry::Formal(formal)) => Some(formal),
        _ => None,
    }
}

fn formal_declared(scopes: &Scopes, declaration: Option<DeclNo>) -> Option<Formal>
    ensures { result ≡ formal_declared scopes.now declaration }
{
    match declaration {
        Some(declaration) => formal_in(entry_of(scopes, declaration)),
        None => None,
    }
}

/// The formal parameter of a procedure or a class at a place, counted from 0, if there is one.
#[tactic(auto, unfolding(sim_scope::specs::Scopes::formal_of))]
pub fn formal_of(scopes: &Scopes, declaration: DeclNo, place: usize) -> Option<Formal>
    ensures { result ≡ formal_of scopes.now declaration place }
{
    formal_declared(scopes, formals_of(scopes, declaration).get(place).copied())
}

/// The type of the result of a procedure, if it has one.
pub fn result_in(entry: Option<Entry>) -> Option<SimType>
    ensures { result ≡ result_in entry }
{
    match entry {
        Some(Entry::Procedure { result, .. }) => result,
        Some(Entry::Virtual { result, .. }) => result,
        Some(Entry::Formal(formal)) => formal.ty,
        Some(Entry::Attribute { result, .. }) => result,
        _ => None,
    }
}

/// Whether a token stands in the text of a block.
#[tactic(auto, unfolding(sim_scope::specs::Calls::is_inside))]
pub(crate) fn is_inside(scopes: &Scopes, token: TokenNo, block: u32) -> bool
    ensures { result ≡ is_inside scopes.now token.0 block }
{
    match scopes.blocks().get(block as usize) {
        Some(block) => block.first().0 <= token.0 && token.0 < block.end().0,
        None => false,
    }
}
