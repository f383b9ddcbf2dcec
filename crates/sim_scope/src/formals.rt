//! The formal parameters of procedures and classes.
ghost use Rattle.std.specs.Prelude.{◌≡◌, ◌<◌, ◌^◌, ◌-◌, if◌then◌else◌, nat_lt, length, slice_get, take};
ghost use Rattle.sim_scope.specs.Scopes.{class_formal, class_formals, formal_declared, formals_at};

use crate::levels::base;
use crate::scopes::{Block, Scopes};
use crate::search::entry_of;
use crate::types::{Entry, Formal};
use sim_base::DeclNo;

/// The declarations of the formal parameters of a block.
fn formals_in(block: &Block) -> &[DeclNo]
    ensures { result.now ≡ take block.now.formals block.now.numbers }
{
    let numbers = block.numbers();
    let count = block.formals();
    if count < numbers.len() {
        &numbers[..count]
    } else {
        numbers
    }
}

/// The declarations of the formal parameters of the block of a procedure or a class.
pub fn formals_at(scopes: &Scopes, block: u32) -> &[DeclNo]
    ensures { result.now ≡ formals_at scopes.now (Some block) }
{
    match scopes.blocks().get(block as usize) {
        Some(block) => formals_in(block),
        None => &[],
    }
}

fn formal_declared(scopes: &Scopes, declaration: Option<DeclNo>) -> Option<Formal>
    ensures { result ≡ formal_declared scopes.now declaration }
{
    match entry_of(scopes, declaration?) {
        Some(Entry::Formal(formal)) => Some(formal),
        _ => None,
    }
}

/// The parameter of a block at a place.
fn own_formal(scopes: &Scopes, block: u32, place: usize) -> Option<Formal>
    ensures { result ≡ formal_declared scopes.now (slice_get (formals_at scopes.now (Some block)) place) }
{
    formal_declared(scopes, formals_at(scopes, block).get(place).copied())
}

/// How many parameters a block has.
fn own_count(scopes: &Scopes, block: u32) -> u128
    ensures count { result ≡ length (formals_at scopes.now (Some block)) }
    ensures least { result < 2 ^ 64 }
{
    formals_at(scopes, block).len() as u128
}

/// How many parameters all levels of a class have. The levels of a class that is in its own chain count again and again, so there may be more
/// than memory could hold.
#[tactic(auto, unfolding(crate::specs::Scopes::class_formals))]
pub fn class_formals_count(scopes: &Scopes, block: u32) -> u128
    ensures { result ≡ length (class_formals scopes.now block) }
{
    let mut block = block;
    let mut count = 0;
    for step in 0..scopes.block_count() {
        count += own_count(scopes, block);
        match base(scopes, block) {
            Some(outer) => block = outer,
            None => return count,
        }
    }
    count
}

/// The place of a parameter among those of its own level, behind so many of the levels further out.
fn place_behind(outer: u128, place: usize) -> Option<usize>
    ensures { result ≡ (if nat_lt place outer then None else Some (place - outer)) }
{
    let place = place as u128;
    if place < outer {
        None
    } else {
        Some((place - outer) as usize)
    }
}

/// The parameter of a class at a place, counted from 0 from the outermost level inward.
#[tactic(auto, unfolding(crate::specs::Scopes::class_formal))]
pub fn class_formal(scopes: &Scopes, block: u32, place: usize) -> Option<Formal>
    ensures { result ≡ class_formal scopes.now block place }
{
    let mut block = block;
    let mut outer = class_formals_count(scopes, block);
    for step in 0..scopes.block_count() {
        outer -= own_count(scopes, block);
        if let Some(own) = place_behind(outer, place) {
            return own_formal(scopes, block, own);
        }
        match base(scopes, block) {
            Some(outward) => block = outward,
            None => return None,
        }
    }
    None
}
