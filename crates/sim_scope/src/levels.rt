//! The levels of a class, a prefixed block or a connection: itself, then what it has for a prefix, and so on outward.
ghost use Rattle.std.specs.Prelude.{◌≡◌, ℕ, Bool, Option, length, slice_get};
ghost use Rattle.sim_scope.specs.Access.{is_kind};
ghost use Rattle.sim_scope.specs.Along.{Gives, first_along};
ghost use Rattle.sim_scope.specs.Levels.{base, both_blocks, class_block, class_block_in, entry_at, has_classes, has_level, has_standard, holds_class, is_for_prefixing, is_in_chain, is_simulation, is_simulation_block, is_standard, is_standard_class, on_one_chain, owner_of_level, shared_class, shared_level_of, simulation_level_of, some_level, standard_in};

use crate::access::is_standard_class_block;
use crate::along::{first_along, some_along};
use crate::scopes::Scopes;
use crate::types::{Entry, StandardPrefix};
use sim_base::DeclNo;

/// The next level outward.
#[tactic(auto, unfolding(crate::specs::Levels::base))]
pub fn base(scopes: &Scopes, block: u32) -> Option<u32>
    ensures { result ≡ base scopes.now block }
{
    scopes.blocks().get(block as usize)?.base()
}

/// Whether one of the levels is so.
pub fn some_level<T: Fn(u32) -> bool>(scopes: &Scopes, block: u32, test: T) -> bool
    requires { T.IsAlwaysCallable test }
    ensures { (t : ℕ → Bool) → Gives T.post test t → result ≡ some_level scopes.now t block }
{
    some_along(scopes.block_count(), block, |b| base(scopes, b), test)
}

/// What the innermost level gives that gives something.
pub fn first_level<A: Drop, L: Fn(u32) -> Option<A>>(
    scopes: &Scopes,
    block: u32,
    look: L,
) -> Option<A>
    requires { L.IsAlwaysCallable look }
    ensures { (l : ℕ → Option A) → Gives L.post look l → result ≡ first_along (base scopes.now) (length scopes.now.blocks) l block }
{
    first_along(scopes.block_count(), block, |b| base(scopes, b), look)
}

/// Whether a block is one of the levels of another.
#[tactic(auto, unfolding(crate::specs::Levels::has_level))]
pub fn has_level(scopes: &Scopes, block: u32, level: u32) -> bool
    ensures { result ≡ has_level scopes.now block level }
{
    some_level(scopes, block, |b| b == level)
}

/// Whether a block declares a class, or its standard prefix does.
#[tactic(auto, unfolding(crate::specs::Levels::holds_class))]
pub fn holds_class(scopes: &Scopes, block: u32) -> bool
    ensures { result ≡ holds_class scopes.now block }
{
    match scopes.blocks().get(block as usize) {
        Some(row) => row.has_class() || row.standard().is_some(),
        None => false,
    }
}

/// Whether one of the levels declares a class.
#[tactic(auto, unfolding(crate::specs::Levels::has_classes))]
pub fn has_classes(scopes: &Scopes, block: u32) -> bool
    ensures { result ≡ has_classes scopes.now block }
{
    some_level(scopes, block, |b| holds_class(scopes, b))
}

/// The standard prefix of a block, if it has one.
fn standard_in(scopes: &Scopes, block: u32) -> Option<StandardPrefix>
    ensures { result ≡ standard_in (slice_get scopes.now.blocks block) }
{
    scopes.blocks().get(block as usize)?.standard()
}

/// Whether `simset` or `simulation` is the prefix of a block.
#[tactic(auto, unfolding(crate::specs::Levels::has_standard))]
pub fn has_standard(scopes: &Scopes, block: u32) -> bool
    ensures { result ≡ has_standard scopes.now block }
{
    match standard_in(scopes, block) {
        Some(_) => true,
        None => false,
    }
}

/// Whether `simulation` is the prefix of a block.
#[tactic(auto, unfolding(crate::specs::Levels::is_simulation_block))]
pub fn is_simulation_block(scopes: &Scopes, block: u32) -> bool
    ensures { result ≡ is_simulation_block scopes.now block }
{
    match standard_in(scopes, block) {
        Some(StandardPrefix::Simulation) => true,
        Some(StandardPrefix::Simset) => false,
        None => false,
    }
}

/// Whether a class is only for prefixing: it has `simulation` in its prefix chain.
#[tactic(auto, unfolding(crate::specs::Levels::is_for_prefixing))]
pub fn is_for_prefixing(scopes: &Scopes, block: u32) -> bool
    ensures { result ≡ is_for_prefixing scopes.now block }
{
    some_level(scopes, block, |b| is_simulation_block(scopes, b))
}

/// Whether one of the levels has `simset` or `simulation` for its prefix.
pub fn has_standard_prefix(scopes: &Scopes, block: u32) -> bool
    ensures { result ≡ some_level scopes.now (has_standard scopes.now) block }
{
    some_level(scopes, block, |b| has_standard(scopes, b))
}

/// Whether one of the levels has `simulation` for its prefix.
pub fn has_simulation(scopes: &Scopes, block: u32) -> bool
    ensures { result ≡ some_level scopes.now (is_simulation_block scopes.now) block }
{
    some_level(scopes, block, |b| is_simulation_block(scopes, b))
}

/// Whether one of the levels is a standard class.
pub fn has_standard_class(scopes: &Scopes, block: u32) -> bool
    ensures { result ≡ some_level scopes.now (is_kind is_standard_class scopes.now) block }
{
    some_level(scopes, block, |b| is_standard_class_block(scopes, b))
}

/// The level that has `simulation` for its prefix.
pub fn simulation_level(scopes: &Scopes, block: u32) -> Option<u32>
    ensures { result ≡ simulation_level_of scopes.now (length scopes.now.blocks) block }
{
    first_level(scopes, block, |b| {
        if is_simulation_block(scopes, b) {
            Some(b)
        } else {
            None
        }
    })
}

/// The block of a class.
#[tactic(auto, unfolding(crate::specs::Levels::class_block, crate::specs::Scopes::entry_of))]
pub fn class_block(scopes: &Scopes, declaration: DeclNo) -> Option<u32>
    ensures { result ≡ class_block scopes.now declaration }
{
    match scopes.declarations().get(declaration.0 as usize)?.entry {
        Entry::Class { block } => Some(block),
        _ => None,
    }
}

/// The class whose block a level is.
pub fn owner_of_level(scopes: &Scopes, level: Option<u32>) -> Option<DeclNo>
    ensures { result ≡ owner_of_level scopes.now level }
{
    match level {
        Some(block) => scopes.blocks().get(block as usize)?.owner(),
        None => None,
    }
}

/// Whether a class is a subclass of another, or is that class.
#[tactic(auto, unfolding(crate::specs::Levels::is_in_chain))]
pub fn is_in_chain(scopes: &Scopes, inner: DeclNo, outer: DeclNo) -> bool
    ensures { result ≡ is_in_chain scopes.now inner outer }
{
    match (class_block(scopes, inner), class_block(scopes, outer)) {
        (Some(inner), Some(outer)) => has_level(scopes, inner, outer),
        _ => false,
    }
}

/// Whether two classes lie on one prefix chain.
#[tactic(auto, unfolding(crate::specs::Levels::on_one_chain))]
pub fn on_one_chain(scopes: &Scopes, first: DeclNo, second: DeclNo) -> bool
    ensures { result ≡ on_one_chain scopes.now first second }
{
    is_in_chain(scopes, first, second) || is_in_chain(scopes, second, first)
}

/// The innermost level that is a level of another block too.
fn shared_level(scopes: &Scopes, other: u32, block: u32) -> Option<u32>
    ensures { result ≡ shared_level_of scopes.now (length scopes.now.blocks) other block }
{
    first_level(scopes, block, |b| {
        if has_level(scopes, other, b) {
            Some(b)
        } else {
            None
        }
    })
}

/// The innermost class that the prefix chains of two classes share.
#[tactic(auto, unfolding(crate::specs::Levels::shared_class))]
pub fn shared_class(scopes: &Scopes, first: DeclNo, second: DeclNo) -> Option<DeclNo>
    ensures { result ≡ shared_class scopes.now first second }
{
    match (class_block(scopes, first), class_block(scopes, second)) {
        (Some(first), Some(second)) => {
            owner_of_level(scopes, shared_level(scopes, second, first))
        }
        _ => None,
    }
}
