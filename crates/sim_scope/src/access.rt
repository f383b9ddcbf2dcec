//! Protection, and the blocks around a token. An attribute that a class protects is accessible at a place only if there is a class or a
//! prefixed block around the place that is that class or has it in its prefix chain, and no proper prefix of it hides the attribute.
ghost use Rattle.std.specs.Prelude.{◌≡◌, ◌&&◌, ℕ, Bool, Option, length, slice_get};
ghost use Rattle.sim_scope.specs.Access.{accessible, block_at, encloser, has_text_of_levels, hides, is_connection, is_kind, is_open, kind_in, names_hidden, opens, protector, protects, some_around};
ghost use Rattle.sim_scope.specs.Along.{Gives, first_along};
ghost use Rattle.sim_scope.specs.Levels.{is_standard_class, some_level};
ghost use Rattle.sim_scope.specs.Scopes.{shows_detach};

use crate::along::{first_along, some_along};
use crate::levels::{base, first_level, has_level, some_level};
use crate::scopes::Scopes;
use crate::types::BlockKind;
use sim_base::{DeclNo, TokenNo};

/// Whether a level protects an attribute of this name.
#[tactic(auto, unfolding(crate::specs::Access::protects))]
pub fn protects(scopes: &Scopes, block: u32, name: &[u8]) -> bool
    ensures { result ≡ protects scopes.now block name.now }
{
    match scopes.blocks().get(block as usize) {
        Some(row) => row.protects(name),
        None => false,
    }
}

/// Whether a level names an attribute as hidden.
#[tactic(auto, unfolding(crate::specs::Access::names_hidden))]
pub fn names_hidden(scopes: &Scopes, block: u32, name: &[u8]) -> bool
    ensures { result ≡ names_hidden scopes.now block name.now }
{
    match scopes.blocks().get(block as usize) {
        Some(row) => row.hides(name),
        None => false,
    }
}

/// The level whose attribute a protection part of this level speaks of.
pub fn protector(scopes: &Scopes, block: u32, name: &[u8]) -> Option<u32>
    ensures { result ≡ protector scopes.now block name.now }
{
    first_level(scopes, block, |b| {
        if protects(scopes, b, name) {
            Some(b)
        } else {
            None
        }
    })
}

/// Whether a level hides the attribute of this name that another level protects.
#[tactic(auto, unfolding(crate::specs::Access::hides))]
pub fn hides(scopes: &Scopes, level: u32, name: &[u8], block: u32) -> bool
    ensures { result ≡ hides scopes.now level name.now block }
{
    names_hidden(scopes, block, name) && protector(scopes, block, name) == Some(level)
}

/// Whether one of the levels hides the attribute of this name that another level protects.
pub fn hidden_outside(scopes: &Scopes, level: u32, name: &[u8], block: u32) -> bool
    ensures { result ≡ some_level scopes.now (hides scopes.now level name.now) block }
{
    some_level(scopes, block, |b| hides(scopes, level, name, b))
}

/// Whether the text of a class or a prefixed block has access to the protected attribute of a level.
#[tactic(auto, unfolding(crate::specs::Access::opens, crate::specs::Levels::has_level))]
fn opens(scopes: &Scopes, level: u32, name: &[u8], block: u32) -> bool
    ensures { result ≡ opens scopes.now level name.now block }
{
    if !has_level(scopes, block, level) {
        return false;
    }
    match base(scopes, block) {
        Some(outer) => !hidden_outside(scopes, level, name, outer),
        None => true,
    }
}

/// What a block is, if there is one.
fn kind_of(scopes: &Scopes, block: u32) -> Option<BlockKind>
    ensures { result ≡ kind_in (slice_get scopes.now.blocks block) }
{
    Some(scopes.blocks().get(block as usize)?.kind())
}

/// Whether a block is a class or a prefixed block.
#[tactic(auto, unfolding(crate::specs::Access::is_kind))]
pub fn is_class_text(scopes: &Scopes, block: u32) -> bool
    ensures { result ≡ is_kind has_text_of_levels scopes.now block }
{
    match kind_of(scopes, block) {
        Some(BlockKind::Class) => true,
        Some(BlockKind::Prefixed) => true,
        _ => false,
    }
}

/// Whether `detach` is an attribute of a block: of a class, a prefixed block, and a connection of a class.
#[tactic(auto, unfolding(crate::specs::Scopes::shows_detach))]
pub fn has_detach_at(scopes: &Scopes, block: u32) -> bool
    ensures { result ≡ shows_detach scopes.now block }
{
    match scopes.blocks().get(block as usize) {
        Some(row) => match row.kind() {
            BlockKind::Class => true,
            BlockKind::Prefixed => true,
            BlockKind::Connection => row.base().is_some(),
            _ => false,
        },
        None => false,
    }
}

/// Whether a block is a connection.
#[tactic(auto, unfolding(crate::specs::Access::is_kind))]
pub fn is_connection_block(scopes: &Scopes, block: u32) -> bool
    ensures { result ≡ is_kind is_connection scopes.now block }
{
    match kind_of(scopes, block) {
        Some(BlockKind::Connection) => true,
        _ => false,
    }
}

/// Whether a block is a standard class.
#[tactic(auto, unfolding(crate::specs::Access::is_kind))]
pub fn is_standard_class_block(scopes: &Scopes, block: u32) -> bool
    ensures { result ≡ is_kind is_standard_class scopes.now block }
{
    match kind_of(scopes, block) {
        Some(BlockKind::StandardClass(_)) => true,
        _ => false,
    }
}

/// The block around a block.
#[tactic(auto, unfolding(crate::specs::Access::encloser))]
pub fn encloser(scopes: &Scopes, block: u32) -> Option<u32>
    ensures { result ≡ encloser scopes.now block }
{
    scopes.blocks().get(block as usize)?.around()
}

/// The innermost block around a token.
#[tactic(auto, unfolding(crate::specs::Access::block_at))]
pub fn block_at(scopes: &Scopes, token: TokenNo) -> Option<u32>
    ensures { result ≡ block_at scopes.now token.0 }
{
    match scopes.places().get(token.0 as usize) {
        Some(place) => *place,
        None => None,
    }
}

/// Whether one of the blocks around a token is so.
pub fn some_around<T: Fn(u32) -> bool>(scopes: &Scopes, token: TokenNo, test: T) -> bool
    requires { T.IsAlwaysCallable test }
    ensures { (t : ℕ → Bool) → Gives T.post test t → result ≡ some_around scopes.now t token.0 }
{
    match block_at(scopes, token) {
        Some(block) => some_along(scopes.block_count(), block, |b| encloser(scopes, b), test),
        None => false,
    }
}

/// What the innermost block gives, from one outward, that gives something.
pub fn first_around<A: Drop, L: Fn(u32) -> Option<A>>(
    scopes: &Scopes,
    block: u32,
    look: L,
) -> Option<A>
    requires { L.IsAlwaysCallable look }
    ensures { (l : ℕ → Option A) → Gives L.post look l → result ≡ first_along (encloser scopes.now) (length scopes.now.blocks) l block }
{
    first_along(scopes.block_count(), block, |b| encloser(scopes, b), look)
}

/// Whether the text of a block has access to the protected attribute of a level.
fn is_opening(scopes: &Scopes, level: u32, name: &[u8], block: u32) -> bool
    ensures { result ≡ (is_kind has_text_of_levels scopes.now block && opens scopes.now level name.now block) }
{
    is_class_text(scopes, block) && opens(scopes, level, name, block)
}

/// Whether the protected attribute of a level is accessible at a token.
#[tactic(auto, unfolding(crate::specs::Access::is_open))]
fn is_open(scopes: &Scopes, level: u32, name: &[u8], token: TokenNo) -> bool
    ensures { result ≡ is_open scopes.now level name.now token.0 }
{
    some_around(scopes, token, |b| is_opening(scopes, level, name, b))
}

/// Whether a declaration is accessible at a token.
#[tactic(auto, unfolding(crate::specs::Access::accessible))]
pub fn accessible(scopes: &Scopes, token: TokenNo, declaration: DeclNo) -> bool
    ensures { result ≡ accessible scopes.now token.0 declaration }
{
    match scopes.declarations().get(declaration.0 as usize) {
        Some(row) => {
            !protects(scopes, row.block, row.name.as_bytes())
                || is_open(scopes, row.block, row.name.as_bytes(), token)
        }
        None => true,
    }
}
