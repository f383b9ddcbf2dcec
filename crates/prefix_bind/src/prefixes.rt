//! Prefixes: the class that stands in front of each class and of each prefixed block.
ghost use Rattle.std.specs.Prelude.{◌≡◌, ◌&&◌, ◌+◌, ◌<◌, ◌^◌, not, Some, length, slice_get};
ghost use Rattle.sim_scope.specs.Access.{is_connection, is_kind};
ghost use Rattle.sim_scope.specs.Scopes.{shown as shown_name};
ghost use Rattle.sim_scope.specs.Standard.{standard_prefix};
ghost use Rattle.prefix_bind.specs.Prefixes.{block_prefixed, class_or_nothing, deeper_of, deepest, home_from, is_some, level_prefixed, prefix_from, prefix_of, prefix_of_level, prefix_outside, prefixed, shown_outward, shown_prefix, shows, standard_or_nothing, unless_connection, with_prefix};

use sim_base::TokenNo;
use sim_scope::{
    Block, Scopes, StandardPrefix, class_block, encloser, first_around, is_connection_block, shown,
    some_along, standard_prefix,
};
use sim_tree::Identifier;

/// What a prefix is.
#[derive(Clone, Copy, Debug, PartialEq, Eq)]
pub enum PrefixFound {
    /// A class, by its block.
    Class(u32),
    /// `simset` or `simulation`.
    Standard(StandardPrefix),
    /// No class that may stand there.
    Nothing,
}

/// A block that is no connection.
fn unless_connection(scopes: &Scopes, block: u32) -> Option<u32>
    ensures { result ≡ unless_connection scopes.now block }
{
    if is_connection_block(scopes, block) {
        None
    } else {
        Some(block)
    }
}

/// The block in which a prefix is looked for, of a block with this one around it.
fn home_from(scopes: &Scopes, around: Option<u32>) -> Option<u32>
    ensures { result ≡ home_from scopes.now around }
{
    match around {
        Some(block) => first_around(scopes, block, |b| unless_connection(scopes, b)),
        None => None,
    }
}

/// Whether a block shows a name. Connections are passed by.
fn shows(scopes: &Scopes, token: TokenNo, block: u32, name: &[u8]) -> bool
    ensures { result ≡ shows scopes.now token.0 name.now block }
{
    !is_connection_block(scopes, block) && shown(scopes, Some(token.0), block, name).is_some()
}

/// Whether a block, from one outward, shows a name.
fn is_shown_outward(scopes: &Scopes, token: TokenNo, block: u32, name: &[u8]) -> bool
    ensures { result ≡ shown_outward scopes.now token.0 name.now block }
{
    some_along(
        scopes.block_count(),
        block,
        |b| encloser(scopes, b),
        |b| shows(scopes, token, b, name),
    )
}

/// A prefix that every program may use.
fn standard_or_nothing(name: &[u8]) -> PrefixFound
    ensures { result ≡ standard_or_nothing (standard_prefix name.now) }
{
    match standard_prefix(name) {
        Some(standard) => PrefixFound::Standard(standard),
        None => PrefixFound::Nothing,
    }
}

fn class_or_nothing(block: Option<u32>) -> PrefixFound
    ensures { result ≡ class_or_nothing block }
{
    match block {
        Some(block) => PrefixFound::Class(block),
        None => PrefixFound::Nothing,
    }
}

/// A prefix that the block where it is looked for does not show: a standard one, unless a block further out shows the name.
fn prefix_outside(scopes: &Scopes, prefix: &Identifier, around: Option<u32>) -> PrefixFound
    ensures { result ≡ prefix_outside scopes.now prefix.now around }
{
    let name = prefix.name.as_bytes();
    match around {
        Some(block) => {
            if is_shown_outward(scopes, prefix.token, block, name) {
                PrefixFound::Nothing
            } else {
                standard_or_nothing(name)
            }
        }
        None => standard_or_nothing(name),
    }
}

/// The prefix that is looked for in a block.
fn prefix_in(scopes: &Scopes, prefix: &Identifier, home: u32) -> PrefixFound
    ensures { result ≡ shown_prefix scopes.now prefix.now home (shown_name scopes.now (Some prefix.now.token.0) home prefix.now.name) }
{
    match shown(scopes, Some(prefix.token.0), home, prefix.name.as_bytes()) {
        Some(declaration) => class_or_nothing(class_block(scopes, declaration)),
        None => prefix_outside(scopes, prefix, encloser(scopes, home)),
    }
}

fn prefix_from(scopes: &Scopes, prefix: &Identifier, home: Option<u32>) -> PrefixFound
    ensures { result ≡ prefix_from scopes.now prefix.now home }
{
    match home {
        Some(home) => prefix_in(scopes, prefix, home),
        None => standard_or_nothing(prefix.name.as_bytes()),
    }
}

/// What the prefix of a block is.
#[tactic(auto, unfolding(crate::specs::Prefixes::prefix_of))]
fn prefix_of(scopes: &Scopes, block: &Block) -> PrefixFound
    ensures { result ≡ prefix_of scopes.now block.now }
{
    match block.prefix() {
        Some(prefix) => prefix_from(scopes, prefix, home_from(scopes, block.around())),
        None => PrefixFound::Nothing,
    }
}

/// What the prefix of a block of this level is.
fn prefix_at(scopes: &Scopes, level: u32, block: usize) -> PrefixFound
    ensures { result ≡ prefix_of_level level scopes.now (slice_get scopes.now.blocks block) }
{
    match scopes.blocks().get(block) {
        Some(row) => {
            if row.level() == level {
                prefix_of(scopes, row)
            } else {
                PrefixFound::Nothing
            }
        }
        None => PrefixFound::Nothing,
    }
}

fn set_prefix(scopes: &mut Scopes, block: usize, prefix: PrefixFound)
    ensures { scopes.new ≡ with_prefix scopes.old block prefix }
{
    match prefix {
        PrefixFound::Class(base) => scopes.set_base(block, Some(base)),
        PrefixFound::Standard(standard) => scopes.set_standard(block, standard),
        PrefixFound::Nothing => (),
    }
}

/// The prefix of a block becomes known, if the block has this level.
#[tactic(auto, unfolding(crate::specs::Prefixes::block_prefixed))]
fn bind_block(scopes: &mut Scopes, level: u32, block: usize)
    ensures { scopes.new ≡ block_prefixed level scopes.old block }
{
    let prefix = prefix_at(scopes, level, block);
    set_prefix(scopes, block, prefix);
}

/// The prefixes of the blocks of a level become known.
#[tactic(auto, unfolding(crate::specs::Prefixes::level_prefixed), using(crate::proofs::Numbers::numbers))]
fn bind_level(scopes: &mut Scopes, level: u32)
    ensures { scopes.new ≡ level_prefixed scopes.old level }
{
    for block in 0..scopes.block_count() {
        bind_block(scopes, level, block);
    }
}

/// The deeper of a level and that of a block.
fn deeper_of(level: u32, block: &Block) -> u32
    ensures { result ≡ deeper_of level block.now }
{
    if level < block.level() {
        block.level()
    } else {
        level
    }
}

/// The deepest level of a block.
#[tactic(auto, unfolding(crate::specs::Prefixes::deepest), using(crate::proofs::Numbers::rows))]
fn deepest(scopes: &Scopes) -> u32
    ensures { result ≡ deepest scopes.now.blocks }
{
    let mut level = 0;
    for block in scopes.blocks() {
        level = deeper_of(level, block);
    }
    level
}

/// The prefixes become known, from the outside inward.
#[tactic(auto, unfolding(crate::specs::Prefixes::prefixed), using(crate::proofs::Numbers::numbers))]
pub(crate) fn bind_prefixes(scopes: &mut Scopes)
    ensures { scopes.new ≡ prefixed scopes.old }
{
    for level in 0..=deepest(scopes) {
        bind_level(scopes, level);
    }
}
