//! The rules on prefixes, and on the cells of all levels of an instance.
ghost use Rattle.std.specs.Prelude.{◌≡◌, ◌&&◌, not, nat_eq, nat_lt, length, slice_get, IfOk};
ghost use Rattle.sim_scope.specs.Levels.{base, holds, is_standard_class, some_level as some_level_spec};
ghost use Rattle.sim_scope.specs.Runs.{Runs};
ghost use Rattle.sim_scope.specs.Access.{is_kind};
ghost use Rattle.prefix_bind.specs.Cells.{most_cells};
ghost use Rattle.prefix_bind.specs.Sums.{Settled, comes_later, is_past};
ghost use Rattle.prefix_bind.specs.Prefixes.{breaks_cells, breaks_prefix, breaks_rule, faults_of, has_broken_chain, has_wrong_prefix, is_in_own_chain, is_known, is_prefixed_block, is_wrong_prefix, least_of, level_cells, noted, prefix_faults, prefix_token, prefixed, row_faults, where_true};

use crate::cells::{MOST_CELLS, base_of, cells_at};
use crate::prefixes::bind_prefixes;
use crate::sums::{Chain, chain_at, known_chains};
use sim_base::{Memory, Rule, TokenNo};
use sim_scope::{Block, BlockKind, Fault, Scopes, has_standard_class, lesser, some_level};
use std::alloc::Global;

fn is_prefixed_block(kind: BlockKind) -> bool
    ensures { result ≡ is_prefixed_block kind }
{
    match kind {
        BlockKind::Prefixed => true,
        BlockKind::Program => false,
        BlockKind::SubBlock => false,
        BlockKind::Procedure => false,
        BlockKind::Class => false,
        BlockKind::Connection => false,
        BlockKind::StandardClass(_) => false,
    }
}

/// Whether a prefix is a class that may stand there.
fn is_known(block: &Block) -> bool
    ensures { result ≡ is_known block.now }
{
    block.base().is_some() || block.standard().is_some()
}

/// Whether linkage or a class with it in its chain is the prefix.
fn has_standard_base(scopes: &Scopes, base: Option<u32>) -> bool
    ensures { result ≡ holds (λ b. some_level_spec scopes.now (is_kind is_standard_class scopes.now) b) base }
{
    match base {
        Some(base) => has_standard_class(scopes, base),
        None => false,
    }
}

/// Whether a prefix breaks `S2`.
fn is_wrong_prefix(scopes: &Scopes, block: &Block) -> bool
    ensures { result ≡ is_wrong_prefix scopes.now block.now }
{
    !is_known(block) || is_prefixed_block(block.kind()) && has_standard_base(scopes, block.base())
}

/// Whether a block has a prefix that breaks `S2`.
fn breaks_prefix(scopes: &Scopes, block: &Block) -> bool
    ensures { result ≡ breaks_prefix scopes.now block.now block.now.prefix }
{
    match block.prefix() {
        Some(_) => is_wrong_prefix(scopes, block),
        None => false,
    }
}

#[tactic(auto, unfolding(crate::specs::Prefixes::has_wrong_prefix))]
pub(crate) fn has_wrong_prefix(scopes: &Scopes, block: usize) -> bool
    ensures { result ≡ has_wrong_prefix scopes.now block }
{
    match scopes.blocks().get(block) {
        Some(row) => breaks_prefix(scopes, row),
        None => false,
    }
}

/// Whether a class is one of the levels of its own prefix.
#[tactic(auto, unfolding(crate::specs::Prefixes::is_in_own_chain))]
pub(crate) fn is_in_own_chain(scopes: &Scopes, block: usize) -> bool
    ensures { result ≡ is_in_own_chain scopes.now block }
{
    match base_of(scopes, block) {
        Some(prefix) => some_level(scopes, prefix, |b| b as usize == block),
        None => false,
    }
}

/// The same, with what is known of the chain of the class.
#[tactic(auto, using(crate::proofs::Settling::own_chains))]
fn breaks_own_chain(scopes: &Scopes, rows: &[Chain], block: usize) -> bool
    requires { Settled scopes.now rows.now }
    ensures { result ≡ is_in_own_chain scopes.now block }
{
    match chain_at(scopes, rows, block) {
        Chain::Ends { .. } => false,
        Chain::Cyclic(levels) => levels == 0,
        Chain::Unknown => is_in_own_chain(scopes, block),
    }
}

/// Whether the prefix of a block breaks a rule.
fn breaks_rule(scopes: &Scopes, rows: &[Chain], block: usize) -> bool
    requires { Settled scopes.now rows.now }
    ensures { result ≡ breaks_rule scopes.now block }
{
    has_wrong_prefix(scopes, block) || breaks_own_chain(scopes, rows, block)
}

/// Whether the prefix of a block breaks a rule, or that of a level of its prefix.
fn has_broken_chain(scopes: &Scopes, rows: &[Chain], block: usize) -> bool
    requires { Settled scopes.now rows.now }
    ensures { result ≡ has_broken_chain scopes.now block }
{
    breaks_rule(scopes, rows, block) || has_broken_level(scopes, rows, base_of(scopes, block))
}

/// Whether the prefix of a level breaks a rule.
fn has_broken_level(scopes: &Scopes, rows: &[Chain], base: Option<u32>) -> bool
    requires { Settled scopes.now rows.now }
    ensures { result ≡ holds (λ b. some_level_spec scopes.now (breaks_rule scopes.now) b) base }
{
    match base {
        Some(block) => some_level(
            scopes,
            block,
            |b|
                requires { Settled scopes.now rows.now }
            { breaks_rule(scopes, rows, b as usize) },
        ),
        None => false,
    }
}

/// Whether an instance has too many cells, with those of all levels.
fn is_overfull(scopes: &Scopes, block: usize) -> bool
    ensures { result ≡ nat_lt most_cells (level_cells scopes.now block) }
{
    let mut room = MOST_CELLS;
    let mut level = block;
    for step in 0..scopes.block_count() {
        let cells = cells_at(scopes, level);
        if cells > room {
            return true;
        }
        room -= cells;
        match base_of(scopes, level) {
            Some(next) => level = next as usize,
            None => return false,
        }
    }
    false
}

/// Whether so many cells break `L2`, where a chain is broken or not.
fn is_too_many(cells: usize, broken: bool) -> bool
    ensures { result ≡ (nat_lt most_cells cells && not broken) }
{
    cells > MOST_CELLS && !broken
}

/// Whether an instance breaks `L2`. It does not where the prefix of a level breaks a rule.
#[tactic(auto, using(crate::proofs::Settling::cell_rules))]
fn breaks_cells(scopes: &Scopes, rows: &[Chain], block: usize) -> bool
    requires { Settled scopes.now rows.now }
    ensures { result ≡ breaks_cells scopes.now block }
{
    match chain_at(scopes, rows, block) {
        Chain::Ends { cells, broken } => is_too_many(cells, broken),
        Chain::Cyclic(_) => false,
        Chain::Unknown => { is_overfull(scopes, block) && !has_broken_chain(scopes, rows, block) }
    }
}

/// Whether a fault so far comes before all at a token.
fn is_past(least: Option<Fault>, token: TokenNo) -> bool
    ensures { result ≡ is_past least token.0 }
{
    match least {
        Some(fault) => fault.token.0 < token.0,
        None => false,
    }
}

/// Whether a fault so far comes before all that a block breaks.
fn comes_later(least: Option<Fault>, row: &Block) -> bool
    ensures { result ≡ comes_later least row.now }
{
    is_past(least, row.first())
        && match row.prefix() {
            Some(prefix) => is_past(least, prefix.token),
            None => true,
        }
}

/// The lesser of the faults so far and one more, if a rule is broken.
#[tactic(auto, unfolding(crate::specs::Prefixes::noted, sim_scope::specs::Runs::Runs, sim_scope::specs::Runs::run))]
pub fn noted_if(least: Option<Fault>, broken: bool, token: TokenNo, rule: Rule) -> Option<Fault>
    ensures { Runs noted least result (where_true broken token.0 rule) }
{
    if broken {
        lesser(least, Fault { token, rule })
    } else {
        least
    }
}

/// The token of the prefix of a block.
fn prefix_token(block: &Block) -> TokenNo
    ensures { result.0 ≡ prefix_token block.now.prefix }
{
    match block.prefix() {
        Some(prefix) => prefix.token,
        None => TokenNo(0),
    }
}

/// The lesser of the faults so far and those of a block.
#[tactic(auto, unfolding(crate::specs::Prefixes::row_faults), using(crate::proofs::Numbers::faults))]
fn with_row(
    scopes: &Scopes,
    rows: &[Chain],
    least: Option<Fault>,
    block: usize,
    row: &Block,
) -> Option<Fault>
    requires { Settled scopes.now rows.now }
    ensures { Runs noted least result (row_faults scopes.now block row.now) }
{
    let wrong = breaks_prefix(scopes, row);
    let own = breaks_own_chain(scopes, rows, block);
    let least = noted_if(least, wrong, prefix_token(row), Rule::PrefixIsNoClass);
    let least = noted_if(least, own, row.first(), Rule::ClassInItsOwnChain);
    noted_if(
        least,
        breaks_cells(scopes, rows, block),
        row.first(),
        Rule::TooManyCells,
    )
}

/// The same. A block is passed by whose faults would come later.
#[tactic(auto, using(crate::proofs::Later::later))]
fn with_row_if(
    scopes: &Scopes,
    rows: &[Chain],
    least: Option<Fault>,
    block: usize,
    row: &Block,
) -> Option<Fault>
    requires { Settled scopes.now rows.now }
    ensures { Runs noted least result (row_faults scopes.now block row.now) }
{
    if comes_later(least, row) {
        least
    } else {
        with_row(scopes, rows, least, block, row)
    }
}

#[tactic(auto, unfolding(crate::specs::Prefixes::faults_of, sim_scope::specs::Runs::Runs, sim_scope::specs::Runs::run))]
fn with_block(scopes: &Scopes, rows: &[Chain], least: Option<Fault>, block: usize) -> Option<Fault>
    requires { Settled scopes.now rows.now }
    ensures { Runs noted least result (faults_of scopes.now block) }
{
    match scopes.blocks().get(block) {
        Some(row) => with_row_if(scopes, rows, least, block, row),
        None => least,
    }
}

/// The least of the rules that prefixes and the cells of instances break.
#[tactic(auto, unfolding(crate::specs::Prefixes::prefix_faults, crate::specs::Prefixes::least_of, sim_scope::specs::Runs::run), using(crate::proofs::Numbers::numbers))]
fn least_fault(scopes: &Scopes, rows: &[Chain]) -> Option<Fault>
    requires { Settled scopes.now rows.now }
    ensures { result ≡ least_of (prefix_faults scopes.now) }
{
    let mut least = None;
    for block in 0..scopes.block_count() {
        least = with_block(scopes, rows, least, block);
    }
    least
}

/// Concatenation: the class that each prefix is becomes known (`S2`), and no class is one of its own levels (`S3`). The answer is the least of
/// these rules that is broken, and of `L2`: an instance has at most 4,095 cells, with those of all its levels.
pub fn concat(alloc: Global, scopes: &mut Scopes) -> Result<Option<Fault>, Memory>
    ensures prefixes { scopes.new ≡ prefixed scopes.old }
    ensures broken { IfOk result (λ least. least ≡ least_of (prefix_faults scopes.new)) }
{
    bind_prefixes(scopes);
    let rows = known_chains(alloc, scopes)?;
    Ok(least_fault(scopes, &rows))
}
