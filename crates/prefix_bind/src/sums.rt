//! What is known of the chain of each block, in a table: the cells of all its levels and whether a prefix in it breaks a rule, where it ends;
//! else how far it is to a class that is in its own chain. Each block is passed once, and settled from its next level.
ghost use Rattle.std.specs.Prelude.{◌≡◌, ◌<◌, ◌+◌, ◌||◌, ℕ, false, true, IfOk, None, Some, length, replicate, slice_get, slice_set};
ghost use Rattle.sim_scope.specs.Levels.{base};
ghost use Rattle.prefix_bind.specs.Prefixes.{is_in_own_chain};
ghost use Rattle.prefix_bind.specs.Sums.{IsSo, Settled, is_known, is_known_at};
ghost use Rattle.prefix_bind.specs.declared.sums.Chain.TheVariants.{Cyclic, Ends, Unknown};

use crate::cells::{base_of, cells_at};
use crate::chains::{has_wrong_prefix, is_in_own_chain};
use sim_scope::Scopes;
use std::alloc::{AllocError, Global};

/// What is known of the chain of a block.
#[derive(Clone, Copy)]
pub(crate) enum Chain {
    /// Nothing yet.
    Unknown,
    /// It ends. Its levels have so many cells, and the prefix of one of them breaks a rule or not.
    Ends { cells: usize, broken: bool },
    /// It leads into a cycle: so many levels outward stands the first class that is in its own chain.
    Cyclic(usize),
}

fn is_chain_known(chain: Chain) -> bool
    ensures { result ≡ is_known chain }
{
    match chain {
        Chain::Unknown => false,
        Chain::Ends { .. } => true,
        Chain::Cyclic(_) => true,
    }
}

/// Nothing is known of so many chains.
fn unknown(alloc: Global, count: usize) -> Result<Vec<Chain>, AllocError>
    ensures { IfOk result (λ rows. rows.items ≡ replicate count Unknown) }
{
    let mut rows = Vec::new(alloc);
    for made in 0..count {
        rows.push(Chain::Unknown)?;
    }
    Ok(rows)
}

/// A row of the table.
fn row_at(rows: &[Chain], block: usize) -> Option<Chain>
    ensures { result ≡ slice_get rows.now block }
{
    rows.get(block).copied()
}

/// What is known of the chain of a block.
#[tactic(auto, using(crate::proofs::Settling::endings))]
pub(crate) fn chain_at(scopes: &Scopes, rows: &[Chain], block: usize) -> Chain
    requires { Settled scopes.now rows.now }
    ensures { IsSo scopes.now block result }
{
    match row_at(rows, block) {
        Some(chain) => chain,
        None => Chain::Unknown,
    }
}

fn is_known(rows: &[Chain], block: usize) -> bool
    ensures { result ≡ is_known_at (slice_get rows.now block) }
{
    match row_at(rows, block) {
        Some(chain) => is_chain_known(chain),
        None => false,
    }
}

fn set(rows: &mut Vec<Chain>, block: usize, chain: Chain)
    ensures { rows.new.items ≡ slice_set rows.old.items block chain }
{
    if let Some(row) = rows.get_mut(block) {
        *row = chain;
    }
}

/// The chain of a block without a prefix.
#[tactic(auto, using(crate::proofs::Settling::settles))]
fn settle_outermost(scopes: &Scopes, rows: &mut Vec<Chain>, block: usize)
    requires settled { Settled scopes.now rows.old.items }
    requires last { base scopes.now block ≡ None }
    requires inside { block < length scopes.now.blocks }
    ensures { Settled scopes.now rows.new.items }
{
    let cells = cells_at(scopes, block);
    let broken = has_wrong_prefix(scopes, block);
    set(rows, block, Chain::Ends { cells, broken });
}

/// So many cells and others, if that is a number.
fn sum(cells: usize, others: usize) -> Option<usize>
    ensures { (all : ℕ) → result ≡ Some all → all ≡ cells + others }
{
    cells.checked_add(others)
}

fn either(wrong: bool, broken: bool) -> bool
    ensures { result ≡ (wrong || broken) }
{
    wrong || broken
}

/// The chain of a block, where that of its next level ends.
#[tactic(auto, using(crate::proofs::Settling::settles))]
fn settle_longer(
    scopes: &Scopes,
    rows: &mut Vec<Chain>,
    block: usize,
    next: usize,
    others: usize,
    broken: bool,
)
    requires settled { Settled scopes.now rows.old.items }
    requires behind { base scopes.now block ≡ Some next }
    requires so { slice_get rows.old.items next ≡ Some (Ends others broken) }
    ensures { Settled scopes.now rows.new.items }
{
    let Some(cells) = sum(cells_at(scopes, block), others) else {
        return;
    };
    let broken = either(has_wrong_prefix(scopes, block), broken);
    set(rows, block, Chain::Ends { cells, broken });
}

/// The chain of a block that is not known yet, where that of its next level leads into a cycle.
#[tactic(auto, using(crate::proofs::Settling::settles))]
fn settle_further(scopes: &Scopes, rows: &mut Vec<Chain>, block: usize, next: usize, levels: usize)
    requires settled { Settled scopes.now rows.old.items }
    requires behind { base scopes.now block ≡ Some next }
    requires so { slice_get rows.old.items next ≡ Some (Cyclic levels) }
    requires fresh { is_known_at (slice_get rows.old.items block) ≡ false }
    ensures { Settled scopes.now rows.new.items }
{
    if levels < scopes.block_count() {
        set(rows, block, Chain::Cyclic(levels + 1));
    }
}

/// The chain of a block that is not known yet, from that of its next level.
fn settle_behind(scopes: &Scopes, rows: &mut Vec<Chain>, block: usize, next: usize)
    requires settled { Settled scopes.now rows.old.items }
    requires behind { base scopes.now block ≡ Some next }
    requires fresh { is_known_at (slice_get rows.old.items block) ≡ false }
    ensures { Settled scopes.now rows.new.items }
{
    match row_at(rows, next) {
        Some(Chain::Ends { cells, broken }) => {
            settle_longer(scopes, rows, block, next, cells, broken)
        }
        Some(Chain::Cyclic(levels)) => settle_further(scopes, rows, block, next, levels),
        Some(Chain::Unknown) => {}
        None => {}
    }
}

/// The chain of a block becomes known, where that of its next level is.
fn settle(scopes: &Scopes, rows: &mut Vec<Chain>, block: usize)
    requires { Settled scopes.now rows.old.items }
    ensures { Settled scopes.now rows.new.items }
{
    if is_known(rows, block) || block >= scopes.block_count() {
        return;
    }
    match base_of(scopes, block) {
        Some(next) => settle_behind(scopes, rows, block, next as usize),
        None => settle_outermost(scopes, rows, block),
    }
}

fn settle_all(scopes: &Scopes, rows: &mut Vec<Chain>, path: &[usize])
    requires { Settled scopes.now rows.old.items }
    ensures { Settled scopes.now rows.new.items }
{
    for block in path {
        settle(scopes, rows, *block);
    }
}

/// The chains of a cycle become known, from that of a class in it on. False where the walk did not come back to a block that is known, but a
/// cycle has no more blocks than there are.
#[tactic(auto, using(crate::proofs::Settling::cycles))]
fn settle_cycle(scopes: &Scopes, rows: &mut Vec<Chain>, block: usize) -> bool
    requires settled { Settled scopes.now rows.old.items }
    requires own { is_in_own_chain scopes.now block ≡ true }
    ensures { result ≡ true → Settled scopes.now rows.new.items }
{
    let mut level = block;
    for step in 0..scopes.block_count() {
        if is_known(rows, level) {
            return true;
        }
        set(rows, level, Chain::Cyclic(0));
        match base_of(scopes, level) {
            Some(next) => level = next as usize,
            None => return false,
        }
    }
    false
}

/// By which walk each block was met, if it was met.
fn unmet(alloc: Global, count: usize) -> Result<Vec<Option<usize>>, AllocError> {
    let mut met = Vec::new(alloc);
    for made in 0..count {
        met.push(None)?;
    }
    Ok(met)
}

/// Whether a walk meets a block again. It has met it from now on.
fn is_met_again(met: &mut Vec<Option<usize>>, block: usize, walk: usize) -> bool {
    match met.get_mut(block) {
        Some(by) => {
            let again = *by == Some(walk);
            *by = Some(walk);
            again
        }
        None => false,
    }
}

/// The levels of a block, from the outermost inward, up to one of which something is known or that was met before, which is answered.
fn path_from(
    scopes: &Scopes,
    rows: &[Chain],
    met: &mut Vec<Option<usize>>,
    path: &mut Vec<usize>,
    block: usize,
) -> Result<Option<usize>, AllocError> {
    let mut level = block;
    for step in 0..scopes.block_count() {
        if is_known(rows, level) {
            return Ok(None);
        }
        if is_met_again(met, level, block) {
            return Ok(Some(level));
        }
        path.push(level)?;
        match base_of(scopes, level) {
            Some(next) => level = next as usize,
            None => return Ok(None),
        }
    }
    Ok(None)
}

/// A cycle becomes known that a walk has met.
fn settle_met(
    alloc: Global,
    scopes: &Scopes,
    rows: Vec<Chain>,
    meeting: usize,
) -> Result<Vec<Chain>, AllocError>
    requires { Settled scopes.now rows.items }
    ensures { IfOk result (λ settled. Settled scopes.now settled.items) }
{
    if !is_in_own_chain(scopes, meeting) {
        return Ok(rows);
    }
    let mut rows = rows;
    if settle_cycle(scopes, &mut rows, meeting) {
        Ok(rows)
    } else {
        nothing_known(alloc, scopes)
    }
}

/// Nothing is known of any chain.
#[tactic(auto, using(crate::proofs::Settling::tables))]
fn nothing_known(alloc: Global, scopes: &Scopes) -> Result<Vec<Chain>, AllocError>
    ensures { IfOk result (λ rows. Settled scopes.now rows.items) }
{
    unknown(alloc, scopes.block_count())
}

/// What is known of the chain of each block.
pub(crate) fn known_chains(alloc: Global, scopes: &Scopes) -> Result<Vec<Chain>, AllocError>
    ensures { IfOk result (λ rows. Settled scopes.now rows.items) }
{
    let mut rows = nothing_known(alloc, scopes)?;
    let mut met = unmet(alloc, scopes.block_count())?;
    for block in 0..scopes.block_count() {
        let mut path = Vec::new(alloc);
        if let Some(meeting) = path_from(scopes, &rows, &mut met, &mut path, block)? {
            rows = settle_met(alloc, scopes, rows, meeting)?;
        }
        path.reverse();
        settle_all(scopes, &mut rows, &path);
    }
    Ok(rows)
}
