//! The cells of a block.
ghost use Rattle.std.specs.Prelude.{◌≡◌, ◌+◌, ◌≤◌, Some, None, length, slice_get};
ghost use Rattle.std.specs.List.{count_by};
ghost use Rattle.sim_scope.specs.Scopes.{entry_of};
ghost use Rattle.sim_scope.specs.Levels.{base};
ghost use Rattle.prefix_bind.specs.Prefixes.{cells_at};
ghost use Rattle.prefix_bind.specs.Cells.{cells_of, has_cell, has_result, is_cell, is_typed};

use sim_base::DeclNo;
use sim_scope::{Block, Entry, Scopes, entry_of};

/// The most cells that an instance may have.
pub(crate) const MOST_CELLS: usize = 4_095;

/// Whether what is declared has a cell.
fn is_cell(entry: Entry) -> bool
    ensures { result ≡ is_cell entry }
{
    match entry {
        Entry::Variable(_) => true,
        Entry::Constant(_) => true,
        Entry::Array { .. } => true,
        Entry::Formal(_) => true,
        Entry::Unspecified { .. } => true,
        Entry::Procedure { .. } => false,
        Entry::Class { .. } => false,
        Entry::Virtual { .. } => false,
        Entry::Attribute { .. } => false,
    }
}

fn has_cell(scopes: &Scopes, declaration: DeclNo) -> bool
    ensures { result ≡ has_cell (entry_of scopes.now declaration) }
{
    match entry_of(scopes, declaration) {
        Some(entry) => is_cell(entry),
        None => false,
    }
}

/// Whether what is declared is a procedure with a result.
fn is_typed(entry: Entry) -> bool
    ensures { result ≡ is_typed entry }
{
    match entry {
        Entry::Procedure {
            result: Some(_),
            ..
        } => true,
        Entry::Procedure { result: None, .. } => false,
        Entry::Variable(_) => false,
        Entry::Constant(_) => false,
        Entry::Array { .. } => false,
        Entry::Formal(_) => false,
        Entry::Unspecified { .. } => false,
        Entry::Class { .. } => false,
        Entry::Virtual { .. } => false,
        Entry::Attribute { .. } => false,
    }
}

fn has_result(scopes: &Scopes, owner: Option<DeclNo>) -> bool
    ensures { result ≡ has_result scopes.now owner }
{
    match owner {
        Some(owner) => match entry_of(scopes, owner) {
            Some(entry) => is_typed(entry),
            None => false,
        },
        None => false,
    }
}

/// How many of these declarations have cells.
fn cells_in(scopes: &Scopes, numbers: &[DeclNo]) -> usize
    ensures count { result ≡ count_by (λ d. has_cell (entry_of scopes.now d)) numbers.now }
    ensures most { result ≤ length numbers.now }
{
    numbers
        .iter()
        .filter(|number| has_cell(scopes, **number))
        .count()
}

/// How many cells an instance of a block has.
#[tactic(auto, unfolding(crate::specs::Cells::cells_of))]
pub(crate) fn cells_of(scopes: &Scopes, block: &Block) -> usize
    ensures { result ≡ cells_of scopes.now block.now }
{
    let numbers = block.numbers();
    let declared = cells_in(scopes, numbers);
    if has_result(scopes, block.owner()) {
        declared + 1
    } else {
        declared
    }
}

/// The cells of a block alone.
pub(crate) fn cells_at(scopes: &Scopes, block: usize) -> usize
    ensures { result ≡ cells_at scopes.now (slice_get scopes.now.blocks block) }
{
    match scopes.blocks().get(block) {
        Some(row) => cells_of(scopes, row),
        None => 0,
    }
}

/// The next level of a block.
#[tactic(auto, unfolding(sim_scope::specs::Levels::base))]
pub(crate) fn base_of(scopes: &Scopes, block: usize) -> Option<u32>
    ensures { result ≡ base scopes.now block }
{
    scopes.blocks().get(block)?.base()
}
