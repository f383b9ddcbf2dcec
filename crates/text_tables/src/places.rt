//! The cells of texts.
ghost use Rattle.std.specs.Prelude.{◌≡◌, ◌++◌, IfOk, OnOk, length, map, replicate, None};
ghost use Rattle.sim_scope.specs.Source.{source_of};
ghost use Rattle.sim_meaning.specs.Entries.{cells_from, numbers_of as numbers_of_text};
ghost use Rattle.codegen_expr.specs.Sites.{own_cells};
ghost use Rattle.program_texts.specs.TextTrees.{text_in};
ghost use Rattle.text_tables.specs.Making.{AllPlaced, IsPlaced, Places, cell_alone, has_cell as has_cell_of, is_class_tree, is_connection_tree, is_process_tree, is_result, slot_at};

use codegen_expr::{block_of, deeper};
use program_texts::TextTree;
use sim_base::DeclNo;
use sim_scope::{Bound, Entry, StandardClass, entry_of};
use std::alloc::{AllocError, Global};

/// Whether a text is a procedure with a result.
fn has_result(text: TextTree) -> bool
    ensures { result ≡ is_result text.entry }
{
    match text {
        TextTree::Procedure { result, .. } => result.is_some(),
        _ => false,
    }
}

/// For each text whether it is a procedure with a result.
#[tactic(auto, using(crate::proofs::Placing::placing))]
pub(crate) fn results_of(alloc: Global, texts: &[TextTree]) -> Result<Vec<bool>, AllocError>
    ensures { IfOk result (λ v. v.items ≡ map is_result texts.now) }
{
    let mut table = Vec::new(alloc);
    for text in texts {
        table.push(has_result(*text))?;
    }
    Ok(table)
}

/// Whether a text is a class.
fn is_class(text: TextTree) -> bool
    ensures { result ≡ is_class_tree text.entry }
{
    match text {
        TextTree::Class { .. } => true,
        TextTree::ClassOfStatement { .. } => true,
        TextTree::Standard(_) => true,
        _ => false,
    }
}

/// For each text whether it is a class.
#[tactic(auto, using(crate::proofs::Placing::placing))]
pub(crate) fn classes_of(alloc: Global, texts: &[TextTree]) -> Result<Vec<bool>, AllocError>
    ensures { IfOk result (λ v. v.items ≡ map is_class_tree texts.now) }
{
    let mut table = Vec::new(alloc);
    for text in texts {
        table.push(is_class(*text))?;
    }
    Ok(table)
}

/// Whether a text is a connection.
fn is_connection(text: TextTree) -> bool
    ensures { result ≡ is_connection_tree text.entry }
{
    match text {
        TextTree::Connection => true,
        _ => false,
    }
}

/// For each text whether it is a connection.
#[tactic(auto, using(crate::proofs::Placing::placing))]
pub(crate) fn connections_of(alloc: Global, texts: &[TextTree]) -> Result<Vec<bool>, AllocError>
    ensures { IfOk result (λ v. v.items ≡ map is_connection_tree texts.now) }
{
    let mut table = Vec::new(alloc);
    for text in texts {
        table.push(is_connection(*text))?;
    }
    Ok(table)
}

/// Whether a text is the class `process`.
fn is_process(text: TextTree) -> bool
    ensures { result ≡ is_process_tree text.entry }
{
    match text {
        TextTree::Standard(StandardClass::Process) => true,
        _ => false,
    }
}

/// For each text whether it is the class `process`.
#[tactic(auto, using(crate::proofs::Placing::placing))]
pub(crate) fn processes_of(alloc: Global, texts: &[TextTree]) -> Result<Vec<bool>, AllocError>
    ensures { IfOk result (λ v. v.items ≡ map is_process_tree texts.now) }
{
    let mut table = Vec::new(alloc);
    for text in texts {
        table.push(is_process(*text))?;
    }
    Ok(table)
}

/// A table in which no declaration has a cell.
pub(crate) fn no_slots(alloc: Global, count: usize) -> Result<Vec<Option<u32>>, AllocError>
    ensures { IfOk result (λ v. v.items ≡ replicate count None) }
{
    let mut list = Vec::new(alloc);
    for made in 0..count {
        list.push(None)?;
    }
    Ok(list)
}

/// Whether what is declared has a cell.
fn has_cell(entry: Option<Entry>) -> bool
    ensures { result ≡ has_cell_of entry }
{
    match entry {
        Some(Entry::Variable(_)) => true,
        Some(Entry::Constant(_)) => true,
        Some(Entry::Array { .. }) => true,
        Some(Entry::Formal(_)) => true,
        _ => false,
    }
}

/// The cell that a declaration has so far.
fn slot_in(slots: &[Option<u32>], declaration: DeclNo) -> Option<u32>
    ensures { result ≡ slot_at slots.now declaration }
{
    match slots.get(declaration.0 as usize) {
        Some(slot) => *slot,
        None => None,
    }
}

/// The cell of this number is that of a declaration, if this stands in the text and has none yet.
#[tactic(auto, using(crate::proofs::Placing::placing))]
fn place(bound: &Bound, slots: &mut Vec<Option<u32>>, text: u32, declaration: DeclNo, cell: u32)
    ensures { IsPlaced (source_of bound.now) text slots.old.items slots.new.items declaration cell }
{
    if block_of(bound, declaration) != text {
        return;
    }
    if let Some(_) = slot_in(slots, declaration) {
        return;
    }
    let index = declaration.0 as usize;
    if index >= slots.len() {
        return;
    }
    slots[index] = Some(cell);
}

/// The cell of one declaration, if it has any; the number behind it.
fn place_next(
    bound: &Bound,
    slots: &mut Vec<Option<u32>>,
    text: u32,
    declaration: DeclNo,
    cell: u32,
) -> Result<u32, AllocError>
    ensures { IfOk result (λ n. Places (source_of bound.now) text slots.old.items slots.new.items cell (cell_alone (source_of bound.now) declaration) n) }
{
    if has_cell(entry_of(&bound.scopes, declaration)) {
        let next = deeper(cell)?;
        place(bound, slots, text, declaration, cell);
        return Ok(next);
    }
    Ok(cell)
}

/// The cells of the declarations of a block from one number on; the number behind them.
#[tactic(auto, using(crate::proofs::Placing::placing))]
fn place_all(
    bound: &Bound,
    slots: &mut Vec<Option<u32>>,
    text: u32,
    start: u32,
    list: &[DeclNo],
) -> Result<u32, AllocError>
    ensures { IfOk result (λ n. Places (source_of bound.now) text slots.old.items slots.new.items start (cells_from (source_of bound.now) list.now) n) }
{
    let mut cell = start;
    for item in list {
        cell = place_next(bound, slots, text, *item, cell)?;
    }
    Ok(cell)
}

/// The declarations of a block.
#[tactic(auto, unfolding(sim_scope::specs::Source::source_of))]
fn numbers_of<'a>(bound: &'a Bound, text: u32) -> &'a [DeclNo]
    ensures { result.now ≡ numbers_of_text (source_of bound.now) text }
{
    match bound.scopes.blocks().get(text as usize) {
        Some(block) => block.numbers(),
        None => &[],
    }
}

/// The cells of a text; how many there are.
#[tactic(auto, using(crate::proofs::Placing::placing))]
fn place_text(
    bound: &Bound,
    slots: &mut Vec<Option<u32>>,
    number: u32,
    text: TextTree,
) -> Result<u32, AllocError>
    ensures { IfOk result (λ n. Places (source_of bound.now) number slots.old.items slots.new.items 0 (own_cells (source_of bound.now) number (text_in text.entry)) n) }
{
    match text {
        TextTree::Block(_) => place_all(bound, slots, number, 0, numbers_of(bound, number)),
        TextTree::Procedure { result, .. } => match result {
            Some(_) => place_all(bound, slots, number, 1, numbers_of(bound, number)),
            None => place_all(bound, slots, number, 0, numbers_of(bound, number)),
        },
        TextTree::Class { .. } => place_all(bound, slots, number, 0, numbers_of(bound, number)),
        TextTree::ClassOfStatement { .. } => {
            place_all(bound, slots, number, 0, numbers_of(bound, number))
        }
        TextTree::Prefixed { .. } => place_all(bound, slots, number, 0, numbers_of(bound, number)),
        TextTree::Connection => Ok(0),
        TextTree::Standard(_) => place_all(bound, slots, number, 0, numbers_of(bound, number)),
    }
}

/// A number of a text.
pub(crate) fn number_of(index: usize) -> Result<u32, AllocError>
    ensures { IfOk result (λ n. n ≡ index) }
{
    u32::try_from(index).map_err(|_| AllocError)
}

/// The cells of all texts; how many each has.
#[tactic(auto, using(crate::proofs::Placing::placing))]
pub(crate) fn cell_counts(
    alloc: Global,
    bound: &Bound,
    texts: &[TextTree],
    slots: &mut Vec<Option<u32>>,
) -> Result<Vec<u32>, AllocError>
    ensures { IfOk result (λ v. AllPlaced bound.now texts.now slots.old.items slots.new.items v.items) }
{
    let mut counts = Vec::new(alloc);
    for index in 0..texts.len() {
        let count = place_text(bound, slots, number_of(index)?, texts[index])?;
        counts.push(count)?;
    }
    Ok(counts)
}
