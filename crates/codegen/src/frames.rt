//! Where the parts of frames lie, by what is planned of the blocks.
ghost use Rattle.std.specs.Prelude.{◌≡◌, ◌+◌, IfOk};
ghost use Rattle.codegen_expr.specs.Known.{Known};
ghost use Rattle.codegen.specs.EmitProgram.{FrontClass, OwnEnd};

use crate::records::{hide_cells, number};
use codegen_expr::{Cells, Draft, block_number, cell_count, cell_number, prefix_of};
use sim_scope::Bound;
use std::alloc::{AllocError, Global};

/// A number and another one.
fn sum(count: u32, more: u32) -> Result<u32, AllocError>
    ensures { IfOk result (λ n. n ≡ count + more) }
{
    count.checked_add(more).ok_or(AllocError)
}

/// What is left of a number.
pub(crate) fn rest_of(count: u32, part: u32) -> Result<u32, AllocError>
    ensures { IfOk result (λ n. part + n ≡ count) }
{
    if part > count {
        return Err(AllocError);
    }
    Ok(count - part)
}

/// Where the own part of the frames of a text ends, behind all that what is in front of the text has.
#[tactic(auto, using(crate::proofs::Planned::planned))]
pub(crate) fn own_end(
    alloc: Global,
    bound: &Bound,
    cells: &Cells,
    draft: &Draft,
    text: u32,
) -> Result<u32, AllocError>
    requires cells { Known bound.now cells.now }
    ensures { IfOk result (λ n. OwnEnd bound.now draft.now.classes text n) }
{
    let mut hidden = Vec::new(alloc);
    hide_cells(bound, cells, text, &mut hidden)?;
    let count = number(hidden.len())?;
    let own = sum(cell_count(bound, cells, text), count)?;
    let end = cell_number(bound, cells, draft, text, own)?;
    Ok(end)
}

/// The number of the class in front of a text, or 0.
#[tactic(auto, using(crate::proofs::Planned::planned))]
pub(crate) fn front_class(bound: &Bound, cells: &Cells, draft: &Draft, text: u32) -> u32
    requires cells { Known bound.now cells.now }
    ensures { FrontClass bound.now draft.now.classes text result }
{
    match prefix_of(&bound.scopes, text) {
        Some(front) => draft.class_of(block_number(bound, cells, front)),
        None => 0,
    }
}
