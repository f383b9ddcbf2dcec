//! Cells of texts around, by their text and their place in the own part of its frames.
ghost use Rattle.std.specs.Prelude.{OnOk};
ghost use Rattle.codegen_expr.specs.Known.{Known};
ghost use Rattle.codegen.specs.EmitLeft.{LoadsCell, StoresCell};

use codegen_expr::{Cells, Draft, cell_number, level_of, load_instr, store_instr};
use sim_base::Line;
use sim_scope::Bound;
use std::alloc::AllocError;

/// The value on top goes into a cell.
#[tactic(auto, using(crate::proofs::Cells::places))]
pub(crate) fn put_store(
    bound: &Bound,
    cells: &Cells,
    draft: &mut Draft,
    text: u32,
    place: u32,
) -> Result<(), AllocError>
    requires cells { Known bound.now cells.now }
    ensures { OnOk result (StoresCell bound.now draft.old draft.new text place) }
{
    let slot = cell_number(bound, cells, draft, text, place)?;
    draft.put(store_instr(level_of(bound, text), slot), Line(0))
}

/// The value of a cell, on so many others.
#[tactic(auto, using(crate::proofs::Cells::places))]
pub(crate) fn put_load(
    bound: &Bound,
    cells: &Cells,
    draft: &mut Draft,
    depth: u32,
    text: u32,
    place: u32,
) -> Result<(), AllocError>
    requires cells { Known bound.now cells.now }
    ensures { OnOk result (LoadsCell bound.now depth draft.old draft.new text place) }
{
    let slot = cell_number(bound, cells, draft, text, place)?;
    draft.push(depth, load_instr(level_of(bound, text), slot), Line(0))
}
