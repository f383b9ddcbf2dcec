//! The parameters of objects and prefixed blocks.
ghost use Rattle.std.specs.Prelude.{◌≡◌, ℕ, ◌+◌, ◌<◌, ◌≤◌, ◌^◌, List, None, Some, length, true, false};
ghost use Rattle.sim_code.specs.Code.{CodeOf};
ghost use Rattle.sim_code.specs.Levels.{filled_by, in_front as in_front_of, parameter_cell as parameter_cell_of};
ghost use Rattle.sim_code.specs.Machine.{Cells, Frames, Value};
ghost use Rattle.sim_code.specs.Outcome.{ArrayOf};
ghost use Rattle.frame_arena.specs.Arrays.{AllLeadArrays, RegionOf};
ghost use Rattle.frame_arena.specs.Frames.{AllLead, Holds, Leads};
ghost use Rattle.frame_arena.specs.Stacks.{values_from};
ghost use Rattle.object_machine.specs.Calling.{Filled, Fills};
ghost use Rattle.object_machine.specs.Parameters.{cells_set_by, front_in};

use crate::cells::held;
use frame_arena::Slot;
use frame_arena::frames::{self, Frame};
use sim_code::{BlockRecord, ClassRecord};
use sim_values::FrameRef;

/// What a class has from the class in front of it.
#[derive(Clone, Copy)]
pub struct Front {
    /// How many cells.
    pub cells: usize,
    /// How many formal parameters.
    pub formals: usize,
}

/// What a class has from its prefix.
#[inline(always)]
fn in_front(blocks: &[BlockRecord], classes: &[ClassRecord], prefix: u32) -> Option<Front>
    ensures row { (code : CodeOf) → code.blocks ≡ blocks.now → code.classes ≡ classes.now → front_in result ≡ in_front_of code prefix }
    ensures short { (f : Front) → result ≡ Some f → f.cells < 2 ^ 63 }
{
    if prefix == 0 {
        return Some(Front {
            cells: 0,
            formals: 0,
        });
    }
    let Some(record) = classes.get(prefix as usize - 1) else {
        return None;
    };
    let Some(block) = blocks.get(record.block as usize) else {
        return None;
    };
    Some(Front {
        cells: block.types.len(),
        formals: block.formals.len(),
    })
}

/// The cell of a formal parameter of a class, by its number among those of all levels.
fn parameter_cell(
    blocks: &[BlockRecord],
    classes: &[ClassRecord],
    class: u32,
    number: usize,
) -> Option<usize>
    requires short { number < 2 ^ 63 }
    ensures row { (code : CodeOf) → code.blocks ≡ blocks.now → code.classes ≡ classes.now → result ≡ parameter_cell_of code class number }
{
    let mut at = class;
    for _ in 0..class {
        if at == 0 {
            return None;
        }
        let Some(record) = classes.get(at as usize - 1) else {
            return None;
        };
        let Some(front) = in_front(blocks, classes, record.prefix) else {
            return None;
        };
        if number >= front.formals {
            return Some(front.cells + (number - front.formals));
        }
        at = record.prefix;
    }
    None
}

/// Whether so many values fill the cells of the parameters of a class, in a frame with so many cells.
pub fn are_supplied(
    blocks: &[BlockRecord],
    classes: &[ClassRecord],
    class: u32,
    count: usize,
    cells: usize,
) -> bool
    requires short { count < 2 ^ 63 }
    ensures yes { result ≡ true → (code : CodeOf) (vs : List Value) (to : Cells) → code.blocks ≡ blocks.now → code.classes ≡ classes.now → length vs ≡ count → length to ≡ cells → Fills (filled_by (parameter_cell_of code class) 0 vs (Some to)) }
    ensures no { result ≡ false → (code : CodeOf) (vs : List Value) (to : Cells) → code.blocks ≡ blocks.now → code.classes ≡ classes.now → length vs ≡ count → length to ≡ cells → filled_by (parameter_cell_of code class) 0 vs (Some to) ≡ None }
{
    for number in 0..count {
        let Some(cell) = parameter_cell(blocks, classes, class, number) else {
            return false;
        };
        if cell >= cells {
            return false;
        }
    }
    true
}

/// Values from a stack fill the cells of the parameters of a class. It answers whether there were as many cells.
pub fn fill_parameters(
    frames: &[Frame],
    cells: &mut [Slot],
    home: FrameRef,
    blocks: &[BlockRecord],
    classes: &[ClassRecord],
    class: u32,
    stack: &[Slot],
    at: usize,
    count: usize,
) -> bool
    requires within { at + count ≤ length stack.now }
    requires short { count < 2 ^ 63 }
    ensures row { result ≡ true → (code : CodeOf) (m : Frames) → code.blocks ≡ blocks.now → code.classes ≡ classes.now → Holds frames.now cells.old m → Leads frames.now m home → AllLead frames.now m stack.now →
        Filled frames.now cells.new m (cells_set_by m home.stamp (parameter_cell_of code class) 0 (values_from stack.now at count)) }
    ensures arrays { (regions : List RegionOf) (arrays : List ArrayOf) → AllLeadArrays regions arrays cells.old → AllLeadArrays regions arrays stack.now → AllLeadArrays regions arrays cells.new }
{
    for number in 0..count {
        let Some(cell) = parameter_cell(blocks, classes, class, number) else {
            return false;
        };
        let slot = held(stack[at + number]);
        if !frames::set_cell(frames, cells, home, cell, slot) {
            return false;
        }
    }
    true
}
