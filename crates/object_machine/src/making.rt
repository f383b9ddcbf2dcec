//! What becomes of objects and prefixed blocks that were just entered: linkages, processes and simulation blocks.
ghost use Rattle.std.specs.Prelude.{◌≡◌, List, IfOk};
ghost use Rattle.sim_code.specs.Code.{CodeOf};
ghost use Rattle.sim_code.specs.Levels.{block_begun, object_made};
ghost use Rattle.sim_code.specs.Machine.{Frames};
ghost use Rattle.sim_code.specs.Outcome.{World};
ghost use Rattle.sim_code.specs.Rows.{program_begun};
ghost use Rattle.frame_arena.specs.declared.frames.Frame.{Frame};
ghost use Rattle.frame_arena.specs.Frames.{Leads};
ghost use Rattle.object_machine.specs.Making.{AllRegisteredBelow, Registered, SameButRegisters};

use crate::machine::Storage;
use crate::marks::{Kind, is_process, linkage_of_class, process_class};
use crate::members::enroll;
use crate::simulated::{begin_simulation, join};
use sim_base::Memory;
use sim_code::{BlockKind, BlockRecord, ClassRecord};
use sim_values::FrameRef;
use std::alloc::Global;

/// An object was made in the frame in which its class is declared: it becomes a linkage or a process, if its class is one.
pub fn make_object(
    storage: &mut Storage,
    blocks: &[BlockRecord],
    classes: &[ClassRecord],
    class: u32,
    parent: FrameRef,
    home: FrameRef,
) -> Result<(), Memory>
    ensures same { SameButRegisters storage.old storage.new }
    ensures row { IfOk result (λ u. (code : CodeOf) (frames : List Frame) (m : Frames) (o : World) → code.blocks ≡ blocks.now → code.classes ≡ classes.now → Registered frames m storage.old o → AllRegisteredBelow home.stamp o → Leads frames m home →
        Registered frames m storage.new (object_made code class parent.stamp home.stamp o)) }
{
    let linkage = linkage_of_class(blocks, classes, class);
    enroll(&mut storage.members, linkage, home)?;
    let process = is_process(classes, class);
    join(&mut storage.simulations, process, parent.stamp, home)
}

/// A prefixed block was entered: it becomes a simulation block, if it has `simulation` in front of one of its levels, and its main program a link.
pub fn begin_block(
    alloc: Global,
    storage: &mut Storage,
    blocks: &[BlockRecord],
    classes: &[ClassRecord],
    class: u32,
    home: FrameRef,
) -> Result<(), Memory>
    ensures same { SameButRegisters storage.old storage.new }
    ensures row { IfOk result (λ u. (code : CodeOf) (frames : List Frame) (m : Frames) (o : World) → code.blocks ≡ blocks.now → code.classes ≡ classes.now → Registered frames m storage.old o → AllRegisteredBelow home.stamp o → Leads frames m home →
        Registered frames m storage.new (block_begun code class home.stamp o)) }
{
    let Some(_) = process_class(blocks, classes, class) else {
        return Ok(());
    };
    enroll(&mut storage.members, Some(Kind::Link), home)?;
    begin_simulation(alloc, &mut storage.simulations, home)
}

/// The program's block was entered, which may be a prefixed block.
pub fn begin_program(
    alloc: Global,
    storage: &mut Storage,
    blocks: &[BlockRecord],
    classes: &[ClassRecord],
    block: &BlockRecord,
    home: FrameRef,
) -> Result<(), Memory>
    ensures same { SameButRegisters storage.old storage.new }
    ensures row { IfOk result (λ u. (code : CodeOf) (frames : List Frame) (m : Frames) (o : World) → code.blocks ≡ blocks.now → code.classes ≡ classes.now → home.stamp ≡ 0 → Registered frames m storage.old o → AllRegisteredBelow home.stamp o → Leads frames m home →
        Registered frames m storage.new (program_begun code block.now o)) }
{
    match block.kind {
        BlockKind::Prefixed => begin_block(alloc, storage, blocks, classes, block.class, home),
        _ => Ok(()),
    }
}
