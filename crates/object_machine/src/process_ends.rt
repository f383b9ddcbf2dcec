//! Processes that come to their end.
ghost use Rattle.std.specs.Prelude.{◌≡◌, List};
ghost use Rattle.sim_code.specs.Classes.{is_marked, process_mark};
ghost use Rattle.sim_code.specs.Code.{CodeOf};
ghost use Rattle.sim_code.specs.Levels.{ending_process, frame_if};
ghost use Rattle.sim_code.specs.Machine.{Frames};
ghost use Rattle.sim_code.specs.Simulations.{with_ended};
ghost use Rattle.frame_arena.specs.declared.slot.Slot.{Slot as SlotOf};
ghost use Rattle.frame_arena.specs.Frames.{Holds, Leads};
ghost use Rattle.object_machine.specs.Enrolling.{Rises, stamps};
ghost use Rattle.object_machine.specs.Keeping.{owner_at};
ghost use Rattle.object_machine.specs.Rescheduling.{Ends};
ghost use Rattle.object_machine.specs.Simulating.{simulation_of};
ghost use Rattle.object_machine.specs.Standing.{activation_at};

use crate::levels::{class_of_level, own_levels};
use crate::machine::Registers;
use crate::marks::{PROCESS, is_marked_block};
use crate::members::place_of;
use crate::owners::is_thunk;
use crate::simulated::Simulated;
use frame_arena::frames::Frame;
use sim_code::{BlockRecord, ClassRecord, Stage};

// Whether a class is `process`.
fn is_process(blocks: &[BlockRecord], classes: &[ClassRecord], class: u32) -> bool
    ensures row { (code : CodeOf) → code.blocks ≡ blocks.now → code.classes ≡ classes.now → result ≡ is_marked code process_mark class }
{
    if class == 0 {
        return false;
    }
    let Some(record) = classes.get(class as usize - 1) else {
        return false;
    };
    is_marked_block(blocks, record.block as usize, PROCESS)
}

// Whether the frame at work is a process that comes to its end: it stands in the part behind `inner` of its level of the class `process`.
fn ends_process(
    frames: &[Frame],
    blocks: &[BlockRecord],
    classes: &[ClassRecord],
    regs: &Registers,
) -> bool
    ensures row { (code : CodeOf) (cells : List SlotOf) (m : Frames) (stack : List SlotOf) → code.blocks ≡ blocks.now → code.classes ≡ classes.now → Holds frames.now cells m → Leads frames.now m regs.now.home →
        ending_process code m (activation_at regs.now stack) ≡ frame_if result (owner_at regs.now) }
{
    match regs.stage {
        Stage::Behind(level) => {
            let Some(own) = own_levels(frames, blocks, classes, regs.home) else {
                return false;
            };
            let Some(class) = class_of_level(classes, own, level as usize) else {
                return false;
            };
            is_process(blocks, classes, class)
        }
        _ => false,
    }
}

/// The object at work, where its process comes to its end.
pub fn ending_object(
    frames: &[Frame],
    blocks: &[BlockRecord],
    classes: &[ClassRecord],
    regs: &Registers,
) -> Option<u64>
    ensures row { (code : CodeOf) (cells : List SlotOf) (m : Frames) (stack : List SlotOf) → code.blocks ≡ blocks.now → code.classes ≡ classes.now → Holds frames.now cells m → Leads frames.now m regs.now.home →
        ending_process code m (activation_at regs.now stack) ≡ result }
{
    if is_thunk(regs) {
        return None;
    }
    if ends_process(frames, blocks, classes, regs) {
        return Some(regs.home.stamp);
    }
    None
}

/// The process of an object is terminated, if it is one of the simulation.
pub fn end_process(simulated: &mut Simulated, object: u64)
    ensures row { Rises (stamps simulated.old.processes.items) → simulation_of simulated.new ≡ with_ended object (simulation_of simulated.old) }
    ensures ends { Ends simulated.old simulated.new }
{
    let Some(place) = place_of(&simulated.processes, object) else {
        return;
    };
    if place < simulated.ended.len() {
        simulated.ended[place] = true;
    }
}
