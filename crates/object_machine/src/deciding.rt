//! Who goes on after a scheduling procedure.
ghost use Rattle.std.specs.Prelude.{◌≡◌, ℕ, ◌+◌, ◌<◌, ◌≤◌, ◌∷◌, ◌^◌, List, Option, Some, length};
ghost use Rattle.sim_base.specs.declared.limits.Limits.{Limits as LimitsOf};
ghost use Rattle.notices.specs.declared.next.Next.{Next as NextOf};
ghost use Rattle.sim_code.specs.Machine.{Frames, owner, waiting};
ghost use Rattle.sim_code.specs.Outcome.{Simulation, World};
ghost use Rattle.sim_code.specs.Scheduling.{going_to};
ghost use Rattle.frame_arena.specs.Stacks.{values_of};
ghost use Rattle.object_machine.specs.Deciding.{IsIn, IsDecided, settling};
ghost use Rattle.object_machine.specs.Standing.{AllFit, InWorld, Leaves, Outside, Stands, activation_at, below_of};

use crate::machine::{Activation, Flow, Storage};
use crate::transfers::{resume_instance, resume_main, wait};
use frame_arena::frames;
use notices::{Next, ProcessNo};
use sim_base::RunError;

// Control goes to the process of a number in a simulation block: to its main program, or to an object, which is resumed. It answers want
// of memory where the frame of the block was given back already, to which no run comes.
fn resume_process(
    storage: &mut Storage,
    place: usize,
    process: ProcessNo,
    depth: usize,
    top: &mut Activation,
    below: &mut Vec<Activation>,
) -> Flow
    requires short { top.old.registers.pc + 1 < 2 ^ 64 }
    requires less { depth ≤ length top.old.stack.items }
    requires fits { top.old.registers.depth ≤ length top.old.stack.items }
    requires others { AllFit below.old.items }
    ensures fits { top.new.registers.depth ≤ length top.new.stack.items }
    ensures others { AllFit below.new.items }
    ensures texts { storage.new.texts ≡ storage.old.texts }
    ensures image { storage.new.image ≡ storage.old.image }
    ensures row { (l : LimitsOf) (line : ℕ) (before : Option (List ℕ)) (now : Outside) (o : World) (m : Frames) (x : Simulation) → Stands l storage.old top.old.registers top.old.stack.items below.old.items before now o m → IsIn storage.old.simulations.items place x →
        Leaves result l line storage.new top.new.registers top.new.stack.items below.new.items before now (going_to owner line o (waiting (activation_at top.old.registers top.old.stack.items) (values_of depth top.old.stack.items) ∷ below_of below.old.items) m x (NextOf.Resume process)) }
{
    let Some(simulated) = storage.simulations.get(place) else {
        return Flow::Memory;
    };
    if process.0 == 0 {
        let block = simulated.block;
        let Some(_place) = frames::find(&storage.frames, block) else {
            return Flow::Memory;
        };
        return resume_main(storage, block, depth, top, below);
    }
    let Some(object) = simulated.processes.get(process.0 as usize - 1) else {
        return Flow::NoRule;
    };
    let object = *object;
    resume_instance(storage, object, depth, top, below)
}

/// What a scheduling procedure of a simulation block answered decides who goes on. The top waits with so many values behind its
/// instruction.
pub fn decide(
    storage: &mut Storage,
    place: usize,
    answer: Result<Next, RunError>,
    depth: usize,
    top: &mut Activation,
    below: &mut Vec<Activation>,
) -> Flow
    requires short { top.old.registers.pc + 1 < 2 ^ 64 }
    requires less { depth ≤ length top.old.stack.items }
    requires fits { top.old.registers.depth ≤ length top.old.stack.items }
    requires others { AllFit below.old.items }
    ensures fits { top.new.registers.depth ≤ length top.new.stack.items }
    ensures others { AllFit below.new.items }
    ensures texts { storage.new.texts ≡ storage.old.texts }
    ensures image { storage.new.image ≡ storage.old.image }

    // A procedure that is refused leaves the world as it was.
    ensures row { (l : LimitsOf) (line : ℕ) (before : Option (List ℕ)) (now : Outside) (o w : World) (m : Frames) (x : Simulation) → InWorld storage.old before now o → (IsDecided answer → Stands l storage.old top.old.registers top.old.stack.items below.old.items before now w m) → IsIn storage.old.simulations.items place x →
        Leaves result l line storage.new top.new.registers top.new.stack.items below.new.items before now (settling answer line o w (waiting (activation_at top.old.registers top.old.stack.items) (values_of depth top.old.stack.items) ∷ below_of below.old.items) m x) }
{
    let next = match answer {
        Ok(next) => next,
        Err(error) => return Flow::Fault(error),
    };
    match next {
        Next::Stay => {
            wait(top, depth);
            Flow::On
        }
        Next::Resume(process) => resume_process(storage, place, process, depth, top, below),
    }
}
