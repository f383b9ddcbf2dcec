//! Processes of simulation blocks: their numbers, what they tell, and how a block sees a reference.
ghost use Rattle.std.specs.Prelude.{◌≡◌, ◌==◌, ℕ, suc, ◌+◌, ◌<◌, ◌≤◌, ◌^◌, ◌∷◌, List, Option, IfOk, Ok, Some, Result, length};
ghost use Rattle.std.specs.List.{position};
ghost use Rattle.std.specs.Option.{ForSome, option_map};
ghost use Rattle.sim_base.specs.declared.limits.Limits.{Limits};
ghost use Rattle.sim_base.specs.declared.run_error.RunError.{RunError as RunErrorOf};
ghost use Rattle.notices.specs.Scheduling.{evtime, nextev};
ghost use Rattle.sim_values.specs.Plain.{Plain};
ghost use Rattle.sim_code.specs.Classes.{in_process};
ghost use Rattle.sim_code.specs.Code.{CodeOf};
ghost use Rattle.sim_code.specs.Events.{computing, having};
ghost use Rattle.sim_code.specs.Instances.{encloser_of};
ghost use Rattle.sim_code.specs.Machine.{Frames, Of, on, plain};
ghost use Rattle.sim_code.specs.Outcome.{Simulation, World};
ghost use Rattle.sim_code.specs.Scheduling.{performing_process};
ghost use Rattle.sim_code.specs.Simulations.{integer_or_error, is_ended as is_ended_of, is_process_name as is_process_name_of, number_in as number_in_block, process_after, process_numbered as process_numbered_in, process_tells, seen as seen_by};
ghost use Rattle.frame_arena.specs.declared.frames.Frame.{Frame as FrameOf};
ghost use Rattle.frame_arena.specs.declared.slot.Slot.{Slot as SlotOf};
ghost use Rattle.frame_arena.specs.Frames.{Holds, SlotLeads};
ghost use Rattle.frame_arena.specs.Slots.{value_of};
ghost use Rattle.frame_arena.specs.Stacks.{values_of};
ghost use Rattle.object_machine.specs.Classing.{Refers};
ghost use Rattle.object_machine.specs.Enrolling.{Rises, stamps};
ghost use Rattle.object_machine.specs.SetRows.{IsQuiet};
ghost use Rattle.object_machine.specs.Simulating.{IsSimulated, Simulating, simulation_of};
ghost use Rattle.object_machine.specs.Standing.{Leaves, Obeys, Outside, Stands, activation_at, below_of};
ghost use Rattle.object_machine.specs.Telling.{FindsBlock, IsNumber, IsOneOf, IsWithin, NamesProcess, Sees, Tells, block_of as block_of_process, bound, told_missing, told_of};

use crate::classes::{Reference, process_at, reference_in, test};
use crate::machine::{Activation, Flow, Registers, Storage};
use crate::members::place_of;
use crate::sets::put;
use crate::simulated::{Simulated, located};
use frame_arena::frames::{self, Frame};
use frame_arena::{NOTHING, Slot, stack};
use notices::{ProcessNo, ProcessRef};
use sim_base::RunError;
use sim_code::{BlockRecord, ClassRecord};
use sim_values::{FrameRef, Standard};
use standard_calls::Missing;

/// Whether a standard name is that of a process.
pub fn is_process_name(name: Standard) -> bool
    ensures { result ≡ is_process_name_of name }
{
    match name {
        Standard::Idle => true,
        Standard::Terminated => true,
        Standard::Evtime => true,
        Standard::Nextev => true,
        _ => false,
    }
}

/// The number of what may be a process of a simulation block.
#[derive(Clone, Copy)]
pub enum Number {
    /// That of a process.
    Process(ProcessNo),
    /// It is no process of the block.
    Other,
    /// Want of memory.
    Memory,
}

// The number of an object among those of the processes. It answers want of memory for a number of 2^32 or more.
fn number_of(processes: &[FrameRef], stamp: u64) -> Number
    ensures within { IsWithin result (length processes.now) }
    ensures row { Rises (stamps processes.now) → IsNumber result (option_map (λ n. suc n) (position (λ k. k == stamp) (stamps processes.now))) }
{
    let Some(place) = place_of(processes, stamp) else {
        return Number::Other;
    };
    let Ok(number) = u32::try_from(place + 1) else {
        return Number::Memory;
    };
    Number::Process(ProcessNo(number))
}

// The number of what a reference names in a simulation block.
fn number_in(simulated: &Simulated, reference: Reference) -> Number
    ensures within { IsWithin result (length simulated.now.processes.items) }
    ensures row { (p : Plain) → Refers reference (Some p) → Rises (stamps simulated.now.processes.items) → IsNumber result (number_in_block (simulation_of simulated.now) p) }
{
    match reference {
        Reference::Object(object) => number_of(&simulated.processes, object.stamp),
        Reference::Main(block) => {
            if block.stamp == simulated.block.stamp {
                return Number::Process(ProcessNo(0));
            }
            Number::Other
        }
        Reference::IsNone => Number::Other,
        Reference::Other => Number::Other,
    }
}

// Whether the process of a number is terminated.
fn is_ended(simulated: &Simulated, number: ProcessNo) -> bool
    ensures { result ≡ is_ended_of (simulation_of simulated.now) number.0 }
{
    if number.0 == 0 {
        return false;
    }
    match simulated.ended.get(number.0 as usize - 1) {
        Some(ended) => *ended,
        None => false,
    }
}

/// What a process or a simulation block tells.
#[derive(Clone, Copy)]
pub enum Told {
    /// A value.
    Value(Slot),
    /// A run-time error.
    Fault(RunError),
    /// There is no rule.
    NoRule,
    /// Want of memory.
    Memory,
}

/// The object of the process of a number, or the block where it is the main program.
pub fn process_numbered(simulated: &Simulated, number: ProcessNo) -> Option<FrameRef>
    ensures row { NamesProcess result number.0 (process_numbered_in (simulation_of simulated.now) number.0) }
{
    if number.0 == 0 {
        return Some(simulated.block);
    }
    let Some(object) = simulated.processes.get(number.0 as usize - 1) else {
        return None;
    };
    Some(*object)
}

/// The process of a number, as a value. It answers want of memory for a frame of a number of 2^63 or more.
pub fn tell_process(simulated: &Simulated, number: ProcessNo) -> Told
    ensures row { (frames : List FrameOf) (m : Frames) → IsSimulated frames m simulated.now → Tells result frames m (option_map Ok (process_numbered_in (simulation_of simulated.now) number.0)) }
{
    if number.0 == 0 {
        if simulated.block.stamp >= 1 << 63 {
            return Told::Memory;
        }
        return Told::Value(Slot::main_program(simulated.block));
    }
    let Some(object) = simulated.processes.get(number.0 as usize - 1) else {
        return Told::NoRule;
    };
    if object.stamp >= 1 << 63 {
        return Told::Memory;
    }
    Told::Value(Slot::object(*object))
}

// The time of the event of a process.
fn tell_event_time(simulated: &Simulated, number: ProcessNo) -> Told
    ensures row { (frames : List FrameOf) (m : Frames) → Tells result frames m (Some (integer_or_error (evtime number.0 simulated.now.sim.notices))) }
{
    match simulated.sim.evtime(number) {
        Ok(time) => Told::Value(Slot::integer(time)),
        Err(error) => Told::Fault(error),
    }
}

// The process of the event behind that of a process.
fn tell_next(simulated: &Simulated, number: ProcessNo) -> Told
    ensures row { (frames : List FrameOf) (m : Frames) → IsSimulated frames m simulated.now → Tells result frames m (process_after (simulation_of simulated.now) (nextev number.0 simulated.now.sim.notices)) }
{
    match simulated.sim.nextev(number) {
        Some(next) => tell_process(simulated, next),
        None => Told::Value(NOTHING),
    }
}

// What a process tells by a name.
fn tell(simulated: &Simulated, number: ProcessNo, name: Standard) -> Told
    ensures row { (frames : List FrameOf) (m : Frames) → IsSimulated frames m simulated.now → Tells result frames m (process_tells name (simulation_of simulated.now) number.0) }
{
    match name {
        Standard::Idle => Told::Value(Slot::truth(simulated.sim.idle(number))),
        Standard::Terminated => Told::Value(Slot::truth(is_ended(simulated, number))),
        Standard::Evtime => tell_event_time(simulated, number),
        Standard::Nextev => tell_next(simulated, number),
        _ => Told::NoRule,
    }
}

// The simulation block of a process: that of an object is its encloser. It answers want of memory where the frame of the object was given
// back already, to which no run comes.
fn block_around(frames: &[Frame], reference: Reference) -> Result<u64, Missing>
    ensures row { (cells : List SlotOf) (m : Frames) (slot : SlotOf) → Holds frames.now cells m → Refers reference (plain (value_of slot)) → FindsBlock result (block_of_process (encloser_of m) (value_of slot)) }
{
    match reference {
        Reference::Object(object) => {
            let Some(place) = frames::find(frames, object) else {
                return Err(Missing::Memory);
            };
            let Some(encloser) = frames[place].parent else {
                return Err(Missing::NoRule);
            };
            Ok(encloser.stamp)
        }
        Reference::Main(block) => Ok(block.stamp),
        Reference::IsNone => Err(Missing::NoRule),
        Reference::Other => Err(Missing::NoRule),
    }
}

// What is told where something is missing.
fn told_by(missing: Missing) -> Told
    ensures { result ≡ told_missing missing }
{
    match missing {
        Missing::NoRule => Told::NoRule,
        Missing::Memory => Told::Memory,
    }
}

// What the process that a value names tells by a name.
fn tell_named(frames: &[Frame], simulations: &[Simulated], slot: Slot, name: Standard) -> Told
    ensures row { (cells : List SlotOf) (m : Frames) (sims : List Simulation) → Holds frames.now cells m → Simulating frames.now m simulations.now sims → SlotLeads frames.now m slot → Tells result frames.now m (told_of (encloser_of m) name sims (value_of slot)) }
{
    let reference = reference_in(slot);
    let block = match block_around(frames, reference) {
        Ok(block) => block,
        Err(missing) => return told_by(missing),
    };
    let Some(place) = located(simulations, block) else {
        return Told::NoRule;
    };
    let simulated = &simulations[place];
    match number_in(simulated, reference) {
        Number::Process(number) => tell(simulated, number, name),
        Number::Other => Told::NoRule,
        Number::Memory => Told::Memory,
    }
}

/// What is told goes behind so many values, and the row goes on.
pub fn settle_told(stack: &mut [Slot], regs: &mut Registers, at: usize, told: Told) -> Flow
    requires there { at ≤ length stack.old }
    requires fits { regs.old.depth ≤ length stack.old }
    requires short { regs.old.pc + 1 < 2 ^ 64 }
    ensures fits { regs.new.depth ≤ length stack.new }
    ensures quiet { IsQuiet result }
    ensures row { (l : Limits) (line : ℕ) (p : Storage) (below : List Activation) (before : Option (List ℕ)) (now : Outside) (o : World) (m : Frames) (q : Option (Result Plain RunErrorOf)) →
        Stands l p regs.old stack.old below before now o m → Tells told p.frames.items m q →
        Leaves result l line p regs.new stack.new below before now (having q o (λ r. computing line r o (λ v. on o m (activation_at regs.old stack.old) (Of v ∷ values_of at stack.old) (below_of below)))) }
{
    match told {
        Told::Value(slot) => {
            let Some(depth) = put(stack, at, Some(slot)) else {
                return Flow::Memory;
            };
            regs.depth = depth;
            regs.pc += 1;
            Flow::On
        }
        Told::Fault(error) => Flow::Fault(error),
        Told::NoRule => Flow::NoRule,
        Told::Memory => Flow::Memory,
    }
}

/// Does what a name of a process does.
#[inline(never)]
pub fn process_standard(
    storage: &Storage,
    stack: &mut [Slot],
    regs: &mut Registers,
    name: Standard,
) -> Flow
    requires fits { regs.old.depth ≤ length stack.old }
    requires short { regs.old.pc + 1 < 2 ^ 64 }
    ensures fits { regs.new.depth ≤ length stack.new }
    ensures quiet { IsQuiet result }
    ensures row { (l : Limits) (line : ℕ) (below : List Activation) (now : Outside) →
        Obeys result l line (λ o m a b. performing_process plain (encloser_of m) name line a.stack o (λ value st. on o m a (Of value ∷ st) b)) storage.now storage.now regs.old regs.new stack.old stack.new below below now now }
{
    let Some(at) = stack::pop(stack, regs.depth) else {
        return Flow::NoRule;
    };
    let told = tell_named(&storage.frames, &storage.simulations, stack[at], name);
    settle_told(stack, regs, at, told)
}

/// How a simulation block sees what a value names.
pub fn seen(
    frames: &[Frame],
    blocks: &[BlockRecord],
    classes: &[ClassRecord],
    simulated: &Simulated,
    slot: Slot,
) -> Result<Option<ProcessRef>, Missing>
    ensures within { IfOk result (λ p. ForSome p (IsOneOf (length simulated.now.processes.items))) }
    ensures row { (code : CodeOf) (cells : List SlotOf) (m : Frames) → code.blocks ≡ blocks.now → code.classes ≡ classes.now → Holds frames.now cells m → IsSimulated frames.now m simulated.now → SlotLeads frames.now m slot →
        Sees result (bound (plain (value_of slot)) (λ p. seen_by (in_process code m simulated.now.block.stamp) (simulation_of simulated.now) p)) }
{
    let reference = reference_in(slot);
    match reference {
        Reference::IsNone => return Ok(None),
        Reference::Other => return Err(Missing::NoRule),
        _ => {}
    }
    let Some(class) = process_at(frames, blocks, classes, simulated.block) else {
        return Err(Missing::NoRule);
    };
    let Some(is_process) = test(frames, blocks, classes, false, class as usize, slot) else {
        return Err(Missing::NoRule);
    };
    if !is_process {
        return Ok(Some(ProcessRef::NoProcess));
    }
    match number_in(simulated, reference) {
        Number::Process(process) => Ok(Some(ProcessRef::OfThis {
            process,
            terminated: is_ended(simulated, process),
        })),
        Number::Other => Ok(Some(ProcessRef::OfAnother)),
        Number::Memory => Err(Missing::Memory),
    }
}
