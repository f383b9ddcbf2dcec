//! The procedures of simulation blocks.
ghost use Rattle.std.specs.Prelude.{◌≡◌, ◌<◌, ◌≤◌, ◌+◌, ◌^◌, ◌≢◌, ℕ, [], List, IfSome, Ok, Option, Some, length, map, slice_get, true, false};
ghost use Rattle.std.specs.Option.{option_map};
ghost use Rattle.sim_base.specs.declared.limits.Limits.{Limits as LimitsOf};
ghost use Rattle.notices.specs.Scheduling.{cancelled, held, passivated};
ghost use Rattle.simset.specs.Instances.{Memberships};
ghost use Rattle.sim_code.specs.Code.{CodeOf};
ghost use Rattle.sim_code.specs.Machine.{Frames, link_in as link_in_of};
ghost use Rattle.sim_code.specs.Outcome.{World};
ghost use Rattle.sim_code.specs.Sets.{linkage_named};
ghost use Rattle.sim_code.specs.Simulations.{current_process, is_simulation_name as is_simulation_name_of, simulation_tells, with_end};
ghost use Rattle.frame_arena.specs.declared.frames.Frame.{Frame as FrameOf};
ghost use Rattle.frame_arena.specs.Slots.{integer_of, value_of};
ghost use Rattle.object_machine.specs.Enrolling.{Rises, stamps};
ghost use Rattle.object_machine.specs.Rescheduling.{Ends, FindsLinkage, Passivates, Rescheduled, Reschedules, TakesBlock, simulation_row, telling_row};
ghost use Rattle.object_machine.specs.declared.simulated.Simulated.{Simulated as SimulatedOf};
ghost use Rattle.object_machine.specs.Simulating.{IsSimulated, blocks_of, simulation_of};
ghost use Rattle.object_machine.specs.Standing.{AllFit, Obeys, Outside};
ghost use Rattle.object_machine.specs.Telling.{Tells, bound};

use crate::deciding::decide;
use crate::machine::{Activation, Flow, Registers, Storage};
use crate::process_ends::{end_process, ending_object};
use crate::processes::{Told, process_numbered, seen, settle_told, tell_process};
use crate::sets::{Came, Named, flow_of, linkage_of, put_last, take_parameter};
use crate::simulated::{Simulated, located};
use frame_arena::{Slot, SlotKind, stack};
use notices::{Next, NoticeSet, ProcessNo, ProcessRef};
use sim_base::RunError;
use sim_code::{BlockRecord, ClassRecord};
use sim_values::{FrameRef, Standard};
use simset::LinkageNo;
use standard_calls::Missing;

/// Whether a standard name is that of a simulation block.
pub fn is_simulation_name(name: Standard) -> bool
    ensures { result ≡ is_simulation_name_of name }
{
    match name {
        Standard::Time => true,
        Standard::Current => true,
        Standard::Main => true,
        Standard::Hold => true,
        Standard::Passivate => true,
        Standard::Wait => true,
        Standard::Cancel => true,
        _ => false,
    }
}

// The number of the frame that a link names.
fn link_in(slot: Slot) -> Option<u64>
    ensures { result ≡ link_in_of (value_of slot) }
{
    match slot.kind {
        SlotKind::Link => Some(if slot.data < 0 { 0 } else { slot.data as u64 }),
        _ => None,
    }
}

/// The integer in a slot.
pub fn integer_in(slot: Slot) -> Option<i64>
    ensures { result ≡ integer_of (value_of slot) }
{
    match slot.kind {
        SlotKind::Integer => Some(slot.data),
        _ => None,
    }
}

/// The simulation to whose block a link leads.
#[derive(Clone, Copy)]
pub struct Addressed {
    /// Its place among all.
    pub place: usize,
    /// How many values are below the link.
    pub under: usize,
}

/// The simulation to whose block the link on top leads.
pub fn take_block(simulations: &[Simulated], stack: &[Slot], depth: usize) -> Option<Addressed>
    requires fits { depth ≤ length stack.now }
    ensures within { IfSome result (λ q. q.place < length simulations.now) }
    ensures under { IfSome result (λ q. q.under ≤ length stack.now) }
    ensures row { (o : World) → Rises (stamps (blocks_of simulations.now)) → o.simulations ≡ map simulation_of simulations.now → TakesBlock result simulations.now o depth stack.now }
{
    let Some(under) = stack::pop(stack, depth) else {
        return None;
    };
    let Some(block) = link_in(stack[under]) else {
        return None;
    };
    let Some(place) = located(simulations, block) else {
        return None;
    };
    Some(Addressed { place, under })
}

/// Whether a simulation has a notice.
pub fn has_notice(simulated: &Simulated) -> bool
    ensures { result ≡ true → simulated.now.sim.notices ≢ [] }
{
    simulated.sim.notices().first().is_some()
}

// What a simulation block tells by a name. It answers want of memory where it has no notice, to which no run comes.
fn tell_block(simulated: &Simulated, name: Standard) -> Told
    ensures row { (frames : List FrameOf) (m : Frames) → IsSimulated frames m simulated.now → Tells result frames m (option_map Ok (simulation_tells name (simulation_of simulated.now))) }
{
    if !has_notice(simulated) {
        return Told::Memory;
    }
    match name {
        Standard::Time => Told::Value(Slot::integer(simulated.sim.time())),
        Standard::Current => tell_process(simulated, simulated.sim.current()),
        Standard::Main => tell_process(simulated, ProcessNo(0)),
        _ => Told::NoRule,
    }
}

// `hold` in a simulation. Nothing is answered where it has no notice, to which no run comes, and so below.
fn hold_in(simulated: &mut Simulated, time: i64) -> Option<Result<Next, RunError>>
    ensures row { IfSome result (λ a. Reschedules simulated.old simulated.new (held time simulated.old.sim.notices) a) }
{
    if !has_notice(simulated) {
        return None;
    }
    Some(simulated.sim.hold(time))
}

// The same in the simulation at a place.
fn hold_at(storage: &mut Storage, place: usize, time: i64) -> Option<Result<Next, RunError>>
    requires { place < length storage.old.simulations.items }
    ensures texts { storage.new.texts ≡ storage.old.texts }
    ensures image { storage.new.image ≡ storage.old.image }
    ensures row { IfSome result (λ a. (y : SimulatedOf) → slice_get storage.old.simulations.items place ≡ Some y → Rescheduled storage.old storage.new place y y (held time y.sim.notices) a) }
{
    hold_in(&mut storage.simulations[place], time)
}

// `passivate` in a simulation.
fn passivate_in(simulated: &mut Simulated) -> Option<Result<Next, RunError>>
    ensures row { IfSome result (λ a. Reschedules simulated.old simulated.new (Ok (passivated simulated.old.sim.notices)) a) }
{
    if !has_notice(simulated) {
        return None;
    }
    Some(simulated.sim.passivate())
}

// The process of an object is terminated, if it comes to its end.
fn end_first(simulated: &mut Simulated, ending: Option<u64>)
    ensures row { Rises (stamps simulated.old.processes.items) → simulation_of simulated.new ≡ with_end ending (simulation_of simulated.old) }
    ensures ends { Ends simulated.old simulated.new }
{
    match ending {
        Some(object) => end_process(simulated, object),
        None => {}
    }
}

// `passivate` in the simulation at a place, before which the process of an object is terminated, if it comes to its end.
fn passivate_at(
    storage: &mut Storage,
    place: usize,
    ending: Option<u64>,
) -> Option<Result<Next, RunError>>
    requires { place < length storage.old.simulations.items }
    ensures texts { storage.new.texts ≡ storage.old.texts }
    ensures image { storage.new.image ≡ storage.old.image }
    ensures row { IfSome result (λ a. (y : SimulatedOf) → slice_get storage.old.simulations.items place ≡ Some y → Rises (stamps y.processes.items) → Passivates storage.old storage.new place y ending a) }
{
    let simulated = &mut storage.simulations[place];
    end_first(simulated, ending);
    passivate_in(simulated)
}

// `cancel` in a simulation.
fn cancel_in(
    simulated: &mut Simulated,
    process: Option<ProcessRef>,
) -> Option<Result<Next, RunError>>
    ensures row { IfSome result (λ a. Reschedules simulated.old simulated.new (cancelled process simulated.old.sim.notices) a) }
{
    if !has_notice(simulated) {
        return None;
    }
    Some(simulated.sim.cancel(process))
}

// The same in the simulation at a place.
fn cancel_at(
    storage: &mut Storage,
    place: usize,
    process: Option<ProcessRef>,
) -> Option<Result<Next, RunError>>
    requires { place < length storage.old.simulations.items }
    ensures texts { storage.new.texts ≡ storage.old.texts }
    ensures image { storage.new.image ≡ storage.old.image }
    ensures row { IfSome result (λ a. (y : SimulatedOf) → slice_get storage.old.simulations.items place ≡ Some y → Rescheduled storage.old storage.new place y y (cancelled process y.sim.notices) a) }
{
    cancel_in(&mut storage.simulations[place], process)
}

// `hold`.
fn hold(storage: &mut Storage, top: &mut Activation, below: &mut Vec<Activation>) -> Flow
    requires short { top.old.registers.pc + 1 < 2 ^ 64 }
    requires fits { top.old.registers.depth ≤ length top.old.stack.items }
    requires others { AllFit below.old.items }
    ensures fits { top.new.registers.depth ≤ length top.new.stack.items }
    ensures others { AllFit below.new.items }
    ensures texts { storage.new.texts ≡ storage.old.texts }
    ensures image { storage.new.image ≡ storage.old.image }
    ensures row { (code : CodeOf) (l : LimitsOf) (line : ℕ) (now : Outside) →
        Obeys result l line (simulation_row code line Standard.Hold) storage.old storage.new top.old.registers top.new.registers top.old.stack.items top.new.stack.items below.old.items below.new.items now now }
{
    let Some(at) = stack::pop(&top.stack, top.registers.depth) else {
        return Flow::NoRule;
    };
    let Some(time) = integer_in(top.stack[at]) else {
        return Flow::NoRule;
    };
    let Some(block) = take_block(&storage.simulations, &top.stack, at) else {
        return Flow::NoRule;
    };
    let Some(answer) = hold_at(storage, block.place, time) else {
        return Flow::Memory;
    };
    decide(storage, block.place, answer, block.under, top, below)
}

// `passivate`. The process that comes to its end, if the frame at work is one, is terminated before.
fn passivate(
    blocks: &[BlockRecord],
    classes: &[ClassRecord],
    storage: &mut Storage,
    top: &mut Activation,
    below: &mut Vec<Activation>,
) -> Flow
    requires short { top.old.registers.pc + 1 < 2 ^ 64 }
    requires fits { top.old.registers.depth ≤ length top.old.stack.items }
    requires others { AllFit below.old.items }
    ensures fits { top.new.registers.depth ≤ length top.new.stack.items }
    ensures others { AllFit below.new.items }
    ensures texts { storage.new.texts ≡ storage.old.texts }
    ensures image { storage.new.image ≡ storage.old.image }
    ensures row { (code : CodeOf) (l : LimitsOf) (line : ℕ) (now : Outside) → code.blocks ≡ blocks.now → code.classes ≡ classes.now →
        Obeys result l line (simulation_row code line Standard.Passivate) storage.old storage.new top.old.registers top.new.registers top.old.stack.items top.new.stack.items below.old.items below.new.items now now }
{
    let Some(block) = take_block(&storage.simulations, &top.stack, top.registers.depth) else {
        return Flow::NoRule;
    };
    let ending = ending_object(&storage.frames, blocks, classes, &top.registers);
    let Some(answer) = passivate_at(storage, block.place, ending) else {
        return Flow::Memory;
    };
    decide(storage, block.place, answer, block.under, top, below)
}

// `cancel`.
fn cancel(
    blocks: &[BlockRecord],
    classes: &[ClassRecord],
    storage: &mut Storage,
    top: &mut Activation,
    below: &mut Vec<Activation>,
) -> Flow
    requires short { top.old.registers.pc + 1 < 2 ^ 64 }
    requires fits { top.old.registers.depth ≤ length top.old.stack.items }
    requires others { AllFit below.old.items }
    ensures fits { top.new.registers.depth ≤ length top.new.stack.items }
    ensures others { AllFit below.new.items }
    ensures texts { storage.new.texts ≡ storage.old.texts }
    ensures image { storage.new.image ≡ storage.old.image }
    ensures row { (code : CodeOf) (l : LimitsOf) (line : ℕ) (now : Outside) → code.blocks ≡ blocks.now → code.classes ≡ classes.now →
        Obeys result l line (simulation_row code line Standard.Cancel) storage.old storage.new top.old.registers top.new.registers top.old.stack.items top.new.stack.items below.old.items below.new.items now now }
{
    let Some(at) = stack::pop(&top.stack, top.registers.depth) else {
        return Flow::NoRule;
    };
    let Some(block) = take_block(&storage.simulations, &top.stack, at) else {
        return Flow::NoRule;
    };
    let process = match seen(
        &storage.frames,
        blocks,
        classes,
        &storage.simulations[block.place],
        top.stack[at],
    ) {
        Ok(process) => process,
        Err(missing) => return flow_of(missing),
    };
    let Some(answer) = cancel_at(storage, block.place, process) else {
        return Flow::Memory;
    };
    decide(storage, block.place, answer, block.under, top, below)
}

// The linkage of the current process. It answers want of memory where there is no notice, to which no run comes.
fn current_linkage(objects: &[FrameRef], simulated: &Simulated) -> Result<LinkageNo, Missing>
    ensures row { (o : Memberships) → Rises (stamps objects.now) → o.instances ≡ stamps objects.now → FindsLinkage result (bound (current_process (simulation_of simulated.now)) (λ p. linkage_named o p)) }
{
    if !has_notice(simulated) {
        return Err(Missing::Memory);
    }
    let current = simulated.sim.current();
    let process = match process_numbered(simulated, current) {
        Some(process) => process,
        None => return Err(Missing::NoRule),
    };
    match linkage_of(objects, process) {
        Named::Linkage(linkage) => Ok(linkage),
        Named::IsNone => Err(Missing::NoRule),
        Named::Other => Err(Missing::NoRule),
        Named::Memory => Err(Missing::Memory),
    }
}

// `wait`: the current process goes into the set of a head, and then `passivate`.
fn wait(storage: &mut Storage, top: &mut Activation, below: &mut Vec<Activation>) -> Flow
    requires short { top.old.registers.pc + 1 < 2 ^ 64 }
    requires fits { top.old.registers.depth ≤ length top.old.stack.items }
    requires others { AllFit below.old.items }
    ensures fits { top.new.registers.depth ≤ length top.new.stack.items }
    ensures others { AllFit below.new.items }
    ensures texts { storage.new.texts ≡ storage.old.texts }
    ensures image { storage.new.image ≡ storage.old.image }
    ensures row { (code : CodeOf) (l : LimitsOf) (line : ℕ) (now : Outside) →
        Obeys result l line (simulation_row code line Standard.Wait) storage.old storage.new top.old.registers top.new.registers top.old.stack.items top.new.stack.items below.old.items below.new.items now now }
{
    let objects = &storage.members.objects;
    let parameter = match take_parameter(objects, &top.stack, top.registers.depth, true) {
        Ok(parameter) => parameter,
        Err(missing) => return flow_of(missing),
    };
    let Some(block) = take_block(&storage.simulations, &top.stack, parameter.under) else {
        return Flow::NoRule;
    };
    let link = match current_linkage(objects, &storage.simulations[block.place]) {
        Ok(link) => link,
        Err(missing) => return flow_of(missing),
    };
    match put_last(&mut storage.members.rings, link, parameter.linkage) {
        Came::Changed => {}
        Came::NoRule => return Flow::NoRule,
        _ => return Flow::Memory,
    }
    let Some(answer) = passivate_at(storage, block.place, None) else {
        return Flow::Memory;
    };
    decide(storage, block.place, answer, block.under, top, below)
}

// A name by which a simulation block tells something.
fn tell_named(storage: &Storage, stack: &mut [Slot], regs: &mut Registers, name: Standard) -> Flow
    requires fits { regs.old.depth ≤ length stack.old }
    requires short { regs.old.pc + 1 < 2 ^ 64 }
    ensures fits { regs.new.depth ≤ length stack.new }
    ensures row { (l : LimitsOf) (line : ℕ) (below : List Activation) (now : Outside) →
        Obeys result l line (telling_row name) storage.now storage.now regs.old regs.new stack.old stack.new below below now now }
{
    let Some(block) = take_block(&storage.simulations, stack, regs.depth) else {
        return Flow::NoRule;
    };
    let told = tell_block(&storage.simulations[block.place], name);
    settle_told(stack, regs, block.under, told)
}

// The same at the frame at work.
fn tell_standard(storage: &Storage, top: &mut Activation, name: Standard) -> Flow
    requires fits { top.old.registers.depth ≤ length top.old.stack.items }
    requires short { top.old.registers.pc + 1 < 2 ^ 64 }
    ensures fits { top.new.registers.depth ≤ length top.new.stack.items }
    ensures row { (l : LimitsOf) (line : ℕ) (below : List Activation) (now : Outside) →
        Obeys result l line (telling_row name) storage.now storage.now top.old.registers top.new.registers top.old.stack.items top.new.stack.items below below now now }
{
    tell_named(storage, &mut top.stack, &mut top.registers, name)
}

/// Does a procedure of a simulation block; at any other name the machine stops as for want of memory.
pub fn schedule(
    blocks: &[BlockRecord],
    classes: &[ClassRecord],
    storage: &mut Storage,
    top: &mut Activation,
    below: &mut Vec<Activation>,
    name: Standard,
) -> Flow
    requires short { top.old.registers.pc + 1 < 2 ^ 64 }
    requires fits { top.old.registers.depth ≤ length top.old.stack.items }
    requires others { AllFit below.old.items }
    ensures fits { top.new.registers.depth ≤ length top.new.stack.items }
    ensures others { AllFit below.new.items }
    ensures texts { storage.new.texts ≡ storage.old.texts }
    ensures image { storage.new.image ≡ storage.old.image }
    ensures row { (code : CodeOf) (l : LimitsOf) (line : ℕ) (now : Outside) → code.blocks ≡ blocks.now → code.classes ≡ classes.now →
        Obeys result l line (simulation_row code line name) storage.old storage.new top.old.registers top.new.registers top.old.stack.items top.new.stack.items below.old.items below.new.items now now }
{
    match name {
        Standard::Time => tell_standard(storage, top, name),
        Standard::Current => tell_standard(storage, top, name),
        Standard::Main => tell_standard(storage, top, name),
        Standard::Hold => hold(storage, top, below),
        Standard::Passivate => passivate(blocks, classes, storage, top, below),
        Standard::Wait => wait(storage, top, below),
        Standard::Cancel => cancel(blocks, classes, storage, top, below),
        _ => Flow::Memory,
    }
}
