//! The row of activations.
ghost use Rattle.std.specs.Prelude.{◌≡◌, ◌+◌, ◌<◌, ◌≤◌, ◌^◌, ℕ, List, IfOk, IfSome, Some, length, slice_get};
ghost use Rattle.std.specs.Option.{ForSome, option_map};
ghost use Rattle.sim_base.specs.declared.limits.Limits.{Limits as LimitsOf};
ghost use Rattle.notices.specs.Scheduling.{activated};
ghost use Rattle.sim_code.specs.Classes.{in_process};
ghost use Rattle.sim_code.specs.Code.{CodeOf};
ghost use Rattle.sim_code.specs.Machine.{Frames};
ghost use Rattle.sim_code.specs.Outcome.{World};
ghost use Rattle.sim_code.specs.Rows.{activation_of};
ghost use Rattle.sim_code.specs.Scheduling.{placement, timing_of as timing_by};
ghost use Rattle.sim_code.specs.Simulations.{seen as seen_by};
ghost use Rattle.frame_arena.specs.declared.frames.Frame.{Frame as FrameOf};
ghost use Rattle.frame_arena.specs.declared.slot.Slot.{Slot as SlotOf};
ghost use Rattle.frame_arena.specs.Frames.{AllLead, Holds, SlotLeads};
ghost use Rattle.frame_arena.specs.Slots.{value_of};
ghost use Rattle.object_machine.specs.declared.simulated.Simulated.{Simulated as SimulatedOf};
ghost use Rattle.object_machine.specs.Activating.{IsWithinBlock, Places, TakesActivation, TakesOperand, activation_row, form_as, operand_in, timing_as};
ghost use Rattle.object_machine.specs.Rescheduling.{Rescheduled, Reschedules};
ghost use Rattle.object_machine.specs.Simulating.{IsSimulated, Simulating, simulation_of};
ghost use Rattle.object_machine.specs.Standing.{AllFit, Obeys, Outside};
ghost use Rattle.object_machine.specs.Telling.{IsOneOf, bound};

use crate::constants::index;
use crate::deciding::decide;
use crate::machine::{Activation, Flow, Storage};
use crate::processes::seen;
use crate::scheduling::{has_notice, integer_in, take_block};
use crate::sets::flow_of;
use crate::simulated::Simulated;
use frame_arena::frames::Frame;
use frame_arena::{NOTHING, Slot, stack};
use notices::{Activation as Statement, Next, Placement};
use sim_base::RunError;
use sim_code::{BlockRecord, ClassRecord};
use standard_calls::Missing;

/// When the process of an activation is to go on.
#[derive(Clone, Copy)]
pub enum When {
    /// At once.
    Directly,
    /// At a time.
    AtTime {
        /// Before the events of that time.
        prior: bool,
    },
    /// After so much time.
    WithDelay {
        /// Before the events of that time.
        prior: bool,
    },
    /// Beside another process.
    Beside {
        /// Before it, or after it.
        before: bool,
    },
}

/// The form of an activation.
#[derive(Clone, Copy)]
pub struct Form {
    /// Whether it is a `reactivate`.
    pub again: bool,
    /// When its process is to go on.
    pub timing: When,
}

// The timing of a number.
fn timing_of(number: usize) -> Option<When>
    ensures { option_map timing_as result ≡ timing_by number }
{
    match number {
        0 => Some(When::Directly),
        1 => Some(When::AtTime { prior: false }),
        2 => Some(When::AtTime { prior: true }),
        3 => Some(When::WithDelay { prior: false }),
        4 => Some(When::WithDelay { prior: true }),
        5 => Some(When::Beside { before: true }),
        6 => Some(When::Beside { before: false }),
        _ => None,
    }
}

// The form that an operand tells.
fn form_of(operand: i64) -> Option<Form>
    ensures { option_map form_as result ≡ activation_of operand }
{
    let Some(number) = index(operand) else {
        return None;
    };
    if number < 8 {
        let Some(timing) = timing_of(number) else {
            return None;
        };
        return Some(Form {
            again: false,
            timing,
        });
    }
    let Some(timing) = timing_of(number - 8) else {
        return None;
    };
    Some(Form {
        again: true,
        timing,
    })
}

/// What comes behind the process of an activation.
#[derive(Clone, Copy)]
pub struct Operand {
    /// It, or `none` where nothing comes.
    pub slot: Slot,
    /// How many values are below it.
    pub under: usize,
}

// The operand of an activation, if it has one.
fn take_operand(stack: &[Slot], depth: usize, timing: When) -> Option<Operand>
    requires fits { depth ≤ length stack.now }
    ensures under { IfSome result (λ q. q.under ≤ length stack.now) }
    ensures leads { IfSome result (λ q. (frames : List FrameOf) (m : Frames) → AllLead frames m stack.now → SlotLeads frames m q.slot) }
    ensures row { (o : World) → TakesOperand result timing o depth stack.now }
{
    match timing {
        When::Directly => Some(Operand {
            slot: NOTHING,
            under: depth,
        }),
        _ => {
            let Some(under) = stack::pop(stack, depth) else {
                return None;
            };
            Some(Operand {
                slot: stack[under],
                under,
            })
        }
    }
}

// Where the notice of a process is to be put.
fn place_in(
    frames: &[Frame],
    blocks: &[BlockRecord],
    classes: &[ClassRecord],
    simulated: &Simulated,
    timing: When,
    slot: Slot,
) -> Result<Placement, Missing>
    ensures row { (code : CodeOf) (cells : List SlotOf) (m : Frames) → code.blocks ≡ blocks.now → code.classes ≡ classes.now → Holds frames.now cells m → IsSimulated frames.now m simulated.now → SlotLeads frames.now m slot →
        Places result (bound (operand_in timing (value_of slot)) (λ w. placement (timing_as timing) (λ p. seen_by (in_process code m simulated.now.block.stamp) (simulation_of simulated.now) p) w)) }
{
    match timing {
        When::Directly => Ok(Placement::Direct),
        When::AtTime { prior } => match integer_in(slot) {
            Some(time) => Ok(Placement::At { time, prior }),
            None => Err(Missing::NoRule),
        },
        When::WithDelay { prior } => match integer_in(slot) {
            Some(time) => Ok(Placement::Delay { time, prior }),
            None => Err(Missing::NoRule),
        },
        When::Beside { before } => {
            let process = match seen(frames, blocks, classes, simulated, slot) {
                Ok(process) => process,
                Err(missing) => return Err(missing),
            };
            if before {
                return Ok(Placement::Before(process));
            }
            Ok(Placement::After(process))
        }
    }
}

/// An activation, and the simulation that does it.
#[derive(Clone, Copy)]
pub struct Activating {
    /// The place of the simulation among all.
    pub place: usize,
    /// How many values are below all that.
    pub under: usize,
    /// What is to be done.
    pub activation: Statement,
}

// The activation that is on the operand stack.
fn take_activation(
    frames: &[Frame],
    blocks: &[BlockRecord],
    classes: &[ClassRecord],
    simulations: &[Simulated],
    stack: &[Slot],
    depth: usize,
    form: Form,
) -> Result<Activating, Missing>
    requires fits { depth ≤ length stack.now }
    ensures place { IfOk result (λ q. q.place < length simulations.now) }
    ensures under { IfOk result (λ q. q.under ≤ length stack.now) }
    ensures within { IfOk result (λ q. IsWithinBlock simulations.now q) }
    ensures row { (code : CodeOf) (cells : List SlotOf) (o : World) (m : Frames) → code.blocks ≡ blocks.now → code.classes ≡ classes.now → Holds frames.now cells m → Simulating frames.now m simulations.now o.simulations → AllLead frames.now m stack.now →
        TakesActivation result simulations.now form code m o depth stack.now }
{
    let Some(operand) = take_operand(stack, depth, form.timing) else {
        return Err(Missing::NoRule);
    };
    let Some(at) = stack::pop(stack, operand.under) else {
        return Err(Missing::NoRule);
    };
    let Some(block) = take_block(simulations, stack, at) else {
        return Err(Missing::NoRule);
    };
    let simulated = &simulations[block.place];
    let process = match seen(frames, blocks, classes, simulated, stack[at]) {
        Ok(process) => process,
        Err(missing) => return Err(missing),
    };
    let placement = match place_in(
        frames,
        blocks,
        classes,
        simulated,
        form.timing,
        operand.slot,
    ) {
        Ok(placement) => placement,
        Err(missing) => return Err(missing),
    };
    Ok(Activating {
        place: block.place,
        under: block.under,
        activation: Statement {
            process,
            again: form.again,
            placement,
        },
    })
}

// An activation in a simulation. There is room for a notice of each process since it was made, so that no memory is taken. Nothing is
// answered where there is no notice or no such room, to which no run comes.
fn activate_in(simulated: &mut Simulated, activation: Statement) -> Option<Result<Next, RunError>>
    requires within { ForSome activation.process (IsOneOf (length simulated.old.processes.items)) }
    ensures row { IfSome result (λ a. Reschedules simulated.old simulated.new (activated activation simulated.old.sim.notices) a) }
{
    if !has_notice(simulated) {
        return None;
    }
    let count = simulated.processes.len();
    let Ok(()) = simulated.sim.reserve(count + 1) else {
        return None;
    };
    Some(simulated.sim.activate(activation))
}

// The same in the simulation at a place.
fn activate_at(storage: &mut Storage, taken: Activating) -> Option<Result<Next, RunError>>
    requires place { taken.place < length storage.old.simulations.items }
    requires within { IsWithinBlock storage.old.simulations.items taken }
    ensures texts { storage.new.texts ≡ storage.old.texts }
    ensures image { storage.new.image ≡ storage.old.image }
    ensures row { IfSome result (λ a. (y : SimulatedOf) → slice_get storage.old.simulations.items taken.place ≡ Some y → Rescheduled storage.old storage.new taken.place y y (activated taken.activation y.sim.notices) a) }
{
    activate_in(&mut storage.simulations[taken.place], taken.activation)
}

/// Does an activation.
pub fn activate(
    blocks: &[BlockRecord],
    classes: &[ClassRecord],
    storage: &mut Storage,
    top: &mut Activation,
    below: &mut Vec<Activation>,
    operand: i64,
) -> Flow
    requires short { top.old.registers.pc + 1 < 2 ^ 64 }
    requires fits { top.old.registers.depth ≤ length top.old.stack.items }
    requires others { AllFit below.old.items }
    ensures fits { top.new.registers.depth ≤ length top.new.stack.items }
    ensures others { AllFit below.new.items }
    ensures texts { storage.new.texts ≡ storage.old.texts }
    ensures image { storage.new.image ≡ storage.old.image }
    ensures row { (code : CodeOf) (l : LimitsOf) (line : ℕ) (now : Outside) → code.blocks ≡ blocks.now → code.classes ≡ classes.now →
        Obeys result l line (activation_row code line operand) storage.old storage.new top.old.registers top.new.registers top.old.stack.items top.new.stack.items below.old.items below.new.items now now }
{
    let Some(form) = form_of(operand) else {
        return Flow::NoRule;
    };
    let taken = match take_activation(
        &storage.frames,
        blocks,
        classes,
        &storage.simulations,
        &top.stack,
        top.registers.depth,
        form,
    ) {
        Ok(taken) => taken,
        Err(missing) => return flow_of(missing),
    };
    let Some(answer) = activate_at(storage, taken) else {
        return Flow::Memory;
    };
    decide(storage, taken.place, answer, taken.under, top, below)
}
