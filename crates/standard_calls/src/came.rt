//! What becomes of a standard name on its operands, and what that leaves on the stack.
ghost use Rattle.std.specs.Prelude.{◌≡◌, ◌≤◌, ◌+◌, ◌<◌, ℕ, List, Option, Some, None, IfSome, Ok, Err, length};
ghost use Rattle.sim_base.specs.declared.run_error.RunError.{RunError as AnyError};
ghost use Rattle.sim_values.specs.declared.standard.Standard.{Standard};
ghost use Rattle.sim_values.specs.Plain.{Plain, Integer, Text};
ghost use Rattle.sim_values.specs.Store.{Store, computes, gives};
ghost use Rattle.sim_values.specs.Standard.{standard_effect};
ghost use Rattle.sim_code.specs.Machine.{Frames, plain};
ghost use Rattle.sim_code.specs.Outcome.{ArrayOf};
ghost use Rattle.frame_arena.specs.Arrays.{AllLeadArrays, RegionOf};
ghost use Rattle.frame_arena.specs.declared.frames.Frame.{Frame};
ghost use Rattle.frame_arena.specs.declared.slot.Slot.{Slot as SlotOf};
ghost use Rattle.frame_arena.specs.Frames.{AllLead};
ghost use Rattle.frame_arena.specs.Slots.{value_of};
ghost use Rattle.frame_arena.specs.Stacks.{values_of};
ghost use Rattle.sim_code.specs.Rows.{with_value};
ghost use Rattle.standard_calls.specs.Calls.{CameAs, IsScalarCame, IsScalarValue, Takes, ValueFits, plain_value, settled};
ghost use Rattle.standard_calls.specs.Performed.{IfDepth, Parts, PerformedAs, held};

use crate::names::Performed;
use frame_arena::Slot;
use sim_base::RunError;
use sim_values::TextVal;

/// What became of a standard name on its operands.
#[derive(Clone, Copy)]
pub enum Came {
    /// It is done.
    Done {
        /// Its value, if it has one.
        value: Option<Slot>,
        /// Its text with another position, if it has moved that.
        moved: Option<TextVal>,
    },
    /// A run-time error.
    Fault(RunError),
    /// The words of a new text are not left.
    Full {
        /// The words.
        wanted: u64,
    },
    /// Want of memory.
    Memory,
    /// The output has failed.
    WriteFault,
    /// The input has failed.
    InputFault,
}

/// Why no operands were read.
#[derive(Clone, Copy, Debug, PartialEq, Eq)]
pub enum Missing {
    /// There are too few values, or they are of other kinds, or there is no room for the name's value.
    NoRule,
    /// A value that is no text of the frames, as none is that the machine makes: it stops there as for want of memory.
    Memory,
}

impl Missing {
    /// As the outcome of a name.
    #[inline(always)]
    pub fn performed(self) -> Performed
        ensures rule { self ≡ Missing.NoRule → result ≡ Performed.NoRule }
        ensures memory { self ≡ Missing.Memory → result ≡ Performed.Memory }
    {
        match self {
            Missing::NoRule => Performed::NoRule,
            Missing::Memory => Performed::Memory,
        }
    }
}

/// A name that has done nothing but to give a value.
#[inline(always)]
pub fn value(slot: Slot) -> Came
    ensures { result ≡ Came.Done (Some slot) None }
{
    Came::Done {
        value: Some(slot),
        moved: None,
    }
}

/// A name that is done and has no value.
#[inline(always)]
pub fn done() -> Came
    ensures { result ≡ Came.Done None None }
{
    Came::Done {
        value: None,
        moved: None,
    }
}

// Puts a value behind so many others, if there is one, and answers how many there are then.
#[inline(always)]
fn put(stack: &mut [Slot], at: usize, value: Option<Slot>) -> usize
    requires room { IfSome value (λ s. at < length stack.old) }
    requires fits { at ≤ length stack.old }
    requires scalar { IsScalarValue value }
    ensures values { values_of result stack.new ≡ with_value (plain_value value) (values_of at stack.old) }
    ensures within { result ≤ length stack.new }
    ensures long { length stack.new ≡ length stack.old }
    ensures leads { (frames : List Frame) (m : Frames) → AllLead frames m stack.old → AllLead frames m stack.new }
    ensures leads_arrays { (regions : List RegionOf) (arrays : List ArrayOf) → AllLeadArrays regions arrays stack.old → AllLeadArrays regions arrays stack.new }
{
    match value {
        Some(slot) => {
            stack[at] = slot;
            at + 1
        }
        None => at,
    }
}

/// Puts the value of a name behind so many values, if it has one.
#[inline(always)]
pub fn settle(stack: &mut [Slot], at: usize, came: Came) -> Performed
    requires room { ValueFits came at stack.old }
    requires fits { at ≤ length stack.old }
    requires scalar { IsScalarCame came }

    // What the row takes may stand on another stack that has the same values below.
    ensures row { (budget : ℕ) (name : Standard) (depth : ℕ) (slots : List SlotOf) (vs : List Plain) (old new : Parts) → values_of at slots ≡ values_of at stack.old → Takes name depth slots at vs → CameAs came budget name vs old new →
        PerformedAs result budget name (held depth slots) stack.new old new }
    ensures ends { (n : ℕ) × (result ≡ settled came n) }
    ensures within { IfDepth result (λ n. n ≤ length stack.new) }
    ensures long { length stack.new ≡ length stack.old }
    ensures leads { (frames : List Frame) (m : Frames) → AllLead frames m stack.old → AllLead frames m stack.new }
    ensures leads_arrays { (regions : List RegionOf) (arrays : List ArrayOf) → AllLeadArrays regions arrays stack.old → AllLeadArrays regions arrays stack.new }
{
    match came {
        Came::Done { value, moved } => {
            let depth = put(stack, at, value);
            match moved {
                Some(text) => Performed::Moved { depth, text },
                None => Performed::Depth(depth),
            }
        }
        Came::Fault(error) => Performed::Fault(error),
        Came::Full { wanted } => Performed::Full { wanted },
        Came::Memory => Performed::Memory,
        Came::WriteFault => Performed::WriteFault,
        Came::InputFault => Performed::InputFault,
    }
}
