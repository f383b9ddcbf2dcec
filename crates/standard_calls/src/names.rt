//! A standard name.
ghost use Rattle.std.specs.Prelude.{◌≡◌, ◌≤◌, ℕ, List, [], IfOk, Some, length, true};
ghost use Rattle.std.specs.Io.KnownBytes.{Appends};
ghost use Rattle.sim_values.specs.Texts.{KeepsTexts, at_position};
ghost use Rattle.sim_code.specs.Machine.{Frames};
ghost use Rattle.sim_code.specs.Outcome.{ArrayOf};
ghost use Rattle.basic_io.specs.Image.{IsImage};
ghost use Rattle.frame_arena.specs.Arrays.{AllLeadArrays, RegionOf};
ghost use Rattle.frame_arena.specs.declared.frames.Frame.{Frame};
ghost use Rattle.frame_arena.specs.Frames.{AllLead};
ghost use Rattle.frame_arena.specs.Stacks.{values_of};
ghost use Rattle.standard_calls.specs.Calls.{HasText, ReadAs};
ghost use Rattle.standard_calls.specs.declared.manner.Manner.TheVariants as manner;
ghost use Rattle.standard_calls.specs.Quiet.{is_done, manner_of};
ghost use Rattle.standard_calls.specs.Taking.{RowTakes};
ghost use Rattle.standard_calls.specs.Unread.{Unread};
ghost use Rattle.standard_calls.specs.Performed.{IfDepth, IfMoved, PerformedAs, PerformedFaults, PerformedStops, held, parts};

use crate::calls::{Call, Shape, operand_places, shape_of};
use crate::came::{Missing, settle};
use crate::performing::come;
use crate::reading::{character, integer, integers, nothing, text};
use basic_io::{InImage, OutImage};
use frame_arena::Slot;
use sim_base::RunError;
use sim_ports::{Sink, Source};
use sim_values::{Standard, TextVal};
use text_objects::Texts;

/// What became of a standard name.
#[derive(Clone, Copy, Debug, PartialEq, Eq)]
pub enum Performed {
    /// It is done; this is how many values there are then, its own on top, if it has one.
    Depth(usize),
    /// It is done, and has moved its text.
    Moved {
        /// How many values there are then.
        depth: usize,
        /// The text with its position.
        text: TextVal,
    },
    /// There are too few values, or they are of other kinds, or there is no room for its value.
    NoRule,
    /// The run-time error.
    Fault(RunError),
    /// The words of a new text are not left, and nothing was done.
    Full {
        /// The words.
        wanted: u64,
    },
    /// Want of memory.
    Memory,
    /// The output has failed.
    WriteFault,
    /// The input has failed.
    InputFault,
}

// Performs a name that is not quiet on the operands that were read, and puts its value there, if it has one.
#[tactic(auto, using(crate::proofs::Unread::reads_none, crate::proofs::Taking::takes_none))]
fn finish<I: Source, O: Sink>(
    name: Standard,
    call: Result<Call, Missing>,
    stack: &mut [Slot],
    depth: usize,
    budget: u64,
    words: &mut u64,
    texts: &mut Texts,
    sysin: &mut InImage,
    image: &mut OutImage,
    input: &mut I,
    out: &mut O,
) -> Performed
    requires read { ReadAs call name depth stack.old }
    requires text { IfOk call (λ c. HasText texts.old c) }
    requires loud { manner_of name ≡ manner.Ports }
    requires fits { depth ≤ length stack.old }
    requires image { IsImage texts.old image.old }
    requires sysin { IsImage texts.old sysin.old.image }
    ensures row { (s : List ℕ) → I.left input.old ≡ Some s → (s2 : List ℕ) × (I.left input.new ≡ Some s2)
        × PerformedAs result budget name (held depth stack.old) stack.new (parts texts.old sysin.old s image.old (O.written out.old) words.old) (parts texts.new sysin.new s2 image.new (O.written out.new) words.new) }

    // Nothing is read where what is held of the input is enough for the name on its operands.
    ensures unread { Unread name (values_of depth stack.old) texts.old sysin.old input.old input.new }

    // Nor where its row takes nothing of the input.
    ensures takes { (s : List ℕ) → I.left input.old ≡ Some s → RowTakes budget name (held depth stack.old) (parts texts.old sysin.old s image.old (O.written out.old) words.old) input.old input.new }
    ensures faults { PerformedFaults result (O.faults out.old) (O.faults out.new) (I.faults input.old) (I.faults input.new) }
    ensures stops { PerformedStops O.written O.faults out.old out.new result }
    ensures still { IfMoved result (Appends (O.written out.old) (O.written out.new) []) }
    ensures within { IfDepth result (λ n. n ≤ length stack.new) }
    ensures long { length stack.new ≡ length stack.old }
    ensures valid { IsImage texts.new image.new }
    ensures valid_in { IsImage texts.new sysin.new.image }
    ensures same { image.new ≡ at_position image.old image.new.pos }
    ensures same_in { sysin.new.image ≡ at_position sysin.old.image sysin.new.image.pos }
    ensures keeps { KeepsTexts texts.old texts.new }
    ensures leads { (frames : List Frame) (m : Frames) → AllLead frames m stack.old → AllLead frames m stack.new }
    ensures leads_arrays { (regions : List RegionOf) (arrays : List ArrayOf) → AllLeadArrays regions arrays stack.old → AllLeadArrays regions arrays stack.new }
{
    match call {
        Ok(call) => {
            let at = depth.saturating_sub(operand_places(call));
            let came = come(call, budget, words, texts, sysin, image, input, out);
            settle(stack, at, came)
        }
        Err(missing) => missing.performed(),
    }
}

/// Performs a standard name that is not quiet: it reads or writes, or has no operands. It takes its operands from the stack, does what it
/// does, and puts its value there, if it has one. `budget` is the storage budget, and `words` counts those in use. A value that is no
/// text of `texts` is answered by `Memory`, and so is a budget above 50,000,000 words where a text is made.
#[tactic(auto, using(crate::proofs::Unread::reads_none, crate::proofs::Taking::takes_none))]
pub fn perform<I: Source, O: Sink>(
    name: Standard,
    stack: &mut [Slot],
    depth: usize,
    budget: u64,
    words: &mut u64,
    texts: &mut Texts,
    sysin: &mut InImage,
    image: &mut OutImage,
    input: &mut I,
    out: &mut O,
) -> Performed
    requires runs { is_done name ≡ true }
    requires loud { manner_of name ≡ manner.Ports }
    requires fits { depth ≤ length stack.old }
    requires image { IsImage texts.old image.old }
    requires sysin { IsImage texts.old sysin.old.image }
    ensures row { (s : List ℕ) → I.left input.old ≡ Some s → (s2 : List ℕ) × (I.left input.new ≡ Some s2)
        × PerformedAs result budget name (held depth stack.old) stack.new (parts texts.old sysin.old s image.old (O.written out.old) words.old) (parts texts.new sysin.new s2 image.new (O.written out.new) words.new) }

    // Nothing is read where what is held of the input is enough for the name on its operands.
    ensures unread { Unread name (values_of depth stack.old) texts.old sysin.old input.old input.new }

    // Nor where its row takes nothing of the input.
    ensures takes { (s : List ℕ) → I.left input.old ≡ Some s → RowTakes budget name (held depth stack.old) (parts texts.old sysin.old s image.old (O.written out.old) words.old) input.old input.new }
    ensures faults { PerformedFaults result (O.faults out.old) (O.faults out.new) (I.faults input.old) (I.faults input.new) }
    ensures stops { PerformedStops O.written O.faults out.old out.new result }
    ensures still { IfMoved result (Appends (O.written out.old) (O.written out.new) []) }
    ensures within { IfDepth result (λ n. n ≤ length stack.new) }
    ensures long { length stack.new ≡ length stack.old }
    ensures valid { IsImage texts.new image.new }
    ensures valid_in { IsImage texts.new sysin.new.image }
    ensures same { image.new ≡ at_position image.old image.new.pos }
    ensures same_in { sysin.new.image ≡ at_position sysin.old.image sysin.new.image.pos }
    ensures keeps { KeepsTexts texts.old texts.new }
    ensures leads { (frames : List Frame) (m : Frames) → AllLead frames m stack.old → AllLead frames m stack.new }
    ensures leads_arrays { (regions : List RegionOf) (arrays : List ArrayOf) → AllLeadArrays regions arrays stack.old → AllLeadArrays regions arrays stack.new }
{
    match shape_of(name) {
        Shape::Nothing(function) => {
            let call = nothing(function, stack, depth);
            finish(
                name, call, stack, depth, budget, words, texts, sysin, image, input, out,
            )
        }
        Shape::Integer(function) => {
            let call = integer(function, stack, depth);
            finish(
                name, call, stack, depth, budget, words, texts, sysin, image, input, out,
            )
        }
        Shape::Integers(function) => {
            let call = integers(function, stack, depth);
            finish(
                name, call, stack, depth, budget, words, texts, sysin, image, input, out,
            )
        }
        Shape::Character(function) => {
            let call = character(function, stack, depth);
            finish(
                name, call, stack, depth, budget, words, texts, sysin, image, input, out,
            )
        }
        Shape::Text(function) => {
            let call = text(function, stack, depth, texts);
            finish(
                name, call, stack, depth, budget, words, texts, sysin, image, input, out,
            )
        }
        Shape::TextAndInteger(_) => unreachable!(),
        Shape::TextAndIntegers => unreachable!(),
        Shape::TextAndCharacter => unreachable!(),
        Shape::Elsewhere => unreachable!(),
    }
}
