//! Standard names that work on a whole text or make one, and touch neither input nor output.
ghost use Rattle.std.specs.Prelude.{◌≡◌, ◌≤◌, ◌∷◌, [], ℕ, List, Option, IfOk, length};
ghost use Rattle.sim_values.specs.Plain.{Integer, Text};
ghost use Rattle.sim_values.specs.Texts.{IsText, KeepsTexts};
ghost use Rattle.sim_values.specs.declared.value.TextVal.{TextVal as AnyText};
ghost use Rattle.sim_values.specs.declared.standard.Standard.TheVariants as name;
ghost use Rattle.sim_code.specs.Machine.{Frames};
ghost use Rattle.sim_code.specs.Outcome.{ArrayOf};
ghost use Rattle.basic_io.specs.Input.{HeldInput};
ghost use Rattle.frame_arena.specs.Arrays.{AllLeadArrays, RegionOf};
ghost use Rattle.frame_arena.specs.declared.frames.Frame.{Frame};
ghost use Rattle.frame_arena.specs.Frames.{AllLead};
ghost use Rattle.standard_calls.specs.declared.manner.Manner.TheVariants as manner;
ghost use Rattle.standard_calls.specs.Calls.{CameAs, GivesValue, HasText, IsScalarCame, KeepsImages, QuietCame, ReadAs, name_of, operands, text_name};
ghost use Rattle.standard_calls.specs.Performed.{IfDepth, PerformedAs, held, parts};
ghost use Rattle.standard_calls.specs.Quiet.{QuietPerformed, manner_of};

use crate::calls::{Call, OfText, Shape, operand_places, shape_of};
use crate::came::{Came, Missing, settle};
use crate::functions::given;
use crate::names::Performed;
use crate::reading::{integer, text, text_and_integer, text_and_integers};
use crate::texts::{changed, made, moved_integer, putint, room, sub, words_for};
use frame_arena::Slot;
use sim_values::{Standard, TextVal, words_text};
use text_objects::Texts;

// `blanks`.
#[inline(always)]
fn blanks(n: i64, budget: u64, words: &mut u64, texts: &mut Texts) -> Came
    ensures came { (input : HeldInput) (source : List ℕ) (image : AnyText) (sink : Option (List ℕ)) →
        CameAs result budget name.Blanks (Integer n ∷ []) (parts texts.old input source image sink words.old) (parts texts.new input source image sink words.new) }
    ensures scalar { IsScalarCame result }
    ensures quiet { QuietCame result }
    ensures keeps { KeepsTexts texts.old texts.new }
    ensures images { KeepsImages texts.old texts.new }
{
    let Some(room) = room(budget, *words) else {
        return Came::Memory;
    };
    let answer = texts.blanks(n, room);
    made(answer, words_for(n), budget, words)
}

// `copy`.
#[inline(always)]
fn copy(text: TextVal, budget: u64, words: &mut u64, texts: &mut Texts) -> Came
    requires text { IsText texts.old text }
    ensures came { (input : HeldInput) (source : List ℕ) (image : AnyText) (sink : Option (List ℕ)) →
        CameAs result budget name.Copy (Text text ∷ []) (parts texts.old input source image sink words.old) (parts texts.new input source image sink words.new) }
    ensures scalar { IsScalarCame result }
    ensures quiet { QuietCame result }
    ensures keeps { KeepsTexts texts.old texts.new }
    ensures images { KeepsImages texts.old texts.new }
{
    let Some(room) = room(budget, *words) else {
        return Came::Memory;
    };
    let answer = texts.copy(text, room);
    made(answer, words_text(u64::from(text.length)), budget, words)
}

// A name of a text.
#[inline(always)]
fn of_text(function: OfText, text: TextVal, budget: u64, words: &mut u64, texts: &mut Texts) -> Came
    requires text { IsText texts.old text }
    requires whole { manner_of (text_name function) ≡ manner.Whole }
    ensures came { (input : HeldInput) (source : List ℕ) (image : AnyText) (sink : Option (List ℕ)) →
        CameAs result budget (text_name function) (Text text ∷ []) (parts texts.old input source image sink words.old) (parts texts.new input source image sink words.new) }
    ensures scalar { IsScalarCame result }
    ensures quiet { QuietCame result }
    ensures keeps { KeepsTexts texts.old texts.new }
    ensures images { KeepsImages texts.old texts.new }
{
    match function {
        OfText::Copy => copy(text, budget, words, texts),
        OfText::Upcase => changed(texts.upcase(text)),
        OfText::Lowcase => changed(texts.lowcase(text)),
        OfText::Constant => given(Slot::truth(texts.is_constant(text))),
        OfText::Start => given(Slot::integer(texts.start(text))),
        OfText::Main => given(Slot::text(texts.main(text))),
        OfText::Strip => given(Slot::text(texts.strip(text))),
        OfText::Getint => {
            let mut t = text;
            let answer = texts.getint(&mut t);
            moved_integer(answer, t)
        }
        OfText::Length => unreachable!(),
        OfText::Pos => unreachable!(),
        OfText::More => unreachable!(),
        OfText::Getchar => unreachable!(),
        OfText::Outtext => unreachable!(),
    }
}

// What becomes of a name on its operands.
#[inline(always)]
fn come_whole(call: Call, budget: u64, words: &mut u64, texts: &mut Texts) -> Came
    requires text { HasText texts.old call }
    requires whole { manner_of (name_of call) ≡ manner.Whole }
    ensures came { (input : HeldInput) (source : List ℕ) (image : AnyText) (sink : Option (List ℕ)) →
        CameAs result budget (name_of call) (operands call) (parts texts.old input source image sink words.old) (parts texts.new input source image sink words.new) }
    ensures scalar { IsScalarCame result }
    ensures value { GivesValue call result }
    ensures quiet { QuietCame result }
    ensures keeps { KeepsTexts texts.old texts.new }
    ensures images { KeepsImages texts.old texts.new }
{
    match call {
        Call::Nothing(_) => unreachable!(),
        Call::Integer(_function, i) => blanks(i, budget, words, texts),
        Call::Integers(_, _, _) => unreachable!(),
        Call::Character(_, _) => unreachable!(),
        Call::Text(function, text) => of_text(function, text, budget, words, texts),
        Call::TextAndInteger(_function, text, i) => putint(text, i, texts),
        Call::TextAndIntegers(text, i, n) => sub(text, i, n, texts),
        Call::TextAndCharacter(_, _) => unreachable!(),
    }
}

// Performs a name on the operands that were read, and puts its value there, if it has one.
#[inline(always)]
fn finish_whole(
    name: Standard,
    call: Result<Call, Missing>,
    stack: &mut [Slot],
    depth: usize,
    budget: u64,
    words: &mut u64,
    texts: &mut Texts,
) -> Performed
    requires read { ReadAs call name depth stack.old }
    requires text { IfOk call (λ c. HasText texts.old c) }
    requires whole { manner_of name ≡ manner.Whole }
    requires fits { depth ≤ length stack.old }
    ensures row { (input : HeldInput) (source : List ℕ) (image : AnyText) (sink : Option (List ℕ)) →
        PerformedAs result budget name (held depth stack.old) stack.new (parts texts.old input source image sink words.old) (parts texts.new input source image sink words.new) }
    ensures quiet { QuietPerformed result }
    ensures within { IfDepth result (λ n. n ≤ length stack.new) }
    ensures long { length stack.new ≡ length stack.old }
    ensures keeps { KeepsTexts texts.old texts.new }
    ensures images { KeepsImages texts.old texts.new }
    ensures leads { (frames : List Frame) (m : Frames) → AllLead frames m stack.old → AllLead frames m stack.new }
    ensures leads_arrays { (regions : List RegionOf) (arrays : List ArrayOf) → AllLeadArrays regions arrays stack.old → AllLeadArrays regions arrays stack.new }
{
    match call {
        Ok(call) => {
            let at = depth.saturating_sub(operand_places(call));
            let came = come_whole(call, budget, words, texts);
            settle(stack, at, came)
        }
        Err(missing) => missing.performed(),
    }
}

/// Performs a name of a whole text, or one that makes a text: it takes its operands from the stack, does what it does, and puts its value
/// there, if it has one. `budget`, `words` and `Memory` are as with `perform`.
#[inline(always)]
pub fn perform_whole(
    name: Standard,
    stack: &mut [Slot],
    depth: usize,
    budget: u64,
    words: &mut u64,
    texts: &mut Texts,
) -> Performed
    requires whole { manner_of name ≡ manner.Whole }
    requires fits { depth ≤ length stack.old }
    ensures row { (input : HeldInput) (source : List ℕ) (image : AnyText) (sink : Option (List ℕ)) →
        PerformedAs result budget name (held depth stack.old) stack.new (parts texts.old input source image sink words.old) (parts texts.new input source image sink words.new) }
    ensures quiet { QuietPerformed result }
    ensures within { IfDepth result (λ n. n ≤ length stack.new) }
    ensures long { length stack.new ≡ length stack.old }
    ensures keeps { KeepsTexts texts.old texts.new }
    ensures images { KeepsImages texts.old texts.new }
    ensures leads { (frames : List Frame) (m : Frames) → AllLead frames m stack.old → AllLead frames m stack.new }
    ensures leads_arrays { (regions : List RegionOf) (arrays : List ArrayOf) → AllLeadArrays regions arrays stack.old → AllLeadArrays regions arrays stack.new }
{
    match shape_of(name) {
        Shape::Nothing(_) => unreachable!(),
        Shape::Integer(function) => {
            let call = integer(function, stack, depth);
            finish_whole(name, call, stack, depth, budget, words, texts)
        }
        Shape::Integers(_) => unreachable!(),
        Shape::Character(_) => unreachable!(),
        Shape::Text(function) => {
            let call = text(function, stack, depth, texts);
            finish_whole(name, call, stack, depth, budget, words, texts)
        }
        Shape::TextAndInteger(function) => {
            let call = text_and_integer(function, stack, depth, texts);
            finish_whole(name, call, stack, depth, budget, words, texts)
        }
        Shape::TextAndIntegers => {
            let call = text_and_integers(stack, depth, texts);
            finish_whole(name, call, stack, depth, budget, words, texts)
        }
        Shape::TextAndCharacter => unreachable!(),
        Shape::Elsewhere => unreachable!(),
    }
}
