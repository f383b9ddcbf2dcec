//! Standard names of a text that look at one character of it at most. The text is handed over apart, as the machine's stack has an address
//! in its place.
ghost use Rattle.std.specs.Prelude.{◌≡◌, ◌-◌, ◌≤◌, ◌∷◌, [], ℕ, List, Option, length, set};
ghost use Rattle.sim_values.specs.Plain.{Text};
ghost use Rattle.sim_values.specs.Standard.{operands_of, row_of};
ghost use Rattle.sim_values.specs.Texts.{IsText, KeepsTexts};
ghost use Rattle.sim_values.specs.declared.value.TextVal.{TextVal as AnyText};
ghost use Rattle.sim_code.specs.Machine.{Frames, Of};
ghost use Rattle.sim_code.specs.Outcome.{ArrayOf};
ghost use Rattle.basic_io.specs.Input.{HeldInput};
ghost use Rattle.frame_arena.specs.Arrays.{AllLeadArrays, RegionOf};
ghost use Rattle.frame_arena.specs.declared.frames.Frame.{Frame};
ghost use Rattle.frame_arena.specs.declared.slot.Slot.{Slot as SlotOf};
ghost use Rattle.frame_arena.specs.Frames.{AllLead};
ghost use Rattle.frame_arena.specs.Slots.{value_of};
ghost use Rattle.standard_calls.specs.declared.manner.Manner.TheVariants as manner;
ghost use Rattle.standard_calls.specs.Apart.{IsTextOf, RestOnTop};
ghost use Rattle.standard_calls.specs.Calls.{CameAs, HasText, IsScalarCame, KeepsImages, QuietCame, name_of, operands, text_name};
ghost use Rattle.standard_calls.specs.Performed.{IfDepth, PerformedAs, held, parts};
ghost use Rattle.standard_calls.specs.Quiet.{QuietPerformed, manner_of};

use crate::calls::{Call, OfText, OfTextAndInteger, operand_places};
use crate::came::{Came, settle};
use crate::functions::given;
use crate::names::Performed;
use crate::texts::{getchar, putchar, setpos};
use frame_arena::Slot;
use sim_values::{Standard, TextVal};
use text_objects::Texts;

// A name of a text alone.
#[inline(always)]
fn of_text(function: OfText, text: TextVal, texts: &Texts) -> Came
    requires text { IsText texts.now text }
    requires scan { manner_of (text_name function) ≡ manner.Scan }
    ensures came { (budget words : ℕ) (input : HeldInput) (source : List ℕ) (image : AnyText) (sink : Option (List ℕ)) →
        CameAs result budget (text_name function) (Text text ∷ []) (parts texts.now input source image sink words) (parts texts.now input source image sink words) }
    ensures scalar { IsScalarCame result }
    ensures quiet { QuietCame result }
{
    match function {
        OfText::Length => given(Slot::integer(texts.length(text))),
        OfText::Pos => given(Slot::integer(texts.pos(text))),
        OfText::More => given(Slot::truth(texts.more(text))),
        OfText::Getchar => getchar(text, texts),
        _ => unreachable!(),
    }
}

// What becomes of a name on its operands.
#[inline(always)]
fn come_scan(call: Call, texts: &mut Texts) -> Came
    requires text { HasText texts.old call }
    requires scan { manner_of (name_of call) ≡ manner.Scan }
    ensures came { (budget words : ℕ) (input : HeldInput) (source : List ℕ) (image : AnyText) (sink : Option (List ℕ)) →
        CameAs result budget (name_of call) (operands call) (parts texts.old input source image sink words) (parts texts.new input source image sink words) }
    ensures scalar { IsScalarCame result }
    ensures quiet { QuietCame result }
    ensures keeps { KeepsTexts texts.old texts.new }
    ensures images { KeepsImages texts.old texts.new }
{
    match call {
        Call::Text(function, text) => of_text(function, text, texts),
        Call::TextAndInteger(_function, text, i) => setpos(text, i, texts),
        Call::TextAndCharacter(text, c) => putchar(text, c, texts),
        _ => unreachable!(),
    }
}

// Performs a name on these operands, of which the text stands apart, and puts its value there, if it has one.
#[inline(always)]
fn finish_scan(
    name: Standard,
    call: Call,
    stack: &mut [Slot],
    depth: usize,
    texts: &mut Texts,
) -> Performed
    requires named { name ≡ name_of call }
    requires scan { manner_of name ≡ manner.Scan }
    requires fits { depth ≤ length stack.old }
    requires deep { length (operands_of (row_of name).function) ≤ depth }
    requires rest { RestOnTop call depth stack.old }
    requires text { HasText texts.old call }
    ensures row { (budget words : ℕ) (input : HeldInput) (source : List ℕ) (image : AnyText) (sink : Option (List ℕ)) (s : SlotOf) → IsTextOf call s →
        PerformedAs result budget name (held depth (set stack.old (depth - length (operands_of (row_of name).function)) s)) stack.new (parts texts.old input source image sink words) (parts texts.new input source image sink words) }
    ensures quiet { QuietPerformed result }
    ensures within { IfDepth result (λ n. n ≤ length stack.new) }
    ensures long { length stack.new ≡ length stack.old }
    ensures keeps { KeepsTexts texts.old texts.new }
    ensures images { KeepsImages texts.old texts.new }
    ensures leads { (frames : List Frame) (m : Frames) → AllLead frames m stack.old → AllLead frames m stack.new }
    ensures leads_arrays { (regions : List RegionOf) (arrays : List ArrayOf) → AllLeadArrays regions arrays stack.old → AllLeadArrays regions arrays stack.new }
{
    let at = depth.saturating_sub(operand_places(call));
    settle(stack, at, come_scan(call, texts))
}

/// Performs a name of a text that looks at one character of it at most. The text is handed over apart: what stands on the stack in the
/// place of the first operand is not read. The other operand is taken from the stack, and the value put there, if there is one.
#[inline(always)]
pub fn perform_scan(
    name: Standard,
    text: TextVal,
    stack: &mut [Slot],
    depth: usize,
    texts: &mut Texts,
) -> Performed
    requires scan { manner_of name ≡ manner.Scan }
    requires fits { depth ≤ length stack.old }
    requires deep { length (operands_of (row_of name).function) ≤ depth }
    requires text { IsText texts.old text }

    // On a stack that has the text in the place of the first operand, whatever stands there.
    ensures row { (budget words : ℕ) (input : HeldInput) (source : List ℕ) (image : AnyText) (sink : Option (List ℕ)) (s : SlotOf) → value_of s ≡ Of (Text text) →
        PerformedAs result budget name (held depth (set stack.old (depth - length (operands_of (row_of name).function)) s)) stack.new (parts texts.old input source image sink words) (parts texts.new input source image sink words) }
    ensures quiet { QuietPerformed result }
    ensures within { IfDepth result (λ n. n ≤ length stack.new) }
    ensures long { length stack.new ≡ length stack.old }
    ensures keeps { KeepsTexts texts.old texts.new }
    ensures images { KeepsImages texts.old texts.new }
    ensures leads { (frames : List Frame) (m : Frames) → AllLead frames m stack.old → AllLead frames m stack.new }
    ensures leads_arrays { (regions : List RegionOf) (arrays : List ArrayOf) → AllLeadArrays regions arrays stack.old → AllLeadArrays regions arrays stack.new }
{
    match name {
        Standard::TextLength => {
            finish_scan(name, Call::Text(OfText::Length, text), stack, depth, texts)
        }
        Standard::TextPos => finish_scan(name, Call::Text(OfText::Pos, text), stack, depth, texts),
        Standard::TextMore => {
            finish_scan(name, Call::Text(OfText::More, text), stack, depth, texts)
        }
        Standard::TextGetchar => {
            finish_scan(name, Call::Text(OfText::Getchar, text), stack, depth, texts)
        }
        Standard::TextSetpos => match stack[depth - 1].as_integer() {
            Some(i) => {
                let call = Call::TextAndInteger(OfTextAndInteger::Setpos, text, i);
                finish_scan(name, call, stack, depth, texts)
            }
            None => Performed::NoRule,
        },
        Standard::TextPutchar => match stack[depth - 1].as_character() {
            Some(c) => finish_scan(name, Call::TextAndCharacter(text, c), stack, depth, texts),
            None => Performed::NoRule,
        },
        _ => unreachable!(),
    }
}
