//! The operands of standard names on a stack.
ghost use Rattle.std.specs.Prelude.{◌≡◌, ◌≤◌, length, IfOk, Err};
ghost use Rattle.sim_values.specs.declared.standard.Standard.TheVariants as name;
ghost use Rattle.sim_values.specs.Plain.{Text};
ghost use Rattle.sim_values.specs.Texts.{IsText};
ghost use Rattle.sim_code.specs.Machine.{Of};
ghost use Rattle.frame_arena.specs.Slots.{value_of};
ghost use Rattle.standard_calls.specs.Calls.{HasText, IsNoText, ReadAs, character_name, gives, integer_name, integers_name, nothing_name, text_and_integer_name, text_name};

use crate::calls::{Call, OfCharacter, OfInteger, OfIntegers, OfNothing, OfText, OfTextAndInteger};
use crate::came::Missing;
use frame_arena::{Slot, SlotKind};
use sim_values::TextVal;
use text_objects::Texts;

// Whether a name of no operands has a value.
#[inline(always)]
fn has_value(function: OfNothing) -> bool
    ensures { result ≡ gives function }
{
    !matches!(function, OfNothing::Inimage | OfNothing::Outimage)
}

/// A name of no operands, where there is room for its value.
#[inline(always)]
pub fn nothing(function: OfNothing, stack: &[Slot], depth: usize) -> Result<Call, Missing>
    requires fits { depth ≤ length stack.now }
    ensures read { ReadAs result (nothing_name function) depth stack.now }
{
    if !has_value(function) {
        return Ok(Call::Nothing(function));
    }
    if depth < stack.len() {
        return Ok(Call::Nothing(function));
    }
    Err(Missing::NoRule)
}

/// A name of the integer on top.
#[inline(always)]
pub fn integer(function: OfInteger, stack: &[Slot], depth: usize) -> Result<Call, Missing>
    requires fits { depth ≤ length stack.now }
    ensures read { ReadAs result (integer_name function) depth stack.now }
{
    if depth < 1 {
        return Err(Missing::NoRule);
    }
    match stack[depth - 1].as_integer() {
        Some(i) => Ok(Call::Integer(function, i)),
        None => Err(Missing::NoRule),
    }
}

/// A name of the two integers on top.
#[inline(always)]
pub fn integers(function: OfIntegers, stack: &[Slot], depth: usize) -> Result<Call, Missing>
    requires fits { depth ≤ length stack.now }
    ensures read { ReadAs result (integers_name function) depth stack.now }
{
    if depth < 2 {
        return Err(Missing::NoRule);
    }
    let at = depth - 2;
    let Some(j) = stack[at + 1].as_integer() else {
        return Err(Missing::NoRule);
    };
    let Some(i) = stack[at].as_integer() else {
        return Err(Missing::NoRule);
    };
    Ok(Call::Integers(function, i, j))
}

/// A name of the character on top.
#[inline(always)]
pub fn character(function: OfCharacter, stack: &[Slot], depth: usize) -> Result<Call, Missing>
    requires fits { depth ≤ length stack.now }
    ensures read { ReadAs result (character_name function) depth stack.now }
{
    if depth < 1 {
        return Err(Missing::NoRule);
    }
    match stack[depth - 1].as_character() {
        Some(c) => Ok(Call::Character(function, c)),
        None => Err(Missing::NoRule),
    }
}

/// The text in a slot, if it is one of these.
#[inline(always)]
pub fn text_in(slot: Slot, texts: &Texts) -> Result<TextVal, Missing>
    ensures text { IfOk result (λ t. (value_of slot ≡ Of (Text t)) × IsText texts.now t) }
    ensures other { result ≡ Err Missing.NoRule → IsNoText (value_of slot) }
{
    match slot.kind {
        SlotKind::Text => {
            if slot.data < 0 || slot.data > i64::from(u32::MAX) {
                return Err(Missing::Memory);
            }
            let text = TextVal {
                text_frame: slot.name,
                start: slot.more,
                length: slot.class,
                pos: slot.data as u32,
            };
            if texts.is_text(text) {
                return Ok(text);
            }
            Err(Missing::Memory)
        }
        _ => Err(Missing::NoRule),
    }
}

/// A name of the text on top.
#[inline(always)]
pub fn text(function: OfText, stack: &[Slot], depth: usize, texts: &Texts) -> Result<Call, Missing>
    requires fits { depth ≤ length stack.now }
    ensures read { ReadAs result (text_name function) depth stack.now }
    ensures text { IfOk result (λ c. HasText texts.now c) }
{
    if depth < 1 {
        return Err(Missing::NoRule);
    }
    match text_in(stack[depth - 1], texts) {
        Ok(t) => Ok(Call::Text(function, t)),
        Err(missing) => Err(missing),
    }
}

/// A name of a text and the integer on top.
#[inline(always)]
pub fn text_and_integer(
    function: OfTextAndInteger,
    stack: &[Slot],
    depth: usize,
    texts: &Texts,
) -> Result<Call, Missing>
    requires fits { depth ≤ length stack.now }
    ensures read { ReadAs result (text_and_integer_name function) depth stack.now }
    ensures text { IfOk result (λ c. HasText texts.now c) }
{
    if depth < 2 {
        return Err(Missing::NoRule);
    }
    let at = depth - 2;
    let Some(i) = stack[at + 1].as_integer() else {
        return Err(Missing::NoRule);
    };
    match text_in(stack[at], texts) {
        Ok(t) => Ok(Call::TextAndInteger(function, t, i)),
        Err(missing) => Err(missing),
    }
}

/// `putchar` of a text and the character on top.
#[inline(always)]
pub fn text_and_character(stack: &[Slot], depth: usize, texts: &Texts) -> Result<Call, Missing>
    requires fits { depth ≤ length stack.now }
    ensures read { ReadAs result name.TextPutchar depth stack.now }
    ensures text { IfOk result (λ c. HasText texts.now c) }
{
    if depth < 2 {
        return Err(Missing::NoRule);
    }
    let at = depth - 2;
    let Some(c) = stack[at + 1].as_character() else {
        return Err(Missing::NoRule);
    };
    match text_in(stack[at], texts) {
        Ok(t) => Ok(Call::TextAndCharacter(t, c)),
        Err(missing) => Err(missing),
    }
}

/// `sub` of a text and the two integers on top.
#[inline(always)]
pub fn text_and_integers(stack: &[Slot], depth: usize, texts: &Texts) -> Result<Call, Missing>
    requires fits { depth ≤ length stack.now }
    ensures read { ReadAs result name.TextSub depth stack.now }
    ensures text { IfOk result (λ c. HasText texts.now c) }
{
    if depth < 3 {
        return Err(Missing::NoRule);
    }
    let at = depth - 3;
    let Some(n) = stack[at + 2].as_integer() else {
        return Err(Missing::NoRule);
    };
    let Some(i) = stack[at + 1].as_integer() else {
        return Err(Missing::NoRule);
    };
    match text_in(stack[at], texts) {
        Ok(t) => Ok(Call::TextAndIntegers(t, i, n)),
        Err(missing) => Err(missing),
    }
}
