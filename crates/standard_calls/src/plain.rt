//! Standard names of numbers and characters, which touch nothing but the stack.
ghost use Rattle.std.specs.Prelude.{◌≡◌, ◌≤◌, ◌∷◌, [], ℕ, List, length};
ghost use Rattle.sim_values.specs.Plain.{Character, Integer};
ghost use Rattle.sim_code.specs.Machine.{Frames};
ghost use Rattle.sim_code.specs.Outcome.{ArrayOf};
ghost use Rattle.frame_arena.specs.Arrays.{AllLeadArrays, RegionOf};
ghost use Rattle.frame_arena.specs.declared.frames.Frame.{Frame};
ghost use Rattle.frame_arena.specs.Frames.{AllLead};
ghost use Rattle.standard_calls.specs.declared.manner.Manner.TheVariants as manner;
ghost use Rattle.standard_calls.specs.Calls.{CameAs, IfCameMoved, IsScalarCame, QuietCame, ReadAs, character_name, integer_name, integers_name, name_of, operands};
ghost use Rattle.standard_calls.specs.Performed.{IfDepth, IfMoved, Parts, PerformedAs, held};
ghost use Rattle.standard_calls.specs.Quiet.{QuietPerformed, manner_of};

use crate::calls::{Call, OfCharacter, OfInteger, OfIntegers, Shape, operand_places, shape_of};
use crate::came::{Came, Missing, settle};
use crate::functions::{character_came, given, integer_came};
use crate::names::Performed;
use crate::reading::{character, integer, integers};
use frame_arena::Slot;
use sim_values::{
    Standard, absolute, character as character_of, digit, greater, letter, modulo, rank, remainder,
    sign, smaller,
};

// A name of an integer.
#[inline(always)]
fn of_integer(function: OfInteger, i: i64) -> Came
    requires plain { manner_of (integer_name function) ≡ manner.Plain }
    ensures came { (budget : ℕ) (p : Parts) → CameAs result budget (integer_name function) (Integer i ∷ []) p p }
    ensures scalar { IsScalarCame result }
    ensures quiet { QuietCame result }
    ensures unmoved { IfCameMoved result ⊥ }
{
    match function {
        OfInteger::Abs => integer_came(absolute(i)),
        OfInteger::Sign => given(Slot::integer(sign(i))),
        OfInteger::Char => character_came(character_of(i)),
        OfInteger::Isochar => character_came(character_of(i)),
        OfInteger::Blanks => unreachable!(),
        OfInteger::Intext => unreachable!(),
    }
}

// A name of two integers.
#[inline(always)]
fn of_integers(function: OfIntegers, i: i64, j: i64) -> Came
    requires plain { manner_of (integers_name function) ≡ manner.Plain }
    ensures came { (budget : ℕ) (p : Parts) → CameAs result budget (integers_name function) (Integer j ∷ Integer i ∷ []) p p }
    ensures scalar { IsScalarCame result }
    ensures quiet { QuietCame result }
    ensures unmoved { IfCameMoved result ⊥ }
{
    match function {
        OfIntegers::Min => given(Slot::integer(smaller(i, j))),
        OfIntegers::Max => given(Slot::integer(greater(i, j))),
        OfIntegers::Mod => integer_came(modulo(i, j)),
        OfIntegers::Rem => integer_came(remainder(i, j)),
        OfIntegers::Outint => unreachable!(),
    }
}

// A name of a character.
#[inline(always)]
fn of_character(function: OfCharacter, c: u8) -> Came
    requires plain { manner_of (character_name function) ≡ manner.Plain }
    ensures came { (budget : ℕ) (p : Parts) → CameAs result budget (character_name function) (Character c ∷ []) p p }
    ensures scalar { IsScalarCame result }
    ensures quiet { QuietCame result }
    ensures unmoved { IfCameMoved result ⊥ }
{
    match function {
        OfCharacter::Rank => given(Slot::integer(rank(c))),
        OfCharacter::Isorank => given(Slot::integer(rank(c))),
        OfCharacter::Digit => given(Slot::truth(digit(c))),
        OfCharacter::Letter => given(Slot::truth(letter(c))),
        OfCharacter::Outchar => unreachable!(),
    }
}

// What becomes of a name on its operands.
#[inline(always)]
fn come_plain(call: Call) -> Came
    requires plain { manner_of (name_of call) ≡ manner.Plain }
    ensures came { (budget : ℕ) (p : Parts) → CameAs result budget (name_of call) (operands call) p p }
    ensures scalar { IsScalarCame result }
    ensures quiet { QuietCame result }
    ensures unmoved { IfCameMoved result ⊥ }
{
    match call {
        Call::Nothing(_) => unreachable!(),
        Call::Integer(function, i) => of_integer(function, i),
        Call::Integers(function, i, j) => of_integers(function, i, j),
        Call::Character(function, c) => of_character(function, c),
        Call::Text(_, _) => unreachable!(),
        Call::TextAndInteger(_, _, _) => unreachable!(),
        Call::TextAndIntegers(_, _, _) => unreachable!(),
        Call::TextAndCharacter(_, _) => unreachable!(),
    }
}

// Performs a name on the operands that were read, and puts its value there.
#[inline(always)]
fn finish_plain(
    name: Standard,
    call: Result<Call, Missing>,
    stack: &mut [Slot],
    depth: usize,
) -> Performed
    requires read { ReadAs call name depth stack.old }
    requires plain { manner_of name ≡ manner.Plain }
    requires fits { depth ≤ length stack.old }
    ensures row { (budget : ℕ) (p : Parts) → PerformedAs result budget name (held depth stack.old) stack.new p p }
    ensures unmoved { IfMoved result ⊥ }
    ensures quiet { QuietPerformed result }
    ensures within { IfDepth result (λ n. n ≤ length stack.new) }
    ensures long { length stack.new ≡ length stack.old }
    ensures leads { (frames : List Frame) (m : Frames) → AllLead frames m stack.old → AllLead frames m stack.new }
    ensures leads_arrays { (regions : List RegionOf) (arrays : List ArrayOf) → AllLeadArrays regions arrays stack.old → AllLeadArrays regions arrays stack.new }
{
    match call {
        Ok(call) => {
            let at = depth.saturating_sub(operand_places(call));
            settle(stack, at, come_plain(call))
        }
        Err(missing) => missing.performed(),
    }
}

/// Performs a name of numbers and characters: it takes its operands from the stack, and puts its value there. It touches nothing else.
#[inline(always)]
pub fn perform_plain(name: Standard, stack: &mut [Slot], depth: usize) -> Performed
    requires plain { manner_of name ≡ manner.Plain }
    requires fits { depth ≤ length stack.old }
    ensures row { (budget : ℕ) (p : Parts) → PerformedAs result budget name (held depth stack.old) stack.new p p }
    ensures unmoved { IfMoved result ⊥ }
    ensures quiet { QuietPerformed result }
    ensures within { IfDepth result (λ n. n ≤ length stack.new) }
    ensures long { length stack.new ≡ length stack.old }
    ensures leads { (frames : List Frame) (m : Frames) → AllLead frames m stack.old → AllLead frames m stack.new }
    ensures leads_arrays { (regions : List RegionOf) (arrays : List ArrayOf) → AllLeadArrays regions arrays stack.old → AllLeadArrays regions arrays stack.new }
{
    match shape_of(name) {
        Shape::Nothing(_) => unreachable!(),
        Shape::Integer(function) => {
            let call = integer(function, stack, depth);
            finish_plain(name, call, stack, depth)
        }
        Shape::Integers(function) => {
            let call = integers(function, stack, depth);
            finish_plain(name, call, stack, depth)
        }
        Shape::Character(function) => {
            let call = character(function, stack, depth);
            finish_plain(name, call, stack, depth)
        }
        Shape::Text(_) => unreachable!(),
        Shape::TextAndInteger(_) => unreachable!(),
        Shape::TextAndIntegers => unreachable!(),
        Shape::TextAndCharacter => unreachable!(),
        Shape::Elsewhere => unreachable!(),
    }
}
