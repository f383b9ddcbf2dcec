//! The operand stack of a frame, as a window on the slots of all: as long as its room, with the last value behind the others. `depth`
//! is the number of its values.
ghost use Rattle.std.specs.Prelude.{◌≡◌, ℕ, ℤ, Bool, ◌+◌, ◌-◌, ◌<◌, ◌≤◌, List, [], length, IfSome, None};
ghost use Rattle.sim_values.specs.Plain.{Plain};
ghost use Rattle.sim_code.specs.Outcome.{World, Run};
ghost use Rattle.sim_code.specs.Events.{popping, pop_plain, pop_truth, pop_integers, having};
ghost use Rattle.sim_code.specs.Machine.{Machine, Value, plain, pushing};
ghost use Rattle.frame_arena.specs.Slots.{value_of};
ghost use Rattle.frame_arena.specs.Stacks.{values_of, with_values, with_top, with_truth, with_integers};
ghost use Rattle.sim_values.specs.declared.operators.Calculation.{Calculation};
ghost use Rattle.sim_values.specs.declared.operators.Dyadic.{Dyadic};
ghost use Rattle.sim_values.specs.Operators.{two_of};
ghost use Rattle.sim_values.specs.Plain.{Integer, Plain};
ghost use Rattle.sim_code.specs.Events.{answering, applying_two};
ghost use Rattle.frame_arena.specs.Stacks.{slot_at, with_two, with_many};
ghost use Rattle.std.specs.Prelude.{◌∷◌};
ghost use Rattle.sim_code.specs.Outcome.{ArrayOf};
ghost use Rattle.sim_code.specs.Events.{pop_many};
ghost use Rattle.sim_code.specs.Machine.{Frames};
ghost use Rattle.frame_arena.specs.declared.frames.Frame.{Frame};
ghost use Rattle.frame_arena.specs.Frames.{AllLead, SlotLeads};
ghost use Rattle.frame_arena.specs.Arrays.{AllLeadArrays, RegionOf, SlotLeadsArray};

use crate::slot::{Slot, SlotKind};

/// Puts a value behind the others where there is room, and answers how many there are then.
/// Puts a value behind the others where there is room, and answers how many there are then.
#[inline(always)]
pub fn push(stack: &mut [Slot], depth: usize, slot: Slot) -> Option<usize>
    requires fits { depth ≤ length stack.old }
    ensures deeper { IfSome result (λ n. n ≡ depth + 1) }
    ensures within { IfSome result (λ n. n ≤ length stack.new) }
    ensures same { result ≡ None → stack.new ≡ stack.old }
    ensures long { length stack.new ≡ length stack.old }
    ensures leads { (frames : List Frame) (m : Frames) → AllLead frames m stack.old → SlotLeads frames m slot → AllLead frames m stack.new }
    ensures leads_arrays { (regions : List RegionOf) (arrays : List ArrayOf) → AllLeadArrays regions arrays stack.old → SlotLeadsArray regions arrays slot → AllLeadArrays regions arrays stack.new }
    ensures row { (o : World) (go : List Value → Run Machine) → pushing (length stack.old) (values_of depth stack.old) (value_of slot) o go ≡ with_values result stack.new o go }
{
    if depth < stack.len() {
        stack[depth] = slot;
        return Some(depth + 1);
    }
    None
}

/// The place of the last value, which is then the number of the others.
#[inline(always)]
pub fn pop(stack: &[Slot], depth: usize) -> Option<usize>
    requires fits { depth ≤ length stack.now }
    ensures shallower { IfSome result (λ at. at + 1 ≡ depth) }
    ensures row { (o : World) (go : Value → List Value → Run Machine) → popping (values_of depth stack.now) o go ≡ with_top result stack.now o go }
{
    if depth == 0 {
        return None;
    }
    Some(depth - 1)
}

/// The truth value on top.
#[inline(always)]
pub fn pop_truth(stack: &[Slot], depth: usize) -> Option<bool>
    requires fits { depth ≤ length stack.now }
    ensures some { IfSome result (λ b. 0 < depth) }
    ensures row { (o : World) (go : Bool → List Value → Run Machine) → pop_truth plain (values_of depth stack.now) o go ≡ with_truth result (values_of (depth - 1) stack.now) o go }
{
    if depth < 1 {
        return None;
    }
    let at = depth - 1;
    match stack[at].kind {
        SlotKind::Truth => {
            if stack[at].data == 0 {
                return Some(false);
            }
            Some(true)
        }
        _ => None,
    }
}

/// The place of the first of as many integers on top.
#[inline(always)]
pub fn pop_integers(stack: &[Slot], depth: usize, count: usize) -> Option<usize>
    requires fits { depth ≤ length stack.now }
    ensures places { IfSome result (λ at. at + count ≡ depth) }
    ensures row { (o : World) (go : List ℤ → List Value → Run Machine) → pop_integers plain count [] (values_of depth stack.now) o go ≡ with_integers result count stack.now o go }
{
    let mut at = depth;
    for _ in 0..count {
        if at < 1 {
            return None;
        }
        at -= 1;
        match stack[at].kind {
            SlotKind::Integer => {}
            _ => return None,
        }
    }
    Some(at)
}

/// The place of the first of two integers on top, which an operator of arithmetic works on.
#[inline(always)]
pub fn two_integers(stack: &[Slot], depth: usize) -> Option<usize>
    requires fits { depth ≤ length stack.now }
    ensures places { IfSome result (λ at. at + 2 ≡ depth) }
    ensures kinds { IfSome result (λ at. ((slot_at stack.now at).kind ≡ SlotKind.Integer) × ((slot_at stack.now (at + 1)).kind ≡ SlotKind.Integer)) }
    ensures row { (op : Calculation) (line : ℕ) (o : World) (go : Plain → List Value → Run Machine) → applying_two plain (Dyadic.Calculate op) line (values_of depth stack.now) o go ≡ with_two result stack.now o (λ x y rest. answering line (two_of (Dyadic.Calculate op) o.store.frames (Integer x) (Integer y)) o (λ z. go z rest)) }
{
    if depth < 2 {
        return None;
    }
    let at = depth - 2;
    match (stack[at + 1].kind, stack[at].kind) {
        (SlotKind::Integer, SlotKind::Integer) => Some(at),
        _ => None,
    }
}

/// Puts the last value behind the others once more where there is room.
#[inline(always)]
pub fn dup(stack: &mut [Slot], depth: usize) -> Option<usize>
    requires fits { depth ≤ length stack.old }
    ensures within { IfSome result (λ n. n ≤ length stack.new) }
    ensures long { length stack.new ≡ length stack.old }
    ensures leads { (frames : List Frame) (m : Frames) → AllLead frames m stack.old → AllLead frames m stack.new }
    ensures leads_arrays { (regions : List RegionOf) (arrays : List ArrayOf) → AllLeadArrays regions arrays stack.old → AllLeadArrays regions arrays stack.new }
    ensures row { (o : World) (go : List Value → Run Machine) → popping (values_of depth stack.old) o (λ v rest. pushing (length stack.old) (values_of depth stack.old) v o go) ≡ with_values result stack.new o go }
{
    let at = pop(stack, depth)?;
    let slot = stack[at];
    push(stack, depth, slot)
}

/// Exchanges the two last values.
#[inline(always)]
pub fn swap(stack: &mut [Slot], depth: usize) -> Option<usize>
    requires fits { depth ≤ length stack.old }
    ensures within { IfSome result (λ n. n ≤ length stack.new) }
    ensures long { length stack.new ≡ length stack.old }
    ensures leads { (frames : List Frame) (m : Frames) → AllLead frames m stack.old → AllLead frames m stack.new }
    ensures leads_arrays { (regions : List RegionOf) (arrays : List ArrayOf) → AllLeadArrays regions arrays stack.old → AllLeadArrays regions arrays stack.new }
    ensures row { (o : World) (go : List Value → Run Machine) → popping (values_of depth stack.old) o (λ y rest. popping rest o (λ x rest. go (x ∷ y ∷ rest))) ≡ with_values result stack.new o go }
{
    if depth < 2 {
        return None;
    }
    let below = stack[depth - 2];
    let top = stack[depth - 1];
    stack[depth - 2] = top;
    stack[depth - 1] = below;
    Some(depth)
}

/// The place of the first of as many last values.
#[inline(always)]
pub fn pop_values(stack: &[Slot], depth: usize, count: usize) -> Option<usize>
    requires fits { depth ≤ length stack.now }
    ensures places { IfSome result (λ at. at + count ≡ depth) }
    ensures row { (o : World) (go : List Value → List Value → Run Machine) → pop_many count [] (values_of depth stack.now) o go ≡ with_many result count stack.now o go }
{
    if depth < count {
        return None;
    }
    Some(depth - count)
}
