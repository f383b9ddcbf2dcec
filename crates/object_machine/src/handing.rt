//! Arrays that go over to a procedure, an object or a prefixed block.
ghost use Rattle.std.specs.Prelude.{◌≡◌, ◌+◌, ◌≤◌, ◌∷◌, [], List, length};
ghost use Rattle.sim_code.specs.Arrays.{handed_over};
ghost use Rattle.sim_code.specs.Machine.{Frames, arrays_among, arrays_by_value, is_array_by_value, with_array_of};
ghost use Rattle.frame_arena.specs.Slots.{value_of};
ghost use Rattle.sim_code.specs.Outcome.{World};
ghost use Rattle.frame_arena.specs.Arrays.{AllLeadArrays, ElementsLead, HoldsArrays, KeepLeading, SlotLeadsArray};
ghost use Rattle.frame_arena.specs.declared.frames.Frame.{Frame};
ghost use Rattle.frame_arena.specs.Stacks.{values_from};

use frame_arena::{Arrays, Slot};
use sim_code::{CodeFormal, CodeMode, FormalShape};

// Whether a formal is an array by value.
#[inline(always)]
fn takes_array(formal: CodeFormal) -> bool
    ensures { result ≡ is_array_by_value formal }
{
    match (formal.mode, formal.shape) {
        (CodeMode::Value, FormalShape::Array) => true,
        _ => false,
    }
}

/// The arrays among the actual parameters that a procedure takes by value go over to its frame.
#[inline(always)]
pub fn hand_over(
    arrays: &mut Arrays,
    formals: &[CodeFormal],
    stack: &[Slot],
    at: usize,
    count: usize,
    owner: u64,
)
    requires within { at + count ≤ length stack.now }
    ensures holds { (o : World) → HoldsArrays arrays.old o.arrays → AllLeadArrays arrays.old.regions o.arrays stack.now → HoldsArrays arrays.new (handed_over owner (arrays_by_value formals.now (values_from stack.now at count)) o).arrays }
    ensures leads { (o : World) → HoldsArrays arrays.old o.arrays → AllLeadArrays arrays.old.regions o.arrays stack.now → KeepLeading arrays.old o.arrays arrays.new (handed_over owner (arrays_by_value formals.now (values_from stack.now at count)) o).arrays }
    ensures elements { (frames : List Frame) (m : Frames) → ElementsLead frames m arrays.old.regions → ElementsLead frames m arrays.new.regions }
{
    let taken = count.min(formals.len());
    for place in 0..taken {
        hand_over_at(arrays, formals[place], stack[at + place], owner);
    }
}

// The array in a slot goes over, if it is one that a formal takes by value.
#[inline(always)]
fn hand_over_at(arrays: &mut Arrays, formal: CodeFormal, slot: Slot, owner: u64)
    ensures holds { (o : World) → HoldsArrays arrays.old o.arrays → SlotLeadsArray arrays.old.regions o.arrays slot → HoldsArrays arrays.new (handed_over owner (arrays_by_value (formal ∷ []) (value_of slot ∷ [])) o).arrays }
    ensures leads { (o : World) → HoldsArrays arrays.old o.arrays → SlotLeadsArray arrays.old.regions o.arrays slot → KeepLeading arrays.old o.arrays arrays.new (handed_over owner (arrays_by_value (formal ∷ []) (value_of slot ∷ [])) o).arrays }
    ensures elements { (frames : List Frame) (m : Frames) → ElementsLead frames m arrays.old.regions → ElementsLead frames m arrays.new.regions }
{
    if !takes_array(formal) {
        return;
    }
    hand_over_slot(arrays, slot, owner);
}

/// The arrays among the actual parameters go over to an object or a prefixed block.
#[inline(always)]
pub fn hand_over_all(arrays: &mut Arrays, stack: &[Slot], at: usize, count: usize, owner: u64)
    requires within { at + count ≤ length stack.now }
    ensures holds { (o : World) → HoldsArrays arrays.old o.arrays → AllLeadArrays arrays.old.regions o.arrays stack.now → HoldsArrays arrays.new (handed_over owner (arrays_among (values_from stack.now at count)) o).arrays }
    ensures leads { (o : World) → HoldsArrays arrays.old o.arrays → AllLeadArrays arrays.old.regions o.arrays stack.now → KeepLeading arrays.old o.arrays arrays.new (handed_over owner (arrays_among (values_from stack.now at count)) o).arrays }
    ensures elements { (frames : List Frame) (m : Frames) → ElementsLead frames m arrays.old.regions → ElementsLead frames m arrays.new.regions }
{
    for place in 0..count {
        hand_over_slot(arrays, stack[at + place], owner);
    }
}

// The array in a slot goes over, if there is one.
#[inline(always)]
fn hand_over_slot(arrays: &mut Arrays, slot: Slot, owner: u64)
    ensures holds { (o : World) → HoldsArrays arrays.old o.arrays → SlotLeadsArray arrays.old.regions o.arrays slot → HoldsArrays arrays.new (handed_over owner (with_array_of (value_of slot) []) o).arrays }
    ensures leads { (o : World) → HoldsArrays arrays.old o.arrays → SlotLeadsArray arrays.old.regions o.arrays slot → KeepLeading arrays.old o.arrays arrays.new (handed_over owner (with_array_of (value_of slot) []) o).arrays }
    ensures elements { (frames : List Frame) (m : Frames) → ElementsLead frames m arrays.old.regions → ElementsLead frames m arrays.new.regions }
{
    let Some(array) = slot.as_array() else {
        return;
    };
    arrays.hand_over(array, owner);
}
