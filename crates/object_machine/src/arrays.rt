//! Rows on arrays, and on what addresses lead to.
ghost use Rattle.std.specs.Prelude.{◌≡◌, ℕ, [], ◌*◌, ◌-◌, IfOk, ◌+◌, ◌<◌, ◌≤◌, ◌∷◌, ◌^◌, List, Option, IfSome, length, nat_lt};
ghost use Rattle.sim_code.specs.Arrays.{copying_array, finding_element, keeping_array, making_array, pairs};
ghost use Rattle.sim_code.specs.Events.{having, pop_integers, popping, when};
ghost use Rattle.sim_code.specs.Instances.{ElementPlace};
ghost use Rattle.sim_code.specs.Machine.{Address, ArrayValue, Frames, pushing, array_in, index as index_of, on, place_in, plain, value_at as value_at_place};
ghost use Rattle.sim_code.specs.Outcome.{World};
ghost use Rattle.sim_code.specs.Rows.{element_kind, row};
ghost use Rattle.sim_code.specs.Code.{CodeOf};
ghost use Rattle.sim_code.specs.declared.instr.Instr.{Instr};
ghost use Rattle.object_machine.specs.Placing.{LeadsFrom, placed_in};
ghost use Rattle.frame_arena.specs.Arrays.{AllLeadArrays, ElementsLead, HoldsArrays, SlotLeadsArray};
ghost use Rattle.frame_arena.specs.Frames.{AllLead, Holds, SlotLeads, found_value};
ghost use Rattle.frame_arena.specs.Slots.{count_of, value_of};
ghost use Rattle.sim_code.specs.Outcome.{ArrayOf};
ghost use Rattle.frame_arena.specs.Stacks.{integers_from, slot_at, values_of};
ghost use Rattle.object_machine.specs.Arrayed.{value_there};
ghost use Rattle.object_machine.specs.Placed.{Stays};
ghost use Rattle.object_machine.specs.Standing.{Advances, HasImages, Leaves, Obeys, Outside, Stands, Untouched, activation_at, below_of};
ghost use Rattle.sim_base.specs.declared.limits.Limits.{Limits as LimitsOf};
ghost use Rattle.object_machine.specs.declared.machine.Storage.{Storage as StorageOf};

use crate::cells::unqualified;
use crate::constants::{element, index};
use crate::machine::{Activation, Flow, Images, Registers, Storage};
use crate::operands::{settle, settle_applied};
use crate::placing::{Placing, is_image, place};
use crate::reading::value_at;
use frame_arena::frames::Frame;
use frame_arena::words::take_words;
use frame_arena::{Arrays, Slot, stack};
use sim_base::Limits;
use sim_values::words_array;
use std::alloc::{AllocError, Global};

/// The address of an element with a class, from the array and as many subscripts.
#[inline(always)]
pub fn element_address(
    arrays: &Arrays,
    stack: &mut [Slot],
    regs: &mut Registers,
    count: i64,
    class: u32,
) -> Flow
    requires fits { regs.old.depth ≤ length stack.old }
    requires short { regs.old.pc + 1 < 2 ^ 64 }
    ensures fits { regs.new.depth ≤ length stack.new }
    ensures stays { Stays regs.old regs.new }
    ensures next { Advances result regs.old regs.new }
    ensures row { (l : Limits) (line : ℕ) (p : Storage) (below : List Activation) (now : Outside) → p.arrays ≡ arrays.now →
        Obeys result l line (λ o m a b. index_of count o (λ n. finding_element plain array_in n line a.stack o (λ array k st. on o m a (Address (ElementPlace array k class) ∷ st) b))) p p regs.old regs.new stack.old stack.new below below now now }
{
    let Some(number) = index(count) else {
        return Flow::NoRule;
    };
    let applied = arrays.find_element(stack, regs.depth, number, class);
    settle_applied(regs, applied)
}

/// The address of an element, from the array and as many subscripts, where no class is named.
#[inline(always)]
pub fn elem(
    arrays: &Arrays,
    stack: &mut [Slot],
    regs: &mut Registers,
    count: i64,
    class: i64,
) -> Option<Flow>
    requires fits { regs.old.depth ≤ length stack.old }
    requires short { regs.old.pc + 1 < 2 ^ 64 }
    ensures fits { regs.new.depth ≤ length stack.new }
    ensures other { (p : Storage) → Untouched result p p regs.old regs.new stack.old stack.new }
    ensures next { IfSome result (λ f. Advances f regs.old regs.new) }
    ensures row { IfSome result (λ f. (code : CodeOf) (l : Limits) (line : ℕ) (p : Storage) (below : List Activation) (now : Outside) → p.arrays ≡ arrays.now →
        Obeys f l line (λ o m a b. row code l o m a b line (Instr.Elem count class)) p p regs.old regs.new stack.old stack.new below below now now) }
{
    if !unqualified(class) {
        return None;
    }
    Some(element_address(arrays, stack, regs, count, 0))
}

/// Puts the value at an address in its place.
#[inline(always)]
pub fn fetch(
    frames: &[Frame],
    cells: &[Slot],
    arrays: &Arrays,
    images: &Images,
    stack: &mut [Slot],
    regs: &mut Registers,
) -> Flow
    requires fits { regs.old.depth ≤ length stack.old }
    requires short { regs.old.pc + 1 < 2 ^ 64 }
    ensures fits { regs.new.depth ≤ length stack.new }
    ensures stays { Stays regs.old regs.new }
    ensures next { Advances result regs.old regs.new }
    ensures row { (l : Limits) (line : ℕ) (p : Storage) (below : List Activation) (now : Outside) → p.frames.items ≡ frames.now → p.cells.items ≡ cells.now → p.arrays ≡ arrays.now → p.image ≡ images.now →
        Obeys result l line (λ o m a b. popping a.stack o (λ v st. having (place_in v) o (λ place. having (value_at_place o m place) o (λ v. on o m a (v ∷ st) b)))) p p regs.old regs.new stack.old stack.new below below now now }
{
    let Some(at) = stack::pop(stack, regs.depth) else {
        return Flow::NoRule;
    };
    let Some(value) = value_at(frames, cells, arrays, images, stack[at]) else {
        return Flow::NoRule;
    };
    stack[at] = value;
    regs.pc += 1;
    Flow::On
}

/// Keeps the array on top.
#[inline(always)]
pub fn keep(arrays: &mut Arrays, stack: &[Slot], regs: &mut Registers) -> Flow
    requires fits { regs.old.depth ≤ length stack.now }
    requires short { regs.old.pc + 1 < 2 ^ 64 }
    ensures depth { regs.new.depth ≡ regs.old.depth }
    ensures row { (l : Limits) (line : ℕ) (p p2 : Storage) (below : List Activation) (now : Outside) → p.arrays ≡ arrays.old → p2 ≡ record p { arrays = arrays.new } →
        Obeys result l line (λ o m a b. popping a.stack o (λ v st. having (array_in v) o (λ array. keeping_array array o (λ p. on p m a (v ∷ st) b)))) p p2 regs.old regs.new stack.now stack.now below below now now }
{
    let Some(at) = stack::pop(stack, regs.depth) else {
        return Flow::NoRule;
    };
    let Some(array) = stack[at].as_array() else {
        return Flow::NoRule;
    };
    if arrays.keep(array) {
        regs.pc += 1;
        return Flow::On;
    }
    Flow::NoRule
}

// The bounds of so many dimensions, of which the lower and the upper ones stand in a stack from a place on.
fn bounds_of(
    alloc: Global,
    stack: &[Slot],
    first: usize,
    count: usize,
) -> Result<Vec<(i64, i64)>, AllocError>
    requires there { first + 2 * count ≤ length stack.now }
    ensures { IfOk result (λ v. v.items ≡ pairs (integers_from stack.now first (2 * count))) }
{
    let mut bounds = Vec::new(alloc);
    for dimension in 0..count {
        let at = first + 2 * dimension;
        bounds.push((stack[at].data, stack[at + 1].data))?;
    }
    Ok(bounds)
}

/// A new array with the bounds on top, of one dimension at least.
pub fn array(
    limits: &Limits,
    storage: &mut Storage,
    stack: &mut [Slot],
    regs: &mut Registers,
    kind: i64,
    count: i64,
) -> Flow
    requires fits { regs.old.depth ≤ length stack.old }
    requires short { regs.old.pc + 1 < 2 ^ 64 }
    ensures fits { regs.new.depth ≤ length stack.new }
    ensures texts { storage.new.texts ≡ storage.old.texts }
    ensures image { storage.new.image ≡ storage.old.image }
    ensures row { (line : ℕ) (below : List Activation) (now : Outside) →
        Obeys result limits.now line (λ o m a b. having (element_kind kind) o (λ k. index_of count o (λ n. when (nat_lt 0 n) o (pop_integers plain (2 * n) [] a.stack o (λ bounds st.
        making_array limits.now line a.home k (pairs bounds) o (λ array w. pushing a.room st (ArrayValue array) w (λ st. on w m a st b))))))) storage.old storage.new regs.old regs.new stack.old stack.new below below now now }
{
    let Some(kind) = element(kind) else {
        return Flow::NoRule;
    };
    let Some(count) = index(count) else {
        return Flow::NoRule;
    };
    if count == 0 {
        return Flow::NoRule;
    }
    let Some(first) = stack::pop_integers(stack, regs.depth, 2 * count) else {
        return Flow::NoRule;
    };
    let alloc = *storage.frames.allocator();
    let Ok(bounds) = bounds_of(alloc, stack, first, count) else {
        return Flow::Memory;
    };
    let wanted = match words_array(&bounds) {
        Ok(wanted) => wanted,
        Err(error) => return Flow::Fault(error),
    };
    storage.wanted = wanted;
    let budget = u64::from(limits.storage);
    let Some(words) = take_words(budget, storage.words, wanted) else {
        return Flow::Exhausted;
    };
    let Ok(array) = storage
        .arrays
        .make(alloc, regs.home.stamp, kind, bounds, wanted)
    else {
        return Flow::Memory;
    };
    storage.words = words;
    let depth = stack::push(stack, first, Slot::array(array));
    settle(regs, depth)
}

/// A copy of the array on top, in its place.
pub fn copy_array(
    limits: &Limits,
    storage: &mut Storage,
    stack: &mut [Slot],
    regs: &mut Registers,
) -> Flow
    requires fits { regs.old.depth ≤ length stack.old }
    requires short { regs.old.pc + 1 < 2 ^ 64 }
    ensures fits { regs.new.depth ≤ length stack.new }
    ensures texts { storage.new.texts ≡ storage.old.texts }
    ensures image { storage.new.image ≡ storage.old.image }
    ensures row { (line : ℕ) (below : List Activation) (now : Outside) →
        Obeys result limits.now line (λ o m a b. popping a.stack o (λ v st. having (array_in v) o (λ array. copying_array limits.now line a.home array o (λ copy w. on w m a (ArrayValue copy ∷ st) b)))) storage.old storage.new regs.old regs.new stack.old stack.new below below now now }
{
    let Some(at) = stack::pop(stack, regs.depth) else {
        return Flow::NoRule;
    };
    let Some(from) = stack[at].as_array() else {
        return Flow::NoRule;
    };
    let Some(place) = storage.arrays.find(from) else {
        return Flow::NoRule;
    };
    let Some(wanted) = storage.arrays.words(from) else {
        return Flow::NoRule;
    };
    storage.wanted = wanted;
    let budget = u64::from(limits.storage);
    let Some(words) = take_words(budget, storage.words, wanted) else {
        return Flow::Exhausted;
    };
    let alloc = *storage.frames.allocator();
    let Ok(array) = storage.arrays.copy(alloc, place, regs.home.stamp) else {
        return Flow::Memory;
    };
    storage.words = words;
    stack[at] = Slot::array(array);
    regs.pc += 1;
    Flow::On
}

/// Puts a value where an address leads, and goes on with the values below a place.
#[inline(always)]
pub fn put_down(
    storage: &mut Storage,
    address: Slot,
    value: Slot,
    at: usize,
    regs: &mut Registers,
) -> Flow
    requires short { regs.old.pc + 1 < 2 ^ 64 }
    ensures fits { (room : ℕ) → regs.old.depth ≤ room → at ≤ room → regs.new.depth ≤ room }
    ensures stays { Stays regs.old regs.new }
    ensures valid { HasImages storage.old.texts storage.old.image → HasImages storage.new.texts storage.new.image }
    ensures frames { storage.new.frames ≡ storage.old.frames }
    ensures next { Advances result regs.old regs.new }
    ensures row { (l : LimitsOf) (line : ℕ) (stack : List Slot) (below : List Activation) (before : Option (List ℕ)) (now : Outside) (o : World) (m : Frames) →
        Stands l storage.old regs.old stack below before now o m → LeadsFrom storage.old o m address → LeadsFrom storage.old o m value →
        Leaves result l line storage.new regs.new stack below before now (placed_in o m address value (λ o m. on o m (activation_at regs.old stack) (values_of at stack) (below_of below))) }
{
    match place(storage, address, value) {
        Placing::Done => {
            regs.depth = at;
            regs.pc += 1;
            Flow::On
        }
        Placing::NoRule => Flow::NoRule,
        Placing::Memory => Flow::Memory,
    }
}

/// Puts a value where an address below it leads, which has no class.
#[inline(always)]
pub fn put(storage: &mut Storage, stack: &[Slot], regs: &mut Registers) -> Option<Flow>
    requires fits { regs.old.depth ≤ length stack.now }
    requires short { regs.old.pc + 1 < 2 ^ 64 }
    ensures fits { regs.new.depth ≤ length stack.now }
    ensures stays { Stays regs.old regs.new }
    ensures valid { HasImages storage.old.texts storage.old.image → HasImages storage.new.texts storage.new.image }
    ensures frames { storage.new.frames ≡ storage.old.frames }
    ensures other { Untouched result storage.old storage.new regs.old regs.new stack.now stack.now }
    ensures next { IfSome result (λ f. Advances f regs.old regs.new) }
    ensures row { IfSome result (λ f. (code : CodeOf) (l : LimitsOf) (line : ℕ) (below : List Activation) (now : Outside) →
        Obeys f l line (λ o m a b. row code l o m a b line Instr.Put) storage.old storage.new regs.old regs.new stack.now stack.now below below now now) }
{
    if regs.depth < 2 {
        return Some(Flow::NoRule);
    }
    let at = regs.depth - 2;
    if is_image(stack[at]) {
        return Some(Flow::NoRule);
    }
    if stack[at].class != 0 {
        return None;
    }
    Some(put_down(storage, stack[at], stack[at + 1], at, regs))
}
