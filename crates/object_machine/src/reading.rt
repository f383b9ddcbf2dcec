//! What is at addresses, and operands of standard names, which may be addresses of texts.
ghost use Rattle.std.specs.Prelude.{◌≡◌, ◌-◌, ◌≤◌, ℕ, List, Option, Some, Err, IfOk, IfSome, length, false};
ghost use Rattle.sim_values.specs.Plain.{Text};
ghost use Rattle.sim_values.specs.Texts.{IsText};
ghost use Rattle.sim_code.specs.Events.{only_text};
ghost use Rattle.sim_code.specs.Machine.{Frames, Of, operand, place_in, plain};
ghost use Rattle.sim_code.specs.Outcome.{ArrayOf, World};
ghost use Rattle.frame_arena.specs.Arrays.{AllLeadArrays, ElementsLead, HoldsArrays, SlotLeadsArray, names_array};
ghost use Rattle.frame_arena.specs.Frames.{AllLead, Holds, SlotLeads, found_value, names_frame};
ghost use Rattle.frame_arena.specs.Slots.{count_of, value_of};
ghost use Rattle.object_machine.specs.Arrayed.{value_there};
ghost use Rattle.frame_arena.specs.declared.slot.Slot.{Slot as SlotOf};
ghost use Rattle.object_machine.specs.Operands.{IsNoTextIn, OperandsRead, Wherever, first_slot, read_as, text_there};
ghost use Rattle.object_machine.specs.Standing.{ports_in, ports_of};

use crate::images::image_slot;
use crate::machine::{Images, Storage};
use frame_arena::frames::{self, Frame};
use frame_arena::{Arrays, EMPTY, Slot, SlotKind};
use sim_values::{ArrayRef, FrameRef, TextVal};
use standard_calls::{Missing, text_in};

// The number in a reference.
#[inline(always)]
fn stamp_of(slot: Slot) -> u64
    ensures { result ≡ count_of slot.«data» }
{
    if slot.data < 0 { 0 } else { slot.data as u64 }
}

/// The value at an address, where there is one.
#[inline(always)]
pub fn value_at(
    frames: &[Frame],
    cells: &[Slot],
    arrays: &Arrays,
    images: &Images,
    address: Slot,
) -> Option<Slot>
    ensures value { (o : World) (m : Frames) (source : List ℕ) → Holds frames.now cells.now m → HoldsArrays arrays.now o.arrays → ports_in o.store ≡ ports_of images.now source → SlotLeads frames.now m address → SlotLeadsArray arrays.now.regions o.arrays address → found_value result ≡ value_there o m (place_in (value_of address)) }
    ensures leads { (m : Frames) → AllLead frames.now m cells.now → ElementsLead frames.now m arrays.now.regions → IfSome result (λ s. SlotLeads frames.now m s) }
    ensures leads_arrays { (list : List ArrayOf) → HoldsArrays arrays.now list → AllLeadArrays arrays.now.regions list cells.now → IfSome result (λ s. SlotLeadsArray arrays.now.regions list s) }
{
    let stamp = stamp_of(address);
    match address.kind {
        SlotKind::Cell => frames::cell(
            frames,
            cells,
            FrameRef {
                frame: address.name,
                stamp,
            },
            address.more as usize,
        ),
        SlotKind::Element => arrays.element(
            ArrayRef {
                array: address.name,
                stamp,
            },
            address.more,
        ),
        SlotKind::Image => image_slot(images, address.more),
        _ => None,
    }
}

// The same value, if it is a text.
#[inline(always)]
fn text_alone(slot: Slot) -> Option<Slot>
    ensures read { read_as result ≡ only_text (plain (value_of slot)) }
    ensures alone { IfSome result (λ s. (names_frame s.kind ≡ false) × (names_array s.kind ≡ false)) }
{
    match slot.kind {
        SlotKind::Text => Some(slot),
        _ => None,
    }
}

// The same value, if it is plain.
#[inline(always)]
fn plain_alone(slot: Slot) -> Option<Slot>
    ensures read { read_as result ≡ plain (value_of slot) }
    ensures same { IfSome result (λ s. s ≡ slot) }
{
    if slot.is_plain() {
        return Some(slot);
    }
    None
}

// The text at an address, if there is one.
#[inline(always)]
fn text_at(
    frames: &[Frame],
    cells: &[Slot],
    arrays: &Arrays,
    images: &Images,
    address: Slot,
) -> Option<Slot>
    ensures value { (o : World) (m : Frames) (source : List ℕ) → Holds frames.now cells.now m → HoldsArrays arrays.now o.arrays → ports_in o.store ≡ ports_of images.now source → SlotLeads frames.now m address → SlotLeadsArray arrays.now.regions o.arrays address → read_as result ≡ text_there (value_there o m (place_in (value_of address))) }
    ensures alone { IfSome result (λ s. (names_frame s.kind ≡ false) × (names_array s.kind ≡ false)) }
{
    let Some(value) = value_at(frames, cells, arrays, images, address) else {
        return None;
    };
    text_alone(value)
}

// What an operand of a standard name is: a plain value, or the text at an address.
#[inline(always)]
fn read_operand(
    frames: &[Frame],
    cells: &[Slot],
    arrays: &Arrays,
    images: &Images,
    slot: Slot,
) -> Option<Slot>
    ensures value { (o : World) (m : Frames) (source : List ℕ) → Holds frames.now cells.now m → HoldsArrays arrays.now o.arrays → ports_in o.store ≡ ports_of images.now source → SlotLeads frames.now m slot → SlotLeadsArray arrays.now.regions o.arrays slot → operand o m (value_of slot) ≡ read_as result }
    ensures leads { (m : Frames) → SlotLeads frames.now m slot → IfSome result (λ s. SlotLeads frames.now m s) }
    ensures leads_arrays { (list : List ArrayOf) → SlotLeadsArray arrays.now.regions list slot → IfSome result (λ s. SlotLeadsArray arrays.now.regions list s) }
{
    match slot.kind {
        SlotKind::Cell => text_at(frames, cells, arrays, images, slot),
        SlotKind::Element => text_at(frames, cells, arrays, images, slot),
        SlotKind::Image => text_at(frames, cells, arrays, images, slot),
        _ => plain_alone(slot),
    }
}

// The text in a cell.
#[inline(always)]
fn text_in_cell(storage: &Storage, slot: Slot) -> Result<TextVal, Missing>
    requires cell { slot.kind ≡ SlotKind.Cell }
    ensures text { IfOk result (λ t. IsText storage.now.texts t × ((s : SlotOf) × (value_of s ≡ Of (Text t)))) }
    ensures is { IfOk result (λ t. Wherever storage.now slot (λ q. q ≡ Some (Text t))) }
    ensures other { result ≡ Err Missing.NoRule → Wherever storage.now slot IsNoTextIn }
{
    let frame = FrameRef {
        frame: slot.name,
        stamp: stamp_of(slot),
    };
    let Some(found) = frames::cell(&storage.frames, &storage.cells, frame, slot.more as usize)
    else {
        return Err(Missing::NoRule);
    };
    text_in(found, &storage.texts)
}

// A text as it stands.
#[inline(always)]
fn text_itself(storage: &Storage, slot: Slot) -> Result<TextVal, Missing>
    requires text { slot.kind ≡ SlotKind.Text }
    ensures text { IfOk result (λ t. IsText storage.now.texts t × ((s : SlotOf) × (value_of s ≡ Of (Text t)))) }
    ensures is { IfOk result (λ t. Wherever storage.now slot (λ q. q ≡ Some (Text t))) }
    ensures other { result ≡ Err Missing.NoRule → Wherever storage.now slot IsNoTextIn }
{
    text_in(slot, &storage.texts)
}

// The text that an operand is, as a function of its own.
#[inline(never)]
fn text_apart(storage: &Storage, slot: &Slot) -> Result<TextVal, Missing>
    ensures text { IfOk result (λ t. IsText storage.now.texts t × ((s : SlotOf) × (value_of s ≡ Of (Text t)))) }
    ensures is { IfOk result (λ t. Wherever storage.now slot.now (λ q. q ≡ Some (Text t))) }
    ensures other { result ≡ Err Missing.NoRule → Wherever storage.now slot.now IsNoTextIn }
{
    let Some(found) = read_operand(
        &storage.frames,
        &storage.cells,
        &storage.arrays,
        &storage.image,
        *slot,
    ) else {
        return Err(Missing::NoRule);
    };
    text_in(found, &storage.texts)
}

/// The text that an operand is: its own, or the one at an address.
#[inline(always)]
pub fn text_operand(storage: &Storage, slot: &Slot) -> Result<TextVal, Missing>
    ensures text { IfOk result (λ t. IsText storage.now.texts t × ((s : SlotOf) × (value_of s ≡ Of (Text t)))) }
    ensures is { IfOk result (λ t. Wherever storage.now slot.now (λ q. q ≡ Some (Text t))) }
    ensures other { result ≡ Err Missing.NoRule → Wherever storage.now slot.now IsNoTextIn }
{
    match slot.kind {
        SlotKind::Text => text_itself(storage, *slot),
        SlotKind::Cell => text_in_cell(storage, *slot),
        _ => text_apart(storage, slot),
    }
}

/// Puts what they are in the place of operands, from the first one to the end; one that is plain stays. It answers whether they all are
/// something.
#[inline(always)]
pub fn read_operands(
    frames: &[Frame],
    cells: &[Slot],
    arrays: &Arrays,
    images: &Images,
    stack: &mut [Slot],
    first: usize,
    end: usize,
) -> bool
    requires there { end ≤ length stack.old }
    requires begins { first ≤ end }
    ensures long { length stack.new ≡ length stack.old }
    ensures leads { (m : Frames) → AllLead frames.now m stack.old → AllLead frames.now m stack.new }
    ensures leads_arrays { (list : List ArrayOf) → AllLeadArrays arrays.now.regions list stack.old → AllLeadArrays arrays.now.regions list stack.new }
    ensures read { (o : World) (m : Frames) (source : List ℕ) → Holds frames.now cells.now m → HoldsArrays arrays.now o.arrays → ports_in o.store ≡ ports_of images.now source → AllLead frames.now m stack.old → AllLeadArrays arrays.now.regions o.arrays stack.old →
        OperandsRead result o m first end stack.old stack.new }
{
    for at in first..end {
        if stack[at].is_plain() {
            continue;
        }
        let Some(slot) = read_operand(frames, cells, arrays, images, stack[at]) else {
            return false;
        };
        stack[at] = slot;
    }
    true
}

/// The first of as many last values, or no value where there is none.
#[inline(always)]
pub fn first_operand(stack: &[Slot], depth: usize, count: usize) -> Slot
    requires fits { depth ≤ length stack.now }
    requires deep { count ≤ depth }
    ensures { result ≡ first_slot count depth stack.now }
{
    if count == 0 {
        return EMPTY;
    }
    stack[depth - count]
}
