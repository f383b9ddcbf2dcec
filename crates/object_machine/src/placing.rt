//! Values that are put where an address leads.
ghost use Rattle.std.specs.Prelude.{◌≡◌, ℕ, ◌+◌, ◌≤◌, List, None, Option, Some, false, true};
ghost use Rattle.sim_base.specs.declared.limits.Limits.{Limits};
ghost use Rattle.sim_values.specs.Texts.{Frame as TextFrame};
ghost use Rattle.sim_code.specs.Machine.{Frames, place_in, variable_in};
ghost use Rattle.sim_code.specs.Outcome.{World};
ghost use Rattle.object_machine.specs.declared.machine.Activation.{Activation};
ghost use Rattle.object_machine.specs.declared.machine.Registers.{Registers};
ghost use Rattle.object_machine.specs.declared.machine.Storage.{Storage as StorageOf};
ghost use Rattle.frame_arena.specs.Slots.{count_of, value_of};
ghost use Rattle.frame_arena.specs.declared.slot.Slot.{Slot as SlotOf};
ghost use Rattle.object_machine.specs.Images.{IsInside, image_in};
ghost use Rattle.object_machine.specs.Placing.{LeadsFrom, Places, PutsBack};
ghost use Rattle.object_machine.specs.Standing.{HasImages, Outside, SameBut, Stands};

use crate::cells::held;
use crate::machine::{Images, Storage};
use crate::pairs::is_same;
use frame_arena::frames::{self, Frame};
use frame_arena::{Arrays, Slot, SlotKind};
use sim_values::{ArrayRef, FrameRef, TextVal};

/// What came of a value that was to be put where an address leads.
#[derive(Clone, Copy)]
pub enum Placing {
    /// It is there.
    Done,
    /// There is no rule.
    NoRule,
    /// Want of memory.
    Memory,
}

/// Whether an address is that of an image, where no value is put.
#[inline(always)]
pub fn is_image(slot: Slot) -> bool
    ensures yes { result ≡ true → variable_in (value_of slot) ≡ None }
    ensures no { result ≡ false → variable_in (value_of slot) ≡ place_in (value_of slot) }
{
    match slot.kind {
        SlotKind::Image => true,
        _ => false,
    }
}

// The number in a reference.
#[inline(always)]
fn stamp_of(slot: Slot) -> u64
    ensures { result ≡ count_of slot.«data» }
{
    if slot.data < 0 { 0 } else { slot.data as u64 }
}

// Puts a value into the cell at an address.
#[inline(always)]
fn place_in_cell(frames: &[Frame], cells: &mut [Slot], address: Slot, value: Slot) -> Placing
    requires kind { address.kind ≡ SlotKind.Cell }
    ensures row { (l : Limits) (p p2 : StorageOf) (r : Registers) (stack : List SlotOf) (below : List Activation) (before : Option (List ℕ)) (now : Outside) (o : World) (m : Frames) → SameBut p p2 → p.frames.items ≡ frames.now → p.cells.items ≡ cells.old → p2.cells.items ≡ cells.new →
        Stands l p r stack below before now o m → LeadsFrom p o m address → LeadsFrom p o m value → Places result l p2 r stack below before now o m address value }
{
    if address.class != 0 {
        return Placing::NoRule;
    }
    let stored = held(value);
    let frame = FrameRef {
        frame: address.name,
        stamp: stamp_of(address),
    };
    if frames::set_cell(frames, cells, frame, address.more as usize, stored) {
        return Placing::Done;
    }
    Placing::NoRule
}

// Puts a value into the element at an address.
#[inline(always)]
fn place_in_element(arrays: &mut Arrays, address: Slot, value: Slot) -> Placing
    requires kind { address.kind ≡ SlotKind.Element }
    ensures row { (l : Limits) (p p2 : StorageOf) (r : Registers) (stack : List SlotOf) (below : List Activation) (before : Option (List ℕ)) (now : Outside) (o : World) (m : Frames) → p.arrays ≡ arrays.old → p2 ≡ record p { arrays = arrays.new } →
        Stands l p r stack below before now o m → LeadsFrom p o m address → LeadsFrom p o m value → Places result l p2 r stack below before now o m address value }
{
    if address.class != 0 {
        return Placing::NoRule;
    }
    if !value.is_plain() {
        return Placing::NoRule;
    }
    let array = ArrayRef {
        array: address.name,
        stamp: stamp_of(address),
    };
    if arrays.set_element(array, address.more, value) {
        return Placing::Done;
    }
    Placing::NoRule
}

// Moves an image to the position of a text that is that image.
#[inline(always)]
fn place_in_image(images: &mut Images, address: Slot, value: Slot) -> Placing
    requires kind { address.kind ≡ SlotKind.Image }
    ensures valid { (texts : List TextFrame) → HasImages texts images.old → HasImages texts images.new }
    ensures row { (l : Limits) (p p2 : StorageOf) (r : Registers) (stack : List SlotOf) (below : List Activation) (before : Option (List ℕ)) (now : Outside) (o : World) (m : Frames) → p.image ≡ images.old → p2 ≡ record p { image = images.new } →
        Stands l p r stack below before now o m → Places result l p2 r stack below before now o m address value }
{
    let Some(image) = images.image(address.more) else {
        return Placing::NoRule;
    };
    match value.kind {
        SlotKind::Text => {}
        _ => return Placing::NoRule,
    }
    let Ok(pos) = u32::try_from(value.data) else {
        return Placing::Memory;
    };
    let text = TextVal {
        text_frame: value.name,
        start: value.more,
        length: value.class,
        pos,
    };
    if !is_same(image, text) {
        return Placing::NoRule;
    }
    if pos < 1 || u64::from(pos) > u64::from(image.length) + 1 {
        return Placing::Memory;
    }
    images.set_pos(address.more, pos);
    Placing::Done
}

/// Puts a value where an address leads.
#[inline(always)]
pub fn place(storage: &mut Storage, address: Slot, value: Slot) -> Placing
    ensures texts { storage.new.texts ≡ storage.old.texts }
    ensures frames { storage.new.frames ≡ storage.old.frames }
    ensures valid { HasImages storage.old.texts storage.old.image → HasImages storage.new.texts storage.new.image }
    ensures row { (l : Limits) (r : Registers) (stack : List SlotOf) (below : List Activation) (before : Option (List ℕ)) (now : Outside) (o : World) (m : Frames) →
        Stands l storage.old r stack below before now o m → LeadsFrom storage.old o m address → LeadsFrom storage.old o m value → Places result l storage.new r stack below before now o m address value }
{
    match address.kind {
        SlotKind::Cell => place_in_cell(&storage.frames, &mut storage.cells, address, value),
        SlotKind::Element => place_in_element(&mut storage.arrays, address, value),
        SlotKind::Image => place_in_image(&mut storage.image, address, value),
        _ => Placing::NoRule,
    }
}

/// Puts a text with another position back where its address leads, if it came from one.
#[inline(always)]
pub fn put_back(storage: &mut Storage, address: Slot, text: TextVal) -> Placing
    ensures frames { storage.new.frames ≡ storage.old.frames }
    ensures valid { HasImages storage.old.texts storage.old.image → HasImages storage.new.texts storage.new.image }
    ensures row { (l : Limits) (r : Registers) (stack : List SlotOf) (below : List Activation) (before : Option (List ℕ)) (now : Outside) (o : World) (m : Frames) →
        Stands l storage.old r stack below before now o m → LeadsFrom storage.old o m address → PutsBack result l storage.new r stack below before now o m address text }
{
    let slot = Slot::text(text);
    match address.kind {
        SlotKind::Cell => place(storage, address, slot),
        SlotKind::Element => place(storage, address, slot),
        SlotKind::Image => place(storage, address, slot),
        _ => Placing::Done,
    }
}

// The same as a function of its own.
#[inline(never)]
fn put_back_apart(storage: &mut Storage, address: &Slot, text: TextVal) -> Placing
    ensures frames { storage.new.frames ≡ storage.old.frames }
    ensures valid { HasImages storage.old.texts storage.old.image → HasImages storage.new.texts storage.new.image }
    ensures row { (l : Limits) (r : Registers) (stack : List SlotOf) (below : List Activation) (before : Option (List ℕ)) (now : Outside) (o : World) (m : Frames) →
        Stands l storage.old r stack below before now o m → LeadsFrom storage.old o m address.now → PutsBack result l storage.new r stack below before now o m address.now text }
{
    put_back(storage, *address, text)
}

/// The same, where most addresses are those of cells. Only the code for these stands where it is called, and what it works on stays in
/// registers there: what is no cell gets a copy of the text.
#[inline(always)]
pub fn put_text(storage: &mut Storage, address: &Slot, text: TextVal) -> Placing
    ensures frames { storage.new.frames ≡ storage.old.frames }
    ensures valid { HasImages storage.old.texts storage.old.image → HasImages storage.new.texts storage.new.image }
    ensures row { (l : Limits) (r : Registers) (stack : List SlotOf) (below : List Activation) (before : Option (List ℕ)) (now : Outside) (o : World) (m : Frames) →
        Stands l storage.old r stack below before now o m → LeadsFrom storage.old o m address.now → PutsBack result l storage.new r stack below before now o m address.now text }
{
    match address.kind {
        SlotKind::Cell => put_back(storage, *address, text),
        _ => {
            let apart = text;
            put_back_apart(storage, address, apart)
        }
    }
}
