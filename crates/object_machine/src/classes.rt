//! Classes of the code, and of which classes objects are.
ghost use Rattle.std.specs.Prelude.{◌≡◌, ◌<◌, ◌^◌, ◌==◌, ◌||◌, List};
ghost use Rattle.sim_code.specs.Classes.{class_named as class_named_of, class_of as class_of_frame, in_class as in_class_of, is_among, levels, main_in_class as main_in_class_of, may_stand as may_stand_of, process_at as process_at_of};
ghost use Rattle.sim_code.specs.Code.{CodeOf};
ghost use Rattle.sim_code.specs.Machine.{Frames, plain};
ghost use Rattle.frame_arena.specs.declared.frames.Frame.{Frame as FrameOf};
ghost use Rattle.frame_arena.specs.declared.slot.Slot.{Slot as SlotOf};
ghost use Rattle.frame_arena.specs.Frames.{Holds, Leads, SlotLeads};
ghost use Rattle.frame_arena.specs.Slots.{count_of, value_of};
ghost use Rattle.object_machine.specs.Classing.{FitsSlot, Qualifies, ReferenceLeads, Refers, tested, tests};

use crate::cells::unqualified;
use crate::constants::index;
use crate::marks::process_class;
use frame_arena::frames::{self, Frame};
use frame_arena::{Slot, SlotKind};
use sim_code::{BlockKind, BlockRecord, ClassRecord};
use sim_values::FrameRef;

/// The class that goes with an address.
#[derive(Clone, Copy)]
pub enum Qualification {
    /// Its number, or 0 where there is none.
    Class(u32),
    /// There is no rule.
    NoRule,
    /// Want of memory.
    Memory,
}

/// What a value refers to.
#[derive(Clone, Copy)]
pub enum Reference {
    /// An object, by its frame.
    Object(FrameRef),
    /// The main program of a simulation block, by the frame of that.
    Main(FrameRef),
    /// It is `none`.
    IsNone,
    /// It is no reference.
    Other,
}

/// The number of the class that an operand names, where there is such a class.
#[inline(always)]
pub fn class_named(classes: &[ClassRecord], operand: i64) -> Option<usize>
    ensures row { (code : CodeOf) → code.classes ≡ classes.now → result ≡ class_named_of code operand }
{
    let Some(number) = index(operand) else {
        return None;
    };
    if number == 0 || number > classes.len() {
        return None;
    }
    Some(number)
}

/// The class that an operand gives an address. It answers want of memory for a number of 2^32 or more.
#[inline(always)]
pub fn qualify(classes: &[ClassRecord], operand: i64) -> Qualification
    ensures row { (code : CodeOf) → code.classes ≡ classes.now → Qualifies result code operand }
{
    if unqualified(operand) {
        return Qualification::Class(0);
    }
    let Some(number) = class_named(classes, operand) else {
        return Qualification::NoRule;
    };
    let Ok(short) = u32::try_from(number) else {
        return Qualification::Memory;
    };
    Qualification::Class(short)
}

/// The class of an object or prefixed block, if the frame is one and was not given back.
#[inline(always)]
pub fn class_of(frames: &[Frame], blocks: &[BlockRecord], at: FrameRef) -> Option<u32>
    ensures row { (code : CodeOf) (cells : List SlotOf) (m : Frames) → code.blocks ≡ blocks.now → Holds frames.now cells m → Leads frames.now m at → result ≡ class_of_frame code m at.stamp }
{
    let Some(place) = frames::find(frames, at) else {
        return None;
    };
    let Some(block) = blocks.get(frames[place].block as usize) else {
        return None;
    };
    match block.kind {
        BlockKind::Object => Some(block.class),
        BlockKind::Prefixed => Some(block.class),
        _ => None,
    }
}

// Whether something was found, where a class may be the one that is wanted.
#[inline(always)]
fn noted(found: bool, class: u32, wanted: usize) -> bool
    ensures { result ≡ ((class == wanted) || found) }
{
    if class as usize == wanted {
        return true;
    }
    found
}

/// Whether a class is among the levels of another one, if that has levels.
pub fn is_level(classes: &[ClassRecord], class: u32, wanted: usize) -> Option<bool>
    ensures row { (code : CodeOf) → code.classes ≡ classes.now → result ≡ is_among wanted (levels code class) }
{
    let mut at = class;
    let mut found = false;
    for _ in 0..class {
        if at == 0 {
            return None;
        }
        let Some(record) = classes.get(at as usize - 1) else {
            return None;
        };
        let found_now = noted(found, at, wanted);
        let prefix = record.prefix;
        if prefix == 0 {
            return Some(found_now);
        }
        if prefix >= at {
            return None;
        }
        found = found_now;
        at = prefix;
    }
    None
}

/// Whether an object is in a class, if it has levels.
#[inline(always)]
pub fn in_class(
    frames: &[Frame],
    blocks: &[BlockRecord],
    classes: &[ClassRecord],
    wanted: usize,
    at: FrameRef,
) -> Option<bool>
    ensures row { (code : CodeOf) (cells : List SlotOf) (m : Frames) → code.blocks ≡ blocks.now → code.classes ≡ classes.now → Holds frames.now cells m → Leads frames.now m at → result ≡ in_class_of code m wanted at.stamp }
{
    let Some(class) = class_of(frames, blocks, at) else {
        return None;
    };
    is_level(classes, class, wanted)
}

/// The class `process` of the simulation block that an instance is.
pub fn process_at(
    frames: &[Frame],
    blocks: &[BlockRecord],
    classes: &[ClassRecord],
    at: FrameRef,
) -> Option<u32>
    ensures row { (code : CodeOf) (cells : List SlotOf) (m : Frames) → code.blocks ≡ blocks.now → code.classes ≡ classes.now → Holds frames.now cells m → Leads frames.now m at → result ≡ process_at_of code m at.stamp }
{
    let Some(class) = class_of(frames, blocks, at) else {
        return None;
    };
    process_class(blocks, classes, class)
}

/// Whether the main program of a simulation block is in a class, if that has levels.
pub fn main_in_class(
    frames: &[Frame],
    blocks: &[BlockRecord],
    classes: &[ClassRecord],
    wanted: usize,
    at: FrameRef,
) -> Option<bool>
    ensures row { (code : CodeOf) (cells : List SlotOf) (m : Frames) → code.blocks ≡ blocks.now → code.classes ≡ classes.now → Holds frames.now cells m → Leads frames.now m at → result ≡ main_in_class_of code m wanted at.stamp }
{
    let Some(class) = process_at(frames, blocks, classes, at) else {
        return None;
    };
    is_level(classes, class, wanted)
}

/// The number in a reference.
#[inline(always)]
pub fn stamp_of(slot: Slot) -> u64
    ensures is { result ≡ count_of slot.«data» }
    ensures short { result < 2 ^ 63 }
{
    if slot.data < 0 { 0 } else { slot.data as u64 }
}

/// What a value refers to.
#[inline(always)]
pub fn reference_in(slot: Slot) -> Reference
    ensures is { Refers result (plain (value_of slot)) }
    ensures fits { FitsSlot result }
    ensures leads { (frames : List FrameOf) (m : Frames) → SlotLeads frames m slot → ReferenceLeads result frames m }
{
    let stamp = stamp_of(slot);
    match slot.kind {
        SlotKind::Object => Reference::Object(FrameRef {
            frame: slot.name,
            stamp,
        }),
        SlotKind::Main => Reference::Main(FrameRef {
            frame: slot.name,
            stamp,
        }),
        SlotKind::Nothing => Reference::IsNone,
        SlotKind::Empty => Reference::IsNone,
        _ => Reference::Other,
    }
}

/// Whether a reference is of just this class, or whether it is in this class. It is no answer where the value is no reference.
#[inline(always)]
pub fn test(
    frames: &[Frame],
    blocks: &[BlockRecord],
    classes: &[ClassRecord],
    same: bool,
    wanted: usize,
    slot: Slot,
) -> Option<bool>
    ensures row { (code : CodeOf) (cells : List SlotOf) (m : Frames) → code.blocks ≡ blocks.now → code.classes ≡ classes.now → Holds frames.now cells m → SlotLeads frames.now m slot →
        result ≡ tested (tests same code m wanted) (plain (value_of slot)) }
{
    match reference_in(slot) {
        Reference::Object(at) => {
            if !same {
                return in_class(frames, blocks, classes, wanted, at);
            }
            let Some(class) = class_of(frames, blocks, at) else {
                return None;
            };
            Some(class as usize == wanted)
        }
        Reference::Main(at) => {
            if !same {
                return main_in_class(frames, blocks, classes, wanted, at);
            }
            let Some(class) = process_at(frames, blocks, classes, at) else {
                return None;
            };
            Some(class as usize == wanted)
        }
        Reference::IsNone => Some(false),
        Reference::Other => None,
    }
}

/// Whether a value may stand where references of a class stand. It is no answer where the value is no reference.
#[inline(always)]
pub fn may_stand(
    frames: &[Frame],
    blocks: &[BlockRecord],
    classes: &[ClassRecord],
    wanted: usize,
    slot: Slot,
) -> Option<bool>
    ensures row { (code : CodeOf) (cells : List SlotOf) (m : Frames) → code.blocks ≡ blocks.now → code.classes ≡ classes.now → Holds frames.now cells m → SlotLeads frames.now m slot →
        result ≡ may_stand_of code m wanted (plain (value_of slot)) }
{
    match reference_in(slot) {
        Reference::Object(at) => in_class(frames, blocks, classes, wanted, at),
        Reference::Main(at) => main_in_class(frames, blocks, classes, wanted, at),
        Reference::IsNone => Some(true),
        Reference::Other => None,
    }
}
