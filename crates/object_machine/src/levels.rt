//! The levels of classes.
ghost use Rattle.std.specs.Prelude.{◌≡◌, ℕ, ◌+◌, ◌<◌, List, IfSome, Some, length, slice_get};
ghost use Rattle.sim_code.specs.Classes.{levels};
ghost use Rattle.sim_code.specs.Code.{CodeOf};
ghost use Rattle.sim_code.specs.Levels.{class_at_level};
ghost use Rattle.sim_code.specs.Machine.{Frames};
ghost use Rattle.frame_arena.specs.declared.slot.Slot.{Slot as SlotOf};
ghost use Rattle.frame_arena.specs.Frames.{Holds, Leads};
ghost use Rattle.object_machine.specs.Levelling.{HasLevels, index_in, number_of};

use crate::classes::class_of;
use frame_arena::frames::Frame;
use sim_code::{BlockRecord, ClassRecord};
use sim_values::FrameRef;

/// A class that has levels.
#[derive(Clone, Copy)]
pub struct Levels {
    /// Its number.
    pub class: u32,
    /// How many levels it has.
    pub count: u32,
}

/// A part of a class.
#[derive(Clone, Copy)]
pub enum Part {
    /// Its declarations.
    Declarations,
    /// Its statements.
    Statements,
    /// What stands behind its `inner`.
    AfterInner,
}

/// How many levels a class has, if it has levels.
pub fn count_levels(classes: &[ClassRecord], class: u32) -> Option<u32>
    ensures row { (code : CodeOf) → code.classes ≡ classes.now → result ≡ number_of (levels code class) }
{
    let mut at = class;
    for outward in 0..class {
        if at == 0 {
            return None;
        }
        let Some(record) = classes.get(at as usize - 1) else {
            return None;
        };
        let prefix = record.prefix;
        if prefix == 0 {
            return Some(outward + 1);
        }
        if prefix >= at {
            return None;
        }
        at = prefix;
    }
    None
}

/// The class of a level, if there is that level.
pub fn class_of_level(classes: &[ClassRecord], own: Levels, level: usize) -> Option<u32>
    ensures within { IfSome result (λ c. level < own.count) }
    ensures row { (code : CodeOf) (cs : List ℕ) → code.classes ≡ classes.now → levels code own.class ≡ Some cs → length cs ≡ own.count → result ≡ slice_get cs level }
{
    if level >= own.count as usize {
        return None;
    }
    let mut at = own.class;
    for _ in 0..own.count as usize - level - 1 {
        if at == 0 {
            return None;
        }
        let Some(record) = classes.get(at as usize - 1) else {
            return None;
        };
        at = record.prefix;
    }
    Some(at)
}

/// The index where a part of a level begins, if there is that level.
pub fn part_of_level(classes: &[ClassRecord], own: Levels, level: usize, part: Part) -> Option<u32>
    ensures within { IfSome result (λ c. level < own.count) }
    ensures row { (code : CodeOf) (cs : List ℕ) → code.classes ≡ classes.now → levels code own.class ≡ Some cs → length cs ≡ own.count → result ≡ index_in part (class_at_level code cs level) }
{
    let Some(class) = class_of_level(classes, own, level) else {
        return None;
    };
    if class == 0 {
        return None;
    }
    let Some(record) = classes.get(class as usize - 1) else {
        return None;
    };
    match part {
        Part::Declarations => Some(record.declarations),
        Part::Statements => Some(record.statements),
        Part::AfterInner => Some(record.after_inner),
    }
}

/// The levels of a frame that is one of an object or a prefixed block.
pub fn own_levels(
    frames: &[Frame],
    blocks: &[BlockRecord],
    classes: &[ClassRecord],
    home: FrameRef,
) -> Option<Levels>
    ensures row { (code : CodeOf) (cells : List SlotOf) (m : Frames) → code.blocks ≡ blocks.now → code.classes ≡ classes.now → Holds frames.now cells m → Leads frames.now m home → HasLevels result code m home.stamp }
{
    let Some(class) = class_of(frames, blocks, home) else {
        return None;
    };
    let Some(count) = count_levels(classes, class) else {
        return None;
    };
    Some(Levels { class, count })
}
