//! Blocks with levels that are entered, and what stands on the operand stack for them.
ghost use Rattle.std.specs.Prelude.{◌≡◌, ℕ, ℤ, ◌+◌, ◌<◌, ◌≤◌, List, [], IfSome, Some, length, true};
ghost use Rattle.sim_code.specs.Code.{CodeOf};
ghost use Rattle.sim_code.specs.Events.{pop_many};
ghost use Rattle.sim_code.specs.Machine.{Frames, Machine, Value, index as index_of};
ghost use Rattle.sim_code.specs.Outcome.{Run, World};
ghost use Rattle.frame_arena.specs.declared.slot.Slot.{Slot as SlotOf};
ghost use Rattle.frame_arena.specs.Frames.{AllLead, Holds, Leads, SlotLeads};
ghost use Rattle.frame_arena.specs.Stacks.{values_of};
ghost use Rattle.object_machine.specs.Calling.{with_actuals};
ghost use Rattle.object_machine.specs.Generating.{IsEncloser, IsLevelled, IsObjects, linked, names_link};

use crate::blocks::same_kind;
use crate::calling::{Actuals, parent_in};
use crate::classes::class_named;
use crate::constants::index;
use crate::levels::{Levels, Part, count_levels, part_of_level};
use frame_arena::frames::Frame;
use frame_arena::{Slot, SlotKind, stack};
use sim_code::{BlockKind, BlockRecord, ClassRecord, Lined};
use sim_values::FrameRef;

/// A block with levels.
#[derive(Clone, Copy)]
pub struct Levelled {
    /// Its number.
    pub block: u32,
    /// The index where the declarations of level 0 begin.
    pub start: u32,
}

// Whether a value is a link.
#[inline(always)]
fn is_link(slot: Slot) -> bool
    ensures { result ≡ names_link slot.kind }
{
    match slot.kind {
        SlotKind::Link => true,
        _ => false,
    }
}

// The frame that a link names, where it was not given back.
#[inline(always)]
fn encloser_in(frames: &[Frame], slot: Slot) -> Option<FrameRef>
    ensures row { (cells : List SlotOf) (m : Frames) → Holds frames.now cells m → SlotLeads frames.now m slot → IsEncloser result frames.now m slot }
{
    if !is_link(slot) {
        return None;
    }
    parent_in(frames, slot)
}

/// What a generation finds on the operand stack: as many values, and below them a link to a frame that was not given back.
pub fn take_linked(frames: &[Frame], stack: &[Slot], depth: usize, operand: i64) -> Option<Actuals>
    requires fits { depth ≤ length stack.now }
    ensures within { IfSome result (λ a. a.at + a.count ≤ length stack.now) }
    ensures under { IfSome result (λ a. a.under < length stack.now) }
    ensures leads { (cells : List SlotOf) (m : Frames) → Holds frames.now cells m → AllLead frames.now m stack.now → IfSome result (λ a. Leads frames.now m a.parent) }
    ensures row { (cells : List SlotOf) (m : Frames) (o : World) (go : List Value → List Value → ℕ → Run Machine) → Holds frames.now cells m → AllLead frames.now m stack.now →
        linked m operand (values_of depth stack.now) o go ≡ with_actuals result stack.now o go }
{
    let Some(count) = index(operand) else {
        return None;
    };
    let Some(at) = stack::pop_values(stack, depth, count) else {
        return None;
    };
    let Some(under) = stack::pop(stack, at) else {
        return None;
    };
    let Some(parent) = encloser_in(frames, stack[under]) else {
        return None;
    };
    Some(Actuals {
        at,
        count,
        under,
        parent,
    })
}

/// What the entry of a prefixed block finds on the operand stack: as many values. Its encloser is the frame at work.
pub fn take_values(
    stack: &[Slot],
    depth: usize,
    operand: i64,
    encloser: FrameRef,
) -> Option<Actuals>
    requires fits { depth ≤ length stack.now }
    ensures within { IfSome result (λ a. a.at + a.count ≤ length stack.now) }
    ensures under { IfSome result (λ a. a.under ≤ length stack.now) }
    ensures encloser { IfSome result (λ a. a.parent ≡ encloser) }
    ensures row { (o : World) (go : List Value → List Value → Run Machine) → index_of operand o (λ n. pop_many n [] (values_of depth stack.now) o go) ≡ with_actuals result stack.now o (λ values rest parent. go values rest) }
{
    let Some(count) = index(operand) else {
        return None;
    };
    let Some(at) = stack::pop_values(stack, depth, count) else {
        return None;
    };
    Some(Actuals {
        at,
        count,
        under: at,
        parent: encloser,
    })
}

/// Where the declarations of level 0 begin, of a block of a kind.
pub fn start_of(
    blocks: &[BlockRecord],
    instrs: &[Lined],
    classes: &[ClassRecord],
    kind: BlockKind,
    number: usize,
) -> Option<u32>
    ensures row { (code : CodeOf) → code.blocks ≡ blocks.now → code.instrs ≡ instrs.now → code.classes ≡ classes.now → IsLevelled result code kind number }
{
    let Some(block) = blocks.get(number) else {
        return None;
    };
    if !same_kind(block.kind, kind) {
        return None;
    }
    let class = block.class;
    let Some(count) = count_levels(classes, class) else {
        return None;
    };
    let own = Levels { class, count };
    let Some(start) = part_of_level(classes, own, 0, Part::Declarations) else {
        return None;
    };
    if start as usize >= instrs.len() {
        return None;
    }
    Some(start)
}

/// The block of the objects of a class.
pub fn objects_of(
    blocks: &[BlockRecord],
    instrs: &[Lined],
    classes: &[ClassRecord],
    operand: i64,
) -> Option<Levelled>
    ensures row { (code : CodeOf) → code.blocks ≡ blocks.now → code.instrs ≡ instrs.now → code.classes ≡ classes.now → IsObjects result code operand }
    ensures there { IfSome result (λ x. x.block < length blocks.now) }
{
    let Some(class) = class_named(classes, operand) else {
        return None;
    };
    if class == 0 {
        return None;
    }
    let Some(record) = classes.get(class - 1) else {
        return None;
    };
    let number = record.block;
    let Some(start) = start_of(blocks, instrs, classes, BlockKind::Object, number as usize) else {
        return None;
    };
    let Some(block) = blocks.get(number as usize) else {
        return None;
    };
    if block.class as usize != class {
        return None;
    }
    Some(Levelled {
        block: number,
        start,
    })
}
