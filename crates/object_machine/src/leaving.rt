//! Rows that end frames.
ghost use Rattle.std.specs.Prelude.{◌≡◌, ℕ, ◌<◌, ◌≤◌, List, Option, IfSome, Some, None, length, slice_get, true};
ghost use Rattle.sim_base.specs.declared.limits.Limits.{Limits as LimitsOf};
ghost use Rattle.sim_code.specs.Code.{BlockOf, CodeOf};
ghost use Rattle.sim_code.specs.Events.{having, ticking, when};
ghost use Rattle.sim_code.specs.Instances.{object_ended};
ghost use Rattle.sim_code.specs.Levels.{outermost_ended};
ghost use Rattle.sim_code.specs.Rows.{row};
ghost use Rattle.sim_code.specs.declared.instr.Instr.{Instr};
ghost use Rattle.sim_code.specs.Machine.{Frames, Machine, Value, is_nothing as is_nothing_of, leaving, own_block as own_block_of, owner, pushing_any, with_result};
ghost use Rattle.sim_code.specs.Outcome.{ArrayOf, Run, World};
ghost use Rattle.frame_arena.specs.Arrays.{AllLeadArrays, RegionOf};
ghost use Rattle.frame_arena.specs.Frames.{AllLead, Has, Holds, Leads, found_value, frame_at};
ghost use Rattle.frame_arena.specs.Stacks.{slot_at, values_of};
ghost use Rattle.object_machine.specs.FrameEnds.{Ends, IsOwn, ValueLeads, handed};
ghost use Rattle.object_machine.specs.Standing.{AllFit, Leaves, Obeys, Outside, Stands, Stores, below_of};

use crate::blocks::same_kind;
use crate::constants::index;
use crate::finishing::{end_attached, end_resumed};
use crate::levels::Part;
use crate::machine::{Activation, Flow, Registers, Storage};
use crate::owners::is_thunk;
use crate::stages::{end_inner_level, reached};
use frame_arena::frames::{self, Component, Frame};
use frame_arena::{Slot, stack};
use sim_base::Limits;
use sim_code::{BlockKind, BlockRecord, ClassRecord, CodeType, Lined};
use sim_values::{FrameRef, words_instance};
use std::mem;

/// What the end of a frame asks of its block.
#[derive(Clone, Copy)]
pub struct OwnBlock {
    /// How many of its cells cost words.
    pub cells: u32,
    /// What a procedure gives.
    pub result_type: CodeType,
}

// The number of the block of the frame in a region.
#[inline(always)]
fn block_of_frame(frames: &[Frame], place: usize) -> u32
    requires there { place < length frames.now }
    ensures { result ≡ (frame_at frames.now place).block }
{
    frames[place].block
}

// The block of a number, which is of this kind.
#[inline(always)]
fn own_block(blocks: &[BlockRecord], number: u32, kind: BlockKind) -> Option<OwnBlock>
    ensures row { (code : CodeOf) → code.blocks ≡ blocks.now → IsOwn result code kind number }
{
    let Some(block) = blocks.get(number as usize) else {
        return None;
    };
    if !same_kind(block.kind, kind) {
        return None;
    }
    Some(OwnBlock {
        cells: block.cells,
        result_type: block.result_type,
    })
}

/// Whether nothing has this type.
pub fn is_nothing(result_type: CodeType) -> bool
    ensures { result ≡ is_nothing_of result_type }
{
    match result_type {
        CodeType::Nothing => true,
        _ => false,
    }
}

// The result of a procedure, which stands in its first cell, if it has one; `None` where there is no value in that yet.
#[inline(always)]
fn result_of(
    frames: &[Frame],
    cells: &[Slot],
    home: FrameRef,
    result_type: CodeType,
) -> Option<Option<Slot>>
    ensures row { (b : BlockOf) (m : Frames) (o : World) (go : Option Value → Run Machine) → b.result_type ≡ result_type → Holds frames.now cells.now m → Leads frames.now m home →
        with_result b m home.stamp o go ≡ having (handed result) o go }
    ensures lies { IfSome result (λ v. IfSome v (λ s. (k : ℕ) × (s ≡ slot_at cells.now k))) }
{
    if is_nothing(result_type) {
        return Some(None);
    }
    let Some(slot) = frames::cell(frames, cells, home, 0) else {
        return None;
    };
    Some(Some(slot))
}

// Pushes a value, if there is one. It answers whether there was room.
#[inline(always)]
fn put(stack: &mut [Slot], regs: &mut Registers, value: Option<Slot>) -> bool
    requires fits { regs.old.depth ≤ length stack.old }
    ensures fits { regs.new.depth ≤ length stack.new }
    ensures home { regs.new.home ≡ regs.old.home }
    ensures stage { regs.new.stage ≡ regs.old.stage }
    ensures thunk { regs.new.thunk ≡ regs.old.thunk }
    ensures place { regs.new.pc ≡ regs.old.pc }
    ensures long { length stack.new ≡ length stack.old }
    ensures leads { (frames : List Frame) (m : Frames) (regions : List RegionOf) (arrays : List ArrayOf) → AllLead frames m stack.old → ValueLeads frames m regions arrays value → AllLead frames m stack.new }
    ensures leads_arrays { (frames : List Frame) (m : Frames) (regions : List RegionOf) (arrays : List ArrayOf) → AllLeadArrays regions arrays stack.old → ValueLeads frames m regions arrays value → AllLeadArrays regions arrays stack.new }
    ensures row { (o : World) (go : List Value → Run Machine) → pushing_any (length stack.old) (values_of regs.old.depth stack.old) (found_value value) o go ≡ when result o (go (values_of regs.new.depth stack.new)) }
{
    let Some(slot) = value else {
        return true;
    };
    let Some(depth) = stack::push(stack, regs.depth, slot) else {
        return false;
    };
    regs.depth = depth;
    true
}

// A frame gives back its words, and its arrays with theirs, and its region becomes free, where it is given back at its end. Its operand
// stack is to spare then.
#[inline(always)]
fn give(storage: &mut Storage, home: FrameRef, cells: u32, stack: Vec<Slot>)
    requires there { Has storage.old.frames.items home.frame home.stamp }
    ensures texts { storage.new.texts ≡ storage.old.texts }
    ensures image { storage.new.image ≡ storage.old.image }
    ensures row { (l : LimitsOf) (b : BlockOf) (before : Option (List ℕ)) (now : Outside) (o : World) (m : Frames) → b.cells ≡ cells → Stores l storage.old before now o m →
        Ends l storage.old storage.new b home.stamp before now o m }
{
    if !frames::is_given_at_end(&storage.frames, home.frame as usize) {
        return;
    }
    let words = storage.words.saturating_sub(words_instance(cells, false));
    storage.words = storage.arrays.give_back_owned(home.stamp, words);
    frames::give_back(&mut storage.frames, &mut storage.heads, home.frame);
    keep_stack(&mut storage.spares, home.frame as usize, stack);
}

// An operand stack is to spare in a region.
#[inline(always)]
fn keep_stack(spares: &mut [Vec<Slot>], place: usize, stack: Vec<Slot>)
    ensures { place < length spares.old → slice_get spares.new place ≡ Some stack }
{
    if place < spares.len() {
        spares[place] = stack;
    }
}

// The frame on top ends, and the one below it, which gets a value or none, becomes the top.
#[inline(always)]
fn finish(
    storage: &mut Storage,
    top: &mut Activation,
    below: &mut Vec<Activation>,
    cells: u32,
    value: Option<Slot>,
) -> Flow
    requires there { Has storage.old.frames.items top.old.registers.home.frame top.old.registers.home.stamp }
    requires fits { top.old.registers.depth ≤ length top.old.stack.items }
    requires others { AllFit below.old.items }
    ensures fits { top.new.registers.depth ≤ length top.new.stack.items }
    ensures others { AllFit below.new.items }
    ensures texts { storage.new.texts ≡ storage.old.texts }
    ensures image { storage.new.image ≡ storage.old.image }
    ensures row { (l : LimitsOf) (line : ℕ) (b : BlockOf) (before : Option (List ℕ)) (now : Outside) (o : World) (m : Frames) → b.cells ≡ cells →
        Stands l storage.old top.old.registers top.old.stack.items below.old.items before now o m → ValueLeads storage.old.frames.items m storage.old.arrays.regions o.arrays value →
        Leaves result l line storage.new top.new.registers top.new.stack.items below.new.items before now (leaving b (below_of below.old.items) (found_value value) top.old.registers.home.stamp o m) }
{
    let Some(mut next) = below.pop() else {
        return Flow::NoRule;
    };
    if !put(&mut next.stack, &mut next.registers, value) {
        return Flow::NoRule;
    }
    let ended = mem::replace(top, next);
    give(storage, ended.registers.home, cells, ended.stack);
    Flow::On
}

/// The end of a sub-block. It answers want of memory where the frame on top was given back already, to which no run comes.
#[inline(always)]
pub fn leave(
    blocks: &[BlockRecord],
    storage: &mut Storage,
    top: &mut Activation,
    below: &mut Vec<Activation>,
) -> Flow
    requires fits { top.old.registers.depth ≤ length top.old.stack.items }
    requires others { AllFit below.old.items }
    ensures fits { top.new.registers.depth ≤ length top.new.stack.items }
    ensures others { AllFit below.new.items }
    ensures texts { storage.new.texts ≡ storage.old.texts }
    ensures image { storage.new.image ≡ storage.old.image }
    ensures row { (code : CodeOf) (l : LimitsOf) (line : ℕ) (now : Outside) → code.blocks ≡ blocks.now →
        Obeys result l line (λ o m a b. own_block_of code BlockKind.SubBlock m a o (λ x. leaving x b None a.home o m)) storage.old storage.new top.old.registers top.new.registers top.old.stack.items top.new.stack.items below.old.items below.new.items now now }
{
    if is_thunk(&top.registers) {
        return Flow::NoRule;
    }
    let home = top.registers.home;
    let Some(place) = frames::find(&storage.frames, home) else {
        return Flow::Memory;
    };
    let number = block_of_frame(&storage.frames, place);
    let Some(own) = own_block(blocks, number, BlockKind::SubBlock) else {
        return Flow::NoRule;
    };
    finish(storage, top, below, own.cells, None)
}

/// The end of a procedure, whose result goes to the frame below. It answers want of memory where the frame on top was given back
/// already, to which no run comes.
#[inline(always)]
pub fn give_result(
    blocks: &[BlockRecord],
    storage: &mut Storage,
    top: &mut Activation,
    below: &mut Vec<Activation>,
) -> Flow
    requires fits { top.old.registers.depth ≤ length top.old.stack.items }
    requires others { AllFit below.old.items }
    ensures fits { top.new.registers.depth ≤ length top.new.stack.items }
    ensures others { AllFit below.new.items }
    ensures texts { storage.new.texts ≡ storage.old.texts }
    ensures image { storage.new.image ≡ storage.old.image }
    ensures row { (code : CodeOf) (l : LimitsOf) (line : ℕ) (now : Outside) → code.blocks ≡ blocks.now →
        Obeys result l line (λ o m a b. own_block_of code BlockKind.Procedure m a o (λ x. with_result x m a.home o (λ v. leaving x b v a.home o m))) storage.old storage.new top.old.registers top.new.registers top.old.stack.items top.new.stack.items below.old.items below.new.items now now }
{
    if is_thunk(&top.registers) {
        return Flow::NoRule;
    }
    let home = top.registers.home;
    let Some(place) = frames::find(&storage.frames, home) else {
        return Flow::Memory;
    };
    let number = block_of_frame(&storage.frames, place);
    let Some(own) = own_block(blocks, number, BlockKind::Procedure) else {
        return Flow::NoRule;
    };
    let Some(value) = result_of(&storage.frames, &storage.cells, home, own.result_type) else {
        return Flow::NoRule;
    };
    finish(storage, top, below, own.cells, value)
}

// An object ends: it takes a tick, and is terminated.
fn end_object(
    limits: &Limits,
    storage: &mut Storage,
    place: usize,
    top: &mut Activation,
    below: &mut Vec<Activation>,
) -> Flow
    requires there { Has storage.old.frames.items place top.old.registers.home.stamp }
    requires fits { top.old.registers.depth ≤ length top.old.stack.items }
    requires others { AllFit below.old.items }
    ensures fits { top.new.registers.depth ≤ length top.new.stack.items }
    ensures others { AllFit below.new.items }
    ensures texts { storage.new.texts ≡ storage.old.texts }
    ensures image { storage.new.image ≡ storage.old.image }
    ensures row { (line : ℕ) (before : Option (List ℕ)) (now : Outside) (o : World) (m : Frames) → Stands limits.now storage.old top.old.registers top.old.stack.items below.old.items before now o m →
        Leaves result limits.now line storage.new top.new.registers top.new.stack.items below.new.items before now (ticking limits.now o (λ p. object_ended owner p m top.old.registers.home.stamp (below_of below.old.items))) }
{
    if storage.ticks >= limits.ticks {
        return Flow::TickLimit;
    }
    storage.ticks += 1;
    let object = top.registers.home.stamp;
    match frames::component_at(&storage.frames, place) {
        Component::Attached => end_attached(storage, place, object, top, below),
        Component::Resumed => end_resumed(storage, place, object, top, below),
        _ => Flow::NoRule,
    }
}

// The end of the outermost level of the frame in a region: of an object, or of a prefixed block, which ends as a sub-block does.
fn end_outermost(
    blocks: &[BlockRecord],
    limits: &Limits,
    storage: &mut Storage,
    place: usize,
    number: u32,
    top: &mut Activation,
    below: &mut Vec<Activation>,
) -> Flow
    requires there { Has storage.old.frames.items place top.old.registers.home.stamp }
    requires region { place ≡ top.old.registers.home.frame }
    requires fits { top.old.registers.depth ≤ length top.old.stack.items }
    requires others { AllFit below.old.items }
    ensures fits { top.new.registers.depth ≤ length top.new.stack.items }
    ensures others { AllFit below.new.items }
    ensures texts { storage.new.texts ≡ storage.old.texts }
    ensures image { storage.new.image ≡ storage.old.image }
    ensures row { (code : CodeOf) (line : ℕ) (now : Outside) → code.blocks ≡ blocks.now →
        Obeys result limits.now line (λ o m a b. outermost_ended code limits.now o m a b a.home number) storage.old storage.new top.old.registers top.new.registers top.old.stack.items top.new.stack.items below.old.items below.new.items now now }
{
    let Some(_level) = reached(top.registers.stage, Part::AfterInner, 0) else {
        return Flow::NoRule;
    };
    let Some(block) = blocks.get(number as usize) else {
        return Flow::NoRule;
    };
    match block.kind {
        BlockKind::Object => end_object(limits, storage, place, top, below),
        BlockKind::Prefixed => finish(storage, top, below, block.cells, None),
        BlockKind::SubBlock => Flow::NoRule,
        BlockKind::Procedure => Flow::NoRule,
    }
}

/// The end of a level. It answers want of memory where the frame on top was given back already, to which no run comes.
pub fn end_level(
    blocks: &[BlockRecord],
    instrs: &[Lined],
    classes: &[ClassRecord],
    limits: &Limits,
    storage: &mut Storage,
    top: &mut Activation,
    below: &mut Vec<Activation>,
    operand: i64,
) -> Flow
    requires fits { top.old.registers.depth ≤ length top.old.stack.items }
    requires others { AllFit below.old.items }
    ensures fits { top.new.registers.depth ≤ length top.new.stack.items }
    ensures others { AllFit below.new.items }
    ensures texts { storage.new.texts ≡ storage.old.texts }
    ensures image { storage.new.image ≡ storage.old.image }
    ensures row { (code : CodeOf) (line : ℕ) (now : Outside) → code.blocks ≡ blocks.now → code.instrs ≡ instrs.now → code.classes ≡ classes.now →
        Obeys result limits.now line (λ o m a b. row code limits.now o m a b line (Instr.EndLevel operand)) storage.old storage.new top.old.registers top.new.registers top.old.stack.items top.new.stack.items below.old.items below.new.items now now }
{
    let Some(level) = index(operand) else {
        return Flow::NoRule;
    };
    if level > 0 {
        return end_inner_level(
            &storage.frames,
            blocks,
            instrs,
            classes,
            &mut top.registers,
            level,
        );
    }
    if is_thunk(&top.registers) {
        return Flow::NoRule;
    }
    let Some(place) = frames::find(&storage.frames, top.registers.home) else {
        return Flow::Memory;
    };
    let number = block_of_frame(&storage.frames, place);
    if number == 0 {
        return Flow::Normal;
    }
    end_outermost(blocks, limits, storage, place, number, top, below)
}
