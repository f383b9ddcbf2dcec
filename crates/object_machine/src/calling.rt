//! The row that calls a procedure.
ghost use Rattle.std.specs.Prelude.{◌≡◌, ℕ, ◌+◌, ◌<◌, ◌≤◌, ◌∷◌, ◌^◌, List, Option, IfSome, Some, None, [], length, true, false, if◌then◌else◌};
ghost use Rattle.std.specs.List.{list_any};
ghost use Rattle.sim_base.specs.declared.limits.Limits.{Limits as LimitsOf};
ghost use Rattle.sim_code.specs.Code.{BlockOf, CodeOf};
ghost use Rattle.sim_code.specs.Machine.{Activation as ActivationOf, Cells, Frames, Machine, Value, arrays_by_value, filled, first_cells, frame_in, frames_kept, in_new, is_held as is_held_of, is_nothing as is_nothing_of, owner, waiting};
ghost use Rattle.sim_code.specs.Outcome.{ArrayOf, Run, World};
ghost use Rattle.frame_arena.specs.Arrays.{AllLeadArrays, RegionOf};
ghost use Rattle.frame_arena.specs.Frames.{AllLead, Holds, Leads, SlotLeads, number_in, rooms, stands_first};
ghost use Rattle.frame_arena.specs.Slots.{value_of};
ghost use Rattle.frame_arena.specs.Stacks.{values_from, values_of};
ghost use Rattle.object_machine.specs.Calling.{Filled, Fills, IsParent, Supplied, called, cells_set_from, with_actuals};
ghost use Rattle.object_machine.specs.Entering.{Opens};
ghost use Rattle.object_machine.specs.Keeping.{KeptIn, owner_at};
ghost use Rattle.object_machine.specs.declared.openings.Beginning.{Beginning};
ghost use Rattle.object_machine.specs.Standing.{AllAtWork, AllFit, AtWork, Leaves, Obeys, Outside, activation_at, below_of};
ghost use Rattle.sim_values.specs.declared.value.FrameRef.{FrameRef as Reference};
ghost use Rattle.sim_code.specs.Arrays.{handed_over};
ghost use Rattle.sim_code.specs.Rows.{entering_frame, entering_procedure};

use crate::blocks::block_of;
use crate::cells::held;
use crate::constants::index;
use crate::entering::cover;
use crate::handing::hand_over;
use crate::keeping::keep_frames;
use crate::machine::{Activation, Flow, Registers, Storage};
use crate::openings::{as_frame, open};
use crate::paying::pay;
use frame_arena::frames::{self, Frame};
use frame_arena::{Slot, SlotKind, stack};
use sim_base::Limits;
use sim_code::{BlockKind, BlockRecord, CodeFormal, CodeMode, CodeType, FormalShape, Lined};
use sim_values::{FrameRef, words_instance};
use std::alloc::Global;

/// What a call finds on the operand stack.
#[derive(Clone, Copy)]
pub struct Actuals {
    /// Where the actual parameters begin.
    pub at: usize,
    /// How many there are.
    pub count: usize,
    /// How many values are below all that.
    pub under: usize,
    /// The frame of the encloser of the procedure.
    pub parent: FrameRef,
}

/// The frame that a slot names.
#[inline(always)]
pub fn named(slot: Slot) -> Option<FrameRef>
    ensures number { number_in result ≡ frame_in (value_of slot) }
    ensures short { IfSome result (λ f. f.stamp < 2 ^ 63) }
    ensures leads { IfSome result (λ f. (frames : List Frame) (m : Frames) → SlotLeads frames m slot → Leads frames m f) }
{
    let stamp = if slot.data < 0 { 0 } else { slot.data as u64 };
    match slot.kind {
        SlotKind::Object => Some(FrameRef {
            frame: slot.name,
            stamp,
        }),
        SlotKind::Link => Some(FrameRef {
            frame: slot.name,
            stamp,
        }),
        _ => None,
    }
}

/// The frame that a slot names, where it was not given back.
#[inline(always)]
pub fn parent_in(frames: &[Frame], slot: Slot) -> Option<FrameRef>
    ensures row { (cells : List Slot) (m : Frames) → Holds frames.now cells m → SlotLeads frames.now m slot → IsParent result frames.now m slot }
{
    let Some(frame) = named(slot) else {
        return None;
    };
    let Some(_place) = frames::find(frames, frame) else {
        return None;
    };
    Some(frame)
}

// Values from a stack fill the cells of a frame from a place on. It answers whether there were as many cells.
#[inline(always)]
fn fill(
    frames: &[Frame],
    cells: &mut [Slot],
    home: FrameRef,
    first: usize,
    stack: &[Slot],
    at: usize,
    count: usize,
) -> bool
    requires within { at + count ≤ length stack.now }
    requires short { first + count < 2 ^ 64 }
    ensures row { result ≡ true → (m : Frames) → Holds frames.now cells.old m → Leads frames.now m home → AllLead frames.now m stack.now →
        Filled frames.now cells.new m (cells_set_from m home.stamp first (values_from stack.now at count)) }
    ensures arrays { (regions : List RegionOf) (arrays : List ArrayOf) → AllLeadArrays regions arrays cells.old → AllLeadArrays regions arrays stack.now → AllLeadArrays regions arrays cells.new }
{
    for next in 0..count {
        let slot = held(stack[at + next]);
        if !frames::set_cell(frames, cells, home, first + next, slot) {
            return false;
        }
    }
    true
}

// What a call finds on the operand stack: as many values, and below them a frame that was not given back.
#[inline(always)]
fn take_actuals(frames: &[Frame], stack: &[Slot], depth: usize, operand: i64) -> Option<Actuals>
    requires fits { depth ≤ length stack.now }
    ensures within { IfSome result (λ a. a.at + a.count ≤ length stack.now) }
    ensures under { IfSome result (λ a. a.under ≤ length stack.now) }
    ensures leads { (cells : List Slot) (m : Frames) → Holds frames.now cells m → AllLead frames.now m stack.now → IfSome result (λ a. Leads frames.now m a.parent) }
    ensures row { (cells : List Slot) (m : Frames) (o : World) (go : List Value → List Value → ℕ → Run Machine) → Holds frames.now cells m → AllLead frames.now m stack.now →
        called m operand (values_of depth stack.now) o go ≡ with_actuals result stack.now o go }
{
    let Some(count) = index(operand) else {
        return None;
    };
    let Some(at) = stack::pop_values(stack, depth, count) else {
        return None;
    };
    let Some(under) = stack::pop(stack, at) else {
        return None;
    };
    let Some(parent) = parent_in(frames, stack[under]) else {
        return None;
    };
    Some(Actuals {
        at,
        count,
        under,
        parent,
    })
}

// Whether so many values fit into so many cells from a place on.
#[inline(always)]
fn is_filled(cells: usize, first: usize, count: usize) -> bool
    ensures yes { result ≡ true → (vs : List Value) (to : Cells) → length vs ≡ count → length to ≡ cells → Fills (filled first vs to) }
    ensures no { result ≡ false → (vs : List Value) (to : Cells) → length vs ≡ count → length to ≡ cells → filled first vs to ≡ None }
    ensures short { result ≡ true → first < 2 ^ 63 → first + count < 2 ^ 64 }
{
    if count == 0 {
        return true;
    }
    if count > cells {
        return false;
    }
    if first > cells - count {
        return false;
    }
    true
}

// Whether a formal is by name, an array by reference or a procedure.
fn is_held(formal: CodeFormal) -> bool
    ensures { result ≡ is_held_of formal }
{
    match (formal.mode, formal.shape) {
        (CodeMode::Name, _) => true,
        (CodeMode::Reference, FormalShape::Array) => true,
        (CodeMode::Value, FormalShape::Procedure) => true,
        (CodeMode::Reference, FormalShape::Procedure) => true,
        _ => false,
    }
}

// Whether one is.
fn holds_one(formals: &[CodeFormal]) -> bool
    ensures { result ≡ list_any is_held_of formals.now }
{
    formals.iter().any(|formal| is_held(*formal))
}

// Where the formal parameters of a procedure begin: behind its result.
#[inline(always)]
fn first_formal(result_type: CodeType) -> usize
    ensures is { result ≡ (if is_nothing_of result_type then 0 else 1) }
    ensures short { result < 2 ^ 63 }
{
    match result_type {
        CodeType::Nothing => 0,
        _ => 1,
    }
}

// The actual parameters fill the cells of a new frame from a place on. It answers whether there were as many cells.
#[inline(always)]
fn supply(
    storage: &mut Storage,
    home: FrameRef,
    first: usize,
    stack: &[Slot],
    actuals: Actuals,
) -> bool
    requires within { actuals.at + actuals.count ≤ length stack.now }
    requires short { first + actuals.count < 2 ^ 64 }
    ensures texts { storage.new.texts ≡ storage.old.texts }
    ensures image { storage.new.image ≡ storage.old.image }
    ensures row { result ≡ true → (l : LimitsOf) (before : Option (List ℕ)) (now : Outside) (p : Storage) (o : World) (m : Frames) (k : ℕ) (b : BlockOf) (g : Beginning) (parent : Option Reference) (t : Activation) (r : Registers) →
        t.registers.home ≡ home → Opens l p storage.old k b g parent t before now o m → AtWork p o m r stack.now →
        Supplied l p storage.new k b g parent t before now o m (filled first (values_from stack.now actuals.at actuals.count) (first_cells b)) }
{
    let at = actuals.at;
    let count = actuals.count;
    fill(
        &storage.frames,
        &mut storage.cells,
        home,
        first,
        stack,
        at,
        count,
    )
}

// A new frame gets its actual parameters and goes on top.
#[inline(always)]
fn pass(
    storage: &mut Storage,
    top: &mut Activation,
    below: &mut Vec<Activation>,
    next: Activation,
    formals: &[CodeFormal],
    first: usize,
    actuals: Actuals,
) -> Flow
    requires within { actuals.at + actuals.count ≤ length top.old.stack.items }
    requires under { actuals.under ≤ length top.old.stack.items }
    requires short { first + actuals.count < 2 ^ 64 }
    requires behind { top.old.registers.pc + 1 < 2 ^ 64 }
    requires fits { top.old.registers.depth ≤ length top.old.stack.items }
    requires next { next.registers.depth ≤ length next.stack.items }
    requires others { AllFit below.old.items }
    ensures fits { top.new.registers.depth ≤ length top.new.stack.items }
    ensures others { AllFit below.new.items }
    ensures texts { storage.new.texts ≡ storage.old.texts }
    ensures image { storage.new.image ≡ storage.old.image }
    ensures row { (l : LimitsOf) (line : ℕ) (before : Option (List ℕ)) (now : Outside) (p : Storage) (o : World) (m : Frames) (k : ℕ) (b : BlockOf) (g : Beginning) (parent : Option Reference) (cells : Cells) →
        b.formals ≡ formals.now → Opens l p storage.old k b g parent next before now o m → AtWork p o m top.old.registers top.old.stack.items → AllAtWork p o m below.old.items →
        filled first (values_from top.old.stack.items actuals.at actuals.count) (first_cells b) ≡ Some cells →
        Leaves result l line storage.new top.new.registers top.new.stack.items below.new.items before now (in_new (handed_over (length m.instances) (arrays_by_value b.formals (values_from top.old.stack.items actuals.at actuals.count)) o) m k b g.start g.stage (stands_first g.object) (number_in parent) cells (waiting (activation_at top.old.registers top.old.stack.items) (values_of actuals.under top.old.stack.items) ∷ below_of below.old.items)) }
{
    let home = next.registers.home;
    if !supply(storage, home, first, &top.stack, actuals) {
        return Flow::Memory;
    }
    let at = actuals.at;
    let count = actuals.count;
    hand_over(
        &mut storage.arrays,
        formals,
        &top.stack,
        at,
        count,
        home.stamp,
    );
    top.registers.depth = actuals.under;
    cover(top, below, next)
}

// The frames on the chain are kept where the block is not class-free and has a formal by name, an array by reference or a procedure. It answers
// whether the frames were all there, as they are in a run.
#[inline(always)]
fn keep_for(
    block: &BlockRecord,
    storage: &mut Storage,
    top: &Activation,
    below: &[Activation],
) -> bool
    ensures texts { storage.new.texts ≡ storage.old.texts }
    ensures image { storage.new.image ≡ storage.old.image }
    ensures same { storage.new ≡ record (storage.old) { frames = storage.new.frames } }
    ensures stacks { rooms storage.new.frames.items ≡ rooms storage.old.frames.items }
    ensures row { result ≡ true → (cells : List Slot) (m : Frames) (a : ActivationOf) → owner a ≡ owner_at top.now.registers → Holds storage.old.frames.items cells m →
        KeptIn storage.old.frames.items storage.new.frames.items cells m (frames_kept block.now (a ∷ below_of below.now) m) }
{
    if block.class_free || !holds_one(&block.formals) {
        return true;
    }
    keep_frames(&mut storage.frames, top.registers, below)
}

/// Enters the block of a procedure with actual parameters. Where it has to keep the frames on the chain and one of them is not there, to which
/// no run comes, it answers want of memory.
#[inline(always)]
pub fn enter_called(
    alloc: Global,
    limits: &Limits,
    storage: &mut Storage,
    top: &mut Activation,
    below: &mut Vec<Activation>,
    number: u32,
    block: &BlockRecord,
    actuals: Actuals,
) -> Flow
    requires short { top.old.registers.pc + 1 < 2 ^ 64 }
    requires fits { top.old.registers.depth ≤ length top.old.stack.items }
    requires others { AllFit below.old.items }
    requires within { actuals.at + actuals.count ≤ length top.old.stack.items }
    requires under { actuals.under ≤ length top.old.stack.items }
    ensures fits { top.new.registers.depth ≤ length top.new.stack.items }
    ensures others { AllFit below.new.items }
    ensures texts { storage.new.texts ≡ storage.old.texts }
    ensures image { storage.new.image ≡ storage.old.image }
    ensures row { (line : ℕ) (now : Outside) → ((cells : List Slot) (m : Frames) → Holds storage.old.frames.items cells m → AllLead storage.old.frames.items m top.old.stack.items → Leads storage.old.frames.items m actuals.parent) →
        Obeys result limits.now line (λ o m a b. entering_frame limits.now o m a b line number block.now actuals.parent.stamp (values_from top.old.stack.items actuals.at actuals.count) (values_of actuals.under top.old.stack.items)) storage.old storage.new top.old.registers top.new.registers top.old.stack.items top.new.stack.items below.old.items below.new.items now now }
{
    let first = first_formal(block.result_type);
    if !is_filled(block.types.len(), first, actuals.count) {
        return Flow::NoRule;
    }
    if !keep_for(block, storage, top, below) {
        return Flow::Memory;
    }
    let flow = pay(limits, storage, words_instance(block.cells, false));
    match flow {
        Flow::On => {}
        _ => return flow,
    }
    match open(
        alloc,
        storage,
        number,
        block,
        as_frame(block),
        Some(actuals.parent),
    ) {
        Ok(next) => pass(storage, top, below, next, &block.formals, first, actuals),
        Err(_) => Flow::Memory,
    }
}

/// Calls a procedure.
#[inline(always)]
pub fn call(
    alloc: Global,
    blocks: &[BlockRecord],
    instrs: &[Lined],
    limits: &Limits,
    storage: &mut Storage,
    top: &mut Activation,
    below: &mut Vec<Activation>,
    block_operand: i64,
    count_operand: i64,
) -> Flow
    requires short { top.old.registers.pc + 1 < 2 ^ 64 }
    requires fits { top.old.registers.depth ≤ length top.old.stack.items }
    requires others { AllFit below.old.items }
    ensures fits { top.new.registers.depth ≤ length top.new.stack.items }
    ensures others { AllFit below.new.items }
    ensures texts { storage.new.texts ≡ storage.old.texts }
    ensures image { storage.new.image ≡ storage.old.image }
    ensures row { (code : CodeOf) (line : ℕ) (now : Outside) → code.blocks ≡ blocks.now → code.instrs ≡ instrs.now →
        Obeys result limits.now line (λ o m a b. entering_procedure code limits.now o m a b line block_operand count_operand) storage.old storage.new top.old.registers top.new.registers top.old.stack.items top.new.stack.items below.old.items below.new.items now now }
{
    let depth = top.registers.depth;
    let Some(actuals) = take_actuals(&storage.frames, &top.stack, depth, count_operand) else {
        return Flow::NoRule;
    };
    let Some(number) = block_of(blocks, instrs, BlockKind::Procedure, block_operand) else {
        return Flow::NoRule;
    };
    let Ok(short) = u32::try_from(number) else {
        return Flow::Memory;
    };
    enter_called(
        alloc,
        limits,
        storage,
        top,
        below,
        short,
        &blocks[number],
        actuals,
    )
}
