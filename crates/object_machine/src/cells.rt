//! Rows on frames and their cells.
ghost use Rattle.std.specs.Prelude.{◌≡◌, ℕ, ◌+◌, ◌<◌, ◌≤◌, ◌^◌, List, Option, IfSome, length};
ghost use Rattle.sim_code.specs.Events.{having, popping, when};
ghost use Rattle.sim_code.specs.Instances.{CellPlace};
ghost use Rattle.sim_code.specs.Machine.{Activation as ActivationOf, Address, Frames, Link as LinkTo, Machine, cell as cell_value_of, cell_at, cell_set, has_cell, index as index_of, level as at_level_of, on};
ghost use Rattle.sim_code.specs.Outcome.{Run, World};
ghost use Rattle.sim_code.specs.Code.{CodeOf};
ghost use Rattle.sim_code.specs.declared.instr.Instr.{Instr};
ghost use Rattle.sim_code.specs.Rows.{pushed, row};
ghost use Rattle.frame_arena.specs.Frames.{Has, Holds, IsSpan, Leads, number_in, span_number};
ghost use Rattle.frame_arena.specs.Slots.{cell_value, value_of};
ghost use Rattle.frame_arena.specs.Stacks.{slot_at};
ghost use Rattle.frame_arena.specs.Arrays.{AllLeadArrays, RegionOf, SlotLeadsArray};
ghost use Rattle.frame_arena.specs.Frames.{AllLead, SlotLeads};
ghost use Rattle.sim_code.specs.Outcome.{ArrayOf};
ghost use Rattle.object_machine.specs.Arrayed.{is_unqualified};
ghost use Rattle.object_machine.specs.Placed.{Stays};
ghost use Rattle.object_machine.specs.Standing.{Advances, Obeys, Outside, SameBut, Untouched};

use crate::constants::index;
use crate::machine::{Activation, Flow, Registers, Storage};
use crate::operands::push;
use frame_arena::frames::{self, Frame, Span};
use frame_arena::{NOTHING, Slot, SlotKind, stack};
use sim_base::Limits;
use sim_values::FrameRef;

/// The frame of a level.
#[inline(always)]
pub fn level_frame(frames: &[Frame], home: FrameRef, operand: i64) -> Option<FrameRef>
    ensures there { IfSome result (λ f. Has frames.now f.frame f.stamp) }
    ensures row { (cells : List Slot) (m : Frames) (a : ActivationOf) (o : World) (go : ℕ → Run Machine) → Holds frames.now cells m → Leads frames.now m home → a.home ≡ home.stamp →
        at_level_of m a operand o go ≡ having (number_in result) o go }
{
    let Some(level) = index(operand) else {
        return None;
    };
    frames::at_level(frames, home, level)
}

/// Pushes the frame of a level as a link.
#[inline(always)]
pub fn link(frames: &[Frame], stack: &mut [Slot], regs: &mut Registers, level: i64) -> Flow
    requires fits { regs.old.depth ≤ length stack.old }
    requires short { regs.old.pc + 1 < 2 ^ 64 }
    ensures fits { regs.new.depth ≤ length stack.new }
    ensures stays { Stays regs.old regs.new }
    ensures next { Advances result regs.old regs.new }
    ensures row { (l : Limits) (line : ℕ) (p : Storage) (below : List Activation) (now : Outside) → p.frames.items ≡ frames.now →
        Obeys result l line (λ o m a b. at_level_of m a level o (λ j. pushed o m a b (LinkTo j))) p p regs.old regs.new stack.old stack.new below below now now }
{
    let Some(frame) = level_frame(frames, regs.home, level) else {
        return Flow::NoRule;
    };
    if frame.stamp >= 1 << 63 {
        return Flow::Memory;
    }
    push(stack, regs, Slot::link(frame))
}

/// The span of the frame of a level. `own` is that of some frame.
#[inline(always)]
pub fn level_span(frames: &[Frame], own: Span, home: FrameRef, operand: i64) -> Option<Span>
    requires own { IsSpan frames.now own }
    ensures span { IfSome result (λ s. IsSpan frames.now s) }
    ensures row { (cells : List Slot) (m : Frames) (a : ActivationOf) (o : World) (go : ℕ → Run Machine) → Holds frames.now cells m → Leads frames.now m home → a.home ≡ home.stamp →
        at_level_of m a operand o go ≡ having (span_number result) o go }
{
    let Some(level) = index(operand) else {
        return None;
    };
    frames::span_at_level(frames, own, home, level)
}

/// The span of the frame of a level, which is mostly that at work.
#[inline(always)]
pub fn near_span(frames: &[Frame], home: FrameRef, operand: i64) -> Option<Span>
    ensures span { IfSome result (λ s. IsSpan frames.now s) }
    ensures row { (cells : List Slot) (m : Frames) (a : ActivationOf) (o : World) (go : ℕ → Run Machine) → Holds frames.now cells m → Leads frames.now m home → a.home ≡ home.stamp →
        at_level_of m a operand o go ≡ having (span_number result) o go }
{
    if let Some(_place) = frames::find(frames, home) {
        let own = frames::span_at(frames, home.frame);
        return level_span(frames, own, home, operand);
    }
    let Some(frame) = level_frame(frames, home, operand) else {
        return None;
    };
    Some(frames::span_at(frames, frame.frame))
}

/// Pushes the value of a cell. `own` is the span of some frame.
#[inline(always)]
pub fn load(
    frames: &[Frame],
    cells: &[Slot],
    own: Span,
    stack: &mut [Slot],
    regs: &mut Registers,
    level: i64,
    cell: i64,
) -> Flow
    requires own { IsSpan frames.now own }
    requires fits { regs.old.depth ≤ length stack.old }
    requires short { regs.old.pc + 1 < 2 ^ 64 }
    ensures fits { regs.new.depth ≤ length stack.new }
    ensures stays { Stays regs.old regs.new }
    ensures next { Advances result regs.old regs.new }
    ensures row { (l : Limits) (line : ℕ) (p : Storage) (below : List Activation) (now : Outside) → p.frames.items ≡ frames.now → p.cells.items ≡ cells.now →
        Obeys result l line (λ o m a b. cell_at m a level cell o (λ j c. having (cell_value_of m j c) o (λ v. pushed o m a b v))) p p regs.old regs.new stack.old stack.new below below now now }
{
    let Some(span) = level_span(frames, own, regs.home, level) else {
        return Flow::NoRule;
    };
    let Some(number) = index(cell) else {
        return Flow::NoRule;
    };
    let Some(slot) = frames::cell_in(cells, span, number) else {
        return Flow::NoRule;
    };
    push(stack, regs, slot)
}

/// The same value, as one that a cell may hold.
#[inline(always)]
pub fn held(slot: Slot) -> Slot
    ensures value { value_of result ≡ value_of slot }
    ensures held { cell_value result ≡ Some (value_of result) }
    ensures leads { (frames : List Frame) (m : Frames) → SlotLeads frames m slot → SlotLeads frames m result }
    ensures leads_arrays { (regions : List RegionOf) (arrays : List ArrayOf) → SlotLeadsArray regions arrays slot → SlotLeadsArray regions arrays result }
{
    match slot.kind {
        SlotKind::Empty => NOTHING,
        _ => slot,
    }
}

/// Pops a value into a cell. `own` is the span of some frame.
#[inline(always)]
pub fn store(
    frames: &[Frame],
    cells: &mut [Slot],
    own: Span,
    stack: &[Slot],
    regs: &mut Registers,
    level: i64,
    cell: i64,
) -> Flow
    requires own { IsSpan frames.now own }
    requires fits { regs.old.depth ≤ length stack.now }
    requires short { regs.old.pc + 1 < 2 ^ 64 }
    ensures fits { regs.new.depth ≤ length stack.now }
    ensures stays { Stays regs.old regs.new }
    ensures next { Advances result regs.old regs.new }
    ensures row { (l : Limits) (line : ℕ) (p p2 : Storage) (below : List Activation) (now : Outside) → SameBut p p2 → p.frames.items ≡ frames.now → p.cells.items ≡ cells.old → p2.cells.items ≡ cells.new →
        Obeys result l line (λ o m a b. popping a.stack o (λ v s. cell_at m a level cell o (λ j c. having (cell_set m j c v) o (λ m. on o m a s b)))) p p2 regs.old regs.new stack.now stack.now below below now now }
{
    let Some(at) = stack::pop(stack, regs.depth) else {
        return Flow::NoRule;
    };
    let Some(span) = level_span(frames, own, regs.home, level) else {
        return Flow::NoRule;
    };
    let Some(number) = index(cell) else {
        return Flow::NoRule;
    };
    if frames::hold_in(cells, span, number, &stack[at]) {
        regs.depth = at;
        regs.pc += 1;
        return Flow::On;
    }
    Flow::NoRule
}

/// The number of a cell of a frame, where it has such a cell.
#[inline(always)]
pub fn cell_of(span: Span, cell: i64) -> Option<u32>
    ensures row { (frames : List Frame) (cells : List Slot) (m : Frames) (o : World) (go : ℕ → Run Machine) → Holds frames cells m → IsSpan frames span →
        index_of cell o (λ c. when (has_cell m span.number c) o (go c)) ≡ having result o go }
{
    let Some(number) = index(cell) else {
        return None;
    };
    if number >= span.cells as usize {
        return None;
    }
    Some(number as u32)
}

/// The same of a frame that a reference leads to, if it was not given back.
#[inline(always)]
pub fn frame_cell(frames: &[Frame], at: FrameRef, cell: i64) -> Option<u32>
    ensures row { (cells : List Slot) (m : Frames) (o : World) (go : ℕ → Run Machine) → Holds frames.now cells m → Leads frames.now m at →
        index_of cell o (λ c. when (has_cell m at.stamp c) o (go c)) ≡ having result o go }
{
    let Some(_place) = frames::find(frames, at) else {
        return None;
    };
    cell_of(frames::span_at(frames, at.frame), cell)
}

/// Pushes the address of a cell, where no class is named. `own` is the span of some frame.
#[inline(always)]
pub fn address(
    frames: &[Frame],
    own: Span,
    stack: &mut [Slot],
    regs: &mut Registers,
    level: i64,
    cell: i64,
    class: i64,
) -> Option<Flow>
    requires own { IsSpan frames.now own }
    requires fits { regs.old.depth ≤ length stack.old }
    requires short { regs.old.pc + 1 < 2 ^ 64 }
    ensures fits { regs.new.depth ≤ length stack.new }
    ensures other { (p : Storage) → Untouched result p p regs.old regs.new stack.old stack.new }
    ensures next { IfSome result (λ f. Advances f regs.old regs.new) }
    ensures row { IfSome result (λ f. (code : CodeOf) (l : Limits) (line : ℕ) (p : Storage) (below : List Activation) (now : Outside) → p.frames.items ≡ frames.now →
        Obeys f l line (λ o m a b. row code l o m a b line (Instr.Addr level cell class)) p p regs.old regs.new stack.old stack.new below below now now) }
{
    if !unqualified(class) {
        return None;
    }
    Some(plain_address(frames, own, stack, regs, level, cell))
}

/// The same, without a class.
#[inline(always)]
pub fn plain_address(
    frames: &[Frame],
    own: Span,
    stack: &mut [Slot],
    regs: &mut Registers,
    level: i64,
    cell: i64,
) -> Flow
    requires own { IsSpan frames.now own }
    requires fits { regs.old.depth ≤ length stack.old }
    requires short { regs.old.pc + 1 < 2 ^ 64 }
    ensures fits { regs.new.depth ≤ length stack.new }
    ensures stays { Stays regs.old regs.new }
    ensures next { Advances result regs.old regs.new }
    ensures row { (l : Limits) (line : ℕ) (p : Storage) (below : List Activation) (now : Outside) → p.frames.items ≡ frames.now →
        Obeys result l line (λ o m a b. cell_at m a level cell o (λ j c. when (has_cell m j c) o (pushed o m a b (Address (CellPlace j c 0))))) p p regs.old regs.new stack.old stack.new below below now now }
{
    let Some(span) = level_span(frames, own, regs.home, level) else {
        return Flow::NoRule;
    };
    let Some(number) = cell_of(span, cell) else {
        return Flow::NoRule;
    };
    if span.number >= 1 << 63 {
        return Flow::Memory;
    }
    let frame = FrameRef {
        frame: span.region,
        stamp: span.number,
    };
    push(stack, regs, Slot::cell(frame, number, 0))
}

/// Whether no class is named.
#[inline(always)]
pub fn unqualified(class: i64) -> bool
    ensures { result ≡ is_unqualified class }
{
    match class {
        0 => true,
        _ => false,
    }
}
