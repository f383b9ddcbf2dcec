//! The rows of virtual procedures and of procedures in hand.
ghost use Rattle.std.specs.Prelude.{◌≡◌, ℕ, ◌+◌, ◌<◌, ◌≤◌, ◌^◌, List, IfSome, length};
ghost use Rattle.sim_base.specs.declared.limits.Limits.{Limits as LimitsOf};
ghost use Rattle.sim_code.specs.declared.instr.Instr.{Instr};
ghost use Rattle.sim_code.specs.Code.{CodeOf};
ghost use Rattle.sim_code.specs.Machine.{Frames, Machine, Value};
ghost use Rattle.sim_code.specs.Outcome.{Run, World};
ghost use Rattle.sim_code.specs.Rows.{entering_value, row};
ghost use Rattle.sim_code.specs.Virtuals.{match_found as match_found_of, matched as matched_of};
ghost use Rattle.frame_arena.specs.Frames.{AllLead, Holds, Leads, SlotLeads};
ghost use Rattle.frame_arena.specs.Slots.{value_of};
ghost use Rattle.frame_arena.specs.Stacks.{values_of};
ghost use Rattle.object_machine.specs.declared.machine.Storage.{Storage as StorageOf};
ghost use Rattle.object_machine.specs.Matching.{IsProcedure, found_in, value_called, with_value_call};
ghost use Rattle.object_machine.specs.Standing.{AllFit, Obeys, Outside};

use crate::blocks::{block_of, same_kind};
use crate::calling::{Actuals, enter_called, named};
use crate::classes::{Reference, class_of, reference_in, stamp_of};
use crate::constants::index;
use crate::machine::{Activation, Flow, Registers, Storage};
use frame_arena::frames::{self, Frame};
use frame_arena::{Slot, SlotKind, stack};
use sim_base::{Limits, RunError};
use sim_code::{BlockKind, BlockRecord, ClassRecord, Lined, Match};
use sim_values::FrameRef;
use std::alloc::Global;

/// What matches a virtual in the class of an object.
#[derive(Clone, Copy)]
pub enum MatchFound {
    /// The block of a procedure.
    Block(u32),
    /// No procedure does.
    NoMatch,
    /// There is no such class.
    NoClass,
}

/// A procedure in hand.
#[derive(Clone, Copy)]
pub struct ProcedureInHand {
    /// Its block.
    pub block: u32,
    /// The frame in which it is declared.
    pub parent: FrameRef,
}

/// A call of a procedure in hand.
#[derive(Clone, Copy)]
pub struct ValueCall {
    /// Its block.
    pub block: u32,
    /// Its actual parameters, and the frame in which it is declared.
    pub actuals: Actuals,
}

// The block of the procedure that matches a virtual, by the first entry for it.
fn matched(matches: &[Match], number: usize) -> Option<u32>
    ensures { result ≡ matched_of number matches.now }
{
    for entry in matches {
        if entry.virtual_number as usize == number {
            return Some(entry.block);
        }
    }
    None
}

// What matches a virtual in the class of an object or prefixed block.
#[inline(always)]
fn match_found(
    frames: &[Frame],
    blocks: &[BlockRecord],
    classes: &[ClassRecord],
    number: usize,
    object: FrameRef,
) -> MatchFound
    ensures row { (code : CodeOf) (cells : List Slot) (m : Frames) → code.blocks ≡ blocks.now → code.classes ≡ classes.now → Holds frames.now cells m → Leads frames.now m object →
        found_in result ≡ match_found_of code m number object.stamp }
{
    let Some(class) = class_of(frames, blocks, object) else {
        return MatchFound::NoClass;
    };
    if class == 0 {
        return MatchFound::NoClass;
    }
    let Some(record) = classes.get(class as usize - 1) else {
        return MatchFound::NoClass;
    };
    match matched(&record.matches, number) {
        Some(block) => MatchFound::Block(block),
        None => MatchFound::NoMatch,
    }
}

/// The object on top gives way to the procedure that matches a virtual in its class, which is declared in it.
#[inline(always)]
pub fn find_match(
    frames: &[Frame],
    blocks: &[BlockRecord],
    classes: &[ClassRecord],
    stack: &mut [Slot],
    regs: &mut Registers,
    operand: i64,
) -> Flow
    requires fits { regs.old.depth ≤ length stack.old }
    requires short { regs.old.pc + 1 < 2 ^ 64 }
    ensures fits { regs.new.depth ≤ length stack.new }
    ensures row { (code : CodeOf) (l : LimitsOf) (line : ℕ) (p : StorageOf) (below : List Activation) (now : Outside) → code.blocks ≡ blocks.now → code.classes ≡ classes.now → p.frames.items ≡ frames.now →
        Obeys result l line (λ o m a b. row code l o m a b line (Instr.Virt operand)) p p regs.old regs.new stack.old stack.new below below now now }
{
    let Some(number) = index(operand) else {
        return Flow::NoRule;
    };
    let Some(at) = stack::pop(stack, regs.depth) else {
        return Flow::NoRule;
    };
    match reference_in(stack[at]) {
        Reference::Object(object) => match match_found(frames, blocks, classes, number, object) {
            MatchFound::Block(block) => {
                stack[at] = Slot::procedure(block, object);
                regs.pc += 1;
                Flow::On
            }
            MatchFound::NoMatch => Flow::Fault(RunError::NoMatch),
            MatchFound::NoClass => Flow::NoRule,
        },
        Reference::IsNone => Flow::Fault(RunError::AccessThroughNone),
        Reference::Main(_) => Flow::NoRule,
        Reference::Other => Flow::NoRule,
    }
}

/// The procedure that a slot has.
#[inline(always)]
pub fn procedure_in(slot: Slot) -> Option<ProcedureInHand>
    ensures is { IsProcedure result (value_of slot) }
    ensures leads { IfSome result (λ q. (frames : List Frame) (m : Frames) → SlotLeads frames m slot → Leads frames m q.parent) }
{
    let stamp = stamp_of(slot);
    match slot.kind {
        SlotKind::Procedure => Some(ProcedureInHand {
            block: slot.more,
            parent: FrameRef {
                frame: slot.name,
                stamp,
            },
        }),
        _ => None,
    }
}

/// The link or reference on top gives way to a procedure that is declared in its frame.
pub fn procedure_value(
    blocks: &[BlockRecord],
    stack: &mut [Slot],
    regs: &mut Registers,
    operand: i64,
) -> Flow
    requires fits { regs.old.depth ≤ length stack.old }
    requires short { regs.old.pc + 1 < 2 ^ 64 }
    ensures fits { regs.new.depth ≤ length stack.new }
    ensures row { (code : CodeOf) (l : LimitsOf) (line : ℕ) (p : StorageOf) (below : List Activation) (now : Outside) → code.blocks ≡ blocks.now →
        Obeys result l line (λ o m a b. row code l o m a b line (Instr.ProcVal operand)) p p regs.old regs.new stack.old stack.new below below now now }
{
    let Some(number) = index(operand) else {
        return Flow::NoRule;
    };
    let Some(block) = blocks.get(number) else {
        return Flow::NoRule;
    };
    if !same_kind(block.kind, BlockKind::Procedure) {
        return Flow::NoRule;
    }
    let Ok(short) = u32::try_from(number) else {
        return Flow::Memory;
    };
    let Some(at) = stack::pop(stack, regs.depth) else {
        return Flow::NoRule;
    };
    let Some(parent) = named(stack[at]) else {
        return Flow::NoRule;
    };
    stack[at] = Slot::procedure(short, parent);
    regs.pc += 1;
    Flow::On
}

// The procedure in hand, if it is below as many values and its frame was not given back.
#[inline(always)]
fn take_value(frames: &[Frame], stack: &[Slot], depth: usize, operand: i64) -> Option<ValueCall>
    requires fits { depth ≤ length stack.now }
    ensures within { IfSome result (λ v. v.actuals.at + v.actuals.count ≤ length stack.now) }
    ensures under { IfSome result (λ v. v.actuals.under ≤ length stack.now) }
    ensures leads { (cells : List Slot) (m : Frames) → Holds frames.now cells m → AllLead frames.now m stack.now → IfSome result (λ v. Leads frames.now m v.actuals.parent) }
    ensures row { (cells : List Slot) (m : Frames) (o : World) (go : List Value → List Value → ℕ × ℕ → Run Machine) → Holds frames.now cells m → AllLead frames.now m stack.now →
        value_called m operand (values_of depth stack.now) o go ≡ with_value_call result stack.now o go }
{
    let Some(count) = index(operand) else {
        return None;
    };
    let Some(at) = stack::pop_values(stack, depth, count) else {
        return None;
    };
    let Some(under) = stack::pop(stack, at) else {
        return None;
    };
    let Some(procedure) = procedure_in(stack[under]) else {
        return None;
    };
    let parent = procedure.parent;
    let Some(_place) = frames::find(frames, parent) else {
        return None;
    };
    Some(ValueCall {
        block: procedure.block,
        actuals: Actuals {
            at,
            count,
            under,
            parent,
        },
    })
}

/// Calls the procedure in hand with the values above it.
#[inline(always)]
pub fn call_value(
    alloc: Global,
    blocks: &[BlockRecord],
    instrs: &[Lined],
    limits: &Limits,
    storage: &mut Storage,
    top: &mut Activation,
    below: &mut Vec<Activation>,
    count_operand: i64,
) -> Flow
    requires short { top.old.registers.pc + 1 < 2 ^ 64 }
    requires fits { top.old.registers.depth ≤ length top.old.stack.items }
    requires others { AllFit below.old.items }
    ensures fits { top.new.registers.depth ≤ length top.new.stack.items }
    ensures others { AllFit below.new.items }
    ensures texts { storage.new.texts ≡ storage.old.texts }
    ensures image { storage.new.image ≡ storage.old.image }
    ensures row { (code : CodeOf) (line : ℕ) (now : Outside) → code.blocks ≡ blocks.now → code.instrs ≡ instrs.now →
        Obeys result limits.now line (λ o m a b. entering_value code limits.now o m a b line count_operand) storage.old storage.new top.old.registers top.new.registers top.old.stack.items top.new.stack.items below.old.items below.new.items now now }
{
    let depth = top.registers.depth;
    let Some(called) = take_value(&storage.frames, &top.stack, depth, count_operand) else {
        return Flow::NoRule;
    };
    let number = i64::from(called.block);
    let Some(place) = block_of(blocks, instrs, BlockKind::Procedure, number) else {
        return Flow::NoRule;
    };
    enter_called(
        alloc,
        limits,
        storage,
        top,
        below,
        called.block,
        &blocks[place],
        called.actuals,
    )
}
