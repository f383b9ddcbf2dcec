//! The check of a call that is known when it is done.
ghost use Rattle.std.specs.Prelude.{◌≡◌, ℕ, ◌+◌, ◌<◌, ◌≤◌, ◌^◌, List, Option, length};
ghost use Rattle.sim_base.specs.declared.limits.Limits.{Limits as LimitsOf};
ghost use Rattle.sim_code.specs.Code.{CodeOf};
ghost use Rattle.sim_code.specs.Formals.{class_level as class_level_of, each, holder_of, holders_agree as holders_agree_of};
ghost use Rattle.sim_code.specs.Machine.{Frames};
ghost use Rattle.sim_code.specs.Rows.{checking};
ghost use Rattle.frame_arena.specs.Frames.{AllLead, Holds, Leads};
ghost use Rattle.object_machine.specs.declared.machine.Storage.{Storage as StorageOf};
ghost use Rattle.object_machine.specs.Checking.{held_against};
ghost use Rattle.object_machine.specs.Standing.{Obeys, Outside};

use crate::blocks::same_kind;
use crate::constants::index;
use crate::fitting::{fits_now, is_reference};
use crate::machine::{Activation, Flow, Registers};
use crate::virtuals::procedure_in;
use frame_arena::frames::{self, Frame};
use frame_arena::{Slot, stack};
use sim_base::RunError;
use sim_code::{ActualList, BlockKind, BlockRecord, ClassRecord, CodeActual, CodeFormal};
use sim_values::FrameRef;

// The level of the objects of a class.
fn class_level(blocks: &[BlockRecord], classes: &[ClassRecord], class: u32) -> Option<u32>
    ensures row { (code : CodeOf) → code.blocks ≡ blocks.now → code.classes ≡ classes.now → result ≡ class_level_of code class }
{
    if class == 0 {
        return None;
    }
    let Some(record) = classes.get(class as usize - 1) else {
        return None;
    };
    let Some(block) = blocks.get(record.block as usize) else {
        return None;
    };
    Some(block.level)
}

// The number of the frame that holds the declaration of a class, among a frame and its enclosers.
fn holder(
    frames: &[Frame],
    blocks: &[BlockRecord],
    classes: &[ClassRecord],
    class: u32,
    from: FrameRef,
) -> Option<u64>
    ensures row { (code : CodeOf) (cells : List Slot) (m : Frames) → code.blocks ≡ blocks.now → code.classes ≡ classes.now → Holds frames.now cells m → Leads frames.now m from →
        result ≡ holder_of m (class_level_of code class) from.stamp }
{
    let Some(level) = class_level(blocks, classes, class) else {
        return None;
    };
    if level == 0 {
        return None;
    }
    let Some(frame) = frames::at_level(frames, from, level as usize - 1) else {
        return None;
    };
    Some(frame.stamp)
}

// Whether the classes of a formal and an actual parameter belong to the same frame.
fn holders_agree(
    frames: &[Frame],
    blocks: &[BlockRecord],
    classes: &[ClassRecord],
    parent: FrameRef,
    home: FrameRef,
    formal: CodeFormal,
    actual: CodeActual,
) -> Option<bool>
    ensures row { (code : CodeOf) (cells : List Slot) (m : Frames) → code.blocks ≡ blocks.now → code.classes ≡ classes.now → Holds frames.now cells m → Leads frames.now m parent → Leads frames.now m home →
        result ≡ holders_agree_of code m parent.stamp home.stamp formal actual }
{
    if !is_reference(formal.code_type) {
        return Some(true);
    }
    if actual.class == 0 {
        return Some(true);
    }
    let Some(wanted) = holder(frames, blocks, classes, formal.class, parent) else {
        return None;
    };
    let Some(given) = holder(frames, blocks, classes, actual.class, home) else {
        return None;
    };
    Some(wanted == given)
}

// The same of all of them, up to the first for which it is not so.
fn all_agree(
    frames: &[Frame],
    blocks: &[BlockRecord],
    classes: &[ClassRecord],
    parent: FrameRef,
    home: FrameRef,
    formals: &[CodeFormal],
    actuals: &[CodeActual],
) -> Option<bool>
    ensures row { (code : CodeOf) (cells : List Slot) (m : Frames) → code.blocks ≡ blocks.now → code.classes ≡ classes.now → Holds frames.now cells m → Leads frames.now m parent → Leads frames.now m home →
        result ≡ each (holders_agree_of code m parent.stamp home.stamp) formals.now actuals.now }
{
    for at in 0..formals.len() {
        if at >= actuals.len() {
            return Some(true);
        }
        match holders_agree(
            frames,
            blocks,
            classes,
            parent,
            home,
            formals[at],
            actuals[at],
        ) {
            Some(true) => {}
            Some(false) => return Some(false),
            None => return None,
        }
    }
    Some(true)
}

// Holds the formal parameters of a procedure that is declared in a frame against actual ones.
#[inline(always)]
fn hold_parameters(
    frames: &[Frame],
    blocks: &[BlockRecord],
    classes: &[ClassRecord],
    regs: &mut Registers,
    parent: FrameRef,
    formals: &[CodeFormal],
    actuals: &[CodeActual],
) -> Flow
    requires short { regs.old.pc + 1 < 2 ^ 64 }
    ensures depth { regs.new.depth ≡ regs.old.depth }
    ensures row { (code : CodeOf) (l : LimitsOf) (line : ℕ) (p : StorageOf) (stack : List Slot) (below : List Activation) (now : Outside) → code.blocks ≡ blocks.now → code.classes ≡ classes.now → p.frames.items ≡ frames.now → ((m : Frames) → AllLead p.frames.items m stack → Leads p.frames.items m parent) →
        Obeys result l line (λ o m a b. held_against code o m a b line parent.stamp formals.now actuals.now) p p regs.old regs.new stack stack below below now now }
{
    if let Err(error) = fits_now(classes, formals, actuals) {
        return Flow::Fault(error);
    }
    match all_agree(frames, blocks, classes, parent, regs.home, formals, actuals) {
        Some(true) => {
            regs.pc += 1;
            Flow::On
        }
        Some(false) => Flow::Fault(RunError::WrongParameter),
        None => Flow::NoRule,
    }
}

/// Holds the procedure in hand against a list of actual parameters.
#[inline(always)]
pub fn check_actuals(
    frames: &[Frame],
    blocks: &[BlockRecord],
    classes: &[ClassRecord],
    lists: &[ActualList],
    stack: &[Slot],
    regs: &mut Registers,
    operand: i64,
) -> Flow
    requires fits { regs.old.depth ≤ length stack.now }
    requires short { regs.old.pc + 1 < 2 ^ 64 }
    ensures fits { regs.new.depth ≤ length stack.now }
    ensures row { (code : CodeOf) (l : LimitsOf) (line : ℕ) (p : StorageOf) (below : List Activation) (now : Outside) → code.blocks ≡ blocks.now → code.classes ≡ classes.now → code.actual_lists ≡ lists.now → p.frames.items ≡ frames.now →
        Obeys result l line (λ o m a b. checking code o m a b line operand) p p regs.old regs.new stack.now stack.now below below now now }
{
    let Some(number) = index(operand) else {
        return Flow::NoRule;
    };
    let Some(list) = lists.get(number) else {
        return Flow::NoRule;
    };
    let Some(at) = stack::pop(stack, regs.depth) else {
        return Flow::NoRule;
    };
    let Some(procedure) = procedure_in(stack[at]) else {
        return Flow::NoRule;
    };
    let Some(block) = blocks.get(procedure.block as usize) else {
        return Flow::NoRule;
    };
    if !same_kind(block.kind, BlockKind::Procedure) {
        return Flow::NoRule;
    }
    hold_parameters(
        frames,
        blocks,
        classes,
        regs,
        procedure.parent,
        &block.formals,
        &list.actuals,
    )
}
