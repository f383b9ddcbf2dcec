//! The row that enters prefixed blocks.
ghost use Rattle.std.specs.Prelude.{◌≡◌, ℕ, ◌+◌, ◌<◌, ◌≤◌, ◌^◌, List, IfSome, Some, length};
ghost use Rattle.sim_base.specs.declared.limits.Limits.{Limits as LimitsOf};
ghost use Rattle.sim_code.specs.Code.{CodeOf};
ghost use Rattle.sim_code.specs.Levels.{entering_prefixed};
ghost use Rattle.sim_code.specs.Machine.{Activation as ActivationOf, Frames};
ghost use Rattle.sim_code.specs.Outcome.{World};
ghost use Rattle.object_machine.specs.Preparing.{IsPrefixReady};
ghost use Rattle.object_machine.specs.Standing.{AllFit, Obeys, Outside};

use crate::constants::index;
use crate::entering::cover;
use crate::generating::{Ready, set_up, supplies};
use crate::levelled::{start_of, take_values};
use crate::machine::{Activation, Flow, Registers, Storage};
use crate::making::begin_block;
use crate::paying::pay;
use frame_arena::Slot;
use sim_base::Limits;
use sim_code::{BlockKind, BlockRecord, ClassRecord, Lined};
use sim_values::words_instance;
use std::alloc::Global;

// A prefixed block that is to be entered, if there is a rule for it. Its encloser is the frame at work.
fn prepare(
    blocks: &[BlockRecord],
    instrs: &[Lined],
    classes: &[ClassRecord],
    regs: &Registers,
    stack: &[Slot],
    operand: i64,
    values: i64,
) -> Option<Ready>
    requires fits { regs.now.depth ≤ length stack.now }
    ensures within { IfSome result (λ x. x.actuals.at + x.actuals.count ≤ length stack.now) }
    ensures under { IfSome result (λ x. x.actuals.under ≤ length stack.now) }
    ensures short { IfSome result (λ x. x.actuals.count < 2 ^ 63) }
    ensures encloser { IfSome result (λ x. x.actuals.parent ≡ regs.now.home) }
    ensures row { (code : CodeOf) (l : LimitsOf) (o : World) (m : Frames) (below : List ActivationOf) (line : ℕ) → code.blocks ≡ blocks.now → code.instrs ≡ instrs.now → code.classes ≡ classes.now →
        IsPrefixReady result code l o m regs.now stack.now below line operand values }
{
    let Some(actuals) = take_values(stack, regs.depth, values, regs.home) else {
        return None;
    };
    let Some(number) = index(operand) else {
        return None;
    };
    let Some(start) = start_of(blocks, instrs, classes, BlockKind::Prefixed, number) else {
        return None;
    };
    let Some(block) = blocks.get(number) else {
        return None;
    };
    if !supplies(blocks, classes, block, actuals.count) {
        return None;
    }
    Some(Ready {
        actuals,
        block: number,
        start,
    })
}

/// Enters a prefixed block. The frame at work waits.
pub fn enter_prefixed(
    alloc: Global,
    blocks: &[BlockRecord],
    instrs: &[Lined],
    classes: &[ClassRecord],
    limits: &Limits,
    storage: &mut Storage,
    top: &mut Activation,
    below: &mut Vec<Activation>,
    operand: i64,
    values: i64,
) -> Flow
    requires short { top.old.registers.pc + 1 < 2 ^ 64 }
    requires fits { top.old.registers.depth ≤ length top.old.stack.items }
    requires others { AllFit below.old.items }
    ensures fits { top.new.registers.depth ≤ length top.new.stack.items }
    ensures others { AllFit below.new.items }
    ensures texts { storage.new.texts ≡ storage.old.texts }
    ensures image { storage.new.image ≡ storage.old.image }
    ensures row { (code : CodeOf) (line : ℕ) (now : Outside) → code.blocks ≡ blocks.now → code.instrs ≡ instrs.now → code.classes ≡ classes.now →
        Obeys result limits.now line (λ o m a b. entering_prefixed code limits.now o m a b line operand values) storage.old storage.new top.old.registers top.new.registers top.old.stack.items top.new.stack.items below.old.items below.new.items now now }
{
    let Some(ready) = prepare(
        blocks,
        instrs,
        classes,
        &top.registers,
        &top.stack,
        operand,
        values,
    ) else {
        return Flow::NoRule;
    };
    let Some(block) = blocks.get(ready.block) else {
        return Flow::Memory;
    };
    let flow = pay(limits, storage, words_instance(block.cells, false));
    match flow {
        Flow::On => {}
        _ => return flow,
    }
    let Some(next) = set_up(
        alloc, blocks, classes, storage, &top.stack, block, ready, false,
    ) else {
        return Flow::Memory;
    };
    let home = next.registers.home;
    let Ok(()) = begin_block(alloc, storage, blocks, classes, block.class, home) else {
        return Flow::Memory;
    };
    top.registers.depth = ready.actuals.under;
    cover(top, below, next)
}
