//! Rows that put a frame on top.
ghost use Rattle.std.specs.Prelude.{◌≡◌, ℕ, ◌+◌, ◌<◌, ◌≤◌, ◌∷◌, ◌^◌, List, Option, Some, length};
ghost use Rattle.sim_base.specs.declared.limits.Limits.{Limits as LimitsOf};
ghost use Rattle.sim_values.specs.declared.value.FrameRef.{FrameRef};
ghost use Rattle.sim_code.specs.Code.{CodeOf};
ghost use Rattle.sim_code.specs.Code.{BlockOf};
ghost use Rattle.sim_code.specs.Events.{entering};
ghost use Rattle.sim_code.specs.Machine.{Activation as ActivationOf, Frames, block_at, first_cells, in_frame, waiting, words_of_block};
ghost use Rattle.sim_code.specs.Outcome.{Ending, Going, Run, World};
ghost use Rattle.object_machine.specs.Covering.{Covers};
ghost use Rattle.object_machine.specs.Standing.{AllFit, Obeys, Outside, activation_at, below_of};

use crate::blocks::block_of;
use crate::machine::{Activation, Flow, Storage};
use crate::openings::{as_frame, open};
use crate::paying::pay;
use sim_base::Limits;
use sim_code::{BlockKind, BlockRecord, Lined};
use sim_values::words_instance;
use std::alloc::Global;
use std::mem;

/// A new frame goes on top, and the one that was there waits behind its instruction.
#[inline(always)]
pub fn cover(top: &mut Activation, below: &mut Vec<Activation>, next: Activation) -> Flow
    requires short { top.old.registers.pc + 1 < 2 ^ 64 }
    requires fits { top.old.registers.depth ≤ length top.old.stack.items }
    requires next { next.registers.depth ≤ length next.stack.items }
    requires others { AllFit below.old.items }
    ensures fits { top.new.registers.depth ≤ length top.new.stack.items }
    ensures others { AllFit below.new.items }
    ensures row { Covers result next top.old.registers top.old.stack.items below.old.items top.new below.new.items }
{
    let mut under = mem::replace(top, next);
    under.registers.pc += 1;
    let Ok(()) = below.push(under) else {
        return Flow::Memory;
    };
    Flow::On
}

/// Enters a sub-block.
pub fn enter(
    alloc: Global,
    blocks: &[BlockRecord],
    instrs: &[Lined],
    limits: &Limits,
    storage: &mut Storage,
    top: &mut Activation,
    below: &mut Vec<Activation>,
    operand: i64,
) -> Flow
    requires short { top.old.registers.pc + 1 < 2 ^ 64 }
    requires fits { top.old.registers.depth ≤ length top.old.stack.items }
    requires others { AllFit below.old.items }
    ensures fits { top.new.registers.depth ≤ length top.new.stack.items }
    ensures others { AllFit below.new.items }
    ensures texts { storage.new.texts ≡ storage.old.texts }
    ensures image { storage.new.image ≡ storage.old.image }
    ensures row { (code : CodeOf) (line : ℕ) (now : Outside) → code.blocks ≡ blocks.now → code.instrs ≡ instrs.now →
        Obeys result limits.now line (λ o m a b. block_at code BlockKind.SubBlock operand o (λ k x y. entering limits.now line (words_of_block x) o (λ p. in_frame p m k x (Some a.home) (first_cells x) (waiting a a.stack ∷ b)))) storage.old storage.new top.old.registers top.new.registers top.old.stack.items top.new.stack.items below.old.items below.new.items now now }
{
    let Some(number) = block_of(blocks, instrs, BlockKind::SubBlock, operand) else {
        return Flow::NoRule;
    };
    let block = &blocks[number];
    let flow = pay(limits, storage, words_instance(block.cells, false));
    match flow {
        Flow::On => {}
        _ => return flow,
    }
    let Ok(short) = u32::try_from(number) else {
        return Flow::Memory;
    };
    match open(
        alloc,
        storage,
        short,
        block,
        as_frame(block),
        Some(top.registers.home),
    ) {
        Ok(next) => cover(top, below, next),
        Err(_) => Flow::Memory,
    }
}
