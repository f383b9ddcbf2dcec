//! Rows that say where the run goes on.
ghost use Rattle.std.specs.Prelude.{◌≡◌, ℕ, ℤ, ◌+◌, ◌<◌, ◌≤◌, ◌^◌, List, Option, length};
ghost use Rattle.sim_code.specs.Code.{CodeOf};
ghost use Rattle.sim_code.specs.Events.{choosing, having, pop_truth, ticking};
ghost use Rattle.sim_code.specs.Machine.{Machine, at, is_tick as is_tick_in, jumping, on, plain};
ghost use Rattle.sim_code.specs.Outcome.{Run, World};
ghost use Rattle.object_machine.specs.Placed.{Stays};
ghost use Rattle.object_machine.specs.Standing.{Advances, Obeys, Outside};

use crate::constants::index;
use crate::machine::{Activation, Flow, Registers, Storage};
use frame_arena::{Slot, stack};
use sim_base::Limits;
use sim_code::{Instr, Lined};

/// Takes a tick.
#[inline(always)]
pub fn tick(limits: &Limits, storage: &mut Storage, regs: &mut Registers) -> Flow
    requires short { regs.old.pc + 1 < 2 ^ 64 }
    ensures depth { regs.new.depth ≡ regs.old.depth }
    ensures stays { Stays regs.old regs.new }
    ensures texts { storage.new.texts ≡ storage.old.texts }
    ensures image { storage.new.image ≡ storage.old.image }
    ensures frames { storage.new.frames ≡ storage.old.frames }
    ensures next { Advances result regs.old regs.new }
    ensures row { (line : ℕ) (stack : List Slot) (below : List Activation) (now : Outside) →
        Obeys result limits.now line (λ o m a b. ticking limits.now o (λ p. on p m a a.stack b)) storage.old storage.new regs.old regs.new stack stack below below now now }
{
    if storage.ticks >= limits.ticks {
        return Flow::TickLimit;
    }
    storage.ticks += 1;
    regs.pc += 1;
    Flow::On
}

// Where a jump leads.
#[inline(always)]
fn target(instrs: &[Lined], pc: usize, operand: i64) -> Option<usize>
    ensures row { (code : CodeOf) (o : World) (go : ℕ → Run Machine) → code.instrs ≡ instrs.now → jumping code pc operand o go ≡ having result o go }
{
    let Some(to) = index(operand) else {
        return None;
    };
    let Some(there) = instrs.get(to) else {
        return None;
    };
    if pc < to {
        return Some(to);
    }
    if is_tick(*there) {
        return Some(to);
    }
    None
}

// Whether an instruction takes a tick.
#[inline(always)]
fn is_tick(there: Lined) -> bool
    ensures { result ≡ is_tick_in (Some there) }
{
    match there.instr {
        Instr::Tick => true,
        _ => false,
    }
}

/// Goes on at an index.
#[inline(always)]
pub fn jump(instrs: &[Lined], regs: &mut Registers, operand: i64) -> Flow
    ensures depth { regs.new.depth ≡ regs.old.depth }
    ensures stays { Stays regs.old regs.new }
    ensures next { Advances result regs.old regs.new }
    ensures row { (code : CodeOf) (l : Limits) (line : ℕ) (p : Storage) (stack : List Slot) (below : List Activation) (now : Outside) → code.instrs ≡ instrs.now →
        Obeys result l line (λ o m a b. jumping code a.pc operand o (λ q. at o m a q a.stack b)) p p regs.old regs.new stack stack below below now now }
{
    let Some(to) = target(instrs, regs.pc, operand) else {
        return Flow::NoRule;
    };
    regs.pc = to;
    Flow::Jumped
}

/// Pops a truth value, and goes on at an index where it is false.
#[inline(always)]
pub fn jump_if_false(instrs: &[Lined], stack: &[Slot], regs: &mut Registers, operand: i64) -> Flow
    requires fits { regs.old.depth ≤ length stack.now }
    requires short { regs.old.pc + 1 < 2 ^ 64 }
    ensures fits { regs.new.depth ≤ length stack.now }
    ensures stays { Stays regs.old regs.new }
    ensures next { Advances result regs.old regs.new }
    ensures row { (code : CodeOf) (l : Limits) (line : ℕ) (p : Storage) (below : List Activation) (now : Outside) → code.instrs ≡ instrs.now →
        Obeys result l line (λ o m a b. pop_truth plain a.stack o (λ c stack. choosing c (on o m a stack b) (jumping code a.pc operand o (λ q. at o m a q stack b)))) p p regs.old regs.new stack.now stack.now below below now now }
{
    let Some(holds) = stack::pop_truth(stack, regs.depth) else {
        return Flow::NoRule;
    };
    if holds {
        regs.depth -= 1;
        regs.pc += 1;
        return Flow::On;
    }
    let Some(to) = target(instrs, regs.pc, operand) else {
        return Flow::NoRule;
    };
    regs.depth -= 1;
    regs.pc = to;
    Flow::Jumped
}
