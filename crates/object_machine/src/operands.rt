//! Rows that work on the operand stack alone.
ghost use Rattle.std.specs.Prelude.{◌≡◌, ℕ, ◌+◌, ◌<◌, ◌≤◌, ◌∷◌, ◌^◌, List, Option, Some, None, length, IfSome, false};
ghost use Rattle.sim_base.specs.declared.limits.Limits.{Limits};
ghost use Rattle.sim_code.specs.Code.{CodeOf};
ghost use Rattle.sim_code.specs.Events.{having, popping, testing_step};
ghost use Rattle.sim_code.specs.Machine.{Frames, Of, on, plain};
ghost use Rattle.sim_code.specs.Outcome.{World};
ghost use Rattle.sim_code.specs.Rows.{code_of, truth_of, comparison_of, one_row, pushed, two_row};
ghost use Rattle.sim_values.specs.Plain.{Plain, Integer, Truth, Character, Nothing};
ghost use Rattle.frame_arena.specs.Arrays.{AllLeadArrays, SlotLeadsArray};
ghost use Rattle.frame_arena.specs.Frames.{AllLead, SlotLeads};
ghost use Rattle.frame_arena.specs.Operators.{IfDepth, is_on_texts, with_applied};
ghost use Rattle.frame_arena.specs.Slots.{value_of};
ghost use Rattle.frame_arena.specs.Stacks.{with_values};
ghost use Rattle.object_machine.specs.declared.machine.Storage.{Storage};
ghost use Rattle.object_machine.specs.Placed.{Stays};
ghost use Rattle.object_machine.specs.Standing.{Advances, Leaves, Obeys, Outside, Stands, activation_at, below_of};

use crate::constants::{character, comparison, truth};
use crate::machine::{Activation, Flow, Registers};
use frame_arena::{Applied, NOTHING, Slot, operators, stack};
use sim_values::{Dyadic, Monadic};

// Goes on with so many values, where there is a number of them.
#[inline(always)]
pub fn settle(regs: &mut Registers, depth: Option<usize>) -> Flow
    requires short { regs.old.pc + 1 < 2 ^ 64 }
    ensures fits { (room : ℕ) → regs.old.depth ≤ room → IfSome depth (λ n. n ≤ room) → regs.new.depth ≤ room }
    ensures stays { Stays regs.old regs.new }
    ensures next { Advances result regs.old regs.new }
    ensures row { (l : Limits) (line : ℕ) (p : Storage) (below : List Activation) (before : Option (List ℕ)) (now : Outside) (o : World) (m : Frames) (stack stack2 : List Slot) →
        Stands l p regs.old stack below before now o m → length stack2 ≡ length stack → AllLead p.frames.items m stack2 → AllLeadArrays p.arrays.regions o.arrays stack2 →
        Leaves result l line p regs.new stack2 below before now (with_values depth stack2 o (λ s. on o m (activation_at regs.old stack) s (below_of below))) }
{
    let Some(depth) = depth else {
        return Flow::NoRule;
    };
    regs.depth = depth;
    regs.pc += 1;
    Flow::On
}

/// Goes on with what an operator answered.
#[inline(always)]
pub fn settle_applied(regs: &mut Registers, applied: Applied) -> Flow
    requires short { regs.old.pc + 1 < 2 ^ 64 }
    ensures fits { (room : ℕ) → regs.old.depth ≤ room → IfDepth applied (λ n. n ≤ room) → regs.new.depth ≤ room }
    ensures stays { Stays regs.old regs.new }
    ensures next { Advances result regs.old regs.new }
    ensures row { (l : Limits) (line : ℕ) (p : Storage) (below : List Activation) (before : Option (List ℕ)) (now : Outside) (o : World) (m : Frames) (stack stack2 : List Slot) →
        Stands l p regs.old stack below before now o m → length stack2 ≡ length stack → AllLead p.frames.items m stack2 → AllLeadArrays p.arrays.regions o.arrays stack2 →
        Leaves result l line p regs.new stack2 below before now (with_applied applied line stack2 o (λ s. on o m (activation_at regs.old stack) s (below_of below))) }
{
    match applied {
        Applied::Depth(depth) => {
            regs.depth = depth;
            regs.pc += 1;
            Flow::On
        }
        Applied::NoRule => Flow::NoRule,
        Applied::Fault(error) => Flow::Fault(error),
    }
}

/// Pushes a value whose references lead.
#[inline(always)]
pub fn push(stack: &mut [Slot], regs: &mut Registers, slot: Slot) -> Flow
    requires fits { regs.old.depth ≤ length stack.old }
    requires short { regs.old.pc + 1 < 2 ^ 64 }
    ensures fits { regs.new.depth ≤ length stack.new }
    ensures stays { Stays regs.old regs.new }
    ensures next { Advances result regs.old regs.new }
    ensures row { (l : Limits) (line : ℕ) (p : Storage) (below : List Activation) (before : Option (List ℕ)) (now : Outside) (o : World) (m : Frames) →
        Stands l p regs.old stack.old below before now o m → SlotLeads p.frames.items m slot → SlotLeadsArray p.arrays.regions o.arrays slot →
        Leaves result l line p regs.new stack.new below before now (pushed o m (activation_at regs.old stack.old) (below_of below) (value_of slot)) }
{
    let depth = stack::push(stack, regs.depth, slot);
    settle(regs, depth)
}

/// Pushes an integer.
#[inline(always)]
pub fn push_integer(stack: &mut [Slot], regs: &mut Registers, value: i64) -> Flow
    requires fits { regs.old.depth ≤ length stack.old }
    requires short { regs.old.pc + 1 < 2 ^ 64 }
    ensures fits { regs.new.depth ≤ length stack.new }
    ensures stays { Stays regs.old regs.new }
    ensures next { Advances result regs.old regs.new }
    ensures row { (l : Limits) (line : ℕ) (p : Storage) (below : List Activation) (now : Outside) →
        Obeys result l line (λ o m a b. pushed o m a b (Of (Integer value))) p p regs.old regs.new stack.old stack.new below below now now }
{
    push(stack, regs, Slot::integer(value))
}

/// Pushes a truth value.
#[inline(always)]
pub fn push_truth(stack: &mut [Slot], regs: &mut Registers, operand: i64) -> Flow
    requires fits { regs.old.depth ≤ length stack.old }
    requires short { regs.old.pc + 1 < 2 ^ 64 }
    ensures fits { regs.new.depth ≤ length stack.new }
    ensures stays { Stays regs.old regs.new }
    ensures next { Advances result regs.old regs.new }
    ensures row { (l : Limits) (line : ℕ) (p : Storage) (below : List Activation) (now : Outside) →
        Obeys result l line (λ o m a b. having (truth_of operand) o (λ c. pushed o m a b (Of (Truth c)))) p p regs.old regs.new stack.old stack.new below below now now }
{
    let Some(holds) = truth(operand) else {
        return Flow::NoRule;
    };
    push(stack, regs, Slot::truth(holds))
}

/// Pushes a character.
#[inline(always)]
pub fn push_character(stack: &mut [Slot], regs: &mut Registers, operand: i64) -> Flow
    requires fits { regs.old.depth ≤ length stack.old }
    requires short { regs.old.pc + 1 < 2 ^ 64 }
    ensures fits { regs.new.depth ≤ length stack.new }
    ensures stays { Stays regs.old regs.new }
    ensures next { Advances result regs.old regs.new }
    ensures row { (l : Limits) (line : ℕ) (p : Storage) (below : List Activation) (now : Outside) →
        Obeys result l line (λ o m a b. having (code_of operand) o (λ c. pushed o m a b (Of (Character c)))) p p regs.old regs.new stack.old stack.new below below now now }
{
    let Some(code) = character(operand) else {
        return Flow::NoRule;
    };
    push(stack, regs, Slot::character(code))
}

/// Pushes `none`.
#[inline(always)]
pub fn push_none(stack: &mut [Slot], regs: &mut Registers) -> Flow
    requires fits { regs.old.depth ≤ length stack.old }
    requires short { regs.old.pc + 1 < 2 ^ 64 }
    ensures fits { regs.new.depth ≤ length stack.new }
    ensures stays { Stays regs.old regs.new }
    ensures next { Advances result regs.old regs.new }
    ensures row { (l : Limits) (line : ℕ) (p : Storage) (below : List Activation) (now : Outside) →
        Obeys result l line (λ o m a b. pushed o m a b (Of Nothing)) p p regs.old regs.new stack.old stack.new below below now now }
{
    push(stack, regs, NOTHING)
}

/// Pushes the last value once more.
#[inline(always)]
pub fn dup(stack: &mut [Slot], regs: &mut Registers) -> Flow
    requires fits { regs.old.depth ≤ length stack.old }
    requires short { regs.old.pc + 1 < 2 ^ 64 }
    ensures fits { regs.new.depth ≤ length stack.new }
    ensures stays { Stays regs.old regs.new }
    ensures next { Advances result regs.old regs.new }
    ensures row { (l : Limits) (line : ℕ) (p : Storage) (below : List Activation) (now : Outside) →
        Obeys result l line (λ o m a b. popping a.stack o (λ v s. pushed o m a b v)) p p regs.old regs.new stack.old stack.new below below now now }
{
    let depth = stack::dup(stack, regs.depth);
    settle(regs, depth)
}

/// Drops the last value.
#[inline(always)]
pub fn drop_top(stack: &[Slot], regs: &mut Registers) -> Flow
    requires fits { regs.old.depth ≤ length stack.now }
    requires short { regs.old.pc + 1 < 2 ^ 64 }
    ensures fits { regs.new.depth ≤ length stack.now }
    ensures stays { Stays regs.old regs.new }
    ensures next { Advances result regs.old regs.new }
    ensures row { (l : Limits) (line : ℕ) (p : Storage) (below : List Activation) (now : Outside) →
        Obeys result l line (λ o m a b. popping a.stack o (λ v s. on o m a s b)) p p regs.old regs.new stack.now stack.now below below now now }
{
    let depth = stack::pop(stack, regs.depth);
    settle(regs, depth)
}

/// Exchanges the two last values.
#[inline(always)]
pub fn swap(stack: &mut [Slot], regs: &mut Registers) -> Flow
    requires fits { regs.old.depth ≤ length stack.old }
    requires short { regs.old.pc + 1 < 2 ^ 64 }
    ensures fits { regs.new.depth ≤ length stack.new }
    ensures stays { Stays regs.old regs.new }
    ensures next { Advances result regs.old regs.new }
    ensures row { (l : Limits) (line : ℕ) (p : Storage) (below : List Activation) (now : Outside) →
        Obeys result l line (λ o m a b. popping a.stack o (λ y s. popping s o (λ x s. on o m a (x ∷ y ∷ s) b))) p p regs.old regs.new stack.old stack.new below below now now }
{
    let depth = stack::swap(stack, regs.depth);
    settle(regs, depth)
}

/// An operator of two operands, on no text.
#[inline(always)]
pub fn two(stack: &mut [Slot], regs: &mut Registers, op: Dyadic) -> Flow
    requires fits { regs.old.depth ≤ length stack.old }
    requires short { regs.old.pc + 1 < 2 ^ 64 }
    requires no_texts { is_on_texts op ≡ false }
    ensures fits { regs.new.depth ≤ length stack.new }
    ensures stays { Stays regs.old regs.new }
    ensures next { Advances result regs.old regs.new }
    ensures row { (l : Limits) (line : ℕ) (p : Storage) (below : List Activation) (now : Outside) →
        Obeys result l line (λ o m a b. two_row o m a b line op) p p regs.old regs.new stack.old stack.new below below now now }
{
    let applied = operators::apply_two(stack, regs.depth, op);
    settle_applied(regs, applied)
}

/// An operator of one operand.
#[inline(always)]
pub fn one(stack: &mut [Slot], regs: &mut Registers, op: Monadic) -> Flow
    requires fits { regs.old.depth ≤ length stack.old }
    requires short { regs.old.pc + 1 < 2 ^ 64 }
    ensures fits { regs.new.depth ≤ length stack.new }
    ensures stays { Stays regs.old regs.new }
    ensures next { Advances result regs.old regs.new }
    ensures row { (l : Limits) (line : ℕ) (p : Storage) (below : List Activation) (now : Outside) →
        Obeys result l line (λ o m a b. one_row o m a b line op) p p regs.old regs.new stack.old stack.new below below now now }
{
    let applied = operators::apply_one(stack, regs.depth, op);
    settle_applied(regs, applied)
}

/// A relation of numbers or characters.
#[inline(always)]
pub fn relation(stack: &mut [Slot], regs: &mut Registers, operand: i64) -> Flow
    requires fits { regs.old.depth ≤ length stack.old }
    requires short { regs.old.pc + 1 < 2 ^ 64 }
    ensures fits { regs.new.depth ≤ length stack.new }
    ensures stays { Stays regs.old regs.new }
    ensures next { Advances result regs.old regs.new }
    ensures row { (l : Limits) (line : ℕ) (p : Storage) (below : List Activation) (now : Outside) →
        Obeys result l line (λ o m a b. having (comparison_of operand) o (λ r. two_row o m a b line (Dyadic.Compare r))) p p regs.old regs.new stack.old stack.new below below now now }
{
    let Some(relation) = comparison(operand) else {
        return Flow::NoRule;
    };
    two(stack, regs, Dyadic::Compare(relation))
}

/// The test of a step element.
#[inline(always)]
pub fn step_test(stack: &mut [Slot], regs: &mut Registers) -> Flow
    requires fits { regs.old.depth ≤ length stack.old }
    requires short { regs.old.pc + 1 < 2 ^ 64 }
    ensures fits { regs.new.depth ≤ length stack.new }
    ensures stays { Stays regs.old regs.new }
    ensures next { Advances result regs.old regs.new }
    ensures row { (l : Limits) (line : ℕ) (p : Storage) (below : List Activation) (now : Outside) →
        Obeys result l line (λ o m a b. testing_step plain line a.stack o (λ c s. on o m a (Of c ∷ s) b)) p p regs.old regs.new stack.old stack.new below below now now }
{
    let applied = operators::test_step(stack, regs.depth);
    settle_applied(regs, applied)
}
