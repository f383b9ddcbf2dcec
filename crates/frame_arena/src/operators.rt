//! The operators on the last values of a stack, in place.
ghost use Rattle.std.specs.Prelude.{◌≡◌, ◌<◌, ◌≤◌, ◌∷◌, ℕ, List, length, false};
ghost use Rattle.sim_values.specs.Operators.{calculate, compare, connect, one_of, same_objects, same_reference, step_test, two_of};
ghost use Rattle.sim_values.specs.declared.operators.Monadic.{Monadic};
ghost use Rattle.sim_values.specs.Texts.{Frame as TextFrame};
ghost use Rattle.sim_code.specs.Events.{answering, applying_one, applying_two, testing_step};
ghost use Rattle.sim_code.specs.Machine.{Frames, Machine, Of, Value, plain};
ghost use Rattle.sim_code.specs.Outcome.{ArrayOf, Run, World};
ghost use Rattle.frame_arena.specs.Arrays.{AllLeadArrays, RegionOf};
ghost use Rattle.frame_arena.specs.declared.frames.Frame.{Frame};
ghost use Rattle.frame_arena.specs.Frames.{AllLead};
ghost use Rattle.frame_arena.specs.Operators.{IfDepth, IsScalar, answer_in, is_on_texts, on_one, on_three, on_two, with_applied};
ghost use Rattle.frame_arena.specs.Slots.{reference_to, value_of};
ghost use Rattle.frame_arena.specs.Stacks.{values_of};

use crate::contents::Referent;
use crate::slot::Slot;
use sim_base::RunError;
use sim_values::{Calculation, Comparison, Connective, Dyadic, Monadic, negate, step_goes_on};

/// What became of an operator on the last values.
#[derive(Clone, Copy, Debug, PartialEq, Eq)]
pub enum Applied {
    /// Its value stands in their place; this is how many values there are then.
    Depth(usize),
    /// There are too few values, or they are of other kinds.
    NoRule,
    /// The run-time error.
    Fault(RunError),
}

/// What an operator makes of values.
#[derive(Clone, Copy, Debug, PartialEq, Eq)]
pub enum Computed {
    /// A value.
    Value(Slot),
    /// A value is of another kind.
    NoRule,
    /// The run-time error.
    Fault(RunError),
}

/// Two integers to an integer.
#[inline(always)]
pub fn calculated(op: Calculation, x: Slot, y: Slot) -> Computed
    ensures answer { answer_in result ≡ on_two (calculate op) (value_of x) (value_of y) }
    ensures scalar { IsScalar result }
{
    let Some(b) = y.as_integer() else {
        return Computed::NoRule;
    };
    let Some(a) = x.as_integer() else {
        return Computed::NoRule;
    };
    match op.apply(a, b) {
        Ok(z) => Computed::Value(Slot::integer(z)),
        Err(error) => Computed::Fault(error),
    }
}

/// Two integers or two characters to a truth value.
#[inline(always)]
pub fn compared(op: Comparison, x: Slot, y: Slot) -> Computed
    ensures answer { answer_in result ≡ on_two (compare op) (value_of x) (value_of y) }
    ensures scalar { IsScalar result }
{
    if let Some(b) = y.as_character() {
        return match x.as_character() {
            Some(a) => Computed::Value(Slot::truth(op.holds(a.cmp(&b)))),
            None => Computed::NoRule,
        };
    }
    let Some(b) = y.as_integer() else {
        return Computed::NoRule;
    };
    match x.as_integer() {
        Some(a) => Computed::Value(Slot::truth(op.holds(a.cmp(&b)))),
        None => Computed::NoRule,
    }
}

/// Two truth values to one.
#[inline(always)]
pub fn connected(op: Connective, x: Slot, y: Slot) -> Computed
    ensures answer { answer_in result ≡ on_two (connect op) (value_of x) (value_of y) }
    ensures scalar { IsScalar result }
{
    let Some(b) = y.as_truth() else {
        return Computed::NoRule;
    };
    match x.as_truth() {
        Some(a) => Computed::Value(Slot::truth(op.apply(a, b))),
        None => Computed::NoRule,
    }
}

/// Whether two references are the same.
#[inline(always)]
pub fn same(x: Slot, y: Slot) -> Computed
    ensures answer { answer_in result ≡ on_two same_objects (value_of x) (value_of y) }
    ensures scalar { IsScalar result }
{
    let Some(b) = y.as_reference() else {
        return Computed::NoRule;
    };
    match x.as_reference() {
        Some(a) => Computed::Value(Slot::truth(same_referent(a, b))),
        None => Computed::NoRule,
    }
}

// Whether both are `none`, or the same object, or the main program of the same block.
#[inline(always)]
fn same_referent(a: Referent, b: Referent) -> bool
    ensures { result ≡ same_reference (reference_to a) (reference_to b) }
{
    match (a, b) {
        (Referent::Object(i), Referent::Object(j)) => i == j,
        (Referent::Main(i), Referent::Main(j)) => i == j,
        (Referent::Nothing, Referent::Nothing) => true,
        _ => false,
    }
}

/// What an operator of two operands that works on no text makes of two values.
#[inline(always)]
#[tactic(auto, unfolding(sim_values::specs::Operators::two_of))]
pub fn computed_of_two(op: Dyadic, x: Slot, y: Slot) -> Computed
    requires no_texts { is_on_texts op ≡ false }
    ensures answer { (texts : List TextFrame) → answer_in result ≡ on_two (two_of op texts) (value_of x) (value_of y) }
    ensures scalar { IsScalar result }
{
    match op {
        Dyadic::Calculate(calculation) => calculated(calculation, x, y),
        Dyadic::Compare(comparison) => compared(comparison, x, y),
        Dyadic::Connect(connective) => connected(connective, x, y),
        Dyadic::SameObject => same(x, y),
        Dyadic::CompareTexts(_) => Computed::NoRule,
        Dyadic::SameText => Computed::NoRule,
    }
}

/// What an operator of one operand makes of a value.
#[inline(always)]
pub fn computed_of_one(op: Monadic, x: Slot) -> Computed
    ensures answer { answer_in result ≡ on_one (one_of op) (value_of x) }
    ensures scalar { IsScalar result }
{
    match op {
        Monadic::Negate => negated(x),
        Monadic::Not => inverted(x),
    }
}

// The negation of an integer.
#[inline(always)]
fn negated(x: Slot) -> Computed
    ensures answer { answer_in result ≡ on_one (one_of Monadic.Negate) (value_of x) }
    ensures scalar { IsScalar result }
{
    let Some(a) = x.as_integer() else {
        return Computed::NoRule;
    };
    match negate(a) {
        Ok(z) => Computed::Value(Slot::integer(z)),
        Err(error) => Computed::Fault(error),
    }
}

// The other truth value.
#[inline(always)]
fn inverted(x: Slot) -> Computed
    ensures answer { answer_in result ≡ on_one (one_of Monadic.Not) (value_of x) }
    ensures scalar { IsScalar result }
{
    match x.as_truth() {
        Some(a) => Computed::Value(Slot::truth(!a)),
        None => Computed::NoRule,
    }
}

/// The test of a step element on its step, its variable and its limit.
#[inline(always)]
pub fn step_tested(x: Slot, y: Slot, z: Slot) -> Computed
    ensures answer { answer_in result ≡ on_three step_test (value_of x) (value_of y) (value_of z) }
    ensures scalar { IsScalar result }
{
    let Some(limit) = z.as_integer() else {
        return Computed::NoRule;
    };
    let Some(variable) = y.as_integer() else {
        return Computed::NoRule;
    };
    match x.as_integer() {
        Some(step) => Computed::Value(Slot::truth(step_goes_on(step, variable, limit))),
        None => Computed::NoRule,
    }
}

// Puts what was computed at a place, where it is a value, which is then the last one.
#[inline(always)]
fn put(stack: &mut [Slot], at: usize, computed: Computed) -> Applied
    requires there { at < length stack.old }
    requires scalar { IsScalar computed }
    ensures within { IfDepth result (λ n. n ≤ length stack.new) }
    ensures long { length stack.new ≡ length stack.old }
    ensures leads { (frames : List Frame) (m : Frames) → AllLead frames m stack.old → AllLead frames m stack.new }
    ensures leads_arrays { (regions : List RegionOf) (arrays : List ArrayOf) → AllLeadArrays regions arrays stack.old → AllLeadArrays regions arrays stack.new }
    ensures row { (line : ℕ) (o : World) (go : List Value → Run Machine) → answering line (answer_in computed) o (λ z. go (Of z ∷ values_of at stack.old)) ≡ with_applied result line stack.new o go }
{
    match computed {
        Computed::Value(slot) => {
            stack[at] = slot;
            Applied::Depth(at + 1)
        }
        Computed::NoRule => Applied::NoRule,
        Computed::Fault(error) => Applied::Fault(error),
    }
}

/// An operator of two operands on the two last values. It works on no text.
#[inline(always)]
pub fn apply_two(stack: &mut [Slot], depth: usize, op: Dyadic) -> Applied
    requires fits { depth ≤ length stack.old }
    requires no_texts { is_on_texts op ≡ false }
    ensures within { IfDepth result (λ n. n ≤ length stack.new) }
    ensures long { length stack.new ≡ length stack.old }
    ensures leads { (frames : List Frame) (m : Frames) → AllLead frames m stack.old → AllLead frames m stack.new }
    ensures leads_arrays { (regions : List RegionOf) (arrays : List ArrayOf) → AllLeadArrays regions arrays stack.old → AllLeadArrays regions arrays stack.new }
    ensures row { (line : ℕ) (o : World) (go : List Value → Run Machine) → applying_two plain op line (values_of depth stack.old) o (λ z rest. go (Of z ∷ rest)) ≡ with_applied result line stack.new o go }
{
    if depth < 2 {
        return Applied::NoRule;
    }
    let at = depth - 2;
    let computed = computed_of_two(op, stack[at], stack[at + 1]);
    put(stack, at, computed)
}

/// An operator of one operand on the last value.
#[inline(always)]
pub fn apply_one(stack: &mut [Slot], depth: usize, op: Monadic) -> Applied
    requires fits { depth ≤ length stack.old }
    ensures within { IfDepth result (λ n. n ≤ length stack.new) }
    ensures long { length stack.new ≡ length stack.old }
    ensures leads { (frames : List Frame) (m : Frames) → AllLead frames m stack.old → AllLead frames m stack.new }
    ensures leads_arrays { (regions : List RegionOf) (arrays : List ArrayOf) → AllLeadArrays regions arrays stack.old → AllLeadArrays regions arrays stack.new }
    ensures row { (line : ℕ) (o : World) (go : List Value → Run Machine) → applying_one plain op line (values_of depth stack.old) o (λ z rest. go (Of z ∷ rest)) ≡ with_applied result line stack.new o go }
{
    if depth < 1 {
        return Applied::NoRule;
    }
    let at = depth - 1;
    let computed = computed_of_one(op, stack[at]);
    put(stack, at, computed)
}

/// The test of a step element on the three last values: the step, the variable and the limit.
#[inline(always)]
pub fn test_step(stack: &mut [Slot], depth: usize) -> Applied
    requires fits { depth ≤ length stack.old }
    ensures within { IfDepth result (λ n. n ≤ length stack.new) }
    ensures long { length stack.new ≡ length stack.old }
    ensures leads { (frames : List Frame) (m : Frames) → AllLead frames m stack.old → AllLead frames m stack.new }
    ensures leads_arrays { (regions : List RegionOf) (arrays : List ArrayOf) → AllLeadArrays regions arrays stack.old → AllLeadArrays regions arrays stack.new }
    ensures row { (line : ℕ) (o : World) (go : List Value → Run Machine) → testing_step plain line (values_of depth stack.old) o (λ z rest. go (Of z ∷ rest)) ≡ with_applied result line stack.new o go }
{
    if depth < 3 {
        return Applied::NoRule;
    }
    let at = depth - 3;
    let computed = step_tested(stack[at], stack[at + 1], stack[at + 2]);
    put(stack, at, computed)
}
