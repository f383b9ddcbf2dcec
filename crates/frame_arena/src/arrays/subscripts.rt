//! Elements by their subscripts.
ghost use Rattle.std.specs.Prelude.{◌≡◌, ◌+◌, ◌*◌, ◌-◌, ◌<◌, ◌≤◌, ◌^◌, ◌∷◌, [], ℕ, ℤ, Bool, List, IfOk, IfSome, Ok, length, true, false};
ghost use Rattle.sim_values.specs.Words.{element_count, extent_of};
ghost use Rattle.sim_code.specs.Arrays.{as_many, are_inside, element_place, finding_element};
ghost use Rattle.sim_code.specs.Instances.{ElementPlace};
ghost use Rattle.sim_code.specs.Machine.{Address, Frames, Machine, Value, array_in, plain};
ghost use Rattle.sim_code.specs.Outcome.{ArrayOf, Run, World};
ghost use Rattle.frame_arena.specs.declared.frames.Frame.{Frame};
ghost use Rattle.frame_arena.specs.Arrays.{AllLeadArrays, HoldsArrays, offset_of};
ghost use Rattle.frame_arena.specs.Frames.{AllLead};
ghost use Rattle.frame_arena.specs.Operators.{IfDepth, with_applied};
ghost use Rattle.frame_arena.specs.Stacks.{integers_from, slot_at, values_of};

use super::Arrays;
use crate::operators::Applied;
use crate::slot::Slot;
use crate::stack::pop_integers;
use sim_base::RunError;

// How far a subscript is above the lower one of these bounds, if it is inside them.
#[inline(always)]
fn offset(lower: i64, upper: i64, subscript: i64) -> Option<u64>
    ensures { result ≡ offset_of (lower, upper) subscript }
{
    if subscript < lower || subscript > upper {
        return None;
    }
    Some(subscript.abs_diff(lower))
}

// How many subscripts a dimension with these bounds has, where there are some, and no more than an array may have elements.
#[inline(always)]
fn extent(lower: i64, upper: i64) -> u64
    ensures { 1 ≤ extent_of (lower, upper) → extent_of (lower, upper) ≤ 2 ^ 31 → result ≡ extent_of (lower, upper) }
{
    upper.abs_diff(lower).saturating_add(1)
}

// The place of an element among those whose next subscript is given too.
#[inline(always)]
fn next_place(at: usize, lower: i64, upper: i64, above: usize) -> usize
    ensures { 1 ≤ extent_of (lower, upper) → extent_of (lower, upper) ≤ 2 ^ 31 → at * extent_of (lower, upper) + above ≤ 2 ^ 31 → result ≡ at * extent_of (lower, upper) + above }
{
    let extent = extent(lower, upper) as usize;
    at.saturating_mul(extent).saturating_add(above)
}

// The place of the element with the subscripts that stand in a stack from a place on, one for each dimension; E4 where one is out of
// its bounds. `count` is how many elements there are, which is told of by the bounds.
fn place_of(
    bounds: &[(i64, i64)],
    stack: &[Slot],
    first: usize,
    count: usize,
) -> Result<usize, RunError>
    requires fits { first + length bounds.now ≤ length stack.now }
    ensures place { count ≡ element_count bounds.now → count ≤ 2 ^ 31 → result ≡ element_place bounds.now (integers_from stack.now first (length bounds.now)) }
    ensures within { count ≡ element_count bounds.now → count ≤ 2 ^ 31 → IfOk result (λ k. k < count) }
{
    if count == 0 {
        return Err(RunError::SubscriptOutOfBounds);
    }
    let mut at: usize = 0;
    for dimension in 0..bounds.len() {
        let (lower, upper) = bounds[dimension];
        let subscript = stack[first + dimension].data;
        let Some(above) = offset(lower, upper, subscript) else {
            return Err(RunError::SubscriptOutOfBounds);
        };
        at = next_place(at, lower, upper, above as usize);
    }
    Ok(at)
}

impl Arrays {
    /// The address of an element, from the array and as many subscripts on a stack, in their place; E5 for a wrong number of
    /// subscripts, E4 for a subscript out of its bounds. `class` is the class of a reference there, or 0.
    pub fn find_element(
        &self,
        stack: &mut [Slot],
        depth: usize,
        count: usize,
        class: u32,
    ) -> Applied
        requires fits { depth ≤ length stack.old }
        ensures within { IfDepth result (λ n. n ≤ length stack.new) }
        ensures long { length stack.new ≡ length stack.old }
        ensures leads { (frames : List Frame) (m : Frames) → AllLead frames m stack.old → AllLead frames m stack.new }
        ensures leads_arrays { (arrays : List ArrayOf) → AllLeadArrays self.now.regions arrays stack.old → AllLeadArrays self.now.regions arrays stack.new }
        ensures row { (line : ℕ) (o : World) (go : List Value → Run Machine) → HoldsArrays self.now o.arrays → AllLeadArrays self.now.regions o.arrays stack.old →
            finding_element plain array_in count line (values_of depth stack.old) o (λ array k rest. go (Address (ElementPlace array k class) ∷ rest)) ≡ with_applied result line stack.new o go }
    {
        let Some(first) = pop_integers(stack, depth, count) else {
            return Applied::NoRule;
        };
        if first < 1 {
            return Applied::NoRule;
        }
        let Some(array) = stack[first - 1].as_array() else {
            return Applied::NoRule;
        };
        let Some(place) = self.find(array) else {
            return Applied::NoRule;
        };
        let region = &self.regions[place];
        if region.bounds().len() != count {
            return Applied::Fault(RunError::WrongNumberOfSubscripts);
        }
        match place_of(region.bounds(), stack, first, region.elements().len()) {
            Ok(index) => {
                stack[first - 1] = Slot::element(array, index.min(u32::MAX as usize) as u32, class);
                Applied::Depth(first)
            }
            Err(error) => Applied::Fault(error),
        }
    }
}
