//! The words of storage in use, and the ticks taken.
ghost use Rattle.std.specs.Prelude.{◌≡◌, ◌≤◌, ℕ, IfSome};
ghost use Rattle.sim_base.specs.declared.limits.Limits.{Limits};
ghost use Rattle.sim_code.specs.Events.{taking, ticking};
ghost use Rattle.sim_code.specs.Machine.{Machine};
ghost use Rattle.sim_code.specs.Outcome.{Run, World};
ghost use Rattle.frame_arena.specs.Budget.{with_ticks, with_words};

use sim_values::is_exhausted;

/// So many words more than those in use, which it answers then, if they are within the budget.
#[inline(always)]
pub fn take_words(budget: u64, used: u64, wanted: u64) -> Option<u64>
    ensures within { IfSome result (λ words. words ≤ budget) }
    ensures row { (l : Limits) (line : ℕ) (o : World) (go : World → Run Machine) → l.storage ≡ budget → o.words ≡ used → taking l line wanted o go ≡ with_words result line used wanted o go }
{
    if is_exhausted(budget, used, wanted) {
        return None;
    }
    Some(used + wanted)
}

/// One tick more than those taken, which it answers then, if it is within the limit.
#[inline(always)]
pub fn take_tick(limit: u64, ticks: u64) -> Option<u64>
    ensures within { IfSome result (λ n. n ≤ limit) }
    ensures row { (l : Limits) (o : World) (go : World → Run Machine) → l.ticks ≡ limit → o.ticks ≡ ticks → ticking l o go ≡ with_ticks result limit o go }
{
    if ticks >= limit {
        return None;
    }
    Some(ticks + 1)
}
