//! Walks from block to block.
ghost use Rattle.std.specs.Prelude.{◌≡◌, ℕ, Bool, Option};
ghost use Rattle.sim_scope.specs.Along.{Gives, first_along, some_along};

/// Whether one of so many blocks, from one onward, is so.
pub fn some_along<N: Fn(u32) -> Option<u32>, T: Fn(u32) -> bool>(
    most: usize,
    block: u32,
    next: N,
    test: T,
) -> bool
    requires onward { N.IsAlwaysCallable next }
    requires tests { T.IsAlwaysCallable test }
    ensures { (n : ℕ → Option ℕ) (t : ℕ → Bool) → Gives N.post next n → Gives T.post test t → result ≡ some_along n most t block }
{
    let mut block = block;
    for step in 0..most {
        if test(block) {
            return true;
        }
        match next(block) {
            Some(onward) => block = onward,
            None => return false,
        }
    }
    false
}

/// What the first of so many blocks, from one onward, gives that gives something.
pub fn first_along<A: Drop, N: Fn(u32) -> Option<u32>, L: Fn(u32) -> Option<A>>(
    most: usize,
    block: u32,
    next: N,
    look: L,
) -> Option<A>
    requires onward { N.IsAlwaysCallable next }
    requires looks { L.IsAlwaysCallable look }
    ensures { (n : ℕ → Option ℕ) (l : ℕ → Option A) → Gives N.post next n → Gives L.post look l → result ≡ first_along n most l block }
{
    let mut block = block;
    for step in 0..most {
        if let Some(found) = look(block) {
            return Some(found);
        }
        match next(block) {
            Some(onward) => block = onward,
            None => return None,
        }
    }
    None
}
