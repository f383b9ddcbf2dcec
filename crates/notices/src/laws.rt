//! Laws of the definitions that the contracts cite.
ghost use Rattle.std.specs.Prelude.{◌≡◌, ℕ, ℤ, pos, Bool, true, false, ◌<◌, ◌<ℤ◌, List, [], ◌∷◌, Ok, Err};
ghost use Rattle.std.specs.List.{All, before_first, after_first};
ghost use Rattle.sim_base.specs.declared.run_error.RunError.TheVariants.{NoNoticeLeft, TimeTooLarge};
ghost use Rattle.notices.specs.declared.notice.Notice.{Notice};
ghost use Rattle.notices.specs.declared.activation.Placement.TheVariants.{At, Delay, Before};
ghost use Rattle.notices.specs.Runs.{currents_of, activation, process, Hold, Passivate};
ghost use Rattle.notices.specs.Notices.{is_of, removed, placed_at, placed_direct, placed_near};
ghost use Rattle.notices.specs.Schedule.{IsOrdered, IsSchedule};
ghost use Rattle.notices.specs.Scheduling.{ProcessTests, seen_as};
ghost use Rattle.notices.specs.declared.activation.ProcessRef.TheVariants.{NoProcess, OfAnother, OfThis};

/// Whatever is placed or removed, the list stays ordered by time, with each process in it at most once and
/// below the room.
pub fn list_stays_a_schedule()
    ensures removed { (l : List Notice) (room x : ℕ) → IsSchedule l room → IsSchedule (removed x l) room }
    ensures at { (l : List Notice) (room x : ℕ) (t : ℤ) (prior : Bool) →
        IsSchedule l room → x < room → IsSchedule (placed_at t prior x l) room }
    ensures direct { (l : List Notice) (room x : ℕ) → IsSchedule l room → x < room → IsSchedule (placed_direct x l) room }
    ensures near { (l : List Notice) (room x y : ℕ) (before : Bool) →
        IsSchedule l room → x < room → IsSchedule (placed_near before y x l) room }
{}

/// Among equal times a notice that is put in plainly stands last: all behind it are later.
pub fn plain_stands_after_equal_times()
    ensures { (l : List Notice) (x : ℕ) (t : ℤ) →
        All (λ m. t <ℤ m.time) (after_first (is_of x) (placed_at t false x l)) }
{}

/// Among equal times a notice that is put in with `prior` stands first: all in front of it are earlier.
pub fn prior_stands_before_equal_times()
    ensures { (l : List Notice) (x : ℕ) (t : ℤ) →
        All (λ m. m.time <ℤ t) (before_first (is_of x) (placed_at t true x l)) }
{}

/// The direct form puts a notice where `prior` at the present time does.
pub fn direct_is_prior_at_the_present_time()
    ensures { (n : Notice) (l : List Notice) (x : ℕ) →
        IsOrdered (n ∷ l) → placed_direct x (n ∷ l) ≡ placed_at n.time true x (n ∷ l) }
{}

/// The notices of the other processes keep their times and their order.
pub fn others_keep_their_order()
    ensures at { (l : List Notice) (x : ℕ) (t : ℤ) (prior : Bool) →
        IsOrdered l → removed x (placed_at t prior x l) ≡ removed x l }
    ensures direct { (l : List Notice) (x : ℕ) → removed x (placed_direct x l) ≡ removed x l }
    ensures near { (l : List Notice) (x y : ℕ) (before : Bool) → removed x (placed_near before y x l) ≡ removed x l }
{}

/// Small schedules, as who is current, and when, after each of their calls.
pub fn worked_schedules()
    // Three processes at time 5, the last of them `prior`, each of which holds 0 once; then the second one is put before the third.
    ensures equal_times { currents_of (activation false 1 (At (pos 5) false) ∷ activation false 2 (At (pos 5) false) ∷ activation false 3 (At (pos 5) true) ∷ Hold (pos 5) ∷ Hold (pos 0) ∷ Hold (pos 0) ∷ Hold (pos 0) ∷ activation true 2 (Before (process 3)) ∷ Hold (pos 0) ∷ Passivate ∷ [])
        ≡ Ok (pos 0, 0) ∷ Ok (pos 0, 0) ∷ Ok (pos 0, 0) ∷ Ok (pos 0, 0) ∷ Ok (pos 5, 3) ∷ Ok (pos 5, 1) ∷ Ok (pos 5, 2) ∷ Ok (pos 5, 0) ∷ Ok (pos 5, 0) ∷ Ok (pos 5, 2) ∷ Ok (pos 5, 3) ∷ [] }
    // The new place is found while the old notice of the main program still stands.
    ensures old_notice_stands { currents_of (activation false 1 (At (pos 9) false) ∷ activation true 0 (Delay (pos 2) false) ∷ []) ≡ Ok (pos 0, 0) ∷ Ok (pos 0, 0) ∷ Ok (pos 2, 0) ∷ [] }
    ensures no_notice_left { currents_of (Passivate ∷ []) ≡ Ok (pos 0, 0) ∷ Err NoNoticeLeft ∷ [] }
    ensures time_too_large { currents_of (Hold (pos 9223372036854775807) ∷ Hold (pos 1) ∷ []) ≡ Ok (pos 0, 0) ∷ Ok (pos 9223372036854775807, 0) ∷ Err TimeTooLarge ∷ [] }
{}

/// How a simulation block sees a reference: whether the object is a process comes first, then whether it is one of the block.
pub fn references_seen()
    ensures no_process { (tests : ProcessTests) (x : ℕ) → tests.is_process x ≡ false → seen_as tests x ≡ NoProcess }
    ensures of_another { (tests : ProcessTests) (x : ℕ) → tests.is_process x ≡ true → tests.is_of_block x ≡ false → seen_as tests x ≡ OfAnother }
    ensures of_this { (tests : ProcessTests) (x : ℕ) → tests.is_process x ≡ true → tests.is_of_block x ≡ true
        → seen_as tests x ≡ OfThis (record { 0 = tests.number x }) (tests.has_ended x) }
{}
