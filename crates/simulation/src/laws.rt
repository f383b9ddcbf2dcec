//! Laws of the definitions that the contracts cite.
ghost use Rattle.std.specs.Prelude.{◌≡◌, ℕ, ℤ, ◌↔◌, ◌≤ℤ◌, Bool, true, false, List, [], ◌∷◌, Option, Some, None, Ok, Err};
ghost use Rattle.std.specs.List.{All};
ghost use Rattle.sim_base.specs.declared.run_error.RunError.TheVariants.{NoNoticeLeft, OutsideQualification, OtherSimulation};
ghost use Rattle.notices.specs.declared.notice.Notice.{Notice};
ghost use Rattle.notices.specs.Schedule.{IsOrdered, IsOnce};
ghost use Rattle.notices.specs.declared.activation.Activation.{Activation};
ghost use Rattle.notices.specs.declared.activation.Placement.{Placement};
ghost use Rattle.notices.specs.declared.activation.ProcessRef.{ProcessRef};
ghost use Rattle.notices.specs.declared.activation.ProcessRef.TheVariants.{NoProcess, OfAnother, OfThis};
ghost use Rattle.notices.specs.declared.next.Next.TheVariants.{Stay};
ghost use Rattle.notices.specs.Scheduling.{time, held, passivated, cancelled, activated, operand_of, is_no_process, next_of};

/// Time never goes back: no procedure leaves a notice whose time is before the present one.
pub fn time_never_goes_back()
    ensures hold { (l new : List Notice) (t : ℤ) →
        IsOrdered l → held t l ≡ Ok new → All (λ m. time l ≤ℤ m.time) new }
    ensures passivate { (l : List Notice) → IsOrdered l → All (λ m. time l ≤ℤ m.time) (passivated l) }
    ensures cancel { (l new : List Notice) (x : Option ProcessRef) →
        IsOrdered l → cancelled x l ≡ Ok new → All (λ m. time l ≤ℤ m.time) new }
    ensures activate { (l new : List Notice) (a : Activation) →
        IsOrdered l → activated a l ≡ Ok new → All (λ m. time l ≤ℤ m.time) new }
{}

/// `cancel` of the current process is `passivate`.
pub fn cancel_of_the_current_is_passivate()
    ensures { (n : Notice) (l : List Notice) (ended : Bool) →
        IsOnce (n ∷ l) → cancelled (Some (OfThis n.process ended)) (n ∷ l) ≡ Ok (passivated (n ∷ l)) }
{}

/// The references of an activation are tested before it is settled whether it does nothing: an object that is no process is `E7`,
/// whatever the other reference, and a process of another block is `E53`.
pub fn references_are_tested_first()
    ensures no_process { (l : List Notice) (again : Bool) (placement : Placement) →
        activated (record { process = Some NoProcess; again = again; placement = placement }) l ≡ Err OutsideQualification }
    ensures operand { (l : List Notice) (process : Option ProcessRef) (again : Bool) (placement : Placement) →
        operand_of placement ≡ Some NoProcess →
        activated (record { process = process; again = again; placement = placement }) l ≡ Err OutsideQualification }
    ensures of_another { (l : List Notice) (again : Bool) (placement : Placement) →
        is_no_process (operand_of placement) ≡ false →
        activated (record { process = Some OfAnother; again = again; placement = placement }) l ≡ Err OtherSimulation }
    ensures operand_of_another { (l : List Notice) (process : Option ProcessRef) (again : Bool) (placement : Placement) →
        operand_of placement ≡ Some OfAnother → is_no_process process ≡ false →
        activated (record { process = process; again = again; placement = placement }) l ≡ Err OtherSimulation }
{}

/// `E50` comes exactly where no notice is left, and control stays exactly where the first process is the
/// same as before.
pub fn answers_tell_the_list()
    ensures empty { (old new : List Notice) → (next_of old new ≡ Err NoNoticeLeft) ↔ (new ≡ []) }
    ensures stay { (m n : Notice) (old new : List Notice) →
        (next_of (m ∷ old) (n ∷ new) ≡ Ok Stay) ↔ (n.process.0 ≡ m.process.0) }
{}
