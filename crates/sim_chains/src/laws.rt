//! Laws of chains and of the transfers of control. Each is a function that does nothing; its clauses are the laws.

ghost use Rattle.std.specs.Prelude.{◌≡◌, ℕ, Bool, true, false, ◌∷◌, [], ◌++◌, ◌<◌, ◌≤◌, ◌↔◌, ◌⊎◌, List, Option, Some, None, Result, Ok, Err, if◌then◌else◌, is_some, length};
ghost use Rattle.sim_base.specs.declared.run_error.RunError.{RunError};
ghost use Rattle.sim_base.specs.declared.run_error.RunError.TheVariants.{NoneIsNoComponent, ComponentIsAttached, ComponentIsTerminated};
ghost use Rattle.sim_chains.specs.declared.refusals.Transfer.TheVariants.{Stay, Leave, ResumeMain};
ghost use Rattle.sim_chains.specs.Chains.{Cut, cut_at, joined, stands_on, times_on, upper};
ghost use Rattle.sim_chains.specs.Components.{Components, entered, left, standing_of, state_of, waits_in, call, detach, resume, resume_main, give_control, finish, NoObject, AttachedObject, DetachedObject, ResumedObject, TerminatedObject};
ghost use Rattle.sim_chains.specs.Heads.{head_of};
ghost use Rattle.sim_chains.specs.Refusals.{answer_to_call, answer_to_detach, answer_to_main, answer_to_resume, error_of};
ghost use Rattle.sim_chains.specs.WellFormed.{IsWellFormed, is_object};
ghost use Rattle.sim_chains.specs.Runs as run;
ghost use Rattle.sim_chains.specs.Runs.{chains_of, Enter, New, End, Call, Detach, Resume};

/// Small programs, as what each of their events makes of the operating chain.
pub fn worked_runs()
    // An object writes a figure, detaches itself, and so once more; the third call is one too many.
    ensures called_too_often { chains_of (New ∷ Detach 1 ∷ Call (Some 1) ∷ Detach 1 ∷ Call (Some 1) ∷ End 1 ∷ Call (Some 1) ∷ [])
        ≡ Ok (0 ∷ []) ∷ Ok (1 ∷ 0 ∷ []) ∷ Ok (0 ∷ []) ∷ Ok (1 ∷ 0 ∷ []) ∷ Ok (0 ∷ []) ∷ Ok (1 ∷ 0 ∷ []) ∷ Ok (0 ∷ []) ∷ Err ComponentIsTerminated ∷ [] }
    // Two objects resume each other in turn; the end of the first gives control to the main component, not to the second.
    ensures resumed_in_turn { chains_of (New ∷ Detach 1 ∷ New ∷ Detach 2 ∷ Resume (Some 1) ∷ Resume (Some 2) ∷ Resume (Some 1) ∷ Resume (Some 2) ∷ Resume (Some 1) ∷ End 1 ∷ [])
        ≡ Ok (0 ∷ []) ∷ Ok (1 ∷ 0 ∷ []) ∷ Ok (0 ∷ []) ∷ Ok (2 ∷ 0 ∷ []) ∷ Ok (0 ∷ []) ∷ Ok (1 ∷ 0 ∷ []) ∷ Ok (2 ∷ 0 ∷ []) ∷ Ok (1 ∷ 0 ∷ []) ∷ Ok (2 ∷ 0 ∷ []) ∷ Ok (1 ∷ 0 ∷ []) ∷ Ok (0 ∷ []) ∷ [] }
    // An object detaches itself from within a block and a procedure with a block of its own, and they go on when it is called.
    ensures detached_below_the_top { chains_of (New ∷ Enter ∷ Enter ∷ Enter ∷ Detach 1 ∷ Call (Some 1) ∷ run.Leave ∷ run.Leave ∷ run.Leave ∷ Enter ∷ Enter ∷ Enter ∷ Detach 1 ∷ Call (Some 1) ∷ run.Leave ∷ run.Leave ∷ run.Leave ∷ End 1 ∷ [])
        ≡ Ok (0 ∷ []) ∷ Ok (1 ∷ 0 ∷ []) ∷ Ok (2 ∷ 1 ∷ 0 ∷ []) ∷ Ok (3 ∷ 2 ∷ 1 ∷ 0 ∷ []) ∷ Ok (4 ∷ 3 ∷ 2 ∷ 1 ∷ 0 ∷ []) ∷ Ok (0 ∷ []) ∷ Ok (4 ∷ 3 ∷ 2 ∷ 1 ∷ 0 ∷ []) ∷ Ok (3 ∷ 2 ∷ 1 ∷ 0 ∷ []) ∷ Ok (2 ∷ 1 ∷ 0 ∷ []) ∷ Ok (1 ∷ 0 ∷ [])
        ∷ Ok (5 ∷ 1 ∷ 0 ∷ []) ∷ Ok (6 ∷ 5 ∷ 1 ∷ 0 ∷ []) ∷ Ok (7 ∷ 6 ∷ 5 ∷ 1 ∷ 0 ∷ []) ∷ Ok (0 ∷ []) ∷ Ok (7 ∷ 6 ∷ 5 ∷ 1 ∷ 0 ∷ []) ∷ Ok (6 ∷ 5 ∷ 1 ∷ 0 ∷ []) ∷ Ok (5 ∷ 1 ∷ 0 ∷ []) ∷ Ok (1 ∷ 0 ∷ []) ∷ Ok (0 ∷ []) ∷ [] }
    // An object that was called calls itself.
    ensures call_of_itself { chains_of (New ∷ Detach 1 ∷ Call (Some 1) ∷ Call (Some 1) ∷ [])
        ≡ Ok (0 ∷ []) ∷ Ok (1 ∷ 0 ∷ []) ∷ Ok (0 ∷ []) ∷ Ok (1 ∷ 0 ∷ []) ∷ Err ComponentIsAttached ∷ [] }
{}

/// Cutting and joining are inverse: what is cut is joined to the chain that it was, and what is joined at an instance that does not
/// stand above is cut there. A chain has a cut at an instance exactly where that stands on it, and one cut where it stands there once.
pub fn cut_and_join<A>()
    ensures joins { (owner : A → Option ℕ) (x : ℕ) (l : List A) (k : Cut A) → cut_at owner x l ≡ Some k → joined k ≡ l }
    ensures cuts { (owner : A → Option ℕ) (x : ℕ) (k : Cut A) → owner k.here ≡ Some x → stands_on owner x k.above ≡ false → cut_at owner x (joined k) ≡ Some k }
    ensures whole { (k : Cut A) → upper k ++ k.below ≡ joined k }
    ensures none { (owner : A → Option ℕ) (x : ℕ) (l : List A) → stands_on owner x l ≡ false → cut_at owner x l ≡ None }
    ensures some { (owner : A → Option ℕ) (x : ℕ) (l : List A) → cut_at owner x l ≡ None → stands_on owner x l ≡ false }
    ensures one { (owner : A → Option ℕ) (x : ℕ) (k m : Cut A) → owner k.here ≡ Some x → owner m.here ≡ Some x → times_on owner x (joined k) ≡ 1 → joined k ≡ joined m → k ≡ m }
{}

/// The errors of the transfers of control, in their order: first `none`, then what the state says, then what the chain says. Of a
/// resumed object, `detach` has after its own the errors of control for the main component.
pub fn refusals<A>()
    ensures call_none { (c : Components A) → call c None ≡ Err NoneIsNoComponent }
    ensures call { (c : Components A) (y : ℕ) → error_of (call c (Some y)) ≡ error_of (answer_to_call (state_of c y)) }
    ensures resume_none { (owner : A → Option ℕ) (head : ℕ → ℕ) (c : Components A) → resume owner head c None ≡ Err NoneIsNoComponent }
    ensures resume { (owner : A → Option ℕ) (head : ℕ → ℕ) (c : Components A) (y : ℕ) → error_of (resume owner head c (Some y)) ≡ error_of (answer_to_resume (state_of c y) (stands_on owner (head y) c.operating)) }
    ensures main { (owner : A → Option ℕ) (c : Components A) (s : ℕ) → error_of (resume_main owner c s) ≡ error_of (answer_to_main (waits_in (standing_of c s)) (stands_on owner s c.operating)) }
    ensures detach { (owner : A → Option ℕ) (head : ℕ → ℕ) (c : Components A) (x : ℕ) (e : RunError) → answer_to_detach (state_of c x) (stands_on owner x c.operating) ≡ Err e → detach owner head c x ≡ Err e }
    ensures detach_stays { (owner : A → Option ℕ) (head : ℕ → ℕ) (c : Components A) (x : ℕ) → answer_to_detach (state_of c x) (stands_on owner x c.operating) ≡ Ok Stay → detach owner head c x ≡ Ok c }
    ensures detach_leaves { (owner : A → Option ℕ) (head : ℕ → ℕ) (c : Components A) (x : ℕ) → answer_to_detach (state_of c x) (stands_on owner x c.operating) ≡ Ok Leave → error_of (detach owner head c x) ≡ None }
    ensures detach_gives_up { (owner : A → Option ℕ) (head : ℕ → ℕ) (c : Components A) (x : ℕ) → answer_to_detach (state_of c x) (stands_on owner x c.operating) ≡ Ok ResumeMain → detach owner head c x ≡ resume_main owner c (head x) }
{}

/// By scheduling, control stays where the first process is as before; else its object is resumed, with the errors of `resume` apart
/// from that of `none`, or the main component gets control.
pub fn control_by_scheduling<A>()
    ensures stays { (owner : A → Option ℕ) (head : ℕ → ℕ) (c : Components A) (s : ℕ) (process : Option ℕ) → give_control owner head true c s process ≡ Ok c }
    ensures object { (owner : A → Option ℕ) (head : ℕ → ℕ) (c : Components A) (s y : ℕ) → error_of (give_control owner head false c s (Some y)) ≡ error_of (answer_to_resume (state_of c y) (stands_on owner (head y) c.operating)) }
    ensures main { (owner : A → Option ℕ) (head : ℕ → ℕ) (c : Components A) (s : ℕ) → give_control owner head false c s None ≡ resume_main owner c s }
{}

/// A called object that detaches itself leaves all as it was before the call.
pub fn call_and_detach<A>()
    ensures { (owner : A → Option ℕ) (head : ℕ → ℕ) (c called after : Components A) (y : ℕ) (above : List A) (a : A) → standing_of c y ≡ DetachedObject (above ++ a ∷ []) → owner a ≡ Some y → stands_on owner y above ≡ false
        → call c (Some y) ≡ Ok called → detach owner head called y ≡ Ok after → after ≡ c }
{}

/// What is well formed stays so where an instance is entered, whose number is the next one, and where a block or a procedure, or what
/// is no instance's own activation, ends on top. The system head of an object was entered before it, and is none.
pub fn entries_keep<A>()
    ensures block { (owner : A → Option ℕ) (head : ℕ → ℕ) (c : Components A) (a : A) → IsWellFormed owner head c → owner a ≡ Some (length c.standings)
        → ((x : ℕ) → is_object (standing_of (entered a (NoObject None) c) x) ≡ true → head x < x) → IsWellFormed owner head (entered a (NoObject None) c) }
    ensures object { (owner : A → Option ℕ) (head : ℕ → ℕ) (c : Components A) (a : A) → IsWellFormed owner head c → owner a ≡ Some (length c.standings)
        → ((x : ℕ) → is_object (standing_of (entered a AttachedObject c) x) ≡ true → head x < x) → is_object (standing_of c (head (length c.standings))) ≡ false
        → IsWellFormed owner head (entered a AttachedObject c) }
    ensures left { (owner : A → Option ℕ) (head : ℕ → ℕ) (c : Components A) (a : A) (rest : List A) → IsWellFormed owner head c → c.operating ≡ a ∷ rest
        → ((x : ℕ) → owner a ≡ Some x → is_object (standing_of c x) ≡ false) → IsWellFormed owner head (left c) }
{}

/// Where a detached object is resumed while the main component of its system operates, and the main component then gets control
/// again, all is as it was.
pub fn resume_and_back<A>()
    ensures { (owner : A → Option ℕ) (head : ℕ → ℕ) (c resumed after : Components A) (y : ℕ) (chain : List A) → IsWellFormed owner head c → standing_of c y ≡ DetachedObject chain → standing_of c (head y) ≡ NoObject None
        → resume owner head c (Some y) ≡ Ok resumed → resume_main owner resumed (head y) ≡ Ok after → after ≡ c }
{}

/// A resumed object in whose place another one is resumed keeps all that stands above the system head.
pub fn resume_and_keep<A>()
    ensures { (owner : A → Option ℕ) (head : ℕ → ℕ) (c after : Components A) (y z : ℕ) (chain waits : List A) (k : Cut A) → IsWellFormed owner head c → standing_of c y ≡ DetachedObject chain → standing_of c (head y) ≡ NoObject (Some waits)
        → standing_of c z ≡ ResumedObject → head z ≡ head y → cut_at owner (head y) c.operating ≡ Some k → resume owner head c (Some y) ≡ Ok after
        → (after.operating ≡ chain ++ k.here ∷ k.below) × (standing_of after z ≡ DetachedObject k.above) × (standing_of after y ≡ ResumedObject) }
{}

/// An attached object that ends on top of the operating chain leaves what is below it; where a resumed object ends, the main
/// component of its system goes on.
pub fn ends<A>()
    ensures attached { (owner : A → Option ℕ) (head : ℕ → ℕ) (c : Components A) (x : ℕ) (a : A) (rest : List A) → standing_of c x ≡ AttachedObject → c.operating ≡ a ∷ rest → owner a ≡ Some x
        → ((finish owner head c x).operating ≡ rest) × (standing_of (finish owner head c x) x ≡ TerminatedObject) }
    ensures resumed { (owner : A → Option ℕ) (head : ℕ → ℕ) (c : Components A) (x : ℕ) (waits : List A) (k : Cut A) → standing_of c x ≡ ResumedObject → standing_of c (head x) ≡ NoObject (Some waits) → cut_at owner (head x) c.operating ≡ Some k
        → ((finish owner head c x).operating ≡ waits ++ k.here ∷ k.below) × (standing_of (finish owner head c x) (head x) ≡ NoObject None) × (standing_of (finish owner head c x) x ≡ TerminatedObject) }
{}

/// The system head of an object is its encloser, where that is no object, else the head of the encloser.
pub fn heads()
    ensures none { (parent : ℕ → Option ℕ) (is_object : ℕ → Bool) (x : ℕ) → parent x ≡ None → head_of parent is_object x ≡ None }
    ensures encloser { (parent : ℕ → Option ℕ) (is_object : ℕ → Bool) (x p : ℕ) → parent x ≡ Some p → p < x → is_object p ≡ false → head_of parent is_object x ≡ Some p }
    ensures further { (parent : ℕ → Option ℕ) (is_object : ℕ → Bool) (x p : ℕ) → ((i j : ℕ) → parent i ≡ Some j → j < i) → parent x ≡ Some p → is_object p ≡ true → head_of parent is_object x ≡ head_of parent is_object p }
{}

/// Each transfer of control that is not refused keeps what is well formed, and so does the end of an object that operates on top.
pub fn transfers_keep<A>()
    ensures call { (owner : A → Option ℕ) (head : ℕ → ℕ) (c after : Components A) (y : Option ℕ) → IsWellFormed owner head c → call c y ≡ Ok after → IsWellFormed owner head after }
    ensures resume { (owner : A → Option ℕ) (head : ℕ → ℕ) (c after : Components A) (y : Option ℕ) → IsWellFormed owner head c → resume owner head c y ≡ Ok after → IsWellFormed owner head after }
    ensures main { (owner : A → Option ℕ) (head : ℕ → ℕ) (c after : Components A) (s : ℕ) → IsWellFormed owner head c → resume_main owner c s ≡ Ok after → IsWellFormed owner head after }
    ensures detach { (owner : A → Option ℕ) (head : ℕ → ℕ) (c after : Components A) (x : ℕ) → IsWellFormed owner head c → detach owner head c x ≡ Ok after → IsWellFormed owner head after }
    ensures end { (owner : A → Option ℕ) (head : ℕ → ℕ) (c : Components A) (x : ℕ) (a : A) (rest : List A) → IsWellFormed owner head c → c.operating ≡ a ∷ rest → owner a ≡ Some x
        → (standing_of c x ≡ AttachedObject) ⊎ (standing_of c x ≡ ResumedObject) → IsWellFormed owner head (finish owner head c x) }
{}
