//! That a typed program always has a rule, and what its code may count on meanwhile. Each law is a function that does nothing; its clause is the law.
ghost use Rattle.std.specs.Prelude.{◌≡◌, ℕ, List};
ghost use Rattle.sim_base.specs.declared.limits.Limits.{Limits};
ghost use Rattle.sim_scope.specs.Source.{Source};
ghost use Rattle.sim_code.specs.Outcome.{Ended, NoRule, World};
ghost use Rattle.sim_meaning.specs.Meaning.{run};
ghost use Rattle.sim_meaning.specs.Sane.{NamesObjects, StaysSane};
ghost use Rattle.sim_sound.specs.Examples.{WorkedPrograms};
ghost use Rattle.sim_sound.specs.Typed.{Typed};

/// A typed program never comes to where there is no rule, whatever the limits and the input are.
pub fn typed_programs_have_a_rule()
    ensures { (s : Source) → Typed s → (l : Limits) (input : List ℕ) (n : ℕ) (o : World) → run s l input n ≡ Ended o NoRule → ⊥ }
{}

/// At each moment of a typed program's run the instance that operates lives with its enclosers, and stands at no other place of the chains; and
/// the components are as transfers of control leave them.
pub fn typed_programs_stay_sane()
    ensures { (s : Source) → Typed s → StaysSane s }
{}

/// At each moment of a typed program's run each reference in hand names an object, or the main program of a simulation, which is there.
pub fn typed_programs_name_objects()
    ensures { (s : Source) → Typed s → NamesObjects s }
{}

/// There are typed programs: a `for` list, a procedure that calls itself, a sub-block with arrays, texts, an array by value, classes, one with a prefix,
/// prefixed blocks, a link that goes into a set, and a sum whose term is passed by name. So no part of what is asked of a program speaks against another.
#[tactic(auto, using(crate::proofs::WorkedPrograms::worked_programs))]
pub fn worked_programs_are_typed()
    ensures { WorkedPrograms }
{}
