//! That code shows what its program means. Each law is a function that does nothing; its clause is the law.
ghost use Rattle.sim_scope.specs.Source.{Source};
ghost use Rattle.sim_code.specs.Code.{CodeOf};
ghost use Rattle.codegen.specs.Compiled.{Compiled};
ghost use Rattle.sim_meaning.specs.Sane.{HasRules, NamesObjects, StaysSane};
ghost use Rattle.sim_relate.specs.SameRuns.{SameRuns};
ghost use Rattle.sim_relate.specs.Examples.{WorkedCodes};

/// The code of a program shows what the program shows: each moment of the one run is one of the other, with the same output, ticks and
/// words, the same input left, and the same ending where it has ended; whatever the limits and the input are.
///
/// Three premises speak of the program's meaning alone. Its run never comes to where there is no rule: some rules of the meaning test more
/// than the instruction that stands for them. Each reference in hand names an object or the main program of a simulation block, and so does each
/// one that lies where an address in hand leads: tests of its class have no instruction for anything else. At each moment the instance that operates
/// lives with its enclosers and stands at no other place of the chains, other than as the home of actual parameters that are evaluated, and the
/// components are well formed: code needs it where an instruction finds an instance by its level, outward from the one that operates, where a temp is
/// written that no other work may count on, and where control goes back to a main component that waits. Each program that breaks no rule is so, as
/// soundness shows.
#[tactic(auto, using(crate::proofs::Whole::same_runs))]
pub fn compiled_code_runs_as_meant()
    ensures { (s : Source) (code : CodeOf) → HasRules s → NamesObjects s → StaysSane s → Compiled s code → SameRuns s code }
{}

/// There is code that stands for a program: eight worked codes do, of a `for` list, of a procedure that calls itself, of a sub-block with
/// arrays, of a program with texts, of one that makes objects, of one with a prefixed block, of one with a set, and of one with parameters
/// by name. So no part of what is asked of code speaks against another.
#[tactic(auto, using(crate::proofs::Examples::worked_codes))]
pub fn worked_codes_stand_for_their_programs()
    ensures { WorkedCodes }
{}
