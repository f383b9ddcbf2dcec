//! That the run of each program comes to an end, and how processes end in worked programs. Each law is a function that does nothing; its clause is the law.
ghost use Rattle.std.specs.Prelude.{List, ℕ};
ghost use Rattle.sim_base.specs.declared.limits.Limits.{Limits};
ghost use Rattle.sim_scope.specs.Source.{Source};
ghost use Rattle.sim_finite.specs.Coming.{ComesToAnEnd};
ghost use Rattle.sim_finite.specs.ProcessEnds.{WorkedEnds};

/// The run of each program comes to an end, whatever its limits and its input are: every loop and every call takes ticks, of which there are
/// only so many, and between two ticks there is only so much to do. So it is of each source, also of one that breaks a static rule.
#[tactic(auto, using(crate::proofs::Main::comes_to_an_end))]
pub fn every_run_ends()
    ensures { (s : Source) (l : Limits) (input : List ℕ) → ComesToAnEnd s l input }
{}

/// Five worked programs, and nothing about others. In four a process ends and no notice is left: of a class with a body, of one without, of `process`
/// itself, and of a class whose prefix is another process class. In the fifth the next process is attached. Each run ends with the error and its line.
#[tactic(auto, using(crate::proofs::WorkedEnds::worked_ends))]
pub fn worked_ends_of_processes()
    ensures { WorkedEnds }
{}
