//! That code is answered as its program, so that `compile` and `exec` answer as `run`. Each law is a function that does nothing; its clause is the law.
ghost use Rattle.std.specs.Prelude.{◌≡◌, List, Option, ℕ};
ghost use Rattle.command_line.specs.declared.words.Command.TheVariants.{Compile, Listing};
ghost use Rattle.sim_base.specs.declared.limits.Limits.{Limits};
ghost use Rattle.sim_code.specs.Code.{CodeOf};
ghost use Rattle.sim_run.specs.RunEnds.{IsRunnable};
ghost use Rattle.sim_scope.specs.Source.{Source};
ghost use Rattle.sim_driver.specs.Answer.{Answer, IsSourceAnswer};
ghost use Rattle.sim_driver.specs.CompiledAnswer.{AnswerAlike, AnswersAs, WroteExecutable, WroteListing};
ghost use Rattle.sim_driver.specs.Output.{IsCodeFor, Writes};
ghost use Rattle.sim_driver.specs.declared.status.Status.TheVariants.{Normal};

use code_finite::laws::every_code_ends;
use sim_built::laws::allowed_programs_run;
use sim_relate::laws::compiled_code_runs_as_meant;
use sim_tree::grammar::one_tree;

/// Code that stands for a program that can be run is answered as the program, whatever the limits and the input are. So two such codes, as that which
/// `compile` writes and that which `list` lists, are answered alike.
pub fn code_is_answered_as_its_program()
    ensures same { (s : Source) (code : CodeOf) → IsRunnable s → IsCodeFor s code → AnswersAs code s }
    ensures alike { (s : Source) (code other : CodeOf) → IsRunnable s → IsCodeFor s code → IsCodeFor s other → AnswerAlike code other }
{
    compiled_code_runs_as_meant();
    every_code_ends();
}

/// At a normal end `compile` has written the spelling of code, and `list` the listing of code, that runs as the source is run, under the same limits
/// and with the same input. `exec` runs that spelling so, where it is no longer than a code file may be.
pub fn what_is_written_runs_as_its_source()
    ensures compiled { (source input : List ℕ) (l : Limits) (answer : Answer) (old new : Option (List ℕ)) → IsSourceAnswer Compile l source input answer → answer.status ≡ Normal
        → Writes old new answer.output → WroteExecutable source old new }
    ensures listed { (source input : List ℕ) (l : Limits) (answer : Answer) (old new : Option (List ℕ)) → IsSourceAnswer Listing l source input answer → answer.status ≡ Normal
        → Writes old new answer.output → WroteListing source old new }
{
    code_is_answered_as_its_program();
    one_tree();
    allowed_programs_run();
}
