// Does what the words ask for: `exec` with the code in a file, and every other command.
ghost use Rattle.std.specs.Prelude.{◌≡◌, ◌≤◌, ◌<◌, ◌+◌, ◌⊎◌, None, Some, true, false, IfSome, IsSome, List, ℕ};
ghost use Rattle.std.specs.Io.KnownBytes.{Keeps};
ghost use Rattle.std.specs.List.{AllByRecursion};
ghost use Rattle.code_file.specs.Faults.{Breaks};
ghost use Rattle.code_file.specs.Spelling.{Spells};
ghost use Rattle.code_file.specs.declared.rule.CodeRule.{CodeRule as AnyCodeRule};
ghost use Rattle.code_run.specs.CodeEnds.{TakesNothing as CodeTakesNothing};
ghost use Rattle.command_line.specs.Generated.{generated_of};
ghost use Rattle.command_line.specs.Words.{texts};
ghost use Rattle.command_line.specs.declared.words.Command.TheVariants.{Run};
ghost use Rattle.sim_base.specs.declared.limits.Limits.{Limits as AnyLimits};
ghost use Rattle.sim_base.specs.declared.numbering.Line.{Line as AnyLine};
ghost use Rattle.sim_base.specs.declared.rule.Rule.{Rule as AnyRule};
ghost use Rattle.sim_code.specs.Code.{CodeOf};
ghost use Rattle.sim_ports.specs.Faults.{Rose, StopsAt};
ghost use Rattle.sim_ports.specs.Named.{IsOpen};
ghost use Rattle.sim_run.specs.RunEnds.{TakesNothing};
ghost use Rattle.sim_scope.specs.Source.{Source as AnySource};
ghost use Rattle.sim_driver.specs.AllWords.{AreNoCommand, AskCodeRunWith, AskForNoCode, AskRun, AskSourceRunWith, IsAnswerTo, RunNothing, RunWasCutOff, TellsNamed, limit_of_file, named_file};
ghost use Rattle.sim_driver.specs.Answer.{Answer, Gives, RunsGenerated};
ghost use Rattle.sim_driver.specs.CodeAnswer.{IsAnswered};
ghost use Rattle.sim_driver.specs.Compiling.{Rejected, Runnable, SourceCompiles};
ghost use Rattle.sim_driver.specs.Output.{Begins};
ghost use Rattle.sim_driver.specs.OutputAfter.{WrittenAtTheEnd};
ghost use Rattle.sim_driver.specs.Reading.{TakesAtMost};
ghost use Rattle.sim_driver.specs.Status.{is_answer, is_of_code};

use crate::command::run_command;
use crate::executing::exec_file;
use crate::status::Status;
use command_line::{CodeRequest, code_request_of};
use sim_ports::{Files, Sink, Source};
use std::alloc::Global;

/// Does what the words ask for, and says how that ended.
pub fn do_words<F: Files, I: Source, O: Sink>(
    alloc: Global,
    words: &[String],
    files: &mut F,
    input: &mut I,
    out: &mut O,
) -> Status
    requires { F.selected files.old ≡ None }
    ensures usage { result ≡ Status.Usage → AreNoCommand (texts words.now) }
    ensures only_code { AskForNoCode (texts words.now) → is_of_code result ≡ false }
    ensures file_fault { result ≡ Status.FileFault → Rose (F.faults files.old) (F.faults files.new) × Keeps (O.written out.old) (O.written out.new) × IsSome (F.selected files.new) }
    ensures input_fault { result ≡ Status.InputFault → Rose (I.faults input.old) (I.faults input.new) }
    ensures write_fault { result ≡ Status.WriteFault → Rose (O.faults out.old) (O.faults out.new) }
    ensures stops { (O.faults out.new ≡ O.faults out.old) ⊎ StopsAt O.written O.faults out.old out.new }
    ensures chosen { IfSome (F.selected files.new) (λ chosen. named_file (texts words.now) ≡ Some chosen.name) }
    ensures read_to { (file source : List ℕ) → named_file (texts words.now) ≡ Some file → F.content files.old file ≡ Some source
        → IsOpen (F.selected files.new) → TakesAtMost (limit_of_file (texts words.now) + 1) source (F.left files.new) }
    ensures files_left { named_file (texts words.now) ≡ None → (F.selected files.new ≡ F.selected files.old)
        × (F.content files.new ≡ F.content files.old) × (F.left files.new ≡ F.left files.old) × (F.faults files.new ≡ F.faults files.old) }
    ensures answered { (source given : List ℕ) → TellsNamed (F.content files.old) (texts words.now) source → I.left input.old ≡ Some given → is_answer result ≡ true
        → (answer : Answer) × IsAnswerTo (texts words.now) source given answer }
    ensures code_answered { (l : AnyLimits) (file given : List ℕ) → AskCodeRunWith (texts words.now) l → TellsNamed (F.content files.old) (texts words.now) file
        → AllByRecursion (λ b. b < 256) file → I.left input.old ≡ Some given → IsAnswered l file given result (O.written out.old) (O.written out.new) }
    ensures answer { (source given : List ℕ) (answer : Answer) → TellsNamed (F.content files.old) (texts words.now) source → I.left input.old ≡ Some given
        → IsAnswerTo (texts words.now) source given answer → is_answer result ≡ true → Gives answer result (O.written out.old) (O.written out.new) }
    ensures prefix { (source given : List ℕ) (answer : Answer) → TellsNamed (F.content files.old) (texts words.now) source → I.left input.old ≡ Some given
        → IsAnswerTo (texts words.now) source given answer → Begins (O.written out.old) (O.written out.new) answer.output }
    ensures files_later { F.faults files.old ≤ F.faults files.new }
    ensures cut { (source given : List ℕ) → TellsNamed (F.content files.old) (texts words.now) source → I.left input.old ≡ Some given → result ≡ Status.InputFault
        → RunWasCutOff (I.faults input.old) (I.faults input.new) (texts words.now) source given (O.written out.old) (O.written out.new) }
    ensures only_run { (AskRun (texts words.now) → ⊥) → input.new ≡ input.old }
    ensures unread { (AskRun (texts words.now) → ⊥) → result ≡ Status.InputFault → ⊥ }
    ensures at_the_end { RunNothing (texts words.now) → WrittenAtTheEnd out.old out.new result }
    ensures generated { (processes : ℕ) → generated_of (texts words.now) ≡ Some processes → RunsGenerated processes result (O.written out.old) (O.written out.new) }
    ensures untouched { (source : List ℕ) (rule : AnyRule) (line : AnyLine) → AskForNoCode (texts words.now) → TellsNamed (F.content files.old) (texts words.now) source
        → SourceCompiles Run source (Rejected rule line) → input.new ≡ input.old }
    ensures code_untouched { (l : AnyLimits) (file : List ℕ) (rule : AnyCodeRule) (place : ℕ) → AskCodeRunWith (texts words.now) l → TellsNamed (F.content files.old) (texts words.now) file
        → Breaks file rule place → input.new ≡ input.old }
    ensures takes { (l : AnyLimits) (source given : List ℕ) (s : AnySource) → AskSourceRunWith (texts words.now) l → TellsNamed (F.content files.old) (texts words.now) source
        → I.left input.old ≡ Some given → SourceCompiles Run source (Runnable s) → TakesNothing s l given → input.new ≡ input.old }
    ensures code_takes { (l : AnyLimits) (file given : List ℕ) (code : CodeOf) → AskCodeRunWith (texts words.now) l → TellsNamed (F.content files.old) (texts words.now) file
        → I.left input.old ≡ Some given → Spells file code → CodeTakesNothing code l given → input.new ≡ input.old }
    ensures out_later { O.faults out.old ≤ O.faults out.new }
    ensures input_later { I.faults input.old ≤ I.faults input.new }
{
    match code_request_of(words) {
        Some(CodeRequest { limits, file }) => exec_file(alloc, &limits, file, files, input, out),
        None => run_command(alloc, words, files, input, out),
    }
}
