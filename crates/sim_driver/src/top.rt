// The top call.
ghost use Rattle.std.specs.Prelude.{◌≡◌, ◌<◌, ◌+◌, ◌⊎◌, List, ℕ, None, Some, true, false, IfSome, IsSome};
ghost use Rattle.std.specs.Io.KnownBytes.{Appends, Keeps};
ghost use Rattle.std.specs.List.{AllByRecursion};
ghost use Rattle.sim_ports.specs.Faults.{Rose, Steady, StopsAt};
ghost use Rattle.sim_ports.specs.Named.{IsOpen};
ghost use Rattle.sim_driver.specs.Answer.{Answer, Gives, RunsGenerated};
ghost use Rattle.sim_run.specs.RunEnds.{TakesNothing};
ghost use Rattle.sim_scope.specs.Source.{Source as AnySource};
ghost use Rattle.sim_driver.specs.CodeAnswer.{IsAnswered};
ghost use Rattle.sim_driver.specs.CompiledAnswer.{WroteExecutable, WroteListing};
ghost use Rattle.sim_driver.specs.Compiling.{Rejected, Runnable, SourceCompiles};
ghost use Rattle.sim_driver.specs.Output.{Begins};
ghost use Rattle.sim_driver.specs.Reading.{TakesAtMost};
ghost use Rattle.sim_driver.specs.Speaking.{HasItsCause, Says};
ghost use Rattle.sim_driver.specs.Status.{is_answer, is_of_code, is_told, line_text};
ghost use Rattle.sim_driver.specs.AllWords.{AreNoCommand, AskCodeRunWith, AskForNoCode, AskRun, AskSourceRunWith, AskTo, IsAnswerTo, RunNothing, RunWasCutOff, TellsNamed, limit_of_file, named_file};
ghost use Rattle.code_file.specs.Faults.{Breaks};
ghost use Rattle.code_file.specs.Spelling.{Spells};
ghost use Rattle.code_file.specs.declared.rule.CodeRule.{CodeRule as AnyCodeRule};
ghost use Rattle.code_run.specs.CodeEnds.{TakesNothing as CodeTakesNothing};
ghost use Rattle.command_line.specs.Generated.{generated_of};
ghost use Rattle.sim_code.specs.Code.{CodeOf};
ghost use Rattle.command_line.specs.Words.{texts};
ghost use Rattle.sim_base.specs.declared.limits.Limits.{Limits as AnyLimits};
ghost use Rattle.sim_base.specs.declared.numbering.Line.{Line as AnyLine};
ghost use Rattle.sim_base.specs.declared.rule.Rule.{Rule as AnyRule};
ghost use Rattle.command_line.specs.declared.words.Command.TheVariants.{Compile, Listing, Run};
ghost use Rattle.sim_driver.specs.declared.status.Status.{Status as AnyStatus};

use crate::all_words::do_words;
use crate::laws::what_is_written_runs_as_its_source;
use crate::speaking::write_status_line;
use crate::status::Status;
use sim_ports::{Files, Sink, Source};
use std::alloc::Global;

/// Does what the words of the command line ask for. `run FILE` runs the source in the file, under the limits that its options set, and its
/// output goes to `out`; `compile FILE` and `list FILE` write its code there, as a code file and as text; `print FILE` writes its canonical text
/// there, and `xref FILE` its cross references; `check FILE` writes nothing. Of these only `run` runs anything. `gen N` runs the generated program of N processes, and `exec FILE` the code in a
/// code file, by the machine's table, under the limits that its options set. One line to `diag` says how it ended, but for a normal end.
pub fn simula<F: Files, I: Source, O: Sink, D: Sink>(
    alloc: Global,
    words: &[String],
    files: &mut F,
    input: &mut I,
    out: &mut O,
    diag: &mut D,
) -> Status
    requires { F.selected files.old ≡ None }

    // Where the file and the input tell their bytes and nothing failed, the status, the output and the line are those of the
    // answer, for a run that of the source's meaning under the limits that the words ask for, unless memory was wanting.
    ensures headline { (source given : List ℕ) (answer : Answer) → TellsNamed (F.content files.old) (texts words.now) source
        → I.left input.old ≡ Some given → IsAnswerTo (texts words.now) source given answer
        → Steady (F.faults files.old) (F.faults files.new) → Steady (I.faults input.old) (I.faults input.new)
        → Steady (O.faults out.old) (O.faults out.new) → Steady (D.faults diag.old) (D.faults diag.new)
        → (result ≡ Status.Memory) ⊎ Gives answer result (O.written out.old) (O.written out.new)
        × Appends (D.written diag.old) (D.written diag.new) (line_text result) }

    // The cause of each status that the answer doesn't give.
    ensures usage { result ≡ Status.Usage → AreNoCommand (texts words.now) }
    ensures only_code { AskForNoCode (texts words.now) → is_of_code result ≡ false }
    ensures file_fault { result ≡ Status.FileFault → Rose (F.faults files.old) (F.faults files.new) × Keeps (O.written out.old) (O.written out.new) × IsSome (F.selected files.new) }
    ensures input_fault { result ≡ Status.InputFault → Rose (I.faults input.old) (I.faults input.new) }
    ensures write_fault { result ≡ Status.WriteFault → Rose (O.faults out.old) (O.faults out.new) ⊎ Rose (D.faults diag.old) (D.faults diag.new) }

    // After a failed write nothing more goes to the output.
    ensures stops { (O.faults out.new ≡ O.faults out.old) ⊎ StopsAt O.written O.faults out.old out.new }

    // No other file is selected than the one that the words name.
    ensures chosen { IfSome (F.selected files.new) (λ chosen. named_file (texts words.now) ≡ Some chosen.name) }
    // It is read no further than one byte past the limit of a source, or of a code file.
    ensures read_to { (file source : List ℕ) → named_file (texts words.now) ≡ Some file → F.content files.old file ≡ Some source
        → IsOpen (F.selected files.new) → TakesAtMost (limit_of_file (texts words.now) + 1) source (F.left files.new) }
    ensures files_left { named_file (texts words.now) ≡ None → (F.selected files.new ≡ F.selected files.old)
        × (F.content files.new ≡ F.content files.old) × (F.left files.new ≡ F.left files.old) × (F.faults files.new ≡ F.faults files.old) }

    // Whatever failed: a status that is an answer is the answer, which there is, with its whole output. What was written
    // begins its output.
    ensures answered { (source given : List ℕ) → TellsNamed (F.content files.old) (texts words.now) source → I.left input.old ≡ Some given → is_answer result ≡ true
        → (answer : Answer) × IsAnswerTo (texts words.now) source given answer }
    ensures answer { (source given : List ℕ) (answer : Answer) → TellsNamed (F.content files.old) (texts words.now) source → I.left input.old ≡ Some given
        → IsAnswerTo (texts words.now) source given answer → is_answer result ≡ true → Gives answer result (O.written out.old) (O.written out.new) }
    ensures prefix { (source given : List ℕ) (answer : Answer) → TellsNamed (F.content files.old) (texts words.now) source → I.left input.old ≡ Some given
        → IsAnswerTo (texts words.now) source given answer → Begins (O.written out.old) (O.written out.new) answer.output }

    // For a run of code there is one answer, whatever the code file and the input are: each code comes to an end, so that want of memory and a fault of the
    // outside alone keep it from being told.
    ensures code_answered { (l : AnyLimits) (file given : List ℕ) → AskCodeRunWith (texts words.now) l → TellsNamed (F.content files.old) (texts words.now) file
        → AllByRecursion (λ b. b < 256) file → I.left input.old ≡ Some given → IsAnswered l file given result (O.written out.old) (O.written out.new) }

    // At a normal end `compile` wrote the spelling of code, and `list` the listing of code, that runs as the source is run, under the same limits and with
    // the same input; so `exec` answers of what `compile` wrote as `run` answers of the source, where that is no longer than a code file
    // may be.
    ensures compiled { (source given : List ℕ) → AskTo Compile (texts words.now) → TellsNamed (F.content files.old) (texts words.now) source
        → I.left input.old ≡ Some given → result ≡ Status.Normal → WroteExecutable source (O.written out.old) (O.written out.new) }
    ensures listed { (source given : List ℕ) → AskTo Listing (texts words.now) → TellsNamed (F.content files.old) (texts words.now) source
        → I.left input.old ≡ Some given → result ≡ Status.Normal → WroteListing source (O.written out.old) (O.written out.new) }

    // The line of the status, whole where its output did not fail. A status that is neither an output fault nor want of
    // memory has its whole line, and no write of it failed.
    ensures line { Steady (D.faults diag.old) (D.faults diag.new) → Appends (D.written diag.old) (D.written diag.new) (line_text result) }
    ensures told { is_told result ≡ true → Appends (D.written diag.old) (D.written diag.new) (line_text result) × (D.faults diag.new ≡ D.faults diag.old) }
    // What is said there, whole or cut short, is the line of a status that its cause allows. A line that was cut short makes
    // the status an output fault, but after want of memory.
    ensures line_part { (said : AnyStatus)
        × (is_answer said ≡ true → (source given : List ℕ) (answer : Answer) → TellsNamed (F.content files.old) (texts words.now) source
        → I.left input.old ≡ Some given → IsAnswerTo (texts words.now) source given answer → said ≡ answer.status)
        × HasItsCause (texts words.now) said (Rose (F.faults files.old) (F.faults files.new)) (Rose (I.faults input.old) (I.faults input.new)) (Rose (O.faults out.old) (O.faults out.new))
        × Says said result (D.written diag.old) (D.written diag.new) (D.faults diag.old) (D.faults diag.new) }

    // Where the input failed, a run was asked for, and all is written that it had written before a step that takes something of the
    // input.
    ensures cut { (source given : List ℕ) → TellsNamed (F.content files.old) (texts words.now) source → I.left input.old ≡ Some given → result ≡ Status.InputFault
        → RunWasCutOff (I.faults input.old) (I.faults input.new) (texts words.now) source given (O.written out.old) (O.written out.new) }

    // `gen` runs the generated program with no options and no input, whatever files and the input are.
    ensures generated { (processes : ℕ) → generated_of (texts words.now) ≡ Some processes → RunsGenerated processes result (O.written out.old) (O.written out.new) }

    // Where nothing is run, want of memory leaves the output as it was.
    ensures none_written { RunNothing (texts words.now) → result ≡ Status.Memory → out.new ≡ out.old }

    // The input is as it was where no run of a file is asked for, and where a rule refuses the source or the code file.
    ensures only_run { (AskRun (texts words.now) → ⊥) → input.new ≡ input.old }
    ensures unread { (AskRun (texts words.now) → ⊥) → result ≡ Status.InputFault → ⊥ }
    ensures untouched { (source : List ℕ) (rule : AnyRule) (line : AnyLine) → AskForNoCode (texts words.now) → TellsNamed (F.content files.old) (texts words.now) source
        → SourceCompiles Run source (Rejected rule line) → input.new ≡ input.old }
    ensures code_untouched { (l : AnyLimits) (file : List ℕ) (rule : AnyCodeRule) (place : ℕ) → AskCodeRunWith (texts words.now) l → TellsNamed (F.content files.old) (texts words.now) file
        → Breaks file rule place → input.new ≡ input.old }

    // And the input is as it was where the run of the program or of the code takes nothing of it under the limits that the words ask for.
    ensures takes { (l : AnyLimits) (source given : List ℕ) (s : AnySource) → AskSourceRunWith (texts words.now) l → TellsNamed (F.content files.old) (texts words.now) source
        → I.left input.old ≡ Some given → SourceCompiles Run source (Runnable s) → TakesNothing s l given → input.new ≡ input.old }
    ensures code_takes { (l : AnyLimits) (file given : List ℕ) (code : CodeOf) → AskCodeRunWith (texts words.now) l → TellsNamed (F.content files.old) (texts words.now) file
        → I.left input.old ≡ Some given → Spells file code → CodeTakesNothing code l given → input.new ≡ input.old }
{
    what_is_written_runs_as_its_source();
    let status = do_words(alloc, words, files, input, out);
    write_status_line(alloc, status, diag)
}
