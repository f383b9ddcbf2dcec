// Does what the words ask for, but for the line on the diagnostic output.
ghost use Rattle.std.specs.Prelude.{◌≡◌, ◌≤◌, ◌<◌, ◌+◌, ◌^◌, ◌-◌, ◌⊎◌, Err, Ok, length, None, Some, true, false, IfOk, IfSome, IsSome, OnErr, OnOk, List, ℕ};
ghost use Rattle.std.specs.Io.KnownBytes.{Keeps};
ghost use Rattle.command_line.specs.Generated.{generated_of};
ghost use Rattle.command_line.specs.Words.{texts};
ghost use Rattle.sim_base.specs.declared.limits.Limits.{Limits as AnyLimits};
ghost use Rattle.sim_base.specs.declared.numbering.Line.{Line as AnyLine};
ghost use Rattle.sim_base.specs.declared.rule.Rule.{Rule as AnyRule};
ghost use Rattle.sim_ports.specs.Faults.{Rose, StopsAt};
ghost use Rattle.sim_ports.specs.Named.{IsOpen};
ghost use Rattle.sim_run.specs.RunEnds.{BeforeARead, Begins as BeginsRun, IsRunnable, TakesNothing};
ghost use Rattle.sim_scope.specs.Source.{Source as AnySource, source_of};
ghost use Rattle.sim_driver.specs.Answer.{Answer, Gives, IsAnswer, IsSourceAnswer, RunsGenerated};
ghost use Rattle.sim_driver.specs.Compiling.{Rejected, Runnable, SourceCompiles};
ghost use Rattle.sim_driver.specs.Output.{Begins};
ghost use Rattle.sim_driver.specs.OutputAfter.{InputAfter, OutputAfter, WritesAtTheEnd, WrittenAtTheEnd};
ghost use Rattle.sim_driver.specs.Reading.{TakesAtMost};
ghost use Rattle.sim_driver.specs.SourceMeaning.{BoundMeans, Does, IsCutOff, Meaning, RanCode, SourceMeans, ending_of as ending_of_run};
ghost use Rattle.sim_driver.specs.Status.{is_answer, is_of_code};
ghost use Rattle.sim_driver.specs.Words.{AsksRun, AsksRunWith, IsNoCommand, RunsNothing, TellsFile, WasCutOff, file_of};

use crate::coding::{code_file_of, listing_of, write_made};
use crate::compiling::{Refusal, bind};
use crate::failure::RunFailure;
use crate::no_input::NoInput;
use crate::printing::print_source;
use crate::reading::{ReadFailure, read_source};
use crate::status::{Ending, Status};
use command_line::{Command, Request, generated_of, request_of};
use generated_program::generated_program;
use sim_base::{Limits, Memory};
use sim_lexer::SOURCE_LIMIT;
use sim_ports::{Files, Sink, Source};
use sim_run::{RunEnd, RunFailure as NotRun, compile_and_run};
use sim_scope::Bound;
use sim_xref::cross_references;
use std::alloc::Global;

/// Does what the words ask for, and says how that ended.
pub fn run_command<F: Files, I: Source, O: Sink>(
    alloc: Global,
    words: &[String],
    files: &mut F,
    input: &mut I,
    out: &mut O,
) -> Status
    requires { F.selected files.old ≡ None }
    ensures usage { result ≡ Status.Usage → IsNoCommand (texts words.now) }
    ensures no_code { is_of_code result ≡ false }
    ensures file_fault { result ≡ Status.FileFault → Rose (F.faults files.old) (F.faults files.new) × Keeps (O.written out.old) (O.written out.new) × IsSome (F.selected files.new) }
    ensures input_fault { result ≡ Status.InputFault → Rose (I.faults input.old) (I.faults input.new) }
    ensures write_fault { result ≡ Status.WriteFault → Rose (O.faults out.old) (O.faults out.new) }
    ensures stops { (O.faults out.new ≡ O.faults out.old) ⊎ StopsAt O.written O.faults out.old out.new }
    ensures chosen { IfSome (F.selected files.new) (λ chosen. file_of (texts words.now) ≡ Some chosen.name) }
    ensures read_to { (file source : List ℕ) → file_of (texts words.now) ≡ Some file → F.content files.old file ≡ Some source
        → IsOpen (F.selected files.new) → TakesAtMost (SOURCE_LIMIT + 1) source (F.left files.new) }
    ensures files_left { file_of (texts words.now) ≡ None → (F.selected files.new ≡ F.selected files.old)
        × (F.content files.new ≡ F.content files.old) × (F.left files.new ≡ F.left files.old) × (F.faults files.new ≡ F.faults files.old) }
    ensures answered { (source given : List ℕ) → TellsFile (F.content files.old) (texts words.now) source → I.left input.old ≡ Some given → is_answer result ≡ true
        → (answer : Answer) × IsAnswer (texts words.now) source given answer }
    ensures answer { (source given : List ℕ) (answer : Answer) → TellsFile (F.content files.old) (texts words.now) source → I.left input.old ≡ Some given
        → IsAnswer (texts words.now) source given answer → is_answer result ≡ true → Gives answer result (O.written out.old) (O.written out.new) }
    ensures prefix { (source given : List ℕ) (answer : Answer) → TellsFile (F.content files.old) (texts words.now) source → I.left input.old ≡ Some given
        → IsAnswer (texts words.now) source given answer → Begins (O.written out.old) (O.written out.new) answer.output }
    ensures files_later { F.faults files.old ≤ F.faults files.new }
    ensures cut { (source given : List ℕ) → TellsFile (F.content files.old) (texts words.now) source → I.left input.old ≡ Some given → result ≡ Status.InputFault
        → WasCutOff (I.faults input.old) (I.faults input.new) (texts words.now) source given (O.written out.old) (O.written out.new) }
    ensures only_run { (AsksRun (texts words.now) → ⊥) → input.new ≡ input.old }
    ensures unread { (AsksRun (texts words.now) → ⊥) → result ≡ Status.InputFault → ⊥ }
    ensures at_the_end { RunsNothing (texts words.now) → WrittenAtTheEnd out.old out.new result }
    ensures generated { (processes : ℕ) → generated_of (texts words.now) ≡ Some processes → RunsGenerated processes result (O.written out.old) (O.written out.new) }
    ensures untouched { (source : List ℕ) (rule : AnyRule) (line : AnyLine) → TellsFile (F.content files.old) (texts words.now) source
        → SourceCompiles Command.Run source (Rejected rule line) → input.new ≡ input.old }
    ensures takes { (l : AnyLimits) (source given : List ℕ) (s : AnySource) → AsksRunWith (texts words.now) l → TellsFile (F.content files.old) (texts words.now) source
        → I.left input.old ≡ Some given → SourceCompiles Command.Run source (Runnable s) → TakesNothing s l given → input.new ≡ input.old }
    ensures out_later { O.faults out.old ≤ O.faults out.new }
    ensures input_later { I.faults input.old ≤ I.faults input.new }
{
    match request_of(words) {
        Some(
            Request {
                command,
                limits,
                file,
            },
        ) => answer_request(alloc, command, &limits, file, files, input, out),
        None => match generated_of(words) {
            Some(processes) => run_generated(alloc, processes, out),
            None => Status::Usage,
        },
    }
}

// Runs the generated program of so many processes, with no options and no input.
fn run_generated<O: Sink>(alloc: Global, processes: u32, out: &mut O) -> Status
    requires { processes ≤ 20000 }
    ensures no_usage { result ≡ Status.Usage → ⊥ }
    ensures no_code { is_of_code result ≡ false }
    ensures no_file_fault { result ≡ Status.FileFault → ⊥ }
    ensures no_input_fault { result ≡ Status.InputFault → ⊥ }
    ensures write_fault { result ≡ Status.WriteFault → Rose (O.faults out.old) (O.faults out.new) }
    ensures stops { (O.faults out.new ≡ O.faults out.old) ⊎ StopsAt O.written O.faults out.old out.new }
    ensures runs { RunsGenerated processes result (O.written out.old) (O.written out.new) }
    ensures later { O.faults out.old ≤ O.faults out.new }
{
    match generated_program(alloc, processes) {
        Ok(source) => answer_source(
            alloc,
            Command::Run,
            &Limits::without_options(),
            &source,
            &mut NoInput,
            out,
        ),
        Err(Memory) => Status::Memory,
    }
}

// Answers a request about the source in a file.
fn answer_request<F: Files, I: Source, O: Sink>(
    alloc: Global,
    command: Command,
    limits: &Limits,
    file: &str,
    files: &mut F,
    input: &mut I,
    out: &mut O,
) -> Status
    requires { F.selected files.old ≡ None }
    ensures no_usage { result ≡ Status.Usage → ⊥ }
    ensures no_code { is_of_code result ≡ false }
    ensures file_fault { result ≡ Status.FileFault → Rose (F.faults files.old) (F.faults files.new) × Keeps (O.written out.old) (O.written out.new) × IsSome (F.selected files.new) }
    ensures input_fault { result ≡ Status.InputFault → Rose (I.faults input.old) (I.faults input.new) }
    ensures write_fault { result ≡ Status.WriteFault → Rose (O.faults out.old) (O.faults out.new) }
    ensures stops { (O.faults out.new ≡ O.faults out.old) ⊎ StopsAt O.written O.faults out.old out.new }
    ensures chosen { IfSome (F.selected files.new) (λ chosen. chosen.name ≡ file.now) }
    ensures read_to { (source : List ℕ) → F.content files.old file.now ≡ Some source
        → IsOpen (F.selected files.new) → TakesAtMost (SOURCE_LIMIT + 1) source (F.left files.new) }
    ensures answered { (source given : List ℕ) → F.content files.old file.now ≡ Some source → I.left input.old ≡ Some given → is_answer result ≡ true
        → (answer : Answer) × IsSourceAnswer command limits.now source given answer }
    ensures answer { (source given : List ℕ) (answer : Answer) → F.content files.old file.now ≡ Some source → I.left input.old ≡ Some given
        → IsSourceAnswer command limits.now source given answer → is_answer result ≡ true → Gives answer result (O.written out.old) (O.written out.new) }
    ensures prefix { (source given : List ℕ) (answer : Answer) → F.content files.old file.now ≡ Some source → I.left input.old ≡ Some given
        → IsSourceAnswer command limits.now source given answer → Begins (O.written out.old) (O.written out.new) answer.output }
    ensures files_later { F.faults files.old ≤ F.faults files.new }
    ensures cut { (source given : List ℕ) → F.content files.old file.now ≡ Some source → I.left input.old ≡ Some given → result ≡ Status.InputFault
        → IsCutOff (I.faults input.old) (I.faults input.new) command limits.now source given (O.written out.old) (O.written out.new) }
    ensures only_run { (command ≡ Command.Run → ⊥) → input.new ≡ input.old }
    ensures unread { (command ≡ Command.Run → ⊥) → result ≡ Status.InputFault → ⊥ }
    ensures at_the_end { (command ≡ Command.Run → ⊥) → WrittenAtTheEnd out.old out.new result }
    ensures untouched { (source : List ℕ) (rule : AnyRule) (line : AnyLine) → F.content files.old file.now ≡ Some source
        → SourceCompiles Command.Run source (Rejected rule line) → input.new ≡ input.old }
    ensures takes { (source given : List ℕ) (s : AnySource) → F.content files.old file.now ≡ Some source → I.left input.old ≡ Some given
        → SourceCompiles Command.Run source (Runnable s) → TakesNothing s limits.now given → input.new ≡ input.old }
    ensures out_later { O.faults out.old ≤ O.faults out.new }
    ensures input_later { I.faults input.old ≤ I.faults input.new }
{
    match read_source(alloc, files, file) {
        Ok(source) => answer_source(alloc, command, limits, &source, input, out),
        Err(ReadFailure::File) => Status::FileFault,
        Err(ReadFailure::Memory) => Status::Memory,
    }
}

// Answers a request about a source.
fn answer_source<I: Source, O: Sink>(
    alloc: Global,
    command: Command,
    limits: &Limits,
    source: &[u8],
    input: &mut I,
    out: &mut O,
) -> Status
    requires { length source.now < 2 ^ 32 - 1 }
    ensures no_usage { result ≡ Status.Usage → ⊥ }
    ensures no_code { is_of_code result ≡ false }
    ensures no_file_fault { result ≡ Status.FileFault → ⊥ }
    ensures input_fault { result ≡ Status.InputFault → Rose (I.faults input.old) (I.faults input.new) }
    ensures write_fault { result ≡ Status.WriteFault → Rose (O.faults out.old) (O.faults out.new) }
    ensures stops { (O.faults out.new ≡ O.faults out.old) ⊎ StopsAt O.written O.faults out.old out.new }
    ensures answered { (given : List ℕ) → I.left input.old ≡ Some given → is_answer result ≡ true → (answer : Answer) × IsSourceAnswer command limits.now source.now given answer }
    ensures answer { (given : List ℕ) (answer : Answer) → I.left input.old ≡ Some given → IsSourceAnswer command limits.now source.now given answer → is_answer result ≡ true
        → Gives answer result (O.written out.old) (O.written out.new) }
    ensures prefix { (given : List ℕ) (answer : Answer) → I.left input.old ≡ Some given → IsSourceAnswer command limits.now source.now given answer → Begins (O.written out.old) (O.written out.new) answer.output }
    ensures cut { (given : List ℕ) → I.left input.old ≡ Some given → result ≡ Status.InputFault → IsCutOff (I.faults input.old) (I.faults input.new) command limits.now source.now given (O.written out.old) (O.written out.new) }
    ensures only_run { (command ≡ Command.Run → ⊥) → input.new ≡ input.old }
    ensures unread { (command ≡ Command.Run → ⊥) → result ≡ Status.InputFault → ⊥ }
    ensures at_the_end { (command ≡ Command.Run → ⊥) → WrittenAtTheEnd out.old out.new result }
    ensures untouched { (rule : AnyRule) (line : AnyLine) → SourceCompiles Command.Run source.now (Rejected rule line) → input.new ≡ input.old }
    ensures takes { (given : List ℕ) (s : AnySource) → I.left input.old ≡ Some given → SourceCompiles Command.Run source.now (Runnable s) → TakesNothing s limits.now given → input.new ≡ input.old }
    ensures later { O.faults out.old ≤ O.faults out.new }
    ensures input_later { I.faults input.old ≤ I.faults input.new }
{
    match do_command(alloc, command, limits, source, input, out) {
        Ok(ending) => ending.status(),
        Err(RunFailure::Input) => Status::InputFault,
        Err(RunFailure::Output) => Status::WriteFault,
        Err(RunFailure::Memory) => Status::Memory,
    }
}

// Does with a source what the command says.
fn do_command<I: Source, O: Sink>(
    alloc: Global,
    command: Command,
    limits: &Limits,
    source: &[u8],
    input: &mut I,
    out: &mut O,
) -> Result<Ending, RunFailure>
    requires { length source.now < 2 ^ 32 - 1 }
    ensures known { (given : List ℕ) → I.left input.old ≡ Some given → OnOk result ((meaning : Meaning) × SourceMeans command limits.now source.now given meaning) }
    ensures does { (given : List ℕ) (meaning : Meaning) → I.left input.old ≡ Some given → SourceMeans command limits.now source.now given meaning → Does meaning (O.written out.old) (O.written out.new) result }
    ensures cut { (given : List ℕ) → I.left input.old ≡ Some given → result ≡ Err RunFailure.Input → IsCutOff (I.faults input.old) (I.faults input.new) command limits.now source.now given (O.written out.old) (O.written out.new) }
    ensures only_run { (command ≡ Command.Run → ⊥) → input.new ≡ input.old }
    ensures unread { (command ≡ Command.Run → ⊥) → result ≡ Err RunFailure.Input → ⊥ }
    ensures at_the_end { (command ≡ Command.Run → ⊥) → WritesAtTheEnd out.old out.new result }
    ensures untouched { (rule : AnyRule) (line : AnyLine) → SourceCompiles Command.Run source.now (Rejected rule line) → input.new ≡ input.old }
    ensures takes { (given : List ℕ) (s : AnySource) → I.left input.old ≡ Some given → SourceCompiles Command.Run source.now (Runnable s) → TakesNothing s limits.now given → input.new ≡ input.old }
    ensures output { OutputAfter O.written O.faults out.old out.new result }
    ensures input { InputAfter (I.faults input.old) (I.faults input.new) result }
{
    match command {
        Command::Print => print_source(alloc, source, out),
        Command::Run | Command::Check | Command::Compile | Command::Listing | Command::References =>
            bind_and_do(alloc, command, limits, source, input, out),
    }
}

// Does with the program of a source what the command says.
fn bind_and_do<I: Source, O: Sink>(
    alloc: Global,
    command: Command,
    limits: &Limits,
    source: &[u8],
    input: &mut I,
    out: &mut O,
) -> Result<Ending, RunFailure>
    requires length { length source.now < 2 ^ 32 - 1 }
    requires binds { command ≡ Command.Print → ⊥ }
    ensures known { (given : List ℕ) → I.left input.old ≡ Some given → OnOk result ((meaning : Meaning) × SourceMeans command limits.now source.now given meaning) }
    ensures does { (given : List ℕ) (meaning : Meaning) → I.left input.old ≡ Some given → SourceMeans command limits.now source.now given meaning → Does meaning (O.written out.old) (O.written out.new) result }
    ensures cut { (given : List ℕ) → I.left input.old ≡ Some given → result ≡ Err RunFailure.Input → IsCutOff (I.faults input.old) (I.faults input.new) command limits.now source.now given (O.written out.old) (O.written out.new) }
    ensures only_run { (command ≡ Command.Run → ⊥) → input.new ≡ input.old }
    ensures unread { (command ≡ Command.Run → ⊥) → result ≡ Err RunFailure.Input → ⊥ }
    ensures at_the_end { (command ≡ Command.Run → ⊥) → WritesAtTheEnd out.old out.new result }
    ensures untouched { (rule : AnyRule) (line : AnyLine) → SourceCompiles Command.Run source.now (Rejected rule line) → input.new ≡ input.old }
    ensures takes { (given : List ℕ) (s : AnySource) → I.left input.old ≡ Some given → SourceCompiles Command.Run source.now (Runnable s) → TakesNothing s limits.now given → input.new ≡ input.old }
    ensures output { OutputAfter O.written O.faults out.old out.new result }
    ensures input { InputAfter (I.faults input.old) (I.faults input.new) result }
{
    match bind(alloc, command, source) {
        Ok(bound) => do_bound(alloc, command, limits, &bound, input, out),
        Err(Refusal::Broken { rule, line }) => Ok(Ending::Refused { rule, line }),
        Err(Refusal::Memory) => Err(RunFailure::Memory),
    }
}

// Does with a program what the command says.
fn do_bound<I: Source, O: Sink>(
    alloc: Global,
    command: Command,
    limits: &Limits,
    bound: &Bound,
    input: &mut I,
    out: &mut O,
) -> Result<Ending, RunFailure>
    requires { IsRunnable (source_of bound.now) }
    ensures known { (given : List ℕ) → I.left input.old ≡ Some given → OnOk result ((meaning : Meaning) × BoundMeans command limits.now (source_of bound.now) given meaning) }
    ensures does { (given : List ℕ) (meaning : Meaning) → I.left input.old ≡ Some given → BoundMeans command limits.now (source_of bound.now) given meaning → Does meaning (O.written out.old) (O.written out.new) result }
    ensures cut { (given : List ℕ) → I.left input.old ≡ Some given → result ≡ Err RunFailure.Input → BeforeARead (I.faults input.old) (I.faults input.new) (source_of bound.now) limits.now given (O.written out.old) (O.written out.new) }
    ensures only_run { (command ≡ Command.Run → ⊥) → (result ≡ Err RunFailure.Input → ⊥) × (input.new ≡ input.old) }
    ensures at_the_end { (command ≡ Command.Run → ⊥) → WritesAtTheEnd out.old out.new result }
    ensures takes { (given : List ℕ) → I.left input.old ≡ Some given → TakesNothing (source_of bound.now) limits.now given → input.new ≡ input.old }
    ensures output { OutputAfter O.written O.faults out.old out.new result }
    ensures input { InputAfter (I.faults input.old) (I.faults input.new) result }
{
    match command {
        Command::Run => run(alloc, limits, bound, input, out),
        Command::Compile => write_made(code_file_of(alloc, bound), out),
        Command::Listing => write_made(listing_of(alloc, bound), out),
        Command::References => write_made(cross_references(alloc, bound), out),
        Command::Check | Command::Print => Ok(Ending::Normal),
    }
}

// Runs a program: it is compiled, and the machine runs its code.
fn run<I: Source, O: Sink>(
    alloc: Global,
    limits: &Limits,
    bound: &Bound,
    input: &mut I,
    out: &mut O,
) -> Result<Ending, RunFailure>
    requires { IsRunnable (source_of bound.now) }
    ensures ran { (given : List ℕ) → I.left input.old ≡ Some given → IfOk result (λ ending. RanCode limits.now (source_of bound.now) given ending (O.written out.old) (O.written out.new)) }
    ensures begins { (given : List ℕ) → I.left input.old ≡ Some given → OnErr result (BeginsRun (source_of bound.now) limits.now given (O.written out.old) (O.written out.new)) }
    ensures cut { (given : List ℕ) → I.left input.old ≡ Some given → result ≡ Err RunFailure.Input → BeforeARead (I.faults input.old) (I.faults input.new) (source_of bound.now) limits.now given (O.written out.old) (O.written out.new) }
    ensures takes { (given : List ℕ) → I.left input.old ≡ Some given → TakesNothing (source_of bound.now) limits.now given → input.new ≡ input.old }
    ensures output { OutputAfter O.written O.faults out.old out.new result }
    ensures input { InputAfter (I.faults input.old) (I.faults input.new) result }
{
    match compile_and_run(alloc, bound, limits, input, out) {
        Ok(ran) => Ok(ending_of(limits, ran.end)),
        Err(NotRun::Memory) => Err(RunFailure::Memory),
        Err(NotRun::Input) => Err(RunFailure::Input),
        Err(NotRun::Output) => Err(RunFailure::Output),
    }
}

// How a run ends, with the storage budget that it had.
fn ending_of(limits: &Limits, end: RunEnd) -> Ending
    ensures { result ≡ ending_of_run limits.now end }
{
    match end {
        RunEnd::Normal => Ending::Normal,
        RunEnd::RunFault { error, line } => Ending::RunFault { error, line },
        RunEnd::StorageExhausted { line, used, wanted } => Ending::StorageExhausted {
            line,
            used,
            budget: limits.storage,
            wanted,
        },
        RunEnd::TickLimit { ticks } => Ending::TickLimit { ticks },
    }
}
