// Runs the code in a file.
ghost use Rattle.std.specs.Prelude.{◌≡◌, ◌≤◌, ◌<◌, ◌+◌, ◌⊎◌, None, Some, true, IfSome, IsSome, List, ℕ};
ghost use Rattle.std.specs.Io.KnownBytes.{Keeps};
ghost use Rattle.std.specs.List.{AllByRecursion};
ghost use Rattle.sim_base.specs.declared.limits.Limits.{Limits as AnyLimits};
ghost use Rattle.sim_code.specs.Code.{CodeOf};
ghost use Rattle.sim_ports.specs.Faults.{Rose, StopsAt};
ghost use Rattle.sim_ports.specs.Named.{IsOpen};
ghost use Rattle.code_file.specs.Faults.{Breaks};
ghost use Rattle.code_file.specs.Spelling.{Spells};
ghost use Rattle.code_file.specs.declared.rule.CodeRule.{CodeRule as AnyCodeRule};
ghost use Rattle.code_run.specs.CodeEnds.{BeforeARead, TakesNothing};
ghost use Rattle.sim_driver.specs.Answer.{Answer, Gives};
ghost use Rattle.sim_driver.specs.CodeAnswer.{HasOneAnswer, IsAnswered, IsCodeAnswer, IsCodeCutOff, IsRunAnswer, status_of_end as status_of_end_by};
ghost use Rattle.sim_driver.specs.Output.{Begins};
ghost use Rattle.sim_driver.specs.Reading.{TakesAtMost};
ghost use Rattle.sim_driver.specs.Status.{is_answer};

use crate::reading::{ReadFailure, read_file};
use crate::status::Status;
use code_file::laws::one_outcome;
use code_file::{CodeRefusal, read_code};
use code_finite::laws::every_code_ends;
use code_run::{CodeEnd, CodeFailure, exec};
use sim_base::Limits;
use sim_code::Code;
use sim_ports::{Files, Sink, Source};
use std::alloc::Global;

/// How many bytes a code file has at most.
pub const CODE_LIMIT: usize = 1_073_741_824;

/// Runs the code in a file.
pub fn exec_file<F: Files, I: Source, O: Sink>(
    alloc: Global,
    limits: &Limits,
    file: &str,
    files: &mut F,
    input: &mut I,
    out: &mut O,
) -> Status
    requires { F.selected files.old ≡ None }
    ensures no_usage { result ≡ Status.Usage → ⊥ }
    ensures file_fault { result ≡ Status.FileFault → Rose (F.faults files.old) (F.faults files.new) × Keeps (O.written out.old) (O.written out.new) × IsSome (F.selected files.new) }
    ensures input_fault { result ≡ Status.InputFault → Rose (I.faults input.old) (I.faults input.new) }
    ensures write_fault { result ≡ Status.WriteFault → Rose (O.faults out.old) (O.faults out.new) }
    ensures stops { (O.faults out.new ≡ O.faults out.old) ⊎ StopsAt O.written O.faults out.old out.new }
    ensures chosen { IfSome (F.selected files.new) (λ chosen. chosen.name ≡ file.now) }
    ensures read_to { (content : List ℕ) → F.content files.old file.now ≡ Some content
        → IsOpen (F.selected files.new) → TakesAtMost (CODE_LIMIT + 1) content (F.left files.new) }
    ensures answered { (content given : List ℕ) → F.content files.old file.now ≡ Some content → I.left input.old ≡ Some given → is_answer result ≡ true
        → (answer : Answer) × IsCodeAnswer limits.now content given answer }
    ensures one_answer { (content given : List ℕ) → F.content files.old file.now ≡ Some content → AllByRecursion (λ b. b < 256) content → I.left input.old ≡ Some given
        → IsAnswered limits.now content given result (O.written out.old) (O.written out.new) }
    ensures answer { (content given : List ℕ) (answer : Answer) → F.content files.old file.now ≡ Some content → I.left input.old ≡ Some given
        → IsCodeAnswer limits.now content given answer → is_answer result ≡ true → Gives answer result (O.written out.old) (O.written out.new) }
    ensures prefix { (content given : List ℕ) (answer : Answer) → F.content files.old file.now ≡ Some content → I.left input.old ≡ Some given
        → IsCodeAnswer limits.now content given answer → Begins (O.written out.old) (O.written out.new) answer.output }
    ensures cut { (content given : List ℕ) → F.content files.old file.now ≡ Some content → I.left input.old ≡ Some given → result ≡ Status.InputFault
        → IsCodeCutOff (I.faults input.old) (I.faults input.new) limits.now content given (O.written out.old) (O.written out.new) }
    ensures untouched { (content : List ℕ) (rule : AnyCodeRule) (place : ℕ) → F.content files.old file.now ≡ Some content → Breaks content rule place → input.new ≡ input.old }
    ensures takes { (content given : List ℕ) (code : CodeOf) → F.content files.old file.now ≡ Some content → I.left input.old ≡ Some given
        → Spells content code → TakesNothing code limits.now given → input.new ≡ input.old }
    ensures files_later { F.faults files.old ≤ F.faults files.new }
    ensures out_later { O.faults out.old ≤ O.faults out.new }
    ensures input_later { I.faults input.old ≤ I.faults input.new }
{
    one_answer();
    match read_file(alloc, files, file, CODE_LIMIT) {
        Ok(bytes) => exec_bytes(alloc, limits, &bytes, input, out),
        Err(ReadFailure::File) => Status::FileFault,
        Err(ReadFailure::Memory) => Status::Memory,
    }
}

// Bytes have one answer for each input: they spell one code, whose run ends, or they break one rule.
fn one_answer()
    ensures { (l : AnyLimits) (file given : List ℕ) → AllByRecursion (λ b. b < 256) file → HasOneAnswer l file given }
{
    one_outcome();
    every_code_ends();
}

// Runs the code that the bytes of a file spell.
fn exec_bytes<I: Source, O: Sink>(
    alloc: Global,
    limits: &Limits,
    bytes: &[u8],
    input: &mut I,
    out: &mut O,
) -> Status
    ensures no_usage { result ≡ Status.Usage → ⊥ }
    ensures no_file_fault { result ≡ Status.FileFault → ⊥ }
    ensures input_fault { result ≡ Status.InputFault → Rose (I.faults input.old) (I.faults input.new) }
    ensures write_fault { result ≡ Status.WriteFault → Rose (O.faults out.old) (O.faults out.new) }
    ensures stops { (O.faults out.new ≡ O.faults out.old) ⊎ StopsAt O.written O.faults out.old out.new }
    ensures answered { (given : List ℕ) → I.left input.old ≡ Some given → (answer : Answer) × IsCodeAnswer limits.now bytes.now given answer }
    ensures answer { (given : List ℕ) (answer : Answer) → I.left input.old ≡ Some given → IsCodeAnswer limits.now bytes.now given answer → is_answer result ≡ true
        → Gives answer result (O.written out.old) (O.written out.new) }
    ensures prefix { (given : List ℕ) (answer : Answer) → I.left input.old ≡ Some given → IsCodeAnswer limits.now bytes.now given answer → Begins (O.written out.old) (O.written out.new) answer.output }
    ensures cut { (given : List ℕ) → I.left input.old ≡ Some given → result ≡ Status.InputFault → IsCodeCutOff (I.faults input.old) (I.faults input.new) limits.now bytes.now given (O.written out.old) (O.written out.new) }
    ensures untouched { (rule : AnyCodeRule) (place : ℕ) → Breaks bytes.now rule place → input.new ≡ input.old }
    ensures takes { (given : List ℕ) (code : CodeOf) → I.left input.old ≡ Some given → Spells bytes.now code → TakesNothing code limits.now given → input.new ≡ input.old }
    ensures out_later { O.faults out.old ≤ O.faults out.new }
    ensures input_later { I.faults input.old ≤ I.faults input.new }
{
    one_answer();
    match read_code(alloc, bytes) {
        Ok(code) => exec_code(alloc, limits, code, input, out),
        Err(CodeRefusal::Broken { rule, place }) => Status::CodeRefused { rule, place },
        Err(CodeRefusal::Memory) => Status::Memory,
    }
}

// Runs code.
fn exec_code<I: Source, O: Sink>(
    alloc: Global,
    limits: &Limits,
    code: Code,
    input: &mut I,
    out: &mut O,
) -> Status
    ensures no_usage { result ≡ Status.Usage → ⊥ }
    ensures no_file_fault { result ≡ Status.FileFault → ⊥ }
    ensures input_fault { result ≡ Status.InputFault → Rose (I.faults input.old) (I.faults input.new) }
    ensures write_fault { result ≡ Status.WriteFault → Rose (O.faults out.old) (O.faults out.new) }
    ensures stops { (O.faults out.new ≡ O.faults out.old) ⊎ StopsAt O.written O.faults out.old out.new }
    ensures answered { (given : List ℕ) → I.left input.old ≡ Some given → (answer : Answer) × IsRunAnswer limits.now code given answer }
    ensures answer { (given : List ℕ) (answer : Answer) → I.left input.old ≡ Some given → IsRunAnswer limits.now code given answer → is_answer result ≡ true
        → Gives answer result (O.written out.old) (O.written out.new) }
    ensures prefix { (given : List ℕ) (answer : Answer) → I.left input.old ≡ Some given → IsRunAnswer limits.now code given answer → Begins (O.written out.old) (O.written out.new) answer.output }
    ensures cut { (given : List ℕ) → I.left input.old ≡ Some given → result ≡ Status.InputFault → BeforeARead (I.faults input.old) (I.faults input.new) code limits.now given (O.written out.old) (O.written out.new) }
    ensures takes { (given : List ℕ) → I.left input.old ≡ Some given → TakesNothing code limits.now given → input.new ≡ input.old }
    ensures out_later { O.faults out.old ≤ O.faults out.new }
    ensures input_later { I.faults input.old ≤ I.faults input.new }
{
    match exec(alloc, code, limits, input, out) {
        Ok(end) => status_of_end(limits, end),
        Err(CodeFailure::Input) => Status::InputFault,
        Err(CodeFailure::Output) => Status::WriteFault,
        Err(CodeFailure::Memory) => Status::Memory,
    }
}

// The status of a run of code that ended.
fn status_of_end(limits: &Limits, end: CodeEnd) -> Status
    ensures same { result ≡ status_of_end_by limits.now end }
    ensures no_usage { result ≡ Status.Usage → ⊥ }
    ensures no_file_fault { result ≡ Status.FileFault → ⊥ }
    ensures no_input_fault { result ≡ Status.InputFault → ⊥ }
    ensures no_write_fault { result ≡ Status.WriteFault → ⊥ }
{
    match end {
        CodeEnd::Normal => Status::Normal,
        CodeEnd::RunFault { error, line } => Status::RunFault { error, line },
        CodeEnd::StorageExhausted { line, used, wanted } => Status::StorageExhausted {
            line,
            used,
            budget: limits.storage,
            wanted,
        },
        CodeEnd::TickLimit { ticks } => Status::TickLimit { ticks },
        CodeEnd::BadCode { at } => Status::BadCode { at },
    }
}
