//! A program compiled and run.
ghost use Rattle.std.specs.Prelude.{◌≡◌, ℕ, List, IfOk, Some};
ghost use Rattle.sim_scope.specs.Source.{source_of};
ghost use Rattle.codegen.specs.Compiled.{Compiled};
ghost use Rattle.sim_relate.specs.SameRuns.{SameRuns};
ghost use Rattle.object_machine.specs.Taking.{TakesNothing as CodeTakesNothing};
ghost use Rattle.sim_run.specs.RunEnds.{Broken, CodeBroken, CodeRan, HasEnd, InputAfter, IsRuled, IsRunnable, OutputAfter, Ran, TakesNothing};

use codegen::compile;
use object_machine::run;
use sim_base::{Limits, Line, RunError};
use sim_code::laws::output_grows;
use sim_code::{Code, Ending};
use sim_finite::laws::every_run_ends;
use sim_ports::{Sink, Source};
use sim_relate::laws::compiled_code_runs_as_meant;
use sim_scope::Bound;
use std::alloc::Global;
use thiserror::Error;

/// How the run of a program ends by its meaning.
#[derive(Clone, Copy, Debug, PartialEq, Eq)]
pub enum RunEnd {
    /// The program came to its end.
    Normal,
    /// A run-time error.
    RunFault {
        /// The error.
        error: RunError,
        /// Where it came.
        line: Line,
    },
    /// The words that are wanted are not left in the storage budget.
    StorageExhausted {
        /// Where they are wanted.
        line: Line,
        /// The words in use.
        used: u64,
        /// The words wanted.
        wanted: u64,
    },
    /// All ticks are taken, and another one is wanted.
    TickLimit {
        /// The ticks taken.
        ticks: u64,
    },
}

/// A program that was run to its end.
#[derive(Drop)]
pub struct ProgramRun {
    /// The code that ran.
    pub code: Code,
    /// How it ended.
    pub end: RunEnd,
}

/// Why a program did not run to an end of its own.
#[derive(Clone, Copy, Debug, PartialEq, Eq, Error)]
pub enum RunFailure {
    /// The run was refused memory.
    #[error("want of memory")]
    Memory,
    /// The outside failed to give input.
    #[error("input fault")]
    Input,
    /// The outside failed to take output.
    #[error("output fault")]
    Output,
}

/// Compiles a program that can be run and runs its code on the machine. The answer has the code that ran, and how it ended for the bytes
/// that the input has left.
pub fn compile_and_run<I: Source, O: Sink>(
    alloc: Global,
    bound: &Bound,
    limits: &Limits,
    input: &mut I,
    out: &mut O,
) -> Result<ProgramRun, RunFailure>
    requires { IsRunnable (source_of bound.now) }

    // The code stands for the program, and shows what that shows, under whatever limits and with whatever input.
    ensures stands { IfOk result (λ ran. Compiled (source_of bound.now) ran.code) }
    ensures shows { IfOk result (λ ran. SameRuns (source_of bound.now) ran.code) }

    // The end and the output are those of the code's run by the machine's table, and of the program's by its meaning.
    ensures code_ran { (bytes : List ℕ) → I.left input.old ≡ Some bytes → IfOk result (λ ran. CodeRan ran.code limits.now bytes ran.end (O.written out.old) (O.written out.new)) }
    ensures ran { (bytes : List ℕ) → I.left input.old ≡ Some bytes → IfOk result (λ ran. Ran (source_of bound.now) limits.now bytes ran.end (O.written out.old) (O.written out.new)) }
    ensures ends { (bytes : List ℕ) → HasEnd (source_of bound.now) limits.now bytes }
    ensures broken { (bytes : List ℕ) → I.left input.old ≡ Some bytes → Broken (I.faults input.old) (I.faults input.new) (source_of bound.now) limits.now bytes (O.written out.old) (O.written out.new) result }
    ensures output { OutputAfter O.written O.faults out.old out.new result }
    ensures input { InputAfter (I.faults input.old) (I.faults input.new) result }

    // The input is as it was where the run takes nothing of it, however the call ends.
    ensures takes { (bytes : List ℕ) → I.left input.old ≡ Some bytes → TakesNothing (source_of bound.now) limits.now bytes → input.new ≡ input.old }
{
    // Code shows what its program means, whose run comes to an end, and what is written stays written.
    compiled_code_runs_as_meant();
    every_run_ends();
    output_grows();
    match compile(alloc, bound) {
        Ok(code) => {
            let end = run_code(alloc, &code, limits, input, out)?;
            Ok(ProgramRun { code, end })
        }
        Err(_) => Err(RunFailure::Memory),
    }
}

// Runs code that never comes to where the table has no rule.
fn run_code<I: Source, O: Sink>(
    alloc: Global,
    code: &Code,
    limits: &Limits,
    input: &mut I,
    out: &mut O,
) -> Result<RunEnd, RunFailure>
    requires { IsRuled code.now limits.now }
    ensures ran { (bytes : List ℕ) → I.left input.old ≡ Some bytes → IfOk result (λ end. CodeRan code.now limits.now bytes end (O.written out.old) (O.written out.new)) }
    ensures broken { (bytes : List ℕ) → I.left input.old ≡ Some bytes → CodeBroken (I.faults input.old) (I.faults input.new) code.now limits.now bytes (O.written out.old) (O.written out.new) result }
    ensures output { OutputAfter O.written O.faults out.old out.new result }
    ensures input { InputAfter (I.faults input.old) (I.faults input.new) result }
    ensures takes { (bytes : List ℕ) → I.left input.old ≡ Some bytes → CodeTakesNothing code.now limits.now bytes → input.new ≡ input.old }
{
    match run(alloc, code, limits, input, out) {
        Ending::Normal => Ok(RunEnd::Normal),
        Ending::RunFault { error, line } => Ok(RunEnd::RunFault { error, line }),
        Ending::StorageExhausted { line, used, wanted } => Ok(RunEnd::StorageExhausted {
            line,
            used,
            wanted,
        }),
        Ending::TickLimit { ticks } => Ok(RunEnd::TickLimit { ticks }),
        Ending::InputFault => Err(RunFailure::Input),
        Ending::WriteFault => Err(RunFailure::Output),
        Ending::Memory => Err(RunFailure::Memory),
        // Only with an input that does not tell its bytes, of whose run nothing is said.
        Ending::BadCode { .. } => Err(RunFailure::Memory),
    }
}
