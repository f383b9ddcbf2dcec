//! Code run to its end.
ghost use Rattle.std.specs.Prelude.{◌≡◌, ℕ, List, IfOk, Some};
ghost use Rattle.code_run.specs.CodeEnds.{Broken, HasEnd, InputAfter, OutputAfter, Ran, TakesNothing, told};

use code_finite::laws::every_code_ends;
use object_machine::run;
use sim_base::{Limits, Line, RunError};
use sim_code::laws::output_grows;
use sim_code::{Code, Ending};
use sim_ports::{Sink, Source};
use std::alloc::Global;
use thiserror::Error;

/// How the run of code ends by the machine's table.
#[derive(Clone, Copy, Debug, PartialEq, Eq)]
pub enum CodeEnd {
    /// The code came to its end.
    Normal,
    /// A run-time error.
    RunFault {
        /// The error.
        error: RunError,
        /// Where it came.
        line: Line,
    },
    /// The words that are wanted are not left in the storage budget.
    StorageExhausted {
        /// Where they are wanted.
        line: Line,
        /// The words in use.
        used: u64,
        /// The words wanted.
        wanted: u64,
    },
    /// All ticks are taken, and another one is wanted.
    TickLimit {
        /// The ticks taken.
        ticks: u64,
    },
    /// The table has no rule. No code of a program comes to this.
    BadCode {
        /// The index of the instruction.
        at: u32,
    },
}

/// Why code did not run to an end of its own.
#[derive(Clone, Copy, Debug, PartialEq, Eq, Error)]
pub enum CodeFailure {
    /// The run was refused memory.
    #[error("want of memory")]
    Memory,
    /// The outside failed to give input.
    #[error("input fault")]
    Input,
    /// The outside failed to take output.
    #[error("output fault")]
    Output,
}

/// Runs code, whatever code it is. The answer says how it ended by the machine's table, for the bytes that the input has left. Each run comes
/// back: one that would have 2^64 steps is broken off as for want of memory.
pub fn exec<I: Source, O: Sink>(
    alloc: Global,
    code: Code,
    limits: &Limits,
    input: &mut I,
    out: &mut O,
) -> Result<CodeEnd, CodeFailure>
    ensures ends { (bytes : List ℕ) → HasEnd code limits.now bytes }
    ensures ran { (bytes : List ℕ) → I.left input.old ≡ Some bytes → IfOk result (λ end. Ran code limits.now bytes end (O.written out.old) (O.written out.new)) }
    ensures broken { (bytes : List ℕ) → I.left input.old ≡ Some bytes → Broken (I.faults input.old) (I.faults input.new) code limits.now bytes (O.written out.old) (O.written out.new) result }
    ensures output { OutputAfter O.written O.faults out.old out.new result }
    ensures input { InputAfter (I.faults input.old) (I.faults input.new) result }

    // The input is as it was where the run takes nothing of it, however the call ends.
    ensures takes { (bytes : List ℕ) → I.left input.old ≡ Some bytes → TakesNothing code limits.now bytes → input.new ≡ input.old }
{
    // What is written stays written, and each run comes to an end.
    output_grows();
    every_code_ends();
    end_of(run(alloc, &code, limits, input, out))
}

// How code has ended, by the machine's answer.
fn end_of(ending: Ending) -> Result<CodeEnd, CodeFailure>
    ensures { result ≡ told ending }
{
    match ending {
        Ending::Normal => Ok(CodeEnd::Normal),
        Ending::RunFault { error, line } => Ok(CodeEnd::RunFault { error, line }),
        Ending::StorageExhausted { line, used, wanted } => Ok(CodeEnd::StorageExhausted {
            line,
            used,
            wanted,
        }),
        Ending::TickLimit { ticks } => Ok(CodeEnd::TickLimit { ticks }),
        Ending::BadCode { at } => Ok(CodeEnd::BadCode { at }),
        Ending::InputFault => Err(CodeFailure::Input),
        Ending::WriteFault => Err(CodeFailure::Output),
        Ending::Memory => Err(CodeFailure::Memory),
    }
}
