//! How a run of the machine ends.

use sim_base::{Line, RunError};

/// How a run of the machine ends.
#[derive(Clone, Copy, Debug, PartialEq, Eq)]
pub enum Ending {
    /// The program came to its end.
    Normal,
    /// A run-time error.
    RunFault {
        /// The error.
        error: RunError,
        /// Where it came.
        line: Line,
    },
    /// The words that are wanted are not left in the storage budget.
    StorageExhausted {
        /// Where they are wanted.
        line: Line,
        /// The words in use.
        used: u64,
        /// The words wanted.
        wanted: u64,
    },
    /// All ticks are taken, and another one is wanted.
    TickLimit {
        /// The ticks taken.
        ticks: u64,
    },
    /// The input failed.
    InputFault,
    /// The output failed.
    WriteFault,
    /// Want of memory.
    Memory,
    /// The machine has no rule.
    BadCode {
        /// The index of the instruction.
        at: u32,
    },
}
