// How a command ends, and the line that it writes to the diagnostic output.
ghost use Rattle.std.specs.Prelude.{◌≡◌, Some, false};
ghost use Rattle.sim_driver.specs.Status.{is_of_code, status_number, status_of, status_text};

use code_file::CodeRule;
use sim_base::{Line, Rule, RunError};
use std::fmt;

/// How a command ends.
#[derive(Clone, Copy, Debug, PartialEq, Eq)]
pub enum Status {
    /// The program ran to its end.
    Normal,
    /// The source breaks this rule, first at this line. Nothing ran.
    Refused {
        rule: Rule,
        line: Line,
    },
    /// The run met this error at this line.
    RunFault {
        error: RunError,
        line: Line,
    },
    /// The words that are wanted at this line are not left in the storage budget.
    StorageExhausted {
        line: Line,
        used: u64,
        budget: u32,
        wanted: u64,
    },
    /// All ticks of the limit are taken, and another one is wanted.
    TickLimit {
        ticks: u64,
    },
    /// The words are no command.
    Usage,
    /// The outside failed to open or to read the file.
    FileFault,
    /// The outside failed to give input.
    InputFault,
    /// The outside failed to take output, or the line of the status.
    WriteFault,
    /// The program was refused memory.
    Memory,
    /// The run of code came to this instruction, for which the machine has no rule.
    BadCode {
        at: u32,
    },
    /// The code file breaks this rule, first at this place in bytes from 0. Nothing ran.
    CodeRefused {
        rule: CodeRule,
        place: u64,
    },
}

/// How a source ends by its own meaning.
#[derive(Clone, Copy)]
pub enum Ending {
    /// The program runs to its end.
    Normal,
    /// The source breaks this rule, first at this line.
    Refused {
        rule: Rule,
        line: Line,
    },
    /// The run meets this error at this line.
    RunFault {
        error: RunError,
        line: Line,
    },
    /// The words that are wanted at this line are not left in the storage budget.
    StorageExhausted {
        line: Line,
        used: u64,
        budget: u32,
        wanted: u64,
    },
    /// All ticks of the limit are taken, and another one is wanted.
    TickLimit {
        ticks: u64,
    },
}

impl Ending {
    /// The status of this ending.
    pub fn status(&self) -> Status
        ensures same { result ≡ status_of self.now }
        ensures no_code { is_of_code result ≡ false }
    {
        match *self {
            Ending::Normal => Status::Normal,
            Ending::Refused { rule, line } => Status::Refused { rule, line },
            Ending::RunFault { error, line } => Status::RunFault { error, line },
            Ending::StorageExhausted {
                line,
                used,
                budget,
                wanted,
            } => Status::StorageExhausted {
                line,
                used,
                budget,
                wanted,
            },
            Ending::TickLimit { ticks } => Status::TickLimit { ticks },
        }
    }
}

impl Status {
    /// The exit status of the process.
    pub fn number(&self) -> u8
        ensures { result ≡ status_number self.now }
    {
        match self {
            Status::Normal => 0,
            Status::Refused { .. } => 1,
            Status::RunFault { .. } => 2,
            Status::StorageExhausted { .. } => 3,
            Status::TickLimit { .. } => 4,
            Status::Usage => 5,
            Status::FileFault => 6,
            Status::InputFault => 7,
            Status::WriteFault => 8,
            Status::Memory => 9,
            Status::BadCode { .. } => 10,
            Status::CodeRefused { .. } => 11,
        }
    }
}

/// What the status says on the diagnostic output, without a line feed; nothing at the normal end.
impl fmt::Display for Status {
    ghost output = { λ status. Some (status_text status) };

    fn fmt<W: fmt::Write>(&self, f: &mut fmt::Formatter<W>) -> fmt::Result {
        match self {
            Status::Normal => Ok(()),
            Status::Refused { rule, line } => write!(f, "line {}: {rule}", line.0),
            Status::RunFault { error, line } => write!(f, "line {}: {error}", line.0),
            Status::StorageExhausted {
                line,
                used,
                budget,
                wanted,
            } => write!(
                f,
                "line {}: storage exhausted, {used} of {budget} words used, {wanted} wanted",
                line.0
            ),
            Status::TickLimit { ticks } => write!(f, "tick limit {ticks} reached"),
            Status::Usage => f.write_str(
                "usage: simula run|exec [--storage W] [--ticks N] [--in-length N] [--out-length N] FILE, check|compile|list|print|xref FILE, gen N",
            ),
            Status::FileFault => f.write_str("cannot read the file"),
            Status::InputFault => f.write_str("input fault"),
            Status::WriteFault => f.write_str("output fault"),
            Status::Memory => f.write_str("want of memory"),
            Status::BadCode { at } => write!(f, "code {at}: no rule"),
            Status::CodeRefused { rule, place } => write!(f, "code byte {place}: {rule}"),
        }
    }
}
