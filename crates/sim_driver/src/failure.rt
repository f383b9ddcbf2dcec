// Why a run ends before the end of its program.

use std::alloc::{AllocError, AllocFailed};
use thiserror::Error;

/// Why a run breaks off that has not ended by its own meaning.
#[derive(Clone, Copy, Debug, PartialEq, Eq, Error)]
pub enum RunFailure {
    /// The run was refused memory.
    #[error("want of memory")]
    Memory,
    /// The outside failed to give input.
    #[error("input fault")]
    Input,
    /// The outside failed to take output.
    #[error("output fault")]
    Output,
}
