//! Why a call that makes a text is refused.

use sim_base::{Memory, RunError};
use std::alloc::AllocError;
use thiserror::Error;

/// Why no text was made.
#[derive(Clone, Copy, Debug, PartialEq, Eq, Drop, Error)]
pub enum TextFault {
    /// A run-time error.
    #[error("{0}")]
    Run(RunError),
    /// The text's words exceed the room.
    #[error("a text of {wanted} words does not fit in the storage")]
    Full {
        /// The text's words.
        wanted: u64,
    },
    /// Want of memory.
    #[error("want of memory")]
    Memory,
}

impl From<RunError> for TextFault {
    ghost use Rattle.std.specs.Prelude.{◌≡◌};
    ghost use Rattle.text_objects.specs.declared.fault.TextFault.TheVariants.{Run};

    ghost from_gives = { λ error fault. fault ≡ Run error };

    fn from(error: RunError) -> TextFault {
        TextFault::Run(error)
    }
}

impl From<Memory> for TextFault {
    ghost use Rattle.std.specs.Prelude.{◌≡◌};
    ghost use Rattle.text_objects.specs.declared.fault.TextFault.TheVariants.{Memory as want};

    ghost from_gives = { λ _ fault. fault ≡ want };

    fn from(_: Memory) -> TextFault {
        TextFault::Memory
    }
}

impl From<AllocError> for TextFault {
    ghost use Rattle.std.specs.Prelude.{◌≡◌};
    ghost use Rattle.text_objects.specs.declared.fault.TextFault.TheVariants.{Memory as want};

    ghost from_gives = { λ _ fault. fault ≡ want };

    fn from(_: AllocError) -> TextFault {
        TextFault::Memory
    }
}
