//! Why a source has no tokens.

use sim_base::Rule;
use std::alloc::{AllocError, AllocFailed};
use thiserror::Error;

/// Why a source has no tokens.
#[derive(Clone, Copy, Debug, PartialEq, Eq, Error)]
pub enum LexRefusal {
    /// The source breaks a lexical rule at this place, and none before it.
    #[error("{rule} at byte {place}")]
    Broken {
        /// X1 to X9.
        rule: Rule,
        /// The place in bytes from 0: for X8 the first byte past the limit, else the first byte of the token or comment.
        place: u32,
    },
    /// The program was refused memory.
    #[error("want of memory")]
    Memory,
}

impl From<AllocError> for LexRefusal {
    ghost use Rattle.std.specs.Prelude.{◌≡◌};
    ghost use Rattle.sim_lexer.specs.declared.refusal.LexRefusal.TheVariants as refusal;

    ghost from_gives = { λ _ given. given ≡ refusal.Memory };

    fn from(_: AllocError) -> LexRefusal {
        LexRefusal::Memory
    }
}

impl<T: Drop> From<AllocFailed<T>> for LexRefusal {
    ghost use Rattle.std.specs.Prelude.{◌≡◌};
    ghost use Rattle.sim_lexer.specs.declared.refusal.LexRefusal.TheVariants as refusal;

    ghost from_gives = { λ _ given. given ≡ refusal.Memory };

    fn from(_: AllocFailed<T>) -> LexRefusal {
        LexRefusal::Memory
    }
}
