//! Why bytes have no code.

use crate::rule::CodeRule;
use std::alloc::{AllocError, AllocFailed};
use thiserror::Error;

/// Why bytes have no code.
#[derive(Clone, Copy, Debug, PartialEq, Eq, Error)]
pub enum CodeRefusal {
    /// The bytes break a rule at this place, and none before it.
    #[error("{rule} at byte {place}")]
    Broken {
        /// K1 to K5.
        rule: CodeRule,
        /// The place in bytes from 0: that of the field, or the end.
        place: u64,
    },
    /// The program was refused memory.
    #[error("want of memory")]
    Memory,
}

/// The same, where the place is told from behind.
#[derive(Clone, Copy, Debug, PartialEq, Eq)]
pub enum Fault {
    /// The bytes break a rule.
    Broken {
        /// The rule.
        rule: CodeRule,
        /// How many bytes are left from the place on.
        left: usize,
    },
    /// The program was refused memory.
    Memory,
}

impl From<AllocError> for Fault {
    ghost use Rattle.std.specs.Prelude.{◌≡◌};
    ghost use Rattle.code_file.specs.declared.fault.Fault.TheVariants as fault;

    ghost from_gives = { λ _ given. given ≡ fault.Memory };

    fn from(_: AllocError) -> Fault {
        Fault::Memory
    }
}

impl<T: Drop> From<AllocFailed<T>> for Fault {
    ghost use Rattle.std.specs.Prelude.{◌≡◌};
    ghost use Rattle.code_file.specs.declared.fault.Fault.TheVariants as fault;

    ghost from_gives = { λ _ given. given ≡ fault.Memory };

    fn from(_: AllocFailed<T>) -> Fault {
        Fault::Memory
    }
}
