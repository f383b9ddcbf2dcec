//! Why a program is refused.

use sim_base::{Memory, Rule, TokenNo};
use std::alloc::{AllocError, AllocFailed};
use thiserror::Error;

/// Why the static rules refuse a program.
#[derive(Clone, Copy, Debug, PartialEq, Eq, Error)]
pub enum StaticRefusal {
    /// It breaks a rule, first at this token.
    #[error("rule broken")]
    Broken { rule: Rule, token: TokenNo },
    /// The compiler was refused memory.
    #[error("want of memory")]
    Memory,
}

impl From<Memory> for StaticRefusal {
    ghost use Rattle.std.specs.Prelude.{◌≡◌};
    ghost use Rattle.sim_scope.specs.declared.refusal.StaticRefusal.TheVariants.{Memory};

    ghost from_gives = { λ _ refusal. refusal ≡ Memory };

    fn from(_: Memory) -> StaticRefusal {
        StaticRefusal::Memory
    }
}

impl From<AllocError> for StaticRefusal {
    ghost use Rattle.std.specs.Prelude.{◌≡◌};
    ghost use Rattle.sim_scope.specs.declared.refusal.StaticRefusal.TheVariants.{Memory};

    ghost from_gives = { λ _ refusal. refusal ≡ Memory };

    fn from(_: AllocError) -> StaticRefusal {
        StaticRefusal::Memory
    }
}

impl<T: Drop> From<AllocFailed<T>> for StaticRefusal {
    ghost use Rattle.std.specs.Prelude.{◌≡◌};
    ghost use Rattle.sim_scope.specs.declared.refusal.StaticRefusal.TheVariants.{Memory};

    ghost from_gives = { λ _ refusal. refusal ≡ Memory };

    fn from(_: AllocFailed<T>) -> StaticRefusal {
        StaticRefusal::Memory
    }
}
