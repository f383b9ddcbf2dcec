//! Why tokens are no expression.

use sim_base::{Rule, TokenNo};
use std::alloc::{AllocError, AllocFailed};
use thiserror::Error;

/// Why tokens are no expression, or no program.
#[derive(Clone, Copy, Debug, PartialEq, Eq, Error)]
pub enum SyntaxRefusal {
    /// A rule of the grammar is broken at this token.
    #[error("{rule} at token {}", token.0)]
    Broken {
        /// Y1, the first bad token, or Y2, the first that nests too deeply.
        rule: Rule,
        /// The token.
        token: TokenNo,
    },
    /// The program was refused memory.
    #[error("want of memory")]
    Memory,
}

/// Where a parser stops.
#[derive(Clone, Copy, Debug, PartialEq, Eq)]
pub enum Stop {
    /// This token is not expected.
    Unexpected(usize),
    /// This token would begin a statement or an expression too deep.
    TooDeep(usize),
    /// The program was refused memory.
    Memory,
}

impl From<AllocError> for Stop {
    ghost use Rattle.sim_expr_parser.specs.declared.refusal.Stop.TheVariants.{Memory};
    ghost use Rattle.std.specs.Prelude.{◌≡◌};

    ghost from_gives = { λ _ e. e ≡ Memory };

    fn from(_: AllocError) -> Stop {
        Stop::Memory
    }
}

impl<T: Drop> From<AllocFailed<T>> for Stop {
    ghost use Rattle.sim_expr_parser.specs.declared.refusal.Stop.TheVariants.{Memory};
    ghost use Rattle.std.specs.Prelude.{◌≡◌};

    ghost from_gives = { λ _ e. e ≡ Memory };

    fn from(_: AllocFailed<T>) -> Stop {
        Stop::Memory
    }
}
