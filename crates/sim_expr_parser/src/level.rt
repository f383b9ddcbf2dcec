//! The levels of operators that have one operator each.

ghost use Rattle.std.specs.Prelude.{◌≡◌, ◌<◌, ◌≤◌, map};
ghost use Rattle.sim_tree.specs.Derivation.{operated, operand_derivation, derivation_of};
ghost use Rattle.sim_expr_parser.specs.Level.{many, under, operator};

use sim_base::TokenKind;
use sim_tree::{Expr, Operand};

/// A level with one operator, from the loosest.
#[derive(Clone, Copy, Debug, PartialEq, Eq)]
pub enum Level {
    /// `or else`.
    OrElse,
    /// `and then`.
    AndThen,
    /// `eqv`.
    Eqv,
    /// `imp`.
    Imp,
    /// `or`.
    Or,
    /// `and`.
    And,
    /// `&`.
    Concatenation,
    /// `**`.
    Power,
}

impl Level {
    /// Its operator.
    pub fn operator(self) -> TokenKind
        ensures { result ≡ operator self }
    {
        match self {
            Level::OrElse => TokenKind::OrElse,
            Level::AndThen => TokenKind::AndThen,
            Level::Eqv => TokenKind::Eqv,
            Level::Imp => TokenKind::Imp,
            Level::Or => TokenKind::Or,
            Level::And => TokenKind::And,
            Level::Concatenation => TokenKind::Ampersand,
            Level::Power => TokenKind::Power,
        }
    }

    /// The level of its operands.
    pub fn operand(self) -> u32
        ensures number { result ≡ under self }
        ensures some { 1 ≤ result }
        ensures low { result < 13 }
    {
        match self {
            Level::OrElse => 12,
            Level::AndThen => 11,
            Level::Eqv => 10,
            Level::Imp => 9,
            Level::Or => 8,
            Level::And => 7,
            Level::Concatenation => 4,
            Level::Power => 1,
        }
    }

    /// The node of its operands.
    pub fn node(self, first: Box<Expr>, rest: Vec<Operand>) -> Expr
        ensures { derivation_of result ≡ operated (under self) (operator self) (many self) (derivation_of first.value) (map operand_derivation rest.items) }
    {
        match self {
            Level::OrElse => Expr::OrElse { first, rest },
            Level::AndThen => Expr::AndThen { first, rest },
            Level::Eqv => Expr::Eqv { first, rest },
            Level::Imp => Expr::Imp { first, rest },
            Level::Or => Expr::Or { first, rest },
            Level::And => Expr::And { first, rest },
            Level::Concatenation => Expr::Concatenation { first, rest },
            Level::Power => Expr::Power { first, rest },
        }
    }
}
