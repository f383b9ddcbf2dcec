//! The operators of two operands, as the abstract syntax has them.

use crate::expr::{Multiplication, Relation, Sign};

/// An operator of two operands.
#[derive(Clone, Copy, Debug, PartialEq, Eq)]
pub enum Operator {
    /// `or else`.
    OrElse,
    /// `and then`.
    AndThen,
    /// `eqv`.
    Equivalent,
    /// `imp`.
    Implies,
    /// `or`.
    Or,
    /// `and`.
    And,
    /// A relation.
    Relate(Relation),
    /// `&`.
    Concatenate,
    /// `+` or `-`.
    Add(Sign),
    /// `*` or `//`.
    Multiply(Multiplication),
    /// `**`.
    Power,
}
