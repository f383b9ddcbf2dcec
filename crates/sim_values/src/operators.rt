//! The operators on values, in groups by what they take and give.
ghost use Rattle.std.specs.Prelude.{◌≡◌};
ghost use Rattle.sim_values.specs.Operators.{calculated, connected, holds};

use crate::arithmetic::{add, div, mul, pow, sub};
use sim_base::RunError;
use std::cmp::Ordering;

/// An operator of two integers that gives an integer.
#[derive(Clone, Copy, Debug, PartialEq, Eq)]
pub enum Calculation {
    /// `+`
    Add,
    /// `-`
    Subtract,
    /// `*`
    Multiply,
    /// `//`
    Divide,
    /// `**`
    Power,
}

impl Calculation {
    /// The result of the operator, or its run-time error.
    pub fn apply(self, a: i64, b: i64) -> Result<i64, RunError>
        ensures result { result ≡ calculated self a b }
    {
        match self {
            Calculation::Add => add(a, b),
            Calculation::Subtract => sub(a, b),
            Calculation::Multiply => mul(a, b),
            Calculation::Divide => div(a, b),
            Calculation::Power => pow(a, b),
        }
    }
}

/// A comparison of two integers, two characters or two texts.
#[derive(Clone, Copy, Debug, PartialEq, Eq)]
pub enum Comparison {
    /// `<`
    Less,
    /// `<=`
    LessOrEqual,
    /// `=`
    Equal,
    /// `>=`
    GreaterOrEqual,
    /// `>`
    Greater,
    /// `<>`
    NotEqual,
}

impl Comparison {
    /// Whether the comparison holds of two values that stand in this order.
    pub fn holds(self, order: Ordering) -> bool
        ensures result { result ≡ holds self order }
    {
        match self {
            Comparison::Less => order == Ordering::Less,
            Comparison::LessOrEqual => order != Ordering::Greater,
            Comparison::Equal => order == Ordering::Equal,
            Comparison::GreaterOrEqual => order != Ordering::Less,
            Comparison::Greater => order == Ordering::Greater,
            Comparison::NotEqual => order != Ordering::Equal,
        }
    }
}

/// An operator of two truth values.
#[derive(Clone, Copy, Debug, PartialEq, Eq)]
pub enum Connective {
    /// `and`
    And,
    /// `or`
    Or,
    /// `imp`
    Implies,
    /// `eqv`
    Equivalent,
}

impl Connective {
    /// The result of the operator.
    pub fn apply(self, a: bool, b: bool) -> bool
        ensures result { result ≡ connected self a b }
    {
        match self {
            Connective::And => a && b,
            Connective::Or => a || b,
            Connective::Implies => !a || b,
            Connective::Equivalent => a == b,
        }
    }
}

/// An operator of two values. `=/=` is the negation of `==`; `and then` and `or else` are conditional expressions.
#[derive(Clone, Copy, Debug, PartialEq, Eq)]
pub enum Dyadic {
    /// Of two integers, an integer.
    Calculate(Calculation),
    /// Of two integers or two characters, a truth value.
    Compare(Comparison),
    /// Of two texts, a truth value by their characters.
    CompareTexts(Comparison),
    /// Of two truth values, a truth value.
    Connect(Connective),
    /// `==` of two references.
    SameObject,
    /// `==` of two texts.
    SameText,
}

/// An operator of one value.
#[derive(Clone, Copy, Debug, PartialEq, Eq)]
pub enum Monadic {
    /// `-`
    Negate,
    /// `not`
    Not,
}
