//! The kinds of plain values.

/// What a declared variable, an operand or a result holds.
#[derive(Clone, Copy, Debug, PartialEq, Eq)]
pub enum Kind {
    /// An integer.
    Integer,
    /// A truth value.
    Boolean,
    /// A character.
    Character,
    /// A text.
    Text,
    /// A reference to an object, or `none`.
    Reference,
}
