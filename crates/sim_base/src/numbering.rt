//! Numbers of lines, tokens, declarations and instances, each a type of its own.

/// A line of the source. Lines count from 1.
#[derive(Clone, Copy, Debug, PartialEq, Eq)]
pub struct Line(pub u32);

/// A token of the source. Tokens count from 0, and the end of the source is the last one.
#[derive(Clone, Copy, Debug, PartialEq, Eq)]
pub struct TokenNo(pub u32);

/// A declaration of the source, counted from 0 in text order.
#[derive(Clone, Copy, Debug, PartialEq, Eq)]
pub struct DeclNo(pub u32);

/// An instance of a block, procedure or class.
#[derive(Clone, Copy, Debug, PartialEq, Eq)]
pub struct InstNo(pub u32);
