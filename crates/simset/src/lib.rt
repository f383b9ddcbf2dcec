//! The sets of SIMSET: links in the two-way rings of their heads, seen as lists.
#![tactic(auto)]

pub mod laws;
mod rings;

pub use rings::{LinkageNo, Rings};
