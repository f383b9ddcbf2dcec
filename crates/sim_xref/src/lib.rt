//! Cross references: each declaration of a program with the places where its identifier is used.
#![tactic(auto)]

pub mod laws;
mod rows;
mod text;

pub use rows::{XrefRow, xref};
pub use text::cross_references;
