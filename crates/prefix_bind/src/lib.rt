//! Concatenation of classes with their prefixes: which class each prefix is, the levels of each class, and the cells of each instance.
#![tactic(auto)]

mod cells;
mod chains;
mod classes;
pub mod laws;
mod prefixes;
mod sums;

pub use chains::{concat, noted_if};
pub use classes::levels;
pub use prefixes::PrefixFound;
