//! The texts of a program, and its text constants, as parts of its tree.
#![tactic(auto)]

mod constants;
mod listing;
mod tree;

pub use constants::{ConstantTree, text_constants};
pub use listing::texts_of;
pub use tree::TextTree;
