//! Programs: the tree that the grammar gives, or the first bad token, or the first one that nests too deeply.
#![tactic(auto)]

mod declaration;
mod elements;
mod heading;
mod lists;
mod names;
mod operation;
mod program;
mod statement;
mod words;

pub use program::parse;
