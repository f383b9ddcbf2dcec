//! Code as a code file, and as text.
#![tactic(auto)]

mod choices;
mod fault;
mod fields;
mod file;
mod instructions;
pub mod laws;
mod listings;
mod records;
mod rule;
mod sections;

pub use fault::CodeRefusal;
pub use file::{read_code, write_code};
pub use listings::listing;
pub use rule::CodeRule;
