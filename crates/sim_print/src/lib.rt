//! The canonical text of a program.
#![tactic(auto)]

mod constants;
mod expression;
pub mod laws;
mod layout;
mod parts;
mod printing;
mod statement;
mod words;

pub use printing::print;
