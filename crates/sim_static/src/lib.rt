//! The static rules of whole programs: what the statements and declarations of a program need of their expressions, and the first rule that
//! a program breaks.
#![tactic(auto)]

mod activation;
mod assignment;
mod bounds;
mod connection;
mod control;
mod judging;
pub mod laws;
mod prefix;
mod rounds;
mod statement;

pub use rounds::check;
