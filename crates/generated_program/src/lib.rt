//! The generated programs: simulations of as many processes as are wanted, to measure a simulator by.
#![tactic(auto)]

mod program;

pub use program::generated_program;
