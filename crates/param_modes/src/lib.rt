//! Actual parameters against a heading: whether they are as many as its formal parameters, and whether each one fits.
#![tactic(auto)]

mod arguments;
mod heading;
pub mod laws;

pub use arguments::fits;
pub use heading::{Heading, heading_of};
