//! That compiled code does what its program means.
#![tactic(auto)]

pub mod laws;
