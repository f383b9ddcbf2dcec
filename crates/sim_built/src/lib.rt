//! That what breaks no rule is built.
#![tactic(auto)]

pub mod laws;
