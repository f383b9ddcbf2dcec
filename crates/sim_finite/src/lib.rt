//! That the run of each program comes to an end.
#![tactic(auto)]

pub mod laws;
