//! That the run of whatever code comes to an end.
#![tactic(auto)]

pub mod laws;
