//! The static rules as a list, each a clause of its own, and that the answer of a check is the least of them.
#![tactic(auto)]

pub mod laws;
