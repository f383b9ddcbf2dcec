//! That the tables of a program agree with its texts.
#![tactic(auto)]

pub mod laws;
