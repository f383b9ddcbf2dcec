//! That a program which the static rules allow is typed.
#![tactic(auto)]

pub mod laws;
