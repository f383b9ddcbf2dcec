//! The meaning of programs, as definitions: what a program does, step by step.
#![tactic(auto)]

pub mod laws;
