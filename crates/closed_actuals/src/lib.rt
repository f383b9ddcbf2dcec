//! What the evaluations of actual parameters by name are for the instances of a program: closed trees, and work of the instances that use them.
#![tactic(auto)]

pub mod laws;
