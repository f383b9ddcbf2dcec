//! The scopes of a program as two lists, and what is found in them: each notion is the first of a list.
#![tactic(auto)]

pub mod laws;
