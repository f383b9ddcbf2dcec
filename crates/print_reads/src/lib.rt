//! That the canonical text of a program is read again as the program.
#![tactic(auto)]

pub mod laws;
