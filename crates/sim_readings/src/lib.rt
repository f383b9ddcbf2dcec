//! That each list of tokens can be read by the grammar, or comes to a fault.
#![tactic(auto)]

pub mod laws;
