//! That a typed program never comes to where there is no rule.
#![tactic(auto)]

pub mod laws;
