//! That cross references stand in the order of the text.
#![tactic(auto)]

pub mod laws;
