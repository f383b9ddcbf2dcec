//! The second round: the classes that references are of, the matches of virtual procedures, and protection.
#![tactic(auto)]

pub mod laws;
mod matching;
mod protections;
mod qualifying;

pub use matching::{match_in, match_of, matches, name_of, virtual_for};
pub use protections::second_round;
pub use qualifying::qualify;
