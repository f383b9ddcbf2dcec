//! Chains of instances: which component operates, and what each transfer of control makes of the chains.
#![tactic(auto)]

pub mod laws;
mod refusals;
mod state;

pub use refusals::{Transfer, test_call, test_detach, test_resume, test_resume_main};
pub use state::State;
