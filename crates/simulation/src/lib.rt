//! Scheduling: the procedures of SIMULATION on the event notices of one simulation block.
#![tactic(auto)]

mod laws;
mod sim;
mod steps;

pub use laws::{
    answers_tell_the_list, cancel_of_the_current_is_passivate, references_are_tested_first,
    time_never_goes_back,
};
pub use sim::Sim;
