//! The top call: from the words of the command line to a status.
#![tactic(auto)]

mod all_words;
mod coding;
mod command;
mod compiling;
mod executing;
mod failure;
pub mod laws;
mod no_input;
mod printing;
mod reading;
mod speaking;
mod status;
mod top;

pub use compiling::{Refusal, bind};
pub use status::Status;
pub use top::simula;
