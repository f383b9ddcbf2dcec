//! The words of the command line: which command they ask for, with which limits and for which file.
#![tactic(auto)]

mod executed;
mod generated;
mod given;
mod options;
mod words;

pub use executed::{CodeRequest, code_request_of};
pub use generated::generated_of;
pub use words::{Command, Request, request_of};
