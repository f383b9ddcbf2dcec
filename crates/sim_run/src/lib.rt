//! A program compiled and run: what is written and how it ends is what the program means.
#![tactic(auto)]

mod running;

pub use running::{ProgramRun, RunEnd, RunFailure, compile_and_run};
