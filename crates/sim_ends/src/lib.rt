//! The real outside: files of the system, and any reader and writer as an input and an output. Each tells its bytes where
//! the file, the reader or the writer below it does. Those of the process tell none, so what enters or leaves it is
//! trusted. A call that fails is counted as a fault; one that a signal interrupts is made again.
#![tactic(auto)]

mod calls;
mod files;
mod input;
mod output;

pub use files::RealFiles;
pub use input::Input;
pub use output::Output;
