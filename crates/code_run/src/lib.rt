//! Code run by the machine, whatever code it is: what is written and how it ends is what the machine's table says.
#![tactic(auto)]

mod running;

pub use running::{CodeEnd, CodeFailure, exec};
