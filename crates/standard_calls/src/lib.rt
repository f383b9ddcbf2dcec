//! The standard names on the stack of the running machine, with its texts, its input and its output.
#![tactic(auto)]

mod calls;
mod came;
mod functions;
mod input;
mod manner;
mod names;
mod output;
mod performing;
mod plain;
mod reading;
mod scan;
mod texts;
mod whole;

pub use calls::operand_count;
pub use came::Missing;
pub use manner::{Manner, manner_of};
pub use names::{Performed, perform};
pub use plain::perform_plain;
pub use reading::text_in;
pub use scan::perform_scan;
pub use whole::perform_whole;
