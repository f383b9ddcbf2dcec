//! Texts: frames of bytes, and the operations on texts that lie in them.
#![tactic(auto)]

mod bytes;
mod fault;
mod frame;
mod item;
mod texts;

pub use fault::TextFault;
pub use texts::Texts;
