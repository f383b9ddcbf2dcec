//! The storage of the running machine: values packed into slots, operand stacks, and the frames with their cells.
#![tactic(auto)]

mod arena;
pub mod arrays;
mod contents;
pub mod frames;
pub mod heads;
pub mod operators;
mod region;
pub mod regions;
mod slot;
pub mod stack;
pub mod words;

pub use arena::Arena;
pub use arrays::Arrays;
pub use contents::Referent;
pub use operators::Applied;
pub use slot::{EMPTY, NOTHING, Slot, SlotKind};
