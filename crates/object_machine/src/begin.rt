//! What steps come to.

use crate::machine::{Activation, Flow};
use sim_base::Line;

/// How and where the steps end.
#[derive(Clone, Copy)]
pub struct Stop {
    /// How.
    pub flow: Flow,
    /// The line of the last instruction.
    pub line: Line,
    /// The index of the last instruction.
    pub at: usize,
}

/// What the first step comes to.
#[derive(Drop)]
pub enum Begun {
    /// The frame of block 0 is at work.
    Started(Activation),
    /// The run has ended.
    Stopped(Stop),
}
