//! Trees of whole programs.

use crate::expr::{Expr, Identifier};
use crate::stmt::Block;
use sim_base::Line;

/// The class in front of a block, with its actual parameters.
pub struct BlockPrefix {
    /// The class.
    pub class: Identifier,
    /// The actual parameters.
    pub arguments: Vec<Expr>,
}

/// A program.
pub struct Program {
    /// The prefix of its block.
    pub prefix: Option<BlockPrefix>,
    /// Its block.
    pub block: Block,
    /// The line of each token, the end of the source included.
    pub lines: Vec<Line>,
}

// How programs are let go, written out as those of expressions are.

impl Drop for BlockPrefix {
    fn drop(self) {
        let BlockPrefix {
            class: _,
            arguments: _,
        } = self;
    }
}

impl Drop for Program {
    fn drop(self) {
        let Program {
            prefix: _,
            block: _,
            lines: _,
        } = self;
    }
}
