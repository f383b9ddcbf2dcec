//! A text of a program.

use sim_scope::StandardClass;
use sim_tree::{Block, BlockPrefix, Class, Identifier, Procedure, TypeName};

/// A text of a program, as a part of its tree.
#[derive(Clone, Copy)]
pub enum TextTree<'a> {
    /// The program's block without a prefix, or a sub-block.
    Block(&'a Block),
    /// A procedure with the type of its result.
    Procedure {
        result: &'a Option<TypeName>,
        procedure: &'a Procedure,
    },
    /// A class with its prefix, and the block whose declarations and statements are those of the class.
    Class {
        prefix: &'a Option<Identifier>,
        class: &'a Class,
        block: &'a Block,
    },
    /// A class with its prefix, whose body is another statement than `begin .. end`.
    ClassOfStatement {
        prefix: &'a Option<Identifier>,
        class: &'a Class,
    },
    /// A block with a prefix.
    Prefixed {
        prefix: &'a BlockPrefix,
        block: &'a Block,
    },
    /// A connection.
    Connection,
    /// A class that `simset` or `simulation` declares.
    Standard(StandardClass),
}
