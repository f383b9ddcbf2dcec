//! Trees of programs, and the grammar: which token lists are programs, and with which tree.
#![tactic(auto)]

mod expr;
pub mod grammar;
mod measure;
mod nesting;
mod operator;
mod program;
mod stmt;

pub use expr::{
    Expr, Factor, Identifier, LeadingSign, Membership, Multiplication, Operand, Relation, Selector,
    Sign, Term,
};
pub use measure::{first_token, naming_token};
pub use nesting::depth;
pub use operator::Operator;
pub use program::{BlockPrefix, Program};
pub use stmt::{
    Activation, ArraySegment, Assigned, Assignment, Block, Bounds, Class, Constant, Decl,
    ForElement, Mode, ModePart, Procedure, Protection, ReferenceElement, Specification, Specifier,
    Stmt, Timing, TypeName, Variable, VirtualSpecification, When,
};
