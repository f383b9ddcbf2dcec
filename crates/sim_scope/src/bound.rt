//! A program that breaks no rule, with what its identifiers denote and its expressions are.

use crate::scopes::{Denotation, Scopes};
use crate::types::SimType;
use sim_tree::Program;

/// A program with its tables. The rows of `uses`, `found_in` and `types` are numbered by token.
#[derive(Drop)]
pub struct Bound {
    /// The program.
    pub program: Program,
    /// Its block tables.
    pub scopes: Scopes,
    /// For each token of an identifier what it denotes.
    pub uses: Vec<Option<Denotation>>,
    /// For each token of an identifier that is found in a block around it, and for `this`, that block: for an attribute the class, the
    /// prefixed block or the connection whose levels have it, for `this` the one whose object is meant.
    pub found_in: Vec<Option<u32>>,
    /// For each token that names an expression its type.
    pub types: Vec<Option<SimType>>,
}
