//! Tables on the texts of a program, made once.

use sim_base::TokenNo;
use sim_scope::Formal;

/// The value of a declared constant.
#[derive(Clone, Copy, Debug, PartialEq, Eq)]
pub enum ConstantValue {
    /// An integer.
    Integer(i64),
    /// A character.
    Character(u8),
    /// A truth value.
    Truth(bool),
    /// The text that is written at a token.
    Text(TokenNo),
}

/// What is known of the texts, the blocks and the declarations of a program.
#[derive(Drop)]
pub struct Cells {
    /// For each declaration the number of its cell in the frames of the text that it stands in, where it has one.
    pub slots: Vec<Option<u32>>,
    /// For each declaration the value of a constant.
    pub constants: Vec<Option<ConstantValue>>,
    /// For each token the number of the text constant that is written there.
    pub texts: Vec<Option<u32>>,
    /// For each text whether it is a procedure with a result.
    pub results: Vec<bool>,
    /// For each text whether it is a class.
    pub classes: Vec<bool>,
    /// For each text whether it is a connection.
    pub connections: Vec<bool>,
    /// For each text whether it is the class `process`.
    pub processes: Vec<bool>,
    /// For each text the number of the cells that it declares.
    pub counts: Vec<u32>,
    /// For each block of the tables its number among the blocks of code.
    pub numbers: Vec<u32>,
    /// How many blocks the code has.
    pub block_count: u32,
    /// For each block of the tables its formal parameters.
    pub formals: Vec<Vec<Formal>>,
    /// For each block of the tables the formal parameters of all its levels, if it is a class.
    pub class_formals: Vec<Vec<Formal>>,
}
