//! The tables of code.
ghost use Rattle.std.specs.Prelude.{◌≡◌, map};

use crate::instr::Lined;
use sim_base::ByteString;
use std::marker::Model;

/// What a block is.
#[derive(Clone, Copy, Debug, PartialEq, Eq)]
pub enum BlockKind {
    /// A sub-block.
    SubBlock,
    /// A procedure.
    Procedure,
    /// A class, whose instances are objects.
    Object,
    /// A prefixed block.
    Prefixed,
}

/// What a cell holds at its entry, what a formal parameter, an actual parameter or an element is, or what a procedure gives.
#[derive(Clone, Copy, Debug, PartialEq, Eq)]
pub enum CodeType {
    /// Nothing: a cell without a value, a procedure without a result.
    Nothing,
    /// An integer.
    Integer,
    /// A truth value.
    Boolean,
    /// A character.
    Character,
    /// A text.
    Text,
    /// A reference.
    Reference,
}

/// How a parameter is passed.
#[derive(Clone, Copy, Debug, PartialEq, Eq)]
pub enum CodeMode {
    /// By value.
    Value,
    /// By reference.
    Reference,
    /// By name.
    Name,
}

/// What a formal parameter is.
#[derive(Clone, Copy, Debug, PartialEq, Eq)]
pub enum FormalShape {
    /// A value.
    Simple,
    /// An array.
    Array,
    /// A procedure.
    Procedure,
}

/// A formal parameter.
#[derive(Clone, Copy, Debug, PartialEq, Eq)]
pub struct CodeFormal {
    /// How it is passed.
    pub mode: CodeMode,
    /// What it is.
    pub shape: FormalShape,
    /// Its type, that of its elements or of its result.
    pub code_type: CodeType,
    /// The class of a reference, or 0.
    pub class: u32,
}

/// A block of the program: a sub-block, a procedure, a class or a prefixed block. The program's block is the first.
#[derive(Drop)]
pub struct BlockRecord {
    /// What it is.
    pub kind: BlockKind,
    /// Its level: 1 for the program's block.
    pub level: u32,
    /// How many cells cost words.
    pub cells: u32,
    /// How many temps there are beside them.
    pub temps: u32,
    /// How many values its operand stack holds.
    pub room: u32,
    /// The index of its first instruction; of a class the kind of standard class that it is.
    pub entry: u32,
    /// Whether its text has no class declaration and no prefixed block.
    pub class_free: bool,
    /// What a procedure gives.
    pub result_type: CodeType,
    /// The class of the result, or of the object or prefixed block; or 0.
    pub class: u32,
    /// What each cell and temp holds at the entry.
    pub types: Vec<CodeType>,
    /// The formal parameters.
    pub formals: Vec<CodeFormal>,
}

impl Model for BlockRecord {
    ghost use Rattle.sim_code.specs.Code.{BlockOf};

    ghost Value = { BlockOf };

    ghost view = { λ b. record {
      kind = b.kind;
      level = b.level;
      cells = b.cells;
      temps = b.temps;
      room = b.room;
      entry = b.entry;
      class_free = b.class_free;
      result_type = b.result_type;
      class = b.class;
      types = b.types.items;
      formals = b.formals.items;
    } };
}

/// The procedure that matches a virtual in a class.
#[derive(Clone, Copy, Debug, PartialEq, Eq)]
pub struct Match {
    /// The virtual's number.
    pub virtual_number: u32,
    /// The block of the procedure.
    pub block: u32,
}

/// A class. Classes count from 1.
#[derive(Drop)]
pub struct ClassRecord {
    /// The class in front of it, or 0.
    pub prefix: u32,
    /// The block of its objects.
    pub block: u32,
    /// The index of its declarations.
    pub declarations: u32,
    /// The index of its statements.
    pub statements: u32,
    /// The index of what stands behind its `inner`.
    pub after_inner: u32,
    /// Whether its objects are processes.
    pub process: bool,
    /// The matches of its virtuals.
    pub matches: Vec<Match>,
}

impl Model for ClassRecord {
    ghost use Rattle.sim_code.specs.Code.{ClassOf};

    ghost Value = { ClassOf };

    ghost view = { λ c. record {
      prefix = c.prefix;
      block = c.block;
      declarations = c.declarations;
      statements = c.statements;
      after_inner = c.after_inner;
      process = c.process;
      matches = c.matches.items;
    } };
}

/// An actual parameter by name, as code of its own.
#[derive(Clone, Copy, Debug, PartialEq, Eq)]
pub struct ThunkRecord {
    /// The index of its first instruction.
    pub entry: u32,
    /// How many values its operand stack holds.
    pub room: u32,
}

/// One actual parameter of a call that is checked when it is done.
#[derive(Clone, Copy, Debug, PartialEq, Eq)]
pub struct CodeActual {
    /// The type of the expression.
    pub code_type: CodeType,
    /// Whether it is a variable.
    pub variable: bool,
    /// The type of its elements, of an array.
    pub array: CodeType,
    /// Whether it is a procedure.
    pub procedure: bool,
    /// What the procedure gives.
    pub result_type: CodeType,
    /// How many formal parameters the procedure has.
    pub formals: u32,
    /// The class of a reference, or 0.
    pub class: u32,
}

/// The actual parameters of a call that is checked when it is done.
#[derive(Drop)]
pub struct ActualList {
    /// The actual parameters.
    pub actuals: Vec<CodeActual>,
}

impl Model for ActualList {
    ghost use Rattle.std.specs.Prelude.{List};
    ghost use Rattle.sim_code.specs.declared.code.CodeActual.{CodeActual};

    ghost Value = { List CodeActual };

    ghost view = { λ list. list.actuals.items };
}

/// Code, as a code file has it.
#[derive(Drop)]
pub struct Code {
    /// The text constants.
    pub texts: Vec<ByteString>,
    /// The blocks.
    pub blocks: Vec<BlockRecord>,
    /// The classes.
    pub classes: Vec<ClassRecord>,
    /// The actual parameters by name.
    pub thunks: Vec<ThunkRecord>,
    /// The actual parameters of checked calls.
    pub actual_lists: Vec<ActualList>,
    /// The instructions.
    pub instrs: Vec<Lined>,
}

impl Model for Code {
    ghost use Rattle.sim_code.specs.Code.{CodeOf};

    ghost Value = { CodeOf };

    ghost view = { λ c. record {
      texts = c.texts.items;
      blocks = c.blocks.items;
      classes = c.classes.items;
      thunks = c.thunks.items;
      actual_lists = c.actual_lists.items;
      instrs = c.instrs.items;
    } };
}
