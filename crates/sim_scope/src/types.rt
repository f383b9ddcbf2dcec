//! Types, parameters, and what a declared identifier is.

use sim_base::{DeclNo, TokenNo};
use sim_values::Standard;

/// The type of a value.
#[derive(Clone, Copy, Debug, PartialEq, Eq)]
pub enum SimType {
    /// `integer`.
    Integer,
    /// `boolean`.
    Boolean,
    /// `character`.
    Character,
    /// `text`.
    Text,
    /// `ref`, with the declaration of its class.
    Ref(DeclNo),
    /// The type of `none`. A declaration with a `ref` has it too, until its class is known.
    NoneType,
}

/// How a parameter is passed.
#[derive(Clone, Copy, Debug, PartialEq, Eq)]
pub enum Mode {
    /// By value.
    ByValue,
    /// By reference.
    ByReference,
    /// By name.
    ByName,
}

/// What kind of thing a parameter is.
#[derive(Clone, Copy, Debug, PartialEq, Eq)]
pub enum FormalKind {
    /// A value.
    Simple,
    /// An array.
    Array,
    /// A procedure.
    Procedure,
}

/// A formal parameter.
#[derive(Clone, Copy, Debug, PartialEq, Eq)]
pub struct Formal {
    /// How it is passed.
    pub mode: Mode,
    /// What kind it is.
    pub kind: FormalKind,
    /// Its type, the type of its elements, or that of its result. A procedure may have none.
    pub ty: Option<SimType>,
}

/// A mode that is written for a parameter, and the identifier's token there.
#[derive(Clone, Copy, Debug, PartialEq, Eq)]
pub struct WrittenMode {
    /// The identifier in the mode part.
    pub token: TokenNo,
    /// `ByValue` or `ByName`.
    pub mode: Mode,
}

/// What a declared identifier is. A block is given by its number.
#[derive(Clone, Copy, Debug, PartialEq, Eq)]
pub enum Entry {
    /// A variable.
    Variable(SimType),
    /// A constant.
    Constant(SimType),
    /// An array.
    Array {
        element: SimType,
        dimensions: u32,
    },
    /// A procedure with the type of its result, if it has one, and its block.
    Procedure {
        result: Option<SimType>,
        block: u32,
    },
    /// A class with its block.
    Class {
        block: u32,
    },
    /// A virtual procedure, with the procedure of its own class that matches it.
    Virtual {
        result: Option<SimType>,
        own: Option<DeclNo>,
    },
    /// A formal parameter.
    Formal(Formal),
    /// An attribute of a standard class, or of `simulation`, with the types of its parameter and its result, if it has them.
    Attribute {
        name: Standard,
        parameter: Option<SimType>,
        result: Option<SimType>,
    },
    /// A formal parameter that no specification names: there is none in a program that breaks no rule.
    Unspecified {
        written: Option<WrittenMode>,
    },
}

/// A prefix that each program may use, beside its own classes.
#[derive(Clone, Copy, Debug, PartialEq, Eq)]
pub enum StandardPrefix {
    /// `simset`: sets.
    Simset,
    /// `simulation`: scheduling, and sets.
    Simulation,
}

/// A class that `simset` or `simulation` declares in the block in front of which it stands.
#[derive(Clone, Copy, Debug, PartialEq, Eq)]
pub enum StandardClass {
    /// `linkage`.
    Linkage,
    /// `link`, with the prefix linkage.
    Link,
    /// `head`, with the prefix linkage.
    Head,
    /// `process`, with the prefix link.
    Process,
}

/// What a block of the tables is.
#[derive(Clone, Copy, Debug, PartialEq, Eq)]
pub enum BlockKind {
    /// The program's block.
    Program,
    /// A `begin .. end` with declarations.
    SubBlock,
    /// A procedure: its parameters. Declarations of its body are a sub-block inside.
    Procedure,
    /// A class: its parameters, its virtual procedures, and the declarations of its body.
    Class,
    /// A prefixed block, also where it is the program's.
    Prefixed,
    /// What is connected by `inspect`. It has no declarations of its own.
    Connection,
    /// A standard class: its attributes.
    StandardClass(StandardClass),
}

/// Where a statement stands.
#[derive(Clone, Copy, Debug, PartialEq, Eq)]
pub enum Position {
    /// It is the body of a class.
    ClassBody,
    /// It is in the statement list of a class's body.
    ClassStatement,
    /// Elsewhere.
    Inside,
}
