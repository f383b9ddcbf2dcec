//! The instructions.

use sim_base::Line;

/// An instruction, in the order of the machine's table. An operand is any number: where it names nothing the machine has no rule.
#[derive(Clone, Copy, Debug, PartialEq, Eq)]
pub enum Instr {
    /// Ends the run.
    Halt,
    /// Pushes an integer.
    Int(i64),
    /// Pushes a truth value: 0 is false, 1 is true.
    Bool(i64),
    /// Pushes a character, by its code.
    Char(i64),
    /// Pushes a text constant, by its number.
    TextK(i64),
    /// Pushes `none`.
    None,
    /// Pushes `notext`.
    NoText,
    /// Pushes the frame of a level as a link.
    Link(i64),
    /// Pushes the frame of a level as a reference.
    This(i64),
    /// Pushes the address of a cell, with the class of a reference in it.
    Addr {
        level: i64,
        cell: i64,
        class: i64,
    },
    /// A reference gives the address of a cell of its object.
    AddrR {
        cell: i64,
        class: i64,
    },
    /// Pushes the address of the image of sysin (0) or sysout (1).
    AddrImg(i64),
    /// An array and subscripts give the address of an element.
    Elem {
        subscripts: i64,
        class: i64,
    },
    /// An address gives the value that stands there.
    Fetch,
    /// Puts a value where an address leads.
    Put,
    /// Pushes the value of a cell.
    Load {
        level: i64,
        cell: i64,
    },
    /// Pops a value into a cell.
    Store {
        level: i64,
        cell: i64,
    },
    /// Pushes the top value once more.
    Dup,
    /// Drops the top value.
    Pop,
    /// Exchanges the two top values.
    Swap,
    /// `-` of one integer.
    Neg,
    /// `+`
    Add,
    /// `-`
    Sub,
    /// `*`
    Mul,
    /// `//`
    Div,
    /// `**`
    Pow,
    /// A relation of numbers or characters: 0 `<`, 1 `<=`, 2 `=`, 3 `>=`, 4 `>`, 5 `<>`.
    Rel(i64),
    /// The same of texts.
    RelT(i64),
    /// `==` of references.
    Same,
    /// `==` of texts.
    SameT,
    /// `not`
    Not,
    /// `and`
    And,
    /// `or`
    Or,
    /// `imp`
    Imp,
    /// `eqv`
    Eqv,
    /// `is`
    Is(i64),
    /// `in`
    In(i64),
    /// `qua`
    Qua(i64),
    /// Goes on at an index.
    Jump(i64),
    /// Pops a truth value, and goes on at an index where it is false.
    JumpF(i64),
    /// Takes a tick.
    Tick,
    /// The test of a step element, of the step, the variable and the limit.
    StepTest,
    /// Enters a sub-block.
    Enter(i64),
    /// Ends a sub-block.
    Leave,
    /// Enters a procedure, with a link or reference and its values.
    Call {
        block: i64,
        values: i64,
    },
    /// Ends a procedure.
    Return,
    /// A link or reference gives a procedure value.
    ProcVal(i64),
    /// A reference gives the procedure value of the match of a virtual.
    Virt(i64),
    /// Checks the procedure value on top against an actual list.
    Check(i64),
    /// Passes an actual parameter for a formal one of a procedure value.
    Param {
        formal: i64,
        thunk: i64,
        procedure: i64,
    },
    /// Enters a procedure value with its values.
    CallV(i64),
    /// Pushes a thunk.
    Thunk(i64),
    /// Runs the thunk in a cell and pushes its value.
    NameVal {
        level: i64,
        cell: i64,
        class: i64,
    },
    /// Runs the thunk in a cell and pushes its address.
    NameAddr {
        level: i64,
        cell: i64,
        value: i64,
    },
    /// Ends a thunk.
    EndThunk,
    /// Enters an object of a class, with a link and its values.
    New {
        class: i64,
        values: i64,
    },
    /// Enters a prefixed block, with its values.
    Pref {
        block: i64,
        values: i64,
    },
    /// Goes on to the declarations of the next level, or to the statements of the first one.
    NextDecl(i64),
    /// Goes on to the statements of the next level.
    Inner(i64),
    /// Ends a level; the first one ends the object or prefixed block.
    EndLevel(i64),
    /// Bounds give a new array: 1 integers, 2 truth values, 3 characters, 4 texts, 5 references.
    Array {
        element: i64,
        dimensions: i64,
    },
    /// An array gives a copy.
    CopyArr,
    /// Keeps an array.
    Keep,
    /// `:=` of texts.
    AssignT,
    /// Does what a standard name does, by its number.
    Std(i64),
    /// Schedules a process.
    Act(i64),
    /// `detach`
    Detach,
    /// `call`
    Attach,
    /// `resume`
    Resume,
    /// Tests that a reference is not `none`.
    NotNone,
}

/// An instruction with its line.
#[derive(Clone, Copy, Debug, PartialEq, Eq)]
pub struct Lined {
    /// The instruction.
    pub instr: Instr,
    /// The line that its errors have.
    pub line: Line,
}
