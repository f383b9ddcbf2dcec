//! What an expression is, and what is known while it is judged.

use crate::found::Fault;
use crate::scopes::Denotation;
use crate::standard::StandardName;
use crate::types::{Formal, SimType};
use sim_base::{DeclNo, TokenNo};

/// What an expression is.
#[derive(Clone, Copy)]
pub enum Outcome {
    /// Nothing: a rule is broken in it.
    Refused,
    /// A call of a procedure without a result.
    NoValue,
    /// A call of a procedure without a result, in parentheses: it stands nowhere.
    NoValueInParentheses,
    /// A value.
    Value(SimType),
    /// The value of a call, which also stands as a statement.
    Called(SimType),
    /// A variable or an element of an array, to which can be assigned.
    Variable(SimType),
    /// A declared constant.
    Constant(SimType),
    /// An array identifier alone.
    Array(SimType),
    /// A procedure identifier alone, its token, and the procedure whose result it is as a left side, if it stands in the text of that one.
    Procedure {
        declaration: DeclNo,
        token: TokenNo,
        own: Option<DeclNo>,
    },
    /// A standard name alone, and its token.
    Standard {
        name: StandardName,
        token: TokenNo,
    },
    /// A class identifier alone.
    Class,
    /// An identifier alone that may not stand there. It has no type; but other rules may hold at its token too.
    Barred(Barred),
}

/// What an identifier alone denotes that may not stand there.
#[derive(Clone, Copy)]
pub enum Barred {
    /// An array, with elements of a type.
    Array(SimType),
    /// A class.
    Class,
    /// A procedure.
    Procedure { declaration: DeclNo, token: TokenNo },
    /// A standard name.
    Standard { name: StandardName, token: TokenNo },
}

/// What an identifier denotes where it stands, and whether a rule bars it from standing there. Each rule that holds at its token is told by
/// itself, and the first of the table is the answer; so what is barred is judged on.
#[derive(Clone, Copy)]
pub struct Occurrence {
    /// What it denotes, if anything.
    pub denotes: Option<Denotation>,
    /// Whether it may not stand there.
    pub barred: bool,
}

/// An operand: its first token, and the type of its value, if it has one.
#[derive(Clone, Copy)]
pub struct Side {
    /// Its first token.
    pub first: TokenNo,
    /// The type of its value.
    pub ty: Option<SimType>,
}

/// How the types of two operands fit an operator.
#[derive(Clone, Copy)]
pub enum Fit {
    /// They do, and the result has this type.
    Fits(SimType),
    /// The first one cannot be right.
    FirstWrong,
    /// The second one does not agree with the first.
    SecondWrong,
}

/// Where an expression stands.
#[derive(Clone, Copy)]
pub enum Extent {
    /// In a statement.
    Statement,
    /// In an array bound, which may not use what its own block declares.
    Bound,
}

/// What an actual parameter or a subscript has to be.
#[derive(Clone, Copy)]
pub enum Parameter {
    /// Nothing is known of it.
    Unknown,
    /// What the called formal procedure or virtual turns out to have when the program runs.
    Unspecified,
    /// A subscript.
    Subscript,
    /// A formal parameter.
    Formal(Formal),
}

/// An actual parameter or a subscript: whether it is something, and whether it does not fit.
#[derive(Clone, Copy)]
pub struct Actual {
    /// Whether no rule is broken in it.
    pub typed: bool,
    /// Where it does not fit its parameter, and the rule.
    pub misfit: Option<Fault>,
}

/// What is known of the actual parameters or subscripts so far.
#[derive(Clone, Copy)]
pub struct Actuals {
    /// Whether each is something.
    pub typed: bool,
    /// How many there are.
    pub count: usize,
    /// The least misfit.
    pub misfit: Option<Fault>,
}

/// What is known of the left sides of an assignment so far.
#[derive(Clone, Copy)]
pub struct LeftSides {
    /// Whether each has a type.
    pub typed: bool,
    /// The least of what does not fit the value.
    pub misfit: Option<Fault>,
}
