//! Trees of statements, declarations and blocks. Each node has the number of its first token, or of the word that names it.

use crate::expr::{Expr, Identifier, LeadingSign};
use crate::program::BlockPrefix;
use sim_base::{ByteString, TokenNo};

/// A type as it is written.
#[derive(Debug)]
pub enum TypeName {
    /// `integer`.
    Integer(TokenNo),
    /// `boolean`.
    Boolean(TokenNo),
    /// `character`.
    Character(TokenNo),
    /// `text`.
    Text(TokenNo),
    /// `ref` and a class.
    Reference { token: TokenNo, class: Identifier },
}

/// The value of a declared constant.
#[derive(Debug)]
pub enum Constant {
    /// An integer, with a sign or without.
    Integer {
        sign: Option<LeadingSign>,
        token: TokenNo,
        value: i64,
    },
    /// A character.
    Character {
        token: TokenNo,
        value: u8,
    },
    /// A text.
    Text {
        token: TokenNo,
        value: ByteString,
    },
    /// `true`.
    True {
        token: TokenNo,
    },
    /// `false`.
    False {
        token: TokenNo,
    },
}

/// A declared variable, or a constant where a value is given.
#[derive(Debug)]
pub struct Variable {
    /// Its identifier.
    pub name: Identifier,
    /// Its value, of a constant.
    pub value: Option<Constant>,
}

/// Arrays with the same bounds.
pub struct ArraySegment {
    /// The arrays.
    pub names: Vec<Identifier>,
    /// The bounds of each dimension, at least one.
    pub bounds: Vec<Bounds>,
}

/// The bounds of a dimension.
pub struct Bounds {
    /// The lower bound.
    pub lower: Expr,
    /// The upper bound.
    pub upper: Expr,
}

/// How a parameter is passed.
#[derive(Clone, Copy, Debug, PartialEq, Eq)]
pub enum Mode {
    /// `value`.
    Value,
    /// `name`.
    Name,
}

/// Parameters whose mode is written.
#[derive(Debug)]
pub struct ModePart {
    /// The token of the mode.
    pub token: TokenNo,
    /// The mode.
    pub mode: Mode,
    /// The parameters.
    pub names: Vec<Identifier>,
}

/// What a parameter is specified as.
#[derive(Debug)]
pub enum Specifier {
    /// A value of a type.
    Simple(TypeName),
    /// An array of a type. The token is that of `array`.
    Array {
        element: TypeName,
        token: TokenNo,
    },
    /// A procedure, with the type of its result. The token is that of `procedure`.
    Procedure {
        result: Option<TypeName>,
        token: TokenNo,
    },
}

/// Parameters of one kind and type.
#[derive(Debug)]
pub struct Specification {
    /// What they are.
    pub specifier: Specifier,
    /// The parameters.
    pub names: Vec<Identifier>,
}

/// Attributes that a class protects, or hides, or both.
#[derive(Debug)]
pub struct Protection {
    /// The token of `hidden`.
    pub hidden: Option<TokenNo>,
    /// The token of `protected`.
    pub protected: Option<TokenNo>,
    /// The attributes.
    pub names: Vec<Identifier>,
}

/// Virtual procedures of one result type.
#[derive(Debug)]
pub struct VirtualSpecification {
    /// The type of the result.
    pub result: Option<TypeName>,
    /// The token of `procedure`.
    pub token: TokenNo,
    /// The procedures.
    pub names: Vec<Identifier>,
}

/// An assignment sign.
#[derive(Clone, Copy, Debug, PartialEq, Eq)]
pub enum Assignment {
    /// `:=`, of values.
    Value,
    /// `:-`, of references.
    Reference,
}

/// An assignment sign, and what stands on its right: the value, or a further left side.
pub struct Assigned {
    /// The sign's token.
    pub token: TokenNo,
    /// Which sign.
    pub sign: Assignment,
    /// The right side.
    pub value: Expr,
}

/// An element of a `for` list over values.
pub enum ForElement {
    /// One value.
    Value {
        value: Expr,
    },
    /// From a value on, by steps, up to a limit. The token is that of `step`.
    Step {
        start: Expr,
        token: TokenNo,
        step: Expr,
        limit: Expr,
    },
    /// A value, as long as a condition holds. The token is that of `while`.
    While {
        value: Expr,
        token: TokenNo,
        condition: Expr,
    },
}

/// An element of a `for` list over references.
pub enum ReferenceElement {
    /// One value.
    Value {
        value: Expr,
    },
    /// A value, as long as a condition holds. The token is that of `while`.
    While {
        value: Expr,
        token: TokenNo,
        condition: Expr,
    },
}

/// Which way a process is scheduled.
#[derive(Clone, Copy, Debug, PartialEq, Eq)]
pub enum Activation {
    /// `activate`.
    Activate,
    /// `reactivate`.
    Reactivate,
}

/// When a process is scheduled for. The token is that of the word, `prior` is the token of `prior`.
pub enum Timing {
    /// At a time.
    At {
        token: TokenNo,
        time: Expr,
        prior: Option<TokenNo>,
    },
    /// After a delay.
    Delay {
        token: TokenNo,
        time: Expr,
        prior: Option<TokenNo>,
    },
    /// Directly before another process.
    Before {
        token: TokenNo,
        process: Expr,
    },
    /// Directly after another process.
    After {
        token: TokenNo,
        process: Expr,
    },
}

/// A statement.
#[cycle(stmt)]
pub enum Stmt {
    /// No token. The number is that of the token behind it.
    Empty {
        token: TokenNo,
    },
    /// A block or compound statement.
    Block {
        block: Block,
    },
    /// A prefixed block.
    PrefixedBlock {
        prefix: BlockPrefix,
        block: Block,
    },
    /// `inner`.
    Inner {
        token: TokenNo,
    },
    /// An operand alone: a call of a procedure, or a generation.
    Call {
        call: Expr,
    },
    /// A left side, and at least one assignment sign with what stands on its right.
    Assignment {
        left: Expr,
        rest: Vec<Assigned>,
    },
    /// `if`.
    If {
        token: TokenNo,
        condition: Expr,
        then_branch: Box<Stmt>,
        else_branch: Option<Box<Stmt>>,
    },
    /// `while`.
    While {
        token: TokenNo,
        condition: Expr,
        body: Box<Stmt>,
    },
    /// `for` over values. `sign` is the token of `:=`.
    For {
        token: TokenNo,
        variable: Identifier,
        sign: TokenNo,
        elements: Vec<ForElement>,
        body: Box<Stmt>,
    },
    /// `for` over references. `sign` is the token of `:-`.
    ForReference {
        token: TokenNo,
        variable: Identifier,
        sign: TokenNo,
        elements: Vec<ReferenceElement>,
        body: Box<Stmt>,
    },
    /// `inspect` with `do`, whose token is `opening`; `end` is the token behind the body.
    Inspect {
        token: TokenNo,
        object: Expr,
        opening: TokenNo,
        body: Box<Stmt>,
        end: TokenNo,
        otherwise: Option<Box<Stmt>>,
    },
    /// `inspect` with `when`.
    InspectWhen {
        token: TokenNo,
        object: Expr,
        arms: Vec<When>,
        otherwise: Option<Box<Stmt>>,
    },
    /// `activate` or `reactivate`.
    Activation {
        token: TokenNo,
        activation: Activation,
        process: Expr,
        timing: Option<Timing>,
    },
}

/// An arm of `inspect`.
#[cycle(stmt)]
pub struct When {
    /// The token of `when`.
    pub token: TokenNo,
    /// The class.
    pub class: Identifier,
    /// The token of `do`.
    pub opening: TokenNo,
    /// What is done where the object is in the class.
    pub body: Stmt,
    /// The token behind the body.
    pub end: TokenNo,
}

/// The declarations and the statements between `begin` and `end`. Without a declaration it is a compound statement.
#[cycle(stmt)]
pub struct Block {
    /// The token of `begin`.
    pub token: TokenNo,
    /// The declarations.
    pub declarations: Vec<Decl>,
    /// The statements, also the empty ones that a semicolon before another semicolon or before `end` makes.
    pub statements: Vec<Stmt>,
    /// The token of `end`.
    pub end: TokenNo,
}

/// A declaration.
#[cycle(stmt)]
pub enum Decl {
    /// Variables and constants of a type.
    Variables {
        type_name: TypeName,
        variables: Vec<Variable>,
    },
    /// Arrays of a type. The token is that of `array`.
    Arrays {
        type_name: TypeName,
        token: TokenNo,
        segments: Vec<ArraySegment>,
    },
    /// A procedure, with the type of its result. The token is that of `procedure`.
    Procedure {
        result: Option<TypeName>,
        token: TokenNo,
        procedure: Procedure,
    },
    /// A class, with its prefix. The token is that of `class`.
    Class {
        prefix: Option<Identifier>,
        token: TokenNo,
        class: Class,
    },
}

/// A procedure without its result.
#[cycle(stmt)]
pub struct Procedure {
    /// Its identifier.
    pub name: Identifier,
    /// The formal parameters.
    pub parameters: Vec<Identifier>,
    /// The modes that are written.
    pub modes: Vec<ModePart>,
    /// The kinds and types of the parameters.
    pub specifications: Vec<Specification>,
    /// The body.
    pub body: Box<Stmt>,
    /// The token behind the body, so that the one in front of it is the last token of the procedure.
    pub end: TokenNo,
}

/// A class without its prefix.
#[cycle(stmt)]
pub struct Class {
    /// Its identifier.
    pub name: Identifier,
    /// The formal parameters.
    pub parameters: Vec<Identifier>,
    /// The modes that are written.
    pub modes: Vec<ModePart>,
    /// The types of the parameters.
    pub specifications: Vec<Specification>,
    /// The attributes that are protected or hidden.
    pub protections: Vec<Protection>,
    /// The virtual procedures.
    pub virtuals: Vec<VirtualSpecification>,
    /// The body.
    pub body: Box<Stmt>,
    /// The token behind the body, so that the one in front of it is the last token of the class.
    pub end: TokenNo,
}

// How statements are let go, written out as those of expressions are.

impl Drop for TypeName {
    fn drop(self) {
        match self {
            TypeName::Integer(_)
            | TypeName::Boolean(_)
            | TypeName::Character(_)
            | TypeName::Text(_) => {}
            TypeName::Reference { token: _, class: _ } => {}
        }
    }
}

impl Drop for Constant {
    fn drop(self) {
        match self {
            Constant::Integer {
                sign: _,
                token: _,
                value: _,
            } => {}
            Constant::Character { token: _, value: _ } => {}
            Constant::Text { token: _, value: _ } => {}
            Constant::True { token: _ } | Constant::False { token: _ } => {}
        }
    }
}

impl Drop for Variable {
    fn drop(self) {
        let Variable { name: _, value: _ } = self;
    }
}

impl Drop for ArraySegment {
    fn drop(self) {
        let ArraySegment {
            names: _,
            bounds: _,
        } = self;
    }
}

impl Drop for Bounds {
    fn drop(self) {
        let Bounds { lower: _, upper: _ } = self;
    }
}

impl Drop for ModePart {
    fn drop(self) {
        let ModePart {
            token: _,
            mode: _,
            names: _,
        } = self;
    }
}

impl Drop for Specifier {
    fn drop(self) {
        match self {
            Specifier::Simple(_) => {}
            Specifier::Array {
                element: _,
                token: _,
            } => {}
            Specifier::Procedure {
                result: _,
                token: _,
            } => {}
        }
    }
}

impl Drop for Specification {
    fn drop(self) {
        let Specification {
            specifier: _,
            names: _,
        } = self;
    }
}

impl Drop for Protection {
    fn drop(self) {
        let Protection {
            hidden: _,
            protected: _,
            names: _,
        } = self;
    }
}

impl Drop for VirtualSpecification {
    fn drop(self) {
        let VirtualSpecification {
            result: _,
            token: _,
            names: _,
        } = self;
    }
}

impl Drop for Assigned {
    fn drop(self) {
        let Assigned {
            token: _,
            sign: _,
            value: _,
        } = self;
    }
}

impl Drop for ForElement {
    fn drop(self) {
        match self {
            ForElement::Value { value: _ } => {}
            ForElement::Step {
                start: _,
                token: _,
                step: _,
                limit: _,
            } => {}
            ForElement::While {
                value: _,
                token: _,
                condition: _,
            } => {}
        }
    }
}

impl Drop for ReferenceElement {
    fn drop(self) {
        match self {
            ReferenceElement::Value { value: _ } => {}
            ReferenceElement::While {
                value: _,
                token: _,
                condition: _,
            } => {}
        }
    }
}

impl Drop for Timing {
    fn drop(self) {
        match self {
            Timing::At {
                token: _,
                time: _,
                prior: _,
            }
            | Timing::Delay {
                token: _,
                time: _,
                prior: _,
            } => {}
            Timing::Before {
                token: _,
                process: _,
            }
            | Timing::After {
                token: _,
                process: _,
            } => {}
        }
    }
}

impl Drop for Stmt {
    #[cycle(statement_drop)]
    fn drop(self) {
        match self {
            Stmt::Empty { token: _ } | Stmt::Inner { token: _ } => {}
            Stmt::Block { block: _ } => {}
            Stmt::PrefixedBlock {
                prefix: _,
                block: _,
            } => {}
            Stmt::Call { call: _ } => {}
            Stmt::Assignment { left: _, rest: _ } => {}
            Stmt::If {
                token: _,
                condition: _,
                then_branch: _,
                else_branch: _,
            } => {}
            Stmt::While {
                token: _,
                condition: _,
                body: _,
            } => {}
            Stmt::For {
                token: _,
                variable: _,
                sign: _,
                elements: _,
                body: _,
            } => {}
            Stmt::ForReference {
                token: _,
                variable: _,
                sign: _,
                elements: _,
                body: _,
            } => {}
            Stmt::Inspect {
                token: _,
                object: _,
                opening: _,
                body: _,
                end: _,
                otherwise: _,
            } => {}
            Stmt::InspectWhen {
                token: _,
                object: _,
                arms: _,
                otherwise: _,
            } => {}
            Stmt::Activation {
                token: _,
                activation: _,
                process: _,
                timing: _,
            } => {}
        }
    }
}

impl Drop for When {
    #[cycle(statement_drop)]
    fn drop(self) {
        let When {
            token: _,
            class: _,
            opening: _,
            body: _,
            end: _,
        } = self;
    }
}

impl Drop for Block {
    #[cycle(statement_drop)]
    fn drop(self) {
        let Block {
            token: _,
            declarations: _,
            statements: _,
            end: _,
        } = self;
    }
}

impl Drop for Decl {
    #[cycle(statement_drop)]
    fn drop(self) {
        match self {
            Decl::Variables {
                type_name: _,
                variables: _,
            } => {}
            Decl::Arrays {
                type_name: _,
                token: _,
                segments: _,
            } => {}
            Decl::Procedure {
                result: _,
                token: _,
                procedure: _,
            } => {}
            Decl::Class {
                prefix: _,
                token: _,
                class: _,
            } => {}
        }
    }
}

impl Drop for Procedure {
    #[cycle(statement_drop)]
    fn drop(self) {
        let Procedure {
            name: _,
            parameters: _,
            modes: _,
            specifications: _,
            body: _,
            end: _,
        } = self;
    }
}

impl Drop for Class {
    #[cycle(statement_drop)]
    fn drop(self) {
        let Class {
            name: _,
            parameters: _,
            modes: _,
            specifications: _,
            protections: _,
            virtuals: _,
            body: _,
            end: _,
        } = self;
    }
}
