//! Trees of expressions. A leaf has the number of its first token, and an item of an operator list that of its operator. A list has none of
//! its own: it is named by its first operator, or by the sign in front.

use sim_base::{ByteString, TokenNo};

/// An occurrence of an identifier.
#[derive(Debug)]
pub struct Identifier {
    /// Its token.
    pub token: TokenNo,
    /// The name in lower case.
    pub name: ByteString,
}

/// A sign in front of a sum, or between two of its terms.
#[derive(Clone, Copy, Debug, PartialEq, Eq)]
pub enum Sign {
    /// `+`.
    Plus,
    /// `-`.
    Minus,
}

/// The sign in front of a sum or a constant.
#[derive(Clone, Copy, Debug, PartialEq, Eq)]
pub struct LeadingSign {
    /// Its token.
    pub token: TokenNo,
    /// Which sign.
    pub sign: Sign,
}

/// An operator of the level of `*`.
#[derive(Clone, Copy, Debug, PartialEq, Eq)]
pub enum Multiplication {
    /// `*`.
    Times,
    /// `//`.
    Divide,
}

/// A relation between two values.
#[derive(Clone, Copy, Debug, PartialEq, Eq)]
pub enum Relation {
    /// `<`.
    Less,
    /// `<=`.
    LessEqual,
    /// `=`.
    Equal,
    /// `>=`.
    GreaterEqual,
    /// `>`.
    Greater,
    /// `<>`.
    NotEqual,
    /// `==`.
    SameReference,
    /// `=/=`.
    OtherReference,
}

/// A test of the class of an object.
#[derive(Clone, Copy, Debug, PartialEq, Eq)]
pub enum Membership {
    /// `is`, the exact class.
    Is,
    /// `in`, the class or a subclass.
    In,
}

/// An expression. A level of operators with a single operand makes no node, and the operators of one level stand in one
/// node's list, from left to right. A list of actual parameters or subscripts is empty where none were written.
#[cycle(expr)]
pub enum Expr {
    /// `if condition then first else second`.
    If {
        token: TokenNo,
        condition: Box<Expr>,
        first: Box<Expr>,
        second: Box<Expr>,
    },
    /// Operands with `or else` between them.
    OrElse {
        first: Box<Expr>,
        rest: Vec<Operand>,
    },
    /// Operands with `and then` between them.
    AndThen {
        first: Box<Expr>,
        rest: Vec<Operand>,
    },
    /// Operands with `eqv` between them.
    Eqv {
        first: Box<Expr>,
        rest: Vec<Operand>,
    },
    /// Operands with `imp` between them.
    Imp {
        first: Box<Expr>,
        rest: Vec<Operand>,
    },
    /// Operands with `or` between them.
    Or {
        first: Box<Expr>,
        rest: Vec<Operand>,
    },
    /// Operands with `and` between them.
    And {
        first: Box<Expr>,
        rest: Vec<Operand>,
    },
    /// `not`, once or several times, and its operand.
    Not {
        tokens: Vec<TokenNo>,
        operand: Box<Expr>,
    },
    /// A relation between two values.
    Related {
        left: Box<Expr>,
        token: TokenNo,
        relation: Relation,
        right: Box<Expr>,
    },
    /// A test of an object's class.
    Member {
        object: Box<Expr>,
        token: TokenNo,
        membership: Membership,
        class: Identifier,
    },
    /// Operands with `&` between them.
    Concatenation {
        first: Box<Expr>,
        rest: Vec<Operand>,
    },
    /// A sum. The sign in front belongs to the whole first term.
    Sum {
        sign: Option<LeadingSign>,
        first: Box<Expr>,
        rest: Vec<Term>,
    },
    /// A product.
    Product {
        first: Box<Expr>,
        rest: Vec<Factor>,
    },
    /// Operands with `**` between them.
    Power {
        first: Box<Expr>,
        rest: Vec<Operand>,
    },
    /// An operand, and what is taken of it, from left to right.
    Postfix {
        primary: Box<Expr>,
        rest: Vec<Selector>,
    },
    /// An integer constant.
    Integer {
        token: TokenNo,
        value: i64,
    },
    /// A character constant.
    Character {
        token: TokenNo,
        value: u8,
    },
    /// A text constant.
    Text {
        token: TokenNo,
        value: ByteString,
    },
    /// `true`.
    True {
        token: TokenNo,
    },
    /// `false`.
    False {
        token: TokenNo,
    },
    /// `none`.
    NoObject {
        token: TokenNo,
    },
    /// `notext`.
    Notext {
        token: TokenNo,
    },
    /// An identifier, with actual parameters or subscripts or without.
    Named {
        name: Identifier,
        arguments: Vec<Expr>,
    },
    /// `this` and a class.
    This {
        token: TokenNo,
        class: Identifier,
    },
    /// `new`, a class and its actual parameters.
    New {
        token: TokenNo,
        class: Identifier,
        arguments: Vec<Expr>,
    },
    /// An expression in parentheses.
    Parentheses {
        token: TokenNo,
        inner: Box<Expr>,
    },
}

/// An operator that is the only one of its level, and the operand behind it.
#[cycle(expr)]
pub struct Operand {
    /// The operator.
    pub token: TokenNo,
    /// What it is applied to.
    pub operand: Expr,
}

/// A further term of a sum, with the sign in front.
#[cycle(expr)]
pub struct Term {
    /// The sign's token.
    pub token: TokenNo,
    /// Which sign.
    pub sign: Sign,
    /// The term.
    pub term: Expr,
}

/// A further factor of a product, with the operator in front.
#[cycle(expr)]
pub struct Factor {
    /// The operator's token.
    pub token: TokenNo,
    /// Which operator.
    pub operator: Multiplication,
    /// The factor.
    pub factor: Expr,
}

/// What is taken of an object.
#[cycle(expr)]
pub enum Selector {
    /// `.` and an attribute, with actual parameters or subscripts or without.
    Dot {
        token: TokenNo,
        name: Identifier,
        arguments: Vec<Expr>,
    },
    /// `qua` and a class.
    Qua {
        token: TokenNo,
        class: Identifier,
    },
}

// How expressions are let go: each part in turn. Written out, a drop is proved once; a derived one is proved again in each crate that
// lets such a value go, at each way out of a function that holds one.

impl Drop for Identifier {
    fn drop(self) {
        let Identifier { token: _, name: _ } = self;
    }
}

impl Drop for Expr {
    #[cycle(expression_drop)]
    fn drop(self) {
        match self {
            Expr::If {
                token: _,
                condition: _,
                first: _,
                second: _,
            } => {}
            Expr::OrElse { first: _, rest: _ }
            | Expr::AndThen { first: _, rest: _ }
            | Expr::Eqv { first: _, rest: _ }
            | Expr::Imp { first: _, rest: _ }
            | Expr::Or { first: _, rest: _ }
            | Expr::And { first: _, rest: _ }
            | Expr::Concatenation { first: _, rest: _ }
            | Expr::Power { first: _, rest: _ } => {}
            Expr::Not {
                tokens: _,
                operand: _,
            } => {}
            Expr::Related {
                left: _,
                token: _,
                relation: _,
                right: _,
            } => {}
            Expr::Member {
                object: _,
                token: _,
                membership: _,
                class: _,
            } => {}
            Expr::Sum {
                sign: _,
                first: _,
                rest: _,
            } => {}
            Expr::Product { first: _, rest: _ } => {}
            Expr::Postfix {
                primary: _,
                rest: _,
            } => {}
            Expr::Integer { token: _, value: _ } => {}
            Expr::Character { token: _, value: _ } => {}
            Expr::Text { token: _, value: _ } => {}
            Expr::True { token: _ }
            | Expr::False { token: _ }
            | Expr::NoObject { token: _ }
            | Expr::Notext { token: _ } => {}
            Expr::Named {
                name: _,
                arguments: _,
            } => {}
            Expr::This { token: _, class: _ } => {}
            Expr::New {
                token: _,
                class: _,
                arguments: _,
            } => {}
            Expr::Parentheses { token: _, inner: _ } => {}
        }
    }
}

impl Drop for Operand {
    #[cycle(expression_drop)]
    fn drop(self) {
        let Operand {
            token: _,
            operand: _,
        } = self;
    }
}

impl Drop for Term {
    #[cycle(expression_drop)]
    fn drop(self) {
        let Term {
            token: _,
            sign: _,
            term: _,
        } = self;
    }
}

impl Drop for Factor {
    #[cycle(expression_drop)]
    fn drop(self) {
        let Factor {
            token: _,
            operator: _,
            factor: _,
        } = self;
    }
}

impl Drop for Selector {
    #[cycle(expression_drop)]
    fn drop(self) {
        match self {
            Selector::Dot {
                token: _,
                name: _,
                arguments: _,
            } => {}
            Selector::Qua { token: _, class: _ } => {}
        }
    }
}
