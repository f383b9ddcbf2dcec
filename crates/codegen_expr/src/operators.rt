//! How operators are done, identifiers seen and actual parameters passed.
ghost use Rattle.std.specs.Prelude.{◌≡◌};
ghost use Rattle.sim_meaning.specs.Closing.{is_text_type, sort_of, sort_of_relation};
ghost use Rattle.sim_meaning.specs.Constants.{text_constant};
ghost use Rattle.sim_scope.specs.Source.{source_of};
ghost use Rattle.codegen_expr.specs.Emit.{FindsInstr, attribute_seen, passed_of as passed_by, seen_of as seen_by, sorted_of};
ghost use Rattle.codegen_expr.specs.Known.{Known, plain_of};

use crate::cells::{Cells, ConstantValue};
use crate::instructions::{character_instr, constant_text_instr};
use crate::lookups::text_number;
use sim_base::TokenNo;
use sim_code::Instr;
use sim_scope::{Bound, Entry, Formal, FormalKind, Mode, SimType};
use sim_tree::{Multiplication, Operator, Relation, Sign};

/// How an operator is done.
#[derive(Clone, Copy)]
pub(crate) enum Sorted {
    /// By an instruction.
    Plain(Instr),
    /// By an instruction, and then `not`.
    Negated(Instr),
    /// As a conditional expression that leaves out the right operand where the left one is true.
    OrElse,
    /// The same where it is false.
    AndThen,
    /// As `&`.
    Joined,
}

/// How a relation is done. `texts` tells whether the operands are texts.
fn sort_out_relation(texts: bool, relation: Relation) -> Sorted
    ensures { result ≡ sorted_of (sort_of_relation texts relation) }
{
    match (relation, texts) {
        (Relation::Less, false) => Sorted::Plain(Instr::Rel(0)),
        (Relation::LessEqual, false) => Sorted::Plain(Instr::Rel(1)),
        (Relation::Equal, false) => Sorted::Plain(Instr::Rel(2)),
        (Relation::GreaterEqual, false) => Sorted::Plain(Instr::Rel(3)),
        (Relation::Greater, false) => Sorted::Plain(Instr::Rel(4)),
        (Relation::NotEqual, false) => Sorted::Plain(Instr::Rel(5)),
        (Relation::SameReference, false) => Sorted::Plain(Instr::Same),
        (Relation::OtherReference, false) => Sorted::Negated(Instr::Same),
        (Relation::Less, true) => Sorted::Plain(Instr::RelT(0)),
        (Relation::LessEqual, true) => Sorted::Plain(Instr::RelT(1)),
        (Relation::Equal, true) => Sorted::Plain(Instr::RelT(2)),
        (Relation::GreaterEqual, true) => Sorted::Plain(Instr::RelT(3)),
        (Relation::Greater, true) => Sorted::Plain(Instr::RelT(4)),
        (Relation::NotEqual, true) => Sorted::Plain(Instr::RelT(5)),
        (Relation::SameReference, true) => Sorted::Plain(Instr::SameT),
        (Relation::OtherReference, true) => Sorted::Negated(Instr::SameT),
    }
}

/// How an operator is done. `texts` tells whether the left operand is a text.
pub(crate) fn sort_out(texts: bool, operator: Operator) -> Sorted
    ensures { result ≡ sorted_of (sort_of texts operator) }
{
    match operator {
        Operator::OrElse => Sorted::OrElse,
        Operator::AndThen => Sorted::AndThen,
        Operator::Equivalent => Sorted::Plain(Instr::Eqv),
        Operator::Implies => Sorted::Plain(Instr::Imp),
        Operator::Or => Sorted::Plain(Instr::Or),
        Operator::And => Sorted::Plain(Instr::And),
        Operator::Relate(relation) => sort_out_relation(texts, relation),
        Operator::Concatenate => Sorted::Joined,
        Operator::Add(Sign::Plus) => Sorted::Plain(Instr::Add),
        Operator::Add(Sign::Minus) => Sorted::Plain(Instr::Sub),
        Operator::Multiply(Multiplication::Times) => Sorted::Plain(Instr::Mul),
        Operator::Multiply(Multiplication::Divide) => Sorted::Plain(Instr::Div),
        Operator::Power => Sorted::Plain(Instr::Pow),
    }
}

/// What a declared identifier is seen as.
#[derive(Clone, Copy)]
pub(crate) enum Seen {
    /// A variable, or a parameter that is one: the value of its cell.
    Variable,
    /// A constant.
    Constant,
    /// An array, or a parameter that is one: its cell, or one of its elements.
    Array,
    /// A procedure with its text.
    Call(u32),
    /// A virtual procedure.
    Virtual,
    /// A formal parameter by name.
    Named,
    /// One that is an array.
    NamedArray,
    /// A formal parameter that is a procedure, by name or not.
    Procedure(bool),
    /// It has no code.
    Nothing,
}

/// What a declared identifier is seen as.
pub(crate) fn seen_of(entry: Option<Entry>) -> Seen
    ensures { result ≡ seen_by entry }
{
    match entry {
        Some(Entry::Variable(_)) => Seen::Variable,
        Some(Entry::Constant(_)) => Seen::Constant,
        Some(Entry::Array { .. }) => Seen::Array,
        Some(Entry::Procedure { block, .. }) => Seen::Call(block),
        Some(Entry::Virtual { .. }) => Seen::Virtual,
        Some(Entry::Formal(formal)) => match (formal.mode, formal.kind) {
            (Mode::ByName, FormalKind::Simple) => Seen::Named,
            (Mode::ByName, FormalKind::Array) => Seen::NamedArray,
            (Mode::ByName, FormalKind::Procedure) => Seen::Procedure(true),
            (_, FormalKind::Simple) => Seen::Variable,
            (_, FormalKind::Array) => Seen::Array,
            (_, FormalKind::Procedure) => Seen::Procedure(false),
        },
        _ => Seen::Nothing,
    }
}

/// What an attribute of an object is seen as.
pub(crate) fn attribute_of(entry: Option<Entry>) -> Seen
    ensures { result ≡ attribute_seen entry }
{
    match entry {
        Some(Entry::Variable(_)) => Seen::Variable,
        Some(Entry::Constant(_)) => Seen::Constant,
        Some(Entry::Array { .. }) => Seen::Array,
        Some(Entry::Procedure { block, .. }) => Seen::Call(block),
        Some(Entry::Virtual { .. }) => Seen::Virtual,
        Some(Entry::Formal(formal)) => match formal.kind {
            FormalKind::Simple => Seen::Variable,
            FormalKind::Array => Seen::Array,
            FormalKind::Procedure => Seen::Nothing,
        },
        _ => Seen::Nothing,
    }
}

/// How an actual parameter is passed.
#[derive(Clone, Copy)]
pub(crate) enum Passed {
    /// As it is.
    Plain,
    /// As an array that is kept.
    Kept,
    /// As a copy of an array.
    Copied,
    /// As a copy of a text.
    CopiedText,
    /// By name.
    Named,
    /// As a procedure.
    Procedure,
    /// As a procedure by name.
    NamedProcedure,
}

/// How an actual parameter is passed; an array that is passed by reference to a class is kept.
pub(crate) fn passed_of(keeps: bool, formal: Formal) -> Passed
    ensures { result ≡ passed_by keeps formal.mode formal.kind (is_text_type formal.ty) }
{
    match (formal.mode, formal.kind, formal.ty) {
        (Mode::ByName, FormalKind::Procedure, _) => Passed::NamedProcedure,
        (Mode::ByName, _, _) => Passed::Named,
        (_, FormalKind::Procedure, _) => Passed::Procedure,
        (Mode::ByValue, FormalKind::Array, _) => Passed::Copied,
        (Mode::ByReference, FormalKind::Array, _) => match keeps {
            true => Passed::Kept,
            false => Passed::Plain,
        },
        (Mode::ByValue, FormalKind::Simple, Some(SimType::Text)) => Passed::CopiedText,
        (_, _, _) => Passed::Plain,
    }
}

/// What stands on the operand stack of an object before a dot.
#[derive(Clone, Copy, Debug, PartialEq, Eq)]
pub enum Object {
    /// Nothing: it is sysin (0) or sysout (1).
    Stream(u32),
    /// Where a variable lies.
    Place,
    /// The text.
    Value,
}

/// The instruction that pushes the value of a constant, if there is one.
#[tactic(auto, using(crate::proofs::Texts::texts))]
pub(crate) fn constant_instr(bound: &Bound, cells: &Cells, value: ConstantValue) -> Option<Instr>
    requires cells { Known bound.now cells.now }
    ensures { FindsInstr bound.now (plain_of (source_of bound.now) value) result }
{
    match value {
        ConstantValue::Integer(value) => Some(Instr::Int(value)),
        ConstantValue::Character(value) => Some(character_instr(value)),
        ConstantValue::Truth(true) => Some(Instr::Bool(1)),
        ConstantValue::Truth(false) => Some(Instr::Bool(0)),
        ConstantValue::Text(token) => text_instr(bound, cells, token),
    }
}

/// The instruction that pushes the text constant that is written at a token, if there is one.
#[tactic(auto, using(crate::proofs::Texts::texts))]
pub(crate) fn text_instr(bound: &Bound, cells: &Cells, token: TokenNo) -> Option<Instr>
    requires cells { Known bound.now cells.now }
    ensures { FindsInstr bound.now (text_constant (source_of bound.now) token.0) result }
{
    match text_number(bound, cells, token) {
        Some(number) => Some(constant_text_instr(number)),
        None => None,
    }
}
