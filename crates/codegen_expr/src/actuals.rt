//! Calls that are checked when they are done: their lists of actual parameters, and each of these as code of its own.
ghost use Rattle.std.specs.Prelude.{◌≡◌, ◌≢◌, IfOk, OnOk, length, map};
ghost use Rattle.sim_scope.specs.Source.{source_of};
ghost use Rattle.sim_tree.specs.Syntax.{Expression};
ghost use Rattle.sim_tree.specs.SyntaxOf.{selected, selector_syntax, syntax_of};
ghost use Rattle.sim_meaning.specs.Checks.{denoted_passed, formal_passed, passed, value_passed};
ghost use Rattle.codegen_expr.specs.CodeExpr.{is_procedure as is_procedure_of, is_value as is_value_of, type_of};
ghost use Rattle.codegen_expr.specs.EmitVirtuals.{ActualGiven, ActualOf, ActualsOf, EntryKind, WritesCheck, WritesParameter, WritesParameters, WritesThunkIf, WritesValueCall, passed_by, passed_or};
ghost use Rattle.codegen_expr.specs.Known.{Known};

use crate::cells::Cells;
use crate::classes::{number_of, qualification};
use crate::dots::is_declared_variable;
use crate::draft::{Draft, deeper};
use crate::forms::{Form, form_of, typed_token};
use crate::instructions::{check_instr, parameter_instr, value_call_instr};
use crate::lookups::{denoted, formals_of_block, line_at, type_at};
use crate::spot::Spot;
use crate::thunks::{class_or_none, emit_past};
use sim_base::{DeclNo, TokenNo};
use sim_code::{ActualList, CodeActual, CodeType};
use sim_scope::{Bound, Denotation, Entry, Formal, FormalKind, SimType, entry_of};
use sim_tree::{Expr, Selector};
use std::alloc::AllocError;

/// What an actual parameter is.
#[derive(Clone, Copy)]
pub(crate) enum ActualKind {
    /// An array alone, with the type of its elements.
    Array(Option<SimType>),
    /// A procedure alone, with what it gives and how many formal parameters it has, if that is known.
    Procedure {
        result: Option<SimType>,
        formals: usize,
    },
    /// Any other expression, with its type, and whether it is a variable.
    Value {
        ty: Option<SimType>,
        variable: bool,
    },
}

/// The type of a value, as code has it.
pub fn code_type(ty: Option<SimType>) -> CodeType
    ensures { result ≡ type_of ty }
{
    match ty {
        None => CodeType::Nothing,
        Some(SimType::Integer) => CodeType::Integer,
        Some(SimType::Boolean) => CodeType::Boolean,
        Some(SimType::Character) => CodeType::Character,
        Some(SimType::Text) => CodeType::Text,
        Some(SimType::Ref(_)) => CodeType::Reference,
        Some(SimType::NoneType) => CodeType::Reference,
    }
}

/// An expression as an actual parameter that is neither an array nor a procedure.
#[tactic(auto, using(crate::proofs::ActualKinds::kinds))]
fn value_kind(bound: &Bound, expr: &Expr) -> ActualKind
    ensures { passed_by result ≡ value_passed (source_of bound.now) (syntax_of expr.now) }
{
    ActualKind::Value {
        ty: type_at(bound, typed_token(expr)),
        variable: is_declared_variable(bound, expr),
    }
}

/// A formal parameter as an actual one; a simple one is as it is as an expression.
fn formal_kind(formal: Formal, value: ActualKind) -> ActualKind
    ensures { passed_by result ≡ formal_passed formal.kind formal.ty (passed_by value) }
{
    match formal.kind {
        FormalKind::Simple => value,
        FormalKind::Array => ActualKind::Array(formal.ty),
        FormalKind::Procedure => ActualKind::Procedure {
            result: formal.ty,
            formals: 0,
        },
    }
}

/// What is declared as an actual parameter alone; what is neither an array nor a procedure is as it is as an expression.
#[tactic(auto, using(crate::proofs::ActualKinds::kinds))]
fn entry_kind(
    bound: &Bound,
    cells: &Cells,
    declaration: DeclNo,
    entry: Option<Entry>,
    value: ActualKind,
) -> ActualKind
    requires cells { Known bound.now cells.now }
    ensures { EntryKind bound.now declaration entry value result }
{
    match entry {
        Some(Entry::Array { element, .. }) => ActualKind::Array(Some(element)),
        Some(Entry::Procedure { result, block }) => ActualKind::Procedure {
            result,
            formals: formals_of_block(bound, cells, block).len(),
        },
        Some(Entry::Virtual { result, .. }) => ActualKind::Procedure { result, formals: 0 },
        Some(Entry::Formal(formal)) => formal_kind(formal, value),
        Some(Entry::Variable(_)) => value,
        Some(Entry::Constant(_)) => value,
        Some(Entry::Class { .. }) => value,
        Some(Entry::Attribute { .. }) => value,
        Some(Entry::Unspecified { .. }) => value,
        None => value,
    }
}

/// The same of what is denoted.
#[tactic(auto, using(crate::proofs::ActualKinds::kinds))]
fn denoted_kind(
    bound: &Bound,
    cells: &Cells,
    denotation: Option<Denotation>,
    value: ActualKind,
) -> ActualKind
    requires cells { Known bound.now cells.now }
    ensures { passed_by result ≡ denoted_passed (source_of bound.now) denotation (passed_by value) }
{
    match denotation {
        Some(Denotation::Declared(declaration)) => {
            let entry = entry_of(&bound.scopes, declaration);
            entry_kind(bound, cells, declaration, entry, value)
        }
        Some(Denotation::Standard(_)) => value,
        None => value,
    }
}

/// What an actual parameter is.
#[tactic(auto, using(crate::proofs::ActualKinds::kinds))]
fn kind_of(bound: &Bound, cells: &Cells, expr: &Expr) -> ActualKind
    requires cells { Known bound.now cells.now }
    ensures { passed_by result ≡ passed (source_of bound.now) (syntax_of expr.now) }
{
    let value = value_kind(bound, expr);
    match form_of(expr) {
        Form::Named { name, arguments } => {
            if arguments.len() == 0 {
                return denoted_kind(bound, cells, denoted(bound, name.token), value);
            }
            value
        }
        Form::Taken { rest, .. } => taken_kind(bound, cells, rest, value),
        Form::Closed { .. } => value,
        Form::New => value,
        Form::Other => value,
    }
}

/// What is taken of an operand, as an actual parameter; it is as it is as an expression where that is no identifier alone.
#[tactic(auto, using(crate::proofs::ActualKinds::kinds))]
fn taken_kind(bound: &Bound, cells: &Cells, rest: &[Selector], value: ActualKind) -> ActualKind
    requires cells { Known bound.now cells.now }
    requires some { length rest.now ≢ 0 }
    ensures { (x : Expression) → passed_by result ≡ passed_or (source_of bound.now) (selected x (map selector_syntax rest.now)) (passed_by value) }
{
    match &rest[rest.len() - 1] {
        Selector::Dot {
            name,
            arguments,
            ..
        } => {
            if arguments.len() == 0 {
                return denoted_kind(bound, cells, denoted(bound, name.token), value);
            }
            value
        }
        Selector::Qua { .. } => value,
    }
}

/// Whether an actual parameter can be evaluated: a procedure where it gives something and has no formal parameters.
fn is_value(kind: ActualKind) -> bool
    ensures { result ≡ is_value_of (passed_by kind) }
{
    match kind {
        ActualKind::Procedure { result: None, .. } => false,
        ActualKind::Procedure { formals, .. } => formals == 0,
        ActualKind::Array(_) => true,
        ActualKind::Value { .. } => true,
    }
}

/// Whether an actual parameter is a procedure.
fn is_procedure(kind: ActualKind) -> bool
    ensures { result ≡ is_procedure_of (passed_by kind) }
{
    match kind {
        ActualKind::Procedure { .. } => true,
        ActualKind::Array(_) => false,
        ActualKind::Value { .. } => false,
    }
}

/// What the code knows of an actual parameter.
#[tactic(auto, using(crate::proofs::ActualKinds::kinds))]
fn code_actual(
    bound: &Bound,
    cells: &Cells,
    draft: &Draft,
    kind: ActualKind,
) -> Result<CodeActual, AllocError>
    requires cells { Known bound.now cells.now }
    ensures { IfOk result (λ r. ActualGiven bound.now draft.now kind r) }
{
    match kind {
        ActualKind::Array(ty) => {
            let class = class_or_none(bound, cells, draft, qualification(bound, cells, ty));
            Ok(CodeActual {
                code_type: CodeType::Nothing,
                variable: false,
                array: code_type(ty),
                procedure: false,
                result_type: CodeType::Nothing,
                formals: 0,
                class,
            })
        }
        ActualKind::Procedure { result, formals } => {
            let class = class_or_none(bound, cells, draft, qualification(bound, cells, result));
            let formals = number_of(formals)?;
            Ok(CodeActual {
                code_type: code_type(result),
                variable: false,
                array: CodeType::Nothing,
                procedure: true,
                result_type: code_type(result),
                formals,
                class,
            })
        }
        ActualKind::Value { ty, variable } => {
            let class = class_or_none(bound, cells, draft, qualification(bound, cells, ty));
            Ok(CodeActual {
                code_type: code_type(ty),
                variable,
                array: CodeType::Nothing,
                procedure: false,
                result_type: CodeType::Nothing,
                formals: 0,
                class,
            })
        }
    }
}

/// What the code knows of an actual parameter.
#[tactic(auto, using(crate::proofs::ActualKinds::kinds))]
fn actual_of(
    bound: &Bound,
    cells: &Cells,
    draft: &Draft,
    expr: &Expr,
) -> Result<CodeActual, AllocError>
    requires cells { Known bound.now cells.now }
    ensures { IfOk result (λ r. ActualOf bound.now draft.now expr.now r) }
{
    let actual = code_actual(bound, cells, draft, kind_of(bound, cells, expr))?;
    Ok(actual)
}

/// What the code knows of actual parameters.
#[tactic(auto, using(crate::proofs::ActualKinds::kinds))]
fn actuals_of(
    bound: &Bound,
    cells: &Cells,
    draft: &Draft,
    list: &[Expr],
) -> Result<ActualList, AllocError>
    requires cells { Known bound.now cells.now }
    ensures { IfOk result (λ r. ActualsOf bound.now draft.now list.now r) }
{
    let mut actuals = Vec::new(draft.alloc());
    for item in list {
        actuals.push(actual_of(bound, cells, draft, item)?)?;
    }
    Ok(ActualList { actuals })
}

/// The procedure on top is held against its actual parameters. The token is that of the identifier that is called.
#[tactic(auto, using(crate::proofs::Checked::checks))]
fn emit_check(
    bound: &Bound,
    cells: &Cells,
    spot: Spot,
    draft: &mut Draft,
    token: TokenNo,
    list: &[Expr],
) -> Result<(), AllocError>
    requires cells { Known bound.now cells.now }
    ensures { OnOk result (WritesCheck bound.now spot draft.old draft.new token list.now) }
{
    let actuals = actuals_of(bound, cells, draft, list)?;
    let number = draft.add_list(actuals)?;
    draft.put(check_instr(number), line_at(bound, token))
}

/// The code of a thunk, if it is wanted. The answer is its number.
#[cycle(emit)]
#[tactic(auto, using(crate::proofs::Checked::checks))]
fn emit_thunk_if(
    bound: &Bound,
    cells: &Cells,
    spot: Spot,
    draft: &mut Draft,
    wanted: bool,
    as_procedure: bool,
    expr: &Expr,
) -> Result<u32, AllocError>
    requires cells { Known bound.now cells.now }
    ensures { IfOk result (λ number. WritesThunkIf bound.now spot draft.old draft.new wanted as_procedure expr.now number) }
{
    if wanted {
        let thunk = emit_past(bound, cells, spot, draft, as_procedure, expr)?;
        return Ok(thunk);
    }
    Ok(0)
}

/// An actual parameter with its number. The token is that of the identifier that is called.
#[cycle(emit)]
#[tactic(auto, using(crate::proofs::Checked::checks))]
fn emit_parameter(
    bound: &Bound,
    cells: &Cells,
    spot: Spot,
    draft: &mut Draft,
    depth: u32,
    token: TokenNo,
    number: usize,
    expr: &Expr,
) -> Result<(), AllocError>
    requires cells { Known bound.now cells.now }
    ensures { OnOk result (WritesParameter bound.now spot depth draft.old draft.new token number expr.now) }
{
    let kind = kind_of(bound, cells, expr);
    let value = emit_thunk_if(bound, cells, spot, draft, is_value(kind), false, expr)?;
    let procedure = emit_thunk_if(bound, cells, spot, draft, is_procedure(kind), true, expr)?;
    let instr = parameter_instr(number, value, procedure)?;
    draft.push(depth, instr, line_at(bound, token))
}

/// The actual parameters of a checked call, one after the other. The token is that of the identifier that is called.
#[cycle(emit)]
#[tactic(auto, using(crate::proofs::Checked::checks))]
fn emit_parameters(
    bound: &Bound,
    cells: &Cells,
    spot: Spot,
    draft: &mut Draft,
    depth: u32,
    token: TokenNo,
    list: &[Expr],
) -> Result<(), AllocError>
    requires cells { Known bound.now cells.now }
    ensures { OnOk result (WritesParameters bound.now spot depth 0 draft.old draft.new token list.now) }
{
    let mut inside = depth;
    for index in 0..list.len() {
        emit_parameter(
            bound,
            cells,
            spot,
            draft,
            inside,
            token,
            index,
            &list[index],
        )?;
        inside = deeper(inside)?;
    }
    Ok(())
}

/// The rest of a checked call behind its procedure, which stands on so many values. The token is that of the identifier that is called.
#[cycle(emit)]
#[tactic(auto, using(crate::proofs::Checked::checks))]
pub(crate) fn emit_value_call(
    bound: &Bound,
    cells: &Cells,
    spot: Spot,
    draft: &mut Draft,
    depth: u32,
    token: TokenNo,
    list: &[Expr],
) -> Result<(), AllocError>
    requires cells { Known bound.now cells.now }
    ensures { OnOk result (WritesValueCall bound.now spot depth draft.old draft.new token list.now) }
{
    let inside = deeper(depth)?;
    emit_check(bound, cells, spot, draft, token, list)?;
    emit_parameters(bound, cells, spot, draft, inside, token, list)?;
    draft.put(value_call_instr(list.len())?, line_at(bound, token))
}
