//! Identifiers with their operands: variables, elements of arrays, constants, calls.
ghost use Rattle.codegen_expr.specs.Emit.{WritesActual, WritesActuals, WritesCall, WritesElement, WritesGiving, WritesNamed, WritesNamedElement, WritesOwn, WritesPassed, WritesSeen, WritesThrough, WritesUnconnected};
ghost use Rattle.codegen_expr.specs.Known.{Known};
ghost use Rattle.std.specs.Prelude.{OnOk};

use crate::actuals::emit_value_call;
use crate::cells::Cells;
use crate::classes::{connection_at, passed_qualification};
use crate::draft::{Draft, deeper};
use crate::emit::emit_expr;
use crate::instructions::{call_instr, element_instr, standard_instr};
use crate::leaves::{emit_cell, emit_connected, emit_constant, emit_fit, emit_link, emit_object};
use crate::lookups::{block_number, block_of, denoted, formals_of_block, gives, line_at};
use crate::objects::emit_of;
use crate::operands::emit_list;
use crate::operators::{Passed, Seen, passed_of, seen_of};
use crate::procedures::{emit_held, emit_match, emit_procedure};
use crate::sets::own_attribute;
use crate::simulations::emit_own_name;
use crate::spot::Spot;
use crate::standard::emit_standard;
use crate::thunks::{emit_name, emit_name_whole, emit_thunk};
use sim_base::{DeclNo, Line, TokenNo};
use sim_code::Instr;
use sim_scope::{Bound, Denotation, Formal, entry_of};
use sim_tree::{Expr, Identifier};
use std::alloc::AllocError;

/// The address of an element of an array, with the class of a reference there. The token is that of the array's identifier.
#[cycle(emit)]
#[tactic(auto, using(crate::proofs::Written::of_cells))]
pub fn emit_element(
    bound: &Bound,
    cells: &Cells,
    spot: Spot,
    draft: &mut Draft,
    depth: u32,
    class: u32,
    token: TokenNo,
    declaration: DeclNo,
    subscripts: &[Expr],
) -> Result<(), AllocError>
    requires cells { Known bound.now cells.now }
    ensures { OnOk result (WritesElement bound.now spot depth draft.old draft.new class token declaration subscripts.now) }
{
    let inside = deeper(depth)?;
    emit_cell(bound, cells, spot, draft, depth, declaration)?;
    emit_list(bound, cells, spot, draft, inside, subscripts)?;
    draft.put(
        element_instr(subscripts.len(), class)?,
        line_at(bound, token),
    )
}

/// The same where the array is a formal parameter by name.
#[cycle(emit)]
#[tactic(auto, using(crate::proofs::ByName::elements))]
pub fn emit_named_element(
    bound: &Bound,
    cells: &Cells,
    spot: Spot,
    draft: &mut Draft,
    depth: u32,
    class: u32,
    token: TokenNo,
    declaration: DeclNo,
    subscripts: &[Expr],
) -> Result<(), AllocError>
    requires cells { Known bound.now cells.now }
    ensures { OnOk result (WritesNamedElement bound.now spot depth draft.old draft.new class token declaration subscripts.now) }
{
    let inside = deeper(depth)?;
    emit_name_whole(bound, cells, spot, draft, depth, token, declaration)?;
    emit_list(bound, cells, spot, draft, inside, subscripts)?;
    draft.put(
        element_instr(subscripts.len(), class)?,
        line_at(bound, token),
    )
}

/// An actual parameter as it is passed. The token is that of the identifier that is called; a class keeps the arrays that it gets by reference.
#[cycle(emit)]
#[tactic(auto, using(crate::proofs::Seen::sees))]
fn emit_passed(
    bound: &Bound,
    cells: &Cells,
    spot: Spot,
    draft: &mut Draft,
    depth: u32,
    keeps: bool,
    token: TokenNo,
    expr: &Expr,
    formal: Formal,
) -> Result<(), AllocError>
    requires cells { Known bound.now cells.now }
    ensures { OnOk result (WritesPassed bound.now spot depth draft.old draft.new keeps token expr.now formal) }
{
    match passed_of(keeps, formal) {
        Passed::Plain => emit_expr(bound, cells, spot, draft, depth, expr),
        Passed::Kept => {
            emit_expr(bound, cells, spot, draft, depth, expr)?;
            draft.put(Instr::Keep, Line(0))
        }
        Passed::Copied => {
            emit_expr(bound, cells, spot, draft, depth, expr)?;
            draft.put(Instr::CopyArr, line_at(bound, token))
        }
        Passed::CopiedText => {
            emit_expr(bound, cells, spot, draft, depth, expr)?;
            draft.push(depth, standard_instr(15), line_at(bound, token))
        }
        Passed::Named => emit_thunk(bound, cells, spot, draft, depth, false, expr),
        Passed::NamedProcedure => emit_thunk(bound, cells, spot, draft, depth, true, expr),
        Passed::Procedure => emit_procedure(bound, cells, spot, draft, depth, expr),
    }
}

/// An actual parameter; a reference is held against the qualification of its formal. The token is that of the identifier that is called.
#[cycle(emit)]
#[tactic(auto, using(crate::proofs::Seen::sees))]
fn emit_actual(
    bound: &Bound,
    cells: &Cells,
    spot: Spot,
    draft: &mut Draft,
    depth: u32,
    keeps: bool,
    token: TokenNo,
    expr: &Expr,
    formal: Formal,
) -> Result<(), AllocError>
    requires cells { Known bound.now cells.now }
    ensures { OnOk result (WritesActual bound.now spot depth draft.old draft.new keeps token expr.now formal) }
{
    emit_passed(bound, cells, spot, draft, depth, keeps, token, expr, formal)?;
    match passed_qualification(bound, cells, formal) {
        Some(class) => emit_fit(bound, cells, spot, draft, depth, token, class),
        None => Ok(()),
    }
}

/// Actual parameters, one for each formal. The token is that of the identifier that is called; a class keeps the arrays that it gets by
/// reference.
#[cycle(emit)]
#[tactic(auto, using(crate::proofs::Seen::sees))]
pub fn emit_actuals(
    bound: &Bound,
    cells: &Cells,
    spot: Spot,
    draft: &mut Draft,
    depth: u32,
    keeps: bool,
    token: TokenNo,
    list: &[Expr],
    formals: &[Formal],
) -> Result<(), AllocError>
    requires cells { Known bound.now cells.now }
    ensures { OnOk result (WritesActuals bound.now spot depth draft.old draft.new keeps token list.now formals.now) }
{
    if list.len() != formals.len() {
        draft.give_up();
        return Ok(());
    }
    let mut inside = depth;
    for index in 0..list.len() {
        emit_actual(
            bound,
            cells,
            spot,
            draft,
            inside,
            keeps,
            token,
            &list[index],
            formals[index],
        )?;
        inside = deeper(inside)?;
    }
    Ok(())
}

/// A call of a procedure, whose text is a block of the tables. The token is that of its identifier.
#[cycle(emit)]
#[tactic(auto, using(crate::proofs::Seen::sees))]
fn emit_call(
    bound: &Bound,
    cells: &Cells,
    spot: Spot,
    draft: &mut Draft,
    depth: u32,
    token: TokenNo,
    declaration: DeclNo,
    block: u32,
    list: &[Expr],
) -> Result<(), AllocError>
    requires cells { Known bound.now cells.now }
    ensures { OnOk result (WritesCall bound.now spot depth draft.old draft.new token declaration block list.now) }
{
    let inside = deeper(depth)?;
    emit_link(bound, spot, draft, depth, declaration)?;
    let formals = formals_of_block(bound, cells, block);
    emit_actuals(
        bound, cells, spot, draft, inside, false, token, list, formals,
    )?;
    let number = block_number(bound, cells, block);
    draft.put(call_instr(number, list.len())?, line_at(bound, token))
}

/// A declared identifier with its operands, as it is seen. The token is that of the identifier.
#[cycle(emit)]
#[tactic(auto, using(crate::proofs::Seen::sees))]
fn emit_seen(
    bound: &Bound,
    cells: &Cells,
    spot: Spot,
    draft: &mut Draft,
    depth: u32,
    token: TokenNo,
    declaration: DeclNo,
    seen: Seen,
    list: &[Expr],
) -> Result<(), AllocError>
    requires cells { Known bound.now cells.now }
    ensures { OnOk result (WritesSeen bound.now spot depth draft.old draft.new token declaration seen list.now) }
{
    match seen {
        Seen::Variable => {
            if list.len() == 0 {
                return emit_cell(bound, cells, spot, draft, depth, declaration);
            }
            draft.give_up();
            Ok(())
        }
        Seen::Constant => {
            if list.len() == 0 {
                return emit_constant(bound, cells, spot, draft, depth, declaration);
            }
            draft.give_up();
            Ok(())
        }
        Seen::Array => {
            if list.len() == 0 {
                return emit_cell(bound, cells, spot, draft, depth, declaration);
            }
            emit_element(
                bound,
                cells,
                spot,
                draft,
                depth,
                0,
                token,
                declaration,
                list,
            )?;
            draft.put(Instr::Fetch, Line(0))
        }
        Seen::Call(block) => {
            emit_call(
                bound,
                cells,
                spot,
                draft,
                depth,
                token,
                declaration,
                block,
                list,
            )
        }
        Seen::Named => {
            if list.len() == 0 {
                return emit_name(bound, cells, spot, draft, depth, token, declaration);
            }
            draft.give_up();
            Ok(())
        }
        Seen::NamedArray => {
            if list.len() == 0 {
                return emit_name_whole(bound, cells, spot, draft, depth, token, declaration);
            }
            emit_named_element(
                bound,
                cells,
                spot,
                draft,
                depth,
                0,
                token,
                declaration,
                list,
            )?;
            draft.put(Instr::Fetch, Line(0))
        }
        Seen::Procedure(by_name) => {
            emit_held(
                bound,
                cells,
                spot,
                draft,
                depth,
                token,
                declaration,
                by_name,
            )?;
            emit_value_call(bound, cells, spot, draft, depth, token, list)
        }
        Seen::Virtual => {
            emit_object(bound, spot, draft, depth, block_of(bound, declaration))?;
            emit_match(bound, draft, token, declaration)?;
            emit_value_call(bound, cells, spot, draft, depth, token, list)
        }
        Seen::Nothing => {
            draft.give_up();
            Ok(())
        }
    }
}

/// An identifier with its operands that is not seen through a connection.
#[cycle(emit)]
#[tactic(auto, using(crate::proofs::Seen::sees))]
fn emit_unconnected(
    bound: &Bound,
    cells: &Cells,
    spot: Spot,
    draft: &mut Draft,
    depth: u32,
    token: TokenNo,
    denoted: Option<Denotation>,
    list: &[Expr],
) -> Result<(), AllocError>
    requires cells { Known bound.now cells.now }
    ensures { OnOk result (WritesUnconnected bound.now spot depth draft.old draft.new token denoted list.now) }
{
    match denoted {
        Some(Denotation::Declared(declaration)) => {
            let seen = seen_of(entry_of(&bound.scopes, declaration));
            emit_seen(
                bound,
                cells,
                spot,
                draft,
                depth,
                token,
                declaration,
                seen,
                list,
            )
        }
        Some(Denotation::Standard(standard)) => {
            emit_standard(bound, cells, spot, draft, depth, 1, token, standard, list)
        }
        None => {
            draft.give_up();
            Ok(())
        }
    }
}

/// An identifier with its operands that is seen through a connection.
#[cycle(emit)]
#[tactic(auto, using(crate::proofs::Seen::sees))]
fn emit_through(
    bound: &Bound,
    cells: &Cells,
    spot: Spot,
    draft: &mut Draft,
    depth: u32,
    token: TokenNo,
    connection: u32,
    denoted: Option<Denotation>,
    list: &[Expr],
) -> Result<(), AllocError>
    requires cells { Known bound.now cells.now }
    ensures { OnOk result (WritesThrough bound.now spot depth draft.old draft.new token connection denoted list.now) }
{
    match denoted {
        Some(Denotation::Declared(declaration)) => {
            emit_connected(bound, cells, spot, draft, depth, connection)?;
            emit_of(bound, cells, spot, draft, depth, token, declaration, list)
        }
        Some(Denotation::Standard(_)) => {
            draft.give_up();
            Ok(())
        }
        None => {
            draft.give_up();
            Ok(())
        }
    }
}

/// An identifier with its operands that is not seen through a connection; a procedure of SIMSET or SIMULATION is one of the object or the
/// simulation block around.
#[cycle(emit)]
#[tactic(auto, using(crate::proofs::SimulationProcedures::owns))]
fn emit_own(
    bound: &Bound,
    cells: &Cells,
    spot: Spot,
    draft: &mut Draft,
    depth: u32,
    token: TokenNo,
    denoted: Option<Denotation>,
    list: &[Expr],
) -> Result<(), AllocError>
    requires cells { Known bound.now cells.now }
    ensures { OnOk result (WritesOwn bound.now spot depth draft.old draft.new token denoted list.now) }
{
    match own_attribute(bound, token) {
        Some(declaration) => {
            emit_own_name(bound, cells, spot, draft, depth, token, declaration, list)
        }
        None => emit_unconnected(bound, cells, spot, draft, depth, token, denoted, list),
    }
}

/// An identifier with its operands, also where it is a call that leaves no value. The token is that of the identifier, and what it denotes
/// is given.
#[cycle(emit)]
#[tactic(auto, using(crate::proofs::Seen::sees))]
pub fn emit_named(
    bound: &Bound,
    cells: &Cells,
    spot: Spot,
    draft: &mut Draft,
    depth: u32,
    token: TokenNo,
    denoted: Option<Denotation>,
    list: &[Expr],
) -> Result<(), AllocError>
    requires cells { Known bound.now cells.now }
    ensures { OnOk result (WritesNamed bound.now spot depth draft.old draft.new token denoted list.now) }
{
    match connection_at(bound, cells, token) {
        Some(connection) => {
            emit_through(
                bound, cells, spot, draft, depth, token, connection, denoted, list,
            )
        }
        None => emit_own(bound, cells, spot, draft, depth, token, denoted, list),
    }
}

/// An identifier with its operands, which is an operand itself.
#[cycle(emit)]
#[tactic(auto, using(crate::proofs::Seen::sees))]
pub(crate) fn emit_operand_named(
    bound: &Bound,
    cells: &Cells,
    spot: Spot,
    draft: &mut Draft,
    depth: u32,
    name: &Identifier,
    list: &[Expr],
) -> Result<(), AllocError>
    requires cells { Known bound.now cells.now }
    ensures { OnOk result (WritesGiving bound.now spot depth draft.old draft.new name.now list.now) }
{
    let denoted = denoted(bound, name.token);
    if gives(bound, denoted) {
        return emit_named(bound, cells, spot, draft, depth, name.token, denoted, list);
    }
    draft.give_up();
    Ok(())
}
