//! Procedures as values: those that are declared, those of objects, matches of virtuals, and formal parameters.
ghost use Rattle.std.specs.Prelude.{OnOk};
ghost use Rattle.codegen_expr.specs.EmitVirtuals.{WritesHeld, WritesMatch, WritesProcedure, WritesProcedureAlone, WritesProcedureDot, WritesProcedureLast, WritesProcedureNamed, WritesProcedureOf, WritesProcedureSeen, WritesValueOf, WritesValueSeen};
ghost use Rattle.codegen_expr.specs.Known.{Known};

use crate::cells::Cells;
use crate::classes::connection_at;
use crate::dots::moves_at;
use crate::draft::Draft;
use crate::instructions::{procedure_instr, virtual_instr};
use crate::leaves::{emit_cell, emit_connected, emit_link, emit_object};
use crate::lookups::{block_number, block_of, denoted, line_at};
use crate::operators::{Object, Seen, attribute_of, seen_of};
use crate::selectors::{emit_start, emit_steps};
use crate::spot::Spot;
use crate::thunks::emit_name_whole;
use sim_base::{DeclNo, Line, TokenNo};
use sim_code::Instr;
use sim_scope::{Bound, Denotation, entry_of};
use sim_tree::{Expr, Identifier, Selector};
use std::alloc::AllocError;

/// What matches a virtual in the object on top. The token is that of the virtual's identifier.
#[tactic(auto, unfolding(crate::specs::EmitVirtuals::WritesMatch))]
pub(crate) fn emit_match(
    bound: &Bound,
    draft: &mut Draft,
    token: TokenNo,
    declaration: DeclNo,
) -> Result<(), AllocError>
    ensures { OnOk result (WritesMatch bound.now draft.old draft.new token declaration) }
{
    draft.put(virtual_instr(declaration.0), line_at(bound, token))
}

/// The procedure that a formal parameter is, by name or not. The token is that of its identifier.
#[tactic(auto, using(crate::proofs::ProcedureValues::procedures))]
pub(crate) fn emit_held(
    bound: &Bound,
    cells: &Cells,
    spot: Spot,
    draft: &mut Draft,
    depth: u32,
    token: TokenNo,
    declaration: DeclNo,
    by_name: bool,
) -> Result<(), AllocError>
    requires cells { Known bound.now cells.now }
    ensures { OnOk result (WritesHeld bound.now spot depth draft.old draft.new token declaration by_name) }
{
    if by_name {
        return emit_name_whole(bound, cells, spot, draft, depth, token, declaration);
    }
    emit_cell(bound, cells, spot, draft, depth, declaration)
}

/// A procedure that the object on top has, as it is seen, which must be there. The token is that of its identifier.
#[tactic(auto, using(crate::proofs::ProcedureValues::procedures))]
fn emit_value_of(
    bound: &Bound,
    cells: &Cells,
    spot: Spot,
    draft: &mut Draft,
    depth: u32,
    token: TokenNo,
    declaration: DeclNo,
    seen: Seen,
) -> Result<(), AllocError>
    requires cells { Known bound.now cells.now }
    ensures { OnOk result (WritesValueOf bound.now spot depth draft.old draft.new token declaration seen) }
{
    match seen {
        Seen::Call(block) => {
            draft.put(Instr::NotNone, line_at(bound, token))?;
            let number = block_number(bound, cells, block);
            draft.put(procedure_instr(number), Line(0))
        }
        Seen::Virtual => emit_match(bound, draft, token, declaration),
        Seen::Variable => {
            draft.give_up();
            Ok(())
        }
        Seen::Constant => {
            draft.give_up();
            Ok(())
        }
        Seen::Array => {
            draft.give_up();
            Ok(())
        }
        Seen::Named => {
            draft.give_up();
            Ok(())
        }
        Seen::NamedArray => {
            draft.give_up();
            Ok(())
        }
        Seen::Procedure(_) => {
            draft.give_up();
            Ok(())
        }
        Seen::Nothing => {
            draft.give_up();
            Ok(())
        }
    }
}

/// A procedure that the object on top has. The token is that of its identifier.
#[tactic(auto, using(crate::proofs::ProcedureValues::procedures))]
fn emit_procedure_of(
    bound: &Bound,
    cells: &Cells,
    spot: Spot,
    draft: &mut Draft,
    depth: u32,
    token: TokenNo,
) -> Result<(), AllocError>
    requires cells { Known bound.now cells.now }
    ensures { OnOk result (WritesProcedureOf bound.now spot depth draft.old draft.new token) }
{
    match denoted(bound, token) {
        Some(Denotation::Declared(declaration)) => {
            let seen = attribute_of(entry_of(&bound.scopes, declaration));
            emit_value_of(bound, cells, spot, draft, depth, token, declaration, seen)
        }
        Some(Denotation::Standard(_)) => {
            draft.give_up();
            Ok(())
        }
        None => {
            draft.give_up();
            Ok(())
        }
    }
}

/// The same behind its object.
#[tactic(auto, using(crate::proofs::ProcedureValues::procedures))]
fn emit_procedure_behind(
    bound: &Bound,
    cells: &Cells,
    spot: Spot,
    draft: &mut Draft,
    depth: u32,
    object: Object,
    name: &Identifier,
) -> Result<(), AllocError>
    requires cells { Known bound.now cells.now }
    ensures { OnOk result (WritesProcedureDot bound.now spot depth draft.old draft.new object name.now) }
{
    match object {
        Object::Value => emit_procedure_of(bound, cells, spot, draft, depth, name.token),
        Object::Stream(_) => {
            draft.give_up();
            Ok(())
        }
        Object::Place => {
            draft.give_up();
            Ok(())
        }
    }
}

/// A procedure without a dot, as it is seen. The token is that of its identifier.
#[tactic(auto, using(crate::proofs::ProcedureValues::procedures))]
fn emit_value_seen(
    bound: &Bound,
    cells: &Cells,
    spot: Spot,
    draft: &mut Draft,
    depth: u32,
    token: TokenNo,
    declaration: DeclNo,
    seen: Seen,
) -> Result<(), AllocError>
    requires cells { Known bound.now cells.now }
    ensures { OnOk result (WritesValueSeen bound.now spot depth draft.old draft.new token declaration seen) }
{
    match seen {
        Seen::Call(block) => {
            emit_link(bound, spot, draft, depth, declaration)?;
            let number = block_number(bound, cells, block);
            draft.put(procedure_instr(number), Line(0))
        }
        Seen::Virtual => {
            emit_object(bound, spot, draft, depth, block_of(bound, declaration))?;
            emit_match(bound, draft, token, declaration)
        }
        Seen::Procedure(by_name) => {
            emit_held(
                bound,
                cells,
                spot,
                draft,
                depth,
                token,
                declaration,
                by_name,
            )
        }
        Seen::Variable => {
            draft.give_up();
            Ok(())
        }
        Seen::Constant => {
            draft.give_up();
            Ok(())
        }
        Seen::Array => {
            draft.give_up();
            Ok(())
        }
        Seen::Named => {
            draft.give_up();
            Ok(())
        }
        Seen::NamedArray => {
            draft.give_up();
            Ok(())
        }
        Seen::Nothing => {
            draft.give_up();
            Ok(())
        }
    }
}

/// A procedure that is not seen through a connection. The token is that of its identifier.
#[tactic(auto, using(crate::proofs::ProcedureValues::procedures))]
fn emit_procedure_named(
    bound: &Bound,
    cells: &Cells,
    spot: Spot,
    draft: &mut Draft,
    depth: u32,
    token: TokenNo,
) -> Result<(), AllocError>
    requires cells { Known bound.now cells.now }
    ensures { OnOk result (WritesProcedureNamed bound.now spot depth draft.old draft.new token) }
{
    match denoted(bound, token) {
        Some(Denotation::Declared(declaration)) => {
            let seen = seen_of(entry_of(&bound.scopes, declaration));
            emit_value_seen(bound, cells, spot, draft, depth, token, declaration, seen)
        }
        Some(Denotation::Standard(_)) => {
            draft.give_up();
            Ok(())
        }
        None => {
            draft.give_up();
            Ok(())
        }
    }
}

/// A procedure that is seen without a dot.
#[tactic(auto, using(crate::proofs::ProcedureValues::procedures))]
fn emit_procedure_seen(
    bound: &Bound,
    cells: &Cells,
    spot: Spot,
    draft: &mut Draft,
    depth: u32,
    name: &Identifier,
) -> Result<(), AllocError>
    requires cells { Known bound.now cells.now }
    ensures { OnOk result (WritesProcedureSeen bound.now spot depth draft.old draft.new name.now) }
{
    match connection_at(bound, cells, name.token) {
        Some(connection) => {
            emit_connected(bound, cells, spot, draft, depth, connection)?;
            emit_procedure_of(bound, cells, spot, draft, depth, name.token)
        }
        None => emit_procedure_named(bound, cells, spot, draft, depth, name.token),
    }
}

/// The last thing that is taken of an operand, if that is a procedure, which is not called.
#[tactic(auto, using(crate::proofs::ProcedureForms::last))]
fn emit_procedure_last(
    bound: &Bound,
    cells: &Cells,
    spot: Spot,
    draft: &mut Draft,
    depth: u32,
    object: Object,
    selector: &Selector,
) -> Result<(), AllocError>
    requires cells { Known bound.now cells.now }
    ensures { OnOk result (WritesProcedureLast bound.now spot depth draft.old draft.new object selector.now) }
{
    match selector {
        Selector::Dot {
            name,
            arguments,
            ..
        } => {
            if arguments.len() == 0 {
                return emit_procedure_behind(bound, cells, spot, draft, depth, object, name);
            }
            draft.give_up();
            Ok(())
        }
        Selector::Qua { .. } => {
            draft.give_up();
            Ok(())
        }
    }
}

/// The procedure that an expression is, which is not called.
#[cycle(emit)]
#[tactic(auto, using(crate::proofs::ProcedureForms::forms))]
pub(crate) fn emit_procedure(
    bound: &Bound,
    cells: &Cells,
    spot: Spot,
    draft: &mut Draft,
    depth: u32,
    expr: &Expr,
) -> Result<(), AllocError>
    requires cells { Known bound.now cells.now }
    ensures { OnOk result (WritesProcedure bound.now spot depth draft.old draft.new expr.now) }
{
    match expr {
        Expr::Named { name, arguments } => {
            if arguments.len() == 0 {
                return emit_procedure_seen(bound, cells, spot, draft, depth, name);
            }
            draft.give_up();
            Ok(())
        }
        Expr::Postfix { primary, rest } => {
            if rest.len() == 0 {
                return emit_procedure(bound, cells, spot, draft, depth, primary);
            }
            let moves = moves_at(bound, rest, 0);
            let object = emit_start(bound, cells, spot, draft, depth, moves, primary)?;
            let taken = emit_steps(bound, cells, spot, draft, depth, object, rest)?;
            let last = &rest[rest.len() - 1];
            emit_procedure_last(bound, cells, spot, draft, depth, taken, last)
        }
        Expr::OrElse { first, rest } => {
            emit_procedure_alone(bound, cells, spot, draft, depth, rest.len(), first)
        }
        Expr::AndThen { first, rest } => {
            emit_procedure_alone(bound, cells, spot, draft, depth, rest.len(), first)
        }
        Expr::Eqv { first, rest } => {
            emit_procedure_alone(bound, cells, spot, draft, depth, rest.len(), first)
        }
        Expr::Imp { first, rest } => {
            emit_procedure_alone(bound, cells, spot, draft, depth, rest.len(), first)
        }
        Expr::Or { first, rest } => {
            emit_procedure_alone(bound, cells, spot, draft, depth, rest.len(), first)
        }
        Expr::And { first, rest } => {
            emit_procedure_alone(bound, cells, spot, draft, depth, rest.len(), first)
        }
        Expr::Not { tokens, operand } => {
            emit_procedure_alone(bound, cells, spot, draft, depth, tokens.len(), operand)
        }
        Expr::Concatenation { first, rest } => {
            emit_procedure_alone(bound, cells, spot, draft, depth, rest.len(), first)
        }
        Expr::Sum { sign, first, rest } => match sign {
            Some(_) => {
                draft.give_up();
                Ok(())
            }
            None => emit_procedure_alone(bound, cells, spot, draft, depth, rest.len(), first),
        },
        Expr::Product { first, rest } => {
            emit_procedure_alone(bound, cells, spot, draft, depth, rest.len(), first)
        }
        Expr::Power { first, rest } => {
            emit_procedure_alone(bound, cells, spot, draft, depth, rest.len(), first)
        }
        Expr::Parentheses { .. } => {
            draft.give_up();
            Ok(())
        }
        Expr::If { .. } => {
            draft.give_up();
            Ok(())
        }
        Expr::Related { .. } => {
            draft.give_up();
            Ok(())
        }
        Expr::Member { .. } => {
            draft.give_up();
            Ok(())
        }
        Expr::Integer { .. } => {
            draft.give_up();
            Ok(())
        }
        Expr::Character { .. } => {
            draft.give_up();
            Ok(())
        }
        Expr::Text { .. } => {
            draft.give_up();
            Ok(())
        }
        Expr::True { .. } => {
            draft.give_up();
            Ok(())
        }
        Expr::False { .. } => {
            draft.give_up();
            Ok(())
        }
        Expr::NoObject { .. } => {
            draft.give_up();
            Ok(())
        }
        Expr::Notext { .. } => {
            draft.give_up();
            Ok(())
        }
        Expr::This { .. } => {
            draft.give_up();
            Ok(())
        }
        Expr::New { .. } => {
            draft.give_up();
            Ok(())
        }
    }
}

/// The procedure that an operand is, if so many others stand beside it: with others it is none.
#[cycle(emit)]
#[tactic(auto, using(crate::proofs::ProcedureForms::alone))]
fn emit_procedure_alone(
    bound: &Bound,
    cells: &Cells,
    spot: Spot,
    draft: &mut Draft,
    depth: u32,
    others: usize,
    operand: &Expr,
) -> Result<(), AllocError>
    requires cells { Known bound.now cells.now }
    ensures { OnOk result (WritesProcedureAlone bound.now spot depth draft.old draft.new others operand.now) }
{
    if others == 0 {
        return emit_procedure(bound, cells, spot, draft, depth, operand);
    }
    draft.give_up();
    Ok(())
}
