//! Calls that stand as statements.
ghost use Rattle.std.specs.Prelude.{◌≢◌, OnOk, length};
ghost use Rattle.codegen_expr.specs.Known.{Known};
ghost use Rattle.codegen.specs.Emit.{WritesCall, WritesCalled, WritesCalledBehind, WritesTakenCall};

use crate::leaves::leaves;
use crate::transfers::{emit_detach_behind, emit_transfer, transfer_denoted};
use codegen_expr::{
    Cells, Draft, Form, Object, Spot, denoted, emit_before, emit_dot, emit_expr, emit_named,
    form_of, gives,
};
use sim_base::Line;
use sim_code::Instr;
use sim_scope::Bound;
use sim_tree::{Expr, Identifier, Selector};
use std::alloc::AllocError;

/// A call behind its tick.
#[tactic(auto, using(crate::proofs::Statements::writes))]
pub(crate) fn emit_call(
    bound: &Bound,
    cells: &Cells,
    spot: Spot,
    draft: &mut Draft,
    call: &Expr,
) -> Result<(), AllocError>
    requires cells { Known bound.now cells.now }
    ensures { OnOk result (WritesCall bound.now spot draft.old draft.new call.now) }
{
    match form_of(call) {
        Form::Named { name, arguments } => {
            emit_called(bound, cells, spot, draft, name, arguments)?;
            Ok(())
        }
        Form::Taken { primary, rest } => {
            emit_taken_call(bound, cells, spot, draft, primary, rest)?;
            Ok(())
        }
        Form::New { .. } => {
            emit_expr(bound, cells, spot, draft, 0, call)?;
            draft.put(Instr::Pop, Line(0))?;
            Ok(())
        }
        Form::Closed { .. } => {
            draft.give_up();
            Ok(())
        }
        Form::Other => {
            draft.give_up();
            Ok(())
        }
    }
}

/// A call of an identifier, and what becomes of its value.
#[tactic(auto, using(crate::proofs::Statements::writes, crate::proofs::TransferCalls::transfers))]
fn emit_called(
    bound: &Bound,
    cells: &Cells,
    spot: Spot,
    draft: &mut Draft,
    name: &Identifier,
    arguments: &[Expr],
) -> Result<(), AllocError>
    requires cells { Known bound.now cells.now }
    ensures { OnOk result (WritesCalled bound.now spot draft.old draft.new name.now arguments.now) }
{
    let denotation = denoted(bound, name.token);
    if let Some(transfer) = transfer_denoted(denotation) {
        emit_transfer(bound, cells, spot, draft, transfer, name, arguments)?;
        return Ok(());
    }
    if leaves(bound, denotation) {
        if gives(bound, denotation) {
            emit_named(
                bound, cells, spot, draft, 0, name.token, denotation, arguments,
            )?;
            draft.put(Instr::Pop, Line(0))?;
            return Ok(());
        }
        draft.give_up();
        return Ok(());
    }
    if gives(bound, denotation) {
        draft.give_up();
        return Ok(());
    }
    emit_named(
        bound, cells, spot, draft, 0, name.token, denotation, arguments,
    )?;
    Ok(())
}

/// A call of what is taken of an operand.
#[tactic(auto, using(crate::proofs::TakenCalls::calls))]
fn emit_taken_call(
    bound: &Bound,
    cells: &Cells,
    spot: Spot,
    draft: &mut Draft,
    primary: &Expr,
    rest: &[Selector],
) -> Result<(), AllocError>
    requires cells { Known bound.now cells.now }
    requires some { length rest.now ≢ 0 }
    ensures { OnOk result (WritesTakenCall bound.now spot draft.old draft.new primary.now rest.now) }
{
    let object = emit_before(bound, cells, spot, draft, 0, primary, rest)?;
    match &rest[rest.len() - 1] {
        Selector::Dot {
            name,
            arguments,
            ..
        } => {
            emit_called_behind(bound, cells, spot, draft, object, name, arguments)?;
            Ok(())
        }
        Selector::Qua { .. } => {
            draft.give_up();
            Ok(())
        }
    }
}

/// A call of an attribute behind its object, and what becomes of its value.
#[tactic(auto, using(crate::proofs::TakenCalls::calls, crate::proofs::TransferCalls::transfers))]
fn emit_called_behind(
    bound: &Bound,
    cells: &Cells,
    spot: Spot,
    draft: &mut Draft,
    object: Object,
    name: &Identifier,
    arguments: &[Expr],
) -> Result<(), AllocError>
    requires cells { Known bound.now cells.now }
    ensures { OnOk result (WritesCalledBehind bound.now spot draft.old draft.new object name.now arguments.now) }
{
    let denotation = denoted(bound, name.token);
    if let Some(_) = transfer_denoted(denotation) {
        emit_detach_behind(bound, spot, draft, object, name, arguments)?;
        return Ok(());
    }
    if leaves(bound, denotation) {
        if gives(bound, denotation) {
            emit_dot(bound, cells, spot, draft, 0, object, name, arguments)?;
            draft.put(Instr::Pop, Line(0))?;
            return Ok(());
        }
        draft.give_up();
        return Ok(());
    }
    if gives(bound, denotation) {
        draft.give_up();
        return Ok(());
    }
    emit_dot(bound, cells, spot, draft, 0, object, name, arguments)?;
    Ok(())
}
