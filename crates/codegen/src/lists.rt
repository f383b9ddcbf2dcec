//! What stands in a `for` list.
ghost use Rattle.std.specs.Prelude.{◌≡◌, ◌<◌, ◌+◌, ◌*◌, IfOk, OnOk, length, pos};
ghost use Rattle.sim_tree.specs.SyntaxOfProgram.{statement_syntax};
ghost use Rattle.sim_code.specs.declared.instr.Instr.TheVariants as i;
ghost use Rattle.codegen.specs.CodeFor.{is_empty as is_empty_of};
ghost use Rattle.codegen.specs.ForElements.{in_list};
ghost use Rattle.codegen.specs.EmitShared.{PutsReturn, WritesReturns, WritesSent};

use crate::elements::{Elements, count};
use codegen_expr::{Draft, Spot, level_of, load_instr, store_instr};
use sim_base::Line;
use sim_code::Instr;
use sim_scope::Bound;
use sim_tree::Stmt;
use std::alloc::AllocError;

/// Whether nothing stands there.
#[tactic(auto, using(crate::proofs::ForLists::empties))]
pub(crate) fn is_empty(stmt: &Stmt) -> bool
    ensures { result ≡ is_empty_of (statement_syntax stmt.now) }
{
    match stmt {
        Stmt::Empty { .. } => true,
        Stmt::Block { .. } => false,
        Stmt::PrefixedBlock { .. } => false,
        Stmt::Inner { .. } => false,
        Stmt::Call { .. } => false,
        Stmt::Assignment { .. } => false,
        Stmt::If { .. } => false,
        Stmt::While { .. } => false,
        Stmt::For { .. } => false,
        Stmt::ForReference { .. } => false,
        Stmt::Inspect { .. } => false,
        Stmt::InspectWhen { .. } => false,
        Stmt::Activation { .. } => false,
    }
}

/// A statement that several elements share: where it begins, and which element's turn it is.
#[derive(Clone, Copy)]
pub struct Shared {
    /// The first instruction of the statement.
    pub start: usize,
    /// The number of the element.
    pub number: usize,
}

/// A jump to a place.
pub(crate) fn jump_to(place: usize) -> Result<Instr, AllocError>
    ensures { IfOk result (λ x. x ≡ i.Jump (pos place)) }
{
    let target = i64::try_from(place).map_err(|_| AllocError)?;
    Ok(Instr::Jump(target))
}

/// A jump over the next instruction where a test is not passed.
fn jump_over(place: usize) -> Result<Instr, AllocError>
    ensures { IfOk result (λ x. x ≡ i.JumpF (pos (place + 2))) }
{
    let next = place.checked_add(2).ok_or(AllocError)?;
    let target = i64::try_from(next).map_err(|_| AllocError)?;
    Ok(Instr::JumpF(target))
}

/// The number of an element as a constant.
fn number_instr(number: usize) -> Result<Instr, AllocError>
    ensures { IfOk result (λ x. x ≡ i.Int (pos number)) }
{
    let value = i64::try_from(number).map_err(|_| AllocError)?;
    Ok(Instr::Int(value))
}

/// The place of a jump back.
pub(crate) fn hole_at(chain: usize, number: usize, further: usize) -> Result<usize, AllocError>
    ensures { IfOk result (λ h. h ≡ chain + 5 * number + further) }
{
    let tests = number.checked_mul(5).ok_or(AllocError)?;
    let test = chain.checked_add(tests).ok_or(AllocError)?;
    test.checked_add(further).ok_or(AllocError)
}

/// A turn: the number of the element goes to the temp, and the statement comes next.
#[tactic(auto, using(crate::proofs::Shares::shares))]
pub(crate) fn emit_sent(
    bound: &Bound,
    spot: Spot,
    draft: &mut Draft,
    turn: Shared,
) -> Result<(), AllocError>
    ensures { OnOk result (WritesSent bound.now spot draft.old draft.new turn.start turn.number) }
{
    let number = number_instr(turn.number)?;
    draft.push(0, number, Line(0))?;
    draft.put(store_instr(level_of(bound, spot.text), spot.used), Line(0))?;
    let jump = jump_to(turn.start)?;
    draft.put(jump, Line(0))?;
    Ok(())
}

/// The test whether a turn was that of this element, with a hole for the jump back to it.
#[tactic(auto, using(crate::proofs::Shares::shares))]
fn emit_return(
    bound: &Bound,
    spot: Spot,
    draft: &mut Draft,
    number: usize,
) -> Result<(), AllocError>
    ensures { OnOk result (PutsReturn bound.now spot draft.old draft.new number) }
{
    draft.push(
        0,
        load_instr(level_of(bound, spot.text), spot.used),
        Line(0),
    )?;
    let constant = number_instr(number)?;
    draft.push(1, constant, Line(0))?;
    draft.put(Instr::Rel(2), Line(0))?;
    let over = jump_over(draft.here())?;
    draft.put(over, Line(0))?;
    draft.leave_hole()?;
    Ok(())
}

/// What stands behind a shared statement: the tests, and the last jump back.
pub(crate) fn emit_returns(
    bound: &Bound,
    spot: Spot,
    draft: &mut Draft,
    elements: Elements,
) -> Result<(), AllocError>
    requires some { 0 < length (in_list elements) }
    ensures { OnOk result (WritesReturns bound.now spot draft.old draft.new (in_list elements.entry) (length draft.old.instrs) 0) }
{
    for number in 0..count(elements) - 1 {
        emit_return(bound, spot, draft, number)?;
    }
    draft.leave_hole()?;
    Ok(())
}
