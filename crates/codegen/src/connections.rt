//! Connections.
ghost use Rattle.std.specs.Prelude.{IfOk, OnOk, Some};
ghost use Rattle.codegen_expr.specs.Known.{Known};
ghost use Rattle.codegen.specs.EmitConnections.{FillsAll, WritesArm, WritesConnected, WritesConnection, WritesOpenArms, WritesOtherwise};

use crate::statement::emit_statement;
use codegen_expr::{
    Cells, Draft, Spot, block_number, cell_number, class_at, connection_slot, first_of, frame_text,
    is_connection, level_of, member_instr, store_instr,
};
use sim_base::{Line, TokenNo};
use sim_code::Instr;
use sim_scope::{Bound, block_at, encloser};
use sim_tree::{Membership, Stmt, When};
use std::alloc::AllocError;

/// The object on top is kept in the cell of a connection that stands in the text, and its statement is done.
#[cycle(emit)]
#[tactic(auto, using(crate::proofs::Connected::connected))]
fn emit_connection(
    bound: &Bound,
    cells: &Cells,
    spot: Spot,
    draft: &mut Draft,
    opening: TokenNo,
    connection: u32,
    body: &Stmt,
) -> Result<(), AllocError>
    requires cells { Known bound.now cells.now }
    ensures { OnOk result (WritesConnection bound.now spot draft.old draft.new opening (Some connection) body.now) }
{
    if !is_connection(bound, cells, connection) {
        draft.give_up();
        return Ok(());
    }
    if first_of(bound, connection) != opening.0 {
        draft.give_up();
        return Ok(());
    }
    if encloser(&bound.scopes, connection) != Some(spot.text) {
        draft.give_up();
        return Ok(());
    }
    let Some(place) = connection_slot(bound, cells, connection)? else {
        draft.give_up();
        return Ok(());
    };
    let frame = frame_text(bound, connection);
    let slot = cell_number(bound, cells, draft, frame, place)?;
    draft.put(store_instr(level_of(bound, connection), slot), Line(0))?;
    let inner = Spot {
        text: connection,
        temps: spot.temps,
        used: spot.used,
    };
    emit_statement(bound, cells, inner, draft, body)
}

/// The object on top is connected by what begins at a token.
#[cycle(emit)]
#[tactic(auto, using(crate::proofs::Connected::connected))]
pub(crate) fn emit_connects(
    bound: &Bound,
    cells: &Cells,
    spot: Spot,
    draft: &mut Draft,
    opening: TokenNo,
    body: &Stmt,
) -> Result<(), AllocError>
    requires cells { Known bound.now cells.now }
    ensures { OnOk result (WritesConnected bound.now spot draft.old draft.new opening body.now) }
{
    match block_at(&bound.scopes, opening) {
        Some(connection) => {
            emit_connection(bound, cells, spot, draft, opening, connection, body)
        }
        None => {
            draft.give_up();
            Ok(())
        }
    }
}

/// What is done where no object is connected.
#[cycle(emit)]
#[tactic(auto, using(crate::proofs::Connected::connected))]
pub(crate) fn emit_otherwise(
    bound: &Bound,
    cells: &Cells,
    spot: Spot,
    draft: &mut Draft,
    otherwise: &Option<Box<Stmt>>,
) -> Result<(), AllocError>
    requires cells { Known bound.now cells.now }
    ensures { OnOk result (WritesOtherwise bound.now spot draft.old draft.new otherwise.now) }
{
    draft.put(Instr::Pop, Line(0))?;
    match otherwise {
        Some(stmt) => emit_statement(bound, cells, spot, draft, stmt),
        None => Ok(()),
    }
}

/// An arm, but for the jump behind its statement. The answer is the place of that.
#[cycle(emit)]
#[tactic(auto, using(crate::proofs::Connected::connected))]
fn emit_arm(
    bound: &Bound,
    cells: &Cells,
    spot: Spot,
    draft: &mut Draft,
    arm: &When,
) -> Result<usize, AllocError>
    requires cells { Known bound.now cells.now }
    ensures { IfOk result (λ over. WritesArm bound.now spot draft.old draft.new arm.now over) }
{
    let Some(text) = class_at(bound, cells, arm.class.token) else {
        draft.give_up();
        let over = draft.here();
        draft.leave_hole()?;
        return Ok(over);
    };
    let class = draft.class_of(block_number(bound, cells, text));
    draft.push(1, Instr::Dup, Line(0))?;
    draft.put(member_instr(Membership::In, class), Line(0))?;
    let jump = draft.here();
    draft.leave_hole()?;
    emit_connects(bound, cells, spot, draft, arm.opening, &arm.body)?;
    let over = draft.here();
    draft.leave_hole()?;
    let start = draft.place()?;
    draft.fill_in(jump, Instr::JumpF(start));
    Ok(over)
}

/// Writes a jump to a place into each of some holes.
pub(crate) fn fill_all(draft: &mut Draft, places: &[usize], target: i64)
    ensures { FillsAll draft.old draft.new places.now target }
{
    for place in places {
        draft.fill_in(*place, Instr::Jump(target));
    }
}

/// Arms, the object on top, but for the jumps behind their statements. The answer is the places of those.
#[cycle(emit)]
pub(crate) fn emit_arms(
    bound: &Bound,
    cells: &Cells,
    spot: Spot,
    draft: &mut Draft,
    arms: &[When],
) -> Result<Vec<usize>, AllocError>
    requires cells { Known bound.now cells.now }
    ensures { IfOk result (λ overs. WritesOpenArms bound.now spot draft.old draft.new arms.now overs.items) }
{
    let mut overs = Vec::new(draft.alloc());
    for arm in arms {
        let over = emit_arm(bound, cells, spot, draft, arm)?;
        overs.push(over)?;
    }
    Ok(overs)
}
