//! Where references lie that are left sides.
ghost use Rattle.std.specs.Prelude.{OnOk};
ghost use Rattle.codegen_expr.specs.Known.{Known};
ghost use Rattle.codegen.specs.EmitLeft.{WritesNamedReference, WritesReferencePlace, WritesResultPlace};

use crate::left::{own_named, result_meant, result_slot};
use crate::own_matches::{left_type, named_type};
use codegen_expr::{
    Cells, Draft, Spot, address_instr, block_number, cell_number, emit_named_place, emit_place,
    is_around, level_of, qualification,
};
use sim_base::Line;
use sim_scope::Bound;
use sim_tree::{Expr, Identifier};
use std::alloc::AllocError;

/// The result of a procedure around, with the class of a reference there.
#[tactic(auto, using(crate::proofs::Lying::lying))]
fn emit_result_place(
    bound: &Bound,
    cells: &Cells,
    spot: Spot,
    draft: &mut Draft,
    depth: u32,
    class: u32,
    text: u32,
) -> Result<(), AllocError>
    requires cells { Known bound.now cells.now }
    ensures { OnOk result (WritesResultPlace bound.now spot depth draft.old draft.new class text) }
{
    let Some(place) = result_slot(bound, cells, text) else {
        draft.give_up();
        return Ok(());
    };
    if is_around(&bound.scopes, spot.text, text) {
        let slot = cell_number(bound, cells, draft, text, place)?;
        draft.push(
            depth,
            address_instr(level_of(bound, text), slot, class),
            Line(0),
        )?;
        return Ok(());
    }
    draft.give_up();
    Ok(())
}

/// Where a reference lies that is a left side, with its class.
#[tactic(auto, using(crate::proofs::Lying::lying))]
pub(crate) fn emit_reference_place(
    bound: &Bound,
    cells: &Cells,
    spot: Spot,
    draft: &mut Draft,
    depth: u32,
    left: &Expr,
) -> Result<(), AllocError>
    requires cells { Known bound.now cells.now }
    ensures { OnOk result (WritesReferencePlace bound.now spot depth draft.old draft.new left.now) }
{
    let Some(text) = qualification(bound, cells, left_type(bound, left)) else {
        draft.give_up();
        return Ok(());
    };
    let class = draft.class_of(block_number(bound, cells, text));
    match result_meant(bound, cells, left) {
        Some(own) => emit_result_place(bound, cells, spot, draft, depth, class, own),
        None => emit_place(bound, cells, spot, draft, depth, class, left),
    }
}

/// The same of an identifier alone.
#[tactic(auto, using(crate::proofs::Lying::lying))]
pub(crate) fn emit_named_reference(
    bound: &Bound,
    cells: &Cells,
    spot: Spot,
    draft: &mut Draft,
    depth: u32,
    name: &Identifier,
) -> Result<(), AllocError>
    requires cells { Known bound.now cells.now }
    ensures { OnOk result (WritesNamedReference bound.now spot depth draft.old draft.new name.now) }
{
    let Some(text) = qualification(bound, cells, named_type(bound, name, 0)) else {
        draft.give_up();
        return Ok(());
    };
    let class = draft.class_of(block_number(bound, cells, text));
    match own_named(bound, cells, name, 0) {
        Some(own) => emit_result_place(bound, cells, spot, draft, depth, class, own),
        None => emit_named_place(bound, cells, spot, draft, depth, class, name, &[]),
    }
}
