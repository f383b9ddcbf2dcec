//! Controlled variables of `for` statements.
ghost use Rattle.std.specs.Prelude.{◌≡◌, OnOk};
ghost use Rattle.codegen_expr.specs.Known.{Known};
ghost use Rattle.codegen.specs.Emit.{WritesGiven};
ghost use Rattle.codegen.specs.EmitTargets.{WritesLoaded, assigned_in, WritesStored, takes_values as takes_values_of};

use crate::places::{put_load, put_store};
use crate::references::emit_named_reference;
use codegen_expr::{Cells, Draft, Spot, deeper, emit_expr, emit_named_place};
use sim_base::Line;
use sim_code::Instr;
use sim_scope::Bound;
use sim_tree::{Expr, Identifier};
use std::alloc::AllocError;

/// A controlled variable.
#[derive(Clone, Copy)]
pub enum Target<'a> {
    /// A cell, by its text and its place in the own part of the frames of that text; where its text gets the characters of others, the line
    /// of the sign.
    Cell {
        home: u32,
        place: u32,
        assigned: Option<Line>,
    },
    /// A variable that is found anew each time, as an attribute of a connected object.
    Place {
        name: &'a Identifier,
        assigned: Option<Line>,
    },
    /// A reference, which is held against its class each time, at this line.
    Reference {
        name: &'a Identifier,
        line: Line,
    },
}

/// Whether the variable takes values that are no references.
pub(crate) fn takes_values(target: Target) -> bool
    ensures { result ≡ takes_values_of target.entry }
{
    match target {
        Target::Cell { assigned, .. } => assigned.is_none(),
        Target::Place { assigned, .. } => assigned.is_none(),
        Target::Reference { .. } => false,
    }
}

/// The value on top of so many others goes to the variable.
#[tactic(auto, using(crate::proofs::Controls::targets))]
pub(crate) fn emit_stored(
    bound: &Bound,
    cells: &Cells,
    spot: Spot,
    draft: &mut Draft,
    depth: u32,
    target: Target,
) -> Result<(), AllocError>
    requires cells { Known bound.now cells.now }
    ensures { OnOk result (WritesStored bound.now spot depth draft.old draft.new target.entry) }
{
    match target {
        Target::Cell { home, place, .. } => put_store(bound, cells, draft, home, place),
        Target::Place { name, .. } => {
            emit_named_place(bound, cells, spot, draft, deeper(depth)?, 0, name, &[])?;
            draft.put(Instr::Swap, Line(0))?;
            draft.put(Instr::Put, Line(0))
        }
        Target::Reference { name, line } => {
            emit_named_reference(bound, cells, spot, draft, deeper(depth)?, name)?;
            draft.put(Instr::Swap, Line(0))?;
            draft.put(Instr::Put, line)
        }
    }
}

/// The value of the variable.
#[tactic(auto, using(crate::proofs::Controls::targets))]
pub(crate) fn emit_loaded(
    bound: &Bound,
    cells: &Cells,
    spot: Spot,
    draft: &mut Draft,
    depth: u32,
    target: Target,
) -> Result<(), AllocError>
    requires cells { Known bound.now cells.now }
    ensures { OnOk result (WritesLoaded bound.now spot depth draft.old draft.new target.entry) }
{
    match target {
        Target::Cell { home, place, .. } => put_load(bound, cells, draft, depth, home, place),
        Target::Place { name, .. } => {
            emit_named_place(bound, cells, spot, draft, depth, 0, name, &[])?;
            draft.put(Instr::Fetch, Line(0))
        }
        Target::Reference { name, .. } => {
            emit_named_reference(bound, cells, spot, draft, depth, name)?;
            draft.put(Instr::Fetch, Line(0))
        }
    }
}

/// The line of the sign, where the variable's text gets the characters of others.
fn assigned_line(target: Target) -> Option<Line>
    ensures { result ≡ assigned_in target.entry }
{
    match target {
        Target::Cell { assigned, .. } => assigned,
        Target::Place { assigned, .. } => assigned,
        Target::Reference { .. } => None,
    }
}

/// A value goes to the controlled variable.
#[tactic(auto, using(crate::proofs::Controls::targets))]
pub(crate) fn emit_given(
    bound: &Bound,
    cells: &Cells,
    spot: Spot,
    draft: &mut Draft,
    target: Target,
    value: &Expr,
) -> Result<(), AllocError>
    requires cells { Known bound.now cells.now }
    ensures { OnOk result (WritesGiven bound.now spot draft.old draft.new target.entry value.now) }
{
    match assigned_line(target) {
        None => {
            emit_expr(bound, cells, spot, draft, 0, value)?;
            emit_stored(bound, cells, spot, draft, 0, target)
        }
        Some(line) => {
            emit_loaded(bound, cells, spot, draft, 0, target)?;
            emit_expr(bound, cells, spot, draft, 1, value)?;
            draft.put(Instr::AssignT, line)
        }
    }
}
