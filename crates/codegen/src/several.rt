//! Assignments to several left sides.
ghost use Rattle.std.specs.Prelude.{◌≡◌, ◌<◌, ◌-◌, IfOk, OnOk, Some, length, slice_get};
ghost use Rattle.codegen_expr.specs.Known.{Known};
ghost use Rattle.codegen.specs.Emit.{WritesAssignment, WritesOne};
ghost use Rattle.codegen.specs.EmitSeveral.{WritesAddress, WritesAddresses, WritesGive, WritesGives, side_in, sides};

use crate::left::{Left, find_side};
use crate::places::{put_load, put_store};
use crate::references::emit_reference_place;
use codegen_expr::{
    Cells, Draft, Spot, deeper, emit_element, emit_expr, emit_fit, emit_name_place, emit_place,
    level_of, line_at, load_instr, store_instr,
};
use sim_base::{Line, TokenNo};
use sim_code::Instr;
use sim_scope::Bound;
use sim_tree::{Assigned, Assignment, Expr};
use std::alloc::AllocError;

/// A left side with the sign behind it.
#[derive(Clone, Copy)]
pub(crate) struct Side<'a> {
    /// The sign.
    pub sign: Assignment,
    /// The sign's token.
    pub token: TokenNo,
    /// The left side.
    pub left: &'a Expr,
}

/// A value that goes to one left side.
#[tactic(auto, using(crate::proofs::Ones::ones))]
pub(crate) fn emit_one(
    bound: &Bound,
    cells: &Cells,
    spot: Spot,
    draft: &mut Draft,
    side: Side,
    value: &Expr,
) -> Result<(), AllocError>
    requires cells { Known bound.now cells.now }
    ensures { OnOk result (WritesOne bound.now spot draft.old draft.new (side_in side.entry) value.now) }
{
    match find_side(bound, cells, spot, side.sign, side.left) {
        Left::Cell { home, place } => {
            emit_expr(bound, cells, spot, draft, 0, value)?;
            put_store(bound, cells, draft, home, place)?;
            Ok(())
        }
        Left::Element {
            token,
            array,
            subscripts,
        } => {
            emit_element(bound, cells, spot, draft, 0, 0, token, array, subscripts)?;
            emit_expr(bound, cells, spot, draft, 1, value)?;
            draft.put(Instr::Put, Line(0))?;
            Ok(())
        }
        Left::Text => {
            emit_expr(bound, cells, spot, draft, 0, side.left)?;
            emit_expr(bound, cells, spot, draft, 1, value)?;
            draft.put(Instr::AssignT, line_at(bound, side.token))?;
            Ok(())
        }
        Left::Result { home, place } => {
            put_load(bound, cells, draft, 0, home, place)?;
            emit_expr(bound, cells, spot, draft, 1, value)?;
            draft.put(Instr::AssignT, line_at(bound, side.token))?;
            Ok(())
        }
        Left::Attribute => {
            emit_place(bound, cells, spot, draft, 0, 0, side.left)?;
            emit_expr(bound, cells, spot, draft, 1, value)?;
            draft.put(Instr::Put, Line(0))?;
            Ok(())
        }
        Left::Reference => {
            emit_reference_place(bound, cells, spot, draft, 0, side.left)?;
            emit_expr(bound, cells, spot, draft, 1, value)?;
            draft.put(Instr::Put, line_at(bound, side.token))?;
            Ok(())
        }
        Left::Named(declaration) => {
            emit_name_place(bound, cells, spot, draft, 0, false, side.token, declaration)?;
            emit_expr(bound, cells, spot, draft, 1, value)?;
            draft.put(Instr::Put, Line(0))?;
            Ok(())
        }
        Left::NamedText(declaration) => {
            emit_name_place(bound, cells, spot, draft, 0, false, side.token, declaration)?;
            draft.put(Instr::Fetch, Line(0))?;
            emit_expr(bound, cells, spot, draft, 1, value)?;
            draft.put(Instr::AssignT, line_at(bound, side.token))?;
            Ok(())
        }
        Left::NamedReference { declaration, class } => {
            emit_name_place(bound, cells, spot, draft, 0, false, side.token, declaration)?;
            emit_expr(bound, cells, spot, draft, 1, value)?;
            emit_fit(bound, cells, spot, draft, 1, side.token, class)?;
            draft.put(Instr::Put, line_at(bound, side.token))?;
            Ok(())
        }
        Left::NoPlace => {
            draft.give_up();
            Ok(())
        }
    }
}

/// A left side, from left to right.
#[tactic(auto, using(crate::proofs::Sides::severals))]
fn side_at<'a>(left: &'a Expr, rest: &'a [Assigned], index: usize) -> Side<'a>
    requires { index < length rest.now }
    ensures { slice_get (sides left.now rest.now) index ≡ Some (side_in result) }
{
    let part = &rest[index];
    if index == 0 {
        return Side {
            sign: part.sign,
            token: part.token,
            left,
        };
    }
    Side {
        sign: part.sign,
        token: part.token,
        left: &rest[index - 1].value,
    }
}

/// The address or the text of a left side, if it has one. The answer is how many values are on the stack then.
#[tactic(auto, using(crate::proofs::Sides::severals))]
fn emit_address(
    bound: &Bound,
    cells: &Cells,
    spot: Spot,
    draft: &mut Draft,
    depth: u32,
    item: Side,
) -> Result<u32, AllocError>
    requires cells { Known bound.now cells.now }
    ensures { IfOk result (λ m. WritesAddress bound.now spot depth draft.old draft.new m (side_in item.entry)) }
{
    match find_side(bound, cells, spot, item.sign, item.left) {
        Left::Cell { .. } => Ok(depth),
        Left::Element {
            token,
            array,
            subscripts,
        } => {
            emit_element(
                bound, cells, spot, draft, depth, 0, token, array, subscripts,
            )?;
            let values = deeper(depth)?;
            Ok(values)
        }
        Left::Text => {
            emit_expr(bound, cells, spot, draft, depth, item.left)?;
            let values = deeper(depth)?;
            Ok(values)
        }
        Left::Result { home, place } => {
            put_load(bound, cells, draft, depth, home, place)?;
            let values = deeper(depth)?;
            Ok(values)
        }
        Left::Attribute => {
            emit_place(bound, cells, spot, draft, depth, 0, item.left)?;
            let values = deeper(depth)?;
            Ok(values)
        }
        Left::Reference => {
            emit_reference_place(bound, cells, spot, draft, depth, item.left)?;
            let values = deeper(depth)?;
            Ok(values)
        }
        Left::Named(declaration) => {
            emit_name_place(
                bound,
                cells,
                spot,
                draft,
                depth,
                false,
                item.token,
                declaration,
            )?;
            let values = deeper(depth)?;
            Ok(values)
        }
        Left::NamedText(declaration) => {
            emit_name_place(
                bound,
                cells,
                spot,
                draft,
                depth,
                false,
                item.token,
                declaration,
            )?;
            draft.put(Instr::Fetch, Line(0))?;
            let values = deeper(depth)?;
            Ok(values)
        }
        Left::NamedReference { declaration, .. } => {
            emit_name_place(
                bound,
                cells,
                spot,
                draft,
                depth,
                false,
                item.token,
                declaration,
            )?;
            let values = deeper(depth)?;
            Ok(values)
        }
        Left::NoPlace => {
            draft.give_up();
            Ok(depth)
        }
    }
}

/// The addresses and the texts of all left sides that have one. The answer is how many there are.
fn emit_addresses(
    bound: &Bound,
    cells: &Cells,
    spot: Spot,
    draft: &mut Draft,
    left: &Expr,
    rest: &[Assigned],
) -> Result<u32, AllocError>
    requires cells { Known bound.now cells.now }
    ensures { IfOk result (λ m. WritesAddresses bound.now spot 0 draft.old draft.new m (sides left.now rest.now)) }
{
    let mut depth = 0;
    for done in 0..rest.len() {
        let item = side_at(left, rest, done);
        depth = emit_address(bound, cells, spot, draft, depth, item)?;
    }
    Ok(depth)
}

/// One value fewer, where there is one.
fn shallower(depth: u32) -> u32
    ensures { result ≡ depth - 1 }
{
    if depth == 0 {
        return 0;
    }
    depth - 1
}

/// The value in the temp goes to a left side. The answer is how many values are left on the stack.
#[tactic(auto, using(crate::proofs::Sides::severals))]
fn emit_give(
    bound: &Bound,
    cells: &Cells,
    spot: Spot,
    draft: &mut Draft,
    depth: u32,
    item: Side,
) -> Result<u32, AllocError>
    requires cells { Known bound.now cells.now }
    ensures { IfOk result (λ m. WritesGive bound.now spot depth draft.old draft.new m (side_in item.entry)) }
{
    let temp = load_instr(level_of(bound, spot.text), spot.used);
    match find_side(bound, cells, spot, item.sign, item.left) {
        Left::Cell { home, place } => {
            draft.push(depth, temp, Line(0))?;
            put_store(bound, cells, draft, home, place)?;
            Ok(depth)
        }
        Left::Element { .. } => {
            draft.push(depth, temp, Line(0))?;
            draft.put(Instr::Put, Line(0))?;
            Ok(shallower(depth))
        }
        Left::Text => {
            draft.push(depth, temp, Line(0))?;
            draft.put(Instr::AssignT, line_at(bound, item.token))?;
            Ok(shallower(depth))
        }
        Left::Result { .. } => {
            draft.push(depth, temp, Line(0))?;
            draft.put(Instr::AssignT, line_at(bound, item.token))?;
            Ok(shallower(depth))
        }
        Left::Attribute => {
            draft.push(depth, temp, Line(0))?;
            draft.put(Instr::Put, Line(0))?;
            Ok(shallower(depth))
        }
        Left::Reference => {
            draft.push(depth, temp, Line(0))?;
            draft.put(Instr::Put, line_at(bound, item.token))?;
            Ok(shallower(depth))
        }
        Left::Named(_) => {
            draft.push(depth, temp, Line(0))?;
            draft.put(Instr::Put, Line(0))?;
            Ok(shallower(depth))
        }
        Left::NamedText(_) => {
            draft.push(depth, temp, Line(0))?;
            draft.put(Instr::AssignT, line_at(bound, item.token))?;
            Ok(shallower(depth))
        }
        Left::NamedReference { class, .. } => {
            draft.push(depth, temp, Line(0))?;
            emit_fit(bound, cells, spot, draft, depth, item.token, class)?;
            draft.put(Instr::Put, line_at(bound, item.token))?;
            Ok(shallower(depth))
        }
        Left::NoPlace => {
            draft.give_up();
            Ok(depth)
        }
    }
}

/// The value in the temp goes to all left sides, the last one first.
fn emit_gives(
    bound: &Bound,
    cells: &Cells,
    spot: Spot,
    draft: &mut Draft,
    depth: u32,
    left: &Expr,
    rest: &[Assigned],
) -> Result<(), AllocError>
    requires cells { Known bound.now cells.now }
    ensures { OnOk result (WritesGives bound.now spot depth draft.old draft.new (sides left.now rest.now)) }
{
    let mut values = depth;
    for done in 0..rest.len() {
        let item = side_at(left, rest, rest.len() - 1 - done);
        values = emit_give(bound, cells, spot, draft, values, item)?;
    }
    Ok(())
}

/// A value that goes to several left sides.
#[tactic(auto, using(crate::proofs::Sides::severals))]
pub(crate) fn emit_several(
    bound: &Bound,
    cells: &Cells,
    spot: Spot,
    draft: &mut Draft,
    left: &Expr,
    rest: &[Assigned],
) -> Result<(), AllocError>
    requires cells { Known bound.now cells.now }
    requires several { 1 < length rest.now }
    ensures { OnOk result (WritesAssignment bound.now spot draft.old draft.new left.now rest.now) }
{
    let last = &rest[rest.len() - 1];
    draft.take_temp(spot.used)?;
    let depth = emit_addresses(bound, cells, spot, draft, left, rest)?;
    emit_expr(bound, cells, spot, draft, depth, &last.value)?;
    draft.put(store_instr(level_of(bound, spot.text), spot.used), Line(0))?;
    emit_gives(bound, cells, spot, draft, depth, left, rest)?;
    Ok(())
}
