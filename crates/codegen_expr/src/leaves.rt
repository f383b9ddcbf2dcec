//! The code of parts of expressions that have no parts of their own.
ghost use Rattle.std.specs.Prelude.{OnOk};
ghost use Rattle.sim_scope.specs.Source.{source_of};
ghost use Rattle.codegen_expr.specs.Known.{Known};
ghost use Rattle.codegen_expr.specs.Emit.{WritesCell, WritesCellPlace, WritesConstant, WritesImage, WritesLink, WritesLinkTo, WritesSign, WritesTextAt};
ghost use Rattle.codegen_expr.specs.EmitObjects.{OfConnection, PutsBase, WritesAttribute, WritesConstantOf, WritesFit, WritesMember, WritesObjectOf, WritesQua, WritesThis};

use crate::cells::Cells;
use crate::classes::{class_at, connection_slot, found_at, frame_text, is_connection};
use crate::draft::{Draft, deeper};
use crate::instructions::{
    address_instr, attribute_instr, image_instr, link_instr, load_instr, member_instr, qua_instr,
    this_instr,
};
use crate::lookups::{
    block_number, block_of, cell_number, constant_value, is_around, level_of, line_at, slot_of,
};
use crate::operators::{constant_instr, text_instr};
use crate::spot::Spot;
use sim_base::{DeclNo, Line, TokenNo};
use sim_code::Instr;
use sim_scope::Bound;
use sim_tree::{Membership, Sign};
use std::alloc::AllocError;

/// A sign behind its operand.
#[tactic(auto, using(crate::proofs::Written::leading_signs))]
pub(crate) fn emit_sign(
    bound: &Bound,
    cells: &Cells,
    spot: Spot,
    draft: &mut Draft,
    depth: u32,
    sign: Sign,
    token: TokenNo,
) -> Result<(), AllocError>
    ensures { OnOk result (WritesSign bound.now spot depth draft.old draft.new sign token) }
{
    match sign {
        Sign::Plus => Ok(()),
        Sign::Minus => {
            draft.put(Instr::Neg, line_at(bound, token))?;
            Ok(())
        }
    }
}

/// The value of the cell of a declaration.
#[tactic(auto, using(crate::proofs::Written::of_cells))]
pub fn emit_cell(
    bound: &Bound,
    cells: &Cells,
    spot: Spot,
    draft: &mut Draft,
    depth: u32,
    declaration: DeclNo,
) -> Result<(), AllocError>
    requires cells { Known bound.now cells.now }
    ensures { OnOk result (WritesCell bound.now spot depth draft.old draft.new declaration) }
{
    let block = block_of(bound, declaration);
    let Some(place) = slot_of(bound, cells, declaration) else {
        draft.give_up();
        return Ok(());
    };
    if is_around(&bound.scopes, spot.text, block) {
        let slot = cell_number(bound, cells, draft, block, place)?;
        draft.push(depth, load_instr(level_of(bound, block), slot), Line(0))?;
        return Ok(());
    }
    draft.give_up();
    Ok(())
}

/// The address of the cell of a declaration, with the class of a reference there.
#[tactic(auto, using(crate::proofs::Behind::lies))]
pub(crate) fn emit_cell_place(
    bound: &Bound,
    cells: &Cells,
    spot: Spot,
    draft: &mut Draft,
    depth: u32,
    class: u32,
    declaration: DeclNo,
) -> Result<(), AllocError>
    requires cells { Known bound.now cells.now }
    ensures { OnOk result (WritesCellPlace bound.now spot depth draft.old draft.new class declaration) }
{
    let block = block_of(bound, declaration);
    let Some(place) = slot_of(bound, cells, declaration) else {
        draft.give_up();
        return Ok(());
    };
    if is_around(&bound.scopes, spot.text, block) {
        let slot = cell_number(bound, cells, draft, block, place)?;
        draft.push(
            depth,
            address_instr(level_of(bound, block), slot, class),
            Line(0),
        )?;
        return Ok(());
    }
    draft.give_up();
    Ok(())
}

/// The value of a declared constant.
#[tactic(auto, using(crate::proofs::Texts::texts))]
pub(crate) fn emit_constant(
    bound: &Bound,
    cells: &Cells,
    spot: Spot,
    draft: &mut Draft,
    depth: u32,
    declaration: DeclNo,
) -> Result<(), AllocError>
    requires cells { Known bound.now cells.now }
    ensures { OnOk result (WritesConstant bound.now spot depth draft.old draft.new declaration) }
{
    let Some(value) = constant_value(bound, cells, declaration) else {
        draft.give_up();
        return Ok(());
    };
    let Some(instr) = constant_instr(bound, cells, value) else {
        draft.give_up();
        return Ok(());
    };
    draft.push(depth, instr, Line(0))?;
    Ok(())
}

/// The text constant that is written at a token.
#[tactic(auto, using(crate::proofs::Texts::texts))]
pub(crate) fn emit_text(
    bound: &Bound,
    cells: &Cells,
    spot: Spot,
    draft: &mut Draft,
    depth: u32,
    token: TokenNo,
) -> Result<(), AllocError>
    requires cells { Known bound.now cells.now }
    ensures { OnOk result (WritesTextAt bound.now spot depth draft.old draft.new token) }
{
    let Some(instr) = text_instr(bound, cells, token) else {
        draft.give_up();
        return Ok(());
    };
    draft.push(depth, instr, Line(0))?;
    Ok(())
}

/// The address of an image: 0 of sysin, 1 of sysout.
#[tactic(auto, using(crate::proofs::Texts::texts))]
pub(crate) fn emit_image(
    spot: Spot,
    draft: &mut Draft,
    depth: u32,
    image: u32,
) -> Result<(), AllocError>
    ensures { OnOk result (WritesImage spot depth draft.old draft.new image) }
{
    draft.push(depth, image_instr(image), Line(0))?;
    Ok(())
}

/// The link to the instance of a text around.
#[tactic(auto, using(crate::proofs::Seen::links))]
pub fn emit_link_to(
    bound: &Bound,
    spot: Spot,
    draft: &mut Draft,
    depth: u32,
    text: u32,
) -> Result<(), AllocError>
    ensures { OnOk result (WritesLinkTo bound.now spot depth draft.old draft.new text) }
{
    if is_around(&bound.scopes, spot.text, text) {
        draft.push(depth, link_instr(level_of(bound, text)), Line(0))?;
        return Ok(());
    }
    draft.give_up();
    Ok(())
}

/// The link to the instance in which a procedure or a class is declared.
#[tactic(auto, using(crate::proofs::Seen::links))]
pub(crate) fn emit_link(
    bound: &Bound,
    spot: Spot,
    draft: &mut Draft,
    depth: u32,
    declaration: DeclNo,
) -> Result<(), AllocError>
    ensures { OnOk result (WritesLink bound.now spot depth draft.old draft.new declaration) }
{
    emit_link_to(bound, spot, draft, depth, block_of(bound, declaration))
}

/// The object of a connection.
#[tactic(auto, using(crate::proofs::OfObjects::leaves))]
pub fn emit_connected(
    bound: &Bound,
    cells: &Cells,
    spot: Spot,
    draft: &mut Draft,
    depth: u32,
    connection: u32,
) -> Result<(), AllocError>
    requires cells { Known bound.now cells.now }
    ensures { OnOk result (PutsBase (source_of bound.now) spot depth draft.old draft.new (OfConnection connection)) }
{
    let Some(place) = connection_slot(bound, cells, connection)? else {
        draft.give_up();
        return Ok(());
    };
    if is_around(&bound.scopes, spot.text, connection) {
        let frame = frame_text(bound, connection);
        let slot = cell_number(bound, cells, draft, frame, place)?;
        draft.push(
            depth,
            load_instr(level_of(bound, connection), slot),
            Line(0),
        )?;
        return Ok(());
    }
    draft.give_up();
    Ok(())
}

/// The object of a text around.
#[tactic(auto, using(crate::proofs::OfObjects::leaves))]
pub(crate) fn emit_object(
    bound: &Bound,
    spot: Spot,
    draft: &mut Draft,
    depth: u32,
    text: u32,
) -> Result<(), AllocError>
    ensures { OnOk result (WritesObjectOf bound.now spot depth draft.old draft.new text) }
{
    if is_around(&bound.scopes, spot.text, text) {
        draft.push(depth, this_instr(level_of(bound, text)), Line(0))?;
        return Ok(());
    }
    draft.give_up();
    Ok(())
}

/// `this`. The token is that of the word.
#[tactic(auto, using(crate::proofs::OfObjects::leaves))]
pub fn emit_this(
    bound: &Bound,
    cells: &Cells,
    spot: Spot,
    draft: &mut Draft,
    depth: u32,
    token: TokenNo,
) -> Result<(), AllocError>
    requires cells { Known bound.now cells.now }
    ensures { OnOk result (WritesThis bound.now spot depth draft.old draft.new token) }
{
    let Some(found) = found_at(bound, token) else {
        draft.give_up();
        return Ok(());
    };
    if is_connection(bound, cells, found) {
        emit_connected(bound, cells, spot, draft, depth, found)?;
        return Ok(());
    }
    emit_object(bound, spot, draft, depth, found)?;
    Ok(())
}

/// Where an attribute of the object on top lies, with the class of a reference there. The token is that of its identifier.
#[tactic(auto, using(crate::proofs::OfObjects::leaves))]
pub(crate) fn emit_attribute(
    bound: &Bound,
    cells: &Cells,
    spot: Spot,
    draft: &mut Draft,
    depth: u32,
    class: u32,
    token: TokenNo,
    declaration: DeclNo,
) -> Result<(), AllocError>
    requires cells { Known bound.now cells.now }
    ensures { OnOk result (WritesAttribute bound.now spot depth draft.old draft.new class token declaration) }
{
    let Some(place) = slot_of(bound, cells, declaration) else {
        draft.give_up();
        return Ok(());
    };
    let slot = cell_number(bound, cells, draft, block_of(bound, declaration), place)?;
    draft.put(attribute_instr(slot, class), line_at(bound, token))?;
    Ok(())
}

/// The value of a constant that the object on top has, which must be there. The token is that of its identifier.
#[tactic(auto, using(crate::proofs::OfObjects::leaves))]
pub(crate) fn emit_constant_of(
    bound: &Bound,
    cells: &Cells,
    spot: Spot,
    draft: &mut Draft,
    depth: u32,
    token: TokenNo,
    declaration: DeclNo,
) -> Result<(), AllocError>
    requires cells { Known bound.now cells.now }
    ensures { OnOk result (WritesConstantOf bound.now spot depth draft.old draft.new token declaration) }
{
    let Some(_) = slot_of(bound, cells, declaration) else {
        draft.give_up();
        return Ok(());
    };
    draft.put(Instr::NotNone, line_at(bound, token))?;
    draft.put(Instr::Pop, Line(0))?;
    emit_constant(bound, cells, spot, draft, depth, declaration)?;
    Ok(())
}

/// The test of `is` or `in`, or `qua`, behind its operand: the number of the class that is named.
#[tactic(auto, using(crate::proofs::OfObjects::leaves))]
pub(crate) fn emit_member(
    bound: &Bound,
    cells: &Cells,
    spot: Spot,
    draft: &mut Draft,
    depth: u32,
    member: Membership,
    token: TokenNo,
) -> Result<(), AllocError>
    requires cells { Known bound.now cells.now }
    ensures { OnOk result (WritesMember bound.now spot depth draft.old draft.new member token) }
{
    let Some(class) = class_at(bound, cells, token) else {
        draft.give_up();
        return Ok(());
    };
    let number = draft.class_of(block_number(bound, cells, class));
    draft.put(member_instr(member, number), Line(0))?;
    Ok(())
}

/// `qua` behind its operand. The tokens are those of the word and of the class.
#[tactic(auto, using(crate::proofs::OfObjects::leaves))]
pub(crate) fn emit_qua(
    bound: &Bound,
    cells: &Cells,
    spot: Spot,
    draft: &mut Draft,
    depth: u32,
    token: TokenNo,
    class: TokenNo,
) -> Result<(), AllocError>
    requires cells { Known bound.now cells.now }
    ensures { OnOk result (WritesQua bound.now spot depth draft.old draft.new token class) }
{
    let Some(found) = class_at(bound, cells, class) else {
        draft.give_up();
        return Ok(());
    };
    let number = draft.class_of(block_number(bound, cells, found));
    draft.put(qua_instr(number), line_at(bound, token))?;
    Ok(())
}

/// A reference on top is held against a class, by way of a temp. The token is that of the identifier that is called.
#[tactic(auto, using(crate::proofs::OfObjects::leaves))]
pub fn emit_fit(
    bound: &Bound,
    cells: &Cells,
    spot: Spot,
    draft: &mut Draft,
    depth: u32,
    token: TokenNo,
    class: u32,
) -> Result<(), AllocError>
    requires cells { Known bound.now cells.now }
    ensures { OnOk result (WritesFit bound.now spot depth draft.old draft.new token class) }
{
    let inside = deeper(depth)?;
    let number = draft.class_of(block_number(bound, cells, class));
    let level = level_of(bound, spot.text);
    draft.take_temp(spot.temps)?;
    draft.push(inside, address_instr(level, spot.temps, number), Line(0))?;
    draft.put(Instr::Swap, Line(0))?;
    draft.put(Instr::Put, line_at(bound, token))?;
    draft.push(depth, load_instr(level, spot.temps), Line(0))?;
    Ok(())
}
