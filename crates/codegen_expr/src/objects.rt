//! What objects have, and how they are generated.
ghost use Rattle.codegen_expr.specs.EmitObjects.{WritesElementOf, WritesGeneration, WritesNew, WritesOf, WritesOrigin, WritesPlaceBehind, WritesPlaceOf, WritesSeenOf, WritesSeenPlaceOf};
ghost use Rattle.codegen_expr.specs.Known.{Known};
ghost use Rattle.std.specs.Prelude.{OnOk};

use crate::actuals::emit_value_call;
use crate::calls::emit_actuals;
use crate::cells::Cells;
use crate::classes::{class_at, class_parameters, is_process, origin_slot};
use crate::draft::{Draft, deeper};
use crate::instructions::{attribute_instr, call_instr, element_instr, integer_instr, new_instr};
use crate::leaves::{emit_attribute, emit_constant_of, emit_link};
use crate::lookups::{block_number, cell_number, denoted, formals_of_block, line_at};
use crate::operands::emit_list;
use crate::operators::{Seen, attribute_of};
use crate::procedures::emit_match;
use crate::sets::{emit_set, set_procedure};
use crate::spot::Spot;
use sim_base::{DeclNo, Line, TokenNo};
use sim_code::Instr;
use sim_scope::{Bound, Denotation, entry_of};
use sim_tree::{Expr, Identifier};
use std::alloc::AllocError;

/// The address of an element of an array that the object on top has, with the class of a reference there. The token is that of the array's
/// identifier.
#[cycle(emit)]
#[tactic(auto, using(crate::proofs::OfObjects::objects))]
fn emit_element_of(
    bound: &Bound,
    cells: &Cells,
    spot: Spot,
    draft: &mut Draft,
    depth: u32,
    class: u32,
    token: TokenNo,
    declaration: DeclNo,
    subscripts: &[Expr],
) -> Result<(), AllocError>
    requires cells { Known bound.now cells.now }
    ensures { OnOk result (WritesElementOf bound.now spot depth draft.old draft.new class token declaration subscripts.now) }
{
    let inside = deeper(depth)?;
    emit_attribute(bound, cells, spot, draft, depth, 0, token, declaration)?;
    draft.put(Instr::Fetch, Line(0))?;
    emit_list(bound, cells, spot, draft, inside, subscripts)?;
    draft.put(
        element_instr(subscripts.len(), class)?,
        line_at(bound, token),
    )
}

/// What the object on top has, as it is seen, with its operands. The token is that of its identifier.
#[cycle(emit)]
#[tactic(auto, using(crate::proofs::OfObjects::objects))]
fn emit_seen_of(
    bound: &Bound,
    cells: &Cells,
    spot: Spot,
    draft: &mut Draft,
    depth: u32,
    token: TokenNo,
    declaration: DeclNo,
    seen: Seen,
    list: &[Expr],
) -> Result<(), AllocError>
    requires cells { Known bound.now cells.now }
    ensures { OnOk result (WritesSeenOf bound.now spot depth draft.old draft.new token declaration seen list.now) }
{
    match seen {
        Seen::Variable => {
            if list.len() == 0 {
                emit_attribute(bound, cells, spot, draft, depth, 0, token, declaration)?;
                return draft.put(Instr::Fetch, Line(0));
            }
            draft.give_up();
            Ok(())
        }
        Seen::Constant => {
            if list.len() == 0 {
                return emit_constant_of(bound, cells, spot, draft, depth, token, declaration);
            }
            draft.give_up();
            Ok(())
        }
        Seen::Array => {
            if list.len() == 0 {
                emit_attribute(bound, cells, spot, draft, depth, 0, token, declaration)?;
                return draft.put(Instr::Fetch, Line(0));
            }
            emit_element_of(
                bound,
                cells,
                spot,
                draft,
                depth,
                0,
                token,
                declaration,
                list,
            )?;
            draft.put(Instr::Fetch, Line(0))
        }
        Seen::Call(block) => {
            let inside = deeper(depth)?;
            draft.put(Instr::NotNone, line_at(bound, token))?;
            let formals = formals_of_block(bound, cells, block);
            emit_actuals(
                bound, cells, spot, draft, inside, false, token, list, formals,
            )?;
            let number = block_number(bound, cells, block);
            draft.put(call_instr(number, list.len())?, line_at(bound, token))
        }
        Seen::Virtual => {
            emit_match(bound, draft, token, declaration)?;
            emit_value_call(bound, cells, spot, draft, depth, token, list)
        }
        Seen::Named => {
            draft.give_up();
            Ok(())
        }
        Seen::NamedArray => {
            draft.give_up();
            Ok(())
        }
        Seen::Procedure(_) => {
            draft.give_up();
            Ok(())
        }
        Seen::Nothing => {
            draft.give_up();
            Ok(())
        }
    }
}

/// What the object on top has, with its operands. The token is that of its identifier.
#[cycle(emit)]
#[tactic(auto, using(crate::proofs::OfObjects::objects))]
pub(crate) fn emit_of(
    bound: &Bound,
    cells: &Cells,
    spot: Spot,
    draft: &mut Draft,
    depth: u32,
    token: TokenNo,
    declaration: DeclNo,
    list: &[Expr],
) -> Result<(), AllocError>
    requires cells { Known bound.now cells.now }
    ensures { OnOk result (WritesOf bound.now spot depth draft.old draft.new token declaration list.now) }
{
    let entry = entry_of(&bound.scopes, declaration);
    match set_procedure(entry) {
        Some(procedure) => emit_set(bound, cells, spot, draft, depth, token, procedure, list),
        None => {
            emit_seen_of(
                bound,
                cells,
                spot,
                draft,
                depth,
                token,
                declaration,
                attribute_of(entry),
                list,
            )
        }
    }
}

/// Where a variable lies that the object on top has, as it is seen, with the class of a reference there.
#[cycle(emit)]
#[tactic(auto, using(crate::proofs::OfObjects::objects))]
fn emit_seen_place_of(
    bound: &Bound,
    cells: &Cells,
    spot: Spot,
    draft: &mut Draft,
    depth: u32,
    class: u32,
    token: TokenNo,
    declaration: DeclNo,
    seen: Seen,
    subscripts: &[Expr],
) -> Result<(), AllocError>
    requires cells { Known bound.now cells.now }
    ensures { OnOk result (WritesSeenPlaceOf bound.now spot depth draft.old draft.new class token declaration seen subscripts.now) }
{
    match seen {
        Seen::Variable => {
            if subscripts.len() == 0 {
                emit_attribute(bound, cells, spot, draft, depth, class, token, declaration)?;
                return Ok(());
            }
            draft.give_up();
            Ok(())
        }
        Seen::Array => {
            if subscripts.len() == 0 {
                draft.give_up();
                return Ok(());
            }
            emit_element_of(
                bound,
                cells,
                spot,
                draft,
                depth,
                class,
                token,
                declaration,
                subscripts,
            )
        }
        Seen::Constant => {
            draft.give_up();
            Ok(())
        }
        Seen::Call(_) => {
            draft.give_up();
            Ok(())
        }
        Seen::Virtual => {
            draft.give_up();
            Ok(())
        }
        Seen::Named => {
            draft.give_up();
            Ok(())
        }
        Seen::NamedArray => {
            draft.give_up();
            Ok(())
        }
        Seen::Procedure(_) => {
            draft.give_up();
            Ok(())
        }
        Seen::Nothing => {
            draft.give_up();
            Ok(())
        }
    }
}

/// Where a variable lies that the object on top has, with the class of a reference there.
#[cycle(emit)]
#[tactic(auto, using(crate::proofs::OfObjects::objects))]
fn emit_place_of(
    bound: &Bound,
    cells: &Cells,
    spot: Spot,
    draft: &mut Draft,
    depth: u32,
    class: u32,
    token: TokenNo,
    declaration: DeclNo,
    subscripts: &[Expr],
) -> Result<(), AllocError>
    requires cells { Known bound.now cells.now }
    ensures { OnOk result (WritesPlaceOf bound.now spot depth draft.old draft.new class token declaration subscripts.now) }
{
    let seen = attribute_of(entry_of(&bound.scopes, declaration));
    emit_seen_place_of(
        bound,
        cells,
        spot,
        draft,
        depth,
        class,
        token,
        declaration,
        seen,
        subscripts,
    )
}

/// Where what an identifier denotes lies in the object on top, with the class of a reference there. The token is that of the identifier.
#[cycle(emit)]
#[tactic(auto, using(crate::proofs::OfObjects::objects))]
pub(crate) fn emit_place_behind(
    bound: &Bound,
    cells: &Cells,
    spot: Spot,
    draft: &mut Draft,
    depth: u32,
    class: u32,
    token: TokenNo,
    subscripts: &[Expr],
) -> Result<(), AllocError>
    requires cells { Known bound.now cells.now }
    ensures { OnOk result (WritesPlaceBehind bound.now spot depth draft.old draft.new class token subscripts.now) }
{
    match denoted(bound, token) {
        Some(Denotation::Declared(declaration)) => {
            emit_place_of(
                bound,
                cells,
                spot,
                draft,
                depth,
                class,
                token,
                declaration,
                subscripts,
            )
        }
        Some(Denotation::Standard(_)) => {
            draft.give_up();
            Ok(())
        }
        None => {
            draft.give_up();
            Ok(())
        }
    }
}

/// `new` of a class that stands behind a declaration. The token is that of the word, and the name is that of the class.
#[cycle(emit)]
#[tactic(auto, using(crate::proofs::OfObjects::objects))]
fn emit_generation(
    bound: &Bound,
    cells: &Cells,
    spot: Spot,
    draft: &mut Draft,
    depth: u32,
    token: TokenNo,
    name: &Identifier,
    declaration: DeclNo,
    class: u32,
    list: &[Expr],
) -> Result<(), AllocError>
    requires cells { Known bound.now cells.now }
    ensures { OnOk result (WritesGeneration bound.now spot depth draft.old draft.new token name.now declaration class list.now) }
{
    let inside = deeper(depth)?;
    emit_link(bound, spot, draft, depth, declaration)?;
    let formals = class_parameters(bound, cells, Some(class));
    emit_actuals(
        bound, cells, spot, draft, inside, true, name.token, list, formals,
    )?;
    let number = draft.class_of(block_number(bound, cells, class));
    draft.put(new_instr(number, list.len())?, line_at(bound, token))
}

/// A new object of `process` itself keeps the token of the class, which tells where it was generated.
#[tactic(auto, using(crate::proofs::Origins::origins))]
fn emit_origin(
    bound: &Bound,
    cells: &Cells,
    spot: Spot,
    draft: &mut Draft,
    depth: u32,
    token: TokenNo,
    class: TokenNo,
    process: u32,
) -> Result<(), AllocError>
    requires cells { Known bound.now cells.now }
    ensures { OnOk result (WritesOrigin bound.now spot depth draft.old draft.new token class process) }
{
    let above = deeper(depth)?;
    let inside = deeper(above)?;
    let place = origin_slot(bound, cells, process)?;
    let slot = cell_number(bound, cells, draft, process, place)?;
    draft.push(above, Instr::Dup, Line(0))?;
    draft.put(attribute_instr(slot, 0), line_at(bound, token))?;
    draft.push(inside, integer_instr(class.0), Line(0))?;
    draft.put(Instr::Put, Line(0))
}

/// `new`. The token is that of the word, and the name is that of the class.
#[cycle(emit)]
#[tactic(auto, using(crate::proofs::OfObjects::objects))]
pub(crate) fn emit_new(
    bound: &Bound,
    cells: &Cells,
    spot: Spot,
    draft: &mut Draft,
    depth: u32,
    token: TokenNo,
    name: &Identifier,
    list: &[Expr],
) -> Result<(), AllocError>
    requires cells { Known bound.now cells.now }
    ensures { OnOk result (WritesNew bound.now spot depth draft.old draft.new token name.now list.now) }
{
    match denoted(bound, name.token) {
        Some(Denotation::Declared(declaration)) => {
            let Some(class) = class_at(bound, cells, name.token) else {
                draft.give_up();
                return Ok(());
            };
            emit_generation(
                bound,
                cells,
                spot,
                draft,
                depth,
                token,
                name,
                declaration,
                class,
                list,
            )?;
            if is_process(bound, cells, class) {
                return emit_origin(bound, cells, spot, draft, depth, token, name.token, class);
            }
            Ok(())
        }
        Some(Denotation::Standard(_)) => {
            draft.give_up();
            Ok(())
        }
        None => {
            draft.give_up();
            Ok(())
        }
    }
}
