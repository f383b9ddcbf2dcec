//! What is taken of an operand, behind dots.
ghost use Rattle.codegen_expr.specs.Emit.{WritesBefore, WritesDot, WritesEnd, WritesLast, WritesStart, WritesStep, WritesSteps, WritesTakenPlace};
ghost use Rattle.codegen_expr.specs.Known.{Known};
ghost use Rattle.std.specs.Prelude.{IfOk, OnOk, length, ◌≢◌};

use crate::cells::Cells;
use crate::dots::{attribute_placed, image_placed, is_placed, moves_at, stream_of, takes_image};
use crate::draft::Draft;
use crate::emit::emit_expr;
use crate::leaves::{emit_image, emit_qua};
use crate::lookups::{denoted, gives};
use crate::objects::{emit_of, emit_place_behind};
use crate::operators::Object;
use crate::spot::Spot;
use crate::standard::{emit_behind, emit_standard};
use crate::variables::emit_place;
use sim_scope::{Bound, Denotation};
use sim_tree::{Expr, Identifier, Selector};
use std::alloc::AllocError;

/// An operand in front of what is taken of it; whether that moves the position of a text is given.
#[cycle(emit)]
#[tactic(auto, using(crate::proofs::Taken::taken))]
pub(crate) fn emit_start(
    bound: &Bound,
    cells: &Cells,
    spot: Spot,
    draft: &mut Draft,
    depth: u32,
    moves: bool,
    primary: &Expr,
) -> Result<Object, AllocError>
    requires cells { Known bound.now cells.now }
    ensures { IfOk result (λ object. WritesStart bound.now spot depth draft.old draft.new moves object primary.now) }
{
    if let Some(image) = stream_of(bound, primary) {
        return Ok(Object::Stream(image));
    }
    if is_placed(bound, moves, primary) {
        emit_place(bound, cells, spot, draft, depth, 0, primary)?;
        return Ok(Object::Place);
    }
    emit_expr(bound, cells, spot, draft, depth, primary)?;
    Ok(Object::Value)
}

/// An attribute behind its object.
#[cycle(emit)]
#[tactic(auto, using(crate::proofs::Taken::taken))]
pub fn emit_dot(
    bound: &Bound,
    cells: &Cells,
    spot: Spot,
    draft: &mut Draft,
    depth: u32,
    object: Object,
    name: &Identifier,
    operands: &[Expr],
) -> Result<(), AllocError>
    requires cells { Known bound.now cells.now }
    ensures { OnOk result (WritesDot bound.now spot depth draft.old draft.new object name.now operands.now) }
{
    match denoted(bound, name.token) {
        Some(Denotation::Standard(standard)) => match object {
            Object::Stream(image) => {
                emit_standard(
                    bound, cells, spot, draft, depth, image, name.token, standard, operands,
                )
            }
            Object::Place => {
                emit_behind(
                    bound, cells, spot, draft, depth, name.token, standard, operands,
                )
            }
            Object::Value => {
                emit_behind(
                    bound, cells, spot, draft, depth, name.token, standard, operands,
                )
            }
        },
        Some(Denotation::Declared(declaration)) => match object {
            Object::Stream(_) => {
                draft.give_up();
                Ok(())
            }
            Object::Place => {
                draft.give_up();
                Ok(())
            }
            Object::Value => {
                emit_of(
                    bound,
                    cells,
                    spot,
                    draft,
                    depth,
                    name.token,
                    declaration,
                    operands,
                )
            }
        },
        None => {
            draft.give_up();
            Ok(())
        }
    }
}

/// What is taken of an object, whose value is needed.
#[cycle(emit)]
#[tactic(auto, using(crate::proofs::Taken::taken))]
fn emit_last(
    bound: &Bound,
    cells: &Cells,
    spot: Spot,
    draft: &mut Draft,
    depth: u32,
    object: Object,
    selector: &Selector,
) -> Result<(), AllocError>
    requires cells { Known bound.now cells.now }
    ensures { OnOk result (WritesLast bound.now spot depth draft.old draft.new object selector.now) }
{
    match selector {
        Selector::Dot {
            name,
            arguments,
            ..
        } => {
            if gives(bound, denoted(bound, name.token)) {
                return emit_dot(bound, cells, spot, draft, depth, object, name, arguments);
            }
            draft.give_up();
            Ok(())
        }
        Selector::Qua { token, class } => match object {
            Object::Stream(_) => {
                draft.give_up();
                Ok(())
            }
            Object::Place => {
                draft.give_up();
                Ok(())
            }
            Object::Value => {
                emit_qua(bound, cells, spot, draft, depth, *token, class.token)?;
                Ok(())
            }
        },
    }
}

/// Where what is taken of an object lies, with the class of a reference there.
#[cycle(emit)]
#[tactic(auto, using(crate::proofs::Places::taken_places))]
pub(crate) fn emit_place_taken(
    bound: &Bound,
    cells: &Cells,
    spot: Spot,
    draft: &mut Draft,
    depth: u32,
    class: u32,
    object: Object,
    selector: &Selector,
) -> Result<(), AllocError>
    requires cells { Known bound.now cells.now }
    ensures { OnOk result (WritesTakenPlace bound.now spot depth draft.old draft.new class object selector.now) }
{
    match selector {
        Selector::Dot {
            name,
            arguments,
            ..
        } => match object {
            Object::Stream(image) => emit_image(spot, draft, depth, image),
            Object::Place => {
                draft.give_up();
                Ok(())
            }
            Object::Value => {
                emit_place_behind(
                    bound, cells, spot, draft, depth, class, name.token, arguments,
                )
            }
        },
        Selector::Qua { .. } => {
            draft.give_up();
            Ok(())
        }
    }
}

/// What is taken of an object, in front of something further; whether that moves the position of a text is given.
#[cycle(emit)]
#[tactic(auto, using(crate::proofs::Taken::taken))]
fn emit_step(
    bound: &Bound,
    cells: &Cells,
    spot: Spot,
    draft: &mut Draft,
    depth: u32,
    object: Object,
    selector: &Selector,
    moves: bool,
) -> Result<Object, AllocError>
    requires cells { Known bound.now cells.now }
    ensures { IfOk result (λ next. WritesStep bound.now spot depth draft.old draft.new object selector.now moves next) }
{
    if let Some(image) = image_placed(moves, object, takes_image(bound, selector)) {
        emit_image(spot, draft, depth, image)?;
        return Ok(Object::Place);
    }
    if attribute_placed(bound, moves, selector) {
        emit_place_taken(bound, cells, spot, draft, depth, 0, object, selector)?;
        return Ok(Object::Place);
    }
    emit_last(bound, cells, spot, draft, depth, object, selector)?;
    Ok(Object::Value)
}

/// What is taken of an object but the last thing.
#[cycle(emit)]
#[tactic(auto, using(crate::proofs::Taken::taken))]
pub(crate) fn emit_steps(
    bound: &Bound,
    cells: &Cells,
    spot: Spot,
    draft: &mut Draft,
    depth: u32,
    object: Object,
    rest: &[Selector],
) -> Result<Object, AllocError>
    requires cells { Known bound.now cells.now }
    requires some { length rest.now ≢ 0 }
    ensures { IfOk result (λ taken. WritesSteps bound.now spot depth draft.old draft.new object rest.now taken) }
{
    let mut taken = object;
    for done in 0..rest.len() - 1 {
        let moves = moves_at(bound, rest, done + 1);
        taken = emit_step(bound, cells, spot, draft, depth, taken, &rest[done], moves)?;
    }
    Ok(taken)
}

/// The last thing that is taken of an object.
#[cycle(emit)]
#[tactic(auto, using(crate::proofs::Taken::taken))]
pub(crate) fn emit_end(
    bound: &Bound,
    cells: &Cells,
    spot: Spot,
    draft: &mut Draft,
    depth: u32,
    object: Object,
    rest: &[Selector],
) -> Result<(), AllocError>
    requires cells { Known bound.now cells.now }
    requires some { length rest.now ≢ 0 }
    ensures { OnOk result (WritesEnd bound.now spot depth draft.old draft.new object rest.now) }
{
    let last = &rest[rest.len() - 1];
    emit_last(bound, cells, spot, draft, depth, object, last)
}

/// An operand and what is taken of it but the last thing.
#[tactic(auto, using(crate::proofs::Taken::taken))]
pub fn emit_before(
    bound: &Bound,
    cells: &Cells,
    spot: Spot,
    draft: &mut Draft,
    depth: u32,
    primary: &Expr,
    rest: &[Selector],
) -> Result<Object, AllocError>
    requires cells { Known bound.now cells.now }
    requires some { length rest.now ≢ 0 }
    ensures { IfOk result (λ object. WritesBefore bound.now spot depth draft.old draft.new object primary.now rest.now) }
{
    let moves = moves_at(bound, rest, 0);
    let object = emit_start(bound, cells, spot, draft, depth, moves, primary)?;
    emit_steps(bound, cells, spot, draft, depth, object, rest)
}
