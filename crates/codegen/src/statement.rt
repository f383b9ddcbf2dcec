//! Statements, from the tree to instructions.
ghost use Rattle.std.specs.Prelude.{◌≡◌, ◌≢◌, ◌<◌, IfOk, OnOk, false, length, option_map, pos};
ghost use Rattle.sim_code.specs.declared.instr.Instr.TheVariants as i;
ghost use Rattle.codegen_expr.specs.Known.{Known};
ghost use Rattle.codegen.specs.EmitLists.{WritesEach};
ghost use Rattle.codegen.specs.EmitShared.{PutsTurn, WritesInside, WritesTurn, WritesTurns};
ghost use Rattle.codegen.specs.EmitTargets.{line_in};
ghost use Rattle.codegen.specs.CodeFor.{is_empty as is_empty_of};
ghost use Rattle.sim_tree.specs.SyntaxOfProgram.{statement_syntax};
ghost use Rattle.codegen.specs.Emit.{WritesAssignment, WritesBlock, WritesElementOf, WritesFor, WritesList, WritesStatement, WritesStatements};
ghost use Rattle.codegen.specs.EmitSeveral.{side_in};
ghost use Rattle.codegen.specs.ForElements.{in_list, view_syntax};

use crate::activations::emit_activation;
use crate::calls::emit_call;
use crate::connections::{emit_arms, emit_connects, emit_otherwise, fill_all};
use crate::elements::{Element, Elements, count, element_at};
use crate::left::{Left, find_named};
use crate::lists::{Shared, emit_returns, emit_sent, hole_at, is_empty, jump_to};
use crate::prefixed::emit_prefixed;
use crate::several::{Side, emit_one, emit_several};
use crate::targets::{Target, emit_given, emit_loaded, emit_stored, takes_values};
use codegen_expr::{Cells, Draft, Spot, block_number, deeper, emit_expr, is_text_at, line_at};
use sim_base::Line;
use sim_code::Instr;
use sim_scope::{Bound, block_at, encloser};
use sim_tree::{Assigned, Block, Expr, Identifier, Stmt};
use std::alloc::AllocError;

/// Writes the code of a statement, which stands on no value. The draft stops being whole where something has no code.
#[cycle(emit)]
#[tactic(auto, using(crate::proofs::Statements::writes))]
pub(crate) fn emit_statement(
    bound: &Bound,
    cells: &Cells,
    spot: Spot,
    draft: &mut Draft,
    stmt: &Stmt,
) -> Result<(), AllocError>
    requires cells { Known bound.now cells.now }
    ensures { OnOk result (WritesStatement bound.now spot draft.old draft.new stmt.now) }
{
    match stmt {
        Stmt::Empty { .. } => Ok(()),
        Stmt::Block { block } => {
            draft.put(Instr::Tick, Line(0))?;
            emit_block(bound, cells, spot, draft, block)?;
            Ok(())
        }
        Stmt::Call { call } => {
            draft.put(Instr::Tick, Line(0))?;
            emit_call(bound, cells, spot, draft, call)?;
            Ok(())
        }
        Stmt::Assignment { left, rest } => {
            draft.put(Instr::Tick, Line(0))?;
            emit_assignment(bound, cells, spot, draft, left, rest)?;
            Ok(())
        }
        Stmt::If {
            condition,
            then_branch,
            else_branch,
            ..
        } => match else_branch {
            Some(second) => {
                draft.put(Instr::Tick, Line(0))?;
                emit_expr(bound, cells, spot, draft, 0, condition)?;
                let jump = draft.here();
                draft.leave_hole()?;
                emit_statement(bound, cells, spot, draft, then_branch)?;
                let over = draft.here();
                draft.leave_hole()?;
                let start = draft.place()?;
                emit_statement(bound, cells, spot, draft, second)?;
                let end = draft.place()?;
                draft.fill_in(jump, Instr::JumpF(start));
                draft.fill_in(over, Instr::Jump(end));
                Ok(())
            }
            None => {
                draft.put(Instr::Tick, Line(0))?;
                emit_expr(bound, cells, spot, draft, 0, condition)?;
                let jump = draft.here();
                draft.leave_hole()?;
                emit_statement(bound, cells, spot, draft, then_branch)?;
                let end = draft.place()?;
                draft.fill_in(jump, Instr::JumpF(end));
                Ok(())
            }
        },
        Stmt::While {
            condition,
            body,
            ..
        } => {
            draft.put(Instr::Tick, Line(0))?;
            let start = draft.place()?;
            draft.put(Instr::Tick, Line(0))?;
            emit_expr(bound, cells, spot, draft, 0, condition)?;
            let jump = draft.here();
            draft.leave_hole()?;
            emit_statement(bound, cells, spot, draft, body)?;
            draft.put(Instr::Jump(start), Line(0))?;
            let end = draft.place()?;
            draft.fill_in(jump, Instr::JumpF(end));
            Ok(())
        }
        Stmt::For {
            variable,
            sign,
            elements,
            body,
            ..
        } => {
            draft.put(Instr::Tick, Line(0))?;
            let list = Elements::Values(elements);
            if is_text_at(bound, variable.token) {
                let line = line_at(bound, *sign);
                emit_for(bound, cells, spot, draft, variable, Some(line), list, body)?;
                return Ok(());
            }
            emit_for(bound, cells, spot, draft, variable, None, list, body)?;
            Ok(())
        }
        Stmt::PrefixedBlock { prefix, block } => {
            draft.put(Instr::Tick, Line(0))?;
            emit_prefixed(
                bound,
                cells,
                spot,
                draft,
                &prefix.class,
                &prefix.arguments,
                block.token,
            )?;
            Ok(())
        }
        Stmt::Inner { .. } => {
            draft.give_up();
            Ok(())
        }
        Stmt::ForReference {
            variable,
            sign,
            elements,
            body,
            ..
        } => {
            draft.put(Instr::Tick, Line(0))?;
            let list = Elements::References(elements);
            if is_text_at(bound, variable.token) {
                emit_for(bound, cells, spot, draft, variable, None, list, body)?;
                return Ok(());
            }
            let target = Target::Reference {
                name: variable,
                line: line_at(bound, *sign),
            };
            emit_elements(bound, cells, spot, draft, target, list, body)?;
            Ok(())
        }
        Stmt::Inspect {
            object,
            opening,
            body,
            otherwise,
            ..
        } => {
            draft.put(Instr::Tick, Line(0))?;
            emit_expr(bound, cells, spot, draft, 0, object)?;
            draft.push(1, Instr::Dup, Line(0))?;
            draft.push(2, Instr::None, Line(0))?;
            draft.put(Instr::Same, Line(0))?;
            draft.put(Instr::Not, Line(0))?;
            let jump = draft.here();
            draft.leave_hole()?;
            emit_connects(bound, cells, spot, draft, *opening, body)?;
            let over = draft.here();
            draft.leave_hole()?;
            let start = draft.place()?;
            emit_otherwise(bound, cells, spot, draft, otherwise)?;
            let end = draft.place()?;
            draft.fill_in(jump, Instr::JumpF(start));
            draft.fill_in(over, Instr::Jump(end));
            Ok(())
        }
        Stmt::InspectWhen {
            object,
            arms,
            otherwise,
            ..
        } => {
            draft.put(Instr::Tick, Line(0))?;
            emit_expr(bound, cells, spot, draft, 0, object)?;
            let overs = emit_arms(bound, cells, spot, draft, arms)?;
            emit_otherwise(bound, cells, spot, draft, otherwise)?;
            let end = draft.place()?;
            fill_all(draft, &overs, end);
            Ok(())
        }
        Stmt::Activation {
            token,
            activation,
            process,
            timing,
        } => {
            draft.put(Instr::Tick, Line(0))?;
            emit_activation(
                bound,
                cells,
                spot,
                draft,
                *token,
                *activation,
                process,
                timing,
            )?;
            Ok(())
        }
    }
}

/// Statements, one behind another.
#[cycle(emit)]
#[tactic(auto, using(crate::proofs::Statements::writes))]
pub(crate) fn emit_statements(
    bound: &Bound,
    cells: &Cells,
    spot: Spot,
    draft: &mut Draft,
    list: &[Stmt],
) -> Result<(), AllocError>
    requires cells { Known bound.now cells.now }
    ensures { OnOk result (WritesStatements bound.now spot draft.old draft.new list.now) }
{
    for item in list {
        emit_statement(bound, cells, spot, draft, item)?;
    }
    Ok(())
}

/// A compound statement, or the entry of a sub-block.
#[cycle(emit)]
#[tactic(auto, using(crate::proofs::Statements::writes))]
fn emit_block(
    bound: &Bound,
    cells: &Cells,
    spot: Spot,
    draft: &mut Draft,
    block: &Block,
) -> Result<(), AllocError>
    requires cells { Known bound.now cells.now }
    ensures { OnOk result (WritesBlock bound.now spot draft.old draft.new block.now) }
{
    if block.declarations.len() == 0 {
        emit_statements(bound, cells, spot, draft, &block.statements)?;
        return Ok(());
    }
    emit_entry(bound, cells, spot, draft, block)?;
    Ok(())
}

/// The instruction that enters a block.
fn enter(number: u32) -> Instr
    ensures { result ≡ i.Enter (pos number) }
{
    Instr::Enter(i64::from(number))
}

/// The entry of a sub-block.
#[tactic(auto, using(crate::proofs::Statements::writes))]
fn emit_entry(
    bound: &Bound,
    cells: &Cells,
    spot: Spot,
    draft: &mut Draft,
    block: &Block,
) -> Result<(), AllocError>
    requires cells { Known bound.now cells.now }
    requires sub_block { length block.now.declarations.items ≢ 0 }
    ensures { OnOk result (WritesBlock bound.now spot draft.old draft.new block.now) }
{
    let Some(text) = block_at(&bound.scopes, block.token) else {
        draft.give_up();
        return Ok(());
    };
    if text == 0 {
        draft.give_up();
        return Ok(());
    }
    if encloser(&bound.scopes, text) == Some(spot.text) {
        draft.put(
            enter(block_number(bound, cells, text)),
            line_at(bound, block.token),
        )?;
        return Ok(());
    }
    draft.give_up();
    Ok(())
}

/// An assignment behind its tick.
#[tactic(auto, using(crate::proofs::Statements::writes))]
fn emit_assignment(
    bound: &Bound,
    cells: &Cells,
    spot: Spot,
    draft: &mut Draft,
    left: &Expr,
    rest: &[Assigned],
) -> Result<(), AllocError>
    requires cells { Known bound.now cells.now }
    ensures { OnOk result (WritesAssignment bound.now spot draft.old draft.new left.now rest.now) }
{
    if rest.len() == 1 {
        let part = &rest[0];
        let side = Side {
            sign: part.sign,
            token: part.token,
            left,
        };
        emit_one(bound, cells, spot, draft, side, &part.value)?;
        return Ok(());
    }
    if rest.len() == 0 {
        draft.give_up();
        return Ok(());
    }
    emit_several(bound, cells, spot, draft, left, rest)?;
    Ok(())
}

/// A `for` statement behind its tick, over a variable that is no reference, with the line of its sign where a text is assigned to the
/// variable's.
#[cycle(emit)]
#[tactic(auto, using(crate::proofs::Statements::writes))]
pub(crate) fn emit_for(
    bound: &Bound,
    cells: &Cells,
    spot: Spot,
    draft: &mut Draft,
    variable: &Identifier,
    assigned: Option<Line>,
    elements: Elements,
    body: &Stmt,
) -> Result<(), AllocError>
    requires cells { Known bound.now cells.now }
    ensures { OnOk result (WritesFor bound.now spot draft.old draft.new variable.now (option_map line_in assigned) (in_list elements.entry) body.now) }
{
    match find_named(bound, cells, spot, variable, &[]) {
        Left::Cell { home, place } => {
            let target = Target::Cell {
                home,
                place,
                assigned,
            };
            emit_elements(bound, cells, spot, draft, target, elements, body)?;
            Ok(())
        }
        Left::Attribute => {
            let target = Target::Place {
                name: variable,
                assigned,
            };
            emit_elements(bound, cells, spot, draft, target, elements, body)?;
            Ok(())
        }
        Left::Element { .. } => {
            draft.give_up();
            Ok(())
        }
        Left::Text => {
            draft.give_up();
            Ok(())
        }
        Left::Result { .. } => {
            draft.give_up();
            Ok(())
        }
        Left::Reference => {
            draft.give_up();
            Ok(())
        }
        Left::Named(_) => {
            draft.give_up();
            Ok(())
        }
        Left::NamedText(_) => {
            draft.give_up();
            Ok(())
        }
        Left::NamedReference { .. } => {
            draft.give_up();
            Ok(())
        }
        Left::NoPlace => {
            draft.give_up();
            Ok(())
        }
    }
}

/// A list of elements over a variable.
#[cycle(emit)]
#[tactic(auto, using(crate::proofs::Statements::writes, crate::proofs::ForLists::lists))]
fn emit_elements(
    bound: &Bound,
    cells: &Cells,
    spot: Spot,
    draft: &mut Draft,
    target: Target,
    elements: Elements,
    body: &Stmt,
) -> Result<(), AllocError>
    requires cells { Known bound.now cells.now }
    ensures { OnOk result (WritesList bound.now spot draft.old draft.new target.entry (in_list elements.entry) body.now) }
{
    if count(elements) == 1 {
        let element = element_at(elements, 0);
        emit_element_of(bound, cells, spot, draft, target, element, body, None)?;
        return Ok(());
    }
    if count(elements) == 0 {
        draft.give_up();
        return Ok(());
    }
    if is_empty(body) {
        emit_each(bound, cells, spot, draft, target, elements, body)?;
        return Ok(());
    }
    emit_shared(bound, cells, spot, draft, target, elements, body)?;
    Ok(())
}

/// Elements that share a statement: the statement, the ways back, and the elements.
#[cycle(emit)]
#[tactic(auto, using(crate::proofs::Turns::turns))]
fn emit_shared(
    bound: &Bound,
    cells: &Cells,
    spot: Spot,
    draft: &mut Draft,
    target: Target,
    elements: Elements,
    body: &Stmt,
) -> Result<(), AllocError>
    requires cells { Known bound.now cells.now }
    requires several { 1 < length (in_list elements) }
    requires stands { is_empty_of (statement_syntax body.now) ≡ false }
    ensures { OnOk result (WritesList bound.now spot draft.old draft.new target.entry (in_list elements.entry) body.now) }
{
    draft.take_temp(spot.used)?;
    let over = draft.here();
    draft.leave_hole()?;
    let start = draft.here();
    emit_inside(bound, cells, spot, draft, body)?;
    let chain = draft.here();
    emit_returns(bound, spot, draft, elements)?;
    let first = draft.here();
    let jump = jump_to(first)?;
    draft.fill_in(over, jump);
    emit_turns(
        bound, cells, spot, draft, target, elements, body, start, chain,
    )?;
    Ok(())
}

/// The statement, where one temp more is in use.
#[cycle(emit)]
#[tactic(auto, using(crate::proofs::Turns::turns))]
fn emit_inside(
    bound: &Bound,
    cells: &Cells,
    spot: Spot,
    draft: &mut Draft,
    body: &Stmt,
) -> Result<(), AllocError>
    requires cells { Known bound.now cells.now }
    ensures { OnOk result (WritesInside bound.now spot draft.old draft.new body.now) }
{
    let used = deeper(spot.used)?;
    let inner = Spot {
        text: spot.text,
        temps: spot.temps,
        used,
    };
    emit_statement(bound, cells, inner, draft, body)?;
    Ok(())
}

/// Elements whose turns go to a shared statement. Behind it, from `chain` on, stand the ways back.
#[cycle(emit)]
fn emit_turns(
    bound: &Bound,
    cells: &Cells,
    spot: Spot,
    draft: &mut Draft,
    target: Target,
    elements: Elements,
    body: &Stmt,
    start: usize,
    chain: usize,
) -> Result<(), AllocError>
    requires cells { Known bound.now cells.now }
    requires some { 0 < length (in_list elements) }
    ensures { OnOk result (WritesTurns bound.now spot draft.old draft.new target.entry (in_list elements.entry) start chain 0) }
{
    let last = count(elements) - 1;
    for number in 0..last {
        let hole = hole_at(chain, number, 4)?;
        let element = element_at(elements, number);
        let turn = Shared { start, number };
        emit_turn_at(bound, cells, spot, draft, target, element, body, turn, hole)?;
    }
    let hole = hole_at(chain, last, 0)?;
    let element = element_at(elements, last);
    let turn = Shared {
        start,
        number: last,
    };
    emit_turn_at(bound, cells, spot, draft, target, element, body, turn, hole)?;
    Ok(())
}

/// An element whose turns go to a shared statement, and the jump back to it.
#[cycle(emit)]
#[tactic(auto, using(crate::proofs::Turns::turns))]
fn emit_turn_at(
    bound: &Bound,
    cells: &Cells,
    spot: Spot,
    draft: &mut Draft,
    target: Target,
    element: Element,
    body: &Stmt,
    turn: Shared,
    hole: usize,
) -> Result<(), AllocError>
    requires cells { Known bound.now cells.now }
    ensures { OnOk result (PutsTurn bound.now spot draft.old draft.new target.entry (view_syntax element.entry) turn.start turn.number hole) }
{
    let on = emit_element_of(bound, cells, spot, draft, target, element, body, Some(turn))?;
    let jump = jump_to(on)?;
    draft.fill_in(hole, jump);
    Ok(())
}

/// Elements, each with the statement.
#[cycle(emit)]
#[tactic(auto, using(crate::proofs::Statements::writes))]
fn emit_each(
    bound: &Bound,
    cells: &Cells,
    spot: Spot,
    draft: &mut Draft,
    target: Target,
    elements: Elements,
    body: &Stmt,
) -> Result<(), AllocError>
    requires cells { Known bound.now cells.now }
    ensures { OnOk result (WritesEach bound.now spot draft.old draft.new target.entry (in_list elements.entry) body.now) }
{
    for index in 0..count(elements) {
        let element = element_at(elements, index);
        emit_element_of(bound, cells, spot, draft, target, element, body, None)?;
    }
    Ok(())
}

/// The turn of an element: the statement, or what goes to it where it is shared. The answer is the place behind it.
#[cycle(emit)]
#[tactic(auto, using(crate::proofs::Statements::writes))]
fn emit_turn(
    bound: &Bound,
    cells: &Cells,
    spot: Spot,
    draft: &mut Draft,
    body: &Stmt,
    shared: Option<Shared>,
) -> Result<usize, AllocError>
    requires cells { Known bound.now cells.now }
    ensures { IfOk result (λ on. WritesTurn bound.now spot draft.old draft.new body.now shared on) }
{
    match shared {
        None => {
            emit_statement(bound, cells, spot, draft, body)?;
            Ok(draft.here())
        }
        Some(turn) => {
            emit_sent(bound, spot, draft, turn)?;
            Ok(draft.here())
        }
    }
}

/// One element with its turns. The answer is the place where a turn goes on.
#[cycle(emit)]
#[tactic(auto, using(crate::proofs::Statements::writes))]
fn emit_element_of(
    bound: &Bound,
    cells: &Cells,
    spot: Spot,
    draft: &mut Draft,
    target: Target,
    element: Element,
    body: &Stmt,
    shared: Option<Shared>,
) -> Result<usize, AllocError>
    requires cells { Known bound.now cells.now }
    ensures { IfOk result (λ on. WritesElementOf bound.now spot draft.old draft.new target.entry (view_syntax element.entry) body.now shared on) }
{
    match element {
        Element::Once { value } => {
            draft.put(Instr::Tick, Line(0))?;
            emit_given(bound, cells, spot, draft, target, value)?;
            let on = emit_turn(bound, cells, spot, draft, body, shared)?;
            Ok(on)
        }
        Element::While {
            value,
            condition,
            ..
        } => {
            let start = draft.place()?;
            draft.put(Instr::Tick, Line(0))?;
            emit_given(bound, cells, spot, draft, target, value)?;
            emit_expr(bound, cells, spot, draft, 0, condition)?;
            let jump = draft.here();
            draft.leave_hole()?;
            let on = emit_turn(bound, cells, spot, draft, body, shared)?;
            draft.put(Instr::Jump(start), Line(0))?;
            let end = draft.place()?;
            draft.fill_in(jump, Instr::JumpF(end));
            Ok(on)
        }
        Element::Step {
            start: first,
            token,
            step,
            limit,
        } => {
            if !takes_values(target) {
                draft.give_up();
                return Ok(draft.here());
            }
            emit_expr(bound, cells, spot, draft, 0, first)?;
            emit_stored(bound, cells, spot, draft, 0, target)?;
            emit_expr(bound, cells, spot, draft, 0, step)?;
            let test = draft.place()?;
            draft.put(Instr::Tick, Line(0))?;
            emit_loaded(bound, cells, spot, draft, 1, target)?;
            emit_expr(bound, cells, spot, draft, 2, limit)?;
            draft.put(Instr::StepTest, Line(0))?;
            let jump = draft.here();
            draft.leave_hole()?;
            let on = emit_turn(bound, cells, spot, draft, body, shared)?;
            emit_expr(bound, cells, spot, draft, 0, step)?;
            draft.push(1, Instr::Dup, Line(0))?;
            emit_loaded(bound, cells, spot, draft, 2, target)?;
            draft.put(Instr::Add, line_at(bound, token))?;
            emit_stored(bound, cells, spot, draft, 1, target)?;
            draft.put(Instr::Jump(test), Line(0))?;
            let end = draft.place()?;
            draft.fill_in(jump, Instr::JumpF(end));
            Ok(on)
        }
    }
}
