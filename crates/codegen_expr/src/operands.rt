//! Operands behind a first one, and expressions one after the other.
ghost use Rattle.codegen_expr.specs.Emit.{WritesList, WritesNot, WritesOperand, WritesOperands, WritesTails};
ghost use Rattle.codegen_expr.specs.Known.{Known};
ghost use Rattle.sim_tree.specs.SyntaxOf.{factor_syntax, term_syntax};
ghost use Rattle.std.specs.Prelude.{OnOk, map};

use crate::cells::Cells;
use crate::draft::{Draft, deeper};
use crate::emit::emit_expr;
use crate::joining::emit_join;
use crate::lookups::line_at;
use crate::operators::{Sorted, sort_out};
use crate::spot::Spot;
use sim_base::{Line, TokenNo};
use sim_code::Instr;
use sim_scope::Bound;
use sim_tree::{Expr, Factor, Operand, Operator, Term};
use std::alloc::AllocError;

/// An operator of two operands and the second of them.
#[cycle(emit)]
#[tactic(auto, using(crate::proofs::Written::second_operands))]
pub(crate) fn emit_operand(
    bound: &Bound,
    cells: &Cells,
    spot: Spot,
    draft: &mut Draft,
    depth: u32,
    texts: bool,
    operator: Operator,
    token: TokenNo,
    operand: &Expr,
) -> Result<(), AllocError>
    requires cells { Known bound.now cells.now }
    ensures { OnOk result (WritesOperand bound.now spot depth draft.old draft.new texts operator token operand.now) }
{
    match sort_out(texts, operator) {
        Sorted::Plain(instr) => {
            let inside = deeper(depth)?;
            emit_expr(bound, cells, spot, draft, inside, operand)?;
            draft.put(instr, line_at(bound, token))
        }
        Sorted::Negated(instr) => {
            let inside = deeper(depth)?;
            emit_expr(bound, cells, spot, draft, inside, operand)?;
            draft.put(instr, line_at(bound, token))?;
            draft.put(Instr::Not, line_at(bound, token))
        }
        Sorted::OrElse => {
            let jump = draft.here();
            draft.leave_hole()?;
            draft.push(depth, Instr::Bool(1), Line(0))?;
            let over = draft.here();
            draft.leave_hole()?;
            let start = draft.place()?;
            emit_expr(bound, cells, spot, draft, depth, operand)?;
            let end = draft.place()?;
            draft.fill_in(jump, Instr::JumpF(start));
            draft.fill_in(over, Instr::Jump(end));
            Ok(())
        }
        Sorted::AndThen => {
            let jump = draft.here();
            draft.leave_hole()?;
            emit_expr(bound, cells, spot, draft, depth, operand)?;
            let over = draft.here();
            draft.leave_hole()?;
            let start = draft.place()?;
            draft.push(depth, Instr::Bool(0), Line(0))?;
            let end = draft.place()?;
            draft.fill_in(jump, Instr::JumpF(start));
            draft.fill_in(over, Instr::Jump(end));
            Ok(())
        }
        Sorted::Joined => {
            let inside = deeper(depth)?;
            emit_expr(bound, cells, spot, draft, inside, operand)?;
            emit_join(bound, spot, draft, depth, token)
        }
    }
}

/// Further operands behind a first one, with one operator, which is no relation.
#[cycle(emit)]
pub(crate) fn emit_operands(
    bound: &Bound,
    cells: &Cells,
    spot: Spot,
    draft: &mut Draft,
    depth: u32,
    operator: Operator,
    rest: &[Operand],
) -> Result<(), AllocError>
    requires cells { Known bound.now cells.now }
    ensures { OnOk result (WritesOperands bound.now spot depth draft.old draft.new operator rest.now) }
{
    for item in rest {
        emit_operand(
            bound,
            cells,
            spot,
            draft,
            depth,
            false,
            operator,
            item.token,
            &item.operand,
        )?;
    }
    Ok(())
}

/// Further terms of a sum.
#[cycle(emit)]
pub(crate) fn emit_terms(
    bound: &Bound,
    cells: &Cells,
    spot: Spot,
    draft: &mut Draft,
    depth: u32,
    rest: &[Term],
) -> Result<(), AllocError>
    requires cells { Known bound.now cells.now }
    ensures { OnOk result (WritesTails bound.now spot depth draft.old draft.new (map term_syntax rest.now)) }
{
    for item in rest {
        emit_operand(
            bound,
            cells,
            spot,
            draft,
            depth,
            false,
            Operator::Add(item.sign),
            item.token,
            &item.term,
        )?;
    }
    Ok(())
}

/// Further factors of a product.
#[cycle(emit)]
pub(crate) fn emit_factors(
    bound: &Bound,
    cells: &Cells,
    spot: Spot,
    draft: &mut Draft,
    depth: u32,
    rest: &[Factor],
) -> Result<(), AllocError>
    requires cells { Known bound.now cells.now }
    ensures { OnOk result (WritesTails bound.now spot depth draft.old draft.new (map factor_syntax rest.now)) }
{
    for item in rest {
        emit_operand(
            bound,
            cells,
            spot,
            draft,
            depth,
            false,
            Operator::Multiply(item.operator),
            item.token,
            &item.factor,
        )?;
    }
    Ok(())
}

/// An operand behind one `not` or several.
#[cycle(emit)]
pub(crate) fn emit_not(
    bound: &Bound,
    cells: &Cells,
    spot: Spot,
    draft: &mut Draft,
    depth: u32,
    tokens: &[TokenNo],
    expr: &Expr,
) -> Result<(), AllocError>
    requires cells { Known bound.now cells.now }
    ensures { OnOk result (WritesNot bound.now spot depth draft.old draft.new tokens.now expr.now) }
{
    emit_expr(bound, cells, spot, draft, depth, expr)?;
    for done in 0..tokens.len() {
        let token = tokens[tokens.len() - 1 - done];
        draft.put(Instr::Not, line_at(bound, token))?;
    }
    Ok(())
}

/// Expressions, one value after the other.
#[cycle(emit)]
pub fn emit_list(
    bound: &Bound,
    cells: &Cells,
    spot: Spot,
    draft: &mut Draft,
    depth: u32,
    list: &[Expr],
) -> Result<(), AllocError>
    requires cells { Known bound.now cells.now }
    ensures { OnOk result (WritesList bound.now spot depth draft.old draft.new list.now) }
{
    let mut inside = depth;
    for item in list {
        emit_expr(bound, cells, spot, draft, inside, item)?;
        inside = deeper(inside)?;
    }
    Ok(())
}
