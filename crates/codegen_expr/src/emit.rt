//! Expressions, from the tree to instructions.
ghost use Rattle.codegen_expr.specs.Emit.{Writes};
ghost use Rattle.codegen_expr.specs.Known.{Known};
ghost use Rattle.std.specs.Prelude.{OnOk};

use crate::calls::emit_operand_named;
use crate::cells::Cells;
use crate::dots::moves_at;
use crate::draft::Draft;
use crate::instructions::character_instr;
use crate::leaves::{emit_member, emit_sign, emit_text, emit_this};
use crate::lookups::is_text;
use crate::objects::emit_new;
use crate::operands::{emit_factors, emit_not, emit_operand, emit_operands, emit_terms};
use crate::selectors::{emit_end, emit_start, emit_steps};
use crate::spot::Spot;
use sim_base::Line;
use sim_code::Instr;
use sim_scope::Bound;
use sim_tree::{Expr, Operator};
use std::alloc::AllocError;

/// Writes the code of an expression, which stands on so many values and leaves one more. The draft stops being whole where something
/// has no code. The depth must stay below 2^32.
#[cycle(emit)]
#[tactic(auto, using(crate::proofs::Written::writes))]
pub fn emit_expr(
    bound: &Bound,
    cells: &Cells,
    spot: Spot,
    draft: &mut Draft,
    depth: u32,
    expr: &Expr,
) -> Result<(), AllocError>
    requires cells { Known bound.now cells.now }
    ensures { OnOk result (Writes bound.now spot depth draft.old draft.new expr.now) }
{
    match expr {
        Expr::If {
            condition,
            first,
            second,
            ..
        } => {
            emit_expr(bound, cells, spot, draft, depth, condition)?;
            let jump = draft.here();
            draft.leave_hole()?;
            emit_expr(bound, cells, spot, draft, depth, first)?;
            let over = draft.here();
            draft.leave_hole()?;
            let start = draft.place()?;
            emit_expr(bound, cells, spot, draft, depth, second)?;
            let end = draft.place()?;
            draft.fill_in(jump, Instr::JumpF(start));
            draft.fill_in(over, Instr::Jump(end));
            Ok(())
        }
        Expr::OrElse { first, rest } => {
            emit_expr(bound, cells, spot, draft, depth, first)?;
            emit_operands(bound, cells, spot, draft, depth, Operator::OrElse, rest)
        }
        Expr::AndThen { first, rest } => {
            emit_expr(bound, cells, spot, draft, depth, first)?;
            emit_operands(bound, cells, spot, draft, depth, Operator::AndThen, rest)
        }
        Expr::Eqv { first, rest } => {
            emit_expr(bound, cells, spot, draft, depth, first)?;
            emit_operands(bound, cells, spot, draft, depth, Operator::Equivalent, rest)
        }
        Expr::Imp { first, rest } => {
            emit_expr(bound, cells, spot, draft, depth, first)?;
            emit_operands(bound, cells, spot, draft, depth, Operator::Implies, rest)
        }
        Expr::Or { first, rest } => {
            emit_expr(bound, cells, spot, draft, depth, first)?;
            emit_operands(bound, cells, spot, draft, depth, Operator::Or, rest)
        }
        Expr::And { first, rest } => {
            emit_expr(bound, cells, spot, draft, depth, first)?;
            emit_operands(bound, cells, spot, draft, depth, Operator::And, rest)
        }
        Expr::Not { tokens, operand } => {
            emit_not(bound, cells, spot, draft, depth, tokens, operand)
        }
        Expr::Related {
            left,
            token,
            relation,
            right,
        } => {
            emit_expr(bound, cells, spot, draft, depth, left)?;
            let texts = is_text(bound, left);
            emit_operand(
                bound,
                cells,
                spot,
                draft,
                depth,
                texts,
                Operator::Relate(*relation),
                *token,
                right,
            )
        }
        Expr::Concatenation { first, rest } => {
            emit_expr(bound, cells, spot, draft, depth, first)?;
            emit_operands(
                bound,
                cells,
                spot,
                draft,
                depth,
                Operator::Concatenate,
                rest,
            )
        }
        Expr::Sum { sign, first, rest } => match sign {
            Some(sign) => {
                emit_expr(bound, cells, spot, draft, depth, first)?;
                emit_sign(bound, cells, spot, draft, depth, sign.sign, sign.token)?;
                emit_terms(bound, cells, spot, draft, depth, rest)
            }
            None => {
                emit_expr(bound, cells, spot, draft, depth, first)?;
                emit_terms(bound, cells, spot, draft, depth, rest)
            }
        },
        Expr::Product { first, rest } => {
            emit_expr(bound, cells, spot, draft, depth, first)?;
            emit_factors(bound, cells, spot, draft, depth, rest)
        }
        Expr::Power { first, rest } => {
            emit_expr(bound, cells, spot, draft, depth, first)?;
            emit_operands(bound, cells, spot, draft, depth, Operator::Power, rest)
        }
        Expr::Postfix { primary, rest } => {
            if rest.len() == 0 {
                return emit_expr(bound, cells, spot, draft, depth, primary);
            }
            let moves = moves_at(bound, rest, 0);
            let object = emit_start(bound, cells, spot, draft, depth, moves, primary)?;
            let taken = emit_steps(bound, cells, spot, draft, depth, object, rest)?;
            emit_end(bound, cells, spot, draft, depth, taken, rest)
        }
        Expr::Integer { value, .. } => draft.push(depth, Instr::Int(*value), Line(0)),
        Expr::Character { value, .. } => draft.push(depth, character_instr(*value), Line(0)),
        Expr::True { .. } => draft.push(depth, Instr::Bool(1), Line(0)),
        Expr::False { .. } => draft.push(depth, Instr::Bool(0), Line(0)),
        Expr::Named { name, arguments } => {
            emit_operand_named(bound, cells, spot, draft, depth, name, arguments)
        }
        Expr::Parentheses { inner, .. } => emit_expr(bound, cells, spot, draft, depth, inner),
        Expr::Member {
            object,
            membership,
            class,
            ..
        } => {
            emit_expr(bound, cells, spot, draft, depth, object)?;
            emit_member(bound, cells, spot, draft, depth, *membership, class.token)
        }
        Expr::Text { token, .. } => emit_text(bound, cells, spot, draft, depth, *token),
        Expr::NoObject { .. } => draft.push(depth, Instr::None, Line(0)),
        Expr::Notext { .. } => draft.push(depth, Instr::NoText, Line(0)),
        Expr::This { token, .. } => emit_this(bound, cells, spot, draft, depth, *token),
        Expr::New {
            token,
            class,
            arguments,
        } => emit_new(bound, cells, spot, draft, depth, *token, class, arguments),
    }
}
