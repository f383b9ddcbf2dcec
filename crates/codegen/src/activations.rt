//! Activations.
ghost use Rattle.std.specs.Prelude.{◌≡◌, ◌<◌, OnOk, length, pos};
ghost use Rattle.sim_code.specs.declared.instr.Instr.TheVariants as i;
ghost use Rattle.sim_meaning.specs.Statements.{is_again, simulation_around as simulation_around_of, timing as timing_of};
ghost use Rattle.sim_scope.specs.Source.{source_of};
ghost use Rattle.sim_scope.specs.Statements.{simulation_of as simulation_of_block};
ghost use Rattle.sim_tree.specs.SyntaxOfProgram.{schedule_syntax};
ghost use Rattle.codegen_expr.specs.Known.{Known};
ghost use Rattle.codegen.specs.CodeStm.{activation_number, timing_number as timing_number_of};
ghost use Rattle.codegen.specs.EmitActivations.{WritesActivation, WritesOperand};

use codegen_expr::{Cells, Draft, Spot, emit_expr, emit_link_to, line_at};
use sim_base::TokenNo;
use sim_code::Instr;
use sim_scope::{Bound, Scopes, block_at, first_around, simulation_level};
use sim_tree::{Activation, Expr, Timing};
use std::alloc::AllocError;

/// The level of `simulation` of the innermost block, from one outward, that has one.
fn simulation_of(scopes: &Scopes, block: u32) -> Option<u32>
    ensures { result ≡ simulation_of_block scopes.now (length scopes.now.blocks) block }
{
    first_around(scopes, block, |b| simulation_level(scopes, b))
}

/// The level of the nearest simulation around a token.
#[tactic(auto, using(crate::proofs::Activated::simulations))]
fn simulation_around(bound: &Bound, token: TokenNo) -> Option<u32>
    ensures { result ≡ simulation_around_of (source_of bound.now) token.0 }
{
    match block_at(&bound.scopes, token) {
        Some(block) => simulation_of(&bound.scopes, block),
        None => None,
    }
}

/// The number of a timing; that of a time or a delay with `prior` is one more.
fn timing_number(timing: &Option<Timing>) -> u32
    ensures is { result ≡ timing_number_of (timing_of (schedule_syntax timing.now)) }
    ensures small { result < 8 }
{
    match timing {
        None => 0,
        Some(Timing::At { prior: None, .. }) => 1,
        Some(Timing::At { prior: Some(_), .. }) => 2,
        Some(Timing::Delay { prior: None, .. }) => 3,
        Some(Timing::Delay { prior: Some(_), .. }) => 4,
        Some(Timing::Before { .. }) => 5,
        Some(Timing::After { .. }) => 6,
    }
}

/// The instruction of an activation.
fn activation_instr(word: Activation, timing: &Option<Timing>) -> Instr
    ensures { result ≡ i.Act (pos (activation_number (is_again word) (timing_of (schedule_syntax timing.now)))) }
{
    let number = timing_number(timing);
    match word {
        Activation::Activate => Instr::Act(i64::from(number)),
        Activation::Reactivate => Instr::Act(i64::from(number + 8)),
    }
}

/// The operand of a timing, if it has one: a time, a delay or another process.
#[tactic(auto, using(crate::proofs::Activated::operands))]
fn emit_operand(
    bound: &Bound,
    cells: &Cells,
    spot: Spot,
    draft: &mut Draft,
    timing: &Option<Timing>,
) -> Result<(), AllocError>
    requires cells { Known bound.now cells.now }
    ensures { OnOk result (WritesOperand bound.now spot draft.old draft.new timing.now) }
{
    match timing {
        None => Ok(()),
        Some(Timing::At { time, .. }) => emit_expr(bound, cells, spot, draft, 2, time),
        Some(Timing::Delay { time, .. }) => emit_expr(bound, cells, spot, draft, 2, time),
        Some(Timing::Before { process, .. }) => { emit_expr(bound, cells, spot, draft, 2, process) }
        Some(Timing::After { process, .. }) => { emit_expr(bound, cells, spot, draft, 2, process) }
    }
}

/// An activation behind its tick: the link to the simulation block, the process and the operand. The token is that of the word.
#[tactic(auto, using(crate::proofs::Activated::activations))]
pub(crate) fn emit_activation(
    bound: &Bound,
    cells: &Cells,
    spot: Spot,
    draft: &mut Draft,
    token: TokenNo,
    word: Activation,
    process: &Expr,
    timing: &Option<Timing>,
) -> Result<(), AllocError>
    requires cells { Known bound.now cells.now }
    ensures { OnOk result (WritesActivation bound.now spot draft.old draft.new token word process.now timing.now) }
{
    let Some(text) = simulation_around(bound, token) else {
        draft.give_up();
        return Ok(());
    };
    emit_link_to(bound, spot, draft, 0, text)?;
    emit_expr(bound, cells, spot, draft, 1, process)?;
    emit_operand(bound, cells, spot, draft, timing)?;
    draft.put(activation_instr(word, timing), line_at(bound, token))?;
    Ok(())
}
