//! Prefixed blocks.
ghost use Rattle.std.specs.Prelude.{◌≡◌, IfOk, OnOk, length, pos};
ghost use Rattle.sim_code.specs.declared.instr.Instr.TheVariants as i;
ghost use Rattle.sim_scope.specs.Source.{source_of};
ghost use Rattle.codegen_expr.specs.Known.{Known};
ghost use Rattle.codegen.specs.Agrees.{is_prefixed as is_prefixed_of, is_prefixed_kind as is_prefixed_kind_of};
ghost use Rattle.codegen.specs.Emit.{WritesPrefix, WritesPrefixed};

use codegen_expr::{Cells, Draft, Spot, block_number, class_parameters, emit_actuals, line_at};
use sim_base::TokenNo;
use sim_code::Instr;
use sim_scope::{BlockKind, Bound, Scopes, block_at, encloser};
use sim_tree::{Expr, Identifier};
use std::alloc::AllocError;

/// The instruction that enters a prefixed block with so many actual parameters.
fn prefix_instr(block: u32, actuals: usize) -> Result<Instr, AllocError>
    ensures { IfOk result (λ x. x ≡ i.Pref (pos block) (pos actuals)) }
{
    let values = i64::try_from(actuals).map_err(|_| AllocError)?;
    Ok(Instr::Pref {
        block: i64::from(block),
        values,
    })
}

fn is_prefixed_kind(kind: BlockKind) -> bool
    ensures { result ≡ is_prefixed_kind_of kind }
{
    match kind {
        BlockKind::Program => false,
        BlockKind::SubBlock => false,
        BlockKind::Procedure => false,
        BlockKind::Class => false,
        BlockKind::Prefixed => true,
        BlockKind::Connection => false,
        BlockKind::StandardClass(_) => false,
    }
}

/// Whether a text is a block with a prefix.
#[tactic(auto, unfolding(crate::specs::Agrees::is_prefixed, sim_scope::specs::Access::is_kind))]
fn is_prefixed(scopes: &Scopes, text: u32) -> bool
    ensures { result ≡ is_prefixed_of scopes.now text }
{
    match scopes.blocks().get(text as usize) {
        Some(block) => is_prefixed_kind(block.kind()),
        None => false,
    }
}

/// The actual parameters of a prefixed block, and its entry. The class is that of the prefix.
#[tactic(auto, using(crate::proofs::BlockPrefixes::prefixes))]
fn emit_prefix(
    bound: &Bound,
    cells: &Cells,
    spot: Spot,
    draft: &mut Draft,
    class: &Identifier,
    arguments: &[Expr],
    text: u32,
) -> Result<(), AllocError>
    requires cells { Known bound.now cells.now }
    ensures { OnOk result (WritesPrefix bound.now spot draft.old draft.new class.now arguments.now text) }
{
    let formals = class_parameters(bound, cells, Some(text));
    emit_actuals(
        bound,
        cells,
        spot,
        draft,
        0,
        true,
        class.token,
        arguments,
        formals,
    )?;
    let block = block_number(bound, cells, text);
    draft.put(
        prefix_instr(block, arguments.len())?,
        line_at(bound, class.token),
    )?;
    Ok(())
}

/// A prefixed block behind its tick. The token is the one with which the block begins.
#[tactic(auto, using(crate::proofs::BlockPrefixes::prefixes))]
pub(crate) fn emit_prefixed(
    bound: &Bound,
    cells: &Cells,
    spot: Spot,
    draft: &mut Draft,
    class: &Identifier,
    arguments: &[Expr],
    token: TokenNo,
) -> Result<(), AllocError>
    requires cells { Known bound.now cells.now }
    ensures { OnOk result (WritesPrefixed bound.now spot draft.old draft.new class.now arguments.now token) }
{
    let Some(text) = block_at(&bound.scopes, token) else {
        draft.give_up();
        return Ok(());
    };
    if text == 0 {
        draft.give_up();
        return Ok(());
    }
    if !is_prefixed(&bound.scopes, text) {
        draft.give_up();
        return Ok(());
    }
    if encloser(&bound.scopes, text) == Some(spot.text) {
        emit_prefix(bound, cells, spot, draft, class, arguments, text)?;
        return Ok(());
    }
    draft.give_up();
    Ok(())
}
