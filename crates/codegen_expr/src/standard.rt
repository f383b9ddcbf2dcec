//! Standard names with their operands.
ghost use Rattle.codegen_expr.specs.Emit.{WritesAlone, WritesBehind, WritesStandard};
ghost use Rattle.codegen_expr.specs.Known.{Known};
ghost use Rattle.std.specs.Prelude.{OnOk};

use crate::cells::Cells;
use crate::draft::{Draft, deeper};
use crate::instructions::standard_instr;
use crate::leaves::emit_image;
use crate::lookups::line_at;
use crate::names::{OnImage, on_image, standard_code};
use crate::operands::emit_list;
use crate::spot::Spot;
use sim_base::{Line, TokenNo};
use sim_code::Instr;
use sim_scope::{Bound, StandardName};
use sim_tree::Expr;
use std::alloc::AllocError;

/// A standard name with its operands, where that of both images is done on this one: 0 of sysin, 1 of sysout. The token is that of the
/// identifier.
#[cycle(emit)]
#[tactic(auto, using(crate::proofs::Behind::behind))]
pub fn emit_standard(
    bound: &Bound,
    cells: &Cells,
    spot: Spot,
    draft: &mut Draft,
    depth: u32,
    image: u32,
    token: TokenNo,
    name: StandardName,
    operands: &[Expr],
) -> Result<(), AllocError>
    requires cells { Known bound.now cells.now }
    ensures { OnOk result (WritesStandard bound.now spot depth draft.old draft.new image token name operands.now) }
{
    match on_image(name) {
        OnImage::Itself => {
            if operands.len() == 0 {
                emit_image(spot, draft, depth, image)?;
                return draft.put(Instr::Fetch, Line(0));
            }
            draft.give_up();
            Ok(())
        }
        OnImage::OfText(other) => {
            emit_image(spot, draft, depth, image)?;
            emit_behind(bound, cells, spot, draft, depth, token, other, operands)
        }
        OnImage::Nothing => emit_alone(bound, cells, spot, draft, depth, token, name, operands),
    }
}

/// A standard name that is done by itself, with its operands. The token is that of the identifier.
#[cycle(emit)]
#[tactic(auto, using(crate::proofs::Behind::behind))]
fn emit_alone(
    bound: &Bound,
    cells: &Cells,
    spot: Spot,
    draft: &mut Draft,
    depth: u32,
    token: TokenNo,
    name: StandardName,
    operands: &[Expr],
) -> Result<(), AllocError>
    requires cells { Known bound.now cells.now }
    ensures { OnOk result (WritesAlone bound.now spot depth draft.old draft.new token name operands.now) }
{
    let Some(row) = standard_code(name) else {
        draft.give_up();
        return Ok(());
    };
    if operands.len() != row.operands {
        draft.give_up();
        return Ok(());
    }
    emit_list(bound, cells, spot, draft, depth, operands)?;
    draft.push(depth, standard_instr(row.number), line_at(bound, token))
}

/// A name of texts behind its text, which is on the stack, with its further operands. The token is that of the identifier.
#[cycle(emit)]
#[tactic(auto, using(crate::proofs::Behind::behind))]
pub(crate) fn emit_behind(
    bound: &Bound,
    cells: &Cells,
    spot: Spot,
    draft: &mut Draft,
    depth: u32,
    token: TokenNo,
    name: StandardName,
    operands: &[Expr],
) -> Result<(), AllocError>
    requires cells { Known bound.now cells.now }
    ensures { OnOk result (WritesBehind bound.now spot depth draft.old draft.new token name operands.now) }
{
    let Some(row) = standard_code(name) else {
        draft.give_up();
        return Ok(());
    };
    if row.operands == 0 {
        draft.give_up();
        return Ok(());
    }
    if operands.len() != row.operands - 1 {
        draft.give_up();
        return Ok(());
    }
    let inside = deeper(depth)?;
    emit_list(bound, cells, spot, draft, inside, operands)?;
    draft.push(depth, standard_instr(row.number), line_at(bound, token))
}
