//! The code of `&`.
ghost use Rattle.std.specs.Prelude.{◌≡◌, OnOk};
ghost use Rattle.codegen_expr.specs.CodeExpr.{joined_in};
ghost use Rattle.codegen_expr.specs.Drafts.{with_instr};
ghost use Rattle.codegen_expr.specs.Emit.{WritesAll, WritesJoin};

use crate::draft::{Draft, deeper};
use crate::instructions::{load_instr, store_instr};
use crate::lookups::{level_of, line_at};
use crate::spot::Spot;
use sim_base::{Line, TokenNo};
use sim_code::Instr;
use sim_scope::Bound;
use std::alloc::AllocError;

/// The instructions that join two texts on the operand stack, in three temps.
fn join_instrs(level: u32, left: u32, right: u32, new: u32) -> [Instr; 31]
    ensures { result ≡ joined_in level left right new }
{
    [
        store_instr(level, right),
        store_instr(level, left),
        load_instr(level, left),
        load_instr(level, right),
        Instr::SameT,
        Instr::Pop,
        load_instr(level, left),
        Instr::Std(20),
        load_instr(level, right),
        Instr::Std(20),
        Instr::Add,
        Instr::Dup,
        Instr::Int(1),
        Instr::Add,
        Instr::Pop,
        Instr::Std(14),
        store_instr(level, new),
        load_instr(level, new),
        load_instr(level, left),
        Instr::AssignT,
        load_instr(level, new),
        load_instr(level, left),
        Instr::Std(20),
        Instr::Int(1),
        Instr::Add,
        load_instr(level, right),
        Instr::Std(20),
        Instr::Std(27),
        load_instr(level, right),
        Instr::AssignT,
        load_instr(level, new),
    ]
}

/// One instruction.
fn put_one(draft: &mut Draft, instr: &Instr, line: Line) -> Result<(), AllocError>
    ensures { OnOk result (draft.new ≡ with_instr draft.old instr.now line.0) }
{
    draft.put(*instr, line)?;
    Ok(())
}

/// Instructions, one behind another, all with one line.
#[tactic(auto, using(crate::proofs::Joins::joins))]
fn emit_all(spot: Spot, draft: &mut Draft, instrs: &[Instr], line: Line) -> Result<(), AllocError>
    ensures { OnOk result (WritesAll spot draft.old draft.new instrs.now line.0) }
{
    for item in instrs {
        put_one(draft, item, line)?;
    }
    Ok(())
}

/// What joins two texts on the operand stack, which stand on so many values. The token is that of the operator.
#[tactic(auto, using(crate::proofs::Joins::joins))]
pub(crate) fn emit_join(
    bound: &Bound,
    spot: Spot,
    draft: &mut Draft,
    depth: u32,
    token: TokenNo,
) -> Result<(), AllocError>
    ensures { OnOk result (WritesJoin bound.now spot depth draft.old draft.new token) }
{
    let right = deeper(spot.temps)?;
    let new = deeper(right)?;
    let inside = deeper(depth)?;
    let above = deeper(inside)?;
    draft.take_temp(new)?;
    draft.make_room(above)?;
    let level = level_of(bound, spot.text);
    let instrs = join_instrs(level, spot.temps, right, new);
    emit_all(spot, draft, &instrs, line_at(bound, token))?;
    Ok(())
}
