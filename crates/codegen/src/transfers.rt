//! Transfers of control: `detach`, `call` and `resume`.
ghost use Rattle.std.specs.Prelude.{OnOk};
ghost use Rattle.codegen_expr.specs.Known.{Known};
ghost use Rattle.codegen.specs.EmitTransfers.{FindsTransfer, WritesDetach, WritesDetachBehind, WritesTransfer};

use codegen_expr::{Cells, Draft, Object, Spot, emit_list, emit_this, line_at};
use sim_base::TokenNo;
use sim_code::Instr;
use sim_scope::{Bound, Denotation, StandardName};
use sim_tree::{Expr, Identifier};
use sim_values::Standard;
use std::alloc::AllocError;

/// By which word control is transferred.
#[derive(Clone, Copy)]
pub(crate) enum Transfer {
    /// By `detach`, which has no actual parameter.
    Detaching,
    /// By `call`, whose actual parameter is the object.
    Calling,
    /// By `resume`, whose actual parameter is the object.
    Resuming,
}

/// By which word control is transferred, where what is denoted is one of these.
#[tactic(auto, unfolding(crate::specs::EmitTransfers::FindsTransfer))]
pub(crate) fn transfer_denoted(denotation: Option<Denotation>) -> Option<Transfer>
    ensures { FindsTransfer result denotation }
{
    match denotation {
        Some(Denotation::Standard(StandardName::Procedure(Standard::Detach))) => {
            Some(Transfer::Detaching)
        }
        Some(Denotation::Standard(StandardName::Procedure(Standard::Call))) => {
            Some(Transfer::Calling)
        }
        Some(Denotation::Standard(StandardName::Procedure(Standard::Resume))) => {
            Some(Transfer::Resuming)
        }
        _ => None,
    }
}

/// `detach` of the object on top, which must be there. The token is that of the identifier.
#[tactic(auto, using(crate::proofs::TransferCalls::transfers))]
fn emit_detach(
    bound: &Bound,
    spot: Spot,
    draft: &mut Draft,
    token: TokenNo,
) -> Result<(), AllocError>
    ensures { OnOk result (WritesDetach bound.now spot draft.old draft.new token) }
{
    draft.put(Instr::NotNone, line_at(bound, token))?;
    draft.put(Instr::Detach, line_at(bound, token))?;
    Ok(())
}

/// `detach` of the object or the prefixed block around, or of the connected object; or `call` or `resume`.
#[tactic(auto, using(crate::proofs::TransferCalls::transfers))]
pub(crate) fn emit_transfer(
    bound: &Bound,
    cells: &Cells,
    spot: Spot,
    draft: &mut Draft,
    transfer: Transfer,
    name: &Identifier,
    arguments: &[Expr],
) -> Result<(), AllocError>
    requires cells { Known bound.now cells.now }
    ensures { OnOk result (WritesTransfer bound.now spot draft.old draft.new transfer name.now arguments.now) }
{
    match transfer {
        Transfer::Detaching => {
            if arguments.len() != 0 {
                draft.give_up();
                return Ok(());
            }
            emit_this(bound, cells, spot, draft, 0, name.token)?;
            emit_detach(bound, spot, draft, name.token)?;
            Ok(())
        }
        Transfer::Calling => {
            if arguments.len() != 1 {
                draft.give_up();
                return Ok(());
            }
            emit_list(bound, cells, spot, draft, 0, arguments)?;
            draft.put(Instr::Attach, line_at(bound, name.token))?;
            Ok(())
        }
        Transfer::Resuming => {
            if arguments.len() != 1 {
                draft.give_up();
                return Ok(());
            }
            emit_list(bound, cells, spot, draft, 0, arguments)?;
            draft.put(Instr::Resume, line_at(bound, name.token))?;
            Ok(())
        }
    }
}

/// `detach` behind its object.
#[tactic(auto, using(crate::proofs::TransferCalls::transfers))]
pub(crate) fn emit_detach_behind(
    bound: &Bound,
    spot: Spot,
    draft: &mut Draft,
    object: Object,
    name: &Identifier,
    arguments: &[Expr],
) -> Result<(), AllocError>
    ensures { OnOk result (WritesDetachBehind bound.now spot draft.old draft.new object name.now arguments.now) }
{
    if arguments.len() != 0 {
        draft.give_up();
        return Ok(());
    }
    match object {
        Object::Stream(_) => {
            draft.give_up();
            Ok(())
        }
        Object::Place => {
            draft.give_up();
            Ok(())
        }
        Object::Value => {
            emit_detach(bound, spot, draft, name.token)?;
            Ok(())
        }
    }
}
