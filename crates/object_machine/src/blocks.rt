//! The blocks that are entered.
ghost use Rattle.std.specs.Prelude.{◌≡◌, ◌<◌, ℕ, ℤ, List, IfSome, Some, length};
ghost use Rattle.sim_code.specs.Code.{CodeOf};
ghost use Rattle.sim_code.specs.Machine.{Machine, number as number_of, same_kind as same_kind_of};
ghost use Rattle.object_machine.specs.Entering.{IsBlock};

use crate::constants::index;
use sim_code::{BlockKind, BlockRecord, Lined};

/// Whether two blocks are of one kind.
#[inline(always)]
pub fn same_kind(a: BlockKind, b: BlockKind) -> bool
    ensures { result ≡ same_kind_of a b }
{
    match (a, b) {
        (BlockKind::SubBlock, BlockKind::SubBlock) => true,
        (BlockKind::Procedure, BlockKind::Procedure) => true,
        (BlockKind::Object, BlockKind::Object) => true,
        (BlockKind::Prefixed, BlockKind::Prefixed) => true,
        _ => false,
    }
}

/// The number of a block of a kind, the entry of which is an instruction.
#[inline(always)]
pub fn block_of(
    blocks: &[BlockRecord],
    instrs: &[Lined],
    kind: BlockKind,
    operand: i64,
) -> Option<usize>
    ensures number { IfSome result (λ k. Some k ≡ number_of operand) }
    ensures within { IfSome result (λ k. k < length blocks.now) }
    ensures row { (code : CodeOf) (z : ℤ) → code.blocks ≡ blocks.now → code.instrs ≡ instrs.now → z ≡ operand → IsBlock result code kind z }
{
    let Some(number) = index(operand) else {
        return None;
    };
    let Some(block) = blocks.get(number) else {
        return None;
    };
    if !same_kind(block.kind, kind) {
        return None;
    }
    if block.entry as usize >= instrs.len() {
        return None;
    }
    Some(number)
}
