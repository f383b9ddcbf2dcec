//! The numbers that blocks have in code.
ghost use Rattle.std.specs.Prelude.{◌≡◌, IfOk, []};
ghost use Rattle.text_tables.specs.Making.{Numbers, next_number};

use codegen_expr::deeper;
use sim_scope::{Block, BlockKind};
use std::alloc::AllocError;

/// The number behind that of a block: connections have none.
fn next(block: &Block, number: u32) -> Result<u32, AllocError>
    ensures { IfOk result (λ n. n ≡ next_number number block.now) }
{
    match block.kind() {
        BlockKind::Connection => Ok(number),
        BlockKind::Program => deeper(number),
        BlockKind::SubBlock => deeper(number),
        BlockKind::Procedure => deeper(number),
        BlockKind::Class => deeper(number),
        BlockKind::Prefixed => deeper(number),
        BlockKind::StandardClass(_) => deeper(number),
    }
}

/// Writes the number of each block of the tables, and answers how many blocks the code has.
#[tactic(auto, using(crate::proofs::Numbering::numbering))]
pub(crate) fn numbers_of(blocks: &[Block], numbers: &mut Vec<u32>) -> Result<u32, AllocError>
    requires empty { numbers.old.items ≡ [] }
    ensures { IfOk result (λ n. Numbers blocks.now numbers.new.items n) }
{
    let mut number = 0;
    for block in blocks {
        numbers.push(number)?;
        number = next(block, number)?;
    }
    Ok(number)
}
