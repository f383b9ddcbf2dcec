//! The canonical text of a program.
ghost use Rattle.std.specs.Prelude.{◌≡◌, IfOk, OnOk};
ghost use Rattle.sim_tree.specs.SyntaxOfProgram.{program_syntax};
ghost use Rattle.sim_print.specs.Canonical.{canonical_text};
ghost use Rattle.sim_print.specs.Laid.{Prints};
ghost use Rattle.sim_print.specs.Trees.{of_program_prefix};

use crate::layout::Layout;
use crate::statement::{block, block_prefix};
use sim_base::Memory;
use sim_tree::{BlockPrefix, Program};
use std::alloc::{AllocError, Global};

/// The canonical text of a program: one for all sources that differ in no more than comments, layout, the case of letters, the spelling of
/// constants and relations, semicolons that say nothing, and the order of `hidden` and `protected`.
#[tactic(auto, using(crate::proofs::Programs::program_rules))]
pub fn print(alloc: Global, program: &Program) -> Result<Vec<u8>, Memory>
    ensures { IfOk result (λ text. text.items ≡ canonical_text (program_syntax program.now)) }
{
    let mut layout = Layout::new(alloc);
    program_prefix(&mut layout, &program.prefix)?;
    block(&mut layout, &program.block)?;
    Ok(layout.finish()?)
}

// The prefix of the program's block, where there is one.
#[tactic(auto, using(crate::proofs::Programs::program_rules))]
fn program_prefix(layout: &mut Layout, prefix: &Option<BlockPrefix>) -> Result<(), AllocError>
    ensures { OnOk result (Prints layout.old layout.new (of_program_prefix prefix.now)) }
{
    match prefix {
        Some(prefix) => block_prefix(layout, prefix),
        None => Ok(()),
    }
}
