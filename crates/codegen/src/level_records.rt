//! Where the code of a level begins and ends: what is known of the level, and the records of its block and its class.
ghost use Rattle.std.specs.Prelude.{IfOk, OnOk};
ghost use Rattle.codegen_expr.specs.Known.{Known};
ghost use Rattle.codegen.specs.EmitProgram.{BeginsLevel, EndsLevel};

use crate::class_texts::LevelHead;
use crate::frames::{front_class, own_end};
use crate::levels::{end_instr, level_place};
use crate::processes::has_process;
use crate::records::number;
use crate::texts::{ClassAt, Head, Written, add_block, put_class};
use codegen_expr::{Cells, block_number};
use sim_base::Line;
use sim_code::CodeType;
use sim_scope::Bound;
use std::alloc::{AllocError, Global};

/// What is known of a level when its code begins.
#[derive(Clone, Copy)]
pub(crate) struct LevelStart {
    /// The number of its block.
    pub block: u32,
    /// Where its code begins.
    pub start: u32,
    /// How many levels are in front of it.
    pub level: u32,
    /// The number of the class in front of it, or 0.
    pub prefix: u32,
    /// The number of its class.
    pub class: u32,
    /// Whether the objects of its class are processes.
    pub process: bool,
    /// How many cells of the frame are in use.
    pub used: u32,
}

/// The code of a level begins.
#[tactic(auto, using(crate::proofs::LevelRecords::levels))]
pub(crate) fn begin_level(
    alloc: Global,
    bound: &Bound,
    cells: &Cells,
    written: &mut Written,
    text: u32,
) -> Result<LevelStart, AllocError>
    requires cells { Known bound.now cells.now }
    ensures { IfOk result (λ x. BeginsLevel bound.now written.old written.new text x) }
{
    let block = number(written.blocks.len())?;
    let start = number(written.draft.here())?;
    let level = level_place(bound, text)?;
    let prefix = front_class(bound, cells, &written.draft, text);
    let class = written.draft.class_of(block_number(bound, cells, text));
    let process = has_process(bound, cells, text);
    let used = own_end(alloc, bound, cells, &written.draft, text)?;
    written.draft.restart(used);
    Ok(LevelStart {
        block,
        start,
        level,
        prefix,
        class,
        process,
        used,
    })
}

/// The code of a level ends, whose statements begin at one place, and what stands behind its `inner` at another.
#[tactic(auto, using(crate::proofs::LevelRecords::levels))]
pub(crate) fn end_level(
    alloc: Global,
    bound: &Bound,
    cells: &Cells,
    written: &mut Written,
    head: LevelHead,
    begun: LevelStart,
    stated: u32,
    after: u32,
) -> Result<(), AllocError>
    requires cells { Known bound.now cells.now }
    ensures { OnOk result (EndsLevel bound.now written.old written.new head begun stated after) }
{
    written.draft.put(end_instr(begun.level), Line(0))?;
    let added = Head {
        kind: head.kind,
        text: head.text,
        entry: head.entry,
        result_type: CodeType::Nothing,
    };
    add_block(alloc, bound, cells, written, added)?;
    let at = ClassAt {
        prefix: begun.prefix,
        block: begun.block,
        declarations: begun.start,
        statements: stated,
        after_inner: after,
        process: begun.process,
    };
    put_class(written, begun.class, at)?;
    Ok(())
}
