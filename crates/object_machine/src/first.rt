//! The first step.
ghost use Rattle.std.specs.Prelude.{◌≡◌, ◌≤◌, ℕ, List, Option, length};
ghost use Rattle.sim_code.specs.Code.{CodeOf};
ghost use Rattle.sim_code.specs.Rows.{first_stage as first_stage_of};
ghost use Rattle.sim_code.specs.Outcome.{World};
ghost use Rattle.frame_arena.specs.Frames.{empty_memory};
ghost use Rattle.object_machine.specs.Running.{Begins, IsFit, IsUnread};
ghost use Rattle.object_machine.specs.Standing.{Outside, Stores};

use crate::begin::{Begun, Stop};
use crate::machine::{Flow, Storage};
use crate::making::begin_program;
use crate::openings::{Beginning, open};
use crate::paying::pay;
use sim_base::{Limits, Line};
use sim_code::{BlockKind, BlockRecord, ClassRecord, Lined, Stage};
use sim_values::words_instance;
use std::alloc::Global;

// The run ends at its first step.
fn stopped(flow: Flow, line: Line) -> Begun
    ensures { result ≡ Begun.Stopped (record { flow = flow; line = line; at = 0 }) }
{
    Begun::Stopped(Stop { flow, line, at: 0 })
}

// At which stage a program's block begins, if it is a sub-block or a prefixed block.
fn first_stage(kind: BlockKind) -> Option<Stage>
    ensures { result ≡ first_stage_of kind }
{
    match kind {
        BlockKind::SubBlock => Some(Stage::NoStage),
        BlockKind::Prefixed => Some(Stage::Declaring(0)),
        BlockKind::Procedure => None,
        BlockKind::Object => None,
    }
}

/// The first step, which enters block 0.
pub fn begin(
    alloc: Global,
    blocks: &[BlockRecord],
    instrs: &[Lined],
    classes: &[ClassRecord],
    limits: &Limits,
    storage: &mut Storage,
) -> Begun
    ensures fits { IsFit result }
    ensures read { IsUnread result }
    ensures texts { storage.new.texts ≡ storage.old.texts }
    ensures image { storage.new.image ≡ storage.old.image }
    ensures row { (code : CodeOf) (before : Option (List ℕ)) (now : Outside) (o : World) → code.blocks ≡ blocks.now → code.instrs ≡ instrs.now → code.classes ≡ classes.now → Stores limits.now storage.old before now o empty_memory → Begins result code limits.now storage.new before now o }
{
    let Some(block) = blocks.get(0) else {
        return stopped(Flow::NoRule, Line(0));
    };
    let Some(stage) = first_stage(block.kind) else {
        return stopped(Flow::NoRule, Line(0));
    };
    let Some(entry) = instrs.get(block.entry as usize) else {
        return stopped(Flow::NoRule, Line(0));
    };
    let flow = pay(limits, storage, words_instance(block.cells, false));
    match flow {
        Flow::On => {}
        _ => return stopped(flow, entry.line),
    }
    let beginning = Beginning {
        start: block.entry as usize,
        stage,
        object: false,
    };
    let Ok(activation) = open(alloc, storage, 0, block, beginning, None) else {
        return stopped(Flow::Memory, Line(0));
    };
    let home = activation.registers.home;
    let Ok(()) = begin_program(alloc, storage, blocks, classes, block, home) else {
        return stopped(Flow::Memory, Line(0));
    };
    Begun::Started(activation)
}
