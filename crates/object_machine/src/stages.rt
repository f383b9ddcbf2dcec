//! Rows that go from stage to stage.
ghost use Rattle.std.specs.Prelude.{◌≡◌, ℕ, ◌+◌, ◌<◌, ◌≤◌, ◌^◌, List, IfSome, length};
ghost use Rattle.sim_code.specs.Code.{CodeOf};
ghost use Rattle.sim_code.specs.Levels.{at_stage, level_ended};
ghost use Rattle.sim_code.specs.Machine.{Frames};
ghost use Rattle.sim_code.specs.declared.instr.Instr.{Instr};
ghost use Rattle.sim_code.specs.Rows.{row};
ghost use Rattle.sim_base.specs.declared.limits.Limits.{Limits as LimitsOf};
ghost use Rattle.frame_arena.specs.declared.slot.Slot.{Slot};
ghost use Rattle.frame_arena.specs.Frames.{Holds, Leads};
ghost use Rattle.object_machine.specs.declared.machine.Activation.{Activation};
ghost use Rattle.object_machine.specs.declared.machine.Storage.{Storage};
ghost use Rattle.object_machine.specs.Levelling.{IsReached, IsUnderWay, stage_of as stage_of_part};
ghost use Rattle.object_machine.specs.Standing.{Obeys, Outside};

use crate::constants::index;
use crate::levels::{Levels, Part, own_levels, part_of_level};
use crate::machine::{Flow, Registers};
use crate::owners::is_thunk;
use frame_arena::frames::Frame;
use sim_code::{BlockRecord, ClassRecord, Lined, Stage};

/// A level of the frame at work.
#[derive(Clone, Copy)]
pub struct UnderWay {
    /// All levels of the frame.
    pub own: Levels,
    /// The number of this one.
    pub level: u32,
}

// The stage at which a part of a level is under way.
#[inline(always)]
fn stage_of(part: Part, level: u32) -> Stage
    ensures { result ≡ stage_of_part part level }
{
    match part {
        Part::Declarations => Stage::Declaring(level),
        Part::Statements => Stage::Stating(level),
        Part::AfterInner => Stage::Behind(level),
    }
}

/// The number of a level, where the stage is this part of it.
#[inline(always)]
pub fn reached(stage: Stage, part: Part, level: usize) -> Option<u32>
    ensures { IsReached result stage part level }
{
    let found = match (part, stage) {
        (Part::Declarations, Stage::Declaring(at)) => at,
        (Part::Statements, Stage::Stating(at)) => at,
        (Part::AfterInner, Stage::Behind(at)) => at,
        _ => return None,
    };
    if found as usize == level {
        return Some(found);
    }
    None
}

// The level of which this part is under way, if the frame at work is at this stage and has levels.
fn under_way(
    frames: &[Frame],
    blocks: &[BlockRecord],
    classes: &[ClassRecord],
    regs: &Registers,
    part: Part,
    level: usize,
) -> Option<UnderWay>
    ensures row { (code : CodeOf) (cells stack : List Slot) (m : Frames) → code.blocks ≡ blocks.now → code.classes ≡ classes.now → Holds frames.now cells m → Leads frames.now m regs.now.home → IsUnderWay result code m regs.now stack part level }
    ensures number { IfSome result (λ here. here.level ≡ level) }
{
    let Some(short) = reached(regs.stage, part, level) else {
        return None;
    };
    if is_thunk(regs) {
        return None;
    }
    let Some(own) = own_levels(frames, blocks, classes, regs.home) else {
        return None;
    };
    Some(UnderWay { own, level: short })
}

// The frame at work goes on at an index of a class, at another stage.
#[inline(always)]
fn go_to(instrs: &[Lined], regs: &mut Registers, stage: Stage, start: u32) -> Flow
    ensures depth { regs.new.depth ≡ regs.old.depth }
    ensures row { (code : CodeOf) (l : LimitsOf) (line : ℕ) (p : Storage) (stack : List Slot) (below : List Activation) (now : Outside) → code.instrs ≡ instrs.now →
        Obeys result l line (λ o m a b. at_stage code o m a b stage start) p p regs.old regs.new stack stack below below now now }
{
    if start as usize >= instrs.len() {
        return Flow::NoRule;
    }
    regs.stage = stage;
    regs.pc = start as usize;
    Flow::Jumped
}

/// Goes on behind the declarations of a level.
pub fn next_declarations(
    frames: &[Frame],
    blocks: &[BlockRecord],
    instrs: &[Lined],
    classes: &[ClassRecord],
    regs: &mut Registers,
    operand: i64,
) -> Flow
    ensures depth { regs.new.depth ≡ regs.old.depth }
    ensures row { (code : CodeOf) (l : LimitsOf) (line : ℕ) (p : Storage) (stack : List Slot) (below : List Activation) (now : Outside) → code.blocks ≡ blocks.now → code.instrs ≡ instrs.now → code.classes ≡ classes.now → p.frames.items ≡ frames.now →
        Obeys result l line (λ o m a b. row code l o m a b line (Instr.NextDecl operand)) p p regs.old regs.new stack stack below below now now }
{
    let Some(level) = index(operand) else {
        return Flow::NoRule;
    };
    let Some(here) = under_way(frames, blocks, classes, regs, Part::Declarations, level) else {
        return Flow::NoRule;
    };
    let next = here.level as usize + 1;
    if let Some(start) = part_of_level(classes, here.own, next, Part::Declarations) {
        return go_to(instrs, regs, Stage::Declaring(here.level + 1), start);
    }
    let Some(start) = part_of_level(classes, here.own, 0, Part::Statements) else {
        return Flow::NoRule;
    };
    go_to(instrs, regs, Stage::Stating(0), start)
}

/// Goes on at the statements of the next level, or behind the `inner` of the innermost one.
pub fn inner(
    frames: &[Frame],
    blocks: &[BlockRecord],
    instrs: &[Lined],
    classes: &[ClassRecord],
    regs: &mut Registers,
    operand: i64,
) -> Flow
    requires short { regs.old.pc + 1 < 2 ^ 64 }
    ensures depth { regs.new.depth ≡ regs.old.depth }
    ensures row { (code : CodeOf) (l : LimitsOf) (line : ℕ) (p : Storage) (stack : List Slot) (below : List Activation) (now : Outside) → code.blocks ≡ blocks.now → code.instrs ≡ instrs.now → code.classes ≡ classes.now → p.frames.items ≡ frames.now →
        Obeys result l line (λ o m a b. row code l o m a b line (Instr.Inner operand)) p p regs.old regs.new stack stack below below now now }
{
    let Some(level) = index(operand) else {
        return Flow::NoRule;
    };
    let Some(here) = under_way(frames, blocks, classes, regs, Part::Statements, level) else {
        return Flow::NoRule;
    };
    let next = here.level as usize + 1;
    if let Some(start) = part_of_level(classes, here.own, next, Part::Statements) {
        return go_to(instrs, regs, Stage::Stating(here.level + 1), start);
    }
    regs.stage = Stage::Behind(here.level);
    regs.pc += 1;
    Flow::On
}

/// Ends a level that is not the outermost one.
pub fn end_inner_level(
    frames: &[Frame],
    blocks: &[BlockRecord],
    instrs: &[Lined],
    classes: &[ClassRecord],
    regs: &mut Registers,
    level: usize,
) -> Flow
    requires inner { 0 < level }
    ensures depth { regs.new.depth ≡ regs.old.depth }
    ensures row { (code : CodeOf) (l : LimitsOf) (line : ℕ) (p : Storage) (stack : List Slot) (below : List Activation) (now : Outside) → code.blocks ≡ blocks.now → code.instrs ≡ instrs.now → code.classes ≡ classes.now → p.frames.items ≡ frames.now →
        Obeys result l line (λ o m a b. level_ended code l o m a b level) p p regs.old regs.new stack stack below below now now }
{
    let Some(here) = under_way(frames, blocks, classes, regs, Part::AfterInner, level) else {
        return Flow::NoRule;
    };
    let outer = level - 1;
    let Some(start) = part_of_level(classes, here.own, outer, Part::AfterInner) else {
        return Flow::NoRule;
    };
    go_to(instrs, regs, Stage::Behind(here.level - 1), start)
}
