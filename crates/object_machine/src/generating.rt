//! The row that generates objects, and what prefixed blocks have in common with them.
ghost use Rattle.std.specs.Prelude.{◌≡◌, ℕ, ◌+◌, ◌<◌, ◌≤◌, ◌∷◌, ◌^◌, List, Option, IfSome, None, Some, length, true, false};
ghost use Rattle.sim_base.specs.declared.limits.Limits.{Limits as LimitsOf};
ghost use Rattle.sim_code.specs.Arrays.{handed_over};
ghost use Rattle.sim_code.specs.Code.{BlockOf, CodeOf};
ghost use Rattle.sim_code.specs.Levels.{filled_by, generating, parameter_cell, supplied};
ghost use Rattle.sim_code.specs.Machine.{Activation as ActivationOf, Cells, Frames, Value, arrays_among, first_cells};
ghost use Rattle.sim_code.specs.Outcome.{World};
ghost use Rattle.sim_values.specs.declared.value.FrameRef.{FrameRef as Reference};
ghost use Rattle.frame_arena.specs.declared.slot.Slot.{Slot as SlotOf};
ghost use Rattle.frame_arena.specs.Frames.{AllLead, Holds, Leads};
ghost use Rattle.frame_arena.specs.Stacks.{values_from};
ghost use Rattle.object_machine.specs.Calling.{OpensWith, Supplied};
ghost use Rattle.object_machine.specs.Entering.{Opens};
ghost use Rattle.object_machine.specs.Preparing.{IsReady, Supplies, with_levels};
ghost use Rattle.object_machine.specs.declared.openings.Beginning.{Beginning as BeginningOf};
ghost use Rattle.object_machine.specs.Standing.{AllFit, AtWork, Obeys, Outside, Stores};

use crate::calling::Actuals;
use crate::entering::cover;
use crate::handing::hand_over_all;
use crate::levelled::{objects_of, take_linked};
use crate::machine::{Activation, Flow, Registers, Storage};
use crate::making::make_object;
use crate::marks::is_process;
use crate::openings::{Beginning, open};
use crate::parameters::{are_supplied, fill_parameters};
use crate::paying::pay;
use frame_arena::frames::Frame;
use frame_arena::{Slot, stack};
use sim_base::Limits;
use sim_code::{BlockRecord, ClassRecord, Lined, Stage};
use sim_values::{FrameRef, words_instance};
use std::alloc::Global;

/// What is entered.
#[derive(Clone, Copy)]
pub struct Ready {
    /// The values of its parameters.
    pub actuals: Actuals,
    /// Its block.
    pub block: usize,
    /// The index of its first instruction.
    pub start: u32,
}

/// Whether so many values are the actual parameters of what has the levels of a block's class.
pub fn supplies(
    blocks: &[BlockRecord],
    classes: &[ClassRecord],
    block: &BlockRecord,
    count: usize,
) -> bool
    ensures yes { result ≡ true → (code : CodeOf) (vs : List Value) → code.blocks ≡ blocks.now → code.classes ≡ classes.now → length vs ≡ count → Supplies code block.now vs }
    ensures no { result ≡ false → (code : CodeOf) (vs : List Value) → code.blocks ≡ blocks.now → code.classes ≡ classes.now → length vs ≡ count → supplied code block.now.class block.now vs ≡ None }
    ensures short { result ≡ true → count < 2 ^ 63 }
{
    let formals = block.formals.len();
    if count != formals {
        return false;
    }
    are_supplied(blocks, classes, block.class, count, block.types.len())
}

// An object that is to be generated, if there is a rule for it.
fn prepare(
    frames: &[Frame],
    blocks: &[BlockRecord],
    instrs: &[Lined],
    classes: &[ClassRecord],
    regs: &Registers,
    stack: &[Slot],
    class: i64,
    values: i64,
) -> Option<Ready>
    requires fits { regs.now.depth ≤ length stack.now }
    ensures within { IfSome result (λ x. x.actuals.at + x.actuals.count ≤ length stack.now) }
    ensures under { IfSome result (λ x. x.actuals.under < length stack.now) }
    ensures short { IfSome result (λ x. x.actuals.count < 2 ^ 63) }
    ensures leads { (cells : List SlotOf) (m : Frames) → Holds frames.now cells m → AllLead frames.now m stack.now → IfSome result (λ x. Leads frames.now m x.actuals.parent) }
    ensures row { (code : CodeOf) (cells : List SlotOf) (l : LimitsOf) (o : World) (m : Frames) (below : List ActivationOf) (line : ℕ) → code.blocks ≡ blocks.now → code.instrs ≡ instrs.now → code.classes ≡ classes.now → Holds frames.now cells m → AllLead frames.now m stack.now →
        IsReady result code l o m regs.now stack.now below line class values }
{
    let Some(actuals) = take_linked(frames, stack, regs.depth, values) else {
        return None;
    };
    let Some(entered) = objects_of(blocks, instrs, classes, class) else {
        return None;
    };
    let Some(block) = blocks.get(entered.block as usize) else {
        return None;
    };
    if !supplies(blocks, classes, block, actuals.count) {
        return None;
    }
    Some(Ready {
        actuals,
        block: entered.block as usize,
        start: entered.start,
    })
}

// A new frame with levels gets its actual parameters. It answers whether there were as many cells.
#[inline(always)]
fn supply_levels(
    storage: &mut Storage,
    blocks: &[BlockRecord],
    classes: &[ClassRecord],
    class: u32,
    home: FrameRef,
    stack: &[Slot],
    actuals: Actuals,
) -> bool
    requires within { actuals.at + actuals.count ≤ length stack.now }
    requires short { actuals.count < 2 ^ 63 }
    ensures texts { storage.new.texts ≡ storage.old.texts }
    ensures image { storage.new.image ≡ storage.old.image }
    ensures row { result ≡ true → (code : CodeOf) (l : LimitsOf) (before : Option (List ℕ)) (now : Outside) (p : Storage) (o : World) (m : Frames) (k : ℕ) (b : BlockOf) (g : BeginningOf) (parent : Option Reference) (t : Activation) (r : Registers) → code.blocks ≡ blocks.now → code.classes ≡ classes.now →
        t.registers.home ≡ home → Opens l p storage.old k b g parent t before now o m → AtWork p o m r stack.now →
        Supplied l p storage.new k b g parent t before now o m (filled_by (parameter_cell code class) 0 (values_from stack.now actuals.at actuals.count) (Some (first_cells b))) }
{
    fill_parameters(
        &storage.frames,
        &mut storage.cells,
        home,
        blocks,
        classes,
        class,
        stack,
        actuals.at,
        actuals.count,
    )
}

// The same, and its arrays go over to it.
#[inline(always)]
fn furnish(
    storage: &mut Storage,
    blocks: &[BlockRecord],
    classes: &[ClassRecord],
    class: u32,
    home: FrameRef,
    stack: &[Slot],
    actuals: Actuals,
) -> bool
    requires within { actuals.at + actuals.count ≤ length stack.now }
    requires short { actuals.count < 2 ^ 63 }
    ensures texts { storage.new.texts ≡ storage.old.texts }
    ensures image { storage.new.image ≡ storage.old.image }
    ensures row { result ≡ true → (code : CodeOf) (l : LimitsOf) (before : Option (List ℕ)) (now : Outside) (p : Storage) (o : World) (m : Frames) (k : ℕ) (b : BlockOf) (g : BeginningOf) (parent : Option Reference) (cells : Cells) (t : Activation) (r : Registers) → code.blocks ≡ blocks.now → code.classes ≡ classes.now →
        t.registers.home ≡ home → Opens l p storage.old k b g parent t before now o m → AtWork p o m r stack.now →
        filled_by (parameter_cell code class) 0 (values_from stack.now actuals.at actuals.count) (Some (first_cells b)) ≡ Some cells →
        OpensWith l p storage.new k b g parent cells t before now o (handed_over (length m.instances) (arrays_among (values_from stack.now actuals.at actuals.count)) o) m }
{
    if !supply_levels(storage, blocks, classes, class, home, stack, actuals) {
        return false;
    }
    hand_over_all(
        &mut storage.arrays,
        stack,
        actuals.at,
        actuals.count,
        home.stamp,
    );
    true
}

/// A new frame with levels, which has its actual parameters and its arrays. `None` where memory is wanting.
#[inline(always)]
pub fn set_up(
    alloc: Global,
    blocks: &[BlockRecord],
    classes: &[ClassRecord],
    storage: &mut Storage,
    stack: &[Slot],
    block: &BlockRecord,
    ready: Ready,
    object: bool,
) -> Option<Activation>
    requires within { ready.actuals.at + ready.actuals.count ≤ length stack.now }
    requires short { ready.actuals.count < 2 ^ 63 }
    ensures texts { storage.new.texts ≡ storage.old.texts }
    ensures image { storage.new.image ≡ storage.old.image }
    ensures fits { IfSome result (λ t. t.registers.depth ≤ length t.stack.items) }
    ensures row { IfSome result (λ t. (code : CodeOf) (l : LimitsOf) (before : Option (List ℕ)) (now : Outside) (o : World) (m : Frames) (cells : Cells) (r : Registers) → code.blocks ≡ blocks.now → code.classes ≡ classes.now →
        Stores l storage.old before now o m → AtWork storage.old o m r stack.now → Leads storage.old.frames.items m ready.actuals.parent →
        filled_by (parameter_cell code block.now.class) 0 (values_from stack.now ready.actuals.at ready.actuals.count) (Some (first_cells block.now)) ≡ Some cells →
        OpensWith l storage.old storage.new ready.block block.now (with_levels ready object) (Some ready.actuals.parent) cells t before now o (handed_over (length m.instances) (arrays_among (values_from stack.now ready.actuals.at ready.actuals.count)) o) m) }
{
    let Ok(number) = u32::try_from(ready.block) else {
        return None;
    };
    let beginning = Beginning {
        start: ready.start as usize,
        stage: Stage::Declaring(0),
        object,
    };
    let parent = ready.actuals.parent;
    let Ok(next) = open(alloc, storage, number, block, beginning, Some(parent)) else {
        return None;
    };
    let home = next.registers.home;
    if !furnish(
        storage,
        blocks,
        classes,
        block.class,
        home,
        stack,
        ready.actuals,
    ) {
        return None;
    }
    Some(next)
}

/// Generates an object. The frame at work has the reference in hand, and waits.
pub fn generate(
    alloc: Global,
    blocks: &[BlockRecord],
    instrs: &[Lined],
    classes: &[ClassRecord],
    limits: &Limits,
    storage: &mut Storage,
    top: &mut Activation,
    below: &mut Vec<Activation>,
    class: i64,
    values: i64,
) -> Flow
    requires short { top.old.registers.pc + 1 < 2 ^ 64 }
    requires fits { top.old.registers.depth ≤ length top.old.stack.items }
    requires others { AllFit below.old.items }
    ensures fits { top.new.registers.depth ≤ length top.new.stack.items }
    ensures others { AllFit below.new.items }
    ensures texts { storage.new.texts ≡ storage.old.texts }
    ensures image { storage.new.image ≡ storage.old.image }
    ensures row { (code : CodeOf) (line : ℕ) (now : Outside) → code.blocks ≡ blocks.now → code.instrs ≡ instrs.now → code.classes ≡ classes.now →
        Obeys result limits.now line (λ o m a b. generating code limits.now o m a b line class values) storage.old storage.new top.old.registers top.new.registers top.old.stack.items top.new.stack.items below.old.items below.new.items now now }
{
    let Some(ready) = prepare(
        &storage.frames,
        blocks,
        instrs,
        classes,
        &top.registers,
        &top.stack,
        class,
        values,
    ) else {
        return Flow::NoRule;
    };
    let Some(block) = blocks.get(ready.block) else {
        return Flow::Memory;
    };
    let process = is_process(classes, block.class);
    let flow = pay(limits, storage, words_instance(block.cells, process));
    match flow {
        Flow::On => {}
        _ => return flow,
    }
    let Some(next) = set_up(
        alloc, blocks, classes, storage, &top.stack, block, ready, true,
    ) else {
        return Flow::Memory;
    };
    let home = next.registers.home;
    if home.stamp >= 1 << 63 {
        return Flow::Memory;
    }
    let parent = ready.actuals.parent;
    let Ok(()) = make_object(storage, blocks, classes, block.class, parent, home) else {
        return Flow::Memory;
    };
    let Some(depth) = stack::push(&mut top.stack, ready.actuals.under, Slot::object(home)) else {
        return Flow::Memory;
    };
    top.registers.depth = depth;
    cover(top, below, next)
}
