//! The rows of parameters by name.
ghost use Rattle.std.specs.Prelude.{◌≡◌, ◌∷◌, ◌+◌, ◌<◌, ◌≤◌, ◌^◌, ℕ, List, ℤ, IfSome, Option, length, false};
ghost use Rattle.sim_base.specs.declared.limits.Limits.{Limits as LimitsOf};
ghost use Rattle.sim_code.specs.declared.instr.Instr.{Instr};
ghost use Rattle.sim_code.specs.Code.{CodeOf};
ghost use Rattle.sim_code.specs.Machine.{Activation as ActivationOf, Frames, Machine, ThunkValue, cell_at};
ghost use Rattle.sim_code.specs.Outcome.{Run, World};
ghost use Rattle.sim_code.specs.Rows.{row, thunk_ended, thunk_given};
ghost use Rattle.sim_code.specs.Thunks.{is_place as is_place_in, using_name, value_given as value_given_in};
ghost use Rattle.frame_arena.specs.Arrays.{names_array};
ghost use Rattle.frame_arena.specs.Frames.{Leads, SlotLeads, found_value};
ghost use Rattle.frame_arena.specs.Slots.{value_of};
ghost use Rattle.frame_arena.specs.declared.frames.Frame.{Frame};
ghost use Rattle.object_machine.specs.declared.machine.Storage.{Storage as StorageOf};
ghost use Rattle.object_machine.specs.Standing.{AllFit, HasImages, Leaves, Obeys, Outside, Stands, Stores, activation_of, below_of};
ghost use Rattle.object_machine.specs.FrameEnds.{ValueLeads};
ghost use Rattle.object_machine.specs.Placing.{LeadsFrom};
ghost use Rattle.object_machine.specs.Thunking.{AnswerLeads, Asked, FindsThunk, IsThunk, OpensThunk};

use crate::actuals::give_parameter;
use crate::cells::near_span;
use crate::classes::{Qualification, qualify, stamp_of};
use crate::constants::{index, truth};
use crate::entering::cover;
use crate::machine::{Activation, Flow, Registers, Storage};
use crate::objects::admit;
use crate::openings::{keep_idle, take_idle};
use crate::operands::push;
use crate::reading::value_at;
use frame_arena::{Slot, SlotKind, frames, stack};
use sim_base::{Limits, Line, RunError};
use sim_code::{BlockRecord, ClassRecord, Instr, Lined, Stage, ThunkRecord};
use sim_values::FrameRef;
use std::alloc::Global;
use std::mem;

/// A thunk in hand.
#[derive(Clone, Copy)]
pub struct ThunkInHand {
    /// Its number.
    pub thunk: u32,
    /// The frame for which it is run.
    pub home: FrameRef,
}

// A thunk in hand, as a value.
#[inline(always)]
fn thunk_slot(thunk: u32, home: FrameRef) -> Slot
    requires { home.stamp < 2 ^ 63 }
    ensures value { value_of result ≡ ThunkValue thunk home.stamp }
    ensures leads { (frames : List Frame) (m : Frames) → Leads frames m home → SlotLeads frames m result }
    ensures no_array { names_array result.kind ≡ false }
{
    Slot {
        kind: SlotKind::Thunk,
        code: 0,
        name: home.frame,
        more: thunk,
        class: 0,
        data: home.stamp as i64,
    }
}

/// Pushes a thunk, to be run for the frame at work.
pub fn push_thunk(
    thunks: &[ThunkRecord],
    stack: &mut [Slot],
    regs: &mut Registers,
    operand: i64,
) -> Flow
    requires fits { regs.old.depth ≤ length stack.old }
    requires short { regs.old.pc + 1 < 2 ^ 64 }
    ensures fits { regs.new.depth ≤ length stack.new }
    ensures row { (code : CodeOf) (l : LimitsOf) (line : ℕ) (p : StorageOf) (below : List Activation) (now : Outside) → code.thunks ≡ thunks.now →
        Obeys result l line (λ o m a b. row code l o m a b line (Instr.Thunk operand)) p p regs.old regs.new stack.old stack.new below below now now }
{
    let Some(number) = index(operand) else {
        return Flow::NoRule;
    };
    let Some(_thunk) = thunks.get(number) else {
        return Flow::NoRule;
    };
    let Ok(short) = u32::try_from(number) else {
        return Flow::Memory;
    };
    if regs.home.stamp >= 1 << 63 {
        return Flow::Memory;
    }
    let slot = thunk_slot(short, regs.home);
    push(stack, regs, slot)
}

// The thunk that a slot has.
#[inline(always)]
fn thunk_of(slot: Slot) -> Option<ThunkInHand>
    ensures is { IsThunk result (value_of slot) }
    ensures leads { IfSome result (λ t. (frames : List Frame) (m : Frames) → SlotLeads frames m slot → Leads frames m t.home) }
{
    let stamp = stamp_of(slot);
    match slot.kind {
        SlotKind::Thunk => Some(ThunkInHand {
            thunk: slot.more,
            home: FrameRef {
                frame: slot.name,
                stamp,
            },
        }),
        _ => None,
    }
}

// The thunk in a cell at a level.
#[inline(always)]
fn named_thunk(storage: &Storage, home: FrameRef, level: i64, cell: i64) -> Option<ThunkInHand>
    ensures row { (l : LimitsOf) (before : Option (List ℕ)) (now : Outside) (o : World) (m : Frames) (a : ActivationOf) → Stores l storage.now before now o m → Leads storage.now.frames.items m home → a.home ≡ home.stamp →
        FindsThunk result storage.now.frames.items o m a level cell }
{
    let Some(span) = near_span(&storage.frames, home, level) else {
        return None;
    };
    let Some(number) = index(cell) else {
        return None;
    };
    let Some(slot) = frames::cell_in(&storage.cells, span, number) else {
        return None;
    };
    thunk_of(slot)
}

/// A thunk begins on top of the chain, with an operand stack that is idle, if there is one.
#[inline(always)]
pub fn begin_thunk(
    alloc: Global,
    instrs: &[Lined],
    thunks: &[ThunkRecord],
    storage: &mut Storage,
    top: &mut Activation,
    below: &mut Vec<Activation>,
    used: ThunkInHand,
) -> Flow
    requires short { top.old.registers.pc + 1 < 2 ^ 64 }
    requires fits { top.old.registers.depth ≤ length top.old.stack.items }
    requires others { AllFit below.old.items }
    ensures fits { top.new.registers.depth ≤ length top.new.stack.items }
    ensures others { AllFit below.new.items }
    ensures texts { storage.new.texts ≡ storage.old.texts }
    ensures image { storage.new.image ≡ storage.old.image }
    ensures row { OpensThunk result instrs.now thunks.now storage.old storage.new used top.old.registers top.new.registers top.old.stack.items top.new.stack.items below.old.items below.new.items }
{
    let Some(_place) = frames::find(&storage.frames, used.home) else {
        return Flow::NoRule;
    };
    let Some(thunk) = thunks.get(used.thunk as usize) else {
        return Flow::NoRule;
    };
    let Some(_entry) = instrs.get(thunk.entry as usize) else {
        return Flow::NoRule;
    };
    let Ok(stack) = take_idle(alloc, &mut storage.idle, thunk.room as usize) else {
        return Flow::Memory;
    };
    let next = Activation {
        registers: Registers {
            pc: thunk.entry as usize,
            home: used.home,
            thunk: Some(used.thunk),
            depth: 0,
            stage: Stage::NoStage,
        },
        stack,
    };
    cover(top, below, next)
}

// The thunk in a cell is run for its frame, after its tick. The frame at work, which has room for what the thunk gives, waits behind its
// instruction.
#[inline(always)]
fn use_name(
    alloc: Global,
    instrs: &[Lined],
    thunks: &[ThunkRecord],
    limits: &Limits,
    storage: &mut Storage,
    top: &mut Activation,
    below: &mut Vec<Activation>,
    level: i64,
    cell: i64,
) -> Flow
    requires short { top.old.registers.pc + 1 < 2 ^ 64 }
    requires fits { top.old.registers.depth ≤ length top.old.stack.items }
    requires others { AllFit below.old.items }
    ensures fits { top.new.registers.depth ≤ length top.new.stack.items }
    ensures others { AllFit below.new.items }
    ensures texts { storage.new.texts ≡ storage.old.texts }
    ensures image { storage.new.image ≡ storage.old.image }
    ensures row { (code : CodeOf) (line : ℕ) (now : Outside) → code.thunks ≡ thunks.now → code.instrs ≡ instrs.now →
        Obeys result limits.now line (λ o m a b. cell_at m a level cell o (λ j c. using_name code limits.now o m a b j c)) storage.old storage.new top.old.registers top.new.registers top.old.stack.items top.new.stack.items below.old.items below.new.items now now }
{
    let Some(used) = named_thunk(storage, top.registers.home, level, cell) else {
        return Flow::NoRule;
    };
    if top.registers.depth >= top.stack.len() {
        return Flow::NoRule;
    }
    if storage.ticks >= limits.ticks {
        return Flow::TickLimit;
    }
    storage.ticks += 1;
    begin_thunk(alloc, instrs, thunks, storage, top, below, used)
}

/// A use of a parameter by name for its value, which is held against a class.
#[inline(always)]
pub fn use_value(
    alloc: Global,
    instrs: &[Lined],
    classes: &[ClassRecord],
    thunks: &[ThunkRecord],
    limits: &Limits,
    storage: &mut Storage,
    top: &mut Activation,
    below: &mut Vec<Activation>,
    level: i64,
    cell: i64,
    class: i64,
) -> Flow
    requires short { top.old.registers.pc + 1 < 2 ^ 64 }
    requires fits { top.old.registers.depth ≤ length top.old.stack.items }
    requires others { AllFit below.old.items }
    ensures fits { top.new.registers.depth ≤ length top.new.stack.items }
    ensures others { AllFit below.new.items }
    ensures texts { storage.new.texts ≡ storage.old.texts }
    ensures image { storage.new.image ≡ storage.old.image }
    ensures row { (code : CodeOf) (line : ℕ) (now : Outside) → code.classes ≡ classes.now → code.thunks ≡ thunks.now → code.instrs ≡ instrs.now →
        Obeys result limits.now line (λ o m a b. row code limits.now o m a b line (Instr.NameVal level cell class)) storage.old storage.new top.old.registers top.new.registers top.old.stack.items top.new.stack.items below.old.items below.new.items now now }
{
    match qualify(classes, class) {
        Qualification::Class(_) => use_name(
            alloc, instrs, thunks, limits, storage, top, below, level, cell,
        ),
        Qualification::NoRule => Flow::NoRule,
        Qualification::Memory => Flow::Memory,
    }
}

/// A use of a parameter by name for where it lies, or else for its value if that is enough.
#[inline(always)]
pub fn use_place(
    alloc: Global,
    instrs: &[Lined],
    thunks: &[ThunkRecord],
    limits: &Limits,
    storage: &mut Storage,
    top: &mut Activation,
    below: &mut Vec<Activation>,
    level: i64,
    cell: i64,
    value_too: i64,
) -> Flow
    requires short { top.old.registers.pc + 1 < 2 ^ 64 }
    requires fits { top.old.registers.depth ≤ length top.old.stack.items }
    requires others { AllFit below.old.items }
    ensures fits { top.new.registers.depth ≤ length top.new.stack.items }
    ensures others { AllFit below.new.items }
    ensures texts { storage.new.texts ≡ storage.old.texts }
    ensures image { storage.new.image ≡ storage.old.image }
    ensures row { (code : CodeOf) (line : ℕ) (now : Outside) → code.thunks ≡ thunks.now → code.instrs ≡ instrs.now →
        Obeys result limits.now line (λ o m a b. row code limits.now o m a b line (Instr.NameAddr level cell value_too)) storage.old storage.new top.old.registers top.new.registers top.old.stack.items top.new.stack.items below.old.items below.new.items now now }
{
    let Some(_either) = truth(value_too) else {
        return Flow::NoRule;
    };
    use_name(
        alloc, instrs, thunks, limits, storage, top, below, level, cell,
    )
}

// Whether a slot tells where something lies.
#[inline(always)]
fn is_address(slot: Slot) -> bool
    ensures { result ≡ is_place_in (value_of slot) }
{
    match slot.kind {
        SlotKind::Cell => true,
        SlotKind::Element => true,
        SlotKind::Image => true,
        _ => false,
    }
}

/// The value that an actual parameter gave: itself, or what is where it lies.
#[inline(always)]
pub fn value_given(storage: &Storage, given: Slot) -> Option<Slot>
    ensures leads { (l : LimitsOf) (before : Option (List ℕ)) (now : Outside) (o : World) (m : Frames) → Stores l storage.now before now o m → LeadsFrom storage.now o m given → ValueLeads storage.now.frames.items m storage.now.arrays.regions o.arrays result }
    ensures row { (l : LimitsOf) (before : Option (List ℕ)) (now : Outside) (o : World) (m : Frames) → Stores l storage.now before now o m → LeadsFrom storage.now o m given → found_value result ≡ value_given_in o m (value_of given) }
{
    if is_address(given) {
        return value_at(
            &storage.frames,
            &storage.cells,
            &storage.arrays,
            &storage.image,
            given,
        );
    }
    Some(given)
}

// What a thunk gave as a value, which may stand where references of a class stand.
#[inline(always)]
fn value_asked(
    blocks: &[BlockRecord],
    classes: &[ClassRecord],
    storage: &Storage,
    given: Slot,
    class: i64,
    line: Line,
) -> Result<Slot, Flow>
    ensures leads { (l : LimitsOf) (before : Option (List ℕ)) (now : Outside) (o : World) (m : Frames) → Stores l storage.now before now o m → LeadsFrom storage.now o m given → AnswerLeads result storage.now o m }
    ensures row { (code : CodeOf) (l : LimitsOf) (before : Option (List ℕ)) (now : Outside) (o : World) (m : Frames) (level cell : ℤ) → code.blocks ≡ blocks.now → code.classes ≡ classes.now →
        Stores l storage.now before now o m → LeadsFrom storage.now o m given → (b : ActivationOf) (rest : List ActivationOf) → Asked result o m b rest (thunk_given code l o m b rest (value_of given) line.0 (Instr.NameVal level cell class)) }
{
    let number = match qualify(classes, class) {
        Qualification::Class(number) => number,
        Qualification::NoRule => return Err(Flow::NoRule),
        Qualification::Memory => return Err(Flow::Memory),
    };
    let Some(value) = value_given(storage, given) else {
        return Err(Flow::NoRule);
    };
    match admit(&storage.frames, blocks, classes, number, value) {
        Some(true) => Ok(value),
        Some(false) => Err(Flow::FaultAt(RunError::OutsideQualification, line)),
        None => Err(Flow::NoRule),
    }
}

// Where a thunk says that a variable lies; or else, for 1, its value.
#[inline(always)]
fn place_asked(given: Slot, value_too: i64, line: Line) -> Result<Slot, Flow>
    ensures leads { (p : StorageOf) (o : World) (m : Frames) → LeadsFrom p o m given → AnswerLeads result p o m }
    ensures row { (code : CodeOf) (l : LimitsOf) (o : World) (m : Frames) (level cell : ℤ) (b : ActivationOf) (rest : List ActivationOf) →
        Asked result o m b rest (thunk_given code l o m b rest (value_of given) line.0 (Instr.NameAddr level cell value_too)) }
{
    let Some(either) = truth(value_too) else {
        return Err(Flow::NoRule);
    };
    if either {
        return Ok(given);
    }
    if is_address(given) {
        return Ok(given);
    }
    Err(Flow::FaultAt(RunError::ActualIsNoVariable, line))
}

// What was asked for goes to the activation that waits for it, or the run ends.
#[inline(always)]
fn hand(waiting: &mut Activation, asked: Result<Slot, Flow>) -> Flow
    requires fits { waiting.old.registers.depth ≤ length waiting.old.stack.items }
    ensures fits { waiting.new.registers.depth ≤ length waiting.new.stack.items }
    ensures row { (l : LimitsOf) (line : ℕ) (p : StorageOf) (below : List Activation) (before : Option (List ℕ)) (now : Outside) (o : World) (m : Frames) (run : Run Machine) →
        Stands l p waiting.old.registers waiting.old.stack.items below before now o m → AnswerLeads asked p o m → Asked asked o m (activation_of waiting.old) (below_of below) run →
        Leaves result l line p waiting.new.registers waiting.new.stack.items below before now run }
{
    let value = match asked {
        Ok(value) => value,
        Err(flow) => return flow,
    };
    let Some(depth) = stack::push(&mut waiting.stack, waiting.registers.depth, value) else {
        return Flow::NoRule;
    };
    waiting.registers.depth = depth;
    Flow::On
}

// What a thunk gave goes to the activation that waits for it, whose last instruction ran it.
#[inline(always)]
fn give(
    blocks: &[BlockRecord],
    instrs: &[Lined],
    classes: &[ClassRecord],
    limits: &Limits,
    storage: &mut Storage,
    waiting: &mut Activation,
    given: Slot,
) -> Flow
    requires fits { waiting.old.registers.depth ≤ length waiting.old.stack.items }
    requires images { HasImages storage.old.texts storage.old.image }
    ensures fits { waiting.new.registers.depth ≤ length waiting.new.stack.items }
    ensures valid { HasImages storage.new.texts storage.new.image }
    ensures row { (code : CodeOf) (line : ℕ) (below : List Activation) (before : Option (List ℕ)) (now : Outside) (o : World) (m : Frames) → code.blocks ≡ blocks.now → code.instrs ≡ instrs.now → code.classes ≡ classes.now →
        Stands limits.now storage.old waiting.old.registers waiting.old.stack.items below before now o m → LeadsFrom storage.old o m given →
        Leaves result limits.now line storage.new waiting.new.registers waiting.new.stack.items below before now (thunk_ended code limits.now o m (value_of given) (activation_of waiting.old ∷ below_of below)) }
{
    let pc = waiting.registers.pc;
    if pc == 0 {
        return Flow::NoRule;
    }
    let Some(asking) = instrs.get(pc - 1) else {
        return Flow::NoRule;
    };
    let line = asking.line;
    match asking.instr {
        Instr::NameVal { class, .. } => {
            let value = value_asked(blocks, classes, storage, given, class, line);
            hand(waiting, value)
        }
        Instr::NameAddr { value, .. } => {
            let place = place_asked(given, value, line);
            hand(waiting, place)
        }
        Instr::Param { formal, .. } => give_parameter(
            blocks, classes, limits, storage, waiting, given, formal, line,
        ),
        _ => Flow::NoRule,
    }
}

/// A thunk ends. What it gives goes to the activation below, whose last instruction ran it; an error has the line of that.
#[inline(always)]
pub fn end_thunk(
    blocks: &[BlockRecord],
    instrs: &[Lined],
    classes: &[ClassRecord],
    limits: &Limits,
    storage: &mut Storage,
    top: &mut Activation,
    below: &mut Vec<Activation>,
) -> Flow
    requires fits { top.old.registers.depth ≤ length top.old.stack.items }
    requires others { AllFit below.old.items }
    requires images { HasImages storage.old.texts storage.old.image }
    ensures fits { top.new.registers.depth ≤ length top.new.stack.items }
    ensures others { AllFit below.new.items }
    ensures valid { HasImages storage.new.texts storage.new.image }
    ensures row { (code : CodeOf) (line : ℕ) (now : Outside) → code.blocks ≡ blocks.now → code.instrs ≡ instrs.now → code.classes ≡ classes.now →
        Obeys result limits.now line (λ o m a b. row code limits.now o m a b line Instr.EndThunk) storage.old storage.new top.old.registers top.new.registers top.old.stack.items top.new.stack.items below.old.items below.new.items now now }
{
    let Some(_thunk) = top.registers.thunk else {
        return Flow::NoRule;
    };
    let Some(at) = stack::pop(&top.stack, top.registers.depth) else {
        return Flow::NoRule;
    };
    let given = top.stack[at];
    let Some(next) = below.pop() else {
        return Flow::NoRule;
    };
    let ended = mem::replace(top, next);
    keep_idle(&mut storage.idle, ended.stack);
    give(blocks, instrs, classes, limits, storage, top, given)
}
