//! Parameters that are passed to a procedure in hand.
ghost use Rattle.std.specs.Prelude.{◌≡◌, ◌∷◌, ◌+◌, ◌<◌, ◌≤◌, ◌^◌, ℕ, ℤ, List, Option, length};
ghost use Rattle.sim_base.specs.declared.limits.Limits.{Limits as LimitsOf};
ghost use Rattle.sim_code.specs.declared.instr.Instr.{Instr};
ghost use Rattle.sim_code.specs.Code.{CodeOf};
ghost use Rattle.sim_code.specs.Events.{popping};
ghost use Rattle.sim_code.specs.Formals.{class_held as class_held_of, copied_for as copied_for_of, copying_value, formal_in_hand as formal_in_hand_of, is_by_name as is_by_name_of, running_thunk, runs_inside as runs_inside_of, thunk_for as thunk_for_of};
ghost use Rattle.sim_code.specs.Machine.{ArrayValue, Frames, Machine, Of, array_in, at, plain};
ghost use Rattle.sim_code.specs.Outcome.{Run, World};
ghost use Rattle.sim_code.specs.Rows.{row, thunk_given};
ghost use Rattle.frame_arena.specs.Slots.{value_of};
ghost use Rattle.frame_arena.specs.Stacks.{values_of};
ghost use Rattle.object_machine.specs.declared.machine.Storage.{Storage as StorageOf};
ghost use Rattle.object_machine.specs.Copying.{copied_as};
ghost use Rattle.object_machine.specs.Placing.{LeadsFrom};
ghost use Rattle.object_machine.specs.Standing.{AllFit, HasImages, Leaves, Obeys, Outside, Stands, activation_of, below_of};

use crate::arrays::copy_array;
use crate::blocks::same_kind;
use crate::constants::index;
use crate::machine::{Activation, Flow, Registers, Storage};
use crate::names::copy_text;
use crate::objects::admit;
use crate::thunks::{ThunkInHand, begin_thunk, push_thunk, value_given};
use crate::virtuals::procedure_in;
use frame_arena::{Slot, stack};
use sim_base::{Limits, Line, RunError};
use sim_code::{
    BlockKind, BlockRecord, ClassRecord, CodeFormal, CodeMode, CodeType, FormalShape, Lined,
    ThunkRecord,
};
use std::alloc::Global;

/// What of a value is copied when it is passed.
#[derive(Clone, Copy)]
pub enum Copied {
    /// Nothing.
    Nothing,
    /// A text.
    Text,
    /// An array.
    Array,
}

// The formal parameter of a number, of the procedure in hand below as many values.
fn formal_in_hand(
    blocks: &[BlockRecord],
    stack: &[Slot],
    depth: usize,
    number: usize,
) -> Option<CodeFormal>
    requires fits { depth ≤ length stack.now }
    ensures row { (code : CodeOf) → code.blocks ≡ blocks.now → result ≡ formal_in_hand_of code number (values_of depth stack.now) }
{
    if number >= depth {
        return None;
    }
    let Some(procedure) = procedure_in(stack[depth - 1 - number]) else {
        return None;
    };
    let Some(block) = blocks.get(procedure.block as usize) else {
        return None;
    };
    if !same_kind(block.kind, BlockKind::Procedure) {
        return None;
    }
    let Some(formal) = block.formals.get(number) else {
        return None;
    };
    Some(*formal)
}

// Whether a parameter is by name.
#[inline(always)]
fn is_by_name(mode: CodeMode) -> bool
    ensures { result ≡ is_by_name_of mode }
{
    match mode {
        CodeMode::Name => true,
        _ => false,
    }
}

// Which thunk is taken: the one of a procedure where the formal parameter is one.
#[inline(always)]
fn thunk_for(shape: FormalShape, value: i64, procedure: i64) -> i64
    ensures { result ≡ thunk_for_of shape value procedure }
{
    match shape {
        FormalShape::Procedure => procedure,
        _ => value,
    }
}

// The class of which a reference has to be; 0 is none.
#[inline(always)]
fn class_held(formal: CodeFormal) -> u32
    ensures { result ≡ class_held_of formal }
{
    match formal.shape {
        FormalShape::Simple => formal.class,
        _ => 0,
    }
}

// What of a value is copied when it is passed.
#[inline(always)]
fn copied_for(formal: CodeFormal) -> Copied
    ensures { copied_as result ≡ copied_for_of formal }
{
    match formal.mode {
        CodeMode::Value => match formal.shape {
            FormalShape::Array => Copied::Array,
            FormalShape::Simple => match formal.code_type {
                CodeType::Text => Copied::Text,
                _ => Copied::Nothing,
            },
            FormalShape::Procedure => Copied::Nothing,
        },
        _ => Copied::Nothing,
    }
}

// Whether a thunk may be run without a tick: inside another one it has a greater number.
#[inline(always)]
fn runs_inside(running: Option<u32>, thunk: usize) -> bool
    ensures { result ≡ runs_inside_of running thunk }
{
    match running {
        Some(number) => (number as usize) < thunk,
        None => true,
    }
}

// A thunk is run for the frame at work, which has room for what the thunk gives, and waits behind its instruction.
fn run_thunk(
    alloc: Global,
    instrs: &[Lined],
    thunks: &[ThunkRecord],
    storage: &mut Storage,
    top: &mut Activation,
    below: &mut Vec<Activation>,
    operand: i64,
) -> Flow
    requires short { top.old.registers.pc + 1 < 2 ^ 64 }
    requires fits { top.old.registers.depth ≤ length top.old.stack.items }
    requires others { AllFit below.old.items }
    ensures fits { top.new.registers.depth ≤ length top.new.stack.items }
    ensures others { AllFit below.new.items }
    ensures texts { storage.new.texts ≡ storage.old.texts }
    ensures image { storage.new.image ≡ storage.old.image }
    ensures row { (code : CodeOf) (l : LimitsOf) (line : ℕ) (now : Outside) → code.instrs ≡ instrs.now → code.thunks ≡ thunks.now →
        Obeys result l line (λ o m a b. running_thunk code o m a b operand) storage.old storage.new top.old.registers top.new.registers top.old.stack.items top.new.stack.items below.old.items below.new.items now now }
{
    let Some(number) = index(operand) else {
        return Flow::NoRule;
    };
    if !runs_inside(top.registers.thunk, number) {
        return Flow::NoRule;
    }
    if top.registers.depth >= top.stack.len() {
        return Flow::NoRule;
    }
    let Some(_thunk) = thunks.get(number) else {
        return Flow::NoRule;
    };
    let Ok(thunk) = u32::try_from(number) else {
        return Flow::Memory;
    };
    let used = ThunkInHand {
        thunk,
        home: top.registers.home,
    };
    begin_thunk(alloc, instrs, thunks, storage, top, below, used)
}

/// Passes a parameter of the procedure in hand: as a thunk, or as what its thunk gives when it is run.
pub fn pass_parameter(
    alloc: Global,
    blocks: &[BlockRecord],
    instrs: &[Lined],
    thunks: &[ThunkRecord],
    storage: &mut Storage,
    top: &mut Activation,
    below: &mut Vec<Activation>,
    formal_operand: i64,
    value: i64,
    procedure: i64,
) -> Flow
    requires short { top.old.registers.pc + 1 < 2 ^ 64 }
    requires fits { top.old.registers.depth ≤ length top.old.stack.items }
    requires others { AllFit below.old.items }
    ensures fits { top.new.registers.depth ≤ length top.new.stack.items }
    ensures others { AllFit below.new.items }
    ensures texts { storage.new.texts ≡ storage.old.texts }
    ensures image { storage.new.image ≡ storage.old.image }
    ensures row { (code : CodeOf) (l : LimitsOf) (line : ℕ) (now : Outside) → code.blocks ≡ blocks.now → code.instrs ≡ instrs.now → code.thunks ≡ thunks.now →
        Obeys result l line (λ o m a b. row code l o m a b line (Instr.Param formal_operand value procedure)) storage.old storage.new top.old.registers top.new.registers top.old.stack.items top.new.stack.items below.old.items below.new.items now now }
{
    let Some(number) = index(formal_operand) else {
        return Flow::NoRule;
    };
    let Some(formal) = formal_in_hand(blocks, &top.stack, top.registers.depth, number) else {
        return Flow::NoRule;
    };
    let operand = thunk_for(formal.shape, value, procedure);
    if is_by_name(formal.mode) {
        return push_thunk(thunks, &mut top.stack, &mut top.registers, operand);
    }
    run_thunk(alloc, instrs, thunks, storage, top, below, operand)
}

// The same end of a step of another instruction, with the line of that.
fn at_line(flow: Flow, line: Line) -> Flow
    ensures { (l : LimitsOf) (other : ℕ) (p : StorageOf) (r : Registers) (stack : List Slot) (below : List Activation) (before : Option (List ℕ)) (now : Outside) (run : Run Machine) →
        Leaves flow l line.0 p r stack below before now run → Leaves result l other p r stack below before now run }
{
    match flow {
        Flow::Fault(error) => Flow::FaultAt(error, line),
        Flow::Exhausted => Flow::ExhaustedAt(line),
        _ => flow,
    }
}

// What is on top of an activation that waits behind an instruction is copied, and the activation goes on there.
fn copy_passed(
    limits: &Limits,
    storage: &mut Storage,
    waiting: &mut Activation,
    copied: Copied,
    line: Line,
) -> Flow
    requires waits { 0 < waiting.old.registers.pc }
    requires fits { waiting.old.registers.depth ≤ length waiting.old.stack.items }
    requires some { 0 < waiting.old.registers.depth }
    requires images { HasImages storage.old.texts storage.old.image }
    ensures fits { waiting.new.registers.depth ≤ length waiting.new.stack.items }
    ensures valid { HasImages storage.new.texts storage.new.image }
    ensures row { (other : ℕ) (below : List Activation) (before : Option (List ℕ)) (now : Outside) (o : World) (m : Frames) → Stands limits.now storage.old waiting.old.registers waiting.old.stack.items below before now o m →
        Leaves result limits.now other storage.new waiting.new.registers waiting.new.stack.items below before now
        (popping (activation_of waiting.old).stack o (λ v st. copying_value Of plain ArrayValue array_in limits.now line.0 waiting.old.registers.home.stamp (copied_as copied) v o (λ v w. at w m (activation_of waiting.old) waiting.old.registers.pc (v ∷ st) (below_of below)))) }
{
    match copied {
        Copied::Nothing => Flow::On,
        Copied::Text => {
            waiting.registers.pc -= 1;
            let flow = copy_text(limits, storage, &mut waiting.stack, &mut waiting.registers);
            at_line(flow, line)
        }
        Copied::Array => {
            waiting.registers.pc -= 1;
            let flow = copy_array(limits, storage, &mut waiting.stack, &mut waiting.registers);
            at_line(flow, line)
        }
    }
}

/// What a thunk gave goes to the activation that waits for it, as its procedure in hand asks for it.
pub fn give_parameter(
    blocks: &[BlockRecord],
    classes: &[ClassRecord],
    limits: &Limits,
    storage: &mut Storage,
    waiting: &mut Activation,
    given: Slot,
    formal_operand: i64,
    line: Line,
) -> Flow
    requires waits { 0 < waiting.old.registers.pc }
    requires fits { waiting.old.registers.depth ≤ length waiting.old.stack.items }
    requires images { HasImages storage.old.texts storage.old.image }
    ensures fits { waiting.new.registers.depth ≤ length waiting.new.stack.items }
    ensures valid { HasImages storage.new.texts storage.new.image }
    ensures row { (code : CodeOf) (other : ℕ) (below : List Activation) (before : Option (List ℕ)) (now : Outside) (o : World) (m : Frames) (t q : ℤ) → code.blocks ≡ blocks.now → code.classes ≡ classes.now →
        Stands limits.now storage.old waiting.old.registers waiting.old.stack.items below before now o m → LeadsFrom storage.old o m given →
        Leaves result limits.now other storage.new waiting.new.registers waiting.new.stack.items below before now (thunk_given code limits.now o m (activation_of waiting.old) (below_of below) (value_of given) line.0 (Instr.Param formal_operand t q)) }
{
    let Some(number) = index(formal_operand) else {
        return Flow::NoRule;
    };
    let Some(formal) = formal_in_hand(blocks, &waiting.stack, waiting.registers.depth, number)
    else {
        return Flow::NoRule;
    };
    let Some(value) = value_given(storage, given) else {
        return Flow::NoRule;
    };
    match admit(&storage.frames, blocks, classes, class_held(formal), value) {
        Some(true) => {}
        Some(false) => return Flow::FaultAt(RunError::OutsideQualification, line),
        None => return Flow::NoRule,
    }
    let Some(depth) = stack::push(&mut waiting.stack, waiting.registers.depth, value) else {
        return Flow::NoRule;
    };
    waiting.registers.depth = depth;
    copy_passed(limits, storage, waiting, copied_for(formal), line)
}
