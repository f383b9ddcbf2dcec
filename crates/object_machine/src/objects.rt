//! Rows on references to objects, and on addresses with a class.
ghost use Rattle.std.specs.Prelude.{◌≡◌, ℕ, ◌+◌, ◌<◌, ◌≤◌, ◌∷◌, ◌^◌, List, Option, length};
ghost use Rattle.sim_base.specs.declared.limits.Limits.{Limits as LimitsOf};
ghost use Rattle.sim_values.specs.Plain.{Object, Truth};
ghost use Rattle.sim_code.specs.declared.instr.Instr.{Instr};
ghost use Rattle.sim_code.specs.Arrays.{finding_element};
ghost use Rattle.sim_code.specs.Classes.{class_named as class_named_of, qualifying as qualifying_of};
ghost use Rattle.sim_code.specs.Code.{CodeOf};
ghost use Rattle.sim_code.specs.Events.{having, pop_object, pop_plain, pop_reference, when};
ghost use Rattle.sim_code.specs.Instances.{CellPlace, ElementPlace};
ghost use Rattle.sim_code.specs.Machine.{Address, Frames, Of, array_in, cell_at, has_cell, index as index_of, level as at_level_of, on, place_in, plain};
ghost use Rattle.sim_code.specs.Rows.{pushed, qualified, row};
ghost use Rattle.frame_arena.specs.Frames.{Holds, SlotLeads};
ghost use Rattle.frame_arena.specs.Slots.{value_of};
ghost use Rattle.object_machine.specs.declared.machine.Storage.{Storage as StorageOf};
ghost use Rattle.object_machine.specs.Classing.{admits, class_in_place, tests, unclassed};
ghost use Rattle.object_machine.specs.Standing.{HasImages, Obeys, Outside};

use crate::arrays::{element_address, put_down};
use crate::cells::{frame_cell, level_frame};
use crate::classes::{
    Qualification, Reference, class_named, in_class, main_in_class, may_stand, qualify,
    reference_in, test,
};
use crate::machine::{Activation, Flow, Registers, Storage};
use crate::operands::push;
use crate::placing::is_image;
use frame_arena::frames::Frame;
use frame_arena::{Arrays, Slot, SlotKind, stack};
use sim_base::RunError;
use sim_code::{BlockRecord, ClassRecord};

/// Pushes the frame of a level as a reference.
pub fn this(frames: &[Frame], stack: &mut [Slot], regs: &mut Registers, level: i64) -> Flow
    requires fits { regs.old.depth ≤ length stack.old }
    requires short { regs.old.pc + 1 < 2 ^ 64 }
    ensures fits { regs.new.depth ≤ length stack.new }
    ensures row { (l : LimitsOf) (line : ℕ) (p : StorageOf) (below : List Activation) (now : Outside) → p.frames.items ≡ frames.now →
        Obeys result l line (λ o m a b. at_level_of m a level o (λ j. pushed o m a b (Of (Object j)))) p p regs.old regs.new stack.old stack.new below below now now }
{
    let Some(frame) = level_frame(frames, regs.home, level) else {
        return Flow::NoRule;
    };
    if frame.stamp >= 1 << 63 {
        return Flow::Memory;
    }
    push(stack, regs, Slot::object(frame))
}

/// A reference on top stays where it is no `none`.
pub fn not_none(stack: &[Slot], regs: &mut Registers) -> Flow
    requires fits { regs.old.depth ≤ length stack.now }
    requires short { regs.old.pc + 1 < 2 ^ 64 }
    ensures fits { regs.new.depth ≤ length stack.now }
    ensures row { (l : LimitsOf) (line : ℕ) (p : StorageOf) (below : List Activation) (now : Outside) →
        Obeys result l line (λ o m a b. pop_reference plain line a.stack o (λ v st. on o m a (Of v ∷ st) b)) p p regs.old regs.new stack.now stack.now below below now now }
{
    let Some(at) = stack::pop(stack, regs.depth) else {
        return Flow::NoRule;
    };
    match reference_in(stack[at]) {
        Reference::Object(_) => {
            regs.pc += 1;
            Flow::On
        }
        Reference::Main(_) => {
            regs.pc += 1;
            Flow::On
        }
        Reference::IsNone => Flow::Fault(RunError::AccessThroughNone),
        Reference::Other => Flow::NoRule,
    }
}

// A reference on top stays where it was found inside a class.
#[inline(always)]
fn qualified(regs: &mut Registers, inside: Option<bool>) -> Flow
    requires short { regs.old.pc + 1 < 2 ^ 64 }
    ensures depth { regs.new.depth ≡ regs.old.depth }
    ensures row { (l : LimitsOf) (line : ℕ) (p : StorageOf) (stack : List Slot) (below : List Activation) (now : Outside) →
        Obeys result l line (λ o m a b. qualifying_of line inside o (on o m a a.stack b)) p p regs.old regs.new stack stack below below now now }
{
    match inside {
        Some(true) => {
            regs.pc += 1;
            Flow::On
        }
        Some(false) => Flow::Fault(RunError::OutsideQualification),
        None => Flow::NoRule,
    }
}

/// A reference on top stays where what it names is in a class.
pub fn qua(
    frames: &[Frame],
    blocks: &[BlockRecord],
    classes: &[ClassRecord],
    stack: &[Slot],
    regs: &mut Registers,
    operand: i64,
) -> Flow
    requires fits { regs.old.depth ≤ length stack.now }
    requires short { regs.old.pc + 1 < 2 ^ 64 }
    ensures fits { regs.new.depth ≤ length stack.now }
    ensures row { (code : CodeOf) (l : LimitsOf) (line : ℕ) (p : StorageOf) (below : List Activation) (now : Outside) → code.blocks ≡ blocks.now → code.classes ≡ classes.now → p.frames.items ≡ frames.now →
        Obeys result l line (λ o m a b. row code l o m a b line (Instr.Qua operand)) p p regs.old regs.new stack.now stack.now below below now now }
{
    let Some(class) = class_named(classes, operand) else {
        return Flow::NoRule;
    };
    let Some(at) = stack::pop(stack, regs.depth) else {
        return Flow::NoRule;
    };
    match reference_in(stack[at]) {
        Reference::Object(object) => {
            let inside = in_class(frames, blocks, classes, class, object);
            qualified(regs, inside)
        }
        Reference::Main(block) => {
            let inside = main_in_class(frames, blocks, classes, class, block);
            qualified(regs, inside)
        }
        Reference::IsNone => Flow::Fault(RunError::AccessThroughNone),
        Reference::Other => Flow::NoRule,
    }
}

/// Tells of the reference on top whether it is of just this class, or whether it is in this class.
pub fn test_class(
    frames: &[Frame],
    blocks: &[BlockRecord],
    classes: &[ClassRecord],
    same: bool,
    stack: &mut [Slot],
    regs: &mut Registers,
    operand: i64,
) -> Flow
    requires fits { regs.old.depth ≤ length stack.old }
    requires short { regs.old.pc + 1 < 2 ^ 64 }
    ensures fits { regs.new.depth ≤ length stack.new }
    ensures row { (code : CodeOf) (l : LimitsOf) (line : ℕ) (p : StorageOf) (below : List Activation) (now : Outside) → code.blocks ≡ blocks.now → code.classes ≡ classes.now → p.frames.items ≡ frames.now →
        Obeys result l line (λ o m a b. having (class_named_of code operand) o (λ c. pop_plain plain a.stack o (λ v st. having (tests same code m c v) o (λ h. on o m a (Of (Truth h) ∷ st) b)))) p p regs.old regs.new stack.old stack.new below below now now }
{
    let Some(class) = class_named(classes, operand) else {
        return Flow::NoRule;
    };
    let Some(at) = stack::pop(stack, regs.depth) else {
        return Flow::NoRule;
    };
    let Some(holds) = test(frames, blocks, classes, same, class, stack[at]) else {
        return Flow::NoRule;
    };
    stack[at] = Slot::truth(holds);
    regs.pc += 1;
    Flow::On
}

// The address of a cell of the object on top.
fn attribute(
    frames: &[Frame],
    stack: &mut [Slot],
    regs: &mut Registers,
    cell: i64,
    class: u32,
) -> Flow
    requires fits { regs.old.depth ≤ length stack.old }
    requires short { regs.old.pc + 1 < 2 ^ 64 }
    ensures fits { regs.new.depth ≤ length stack.new }
    ensures row { (l : LimitsOf) (line : ℕ) (p : StorageOf) (below : List Activation) (now : Outside) → p.frames.items ≡ frames.now →
        Obeys result l line (λ o m a b. pop_object plain line a.stack o (λ j st. index_of cell o (λ c. when (has_cell m j c) o (on o m a (Address (CellPlace j c class) ∷ st) b)))) p p regs.old regs.new stack.old stack.new below below now now }
{
    let Some(at) = stack::pop(stack, regs.depth) else {
        return Flow::NoRule;
    };
    match reference_in(stack[at]) {
        Reference::Object(object) => {
            let Some(number) = frame_cell(frames, object, cell) else {
                return Flow::NoRule;
            };
            if object.stamp >= 1 << 63 {
                return Flow::Memory;
            }
            stack[at] = Slot::cell(object, number, class);
            regs.pc += 1;
            Flow::On
        }
        Reference::Main(_) => Flow::NoRule,
        Reference::IsNone => Flow::Fault(RunError::AccessThroughNone),
        Reference::Other => Flow::NoRule,
    }
}

/// The address of a cell of the object on top, with a class.
pub fn attribute_address(
    frames: &[Frame],
    classes: &[ClassRecord],
    stack: &mut [Slot],
    regs: &mut Registers,
    cell: i64,
    class: i64,
) -> Flow
    requires fits { regs.old.depth ≤ length stack.old }
    requires short { regs.old.pc + 1 < 2 ^ 64 }
    ensures fits { regs.new.depth ≤ length stack.new }
    ensures row { (code : CodeOf) (l : LimitsOf) (line : ℕ) (p : StorageOf) (below : List Activation) (now : Outside) → code.classes ≡ classes.now → p.frames.items ≡ frames.now →
        Obeys result l line (λ o m a b. row code l o m a b line (Instr.AddrR cell class)) p p regs.old regs.new stack.old stack.new below below now now }
{
    match qualify(classes, class) {
        Qualification::Class(number) => attribute(frames, stack, regs, cell, number),
        Qualification::NoRule => Flow::NoRule,
        Qualification::Memory => Flow::Memory,
    }
}

// Pushes the address of a cell.
fn cell_address(
    frames: &[Frame],
    stack: &mut [Slot],
    regs: &mut Registers,
    level: i64,
    cell: i64,
    class: u32,
) -> Flow
    requires fits { regs.old.depth ≤ length stack.old }
    requires short { regs.old.pc + 1 < 2 ^ 64 }
    ensures fits { regs.new.depth ≤ length stack.new }
    ensures row { (l : LimitsOf) (line : ℕ) (p : StorageOf) (below : List Activation) (now : Outside) → p.frames.items ≡ frames.now →
        Obeys result l line (λ o m a b. cell_at m a level cell o (λ j c. when (has_cell m j c) o (pushed o m a b (Address (CellPlace j c class))))) p p regs.old regs.new stack.old stack.new below below now now }
{
    let Some(frame) = level_frame(frames, regs.home, level) else {
        return Flow::NoRule;
    };
    let Some(number) = frame_cell(frames, frame, cell) else {
        return Flow::NoRule;
    };
    if frame.stamp >= 1 << 63 {
        return Flow::Memory;
    }
    push(stack, regs, Slot::cell(frame, number, class))
}

/// Pushes the address of a cell, with a class.
pub fn qualified_address(
    frames: &[Frame],
    classes: &[ClassRecord],
    stack: &mut [Slot],
    regs: &mut Registers,
    level: i64,
    cell: i64,
    class: i64,
) -> Flow
    requires fits { regs.old.depth ≤ length stack.old }
    requires short { regs.old.pc + 1 < 2 ^ 64 }
    ensures fits { regs.new.depth ≤ length stack.new }
    ensures row { (code : CodeOf) (l : LimitsOf) (line : ℕ) (p : StorageOf) (below : List Activation) (now : Outside) → code.classes ≡ classes.now → p.frames.items ≡ frames.now →
        Obeys result l line (λ o m a b. row code l o m a b line (Instr.Addr level cell class)) p p regs.old regs.new stack.old stack.new below below now now }
{
    match qualify(classes, class) {
        Qualification::Class(number) => cell_address(frames, stack, regs, level, cell, number),
        Qualification::NoRule => Flow::NoRule,
        Qualification::Memory => Flow::Memory,
    }
}

/// The address of an element, with a class.
pub fn qualified_element(
    arrays: &Arrays,
    classes: &[ClassRecord],
    stack: &mut [Slot],
    regs: &mut Registers,
    count: i64,
    class: i64,
) -> Flow
    requires fits { regs.old.depth ≤ length stack.old }
    requires short { regs.old.pc + 1 < 2 ^ 64 }
    ensures fits { regs.new.depth ≤ length stack.new }
    ensures row { (code : CodeOf) (l : LimitsOf) (line : ℕ) (p : StorageOf) (below : List Activation) (now : Outside) → code.classes ≡ classes.now → p.arrays ≡ arrays.now →
        Obeys result l line (λ o m a b. row code l o m a b line (Instr.Elem count class)) p p regs.old regs.new stack.old stack.new below below now now }
{
    match qualify(classes, class) {
        Qualification::Class(number) => element_address(arrays, stack, regs, count, number),
        Qualification::NoRule => Flow::NoRule,
        Qualification::Memory => Flow::Memory,
    }
}

// The class that goes with an address, or 0.
#[inline(always)]
fn class_at(slot: Slot) -> u32
    ensures { result ≡ class_in_place (place_in (value_of slot)) }
{
    match slot.kind {
        SlotKind::Cell => slot.class,
        SlotKind::Element => slot.class,
        _ => 0,
    }
}

// The same address without a class.
#[inline(always)]
fn without_class(slot: Slot) -> Slot
    ensures place { place_in (value_of result) ≡ unclassed (place_in (value_of slot)) }
    ensures same { result ≡ record slot { class = 0 } }
{
    Slot { class: 0, ..slot }
}

// Whether a value may be put where an address with this class leads.
#[inline(always)]
pub fn admit(
    frames: &[Frame],
    blocks: &[BlockRecord],
    classes: &[ClassRecord],
    class: u32,
    value: Slot,
) -> Option<bool>
    ensures row { (code : CodeOf) (cells : List Slot) (m : Frames) → code.blocks ≡ blocks.now → code.classes ≡ classes.now → Holds frames.now cells m → SlotLeads frames.now m value →
        result ≡ admits code m class (plain (value_of value)) }
{
    if class == 0 {
        return Some(true);
    }
    may_stand(frames, blocks, classes, class as usize, value)
}

/// Puts a value where an address below it leads, if it may stand there.
pub fn qualified_put(
    blocks: &[BlockRecord],
    classes: &[ClassRecord],
    storage: &mut Storage,
    stack: &[Slot],
    regs: &mut Registers,
) -> Flow
    requires fits { regs.old.depth ≤ length stack.now }
    requires short { regs.old.pc + 1 < 2 ^ 64 }
    ensures fits { regs.new.depth ≤ length stack.now }
    ensures valid { HasImages storage.old.texts storage.old.image → HasImages storage.new.texts storage.new.image }
    ensures row { (code : CodeOf) (l : LimitsOf) (line : ℕ) (below : List Activation) (now : Outside) → code.blocks ≡ blocks.now → code.classes ≡ classes.now →
        Obeys result l line (λ o m a b. row code l o m a b line Instr.Put) storage.old storage.new regs.old regs.new stack.now stack.now below below now now }
{
    if regs.depth < 2 {
        return Flow::NoRule;
    }
    let at = regs.depth - 2;
    let address = stack[at];
    let value = stack[at + 1];
    if is_image(address) {
        return Flow::NoRule;
    }
    let class = class_at(address);
    let Some(admitted) = admit(&storage.frames, blocks, classes, class, value) else {
        return Flow::NoRule;
    };
    if !admitted {
        return Flow::Fault(RunError::OutsideQualification);
    }
    let plain_address = without_class(address);
    put_down(storage, plain_address, value, at, regs)
}
