//! New frames.
ghost use Rattle.std.specs.Prelude.{◌≡◌, ◌<◌, ◌≤◌, ◌^◌, ◌++◌, ◌∷◌, [], ℕ, List, Option, IfOk, IsOk, Some, None, length, map, replicate, false, Vec, vec_capacity, vec_len};
ghost use Rattle.sim_code.specs.Machine.{Frames, first_value, passes as passes_of};
ghost use Rattle.sim_code.specs.Outcome.{ArrayOf, World};
ghost use Rattle.sim_values.specs.declared.value.FrameRef.{FrameRef as Reference};
ghost use Rattle.sim_base.specs.declared.limits.Limits.{Limits};
ghost use Rattle.frame_arena.specs.Arrays.{AllLeadArrays, RegionOf, names_array};
ghost use Rattle.frame_arena.specs.Frames.{Holds, KeptBefore, Leads, cells_at, frame_at, names_frame};
ghost use Rattle.frame_arena.specs.Slots.{cell_value, empty_slot};
ghost use Rattle.object_machine.specs.Entering.{Opens, as_frame as as_frame_of};
ghost use Rattle.object_machine.specs.Standing.{Outside, Stores, parked};

use crate::machine::{Activation, Registers, Storage};
use frame_arena::frames::{self, Entry, Frame};
use frame_arena::regions::{add_region, take_free};
use frame_arena::{EMPTY, NOTHING, Slot, SlotKind};
use sim_code::{BlockKind, BlockRecord, CodeType, Stage};
use sim_values::FrameRef;
use std::alloc::{AllocError, Global};
use std::mem;

// What a cell of a type holds at the entry.
#[inline(always)]
fn first_slot(code_type: CodeType) -> Slot
    ensures value { cell_value result ≡ first_value code_type }
    ensures no_frame { names_frame result.kind ≡ false }
    ensures no_array { names_array result.kind ≡ false }
{
    match code_type {
        CodeType::Nothing => EMPTY,
        CodeType::Integer => Slot {
            kind: SlotKind::Integer,
            ..EMPTY
        },
        CodeType::Boolean => Slot {
            kind: SlotKind::Truth,
            ..EMPTY
        },
        CodeType::Character => Slot {
            kind: SlotKind::Character,
            ..EMPTY
        },
        CodeType::Text => Slot {
            kind: SlotKind::Text,
            more: 1,
            data: 1,
            ..EMPTY
        },
        CodeType::Reference => NOTHING,
    }
}

// A region that is free, with so many cells. A new one has no operand stack to spare, and nothing is parked there.
#[inline(always)]
fn reserve(
    frames: &mut Vec<Frame>,
    cells: &mut Vec<Slot>,
    spares: &mut Vec<Vec<Slot>>,
    parks: &mut Vec<Vec<Activation>>,
    heads: &mut [u32],
    block: u32,
    count: u32,
) -> Result<usize, AllocError>
    ensures there { IfOk result (λ place. place < length frames.new.items) }
    ensures free { IfOk result (λ place. (frame_at frames.new.items place).live ≡ false) }
    ensures cells { IfOk result (λ place. (frame_at frames.new.items place).cells ≡ count) }
    ensures holds { IfOk result (λ place. (m : Frames) → Holds frames.old.items cells.old.items m → Holds frames.new.items cells.new.items m) }
    ensures leads { IfOk result (λ place. (m : Frames) (r : Reference) → Leads frames.old.items m r → Leads frames.new.items m r) }
    ensures arrays { IfOk result (λ place. (regions : List RegionOf) (arrays : List ArrayOf) → AllLeadArrays regions arrays cells.old.items → AllLeadArrays regions arrays cells.new.items) }
    ensures chains { IfOk result (λ place. KeptBefore frames.old.items frames.new.items) }
    ensures each { IfOk result (λ place. length parks.old.items ≡ length frames.old.items → length parks.new.items ≡ length frames.new.items) }
    ensures parked { IfOk result (λ place. (at : ℕ) → parked parks.new.items at ≡ parked parks.old.items at) }
{
    if let Some(place) = take_free(frames, heads, block, count, 0) {
        return Ok(place);
    }
    let alloc = *frames.allocator();
    spares.push(Vec::new(alloc))?;
    parks.push(Vec::new(alloc))?;
    let mut stacks = Vec::new(alloc);
    add_region(frames, cells, &mut stacks, count, 0)
}

/// A new operand stack with no value.
#[inline(always)]
pub fn new_stack(alloc: Global, room: usize) -> Result<Vec<Slot>, AllocError>
    ensures { IfOk result (λ v. v.items ≡ replicate room empty_slot) }
{
    vec![in alloc; EMPTY; room]
}

// An operand stack with no value: the one that is to spare in a region, where it has the room, or a new one.
#[inline(always)]
fn take_stack(
    alloc: Global,
    spares: &mut [Vec<Slot>],
    place: usize,
    room: usize,
) -> Result<Vec<Slot>, AllocError>
    ensures { IfOk result (λ v. v.items ≡ replicate room empty_slot) }
{
    if place < spares.len() {
        let mut stack = mem::replace(&mut spares[place], Vec::new(alloc));
        if stack.len() == room {
            stack.fill(EMPTY);
            return Ok(stack);
        }
    }
    new_stack(alloc, room)
}

/// An operand stack with no value: the last of those that are idle, or a new one. Where one is idle that had as much room before, no memory
/// is taken.
#[inline(always)]
pub fn take_idle(
    alloc: Global,
    idle: &mut Vec<Vec<Slot>>,
    room: usize,
) -> Result<Vec<Slot>, AllocError>
    ensures empty { IfOk result (λ v. v.items ≡ replicate room empty_slot) }
    ensures ready { (front : List (Vec Slot Global)) (last : Vec Slot Global) → idle.old.items ≡ front ++ last ∷ [] → room ≤ vec_capacity last → IsOk result }
{
    let Some(mut stack) = idle.pop() else {
        return new_stack(alloc, room);
    };
    if stack.len() == room {
        stack.fill(EMPTY);
        return Ok(stack);
    }
    stack.clear();
    stack.resize(room, EMPTY)?;
    Ok(stack)
}

/// An operand stack becomes idle, if there is memory to note it.
#[inline(always)]
pub fn keep_idle(idle: &mut Vec<Vec<Slot>>, stack: Vec<Slot>)
    ensures { vec_len idle.old < vec_capacity idle.old → idle.new.items ≡ idle.old.items ++ stack ∷ [] }
{
    match idle.push(stack) {
        Ok(()) => {}
        Err(_) => {}
    }
}

// The cells of a free region get their first values.
#[inline(always)]
fn fill_first(frames: &[Frame], cells: &mut [Slot], place: usize, types: &[CodeType])
    requires there { place < length frames.now }
    requires free { (frame_at frames.now place).live ≡ false }
    requires count { (frame_at frames.now place).cells ≡ length types.now }
    ensures holds { (m : Frames) → Holds frames.now cells.old m → Holds frames.now cells.new m }
    ensures arrays { (regions : List RegionOf) (arrays : List ArrayOf) → AllLeadArrays regions arrays cells.old → AllLeadArrays regions arrays cells.new }
    ensures cells { (m : Frames) → Holds frames.now cells.old m → cells_at cells.new (frame_at frames.now place).base (length types.now) ≡ map first_value types.now }
{
    for at in 0..types.len() {
        let slot = first_slot(types[at]);
        frames::set_free(frames, cells, place, at, slot);
    }
}

/// How a frame begins.
#[derive(Clone, Copy)]
pub struct Beginning {
    /// The index of its first instruction.
    pub start: usize,
    /// Which of its levels is under way then.
    pub stage: Stage,
    /// Whether it is that of an object.
    pub object: bool,
}

/// How the frame of a sub-block or a procedure begins.
#[inline(always)]
pub fn as_frame(block: &BlockRecord) -> Beginning
    ensures { result ≡ as_frame_of block.now }
{
    Beginning {
        start: block.entry as usize,
        stage: Stage::NoStage,
        object: false,
    }
}

// Whether the frame of a block passes: that of a class-free sub-block or procedure.
#[inline(always)]
fn passes(kind: BlockKind, class_free: bool) -> bool
    ensures { result ≡ passes_of kind class_free }
{
    match kind {
        BlockKind::SubBlock => class_free,
        BlockKind::Procedure => class_free,
        BlockKind::Object => false,
        BlockKind::Prefixed => false,
    }
}

/// A new frame of a block, with its first values, which is not yet on the chain. It answers want of memory also where there would be
/// 2^32 - 1 regions or 2^63 frames.
#[inline(always)]
pub fn open(
    alloc: Global,
    storage: &mut Storage,
    number: u32,
    block: &BlockRecord,
    beginning: Beginning,
    parent: Option<FrameRef>,
) -> Result<Activation, AllocError>
    ensures texts { storage.new.texts ≡ storage.old.texts }
    ensures image { storage.new.image ≡ storage.old.image }
    ensures fits { IfOk result (λ t. t.registers.depth ≤ length t.stack.items) }
    ensures row { IfOk result (λ t. (l : Limits) (before : Option (List ℕ)) (now : Outside) (o : World) (m : Frames) → Stores l storage.old before now o m → ((r : Reference) → parent ≡ Some r → Leads storage.old.frames.items m r) →
        Opens l storage.old storage.new number block.now beginning parent t before now o m) }
{
    let Ok(count) = u32::try_from(block.types.len()) else {
        return Err(AllocError);
    };
    if storage.entered >= 1 << 63 {
        return Err(AllocError);
    }
    let place = reserve(
        &mut storage.frames,
        &mut storage.cells,
        &mut storage.spares,
        &mut storage.parks,
        &mut storage.heads,
        number,
        count,
    )?;
    let Ok(region) = u32::try_from(place) else {
        return Err(AllocError);
    };
    let stack = take_stack(alloc, &mut storage.spares, place, block.room as usize)?;
    fill_first(&storage.frames, &mut storage.cells, place, &block.types);
    let entry = Entry {
        number: storage.entered,
        block: number,
        level: block.level,
        parent,
        passing: passes(block.kind, block.class_free),
        object: beginning.object,
    };
    frames::enter(&mut storage.frames, place, entry);
    storage.entered += 1;
    Ok(Activation {
        registers: Registers {
            home: FrameRef {
                frame: region,
                stamp: entry.number,
            },
            thunk: None,
            pc: beginning.start,
            depth: 0,
            stage: beginning.stage,
        },
        stack,
    })
}
