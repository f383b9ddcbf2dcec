//! New regions for frames.
ghost use Rattle.std.specs.Prelude.{◌≡◌, ◌+◌, ◌<◌, ℕ, List, [], ◌∷◌, IfOk, IfSome, MatchOption, Some, None, length, slice_get, false};
ghost use Rattle.sim_code.specs.Machine.{Frames};
ghost use Rattle.frame_arena.specs.declared.frames.Frame.{Frame};
ghost use Rattle.sim_code.specs.Outcome.{ArrayOf};
ghost use Rattle.frame_arena.specs.Arrays.{AllLeadArrays, RegionOf};
ghost use Rattle.frame_arena.specs.Free.{AllHaveShape, FreeLists, with_list};
ghost use Rattle.frame_arena.specs.Frames.{Holds, frame_at, HasShape, KeptBefore, Laid, Leads, rooms};
ghost use Rattle.sim_values.specs.declared.value.FrameRef.{FrameRef};

use crate::frames::{Component, Frame};
use crate::slot::{EMPTY, Slot};
use std::alloc::AllocError;

/// No region has this number, which ends a list of free regions.
pub const NO_REGION: u32 = u32::MAX;

// As many slots more, none of which has a value.
fn grow(slots: &mut Vec<Slot>, count: u32) -> Result<(), AllocError>
    ensures long { IfOk result (λ _. length slots.new.items ≡ length slots.old.items + count) }
    ensures holds { IfOk result (λ _. (frames : List Frame) (m : Frames) → Holds frames slots.old.items m → Holds frames slots.new.items m) }
    ensures arrays { IfOk result (λ _. (regions : List RegionOf) (arrays : List ArrayOf) → AllLeadArrays regions arrays slots.old.items → AllLeadArrays regions arrays slots.new.items) }
{
    for _ in 0..count {
        slots.push(EMPTY)?;
    }
    Ok(())
}

/// A new region that is free, with as many cells and as much room for operands. It answers its place, or want of memory, as where
/// there would be 2^32 cells, operands or regions.
pub fn add_region(
    frames: &mut Vec<Frame>,
    cells: &mut Vec<Slot>,
    stacks: &mut Vec<Slot>,
    count: u32,
    room: u32,
) -> Result<usize, AllocError>
    ensures place { IfOk result (λ place. place ≡ length frames.old.items) }
    ensures more { IfOk result (λ place. length frames.new.items ≡ place + 1) }
    ensures free { IfOk result (λ place. (frame_at frames.new.items place).live ≡ false) }
    ensures cells { IfOk result (λ place. (frame_at frames.new.items place).cells ≡ count) }
    ensures room { IfOk result (λ place. (frame_at frames.new.items place).room ≡ room) }
    ensures operands { IfOk result (λ place. (frame_at frames.new.items place).floor + room ≡ length stacks.new.items) }
    ensures holds { IfOk result (λ place. (m : Frames) → Holds frames.old.items cells.old.items m → Holds frames.new.items cells.new.items m) }
    ensures leads { IfOk result (λ place. (m : Frames) (r : FrameRef) → Leads frames.old.items m r → Leads frames.new.items m r) }
    ensures chains { IfOk result (λ place. KeptBefore frames.old.items frames.new.items) }
    ensures arrays { IfOk result (λ place. (regions : List RegionOf) (arrays : List ArrayOf) → AllLeadArrays regions arrays cells.old.items → AllLeadArrays regions arrays cells.new.items) }
    ensures stacks { IfOk result (λ place. Laid 0 (rooms frames.old.items) (length stacks.old.items) → Laid 0 (rooms frames.new.items) (length stacks.new.items)) }
    ensures lists { IfOk result (λ place. (heads : List ℕ) (lists : ℕ → List ℕ) → FreeLists frames.old.items heads lists None → FreeLists frames.new.items heads lists (Some place)) }
{
    let Ok(base) = u32::try_from(cells.len()) else {
        return Err(AllocError);
    };
    let Ok(floor) = u32::try_from(stacks.len()) else {
        return Err(AllocError);
    };
    let place = frames.len();
    if place >= NO_REGION as usize {
        return Err(AllocError);
    }
    grow(cells, count)?;
    grow(stacks, room)?;
    frames.push(Frame {
        live: false,
        number: 0,
        block: 0,
        level: 0,
        parent: None,
        passing: false,
        kept: false,
        component: Component::NoObject,
        base,
        cells: count,
        floor,
        room,
        next: 0,
    })?;
    Ok(place)
}

/// Takes a region out of the list of those of a block that are free, if there is one with as many cells and as much room. `heads`
/// has for each block the place of the region that was given back last.
#[inline(always)]
pub fn take_free(
    frames: &[Frame],
    heads: &mut [u32],
    block: u32,
    cells: u32,
    room: u32,
) -> Option<usize>
    ensures there { IfSome result (λ place. place < length frames.now) }
    ensures free { IfSome result (λ place. (frame_at frames.now place).live ≡ false) }
    ensures shape { IfSome result (λ place. HasShape (frame_at frames.now place) cells room) }
    ensures first { (place : ℕ) → slice_get heads.old block ≡ Some place → place < length frames.now → (frame_at frames.now place).live ≡ false →
        HasShape (frame_at frames.now place) cells room → result ≡ Some place }
    ensures lists { (lists : ℕ → List ℕ) → FreeLists frames.now heads.old lists None → block < length heads.old →
        MatchOption result ((heads.new ≡ heads.old) × (AllHaveShape frames.now block cells room → lists block ≡ []))
        (λ place. (rest : List ℕ) × (lists block ≡ place ∷ rest) × FreeLists frames.now heads.new (with_list lists block rest) (Some place)) }
{
    if block as usize >= heads.len() {
        return None;
    }
    let place = heads[block as usize] as usize;
    if place >= frames.len() {
        return None;
    }
    let frame = &frames[place];
    if frame.live || frame.cells != cells || frame.room != room {
        return None;
    }
    heads[block as usize] = frame.next;
    Some(place)
}
