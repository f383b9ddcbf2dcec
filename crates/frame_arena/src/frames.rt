//! Frames, and their cells in one list of slots. A frame lies in a region, which is used again when the frame is given back; its number
//! in the order of entry is never used again. A reference to a frame has its region and, as its stamp, its number.
ghost use Rattle.std.specs.Prelude.{◌≡◌, ℕ, ◌<◌, List, ◌∷◌, Option, IfSome, Some, None, length, slice_get, slice_set, nat_lt, true, false};
ghost use Rattle.sim_values.specs.declared.value.FrameRef.{FrameRef};
ghost use Rattle.sim_chains.specs.Components.{Standing};
ghost use Rattle.sim_code.specs.Instances.{Instance, at_level as frame_of_level, entered, given, is_given_at_end as ends_for_good, is_live, with_instance};
ghost use Rattle.sim_code.specs.Machine.{Activation, Cells, Frames, Value, joined, cell as cell_of_frame, cell_set};
ghost use Rattle.frame_arena.specs.declared.slot.Slot.{Slot};
ghost use Rattle.frame_arena.specs.Frames.{Has, Holds, HoldsAfter, IsKeeping, IsSpan, KeptBefore, Leads, LeadsAfter, SlotLeads, StandsAs, cells_at, found_value, frame_at, instance_of, keeps_chain, number_in, number_there, rooms, span_number, stands_first};
ghost use Rattle.frame_arena.specs.Free.{FreeLists, live_instances, with_list};
ghost use Rattle.frame_arena.specs.Slots.{cell_value, value_of};
ghost use Rattle.frame_arena.specs.Stacks.{slot_at};
ghost use Rattle.sim_code.specs.Outcome.{ArrayOf};
ghost use Rattle.frame_arena.specs.Arrays.{AllLeadArrays, RegionOf, SlotLeadsArray};

use crate::slot::{NOTHING, Slot, SlotKind};
use sim_values::FrameRef;

/// How a frame stands as a component.
#[derive(Clone, Copy, Debug, PartialEq, Eq)]
pub enum Component {
    /// It is that of no object, and keeps no chain.
    NoObject,
    /// It is that of a system head whose main component waits while a resumed object operates.
    Waiting,
    /// It is that of an attached object.
    Attached,
    /// It is that of a detached object.
    Detached,
    /// It is that of a resumed object.
    Resumed,
    /// It is that of a terminated object.
    Terminated,
}

/// A frame in its region.
#[derive(Clone, Copy, Debug)]
pub struct Frame {
    /// Whether there is a frame in the region, or the region is free.
    pub live: bool,
    /// Its number in the order of entry.
    pub number: u64,
    /// Its block.
    pub block: u32,
    /// Its level.
    pub level: u32,
    /// The frame of its textual encloser, which the program's block lacks.
    pub parent: Option<FrameRef>,
    /// Whether it is a sub-block or procedure whose text has no class declaration and no prefixed block.
    pub passing: bool,
    /// Whether it is kept at its end.
    pub kept: bool,
    /// How it stands as a component.
    pub component: Component,
    /// Where its cells begin.
    pub base: u32,
    /// How many cells it has.
    pub cells: u32,
    /// Where its operand stack begins.
    pub floor: u32,
    /// How many values its operand stack holds.
    pub room: u32,
    /// The next free region of its block.
    pub next: u32,
}

/// How many regions have a frame, which is how many instances are not given back.
pub fn live(frames: &[Frame]) -> usize
    ensures instances { (cells : List Slot) (m : Frames) → Holds frames.now cells m → result ≡ live_instances m }
{
    frames.iter().filter(|frame| frame.live).count()
}

/// The region of a frame, if it was not given back.
#[inline(always)]
pub fn find(frames: &[Frame], at: FrameRef) -> Option<usize>
    ensures there { IfSome result (λ place. Has frames.now place at.stamp) }
    ensures place { IfSome result (λ place. place ≡ at.frame) }
    ensures gone { (m : Frames) → Leads frames.now m at → result ≡ None → (is_live m at.stamp ≡ true → ⊥) }
{
    let place = at.frame as usize;
    if place < frames.len() {
        let frame = &frames[place];
        if frame.live && frame.number == at.stamp {
            return Some(place);
        }
    }
    None
}

// The slot of a cell among as many from a place on, if it has a value.
#[inline(always)]
fn slot_in(cells: &[Slot], base: u32, count: u32, cell: usize) -> Option<Slot>
    ensures value { found_value result ≡ joined (slice_get (cells_at cells.now base count) cell) }
    ensures lies { IfSome result (λ s. (k : ℕ) × (s ≡ slot_at cells.now k)) }
{
    if cell >= count as usize {
        return None;
    }
    let at = base as usize + cell;
    if at >= cells.len() {
        return None;
    }
    match cells[at].kind {
        SlotKind::Empty => None,
        _ => Some(cells[at]),
    }
}

/// The value of a cell, where its frame was not given back, has such a cell, and there is a value in it.
#[inline(always)]
pub fn cell(frames: &[Frame], cells: &[Slot], at: FrameRef, cell: usize) -> Option<Slot>
    ensures value { (m : Frames) → Holds frames.now cells.now m → Leads frames.now m at → found_value result ≡ cell_of_frame m at.stamp cell }
    ensures lies { IfSome result (λ s. (k : ℕ) × (s ≡ slot_at cells.now k)) }
{
    let Some(place) = find(frames, at) else {
        return None;
    };
    slot_in(cells, frames[place].base, frames[place].cells, cell)
}

/// Where a frame and its cells lie, and its number and level.
#[derive(Clone, Copy, Debug)]
pub struct Span {
    /// The number of the frame in the order of entry.
    pub number: u64,
    /// The region that it is in.
    pub region: u32,
    /// Its level.
    pub level: u32,
    /// Where its cells begin.
    pub base: u32,
    /// How many cells it has.
    pub cells: u32,
}

/// That of the frame in a region.
#[inline(always)]
pub fn span_at(frames: &[Frame], region: u32) -> Span
    requires there { region < length frames.now }
    requires live { (frame_at frames.now region).live ≡ true }
    ensures span { IsSpan frames.now result }
    ensures number { result.number ≡ (frame_at frames.now region).number }
{
    let frame = &frames[region as usize];
    Span {
        number: frame.number,
        region,
        level: frame.level,
        base: frame.base,
        cells: frame.cells,
    }
}

/// The region of the frame of a level among a frame and its textual enclosers.
#[inline(never)]
pub fn region_at_level(frames: &[Frame], home: FrameRef, level: usize) -> Option<u32>
    ensures there { IfSome result (λ place. place < length frames.now) }
    ensures live { IfSome result (λ place. (frame_at frames.now place).live ≡ true) }
    ensures level { (cells : List Slot) (m : Frames) → Holds frames.now cells m → Leads frames.now m home → number_there frames.now result ≡ frame_of_level m level home.stamp }
{
    let mut at = home;
    for _ in 0..=home.stamp {
        let Some(place) = find(frames, at) else {
            return None;
        };
        let frame = &frames[place];
        if frame.level as usize == level {
            return Some(at.frame);
        }
        match frame.parent {
            Some(parent) => at = parent,
            None => return None,
        }
    }
    None
}

/// The frame of a level among a frame and its textual enclosers.
pub fn at_level(frames: &[Frame], home: FrameRef, level: usize) -> Option<FrameRef>
    ensures there { IfSome result (λ f. Has frames.now f.frame f.stamp) }
    ensures level { (cells : List Slot) (m : Frames) → Holds frames.now cells m → Leads frames.now m home → number_in result ≡ frame_of_level m level home.stamp }
{
    let Some(region) = region_at_level(frames, home, level) else {
        return None;
    };
    Some(FrameRef {
        frame: region,
        stamp: frames[region as usize].number,
    })
}

/// The span of the frame of a level among a frame and its textual enclosers. `own` is that of some frame: where this is the one, it is
/// not looked for.
#[inline(always)]
pub fn span_at_level(frames: &[Frame], own: Span, home: FrameRef, level: usize) -> Option<Span>
    requires own { IsSpan frames.now own }
    ensures span { IfSome result (λ s. IsSpan frames.now s) }
    ensures level { (cells : List Slot) (m : Frames) → Holds frames.now cells m → Leads frames.now m home → span_number result ≡ frame_of_level m level home.stamp }
{
    if own.number == home.stamp && own.level as usize == level {
        return Some(own);
    }
    let Some(region) = region_at_level(frames, home, level) else {
        return None;
    };
    Some(span_at(frames, region))
}

/// The value of a cell of a frame, where it has such a cell, and there is a value in it.
#[inline(always)]
pub fn cell_in(cells: &[Slot], span: Span, cell: usize) -> Option<Slot>
    ensures value { (frames : List Frame) (m : Frames) → Holds frames cells.now m → IsSpan frames span → found_value result ≡ cell_of_frame m span.number cell }
    ensures lies { IfSome result (λ s. (k : ℕ) × (s ≡ slot_at cells.now k)) }
{
    slot_in(cells, span.base, span.cells, cell)
}

/// Puts a value into a cell of a frame as one that a cell may hold, where it has such a cell.
#[inline(always)]
pub fn hold_in(cells: &mut [Slot], span: Span, cell: usize, slot: &Slot) -> bool
    ensures holds { (frames : List Frame) (m : Frames) → Holds frames cells.old m → IsSpan frames span → SlotLeads frames m slot.now →
        HoldsAfter result frames cells.new (cell_set m span.number cell (value_of slot.now)) }
    ensures leads { (frames : List Frame) (m : Frames) (v : Value) (r : FrameRef) → Leads frames m r → LeadsAfter frames (cell_set m span.number cell v) r }
    ensures arrays { (regions : List RegionOf) (arrays : List ArrayOf) → AllLeadArrays regions arrays cells.old → SlotLeadsArray regions arrays slot.now → AllLeadArrays regions arrays cells.new }
{
    if cell >= span.cells as usize {
        return false;
    }
    let k = span.base as usize + cell;
    if k >= cells.len() {
        return false;
    }
    match slot.kind {
        SlotKind::Empty => cells[k] = NOTHING,
        _ => cells[k] = *slot,
    }
    true
}

/// Whether the frame in a region is given back at its end.
#[inline(always)]
pub fn is_given_at_end(frames: &[Frame], place: usize) -> bool
    requires there { place < length frames.now }
    requires live { (frame_at frames.now place).live ≡ true }
    ensures { (cells : List Slot) (m : Frames) → Holds frames.now cells m → result ≡ ends_for_good m (frame_at frames.now place).number }
{
    let frame = &frames[place];
    frame.passing && !frame.kept
}

/// Gives the frame in a region back, which is free then and the first of those of its block. `heads` has the first of each block.
#[inline(always)]
pub fn give_back(frames: &mut [Frame], heads: &mut [u32], place: u32)
    requires there { place < length frames.old }
    requires live { (frame_at frames.old place).live ≡ true }
    ensures stacks { rooms frames.new ≡ rooms frames.old }
    ensures holds { (cells : List Slot) (m : Frames) → Holds frames.old cells m → Holds frames.new cells (given m (frame_at frames.old place).number) }
    ensures free { (frame_at frames.new place).live ≡ false }
    ensures first { let block = (frame_at frames.old place).block in
        block < length heads.old → slice_get heads.new block ≡ Some place }
    ensures leads { (cells : List Slot) (m : Frames) (r : FrameRef) → Holds frames.old cells m → Leads frames.old m r → Leads frames.new (given m (frame_at frames.old place).number) r }
    ensures chains { KeptBefore frames.old frames.new }
    ensures lists { (lists : ℕ → List ℕ) → FreeLists frames.old heads.old lists None →
        let block = (frame_at frames.old place).block in
        FreeLists frames.new heads.new (with_list lists block (place ∷ lists block)) None }
{
    let frame = &mut frames[place as usize];
    frame.live = false;
    let block = frame.block as usize;
    if block < heads.len() {
        frame.next = heads[block];
        heads[block] = place;
    }
}

/// What is entered.
#[derive(Clone, Copy, Debug)]
pub struct Entry {
    /// The number in the order of entry.
    pub number: u64,
    /// The block.
    pub block: u32,
    /// Its level.
    pub level: u32,
    /// The frame of its textual encloser, which the program's block lacks.
    pub parent: Option<FrameRef>,
    /// Whether it is a sub-block or procedure whose text has no class declaration and no prefixed block.
    pub passing: bool,
    /// Whether it is that of an object, which is attached at first.
    pub object: bool,
}

// How a frame stands at its entry.
#[inline(always)]
fn first_component(object: bool) -> Component
    ensures standing { StandsAs result (Some (stands_first object)) }
    ensures other { keeps_chain result ≡ false }
{
    if object {
        Component::Attached
    } else {
        Component::NoObject
    }
}

/// A frame enters a region that is free. Its cells have what lies there: `set_free` puts it there before.
#[inline(always)]
pub fn enter(frames: &mut [Frame], place: usize, entry: Entry)
    requires there { place < length frames.old }
    requires free { (frame_at frames.old place).live ≡ false }
    ensures stacks { rooms frames.new ≡ rooms frames.old }
    ensures here { Has frames.new place entry.number }
    ensures leads { (m : Frames) (x : Instance Cells) (standing : Standing Activation) (r : FrameRef) → Leads frames.old m r → Leads frames.new (entered m x standing) r }
    ensures holds { (cells : List Slot) (m : Frames) → Holds frames.old cells m → entry.number ≡ length m.instances → ((r : FrameRef) → entry.parent ≡ Some r → Leads frames.old m r) →
        let region = frame_at frames.old place in
        Holds frames.new cells (entered m (record { text = entry.block; level = entry.level; encloser = number_in entry.parent; cells = cells_at cells region.base region.cells; passing = entry.passing; kept = false; given_back = false }) (stands_first entry.object)) }
    ensures chains { KeptBefore frames.old frames.new }
    ensures lists { (heads : List ℕ) (lists : ℕ → List ℕ) → FreeLists frames.old heads lists (Some place) → entry.block < length heads → FreeLists frames.new heads lists None }
{
    let frame = &mut frames[place];
    frame.live = true;
    frame.number = entry.number;
    frame.block = entry.block;
    frame.level = entry.level;
    frame.parent = entry.parent;
    frame.passing = entry.passing;
    frame.kept = false;
    frame.component = first_component(entry.object);
}

/// Puts a value into a cell, where its frame was not given back and has such a cell.
#[inline(always)]
pub fn set_cell(frames: &[Frame], cells: &mut [Slot], at: FrameRef, cell: usize, slot: Slot) -> bool
    ensures holds { (m : Frames) → Holds frames.now cells.old m → Leads frames.now m at → SlotLeads frames.now m slot → cell_value slot ≡ Some (value_of slot) →
        HoldsAfter result frames.now cells.new (cell_set m at.stamp cell (value_of slot)) }
    ensures leads { (m : Frames) (v : Value) (r : FrameRef) → Leads frames.now m r → LeadsAfter frames.now (cell_set m at.stamp cell v) r }
    ensures arrays { (regions : List RegionOf) (arrays : List ArrayOf) → AllLeadArrays regions arrays cells.old → SlotLeadsArray regions arrays slot → AllLeadArrays regions arrays cells.new }
{
    let Some(place) = find(frames, at) else {
        return false;
    };
    let frame = &frames[place];
    if cell >= frame.cells as usize {
        return false;
    }
    let k = frame.base as usize + cell;
    if k >= cells.len() {
        return false;
    }
    cells[k] = slot;
    true
}

/// Puts a value, or none, into a cell of a region that is free, where it has such a cell.
#[inline(always)]
pub fn set_free(frames: &[Frame], cells: &mut [Slot], place: usize, cell: usize, slot: Slot) -> bool
    requires there { place < length frames.now }
    requires free { (frame_at frames.now place).live ≡ false }
    ensures holds { (m : Frames) → Holds frames.now cells.old m → SlotLeads frames.now m slot → Holds frames.now cells.new m }
    ensures written { (m : Frames) → Holds frames.now cells.old m → result ≡ nat_lt cell (frame_at frames.now place).cells }
    ensures cells { result ≡ true → let region = frame_at frames.now place in cells_at cells.new region.base region.cells ≡ slice_set (cells_at cells.old region.base region.cells) cell (cell_value slot) }
    ensures arrays { (regions : List RegionOf) (arrays : List ArrayOf) → AllLeadArrays regions arrays cells.old → SlotLeadsArray regions arrays slot → AllLeadArrays regions arrays cells.new }
{
    let frame = &frames[place];
    if cell >= frame.cells as usize {
        return false;
    }
    let k = frame.base as usize + cell;
    if k >= cells.len() {
        return false;
    }
    cells[k] = slot;
    true
}

/// Keeps the frame in a region, so that it is not given back at its end.
#[inline(always)]
pub fn keep(frames: &mut [Frame], place: usize)
    requires there { place < length frames.old }
    requires live { (frame_at frames.old place).live ≡ true }
    ensures stacks { rooms frames.new ≡ rooms frames.old }
    ensures holds { (cells : List Slot) (m : Frames) → Holds frames.old cells m →
        let frame = frame_at frames.old place in
        Holds frames.new cells (with_instance m frame.number (record (instance_of cells frame) { kept = true })) }
    ensures leads { (cells : List Slot) (m : Frames) (r : FrameRef) → Holds frames.old cells m → Leads frames.old m r →
        let frame = frame_at frames.old place in
        Leads frames.new (with_instance m frame.number (record (instance_of cells frame) { kept = true })) r }
    ensures chains { KeptBefore frames.old frames.new }
    ensures lists { (heads : List ℕ) (lists : ℕ → List ℕ) → FreeLists frames.old heads lists None → FreeLists frames.new heads lists None }
{
    frames[place].kept = true;
}

/// How the frame in a region stands as a component.
#[inline(always)]
pub fn component_at(frames: &[Frame], place: usize) -> Component
    requires there { place < length frames.now }
    ensures { result ≡ (frame_at frames.now place).component }
{
    frames[place].component
}

/// The frame in a region stands so from now on. What chain it keeps, where it keeps one, is for the caller to say.
#[inline(always)]
pub fn stand(frames: &mut [Frame], place: usize, component: Component)
    requires there { place < length frames.old }
    requires live { (frame_at frames.old place).live ≡ true }
    ensures stacks { rooms frames.new ≡ rooms frames.old }
    ensures holds { (cells : List Slot) (m : Frames) (standing : Standing Activation) → StandsAs component (Some standing) → Holds frames.old cells m →
        Holds frames.new cells (record m { standings = slice_set m.standings (frame_at frames.old place).number standing }) }
    ensures leads { (m : Frames) (standings : List (Standing Activation)) (r : FrameRef) → Leads frames.old m r → Leads frames.new (record m { standings = standings }) r }
    ensures has { (at number : ℕ) → Has frames.old at number → Has frames.new at number }
    ensures chains { (at number : ℕ) (c : Component) → (at ≡ place → ⊥) → IsKeeping frames.new at number c → IsKeeping frames.old at number c }
    ensures stands { (frame_at frames.new place).component ≡ component }
    ensures lists { (heads : List ℕ) (lists : ℕ → List ℕ) → FreeLists frames.old heads lists None → FreeLists frames.new heads lists None }
{
    frames[place].component = component;
}
