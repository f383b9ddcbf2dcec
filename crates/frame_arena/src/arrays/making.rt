//! New arrays.
ghost use Rattle.std.specs.Prelude.{◌≡◌, ℕ, ◌+◌, ◌-◌, ◌<◌, ◌≤◌, ◌^◌, ◌++◌, ◌∷◌, List, IfOk, IfSome, Ok, Some, None, length, map, replicate, [], true, false};
ghost use Rattle.sim_values.specs.Plain.{initial};
ghost use Rattle.sim_values.specs.Words.{array_words};
ghost use Rattle.sim_code.specs.Arrays.{element_set, given_with, keeping_array, words_of_array, words_with};
ghost use Rattle.sim_code.specs.Events.{having};
ghost use Rattle.sim_code.specs.Instances.{ElementPlace};
ghost use Rattle.sim_code.specs.Machine.{Frames, Machine, Of, value_at};
ghost use Rattle.sim_code.specs.Outcome.{ArrayOf, Run, World};
ghost use Rattle.frame_arena.specs.declared.frames.Frame.{Frame};
ghost use Rattle.frame_arena.specs.Arrays.{ArrayLeads, ArraysAfter, ElementsLead, HoldsArrays, KeepLeading, KeepLeadingAfter, Lies, array_at, copied_array, is_live_array, kept_world, made_array, names_array, no_arrays, owned_world, region_at, array_of, entering, IsSound};
ghost use Rattle.frame_arena.specs.Frames.{AllLead, names_frame};
ghost use Rattle.frame_arena.specs.Slots.{plain_of, value_of};
ghost use Rattle.frame_arena.specs.Stacks.{slot_at};

use super::Arrays;
use crate::region::Region;
use crate::slot::{NOTHING, Slot};
use sim_values::{ArrayRef, Kind, TextVal};
use std::alloc::{AllocError, Global};

/// The most arrays that a run can make.
const MOST_ARRAYS: u64 = 1 << 62;

/// The text of no characters.
const NOTEXT: TextVal = TextVal {
    text_frame: 0,
    start: 1,
    length: 0,
    pos: 1,
};

// The value of an element of a new array.
fn first_element(kind: Kind) -> Slot
    ensures value { value_of result ≡ Of (initial kind) }
    ensures plain { plain_of result ≡ initial kind }
    ensures scalar { names_frame result.kind ≡ false }
{
    match kind {
        Kind::Integer => Slot::integer(0),
        Kind::Boolean => Slot::truth(false),
        Kind::Character => Slot::character(0),
        Kind::Text => Slot::text(NOTEXT),
        Kind::Reference => NOTHING,
    }
}

// The elements of a new array.
fn first_elements(alloc: Global, kind: Kind, count: usize) -> Result<Vec<Slot>, AllocError>
    ensures values { IfOk result (λ v. map plain_of v.items ≡ replicate count (initial kind)) }
    ensures plain { IfOk result (λ v. (at : ℕ) → value_of (slot_at v.items at) ≡ Of (plain_of (slot_at v.items at))) }
    ensures long { IfOk result (λ v. length v.items ≡ count) }
    ensures leads { IfOk result (λ v. (frames : List Frame) (m : Frames) → AllLead frames m v.items) }
{
    let first = first_element(kind);
    let elements = vec![in alloc; first; count]?;
    Ok(elements)
}

impl Arrays {
    // Takes a free region, or makes one.
    fn take_free(&mut self, alloc: Global) -> Result<usize, AllocError>
        ensures there { IfOk result (λ place. place < length self.new.regions) }
        ensures free { IfOk result (λ place. (region_at self.new.regions place).live ≡ false) }
        ensures holds { IfOk result (λ place. (arrays : List ArrayOf) → HoldsArrays self.old arrays → HoldsArrays self.new arrays) }
        ensures leads { IfOk result (λ place. (arrays : List ArrayOf) → KeepLeading self.old arrays self.new arrays) }
        ensures elements { IfOk result (λ place. (frames : List Frame) (m : Frames) → ElementsLead frames m self.old.regions → ElementsLead frames m self.new.regions) }
        ensures made { self.new.made ≡ self.old.made }
        ensures places { IfOk result (λ place. place < 2 ^ 32) }
    {
        let place = self.free as usize;
        if place < self.regions.len() && !self.regions[place].is_live() {
            self.free = self.regions[place].next();
            return Ok(place);
        }
        let place = self.regions.len();
        if u32::try_from(place).is_err() {
            return Err(AllocError);
        }
        self.regions.push(Region::new(alloc))?;
        self.free = place as u32;
        Ok(place)
    }

    // An array enters a region that is free.
    fn enter(
        &mut self,
        place: usize,
        owner: u64,
        bounds: Vec<(i64, i64)>,
        elements: Vec<Slot>,
    ) -> ArrayRef
        requires there { place < length self.old.regions }
        requires short { place < 2 ^ 32 }
        requires free { (region_at self.old.regions place).live ≡ false }
        requires few { self.old.made < 2 ^ 63 }
        ensures stamp { result.stamp ≡ self.old.made }
        ensures holds { (arrays : List ArrayOf) → HoldsArrays self.old arrays → IsSound (entering self.old.made owner bounds.items elements.items) → HoldsArrays self.new (arrays ++ array_of (entering self.old.made owner bounds.items elements.items) ∷ []) }
        ensures leads { (arrays : List ArrayOf) (x : ArrayOf) → HoldsArrays self.old arrays → KeepLeading self.old arrays self.new (arrays ++ x ∷ []) }
        ensures here { (arrays : List ArrayOf) (x : ArrayOf) → HoldsArrays self.old arrays → ArrayLeads self.new.regions (arrays ++ x ∷ []) result }
        ensures elements { (frames : List Frame) (m : Frames) → ElementsLead frames m self.old.regions → AllLead frames m elements.items → ElementsLead frames m self.new.regions }
    {
        let stamp = self.made;
        self.regions[place].enter(stamp, owner, bounds, elements);
        self.made = stamp + 1;
        self.newest = self.newest.max(owner);
        ArrayRef {
            array: place as u32,
            stamp,
        }
    }

    /// A new array with these bounds, of elements of a kind. `words` are the words of an array with these bounds.
    pub fn make(
        &mut self,
        alloc: Global,
        owner: u64,
        kind: Kind,
        bounds: Vec<(i64, i64)>,
        words: u64,
    ) -> Result<ArrayRef, AllocError>
        requires words { array_words bounds.items ≡ Ok words }
        ensures short { IfOk result (λ r. r.stamp < 2 ^ 63) }
        ensures number { IfOk result (λ r. (arrays : List ArrayOf) → HoldsArrays self.old arrays → r.stamp ≡ length arrays) }
        ensures holds { IfOk result (λ r. (arrays : List ArrayOf) → HoldsArrays self.old arrays → HoldsArrays self.new (arrays ++ made_array bounds.items kind owner ∷ [])) }
        ensures leads { IfOk result (λ r. (arrays : List ArrayOf) → HoldsArrays self.old arrays → KeepLeading self.old arrays self.new (arrays ++ made_array bounds.items kind owner ∷ [])) }
        ensures here { IfOk result (λ r. (arrays : List ArrayOf) → HoldsArrays self.old arrays → ArrayLeads self.new.regions (arrays ++ made_array bounds.items kind owner ∷ []) r) }
        ensures elements { IfOk result (λ r. (frames : List Frame) (m : Frames) → ElementsLead frames m self.old.regions → ElementsLead frames m self.new.regions) }
    {
        if self.made >= MOST_ARRAYS {
            return Err(AllocError);
        }
        let count = (words - 3 - 2 * bounds.len() as u64) as usize;
        let elements = first_elements(alloc, kind, count)?;
        let place = self.take_free(alloc)?;
        Ok(self.enter(place, owner, bounds, elements))
    }

    /// An array with the bounds and elements of the array in a region.
    pub fn copy(&mut self, alloc: Global, from: usize, owner: u64) -> Result<ArrayRef, AllocError>
        requires there { from < length self.old.regions }
        requires live { (region_at self.old.regions from).live ≡ true }
        ensures short { IfOk result (λ r. r.stamp < 2 ^ 63) }
        ensures number { IfOk result (λ r. (arrays : List ArrayOf) → HoldsArrays self.old arrays → r.stamp ≡ length arrays) }
        ensures holds { IfOk result (λ r. (arrays : List ArrayOf) (a : ArrayOf) → HoldsArrays self.old arrays → array_at arrays (region_at self.old.regions from).number ≡ Some a → HoldsArrays self.new (arrays ++ copied_array a owner ∷ [])) }
        ensures leads { IfOk result (λ r. (arrays : List ArrayOf) (x : ArrayOf) → HoldsArrays self.old arrays → KeepLeading self.old arrays self.new (arrays ++ x ∷ [])) }
        ensures here { IfOk result (λ r. (arrays : List ArrayOf) (x : ArrayOf) → HoldsArrays self.old arrays → ArrayLeads self.new.regions (arrays ++ x ∷ []) r) }
        ensures elements { IfOk result (λ r. (frames : List Frame) (m : Frames) → ElementsLead frames m self.old.regions → ElementsLead frames m self.new.regions) }
    {
        if self.made >= MOST_ARRAYS {
            return Err(AllocError);
        }
        let bounds = Vec::from_slice(alloc, self.regions[from].bounds())?;
        let elements = Vec::from_slice(alloc, self.regions[from].elements())?;
        let place = self.take_free(alloc)?;
        Ok(self.enter(place, owner, bounds, elements))
    }
}
