//! Arrays in regions that are used again, with numbers that are never used again. A reference to an array has its region and, as its
//! stamp, its number.
ghost use Rattle.std.specs.Prelude.{◌≡◌, ℕ, ◌+◌, ◌-◌, ◌<◌, ◌≤◌, ◌^◌, ◌++◌, ◌∷◌, List, IfOk, IfSome, Ok, Some, None, length, [], true, false};
ghost use Rattle.sim_values.specs.Plain.{Plain};
ghost use Rattle.sim_values.specs.Words.{array_words};
ghost use Rattle.sim_code.specs.Arrays.{element_set, given_with, keeping_array, words_of_array, words_with};
ghost use Rattle.sim_code.specs.Events.{having};
ghost use Rattle.sim_code.specs.Instances.{ElementPlace};
ghost use Rattle.sim_code.specs.Machine.{Frames, Machine, Of, value_at};
ghost use Rattle.sim_code.specs.Outcome.{ArrayOf, Run, World};
ghost use Rattle.frame_arena.specs.declared.frames.Frame.{Frame};
ghost use Rattle.frame_arena.specs.declared.slot.Slot.{Slot};
ghost use Rattle.frame_arena.specs.Arrays.{ArrayLeads, ArraysAfter, ElementsLead, HoldsArrays, KeepLeading, KeepLeadingAfter, Lies, array_at, words_if, copied_array, is_live_array, kept_world, made_array, names_array, no_arrays, owned_world, region_at};
ghost use Rattle.frame_arena.specs.Frames.{SlotLeads, found_value};
ghost use Rattle.frame_arena.specs.Slots.{value_of};

mod making;
mod owners;
mod subscripts;

use crate::region::Region;
use crate::slot::Slot;
use sim_values::ArrayRef;
use std::alloc::Global;
use std::marker::Model;

/// All arrays. Contracts see the regions, how many arrays were made, and two numbers that say where to look.
#[derive(Debug, Drop)]
pub struct Arrays {
    regions: Vec<Region>,
    made: u64,
    newest: u64,
    free: u32,
}

impl Model for Arrays {
    ghost use Rattle.frame_arena.specs.Arrays.{ArraysOf};

    ghost Value = { ArraysOf };

    ghost view = { λ a. record { regions = a.regions.items; made = a.made; newest = a.newest; free = a.free } };
}

impl Arrays {
    /// No arrays.
    pub fn new(alloc: Global) -> Arrays
        ensures none { result ≡ no_arrays }
        ensures holds { HoldsArrays result [] }
    {
        Arrays {
            regions: Vec::new(alloc),
            made: 0,
            newest: 0,
            free: 0,
        }
    }

    /// The region of an array, if it was not given back.
    #[inline(always)]
    pub fn find(&self, at: ArrayRef) -> Option<usize>
        ensures there { IfSome result (λ place. Lies self.now.regions place at.stamp) }
        ensures place { IfSome result (λ place. place ≡ at.array) }
        ensures gone { (arrays : List ArrayOf) → ArrayLeads self.now.regions arrays at → result ≡ None → array_at arrays at.stamp ≡ None }
    {
        let place = at.array as usize;
        if place < self.regions.len() {
            let region = &self.regions[place];
            if region.is_live() && region.number() == at.stamp {
                return Some(place);
            }
        }
        None
    }

    /// The value of an element, where the array was not given back and has such an element.
    #[inline(always)]
    pub fn element(&self, at: ArrayRef, index: u32) -> Option<Slot>
        ensures value { (o : World) (m : Frames) (class : ℕ) → HoldsArrays self.now o.arrays → ArrayLeads self.now.regions o.arrays at → found_value result ≡ value_at o m (ElementPlace at.stamp index class) }
        ensures plain { (arrays : List ArrayOf) → HoldsArrays self.now arrays → IfSome result (λ s. names_array s.kind ≡ false) }
        ensures leads { (frames : List Frame) (m : Frames) → ElementsLead frames m self.now.regions → IfSome result (λ s. SlotLeads frames m s) }
    {
        let place = self.find(at)?;
        let elements = self.regions[place].elements();
        if (index as usize) < elements.len() {
            return Some(elements[index as usize]);
        }
        None
    }

    /// Puts a plain value into an element, where the array was not given back and has such an element.
    #[inline(always)]
    pub fn set_element(&mut self, at: ArrayRef, index: u32, slot: Slot) -> bool
        ensures holds { (o : World) (p : Plain) → HoldsArrays self.old o.arrays → ArrayLeads self.old.regions o.arrays at → value_of slot ≡ Of p → ArraysAfter result self.new (element_set o at.stamp index p) }
        ensures leads { (o : World) (p : Plain) → HoldsArrays self.old o.arrays → KeepLeadingAfter self.old o.arrays self.new (element_set o at.stamp index p) }
        ensures elements { (frames : List Frame) (m : Frames) → ElementsLead frames m self.old.regions → SlotLeads frames m slot → ElementsLead frames m self.new.regions }
    {
        let Some(place) = self.find(at) else {
            return false;
        };
        if (index as usize) < self.regions[place].elements().len() {
            self.regions[place].set(index as usize, slot);
            return true;
        }
        false
    }

    /// The words of an array, if it was not given back.
    pub fn words(&self, at: ArrayRef) -> Option<u64>
        ensures { (arrays : List ArrayOf) → HoldsArrays self.now arrays → ArrayLeads self.now.regions arrays at → result ≡ words_if (array_at arrays at.stamp) }
    {
        let place = self.find(at)?;
        let region = &self.regions[place];
        Some(3 + region.elements().len() as u64 + 2 * region.bounds().len() as u64)
    }

    /// Keeps an array, if it was not given back.
    pub fn keep(&mut self, at: ArrayRef) -> bool
        ensures row { (o : World) (go : World → Run Machine) → keeping_array at.stamp o go ≡ having (kept_world o at.stamp) o go }
        ensures holds { (o : World) → HoldsArrays self.old o.arrays → ArrayLeads self.old.regions o.arrays at → ArraysAfter result self.new (kept_world o at.stamp) }
        ensures leads { (o : World) → HoldsArrays self.old o.arrays → KeepLeadingAfter self.old o.arrays self.new (kept_world o at.stamp) }
        ensures elements { (frames : List Frame) (m : Frames) → ElementsLead frames m self.old.regions → ElementsLead frames m self.new.regions }
    {
        let Some(place) = self.find(at) else {
            return false;
        };
        self.regions[place].keep();
        true
    }

    /// An array goes over to an instance, if it was not given back.
    pub fn hand_over(&mut self, at: ArrayRef, owner: u64)
        ensures holds { (o : World) → HoldsArrays self.old o.arrays → ArrayLeads self.old.regions o.arrays at → HoldsArrays self.new (owned_world o at.stamp owner).arrays }
        ensures leads { (o : World) → HoldsArrays self.old o.arrays → KeepLeading self.old o.arrays self.new (owned_world o at.stamp owner).arrays }
        ensures elements { (frames : List Frame) (m : Frames) → ElementsLead frames m self.old.regions → ElementsLead frames m self.new.regions }
    {
        let Some(place) = self.find(at) else {
            return;
        };
        self.regions[place].set_owner(owner);
        self.newest = self.newest.max(owner);
    }
}
