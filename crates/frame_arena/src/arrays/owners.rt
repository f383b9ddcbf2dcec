//! The arrays that go with an instance when it ends.
ghost use Rattle.std.specs.Prelude.{◌≡◌, ℕ, ◌+◌, ◌-◌, ◌<◌, ◌≤◌, ◌^◌, ◌++◌, ◌∷◌, List, IfOk, IfSome, Ok, Some, None, length, [], true, false};
ghost use Rattle.sim_values.specs.Plain.{Plain};
ghost use Rattle.sim_values.specs.Words.{array_words};
ghost use Rattle.sim_code.specs.Arrays.{element_set, given_with, keeping_array, words_of_array, words_with};
ghost use Rattle.sim_code.specs.Events.{having};
ghost use Rattle.sim_code.specs.Instances.{ElementPlace};
ghost use Rattle.sim_code.specs.Machine.{Frames, Machine, Of, value_at};
ghost use Rattle.sim_code.specs.Outcome.{ArrayOf, Run, World};
ghost use Rattle.frame_arena.specs.declared.frames.Frame.{Frame};
ghost use Rattle.frame_arena.specs.Arrays.{ArrayLeads, ArraysAfter, ElementsLead, HoldsArrays, KeepLeading, KeepLeadingAfter, Lies, array_at, copied_array, is_live_array, kept_world, made_array, names_array, no_arrays, owned_world, region_at, array_of, given_at, goes};
ghost use Rattle.frame_arena.specs.Frames.{SlotLeads, found_value};
ghost use Rattle.frame_arena.specs.Slots.{value_of};

use super::Arrays;

impl Arrays {
    /// Gives back the arrays of an instance that are not kept. It answers so many words less those of these arrays.
    pub fn give_back_owned(&mut self, owner: u64, used: u64) -> u64
        ensures holds { (arrays : List ArrayOf) → HoldsArrays self.old arrays → HoldsArrays self.new (given_with owner arrays) }
        ensures words { (arrays : List ArrayOf) → HoldsArrays self.old arrays → result ≡ used - words_with owner arrays }
        ensures leads { (arrays : List ArrayOf) → HoldsArrays self.old arrays → KeepLeading self.old arrays self.new (given_with owner arrays) }
        ensures elements { (frames : List Frame) (m : Frames) → ElementsLead frames m self.old.regions → ElementsLead frames m self.new.regions }
    {
        if owner > self.newest {
            return used;
        }
        self.give_back_all(owner, used)
    }

    // Whether there is an array in a region that is given back with this instance.
    #[inline(always)]
    fn goes(&self, place: usize, owner: u64) -> bool
        requires there { place < length self.now.regions }
        ensures { result ≡ goes (region_at self.now.regions place) owner }
    {
        let region = &self.regions[place];
        region.is_live() && region.owner() == owner && !region.is_kept()
    }

    // The owner of the array in a region, or 0 where there is none that goes with its owner.
    #[inline(always)]
    fn owner_at(&self, place: usize) -> u64
        requires there { place < length self.now.regions }
        ensures { (number : ℕ) → Lies self.now.regions place number → (region_at self.now.regions place).kept ≡ false → result ≡ (region_at self.now.regions place).owner }
    {
        let region = &self.regions[place];
        if region.is_live() && !region.is_kept() {
            return region.owner();
        }
        0
    }

    // Gives back the array in a region, and answers so many words less those of the array.
    fn give_back_at(&mut self, place: usize, used: u64) -> u64
        requires there { place < length self.old.regions }
        requires live { (region_at self.old.regions place).live ≡ true }
        ensures same { length self.new.regions ≡ length self.old.regions }
        ensures newest { self.new.newest ≡ self.old.newest }
        ensures others { (q : ℕ) → (q ≡ place → ⊥) → region_at self.new.regions q ≡ region_at self.old.regions q }
        ensures free { (region_at self.new.regions place).live ≡ false }
        ensures holds { (arrays : List ArrayOf) → HoldsArrays self.old arrays → HoldsArrays self.new (given_at arrays (region_at self.old.regions place).number) }
        ensures words { (arrays : List ArrayOf) → HoldsArrays self.old arrays → result ≡ used - words_of_array (array_of (region_at self.old.regions place)) }
        ensures leads { (arrays : List ArrayOf) → HoldsArrays self.old arrays → KeepLeading self.old arrays self.new (given_at arrays (region_at self.old.regions place).number) }
        ensures elements { (frames : List Frame) (m : Frames) → ElementsLead frames m self.old.regions → ElementsLead frames m self.new.regions }
    {
        let left = self.regions[place].words_less(used);
        self.regions[place].leave(self.free);
        self.free = place.min(u32::MAX as usize) as u32;
        left
    }

    // Looks at every region.
    fn give_back_all(&mut self, owner: u64, used: u64) -> u64
        ensures holds { (arrays : List ArrayOf) → HoldsArrays self.old arrays → HoldsArrays self.new (given_with owner arrays) }
        ensures words { (arrays : List ArrayOf) → HoldsArrays self.old arrays → result ≡ used - words_with owner arrays }
        ensures leads { (arrays : List ArrayOf) → HoldsArrays self.old arrays → KeepLeading self.old arrays self.new (given_with owner arrays) }
        ensures elements { (frames : List Frame) (m : Frames) → ElementsLead frames m self.old.regions → ElementsLead frames m self.new.regions }
    {
        let mut left = used;
        let mut newest = 0;
        for place in 0..self.regions.len() {
            if self.goes(place, owner) {
                left = self.give_back_at(place, left);
            } else {
                newest = self.owner_at(place).max(newest);
            }
        }
        self.newest = newest;
        left
    }
}
