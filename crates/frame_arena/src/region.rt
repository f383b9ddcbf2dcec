//! A region of arrays.
ghost use Rattle.std.specs.Prelude.{◌≡◌, ◌+◌, ◌*◌, ◌-◌, ◌<◌, List, [], length, set, slice_get, true, false, IfSome, IfOk};
ghost use Rattle.sim_base.specs.declared.run_error.RunError.{RunError};
ghost use Rattle.sim_values.specs.Words.{element_count};
ghost use Rattle.sim_values.specs.Plain.{initial};
ghost use Rattle.frame_arena.specs.Arrays.{RegionOf, no_region};
ghost use Rattle.frame_arena.specs.Slots.{plain_of};

use crate::slot::Slot;
use std::alloc::{AllocError, Global};
use std::marker::Model;

/// A region of arrays: an array in it, or none. Contracts see what it has.
#[derive(Debug, Drop)]
pub struct Region {
    live: bool,
    number: u64,
    owner: u64,
    kept: bool,
    next: u32,
    bounds: Vec<(i64, i64)>,
    elements: Vec<Slot>,
}

impl Model for Region {
    ghost use Rattle.frame_arena.specs.Arrays.{RegionOf};

    ghost Value = { RegionOf };

    ghost view = { λ r. record { live = r.live; number = r.number; owner = r.owner; kept = r.kept; next = r.next; bounds = r.bounds.items; elements = r.elements.items } };
}

impl Region {
    /// A region that is free.
    pub fn new(alloc: Global) -> Region
        ensures { result ≡ no_region }
    {
        Region {
            live: false,
            number: 0,
            owner: 0,
            kept: false,
            next: 0,
            bounds: Vec::new(alloc),
            elements: Vec::new(alloc),
        }
    }

    /// Whether there is an array in it.
    #[inline(always)]
    pub fn is_live(&self) -> bool
        ensures { result ≡ self.now.live }
    {
        self.live
    }

    /// The number of its array.
    #[inline(always)]
    pub fn number(&self) -> u64
        ensures { result ≡ self.now.number }
    {
        self.number
    }

    /// The instance that the array belongs to.
    #[inline(always)]
    pub fn owner(&self) -> u64
        ensures { result ≡ self.now.owner }
    {
        self.owner
    }

    /// Whether the array is kept.
    #[inline(always)]
    pub fn is_kept(&self) -> bool
        ensures { result ≡ self.now.kept }
    {
        self.kept
    }

    /// The next free region.
    pub fn next(&self) -> u32
        ensures { result ≡ self.now.next }
    {
        self.next
    }

    /// The bounds of the array.
    #[inline(always)]
    pub fn bounds(&self) -> &[(i64, i64)]
        ensures { result.now ≡ self.now.bounds }
    {
        self.bounds.as_slice()
    }

    /// The elements of the array.
    #[inline(always)]
    pub fn elements(&self) -> &[Slot]
        ensures { result.now ≡ self.now.elements }
    {
        self.elements.as_slice()
    }

    /// An array enters the region.
    pub fn enter(&mut self, number: u64, owner: u64, bounds: Vec<(i64, i64)>, elements: Vec<Slot>)
        ensures { self.new ≡ record { live = true; number = number; owner = owner; kept = false; next = self.old.next; bounds = bounds.items; elements = elements.items } }
    {
        self.live = true;
        self.number = number;
        self.owner = owner;
        self.kept = false;
        self.bounds = bounds;
        self.elements = elements;
    }

    /// The array is given back, and its memory with it. `next` is the region that was free before.
    pub fn leave(&mut self, next: u32)
        ensures { self.new ≡ record (self.old) { live = false; next = next; bounds = []; elements = [] } }
    {
        let alloc = *self.elements.allocator();
        self.live = false;
        self.next = next;
        self.bounds = Vec::new(alloc);
        self.elements = Vec::new(alloc);
    }

    /// The array is kept.
    #[inline(always)]
    pub fn keep(&mut self)
        ensures { self.new ≡ record (self.old) { kept = true } }
    {
        self.kept = true;
    }

    /// The array goes over to an instance.
    #[inline(always)]
    pub fn set_owner(&mut self, owner: u64)
        ensures { self.new ≡ record (self.old) { owner = owner } }
    {
        self.owner = owner;
    }

    /// Puts a value into an element.
    #[inline(always)]
    pub fn set(&mut self, index: usize, slot: Slot)
        requires { index < length self.old.elements }
        ensures { self.new ≡ record (self.old) { elements = set self.old.elements index slot } }
    {
        self.elements[index] = slot;
    }

    /// So many words of storage less those of the array: 3, one for each element and two for each dimension.
    pub fn words_less(&self, used: u64) -> u64
        ensures { result ≡ used - (3 + length self.now.elements + 2 * length self.now.bounds) }
    {
        let dimensions = self.bounds.len() as u64;
        used.saturating_sub(3)
            .saturating_sub(self.elements.len() as u64)
            .saturating_sub(dimensions)
            .saturating_sub(dimensions)
    }
}
