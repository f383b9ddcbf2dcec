//! Chains that detached objects and system heads keep.
ghost use Rattle.std.specs.Prelude.{◌≡◌, ℕ, ◌<◌, [], List, Option, Some, length, map, slice_set, true, false};
ghost use Rattle.sim_base.specs.declared.limits.Limits.{Limits as LimitsOf};
ghost use Rattle.sim_chains.specs.Components.{Standing, kept as kept_of, kept_as};
ghost use Rattle.sim_chains.specs.Chains.{outermost};
ghost use Rattle.sim_code.specs.Machine.{Activation as ActivationOf, Frames, owner};
ghost use Rattle.sim_code.specs.Outcome.{World};
ghost use Rattle.frame_arena.specs.Frames.{Has, StandsAs, frame_at, keeping, keeps_chain};
ghost use Rattle.object_machine.specs.Standing.{AllAtWork, AllFit, Outside, Stores, activation_of, parked};
ghost use Rattle.object_machine.specs.Transferring.{Anew};

use crate::machine::{Activation, Storage};
use crate::owners::is_thunk;
use frame_arena::frames::{self, Component};
use std::alloc::Global;
use std::mem;

// What is parked in a region is taken out, with its room. There is a park for each region, so that no run comes to one without.
fn take_park(parks: &mut [Vec<Activation>], place: usize, alloc: Global) -> Vec<Activation>
    ensures each { length parks.new ≡ length parks.old }
    ensures elsewhere { (at : ℕ) → (at ≡ place → ⊥) → parked parks.new at ≡ parked parks.old at }
    ensures empty { place < length parks.old → parked parks.new place ≡ [] }
    ensures chain { place < length parks.old → result.items ≡ parked parks.old place }
{
    if place >= parks.len() {
        return Vec::new(alloc);
    }
    mem::replace(&mut parks[place], Vec::new(alloc))
}

// A chain is parked in a region. There is a park for each region, so that no run comes to one without.
fn put_park(parks: &mut [Vec<Activation>], place: usize, chain: Vec<Activation>)
    ensures each { length parks.new ≡ length parks.old }
    ensures elsewhere { (at : ℕ) → (at ≡ place → ⊥) → parked parks.new at ≡ parked parks.old at }
    ensures chain { place < length parks.old → parked parks.new place ≡ chain.items }
{
    if place < parks.len() {
        parks[place] = chain;
    }
}

/// The frame in a region stands so from now on, and keeps no chain.
pub fn stand(storage: &mut Storage, place: usize, component: Component)
    requires there { place < length storage.old.frames.items }
    requires live { (frame_at storage.old.frames.items place).live ≡ true }
    requires free { keeps_chain component ≡ false }
    ensures texts { storage.new.texts ≡ storage.old.texts }
    ensures image { storage.new.image ≡ storage.old.image }
    ensures has { (at number : ℕ) → Has storage.old.frames.items at number → Has storage.new.frames.items at number }
    ensures stands { (number : ℕ) (l : LimitsOf) (before : Option (List ℕ)) (now : Outside) (o : World) (m : Frames) (standing : Standing ActivationOf) →
        Has storage.old.frames.items place number → StandsAs component (Some standing) → Stores l storage.old before now o m → Anew l storage.old storage.new before now o m (slice_set m.standings number standing) }
{
    frames::stand(&mut storage.frames, place, component);
}

/// The chain that is kept in a region is taken out, and the frame there stands so from now on, and keeps none.
pub fn take_chain(storage: &mut Storage, place: usize, component: Component) -> Vec<Activation>
    requires there { place < length storage.old.frames.items }
    requires live { (frame_at storage.old.frames.items place).live ≡ true }
    requires free { keeps_chain component ≡ false }
    ensures texts { storage.new.texts ≡ storage.old.texts }
    ensures image { storage.new.image ≡ storage.old.image }
    ensures has { (at number : ℕ) → Has storage.old.frames.items at number → Has storage.new.frames.items at number }
    ensures chain { place < length storage.old.parks.items → result.items ≡ parked storage.old.parks.items place }
    ensures stands { (number : ℕ) (l : LimitsOf) (before : Option (List ℕ)) (now : Outside) (o : World) (m : Frames) (standing : Standing ActivationOf) →
        Has storage.old.frames.items place number → StandsAs component (Some standing) → Stores l storage.old before now o m → Anew l storage.old storage.new before now o m (slice_set m.standings number standing) }
{
    let alloc = *storage.frames.allocator();
    let chain = take_park(&mut storage.parks, place, alloc);
    frames::stand(&mut storage.frames, place, component);
    chain
}

/// The frame in a region stands so from now on, and keeps a chain.
pub fn keep_chain(storage: &mut Storage, place: usize, component: Component, chain: Vec<Activation>)
    requires there { place < length storage.old.frames.items }
    requires live { (frame_at storage.old.frames.items place).live ≡ true }
    requires keeps { keeps_chain component ≡ true }
    requires fits { AllFit chain.items }
    ensures texts { storage.new.texts ≡ storage.old.texts }
    ensures image { storage.new.image ≡ storage.old.image }
    ensures has { (at number : ℕ) → Has storage.old.frames.items at number → Has storage.new.frames.items at number }
    ensures stands { (number : ℕ) (l : LimitsOf) (before : Option (List ℕ)) (now : Outside) (o : World) (m : Frames) → Has storage.old.frames.items place number → Stores l storage.old before now o m → AllAtWork storage.old o m chain.items →
        Anew l storage.old storage.new before now o m (slice_set m.standings number (keeping component (map activation_of chain.items))) }
{
    put_park(&mut storage.parks, place, chain);
    frames::stand(&mut storage.frames, place, component);
}

/// A chain is kept by the object that is the outermost on it, and detached then; a thunk keeps none, nor does one that was given back.
pub fn keep_by_object(storage: &mut Storage, chain: Vec<Activation>)
    requires fits { AllFit chain.items }
    ensures texts { storage.new.texts ≡ storage.old.texts }
    ensures image { storage.new.image ≡ storage.old.image }
    ensures has { (at number : ℕ) → Has storage.old.frames.items at number → Has storage.new.frames.items at number }
    ensures stands { (l : LimitsOf) (before : Option (List ℕ)) (now : Outside) (o : World) (m : Frames) (operating : List ActivationOf) → Stores l storage.old before now o m → AllAtWork storage.old o m chain.items →
        Anew l storage.old storage.new before now o m (kept_as owner (outermost owner (map activation_of chain.items)) (map activation_of chain.items) (record { operating = operating; standings = m.standings })).standings }
{
    if chain.len() == 0 {
        return;
    }
    let outermost = chain[chain.len() - 1].registers;
    if is_thunk(&outermost) {
        return;
    }
    let Some(place) = frames::find(&storage.frames, outermost.home) else {
        return;
    };
    keep_chain(storage, place, Component::Detached, chain);
}

/// What stood above a system head is kept by the component of the system that operates: as the main chain, by the head itself, or by
/// the resumed object.
pub fn keep_above(storage: &mut Storage, head: usize, above: Vec<Activation>)
    requires there { head < length storage.old.frames.items }
    requires live { (frame_at storage.old.frames.items head).live ≡ true }
    requires fits { AllFit above.items }
    ensures texts { storage.new.texts ≡ storage.old.texts }
    ensures image { storage.new.image ≡ storage.old.image }
    ensures has { (at number : ℕ) → Has storage.old.frames.items at number → Has storage.new.frames.items at number }
    ensures stands { (number : ℕ) (l : LimitsOf) (before : Option (List ℕ)) (now : Outside) (o : World) (m : Frames) (operating : List ActivationOf) → Has storage.old.frames.items head number → Stores l storage.old before now o m → AllAtWork storage.old o m above.items →
        Anew l storage.old storage.new before now o m (kept_of owner number (map activation_of above.items) (record { operating = operating; standings = m.standings })).standings }
{
    match frames::component_at(&storage.frames, head) {
        Component::NoObject => keep_chain(storage, head, Component::Waiting, above),
        _ => keep_by_object(storage, above),
    }
}
