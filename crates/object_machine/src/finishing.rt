//! Ends of objects.
ghost use Rattle.std.specs.Prelude.{◌≡◌, ℕ, ◌≤◌, List, Option, Some, length, slice_get};
ghost use Rattle.sim_base.specs.declared.limits.Limits.{Limits as LimitsOf};
ghost use Rattle.sim_chains.specs.Components.{AttachedObject, ResumedObject};
ghost use Rattle.sim_code.specs.Instances.{object_ended};
ghost use Rattle.sim_code.specs.Machine.{Frames, owner};
ghost use Rattle.sim_code.specs.Outcome.{World};
ghost use Rattle.frame_arena.specs.Frames.{Has};
ghost use Rattle.object_machine.specs.Standing.{AllFit, Leaves, Outside, Stands, below_of};

use crate::chains::{drop_above, join_chain};
use crate::kept_chains::{stand, take_chain};
use crate::machine::{Activation, Flow, Storage};
use frame_arena::frames::{self, Component};
use frame_arena::heads::system_head;

/// An attached object ends: it is terminated, and the frame below it becomes the top.
pub fn end_attached(
    storage: &mut Storage,
    place: usize,
    object: u64,
    top: &mut Activation,
    below: &mut Vec<Activation>,
) -> Flow
    requires there { Has storage.old.frames.items place object }
    requires fits { top.old.registers.depth ≤ length top.old.stack.items }
    requires others { AllFit below.old.items }
    ensures fits { top.new.registers.depth ≤ length top.new.stack.items }
    ensures others { AllFit below.new.items }
    ensures texts { storage.new.texts ≡ storage.old.texts }
    ensures image { storage.new.image ≡ storage.old.image }
    ensures row { (l : LimitsOf) (line : ℕ) (before : Option (List ℕ)) (now : Outside) (o : World) (m : Frames) → Stands l storage.old top.old.registers top.old.stack.items below.old.items before now o m → slice_get m.standings object ≡ Some AttachedObject →
        Leaves result l line storage.new top.new.registers top.new.stack.items below.new.items before now (object_ended owner o m object (below_of below.old.items)) }
{
    let Some(next) = below.pop() else {
        return Flow::NoRule;
    };
    *top = next;
    stand(storage, place, Component::Terminated);
    Flow::On
}

/// A resumed object ends: it is terminated, and the main component of its system goes on, for which the system head keeps the chain.
/// What stood above the head is dropped. It answers want of memory where the head was given back already, to which no run comes.
pub fn end_resumed(
    storage: &mut Storage,
    place: usize,
    object: u64,
    top: &mut Activation,
    below: &mut Vec<Activation>,
) -> Flow
    requires there { Has storage.old.frames.items place object }
    requires fits { top.old.registers.depth ≤ length top.old.stack.items }
    requires others { AllFit below.old.items }
    ensures fits { top.new.registers.depth ≤ length top.new.stack.items }
    ensures others { AllFit below.new.items }
    ensures texts { storage.new.texts ≡ storage.old.texts }
    ensures image { storage.new.image ≡ storage.old.image }
    ensures row { (l : LimitsOf) (line : ℕ) (before : Option (List ℕ)) (now : Outside) (o : World) (m : Frames) → Stands l storage.old top.old.registers top.old.stack.items below.old.items before now o m → slice_get m.standings object ≡ Some ResumedObject →
        Leaves result l line storage.new top.new.registers top.new.stack.items below.new.items before now (object_ended owner o m object (below_of below.old.items)) }
{
    let Some(head) = system_head(&storage.frames, place) else {
        return Flow::Memory;
    };
    match frames::component_at(&storage.frames, head.frame as usize) {
        Component::Waiting => {}
        _ => return Flow::NoRule,
    }
    let Some(next) = below.pop() else {
        return Flow::NoRule;
    };
    *top = next;
    if !drop_above(head.stamp, top, below) {
        return Flow::NoRule;
    }
    let mut main = take_chain(storage, head.frame as usize, Component::NoObject);
    stand(storage, place, Component::Terminated);
    join_chain(&mut main, top, below)
}
