//! Rows that transfer control from component to component: `detach`, `call` and `resume` of an object.
ghost use Rattle.std.specs.Prelude.{◌≡◌, ℕ, ◌+◌, ◌<◌, ◌≤◌, ◌∷◌, ◌^◌, List, Option, Some, None, length, slice_get, false};
ghost use Rattle.sim_base.specs.declared.limits.Limits.{Limits as LimitsOf};
ghost use Rattle.sim_chains.specs.Components.{AttachedObject, ResumedObject};
ghost use Rattle.sim_values.specs.Plain.{Object};
ghost use Rattle.sim_code.specs.Events.{pop_plain};
ghost use Rattle.sim_code.specs.Instances.{system_head as system_head_of};
ghost use Rattle.sim_code.specs.Machine.{Frames, owner, plain, waiting};
ghost use Rattle.sim_code.specs.Outcome.{World};
ghost use Rattle.sim_code.specs.Transfers.{Calling, Detaching, Resuming, transferring};
ghost use Rattle.frame_arena.specs.declared.frames.Component.{Component as ComponentOf};
ghost use Rattle.frame_arena.specs.Frames.{Has, IsKeeping, Leads, frame_at, is_object_as};
ghost use Rattle.frame_arena.specs.Stacks.{values_of};
ghost use Rattle.object_machine.specs.Standing.{AllFit, Leaves, Obeys, Outside, Stands, activation_at, below_of};
ghost use Rattle.object_machine.specs.Transferring.{controlling};

use crate::chains::{exchange, join_chain, leave_chain, new_chain, stands_on};
use crate::classes::{Reference, reference_in};
use crate::kept_chains::{keep_above, keep_by_object, keep_chain, stand, take_chain};
use crate::machine::{Activation, Flow, Storage};
use frame_arena::frames::{self, Component};
use frame_arena::heads::system_head;
use frame_arena::stack;
use sim_base::RunError;
use sim_values::FrameRef;

// An attached object leaves the operating chain, and keeps what stood on it down to the object.
fn leave_object(
    storage: &mut Storage,
    place: usize,
    object: u64,
    top: &mut Activation,
    below: &mut Vec<Activation>,
) -> Flow
    requires there { Has storage.old.frames.items place object }
    requires fits { top.old.registers.depth ≤ length top.old.stack.items }
    requires others { AllFit below.old.items }
    ensures fits { top.new.registers.depth ≤ length top.new.stack.items }
    ensures others { AllFit below.new.items }
    ensures texts { storage.new.texts ≡ storage.old.texts }
    ensures image { storage.new.image ≡ storage.old.image }
    ensures row { (l : LimitsOf) (line : ℕ) (before : Option (List ℕ)) (now : Outside) (o : World) (m : Frames) → Stands l storage.old top.old.registers top.old.stack.items below.old.items before now o m → slice_get m.standings object ≡ Some AttachedObject →
        Leaves result l line storage.new top.new.registers top.new.stack.items below.new.items before now (transferring owner Detaching line o (activation_at top.old.registers top.old.stack.items ∷ below_of below.old.items) m (Object object)) }
{
    let alloc = *storage.frames.allocator();
    let mut kept = new_chain(alloc);
    let flow = leave_chain(object, top, below, &mut kept);
    match flow {
        Flow::On => {}
        _ => return flow,
    }
    keep_chain(storage, place, Component::Detached, kept);
    Flow::On
}

// The main component of a system goes on, whose chain the head keeps. The resumed object that operates keeps what stood above the head.
fn give_to_main(
    storage: &mut Storage,
    head: FrameRef,
    top: &mut Activation,
    below: &mut Vec<Activation>,
) -> Flow
    requires main { IsKeeping storage.old.frames.items head.frame head.stamp ComponentOf.Waiting }
    requires fits { top.old.registers.depth ≤ length top.old.stack.items }
    requires others { AllFit below.old.items }
    ensures fits { top.new.registers.depth ≤ length top.new.stack.items }
    ensures others { AllFit below.new.items }
    ensures texts { storage.new.texts ≡ storage.old.texts }
    ensures image { storage.new.image ≡ storage.old.image }
    ensures row { (l : LimitsOf) (line : ℕ) (before : Option (List ℕ)) (now : Outside) (o : World) (m : Frames) → Stands l storage.old top.old.registers top.old.stack.items below.old.items before now o m →
        Leaves result l line storage.new top.new.registers top.new.stack.items below.new.items before now (controlling line o (activation_at top.old.registers top.old.stack.items ∷ below_of below.old.items) m head.stamp None) }
{
    let mut chain = take_chain(storage, head.frame as usize, Component::NoObject);
    let flow = exchange(head.stamp, &mut chain, top, below);
    match flow {
        Flow::On => {}
        _ => return flow,
    }
    keep_by_object(storage, chain);
    Flow::On
}

// The chain that a detached object keeps goes on top of the operating chain, and the object is attached.
fn join_object(
    storage: &mut Storage,
    place: usize,
    object: u64,
    top: &mut Activation,
    below: &mut Vec<Activation>,
) -> Flow
    requires detached { IsKeeping storage.old.frames.items place object ComponentOf.Detached }
    requires fits { top.old.registers.depth ≤ length top.old.stack.items }
    requires others { AllFit below.old.items }
    ensures fits { top.new.registers.depth ≤ length top.new.stack.items }
    ensures others { AllFit below.new.items }
    ensures texts { storage.new.texts ≡ storage.old.texts }
    ensures image { storage.new.image ≡ storage.old.image }
    ensures row { (l : LimitsOf) (line : ℕ) (before : Option (List ℕ)) (now : Outside) (o : World) (m : Frames) → Stands l storage.old top.old.registers top.old.stack.items below.old.items before now o m →
        Leaves result l line storage.new top.new.registers top.new.stack.items below.new.items before now (transferring owner Calling line o (activation_at top.old.registers top.old.stack.items ∷ below_of below.old.items) m (Object object)) }
{
    let mut kept = take_chain(storage, place, Component::Attached);
    join_chain(&mut kept, top, below)
}

// A detached object is resumed: what stands above its system head is kept by the component that operates there, and the chain of the
// object goes on top of the head. While the chains are moved the object is attached.
fn take_turn(
    storage: &mut Storage,
    place: usize,
    object: u64,
    head: FrameRef,
    top: &mut Activation,
    below: &mut Vec<Activation>,
) -> Flow
    requires detached { IsKeeping storage.old.frames.items place object ComponentOf.Detached }
    requires head { Has storage.old.frames.items head.frame head.stamp }
    requires apart { is_object_as (frame_at storage.old.frames.items head.frame).component ≡ false }
    requires fits { top.old.registers.depth ≤ length top.old.stack.items }
    requires others { AllFit below.old.items }
    ensures fits { top.new.registers.depth ≤ length top.new.stack.items }
    ensures others { AllFit below.new.items }
    ensures texts { storage.new.texts ≡ storage.old.texts }
    ensures image { storage.new.image ≡ storage.old.image }
    ensures row { (l : LimitsOf) (line : ℕ) (before : Option (List ℕ)) (now : Outside) (o : World) (m : Frames) → Stands l storage.old top.old.registers top.old.stack.items below.old.items before now o m → head.stamp ≡ system_head_of m object →
        Leaves result l line storage.new top.new.registers top.new.stack.items below.new.items before now (transferring owner Resuming line o (activation_at top.old.registers top.old.stack.items ∷ below_of below.old.items) m (Object object)) }
{
    let mut chain = take_chain(storage, place, Component::Attached);
    let flow = exchange(head.stamp, &mut chain, top, below);
    match flow {
        Flow::On => {}
        _ => return flow,
    }
    keep_above(storage, head.frame as usize, chain);
    stand(storage, place, Component::Resumed);
    Flow::On
}

/// The top goes on behind its instruction, with so many values, once it is the top again.
#[inline(always)]
pub fn wait(top: &mut Activation, depth: usize)
    requires short { top.old.registers.pc + 1 < 2 ^ 64 }
    ensures { top.new ≡ record (top.old) { registers = record (top.old.registers) { pc = top.old.registers.pc + 1; depth = depth } } }
{
    top.registers.pc += 1;
    top.registers.depth = depth;
}

/// The main component of a system goes on, of which this is the head. Where it operates already, nothing is done. It is `E45` where the
/// head does not operate.
pub fn resume_main(
    storage: &mut Storage,
    head: FrameRef,
    depth: usize,
    top: &mut Activation,
    below: &mut Vec<Activation>,
) -> Flow
    requires there { Has storage.old.frames.items head.frame head.stamp }
    requires short { top.old.registers.pc + 1 < 2 ^ 64 }
    requires less { depth ≤ length top.old.stack.items }
    requires fits { top.old.registers.depth ≤ length top.old.stack.items }
    requires others { AllFit below.old.items }
    ensures fits { top.new.registers.depth ≤ length top.new.stack.items }
    ensures others { AllFit below.new.items }
    ensures texts { storage.new.texts ≡ storage.old.texts }
    ensures image { storage.new.image ≡ storage.old.image }
    ensures row { (l : LimitsOf) (line : ℕ) (before : Option (List ℕ)) (now : Outside) (o : World) (m : Frames) → Stands l storage.old top.old.registers top.old.stack.items below.old.items before now o m →
        Leaves result l line storage.new top.new.registers top.new.stack.items below.new.items before now (controlling line o (waiting (activation_at top.old.registers top.old.stack.items) (values_of depth top.old.stack.items) ∷ below_of below.old.items) m head.stamp None) }
{
    match frames::component_at(&storage.frames, head.frame as usize) {
        Component::Waiting => {}
        _ => {
            wait(top, depth);
            return Flow::On;
        }
    }
    if !stands_on(head.stamp, top, below) {
        return Flow::Fault(RunError::SystemNotOperating);
    }
    wait(top, depth);
    give_to_main(storage, head, top, below)
}

// `detach` of a resumed object. It answers want of memory where its system head was given back already, to which no run comes.
fn detach_resumed(
    storage: &mut Storage,
    place: usize,
    object: u64,
    depth: usize,
    top: &mut Activation,
    below: &mut Vec<Activation>,
) -> Flow
    requires there { Has storage.old.frames.items place object }
    requires short { top.old.registers.pc + 1 < 2 ^ 64 }
    requires less { depth ≤ length top.old.stack.items }
    requires fits { top.old.registers.depth ≤ length top.old.stack.items }
    requires others { AllFit below.old.items }
    ensures fits { top.new.registers.depth ≤ length top.new.stack.items }
    ensures others { AllFit below.new.items }
    ensures texts { storage.new.texts ≡ storage.old.texts }
    ensures image { storage.new.image ≡ storage.old.image }
    ensures row { (l : LimitsOf) (line : ℕ) (before : Option (List ℕ)) (now : Outside) (o : World) (m : Frames) → Stands l storage.old top.old.registers top.old.stack.items below.old.items before now o m → slice_get m.standings object ≡ Some ResumedObject →
        Leaves result l line storage.new top.new.registers top.new.stack.items below.new.items before now (transferring owner Detaching line o (waiting (activation_at top.old.registers top.old.stack.items) (values_of depth top.old.stack.items) ∷ below_of below.old.items) m (Object object)) }
{
    if !stands_on(object, top, below) {
        return Flow::Fault(RunError::ObjectNotOperating);
    }
    let Some(head) = system_head(&storage.frames, place) else {
        return Flow::Memory;
    };
    resume_main(storage, head, depth, top, below)
}

// `resume` of a detached object. It answers want of memory where its system head was given back already, to which no run comes.
fn resume_detached(
    storage: &mut Storage,
    place: usize,
    object: u64,
    depth: usize,
    top: &mut Activation,
    below: &mut Vec<Activation>,
) -> Flow
    requires detached { IsKeeping storage.old.frames.items place object ComponentOf.Detached }
    requires short { top.old.registers.pc + 1 < 2 ^ 64 }
    requires less { depth ≤ length top.old.stack.items }
    requires fits { top.old.registers.depth ≤ length top.old.stack.items }
    requires others { AllFit below.old.items }
    ensures fits { top.new.registers.depth ≤ length top.new.stack.items }
    ensures others { AllFit below.new.items }
    ensures texts { storage.new.texts ≡ storage.old.texts }
    ensures image { storage.new.image ≡ storage.old.image }
    ensures row { (l : LimitsOf) (line : ℕ) (before : Option (List ℕ)) (now : Outside) (o : World) (m : Frames) → Stands l storage.old top.old.registers top.old.stack.items below.old.items before now o m →
        Leaves result l line storage.new top.new.registers top.new.stack.items below.new.items before now (transferring owner Resuming line o (waiting (activation_at top.old.registers top.old.stack.items) (values_of depth top.old.stack.items) ∷ below_of below.old.items) m (Object object)) }
{
    let Some(head) = system_head(&storage.frames, place) else {
        return Flow::Memory;
    };
    if !stands_on(head.stamp, top, below) {
        return Flow::Fault(RunError::SystemNotOperating);
    }
    wait(top, depth);
    take_turn(storage, place, object, head, top, below)
}

// `detach` of an instance. It answers want of memory where its frame was given back already, to which no run comes.
fn detach_instance(
    storage: &mut Storage,
    object: FrameRef,
    depth: usize,
    top: &mut Activation,
    below: &mut Vec<Activation>,
) -> Flow
    requires short { top.old.registers.pc + 1 < 2 ^ 64 }
    requires less { depth ≤ length top.old.stack.items }
    requires fits { top.old.registers.depth ≤ length top.old.stack.items }
    requires others { AllFit below.old.items }
    ensures fits { top.new.registers.depth ≤ length top.new.stack.items }
    ensures others { AllFit below.new.items }
    ensures texts { storage.new.texts ≡ storage.old.texts }
    ensures image { storage.new.image ≡ storage.old.image }
    ensures row { (l : LimitsOf) (line : ℕ) (before : Option (List ℕ)) (now : Outside) (o : World) (m : Frames) → Stands l storage.old top.old.registers top.old.stack.items below.old.items before now o m → Leads storage.old.frames.items m object →
        Leaves result l line storage.new top.new.registers top.new.stack.items below.new.items before now (transferring owner Detaching line o (waiting (activation_at top.old.registers top.old.stack.items) (values_of depth top.old.stack.items) ∷ below_of below.old.items) m (Object object.stamp)) }
{
    let Some(place) = frames::find(&storage.frames, object) else {
        return Flow::Memory;
    };
    match frames::component_at(&storage.frames, place) {
        Component::NoObject => {
            wait(top, depth);
            Flow::On
        }
        Component::Waiting => {
            wait(top, depth);
            Flow::On
        }
        Component::Attached => {
            if !stands_on(object.stamp, top, below) {
                return Flow::Fault(RunError::ObjectNotOperating);
            }
            wait(top, depth);
            leave_object(storage, place, object.stamp, top, below)
        }
        Component::Resumed => detach_resumed(storage, place, object.stamp, depth, top, below),
        Component::Detached => Flow::Fault(RunError::ObjectNotOperating),
        Component::Terminated => Flow::Fault(RunError::ObjectNotOperating),
    }
}

// `call` of an instance. It answers want of memory where its frame was given back already, to which no run comes.
fn call_instance(
    storage: &mut Storage,
    object: FrameRef,
    depth: usize,
    top: &mut Activation,
    below: &mut Vec<Activation>,
) -> Flow
    requires short { top.old.registers.pc + 1 < 2 ^ 64 }
    requires less { depth ≤ length top.old.stack.items }
    requires fits { top.old.registers.depth ≤ length top.old.stack.items }
    requires others { AllFit below.old.items }
    ensures fits { top.new.registers.depth ≤ length top.new.stack.items }
    ensures others { AllFit below.new.items }
    ensures texts { storage.new.texts ≡ storage.old.texts }
    ensures image { storage.new.image ≡ storage.old.image }
    ensures row { (l : LimitsOf) (line : ℕ) (before : Option (List ℕ)) (now : Outside) (o : World) (m : Frames) → Stands l storage.old top.old.registers top.old.stack.items below.old.items before now o m → Leads storage.old.frames.items m object →
        Leaves result l line storage.new top.new.registers top.new.stack.items below.new.items before now (transferring owner Calling line o (waiting (activation_at top.old.registers top.old.stack.items) (values_of depth top.old.stack.items) ∷ below_of below.old.items) m (Object object.stamp)) }
{
    let Some(place) = frames::find(&storage.frames, object) else {
        return Flow::Memory;
    };
    match frames::component_at(&storage.frames, place) {
        Component::NoObject => Flow::Fault(RunError::ComponentIsAttached),
        Component::Waiting => Flow::Fault(RunError::ComponentIsAttached),
        Component::Attached => Flow::Fault(RunError::ComponentIsAttached),
        Component::Detached => {
            wait(top, depth);
            join_object(storage, place, object.stamp, top, below)
        }
        Component::Resumed => Flow::Fault(RunError::ComponentIsResumed),
        Component::Terminated => Flow::Fault(RunError::ComponentIsTerminated),
    }
}

/// `resume` of an instance. It answers want of memory where its frame was given back already, to which no run comes.
pub fn resume_instance(
    storage: &mut Storage,
    object: FrameRef,
    depth: usize,
    top: &mut Activation,
    below: &mut Vec<Activation>,
) -> Flow
    requires short { top.old.registers.pc + 1 < 2 ^ 64 }
    requires less { depth ≤ length top.old.stack.items }
    requires fits { top.old.registers.depth ≤ length top.old.stack.items }
    requires others { AllFit below.old.items }
    ensures fits { top.new.registers.depth ≤ length top.new.stack.items }
    ensures others { AllFit below.new.items }
    ensures texts { storage.new.texts ≡ storage.old.texts }
    ensures image { storage.new.image ≡ storage.old.image }
    ensures row { (l : LimitsOf) (line : ℕ) (before : Option (List ℕ)) (now : Outside) (o : World) (m : Frames) → Stands l storage.old top.old.registers top.old.stack.items below.old.items before now o m → Leads storage.old.frames.items m object →
        Leaves result l line storage.new top.new.registers top.new.stack.items below.new.items before now (transferring owner Resuming line o (waiting (activation_at top.old.registers top.old.stack.items) (values_of depth top.old.stack.items) ∷ below_of below.old.items) m (Object object.stamp)) }
{
    let Some(place) = frames::find(&storage.frames, object) else {
        return Flow::Memory;
    };
    match frames::component_at(&storage.frames, place) {
        Component::NoObject => Flow::Fault(RunError::ResumedIsAttached),
        Component::Waiting => Flow::Fault(RunError::ResumedIsAttached),
        Component::Attached => Flow::Fault(RunError::ResumedIsAttached),
        Component::Detached => resume_detached(storage, place, object.stamp, depth, top, below),
        Component::Resumed => {
            wait(top, depth);
            Flow::On
        }
        Component::Terminated => Flow::Fault(RunError::ComponentIsTerminated),
    }
}

/// `detach` of the object that the reference on top names. An attached one leaves the operating chain with what stands above it, and
/// keeps both; a resumed one gives control to the main component of its system. Where it is no object, nothing is done. It is `E44`
/// where the object does not operate, or where it is a main program, and `E45` where its system head does not. It answers want of memory where a frame was given back
/// already, to which no run comes.
pub fn detach(storage: &mut Storage, top: &mut Activation, below: &mut Vec<Activation>) -> Flow
    requires short { top.old.registers.pc + 1 < 2 ^ 64 }
    requires fits { top.old.registers.depth ≤ length top.old.stack.items }
    requires others { AllFit below.old.items }
    ensures fits { top.new.registers.depth ≤ length top.new.stack.items }
    ensures others { AllFit below.new.items }
    ensures texts { storage.new.texts ≡ storage.old.texts }
    ensures image { storage.new.image ≡ storage.old.image }
    ensures row { (l : LimitsOf) (line : ℕ) (now : Outside) →
        Obeys result l line (λ o m a b. pop_plain plain a.stack o (λ v st. transferring owner Detaching line o (waiting a st ∷ b) m v)) storage.old storage.new top.old.registers top.new.registers top.old.stack.items top.new.stack.items below.old.items below.new.items now now }
{
    let Some(at) = stack::pop(&top.stack, top.registers.depth) else {
        return Flow::NoRule;
    };
    match reference_in(top.stack[at]) {
        Reference::Object(object) => detach_instance(storage, object, at, top, below),
        Reference::Main(_) => Flow::Fault(RunError::ObjectNotOperating),
        Reference::IsNone => Flow::NoRule,
        Reference::Other => Flow::NoRule,
    }
}

/// `call` of the object that the reference on top names: the chain that it keeps goes on top of the operating chain. It is `E40` for
/// `none`, `E41` where it is attached, no object or a main program, `E42` where it is terminated, and `E43` where it is resumed. It answers want of
/// memory where the frame was given back already, to which no run comes.
pub fn attach(storage: &mut Storage, top: &mut Activation, below: &mut Vec<Activation>) -> Flow
    requires short { top.old.registers.pc + 1 < 2 ^ 64 }
    requires fits { top.old.registers.depth ≤ length top.old.stack.items }
    requires others { AllFit below.old.items }
    ensures fits { top.new.registers.depth ≤ length top.new.stack.items }
    ensures others { AllFit below.new.items }
    ensures texts { storage.new.texts ≡ storage.old.texts }
    ensures image { storage.new.image ≡ storage.old.image }
    ensures row { (l : LimitsOf) (line : ℕ) (now : Outside) →
        Obeys result l line (λ o m a b. pop_plain plain a.stack o (λ v st. transferring owner Calling line o (waiting a st ∷ b) m v)) storage.old storage.new top.old.registers top.new.registers top.old.stack.items top.new.stack.items below.old.items below.new.items now now }
{
    let Some(at) = stack::pop(&top.stack, top.registers.depth) else {
        return Flow::NoRule;
    };
    match reference_in(top.stack[at]) {
        Reference::Object(object) => call_instance(storage, object, at, top, below),
        Reference::Main(_) => Flow::Fault(RunError::ComponentIsAttached),
        Reference::IsNone => Flow::Fault(RunError::NoneIsNoComponent),
        Reference::Other => Flow::NoRule,
    }
}

/// `resume` of the object that the reference on top names: what stands above its system head is kept by the component that operates
/// there, and the chain of the object takes its place. Where it is resumed already, nothing is done. It is `E40` for `none`, `E46`
/// where it is attached, no object or a main program, `E42` where it is terminated, and `E45` where its system head does not operate. It answers want
/// of memory where a frame was given back already, to which no run comes.
pub fn resume(storage: &mut Storage, top: &mut Activation, below: &mut Vec<Activation>) -> Flow
    requires short { top.old.registers.pc + 1 < 2 ^ 64 }
    requires fits { top.old.registers.depth ≤ length top.old.stack.items }
    requires others { AllFit below.old.items }
    ensures fits { top.new.registers.depth ≤ length top.new.stack.items }
    ensures others { AllFit below.new.items }
    ensures texts { storage.new.texts ≡ storage.old.texts }
    ensures image { storage.new.image ≡ storage.old.image }
    ensures row { (l : LimitsOf) (line : ℕ) (now : Outside) →
        Obeys result l line (λ o m a b. pop_plain plain a.stack o (λ v st. transferring owner Resuming line o (waiting a st ∷ b) m v)) storage.old storage.new top.old.registers top.new.registers top.old.stack.items top.new.stack.items below.old.items below.new.items now now }
{
    let Some(at) = stack::pop(&top.stack, top.registers.depth) else {
        return Flow::NoRule;
    };
    match reference_in(top.stack[at]) {
        Reference::Object(object) => resume_instance(storage, object, at, top, below),
        Reference::Main(_) => Flow::Fault(RunError::ResumedIsAttached),
        Reference::IsNone => Flow::Fault(RunError::NoneIsNoComponent),
        Reference::Other => Flow::NoRule,
    }
}
