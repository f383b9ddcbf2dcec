//! The operating chain: where it is cut, and what goes on top of it.
ghost use Rattle.std.specs.Prelude.{◌≡◌, ℕ, ◌≤◌, ◌∷◌, [], List, length, true, false};
ghost use Rattle.sim_chains.specs.Chains.{is_instance, stands_on as stands_on_chain};
ghost use Rattle.object_machine.specs.declared.machine.Activation.{Activation as Working};
ghost use Rattle.object_machine.specs.Standing.{AllFit};
ghost use Rattle.object_machine.specs.Transferring.{CutsAt, Exchanges, JoinsChain, LeavesChain, StandAlone, frame_of, operating};
ghost use Rattle.object_machine.specs.declared.machine.Flow.TheVariants as FlowOf;

use crate::machine::{Activation, Flow};
use crate::owners::is_thunk;
use std::alloc::Global;
use std::mem;

// Whether an activation is that of an instance, and no thunk.
#[inline(always)]
fn is_frame_of(activation: &Activation, instance: u64) -> bool
    ensures { result ≡ is_instance instance (frame_of activation.now) }
{
    if is_thunk(&activation.registers) {
        return false;
    }
    activation.registers.home.stamp == instance
}

/// A chain without activations, with room for one where there is memory for it: most components stand alone on theirs.
pub fn new_chain(alloc: Global) -> Vec<Activation>
    ensures { result.items ≡ [] }
{
    match Vec::with_capacity(alloc, 1) {
        Ok(chain) => chain,
        Err(_) => Vec::new(alloc),
    }
}

/// Whether an instance stands on the operating chain, looked for from the top down.
pub fn stands_on(instance: u64, top: &Activation, below: &[Activation]) -> bool
    ensures { result ≡ stands_on_chain frame_of instance (operating top.now below.now) }
{
    if is_frame_of(top, instance) {
        return true;
    }
    let mut at = below.len();
    while at > 0 {
        at -= 1;
        if is_frame_of(&below[at], instance) {
            return true;
        }
    }
    false
}

/// The activations above the first one of an instance go to a list, and that one becomes the top. It answers whether there was
/// memory; of an instance that does not stand on the chain nothing is told.
pub fn cut_above(
    instance: u64,
    top: &mut Activation,
    below: &mut Vec<Activation>,
    above: &mut Vec<Activation>,
) -> bool
    requires empty { above.old.items ≡ [] }
    requires fits { top.old.registers.depth ≤ length top.old.stack.items }
    requires others { AllFit below.old.items }
    ensures fits { top.new.registers.depth ≤ length top.new.stack.items }
    ensures others { AllFit below.new.items }
    ensures above { AllFit above.new.items }
    ensures cut { result ≡ true → CutsAt instance (operating top.old below.old.items) above.new.items top.new below.new.items }
{
    while !is_frame_of(top, instance) {
        let Some(next) = below.pop() else {
            return false;
        };
        let left = mem::replace(top, next);
        let Ok(()) = above.push(left) else {
            return false;
        };
    }
    true
}

/// The activations above the first one of an instance are dropped, and that one becomes the top. It answers whether the instance
/// stands on the chain.
pub fn drop_above(instance: u64, top: &mut Activation, below: &mut Vec<Activation>) -> bool
    requires fits { top.old.registers.depth ≤ length top.old.stack.items }
    requires others { AllFit below.old.items }
    ensures fits { top.new.registers.depth ≤ length top.new.stack.items }
    ensures others { AllFit below.new.items }
    ensures cut { result ≡ true → (above : List Working) × CutsAt instance (operating top.old below.old.items) above top.new below.new.items }
    ensures none { result ≡ false → stands_on_chain frame_of instance (operating top.old below.old.items) ≡ false }
{
    while !is_frame_of(top, instance) {
        let Some(next) = below.pop() else {
            return false;
        };
        *top = next;
    }
    true
}

/// The activations from the top down to the first one of an object go to a list, and the one below becomes the top. Of an object
/// that does not stand on the chain nothing is told.
pub fn leave_chain(
    object: u64,
    top: &mut Activation,
    below: &mut Vec<Activation>,
    kept: &mut Vec<Activation>,
) -> Flow
    requires empty { kept.old.items ≡ [] }
    requires fits { top.old.registers.depth ≤ length top.old.stack.items }
    requires others { AllFit below.old.items }
    ensures fits { top.new.registers.depth ≤ length top.new.stack.items }
    ensures others { AllFit below.new.items }
    ensures kept { AllFit kept.new.items }
    ensures leaves { LeavesChain result object (operating top.old below.old.items) kept.new.items (operating top.new below.new.items) }
{
    if !cut_above(object, top, below, kept) {
        return Flow::Memory;
    }
    let Some(next) = below.pop() else {
        return Flow::NoRule;
    };
    let own = mem::replace(top, next);
    let Ok(()) = kept.push(own) else {
        return Flow::Memory;
    };
    Flow::On
}

// Whether the top stands directly above an instance, and a chain that is kept has one activation.
fn stand_alone(instance: u64, kept: &[Activation], top: &Activation, below: &[Activation]) -> bool
    ensures yes { result ≡ true → StandAlone instance kept.now top.now below.now }
    ensures no { result ≡ false → StandAlone instance kept.now top.now below.now → ⊥ }
{
    if kept.len() != 1 || below.len() == 0 || is_frame_of(top, instance) {
        return false;
    }
    if !is_frame_of(&below[below.len() - 1], instance) {
        return false;
    }
    let one = &kept[0];
    if one.registers.depth > one.stack.len() {
        return false;
    }
    true
}

// The only activation of a chain changes places with the top.
fn change_places(kept: &mut [Activation], top: &mut Activation)
    requires { length kept.old ≡ 1 }
    ensures top { kept.old ≡ top.new ∷ [] }
    ensures kept { kept.new ≡ top.old ∷ [] }
{
    mem::swap(top, &mut kept[0]);
}

/// What stands above the first activation of an instance changes places with a chain that was kept. Where each has one activation, as the chains of
/// most processes have, that takes no memory. Of an instance that does not stand on the chain nothing is told.
pub fn exchange(
    instance: u64,
    kept: &mut Vec<Activation>,
    top: &mut Activation,
    below: &mut Vec<Activation>,
) -> Flow
    requires fits { top.old.registers.depth ≤ length top.old.stack.items }
    requires others { AllFit below.old.items }
    ensures fits { top.new.registers.depth ≤ length top.new.stack.items }
    ensures others { AllFit below.new.items }
    ensures above { result ≡ FlowOf.On → AllFit kept.new.items }
    ensures exchanges { Exchanges result instance kept.old.items (operating top.old below.old.items) kept.new.items (operating top.new below.new.items) }
    ensures no_memory { StandAlone instance kept.old.items top.old below.old.items → result ≡ FlowOf.On }
{
    if stand_alone(instance, kept, top, below) {
        change_places(kept, top);
        return Flow::On;
    }
    let alloc = *kept.allocator();
    let mut above = new_chain(alloc);
    if !cut_above(instance, top, below, &mut above) {
        return Flow::Memory;
    }
    let flow = join_chain(kept, top, below);
    match flow {
        Flow::On => {}
        _ => return flow,
    }
    *kept = above;
    Flow::On
}

/// What is kept goes on top of the chain, and its innermost activation becomes the top.
pub fn join_chain(
    kept: &mut Vec<Activation>,
    top: &mut Activation,
    below: &mut Vec<Activation>,
) -> Flow
    requires fits { top.old.registers.depth ≤ length top.old.stack.items }
    requires others { AllFit below.old.items }
    ensures fits { top.new.registers.depth ≤ length top.new.stack.items }
    ensures others { AllFit below.new.items }
    ensures joins { JoinsChain result kept.old.items (operating top.old below.old.items) kept.new.items (operating top.new below.new.items) }
{
    while let Some(next) = kept.pop() {
        if next.registers.depth > next.stack.len() {
            return Flow::NoRule;
        }
        let under = mem::replace(top, next);
        let Ok(()) = below.push(under) else {
            return Flow::Memory;
        };
    }
    Flow::On
}
