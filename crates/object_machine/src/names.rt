//! Standard names.
ghost use Rattle.std.specs.Prelude.{◌≡◌, ℕ, ◌+◌, ◌<◌, ◌≤◌, ◌∷◌, ◌^◌, List, Option, Some, IfSome, length, true};
ghost use Rattle.sim_code.specs.Code.{CodeOf};
ghost use Rattle.sim_code.specs.Events.{having, popping};
ghost use Rattle.sim_code.specs.Formals.{TextCopied, copying_value};
ghost use Rattle.sim_code.specs.Machine.{ArrayValue, Frames, Of, array_in, on, plain};
ghost use Rattle.sim_code.specs.Outcome.{ArrayOf, World};
ghost use Rattle.sim_code.specs.Rows.{standard_of, standard_row};
ghost use Rattle.sim_code.specs.Running.{name_runs};
ghost use Rattle.sim_code.specs.Simulations.{is_simulation_name as is_simulation_name_of};
ghost use Rattle.frame_arena.specs.Arrays.{AllLeadArrays, HoldsArrays};
ghost use Rattle.frame_arena.specs.Frames.{AllLead, Holds};
ghost use Rattle.sim_base.specs.declared.limits.Limits.{Limits as LimitsOf};
ghost use Rattle.sim_values.specs.Standard.{row_of};
ghost use Rattle.standard_calls.specs.Performed.{IfDepth};
ghost use Rattle.standard_calls.specs.Quiet.{OnNumbers, OnText, is_done, manner_of as manner};
ghost use Rattle.object_machine.specs.Named.{FlowEnds, InputEnds, Still};
ghost use Rattle.object_machine.specs.Operands.{IsReady};
ghost use Rattle.object_machine.specs.Running.{Onward};
ghost use Rattle.object_machine.specs.Settled.{Follows, Settles, named};
ghost use Rattle.object_machine.specs.Placed.{Stays};
ghost use Rattle.object_machine.specs.Standing.{Advances, HasImages, Obeys, Outside, Untouched, outside, ports_in, ports_of};
ghost use Rattle.object_machine.specs.Taking.{StepTakes};

use crate::constants::index;
use crate::machine::{Activation, Flow, Registers, Storage};
use crate::placing::{Placing, put_back, put_text};
use crate::processes::{is_process_name, process_standard};
use crate::reading::{first_operand, read_operands, text_operand};
use crate::scheduling::is_simulation_name;
use crate::sets::{is_set_name, set_standard};
use frame_arena::{EMPTY, Slot, SlotKind, stack};
use sim_base::Limits;
use sim_ports::{Sink, Source};
use sim_values::Standard;
use standard_calls::{
    Manner, Missing, Performed, manner_of, operand_count, perform, perform_plain, perform_scan,
    perform_whole,
};

// The standard name of a number.
#[inline(always)]
fn name_of(operand: i64) -> Option<Standard>
    ensures { result ≡ standard_of operand }
{
    let Some(number) = index(operand) else {
        return None;
    };
    Standard::from_number(number)
}

// Whether a name has a row. Those of both images and of components have none: other instructions do what they do.
fn has_row(name: Standard) -> bool
    ensures { result ≡ name_runs name }
{
    match name {
        Standard::Image | Standard::Pos | Standard::Setpos | Standard::More | Standard::Length => {
            false
        }
        Standard::Detach | Standard::Call | Standard::Resume => false,
        _ => true,
    }
}

// Goes on with what a standard name came to, of which the first operand had this address, if any.
#[inline(always)]
fn settle_performed(
    storage: &mut Storage,
    regs: &mut Registers,
    performed: Performed,
    address: Slot,
) -> Flow
    requires short { regs.old.pc + 1 < 2 ^ 64 }
    ensures fits { (room : ℕ) → regs.old.depth ≤ room → IfDepth performed (λ n. n ≤ room) → regs.new.depth ≤ room }
    ensures valid { HasImages storage.old.texts storage.old.image → HasImages storage.new.texts storage.new.image }
    ensures frames { storage.new.frames ≡ storage.old.frames }
    ensures next { Advances result regs.old regs.new }
    ensures home { regs.new.home ≡ regs.old.home }
    ensures stage { regs.new.stage ≡ regs.old.stage }
    ensures thunk { regs.new.thunk ≡ regs.old.thunk }
    ensures settled { Settles performed result address storage.old storage.new regs.old regs.new }
{
    match performed {
        Performed::Depth(depth) => {
            regs.depth = depth;
            regs.pc += 1;
            Flow::On
        }
        Performed::Moved { depth, text } => {
            let placing = put_back(storage, address, text);
            follow(regs, placing, depth)
        }
        Performed::NoRule => Flow::NoRule,
        Performed::Fault(error) => Flow::Fault(error),
        Performed::Full { wanted } => {
            storage.wanted = wanted;
            Flow::Exhausted
        }
        Performed::Memory => Flow::Memory,
        Performed::WriteFault => Flow::WriteFault,
        Performed::InputFault => Flow::InputFault,
    }
}

// The same, where most addresses are those of cells.
#[inline(always)]
fn settle_scan(
    storage: &mut Storage,
    regs: &mut Registers,
    performed: Performed,
    address: Slot,
) -> Flow
    requires short { regs.old.pc + 1 < 2 ^ 64 }
    ensures fits { (room : ℕ) → regs.old.depth ≤ room → IfDepth performed (λ n. n ≤ room) → regs.new.depth ≤ room }
    ensures valid { HasImages storage.old.texts storage.old.image → HasImages storage.new.texts storage.new.image }
    ensures frames { storage.new.frames ≡ storage.old.frames }
    ensures next { Advances result regs.old regs.new }
    ensures home { regs.new.home ≡ regs.old.home }
    ensures stage { regs.new.stage ≡ regs.old.stage }
    ensures thunk { regs.new.thunk ≡ regs.old.thunk }
    ensures settled { Settles performed result address storage.old storage.new regs.old regs.new }
{
    match performed {
        Performed::Moved { depth, text } => {
            let placing = put_text(storage, &address, text);
            follow(regs, placing, depth)
        }
        _ => settle_performed(storage, regs, performed, address),
    }
}

// Goes on with so many values, where a text was put back.
#[inline(always)]
fn follow(regs: &mut Registers, placing: Placing, depth: usize) -> Flow
    requires short { regs.old.pc + 1 < 2 ^ 64 }
    ensures fits { (room : ℕ) → regs.old.depth ≤ room → depth ≤ room → regs.new.depth ≤ room }
    ensures next { Advances result regs.old regs.new }
    ensures home { regs.new.home ≡ regs.old.home }
    ensures stage { regs.new.stage ≡ regs.old.stage }
    ensures thunk { regs.new.thunk ≡ regs.old.thunk }
    ensures follows { Follows placing result depth regs.old regs.new }
{
    match placing {
        Placing::Done => {
            regs.depth = depth;
            regs.pc += 1;
            Flow::On
        }
        Placing::NoRule => Flow::NoRule,
        Placing::Memory => Flow::Memory,
    }
}

// The first operand of a name, where each of its operands is something; what they are stands in their place then.
#[inline(always)]
fn ready(storage: &Storage, stack: &mut [Slot], depth: usize, name: Standard) -> Option<Slot>
    requires fits { depth ≤ length stack.old }
    requires runs { is_done name ≡ true }
    ensures long { length stack.new ≡ length stack.old }
    ensures leads { (m : Frames) → AllLead storage.now.frames.items m stack.old → AllLead storage.now.frames.items m stack.new }
    ensures leads_arrays { (list : List ArrayOf) → AllLeadArrays storage.now.arrays.regions list stack.old → AllLeadArrays storage.now.arrays.regions list stack.new }
    ensures read { (o : World) (m : Frames) (source : List ℕ) → Holds storage.now.frames.items storage.now.cells.items m → HoldsArrays storage.now.arrays o.arrays → ports_in o.store ≡ ports_of storage.now.image source → AllLead storage.now.frames.items m stack.old → AllLeadArrays storage.now.arrays.regions o.arrays stack.old →
        IsReady result name o m depth stack.old stack.new }
{
    let count = operand_count(name);
    if depth < count {
        return None;
    }
    let address = first_operand(stack, depth, count);
    if read_operands(
        &storage.frames,
        &storage.cells,
        &storage.arrays,
        &storage.image,
        stack,
        depth - count,
        depth,
    ) {
        return Some(address);
    }
    None
}

// A name of whole texts. It is a function of its own, which leaves the registers of the others in hand.
#[inline(never)]
fn whole_standard(
    limits: &Limits,
    storage: &mut Storage,
    stack: &mut [Slot],
    regs: &mut Registers,
    name: Standard,
) -> Flow
    requires whole { manner name ≡ Manner.Whole }
    requires runs { is_done name ≡ true }
    requires fits { regs.old.depth ≤ length stack.old }
    requires short { regs.old.pc + 1 < 2 ^ 64 }
    requires images { HasImages storage.old.texts storage.old.image }
    ensures fits { regs.new.depth ≤ length stack.new }
    ensures valid { HasImages storage.new.texts storage.new.image }
    ensures frames { storage.new.frames ≡ storage.old.frames }
    ensures next { Advances result regs.old regs.new }
    ensures home { regs.new.home ≡ regs.old.home }
    ensures stage { regs.new.stage ≡ regs.old.stage }
    ensures thunk { regs.new.thunk ≡ regs.old.thunk }
    ensures row { (line : ℕ) (below : List Activation) (now : Outside) →
        Obeys result limits.now line (λ o m a b. named limits.now line name o m a b) storage.old storage.new regs.old regs.new stack.old stack.new below below now now }
{
    let depth = regs.depth;
    let Some(address) = ready(storage, stack, depth, name) else {
        return Flow::NoRule;
    };
    let budget = u64::from(limits.storage);
    let performed = perform_whole(
        name,
        stack,
        depth,
        budget,
        &mut storage.words,
        &mut storage.texts,
    );
    settle_performed(storage, regs, performed, address)
}

/// A copy of the text on top, in its place.
pub fn copy_text(
    limits: &Limits,
    storage: &mut Storage,
    stack: &mut [Slot],
    regs: &mut Registers,
) -> Flow
    requires fits { regs.old.depth ≤ length stack.old }
    requires short { regs.old.pc + 1 < 2 ^ 64 }
    requires images { HasImages storage.old.texts storage.old.image }
    ensures fits { regs.new.depth ≤ length stack.new }
    ensures valid { HasImages storage.new.texts storage.new.image }
    ensures row { (line : ℕ) (below : List Activation) (now : Outside) →
        Obeys result limits.now line (λ o m a b. popping a.stack o (λ v st. copying_value Of plain ArrayValue array_in limits.now line a.home TextCopied v o (λ v w. on w m a (v ∷ st) b))) storage.old storage.new regs.old regs.new stack.old stack.new below below now now }
{
    let Some(at) = stack::pop(stack, regs.depth) else {
        return Flow::NoRule;
    };
    match stack[at].kind {
        SlotKind::Text => whole_standard(limits, storage, stack, regs, Standard::Copy),
        _ => Flow::NoRule,
    }
}

// The same, with a copy of the registers handed over.
#[inline(always)]
fn whole_apart(
    limits: &Limits,
    storage: &mut Storage,
    stack: &mut [Slot],
    regs: &mut Registers,
    name: Standard,
) -> Flow
    requires whole { manner name ≡ Manner.Whole }
    requires runs { is_done name ≡ true }
    requires fits { regs.old.depth ≤ length stack.old }
    requires short { regs.old.pc + 1 < 2 ^ 64 }
    requires images { HasImages storage.old.texts storage.old.image }
    ensures fits { regs.new.depth ≤ length stack.new }
    ensures stays { Stays regs.old regs.new }
    ensures valid { HasImages storage.new.texts storage.new.image }
    ensures frames { storage.new.frames ≡ storage.old.frames }
    ensures next { Advances result regs.old regs.new }
    ensures row { (line : ℕ) (below : List Activation) (now : Outside) →
        Obeys result limits.now line (λ o m a b. named limits.now line name o m a b) storage.old storage.new regs.old regs.new stack.old stack.new below below now now }
{
    let mut apart = Registers {
        home: regs.home,
        thunk: regs.thunk,
        pc: regs.pc,
        depth: regs.depth,
        stage: regs.stage,
    };
    let flow = whole_standard(limits, storage, stack, &mut apart, name);
    regs.pc = apart.pc;
    regs.depth = apart.depth;
    flow
}

/// Does what a standard name of numbers and characters does, and puts its value in the place of its operands. An address among them is refused
/// as it stands, and what it leads to is not read.
#[inline(always)]
pub fn plain_standard(
    storage: &mut Storage,
    stack: &mut [Slot],
    regs: &mut Registers,
    name: Standard,
) -> Flow
    requires plain { manner name ≡ Manner.Plain }
    requires numbers { OnNumbers (row_of name).function }
    requires fits { regs.old.depth ≤ length stack.old }
    requires short { regs.old.pc + 1 < 2 ^ 64 }
    ensures fits { regs.new.depth ≤ length stack.new }
    ensures stays { Stays regs.old regs.new }
    ensures valid { HasImages storage.old.texts storage.old.image → HasImages storage.new.texts storage.new.image }
    ensures frames { storage.new.frames ≡ storage.old.frames }
    ensures next { Advances result regs.old regs.new }
    ensures row { (l : LimitsOf) (line : ℕ) (below : List Activation) (now : Outside) →
        Obeys result l line (λ o m a b. named l line name o m a b) storage.old storage.new regs.old regs.new stack.old stack.new below below now now }
{
    let performed = perform_plain(name, stack, regs.depth);
    settle_performed(storage, regs, performed, EMPTY)
}

/// Does what a quiet standard name does, and puts its value in the place of its operands, if it has one. At any other name it does
/// nothing.
#[inline(always)]
pub fn quiet_standard(
    limits: &Limits,
    storage: &mut Storage,
    stack: &mut [Slot],
    regs: &mut Registers,
    operand: i64,
) -> Option<Flow>
    requires fits { regs.old.depth ≤ length stack.old }
    requires short { regs.old.pc + 1 < 2 ^ 64 }
    requires images { HasImages storage.old.texts storage.old.image }
    ensures fits { regs.new.depth ≤ length stack.new }
    ensures stays { Stays regs.old regs.new }
    ensures valid { HasImages storage.new.texts storage.new.image }
    ensures frames { storage.new.frames ≡ storage.old.frames }
    ensures other { Untouched result storage.old storage.new regs.old regs.new stack.old stack.new }
    ensures next { IfSome result (λ f. Advances f regs.old regs.new) }
    ensures row { IfSome result (λ f. (code : CodeOf) (line : ℕ) (below : List Activation) (now : Outside) →
        Obeys f limits.now line (λ o m a b. having (standard_of operand) o (λ name. standard_row code limits.now o m a b line name)) storage.old storage.new regs.old regs.new stack.old stack.new below below now now) }
{
    let Some(name) = name_of(operand) else {
        return None;
    };
    match manner_of(name) {
        Manner::Plain => Some(plain_standard(storage, stack, regs, name)),
        Manner::Scan => {
            let depth = regs.depth;
            let count = operand_count(name);
            if depth < count {
                return Some(Flow::NoRule);
            }
            let first = depth - count;
            let text = match text_operand(storage, &stack[first]) {
                Ok(text) => text,
                Err(Missing::NoRule) => return Some(Flow::NoRule),
                Err(Missing::Memory) => return Some(Flow::Memory),
            };
            let address = stack[first];
            let performed = perform_scan(name, text, stack, depth, &mut storage.texts);
            Some(settle_scan(storage, regs, performed, address))
        }
        Manner::Whole => Some(whole_apart(limits, storage, stack, regs, name)),
        Manner::Ports => None,
    }
}

/// How many operands a quiet standard name takes and leaves, if this is the number of one.
pub fn quiet_name(operand: i64) -> Option<(u32, u32)> {
    let Some(name) = name_of(operand) else {
        return None;
    };
    match manner_of(name) {
        Manner::Ports => None,
        _ => {
            let takes = operand_count(name).min(3) as u32;
            Some((takes, u32::from(name.result().is_some())))
        }
    }
}

/// The name of a simulation block of which this is the number, if it is one.
pub fn simulation_name(operand: i64) -> Option<Standard>
    ensures is { IfSome result (λ name. standard_of operand ≡ Some name) }
    ensures named { IfSome result (λ name. is_simulation_name_of name ≡ true) }
{
    let Some(name) = name_of(operand) else {
        return None;
    };
    if !is_simulation_name(name) {
        return None;
    }
    Some(name)
}

/// Does what a standard name does that is not quiet, and puts its value in the place of its operands, if it has one. At a quiet one, and at one
/// of a simulation block, the machine stops as for want of memory: `quiet_standard` and `schedule` do those.
#[tactic(auto, using(crate::proofs::Taking::takes_none))]
pub fn standard<I: Source, O: Sink>(
    limits: &Limits,
    storage: &mut Storage,
    input: &mut I,
    out: &mut O,
    stack: &mut [Slot],
    regs: &mut Registers,
    operand: i64,
) -> Flow
    requires fits { regs.old.depth ≤ length stack.old }
    requires short { regs.old.pc + 1 < 2 ^ 64 }
    requires images { HasImages storage.old.texts storage.old.image }
    ensures fits { regs.new.depth ≤ length stack.new }
    ensures valid { HasImages storage.new.texts storage.new.image }
    ensures ends { FlowEnds O.written O.faults out.old out.new result }
    ensures read { InputEnds (I.faults input.old) (I.faults input.new) result }

    // Where the row takes nothing of the input nothing was read.
    ensures takes { (s : List ℕ) → I.left input.old ≡ Some s → (code : CodeOf) (line : ℕ) (below : List Activation) →
        StepTakes limits.now (λ o m a b. having (standard_of operand) o (λ name. standard_row code limits.now o m a b line name)) storage.old regs.old stack.old below (outside (O.written out.old) s) input.old input.new }
    ensures row { Onward (I.left input.old) (I.left input.new) (λ s t. Still result (O.written out.old) (O.written out.new) × ((code : CodeOf) (line : ℕ) (below : List Activation) →
        Obeys result limits.now line (λ o m a b. having (standard_of operand) o (λ name. standard_row code limits.now o m a b line name)) storage.old storage.new regs.old regs.new stack.old stack.new below below (outside (O.written out.old) s) (outside (O.written out.new) t))) }
{
    let Some(name) = name_of(operand) else {
        return Flow::NoRule;
    };
    match manner_of(name) {
        Manner::Ports => {}
        _ => return Flow::Memory,
    }
    if is_set_name(name) {
        return set_standard(storage, stack, regs, name);
    }
    if is_process_name(name) {
        return process_standard(storage, stack, regs, name);
    }
    if is_simulation_name(name) {
        return Flow::Memory;
    }
    if !has_row(name) {
        return Flow::NoRule;
    }
    let depth = regs.depth;
    let Some(address) = ready(storage, stack, depth, name) else {
        return Flow::NoRule;
    };
    let budget = u64::from(limits.storage);
    let performed = perform(
        name,
        stack,
        depth,
        budget,
        &mut storage.words,
        &mut storage.texts,
        &mut storage.image.input,
        &mut storage.image.output,
        input,
        out,
    );
    settle_performed(storage, regs, performed, address)
}
