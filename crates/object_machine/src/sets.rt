//! The procedures of links and heads.
ghost use Rattle.std.specs.Prelude.{◌≡◌, ℕ, ◌+◌, ◌<◌, ◌≤◌, ◌^◌, List, Option, IfOk, IfSome, Some, None, false, length, map, true};
ghost use Rattle.std.specs.Option.{ForSome};
ghost use Rattle.sim_base.specs.declared.limits.Limits.{Limits};
ghost use Rattle.sim_code.specs.Machine.{Frames, Machine, Of, Value, on, plain};
ghost use Rattle.sim_code.specs.Outcome.{ArrayOf, Run, World};
ghost use Rattle.sim_code.specs.Rows.{with_value};
ghost use Rattle.sim_code.specs.Sets.{is_set_name as is_set_name_of, linkage_named, object_at, performing_set, set_effect, takes_linkage as takes_linkage_of};
ghost use Rattle.sim_code.specs.Simulations.{named_in};
ghost use Rattle.sim_values.specs.Plain.{MainOf, Object, Plain};
ghost use Rattle.simset.specs.Instances.{Memberships, number_of};
ghost use Rattle.simset.specs.Sets.{IsHeadAt, is_head_at};
ghost use Rattle.frame_arena.specs.Arrays.{AllLeadArrays, RegionOf, names_array};
ghost use Rattle.frame_arena.specs.declared.frames.Frame.{Frame};
ghost use Rattle.frame_arena.specs.Frames.{AllLead, Leads, SlotLeads};
ghost use Rattle.frame_arena.specs.Slots.{value_of};
ghost use Rattle.frame_arena.specs.Stacks.{values_of};
ghost use Rattle.object_machine.specs.Enrolling.{AllReach, Rises, stamps};
ghost use Rattle.object_machine.specs.Simulating.{blocks_of, simulation_of};
ghost use Rattle.object_machine.specs.SetRows.{CameAs, GivesSlot, IsQuiet, Names, TakesOwner, TakesParameter, flow_by, with_slot};
ghost use Rattle.object_machine.specs.Standing.{Obeys, Outside};

use crate::classes::{Reference, reference_in};
use crate::machine::{Activation, Flow, Registers, Storage};
use crate::members::place_of;
use crate::simulated::{Simulated, is_simulated};
use frame_arena::{NOTHING, Slot, stack};
use sim_values::{FrameRef, Standard};
use simset::{LinkageNo, Rings};
use standard_calls::Missing;

/// Whether a standard name is that of a procedure of a link or a head.
pub fn is_set_name(name: Standard) -> bool
    ensures { result ≡ is_set_name_of name }
{
    match name {
        Standard::Suc => true,
        Standard::Pred => true,
        Standard::Prev => true,
        Standard::Out => true,
        Standard::Follow => true,
        Standard::Precede => true,
        Standard::Into => true,
        Standard::First => true,
        Standard::Last => true,
        Standard::Empty => true,
        Standard::Cardinal => true,
        Standard::Clear => true,
        _ => false,
    }
}

// Whether it has a parameter.
fn takes_linkage(name: Standard) -> bool
    ensures { result ≡ takes_linkage_of name }
{
    match name {
        Standard::Follow => true,
        Standard::Precede => true,
        Standard::Into => true,
        _ => false,
    }
}

/// What a value names among the linkages.
#[derive(Clone, Copy)]
pub enum Named {
    /// The linkage of an object or of a main program.
    Linkage(LinkageNo),
    /// It is `none`.
    IsNone,
    /// It is no reference, or what it names is no linkage.
    Other,
    /// Want of memory.
    Memory,
}

/// The linkage of an object or of a main program. It answers want of memory for a number of 2^32 or more.
pub fn linkage_of(objects: &[FrameRef], object: FrameRef) -> Named
    ensures object { (o : Memberships) → Rises (stamps objects.now) → o.instances ≡ stamps objects.now → Names result o (Some (Object object.stamp)) }
    ensures main { (o : Memberships) → Rises (stamps objects.now) → o.instances ≡ stamps objects.now → Names result o (Some (MainOf object.stamp)) }
{
    let Some(place) = place_of(objects, object.stamp) else {
        return Named::Other;
    };
    let Ok(number) = u32::try_from(place) else {
        return Named::Memory;
    };
    Named::Linkage(LinkageNo(number))
}

// The linkage that a value names.
fn linkage_in(objects: &[FrameRef], slot: Slot) -> Named
    ensures { (o : Memberships) → Rises (stamps objects.now) → o.instances ≡ stamps objects.now → Names result o (plain (value_of slot)) }
{
    match reference_in(slot) {
        Reference::Object(object) => linkage_of(objects, object),
        Reference::Main(block) => linkage_of(objects, block),
        Reference::IsNone => Named::IsNone,
        Reference::Other => Named::Other,
    }
}

/// The linkage that a procedure is given, if any, and how many values are below it.
#[derive(Clone, Copy)]
pub struct Parameter {
    /// The linkage.
    pub linkage: Option<LinkageNo>,
    /// The number of values.
    pub under: usize,
}

/// The parameter of a procedure, if it has one.
pub fn take_parameter(
    objects: &[FrameRef],
    stack: &[Slot],
    depth: usize,
    takes: bool,
) -> Result<Parameter, Missing>
    requires fits { depth ≤ length stack.now }
    ensures within { IfOk result (λ p. p.under ≤ length stack.now) }
    ensures row { (o : World) → Rises (stamps objects.now) → o.members.instances ≡ stamps objects.now → TakesParameter result takes o depth stack.now }
{
    if !takes {
        return Ok(Parameter {
            linkage: None,
            under: depth,
        });
    }
    let Some(under) = stack::pop(stack, depth) else {
        return Err(Missing::NoRule);
    };
    match linkage_in(objects, stack[under]) {
        Named::Linkage(number) => Ok(Parameter {
            linkage: Some(number),
            under,
        }),
        Named::IsNone => Ok(Parameter {
            linkage: None,
            under,
        }),
        Named::Other => Err(Missing::NoRule),
        Named::Memory => Err(Missing::Memory),
    }
}

/// The linkage of which a procedure is, and how many values are below it.
#[derive(Clone, Copy)]
pub struct Owner {
    /// The linkage.
    pub linkage: LinkageNo,
    /// The number of values.
    pub under: usize,
}

// The linkage of which a procedure is.
fn take_owner(objects: &[FrameRef], stack: &[Slot], depth: usize) -> Result<Owner, Missing>
    requires fits { depth ≤ length stack.now }
    ensures within { IfOk result (λ p. p.under < length stack.now) }
    ensures row { (o : World) → Rises (stamps objects.now) → o.members.instances ≡ stamps objects.now → TakesOwner result o depth stack.now }
{
    let Some(under) = stack::pop(stack, depth) else {
        return Err(Missing::NoRule);
    };
    match linkage_in(objects, stack[under]) {
        Named::Linkage(linkage) => Ok(Owner { linkage, under }),
        Named::IsNone => Err(Missing::NoRule),
        Named::Other => Err(Missing::NoRule),
        Named::Memory => Err(Missing::Memory),
    }
}

/// What a procedure came to.
#[derive(Clone, Copy)]
pub enum Came {
    /// It gives a linkage, or none.
    Linkage(Option<LinkageNo>),
    /// It gives a truth value.
    Truth(bool),
    /// It gives a number.
    Integer(u32),
    /// It gives nothing, and the sets are changed.
    Changed,
    /// It is no procedure of such a linkage.
    NoRule,
    /// Want of memory.
    Memory,
}

// Of a link the next one in its set, of a head its first link.
fn successor(rings: &Rings, x: LinkageNo) -> Came
    requires { x.0 < length rings.now.sets }
    ensures { (naming : ℕ → Plain) (o : Memberships) (p : Option ℕ) → o.sets ≡ rings.now.sets → CameAs result naming (set_effect Standard.Suc naming o x.0 p) o rings.now.sets }
{
    Came::Linkage(rings.suc(x))
}

// Of a link the one before it in its set, of a head its last link.
fn predecessor(rings: &Rings, x: LinkageNo) -> Came
    requires { x.0 < length rings.now.sets }
    ensures { (naming : ℕ → Plain) (o : Memberships) (p : Option ℕ) → o.sets ≡ rings.now.sets → CameAs result naming (set_effect Standard.Pred naming o x.0 p) o rings.now.sets }
{
    Came::Linkage(rings.pred(x))
}

// The same, but the head for a first link.
fn previous(rings: &Rings, x: LinkageNo) -> Came
    requires { x.0 < length rings.now.sets }
    ensures { (naming : ℕ → Plain) (o : Memberships) (p : Option ℕ) → o.sets ≡ rings.now.sets → CameAs result naming (set_effect Standard.Prev naming o x.0 p) o rings.now.sets }
{
    Came::Linkage(rings.prev(x))
}

// The first link of a head.
fn first_link(rings: &Rings, x: LinkageNo) -> Came
    ensures { (naming : ℕ → Plain) (o : Memberships) (p : Option ℕ) → o.sets ≡ rings.now.sets → CameAs result naming (set_effect Standard.First naming o x.0 p) o rings.now.sets }
{
    if !rings.is_head(x) {
        return Came::NoRule;
    }
    Came::Linkage(rings.suc(x))
}

// The last link of a head.
fn last_link(rings: &Rings, x: LinkageNo) -> Came
    ensures { (naming : ℕ → Plain) (o : Memberships) (p : Option ℕ) → o.sets ≡ rings.now.sets → CameAs result naming (set_effect Standard.Last naming o x.0 p) o rings.now.sets }
{
    if !rings.is_head(x) {
        return Came::NoRule;
    }
    Came::Linkage(rings.pred(x))
}

// Whether a head has no link. Time does not grow with their number.
fn is_without_links(rings: &Rings, x: LinkageNo) -> Came
    ensures { (naming : ℕ → Plain) (o : Memberships) (p : Option ℕ) → o.sets ≡ rings.now.sets → CameAs result naming (set_effect Standard.Empty naming o x.0 p) o rings.now.sets }
{
    if !rings.is_head(x) {
        return Came::NoRule;
    }
    match rings.suc(x) {
        Some(_) => Came::Truth(false),
        None => Came::Truth(true),
    }
}

// How many links a head has.
fn link_count(rings: &Rings, x: LinkageNo) -> Came
    ensures { (naming : ℕ → Plain) (o : Memberships) (p : Option ℕ) → o.sets ≡ rings.now.sets → CameAs result naming (set_effect Standard.Cardinal naming o x.0 p) o rings.now.sets }
{
    if !rings.is_head(x) {
        return Came::NoRule;
    }
    Came::Integer(rings.cardinal(x))
}

// A link leaves its set.
fn take_out(rings: &mut Rings, x: LinkageNo) -> Came
    ensures { (naming : ℕ → Plain) (o : Memberships) (p : Option ℕ) → o.sets ≡ rings.old.sets → CameAs result naming (set_effect Standard.Out naming o x.0 p) o rings.new.sets }
{
    if !rings.is_link(x) {
        return Came::NoRule;
    }
    rings.out(x);
    Came::Changed
}

// Every link of a head leaves its set.
fn take_all_out(rings: &mut Rings, x: LinkageNo) -> Came
    ensures { (naming : ℕ → Plain) (o : Memberships) (p : Option ℕ) → o.sets ≡ rings.old.sets → CameAs result naming (set_effect Standard.Clear naming o x.0 p) o rings.new.sets }
{
    if !rings.is_head(x) {
        return Came::NoRule;
    }
    rings.clear(x);
    Came::Changed
}

// A link goes behind a linkage.
fn put_behind(rings: &mut Rings, x: LinkageNo, given: Option<LinkageNo>) -> Came
    requires { ForSome given (λ p. p.0 < length rings.old.sets) }
    ensures { (naming : ℕ → Plain) (o : Memberships) → o.sets ≡ rings.old.sets → CameAs result naming (set_effect Standard.Follow naming o x.0 (number_of given)) o rings.new.sets }
{
    if !rings.is_link(x) {
        return Came::NoRule;
    }
    rings.follow(x, given);
    Came::Changed
}

// A link goes before a linkage.
fn put_before(rings: &mut Rings, x: LinkageNo, given: Option<LinkageNo>) -> Came
    requires { ForSome given (λ p. p.0 < length rings.old.sets) }
    ensures { (naming : ℕ → Plain) (o : Memberships) → o.sets ≡ rings.old.sets → CameAs result naming (set_effect Standard.Precede naming o x.0 (number_of given)) o rings.new.sets }
{
    if !rings.is_link(x) {
        return Came::NoRule;
    }
    rings.precede(x, given);
    Came::Changed
}

// Whether a linkage is a head, if there is one.
fn is_head_or_none(rings: &Rings, given: Option<LinkageNo>) -> bool
    ensures yes { result ≡ true → ForSome given (λ h. IsHeadAt rings.now.sets h.0) }
    ensures no { result ≡ false → (h : ℕ) × (number_of given ≡ Some h) × (is_head_at rings.now.sets h ≡ false) }
{
    match given {
        None => true,
        Some(head) => rings.is_head(head),
    }
}

/// A link goes into the set of a head.
pub fn put_last(rings: &mut Rings, x: LinkageNo, given: Option<LinkageNo>) -> Came
    ensures { (naming : ℕ → Plain) (o : Memberships) → o.sets ≡ rings.old.sets → CameAs result naming (set_effect Standard.Into naming o x.0 (number_of given)) o rings.new.sets }
{
    if !rings.is_link(x) {
        return Came::NoRule;
    }
    if !is_head_or_none(rings, given) {
        return Came::NoRule;
    }
    rings.into(x, given);
    Came::Changed
}

// Whether a linkage, if there is one, was made.
fn is_made(rings: &Rings, given: Option<LinkageNo>) -> bool
    ensures { result ≡ true → ForSome given (λ p. p.0 < length rings.now.sets) }
{
    match given {
        None => true,
        Some(linkage) => (linkage.0 as usize) < rings.len(),
    }
}

// Does a procedure of a linkage.
fn perform(rings: &mut Rings, name: Standard, x: LinkageNo, given: Option<LinkageNo>) -> Came
    ensures { (naming : ℕ → Plain) (o : Memberships) → o.sets ≡ rings.old.sets → CameAs result naming (set_effect name naming o x.0 (number_of given)) o rings.new.sets }
{
    if x.0 as usize >= rings.len() || !is_made(rings, given) {
        return Came::Memory;
    }
    match name {
        Standard::Suc => successor(rings, x),
        Standard::Pred => predecessor(rings, x),
        Standard::Prev => previous(rings, x),
        Standard::Out => take_out(rings, x),
        Standard::Follow => put_behind(rings, x, given),
        Standard::Precede => put_before(rings, x, given),
        Standard::Into => put_last(rings, x, given),
        Standard::First => first_link(rings, x),
        Standard::Last => last_link(rings, x),
        Standard::Empty => is_without_links(rings, x),
        Standard::Cardinal => link_count(rings, x),
        Standard::Clear => take_all_out(rings, x),
        _ => Came::NoRule,
    }
}

// An instance that is a linkage, as a reference: a simulation block stands for its main program. It answers `None` for a frame of a number of
// 2^63 or more.
fn reference_to(simulations: &[Simulated], object: FrameRef) -> Option<Slot>
    ensures is { IfSome result (λ s. Rises (stamps (blocks_of simulations.now)) → value_of s ≡ Of (named_in (map simulation_of simulations.now) object.stamp)) }
    ensures leads { IfSome result (λ s. (frames : List Frame) (m : Frames) → Leads frames m object → SlotLeads frames m s) }
    ensures no_array { IfSome result (λ s. names_array s.kind ≡ false) }
{
    if object.stamp >= 1 << 63 {
        return None;
    }
    if is_simulated(simulations, object.stamp) {
        return Some(Slot::main_program(object));
    }
    Some(Slot::object(object))
}

// What a linkage is that of, or `none`. It answers `None` for a frame of a number of 2^63 or more.
fn object_of(
    simulations: &[Simulated],
    objects: &[FrameRef],
    number: Option<LinkageNo>,
) -> Option<Slot>
    ensures is { IfSome result (λ s. (o : Memberships) → Rises (stamps (blocks_of simulations.now)) → o.instances ≡ stamps objects.now → value_of s ≡ Of (object_at (named_in (map simulation_of simulations.now)) o (number_of number))) }
    ensures leads { IfSome result (λ s. (frames : List Frame) (m : Frames) → AllReach frames m objects.now → SlotLeads frames m s) }
    ensures no_array { IfSome result (λ s. names_array s.kind ≡ false) }
{
    let Some(x) = number else {
        return Some(NOTHING);
    };
    let Some(object) = objects.get(x.0 as usize) else {
        return Some(NOTHING);
    };
    reference_to(simulations, *object)
}

// The value of a procedure, if it has one.
fn value_in(
    simulations: &[Simulated],
    objects: &[FrameRef],
    came: Came,
) -> Result<Option<Slot>, Missing>
    ensures is { (o : Memberships) → Rises (stamps (blocks_of simulations.now)) → o.instances ≡ stamps objects.now → GivesSlot result came (named_in (map simulation_of simulations.now)) o }
    ensures leads { IfOk result (λ v. IfSome v (λ s. (frames : List Frame) (m : Frames) → AllReach frames m objects.now → SlotLeads frames m s)) }
    ensures no_array { IfOk result (λ v. IfSome v (λ s. names_array s.kind ≡ false)) }
{
    match came {
        Came::Linkage(number) => match object_of(simulations, objects, number) {
            Some(object) => Ok(Some(object)),
            None => Err(Missing::Memory),
        },
        Came::Truth(holds) => Ok(Some(Slot::truth(holds))),
        Came::Integer(count) => Ok(Some(Slot::integer(i64::from(count)))),
        Came::Changed => Ok(None),
        Came::NoRule => Err(Missing::NoRule),
        Came::Memory => Err(Missing::Memory),
    }
}

/// Puts a value, if there is one, behind the others where there is room, and answers how many there are then.
pub fn put(stack: &mut [Slot], depth: usize, value: Option<Slot>) -> Option<usize>
    requires fits { depth ≤ length stack.old }
    ensures within { IfSome result (λ n. n ≤ length stack.new) }
    ensures long { length stack.new ≡ length stack.old }
    ensures leads { (frames : List Frame) (m : Frames) → AllLead frames m stack.old → IfSome value (λ s. SlotLeads frames m s) → AllLead frames m stack.new }
    ensures leads_arrays { (regions : List RegionOf) (arrays : List ArrayOf) → AllLeadArrays regions arrays stack.old → IfSome value (λ s. names_array s.kind ≡ false) → AllLeadArrays regions arrays stack.new }
    ensures row { IfSome result (λ n. (o : World) (go : List Value → Run Machine) → go (with_slot value (values_of depth stack.old)) ≡ go (values_of n stack.new)) }
{
    let Some(slot) = value else {
        return Some(depth);
    };
    stack::push(stack, depth, slot)
}

/// How a step ends that can't go on.
pub fn flow_of(missing: Missing) -> Flow
    ensures { result ≡ flow_by missing }
{
    match missing {
        Missing::NoRule => Flow::NoRule,
        Missing::Memory => Flow::Memory,
    }
}

/// Does a procedure of the linkage of an object or of a main program.
#[inline(never)]
pub fn set_standard(
    storage: &mut Storage,
    stack: &mut [Slot],
    regs: &mut Registers,
    name: Standard,
) -> Flow
    requires fits { regs.old.depth ≤ length stack.old }
    requires short { regs.old.pc + 1 < 2 ^ 64 }
    ensures fits { regs.new.depth ≤ length stack.new }
    ensures texts { storage.new.texts ≡ storage.old.texts }
    ensures image { storage.new.image ≡ storage.old.image }
    ensures quiet { IsQuiet result }
    ensures row { (l : Limits) (line : ℕ) (below : List Activation) (now : Outside) →
        Obeys result l line (λ o m a b. performing_set plain name a.stack o (λ p value st. on p m a (with_value value st) b)) storage.old storage.new regs.old regs.new stack.old stack.new below below now now }
{
    let objects = &storage.members.objects;
    let parameter = match take_parameter(objects, stack, regs.depth, takes_linkage(name)) {
        Ok(parameter) => parameter,
        Err(missing) => return flow_of(missing),
    };
    let owner = match take_owner(objects, stack, parameter.under) {
        Ok(owner) => owner,
        Err(missing) => return flow_of(missing),
    };
    let rings = &mut storage.members.rings;
    let came = perform(rings, name, owner.linkage, parameter.linkage);
    let value = match value_in(&storage.simulations, &storage.members.objects, came) {
        Ok(value) => value,
        Err(missing) => return flow_of(missing),
    };
    let Some(depth) = put(stack, owner.under, value) else {
        return Flow::Memory;
    };
    regs.depth = depth;
    regs.pc += 1;
    Flow::On
}
