//! What an identifier denotes: alone, and behind a dot.
ghost use Rattle.std.specs.Prelude.{◌≡◌, Some};
ghost use Rattle.sim_scope.specs.Judged.{Judges};
ghost use Rattle.sim_scope.specs.Calls.{attribute, attribute_by_value, attribute_found, attribute_in, attribute_missing, attribute_of_value, barred, barred_if, bound as bound_to, detach_or_none, is_barred, is_fixed, is_own_level, located, missing, nothing_there, occurs, remote, remote_as, remote_at, remote_in, used_in, used_or_barred};
ghost use Rattle.sim_scope.specs.Scopes.{is_shown};

use crate::outcomes::{bars, side};
use sim_base::{DeclNo, Rule, TokenNo};
use sim_scope::{
    Denotation, Entry, Extent, Found, Occurrence, Outcome, Scopes, Side, SimType, StandardName,
    binding_and_block, block_at, class_block, declared_or_standard, has_classes, has_level,
    is_detach, is_passed_over, shown, sysin_attribute, sysout_attribute, text_attribute,
    undeclared,
};
use sim_tree::Identifier;
use sim_values::Standard;

/// Whether an array bound may use a declaration of its own block.
fn is_fixed(entry: Entry) -> bool
    ensures { result ≡ is_fixed entry }
{
    match entry {
        Entry::Constant(_) => true,
        Entry::Formal(_) => true,
        _ => false,
    }
}

/// Whether a block is one of the levels of the block around a token.
fn is_own_level(scopes: &Scopes, place: Option<u32>, block: u32) -> bool
    ensures { result ≡ is_own_level scopes.now place block }
{
    match place {
        Some(place) => has_level(scopes, place, block),
        None => false,
    }
}

fn barred_declared(scopes: &Scopes, token: TokenNo, declaration: DeclNo) -> bool
    ensures { result ≡ barred scopes.now token.0 (Denotation.Declared declaration) }
{
    match scopes.declarations().get(declaration.0 as usize) {
        Some(row) => {
            is_own_level(scopes, block_at(scopes, token), row.block) && !is_fixed(row.entry)
        }
        None => false,
    }
}

/// Whether an identifier may not stand in a bound.
#[tactic(auto, unfolding(sim_scope::specs::Calls::is_barred))]
fn is_barred(scopes: &Scopes, extent: Extent, token: TokenNo, denotation: Denotation) -> bool
    ensures { result ≡ is_barred scopes.now extent token.0 denotation }
{
    match (extent, denotation) {
        (Extent::Statement, _) => false,
        (Extent::Bound, Denotation::Declared(declaration)) => {
            barred_declared(scopes, token, declaration)
        }
        (Extent::Bound, Denotation::Standard(_)) => false,
    }
}

/// What is barred by one more rule.
fn barred_if(barred: bool, occurrence: Occurrence) -> Occurrence
    ensures { result ≡ barred_if barred occurrence }
{
    Occurrence {
        denotes: occurrence.denotes,
        barred: barred || occurrence.barred,
    }
}

/// What denotes nothing.
pub(crate) fn nothing_there() -> Occurrence
    ensures { result ≡ nothing_there }
{
    Occurrence {
        denotes: None,
        barred: false,
    }
}

/// What an identifier denotes, and whether a rule bars it from standing there.
pub(crate) fn occurs(denotation: Denotation, barred: bool) -> Occurrence
    ensures { result ≡ occurs (Some denotation) barred }
{
    Occurrence {
        denotes: Some(denotation),
        barred,
    }
}

/// A use of an identifier, unless it may not stand there.
#[tactic(auto, unfolding(sim_scope::specs::Judged::telling, sim_scope::specs::Runs::run))]
fn used_or_barred(
    found: &mut Found,
    token: TokenNo,
    denotation: Denotation,
    barred: bool,
) -> Occurrence
    ensures { Judges found.old found.new result (used_or_barred token.0 denotation barred) }
{
    if barred {
        found.note(token, Rule::BoundDependsOnItsBlock);
    } else {
        found.bind(token, denotation);
    }
    occurs(denotation, barred)
}

/// The block in which an identifier is found, if it is found in one. Also that of `this`, at the token of that word.
#[tactic(auto, unfolding(sim_scope::specs::Calls::located, sim_scope::specs::Judged::gives, sim_scope::specs::Judged::telling, sim_scope::specs::Runs::run))]
pub(crate) fn located(found: &mut Found, token: TokenNo, block: Option<u32>)
    ensures { Judges found.old found.new result (located token.0 block) }
{
    match block {
        Some(block) => found.locate(token, block),
        None => (),
    }
}

/// A use of an identifier that is found in a block, unless it may not stand there.
pub fn used_in(
    found: &mut Found,
    token: TokenNo,
    block: Option<u32>,
    denotation: Denotation,
    barred: bool,
) -> Occurrence
    ensures { Judges found.old found.new result (used_in token.0 block denotation barred) }
{
    located(found, token, block);
    used_or_barred(found, token, denotation, barred)
}

/// The rule that an identifier breaks which is not found: `S11` where it was passed over, else `S10` or one of `N1` to `N4`.
fn missing(passed: bool, name: &[u8]) -> Rule
    ensures { result ≡ missing passed name.now }
{
    if passed {
        Rule::NotAccessible
    } else {
        undeclared(name)
    }
}

/// What an identifier denotes.
#[tactic(auto, unfolding(sim_scope::specs::Calls::bound, sim_scope::specs::Judged::telling, sim_scope::specs::Runs::run))]
pub fn bound(scopes: &Scopes, extent: Extent, found: &mut Found, name: &Identifier) -> Occurrence
    ensures { Judges found.old found.new result (bound_to scopes.now extent name.now) }
{
    let (denotation, block) = binding_and_block(scopes, name.token, name.name.as_bytes());
    match denotation {
        Some(denotation) => {
            let barred = is_barred(scopes, extent, name.token, denotation);
            used_in(found, name.token, block, denotation, barred)
        }
        None => {
            let passed = is_passed_over(scopes, name.token, name.name.as_bytes());
            found.note(name.token, missing(passed, name.name.as_bytes()));
            nothing_there()
        }
    }
}

/// An attribute that is looked for.
#[tactic(auto, unfolding(sim_scope::specs::Judged::telling, sim_scope::specs::Runs::run))]
fn attribute_found(
    found: &mut Found,
    name: &Identifier,
    attribute: Option<StandardName>,
) -> Occurrence
    ensures { Judges found.old found.new result (attribute_found name.now attribute) }
{
    match attribute {
        Some(standard) => {
            found.bind(name.token, Denotation::Standard(standard));
            occurs(Denotation::Standard(standard), false)
        }
        None => {
            found.note(name.token, undeclared(name.name.as_bytes()));
            nothing_there()
        }
    }
}

fn detach_or_none(name: &[u8]) -> Option<StandardName>
    ensures { result ≡ detach_or_none name.now }
{
    if is_detach(name) {
        Some(StandardName::Procedure(Standard::Detach))
    } else {
        None
    }
}

/// The attribute of an object whose class has this block, as it is seen from a token.
#[tactic(auto, unfolding(sim_scope::specs::Calls::attribute_in))]
fn attribute_in(scopes: &Scopes, token: TokenNo, block: u32, name: &[u8]) -> Option<Denotation>
    ensures { result ≡ attribute_in scopes.now token.0 block name.now }
{
    let declaration = shown(scopes, Some(token.0), block, name);
    declared_or_standard(scopes, declaration, detach_or_none(name))
}

fn is_shown(declaration: Option<DeclNo>) -> bool
    ensures { result ≡ is_shown declaration }
{
    match declaration {
        Some(_) => true,
        None => false,
    }
}

/// The rule that an identifier behind a dot breaks where the class shows no attribute of this name there.
#[tactic(auto, unfolding(sim_scope::specs::Calls::attribute_missing))]
fn attribute_missing(scopes: &Scopes, block: u32, name: &Identifier) -> Rule
    ensures { result ≡ attribute_missing scopes.now block name.now }
{
    let passed = is_shown(shown(scopes, None, block, name.name.as_bytes()));
    missing(passed, name.name.as_bytes())
}

/// An attribute of an object, where the class shows one of this name.
#[tactic(auto, unfolding(sim_scope::specs::Judged::telling, sim_scope::specs::Runs::run))]
fn remote_as(
    scopes: &Scopes,
    extent: Extent,
    found: &mut Found,
    name: &Identifier,
    block: u32,
    denotation: Option<Denotation>,
) -> Occurrence
    ensures { Judges found.old found.new result (remote_as scopes.now extent name.now block denotation) }
{
    match denotation {
        Some(denotation) => {
            let barred = is_barred(scopes, extent, name.token, denotation);
            used_or_barred(found, name.token, denotation, barred)
        }
        None => {
            found.note(name.token, attribute_missing(scopes, block, name));
            nothing_there()
        }
    }
}

fn remote_at(
    scopes: &Scopes,
    extent: Extent,
    found: &mut Found,
    name: &Identifier,
    block: u32,
    barred: bool,
) -> Occurrence
    ensures { Judges found.old found.new result (remote_at scopes.now extent name.now block barred) }
{
    let denotation = attribute_in(scopes, name.token, block, name.name.as_bytes());
    barred_if(
        barred,
        remote_as(scopes, extent, found, name, block, denotation),
    )
}

/// An attribute of an object, whose class has no classes (`S17`).
fn remote_in(
    scopes: &Scopes,
    extent: Extent,
    found: &mut Found,
    name: &Identifier,
    block: Option<u32>,
) -> Occurrence
    ensures { Judges found.old found.new result (remote_in scopes.now extent name.now block) }
{
    match block {
        Some(block) => {
            let barred = bars(
                found,
                has_classes(scopes, block),
                name.token,
                Rule::ClassWithClasses,
            );
            remote_at(scopes, extent, found, name, block, barred)
        }
        None => nothing_there(),
    }
}

/// What an attribute of an object of a class denotes.
#[tactic(auto, unfolding(sim_scope::specs::Calls::remote))]
fn remote(
    scopes: &Scopes,
    extent: Extent,
    found: &mut Found,
    name: &Identifier,
    class: DeclNo,
) -> Occurrence
    ensures { Judges found.old found.new result (remote scopes.now extent name.now class) }
{
    remote_in(scopes, extent, found, name, class_block(scopes, class))
}

/// What an attribute of a value denotes.
#[tactic(auto, unfolding(sim_scope::specs::Calls::attribute_of_value, sim_scope::specs::Judged::gives, sim_scope::specs::Judged::telling, sim_scope::specs::Runs::run))]
fn attribute_of_value(
    scopes: &Scopes,
    extent: Extent,
    found: &mut Found,
    name: &Identifier,
    value: Side,
) -> Occurrence
    ensures { Judges found.old found.new result (attribute_of_value scopes.now extent name.now value) }
{
    match value.ty {
        Some(SimType::Text) => {
            attribute_found(found, name, text_attribute(name.name.as_bytes()))
        }
        Some(SimType::NoneType) => attribute_found(found, name, None),
        Some(SimType::Ref(class)) => remote(scopes, extent, found, name, class),
        Some(_) => {
            found.note(value.first, Rule::WrongType);
            nothing_there()
        }
        None => nothing_there(),
    }
}

fn attribute_of_outcome(
    scopes: &Scopes,
    extent: Extent,
    found: &mut Found,
    name: &Identifier,
    first: TokenNo,
    outcome: Outcome,
) -> Occurrence
    ensures { Judges found.old found.new result (attribute_by_value scopes.now extent name.now first.0 outcome) }
{
    let value = side(scopes, found, first, outcome);
    attribute_of_value(scopes, extent, found, name, value)
}

/// What an attribute behind a dot denotes.
#[tactic(auto, unfolding(sim_scope::specs::Calls::attribute))]
pub(crate) fn attribute(
    scopes: &Scopes,
    extent: Extent,
    found: &mut Found,
    name: &Identifier,
    first: TokenNo,
    outcome: Outcome,
) -> Occurrence
    ensures { Judges found.old found.new result (attribute scopes.now extent name.now first.0 outcome) }
{
    match outcome {
        Outcome::Standard {
            name: StandardName::Sysin,
            ..
        } => { attribute_found(found, name, sysin_attribute(name.name.as_bytes())) }
        Outcome::Standard {
            name: StandardName::Sysout,
            ..
        } => { attribute_found(found, name, sysout_attribute(name.name.as_bytes())) }
        _ => attribute_of_outcome(scopes, extent, found, name, first, outcome),
    }
}
