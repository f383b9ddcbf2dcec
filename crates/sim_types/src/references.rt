//! Classes in expressions: behind `new`, `this`, `qua`, `is` and `in`.
ghost use Rattle.std.specs.Prelude.{◌≡◌, Some, length};
ghost use Rattle.sim_scope.specs.Judged.{Judges};
ghost use Rattle.sim_scope.specs.Outcomes.{has};
ghost use Rattle.sim_scope.specs.References.{as_class, block_of_class, chained_with, class_barred, class_compared, class_denoted, class_fits, class_named, class_type, class_value, declared_class, for_prefixing, formal_count, formal_count_of, generated, generates, is_its_own, is_no_reference, is_nowhere, is_only_prefix, is_this, level_is, member, new_object, new_of, new_of_class, no_class, only_prefix, other_chain, qualified, standard_class, this_barred, this_block, this_fits, this_found, this_object, this_of, this_of_class, this_value, truth_of, wrong_number};

use crate::bindings::{bound, located, nothing_there, occurs};
use crate::fit::is_reference;
use crate::outcomes::{bars, breaks, either, has, is_standard_class};
use sim_base::{DeclNo, Rule, TokenNo};
use sim_scope::{
    Actuals, Denotation, Extent, Found, Occurrence, Outcome, Scopes, Side, SimType, StandardName,
    StandardPrefix, block_at, class_block, class_formals_count, encloser, has_detach_at, has_level,
    has_simulation, has_standard_prefix, is_for_prefixing, on_one_chain,
};
use sim_tree::Identifier;

/// An identifier that is no class where one has to stand (`S12`).
#[tactic(auto, unfolding(sim_scope::specs::Judged::telling, sim_scope::specs::Runs::run))]
fn no_class(found: &mut Found, token: TokenNo) -> Occurrence
    ensures { Judges found.old found.new result (no_class token.0) }
{
    found.note(token, Rule::WrongKind);
    nothing_there()
}

#[tactic(auto, unfolding(sim_scope::specs::Judged::gives, sim_scope::specs::Runs::run))]
fn declared_class(
    found: &mut Found,
    token: TokenNo,
    declaration: DeclNo,
    barred: bool,
    block: Option<u32>,
) -> Occurrence
    ensures { Judges found.old found.new result (declared_class token.0 declaration barred block) }
{
    match block {
        Some(_) => occurs(Denotation::Declared(declaration), barred),
        None => no_class(found, token),
    }
}

#[tactic(auto, unfolding(sim_scope::specs::Judged::gives, sim_scope::specs::Runs::run))]
fn standard_class(found: &mut Found, token: TokenNo, name: StandardName, barred: bool) -> Occurrence
    ensures { Judges found.old found.new result (standard_class token.0 name barred) }
{
    if is_standard_class(name) {
        occurs(Denotation::Standard(name), barred)
    } else {
        no_class(found, token)
    }
}

#[tactic(auto, unfolding(sim_scope::specs::References::as_class, sim_scope::specs::Judged::gives, sim_scope::specs::Runs::run))]
fn as_class(
    scopes: &Scopes,
    found: &mut Found,
    token: TokenNo,
    occurrence: Occurrence,
) -> Occurrence
    ensures { Judges found.old found.new result (as_class scopes.now token.0 occurrence) }
{
    let barred = occurrence.barred;
    match occurrence.denotes {
        Some(Denotation::Declared(declaration)) => {
            let block = class_block(scopes, declaration);
            declared_class(found, token, declaration, barred, block)
        }
        Some(Denotation::Standard(name)) => standard_class(found, token, name, barred),
        None => nothing_there(),
    }
}

/// The class that an identifier denotes: one of the program, or `simset` or `simulation`; and whether `S22` bars it.
pub fn class_named(
    scopes: &Scopes,
    extent: Extent,
    found: &mut Found,
    name: &Identifier,
) -> Occurrence
    ensures { Judges found.old found.new result (class_named scopes.now extent name.now) }
{
    let occurrence = bound(scopes, extent, found, name);
    as_class(scopes, found, name.token, occurrence)
}

fn for_prefixing(scopes: &Scopes, block: Option<u32>) -> bool
    ensures { result ≡ for_prefixing scopes.now block }
{
    match block {
        Some(block) => is_for_prefixing(scopes, block),
        None => false,
    }
}

/// Whether a class is only for prefixing: then it breaks `S21` behind `new`, `this`, `qua`, `is`, `in` and `when`.
#[tactic(auto, unfolding(sim_scope::specs::References::is_only_prefix))]
pub fn is_only_prefix(scopes: &Scopes, class: Denotation) -> bool
    ensures { result ≡ is_only_prefix scopes.now class }
{
    match class {
        Denotation::Declared(declaration) => {
            for_prefixing(scopes, class_block(scopes, declaration))
        }
        Denotation::Standard(_) => true,
    }
}

fn only_prefix(scopes: &Scopes, class: Option<Denotation>) -> bool
    ensures { result ≡ only_prefix scopes.now class }
{
    match class {
        Some(class) => is_only_prefix(scopes, class),
        None => false,
    }
}

/// The type of references of a class. No reference is of a standard class.
pub fn class_type(class: Denotation) -> SimType
    ensures { result ≡ class_type class }
{
    match class {
        Denotation::Declared(declaration) => SimType::Ref(declaration),
        Denotation::Standard(_) => SimType::NoneType,
    }
}

/// Whether references of a type and a class lie on one prefix chain; else the class breaks `S16`.
pub fn chained_with(scopes: &Scopes, class: Denotation, ty: SimType) -> bool
    ensures { result ≡ chained_with scopes.now class ty }
{
    match (class, ty) {
        (Denotation::Declared(declaration), SimType::Ref(other)) => {
            on_one_chain(scopes, other, declaration)
        }
        (Denotation::Standard(_), SimType::Ref(_)) => false,
        _ => true,
    }
}

fn other_chain(scopes: &Scopes, class: Option<Denotation>, ty: Option<SimType>) -> bool
    ensures { result ≡ other_chain scopes.now class ty }
{
    match (class, ty) {
        (Some(class), Some(ty)) => !chained_with(scopes, class, ty),
        _ => false,
    }
}

/// `S16` and `S21` of a class behind an operand of this type, each by itself; whether one is broken.
pub fn class_fits(
    scopes: &Scopes,
    found: &mut Found,
    token: TokenNo,
    class: Option<Denotation>,
    ty: Option<SimType>,
) -> bool
    ensures { Judges found.old found.new result (class_fits scopes.now token.0 class ty) }
{
    let other = bars(
        found,
        other_chain(scopes, class, ty),
        token,
        Rule::DifferentChains,
    );
    let only = bars(
        found,
        only_prefix(scopes, class),
        token,
        Rule::OnlyForPrefixing,
    );
    either(other, only)
}

fn is_no_reference(ty: Option<SimType>) -> bool
    ensures { result ≡ is_no_reference ty }
{
    match ty {
        Some(ty) => !is_reference(ty),
        None => false,
    }
}

/// Whether the operand is no reference (`S13`), or a rule bars the class behind it.
fn class_barred(
    scopes: &Scopes,
    found: &mut Found,
    operand: Side,
    token: TokenNo,
    occurrence: Occurrence,
) -> bool
    ensures { Judges found.old found.new result (class_barred scopes.now operand token.0 occurrence) }
{
    let wrong = bars(
        found,
        is_no_reference(operand.ty),
        operand.first,
        Rule::WrongType,
    );
    let barred = class_fits(scopes, found, token, occurrence.denotes, operand.ty);
    let inner = either(wrong, barred);
    either(inner, occurrence.barred)
}

/// The type of an expression with `is` or `in`.
#[tactic(auto, unfolding(sim_scope::specs::Judged::gives, sim_scope::specs::Runs::run))]
fn truth_value(
    found: &mut Found,
    naming: TokenNo,
    barred: bool,
    ty: Option<SimType>,
    class: Option<Denotation>,
) -> Outcome
    ensures { Judges found.old found.new result (class_value naming.0 barred ty class truth_of) }
{
    match (barred, ty, class) {
        (false, Some(_), Some(_)) => has(found, naming, SimType::Boolean),
        _ => Outcome::Refused,
    }
}

/// The type of an expression with `qua`.
#[tactic(auto, unfolding(sim_scope::specs::Judged::gives, sim_scope::specs::Runs::run))]
fn qualified_value(
    found: &mut Found,
    naming: TokenNo,
    barred: bool,
    ty: Option<SimType>,
    class: Option<Denotation>,
) -> Outcome
    ensures { Judges found.old found.new result (class_value naming.0 barred ty class class_type) }
{
    match (barred, ty, class) {
        (false, Some(_), Some(class)) => has(found, naming, class_type(class)),
        _ => Outcome::Refused,
    }
}

/// `is` or `in`, with what stands before it.
pub(crate) fn member(
    scopes: &Scopes,
    found: &mut Found,
    naming: TokenNo,
    operand: Side,
    name: &Identifier,
    class: Occurrence,
) -> Outcome
    ensures { Judges found.old found.new result (member scopes.now naming.0 operand name.now class) }
{
    let barred = class_barred(scopes, found, operand, name.token, class);
    truth_value(found, naming, barred, operand.ty, class.denotes)
}

/// `qua`, with what stands before it.
pub(crate) fn qualified(
    scopes: &Scopes,
    found: &mut Found,
    naming: TokenNo,
    operand: Side,
    name: &Identifier,
    class: Occurrence,
) -> Outcome
    ensures { Judges found.old found.new result (qualified scopes.now naming.0 operand name.now class) }
{
    let barred = class_barred(scopes, found, operand, name.token, class);
    qualified_value(found, naming, barred, operand.ty, class.denotes)
}

/// Whether one of the levels of a block is a class.
fn level_is(scopes: &Scopes, class: Denotation, level: Option<u32>, block: u32) -> bool
    ensures { result ≡ level_is scopes.now class level block }
{
    match (class, level) {
        (Denotation::Declared(_), Some(level)) => has_level(scopes, block, level),
        (Denotation::Declared(_), None) => false,
        (Denotation::Standard(StandardName::Prefix(StandardPrefix::Simulation)), _) => {
            has_simulation(scopes, block)
        }
        (Denotation::Standard(_), _) => has_standard_prefix(scopes, block),
    }
}

/// The block of a class of the program.
pub fn block_of_class(scopes: &Scopes, class: Denotation) -> Option<u32>
    ensures { result ≡ block_of_class scopes.now class }
{
    match class {
        Denotation::Declared(declaration) => class_block(scopes, declaration),
        Denotation::Standard(_) => None,
    }
}

/// Whether `this` of a class means the object, the prefixed block or the connected object of a block, where no block further in is meant.
#[tactic(auto, unfolding(sim_scope::specs::References::is_this))]
fn is_this(scopes: &Scopes, class: Denotation, block: u32) -> bool
    ensures { result ≡ is_this scopes.now class block }
{
    has_detach_at(scopes, block) && level_is(scopes, class, block_of_class(scopes, class), block)
}

/// The innermost block, from one outward, that `this` of a class means.
fn this_from(scopes: &Scopes, class: Denotation, block: u32) -> Option<u32>
    ensures { result ≡ this_of scopes.now (length scopes.now.blocks) class block }
{
    let mut block = block;
    for step in 0..scopes.block_count() {
        if is_this(scopes, class, block) {
            return Some(block);
        }
        match encloser(scopes, block) {
            Some(around) => block = around,
            None => return None,
        }
    }
    None
}

/// The block that `this` of a class means at a token.
#[tactic(auto, unfolding(sim_scope::specs::References::this_block))]
fn this_block(scopes: &Scopes, token: TokenNo, class: Denotation) -> Option<u32>
    ensures { result ≡ this_block scopes.now token.0 class }
{
    match block_at(scopes, token) {
        Some(block) => this_from(scopes, class, block),
        None => None,
    }
}

fn is_its_own(place: Option<u32>, block: u32) -> bool
    ensures { result ≡ is_its_own place block }
{
    match place {
        Some(place) => place == block,
        None => false,
    }
}

/// Whether `this` in a bound means what the array belongs to.
#[tactic(auto, unfolding(sim_scope::specs::References::this_barred))]
fn this_barred(scopes: &Scopes, extent: Extent, token: TokenNo, block: Option<u32>) -> bool
    ensures { result ≡ this_barred scopes.now extent token.0 block }
{
    match (extent, block) {
        (_, None) => false,
        (Extent::Statement, Some(_)) => false,
        (Extent::Bound, Some(block)) => is_its_own(block_at(scopes, token), block),
    }
}

fn is_nowhere(block: Option<u32>) -> bool
    ensures { result ≡ is_nowhere block }
{
    match block {
        Some(_) => false,
        None => true,
    }
}

/// `S18`, `S21` and `S22` of the class behind `this`, each by itself; whether one is broken.
fn this_fits(
    scopes: &Scopes,
    extent: Extent,
    found: &mut Found,
    token: TokenNo,
    class: Denotation,
    block: Option<u32>,
) -> bool
    ensures { Judges found.old found.new result (this_fits scopes.now extent token.0 class block) }
{
    let outside = bars(found, is_nowhere(block), token, Rule::ThisOutsideItsClass);
    let only = bars(
        found,
        is_only_prefix(scopes, class),
        token,
        Rule::OnlyForPrefixing,
    );
    let depends = bars(
        found,
        this_barred(scopes, extent, token, block),
        token,
        Rule::BoundDependsOnItsBlock,
    );
    let inner = either(outside, only);
    either(inner, depends)
}

#[tactic(auto, unfolding(sim_scope::specs::Judged::gives, sim_scope::specs::Runs::run))]
fn this_value(found: &mut Found, naming: TokenNo, class: Denotation, barred: bool) -> Outcome
    ensures { Judges found.old found.new result (this_value naming.0 class barred) }
{
    if barred {
        Outcome::Refused
    } else {
        has(found, naming, class_type(class))
    }
}

fn this_found(
    scopes: &Scopes,
    extent: Extent,
    found: &mut Found,
    naming: TokenNo,
    token: TokenNo,
    class: Denotation,
    barred: bool,
    block: Option<u32>,
) -> Outcome
    ensures { Judges found.old found.new result (this_found scopes.now extent naming.0 token.0 class barred block) }
{
    located(found, naming, block);
    let broken = this_fits(scopes, extent, found, token, class, block);
    let refused = either(broken, barred);
    this_value(found, naming, class, refused)
}

/// `this` of a class.
#[tactic(auto, unfolding(sim_scope::specs::References::this_object, sim_scope::specs::Judged::gives, sim_scope::specs::Runs::run))]
pub(crate) fn this_object(
    scopes: &Scopes,
    extent: Extent,
    found: &mut Found,
    naming: TokenNo,
    name: &Identifier,
    class: Occurrence,
) -> Outcome
    ensures { Judges found.old found.new result (this_object scopes.now extent naming.0 name.now class) }
{
    let barred = class.barred;
    match class.denotes {
        Some(class) => {
            let block = this_block(scopes, name.token, class);
            this_found(
                scopes, extent, found, naming, name.token, class, barred, block,
            )
        }
        None => Outcome::Refused,
    }
}

fn formal_count_of(scopes: &Scopes, block: Option<u32>) -> u128
    ensures { result ≡ formal_count_of scopes.now block }
{
    match block {
        Some(block) => class_formals_count(scopes, block),
        None => 0,
    }
}

/// How many parameters the levels of a class have. (In tables where a class is in its own chain its levels count again and again.)
pub fn formal_count(scopes: &Scopes, class: Denotation) -> u128
    ensures { result ≡ formal_count scopes.now class }
{
    formal_count_of(scopes, block_of_class(scopes, class))
}

/// A generation, which also stands as a statement.
#[tactic(auto, unfolding(sim_scope::specs::Judged::telling, sim_scope::specs::Runs::run))]
fn generates(found: &mut Found, naming: TokenNo, ty: SimType) -> Outcome
    ensures { Judges found.old found.new result (generates naming.0 ty) }
{
    found.typed(naming, ty);
    Outcome::Called(ty)
}

/// Whether there are as many actuals as the levels of the class have parameters; this is judged where each is something.
fn wrong_number(scopes: &Scopes, class: Denotation, actuals: Actuals) -> bool
    ensures { result ≡ wrong_number scopes.now class actuals }
{
    actuals.typed && formal_count(scopes, class) != actuals.count as u128
}

#[tactic(auto, unfolding(sim_scope::specs::Judged::gives, sim_scope::specs::Runs::run))]
fn generated(
    found: &mut Found,
    naming: TokenNo,
    class: Denotation,
    actuals: Actuals,
    barred: bool,
) -> Outcome
    ensures { Judges found.old found.new result (generated naming.0 class actuals barred) }
{
    if barred || !actuals.typed {
        return Outcome::Refused;
    }
    match actuals.misfit {
        Some(fault) => breaks(found, fault.token, fault.rule),
        None => generates(found, naming, class_type(class)),
    }
}

fn new_of(
    scopes: &Scopes,
    found: &mut Found,
    naming: TokenNo,
    token: TokenNo,
    class: Denotation,
    barred: bool,
    actuals: Actuals,
) -> Outcome
    ensures { Judges found.old found.new result (new_of scopes.now naming.0 token.0 class barred actuals) }
{
    let wrong = bars(
        found,
        wrong_number(scopes, class, actuals),
        token,
        Rule::WrongNumber,
    );
    let only = bars(
        found,
        is_only_prefix(scopes, class),
        token,
        Rule::OnlyForPrefixing,
    );
    let inner = either(wrong, only);
    let broken = either(inner, barred);
    generated(found, naming, class, actuals, broken)
}

/// `new`, with the actual parameters of all levels of the class.
#[tactic(auto, unfolding(sim_scope::specs::References::new_object, sim_scope::specs::Judged::gives, sim_scope::specs::Runs::run))]
pub(crate) fn new_object(
    scopes: &Scopes,
    found: &mut Found,
    naming: TokenNo,
    name: &Identifier,
    class: Occurrence,
    actuals: Actuals,
) -> Outcome
    ensures { Judges found.old found.new result (new_object scopes.now naming.0 name.now class actuals) }
{
    let barred = class.barred;
    match class.denotes {
        Some(class) => new_of(scopes, found, naming, name.token, class, barred, actuals),
        None => Outcome::Refused,
    }
}
