//! Headings of procedures and classes: formal parameters, protection, virtual procedures.
#![tactic(auto, unfolding(sim_tree::specs::Grammar::is))]

ghost use Rattle.std.specs.Prelude.{◌≡◌, ◌<◌, ◌∷◌, ℕ, None, Ok, false, map, length, IfOk, MatchOption};
ghost use Rattle.sim_base.specs.declared.token.TokenKind.TheVariants as k;
ghost use Rattle.sim_tree.specs.Grammar as g;
ghost use Rattle.sim_tree.specs.Grammar.{Kept, Maybe, Of, Part, is, just, one_of, right_side};
ghost use Rattle.sim_tree.specs.Reading.{Forest, kind_at};
ghost use Rattle.sim_tree.specs.ProgramDerivation.{heading_derivation, mode_kind, mode_derivation, protecting, protection_derivation, specification_derivation, specifier_derivation, typed, virtual_derivation, virtuals_derivation};
ghost use Rattle.sim_expr_parser.specs.Parsing.{GivesRow, GivesTo, TookBare};
ghost use Rattle.sim_parser.specs.CommaLists.{IsReader};
ghost use Rattle.sim_parser.specs.Fronts.{BeginsSpecified, GivesFront, GivesSome, GivesWord, PartEach, ReadsFront, begins_specification as specification_spec, modes, names_row};
ghost use Rattle.sim_parser.specs.Parsing.{GivesPart, PartAt};

use crate::names::{identifiers, type_name};
use crate::words::begins_type;
use sim_base::{TokenKind, TokenNo};
use sim_expr_parser::{Source, Stop};
use sim_tree::{
    Identifier, Mode, ModePart, Protection, Specification, Specifier, TypeName,
    VirtualSpecification,
};

/// The formal parameters of a procedure or class, with what is written of them.
#[derive(Drop)]
pub struct Heading {
    /// The parameters.
    pub parameters: Vec<Identifier>,
    /// The modes that are written.
    pub modes: Vec<ModePart>,
    /// The kinds and types of the parameters.
    pub specifications: Vec<Specification>,
}

/// The heading behind the identifier of a procedure or class, and the index after it.
pub fn heading_at(source: &Source, at: usize) -> Result<(Heading, usize), Stop>
    requires within { at < length source.now }
    ensures { (d : ℕ) → GivesPart source.now d g.Heading at (λ h. heading_derivation h.parameters.items h.modes.items h.specifications.items) result }
{
    if let Some(end) = source.eat(at, TokenKind::Semicolon) {
        return Ok((
            Heading {
                parameters: Vec::new(source.allocator()),
                modes: Vec::new(source.allocator()),
                specifications: Vec::new(source.allocator()),
            },
            end,
        ));
    }
    let next = source.expect(at, TokenKind::Open)?;
    let (parameters, next) = identifiers(source, next)?;
    let next = source.expect(next, TokenKind::Close)?;
    let next = source.expect(next, TokenKind::Semicolon)?;
    let (modes, next) = mode_parts(source, next)?;
    let (specifications, end) = specifications(source, next)?;
    Ok((
        Heading {
            parameters,
            modes,
            specifications,
        },
        end,
    ))
}

// The mode at a token, if one stands there, and the index after it.
fn mode_at(source: &Source, at: usize) -> Option<(Mode, usize)>
    requires within { at < length source.now }
    ensures { MatchOption result (one_of modes (kind_at source.now at) ≡ false) (λ r. TookBare source.now at modes (mode_kind r.0) r.1) }
{
    if let Some(next) = source.eat(at, TokenKind::Value) {
        return Some((Mode::Value, next));
    }
    let next = source.eat(at, TokenKind::Name)?;
    Some((Mode::Name, next))
}

// Each mode with its parameters.
fn mode_parts(source: &Source, start: usize) -> Result<(Vec<ModePart>, usize), Stop>
    requires within { start < length source.now }
    ensures { (d : ℕ) → GivesRow source.now d g.Mode start (λ v. map mode_derivation v.items) result }
{
    let mut at = start;
    let mut parts = Vec::new(source.allocator());
    while let Some((mode, next)) = mode_at(source, at) {
        let (names, next) = identifiers(source, next)?;
        let end = source.expect(next, TokenKind::Semicolon)?;
        let token = source.token_no(at);
        parts.push(ModePart { token, mode, names })?;
        at = end;
    }
    Ok((parts, at))
}

// Whether a kind begins a specification, or virtual procedures of one type.
fn begins_specification(kind: TokenKind) -> bool
    ensures { result ≡ one_of specification_spec kind }
{
    kind == TokenKind::Procedure || begins_type(kind)
}

// Specifications, or virtual procedures, at a token, at least one, and the index after them.
fn specified_list<T: Drop, F: Fn(usize) -> Result<(T, usize), Stop>>(
    source: &Source,
    start: usize,
    item_at: F,
) -> Result<(Vec<T>, usize), Stop>
    requires within { start < length source.now }
    requires reader { IsReader source.now (F.pre item_at) (F.post item_at) }
    requires ahead { (i : ℕ) (x : T) (j : ℕ) → i < length source.now → F.post item_at i (Ok (x, j)) → i < j }
    ensures { (d : ℕ) (n : Part) (view : T → Forest) → BeginsSpecified n → PartEach source.now d n view (F.post item_at) → GivesSome source.now d n start view result }
{
    let mut list = Vec::new(source.allocator());
    let (first, mut at) = item_at(start)?;
    list.push(first)?;
    while begins_specification(source.kind_at(at)) {
        let (next, end) = item_at(at)?;
        list.push(next)?;
        at = end;
    }
    Ok((list, at))
}

// The specifications, at least one.
fn specifications(source: &Source, start: usize) -> Result<(Vec<Specification>, usize), Stop>
    requires within { start < length source.now }
    ensures { (d : ℕ) → GivesSome source.now d g.Specification start specification_derivation result }
{
    specified_list(
        source,
        start,
        |at|
            requires { at < length source.now }
            ensures gives { PartAt source.entry.now g.Specification specification_derivation at result }
            ensures ahead { IfOk result (λ r. at < r.1) }
        { specification(source, at) },
    )
}

fn specification(source: &Source, at: usize) -> Result<(Specification, usize), Stop>
    requires within { at < length source.now }
    ensures gives { (d : ℕ) → GivesPart source.now d g.Specification at specification_derivation result }
    ensures ahead { IfOk result (λ r. at < r.1) }
{
    let (specifier, next) = specifier(source, at)?;
    let (names, next) = identifiers(source, next)?;
    let end = source.expect(next, TokenKind::Semicolon)?;
    Ok((Specification { specifier, names }, end))
}

// What parameters are specified as.
fn specifier(source: &Source, at: usize) -> Result<(Specifier, usize), Stop>
    requires within { at < length source.now }
    ensures { (d : ℕ) → GivesFront source.now d g.Specification at specifier_derivation names_row result }
{
    let token = source.token_no(at);
    if let Some(next) = source.eat(at, TokenKind::Procedure) {
        return Ok((
            Specifier::Procedure {
                result: None,
                token,
            },
            next,
        ));
    }
    let (element, next) = type_name(source, at)?;
    let token = source.token_no(next);
    if let Some(end) = source.eat(next, TokenKind::Array) {
        return Ok((Specifier::Array { element, token }, end));
    }
    if let Some(end) = source.eat(next, TokenKind::Procedure) {
        let result = Some(element);
        return Ok((Specifier::Procedure { result, token }, end));
    }
    Ok((Specifier::Simple(element), next))
}

/// The protection of attributes at a token, and the index after it.
pub fn protections(source: &Source, start: usize) -> Result<(Vec<Protection>, usize), Stop>
    requires within { start < length source.now }
    ensures { (d : ℕ) → GivesRow source.now d g.Protection start (λ v. map protection_derivation v.items) result }
{
    let mut at = start;
    let mut list = Vec::new(source.allocator());
    while let Some((words, next)) = protecting_words(source, at) {
        let (names, next) = identifiers(source, next)?;
        let end = source.expect(next, TokenKind::Semicolon)?;
        list.push(Protection {
            hidden: words.hidden,
            protected: words.protected,
            names,
        })?;
        at = end;
    }
    Ok((list, at))
}

// The words in front of protected attributes.
#[derive(Clone, Copy)]
struct ProtectingWords {
    hidden: Option<TokenNo>,
    protected: Option<TokenNo>,
}

// `hidden`, `protected`, or both in either order, if one of them stands at a token, and the index after them.
fn protecting_words(source: &Source, at: usize) -> Option<(ProtectingWords, usize)>
    requires within { at < length source.now }
    ensures { MatchOption result (right_side g.Protection (kind_at source.now at) ≡ None)
        (λ r. (d : ℕ) → ReadsFront source.now d g.Protection at (protecting r.0.hidden r.0.protected) names_row r.1) }
{
    let (hidden, next) = word(source, at, TokenKind::Hidden);
    let (protected, end) = word(source, next, TokenKind::Protected);
    if hidden.is_some() {
        return Some((ProtectingWords { hidden, protected }, end));
    }
    protected?;
    let (hidden, end) = word(source, end, TokenKind::Hidden);
    Some((ProtectingWords { hidden, protected }, end))
}

// The token of a word, if it stands there, and the index after it.
fn word(source: &Source, at: usize, kind: TokenKind) -> (Option<TokenNo>, usize)
    requires within { at < length source.now }
    requires no_end { is k.EndOfSource kind ≡ false }
    ensures { GivesWord source.now at kind result.0 result.1 }
{
    match source.eat(at, kind) {
        Some(next) => (Some(source.token_no(at)), next),
        None => (None, at),
    }
}

/// The virtual part at a token, if there is one, and the index after it.
pub fn virtuals(source: &Source, at: usize) -> Result<(Vec<VirtualSpecification>, usize), Stop>
    requires within { at < length source.now }
    ensures { (d : ℕ) → GivesTo source.now d (Of Maybe g.Virtuals) at (λ v. virtuals_derivation v.items) result }
{
    let Some(next) = source.eat(at, TokenKind::Virtual) else {
        return Ok((Vec::new(source.allocator()), at));
    };
    let next = source.expect(next, TokenKind::Colon)?;
    virtual_list(source, next)
}

// The virtual procedures, at least one.
fn virtual_list(source: &Source, start: usize) -> Result<(Vec<VirtualSpecification>, usize), Stop>
    requires within { start < length source.now }
    ensures { (d : ℕ) → GivesSome source.now d g.VirtualSpecification start virtual_derivation result }
{
    specified_list(
        source,
        start,
        |at|
            requires { at < length source.now }
            ensures gives { PartAt source.entry.now g.VirtualSpecification virtual_derivation at result }
            ensures ahead { IfOk result (λ r. at < r.1) }
        { virtual_procedures(source, at) },
    )
}

// Virtual procedures of one result type.
fn virtual_procedures(source: &Source, at: usize) -> Result<(VirtualSpecification, usize), Stop>
    requires within { at < length source.now }
    ensures gives { (d : ℕ) → GivesPart source.now d g.VirtualSpecification at virtual_derivation result }
    ensures ahead { IfOk result (λ r. at < r.1) }
{
    let (result, next) = result_type(source, at)?;
    let token = source.token_no(next);
    let next = source.expect(next, TokenKind::Procedure)?;
    let (names, next) = identifiers(source, next)?;
    let end = source.expect(next, TokenKind::Semicolon)?;
    Ok((
        VirtualSpecification {
            result,
            token,
            names,
        },
        end,
    ))
}

// The type in front of `procedure`, if there is one.
fn result_type(source: &Source, at: usize) -> Result<(Option<TypeName>, usize), Stop>
    requires within { at < length source.now }
    ensures { (d : ℕ) → GivesFront source.now d g.VirtualSpecification at typed (Kept (just k.Procedure) ∷ names_row) result }
{
    if source.kind_at(at) == TokenKind::Procedure {
        return Ok((None, at));
    }
    let (result, next) = type_name(source, at)?;
    Ok((Some(result), next))
}
