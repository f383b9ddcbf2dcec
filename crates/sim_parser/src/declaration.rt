//! Declared variables, constants and arrays.
#![tactic(auto, unfolding(sim_tree::specs::Grammar::is))]

ghost use Rattle.std.specs.Prelude.{◌≡◌, ◌≤◌, ◌<◌, ℕ, List, [], ◌∷◌, map, length};
ghost use Rattle.sim_tree.specs.Grammar as g;
ghost use Rattle.sim_tree.specs.Grammar.{Of, Once, Many};
ghost use Rattle.sim_tree.specs.Reading.{node};
ghost use Rattle.sim_tree.specs.ProgramDerivation.{bounds_derivation, constant_derivation, segment_derivation, segments_derivation, variable_derivation, variables_derivation};
ghost use Rattle.sim_expr_parser.specs.Parsing.{GivesTo};
ghost use Rattle.sim_parser.specs.CommaLists.{GivesItems};
ghost use Rattle.sim_parser.specs.Parsing.{GivesAll, GivesPart, PartAt};

use crate::lists::comma_list;
use crate::names::identifiers;
use sim_base::TokenKind;
use sim_expr_parser::{LIMIT, Source, Stop, expression, kind_at_token, leading_sign};
use sim_tree::{ArraySegment, Bounds, Constant, Variable};

/// The variables and constants of a type, at least one, with commas between them, and the index after them.
pub fn variables(source: &Source, start: usize) -> Result<(Vec<Variable>, usize), Stop>
    requires within { start < length source.now }
    ensures { (d : ℕ) → GivesAll source.now d (Of Once g.Variable ∷ Of Many g.NextVariable ∷ []) start (λ v. variables_derivation v.items) result }
{
    comma_list(
        source,
        start,
        |at|
            requires { at < length source.now }
            ensures { PartAt source.entry.now g.Variable variable_derivation at result }
        { variable(source, at) },
    )
}

// A variable, or a constant.
fn variable(source: &Source, at: usize) -> Result<(Variable, usize), Stop>
    requires within { at < length source.now }
    ensures { (d : ℕ) → GivesPart source.now d g.Variable at variable_derivation result }
{
    let (name, next) = source.identifier_at(at)?;
    let Some(next) = source.eat(next, TokenKind::Equal) else {
        return Ok((Variable { name, value: None }, next));
    };
    let (constant, end) = constant(source, next)?;
    let value = Some(constant);
    Ok((Variable { name, value }, end))
}

// The value of a constant.
fn constant(source: &Source, at: usize) -> Result<(Constant, usize), Stop>
    requires within { at < length source.now }
    ensures { (d : ℕ) → GivesPart source.now d g.Constant at constant_derivation result }
{
    let (sign, next) = leading_sign(source, at);
    let token = source.token_no(next);
    let kind = kind_at_token(source.tokens(), next);
    if kind == TokenKind::Integer {
        let value = source.integer_at(next);
        return Ok((Constant::Integer { sign, token, value }, next + 1));
    }
    if sign.is_some() {
        return Err(Stop::Unexpected(next));
    }
    let constant = match kind {
        TokenKind::Character => Constant::Character {
            token,
            value: source.character_at(next),
        },
        TokenKind::Text => Constant::Text {
            token,
            value: source.bytes_at(next)?,
        },
        TokenKind::True => Constant::True { token },
        TokenKind::False => Constant::False { token },
        _ => return Err(Stop::Unexpected(next)),
    };
    Ok((constant, next + 1))
}

/// The arrays of a type, at least one segment, with commas between them, and the index after them.
pub fn segments(
    source: &Source,
    start: usize,
    depth: u32,
) -> Result<(Vec<ArraySegment>, usize), Stop>
    requires within { start < length source.now }
    requires shallow { depth ≤ LIMIT }
    ensures { GivesAll source.now depth (Of Once g.ArraySegment ∷ Of Many g.NextArraySegment ∷ []) start (λ v. segments_derivation v.items) result }
{
    comma_list(source, start, |at| segment(source, at, depth))
}

// Arrays with the same bounds.
fn segment(source: &Source, at: usize, depth: u32) -> Result<(ArraySegment, usize), Stop>
    requires within { at < length source.now }
    requires shallow { depth ≤ LIMIT }
    ensures { GivesPart source.now depth g.ArraySegment at segment_derivation result }
{
    let (names, next) = identifiers(source, at)?;
    let next = source.expect(next, TokenKind::Open)?;
    let (bounds, next) = bounds_list(source, next, depth)?;
    let end = source.expect(next, TokenKind::Close)?;
    Ok((ArraySegment { names, bounds }, end))
}

// The bounds of each dimension, at least one.
fn bounds_list(source: &Source, start: usize, depth: u32) -> Result<(Vec<Bounds>, usize), Stop>
    requires within { start < length source.now }
    requires shallow { depth ≤ LIMIT }
    ensures { GivesItems source.now depth (Of Once g.Bounds) g.NextBounds start (λ b f. node g.Bounds (bounds_derivation b) f) result }
{
    comma_list(source, start, |at| bounds(source, at, depth))
}

// The bounds of a dimension.
fn bounds(source: &Source, at: usize, depth: u32) -> Result<(Bounds, usize), Stop>
    requires within { at < length source.now }
    requires shallow { depth ≤ LIMIT }
    ensures { GivesPart source.now depth g.Bounds at bounds_derivation result }
{
    let (lower, next) = expression(source, at, depth)?;
    let next = source.expect(next, TokenKind::Colon)?;
    let (upper, end) = expression(source, next, depth)?;
    Ok((Bounds { lower, upper }, end))
}
