//! The lists of `for` statements.
#![tactic(auto, unfolding(sim_tree::specs::Grammar::is))]

ghost use Rattle.std.specs.Prelude.{◌≡◌, ◌≤◌, ◌<◌, ℕ, List, [], ◌∷◌, map, length};
ghost use Rattle.sim_tree.specs.Grammar as g;
ghost use Rattle.sim_tree.specs.Grammar.{Of, Once, Many};
ghost use Rattle.sim_tree.specs.ProgramDerivation.{for_element_derivation, for_elements as for_elements_derivation, reference_element_derivation, reference_elements as reference_elements_derivation};
ghost use Rattle.sim_parser.specs.Parsing.{GivesAll, GivesPart};
ghost use Rattle.sim_parser.specs.Elements.{for_list_derivation};

use crate::lists::comma_list;
use sim_base::{TokenKind, TokenNo};
use sim_expr_parser::{LIMIT, Source, Stop, expression};
use sim_tree::{ForElement, ReferenceElement};

/// The sign and the elements of a `for` list.
#[derive(Drop)]
pub enum ForList {
    /// Over values, with the token of `:=`.
    Values {
        sign: TokenNo,
        elements: Vec<ForElement>,
    },
    /// Over references, with the token of `:-`.
    References {
        sign: TokenNo,
        elements: Vec<ReferenceElement>,
    },
}

/// The `for` list at its sign, and the index after it.
pub fn for_list(source: &Source, at: usize, depth: u32) -> Result<(ForList, usize), Stop>
    requires within { at < length source.now }
    requires shallow { depth ≤ LIMIT }
    ensures { GivesPart source.now depth g.ForList at for_list_derivation result }
{
    let sign = source.token_no(at);
    if let Some(next) = source.eat(at, TokenKind::Assign) {
        let (elements, end) = for_elements(source, next, depth)?;
        return Ok((ForList::Values { sign, elements }, end));
    }
    let next = source.expect(at, TokenKind::AssignReference)?;
    let (elements, end) = reference_elements(source, next, depth)?;
    Ok((ForList::References { sign, elements }, end))
}

// The elements over values, at least one.
fn for_elements(source: &Source, start: usize, depth: u32) -> Result<(Vec<ForElement>, usize), Stop>
    requires within { start < length source.now }
    requires shallow { depth ≤ LIMIT }
    ensures { GivesAll source.now depth (Of Once g.ForElement ∷ Of Many g.NextForElement ∷ []) start (λ v. for_elements_derivation v.items) result }
{
    comma_list(source, start, |at| for_element(source, at, depth))
}

// An element over values.
fn for_element(source: &Source, at: usize, depth: u32) -> Result<(ForElement, usize), Stop>
    requires within { at < length source.now }
    requires shallow { depth ≤ LIMIT }
    ensures { GivesPart source.now depth g.ForElement at for_element_derivation result }
{
    let (value, next) = expression(source, at, depth)?;
    let token = source.token_no(next);
    if let Some(next) = source.eat(next, TokenKind::Step) {
        let (step, next) = expression(source, next, depth)?;
        let next = source.expect(next, TokenKind::Until)?;
        let (limit, end) = expression(source, next, depth)?;
        let start = value;
        return Ok((
            ForElement::Step {
                start,
                token,
                step,
                limit,
            },
            end,
        ));
    }
    let Some(next) = source.eat(next, TokenKind::While) else {
        return Ok((ForElement::Value { value }, next));
    };
    let (condition, end) = expression(source, next, depth)?;
    Ok((
        ForElement::While {
            value,
            token,
            condition,
        },
        end,
    ))
}

// The elements over references, at least one.
fn reference_elements(
    source: &Source,
    start: usize,
    depth: u32,
) -> Result<(Vec<ReferenceElement>, usize), Stop>
    requires within { start < length source.now }
    requires shallow { depth ≤ LIMIT }
    ensures { GivesAll source.now depth (Of Once g.ReferenceElement ∷ Of Many g.NextReferenceElement ∷ []) start (λ v. reference_elements_derivation v.items) result }
{
    comma_list(source, start, |at| reference_element(source, at, depth))
}

// An element over references.
fn reference_element(
    source: &Source,
    at: usize,
    depth: u32,
) -> Result<(ReferenceElement, usize), Stop>
    requires within { at < length source.now }
    requires shallow { depth ≤ LIMIT }
    ensures { GivesPart source.now depth g.ReferenceElement at reference_element_derivation result }
{
    let (value, next) = expression(source, at, depth)?;
    let token = source.token_no(next);
    let Some(next) = source.eat(next, TokenKind::While) else {
        return Ok((ReferenceElement::Value { value }, next));
    };
    let (condition, end) = expression(source, next, depth)?;
    Ok((
        ReferenceElement::While {
            value,
            token,
            condition,
        },
        end,
    ))
}
