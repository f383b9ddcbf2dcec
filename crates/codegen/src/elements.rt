//! The elements of a `for` list, of either sign.
ghost use Rattle.std.specs.Prelude.{◌≡◌, ◌<◌, Some, length, slice_get};
ghost use Rattle.sim_tree.specs.SyntaxOfProgram.{element_syntax, reference_element_syntax};
ghost use Rattle.codegen.specs.ForElements.{in_list, view_syntax};

use sim_base::TokenNo;
use sim_tree::{Expr, ForElement, ReferenceElement};

/// The elements of a `for` list.
#[derive(Clone, Copy)]
pub enum Elements<'a> {
    /// Over values.
    Values(&'a [ForElement]),
    /// Over references.
    References(&'a [ReferenceElement]),
}

/// An element of a `for` list.
#[derive(Clone, Copy)]
pub enum Element<'a> {
    /// One value.
    Once {
        value: &'a Expr,
    },
    /// From a value on, by steps, up to a limit. The token is that of `step`.
    Step {
        start: &'a Expr,
        token: TokenNo,
        step: &'a Expr,
        limit: &'a Expr,
    },
    /// A value, as long as a condition holds.
    While {
        token: TokenNo,
        value: &'a Expr,
        condition: &'a Expr,
    },
}

/// An element over values.
#[tactic(auto, using(crate::proofs::Views::views))]
fn value_element(element: &ForElement) -> Element
    ensures { view_syntax result ≡ element_syntax element.now }
{
    match element {
        ForElement::Value { value } => Element::Once { value },
        ForElement::Step {
            start,
            token,
            step,
            limit,
        } => Element::Step {
            start,
            token: *token,
            step,
            limit,
        },
        ForElement::While {
            value,
            token,
            condition,
        } => Element::While {
            token: *token,
            value,
            condition,
        },
    }
}

/// An element over references.
#[tactic(auto, using(crate::proofs::Views::views))]
fn reference_element(element: &ReferenceElement) -> Element
    ensures { view_syntax result ≡ reference_element_syntax element.now }
{
    match element {
        ReferenceElement::Value { value } => Element::Once { value },
        ReferenceElement::While {
            value,
            token,
            condition,
        } => Element::While {
            token: *token,
            value,
            condition,
        },
    }
}

/// How many elements there are.
#[tactic(auto, using(crate::proofs::Views::views))]
pub(crate) fn count(elements: Elements) -> usize
    ensures { result ≡ length (in_list elements.entry) }
{
    match elements {
        Elements::Values(list) => list.len(),
        Elements::References(list) => list.len(),
    }
}

/// One of them.
#[tactic(auto, using(crate::proofs::Views::views))]
pub(crate) fn element_at<'a>(elements: Elements<'a>, index: usize) -> Element<'a>
    requires { index < length (in_list elements) }
    ensures { slice_get (in_list elements.entry) index ≡ Some (view_syntax result) }
{
    match elements {
        Elements::Values(list) => value_element(&list[index]),
        Elements::References(list) => reference_element(&list[index]),
    }
}
