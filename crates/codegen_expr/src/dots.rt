//! What stands before a dot, and what behind it.
ghost use Rattle.std.specs.Prelude.{◌≡◌, ◌≢◌, ◌&&◌, ◌||◌, drop, length, map};
ghost use Rattle.sim_scope.specs.Source.{source_of};
ghost use Rattle.sim_tree.specs.Syntax.{Expression, expressions};
ghost use Rattle.sim_tree.specs.SyntaxOf.{selected, selector_syntax, syntax_of};
ghost use Rattle.sim_meaning.specs.Closing.{has_operands as has_operands_of, is_attribute as is_attribute_of, is_attribute_denoted as is_attribute_denoted_of, is_image_denoted, is_placed as is_placed_of, is_variable as is_variable_of, is_variable_denoted as is_variable_denoted_of, is_variable_entry as is_variable_entry_of, stream_denoted as stream_denoted_of, stream_of as stream_of_expression};
ghost use Rattle.codegen_expr.specs.Emit.{image_placed as image_placed_of, moves_denoted as moves_denoted_of, moves_next, moves_selection, takes_attribute as takes_attribute_of, takes_image as takes_image_of};

use crate::forms::{Form, form_of};
use crate::lookups::denoted;
use crate::names::moves_position;
use crate::operators::Object;
use sim_scope::{Bound, Denotation, Entry, FormalKind, StandardName, entry_of};
use sim_tree::{Expr, Selector};
use sim_values::Standard;

/// The number of the image that what is denoted has, if it is `sysin` or `sysout`.
fn stream_denoted(denotation: Option<Denotation>) -> Option<u32>
    ensures { result ≡ stream_denoted_of denotation }
{
    match denotation {
        Some(Denotation::Standard(StandardName::Sysin)) => Some(0),
        Some(Denotation::Standard(StandardName::Sysout)) => Some(1),
        _ => None,
    }
}

/// The number of the image of the stream that an expression is, if it is `sysin` or `sysout`.
#[tactic(auto, using(crate::proofs::Attributes::dots))]
pub(crate) fn stream_of(bound: &Bound, expr: &Expr) -> Option<u32>
    ensures { result ≡ stream_of_expression (source_of bound.now) (syntax_of expr.now) }
{
    match form_of(expr) {
        Form::Named { name, .. } => stream_denoted(denoted(bound, name.token)),
        Form::Taken { .. } => None,
        Form::Closed { .. } => None,
        Form::New => None,
        Form::Other => None,
    }
}

/// Whether what is denoted is the image of sysin or sysout.
fn is_image(denotation: Option<Denotation>) -> bool
    ensures { result ≡ is_image_denoted denotation }
{
    match denotation {
        Some(Denotation::Standard(StandardName::Procedure(Standard::Image))) => true,
        _ => false,
    }
}

/// Whether what is taken is the image of sysin or sysout.
#[tactic(auto, using(crate::proofs::Attributes::dots))]
pub(crate) fn takes_image(bound: &Bound, selector: &Selector) -> bool
    ensures { result ≡ takes_image_of (source_of bound.now) (selector_syntax selector.now) }
{
    match selector {
        Selector::Dot { name, .. } => is_image(denoted(bound, name.token)),
        Selector::Qua { .. } => false,
    }
}

/// Whether there are subscripts.
#[tactic(auto, using(crate::proofs::Attributes::dots))]
fn has_operands(subscripts: &[Expr]) -> bool
    ensures { result ≡ has_operands_of (expressions (map syntax_of subscripts.now)) }
{
    if subscripts.len() == 0 {
        return false;
    }
    true
}

/// Whether what is declared is a variable, with these subscripts: an array alone is none.
fn is_variable_entry(entry: Option<Entry>, subscripts: &[Expr]) -> bool
    ensures { result ≡ is_variable_entry_of entry (expressions (map syntax_of subscripts.now)) }
{
    match entry {
        Some(Entry::Variable(_)) => true,
        Some(Entry::Array { .. }) => has_operands(subscripts),
        Some(Entry::Formal(formal)) => match formal.kind {
            FormalKind::Simple => true,
            FormalKind::Array => has_operands(subscripts),
            FormalKind::Procedure => false,
        },
        _ => false,
    }
}

/// Whether what is denoted is a variable, with these subscripts, or an image.
#[tactic(auto, unfolding(sim_scope::specs::Source::source_of))]
fn is_variable_denoted(bound: &Bound, denotation: Option<Denotation>, subscripts: &[Expr]) -> bool
    ensures { result ≡ is_variable_denoted_of (source_of bound.now) denotation (expressions (map syntax_of subscripts.now)) }
{
    match denotation {
        Some(Denotation::Declared(declaration)) => {
            is_variable_entry(entry_of(&bound.scopes, declaration), subscripts)
        }
        _ => is_image(denotation),
    }
}

/// Whether what is taken of an operand is the image of a stream.
#[tactic(auto, using(crate::proofs::Attributes::dots))]
fn is_image_taken(bound: &Bound, primary: &Expr, rest: &[Selector]) -> bool
    ensures { length rest.now ≢ 0 → result ≡ is_variable_of (source_of bound.now) (selected (syntax_of primary.now) (map selector_syntax rest.now)) }
{
    if rest.len() != 1 {
        return false;
    }
    match &rest[0] {
        Selector::Dot { name, .. } => match stream_of(bound, primary) {
            Some(_) => is_image(denoted(bound, name.token)),
            None => false,
        },
        Selector::Qua { .. } => false,
    }
}

/// Whether an expression is a variable, an element of an array or an image.
#[tactic(auto, using(crate::proofs::Attributes::dots))]
pub(crate) fn is_variable(bound: &Bound, expr: &Expr) -> bool
    ensures { result ≡ is_variable_of (source_of bound.now) (syntax_of expr.now) }
{
    match form_of(expr) {
        Form::Named { name, arguments } => {
            is_variable_denoted(bound, denoted(bound, name.token), arguments)
        }
        Form::Taken { primary, rest } => is_image_taken(bound, primary, rest),
        Form::Closed { .. } => false,
        Form::New => false,
        Form::Other => false,
    }
}

/// Whether what is denoted is a variable of an object, or an element of an array that it has.
#[tactic(auto, unfolding(sim_scope::specs::Source::source_of))]
fn is_attribute_denoted(bound: &Bound, denotation: Option<Denotation>, subscripts: &[Expr]) -> bool
    ensures { result ≡ is_attribute_denoted_of (source_of bound.now) denotation (expressions (map syntax_of subscripts.now)) }
{
    match denotation {
        Some(Denotation::Declared(declaration)) => {
            is_variable_entry(entry_of(&bound.scopes, declaration), subscripts)
        }
        _ => false,
    }
}

/// Whether what is taken is a variable of an object, or an element of an array that it has.
#[tactic(auto, using(crate::proofs::Attributes::dots))]
fn takes_attribute(bound: &Bound, selector: &Selector) -> bool
    ensures { result ≡ takes_attribute_of (source_of bound.now) (selector_syntax selector.now) }
{
    match selector {
        Selector::Dot {
            name,
            arguments,
            ..
        } => is_attribute_denoted(bound, denoted(bound, name.token), arguments),
        Selector::Qua { .. } => false,
    }
}

/// Whether what moves the position of a text stands behind a variable of an object.
pub(crate) fn attribute_placed(bound: &Bound, moves: bool, selector: &Selector) -> bool
    ensures { result ≡ (moves && takes_attribute_of (source_of bound.now) (selector_syntax selector.now)) }
{
    if moves {
        return takes_attribute(bound, selector);
    }
    false
}

/// Whether an expression is a variable of an object, or an element of an array that it has.
#[tactic(auto, using(crate::proofs::Attributes::dots))]
fn is_attribute(bound: &Bound, expr: &Expr) -> bool
    ensures { result ≡ is_attribute_of (source_of bound.now) (syntax_of expr.now) }
{
    match form_of(expr) {
        Form::Named { .. } => false,
        Form::Taken { rest, .. } => is_attribute_taken(bound, rest),
        Form::Closed { .. } => false,
        Form::New => false,
        Form::Other => false,
    }
}

/// Whether the last of what is taken is a variable of an object, or an element of an array that it has.
#[tactic(auto, using(crate::proofs::Attributes::dots))]
fn is_attribute_taken(bound: &Bound, rest: &[Selector]) -> bool
    ensures { (x : Expression) → length rest.now ≢ 0 → result ≡ is_attribute_of (source_of bound.now) (selected x (map selector_syntax rest.now)) }
{
    if rest.len() == 0 {
        return false;
    }
    takes_attribute(bound, &rest[rest.len() - 1])
}

/// Whether an expression is a variable that is declared, or an element of an array, with a dot or without. An image is none.
#[tactic(auto, using(crate::proofs::ByName::thunks))]
pub(crate) fn is_declared_variable(bound: &Bound, expr: &Expr) -> bool
    ensures { result ≡ is_placed_of (source_of bound.now) (syntax_of expr.now) }
{
    match form_of(expr) {
        Form::Named { name, arguments } => {
            is_attribute_denoted(bound, denoted(bound, name.token), arguments)
        }
        Form::Taken { rest, .. } => is_attribute_taken(bound, rest),
        Form::Closed { .. } => false,
        Form::New => false,
        Form::Other => false,
    }
}

/// Whether what moves the position of a text does so to a variable.
pub(crate) fn is_placed(bound: &Bound, moves: bool, expr: &Expr) -> bool
    ensures { result ≡ (moves && (is_variable_of (source_of bound.now) (syntax_of expr.now) || is_attribute_of (source_of bound.now) (syntax_of expr.now))) }
{
    if moves {
        if is_variable(bound, expr) {
            return true;
        }
        return is_attribute(bound, expr);
    }
    false
}

/// The image of a stream that is taken of it, in front of what moves its position.
pub(crate) fn image_placed(moves: bool, object: Object, takes_image: bool) -> Option<u32>
    ensures { result ≡ image_placed_of moves object takes_image }
{
    match (moves, object, takes_image) {
        (true, Object::Stream(image), true) => Some(image),
        _ => None,
    }
}

/// Whether what is denoted moves the position of its text.
fn moves_denoted(denotation: Option<Denotation>) -> bool
    ensures { result ≡ moves_denoted_of denotation }
{
    match denotation {
        Some(Denotation::Standard(name)) => moves_position(name),
        _ => false,
    }
}

/// Whether what is taken moves the position of its text.
#[tactic(auto, using(crate::proofs::Attributes::dots))]
fn moves(bound: &Bound, selector: &Selector) -> bool
    ensures { result ≡ moves_selection (source_of bound.now) (selector_syntax selector.now) }
{
    match selector {
        Selector::Dot { name, .. } => moves_denoted(denoted(bound, name.token)),
        Selector::Qua { .. } => false,
    }
}

/// Whether what is taken at this place moves the position of its text.
#[tactic(auto, using(crate::proofs::Attributes::dots))]
pub(crate) fn moves_at(bound: &Bound, rest: &[Selector], index: usize) -> bool
    ensures { result ≡ moves_next (source_of bound.now) (drop index (map selector_syntax rest.now)) }
{
    if index < rest.len() {
        return moves(bound, &rest[index]);
    }
    false
}
