//! Left sides of assignments.
ghost use Rattle.std.specs.Prelude.{◌≡◌};
ghost use Rattle.sim_meaning.specs.Closing.{own_block, own_block_denoted, result_meant as result_meant_of};
ghost use Rattle.sim_scope.specs.Calls.{is_inside as is_inside_of};
ghost use Rattle.sim_scope.specs.Source.{source_of};
ghost use Rattle.sim_tree.specs.SyntaxOf.{syntax_of};
ghost use Rattle.codegen_expr.specs.Built.{slot_in};
ghost use Rattle.codegen_expr.specs.Known.{Known};
ghost use Rattle.sim_meaning.specs.Pending.{Result};
ghost use Rattle.codegen.specs.EmitLeft.{FindsByName, FindsDeclared, FindsElement, FindsFormal, FindsLeft, FindsNamed, FindsOwn, FindsOwnNamed, FindsResult, FindsSide, FindsTaken, FindsText, FindsVariable, FindsWhole};

use crate::own_matches::match_text;
use codegen_expr::{
    Cells, Form, Spot, block_of, by_name, connection_at, denoted, form_of, formal_qualification,
    has_result, is_around, is_text, slot_of,
};
use sim_base::{DeclNo, TokenNo};
use sim_scope::{Bound, Denotation, Entry, FormalKind, Mode, Scopes, entry_of};
use sim_tree::{Assignment, Expr, Identifier, Selector};

/// What a left side is.
#[derive(Clone, Copy)]
pub(crate) enum Left<'a> {
    /// A cell, by its text and its place in the own part of the frames of that text.
    Cell {
        home: u32,
        place: u32,
    },
    /// An element of an array. The token is that of the array's identifier.
    Element {
        token: TokenNo,
        array: DeclNo,
        subscripts: &'a [Expr],
    },
    /// The text that is its value.
    Text,
    /// The text in the cell of a result.
    Result {
        home: u32,
        place: u32,
    },
    /// An attribute of an object, or an element of an array by name: where it lies is found anew.
    Attribute,
    /// A reference, which is held against its class.
    Reference,
    /// The variable that is passed to a formal parameter by name.
    Named(DeclNo),
    /// The text of that variable.
    NamedText(DeclNo),
    /// That variable, where it is a reference; what is assigned is held against the class of the formal parameter too.
    NamedReference {
        declaration: DeclNo,
        class: u32,
    },
    /// It is no place, which no left side of an allowed program is.
    NoPlace,
}

/// A variable or a parameter that is a value.
#[tactic(auto, using(crate::proofs::Cells::lefts))]
fn find_variable<'a>(
    bound: &Bound,
    cells: &Cells,
    spot: Spot,
    declaration: DeclNo,
    subscripts: &'a [Expr],
) -> Left<'a>
    requires cells { Known bound.now cells.now }
    ensures { FindsVariable bound.now spot declaration subscripts.now result }
{
    if subscripts.len() != 0 {
        return Left::NoPlace;
    }
    let Some(place) = slot_of(bound, cells, declaration) else {
        return Left::NoPlace;
    };
    let home = block_of(bound, declaration);
    if is_around(&bound.scopes, spot.text, home) {
        return Left::Cell { home, place };
    }
    Left::NoPlace
}

/// An element of an array. The token is that of its identifier.
#[tactic(auto, using(crate::proofs::Cells::lefts))]
fn find_element<'a>(
    bound: &Bound,
    spot: Spot,
    token: TokenNo,
    declaration: DeclNo,
    subscripts: &'a [Expr],
) -> Left<'a>
    ensures { FindsElement bound.now spot token declaration subscripts.now result }
{
    if subscripts.len() == 0 {
        return Left::NoPlace;
    }
    Left::Element {
        token,
        array: declaration,
        subscripts,
    }
}

/// The place of the cell of the result of a procedure in the own part of its frames, where it is the first.
#[tactic(auto, using(crate::proofs::Cells::lefts))]
pub(crate) fn result_slot(bound: &Bound, cells: &Cells, text: u32) -> Option<u32>
    requires cells { Known bound.now cells.now }
    ensures { result ≡ slot_in (source_of bound.now) text Result }
{
    if has_result(bound, cells, text) {
        return Some(0);
    }
    None
}

/// The result of a procedure.
#[tactic(auto, using(crate::proofs::Cells::lefts))]
fn find_result<'a>(
    bound: &Bound,
    cells: &Cells,
    spot: Spot,
    text: u32,
    subscripts: &'a [Expr],
) -> Left<'a>
    requires cells { Known bound.now cells.now }
    ensures { FindsResult bound.now spot text subscripts.now result }
{
    if subscripts.len() != 0 {
        return Left::NoPlace;
    }
    let Some(place) = result_slot(bound, cells, text) else {
        return Left::NoPlace;
    };
    if is_around(&bound.scopes, spot.text, text) {
        return Left::Cell { home: text, place };
    }
    Left::NoPlace
}

/// A formal parameter. The token is that of its identifier.
#[tactic(auto, using(crate::proofs::Cells::lefts))]
fn find_formal<'a>(
    bound: &Bound,
    cells: &Cells,
    spot: Spot,
    token: TokenNo,
    declaration: DeclNo,
    mode: Mode,
    kind: FormalKind,
    subscripts: &'a [Expr],
) -> Left<'a>
    requires cells { Known bound.now cells.now }
    ensures { FindsFormal bound.now spot token declaration mode kind subscripts.now result }
{
    match mode {
        Mode::ByName => match kind {
            FormalKind::Array => {
                if subscripts.len() == 0 {
                    return Left::NoPlace;
                }
                Left::Attribute
            }
            FormalKind::Simple => Left::NoPlace,
            FormalKind::Procedure => Left::NoPlace,
        },
        Mode::ByValue => match kind {
            FormalKind::Simple => find_variable(bound, cells, spot, declaration, subscripts),
            FormalKind::Array => find_element(bound, spot, token, declaration, subscripts),
            FormalKind::Procedure => Left::NoPlace,
        },
        Mode::ByReference => match kind {
            FormalKind::Simple => find_variable(bound, cells, spot, declaration, subscripts),
            FormalKind::Array => find_element(bound, spot, token, declaration, subscripts),
            FormalKind::Procedure => Left::NoPlace,
        },
    }
}

/// What is declared. The token is that of its identifier.
#[tactic(auto, using(crate::proofs::Cells::lefts))]
fn find_declared<'a>(
    bound: &Bound,
    cells: &Cells,
    spot: Spot,
    token: TokenNo,
    declaration: DeclNo,
    subscripts: &'a [Expr],
) -> Left<'a>
    requires cells { Known bound.now cells.now }
    ensures { FindsDeclared bound.now spot token declaration subscripts.now result }
{
    match entry_of(&bound.scopes, declaration) {
        Some(Entry::Variable(_)) => find_variable(bound, cells, spot, declaration, subscripts),
        Some(Entry::Array { .. }) => find_element(bound, spot, token, declaration, subscripts),
        Some(Entry::Formal(formal)) => {
            find_formal(
                bound,
                cells,
                spot,
                token,
                declaration,
                formal.mode,
                formal.kind,
                subscripts,
            )
        }
        Some(Entry::Procedure { block, .. }) => find_result(bound, cells, spot, block, subscripts),
        Some(Entry::Constant(_)) => Left::NoPlace,
        Some(Entry::Class { .. }) => Left::NoPlace,
        Some(Entry::Virtual { .. }) => Left::NoPlace,
        Some(Entry::Attribute { .. }) => Left::NoPlace,
        Some(Entry::Unspecified { .. }) => Left::NoPlace,
        None => Left::NoPlace,
    }
}

/// What an identifier with subscripts, or none, is as a variable.
#[tactic(auto, using(crate::proofs::Cells::lefts))]
fn find_left<'a>(
    bound: &Bound,
    cells: &Cells,
    spot: Spot,
    token: TokenNo,
    subscripts: &'a [Expr],
) -> Left<'a>
    requires cells { Known bound.now cells.now }
    ensures { FindsLeft bound.now spot token subscripts.now result }
{
    match denoted(bound, token) {
        Some(Denotation::Declared(declaration)) => {
            find_declared(bound, cells, spot, token, declaration, subscripts)
        }
        Some(Denotation::Standard(_)) => Left::NoPlace,
        None => Left::NoPlace,
    }
}

/// What an identifier with subscripts, or none, is as a variable: what is seen through a connection is an attribute of an object, and a
/// virtual inside the text of its match is the result of that.
#[tactic(auto, using(crate::proofs::Found::founds))]
pub(crate) fn find_named<'a>(
    bound: &Bound,
    cells: &Cells,
    spot: Spot,
    name: &Identifier,
    subscripts: &'a [Expr],
) -> Left<'a>
    requires cells { Known bound.now cells.now }
    ensures { FindsNamed bound.now spot name.now subscripts.now result }
{
    match connection_at(bound, cells, name.token) {
        Some(_) => Left::Attribute,
        None => match match_text(bound, name, subscripts.len()) {
            Some(text) => find_result(bound, cells, spot, text, subscripts),
            None => find_left(bound, cells, spot, name.token, subscripts),
        },
    }
}

/// What stands behind the last dot, as a variable: what is declared there is an attribute of an object.
#[tactic(auto, using(crate::proofs::Found::founds))]
fn find_taken<'a>(bound: &Bound, spot: Spot, last: &Selector) -> Left<'a>
    ensures { FindsTaken bound.now spot last.now result }
{
    match last {
        Selector::Dot { name, .. } => match denoted(bound, name.token) {
            Some(Denotation::Declared(_)) => Left::Attribute,
            Some(Denotation::Standard(_)) => Left::NoPlace,
            None => Left::NoPlace,
        },
        Selector::Qua { .. } => Left::NoPlace,
    }
}

/// What an expression is as a variable.
#[tactic(auto, using(crate::proofs::Found::founds))]
fn find_whole<'a>(bound: &Bound, cells: &Cells, spot: Spot, left: &'a Expr) -> Left<'a>
    requires cells { Known bound.now cells.now }
    ensures { FindsWhole bound.now spot left.now result }
{
    match form_of(left) {
        Form::Named { name, arguments } => find_named(bound, cells, spot, name, arguments),
        Form::Taken { rest, .. } => find_taken(bound, spot, &rest[rest.len() - 1]),
        Form::Closed { .. } => Left::NoPlace,
        Form::New => Left::NoPlace,
        Form::Other => Left::NoPlace,
    }
}

/// Whether a token stands in the text of a block.
#[tactic(auto, unfolding(sim_scope::specs::Calls::is_inside))]
pub(crate) fn is_inside(scopes: &Scopes, token: TokenNo, block: u32) -> bool
    ensures { result ≡ is_inside_of scopes.now token.0 block }
{
    match scopes.blocks().get(block as usize) {
        Some(block) => block.first().0 <= token.0 && token.0 < block.end().0,
        None => false,
    }
}

/// The block of the procedure that is declared, if the token stands in its text.
#[tactic(auto, unfolding(sim_scope::specs::Source::source_of))]
fn own_entry(bound: &Bound, token: TokenNo, entry: Option<Entry>) -> Option<u32>
    ensures { result ≡ own_block (source_of bound.now) token.0 entry }
{
    match entry {
        Some(Entry::Procedure { block, .. }) => {
            if is_inside(&bound.scopes, token, block) {
                return Some(block);
            }
            None
        }
        _ => None,
    }
}

/// The block of the procedure that is denoted, if the token stands in its text.
#[tactic(auto, unfolding(sim_scope::specs::Source::source_of))]
fn own_denoted(bound: &Bound, token: TokenNo, denotation: Option<Denotation>) -> Option<u32>
    ensures { result ≡ own_block_denoted (source_of bound.now) token.0 denotation }
{
    match denotation {
        Some(Denotation::Declared(declaration)) => {
            own_entry(bound, token, entry_of(&bound.scopes, declaration))
        }
        _ => None,
    }
}

/// The block of the procedure whose result an identifier is as a left side, where it is not seen through a connection.
#[tactic(auto, using(crate::proofs::Found::founds))]
pub(crate) fn own_named(
    bound: &Bound,
    cells: &Cells,
    name: &Identifier,
    subscripts: usize,
) -> Option<u32>
    requires cells { Known bound.now cells.now }
    ensures { FindsOwnNamed bound.now name.now subscripts result }
{
    if subscripts != 0 {
        return None;
    }
    match connection_at(bound, cells, name.token) {
        Some(_) => None,
        None => match match_text(bound, name, subscripts) {
            Some(text) => Some(text),
            None => own_denoted(bound, name.token, denoted(bound, name.token)),
        },
    }
}

/// The block of the procedure whose result an expression is as a left side.
#[tactic(auto, using(crate::proofs::Found::founds))]
pub(crate) fn result_meant(bound: &Bound, cells: &Cells, left: &Expr) -> Option<u32>
    requires cells { Known bound.now cells.now }
    ensures { result ≡ result_meant_of (source_of bound.now) (syntax_of left.now) }
{
    match form_of(left) {
        Form::Named { name, arguments } => own_named(bound, cells, name, arguments.len()),
        Form::Taken { .. } => None,
        Form::Closed { .. } => None,
        Form::New => None,
        Form::Other => None,
    }
}

/// The text in the cell of the result of a procedure.
#[tactic(auto, using(crate::proofs::Found::founds))]
fn find_own<'a>(bound: &Bound, cells: &Cells, spot: Spot, text: u32) -> Left<'a>
    requires cells { Known bound.now cells.now }
    ensures { FindsOwn bound.now spot text result }
{
    let Some(place) = result_slot(bound, cells, text) else {
        return Left::NoPlace;
    };
    if is_around(&bound.scopes, spot.text, text) {
        return Left::Result { home: text, place };
    }
    Left::NoPlace
}

/// The text that is assigned to.
#[tactic(auto, using(crate::proofs::Found::founds))]
fn find_text<'a>(bound: &Bound, cells: &Cells, spot: Spot, left: &'a Expr) -> Left<'a>
    requires cells { Known bound.now cells.now }
    ensures { FindsText bound.now spot left.now result }
{
    match result_meant(bound, cells, left) {
        Some(text) => find_own(bound, cells, spot, text),
        None => Left::Text,
    }
}

/// What a formal parameter by name is as a left side, by its sign.
#[tactic(auto, using(crate::proofs::Found::founds))]
fn find_by_name<'a>(
    bound: &Bound,
    cells: &Cells,
    sign: Assignment,
    left: &'a Expr,
    declaration: DeclNo,
) -> Left<'a>
    requires cells { Known bound.now cells.now }
    ensures { FindsByName bound.now sign left.now declaration result }
{
    if is_text(bound, left) {
        return match sign {
            Assignment::Value => Left::NamedText(declaration),
            Assignment::Reference => Left::Named(declaration),
        };
    }
    match sign {
        Assignment::Value => Left::Named(declaration),
        Assignment::Reference => match formal_qualification(bound, cells, declaration) {
            Some(class) => Left::NamedReference { declaration, class },
            None => Left::NoPlace,
        },
    }
}

/// What a left side is, by its sign.
#[tactic(auto, using(crate::proofs::Found::founds))]
pub(crate) fn find_side<'a>(
    bound: &Bound,
    cells: &Cells,
    spot: Spot,
    sign: Assignment,
    left: &'a Expr,
) -> Left<'a>
    requires cells { Known bound.now cells.now }
    ensures { FindsSide bound.now spot sign left.now result }
{
    if let Some(declaration) = by_name(bound, left) {
        return find_by_name(bound, cells, sign, left, declaration);
    }
    if is_text(bound, left) {
        match sign {
            Assignment::Value => return find_text(bound, cells, spot, left),
            Assignment::Reference => return find_whole(bound, cells, spot, left),
        }
    }
    match sign {
        Assignment::Value => find_whole(bound, cells, spot, left),
        Assignment::Reference => Left::Reference,
    }
}
