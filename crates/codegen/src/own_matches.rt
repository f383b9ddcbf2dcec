//! Left sides that are the result of the match of a virtual, inside the text of that match.
ghost use Rattle.std.specs.Prelude.{◌≡◌};
ghost use Rattle.sim_meaning.specs.Closing.{is_virtual_denoted as is_virtual_denoted_of, left_type as left_type_of};
ghost use Rattle.sim_meaning.specs.Virtuals.{procedure_text as procedure_text_of, text_of_procedure as text_of_procedure_by};
ghost use Rattle.sim_scope.specs.Actuals.{result_in as result_in_of};
ghost use Rattle.sim_scope.specs.Calls.{inside_match as inside_match_of, is_connection_at as is_connection_at_of, match_at as match_at_of, match_found as match_found_of, match_seen as match_seen_of, own_of as own_of_by, through_connection as through_connection_of};
ghost use Rattle.sim_scope.specs.Scopes.{block_in as block_in_of, entry_is, is_virtual as is_virtual_of};
ghost use Rattle.sim_scope.specs.Source.{source_of};
ghost use Rattle.sim_tree.specs.SyntaxOf.{syntax_of};
ghost use Rattle.codegen.specs.EmitLeft.{FindsMatch, FindsMatchText, FindsType};

use crate::left::is_inside;
use codegen_expr::{Form, denoted, form_of, type_at, typed_token};
use sim_base::{DeclNo, TokenNo};
use sim_scope::{
    Bound, Denotation, Entry, Scopes, SimType, block_at, declaration_from, entry_of, found_in,
    is_connection_block,
};
use sim_tree::{Expr, Identifier};

/// The match that a declaration is: at the level of a virtual it is the one that the virtual knows.
fn match_at(entry: Option<Entry>, declaration: Option<DeclNo>) -> Option<DeclNo>
    ensures { result ≡ match_at_of entry declaration }
{
    match entry {
        Some(Entry::Virtual { own, .. }) => own,
        _ => declaration,
    }
}

/// The match that a search for a virtual comes to.
fn match_found(scopes: &Scopes, declaration: Option<DeclNo>) -> Option<DeclNo>
    ensures { result ≡ match_found_of scopes.now declaration }
{
    match declaration {
        Some(found) => match_at(entry_of(scopes, found), declaration),
        None => None,
    }
}

/// The match that the search for an identifier of a virtual comes to.
#[tactic(auto, unfolding(sim_scope::specs::Calls::match_seen))]
fn match_seen(scopes: &Scopes, name: &Identifier) -> Option<DeclNo>
    ensures { result ≡ match_seen_of scopes.now name.now }
{
    let place = block_at(scopes, name.token);
    let declaration = declaration_from(scopes, Some(name.token.0), place, name.name.as_bytes());
    match_found(scopes, declaration)
}

/// The block of a procedure or a class.
fn block_in(entry: Option<Entry>) -> Option<u32>
    ensures { result ≡ block_in_of entry }
{
    match entry {
        Some(Entry::Procedure { block, .. }) => Some(block),
        Some(Entry::Class { block }) => Some(block),
        _ => None,
    }
}

/// Whether a token stands in the text of a match.
fn inside_match(scopes: &Scopes, token: TokenNo, declaration: Option<DeclNo>) -> bool
    ensures { result ≡ inside_match_of scopes.now token.0 declaration }
{
    match declaration {
        Some(declaration) => match block_in(entry_of(scopes, declaration)) {
            Some(block) => is_inside(scopes, token, block),
            None => false,
        },
        None => false,
    }
}

fn is_connection_at(scopes: &Scopes, block: Option<u32>) -> bool
    ensures { result ≡ is_connection_at_of scopes.now block }
{
    match block {
        Some(block) => is_connection_block(scopes, block),
        None => false,
    }
}

/// Whether the search comes to an identifier through a connection.
#[tactic(auto, unfolding(sim_scope::specs::Calls::through_connection))]
fn through_connection(scopes: &Scopes, name: &Identifier) -> bool
    ensures { result ≡ through_connection_of scopes.now name.now }
{
    is_connection_at(scopes, found_in(scopes, name.token, name.name.as_bytes()))
}

/// A match, where an identifier of its virtual stands for its result as a left side.
#[tactic(auto, unfolding(sim_scope::specs::Calls::own_of))]
fn own_of(scopes: &Scopes, name: &Identifier, found: Option<DeclNo>) -> Option<DeclNo>
    ensures { result ≡ own_of_by scopes.now name.now found }
{
    if inside_match(scopes, name.token, found) && !through_connection(scopes, name) {
        found
    } else {
        None
    }
}

/// Whether a virtual is declared.
pub(crate) fn is_virtual(entry: Option<Entry>) -> bool
    ensures { result ≡ entry_is is_virtual_of entry }
{
    match entry {
        Some(Entry::Virtual { .. }) => true,
        _ => false,
    }
}

/// Whether a virtual is denoted.
#[tactic(auto, unfolding(sim_scope::specs::Source::source_of))]
fn is_virtual_denoted(bound: &Bound, denotation: Option<Denotation>) -> bool
    ensures { result ≡ is_virtual_denoted_of (source_of bound.now) denotation }
{
    match denotation {
        Some(Denotation::Declared(declaration)) => is_virtual(entry_of(&bound.scopes, declaration)),
        _ => false,
    }
}

/// The match whose result an identifier with so many subscripts is as a left side.
#[tactic(auto, using(crate::proofs::OwnMatches::own_matches))]
fn own_match(bound: &Bound, name: &Identifier, subscripts: usize) -> Option<DeclNo>
    ensures { FindsMatch bound.now name.now subscripts result }
{
    if subscripts != 0 {
        return None;
    }
    if is_virtual_denoted(bound, denoted(bound, name.token)) {
        return own_of(&bound.scopes, name, match_seen(&bound.scopes, name));
    }
    None
}

fn procedure_text(entry: Option<Entry>) -> Option<u32>
    ensures { result ≡ procedure_text_of entry }
{
    match entry {
        Some(Entry::Procedure { block, .. }) => Some(block),
        _ => None,
    }
}

/// The text of a procedure.
#[tactic(auto, unfolding(sim_scope::specs::Source::source_of))]
pub(crate) fn text_of_procedure(bound: &Bound, declaration: Option<DeclNo>) -> Option<u32>
    ensures { result ≡ text_of_procedure_by (source_of bound.now) declaration }
{
    match declaration {
        Some(declaration) => procedure_text(entry_of(&bound.scopes, declaration)),
        None => None,
    }
}

/// The text of the match whose result an identifier with so many subscripts is.
#[tactic(auto, using(crate::proofs::OwnMatches::own_matches))]
pub(crate) fn match_text(bound: &Bound, name: &Identifier, subscripts: usize) -> Option<u32>
    ensures { FindsMatchText bound.now name.now subscripts result }
{
    text_of_procedure(bound, own_match(bound, name, subscripts))
}

/// What a procedure gives.
fn result_in(entry: Option<Entry>) -> Option<SimType>
    ensures { result ≡ result_in_of entry }
{
    match entry {
        Some(Entry::Procedure { result, .. }) => result,
        Some(Entry::Virtual { result, .. }) => result,
        Some(Entry::Formal(formal)) => formal.ty,
        Some(Entry::Attribute { result, .. }) => result,
        _ => None,
    }
}

/// The type of an identifier with so many subscripts as a left side: the result of a match has its own.
#[tactic(auto, using(crate::proofs::OwnMatches::own_matches))]
pub(crate) fn named_type(bound: &Bound, name: &Identifier, subscripts: usize) -> Option<SimType>
    ensures { FindsType bound.now name.now subscripts result }
{
    match own_match(bound, name, subscripts) {
        Some(found) => result_in(entry_of(&bound.scopes, found)),
        None => type_at(bound, name.token),
    }
}

/// The type of a left side.
#[tactic(auto, using(crate::proofs::OwnMatches::own_matches))]
pub(crate) fn left_type(bound: &Bound, left: &Expr) -> Option<SimType>
    ensures { result ≡ left_type_of (source_of bound.now) (syntax_of left.now) }
{
    match form_of(left) {
        Form::Named { name, arguments } => named_type(bound, name, arguments.len()),
        Form::Taken { .. } => type_at(bound, typed_token(left)),
        Form::Closed { .. } => type_at(bound, typed_token(left)),
        Form::New => type_at(bound, typed_token(left)),
        Form::Other => type_at(bound, typed_token(left)),
    }
}
