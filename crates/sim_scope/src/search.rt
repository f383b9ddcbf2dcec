//! What an identifier denotes.
ghost use Rattle.std.specs.Prelude.{◌≡◌, Some, length};
ghost use Rattle.sim_scope.specs.Access.{some_around as around_spec};
ghost use Rattle.sim_scope.specs.Scopes.{beyond, binding, brought_by, declaration_from, declared_or_standard, entry_is, entry_of, found_in, if_found, is_detach, is_passed_over, is_procedure_entry, is_virtual, level_shows, lookup, outward, represented, searched, seen, seen_from, shown, shows_detach, standard_at, virtual_among, virtual_of};

use crate::access::{accessible, block_at, encloser, first_around, has_detach_at, some_around};
use crate::along::first_along;
use crate::levels::first_level;
use crate::scopes::{Denotation, Scopes};
use crate::standard::{StandardName, standard_name};
use crate::types::Entry;
use sim_base::{DeclNo, TokenNo};

/// The declaration of an identifier in a block, if the block has one.
#[tactic(auto, unfolding(crate::specs::Scopes::lookup))]
pub fn lookup(scopes: &Scopes, block: u32, name: &[u8]) -> Option<DeclNo>
    ensures { result ≡ lookup scopes.now block name.now }
{
    scopes.blocks().get(block as usize)?.declaration(name)
}

/// What the standard prefix of a block declares.
#[tactic(auto, unfolding(crate::specs::Scopes::brought_by))]
pub fn brought_by(scopes: &Scopes, block: u32, name: &[u8]) -> Option<DeclNo>
    ensures { result ≡ brought_by scopes.now block name.now }
{
    scopes.blocks().get(block as usize)?.brought(name)
}

/// Whether a declaration is seen from a token, or from everywhere.
fn is_seen_from(scopes: &Scopes, from: Option<u32>, declaration: DeclNo) -> bool
    ensures { result ≡ seen_from scopes.now from declaration }
{
    match from {
        Some(token) => accessible(scopes, TokenNo(token), declaration),
        None => true,
    }
}

/// A declaration, where it is seen.
fn seen(scopes: &Scopes, from: Option<u32>, declaration: Option<DeclNo>) -> Option<DeclNo>
    ensures { result ≡ seen scopes.now from declaration }
{
    let declaration = declaration?;
    if is_seen_from(scopes, from, declaration) {
        Some(declaration)
    } else {
        None
    }
}

/// What one level shows for a name: what it declares, where that is accessible, else what its standard prefix declares.
#[tactic(auto, unfolding(crate::specs::Scopes::level_shows))]
pub fn level_shows(scopes: &Scopes, from: Option<u32>, block: u32, name: &[u8]) -> Option<DeclNo>
    ensures { result ≡ level_shows scopes.now from block name.now }
{
    seen(scopes, from, lookup(scopes, block, name)).or_else(|| brought_by(scopes, block, name))
}

/// What a block shows for a name: what the innermost of its levels shows.
pub fn shown(scopes: &Scopes, from: Option<u32>, block: u32, name: &[u8]) -> Option<DeclNo>
    ensures { result ≡ shown scopes.now from block name.now }
{
    first_level(scopes, block, |b| level_shows(scopes, from, b, name))
}

/// Whether a name is `detach`. The name is in lower case.
#[tactic(auto, unfolding(crate::specs::Scopes::is_detach))]
pub fn is_detach(name: &[u8]) -> bool
    ensures { result ≡ is_detach name.now }
{
    name == "detach".as_bytes()
}

/// The block in which the search for a name goes on.
#[tactic(auto, unfolding(crate::specs::Scopes::outward, crate::specs::Scopes::ends_search))]
pub fn outward(scopes: &Scopes, block: u32, name: &[u8]) -> Option<u32>
    ensures { result ≡ outward scopes.now block name.now }
{
    if is_detach(name) && has_detach_at(scopes, block) {
        None
    } else {
        encloser(scopes, block)
    }
}

/// The declaration of the innermost block, from one outward, that shows a name.
fn searched(scopes: &Scopes, from: Option<u32>, block: u32, name: &[u8]) -> Option<DeclNo>
    ensures { result ≡ searched scopes.now from (length scopes.now.blocks) block name.now }
{
    first_along(
        scopes.block_count(),
        block,
        |b| outward(scopes, b, name),
        |b| shown(scopes, from, b, name),
    )
}

/// The declaration that a name has from a block outward.
#[tactic(auto, unfolding(crate::specs::Scopes::declaration_from))]
pub fn declaration_from(
    scopes: &Scopes,
    from: Option<u32>,
    block: Option<u32>,
    name: &[u8],
) -> Option<DeclNo>
    ensures { result ≡ declaration_from scopes.now from block name.now }
{
    searched(scopes, from, block?, name)
}

/// A block, where a name is found in it.
#[tactic(auto, unfolding(crate::specs::Scopes::if_found, crate::specs::Scopes::ends_search))]
fn if_found(scopes: &Scopes, token: TokenNo, name: &[u8], block: u32) -> Option<u32>
    ensures { result ≡ if_found scopes.now token.0 name.now block }
{
    if shown(scopes, Some(token.0), block, name).is_some()
        || is_detach(name) && has_detach_at(scopes, block)
    {
        Some(block)
    } else {
        None
    }
}

/// The block in which a name is found: the innermost one around a token that shows it, or that shows `detach`, if it is that name.
#[tactic(auto, unfolding(crate::specs::Scopes::found_in))]
pub fn found_in(scopes: &Scopes, token: TokenNo, name: &[u8]) -> Option<u32>
    ensures { result ≡ found_in scopes.now token.0 name.now }
{
    match block_at(scopes, token) {
        Some(block) => first_around(scopes, block, |b| if_found(scopes, token, name, b)),
        None => None,
    }
}

/// What a declaration declares.
#[tactic(auto, unfolding(crate::specs::Scopes::entry_of))]
pub fn entry_of(scopes: &Scopes, declaration: DeclNo) -> Option<Entry>
    ensures { result ≡ entry_of scopes.now declaration }
{
    match scopes.declarations().get(declaration.0 as usize) {
        Some(row) => Some(row.entry),
        None => None,
    }
}

/// Whether a declaration is that of a virtual.
fn is_virtual(scopes: &Scopes, declaration: DeclNo) -> bool
    ensures { result ≡ entry_is is_virtual (entry_of scopes.now declaration) }
{
    match entry_of(scopes, declaration) {
        Some(Entry::Virtual { .. }) => true,
        _ => false,
    }
}

/// A declaration, where it is that of a virtual.
fn virtual_among(scopes: &Scopes, declaration: Option<DeclNo>) -> Option<DeclNo>
    ensures { result ≡ virtual_among scopes.now declaration }
{
    let declaration = declaration?;
    if is_virtual(scopes, declaration) {
        Some(declaration)
    } else {
        None
    }
}

/// The virtual of a name that the innermost level declares that declares one.
pub fn virtual_of(scopes: &Scopes, block: u32, name: &[u8]) -> Option<DeclNo>
    ensures { result ≡ virtual_of scopes.now (length scopes.now.blocks) block name.now }
{
    first_level(
        scopes,
        block,
        |b| virtual_among(scopes, lookup(scopes, b, name)),
    )
}

/// Whether an entry is a procedure.
fn is_procedure(entry: Entry) -> bool
    ensures { result ≡ is_procedure_entry entry }
{
    match entry {
        Entry::Procedure { .. } => true,
        _ => false,
    }
}

/// What a declaration that is found stands for: a match for its virtual, all else for itself.
#[tactic(auto, unfolding(crate::specs::Scopes::represented))]
pub fn represented(scopes: &Scopes, declaration: DeclNo) -> DeclNo
    ensures { result ≡ represented scopes.now declaration }
{
    match scopes.declarations().get(declaration.0 as usize) {
        Some(row) => {
            if is_procedure(row.entry) {
                match virtual_of(scopes, row.block, row.name.as_bytes()) {
                    Some(of_virtual) => of_virtual,
                    None => declaration,
                }
            } else {
                declaration
            }
        }
        None => declaration,
    }
}

/// What an identifier denotes: what it is declared as, else a standard name.
pub fn declared_or_standard(
    scopes: &Scopes,
    declaration: Option<DeclNo>,
    standard: Option<StandardName>,
) -> Option<Denotation>
    ensures { result ≡ declared_or_standard scopes.now declaration standard }
{
    match declaration {
        Some(declaration) => Some(Denotation::Declared(represented(scopes, declaration))),
        None => match standard {
            Some(standard) => Some(Denotation::Standard(standard)),
            None => None,
        },
    }
}

/// Whether one of the blocks around a token has `detach` for an attribute.
fn has_detach_around(scopes: &Scopes, token: TokenNo) -> bool
    ensures { result ≡ around_spec scopes.now (shows_detach scopes.now) token.0 }
{
    some_around(scopes, token, |b| has_detach_at(scopes, b))
}

/// The standard name that is seen at a token. `detach` is seen in classes, prefixed blocks and connections of a class alone.
#[tactic(auto, unfolding(crate::specs::Scopes::standard_at))]
pub fn standard_at(scopes: &Scopes, token: TokenNo, name: &[u8]) -> Option<StandardName>
    ensures { result ≡ standard_at scopes.now token.0 name.now }
{
    if is_detach(name) && !has_detach_around(scopes, token) {
        None
    } else {
        standard_name(name)
    }
}

/// What a name denotes at a token: what the innermost block declares that declares it, else a standard name.
#[tactic(auto, unfolding(crate::specs::Scopes::binding))]
pub fn binding(scopes: &Scopes, token: TokenNo, name: &[u8]) -> Option<Denotation>
    ensures { result ≡ binding scopes.now token.0 name.now }
{
    let block = block_at(scopes, token);
    let declaration = declaration_from(scopes, Some(token.0), block, name);
    declared_or_standard(scopes, declaration, standard_at(scopes, token, name))
}

/// The declaration that the block shows in which a name is found.
fn shown_in(scopes: &Scopes, token: TokenNo, block: Option<u32>, name: &[u8]) -> Option<DeclNo>
    ensures { result ≡ beyond (λ b. shown scopes.now (Some token.0) b name.now) block }
{
    match block {
        Some(block) => shown(scopes, Some(token.0), block, name),
        None => None,
    }
}

/// What a name denotes at a token, and the block in which it is found.
#[tactic(auto, unfolding(crate::specs::Scopes::binding), using(crate::proofs::Searches::shown_where_found))]
pub fn binding_and_block(
    scopes: &Scopes,
    token: TokenNo,
    name: &[u8],
) -> (Option<Denotation>, Option<u32>)
    ensures denotes { result.0 ≡ binding scopes.now token.0 name.now }
    ensures found { result.1 ≡ found_in scopes.now token.0 name.now }
{
    let block = found_in(scopes, token, name);
    let declaration = shown_in(scopes, token, block, name);
    (
        declared_or_standard(scopes, declaration, standard_at(scopes, token, name)),
        block,
    )
}

/// Whether an attribute of this name is declared around a token, which then is not accessible there where nothing is found.
#[tactic(auto, unfolding(crate::specs::Scopes::is_passed_over))]
pub fn is_passed_over(scopes: &Scopes, token: TokenNo, name: &[u8]) -> bool
    ensures { result ≡ is_passed_over scopes.now token.0 name.now }
{
    let block = block_at(scopes, token);
    match declaration_from(scopes, None, block, name) {
        Some(_) => true,
        None => false,
    }
}
