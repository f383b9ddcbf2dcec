//! Declarations and text constants by token.
ghost use Rattle.std.specs.Prelude.{◌≡◌, IfOk, OnOk, length, slice_get};
ghost use Rattle.sim_meaning.specs.Texts.{declared_at as declared_at_of};
ghost use Rattle.sim_scope.specs.Access.{joined};
ghost use Rattle.sim_scope.specs.Source.{source_of};
ghost use Rattle.text_tables.specs.TokenTable.{AreDeclared, AreNumbered, Longer, Noted, NotedTo, NumberedTo};

use crate::places::number_of;
use program_texts::{ConstantTree, text_constants};
use sim_base::{DeclNo, TokenNo};
use sim_scope::{Bound, Declaration};
use std::alloc::{AllocError, Global};

/// What a table has at a token.
fn entry<T: Copy>(table: &[Option<T>], token: TokenNo) -> Option<T>
    ensures { result ≡ joined (slice_get table.now token.0) }
{
    match table.get(token.0 as usize) {
        Some(found) => *found,
        None => None,
    }
}

/// The table has rows for so many tokens.
#[tactic(auto, using(crate::proofs::ByTokens::by_tokens))]
fn reach<T: Copy>(table: &mut Vec<Option<T>>, size: usize) -> Result<(), AllocError>
    ensures { OnOk result (Longer table.old.items table.new.items size) }
{
    let start = table.len();
    for made in start..size {
        table.push(None)?;
    }
    Ok(())
}

/// Something stands at a token, unless something earlier does.
#[tactic(auto, using(crate::proofs::ByTokens::by_tokens))]
fn note<T: Copy>(table: &mut Vec<Option<T>>, token: TokenNo, noted: T) -> Result<(), AllocError>
    ensures { OnOk result (Noted table.old.items table.new.items token.0 noted) }
{
    let place = token.0 as usize;
    reach(table, place + 1)?;
    match entry(table, token) {
        Some(_) => Ok(()),
        None => {
            table[place] = Some(noted);
            Ok(())
        }
    }
}

/// All declarations at their tokens.
#[tactic(auto, using(crate::proofs::ByTokens::by_tokens))]
fn note_all(alloc: Global, rows: &[Declaration]) -> Result<Vec<Option<DeclNo>>, AllocError>
    ensures { IfOk result (λ table. NotedTo rows.now table.items (length rows.now)) }
{
    let mut table = Vec::new(alloc);
    for index in 0..rows.len() {
        let number = number_of(index)?;
        note(&mut table, rows[index].token, DeclNo(number))?;
    }
    Ok(table)
}

/// All text constants at their tokens, by their numbers.
#[tactic(auto, using(crate::proofs::ByTokens::by_tokens))]
fn number_all(alloc: Global, constants: &[ConstantTree]) -> Result<Vec<Option<u32>>, AllocError>
    ensures { IfOk result (λ table. NumberedTo constants.now table.items (length constants.now)) }
{
    let mut table = Vec::new(alloc);
    for index in 0..constants.len() {
        let number = number_of(index)?;
        note(&mut table, constants[index].token, number)?;
    }
    Ok(table)
}

/// For each token the number of the text constant that is written there. Time and memory are linear in the program.
#[tactic(auto, using(crate::proofs::ByTokens::by_tokens))]
pub(crate) fn texts_by_token(alloc: Global, bound: &Bound) -> Result<Vec<Option<u32>>, AllocError>
    ensures { IfOk result (λ table. AreNumbered bound.now table.items) }
{
    let constants = text_constants(alloc, &bound.program)?;
    let table = number_all(alloc, &constants)?;
    Ok(table)
}

/// For each token the declaration that stands there. Time and memory are linear in the program.
#[tactic(auto, using(crate::proofs::ByTokens::by_tokens))]
pub fn declarations_by_token(
    alloc: Global,
    bound: &Bound,
) -> Result<Vec<Option<DeclNo>>, AllocError>
    ensures { IfOk result (λ table. AreDeclared bound.now table.items) }
{
    let table = note_all(alloc, bound.scopes.declarations())?;
    Ok(table)
}

/// The declaration that stands at a token.
#[tactic(auto, unfolding(crate::specs::TokenTable::AreDeclared))]
pub fn declared_at(bound: &Bound, table: &[Option<DeclNo>], token: TokenNo) -> Option<DeclNo>
    requires table { AreDeclared bound.now table.now }
    ensures { result ≡ declared_at_of (source_of bound.now) token.0 }
{
    entry(table, token)
}
