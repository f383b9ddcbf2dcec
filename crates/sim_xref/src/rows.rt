//! The declarations of a program with their uses.
ghost use Rattle.std.specs.Prelude.{◌≡◌, ◌++◌, ◌∷◌, [], IfOk, OnOk, length, slice_get};
ghost use Rattle.sim_scope.specs.Source.{source_of};
ghost use Rattle.sim_xref.specs.Rows.{all_rows_of, is_of_source, rows_of};
ghost use Rattle.sim_xref.specs.Filling.{unused, unused_from, used, used_once, with_use, with_uses};

use sim_base::{DeclNo, Memory, TokenNo};
use sim_scope::{Bound, Declaration, Denotation, Entry, Scopes, entry_of, is_standard_class_block};
use std::alloc::{AllocError, Global};
use std::marker::Model;

/// A declaration with its uses.
#[derive(Debug, Drop)]
pub struct XrefRow {
    /// Its identifier, in lower case.
    pub name: Vec<u8>,
    /// The declaration.
    pub decl: DeclNo,
    /// The token of the identifier where it is declared: of a formal parameter the one in the list of parameters.
    pub token: TokenNo,
    /// The tokens of its uses, ascending.
    pub uses: Vec<TokenNo>,
}

impl Model for XrefRow {
    ghost use Rattle.sim_xref.specs.Rows.{RowOf};

    ghost Value = { RowOf };

    ghost view = { λ row. record { name = row.name.items; decl = row.decl; token = row.token; uses = row.uses.items } };
}

/// The declarations of a program in the order of its text, each with all its uses. What a standard prefix declares is not among them.
pub fn xref(alloc: Global, bound: &Bound) -> Result<Vec<XrefRow>, Memory>
    ensures { IfOk result (λ rows. rows.items ≡ rows_of (source_of bound.now)) }
{
    let mut rows = all_rows(alloc, bound)?;
    rows.retain(|row| is_of_source(&bound.scopes, row.decl));
    Ok(rows)
}

// All declarations of the tables, each with its uses.
fn all_rows(alloc: Global, bound: &Bound) -> Result<Vec<XrefRow>, AllocError>
    ensures { IfOk result (λ rows. rows.items ≡ all_rows_of (source_of bound.now)) }
{
    let mut rows = unused(alloc, bound.scopes.declarations())?;
    add_uses(&mut rows, &bound.uses)?;
    Ok(rows)
}

// Declarations without uses.
fn unused(alloc: Global, declarations: &[Declaration]) -> Result<Vec<XrefRow>, AllocError>
    ensures { IfOk result (λ rows. rows.items ≡ unused_from 0 declarations.now) }
{
    let mut rows = Vec::with_capacity(alloc, declarations.len())?;
    for declaration in declarations {
        add_unused(alloc, &mut rows, declaration)?;
    }
    Ok(rows)
}

// One declaration more, without uses.
fn add_unused(
    alloc: Global,
    rows: &mut Vec<XrefRow>,
    declaration: &Declaration,
) -> Result<(), AllocError>
    ensures { OnOk result (rows.new.items ≡ rows.old.items ++ unused (length rows.old.items) declaration.now ∷ []) }
{
    let Ok(number) = u32::try_from(rows.len()) else {
        return Err(AllocError);
    };
    let name = Vec::from_slice(alloc, declaration.name.as_bytes())?;
    rows.push(XrefRow {
        name,
        decl: DeclNo(number),
        token: declaration.token,
        uses: Vec::new(alloc),
    })?;
    Ok(())
}

// Adds to the rows of all declarations their uses.
#[tactic(auto, using(crate::proofs::Filling::filling))]
fn add_uses(rows: &mut Vec<XrefRow>, uses: &[Option<Denotation>]) -> Result<(), AllocError>
    ensures { OnOk result (rows.new.items ≡ with_uses 0 uses.now 0 rows.old.items) }
{
    for (index, denotation) in uses.iter().enumerate() {
        let Ok(token) = u32::try_from(index) else {
            return Err(AllocError);
        };
        add_token(rows, TokenNo(token), *denotation)?;
    }
    Ok(())
}

// Adds a token to the uses of what it denotes.
#[tactic(auto, unfolding(crate::specs::Filling::with_use))]
fn add_token(
    rows: &mut Vec<XrefRow>,
    token: TokenNo,
    denotation: Option<Denotation>,
) -> Result<(), AllocError>
    ensures { OnOk result (rows.new.items ≡ with_use token denotation rows.old.items) }
{
    match denotation {
        Some(Denotation::Declared(declaration)) => add_use(rows, token, declaration),
        Some(Denotation::Standard(_)) => Ok(()),
        None => Ok(()),
    }
}

// Adds a token to the uses of a declaration.
fn add_use(rows: &mut Vec<XrefRow>, token: TokenNo, declaration: DeclNo) -> Result<(), AllocError>
    ensures { OnOk result (rows.new.items ≡ used_once token (slice_get rows.old.items declaration.0) declaration.0 rows.old.items) }
{
    if let Some(row) = rows.get_mut(declaration.0 as usize) {
        row.add(token)?;
    }
    Ok(())
}

impl XrefRow {
    // One use more.
    fn add(&mut self, token: TokenNo) -> Result<(), AllocError>
        ensures { OnOk result (self.new ≡ used self.old token) }
    {
        self.uses.push(token)?;
        Ok(())
    }
}

// Whether a declaration is one of the source, and not of a standard prefix.
#[tactic(auto, unfolding(crate::specs::Rows::is_of_source))]
fn is_of_source(scopes: &Scopes, declaration: DeclNo) -> bool
    ensures { result ≡ is_of_source scopes.now declaration }
{
    match entry_of(scopes, declaration) {
        Some(Entry::Class { block }) => !is_standard_class_block(scopes, block),
        Some(Entry::Attribute { .. }) => false,
        _ => true,
    }
}
