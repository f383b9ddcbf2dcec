//! Headings: the parameters of procedures and classes, and the parts that say their modes and what they are.
ghost use Rattle.std.specs.Prelude.{◌≡◌, OnOk, slice_get};
ghost use Rattle.sim_scope.specs.Building.{Headed, Moded, Parameter, Specified, counted, default_mode, found_in, is_by_name, is_procedure, is_simple, is_text, marked, mode_allowed, moded_as, specified_as, token_in, unspecified, unspecified_at, unspecified_in, value_allowed, with_entry, with_mode};
ghost use Rattle.sim_scope.specs.Scopes.{entry_of};

use crate::building::Building;
use crate::types::{Entry, Formal, FormalKind, Mode, SimType, WrittenMode};
use sim_base::{DeclNo, Rule, TokenNo};
use sim_tree::Identifier;
use std::alloc::{AllocError, Global};

fn is_by_name(mode: Mode) -> bool
    ensures { result ≡ is_by_name mode }
{
    match mode {
        Mode::ByName => true,
        Mode::ByValue => false,
        Mode::ByReference => false,
    }
}

/// Whether a type is that of integers, booleans or characters.
fn is_simple(ty: Option<SimType>) -> bool
    ensures { result ≡ is_simple ty }
{
    match ty {
        Some(SimType::Integer) => true,
        Some(SimType::Boolean) => true,
        Some(SimType::Character) => true,
        Some(SimType::Text) => false,
        Some(SimType::Ref(_)) => false,
        Some(SimType::NoneType) => false,
        None => false,
    }
}

fn is_text(ty: Option<SimType>) -> bool
    ensures { result ≡ is_text ty }
{
    match ty {
        Some(SimType::Text) => true,
        Some(SimType::Integer) => false,
        Some(SimType::Boolean) => false,
        Some(SimType::Character) => false,
        Some(SimType::Ref(_)) => false,
        Some(SimType::NoneType) => false,
        None => false,
    }
}

/// The mode of a parameter for which none is written.
#[tactic(auto, unfolding(crate::specs::Building::default_mode))]
fn default_mode(kind: FormalKind, ty: Option<SimType>) -> Mode
    ensures { result ≡ default_mode kind ty }
{
    match kind {
        FormalKind::Simple => {
            if is_simple(ty) {
                Mode::ByValue
            } else {
                Mode::ByReference
            }
        }
        FormalKind::Array => Mode::ByReference,
        FormalKind::Procedure => Mode::ByReference,
    }
}

fn value_allowed(kind: FormalKind, ty: Option<SimType>) -> bool
    ensures { result ≡ value_allowed kind ty }
{
    match kind {
        FormalKind::Simple => is_simple(ty) || is_text(ty),
        FormalKind::Array => is_simple(ty),
        FormalKind::Procedure => false,
    }
}

/// Whether a mode may be written for a parameter.
#[tactic(auto, unfolding(crate::specs::Building::mode_allowed))]
fn mode_allowed(mode: Mode, kind: FormalKind, ty: Option<SimType>) -> bool
    ensures { result ≡ mode_allowed mode kind ty }
{
    is_by_name(mode) || value_allowed(kind, ty)
}

/// The mode that is written for a parameter that no specification has named yet.
fn unspecified(entry: Entry) -> Option<Option<WrittenMode>>
    ensures { result ≡ unspecified entry }
{
    match entry {
        Entry::Unspecified { written } => Some(written),
        Entry::Variable(_) => None,
        Entry::Constant(_) => None,
        Entry::Array { .. } => None,
        Entry::Procedure { .. } => None,
        Entry::Class { .. } => None,
        Entry::Virtual { .. } => None,
        Entry::Formal(_) => None,
        Entry::Attribute { .. } => None,
    }
}

impl Building {
    /// An identifier is a formal parameter of the innermost open block.
    #[tactic(auto, unfolding(crate::specs::Building::marked))]
    pub(crate) fn parameter(
        &mut self,
        alloc: Global,
        identifier: &Identifier,
    ) -> Result<(), AllocError>
        ensures { OnOk result (self.new ≡ marked self.old (Parameter identifier.now)) }
    {
        self.declare(alloc, identifier, Entry::Unspecified { written: None })?;
        if let Some(block) = self.current {
            self.count(block);
        }
        Ok(())
    }

    /// What a block declares so far are its parameters.
    fn count(&mut self, block: u32)
        ensures { self.new ≡ counted self.old block (slice_get self.old.tables.blocks block) }
    {
        if (block as usize) < self.blocks.len() {
            self.blocks[block as usize].count();
        }
    }

    /// The declaration of a name in the innermost open block.
    #[tactic(auto, unfolding(crate::specs::Scopes::lookup))]
    fn here(&self, name: &[u8]) -> Option<DeclNo>
        ensures { result ≡ found_in self.now.tables self.now.current name.now }
    {
        match self.current {
            Some(block) => self.blocks.get(block as usize)?.declaration(name),
            None => None,
        }
    }

    /// The mode that is written for a parameter that no specification has named yet.
    #[tactic(auto, unfolding(crate::specs::Scopes::entry_of))]
    fn unspecified(&self, declaration: DeclNo) -> Option<Option<WrittenMode>>
        ensures { result ≡ unspecified_in (entry_of self.now.tables declaration) }
    {
        match self.declarations.get(declaration.0 as usize) {
            Some(row) => unspecified(row.entry),
            None => None,
        }
    }

    /// The same of the declaration of a name in the innermost open block.
    fn unspecified_here(&self, name: &[u8]) -> Option<Option<WrittenMode>>
        ensures { result ≡ unspecified_at self.now.tables (found_in self.now.tables self.now.current name.now) }
    {
        match self.here(name) {
            Some(declaration) => self.unspecified(declaration),
            None => None,
        }
    }

    /// The token of a declaration.
    fn token_of(&self, declaration: DeclNo) -> TokenNo
        ensures { result.0 ≡ token_in (slice_get self.now.tables.declarations declaration.0) }
    {
        match self.declarations.get(declaration.0 as usize) {
            Some(row) => row.token,
            None => TokenNo(0),
        }
    }

    /// What a declaration declares becomes known.
    fn enter(&mut self, declaration: DeclNo, entry: Entry)
        ensures { self.new ≡ with_entry self.old declaration entry }
    {
        if let Some(row) = self.declarations.get_mut(declaration.0 as usize) {
            row.entry = entry;
        }
    }

    /// The mode part names an identifier.
    #[tactic(auto, unfolding(crate::specs::Building::marked))]
    pub(crate) fn moded(&mut self, identifier: &Identifier, mode: Mode)
        ensures { self.new ≡ marked self.old (Moded identifier.now mode) }
    {
        match self.here(identifier.name.as_bytes()) {
            Some(declaration) => self.set_mode(identifier.token, mode, declaration),
            None => self.note(identifier.token, Rule::ModeNotAllowed),
        }
    }

    #[tactic(auto, unfolding(crate::specs::Building::marked))]
    fn set_mode(&mut self, token: TokenNo, mode: Mode, declaration: DeclNo)
        ensures { self.new ≡ moded_as self.old token mode declaration (unspecified_in (entry_of self.old.tables declaration)) }
    {
        match self.unspecified(declaration) {
            Some(None) => {
                if is_by_name(mode) && self.in_class() {
                    self.note(token, Rule::ModeNotAllowed);
                } else {
                    self.enter(
                        declaration,
                        Entry::Unspecified {
                            written: Some(WrittenMode { token, mode }),
                        },
                    );
                }
            }
            Some(Some(_)) => self.note(token, Rule::ModeNotAllowed),
            None => self.note(token, Rule::ModeNotAllowed),
        }
    }

    /// A specification names an identifier.
    #[tactic(auto, unfolding(crate::specs::Building::marked))]
    pub(crate) fn specified(
        &mut self,
        identifier: &Identifier,
        kind: FormalKind,
        ty: Option<SimType>,
    )
        ensures { self.new ≡ marked self.old (Specified identifier.now kind ty) }
    {
        self.latest = self.here(identifier.name.as_bytes());
        match self.latest {
            Some(declaration) => self.specify(identifier.token, kind, ty, declaration),
            None => self.note(identifier.token, Rule::SpecificationDisagrees),
        }
    }

    #[tactic(auto, unfolding(crate::specs::Building::marked))]
    fn specify(
        &mut self,
        token: TokenNo,
        kind: FormalKind,
        ty: Option<SimType>,
        declaration: DeclNo,
    )
        ensures { self.new ≡ specified_as self.old token kind ty declaration (unspecified_in (entry_of self.old.tables declaration)) }
    {
        match self.unspecified(declaration) {
            Some(written) => {
                let out_of_place = is_procedure(kind) && self.in_class();
                let parameter = self.token_of(declaration);
                self.set_kind(kind, ty, declaration, written);
                self.note_if(out_of_place, parameter, Rule::ModeNotAllowed);
            }
            None => self.note(token, Rule::SpecificationDisagrees),
        }
    }

    fn set_kind(
        &mut self,
        kind: FormalKind,
        ty: Option<SimType>,
        declaration: DeclNo,
        written: Option<WrittenMode>,
    )
        ensures { self.new ≡ with_mode self.old declaration kind ty written }
    {
        match written {
            Some(written) => {
                let mode = written.mode;
                self.enter(declaration, Entry::Formal(Formal { mode, kind, ty }));
                self.note_if(
                    !mode_allowed(mode, kind, ty),
                    written.token,
                    Rule::ModeNotAllowed,
                );
            }
            None => {
                let mode = default_mode(kind, ty);
                self.enter(declaration, Entry::Formal(Formal { mode, kind, ty }));
            }
        }
    }

    /// At the end of a heading a parameter has been specified.
    #[tactic(auto, unfolding(crate::specs::Building::marked))]
    pub(crate) fn headed(&mut self, identifier: &Identifier)
        ensures { self.new ≡ marked self.old (Headed identifier.now) }
    {
        match self.unspecified_here(identifier.name.as_bytes()) {
            Some(_) => self.note(identifier.token, Rule::SpecificationDisagrees),
            None => (),
        }
    }
}

fn is_procedure(kind: FormalKind) -> bool
    ensures { result ≡ is_procedure kind }
{
    match kind {
        FormalKind::Procedure => true,
        FormalKind::Simple => false,
        FormalKind::Array => false,
    }
}
