//! Block tables: what each block declares, and where the blocks stand.
ghost use Rattle.std.specs.Prelude.{◌≡◌, Some, None, false, length, OnOk, MatchOption};
ghost use Rattle.std.specs.List.{list_any};
ghost use Rattle.std.specs.Str.{bytes_eq};
ghost use Rattle.sim_scope.specs.Building.{with_name};
ghost use Rattle.sim_scope.specs.Scopes.{brought_in, declared_in};
ghost use Rattle.sim_scope.specs.Tables.{with_base_at, with_entry_at, with_standard_at};

use crate::names::Names;
use crate::standard::StandardName;
use crate::types::{BlockKind, Entry, StandardPrefix};
use sim_base::{ByteString, DeclNo, TokenNo};
use sim_tree::Identifier;
use std::alloc::AllocError;
use std::marker::Model;

/// What an identifier denotes.
#[derive(Clone, Copy, Debug, PartialEq, Eq)]
pub enum Denotation {
    /// A declaration of the program.
    Declared(DeclNo),
    /// A standard name that the program does not declare.
    Standard(StandardName),
}

/// A declaration.
#[derive(Drop)]
pub struct Declaration {
    /// Its identifier.
    pub name: ByteString,
    /// The token of the identifier.
    pub token: TokenNo,
    /// The block that it stands in.
    pub block: u32,
    /// What it is.
    pub entry: Entry,
    /// Whether its block lists its identifier. It doesn't where the identifier denotes a virtual that this declaration matches, and where
    /// `simset` or `simulation` declares it in the block that it stands in front of.
    pub listed: bool,
}

/// A declaration of references, and the class that is written for them.
#[derive(Drop)]
pub struct Qualification {
    /// The declaration.
    pub declaration: DeclNo,
    /// The class.
    pub class: Identifier,
}

/// An attribute that is written in a protection part.
#[derive(Drop)]
pub struct Protection {
    /// The block of the class.
    pub block: u32,
    /// The attribute.
    pub attribute: Identifier,
    /// Whether it is hidden.
    pub hides: bool,
    /// Whether it is protected.
    pub protects: bool,
}

/// A block, with what it declares. The identifiers and the declarations go together.
#[derive(Drop)]
pub struct Block {
    pub(crate) kind: BlockKind,
    pub(crate) first: TokenNo,
    pub(crate) end: TokenNo,
    pub(crate) encloser: Option<u32>,
    pub(crate) level: u32,
    pub(crate) owner: Option<DeclNo>,
    pub(crate) formals: usize,
    pub(crate) inner: Option<u32>,
    pub(crate) prefix: Option<Identifier>,
    pub(crate) base: Option<u32>,
    pub(crate) standard: Option<StandardPrefix>,
    pub(crate) names: Names,
    pub(crate) numbers: Vec<DeclNo>,
    pub(crate) has_class: bool,
    pub(crate) brought_names: Names,
    pub(crate) brought: Vec<DeclNo>,
    pub(crate) protected: Names,
    pub(crate) hidden: Names,
}

impl Model for Block {
    ghost use Rattle.sim_scope.specs.Tables.{BlockOf};

    ghost Value = { BlockOf };

    ghost view = { λ b. record {
      kind = b.kind;
      first = b.first.0;
      end = b.end.0;
      encloser = b.encloser;
      level = b.level;
      owner = b.owner;
      formals = b.formals;
      inner = b.inner;
      prefix = b.prefix;
      base = b.base;
      standard = b.standard;
      names = b.names;
      numbers = b.numbers.items;
      has_class = b.has_class;
      brought_names = b.brought_names;
      brought = b.brought.items;
      protected = b.protected;
      hidden = b.hidden;
    } };
}

impl Block {
    /// The declaration of an identifier, if the block has one.
    pub fn declaration(&self, name: &[u8]) -> Option<DeclNo>
        ensures { result ≡ declared_in (Some self.now) name.now }
    {
        let index = self.names.number(name)?;
        self.numbers.get(index).copied()
    }

    /// What its standard prefix declares, in text order, where it has the prefix.
    pub fn brought_numbers(&self) -> &[DeclNo]
        ensures { result.now ≡ self.now.brought }
    {
        &self.brought
    }

    /// Whether the block declares an identifier.
    pub fn has(&self, name: &[u8]) -> bool
        ensures { result ≡ list_any (bytes_eq name.now) self.now.names }
    {
        self.names.contains(name)
    }

    /// What its standard prefix declares under a name, if it has the prefix.
    pub fn brought(&self, name: &[u8]) -> Option<DeclNo>
        ensures { result ≡ brought_in (Some self.now) name.now }
    {
        match self.standard {
            Some(_) => {
                let index = self.brought_names.number(name)?;
                self.brought.get(index).copied()
            }
            None => None,
        }
    }

    /// Whether it protects an attribute of this name.
    pub fn protects(&self, name: &[u8]) -> bool
        ensures { result ≡ list_any (bytes_eq name.now) self.now.protected }
    {
        self.protected.contains(name)
    }

    /// Whether it names an attribute as hidden.
    pub fn hides(&self, name: &[u8]) -> bool
        ensures { result ≡ list_any (bytes_eq name.now) self.now.hidden }
    {
        self.hidden.contains(name)
    }

    /// Adds an identifier that the block hasn't.
    pub(crate) fn add(&mut self, name: Vec<u8>, number: DeclNo) -> Result<(), AllocError>
        requires new { list_any (bytes_eq name.items) self.old.names ≡ false }
        ensures block { OnOk result (self.new ≡ with_name self.old name.items number) }
    {
        self.names.add(name)?;
        self.numbers.push(number)?;
        Ok(())
    }

    /// The token behind its text becomes known.
    pub(crate) fn set_end(&mut self, end: TokenNo)
        ensures { self.new ≡ record self.old { end = end.0 } }
    {
        self.end = end;
    }

    /// What it declares so far are its parameters.
    pub(crate) fn count(&mut self)
        ensures { self.new ≡ record self.old { formals = length self.old.numbers } }
    {
        self.formals = self.numbers.len();
    }

    /// The token of the `inner` of a class.
    pub(crate) fn set_inner(&mut self, token: TokenNo)
        ensures { self.new ≡ record self.old { inner = Some token.0 } }
    {
        self.inner = Some(token.0);
    }

    /// The block around it.
    pub fn around(&self) -> Option<u32>
        ensures { result ≡ self.now.encloser }
    {
        self.encloser
    }

    /// What it is.
    pub fn kind(&self) -> BlockKind
        ensures { result ≡ self.now.kind }
    {
        self.kind
    }

    /// The token from which on its text is inside.
    pub fn first(&self) -> TokenNo
        ensures { result.0 ≡ self.now.first }
    {
        self.first
    }

    /// The token behind its text.
    pub fn end(&self) -> TokenNo
        ensures { result.0 ≡ self.now.end }
    {
        self.end
    }

    /// Its level: 1 for the program's block.
    pub fn level(&self) -> u32
        ensures { result ≡ self.now.level }
    {
        self.level
    }

    /// The procedure or class that it belongs to.
    pub fn owner(&self) -> Option<DeclNo>
        ensures { result ≡ self.now.owner }
    {
        self.owner
    }

    /// How many of its declarations, from the first one on, are formal parameters.
    pub fn formals(&self) -> usize
        ensures { result ≡ self.now.formals }
    {
        self.formals
    }

    /// The token of the `inner` of a class, where it is written.
    pub fn inner(&self) -> Option<u32>
        ensures { result ≡ self.now.inner }
    {
        self.inner
    }

    /// The class identifier in front of it, where it has a prefix.
    pub fn prefix(&self) -> Option<&Identifier>
        ensures { MatchOption result (self.now.prefix ≡ None) (λ prefix. self.now.prefix ≡ Some prefix.now) }
    {
        self.prefix.as_ref()
    }

    /// The block of its prefix, which is its next level; of a connection, the block of the class that is connected.
    pub fn base(&self) -> Option<u32>
        ensures { result ≡ self.now.base }
    {
        self.base
    }

    /// The prefix, where it is a standard one.
    pub fn standard(&self) -> Option<StandardPrefix>
        ensures { result ≡ self.now.standard }
    {
        self.standard
    }

    /// Whether a class is among its declarations.
    pub fn has_class(&self) -> bool
        ensures { result ≡ self.now.has_class }
    {
        self.has_class
    }

    /// Its declarations in text order.
    pub fn numbers(&self) -> &[DeclNo]
        ensures { result.now ≡ self.now.numbers }
    {
        &self.numbers
    }
}

/// The blocks and the declarations of a program, both in text order, and the innermost block of each token.
#[derive(Drop)]
pub struct Scopes {
    blocks: Vec<Block>,
    declarations: Vec<Declaration>,
    places: Vec<Option<u32>>,
    qualifications: Vec<Qualification>,
    protections: Vec<Protection>,
}

impl Model for Scopes {
    ghost use Rattle.sim_scope.specs.Tables.{Tables};

    ghost Value = { Tables };

    ghost view = { λ s. record { blocks = s.blocks.items; declarations = s.declarations.items; places = s.places.items; qualifications = s.qualifications.items; protections = s.protections.items } };
}

impl Scopes {
    /// The tables of these blocks, declarations and places.
    pub(crate) fn new(
        blocks: Vec<Block>,
        declarations: Vec<Declaration>,
        places: Vec<Option<u32>>,
        qualifications: Vec<Qualification>,
        protections: Vec<Protection>,
    ) -> Scopes
        ensures { result ≡ record { blocks = blocks.items; declarations = declarations.items; places = places.items; qualifications = qualifications.items; protections = protections.items } }
    {
        Scopes {
            blocks,
            declarations,
            places,
            qualifications,
            protections,
        }
    }

    /// The blocks in text order.
    pub fn blocks(&self) -> &[Block]
        ensures { result.now ≡ self.now.blocks }
    {
        &self.blocks
    }

    /// How many blocks there are.
    pub fn block_count(&self) -> usize
        ensures { result ≡ length self.now.blocks }
    {
        self.blocks.len()
    }

    /// The declarations in text order.
    pub fn declarations(&self) -> &[Declaration]
        ensures { result.now ≡ self.now.declarations }
    {
        &self.declarations
    }

    /// For each token the innermost block around it.
    pub fn places(&self) -> &[Option<u32>]
        ensures { result.now ≡ self.now.places }
    {
        &self.places
    }

    /// The references that are declared, and the classes that are written for them.
    pub fn qualifications(&self) -> &[Qualification]
        ensures { result.now ≡ self.now.qualifications }
    {
        &self.qualifications
    }

    /// The attributes that are written in protection parts.
    pub fn protections(&self) -> &[Protection]
        ensures { result.now ≡ self.now.protections }
    {
        &self.protections
    }

    /// The next level of a block becomes known. A block that there isn't is let go.
    #[tactic(auto, unfolding(crate::specs::Tables::with_base_at))]
    pub fn set_base(&mut self, block: usize, base: Option<u32>)
        ensures { self.new ≡ with_base_at self.old block base }
    {
        if let Some(row) = self.blocks.get_mut(block) {
            row.base = base;
        }
    }

    /// The prefix of a block turns out to be a standard one. A block that there isn't is let go.
    #[tactic(auto, unfolding(crate::specs::Tables::with_standard_at))]
    pub fn set_standard(&mut self, block: usize, which: StandardPrefix)
        ensures { self.new ≡ with_standard_at self.old block which }
    {
        if let Some(row) = self.blocks.get_mut(block) {
            row.standard = Some(which);
        }
    }

    /// What a declaration declares becomes known. A declaration that there isn't is let go.
    #[tactic(auto, unfolding(crate::specs::Tables::with_entry_at))]
    pub fn set_entry(&mut self, declaration: u32, entry: Entry)
        ensures { self.new ≡ with_entry_at self.old declaration entry }
    {
        if let Some(row) = self.declarations.get_mut(declaration as usize) {
            row.entry = entry;
        }
    }
}
