//! Block tables, built from a program that is read from left to right.
ghost use Rattle.std.specs.Prelude.{◌≡◌, ◌++◌, ◌-◌, replicate, length, slice_get, IfOk, OnOk, option_copied};
ghost use Rattle.sim_scope.specs.Tables.{deeper};
ghost use Rattle.sim_scope.specs.Building.{Breaks, Closes, Declares, DeclaresClass, DeclaresProcedure, Inner, Opens, added, block_around, broken_if, changed, closed_at, declared_again, declared_at, declared_twice, holding_class, in_class, inner_at, is_class, is_match, level_in, marked, match_known, matching, owner_of, placed};
ghost use Rattle.sim_scope.specs.Declare.{empty};
ghost use Rattle.sim_scope.specs.Found.{lesser};
ghost use Rattle.sim_scope.specs.Scopes.{entry_of};

use crate::found::{Fault, lesser};
use crate::names::Names;
use crate::scopes::{Block, Declaration, Protection, Qualification, Scopes};
use crate::types::{BlockKind, Entry, SimType};
use sim_base::{DeclNo, Rule, TokenNo};
use sim_tree::Identifier;
use std::alloc::{AllocError, Global};
use std::marker::Model;

/// The most levels that blocks may have.
const MOST_LEVELS: u32 = 64;

/// The most declarations that a program may have.
const MOST_DECLARATIONS: usize = 65_535;

/// The tables so far.
#[derive(Drop)]
pub(crate) struct Building {
    pub(crate) blocks: Vec<Block>,
    pub(crate) declarations: Vec<Declaration>,
    pub(crate) places: Vec<Option<u32>>,
    pub(crate) qualifications: Vec<Qualification>,
    pub(crate) protections: Vec<Protection>,
    pub(crate) own: usize,
    pub(crate) current: Option<u32>,
    pub(crate) latest: Option<DeclNo>,
    pub(crate) least: Option<Fault>,
}

impl Model for Building {
    ghost use Rattle.sim_scope.specs.Building.{BuildingOf};

    ghost Value = { BuildingOf };

    ghost view = { λ b. record {
      tables = record {
        blocks = b.blocks.items;
        declarations = b.declarations.items;
        places = b.places.items;
        qualifications = b.qualifications.items;
        protections = b.protections.items;
      };
      own = b.own;
      current = b.current;
      latest = b.latest;
      least = b.least;
    } };
}

/// Adds a place at the end until there are so many.
fn fill(places: &mut Vec<Option<u32>>, place: Option<u32>, to: usize) -> Result<(), AllocError>
    ensures { OnOk result (places.new.items ≡ places.old.items ++ replicate (to - length places.old.items) place) }
{
    let missing = to.saturating_sub(places.len());
    for made in 0..missing {
        places.push(place)?;
    }
    Ok(())
}

/// The level of a block inside one of this level.
fn deeper(kind: BlockKind, level: u32) -> Result<u32, AllocError>
    ensures { IfOk result (λ deep. deep ≡ deeper kind level) }
{
    let Some(next) = level.checked_add(1) else {
        return Err(AllocError);
    };
    match kind {
        BlockKind::Connection => Ok(level),
        BlockKind::Program => Ok(next),
        BlockKind::SubBlock => Ok(next),
        BlockKind::Procedure => Ok(next),
        BlockKind::Class => Ok(next),
        BlockKind::Prefixed => Ok(next),
        BlockKind::StandardClass(_) => Ok(next),
    }
}

/// The declaration that a block belongs to.
fn owner_of(kind: BlockKind, latest: Option<DeclNo>) -> Option<DeclNo>
    ensures { result ≡ owner_of kind latest }
{
    match kind {
        BlockKind::Procedure => latest,
        BlockKind::Class => latest,
        BlockKind::Program => None,
        BlockKind::SubBlock => None,
        BlockKind::Prefixed => None,
        BlockKind::Connection => None,
        BlockKind::StandardClass(_) => None,
    }
}

fn is_class(kind: BlockKind) -> bool
    ensures { result ≡ is_class kind }
{
    match kind {
        BlockKind::Class => true,
        BlockKind::Program => false,
        BlockKind::SubBlock => false,
        BlockKind::Procedure => false,
        BlockKind::Prefixed => false,
        BlockKind::Connection => false,
        BlockKind::StandardClass(_) => false,
    }
}

/// Whether a procedure matches what its block has declared before it: a virtual procedure that has no match yet.
fn is_match(entry: Entry, declared: Option<Entry>) -> bool
    ensures { result ≡ is_match entry declared }
{
    match (entry, declared) {
        (Entry::Procedure { .. }, Some(Entry::Virtual { own: None, .. })) => true,
        _ => false,
    }
}

/// A virtual procedure, once a match is known.
fn matching(entry: Entry, procedure: DeclNo) -> Entry
    ensures { result ≡ matching entry procedure }
{
    match entry {
        Entry::Virtual { result: ty, .. } => Entry::Virtual {
            result: ty,
            own: Some(procedure),
        },
        _ => entry,
    }
}

impl Building {
    /// No tables.
    pub(crate) fn new(alloc: Global) -> Building
        ensures { result ≡ empty }
    {
        Building {
            blocks: Vec::new(alloc),
            declarations: Vec::new(alloc),
            places: Vec::new(alloc),
            qualifications: Vec::new(alloc),
            protections: Vec::new(alloc),
            own: 0,
            current: None,
            latest: None,
            least: None,
        }
    }

    /// The tables, and the least broken rule.
    pub(crate) fn finish(self) -> (Scopes, Option<Fault>)
        ensures scopes { result.0 ≡ self.tables }
        ensures broken { result.1 ≡ self.least }
    {
        (
            Scopes::new(
                self.blocks,
                self.declarations,
                self.places,
                self.qualifications,
                self.protections,
            ),
            self.least,
        )
    }

    /// A rule is broken at a token.
    #[tactic(auto, unfolding(crate::specs::Building::marked))]
    pub(crate) fn note(&mut self, token: TokenNo, rule: Rule)
        ensures { self.new ≡ marked self.old (Breaks token.0 rule) }
    {
        self.least = lesser(self.least, Fault { token, rule });
    }

    /// A rule may be broken at a token.
    pub(crate) fn note_if(&mut self, breaks: bool, token: TokenNo, rule: Rule)
        ensures { self.new ≡ broken_if breaks self.old token.0 rule }
    {
        if breaks {
            self.least = lesser(self.least, Fault { token, rule });
        }
    }

    /// The tokens before this one that have no place yet stand in the current block.
    fn place(&mut self, token: TokenNo) -> Result<(), AllocError>
        ensures { OnOk result (self.new ≡ record self.old { tables = placed self.old.tables self.old.current token.0 }) }
    {
        fill(&mut self.places, self.current, token.0 as usize)
    }

    /// The innermost open block.
    pub(crate) fn current_block(&self) -> Option<&Block>
        ensures { option_copied result ≡ block_around self.now.tables self.now.current }
    {
        match self.current {
            Some(block) => self.blocks.get(block as usize),
            None => None,
        }
    }

    /// The level of a block that begins here.
    fn level_in(&self, kind: BlockKind) -> Result<u32, AllocError>
        ensures { IfOk result (λ level. level ≡ level_in kind (block_around self.now.tables self.now.current)) }
    {
        match self.current_block() {
            Some(block) => deeper(kind, block.level()),
            None => Ok(1),
        }
    }

    /// Whether the innermost open block is that of a class.
    pub(crate) fn in_class(&self) -> bool
        ensures { result ≡ in_class self.now }
    {
        match self.current_block() {
            Some(block) => is_class(block.kind()),
            None => false,
        }
    }

    /// A block begins: the first token of its text, and the one from which on the text is inside.
    #[tactic(auto, unfolding(crate::specs::Building::marked))]
    pub(crate) fn open(
        &mut self,
        alloc: Global,
        kind: BlockKind,
        text: TokenNo,
        first: TokenNo,
    ) -> Result<(), AllocError>
        ensures { OnOk result (self.new ≡ marked self.old (Opens kind text.0 first.0)) }
    {
        let level = self.level_in(kind)?;
        let Ok(number) = u32::try_from(self.blocks.len()) else {
            return Err(AllocError);
        };
        self.place(first)?;
        self.blocks.push(Block {
            kind,
            first,
            end: first,
            encloser: self.current,
            level,
            owner: owner_of(kind, self.latest),
            formals: 0,
            inner: None,
            prefix: None,
            base: None,
            standard: None,
            names: Names::new(alloc),
            numbers: Vec::new(alloc),
            has_class: false,
            brought_names: Names::new(alloc),
            brought: Vec::new(alloc),
            protected: Names::new(alloc),
            hidden: Names::new(alloc),
        })?;
        self.current = Some(number);
        self.note_if(level > MOST_LEVELS, text, Rule::TooManyLevels);
        Ok(())
    }

    /// The innermost open block ends in front of a token.
    #[tactic(auto, unfolding(crate::specs::Building::marked))]
    pub(crate) fn close(&mut self, end: TokenNo) -> Result<(), AllocError>
        ensures { OnOk result (self.new ≡ marked self.old (Closes end.0)) }
    {
        match self.current {
            Some(block) => self.close_block(end, block),
            None => Ok(()),
        }
    }

    fn close_block(&mut self, end: TokenNo, block: u32) -> Result<(), AllocError>
        ensures { OnOk result (self.new ≡ closed_at self.old end.0 block (slice_get self.old.tables.blocks block)) }
    {
        if block as usize >= self.blocks.len() {
            return Ok(());
        }
        self.place(end)?;
        let around = self.blocks[block as usize].around();
        self.blocks[block as usize].set_end(end);
        self.current = around;
        Ok(())
    }

    /// The innermost open block declares an identifier.
    #[tactic(auto, unfolding(crate::specs::Building::marked))]
    pub(crate) fn declare(
        &mut self,
        alloc: Global,
        identifier: &Identifier,
        entry: Entry,
    ) -> Result<(), AllocError>
        ensures { OnOk result (self.new ≡ marked self.old (Declares identifier.now entry)) }
    {
        match self.current {
            Some(block) => self.declare_in(alloc, block, identifier, entry),
            None => Ok(()),
        }
    }

    /// A block declares an identifier.
    fn declare_in(
        &mut self,
        alloc: Global,
        block: u32,
        identifier: &Identifier,
        entry: Entry,
    ) -> Result<(), AllocError>
        ensures { OnOk result (self.new ≡ declared_at self.old identifier.now entry block (slice_get self.old.tables.blocks block)) }
    {
        if block as usize >= self.blocks.len() {
            return Ok(());
        }
        if self.blocks[block as usize].has(identifier.name.as_bytes()) {
            let declared = self.blocks[block as usize].declaration(identifier.name.as_bytes());
            return self.declare_again(alloc, block, identifier, entry, declared);
        }
        let Ok(number) = u32::try_from(self.declarations.len()) else {
            return Err(AllocError);
        };
        let name = Vec::from_slice(alloc, identifier.name.as_bytes())?;
        self.blocks[block as usize].add(name, DeclNo(number))?;
        self.list(alloc, block, identifier, entry, true)
    }

    /// One more declaration of the program's own, behind the others.
    fn list(
        &mut self,
        alloc: Global,
        block: u32,
        identifier: &Identifier,
        entry: Entry,
        listed: bool,
    ) -> Result<(), AllocError>
        ensures { OnOk result (self.new ≡ added self.old identifier.now entry block listed) }
    {
        let Ok(number) = u32::try_from(self.declarations.len()) else {
            return Err(AllocError);
        };
        let Some(own) = self.own.checked_add(1) else {
            return Err(AllocError);
        };
        let is_last = self.own == MOST_DECLARATIONS;
        let name = identifier.name.copy(alloc)?;
        self.declarations.push(Declaration {
            name,
            token: identifier.token,
            block,
            entry,
            listed,
        })?;
        self.latest = Some(DeclNo(number));
        self.own = own;
        self.note_if(is_last, identifier.token, Rule::TooManyDeclarations);
        Ok(())
    }

    /// A block declares an identifier that it has already: the match of a virtual procedure, or one too many (`S1`).
    fn declare_again(
        &mut self,
        alloc: Global,
        block: u32,
        identifier: &Identifier,
        entry: Entry,
        declared: Option<DeclNo>,
    ) -> Result<(), AllocError>
        ensures { OnOk result (self.new ≡ declared_again self.old identifier.now entry block declared) }
    {
        match declared {
            Some(first) => {
                if is_match(entry, self.entry_of(first)) {
                    self.set_match(first)?;
                    self.list(alloc, block, identifier, entry, false)
                } else {
                    self.declare_twice(identifier, declared);
                    Ok(())
                }
            }
            None => {
                self.declare_twice(identifier, declared);
                Ok(())
            }
        }
    }

    /// A block declares an identifier that it has already.
    #[tactic(auto, unfolding(crate::specs::Building::marked))]
    fn declare_twice(&mut self, identifier: &Identifier, declared: Option<DeclNo>)
        ensures { self.new ≡ declared_twice self.old identifier.now declared }
    {
        self.latest = declared;
        self.note(identifier.token, Rule::DeclaredTwice);
    }

    /// The next declaration matches a virtual procedure.
    fn set_match(&mut self, procedure: DeclNo) -> Result<(), AllocError>
        ensures { OnOk result (self.new ≡ match_known self.old procedure) }
    {
        let Ok(number) = u32::try_from(self.declarations.len()) else {
            return Err(AllocError);
        };
        if let Some(row) = self.declarations.get_mut(procedure.0 as usize) {
            row.entry = matching(row.entry, DeclNo(number));
        }
        Ok(())
    }

    /// What a declaration declares.
    #[tactic(auto, unfolding(crate::specs::Scopes::entry_of))]
    fn entry_of(&self, declaration: DeclNo) -> Option<Entry>
        ensures { result ≡ entry_of self.now.tables declaration }
    {
        match self.declarations.get(declaration.0 as usize) {
            Some(row) => Some(row.entry),
            None => None,
        }
    }

    /// The innermost open block declares a procedure, whose block is the next one.
    #[tactic(auto, unfolding(crate::specs::Building::marked))]
    pub(crate) fn declare_procedure(
        &mut self,
        alloc: Global,
        identifier: &Identifier,
        result_type: Option<SimType>,
    ) -> Result<(), AllocError>
        ensures { OnOk result (self.new ≡ marked self.old (DeclaresProcedure identifier.now result_type)) }
    {
        let Ok(block) = u32::try_from(self.blocks.len()) else {
            return Err(AllocError);
        };
        self.declare(
            alloc,
            identifier,
            Entry::Procedure {
                result: result_type,
                block,
            },
        )
    }

    /// The innermost open block declares a class, whose block is the next one.
    #[tactic(auto, unfolding(crate::specs::Building::marked))]
    pub(crate) fn declare_class(
        &mut self,
        alloc: Global,
        identifier: &Identifier,
    ) -> Result<(), AllocError>
        ensures { OnOk result (self.new ≡ marked self.old (DeclaresClass identifier.now)) }
    {
        let Ok(block) = u32::try_from(self.blocks.len()) else {
            return Err(AllocError);
        };
        let current = self.current;
        self.declare(alloc, identifier, Entry::Class { block })?;
        self.hold_class(current);
        Ok(())
    }

    /// A block has a class among its declarations.
    fn hold_class(&mut self, block: Option<u32>)
        ensures { self.new ≡ changed self.old holding_class block }
    {
        if let Some(block) = block {
            if (block as usize) < self.blocks.len() {
                self.blocks[block as usize].hold_class();
            }
        }
    }

    /// An `inner` in the statement list of a class's body.
    #[tactic(auto, unfolding(crate::specs::Building::marked))]
    pub(crate) fn inner(&mut self, token: TokenNo)
        ensures { self.new ≡ marked self.old (Inner token.0) }
    {
        if let Some(block) = self.current {
            self.set_inner(token, block);
        }
    }

    #[tactic(auto, unfolding(crate::specs::Building::marked))]
    fn set_inner(&mut self, token: TokenNo, block: u32)
        ensures { self.new ≡ inner_at self.old token.0 block (slice_get self.old.tables.blocks block) }
    {
        if block as usize >= self.blocks.len() {
            return;
        }
        match self.blocks[block as usize].inner() {
            Some(_) => self.note(token, Rule::InnerOutOfPlace),
            None => self.blocks[block as usize].set_inner(token),
        }
    }
}
