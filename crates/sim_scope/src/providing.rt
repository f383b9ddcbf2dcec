//! What stands in front of blocks and in the interfaces of classes: prefixes, with what `simset` and `simulation` declare, the classes of
//! references, and protection parts.
ghost use Rattle.std.specs.Prelude.{◌≡◌, ◌+◌, false, length, slice_get, IfOk, OnOk};
ghost use Rattle.std.specs.List.{list_any};
ghost use Rattle.std.specs.Str.{bytes_eq};
ghost use Rattle.sim_scope.specs.Building.{Brings, Prefixes, Protects, Provides, Qualifies, attribute_entry, brings_at, brings_new, class_row, class_type, first_brought, guards_at, holding_class, marked, name_of, place_of, prefixed_by, protecting, provided_alone, provided_in, standard_base, standard_row, typed, typed_or_none, with_brought, with_once};

use crate::building::Building;
use crate::names::Names;
use crate::provided::class_typed;
use crate::scopes::{Block, Declaration, Protection, Qualification};
use crate::standard::plain_type;
use crate::types::{BlockKind, Entry, SimType, StandardClass};
use sim_base::{ByteString, DeclNo, TokenNo};
use sim_tree::Identifier;
use sim_values::{Standard, StandardType};
use std::alloc::{AllocError, Global};

/// The name of a standard class, in lower case.
fn name_of(class: StandardClass) -> &'static str
    ensures { result.now ≡ name_of class }
{
    match class {
        StandardClass::Linkage => "linkage",
        StandardClass::Link => "link",
        StandardClass::Head => "head",
        StandardClass::Process => "process",
    }
}

/// The place of a standard class among those that the same prefix declares.
fn place_of(class: StandardClass) -> u32
    ensures { result ≡ place_of class }
{
    match class {
        StandardClass::Linkage => 0,
        StandardClass::Link => 1,
        StandardClass::Head => 2,
        StandardClass::Process => 3,
    }
}

/// A number behind another.
fn behind(number: u32, places: u32) -> Result<u32, AllocError>
    ensures { IfOk result (λ sum. sum ≡ number + places) }
{
    match number.checked_add(places) {
        Some(sum) => Ok(sum),
        None => Err(AllocError),
    }
}

/// The block of the prefix of a standard class, where the classes stand behind this block.
fn standard_base(class: StandardClass, block: u32) -> Result<Option<u32>, AllocError>
    ensures { IfOk result (λ base. base ≡ standard_base class block) }
{
    match class {
        StandardClass::Linkage => Ok(None),
        StandardClass::Link => Ok(Some(behind(block, 1)?)),
        StandardClass::Head => Ok(Some(behind(block, 1)?)),
        StandardClass::Process => Ok(Some(behind(block, 2)?)),
    }
}

/// References of a standard class, where this is the declaration of the first one.
fn class_type(first: Option<DeclNo>, class: StandardClass) -> Result<SimType, AllocError>
    ensures { IfOk result (λ ty. ty ≡ class_type first class) }
{
    match first {
        Some(first) => Ok(SimType::Ref(DeclNo(behind(first.0, place_of(class))?))),
        None => Ok(SimType::NoneType),
    }
}

fn typed(first: Option<DeclNo>, ty: StandardType) -> Result<SimType, AllocError>
    ensures { IfOk result (λ made. made ≡ typed first ty) }
{
    match class_typed(ty) {
        Some(class) => class_type(first, class),
        None => Ok(plain_type(ty)),
    }
}

fn typed_or_none(
    first: Option<DeclNo>,
    ty: Option<StandardType>,
) -> Result<Option<SimType>, AllocError>
    ensures { IfOk result (λ made. made ≡ typed_or_none first ty) }
{
    match ty {
        Some(ty) => Ok(Some(typed(first, ty)?)),
        None => Ok(None),
    }
}

/// What an attribute is, where this is the declaration of the first standard class.
fn attribute_entry(first: Option<DeclNo>, name: Standard) -> Result<Entry, AllocError>
    ensures { IfOk result (λ entry. entry ≡ attribute_entry first name) }
{
    let parameter = typed_or_none(first, name.parameters().get(0).copied())?;
    let ty = typed_or_none(first, name.result())?;
    Ok(Entry::Attribute {
        name,
        parameter,
        result: ty,
    })
}

/// Adds an identifier at the end, if it is wanted and isn't among them.
fn add_once(alloc: Global, names: &mut Names, wanted: bool, name: &[u8]) -> Result<(), AllocError>
    ensures { OnOk result (names.new ≡ with_once names.old wanted name.now) }
{
    if wanted {
        names.add(Vec::from_slice(alloc, name)?)?;
    }
    Ok(())
}

impl Block {
    /// It has a class among its declarations.
    pub(crate) fn hold_class(&mut self)
        ensures { self.new ≡ holding_class self.old }
    {
        self.has_class = true;
    }

    /// The class identifier in front of it.
    fn set_prefix(&mut self, class: Identifier)
        ensures { self.new ≡ prefixed_by class self.old }
    {
        self.prefix = Some(class);
    }

    /// One more name that its standard prefix declares.
    fn bring(&mut self, name: Vec<u8>, number: DeclNo) -> Result<(), AllocError>
        requires new { list_any (bytes_eq name.items) self.old.brought_names ≡ false }
        ensures block { OnOk result (self.new ≡ with_brought name.items number self.old) }
    {
        self.brought_names.add(name)?;
        self.brought.push(number)?;
        Ok(())
    }

    /// It hides or protects an attribute.
    fn protect(
        &mut self,
        alloc: Global,
        hides: bool,
        keeps: bool,
        name: &[u8],
    ) -> Result<(), AllocError>
        ensures { OnOk result (self.new ≡ protecting hides keeps name.now self.old) }
    {
        add_once(alloc, &mut self.protected, keeps, name)?;
        add_once(alloc, &mut self.hidden, hides, name)
    }
}

/// The block of a standard class that this block declares.
fn class_row(
    alloc: Global,
    class: StandardClass,
    block: u32,
    outer: &Block,
    number: DeclNo,
) -> Result<Block, AllocError>
    ensures { IfOk result (λ row. row ≡ class_row class block outer.now number) }
{
    Ok(Block {
        kind: BlockKind::StandardClass(class),
        first: TokenNo(0),
        end: TokenNo(0),
        encloser: Some(block),
        level: behind(outer.level, 1)?,
        owner: Some(number),
        formals: 0,
        inner: None,
        prefix: None,
        base: standard_base(class, block)?,
        standard: None,
        names: Names::new(alloc),
        numbers: Vec::new(alloc),
        has_class: false,
        brought_names: Names::new(alloc),
        brought: Vec::new(alloc),
        protected: Names::new(alloc),
        hidden: Names::new(alloc),
    })
}

/// The declaration of what a standard prefix brings.
fn standard_row(
    alloc: Global,
    name: &str,
    token: TokenNo,
    block: u32,
    entry: Entry,
    listed: bool,
) -> Result<Declaration, AllocError>
    ensures { IfOk result (λ row. row ≡ standard_row name.now token.0 block entry listed) }
{
    let name = ByteString::new(Vec::from_slice(alloc, name.as_bytes())?);
    Ok(Declaration {
        name,
        token,
        block,
        entry,
        listed,
    })
}

fn copy_of(alloc: Global, identifier: &Identifier) -> Result<Identifier, AllocError>
    ensures { IfOk result (λ copy. copy ≡ identifier.now) }
{
    let name = identifier.name.copy(alloc)?;
    Ok(Identifier {
        token: identifier.token,
        name,
    })
}

impl Building {
    /// The declaration met last is of references to a class.
    #[tactic(auto, unfolding(crate::specs::Building::marked))]
    pub(crate) fn qualify(&mut self, alloc: Global, class: &Identifier) -> Result<(), AllocError>
        ensures { OnOk result (self.new ≡ marked self.old (Qualifies class.now)) }
    {
        if let Some(declaration) = self.latest {
            let class = copy_of(alloc, class)?;
            self.qualifications
                .push(Qualification { declaration, class })?;
        }
        Ok(())
    }

    /// The innermost open block has a class in front of it.
    #[tactic(auto, unfolding(crate::specs::Building::marked))]
    pub(crate) fn prefix(&mut self, alloc: Global, class: &Identifier) -> Result<(), AllocError>
        ensures { OnOk result (self.new ≡ marked self.old (Prefixes class.now)) }
    {
        let class = copy_of(alloc, class)?;
        if let Some(block) = self.current {
            if (block as usize) < self.blocks.len() {
                self.blocks[block as usize].set_prefix(class);
            }
        }
        Ok(())
    }

    /// A standard class that the prefix of the innermost open block declares.
    #[tactic(auto, unfolding(crate::specs::Building::marked))]
    pub(crate) fn bring(
        &mut self,
        alloc: Global,
        class: StandardClass,
        token: TokenNo,
    ) -> Result<(), AllocError>
        ensures { OnOk result (self.new ≡ marked self.old (Brings class token.0)) }
    {
        match self.current {
            Some(block) => self.bring_in(alloc, class, token, block),
            None => Ok(()),
        }
    }

    fn bring_in(
        &mut self,
        alloc: Global,
        class: StandardClass,
        token: TokenNo,
        block: u32,
    ) -> Result<(), AllocError>
        ensures { OnOk result (self.new ≡ brings_at self.old class token.0 block (slice_get self.old.tables.blocks block)) }
    {
        if block as usize >= self.blocks.len() {
            return Ok(());
        }
        let name = name_of(class).as_bytes();
        if self.blocks[block as usize].brought_names.contains(name) {
            return Ok(());
        }
        let Ok(number) = u32::try_from(self.declarations.len()) else {
            return Err(AllocError);
        };
        let Ok(home) = u32::try_from(self.blocks.len()) else {
            return Err(AllocError);
        };
        let made = class_row(
            alloc,
            class,
            block,
            &self.blocks[block as usize],
            DeclNo(number),
        )?;
        let name = Vec::from_slice(alloc, name)?;
        self.blocks[block as usize].bring(name, DeclNo(number))?;
        self.blocks.push(made)?;
        let entry = Entry::Class { block: home };
        let row = standard_row(alloc, name_of(class), token, block, entry, false)?;
        self.declarations.push(row)?;
        Ok(())
    }

    /// The first standard class that the prefix of a block declares.
    fn first_brought(&self, block: u32) -> Option<DeclNo>
        ensures { result ≡ first_brought (slice_get self.now.tables.blocks block) }
    {
        self.blocks.get(block as usize)?.brought.first().copied()
    }

    /// An attribute that the prefix of the innermost open block declares.
    #[tactic(auto, unfolding(crate::specs::Building::marked))]
    pub(crate) fn provide(
        &mut self,
        alloc: Global,
        class: Option<StandardClass>,
        name: Standard,
        token: TokenNo,
    ) -> Result<(), AllocError>
        ensures { OnOk result (self.new ≡ marked self.old (Provides class name token.0)) }
    {
        let Some(block) = self.current else {
            return Ok(());
        };
        let first = self.first_brought(block);
        match class {
            Some(class) => {
                let home = behind(behind(block, 1)?, place_of(class))?;
                self.provide_in(alloc, name, token, first, home)
            }
            None => self.provide_alone(alloc, name, token, first, block),
        }
    }

    /// An attribute of `simulation` itself.
    fn provide_alone(
        &mut self,
        alloc: Global,
        name: Standard,
        token: TokenNo,
        first: Option<DeclNo>,
        block: u32,
    ) -> Result<(), AllocError>
        ensures { OnOk result (self.new ≡ provided_alone self.old name token.0 first block (slice_get self.old.tables.blocks block)) }
    {
        if block as usize >= self.blocks.len() {
            return Ok(());
        }
        let word = name.spelling().as_bytes();
        if self.blocks[block as usize].brought_names.contains(word) {
            return Ok(());
        }
        let Ok(number) = u32::try_from(self.declarations.len()) else {
            return Err(AllocError);
        };
        let entry = attribute_entry(first, name)?;
        self.blocks[block as usize].bring(Vec::from_slice(alloc, word)?, DeclNo(number))?;
        let row = standard_row(alloc, name.spelling(), token, block, entry, false)?;
        self.declarations.push(row)?;
        Ok(())
    }

    /// An attribute of a standard class.
    fn provide_in(
        &mut self,
        alloc: Global,
        name: Standard,
        token: TokenNo,
        first: Option<DeclNo>,
        block: u32,
    ) -> Result<(), AllocError>
        ensures { OnOk result (self.new ≡ provided_in self.old name token.0 first block (slice_get self.old.tables.blocks block)) }
    {
        if block as usize >= self.blocks.len() {
            return Ok(());
        }
        let word = name.spelling().as_bytes();
        if self.blocks[block as usize].has(word) {
            return Ok(());
        }
        let Ok(number) = u32::try_from(self.declarations.len()) else {
            return Err(AllocError);
        };
        let entry = attribute_entry(first, name)?;
        self.blocks[block as usize].add(Vec::from_slice(alloc, word)?, DeclNo(number))?;
        let row = standard_row(alloc, name.spelling(), token, block, entry, true)?;
        self.declarations.push(row)?;
        Ok(())
    }

    /// The innermost open block, that of a class, hides or protects an attribute.
    #[tactic(auto, unfolding(crate::specs::Building::marked))]
    pub(crate) fn protect(
        &mut self,
        alloc: Global,
        hides: bool,
        keeps: bool,
        attribute: &Identifier,
    ) -> Result<(), AllocError>
        ensures { OnOk result (self.new ≡ marked self.old (Protects hides keeps attribute.now)) }
    {
        match self.current {
            Some(block) => self.protect_in(alloc, hides, keeps, attribute, block),
            None => Ok(()),
        }
    }

    fn protect_in(
        &mut self,
        alloc: Global,
        hides: bool,
        keeps: bool,
        attribute: &Identifier,
        block: u32,
    ) -> Result<(), AllocError>
        ensures { OnOk result (self.new ≡ guards_at self.old hides keeps attribute.now block (slice_get self.old.tables.blocks block)) }
    {
        if block as usize >= self.blocks.len() {
            return Ok(());
        }
        self.blocks[block as usize].protect(alloc, hides, keeps, attribute.name.as_bytes())?;
        let attribute = copy_of(alloc, attribute)?;
        self.protections.push(Protection {
            block,
            attribute,
            hides,
            protects: keeps,
        })?;
        Ok(())
    }
}
