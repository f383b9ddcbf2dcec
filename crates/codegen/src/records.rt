//! Records of blocks: what the frames of a text hold.
ghost use Rattle.std.specs.List.{list_any};
ghost use Rattle.std.specs.Prelude.{◌≡◌, IfOk, OnOk, Some};
ghost use Rattle.sim_code.specs.declared.code.CodeType.{CodeType as CodeTypeOf};
ghost use Rattle.sim_meaning.specs.Entries.{numbers_of};
ghost use Rattle.sim_meaning.specs.Texts.{has_class_in, is_class_free as is_class_free_of, is_class_kind as is_class_kind_of};
ghost use Rattle.sim_scope.specs.Source.{source_of};
ghost use Rattle.codegen_expr.specs.Known.{Known, is_hidden};
ghost use Rattle.codegen.specs.Compiled.{code_mode as code_mode_of, code_shape as code_shape_of, type_of_cell, type_of_name as type_of_name_of};
ghost use Rattle.codegen.specs.EmitProgram.{CellTypes, FormalGiven, FormalsGiven, HidesCells, HidesConnections, Padded, PushesCell, PushesCells, PushesResult, class_inside, formals_by_kind, type_of_formal, type_of_simple, with_hidden};

use crate::texts::Head;
use codegen_expr::{
    Cells, Draft, class_or_none, class_parameters, code_type, formals_of_block, is_kept_in,
    is_process, qualification,
};
use sim_base::DeclNo;
use sim_code::{BlockKind as CodeBlock, CodeFormal, CodeMode, CodeType, FormalShape};
use sim_scope::{Block, BlockKind, Bound, Entry, Formal, FormalKind, Mode, entry_of};
use sim_tree::TypeName;
use std::alloc::{AllocError, Global};

/// The type of a result, as code has it.
pub(crate) fn type_of_name(name: &Option<TypeName>) -> CodeType
    ensures { result ≡ type_of_name_of name.now }
{
    match name {
        None => CodeType::Nothing,
        Some(TypeName::Integer(_)) => CodeType::Integer,
        Some(TypeName::Boolean(_)) => CodeType::Boolean,
        Some(TypeName::Character(_)) => CodeType::Character,
        Some(TypeName::Text(_)) => CodeType::Text,
        Some(TypeName::Reference { .. }) => CodeType::Reference,
    }
}

/// What the cell of a formal parameter holds at the entry: that of a simple one a value of its type, unless it is by name.
#[tactic(auto, using(crate::proofs::Heads::formal_cells))]
fn formal_cell(formal: Formal) -> CodeType
    ensures { result ≡ type_of_formal formal.mode formal.kind formal.ty }
{
    match formal.mode {
        Mode::ByName => CodeType::Nothing,
        Mode::ByValue => simple_type(formal),
        Mode::ByReference => simple_type(formal),
    }
}

/// The type of a formal parameter, if it is simple.
#[tactic(auto, using(crate::proofs::Heads::formal_cells))]
fn simple_type(formal: Formal) -> CodeType
    ensures { result ≡ type_of_simple formal.kind formal.ty }
{
    match formal.kind {
        FormalKind::Simple => code_type(formal.ty),
        FormalKind::Array => CodeType::Nothing,
        FormalKind::Procedure => CodeType::Nothing,
    }
}

/// The cell of a declaration, if it has one.
#[tactic(auto, using(crate::proofs::Heads::heads))]
fn push_cell(types: &mut Vec<CodeType>, entry: Option<Entry>) -> Result<(), AllocError>
    ensures { OnOk result (PushesCell types.old.items types.new.items entry) }
{
    match entry {
        Some(Entry::Variable(ty)) => {
            types.push(code_type(Some(ty)))?;
            Ok(())
        }
        Some(Entry::Constant(_)) => {
            types.push(CodeType::Nothing)?;
            Ok(())
        }
        Some(Entry::Array { .. }) => {
            types.push(CodeType::Nothing)?;
            Ok(())
        }
        Some(Entry::Formal(formal)) => {
            types.push(formal_cell(formal))?;
            Ok(())
        }
        Some(Entry::Procedure { .. }) => Ok(()),
        Some(Entry::Class { .. }) => Ok(()),
        Some(Entry::Virtual { .. }) => Ok(()),
        Some(Entry::Attribute { .. }) => Ok(()),
        Some(Entry::Unspecified { .. }) => Ok(()),
        None => Ok(()),
    }
}

/// What the first cell of a text holds that has a result.
#[tactic(auto, using(crate::proofs::Heads::heads))]
fn push_result(types: &mut Vec<CodeType>, result_type: &Option<TypeName>) -> Result<(), AllocError>
    ensures { OnOk result (PushesResult types.old.items types.new.items result_type.now) }
{
    match result_type {
        None => Ok(()),
        Some(_) => {
            types.push(type_of_name(result_type))?;
            Ok(())
        }
    }
}

/// The cells of declarations, one after the other.
fn push_cells(bound: &Bound, types: &mut Vec<CodeType>, list: &[DeclNo]) -> Result<(), AllocError>
    ensures { OnOk result (PushesCells bound.now types.old.items types.new.items list.now) }
{
    for item in list {
        push_cell(types, entry_of(&bound.scopes, *item))?;
    }
    Ok(())
}

/// The declarations of a block.
#[tactic(auto, unfolding(sim_scope::specs::Source::source_of))]
fn numbers<'a>(bound: &'a Bound, block: u32) -> &'a [DeclNo]
    ensures { result.now ≡ numbers_of (source_of bound.now) block }
{
    match bound.scopes.blocks().get(block as usize) {
        Some(block) => block.numbers(),
        None => &[],
    }
}

/// What the cells of a text hold at the entry, without temps.
#[tactic(auto, using(crate::proofs::Heads::heads))]
pub(crate) fn cell_types(
    alloc: Global,
    bound: &Bound,
    text: u32,
    result_type: &Option<TypeName>,
) -> Result<Vec<CodeType>, AllocError>
    ensures { IfOk result (λ types. CellTypes bound.now text result_type.now types.items) }
{
    let mut types = Vec::new(alloc);
    push_result(&mut types, result_type)?;
    push_cells(bound, &mut types, numbers(bound, text))?;
    Ok(types)
}

/// Whether a block is a class or has a class in front of it.
fn is_class_kind(kind: BlockKind) -> bool
    ensures { result ≡ is_class_kind_of kind }
{
    match kind {
        BlockKind::Program => false,
        BlockKind::SubBlock => false,
        BlockKind::Procedure => false,
        BlockKind::Class => true,
        BlockKind::Prefixed => true,
        BlockKind::Connection => false,
        BlockKind::StandardClass(_) => true,
    }
}

/// Whether a block inside another one, or that one itself, is such a block.
fn has_inside(row: &Block, block: &Block) -> bool
    ensures { result ≡ class_inside row.now block.now }
{
    is_class_kind(block.kind()) && row.first().0 <= block.first().0 && block.first().0 < row.end().0
}

/// Whether a block, or one of these inside it, is a class or has a class in front of it. Time is linear in their number.
pub fn holds_class(row: &Block, blocks: &[Block]) -> bool
    ensures { result ≡ has_class_in (Some row.now) blocks.now }
{
    is_class_kind(row.kind()) || any_inside(row, blocks)
}

/// Whether one of these blocks that is inside a block is a class or has a class in front of it.
fn any_inside(row: &Block, blocks: &[Block]) -> bool
    ensures { result ≡ list_any (class_inside row.now) blocks.now }
{
    for block in blocks {
        if has_inside(row, block) {
            return true;
        }
    }
    false
}

/// Whether a text is no class and has no prefix, and no block in it is or has one. Time is linear in the number of blocks.
#[tactic(auto, unfolding(sim_scope::specs::Source::source_of, sim_meaning::specs::Texts::is_class_free))]
pub(crate) fn is_class_free(bound: &Bound, text: u32) -> bool
    ensures { result ≡ is_class_free_of (source_of bound.now) text }
{
    match bound.scopes.blocks().get(text as usize) {
        Some(row) => !holds_class(row, bound.scopes.blocks()),
        None => true,
    }
}

/// A number as the tables of code have it.
pub(crate) fn number(count: usize) -> Result<u32, AllocError>
    ensures { IfOk result (λ n. n ≡ count) }
{
    u32::try_from(count).map_err(|_| AllocError)
}

/// The cell of a connection, if it lies in the frames of a text.
#[tactic(auto, using(crate::proofs::Heads::hides))]
fn hide(bound: &Bound, block: u32, text: u32, types: &mut Vec<CodeType>) -> Result<(), AllocError>
    ensures { OnOk result (types.new.items ≡ with_hidden (is_hidden (source_of bound.now) text block) types.old.items) }
{
    if is_kept_in(bound, block, text) {
        types.push(CodeType::Nothing)?;
        return Ok(());
    }
    Ok(())
}

/// The cells of the connections that stand in a text, which hold nothing at the entry.
fn hide_connections(bound: &Bound, text: u32, types: &mut Vec<CodeType>) -> Result<(), AllocError>
    ensures { OnOk result (HidesConnections bound.now types.old.items types.new.items text) }
{
    for index in 0..bound.scopes.block_count() {
        let block = number(index)?;
        hide(bound, block, text, types)?;
    }
    Ok(())
}

/// All cells of a text that cost no words: those of connections, and of the class `process` that of an origin.
#[tactic(auto, using(crate::proofs::Heads::origins))]
pub(crate) fn hide_cells(
    bound: &Bound,
    cells: &Cells,
    text: u32,
    types: &mut Vec<CodeType>,
) -> Result<(), AllocError>
    requires cells { Known bound.now cells.now }
    ensures { OnOk result (HidesCells bound.now types.old.items types.new.items text) }
{
    hide_connections(bound, text, types)?;
    if is_process(bound, cells, text) {
        types.push(CodeType::Integer)?;
        return Ok(());
    }
    Ok(())
}

/// Temps behind the cells, up to a size.
pub(crate) fn pad(types: &mut Vec<CodeType>, size: usize) -> Result<(), AllocError>
    ensures { OnOk result (Padded types.old.items types.new.items size) }
{
    for done in types.len()..size {
        types.push(CodeType::Nothing)?;
    }
    Ok(())
}

fn code_mode(mode: Mode) -> CodeMode
    ensures { result ≡ code_mode_of mode }
{
    match mode {
        Mode::ByValue => CodeMode::Value,
        Mode::ByReference => CodeMode::Reference,
        Mode::ByName => CodeMode::Name,
    }
}

fn code_shape(kind: FormalKind) -> FormalShape
    ensures { result ≡ code_shape_of kind }
{
    match kind {
        FormalKind::Simple => FormalShape::Simple,
        FormalKind::Array => FormalShape::Array,
        FormalKind::Procedure => FormalShape::Procedure,
    }
}

/// A formal parameter as code has it.
#[tactic(auto, using(crate::proofs::Heads::formals))]
fn code_formal(bound: &Bound, cells: &Cells, draft: &Draft, formal: Formal) -> CodeFormal
    requires cells { Known bound.now cells.now }
    ensures { FormalGiven bound.now draft.now formal result }
{
    let class = class_or_none(bound, cells, draft, qualification(bound, cells, formal.ty));
    CodeFormal {
        mode: code_mode(formal.mode),
        shape: code_shape(formal.kind),
        code_type: code_type(formal.ty),
        class,
    }
}

/// The formal parameters of a text, those of a class of all its levels.
#[tactic(auto, using(crate::proofs::Heads::formals))]
fn formals_of_head<'a>(bound: &Bound, cells: &'a Cells, head: Head) -> &'a [Formal]
    requires cells { Known bound.now cells.now }
    ensures { result.now ≡ formals_by_kind (source_of bound.now) head.kind head.text }
{
    match head.kind {
        CodeBlock::Object => class_parameters(bound, cells, Some(head.text)),
        CodeBlock::Prefixed => class_parameters(bound, cells, Some(head.text)),
        CodeBlock::SubBlock => formals_of_block(bound, cells, head.text),
        CodeBlock::Procedure => formals_of_block(bound, cells, head.text),
    }
}

/// The formal parameters of a text as code has them.
pub(crate) fn code_formals(
    alloc: Global,
    bound: &Bound,
    cells: &Cells,
    draft: &Draft,
    head: Head,
) -> Result<Vec<CodeFormal>, AllocError>
    requires cells { Known bound.now cells.now }
    ensures { IfOk result (λ formals. FormalsGiven bound.now draft.now (formals_by_kind (source_of bound.now) head.kind head.text) formals.items) }
{
    let mut formals = Vec::new(alloc);
    let list = formals_of_head(bound, cells, head);
    for formal in list {
        formals.push(code_formal(bound, cells, draft, *formal))?;
    }
    Ok(formals)
}
