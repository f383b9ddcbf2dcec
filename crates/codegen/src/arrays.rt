//! Arrays at the entry of a block.
ghost use Rattle.std.specs.Prelude.{◌≡◌, IfOk, OnOk, drop, pos};
ghost use Rattle.sim_code.specs.declared.instr.Instr.TheVariants as i;
ghost use Rattle.sim_meaning.specs.Texts.{kind_named};
ghost use Rattle.codegen_expr.specs.Known.{Known};
ghost use Rattle.codegen_expr.specs.Sites.{is_constant as is_constant_of};
ghost use Rattle.text_tables.specs.TokenTable.{AreDeclared};
ghost use Rattle.codegen.specs.CodeArrays.{element_number as element_number_of};
ghost use Rattle.codegen.specs.EmitArrays.{FindsKept, PutsArrays, WritesArrays, WritesBounds, WritesFurther, WritesKeep, WritesLoad, WritesMade, WritesSegment, WritesSegments};

use crate::places::{put_load, put_store};
use codegen_expr::{Cells, Draft, Spot, block_of, deeper, emit_expr, line_at, slot_of};
use sim_base::{DeclNo, Line, TokenNo};
use sim_code::Instr;
use sim_scope::{Bound, Entry, entry_of};
use sim_tree::{ArraySegment, Bounds, Decl, Identifier, TypeName};
use std::alloc::AllocError;
use text_tables::declared_at;

/// The number that code has for a type of elements.
fn element_number(name: &TypeName) -> i64
    ensures { result ≡ element_number_of (kind_named name.now) }
{
    match name {
        TypeName::Integer(_) => 1,
        TypeName::Boolean(_) => 2,
        TypeName::Character(_) => 3,
        TypeName::Text(_) => 4,
        TypeName::Reference { .. } => 5,
    }
}

/// Whether a constant is declared.
fn is_constant(entry: Option<Entry>) -> bool
    ensures { result ≡ is_constant_of entry }
{
    match entry {
        Some(Entry::Constant(_)) => true,
        Some(Entry::Variable(_)) => false,
        Some(Entry::Array { .. }) => false,
        Some(Entry::Formal(_)) => false,
        Some(Entry::Procedure { .. }) => false,
        Some(Entry::Class { .. }) => false,
        Some(Entry::Virtual { .. }) => false,
        Some(Entry::Attribute { .. }) => false,
        Some(Entry::Unspecified { .. }) => false,
        None => false,
    }
}

/// The cell of an array that is declared at a token, if it stands in this text.
#[tactic(auto, using(crate::proofs::Declared::declared))]
fn find_kept(
    bound: &Bound,
    cells: &Cells,
    declared: &[Option<DeclNo>],
    spot: Spot,
    token: TokenNo,
) -> Option<u32>
    requires cells { Known bound.now cells.now }
    requires declared { AreDeclared bound.now declared.now }
    ensures { FindsKept bound.now spot token result }
{
    let Some(declaration) = declared_at(bound, declared, token) else {
        return None;
    };
    if block_of(bound, declaration) != spot.text {
        return None;
    }
    if is_constant(entry_of(&bound.scopes, declaration)) {
        return None;
    }
    slot_of(bound, cells, declaration)
}

/// The array on top goes into its cell.
#[tactic(auto, using(crate::proofs::Declared::declared))]
fn emit_keep(
    bound: &Bound,
    cells: &Cells,
    declared: &[Option<DeclNo>],
    spot: Spot,
    draft: &mut Draft,
    token: TokenNo,
) -> Result<(), AllocError>
    requires cells { Known bound.now cells.now }
    requires declared { AreDeclared bound.now declared.now }
    ensures { OnOk result (WritesKeep bound.now spot draft.old draft.new token) }
{
    let Some(place) = find_kept(bound, cells, declared, spot, token) else {
        draft.give_up();
        return Ok(());
    };
    put_store(bound, cells, draft, spot.text, place)?;
    Ok(())
}

/// The array in a cell.
#[tactic(auto, using(crate::proofs::Declared::declared))]
fn emit_load(
    bound: &Bound,
    cells: &Cells,
    declared: &[Option<DeclNo>],
    spot: Spot,
    draft: &mut Draft,
    token: TokenNo,
) -> Result<(), AllocError>
    requires cells { Known bound.now cells.now }
    requires declared { AreDeclared bound.now declared.now }
    ensures { OnOk result (WritesLoad bound.now spot draft.old draft.new token) }
{
    let Some(place) = find_kept(bound, cells, declared, spot, token) else {
        draft.give_up();
        return Ok(());
    };
    put_load(bound, cells, draft, 0, spot.text, place)?;
    Ok(())
}

/// The arrays of a segment behind the first, each a copy of that one.
fn emit_further(
    bound: &Bound,
    cells: &Cells,
    declared: &[Option<DeclNo>],
    spot: Spot,
    draft: &mut Draft,
    first: TokenNo,
    names: &[Identifier],
) -> Result<(), AllocError>
    requires cells { Known bound.now cells.now }
    requires declared { AreDeclared bound.now declared.now }
    ensures { OnOk result (WritesFurther bound.now spot draft.old draft.new first (drop 1 names.now)) }
{
    for index in 1..names.len() {
        let item = &names[index];
        emit_load(bound, cells, declared, spot, draft, first)?;
        draft.put(Instr::CopyArr, line_at(bound, item.token))?;
        emit_keep(bound, cells, declared, spot, draft, item.token)?;
    }
    Ok(())
}

/// Bounds, two values for each dimension.
fn emit_bounds(
    bound: &Bound,
    cells: &Cells,
    spot: Spot,
    draft: &mut Draft,
    bounds: &[Bounds],
) -> Result<(), AllocError>
    requires cells { Known bound.now cells.now }
    ensures { OnOk result (WritesBounds bound.now spot 0 draft.old draft.new bounds.now) }
{
    let mut depth = 0;
    for item in bounds {
        emit_expr(bound, cells, spot, draft, depth, &item.lower)?;
        let inside = deeper(depth)?;
        emit_expr(bound, cells, spot, draft, inside, &item.upper)?;
        depth = deeper(inside)?;
    }
    Ok(())
}

/// The instruction that makes an array of so many dimensions.
fn array(element: i64, dimensions: usize) -> Result<Instr, AllocError>
    ensures { IfOk result (λ x. x ≡ i.Array element (pos dimensions)) }
{
    let dimensions = i64::try_from(dimensions).map_err(|_| AllocError)?;
    Ok(Instr::Array {
        element,
        dimensions,
    })
}

/// Arrays whose bounds are on the stack.
#[tactic(auto, using(crate::proofs::Declared::declared))]
fn emit_made(
    bound: &Bound,
    cells: &Cells,
    declared: &[Option<DeclNo>],
    spot: Spot,
    draft: &mut Draft,
    type_name: &TypeName,
    dimensions: usize,
    names: &[Identifier],
) -> Result<(), AllocError>
    requires cells { Known bound.now cells.now }
    requires declared { AreDeclared bound.now declared.now }
    ensures { OnOk result (WritesMade bound.now spot draft.old draft.new type_name.now dimensions names.now) }
{
    if names.len() == 0 {
        draft.give_up();
        return Ok(());
    }
    if dimensions == 0 {
        draft.give_up();
        return Ok(());
    }
    let first = &names[0];
    draft.push(
        0,
        array(element_number(type_name), dimensions)?,
        line_at(bound, first.token),
    )?;
    emit_keep(bound, cells, declared, spot, draft, first.token)?;
    emit_further(bound, cells, declared, spot, draft, first.token, names)?;
    Ok(())
}

/// Arrays with the same bounds.
#[tactic(auto, using(crate::proofs::Declared::declared))]
fn emit_segment(
    bound: &Bound,
    cells: &Cells,
    declared: &[Option<DeclNo>],
    spot: Spot,
    draft: &mut Draft,
    type_name: &TypeName,
    segment: &ArraySegment,
) -> Result<(), AllocError>
    requires cells { Known bound.now cells.now }
    requires declared { AreDeclared bound.now declared.now }
    ensures { OnOk result (WritesSegment bound.now spot draft.old draft.new type_name.now segment.now) }
{
    emit_bounds(bound, cells, spot, draft, &segment.bounds)?;
    emit_made(
        bound,
        cells,
        declared,
        spot,
        draft,
        type_name,
        segment.bounds.len(),
        &segment.names,
    )?;
    Ok(())
}

/// Segments of one type, one behind another.
fn emit_segments(
    bound: &Bound,
    cells: &Cells,
    declared: &[Option<DeclNo>],
    spot: Spot,
    draft: &mut Draft,
    type_name: &TypeName,
    segments: &[ArraySegment],
) -> Result<(), AllocError>
    requires cells { Known bound.now cells.now }
    requires declared { AreDeclared bound.now declared.now }
    ensures { OnOk result (WritesSegments bound.now spot draft.old draft.new type_name.now segments.now) }
{
    for item in segments {
        emit_segment(bound, cells, declared, spot, draft, type_name, item)?;
    }
    Ok(())
}

/// The arrays of a declaration.
#[tactic(auto, using(crate::proofs::Declared::declared))]
fn emit_declaration(
    bound: &Bound,
    cells: &Cells,
    declared: &[Option<DeclNo>],
    spot: Spot,
    draft: &mut Draft,
    decl: &Decl,
) -> Result<(), AllocError>
    requires cells { Known bound.now cells.now }
    requires declared { AreDeclared bound.now declared.now }
    ensures { OnOk result (PutsArrays bound.now spot draft.old draft.new decl.now) }
{
    match decl {
        Decl::Arrays {
            type_name,
            segments,
            ..
        } => {
            emit_segments(bound, cells, declared, spot, draft, type_name, segments)?;
            Ok(())
        }
        Decl::Variables { .. } => Ok(()),
        Decl::Procedure { .. } => Ok(()),
        Decl::Class { .. } => Ok(()),
    }
}

/// The arrays of the declarations of a block.
pub(crate) fn emit_arrays(
    bound: &Bound,
    cells: &Cells,
    declared: &[Option<DeclNo>],
    spot: Spot,
    draft: &mut Draft,
    list: &[Decl],
) -> Result<(), AllocError>
    requires cells { Known bound.now cells.now }
    requires declared { AreDeclared bound.now declared.now }
    ensures { OnOk result (WritesArrays bound.now spot draft.old draft.new list.now) }
{
    for item in list {
        emit_declaration(bound, cells, declared, spot, draft, item)?;
    }
    Ok(())
}
