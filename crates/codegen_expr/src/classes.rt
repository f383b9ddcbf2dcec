//! What the emitter looks up of classes, objects and connections.
ghost use Rattle.std.specs.Prelude.{◌≡◌, IfOk};
ghost use Rattle.sim_scope.specs.Source.{found_at as found_at_of, source_of};
ghost use Rattle.sim_meaning.specs.Attributes.{cell_of_connection, connection_at as connection_at_of, connection_in, first_in, is_connection as is_connection_of, parameter_qualification as qualification_of_parameter};
ghost use Rattle.sim_meaning.specs.Closing.{class_parameters as class_parameters_of, class_passed as class_passed_of};
ghost use Rattle.sim_meaning.specs.Levels.{class_at as class_at_of, class_text as class_text_of, is_class as is_class_of, is_process_itself, qualification as qualification_of};
ghost use Rattle.sim_meaning.specs.Texts.{text as text_of};
ghost use Rattle.codegen_expr.specs.Built.{slot_in};
ghost use Rattle.codegen_expr.specs.Known.{Known, OriginSlot, is_hidden};
ghost use Rattle.codegen_expr.specs.Sites.{frame_text as frame_text_of, is_connected as is_connected_of};
ghost use Rattle.std.specs.Prelude.{Some, slice_get};

use crate::cells::Cells;
use crate::draft::deeper;
use crate::lookups::{cell_count, denoted};
use sim_base::TokenNo;
use sim_scope::{
    BlockKind, Bound, Denotation, Formal, FormalKind, Mode, Scopes, SimType, class_block, encloser,
};
use std::alloc::AllocError;

/// The block in which an identifier was found, and the block whose object `this` means.
#[tactic(auto, unfolding(sim_scope::specs::Source::found_at, sim_scope::specs::Source::source_of))]
pub fn found_at(bound: &Bound, token: TokenNo) -> Option<u32>
    ensures { result ≡ found_at_of (source_of bound.now) token.0 }
{
    match bound.found_in.get(token.0 as usize) {
        Some(block) => *block,
        None => None,
    }
}

/// Whether a text is a class.
#[tactic(auto, unfolding(crate::specs::Known::Known))]
pub fn is_class(bound: &Bound, cells: &Cells, text: u32) -> bool
    requires cells { Known bound.now cells.now }
    ensures { result ≡ is_class_of (text_of (source_of bound.now) text) }
{
    match cells.classes.get(text as usize) {
        Some(truth) => *truth,
        None => false,
    }
}

/// Whether a text is a connection.
#[tactic(auto, unfolding(crate::specs::Known::Known))]
pub fn is_connection(bound: &Bound, cells: &Cells, text: u32) -> bool
    requires cells { Known bound.now cells.now }
    ensures { result ≡ is_connection_of (text_of (source_of bound.now) text) }
{
    match cells.connections.get(text as usize) {
        Some(truth) => *truth,
        None => false,
    }
}

/// Whether a text is the class `process`.
#[tactic(auto, unfolding(crate::specs::Known::Known))]
pub fn is_process(bound: &Bound, cells: &Cells, text: u32) -> bool
    requires cells { Known bound.now cells.now }
    ensures { result ≡ is_process_itself (source_of bound.now) text }
{
    match cells.processes.get(text as usize) {
        Some(truth) => *truth,
        None => false,
    }
}

/// A text, if it is a connection.
fn connection_in(bound: &Bound, cells: &Cells, text: Option<u32>) -> Option<u32>
    requires cells { Known bound.now cells.now }
    ensures { result ≡ connection_in (source_of bound.now) text }
{
    match text {
        Some(text) => {
            if is_connection(bound, cells, text) {
                return Some(text);
            }
            None
        }
        None => None,
    }
}

/// The connection through which what an identifier denotes is seen, if it is one.
#[tactic(auto, unfolding(sim_meaning::specs::Attributes::connection_at))]
pub fn connection_at(bound: &Bound, cells: &Cells, token: TokenNo) -> Option<u32>
    requires cells { Known bound.now cells.now }
    ensures { result ≡ connection_at_of (source_of bound.now) token.0 }
{
    connection_in(bound, cells, found_at(bound, token))
}

/// A text, if it is a class.
fn class_text(bound: &Bound, cells: &Cells, text: Option<u32>) -> Option<u32>
    requires cells { Known bound.now cells.now }
    ensures { result ≡ class_text_of (source_of bound.now) text }
{
    match text {
        Some(text) => {
            if is_class(bound, cells, text) {
                return Some(text);
            }
            None
        }
        None => None,
    }
}

/// The text of the class that an identifier denotes.
#[tactic(auto, unfolding(sim_meaning::specs::Levels::class_at, sim_scope::specs::Source::source_of))]
pub fn class_at(bound: &Bound, cells: &Cells, token: TokenNo) -> Option<u32>
    requires cells { Known bound.now cells.now }
    ensures { result ≡ class_at_of (source_of bound.now) token.0 }
{
    match denoted(bound, token) {
        Some(Denotation::Declared(declaration)) => {
            class_text(bound, cells, class_block(&bound.scopes, declaration))
        }
        _ => None,
    }
}

/// The qualification of a reference, as the text of that class.
#[tactic(auto, unfolding(sim_meaning::specs::Levels::qualification, sim_scope::specs::Source::source_of))]
pub fn qualification(bound: &Bound, cells: &Cells, ty: Option<SimType>) -> Option<u32>
    requires cells { Known bound.now cells.now }
    ensures { result ≡ qualification_of (source_of bound.now) ty }
{
    match ty {
        Some(SimType::Ref(declaration)) => {
            class_text(bound, cells, class_block(&bound.scopes, declaration))
        }
        _ => None,
    }
}

/// The qualification of a parameter that is a reference.
pub(crate) fn parameter_qualification(bound: &Bound, cells: &Cells, formal: Formal) -> Option<u32>
    requires cells { Known bound.now cells.now }
    ensures { result ≡ qualification_of_parameter (source_of bound.now) formal.kind formal.ty }
{
    match formal.kind {
        FormalKind::Simple => qualification(bound, cells, formal.ty),
        FormalKind::Array => None,
        FormalKind::Procedure => None,
    }
}

/// The class against which an actual parameter is held when it is passed: by name that is done at each use.
pub(crate) fn passed_qualification(bound: &Bound, cells: &Cells, formal: Formal) -> Option<u32>
    requires cells { Known bound.now cells.now }
    ensures { result ≡ class_passed_of (source_of bound.now) formal }
{
    match formal.mode {
        Mode::ByName => None,
        Mode::ByValue => parameter_qualification(bound, cells, formal),
        Mode::ByReference => parameter_qualification(bound, cells, formal),
    }
}

/// The formal parameters of a class, of all its levels.
#[tactic(auto, unfolding(crate::specs::Known::Known))]
fn parameters_of<'a>(bound: &Bound, cells: &'a Cells, class: u32) -> &'a [Formal]
    requires cells { Known bound.now cells.now }
    ensures { result.now ≡ class_parameters_of (source_of bound.now) (Some class) }
{
    match cells.class_formals.get(class as usize) {
        Some(formals) => formals,
        None => &[],
    }
}

/// The formal parameters of a class, if there is one.
pub fn class_parameters<'a>(bound: &Bound, cells: &'a Cells, class: Option<u32>) -> &'a [Formal]
    requires cells { Known bound.now cells.now }
    ensures { result.now ≡ class_parameters_of (source_of bound.now) class }
{
    match class {
        Some(class) => parameters_of(bound, cells, class),
        None => &[],
    }
}

/// Whether a block of the tables is a connection.
#[tactic(auto, unfolding(crate::specs::Sites::is_connected))]
pub fn is_connected(scopes: &Scopes, block: u32) -> bool
    ensures { result ≡ is_connected_of scopes.now block }
{
    match scopes.blocks().get(block as usize) {
        Some(row) => match row.kind() {
            BlockKind::Connection => true,
            _ => false,
        },
        None => false,
    }
}

/// The token with which a block begins.
#[tactic(auto, unfolding(sim_scope::specs::Source::source_of))]
pub fn first_of(bound: &Bound, block: u32) -> u32
    ensures { result ≡ first_in (slice_get (source_of bound.now).tables.blocks block) }
{
    match bound.scopes.blocks().get(block as usize) {
        Some(row) => row.first().0,
        None => 0,
    }
}

/// The text in whose frames lies what a text has: that one itself, or for a connection what it stands in.
#[tactic(auto, using(crate::proofs::Frames::frames))]
pub fn frame_text(bound: &Bound, text: u32) -> u32
    ensures { result ≡ frame_text_of (source_of bound.now) text }
{
    let mut outer = text;
    for step in 0..text {
        if is_connected(&bound.scopes, outer) {
            match encloser(&bound.scopes, outer) {
                Some(around) => outer = around,
                None => return outer,
            }
        } else {
            return outer;
        }
    }
    outer
}

/// Whether a block of the tables is a connection whose cell lies in the frames of a text.
#[tactic(auto, using(crate::proofs::Frames::frames))]
pub fn is_kept_in(bound: &Bound, block: u32, frame: u32) -> bool
    ensures { result ≡ is_hidden (source_of bound.now) frame block }
{
    if is_connected(&bound.scopes, block) {
        return frame_text(bound, block) == frame;
    }
    false
}

/// The number of a place in a table.
pub(crate) fn number_of(index: usize) -> Result<u32, AllocError>
    ensures { IfOk result (λ n. n ≡ index) }
{
    u32::try_from(index).map_err(|_| AllocError)
}

/// The place of the cell of a connection in the own part of the frames of the text in which it stands. Time is linear in the number of blocks.
#[tactic(auto, using(crate::proofs::Frames::frames))]
pub fn connection_slot(
    bound: &Bound,
    cells: &Cells,
    connection: u32,
) -> Result<Option<u32>, AllocError>
    requires cells { Known bound.now cells.now }
    ensures { IfOk result (λ slot. slot ≡ slot_in (source_of bound.now) (frame_text_of (source_of bound.now) connection) (cell_of_connection (source_of bound.now) connection)) }
{
    let frame = frame_text(bound, connection);
    let opening = first_of(bound, connection);
    let mut slot = cell_count(bound, cells, frame);
    for index in 0..bound.scopes.block_count() {
        let block = number_of(index)?;
        if is_kept_in(bound, block, frame) {
            if first_of(bound, block) == opening {
                return Ok(Some(slot));
            }
            slot = deeper(slot)?;
        }
    }
    Ok(None)
}

/// The place of the hidden cell of the class `process`, behind those of connections. Time is linear in the number of blocks.
#[tactic(auto, using(crate::proofs::Frames::frames))]
pub fn origin_slot(bound: &Bound, cells: &Cells, process: u32) -> Result<u32, AllocError>
    requires cells { Known bound.now cells.now }
    ensures { IfOk result (λ slot. OriginSlot (source_of bound.now) process slot) }
{
    let mut slot = cell_count(bound, cells, process);
    for index in 0..bound.scopes.block_count() {
        let block = number_of(index)?;
        if is_kept_in(bound, block, process) {
            slot = deeper(slot)?;
        }
    }
    Ok(slot)
}
