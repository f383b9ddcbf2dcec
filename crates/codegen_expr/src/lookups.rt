//! What the emitter looks up by token, declaration and block.
ghost use Rattle.std.specs.Prelude.{◌≡◌, ◌+◌, IfOk, length};
ghost use Rattle.sim_scope.specs.Source.{block_of, denoted as denoted_of, level_of as level_of_block, line_at as line_at_of, source_of, type_at, type_at as type_at_of};
ghost use Rattle.sim_scope.specs.Access.{encloser as encloser_of};
ghost use Rattle.sim_meaning.specs.Closing.{is_text as is_text_of, is_text_type};
ghost use Rattle.sim_meaning.specs.Constants.{text_constant};
ghost use Rattle.sim_meaning.specs.Pending.{Declared};
ghost use Rattle.sim_meaning.specs.Texts.{constant_of, text as text_of};
ghost use Rattle.codegen_expr.specs.Built.{around_or, is_around as is_around_of, is_level as is_level_of, slot_in};
ghost use Rattle.codegen_expr.specs.Drafts.{planned_start};
ghost use Rattle.codegen_expr.specs.CodeExpr.{gives as gives_of, gives_entry as gives_entry_of, gives_formal as gives_formal_of};
ghost use Rattle.codegen_expr.specs.Emit.{formals_of_block as formals_of_block_by};
ghost use Rattle.codegen_expr.specs.Known.{Known, has_result as has_result_of, number_in, place_in, plain_in};
ghost use Rattle.codegen_expr.specs.Sites.{block_number as block_number_of, cells_in, prefix_of as prefix_of_block};
ghost use Rattle.sim_tree.specs.SyntaxOf.{syntax_of};

use crate::cells::{Cells, ConstantValue};
use crate::draft::Draft;
use crate::forms::typed_token;
use crate::names::standard_leaves;
use sim_base::{DeclNo, Line, TokenNo};
use sim_scope::{
    BlockKind, Bound, Denotation, Entry, Formal, FormalKind, Scopes, SimType, encloser, entry_of,
};
use sim_tree::Expr;
use std::alloc::AllocError;

/// What an identifier denotes.
#[tactic(auto, unfolding(sim_scope::specs::Source::denoted, sim_scope::specs::Source::source_of))]
pub fn denoted(bound: &Bound, token: TokenNo) -> Option<Denotation>
    ensures { result ≡ denoted_of (source_of bound.now) token.0 }
{
    match bound.uses.get(token.0 as usize) {
        Some(denotation) => *denotation,
        None => None,
    }
}

/// The line of a token.
#[tactic(auto, unfolding(sim_scope::specs::Source::line_at, sim_scope::specs::Source::source_of))]
pub fn line_at(bound: &Bound, token: TokenNo) -> Line
    ensures { result.0 ≡ line_at_of (source_of bound.now) token.0 }
{
    match bound.program.lines.get(token.0 as usize) {
        Some(line) => *line,
        None => Line(0),
    }
}

/// The block in which a declaration stands.
#[tactic(auto, unfolding(sim_scope::specs::Source::block_of, sim_scope::specs::Source::source_of))]
pub fn block_of(bound: &Bound, declaration: DeclNo) -> u32
    ensures { result ≡ block_of (source_of bound.now) declaration }
{
    match bound.scopes.declarations().get(declaration.0 as usize) {
        Some(row) => row.block,
        None => 0,
    }
}

/// The level of a block.
#[tactic(auto, unfolding(sim_scope::specs::Source::level_of, sim_scope::specs::Source::source_of))]
pub fn level_of(bound: &Bound, block: u32) -> u32
    ensures { result ≡ level_of_block (source_of bound.now) block }
{
    match bound.scopes.blocks().get(block as usize) {
        Some(block) => block.level(),
        None => 0,
    }
}

/// Whether the type at a token is that of a text.
#[tactic(auto, unfolding(sim_scope::specs::Source::type_at, sim_scope::specs::Source::source_of))]
pub fn is_text_at(bound: &Bound, token: TokenNo) -> bool
    ensures { result ≡ is_text_type (type_at (source_of bound.now) token.0) }
{
    match bound.types.get(token.0 as usize) {
        Some(Some(SimType::Text)) => true,
        _ => false,
    }
}

/// Whether an expression is a text.
#[tactic(auto, unfolding(sim_meaning::specs::Closing::is_text))]
pub fn is_text(bound: &Bound, expr: &Expr) -> bool
    ensures { result ≡ is_text_of (source_of bound.now) (syntax_of expr.now) }
{
    is_text_at(bound, typed_token(expr))
}

/// Whether a text is another one or has it in front.
pub(crate) fn is_level(scopes: &Scopes, text: u32, level: u32) -> bool
    ensures { result ≡ is_level_of scopes.now (length scopes.now.blocks) text level }
{
    let mut front = text;
    for step in 0..scopes.block_count() {
        if front == level {
            return true;
        }
        match prefix_of(scopes, front) {
            Some(next) => front = next,
            None => return false,
        }
    }
    front == level
}

/// Whether a text is another one or has it in front, or stands somewhere in such a text.
pub fn is_around(scopes: &Scopes, inner: u32, outer: u32) -> bool
    ensures { result ≡ is_around_of scopes.now (length scopes.now.blocks) inner outer }
{
    let mut text = inner;
    for step in 0..scopes.block_count() {
        if is_level(scopes, text, outer) {
            return true;
        }
        match encloser(scopes, text) {
            Some(around) => text = around,
            None => return false,
        }
    }
    false
}

/// What a class or a prefixed block has in front of it.
#[tactic(auto, unfolding(crate::specs::Sites::prefix_of))]
pub fn prefix_of(scopes: &Scopes, block: u32) -> Option<u32>
    ensures { result ≡ prefix_of_block scopes.now block }
{
    match scopes.blocks().get(block as usize) {
        Some(row) => match row.kind() {
            BlockKind::Connection => None,
            _ => row.base(),
        },
        None => None,
    }
}

/// The place of the cell of a declaration among those that its text declares, where it has one.
#[tactic(auto, unfolding(crate::specs::Known::Known))]
fn place_of(bound: &Bound, cells: &Cells, declaration: DeclNo) -> Option<u32>
    requires cells { Known bound.now cells.now }
    ensures { result ≡ place_in (source_of bound.now) (block_of (source_of bound.now) declaration) (Declared declaration.0) }
{
    match cells.slots.get(declaration.0 as usize) {
        Some(slot) => *slot,
        None => None,
    }
}

/// The place of the cell of a declaration in the own part of the frames of the text that it stands in, where they have one.
#[tactic(auto, using(crate::proofs::Slots::slots))]
pub fn slot_of(bound: &Bound, cells: &Cells, declaration: DeclNo) -> Option<u32>
    requires cells { Known bound.now cells.now }
    ensures { result ≡ slot_in (source_of bound.now) (block_of (source_of bound.now) declaration) (Declared declaration.0) }
{
    place_of(bound, cells, declaration)
}

/// A place behind so many others.
fn behind(start: usize, place: u32) -> Result<u32, AllocError>
    ensures { IfOk result (λ n. n ≡ start + place) }
{
    let start = u32::try_from(start).map_err(|_| AllocError)?;
    start.checked_add(place).ok_or(AllocError)
}

/// The number of a cell in the frames of a text, by its place in the text's own part. That part stands behind all that what is in front of
/// the text has.
pub fn cell_number(
    bound: &Bound,
    cells: &Cells,
    draft: &Draft,
    text: u32,
    place: u32,
) -> Result<u32, AllocError>
    requires cells { Known bound.now cells.now }
    ensures { IfOk result (λ n. n ≡ planned_start (source_of bound.now) draft.now.classes text + place) }
{
    match prefix_of(&bound.scopes, text) {
        Some(front) => {
            let number = behind(draft.size_of(block_number(bound, cells, front)), place)?;
            Ok(number)
        }
        None => Ok(place),
    }
}

/// The value of a constant.
#[tactic(auto, unfolding(crate::specs::Known::Known))]
pub fn constant_value(bound: &Bound, cells: &Cells, declaration: DeclNo) -> Option<ConstantValue>
    requires cells { Known bound.now cells.now }
    ensures { plain_in (source_of bound.now) result ≡ constant_of (source_of bound.now) declaration }
{
    match cells.constants.get(declaration.0 as usize) {
        Some(value) => *value,
        None => None,
    }
}

/// The number of the text constant that is written at a token.
#[tactic(auto, unfolding(crate::specs::Known::Known))]
pub(crate) fn text_number(bound: &Bound, cells: &Cells, token: TokenNo) -> Option<u32>
    requires cells { Known bound.now cells.now }
    ensures { result ≡ number_in (text_constant (source_of bound.now) token.0) }
{
    match cells.texts.get(token.0 as usize) {
        Some(number) => *number,
        None => None,
    }
}

/// Whether a text is a procedure with a result, whose cell is then the first.
#[tactic(auto, unfolding(crate::specs::Known::Known))]
pub fn has_result(bound: &Bound, cells: &Cells, text: u32) -> bool
    requires cells { Known bound.now cells.now }
    ensures { result ≡ has_result_of (text_of (source_of bound.now) text) }
{
    match cells.results.get(text as usize) {
        Some(truth) => *truth,
        None => false,
    }
}

/// The number of cells in the frames of a text, without temps.
#[tactic(auto, unfolding(crate::specs::Known::Known))]
pub fn cell_count(bound: &Bound, cells: &Cells, text: u32) -> u32
    requires cells { Known bound.now cells.now }
    ensures { result ≡ length (cells_in (source_of bound.now) text (text_of (source_of bound.now) text)) }
{
    match cells.counts.get(text as usize) {
        Some(count) => *count,
        None => 0,
    }
}

/// The number that a block of the tables has in code, where connections are not counted.
#[tactic(auto, unfolding(crate::specs::Known::Known))]
pub fn block_number(bound: &Bound, cells: &Cells, block: u32) -> u32
    requires cells { Known bound.now cells.now }
    ensures { result ≡ block_number_of (source_of bound.now) block }
{
    match cells.numbers.get(block as usize) {
        Some(number) => *number,
        None => cells.block_count,
    }
}

/// The formal parameters of a block.
#[tactic(auto, unfolding(crate::specs::Known::Known))]
pub fn formals_of_block<'a>(bound: &Bound, cells: &'a Cells, block: u32) -> &'a [Formal]
    requires cells { Known bound.now cells.now }
    ensures { result.now ≡ formals_of_block_by (source_of bound.now) block }
{
    match cells.formals.get(block as usize) {
        Some(formals) => formals,
        None => &[],
    }
}

/// Whether a formal parameter is no procedure without a result.
fn gives_formal(formal: Formal) -> bool
    ensures { result ≡ gives_formal_of formal.kind formal.ty }
{
    match formal.kind {
        FormalKind::Procedure => formal.ty.is_some(),
        FormalKind::Simple => true,
        FormalKind::Array => true,
    }
}

/// Whether what is declared is no procedure without a result, also no virtual one, no formal one and none of SIMSET.
fn gives_entry(entry: Option<Entry>) -> bool
    ensures { result ≡ gives_entry_of entry }
{
    match entry {
        Some(Entry::Procedure { result, .. }) => result.is_some(),
        Some(Entry::Virtual { result, .. }) => result.is_some(),
        Some(Entry::Attribute { result, .. }) => result.is_some(),
        Some(Entry::Formal(formal)) => gives_formal(formal),
        _ => true,
    }
}

/// Whether what is denoted may be an operand: it is no call that leaves no value.
#[tactic(auto, unfolding(sim_scope::specs::Source::source_of))]
pub fn gives(bound: &Bound, denoted: Option<Denotation>) -> bool
    ensures { result ≡ gives_of (source_of bound.now) denoted }
{
    match denoted {
        Some(Denotation::Declared(declaration)) => gives_entry(entry_of(
            &bound.scopes,
            declaration,
        )),
        Some(Denotation::Standard(name)) => standard_leaves(name),
        None => true,
    }
}

/// The type at a token.
#[tactic(auto, unfolding(sim_scope::specs::Source::type_at, sim_scope::specs::Source::source_of))]
pub fn type_at(bound: &Bound, token: TokenNo) -> Option<SimType>
    ensures { result ≡ type_at_of (source_of bound.now) token.0 }
{
    match bound.types.get(token.0 as usize) {
        Some(ty) => *ty,
        None => None,
    }
}
