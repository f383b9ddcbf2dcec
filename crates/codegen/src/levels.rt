//! The statements of a class or a prefixed block, with what stands for `inner`.
ghost use Rattle.std.specs.Prelude.{◌≡◌, ◌<◌, ⊤, IfOk, MatchOption, OnOk, length, pos};
ghost use Rattle.sim_code.specs.declared.instr.Instr.TheVariants as i;
ghost use Rattle.sim_meaning.specs.Levels.{writes_inner as writes_inner_of};
ghost use Rattle.sim_scope.specs.Source.{source_of};
ghost use Rattle.sim_tree.specs.SyntaxOfProgram.{statement_syntax};
ghost use Rattle.codegen_expr.specs.Drafts.{with_instr};
ghost use Rattle.codegen_expr.specs.Known.{Known};
ghost use Rattle.codegen.specs.CodeStm.{inner_of};
ghost use Rattle.codegen.specs.EmitProgram.{FirstInner, IsOwn, LevelPlace, WritesAround, WritesLevel, inner_by_kind, token_number};

use crate::statement::emit_statements;
use codegen_expr::{Cells, Draft, Spot, deeper};
use sim_base::{Line, TokenNo};
use sim_code::{BlockKind, Instr};
use sim_scope::{Bound, base, block_at};
use sim_tree::Stmt;
use std::alloc::AllocError;

/// Where `inner` stands among statements.
#[derive(Clone, Copy)]
pub(crate) struct InnerPlace {
    /// How many statements are in front of it.
    pub place: usize,
    /// Its token.
    pub token: TokenNo,
}

/// The token of a statement `inner`.
#[tactic(auto, using(crate::proofs::ClassLevels::inners))]
fn inner_token(stmt: &Stmt) -> Option<TokenNo>
    ensures { token_number result ≡ inner_of (statement_syntax stmt.now) }
{
    match stmt {
        Stmt::Inner { token } => Some(*token),
        Stmt::Empty { .. } => None,
        Stmt::Block { .. } => None,
        Stmt::PrefixedBlock { .. } => None,
        Stmt::Call { .. } => None,
        Stmt::Assignment { .. } => None,
        Stmt::If { .. } => None,
        Stmt::While { .. } => None,
        Stmt::For { .. } => None,
        Stmt::ForReference { .. } => None,
        Stmt::Inspect { .. } => None,
        Stmt::InspectWhen { .. } => None,
        Stmt::Activation { .. } => None,
    }
}

/// The first `inner` of a list.
fn first_inner(list: &[Stmt]) -> Option<InnerPlace>
    ensures first { FirstInner list.now result }
    ensures within { MatchOption result ⊤ (λ r. r.place < length list.now) }
{
    for index in 0..list.len() {
        if let Some(token) = inner_token(&list[index]) {
            return Some(InnerPlace {
                place: index,
                token,
            });
        }
    }
    None
}

/// Whether an `inner` is written in a class.
#[tactic(auto, unfolding(sim_scope::specs::Source::source_of))]
fn writes_inner(bound: &Bound, text: u32) -> bool
    ensures { result ≡ writes_inner_of (source_of bound.now) text }
{
    match bound.scopes.blocks().get(text as usize) {
        Some(row) => row.inner().is_some(),
        None => false,
    }
}

/// Whether an `inner` is written in a text whose block is of a kind; none is written in a prefixed block.
#[tactic(auto, using(crate::proofs::ClassLevels::kinds))]
pub(crate) fn has_inner(bound: &Bound, text: u32, kind: BlockKind) -> bool
    ensures { result ≡ inner_by_kind (source_of bound.now) kind text }
{
    match kind {
        BlockKind::Object => writes_inner(bound, text),
        BlockKind::Prefixed => false,
        BlockKind::SubBlock => false,
        BlockKind::Procedure => false,
    }
}

/// Whether an `inner` is written in a text.
#[tactic(auto, using(crate::proofs::ClassLevels::owns))]
fn is_own(bound: &Bound, text: u32, token: TokenNo) -> bool
    ensures { IsOwn bound.now text token result }
{
    match block_at(&bound.scopes, token) {
        Some(block) => block == text,
        None => false,
    }
}

/// How many levels are in front of a text. Time is linear in their number.
pub(crate) fn level_place(bound: &Bound, text: u32) -> Result<u32, AllocError>
    ensures { IfOk result (λ n. LevelPlace bound.now text n) }
{
    let mut level = text;
    let mut place = 0;
    for step in 0..bound.scopes.block_count() {
        match base(&bound.scopes, level) {
            Some(front) => {
                level = front;
                place = deeper(place)?;
            }
            None => return Ok(place),
        }
    }
    Err(AllocError)
}

/// The instruction that goes from the declarations of a level to the next one.
pub(crate) fn next_instr(level: u32) -> Instr
    ensures { result ≡ i.NextDecl (pos level) }
{
    Instr::NextDecl(i64::from(level))
}

/// The instruction at the end of a level.
pub(crate) fn end_instr(level: u32) -> Instr
    ensures { result ≡ i.EndLevel (pos level) }
{
    Instr::EndLevel(i64::from(level))
}

/// What stands for `inner` of a level behind its tick. The answer is the place behind it.
pub(crate) fn emit_inner(draft: &mut Draft, level: u32) -> Result<usize, AllocError>
    ensures put { OnOk result (draft.new ≡ with_instr draft.old (i.Inner (pos level)) 0) }
    ensures behind { IfOk result (λ n. n ≡ length draft.new.instrs) }
{
    draft.put(Instr::Inner(i64::from(level)), Line(0))?;
    Ok(draft.here())
}

/// Statements of a level of a class, one of which is `inner`. The answer is the place behind that.
#[tactic(auto, using(crate::proofs::ClassLevels::levels))]
fn emit_around_inner(
    bound: &Bound,
    cells: &Cells,
    spot: Spot,
    level: u32,
    draft: &mut Draft,
    list: &[Stmt],
) -> Result<usize, AllocError>
    requires cells { Known bound.now cells.now }
    ensures { IfOk result (λ after. WritesAround bound.now spot level draft.old draft.new list.now after) }
{
    let Some(inner) = first_inner(list) else {
        draft.give_up();
        return Ok(draft.here());
    };
    if is_own(bound, spot.text, inner.token) {
        emit_statements(bound, cells, spot, draft, &list[..inner.place])?;
        draft.put(Instr::Tick, Line(0))?;
        let after = emit_inner(draft, level)?;
        emit_statements(bound, cells, spot, draft, &list[inner.place + 1..])?;
        return Ok(after);
    }
    draft.give_up();
    Ok(draft.here())
}

/// The statements of a level, with what stands for `inner`, which is written among them or not. The answer is the place behind that.
#[tactic(auto, using(crate::proofs::ClassLevels::levels))]
pub(crate) fn emit_level(
    bound: &Bound,
    cells: &Cells,
    spot: Spot,
    level: u32,
    written: bool,
    draft: &mut Draft,
    list: &[Stmt],
) -> Result<usize, AllocError>
    requires cells { Known bound.now cells.now }
    ensures { IfOk result (λ after. WritesLevel bound.now spot level written draft.old draft.new list.now after) }
{
    if written {
        let after = emit_around_inner(bound, cells, spot, level, draft, list)?;
        return Ok(after);
    }
    emit_statements(bound, cells, spot, draft, list)?;
    let after = emit_inner(draft, level)?;
    Ok(after)
}
