//! Parameters by name: thunks, and the uses of formal parameters.
ghost use Rattle.std.specs.Prelude.{◌≡◌, IfOk, OnOk};
ghost use Rattle.sim_scope.specs.Scopes.{entry_of as entry_in};
ghost use Rattle.sim_scope.specs.Source.{source_of};
ghost use Rattle.sim_tree.specs.SyntaxOf.{syntax_of};
ghost use Rattle.sim_meaning.specs.Closing.{by_name as by_name_of, class_of_formal, formal_by_name, name_denoted as name_denoted_of};
ghost use Rattle.codegen_expr.specs.Emit.{WritesGiven, WritesName, WritesNamePlace, WritesNameWhole, WritesPast, WritesThunk};
ghost use Rattle.codegen_expr.specs.Known.{Known};
ghost use Rattle.codegen_expr.specs.Thunks.{ClassGiven, ClassOrNone, name_if};

use crate::cells::Cells;
use crate::classes::qualification;
use crate::dots::is_declared_variable;
use crate::draft::Draft;
use crate::emit::emit_expr;
use crate::forms::{Form, form_of, typed_token};
use crate::instructions::{name_address_instr, name_value_instr};
use crate::lookups::{
    block_number, block_of, cell_number, denoted, is_around, level_of, line_at, slot_of, type_at,
};
use crate::procedures::emit_procedure;
use crate::spot::Spot;
use crate::variables::emit_place;
use sim_base::{DeclNo, Line, TokenNo};
use sim_code::Instr;
use sim_scope::{Bound, Denotation, Entry, FormalKind, Mode, entry_of};
use sim_tree::Expr;
use std::alloc::AllocError;

/// The formal parameter by name that a declaration is.
#[tactic(auto, unfolding(sim_scope::specs::Source::source_of))]
fn named_formal(bound: &Bound, declaration: DeclNo) -> Option<DeclNo>
    ensures { result ≡ formal_by_name declaration (entry_in (source_of bound.now).tables declaration) }
{
    match entry_of(&bound.scopes, declaration) {
        Some(Entry::Formal(formal)) => match (formal.mode, formal.kind) {
            (Mode::ByName, FormalKind::Simple) => Some(declaration),
            _ => None,
        },
        _ => None,
    }
}

/// The formal parameter by name that is denoted.
#[tactic(auto, unfolding(sim_scope::specs::Source::source_of))]
fn name_denoted(bound: &Bound, denotation: Option<Denotation>) -> Option<DeclNo>
    ensures { result ≡ name_denoted_of (source_of bound.now) denotation }
{
    match denotation {
        Some(Denotation::Declared(declaration)) => named_formal(bound, declaration),
        _ => None,
    }
}

/// The formal parameter by name that an identifier with so many subscripts is.
#[tactic(auto, using(crate::proofs::ByName::thunks))]
fn name_alone(bound: &Bound, token: TokenNo, subscripts: usize) -> Option<DeclNo>
    ensures { result ≡ name_if (source_of bound.now) subscripts token }
{
    if subscripts == 0 {
        return name_denoted(bound, denoted(bound, token));
    }
    None
}

/// The formal parameter by name that an expression is.
#[tactic(auto, using(crate::proofs::ByName::thunks))]
pub fn by_name(bound: &Bound, expr: &Expr) -> Option<DeclNo>
    ensures { result ≡ by_name_of (source_of bound.now) (syntax_of expr.now) }
{
    match form_of(expr) {
        Form::Named { name, arguments } => name_alone(bound, name.token, arguments.len()),
        Form::Taken { .. } => None,
        Form::Closed { .. } => None,
        Form::New => None,
        Form::Other => None,
    }
}

/// The class of a reference that is passed by name, or 0: what is handed on is not held against a class.
#[tactic(auto, using(crate::proofs::ByName::thunks))]
fn actual_class(bound: &Bound, cells: &Cells, draft: &Draft, expr: &Expr) -> u32
    requires cells { Known bound.now cells.now }
    ensures { ClassGiven bound.now draft.now expr.now result }
{
    match by_name(bound, expr) {
        Some(_) => 0,
        None => {
            let class = qualification(bound, cells, type_at(bound, typed_token(expr)));
            class_or_none(bound, cells, draft, class)
        }
    }
}

/// The number of a class, if there is one, or 0.
#[tactic(auto, using(crate::proofs::ByName::thunks))]
pub fn class_or_none(bound: &Bound, cells: &Cells, draft: &Draft, class: Option<u32>) -> u32
    requires cells { Known bound.now cells.now }
    ensures { ClassOrNone bound.now draft.now class result }
{
    match class {
        Some(text) => draft.class_of(block_number(bound, cells, text)),
        None => 0,
    }
}

/// What a thunk gives: a procedure; or else where a variable lies, or the value of any other expression.
#[cycle(emit)]
#[tactic(auto, using(crate::proofs::ByName::thunks))]
fn emit_given(
    bound: &Bound,
    cells: &Cells,
    spot: Spot,
    draft: &mut Draft,
    as_procedure: bool,
    expr: &Expr,
) -> Result<(), AllocError>
    requires cells { Known bound.now cells.now }
    ensures { OnOk result (WritesGiven bound.now spot draft.old draft.new as_procedure expr.now) }
{
    if as_procedure {
        return emit_procedure(bound, cells, spot, draft, 0, expr);
    }
    if is_declared_variable(bound, expr) {
        let class = actual_class(bound, cells, draft, expr);
        return emit_place(bound, cells, spot, draft, 0, class, expr);
    }
    emit_expr(bound, cells, spot, draft, 0, expr)
}

/// The code of a thunk, which is gone past. The answer is its number.
#[cycle(emit)]
#[tactic(auto, using(crate::proofs::ByName::thunks))]
pub(crate) fn emit_past(
    bound: &Bound,
    cells: &Cells,
    spot: Spot,
    draft: &mut Draft,
    as_procedure: bool,
    expr: &Expr,
) -> Result<u32, AllocError>
    requires cells { Known bound.now cells.now }
    ensures { IfOk result (λ number. WritesPast bound.now spot draft.old draft.new as_procedure expr.now number) }
{
    let over = draft.here();
    draft.leave_hole()?;
    let outside = draft.room();
    let thunk = draft.begin_thunk()?;
    emit_given(bound, cells, spot, draft, as_procedure, expr)?;
    draft.put(Instr::EndThunk, Line(0))?;
    draft.end_thunk(thunk, outside);
    let end = draft.place()?;
    draft.fill_in(over, Instr::Jump(end));
    Ok(thunk)
}

/// An actual parameter by name: its code, which is gone past, and its thunk.
#[cycle(emit)]
#[tactic(auto, using(crate::proofs::ByName::thunks))]
pub(crate) fn emit_thunk(
    bound: &Bound,
    cells: &Cells,
    spot: Spot,
    draft: &mut Draft,
    depth: u32,
    as_procedure: bool,
    expr: &Expr,
) -> Result<(), AllocError>
    requires cells { Known bound.now cells.now }
    ensures { OnOk result (WritesThunk bound.now spot depth draft.old draft.new as_procedure expr.now) }
{
    let thunk = emit_past(bound, cells, spot, draft, as_procedure, expr)?;
    draft.push(depth, Instr::Thunk(i64::from(thunk)), Line(0))
}

/// The value of a formal parameter by name; a reference is held against its qualification. The token is that of the identifier.
#[tactic(auto, using(crate::proofs::ByName::thunks))]
pub(crate) fn emit_name(
    bound: &Bound,
    cells: &Cells,
    spot: Spot,
    draft: &mut Draft,
    depth: u32,
    token: TokenNo,
    declaration: DeclNo,
) -> Result<(), AllocError>
    requires cells { Known bound.now cells.now }
    ensures { OnOk result (WritesName bound.now spot depth draft.old draft.new token declaration) }
{
    let block = block_of(bound, declaration);
    let Some(place) = slot_of(bound, cells, declaration) else {
        draft.give_up();
        return Ok(());
    };
    if is_around(&bound.scopes, spot.text, block) {
        let slot = cell_number(bound, cells, draft, block, place)?;
        let qualification = formal_qualification(bound, cells, declaration);
        let class = class_or_none(bound, cells, draft, qualification);
        let instr = name_value_instr(level_of(bound, block), slot, class);
        return draft.push(depth, instr, line_at(bound, token));
    }
    draft.give_up();
    Ok(())
}

/// The array or the procedure that is passed to a formal parameter by name. The token is that of its identifier.
#[tactic(auto, using(crate::proofs::ByName::thunks))]
pub(crate) fn emit_name_whole(
    bound: &Bound,
    cells: &Cells,
    spot: Spot,
    draft: &mut Draft,
    depth: u32,
    token: TokenNo,
    declaration: DeclNo,
) -> Result<(), AllocError>
    requires cells { Known bound.now cells.now }
    ensures { OnOk result (WritesNameWhole bound.now spot depth draft.old draft.new token declaration) }
{
    let block = block_of(bound, declaration);
    let Some(place) = slot_of(bound, cells, declaration) else {
        draft.give_up();
        return Ok(());
    };
    if is_around(&bound.scopes, spot.text, block) {
        let slot = cell_number(bound, cells, draft, block, place)?;
        let instr = name_value_instr(level_of(bound, block), slot, 0);
        return draft.push(depth, instr, line_at(bound, token));
    }
    draft.give_up();
    Ok(())
}

/// The qualification of a formal parameter that is a reference.
#[tactic(auto, unfolding(sim_meaning::specs::Levels::qualification, sim_scope::specs::Source::source_of))]
pub fn formal_qualification(bound: &Bound, cells: &Cells, declaration: DeclNo) -> Option<u32>
    requires cells { Known bound.now cells.now }
    ensures { result ≡ class_of_formal (source_of bound.now) declaration }
{
    match entry_of(&bound.scopes, declaration) {
        Some(Entry::Formal(formal)) => qualification(bound, cells, formal.ty),
        _ => None,
    }
}

/// Where the variable lies that is passed to a formal parameter by name; or else its value, where that is enough. The token is that of the
/// identifier, or of the sign of an assignment.
#[tactic(auto, using(crate::proofs::ByName::thunks))]
pub fn emit_name_place(
    bound: &Bound,
    cells: &Cells,
    spot: Spot,
    draft: &mut Draft,
    depth: u32,
    value_too: bool,
    token: TokenNo,
    declaration: DeclNo,
) -> Result<(), AllocError>
    requires cells { Known bound.now cells.now }
    ensures { OnOk result (WritesNamePlace bound.now spot depth draft.old draft.new value_too token declaration) }
{
    let block = block_of(bound, declaration);
    let Some(place) = slot_of(bound, cells, declaration) else {
        draft.give_up();
        return Ok(());
    };
    if is_around(&bound.scopes, spot.text, block) {
        let slot = cell_number(bound, cells, draft, block, place)?;
        let instr = name_address_instr(level_of(bound, block), slot, value_too);
        return draft.push(depth, instr, line_at(bound, token));
    }
    draft.give_up();
    Ok(())
}
