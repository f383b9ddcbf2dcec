//! Attributes of SIMSET and of processes: those of an object, with their actual parameter.
ghost use Rattle.std.specs.Prelude.{◌≡◌, OnOk};
ghost use Rattle.sim_scope.specs.Source.{source_of};
ghost use Rattle.sim_values.specs.Standard.{row_of};
ghost use Rattle.sim_code.specs.Sets.{parameter_count as parameter_count_of};
ghost use Rattle.sim_meaning.specs.Attributes.{own_attribute as own_attribute_of};
ghost use Rattle.sim_meaning.specs.Statements.{has_value};
ghost use Rattle.codegen_expr.specs.EmitSets.{FindsSet, WritesReferences, WritesSet, as_declared, set_procedure as set_procedure_of};
ghost use Rattle.codegen_expr.specs.Known.{Known};

use crate::calls::emit_actuals;
use crate::cells::Cells;
use crate::draft::{Draft, deeper};
use crate::instructions::standard_instr;
use crate::lookups::{denoted, line_at};
use crate::names::{attribute_number, standard_leaves};
use crate::spot::Spot;
use sim_base::{DeclNo, TokenNo};
use sim_code::Instr;
use sim_scope::{
    Bound, Denotation, Entry, Formal, FormalKind, Mode, SimType, StandardName, entry_of,
};
use sim_tree::Expr;
use sim_values::Standard;
use std::alloc::AllocError;

/// An attribute of a class of SIMSET or SIMULATION: its name, the type of its parameter and that of its result, if it has them.
#[derive(Clone, Copy)]
pub(crate) struct SetProcedure {
    pub(crate) name: Standard,
    pub(crate) parameter: Option<SimType>,
    pub(crate) result: Option<SimType>,
}

/// An attribute of a class of SIMSET or SIMULATION, if that is declared.
pub(crate) fn set_procedure(entry: Option<Entry>) -> Option<SetProcedure>
    ensures { result ≡ set_procedure_of entry }
{
    match entry {
        Some(
            Entry::Attribute {
                name,
                parameter,
                result,
            },
        ) => Some(SetProcedure {
            name,
            parameter,
            result,
        }),
        _ => None,
    }
}

/// The declaration of what an identifier denotes, if that is an attribute of a class of SIMSET or SIMULATION.
#[tactic(auto, unfolding(sim_meaning::specs::Attributes::own_attribute, sim_scope::specs::Source::source_of))]
pub(crate) fn own_attribute(bound: &Bound, token: TokenNo) -> Option<DeclNo>
    ensures { result ≡ own_attribute_of (source_of bound.now) token.0 }
{
    match denoted(bound, token) {
        Some(Denotation::Declared(declaration)) => match entry_of(&bound.scopes, declaration) {
            Some(Entry::Attribute { .. }) => Some(declaration),
            _ => None,
        },
        _ => None,
    }
}

/// How many actual parameters an attribute of an object has.
fn parameter_count(name: Standard) -> usize
    ensures { result ≡ parameter_count_of name }
{
    match name {
        Standard::Follow => 1,
        Standard::Precede => 1,
        Standard::Into => 1,
        _ => 0,
    }
}

/// Whether a procedure leaves a value just where it is declared with a result.
pub(crate) fn leaves_as_declared(procedure: SetProcedure) -> bool
    ensures { result ≡ as_declared procedure.result (has_value (row_of procedure.name).result) }
{
    let leaves = standard_leaves(StandardName::Procedure(procedure.name));
    match procedure.result {
        Some(_) => leaves,
        None => !leaves,
    }
}

/// The number of one that is of an object, and has so many actual parameters.
#[tactic(auto, using(crate::proofs::SetProcedures::numbers))]
fn set_code(procedure: SetProcedure, count: usize) -> Option<u32>
    ensures { FindsSet procedure count result }
{
    if count != parameter_count(procedure.name) {
        return None;
    }
    if leaves_as_declared(procedure) {
        return attribute_number(procedure.name);
    }
    None
}

/// Actual parameters for a formal of this type, or for none. The token is that of the identifier that is called.
#[cycle(emit)]
#[tactic(auto, using(crate::proofs::SetProcedures::sets))]
pub(crate) fn emit_references(
    bound: &Bound,
    cells: &Cells,
    spot: Spot,
    draft: &mut Draft,
    depth: u32,
    token: TokenNo,
    ty: Option<SimType>,
    list: &[Expr],
) -> Result<(), AllocError>
    requires cells { Known bound.now cells.now }
    ensures { OnOk result (WritesReferences bound.now spot depth draft.old draft.new token ty list.now) }
{
    match ty {
        Some(ty) => {
            let formal = Formal {
                mode: Mode::ByReference,
                kind: FormalKind::Simple,
                ty: Some(ty),
            };
            emit_actuals(
                bound,
                cells,
                spot,
                draft,
                depth,
                false,
                token,
                list,
                &[formal],
            )
        }
        None => emit_actuals(bound, cells, spot, draft, depth, false, token, list, &[]),
    }
}

/// An attribute of the object on top, which is tested before the actual parameter. The token is that of its identifier.
#[cycle(emit)]
#[tactic(auto, using(crate::proofs::SetProcedures::sets))]
pub(crate) fn emit_set(
    bound: &Bound,
    cells: &Cells,
    spot: Spot,
    draft: &mut Draft,
    depth: u32,
    token: TokenNo,
    procedure: SetProcedure,
    list: &[Expr],
) -> Result<(), AllocError>
    requires cells { Known bound.now cells.now }
    ensures { OnOk result (WritesSet bound.now spot depth draft.old draft.new token procedure list.now) }
{
    let Some(number) = set_code(procedure, list.len()) else {
        draft.give_up();
        return Ok(());
    };
    let inside = deeper(depth)?;
    draft.put(Instr::NotNone, line_at(bound, token))?;
    emit_references(
        bound,
        cells,
        spot,
        draft,
        inside,
        token,
        procedure.parameter,
        list,
    )?;
    draft.put(standard_instr(number), line_at(bound, token))
}
