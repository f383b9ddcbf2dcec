//! Procedures of simulation blocks, and attributes that are seen without a dot.
ghost use Rattle.std.specs.Prelude.{◌≡◌, OnOk};
ghost use Rattle.sim_code.specs.Simulations.{actual_count as actual_count_of, is_simulation_name as is_simulation_name_of};
ghost use Rattle.codegen_expr.specs.EmitSimulations.{FindsSimulation, WritesOwnName, WritesSimulation, WritesSimulationOf, simulation_procedure as simulation_procedure_of};
ghost use Rattle.codegen_expr.specs.Known.{Known};

use crate::cells::Cells;
use crate::classes::found_at;
use crate::draft::{Draft, deeper};
use crate::instructions::standard_instr;
use crate::leaves::{emit_link_to, emit_this};
use crate::lookups::line_at;
use crate::names::simulation_number;
use crate::objects::emit_of;
use crate::sets::{SetProcedure, emit_references, leaves_as_declared, set_procedure};
use crate::spot::Spot;
use sim_base::{DeclNo, TokenNo};
use sim_scope::{Bound, Entry, entry_of};
use sim_tree::Expr;
use sim_values::Standard;
use std::alloc::AllocError;

/// Whether a name is one that simulation blocks have.
fn is_simulation_name(name: Standard) -> bool
    ensures { result ≡ is_simulation_name_of name }
{
    match name {
        Standard::Time => true,
        Standard::Current => true,
        Standard::Main => true,
        Standard::Hold => true,
        Standard::Passivate => true,
        Standard::Wait => true,
        Standard::Cancel => true,
        _ => false,
    }
}

/// An attribute that simulation blocks have, if that is declared.
fn simulation_procedure(entry: Option<Entry>) -> Option<SetProcedure>
    ensures { result ≡ simulation_procedure_of entry }
{
    match set_procedure(entry) {
        Some(procedure) => {
            if is_simulation_name(procedure.name) {
                return Some(procedure);
            }
            None
        }
        None => None,
    }
}

/// How many actual parameters a procedure of a simulation block has.
fn actual_count(name: Standard) -> usize
    ensures { result ≡ actual_count_of name }
{
    match name {
        Standard::Hold => 1,
        Standard::Wait => 1,
        Standard::Cancel => 1,
        _ => 0,
    }
}

/// The number of a procedure that is one of simulation blocks, and has so many actual parameters.
#[tactic(auto, using(crate::proofs::SimulationProcedures::numbers))]
fn simulation_code(procedure: SetProcedure, count: usize) -> Option<u32>
    ensures { FindsSimulation procedure count result }
{
    if count != actual_count(procedure.name) {
        return None;
    }
    if leaves_as_declared(procedure) {
        return simulation_number(procedure.name);
    }
    None
}

/// A procedure of the simulation block that is this text around, with its actual parameter. The token is that of its identifier.
#[cycle(emit)]
#[tactic(auto, using(crate::proofs::SimulationProcedures::simulations))]
fn emit_simulation_of(
    bound: &Bound,
    cells: &Cells,
    spot: Spot,
    draft: &mut Draft,
    depth: u32,
    token: TokenNo,
    text: u32,
    procedure: SetProcedure,
    list: &[Expr],
) -> Result<(), AllocError>
    requires cells { Known bound.now cells.now }
    ensures { OnOk result (WritesSimulationOf bound.now spot depth draft.old draft.new token text procedure list.now) }
{
    let Some(number) = simulation_code(procedure, list.len()) else {
        draft.give_up();
        return Ok(());
    };
    let inside = deeper(depth)?;
    emit_link_to(bound, spot, draft, depth, text)?;
    emit_references(
        bound,
        cells,
        spot,
        draft,
        inside,
        token,
        procedure.parameter,
        list,
    )?;
    draft.put(standard_instr(number), line_at(bound, token))
}

/// A procedure of the simulation block in which it is found. The token is that of its identifier.
#[cycle(emit)]
#[tactic(auto, using(crate::proofs::SimulationProcedures::simulations))]
fn emit_simulation(
    bound: &Bound,
    cells: &Cells,
    spot: Spot,
    draft: &mut Draft,
    depth: u32,
    token: TokenNo,
    procedure: SetProcedure,
    list: &[Expr],
) -> Result<(), AllocError>
    requires cells { Known bound.now cells.now }
    ensures { OnOk result (WritesSimulation bound.now spot depth draft.old draft.new token procedure list.now) }
{
    match found_at(bound, token) {
        Some(text) => {
            emit_simulation_of(
                bound, cells, spot, draft, depth, token, text, procedure, list,
            )
        }
        None => {
            draft.give_up();
            Ok(())
        }
    }
}

/// An attribute of SIMSET or SIMULATION that is seen without a dot: of a simulation block around, or of the object around. The token is that of
/// its identifier.
#[cycle(emit)]
#[tactic(auto, using(crate::proofs::SimulationProcedures::own_names))]
pub(crate) fn emit_own_name(
    bound: &Bound,
    cells: &Cells,
    spot: Spot,
    draft: &mut Draft,
    depth: u32,
    token: TokenNo,
    declaration: DeclNo,
    list: &[Expr],
) -> Result<(), AllocError>
    requires cells { Known bound.now cells.now }
    ensures { OnOk result (WritesOwnName bound.now spot depth draft.old draft.new token declaration list.now) }
{
    match simulation_procedure(entry_of(&bound.scopes, declaration)) {
        Some(procedure) => {
            emit_simulation(bound, cells, spot, draft, depth, token, procedure, list)
        }
        None => {
            emit_this(bound, cells, spot, draft, depth, token)?;
            emit_of(bound, cells, spot, draft, depth, token, declaration, list)
        }
    }
}
