//! Activations.
ghost use Rattle.std.specs.Prelude.{◌≡◌, length};
ghost use Rattle.sim_scope.specs.Judged.{Judges};
ghost use Rattle.sim_scope.specs.Statements.{activates, in_simulation, process_at, process_of, simulation_of};
ghost use Rattle.sim_static.specs.StatementWalk.{Tells, of_activation, of_process, of_timing};

use crate::control::told_unless;
use crate::statement::required;
use sim_base::{DeclNo, Rule, TokenNo};
use sim_scope::{Extent, Found, Scopes, Side, SimType, block_at, first_around, simulation_level};
use sim_tree::{Expr, Timing};
use sim_types::{misfit_of, operand};

/// The place of `process` among what `simulation` declares.
const PROCESS: usize = 3;

/// The level of `simulation` of the innermost block, from one outward, that has one.
fn simulation_of(scopes: &Scopes, block: u32) -> Option<u32>
    ensures { result ≡ simulation_of scopes.now (length scopes.now.blocks) block }
{
    first_around(scopes, block, |b| simulation_level(scopes, b))
}

/// The class `process` of a level of `simulation`.
fn process_of(scopes: &Scopes, level: Option<u32>) -> Option<DeclNo>
    ensures { result ≡ process_of scopes.now level }
{
    let row = scopes.blocks().get(level? as usize)?;
    row.brought_numbers().get(PROCESS).copied()
}

/// The class `process` of the nearest simulation around a token.
#[tactic(auto, unfolding(sim_scope::specs::Statements::process_at))]
fn process_at(scopes: &Scopes, token: TokenNo) -> Option<DeclNo>
    ensures { result ≡ process_at scopes.now token.0 }
{
    let level = match block_at(scopes, token) {
        Some(block) => simulation_of(scopes, block),
        None => None,
    };
    process_of(scopes, level)
}

/// `S20`: an activation stands in a simulation.
#[tactic(auto, unfolding(sim_scope::specs::Runs::Runs, sim_scope::specs::Runs::run))]
fn in_simulation(found: &mut Found, token: TokenNo, process: Option<DeclNo>)
    ensures { Tells found.old found.new (in_simulation token.0 process) }
{
    if process.is_none() {
        found.note(token, Rule::ActivationOutsideSimulation);
    }
}

/// An operand of an activation is a reference (`S13`) on one prefix chain with `process` (`S16`).
#[tactic(auto, unfolding(sim_scope::specs::Statements::activates, sim_scope::specs::Assignments::fine, sim_scope::specs::Judged::gives, sim_scope::specs::Runs::run))]
fn activates(scopes: &Scopes, found: &mut Found, process: Option<DeclNo>, operand: Side)
    ensures { Judges found.old found.new result (activates scopes.now process operand) }
{
    if let (Some(process), Some(ty)) = (process, operand.ty) {
        told_unless(
            found,
            operand.first,
            misfit_of(scopes, SimType::Ref(process), ty),
        );
    }
}

#[tactic(auto, using(crate::proofs::Tellings::tell_process))]
fn process(scopes: &Scopes, found: &mut Found, process: Option<DeclNo>, expr: &Expr)
    ensures { Tells found.old found.new (of_process scopes.now process expr.now) }
{
    let value = operand(scopes, Extent::Statement, found, expr);
    activates(scopes, found, process, value);
}

/// When a process is scheduled for.
#[tactic(auto, using(crate::proofs::Tellings::timings))]
fn timing(scopes: &Scopes, found: &mut Found, class: Option<DeclNo>, timing: &Option<Timing>)
    ensures { Tells found.old found.new (of_timing scopes.now class timing.now) }
{
    match timing {
        Some(Timing::At { time, .. }) => {
            required(scopes, Extent::Statement, found, SimType::Integer, time)
        }
        Some(Timing::Delay { time, .. }) => {
            required(scopes, Extent::Statement, found, SimType::Integer, time)
        }
        Some(Timing::Before { process: other, .. }) => process(scopes, found, class, other),
        Some(Timing::After { process: other, .. }) => process(scopes, found, class, other),
        None => {}
    }
}

/// An activation.
#[tactic(auto, using(crate::proofs::Tellings::tell_activated))]
pub(crate) fn activation(
    scopes: &Scopes,
    found: &mut Found,
    token: TokenNo,
    expr: &Expr,
    schedule: &Option<Timing>,
)
    ensures { Tells found.old found.new (of_activation scopes.now token.0 expr.now schedule.now) }
{
    let class = process_at(scopes, token);
    in_simulation(found, token, class);
    process(scopes, found, class, expr);
    timing(scopes, found, class, schedule);
}
