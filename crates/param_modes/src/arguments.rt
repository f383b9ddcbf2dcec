//! The actual parameters of a call.
ghost use Rattle.std.specs.Prelude.{◌≡◌, ◌+◌, ◌<◌, ◌^◌, slice_get};
ghost use Rattle.sim_scope.specs.Judged.{Judges};
ghost use Rattle.param_modes.specs.Fits.{Fits, Holds, Settles, held_one, misfit_events, settled};

use crate::heading::Heading;
use sim_base::{Rule, TokenNo};
use sim_scope::{Actuals, Extent, Fault, Formal, Found, Outcome, Scopes, StaticRefusal};
use sim_tree::{Expr, first_token};
use sim_types::{actual, formal_or_none, judge, with_actual};
use std::alloc::Global;

/// The formal parameter at a place, if there is one.
fn formal_at(formals: &[Formal], place: usize) -> Option<Formal>
    ensures { result ≡ slice_get formals.now place }
{
    formals.get(place).copied()
}

/// One more actual, with its first token, against the formal parameter at its place.
fn held_one(
    scopes: &Scopes,
    formals: &[Formal],
    found: &mut Found,
    actuals: Actuals,
    first: TokenNo,
    outcome: Outcome,
) -> Actuals
    requires { actuals.count + 1 < 2 ^ 64 }
    ensures { Judges found.old found.new result (held_one scopes.now formals.now actuals first.0 outcome) }
{
    let parameter = formal_or_none(formal_at(formals, actuals.count));
    let one = actual(scopes, found, first, parameter, outcome);
    with_actual(actuals, one)
}

/// All actuals against the formal parameters.
fn held(scopes: &Scopes, formals: &[Formal], found: &mut Found, arguments: &[Expr]) -> Actuals
    ensures { Holds scopes.now formals.now found.old found.new result arguments.now }
{
    let mut actuals = Actuals {
        typed: true,
        count: 0,
        misfit: None,
    };
    for argument in arguments {
        let outcome = judge(scopes, Extent::Statement, found, argument);
        actuals = held_one(
            scopes,
            formals,
            found,
            actuals,
            first_token(argument),
            outcome,
        );
    }
    actuals
}

/// The least misfit, if there is one.
#[tactic(auto, unfolding(crate::specs::Fits::Settles, sim_scope::specs::Runs::run))]
fn misfit(found: &mut Found, fault: Option<Fault>)
    ensures { Settles found.old found.new (misfit_events fault) }
{
    if let Some(fault) = fault {
        found.note(fault.token, fault.rule);
    }
}

/// How many there are, and then the least misfit. Where a rule is broken in an actual, the call is not judged.
#[tactic(auto, unfolding(crate::specs::Fits::Settles, crate::specs::Fits::settled, sim_scope::specs::Runs::run))]
fn settle(found: &mut Found, formals: usize, called: TokenNo, actuals: Actuals)
    ensures { Settles found.old found.new (settled formals called.0 actuals) }
{
    if actuals.typed {
        if formals == actuals.count {
            misfit(found, actuals.misfit);
        } else {
            found.note(called, Rule::WrongNumber);
        }
    }
}

/// Whether the actual parameters of a call, whose identifier stands at a token, fit a heading: whether there are as many as it has formal
/// parameters, and whether each is of the kind and type of its formal parameter. An error has the least rule that is broken there or inside
/// an actual, or tells that memory was wanting.
#[tactic(auto, using(crate::proofs::Holding::fits_in_steps))]
pub fn fits(
    alloc: Global,
    heading: &Heading,
    called: TokenNo,
    actuals: &[Expr],
    scopes: &Scopes,
) -> Result<(), StaticRefusal>
    ensures { Fits scopes.now heading.now.formals.items called.0 actuals.now result }
{
    let mut found = Found::new(alloc, 0)?;
    let given = held(scopes, &heading.formals, &mut found, actuals);
    settle(&mut found, heading.formals.len(), called, given);
    match found.least() {
        Some(fault) => Err(StaticRefusal::Broken {
            rule: fault.rule,
            token: fault.token,
        }),
        None => Ok(()),
    }
}
