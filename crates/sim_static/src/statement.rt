//! What statements need of their expressions.
ghost use Rattle.std.specs.Prelude.{◌≡◌};
ghost use Rattle.sim_scope.specs.Judged.{Judges};
ghost use Rattle.sim_scope.specs.Statements.{call_alone, needs, stands};
ghost use Rattle.sim_static.specs.StatementWalk.{Tells, of_call, of_required};

use sim_base::{Rule, TokenNo};
use sim_scope::{Barred, Extent, Found, Outcome, Scopes, Side, SimType};
use sim_tree::{Expr, first_token};
use sim_types::{called, is_same, judge, operand};

/// An operand of a type.
#[tactic(auto, unfolding(sim_scope::specs::Statements::needs, sim_scope::specs::Assignments::fine, sim_scope::specs::Assignments::wrong, sim_scope::specs::Judged::gives, sim_scope::specs::Judged::telling, sim_scope::specs::Runs::run))]
fn needs(found: &mut Found, wanted: SimType, operand: Side)
    ensures { Judges found.old found.new result (needs wanted operand) }
{
    if let Some(ty) = operand.ty {
        if !is_same(ty, wanted) {
            found.note(operand.first, Rule::WrongType);
        }
    }
}

/// An expression of a type.
#[tactic(auto, using(crate::proofs::Tellings::tell_required))]
pub(crate) fn required(
    scopes: &Scopes,
    extent: Extent,
    found: &mut Found,
    wanted: SimType,
    expr: &Expr,
)
    ensures { Tells found.old found.new (of_required scopes.now extent wanted expr.now) }
{
    let value = operand(scopes, extent, found, expr);
    needs(found, wanted, value);
}

#[tactic(auto, unfolding(sim_scope::specs::Statements::call_alone, sim_scope::specs::Assignments::fine, sim_scope::specs::Assignments::wrong, sim_scope::specs::Judged::gives, sim_scope::specs::Judged::telling, sim_scope::specs::Runs::run))]
fn call_alone(found: &mut Found, first: TokenNo, outcome: Outcome)
    ensures { Judges found.old found.new result (call_alone first.0 outcome) }
{
    match outcome {
        Outcome::Refused => {}
        Outcome::NoValue => {}
        Outcome::Called(_) => {}
        Outcome::Barred(Barred::Procedure { .. }) => {}
        Outcome::Barred(Barred::Standard { .. }) => {}
        _ => found.note(first, Rule::WrongKind),
    }
}

/// A call that stands alone.
fn stands(scopes: &Scopes, found: &mut Found, first: TokenNo, outcome: Outcome)
    ensures { Judges found.old found.new result (stands scopes.now first.0 outcome) }
{
    let outcome = called(scopes, found, outcome);
    call_alone(found, first, outcome);
}

/// An expression as a statement.
#[tactic(auto, using(crate::proofs::Tellings::tell_call))]
pub(crate) fn call(scopes: &Scopes, found: &mut Found, expr: &Expr)
    ensures { Tells found.old found.new (of_call scopes.now expr.now) }
{
    let outcome = judge(scopes, Extent::Statement, found, expr);
    stands(scopes, found, first_token(expr), outcome);
}
