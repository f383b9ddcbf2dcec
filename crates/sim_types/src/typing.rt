//! The type of an expression alone.
ghost use Rattle.sim_types.specs.TypeOf.{TypeIs};

use crate::expressions::operand;
use sim_base::Rule;
use sim_scope::{Extent, Found, Scopes, SimType, StaticRefusal};
use sim_tree::Expr;
use std::alloc::Global;

/// The type of an expression of a program with these tables. An error has the least rule that is broken in the expression, also in the actual
/// parameters of its calls, or tells that memory was wanting. The tables are those of a program of which no declaration, prefix, qualification
/// or virtual breaks a rule: in others an expression may break no rule and have no type, which then is a wrong one at its first token.
#[tactic(auto, unfolding(sim_scope::specs::ExpressionWalk::FindsSide))]
pub fn type_of(alloc: Global, scopes: &Scopes, expr: &Expr) -> Result<SimType, StaticRefusal>
    ensures { TypeIs scopes.now expr.now result }
{
    let mut found = Found::new(alloc, 0)?;
    let value = operand(scopes, Extent::Statement, &mut found, expr);
    match (found.least(), value.ty) {
        (Some(fault), _) => Err(StaticRefusal::Broken {
            rule: fault.rule,
            token: fault.token,
        }),
        (None, Some(ty)) => Ok(ty),
        (None, None) => Err(StaticRefusal::Broken {
            rule: Rule::WrongType,
            token: value.first,
        }),
    }
}
