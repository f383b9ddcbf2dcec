//! Whether a call that stands as a statement leaves a value.
ghost use Rattle.std.specs.Prelude.{◌≡◌};
ghost use Rattle.sim_meaning.specs.Statements.{denoted_leaves, entry_leaves};
ghost use Rattle.sim_scope.specs.Source.{source_of};
ghost use Rattle.sim_scope.specs.Scopes.{entry_of, result_of};

use codegen_expr::standard_leaves;
use sim_base::DeclNo;
use sim_scope::{Bound, Denotation, Entry, Scopes, SimType, entry_of};

/// What a procedure gives.
#[tactic(auto, unfolding(sim_scope::specs::Scopes::result_of))]
fn result_of(scopes: &Scopes, declaration: DeclNo) -> Option<SimType>
    ensures { result ≡ result_of scopes.now declaration }
{
    match entry_of(scopes, declaration) {
        Some(Entry::Procedure { result, .. }) => result,
        Some(Entry::Virtual { result, .. }) => result,
        _ => None,
    }
}

/// Whether a call of what is declared leaves a value, also where that is a procedure of SIMSET or a formal parameter.
#[tactic(auto, unfolding(sim_scope::specs::Source::source_of))]
fn entry_leaves(bound: &Bound, declaration: DeclNo) -> bool
    ensures { result ≡ entry_leaves (source_of bound.now) declaration (entry_of (source_of bound.now).tables declaration) }
{
    match entry_of(&bound.scopes, declaration) {
        Some(Entry::Attribute { result, .. }) => result.is_some(),
        Some(Entry::Formal(formal)) => formal.ty.is_some(),
        _ => result_of(&bound.scopes, declaration).is_some(),
    }
}

/// Whether a call of what is denoted leaves a value.
#[tactic(auto, unfolding(sim_scope::specs::Source::source_of))]
pub(crate) fn leaves(bound: &Bound, denotation: Option<Denotation>) -> bool
    ensures { result ≡ denoted_leaves (source_of bound.now) denotation }
{
    match denotation {
        Some(Denotation::Declared(declaration)) => entry_leaves(bound, declaration),
        Some(Denotation::Standard(name)) => standard_leaves(name),
        None => false,
    }
}
