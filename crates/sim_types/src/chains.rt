//! Classes on one prefix chain, and the common type of two types.
ghost use Rattle.std.specs.Prelude.{◌≡◌};
ghost use Rattle.sim_scope.specs.Levels.{is_in_chain};
ghost use Rattle.sim_scope.specs.Operators.{common_type as common_of};

use crate::fit::common_type;
use sim_base::DeclNo;
use sim_scope::{Scopes, SimType, is_in_chain};

/// Whether a class is another one, or has it in its prefix chain.
pub fn subordinate(scopes: &Scopes, inner: DeclNo, outer: DeclNo) -> bool
    ensures { result ≡ is_in_chain scopes.now inner outer }
{
    is_in_chain(scopes, inner, outer)
}

/// The common type of two types, and none exactly where they have none: two references have the innermost class that both chains have, `none`
/// agrees with each reference, and others have one where they are the same.
pub fn common(scopes: &Scopes, first: &SimType, second: &SimType) -> Option<SimType>
    ensures { result ≡ common_of scopes.now first.now second.now }
{
    common_type(scopes, *first, *second)
}
