//! The prefixes of blocks and classes, and the actual parameters of a block's.
ghost use Rattle.std.specs.Prelude.{◌≡◌};
ghost use Rattle.sim_scope.specs.Judged.{Judges};
ghost use Rattle.sim_scope.specs.Statements.{class_denoted, prefix_applied, prefix_at, prefix_used, prefixed_with};
ghost use Rattle.sim_static.specs.StatementWalk.{Tells, of_class_prefix, of_prefix, of_program_prefix};

use crate::assignment::told;
use sim_base::{DeclNo, Rule, TokenNo};
use sim_scope::{
    Actuals, Denotation, Extent, Found, Scopes, StandardName, block_at, owner_of_level,
};
use sim_tree::{BlockPrefix, Identifier};
use sim_types::{actuals, formal_count};

fn class_denoted(class: Option<DeclNo>) -> Option<Denotation>
    ensures { result ≡ class_denoted class }
{
    match class {
        Some(class) => Some(Denotation::Declared(class)),
        None => None,
    }
}

/// The prefix of the block in which a token stands, as the first round found it.
#[tactic(auto, unfolding(sim_scope::specs::Statements::prefix_at))]
fn prefix_at(scopes: &Scopes, token: TokenNo) -> Option<Denotation>
    ensures { result ≡ prefix_at scopes.now token.0 }
{
    let block = block_at(scopes, token)?;
    let row = scopes.blocks().get(block as usize)?;
    match row.standard() {
        Some(which) => Some(Denotation::Standard(StandardName::Prefix(which))),
        None => class_denoted(owner_of_level(scopes, row.base())),
    }
}

/// A use of a class as a prefix.
#[tactic(auto, unfolding(sim_scope::specs::Judged::gives, sim_scope::specs::Judged::telling, sim_scope::specs::Runs::run))]
fn prefix_used(found: &mut Found, token: TokenNo, class: Option<Denotation>) -> Option<Denotation>
    ensures { Judges found.old found.new result (prefix_used token.0 class) }
{
    match class {
        Some(class) => {
            found.bind(token, class);
            Some(class)
        }
        None => None,
    }
}

/// `S15`: there are as many actuals as the levels of the class have parameters.
#[tactic(auto, unfolding(sim_scope::specs::Assignments::wrong, sim_scope::specs::Judged::telling, sim_scope::specs::Runs::run))]
fn prefix_applied(
    scopes: &Scopes,
    found: &mut Found,
    token: TokenNo,
    class: Denotation,
    actuals: Actuals,
)
    ensures { Judges found.old found.new result (prefix_applied scopes.now token.0 class actuals) }
{
    if formal_count(scopes, class) == actuals.count as u128 {
        told(found, actuals.misfit);
    } else {
        found.note(token, Rule::WrongNumber);
    }
}

#[tactic(auto, unfolding(sim_scope::specs::Statements::prefixed_with, sim_scope::specs::Assignments::fine, sim_scope::specs::Judged::gives, sim_scope::specs::Runs::run))]
fn prefixed_with(
    scopes: &Scopes,
    found: &mut Found,
    token: TokenNo,
    class: Option<Denotation>,
    actuals: Actuals,
)
    ensures { Judges found.old found.new result (prefixed_with scopes.now token.0 class actuals) }
{
    if let Some(class) = class {
        if actuals.typed {
            prefix_applied(scopes, found, token, class, actuals);
        }
    }
}

/// The prefix of a block, which begins at a token, with its actual parameters.
#[tactic(auto, using(crate::proofs::Tellings::tell_prefix))]
pub(crate) fn block_prefix(scopes: &Scopes, found: &mut Found, prefix: &BlockPrefix, begin: TokenNo)
    ensures { Tells found.old found.new (of_prefix scopes.now prefix.now begin.0) }
{
    let token = prefix.class.token;
    let class = prefix_used(found, token, prefix_at(scopes, begin));
    let given = actuals(scopes, Extent::Statement, found, class, &prefix.arguments);
    prefixed_with(scopes, found, token, class, given);
}

/// The prefix of a program's block, where it has one.
#[tactic(auto, using(crate::proofs::Tellings::program_prefixes))]
pub(crate) fn program_prefix(
    scopes: &Scopes,
    found: &mut Found,
    prefix: &Option<BlockPrefix>,
    begin: TokenNo,
)
    ensures { Tells found.old found.new (of_program_prefix scopes.now prefix.now begin.0) }
{
    match prefix {
        Some(prefix) => block_prefix(scopes, found, prefix, begin),
        None => {}
    }
}

/// The prefix of a class, whose identifier stands at a token.
#[tactic(auto, using(crate::proofs::Tellings::class_prefixes))]
pub(crate) fn class_prefix(
    scopes: &Scopes,
    found: &mut Found,
    prefix: &Option<Identifier>,
    token: TokenNo,
)
    ensures { Tells found.old found.new (of_class_prefix scopes.now prefix.now token.0) }
{
    match prefix {
        Some(name) => {
            prefix_used(found, name.token, prefix_at(scopes, token));
        }
        None => {}
    }
}
