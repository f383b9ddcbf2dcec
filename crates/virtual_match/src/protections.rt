//! The rule on protection parts, and the second round as a whole.
ghost use Rattle.std.specs.Prelude.{◌≡◌, ◌||◌};
ghost use Rattle.sim_scope.specs.Access.{hides};
ghost use Rattle.sim_scope.specs.Levels.{holds, some_level};
ghost use Rattle.sim_scope.specs.Runs.{Runs, each};
ghost use Rattle.prefix_bind.specs.Prefixes.{least_of, noted};
ghost use Rattle.virtual_match.specs.Protections.{hides_nothing, is_hidden_outside, protection_faults, protects_nothing, second_faults};
ghost use Rattle.virtual_match.specs.Qualifying.{qualification_faults};

use crate::matching::with_declarations;
use crate::qualifying::with_qualification;
use prefix_bind::noted_if;
use sim_base::Rule;
use sim_scope::{Fault, Protection, Scopes, base, hidden_outside, lookup, protector};

/// Whether an attribute is protected that its level does not declare.
fn protects_nothing(scopes: &Scopes, part: &Protection) -> bool
    ensures { result ≡ protects_nothing scopes.now part.now }
{
    part.protects && lookup(scopes, part.block, part.attribute.name.as_bytes()).is_none()
}

/// Whether an attribute that a level protects is hidden outside this one. Nor can be hidden what no level protects.
fn is_hidden_outside(scopes: &Scopes, part: &Protection, level: Option<u32>) -> bool
    ensures { result ≡ is_hidden_outside scopes.now part.now level }
{
    match level {
        Some(level) => is_hidden_further_out(scopes, part, level, base(scopes, part.block)),
        None => true,
    }
}

fn is_hidden_further_out(
    scopes: &Scopes,
    part: &Protection,
    level: u32,
    outside: Option<u32>,
) -> bool
    ensures { result ≡ holds (λ b. some_level scopes.now (hides scopes.now level part.now.attribute.name) b) outside }
{
    match outside {
        Some(outside) => hidden_outside(scopes, level, part.attribute.name.as_bytes(), outside),
        None => false,
    }
}

/// Whether an attribute is hidden that is not protected, or hidden already.
fn hides_nothing(scopes: &Scopes, part: &Protection) -> bool
    ensures { result ≡ hides_nothing scopes.now part.now }
{
    part.hides
        && is_hidden_outside(
            scopes,
            part,
            protector(scopes, part.block, part.attribute.name.as_bytes()),
        )
}

/// The lesser of the faults so far and that of an attribute in a protection part (`S9`), if it has one.
#[tactic(auto, unfolding(crate::specs::Protections::protection_faults))]
fn with_protection(scopes: &Scopes, least: Option<Fault>, part: &Protection) -> Option<Fault>
    ensures { Runs noted least result (protection_faults scopes.now part.now) }
{
    let broken = protects_nothing(scopes, part) || hides_nothing(scopes, part);
    noted_if(
        least,
        broken,
        part.attribute.token,
        Rule::ProtectionOfNoAttribute,
    )
}

/// The lesser of the faults so far and those of all protection parts.
#[tactic(auto, using(crate::proofs::Rows::rows))]
fn with_protections(scopes: &Scopes, least: Option<Fault>) -> Option<Fault>
    ensures { Runs noted least result (each (protection_faults scopes.now) scopes.now.protections) }
{
    let mut least = least;
    for part in scopes.protections() {
        least = with_protection(scopes, least, part);
    }
    least
}

/// The lesser of the faults so far and those of all qualifications.
#[tactic(auto, using(crate::proofs::Rows::rows))]
fn with_qualifications(scopes: &Scopes, least: Option<Fault>) -> Option<Fault>
    ensures { Runs noted least result (each (qualification_faults scopes.now) scopes.now.qualifications) }
{
    let mut least = least;
    for written in scopes.qualifications() {
        least = with_qualification(scopes, least, written);
    }
    least
}

/// The least of the rules that qualifications (`S7`), the matches of virtuals (`S8`) and protection parts (`S9`) break. The tables have the
/// class of each reference, as `qualify` gives it.
#[tactic(auto, unfolding(crate::specs::Protections::second_faults, prefix_bind::specs::Prefixes::least_of), using(crate::proofs::Rows::round))]
pub fn second_round(scopes: &Scopes) -> Option<Fault>
    ensures { result ≡ least_of (second_faults scopes.now) }
{
    let least = with_qualifications(scopes, None);
    let least = with_declarations(scopes, least);
    with_protections(scopes, least)
}
