//! The static rules of a whole program.
ghost use Rattle.std.specs.Prelude.{◌≡◌, IfOk, length};
ghost use Rattle.sim_scope.specs.Declare.{declarations_of};
ghost use Rattle.sim_scope.specs.Found.{lesser_of, unknown};
ghost use Rattle.prefix_bind.specs.Prefixes.{prefixed};
ghost use Rattle.sim_tree.specs.SyntaxOfProgram.{program_syntax};
ghost use Rattle.sim_static.specs.Check.{Answers, IsBound, first_least, judged};

use crate::judging::whole;
use crate::prefix::program_prefix;
use inspect_types::connections;
use prefix_bind::concat;
use sim_base::Memory;
use sim_scope::{Bound, Declared, Fault, Found, Scopes, StaticRefusal, declare, lesser};
use sim_tree::Program;
use std::alloc::Global;
use virtual_match::{qualify, second_round};

/// The least of two faults, where there are any.
fn lesser_of(least: Option<Fault>, part: Option<Fault>) -> Option<Fault>
    ensures { result ≡ lesser_of least part }
{
    match part {
        Some(fault) => lesser(least, fault),
        None => least,
    }
}

/// The first round: the tables with the class of each prefix, and the least rule that it finds broken.
fn first_round(alloc: Global, program: &Program) -> Result<Declared, Memory>
    ensures tables { IfOk result (λ declared. declared.scopes ≡ prefixed (declarations_of program.now).tables) }
    ensures broken { IfOk result (λ declared. declared.broken ≡ first_least (declarations_of program.now)) }
{
    let Declared { scopes, broken } = declare(alloc, program)?;
    let mut scopes = scopes;
    let prefixes = concat(alloc, &mut scopes)?;
    Ok(Declared {
        scopes,
        broken: lesser_of(broken, prefixes),
    })
}

/// The last round.
#[tactic(auto, using(crate::proofs::LastRound::rounds))]
fn last_round(scopes: &Scopes, found: Found, program: &Program) -> Found
    requires { found ≡ unknown (length program.now.lines.items) }
    ensures { result ≡ judged (length program.now.lines.items) scopes.now (program_syntax program.now) }
{
    let mut found = found;
    program_prefix(scopes, &mut found, &program.prefix, program.block.token);
    whole(scopes, &mut found, &program.block);
    found
}

/// What a rule that is broken refuses.
fn refusal(fault: Fault) -> StaticRefusal
    ensures { result ≡ StaticRefusal.Broken fault.rule fault.token }
{
    StaticRefusal::Broken {
        rule: fault.rule,
        token: fault.token,
    }
}

/// Checks a program by the static rules. On success it comes back with its block tables, with what its identifiers denote and with the
/// types of its expressions. Else the error has the first rule that it breaks, at the least token, or tells that memory was wanting.
#[tactic(auto, unfolding(crate::specs::Check::answer, crate::specs::Check::completed, crate::specs::Check::IsBound, sim_scope::specs::Declare::declarations_of))]
pub fn check(alloc: Global, program: Program) -> Result<Bound, StaticRefusal>
    ensures answers { Answers program result }
    ensures bound { IfOk result IsBound }
{
    let Declared { scopes, broken } = first_round(alloc, &program)?;
    if let Some(fault) = broken {
        return Err(refusal(fault));
    }
    let mut scopes = scopes;
    qualify(&mut scopes);
    let scopes = connections(alloc, scopes, &program);
    if let Some(fault) = second_round(&scopes) {
        return Err(refusal(fault));
    }
    let found = last_round(&scopes, Found::new(alloc, program.lines.len())?, &program);
    match found.least() {
        Some(fault) => Err(refusal(fault)),
        None => Ok(found.bind_program(program, scopes)),
    }
}
