//! What a walk over a program has found: the least broken rule, and what its identifiers and expressions are.
ghost use Rattle.std.specs.Prelude.{◌≡◌, None, Some, replicate, IfOk};
ghost use Rattle.sim_scope.specs.Found.{Broken, FoundIn, Typed, Uses, found, lesser, lesser_of, precedes, rank, unknown};

use crate::bound::Bound;
use crate::scopes::{Denotation, Scopes};
use crate::types::SimType;
use sim_base::{Rule, TokenNo};
use sim_tree::Program;
use std::alloc::{AllocError, Global};
use std::marker::Model;

/// A broken rule, and the token where it is broken.
#[derive(Clone, Copy, Debug, PartialEq, Eq)]
pub struct Fault {
    /// Where.
    pub token: TokenNo,
    /// Which rule.
    pub rule: Rule,
}

/// What was found. Contracts see the least broken rule and the three tables.
#[derive(Drop)]
pub struct Found {
    least: Option<Fault>,
    uses: Vec<Option<Denotation>>,
    found_in: Vec<Option<u32>>,
    types: Vec<Option<SimType>>,
}

impl Model for Found {
    ghost use Rattle.sim_scope.specs.Found.{Findings};

    ghost Value = { Findings };

    ghost view = { λ f. record { least = f.least; uses = f.uses.items; found_in = f.found_in.items; types = f.types.items } };
}

/// The place of a rule in the table.
fn rank(rule: Rule) -> u8
    ensures { result ≡ rank rule }
{
    rule as u8
}

/// Whether a fault comes first: at the lesser token, and on one token by the table of rules.
#[tactic(auto, unfolding(crate::specs::Found::precedes))]
pub fn precedes(fault: Fault, other: Fault) -> bool
    ensures { result ≡ precedes fault other }
{
    fault.token.0 < other.token.0
        || fault.token == other.token && rank(fault.rule) < rank(other.rule)
}

/// The lesser of the faults so far and one more.
pub fn lesser(least: Option<Fault>, fault: Fault) -> Option<Fault>
    ensures { result ≡ lesser least fault }
{
    match least {
        Some(least) => {
            if precedes(fault, least) {
                Some(fault)
            } else {
                Some(least)
            }
        }
        None => Some(fault),
    }
}

/// No uses yet.
fn nothing_used(alloc: Global, count: usize) -> Result<Vec<Option<Denotation>>, AllocError>
    ensures { IfOk result (λ list. list.items ≡ replicate count None) }
{
    let mut list = Vec::new(alloc);
    for made in 0..count {
        list.push(None)?;
    }
    Ok(list)
}

/// Nothing found in a block yet.
fn nowhere_found(alloc: Global, count: usize) -> Result<Vec<Option<u32>>, AllocError>
    ensures { IfOk result (λ list. list.items ≡ replicate count None) }
{
    let mut list = Vec::new(alloc);
    for made in 0..count {
        list.push(None)?;
    }
    Ok(list)
}

/// No types yet.
fn nothing_typed(alloc: Global, count: usize) -> Result<Vec<Option<SimType>>, AllocError>
    ensures { IfOk result (λ list. list.items ≡ replicate count None) }
{
    let mut list = Vec::new(alloc);
    for made in 0..count {
        list.push(None)?;
    }
    Ok(list)
}

impl Found {
    /// Nothing, of so many tokens.
    pub fn new(alloc: Global, tokens: usize) -> Result<Found, AllocError>
        ensures { IfOk result (λ found. found ≡ unknown tokens) }
    {
        Ok(Found {
            least: None,
            uses: nothing_used(alloc, tokens)?,
            found_in: nowhere_found(alloc, tokens)?,
            types: nothing_typed(alloc, tokens)?,
        })
    }

    /// Nothing, of no token: it takes no memory, and lets go what identifiers denote and what expressions are.
    pub fn none(alloc: Global) -> Found
        ensures { result ≡ unknown 0 }
    {
        Found {
            least: None,
            uses: Vec::new(alloc),
            found_in: Vec::new(alloc),
            types: Vec::new(alloc),
        }
    }

    /// The least broken rule, if there is one.
    pub fn least(&self) -> Option<Fault>
        ensures { result ≡ self.now.least }
    {
        self.least
    }

    /// A program with its tables and with what was found in it.
    pub fn bind_program(self, program: Program, scopes: Scopes) -> Bound
        ensures program { result.program ≡ program }
        ensures scopes { result.scopes ≡ scopes }
        ensures uses { result.uses.items ≡ self.uses }
        ensures found_in { result.found_in.items ≡ self.found_in }
        ensures types { result.types.items ≡ self.types }
    {
        Bound {
            program,
            scopes,
            uses: self.uses,
            found_in: self.found_in,
            types: self.types,
        }
    }

    /// A rule is broken at a token.
    #[tactic(auto, unfolding(crate::specs::Found::found))]
    pub fn note(&mut self, token: TokenNo, rule: Rule)
        ensures { self.new ≡ found self.old (Broken token.0 rule) }
    {
        self.least = lesser(self.least, Fault { token, rule });
    }

    /// The lesser of the faults so far and the least of a part, if it has any.
    pub fn note_least(&mut self, part: Option<Fault>)
        ensures { self.new ≡ record self.old { least = lesser_of self.old.least part } }
    {
        if let Some(fault) = part {
            self.least = lesser(self.least, fault);
        }
    }

    /// An identifier denotes something. A token outside the program is let go.
    #[tactic(auto, unfolding(crate::specs::Found::found))]
    pub fn bind(&mut self, token: TokenNo, denotation: Denotation)
        ensures { self.new ≡ found self.old (Uses token.0 denotation) }
    {
        if let Some(slot) = self.uses.get_mut(token.0 as usize) {
            *slot = Some(denotation);
        }
    }

    /// An identifier, or the object of `this`, is found in a block. A token outside the program is let go.
    #[tactic(auto, unfolding(crate::specs::Found::found))]
    pub fn locate(&mut self, token: TokenNo, block: u32)
        ensures { self.new ≡ found self.old (FoundIn token.0 block) }
    {
        if let Some(slot) = self.found_in.get_mut(token.0 as usize) {
            *slot = Some(block);
        }
    }

    /// An expression has a type. A token outside the program is let go.
    #[tactic(auto, unfolding(crate::specs::Found::found))]
    pub fn typed(&mut self, token: TokenNo, ty: SimType)
        ensures { self.new ≡ found self.old (Typed token.0 ty) }
    {
        if let Some(slot) = self.types.get_mut(token.0 as usize) {
            *slot = Some(ty);
        }
    }
}
