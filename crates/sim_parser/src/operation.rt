//! Statements that an operand begins, and activations.
#![tactic(auto, unfolding(sim_tree::specs::Grammar::is))]

ghost use Rattle.std.specs.Prelude.{◌≡◌, ◌≤◌, ◌<◌, ℕ, List, [], ◌∷◌, map, length, true, false, IfOk, MatchOption};
ghost use Rattle.sim_base.specs.declared.token.TokenKind.TheVariants as k;
ghost use Rattle.sim_tree.specs.Grammar as g;
ghost use Rattle.sim_tree.specs.Grammar.{Kept, Of, Maybe, assignments, one_of};
ghost use Rattle.sim_tree.specs.Reading.{done, leaf, node, kind_at, bare_leaf};
ghost use Rattle.sim_tree.specs.Derivation.{raise, row, selector_derivation, derivation_of};
ghost use Rattle.sim_tree.specs.ProgramDerivation.{acted, activation_kind, assigned_derivation, assignment_kind, prior_derivation, statement_derivation, timing_derivation};
ghost use Rattle.sim_expr_parser.specs.Parsing.{GivesRow, GivesTo, IsSource, TookBare};
ghost use Rattle.sim_parser.specs.Parsing.{GivesAll, ReadsAll, activation_row, activation_words, operation_row};

use sim_base::{TokenKind, TokenNo};
use sim_expr_parser::{LIMIT, Source, Stop, add, expression, postfix};
use sim_tree::{Activation, Assigned, Assignment, Expr, Selector, Stmt, Timing};
use std::alloc::{AllocError, Global};

/// Each assignment sign at a token with what stands on its right, and the index after them.
pub fn assigned(source: &Source, start: usize, depth: u32) -> Result<(Vec<Assigned>, usize), Stop>
    requires within { start < length source.now }
    requires shallow { depth ≤ LIMIT }
    ensures { GivesRow source.now depth g.Assigned start (λ v. map assigned_derivation v.items) result }
{
    let mut at = start;
    let mut rest = Vec::new(source.allocator());
    while let Some((sign, next)) = assignment_at(source, at) {
        let (value, end) = expression(source, next, depth)?;
        let token = source.token_no(at);
        add(&mut rest, Assigned { token, sign, value })?;
        at = end;
    }
    Ok((rest, at))
}

// The assignment sign at a token, if one stands there, and the index after it.
fn assignment_at(source: &Source, at: usize) -> Option<(Assignment, usize)>
    requires within { at < length source.now }
    ensures { MatchOption result (one_of assignments (kind_at source.now at) ≡ false) (λ r. TookBare source.now at assignments (assignment_kind r.0) r.1) }
{
    if let Some(next) = source.eat(at, TokenKind::Assign) {
        return Some((Assignment::Value, next));
    }
    let next = source.eat(at, TokenKind::AssignReference)?;
    Some((Assignment::Reference, next))
}

/// A primary with what is taken of it.
pub fn operand(alloc: Global, primary: Expr, selectors: Vec<Selector>) -> Result<Expr, AllocError>
    ensures { (derivation_of primary).level ≡ 0 → IfOk result (λ e. raise 1 (derivation_of e) ≡ node g.Primary (raise 0 (derivation_of primary)) (row g.Selection (map selector_derivation selectors.items) done)) }
{
    if selectors.is_empty() {
        return Ok(primary);
    }
    let primary = Box::new(alloc, primary)?;
    Ok(Expr::Postfix {
        primary,
        rest: selectors,
    })
}

/// The statement of an operand: an assignment to it, or a call of it where nothing is assigned.
pub fn operation(left: Expr, rest: Vec<Assigned>) -> Stmt
    ensures { statement_derivation result ≡ acted (raise 1 (derivation_of left)) (row g.Assigned (map assigned_derivation rest.items) done) }
{
    if rest.is_empty() {
        Stmt::Call { call: left }
    } else {
        Stmt::Assignment { left, rest }
    }
}

/// The statement that begins with `this`, `new` or a parenthesis, and the index after it.
#[inline(never)]
pub fn operation_statement(source: &Source, at: usize, depth: u32) -> Result<(Stmt, usize), Stop>
    requires within { at < length source.now }
    requires shallow { depth ≤ LIMIT }
    requires begins { one_of (k.This ∷ k.New ∷ k.Open ∷ []) (kind_at source.now at) ≡ true }
    ensures { GivesAll source.now depth operation_row at statement_derivation result }
{
    let (left, next) = postfix(source, at, depth)?;
    let (rest, end) = assigned(source, next, depth)?;
    Ok((operation(left, rest), end))
}

/// The statement that begins with `activate` or `reactivate`, and the index after it.
#[inline(never)]
pub fn activation_statement(source: &Source, at: usize, depth: u32) -> Result<(Stmt, usize), Stop>
    requires within { at < length source.now }
    requires shallow { depth ≤ LIMIT }
    ensures { GivesAll source.now depth activation_row at statement_derivation result }
{
    let token = source.token_no(at);
    let (activation, next) = activation_at(source, at)?;
    let (process, next) = expression(source, next, depth)?;
    let (timing, end) = timing(source, next, depth)?;
    Ok((
        Stmt::Activation {
            token,
            activation,
            process,
            timing,
        },
        end,
    ))
}

// The word of an activation, and the index after it.
fn activation_at(source: &Source, at: usize) -> Result<(Activation, usize), Stop>
    requires within { at < length source.now }
    ensures { (d : ℕ) → GivesTo source.now d (Kept activation_words) at (λ a f. bare_leaf at (activation_kind a) f) result }
{
    if let Some(next) = source.eat(at, TokenKind::Activate) {
        return Ok((Activation::Activate, next));
    }
    let next = source.expect(at, TokenKind::Reactivate)?;
    Ok((Activation::Reactivate, next))
}

// When a process is scheduled for, if it is said.
fn timing(source: &Source, at: usize, depth: u32) -> Result<(Option<Timing>, usize), Stop>
    requires within { at < length source.now }
    requires shallow { depth ≤ LIMIT }
    ensures { GivesAll source.now depth (Of Maybe g.Timing ∷ []) at timing_derivation result }
{
    let token = source.token_no(at);
    if let Some(next) = source.eat(at, TokenKind::At) {
        let (time, next) = expression(source, next, depth)?;
        let (prior, end) = prior(source, next);
        return Ok((Some(Timing::At { token, time, prior }), end));
    }
    if let Some(next) = source.eat(at, TokenKind::Delay) {
        let (time, next) = expression(source, next, depth)?;
        let (prior, end) = prior(source, next);
        return Ok((Some(Timing::Delay { token, time, prior }), end));
    }
    if let Some(next) = source.eat(at, TokenKind::Before) {
        let (process, end) = expression(source, next, depth)?;
        return Ok((Some(Timing::Before { token, process }), end));
    }
    let Some(next) = source.eat(at, TokenKind::After) else {
        return Ok((None, at));
    };
    let (process, end) = expression(source, next, depth)?;
    Ok((Some(Timing::After { token, process }), end))
}

// The token of `prior`, if it stands there, and the index after it.
fn prior(source: &Source, at: usize) -> (Option<TokenNo>, usize)
    requires within { at < length source.now }
    ensures { (d : ℕ) → ReadsAll source.now d (Of Maybe g.PriorMark ∷ []) at (prior_derivation result.0) result.1 }
{
    match source.eat(at, TokenKind::Prior) {
        Some(next) => (Some(source.token_no(at)), next),
        None => (None, at),
    }
}
