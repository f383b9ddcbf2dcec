//! Operators that share a level with others.
#![tactic(auto, unfolding(sim_tree::specs::Grammar::is))]

ghost use Rattle.std.specs.Prelude.{◌≡◌, ◌<◌, false, length, MatchOption};
ghost use Rattle.sim_tree.specs.Grammar.{one_of, relations, signs};
ghost use Rattle.sim_tree.specs.Reading.{kind_at};
ghost use Rattle.sim_tree.specs.Derivation.{sign_kind, multiplication_kind, relation_kind, membership_kind};
ghost use Rattle.sim_expr_parser.specs.Parsing.{TookBare, GivesSign, multiplications, tests};

use crate::source::Source;
use sim_base::TokenKind;
use sim_tree::{LeadingSign, Membership, Multiplication, Relation, Sign};

/// The sign at a token, and the index after it.
pub fn sign_at(source: &Source, at: usize) -> Option<(Sign, usize)>
    requires within { at < length source.now }
    ensures { MatchOption result (one_of signs (kind_at source.now at) ≡ false) (λ r. TookBare source.now at signs (sign_kind r.0) r.1) }
{
    if let Some(next) = source.eat(at, TokenKind::Plus) {
        return Some((Sign::Plus, next));
    }
    let next = source.eat(at, TokenKind::Minus)?;
    Some((Sign::Minus, next))
}

/// The sign in front of a sum, and the index after it, which is the same one where there is none.
pub fn leading_sign(source: &Source, at: usize) -> (Option<LeadingSign>, usize)
    requires within { at < length source.now }
    ensures { GivesSign source.now at result.0 result.1 }
{
    let token = source.token_no(at);
    match sign_at(source, at) {
        Some((sign, next)) => (Some(LeadingSign { token, sign }), next),
        None => (None, at),
    }
}

/// The operator of a product at a token, and the index after it.
pub fn multiplication_at(source: &Source, at: usize) -> Option<(Multiplication, usize)>
    requires within { at < length source.now }
    ensures { MatchOption result (one_of multiplications (kind_at source.now at) ≡ false) (λ r. TookBare source.now at multiplications (multiplication_kind r.0) r.1) }
{
    if let Some(next) = source.eat(at, TokenKind::Times) {
        return Some((Multiplication::Times, next));
    }
    let next = source.eat(at, TokenKind::Divide)?;
    Some((Multiplication::Divide, next))
}

/// The test of a class at a token, and the index after it.
pub fn membership_at(source: &Source, at: usize) -> Option<(Membership, usize)>
    requires within { at < length source.now }
    ensures { MatchOption result (one_of tests (kind_at source.now at) ≡ false) (λ r. TookBare source.now at tests (membership_kind r.0) r.1) }
{
    if let Some(next) = source.eat(at, TokenKind::Is) {
        return Some((Membership::Is, next));
    }
    let next = source.eat(at, TokenKind::In)?;
    Some((Membership::In, next))
}

// The relation that a kind stands for.
fn relation_of(kind: TokenKind) -> Option<Relation>
    ensures { MatchOption result (one_of relations kind ≡ false) (λ r. kind ≡ relation_kind r) }
{
    match kind {
        TokenKind::Less => Some(Relation::Less),
        TokenKind::LessEqual => Some(Relation::LessEqual),
        TokenKind::Equal => Some(Relation::Equal),
        TokenKind::GreaterEqual => Some(Relation::GreaterEqual),
        TokenKind::Greater => Some(Relation::Greater),
        TokenKind::NotEqual => Some(Relation::NotEqual),
        TokenKind::SameReference => Some(Relation::SameReference),
        TokenKind::OtherReference => Some(Relation::OtherReference),
        _ => None,
    }
}

/// The relation at a token, and the index after it.
pub fn relation_at(source: &Source, at: usize) -> Option<(Relation, usize)>
    requires within { at < length source.now }
    ensures { MatchOption result (one_of relations (kind_at source.now at) ≡ false) (λ r. TookBare source.now at relations (relation_kind r.0) r.1) }
{
    let kind = source.kind_at(at);
    let relation = relation_of(kind)?;
    Some((relation, source.eat(at, kind)?))
}
