//! Tests of the next token, and steps over semicolons.
#![tactic(auto, unfolding(sim_tree::specs::Grammar::is))]

ghost use Rattle.std.specs.Prelude.{◌≡◌, ◌+◌, ◌<◌, ℕ, true, false, length, MatchOption};
ghost use Rattle.sim_tree.specs.Grammar.{Any, is, one_of, types};
ghost use Rattle.sim_tree.specs.Reading.{kind_at};
ghost use Rattle.sim_base.specs.declared.token.TokenKind.TheVariants as k;
ghost use Rattle.sim_expr_parser.specs.Parsing.{ReadsTo};
ghost use Rattle.sim_parser.specs.Parsing.{Closes, begins as begins_spec, begins_declaration as declaration_spec};

use sim_base::TokenKind;
use sim_expr_parser::{Source, Stop};

/// Whether a kind begins a type.
pub fn begins_type(kind: TokenKind) -> bool
    ensures { result ≡ one_of types kind }
{
    matches!(
        kind,
        TokenKind::IntegerWord
            | TokenKind::Boolean
            | TokenKind::CharacterWord
            | TokenKind::TextWord
            | TokenKind::Ref
    )
}

/// Whether a kind begins a declaration. The prefix of a class is not looked at.
pub fn begins_declaration(kind: TokenKind) -> bool
    ensures { result ≡ one_of declaration_spec kind }
{
    kind == TokenKind::Procedure || kind == TokenKind::Class || begins_type(kind)
}

/// Whether a kind begins a statement that is not empty.
pub fn begins_statement(kind: TokenKind) -> bool
    ensures { result ≡ one_of begins_spec kind }
{
    matches!(
        kind,
        TokenKind::Identifier
            | TokenKind::Begin
            | TokenKind::Inner
            | TokenKind::This
            | TokenKind::New
            | TokenKind::Open
            | TokenKind::If
            | TokenKind::While
            | TokenKind::For
            | TokenKind::Inspect
            | TokenKind::Activate
            | TokenKind::Reactivate
    )
}

/// The index after all semicolons at a token.
pub fn past_semicolons(source: &Source, start: usize) -> usize
    requires within { start < length source.now }
    ensures { (d : ℕ) → ReadsTo source.now d (Any k.Semicolon) start (λ f. f) result }
{
    let mut at = start;
    while let Some(next) = source.eat(at, TokenKind::Semicolon) {
        at = next;
    }
    at
}

/// The index after what ends a declaration: a semicolon and all further ones, or nothing in front of `end`.
pub fn past_closing(source: &Source, at: usize) -> Result<usize, Stop>
    requires within { at < length source.now }
    ensures { (d : ℕ) → Closes source.now d at result }
{
    if let Some(next) = source.eat(at, TokenKind::Semicolon) {
        return Ok(past_semicolons(source, next));
    }
    if source.kind_at(at) != TokenKind::End {
        return Err(Stop::Unexpected(at));
    }
    Ok(at)
}

/// The index of `class` behind an identifier, where an identifier stands at a token and `class` behind it.
pub fn prefixed_class_at(source: &Source, at: usize) -> Option<usize>
    requires within { at < length source.now }
    ensures { MatchOption result (is (kind_at source.now at) k.Identifier ≡ true → is (kind_at source.now (at + 1)) k.Class ≡ false)
        (λ next. (is (kind_at source.now at) k.Identifier ≡ true) × (next ≡ at + 1) × (next < length source.now) × (is (kind_at source.now next) k.Class ≡ true)) }
{
    let next = source.eat(at, TokenKind::Identifier)?;
    if source.kind_at(next) == TokenKind::Class {
        Some(next)
    } else {
        None
    }
}
