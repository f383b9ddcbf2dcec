//! Neighbours that are one token: text constants, `and` and `then`, `or` and `else`.
ghost use Rattle.std.specs.Prelude.{◌≡◌, ◌++◌, IfOk, OnOk};
ghost use Rattle.sim_base.specs.Lexeme.{bytes_of, text};
ghost use Rattle.sim_lexer.specs.Scanning.{last_may_join, may_join};
ghost use Rattle.sim_lexer.specs.Spelling.{joined_lexeme, neighbours, with_next};

use crate::texts::text;
use sim_base::{Lexeme, Token, TokenKind, TokenValue};
use std::alloc::{AllocError, Global};

/// Puts a token behind others, joined to the last of them where the two are one token, at the place of the first.
pub(crate) fn add(alloc: Global, tokens: &mut Vec<Token>, next: Token) -> Result<(), AllocError>
    ensures tokens { OnOk result (tokens.new.items ≡ with_next tokens.old.items next) }
{
    if last_may_join(tokens) {
        join(alloc, tokens, next)
    } else {
        tokens.push(next)?;
        Ok(())
    }
}

// Whether the last token is of a kind that may be one with the next.
fn last_may_join(tokens: &[Token]) -> bool
    ensures answer { result ≡ last_may_join tokens.now }
{
    match tokens.last() {
        Some(last) => may_join(last.lexeme.kind),
        None => false,
    }
}

// Whether a token of this kind may be one with the next.
fn may_join(kind: TokenKind) -> bool
    ensures answer { result ≡ may_join kind }
{
    matches!(kind, TokenKind::Text | TokenKind::And | TokenKind::Or)
}

// Puts a token behind others, of which the last may be one with it.
#[tactic(auto, using(crate::proofs::JoiningLemmas::with_next_behind))]
fn join(alloc: Global, tokens: &mut Vec<Token>, next: Token) -> Result<(), AllocError>
    ensures tokens { OnOk result (tokens.new.items ≡ with_next tokens.old.items next) }
{
    match tokens.pop() {
        Some(last) => add_behind(alloc, tokens, last, next),
        None => {
            tokens.push(next)?;
            Ok(())
        }
    }
}

// Puts two neighbours behind others, as one where they make one.
fn add_behind(
    alloc: Global,
    tokens: &mut Vec<Token>,
    last: Token,
    next: Token,
) -> Result<(), AllocError>
    ensures tokens { OnOk result (tokens.new.items ≡ tokens.old.items ++ neighbours (joined_lexeme last.lexeme next.lexeme) last next) }
{
    let Token { place, line, .. } = last;
    let lexeme = match (last.lexeme.kind, next.lexeme.kind) {
        (TokenKind::Text, TokenKind::Text) => joined_text(alloc, last.lexeme, next.lexeme)?,
        (TokenKind::And, TokenKind::Then) => Lexeme::bare(TokenKind::AndThen),
        (TokenKind::Or, TokenKind::Else) => Lexeme::bare(TokenKind::OrElse),
        _ => {
            tokens.push(last)?;
            tokens.push(next)?;
            return Ok(());
        }
    };
    tokens.push(Token {
        lexeme,
        place,
        line,
    })?;
    Ok(())
}

// Two text constants as one.
fn joined_text(alloc: Global, first: Lexeme, next: Lexeme) -> Result<Lexeme, AllocError>
    ensures text { IfOk result (λ joined. joined ≡ text (bytes_of first.value ++ bytes_of next.value)) }
{
    let mut bytes = match first.value {
        TokenValue::Bytes(bytes) => bytes.into_bytes(),
        _ => Vec::new(alloc),
    };
    bytes.extend_from_slice(next.value.bytes())?;
    Ok(text(bytes))
}
