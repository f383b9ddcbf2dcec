//! The lexer: from the bytes of a source to its tokens.
ghost use Rattle.std.specs.Prelude.{◌≡◌, ◌≤◌, ◌+◌, IfOk, MatchResult, length};
ghost use Rattle.sim_lexer.specs.Claims.{IsEnded, Refused, Refuses};
ghost use Rattle.sim_lexer.specs.Scanning.{token_at};
ghost use Rattle.sim_lexer.specs.Spelling.{Lexed, Reads, Spelled};

use crate::item::{Item, item_in_front};
use crate::joining::add;
use crate::position::{Position, past};
use crate::refusal::LexRefusal;
use sim_base::{Lexeme, Line, Rule, Token, TokenKind};
use std::alloc::Global;

/// The greatest number of bytes that a source may have.
pub const SOURCE_LIMIT: usize = 1_048_576;

/// The tokens of a source, or the rule that it breaks first.
///
/// Identifiers are in lower case, integers are values, texts and characters are the bytes that they mean, text
/// constants with only separators between them are one, and so are `and then` and `or else`. The last token is the end
/// of the source, at the place behind its last byte.
///
/// A source of more than `SOURCE_LIMIT` bytes breaks X8 at the place `SOURCE_LIMIT`. Any other that breaks a rule is
/// refused at the least place that breaks one, by the first of the rules that are broken there.
pub fn lex(alloc: Global, source: &[u8]) -> Result<Vec<Token>, LexRefusal>
    ensures sound { MatchResult result (λ tokens. Reads source.now (Spelled tokens.items)) (Refuses source.now) }
    ensures exact { (answer : Lexed) → Reads source.now answer
        → MatchResult result (λ tokens. answer ≡ Spelled tokens.items) (Refused answer) }
    ensures ended { IfOk result (λ tokens. IsEnded tokens.items) }
    ensures few { IfOk result (λ tokens. length tokens.items ≤ length source.now + 1) }
{
    if source.len() > SOURCE_LIMIT {
        return Err(LexRefusal::Broken {
            rule: Rule::SourceTooLong,
            place: SOURCE_LIMIT as u32,
        });
    }
    read(alloc, source)
}

// The tokens of a source that is not too long, or the rule that it breaks first.
fn read(alloc: Global, source: &[u8]) -> Result<Vec<Token>, LexRefusal>
    requires { length source.now ≤ SOURCE_LIMIT }
    ensures sound { MatchResult result (λ tokens. Reads source.now (Spelled tokens.items)) (Refuses source.now) }
    ensures ended { IfOk result (λ tokens. IsEnded tokens.items) }
    ensures few { IfOk result (λ tokens. length tokens.items ≤ length source.now + 1) }
{
    let mut tokens = Vec::new(alloc);
    let mut at = Position {
        place: 0,
        line: 1,
        begins_line: true,
    };
    let mut rest = source;
    'items: loop {
        let [byte, ..] = rest else {
            let end = Lexeme::bare(TokenKind::EndOfSource);
            add(alloc, &mut tokens, token(at, end))?;
            return Ok(tokens);
        };
        match item_in_front(alloc, at.begins_line, *byte, rest)? {
            Item::Skipped(size) => {
                let (piece, behind) = rest.split_at(size);
                at = past(at, piece);
                rest = behind;
            }
            Item::Lexeme(lexeme, size) => {
                let (piece, behind) = rest.split_at(size);
                add(alloc, &mut tokens, token(at, lexeme))?;
                at = past(at, piece);
                rest = behind;
            }
            Item::Fault(rule) => {
                return Err(LexRefusal::Broken {
                    rule,
                    place: at.place,
                });
            }
        }
    }
}

// The token of this lexeme that begins here.
fn token(at: Position, lexeme: Lexeme) -> Token
    ensures token { result ≡ token_at at lexeme }
{
    Token {
        lexeme,
        place: at.place,
        line: Line(at.line),
    }
}
