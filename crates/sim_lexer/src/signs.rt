//! The tokens that are written by signs.
ghost use Rattle.std.specs.Prelude.{◌≡◌, length, map, nat_eq};
ghost use Rattle.std.specs.List.{starts_with};
ghost use Rattle.sim_base.specs.Lexeme.{bare};
ghost use Rattle.sim_lexer.specs.Piece.{Fault as AnyFault, Lexeme as LexemePiece};
ghost use Rattle.sim_lexer.specs.Scanning.{piece_of};
ghost use Rattle.sim_lexer.specs.Signs.{sign, sign_in};

use crate::bytes::byte_at;
use crate::item::Item;
use sim_base::{Lexeme, Rule, TokenKind};

/// The signs, those of more bytes first, so that the first that stands in front is the longest.
static SIGNS: [(&str, TokenKind); 22] = [
    ("=/=", TokenKind::OtherReference),
    ("**", TokenKind::Power),
    ("//", TokenKind::Divide),
    (":=", TokenKind::Assign),
    (":-", TokenKind::AssignReference),
    ("==", TokenKind::SameReference),
    ("<=", TokenKind::LessEqual),
    (">=", TokenKind::GreaterEqual),
    ("<>", TokenKind::NotEqual),
    ("(", TokenKind::Open),
    (")", TokenKind::Close),
    (",", TokenKind::Comma),
    (";", TokenKind::Semicolon),
    (":", TokenKind::Colon),
    (".", TokenKind::Dot),
    ("+", TokenKind::Plus),
    ("-", TokenKind::Minus),
    ("*", TokenKind::Times),
    ("&", TokenKind::Ampersand),
    ("=", TokenKind::Equal),
    ("<", TokenKind::Less),
    (">", TokenKind::Greater),
];

/// The longest sign in front. A `.` with a digit behind it is a real constant, and a byte that begins no sign begins
/// no token.
#[tactic(auto, unfolding(crate::specs::Signs::sign))]
pub(crate) fn sign_item(rest: &[u8]) -> Item
    ensures item { sign rest.now ≡ piece_of result }
{
    if byte_at(rest, 0) == b'.' && byte_at(rest, 1).is_ascii_digit() {
        return Item::Fault(Rule::RealConstant);
    }
    first_sign(&SIGNS, rest)
}

// The first sign of a table that stands in front.
#[tactic(auto, using(crate::proofs::Tables::passed_none))]
fn first_sign(signs: &[(&str, TokenKind)], rest: &[u8]) -> Item
    ensures item { sign_in (map (λ row. (row.0.now, row.1)) signs.now) rest.now (AnyFault Rule.ByteBeginsNoToken) ≡ piece_of result }
{
    for sign in signs {
        if stands_in_front(sign, rest) {
            return written(sign);
        }
    }
    Item::Fault(Rule::ByteBeginsNoToken)
}

// The token that a sign writes, and its size.
fn written(sign: &(&str, TokenKind)) -> Item
    ensures item { piece_of result ≡ LexemePiece (bare sign.now.1) (length sign.now.0.now) }
{
    let (spelling, kind) = *sign;
    Item::Lexeme(Lexeme::bare(kind), spelling.len())
}

// Whether a sign stands in front. Most signs differ in the first byte.
#[tactic(auto, using(crate::proofs::Tables::other_sign))]
fn stands_in_front(sign: &(&str, TokenKind), rest: &[u8]) -> bool
    ensures answer { result ≡ starts_with nat_eq rest.now sign.now.0.now }
{
    let spelling = sign.0.as_bytes();
    (spelling.is_empty() || byte_at(spelling, 0) == byte_at(rest, 0)) && rest.starts_with(spelling)
}
