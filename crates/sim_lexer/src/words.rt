//! The words that are no identifiers: the keywords and the words left out, in lower case.
ghost use Rattle.std.specs.Prelude.{◌≡◌, map};
ghost use Rattle.std.specs.Str.{bytes_eq};
ghost use Rattle.sim_lexer.specs.Words.{is_left_out, is_stop_word, keyword, look_up};

use crate::bytes::byte_at;
use sim_base::TokenKind;

/// The keywords of two letters. `lt`, `le`, `eq`, `ge`, `gt` and `ne` are the relations that are also written by signs.
static OF_TWO: [(&str, TokenKind); 13] = [
    ("at", TokenKind::At),
    ("do", TokenKind::Do),
    ("eq", TokenKind::Equal),
    ("ge", TokenKind::GreaterEqual),
    ("gt", TokenKind::Greater),
    ("if", TokenKind::If),
    ("in", TokenKind::In),
    ("is", TokenKind::Is),
    ("le", TokenKind::LessEqual),
    ("lt", TokenKind::Less),
    ("ne", TokenKind::NotEqual),
    ("or", TokenKind::Or),
    ("to", TokenKind::To),
];

/// The keywords of three letters.
static OF_THREE: [(&str, TokenKind); 9] = [
    ("and", TokenKind::And),
    ("end", TokenKind::End),
    ("eqv", TokenKind::Eqv),
    ("for", TokenKind::For),
    ("imp", TokenKind::Imp),
    ("new", TokenKind::New),
    ("not", TokenKind::Not),
    ("qua", TokenKind::Qua),
    ("ref", TokenKind::Ref),
];

/// The keywords of four letters.
static OF_FOUR: [(&str, TokenKind); 9] = [
    ("else", TokenKind::Else),
    ("name", TokenKind::Name),
    ("none", TokenKind::None),
    ("step", TokenKind::Step),
    ("text", TokenKind::TextWord),
    ("then", TokenKind::Then),
    ("this", TokenKind::This),
    ("true", TokenKind::True),
    ("when", TokenKind::When),
];

/// The keywords of five letters.
static OF_FIVE: [(&str, TokenKind); 11] = [
    ("after", TokenKind::After),
    ("array", TokenKind::Array),
    ("begin", TokenKind::Begin),
    ("class", TokenKind::Class),
    ("delay", TokenKind::Delay),
    ("false", TokenKind::False),
    ("inner", TokenKind::Inner),
    ("prior", TokenKind::Prior),
    ("until", TokenKind::Until),
    ("value", TokenKind::Value),
    ("while", TokenKind::While),
];

/// The keywords of six letters.
static OF_SIX: [(&str, TokenKind); 3] = [
    ("before", TokenKind::Before),
    ("hidden", TokenKind::Hidden),
    ("notext", TokenKind::Notext),
];

/// The keywords of seven letters.
static OF_SEVEN: [(&str, TokenKind); 4] = [
    ("boolean", TokenKind::Boolean),
    ("inspect", TokenKind::Inspect),
    ("integer", TokenKind::IntegerWord),
    ("virtual", TokenKind::Virtual),
];

/// The keywords of eight letters.
static OF_EIGHT: [(&str, TokenKind); 1] = [("activate", TokenKind::Activate)];

/// The keywords of nine letters.
static OF_NINE: [(&str, TokenKind); 4] = [
    ("character", TokenKind::CharacterWord),
    ("otherwise", TokenKind::Otherwise),
    ("procedure", TokenKind::Procedure),
    ("protected", TokenKind::Protected),
];

/// The keywords of ten letters.
static OF_TEN: [(&str, TokenKind); 1] = [("reactivate", TokenKind::Reactivate)];

/// The token of a keyword in lower case, and none for any other word. It is looked for among those of its length.
#[tactic(auto, unfolding(crate::specs::Words::keyword))]
pub(crate) fn keyword(word: &[u8]) -> Option<TokenKind>
    ensures token { result ≡ keyword word.now }
{
    match word.len() {
        2 => look_up(&OF_TWO, word),
        3 => look_up(&OF_THREE, word),
        4 => look_up(&OF_FOUR, word),
        5 => look_up(&OF_FIVE, word),
        6 => look_up(&OF_SIX, word),
        7 => look_up(&OF_SEVEN, word),
        8 => look_up(&OF_EIGHT, word),
        9 => look_up(&OF_NINE, word),
        10 => look_up(&OF_TEN, word),
        _ => None,
    }
}

/// The token of the first row with this word.
#[tactic(auto, using(crate::proofs::Tables::passed_none))]
fn look_up(rows: &[(&str, TokenKind)], word: &[u8]) -> Option<TokenKind>
    ensures token { result ≡ look_up (map (λ row. (row.0.now, row.1)) rows.now) word.now }
{
    for row in rows {
        if spells(row, word) {
            return Some(row.1);
        }
    }
    None
}

/// Whether a row is that of this word. Most rows differ in the first byte.
#[tactic(auto, using(crate::proofs::Tables::other_first_byte))]
fn spells(row: &(&str, TokenKind), word: &[u8]) -> bool
    ensures answer { result ≡ bytes_eq word.now row.now.0.now }
{
    let spelling = row.0.as_bytes();
    byte_at(word, 0) == byte_at(spelling, 0) && word == spelling
}

/// Whether the language has this word in lower case and the program leaves it out.
pub(crate) fn is_left_out(word: &[u8]) -> bool
    ensures answer { result ≡ is_left_out word.now }
{
    word == b"external".as_slice()
        || word == b"go".as_slice()
        || word == b"goto".as_slice()
        || word == b"label".as_slice()
        || word == b"long".as_slice()
        || word == b"real".as_slice()
        || word == b"short".as_slice()
        || word == b"switch".as_slice()
}

/// Whether this word, in either case, ends what stands behind an `end`.
pub(crate) fn is_stop_word(word: &[u8]) -> bool
    ensures answer { result ≡ is_stop_word word.now }
{
    word.eq_ignore_ascii_case(b"end")
        || word.eq_ignore_ascii_case(b"else")
        || word.eq_ignore_ascii_case(b"when")
        || word.eq_ignore_ascii_case(b"otherwise")
}
