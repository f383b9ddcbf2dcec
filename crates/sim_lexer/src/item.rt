//! What stands in front of the rest of a source: a separator, a lexeme or a broken rule.
ghost use Rattle.std.specs.Prelude.{◌≡◌, ◌+◌, ◌<◌, ◌≤◌, ◌^◌, length, nat_eq, slice_get, IfOk, IfSome, Some};
ghost use Rattle.std.specs.List.{position, prefix_len, take_while};
ghost use Rattle.sim_lexer.specs.Bytes.{is_word_byte};
ghost use Rattle.sim_lexer.specs.Pieces.{begun_by, comment, comment_behind, lower_word, percent_line, piece, with_comment, word, word_lexeme, word_piece};
ghost use Rattle.sim_lexer.specs.Scanning.{IsItem, is_no_capital, piece_of};

use crate::bytes::{is_separator, is_word_byte, line_len, word_len};
use crate::constants::{character_item, number_item};
use crate::end_comments::{end_comment, is_directive, is_percent_line};
use crate::signs::sign_item;
use crate::texts::text_item;
use crate::words::{is_left_out, keyword};
use sim_base::{ByteString, Lexeme, Rule, TokenKind, TokenValue};
use std::alloc::{AllocError, Global};

/// What stands in front.
#[derive(Drop)]
pub enum Item {
    /// So many bytes that spell no token: a blank, a line feed, a comment or an empty line.
    Skipped(usize),
    /// A lexeme and the number of bytes that spell it, for `end` with those of its comment.
    Lexeme(Lexeme, usize),
    /// A rule is broken at the first byte.
    Fault(Rule),
}

/// What stands in front of the rest of a source, of which this byte is the first. `begins_line` says that a line begins
/// here.
#[tactic(auto, unfolding(crate::specs::Pieces::piece))]
pub(crate) fn item_in_front(
    alloc: Global,
    begins_line: bool,
    byte: u8,
    rest: &[u8],
) -> Result<Item, AllocError>
    requires first { slice_get rest.now 0 ≡ Some byte }
    requires short { length rest.now < 2 ^ 62 }
    ensures item { IfOk result (λ item. IsItem (piece begins_line rest.now) rest.now item) }
{
    if is_percent_line(begins_line, rest) {
        Ok(percent_line(rest))
    } else {
        lex_by_first_byte(alloc, byte, rest)
    }
}

// An empty line, which begins with `%` and a blank or a line end, or a directive.
#[tactic(auto, unfolding(crate::specs::Pieces::percent_line))]
fn percent_line(line: &[u8]) -> Item
    ensures item { percent_line line.now ≡ piece_of result }
{
    if is_directive(line) {
        Item::Fault(Rule::Directive)
    } else {
        Item::Skipped(line_len(line))
    }
}

// A comment, up to the next `;` and with it.
#[tactic(auto, unfolding(crate::specs::Pieces::comment))]
fn comment_item(rest: &[u8]) -> Item
    ensures item { comment rest.now ≡ piece_of result }
{
    match semicolon(rest) {
        Some(place) => Item::Skipped(place + 1),
        None => Item::Fault(Rule::CommentNotClosed),
    }
}

// Where the next `;` stands.
fn semicolon(rest: &[u8]) -> Option<usize>
    ensures place { result ≡ position (λ byte. nat_eq byte 59) rest.now }
    ensures within { IfSome result (λ place. place < length rest.now) }
{
    rest.iter().position(|byte| *byte == b';')
}

// What this byte, the first, begins.
#[tactic(auto, unfolding(crate::specs::Pieces::begun_by))]
fn lex_by_first_byte(alloc: Global, byte: u8, rest: &[u8]) -> Result<Item, AllocError>
    requires first { slice_get rest.now 0 ≡ Some byte }
    requires short { length rest.now < 2 ^ 62 }
    ensures item { IfOk result (λ item. IsItem (begun_by byte rest.now) rest.now item) }
{
    if is_separator(byte) {
        Ok(Item::Skipped(1))
    } else if byte == b'!' {
        Ok(comment_item(rest))
    } else if byte.is_ascii_alphabetic() {
        word_item(alloc, rest)
    } else if byte.is_ascii_digit() {
        Ok(number_item(rest))
    } else if byte == b'"' {
        text_item(alloc, rest)
    } else if byte == b'\'' {
        Ok(character_item(rest))
    } else {
        Ok(sign_item(rest))
    }
}

// The word in front: a comment's, one left out, a keyword or an identifier.
#[tactic(auto, unfolding(crate::specs::Pieces::word))]
fn word_item(alloc: Global, rest: &[u8]) -> Result<Item, AllocError>
    requires { length rest.now < 2 ^ 62 }
    ensures item { IfOk result (λ item. word rest.now ≡ piece_of item) }
{
    let word = front_word(rest);
    if small_len(word) == word.len() {
        return item_of_word(alloc, word, rest);
    }
    let lower = lower_word(alloc, rest)?;
    item_of_word(alloc, &lower, rest)
}

// The longest word in front.
fn front_word(rest: &[u8]) -> &[u8]
    ensures word { result.now ≡ take_while is_word_byte rest.now }
{
    rest.split_at(word_len(rest)).0
}

// How many bytes from the front on are no capital letters.
fn small_len(word: &[u8]) -> usize
    ensures len { result ≡ prefix_len is_no_capital word.now }
{
    word.iter()
        .take_while(|byte| !byte.is_ascii_uppercase())
        .count()
}

// The longest word in front, in lower case.
fn lower_word(alloc: Global, rest: &[u8]) -> Result<Vec<u8>, AllocError>
    ensures word { IfOk result (λ word. word.items ≡ lower_word rest.now) }
{
    front_word(rest)
        .iter()
        .map(u8::to_ascii_lowercase)
        .collect(alloc)
}

// What a word in lower case, the longest in front, is. Only an identifier takes memory.
fn item_of_word(alloc: Global, word: &[u8], rest: &[u8]) -> Result<Item, AllocError>
    requires { length rest.now < 2 ^ 62 }
    ensures item { IfOk result (λ item. word_piece word.now rest.now ≡ piece_of item) }
{
    if word == b"comment".as_slice() {
        Ok(comment_item(rest))
    } else if is_left_out(word) {
        Ok(Item::Fault(Rule::WordLeftOut))
    } else {
        Ok(with_comment(word_lexeme(alloc, word)?, rest))
    }
}

// The lexeme of the word in front: `end` takes its comment along.
fn with_comment(lexeme: Lexeme, rest: &[u8]) -> Item
    requires { length rest.now < 2 ^ 62 }
    ensures item { with_comment lexeme (prefix_len is_word_byte rest.now) rest.now ≡ piece_of result }
{
    let size = word_len(rest);
    let behind = comment_behind(lexeme.kind, rest.split_at(size).1);
    Item::Lexeme(lexeme, size + behind)
}

// How many bytes behind a word belong to it.
fn comment_behind(kind: TokenKind, behind: &[u8]) -> usize
    ensures len { result ≡ comment_behind kind behind.now }
    ensures within { result ≤ length behind.now }
{
    match kind {
        TokenKind::End => end_comment(behind),
        _ => 0,
    }
}

// A keyword or an identifier.
fn word_lexeme(alloc: Global, word: &[u8]) -> Result<Lexeme, AllocError>
    ensures lexeme { IfOk result (λ lexeme. lexeme ≡ word_lexeme word.now) }
{
    match keyword(word) {
        Some(kind) => Ok(Lexeme::bare(kind)),
        None => Ok(Lexeme {
            kind: TokenKind::Identifier,
            value: TokenValue::Bytes(ByteString::new(Vec::from_slice(alloc, word)?)),
        }),
    }
}
