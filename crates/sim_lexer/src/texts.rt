//! Text constants.
ghost use Rattle.std.specs.Prelude.{◌≡◌, ◌<◌, ◌^◌, length, IfOk};
ghost use Rattle.sim_base.specs.Lexeme.{text};
ghost use Rattle.sim_lexer.specs.Constants.{code_form};
ghost use Rattle.sim_lexer.specs.Scanning.{IsPieceOf, IsText, text_byte, text_piece};

use crate::bytes::is_text_byte;
use crate::constants::code_form;
use crate::item::Item;
use sim_base::{ByteString, Lexeme, Rule, TokenKind, TokenValue};
use std::alloc::{AllocError, Global};

/// What stands in front behind the opening quote of a text constant.
#[derive(Clone, Copy)]
pub enum TextPiece {
    /// The closing quote.
    Closing,
    /// A byte that is meant, and the number of bytes that spell it.
    Means(u8, usize),
    /// What no text constant holds: a byte that is not allowed, a line end or the end of the source.
    Bad,
}

/// The text constant in front, where a quote stands in front. It stands on one line and holds tabs and bytes from 32
/// on; `""` in it means one quote and the form `!n!` the byte of that code.
pub(crate) fn text_item(alloc: Global, rest: &[u8]) -> Result<Item, AllocError>
    requires some { 0 < length rest.now }
    requires short { length rest.now < 2 ^ 63 }
    ensures text { IfOk result (λ item. IsText rest.now item) }
{
    let mut behind = rest.split_at(1).1;
    let mut read = 0;
    let mut bytes = Vec::new(alloc);
    'pieces: loop {
        match text_piece(behind) {
            TextPiece::Means(byte, size) => {
                bytes.push(byte)?;
                read += size;
                behind = behind.split_at(size).1;
            }
            TextPiece::Closing => return Ok(Item::Lexeme(text(bytes), read + 2)),
            TextPiece::Bad => return Ok(Item::Fault(Rule::TextConstantNotClosed)),
        }
    }
}

/// The text constant that means these bytes.
pub(crate) fn text(bytes: Vec<u8>) -> Lexeme
    ensures lexeme { result ≡ text bytes.items }
{
    Lexeme {
        kind: TokenKind::Text,
        value: TokenValue::Bytes(ByteString::new(bytes)),
    }
}

// What stands in front behind an opening quote.
fn text_piece(behind: &[u8]) -> TextPiece
    ensures piece { result ≡ text_piece behind.now }
    ensures within { IsPieceOf result behind.now }
{
    match behind {
        [] => TextPiece::Bad,
        [b'"', b'"', ..] => TextPiece::Means(b'"', 2),
        [b'"', ..] => TextPiece::Closing,
        [byte, ..] => text_byte(behind, *byte),
    }
}

// What stands in front, where it is no quote: this byte or a form `!n!`.
fn text_byte(behind: &[u8], byte: u8) -> TextPiece
    requires { 0 < length behind.now }
    ensures piece { result ≡ text_byte (code_form behind.now) byte }
    ensures within { IsPieceOf result behind.now }
{
    match code_form(behind) {
        Some(form) => TextPiece::Means(form.byte, form.size),
        None if is_text_byte(byte) => TextPiece::Means(byte, 1),
        None => TextPiece::Bad,
    }
}
