//! Integer and character constants.
ghost use Rattle.std.specs.Prelude.{◌≡◌, ◌+◌, ◌<◌, ◌≤◌, ◌^◌, length, IfSome, MatchOption};
ghost use Rattle.sim_base.specs.Lexeme.{character as character_lexeme, whole_number};
ghost use Rattle.sim_lexer.specs.Constants.{character, closed_form, code_form, integer, is_real_behind, is_scale, number, number_in, number_value, one_more, plain_character, radix, radix_digits};
ghost use Rattle.sim_lexer.specs.Scanning.{code_of, piece_of};

use crate::bytes::{byte_at, digit_value, digits_len};
use crate::item::Item;
use sim_base::{Lexeme, Rule, TokenKind, TokenValue};

/// The form `!n!`: the byte that it stands for, and how many bytes it takes.
#[derive(Clone, Copy)]
pub struct CodeForm {
    /// The byte of code n.
    pub byte: u8,
    /// 3 to 5.
    pub size: usize,
}

/// The integer constant in front, where a decimal digit stands in front: decimal digits, or `2R`, `4R`, `8R` or `16R`
/// and digits of that base. It is a real constant where `.` and a digit, or `&`, perhaps a sign, and a digit stand
/// directly behind it, and too large from 2^63 on.
#[tactic(auto, unfolding(crate::specs::Constants::number))]
pub(crate) fn number_item(rest: &[u8]) -> Item
    requires short { length rest.now < 2 ^ 63 }
    ensures item { number rest.now ≡ piece_of result }
{
    let (whole, behind) = rest.split_at(digits_len(10, rest));
    number_in(radix(whole), whole, behind)
}

// The integer constant that begins with these decimal digits, of a base where digits of it stand behind an `R`.
fn number_in(radix: Option<u8>, whole: &[u8], behind: &[u8]) -> Item
    requires base { IfSome radix (λ base. 0 < base) }
    requires short { length whole.now + length behind.now < 2 ^ 63 }
    ensures item { number_in radix whole.now behind.now ≡ piece_of result }
{
    match radix {
        Some(base) => {
            let digits = radix_digits(base, behind);
            if digits.is_empty() {
                integer(10, whole, whole.len(), behind)
            } else {
                let size = 1 + digits.len();
                integer(base, digits, whole.len() + size, behind.split_at(size).1)
            }
        }
        None => integer(10, whole, whole.len(), behind),
    }
}

// The base that stands before an `R`.
fn radix(whole: &[u8]) -> Option<u8>
    ensures base { result ≡ radix whole.now }
    ensures some { IfSome result (λ base. 0 < base) }
{
    if whole == b"2".as_slice() {
        Some(2)
    } else if whole == b"4".as_slice() {
        Some(4)
    } else if whole == b"8".as_slice() {
        Some(8)
    } else if whole == b"16".as_slice() {
        Some(16)
    } else {
        None
    }
}

// The digits of a base behind an `R` of either case; none where no `R` stands in front.
fn radix_digits(base: u8, behind: &[u8]) -> &[u8]
    ensures digits { result.now ≡ radix_digits base behind.now }
    ensures within { 0 < length result.now → 1 + length result.now ≤ length behind.now }
{
    match behind {
        [mark, rest @ ..] if mark.to_ascii_lowercase() == b'r' => rest
            .split_at(digits_len(base, rest))
            .0,
        _ => &[],
    }
}

// The integer constant that these digits of a base write in so many bytes, with what stands behind it.
#[tactic(auto, unfolding(crate::specs::Constants::integer))]
fn integer(base: u8, digits: &[u8], size: usize, behind: &[u8]) -> Item
    requires base { 0 < base }
    ensures item { integer base digits.now size behind.now ≡ piece_of result }
{
    if is_real_behind(behind) {
        return Item::Fault(Rule::RealConstant);
    }
    match number_value(base, digits) {
        Some(number) => Item::Lexeme(whole_number(number as i64), size),
        None => Item::Fault(Rule::IntegerTooLarge),
    }
}

// The lexeme of an integer constant.
fn whole_number(number: i64) -> Lexeme
    ensures lexeme { result ≡ whole_number number }
{
    Lexeme {
        kind: TokenKind::Integer,
        value: TokenValue::Integer(number),
    }
}

// Whether what stands behind a number makes it a real constant.
fn is_real_behind(behind: &[u8]) -> bool
    ensures answer { result ≡ is_real_behind behind.now }
{
    let first = byte_at(behind, 1);
    (byte_at(behind, 0) == b'.' && first.is_ascii_digit())
        || (byte_at(behind, 0) == b'&' && is_scale(first, byte_at(behind, 2)))
}

// A digit, or a sign and a digit.
fn is_scale(first: u8, second: u8) -> bool
    ensures answer { result ≡ is_scale first second }
{
    first.is_ascii_digit() || ((first == b'+' || first == b'-') && second.is_ascii_digit())
}

// The number that digits write in a base, where it is below 2^63.
#[tactic(auto, unfolding(crate::specs::Constants::number_value))]
fn number_value(base: u8, digits: &[u8]) -> Option<u64>
    requires { 0 < base }
    ensures value { MatchOption result
        (2 ^ 63 ≤ number_value base digits.now)
        (λ number. (number ≡ number_value base digits.now) × (number < 2 ^ 63)) }
{
    let mut value = 0u64;
    for digit in digits {
        match one_more(base, value, *digit) {
            Some(more) => value = more,
            None => return None,
        }
    }
    Some(value)
}

// The number with one more digit, where it is below 2^63.
fn one_more(base: u8, value: u64, digit: u8) -> Option<u64>
    requires { value < 2 ^ 63 }
    ensures value { MatchOption result (2 ^ 63 ≤ one_more base value digit) (λ more. (more ≡ one_more base value digit) × (more < 2 ^ 63)) }
{
    let more = u128::from(value) * u128::from(base) + u128::from(digit_value(digit));
    if more < 1 << 63 {
        Some(more as u64)
    } else {
        None
    }
}

/// The form `!n!` in front, with one to three decimal digits and n at most 255.
pub(crate) fn code_form(rest: &[u8]) -> Option<CodeForm>
    ensures form { code_of result ≡ code_form rest.now }
    ensures within { IfSome result (λ form. (0 < form.size) × (form.size ≤ length rest.now)) }
{
    match rest {
        [b'!', behind @ ..] => {
            let size = digits_len(10, behind);
            closed_form(behind.split_at(size).0, byte_at(behind, size))
        }
        _ => None,
    }
}

// The form of these digits, with the byte that stands behind them.
fn closed_form(digits: &[u8], next: u8) -> Option<CodeForm>
    ensures form { code_of result ≡ closed_form digits.now next }
{
    if digits.is_empty() || digits.len() > 3 || next != b'!' {
        return None;
    }
    match number_value(10, digits) {
        Some(code) if code < 256 => Some(CodeForm {
            byte: code as u8,
            size: digits.len() + 2,
        }),
        _ => None,
    }
}

/// The character constant in front, where an apostrophe stands in front: `'`, the form `!n!` or one byte from 32 on,
/// and `'`. The form is tried first.
#[tactic(auto, unfolding(crate::specs::Constants::character))]
pub(crate) fn character_item(rest: &[u8]) -> Item
    requires { 0 < length rest.now }
    ensures item { character rest.now ≡ piece_of result }
{
    match code_form(rest.split_at(1).1) {
        Some(form) if byte_at(rest, 1 + form.size) == b'\'' => {
            Item::Lexeme(character(form.byte), form.size + 2)
        }
        _ => plain_character(rest),
    }
}

// A character constant of one byte.
fn plain_character(rest: &[u8]) -> Item
    ensures item { plain_character rest.now ≡ piece_of result }
{
    let byte = byte_at(rest, 1);
    if byte >= b' ' && byte_at(rest, 2) == b'\'' {
        Item::Lexeme(character(byte), 3)
    } else {
        Item::Fault(Rule::BadCharacterConstant)
    }
}

// The lexeme of a character constant.
fn character(code: u8) -> Lexeme
    ensures lexeme { result ≡ character_lexeme code }
{
    Lexeme {
        kind: TokenKind::Character,
        value: TokenValue::Character(code),
    }
}
