//! The classes of bytes that tokens are made of, and how far bytes of one class reach.
ghost use Rattle.std.specs.Prelude.{◌≡◌, ◌≤◌, length, slice_index};
ghost use Rattle.std.specs.List.{prefix_len};
ghost use Rattle.sim_lexer.specs.Bytes.{digit_value, is_blank, is_digit_of, is_in_line, is_separator, is_text_byte, is_word_byte};

/// A tab, a form feed, a carriage return or a space.
pub(crate) fn is_blank(byte: u8) -> bool
    ensures class { result ≡ is_blank byte }
{
    byte == b'\t' || byte == 12 || byte == b'\r' || byte == b' '
}

/// A blank, or a line feed, which ends a line.
pub(crate) fn is_separator(byte: u8) -> bool
    ensures class { result ≡ is_separator byte }
{
    is_blank(byte) || byte == b'\n'
}

/// A byte of an identifier or a keyword: a letter, a digit or an underscore.
pub(crate) fn is_word_byte(byte: u8) -> bool
    ensures class { result ≡ is_word_byte byte }
{
    byte.is_ascii_alphabetic() || byte.is_ascii_digit() || byte == b'_'
}

/// A byte that may stand in a text constant: a tab, or a byte from 32 on.
pub(crate) fn is_text_byte(byte: u8) -> bool
    ensures class { result ≡ is_text_byte byte }
{
    byte == b'\t' || byte >= b' '
}

/// The value of a digit, 10 to 15 for `a` to `f` of either case; 16 for any other byte.
pub(crate) fn digit_value(byte: u8) -> u8
    ensures value { result ≡ digit_value byte }
    ensures small { result ≤ 16 }
{
    match byte {
        b'0'..=b'9' => byte - b'0',
        b'A'..=b'F' => byte - b'A' + 10,
        b'a'..=b'f' => byte - b'a' + 10,
        _ => 16,
    }
}

/// A digit of that base.
pub(crate) fn is_digit_of(base: u8, byte: u8) -> bool
    ensures class { result ≡ is_digit_of base byte }
{
    digit_value(byte) < base
}

/// How many bytes from the front on are of a word.
pub(crate) fn word_len(bytes: &[u8]) -> usize
    ensures len { result ≡ prefix_len is_word_byte bytes.now }
    ensures within { result ≤ length bytes.now }
{
    bytes.iter().take_while(|byte| is_word_byte(**byte)).count()
}

/// How many bytes from the front on are digits of that base.
pub(crate) fn digits_len(base: u8, bytes: &[u8]) -> usize
    ensures len { result ≡ prefix_len (is_digit_of base) bytes.now }
    ensures within { result ≤ length bytes.now }
{
    bytes
        .iter()
        .take_while(|byte| is_digit_of(base, **byte))
        .count()
}

/// How many bytes from the front on stand before a line feed.
pub(crate) fn line_len(bytes: &[u8]) -> usize
    ensures len { result ≡ prefix_len is_in_line bytes.now }
    ensures within { result ≤ length bytes.now }
{
    bytes.iter().take_while(|byte| **byte != b'\n').count()
}

/// The byte at an index, and 0 past the end.
pub(crate) fn byte_at(bytes: &[u8], index: usize) -> u8
    ensures byte { result ≡ slice_index bytes.now index }
{
    bytes.get(index).copied().unwrap_or(0)
}
