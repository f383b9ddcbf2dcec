//! Integers in texts, as they are read.
ghost use Rattle.std.specs.Prelude.{◌≡◌, ◌-◌, ◌^◌, ◌≤◌, min, length, IfOk, SomeIff, IsTrue, if◌then◌else◌, neg_ℤ, pos};
ghost use Rattle.std.specs.Char.{is_ascii_digit};
ghost use Rattle.std.specs.List.{prefix_len, AllPass};
ghost use Rattle.std.specs.Str.Parse.{digits_value};
ghost use Rattle.sim_values.specs.Arithmetic.{is_integer};
ghost use Rattle.sim_values.specs.Texts.{is_separator, after_separators, after_sign, has_minus, integer_item};

use sim_base::RunError;
use sim_values::with_sign;

/// The integer that the bytes begin with, and how many bytes it takes: blanks or tabs, an optional sign, blanks or tabs, then
/// digits. E25 where no digit follows, E28 where the integer is outside the range.
pub fn integer_item(bytes: &[u8]) -> Result<(i64, usize), RunError>
    ensures item { result ≡ integer_item bytes.now }
    ensures within { IfOk result (λ item. item.1 ≤ length bytes.now) }
{
    let signed = after_separators(bytes);
    let unsigned = after_separators(after_sign(signed));
    let digits = leading_digits(unsigned);
    if digits == 0 {
        return Err(RunError::NoIntegerItem);
    }
    let size = capped_value(&unsigned[..digits]);
    let value = with_sign(has_minus(signed), size).ok_or(RunError::IntegerItemTooLarge)?;
    Ok((value, bytes.len() - unsigned.len() + digits))
}

/// Whether the byte is a blank or a tab.
fn is_separator(byte: u8) -> bool
    ensures { result ≡ is_separator byte }
{
    byte == b' ' || byte == b'\t'
}

/// What follows leading blanks and tabs.
fn after_separators(bytes: &[u8]) -> &[u8]
    ensures { result.now ≡ after_separators bytes.now }
{
    for (i, byte) in bytes.iter().enumerate() {
        if !is_separator(*byte) {
            return &bytes[i..];
        }
    }
    &[]
}

/// Whether a minus sign stands first.
fn has_minus(bytes: &[u8]) -> bool
    ensures { result ≡ has_minus bytes.now }
{
    matches!(bytes, [b'-', ..])
}

/// What follows a leading sign.
fn after_sign(bytes: &[u8]) -> &[u8]
    ensures { result.now ≡ after_sign bytes.now }
{
    match bytes {
        [b'+' | b'-', others @ ..] => others,
        _ => bytes,
    }
}

/// How many digits the bytes begin with.
fn leading_digits(bytes: &[u8]) -> usize
    ensures { result ≡ prefix_len is_ascii_digit bytes.now }
{
    bytes
        .iter()
        .take_while(|byte| byte.is_ascii_digit())
        .count()
}

/// The number that digits stand for, or the greatest of 64 bits where it is greater.
fn capped_value(digits: &[u8]) -> u64
    requires { AllPass is_ascii_digit digits.now }
    ensures { result ≡ min (digits_value 10 digits.now) (2 ^ 64 - 1) }
{
    let mut value: u64 = 0;
    for digit in digits {
        value = value
            .saturating_mul(10)
            .saturating_add(u64::from(*digit - b'0'));
    }
    value
}
