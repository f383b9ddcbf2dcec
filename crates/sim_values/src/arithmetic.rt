//! Integer arithmetic with its run-time errors.
ghost use Rattle.std.specs.Prelude.{◌≡◌, ◌≢◌, ◌-ℤ◌, ◌*ℤ◌, int_div, ◌<◌, ◌^◌, SomeIff, IsTrue, if◌then◌else◌, neg_ℤ, pos};
ghost use Rattle.sim_values.specs.Arithmetic.{is_integer, sum_of, difference_of, product_of, negation_of, absolute_of, quotient_of, remainder_of, with_sign_of, modulus_of, power_of, sign_of, smaller_of, greater_of};
ghost use Rattle.sim_values.specs.Operators.{step_goes_on};

use sim_base::RunError;

/// `a + b`, or E1 where the sum is outside the range.
pub fn add(a: i64, b: i64) -> Result<i64, RunError>
    ensures sum { result ≡ sum_of a b }
{
    a.checked_add(b).ok_or(RunError::IntegerOverflow)
}

/// `a - b`, or E1 where the difference is outside the range.
pub fn sub(a: i64, b: i64) -> Result<i64, RunError>
    ensures difference { result ≡ difference_of a b }
{
    a.checked_sub(b).ok_or(RunError::IntegerOverflow)
}

/// `a * b`, or E1 where the product is outside the range.
pub fn mul(a: i64, b: i64) -> Result<i64, RunError>
    ensures product { result ≡ product_of a b }
{
    a.checked_mul(b).ok_or(RunError::IntegerOverflow)
}

/// `-a`, or E1 for the least integer.
pub fn negate(a: i64) -> Result<i64, RunError>
    ensures negation { result ≡ negation_of a }
{
    a.checked_neg().ok_or(RunError::IntegerOverflow)
}

/// `abs(a)`, or E1 for the least integer.
pub fn absolute(a: i64) -> Result<i64, RunError>
    ensures absolute { result ≡ absolute_of a }
{
    a.checked_abs().ok_or(RunError::IntegerOverflow)
}

/// `a // b`, truncated toward zero; E2 where `b` is 0, and E1 for the least integer divided by -1.
pub fn div(a: i64, b: i64) -> Result<i64, RunError>
    ensures quotient { result ≡ quotient_of a b }
{
    if b == 0 {
        return Err(RunError::ZeroDivisor);
    }
    a.checked_div(b).ok_or(RunError::IntegerOverflow)
}

/// `rem(a, b)`: what `a // b` leaves over, with the sign of `a`; E2 where `b` is 0.
pub fn remainder(a: i64, b: i64) -> Result<i64, RunError>
    ensures remainder { result ≡ remainder_of a b }
{
    if b == 0 {
        return Err(RunError::ZeroDivisor);
    }
    Ok(left_over(a, b))
}

/// `mod(a, b)`: the remainder that has the sign of `b`; E2 where `b` is 0.
pub fn modulo(a: i64, b: i64) -> Result<i64, RunError>
    ensures modulus { result ≡ modulus_of a b }
{
    if b == 0 {
        return Err(RunError::ZeroDivisor);
    }
    Ok(signed_as(left_over(a, b), b))
}

/// What the quotient of `a` by `b` leaves over.
fn left_over(a: i64, b: i64) -> i64
    requires { b ≢ pos 0 }
    ensures { result ≡ a -ℤ int_div a b *ℤ b }
{
    a.wrapping_rem(b)
}

/// `rest`, moved by `b` where it is not 0 and has another sign.
fn signed_as(rest: i64, b: i64) -> i64
    ensures { result ≡ with_sign_of b rest }
{
    if rest != 0 && (rest < 0) != (b < 0) {
        rest + b
    } else {
        rest
    }
}

/// `base ** exponent`; E3 where the exponent is negative and for `0 ** 0`, and E1 where the power is outside the range.
pub fn pow(base: i64, exponent: i64) -> Result<i64, RunError>
    ensures power { result ≡ power_of base exponent }
{
    if exponent < 0 || (base == 0 && exponent == 0) {
        return Err(RunError::BadExponent);
    }
    let exponent = exponent.unsigned_abs();
    let negative = base < 0 && exponent % 2 == 1;
    let size = natural_power(base.unsigned_abs(), exponent).ok_or(RunError::IntegerOverflow)?;
    with_sign(negative, size).ok_or(RunError::IntegerOverflow)
}

/// `sign(a)`: -1, 0 or 1.
pub fn sign(a: i64) -> i64
    ensures sign { result ≡ sign_of a }
{
    a.signum()
}

/// `min(a, b)`.
pub fn smaller(a: i64, b: i64) -> i64
    ensures smaller { result ≡ smaller_of a b }
{
    a.min(b)
}

/// `max(a, b)`.
pub fn greater(a: i64, b: i64) -> i64
    ensures greater { result ≡ greater_of a b }
{
    a.max(b)
}

/// The test of a step element, on unbounded numbers: whether `delta * (c - limit) <= 0`.
#[tactic(auto, using(crate::proofs::Steps::above_limit))]
pub fn step_goes_on(delta: i64, c: i64, limit: i64) -> bool
    ensures test { result ≡ step_goes_on delta c limit }
{
    if c > limit {
        delta <= 0
    } else if c < limit {
        delta >= 0
    } else {
        true
    }
}

/// The integer of this size and sign, if it is in the range.
pub fn with_sign(negative: bool, size: u64) -> Option<i64>
    ensures value { let z = if negative then neg_ℤ (pos size) else pos size in SomeIff result (IsTrue (is_integer z)) z }
{
    if !negative {
        i64::try_from(size).ok()
    } else if size <= i64::MIN.unsigned_abs() {
        Some(0i64.wrapping_sub_unsigned(size))
    } else {
        None
    }
}

/// `base` to the power `exponent`, by squaring, if it is below 2^64.
fn natural_power(base: u64, exponent: u64) -> Option<u64>
    ensures { SomeIff result (base ^ exponent < 2 ^ 64) (base ^ exponent) }
{
    let mut power: u64 = 1;
    let mut square = base;
    let mut rest = exponent;
    while rest != 0 {
        if rest % 2 == 1 {
            power = power.checked_mul(square)?;
        }
        rest /= 2;
        if rest != 0 {
            square = square.checked_mul(square)?;
        }
    }
    Some(power)
}
