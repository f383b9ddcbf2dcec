//! Integers and characters as the standard functions see them.
ghost use Rattle.std.specs.Prelude.{◌≡◌};
ghost use Rattle.sim_values.specs.Characters.{character_of, is_digit, is_letter, rank_of};

use sim_base::RunError;

/// `char(n)` and `isochar(n)`: the character of code `n`; E12 where there is none.
pub fn character(n: i64) -> Result<u8, RunError>
    ensures character { result ≡ character_of n }
{
    u8::try_from(n).map_err(|_| RunError::NoSuchCharacter)
}

/// `rank(c)` and `isorank(c)`: the code of a character.
pub fn rank(c: u8) -> i64
    ensures rank { result ≡ rank_of c }
{
    i64::from(c)
}

/// `digit(c)`: whether the character is one of `0` to `9`.
pub fn digit(c: u8) -> bool
    ensures digit { result ≡ is_digit c }
{
    c.is_ascii_digit()
}

/// `letter(c)`: whether the character is one of `A` to `Z` and `a` to `z`.
pub fn letter(c: u8) -> bool
    ensures letter { result ≡ is_letter c }
{
    c.is_ascii_alphabetic()
}
