//! The standard names that run, by the kinds of their operands.
ghost use Rattle.std.specs.Prelude.{◌≡◌, length, true};
ghost use Rattle.sim_values.specs.Standard.{operands_of, row_of};
ghost use Rattle.standard_calls.specs.Calls.{HasShape, operands};
ghost use Rattle.standard_calls.specs.Quiet.{is_done};

use sim_values::{Standard, TextVal};

/// A name of no operands.
#[derive(Clone, Copy)]
pub enum OfNothing {
    /// `maxint`
    Maxint,
    /// `minint`
    Minint,
    /// `inimage`
    Inimage,
    /// `inchar`
    Inchar,
    /// `inint`
    Inint,
    /// `lastitem`
    Lastitem,
    /// `endfile`
    Endfile,
    /// `outimage`
    Outimage,
}

/// A name of one integer.
#[derive(Clone, Copy)]
pub enum OfInteger {
    /// `abs`
    Abs,
    /// `sign`
    Sign,
    /// `char`
    Char,
    /// `isochar`
    Isochar,
    /// `blanks`
    Blanks,
    /// `intext`
    Intext,
}

/// A name of two integers.
#[derive(Clone, Copy)]
pub enum OfIntegers {
    /// `min`
    Min,
    /// `max`
    Max,
    /// `mod`
    Mod,
    /// `rem`
    Rem,
    /// `outint`
    Outint,
}

/// A name of one character.
#[derive(Clone, Copy)]
pub enum OfCharacter {
    /// `rank`
    Rank,
    /// `isorank`
    Isorank,
    /// `digit`
    Digit,
    /// `letter`
    Letter,
    /// `outchar`
    Outchar,
}

/// A name of one text.
#[derive(Clone, Copy)]
pub enum OfText {
    /// `copy`
    Copy,
    /// `upcase`
    Upcase,
    /// `lowcase`
    Lowcase,
    /// `constant`
    Constant,
    /// `start`
    Start,
    /// `length`
    Length,
    /// `pos`
    Pos,
    /// `more`
    More,
    /// `main`
    Main,
    /// `strip`
    Strip,
    /// `getchar`
    Getchar,
    /// `getint`
    Getint,
    /// `outtext`
    Outtext,
}

/// A name of a text and an integer.
#[derive(Clone, Copy)]
pub enum OfTextAndInteger {
    /// `setpos`
    Setpos,
    /// `putint`
    Putint,
}

/// A name by the kinds of its operands.
#[derive(Clone, Copy)]
pub enum Shape {
    /// It has none.
    Nothing(OfNothing),
    /// An integer.
    Integer(OfInteger),
    /// Two integers.
    Integers(OfIntegers),
    /// A character.
    Character(OfCharacter),
    /// A text.
    Text(OfText),
    /// A text and an integer.
    TextAndInteger(OfTextAndInteger),
    /// A text and two integers: `sub`.
    TextAndIntegers,
    /// A text and a character: `putchar`.
    TextAndCharacter,
    /// One that does not run.
    Elsewhere,
}

/// A name with its operands.
#[derive(Clone, Copy)]
pub enum Call {
    /// Of nothing.
    Nothing(OfNothing),
    /// Of an integer.
    Integer(OfInteger, i64),
    /// Of two integers.
    Integers(OfIntegers, i64, i64),
    /// Of a character.
    Character(OfCharacter, u8),
    /// Of a text.
    Text(OfText, TextVal),
    /// Of a text and an integer.
    TextAndInteger(OfTextAndInteger, TextVal, i64),
    /// `sub` of a text and two integers.
    TextAndIntegers(TextVal, i64, i64),
    /// `putchar` of a text and a character.
    TextAndCharacter(TextVal, u8),
}

/// The kinds of operands that a name takes.
#[inline(always)]
pub fn shape_of(name: Standard) -> Shape
    ensures { HasShape name result }
{
    match name {
        Standard::Maxint => Shape::Nothing(OfNothing::Maxint),
        Standard::Minint => Shape::Nothing(OfNothing::Minint),
        Standard::Inimage => Shape::Nothing(OfNothing::Inimage),
        Standard::Inchar => Shape::Nothing(OfNothing::Inchar),
        Standard::Inint => Shape::Nothing(OfNothing::Inint),
        Standard::Lastitem => Shape::Nothing(OfNothing::Lastitem),
        Standard::Endfile => Shape::Nothing(OfNothing::Endfile),
        Standard::Outimage => Shape::Nothing(OfNothing::Outimage),
        Standard::Abs => Shape::Integer(OfInteger::Abs),
        Standard::Sign => Shape::Integer(OfInteger::Sign),
        Standard::Char => Shape::Integer(OfInteger::Char),
        Standard::Isochar => Shape::Integer(OfInteger::Isochar),
        Standard::Blanks => Shape::Integer(OfInteger::Blanks),
        Standard::Intext => Shape::Integer(OfInteger::Intext),
        Standard::Min => Shape::Integers(OfIntegers::Min),
        Standard::Max => Shape::Integers(OfIntegers::Max),
        Standard::Mod => Shape::Integers(OfIntegers::Mod),
        Standard::Rem => Shape::Integers(OfIntegers::Rem),
        Standard::Outint => Shape::Integers(OfIntegers::Outint),
        Standard::Rank => Shape::Character(OfCharacter::Rank),
        Standard::Isorank => Shape::Character(OfCharacter::Isorank),
        Standard::Digit => Shape::Character(OfCharacter::Digit),
        Standard::Letter => Shape::Character(OfCharacter::Letter),
        Standard::Outchar => Shape::Character(OfCharacter::Outchar),
        Standard::Copy => Shape::Text(OfText::Copy),
        Standard::Upcase => Shape::Text(OfText::Upcase),
        Standard::Lowcase => Shape::Text(OfText::Lowcase),
        Standard::TextConstant => Shape::Text(OfText::Constant),
        Standard::TextStart => Shape::Text(OfText::Start),
        Standard::TextLength => Shape::Text(OfText::Length),
        Standard::TextPos => Shape::Text(OfText::Pos),
        Standard::TextMore => Shape::Text(OfText::More),
        Standard::TextMain => Shape::Text(OfText::Main),
        Standard::TextStrip => Shape::Text(OfText::Strip),
        Standard::TextGetchar => Shape::Text(OfText::Getchar),
        Standard::TextGetint => Shape::Text(OfText::Getint),
        Standard::Outtext => Shape::Text(OfText::Outtext),
        Standard::TextSetpos => Shape::TextAndInteger(OfTextAndInteger::Setpos),
        Standard::TextPutint => Shape::TextAndInteger(OfTextAndInteger::Putint),
        Standard::TextSub => Shape::TextAndIntegers,
        Standard::TextPutchar => Shape::TextAndCharacter,
        _ => Shape::Elsewhere,
    }
}

/// How many operands a name that runs takes.
#[inline(always)]
pub fn operand_count(name: Standard) -> usize
    requires runs { is_done name ≡ true }
    ensures count { result ≡ length (operands_of (row_of name).function) }
{
    match shape_of(name) {
        Shape::Nothing(_) => 0,
        Shape::Integer(_) => 1,
        Shape::Integers(_) => 2,
        Shape::Character(_) => 1,
        Shape::Text(_) => 1,
        Shape::TextAndInteger(_) => 2,
        Shape::TextAndIntegers => 3,
        Shape::TextAndCharacter => 2,
        Shape::Elsewhere => 0,
    }
}

/// How many operands there are.
#[inline(always)]
pub fn operand_places(call: Call) -> usize
    ensures count { result ≡ length (operands call) }
{
    match call {
        Call::Nothing(_) => 0,
        Call::Integer(_, _) => 1,
        Call::Integers(_, _, _) => 2,
        Call::Character(_, _) => 1,
        Call::Text(_, _) => 1,
        Call::TextAndInteger(_, _, _) => 2,
        Call::TextAndIntegers(_, _, _) => 3,
        Call::TextAndCharacter(_, _) => 2,
    }
}
