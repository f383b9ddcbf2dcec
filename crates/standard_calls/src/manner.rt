//! How standard names are done.
ghost use Rattle.std.specs.Prelude.{◌≡◌, true};
ghost use Rattle.sim_values.specs.Standard.{row_of};
ghost use Rattle.standard_calls.specs.Quiet.{OnNumbers, OnText, is_done, manner_of as manner};

use sim_values::Standard;

/// How a standard name is done.
#[derive(Clone, Copy, Debug, PartialEq, Eq)]
pub enum Manner {
    /// On numbers or characters alone.
    Plain,
    /// On a text of which it looks at one character, or at nothing but its length and position.
    Scan,
    /// On a whole text, or it makes one.
    Whole,
    /// On the input or the output; or it has no operands; or it does not run.
    Ports,
}

/// How a name is done.
#[inline(always)]
pub fn manner_of(name: Standard) -> Manner
    ensures manner { result ≡ manner name }
    ensures plain { result ≡ Manner.Plain → OnNumbers (row_of name).function }
    ensures scan { result ≡ Manner.Scan → OnText (row_of name).function }
    ensures runs { (result ≡ Manner.Ports → ⊥) → is_done name ≡ true }
{
    match name {
        Standard::Abs => Manner::Plain,
        Standard::Sign => Manner::Plain,
        Standard::Min => Manner::Plain,
        Standard::Max => Manner::Plain,
        Standard::Mod => Manner::Plain,
        Standard::Rem => Manner::Plain,
        Standard::Char => Manner::Plain,
        Standard::Rank => Manner::Plain,
        Standard::Isochar => Manner::Plain,
        Standard::Isorank => Manner::Plain,
        Standard::Digit => Manner::Plain,
        Standard::Letter => Manner::Plain,
        Standard::TextLength => Manner::Scan,
        Standard::TextPos => Manner::Scan,
        Standard::TextMore => Manner::Scan,
        Standard::TextGetchar => Manner::Scan,
        Standard::TextPutchar => Manner::Scan,
        Standard::TextSetpos => Manner::Scan,
        Standard::Blanks => Manner::Whole,
        Standard::Copy => Manner::Whole,
        Standard::Upcase => Manner::Whole,
        Standard::Lowcase => Manner::Whole,
        Standard::TextConstant => Manner::Whole,
        Standard::TextStart => Manner::Whole,
        Standard::TextMain => Manner::Whole,
        Standard::TextSub => Manner::Whole,
        Standard::TextStrip => Manner::Whole,
        Standard::TextGetint => Manner::Whole,
        Standard::TextPutint => Manner::Whole,
        _ => Manner::Ports,
    }
}
