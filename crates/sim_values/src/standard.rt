//! The standard names: where each is found, what it takes and what it gives.
ghost use Rattle.std.specs.Prelude.{◌≡◌, Some};
ghost use Rattle.std.specs.Prelude.{slice_get};
ghost use Rattle.sim_values.specs.Standard.{HasItsOperands, row_of};

/// Where a standard name is found.
#[derive(Clone, Copy, Debug, PartialEq, Eq)]
pub enum Owner {
    /// Outside the program: it is seen everywhere where no declaration hides it.
    Environment,
    /// A text, before a dot.
    Text,
    /// `sysin`; seen without a dot.
    Sysin,
    /// `sysout`; seen without a dot.
    Sysout,
    /// `sysin` and `sysout`; seen without a dot it is that of `sysout`.
    Images,
    /// Every object and prefixed block.
    Object,
    /// The class `linkage`.
    Linkage,
    /// The class `link`.
    Link,
    /// The class `head`.
    Head,
    /// The class `process`.
    Process,
    /// A block with the prefix `simulation`.
    Simulation,
}

/// The type of a parameter or of the result of a standard name.
#[derive(Clone, Copy, Debug, PartialEq, Eq)]
pub enum StandardType {
    /// An integer.
    Integer,
    /// A truth value.
    Boolean,
    /// A character.
    Character,
    /// A text.
    Text,
    /// A reference to an object of any class.
    Reference,
    /// A reference to a `linkage`.
    Linkage,
    /// A reference to a `link`.
    Link,
    /// A reference to a `head`.
    Head,
    /// A reference to a `process`.
    Process,
}

/// A standard name, in the order of the table of standard names.
#[derive(Clone, Copy, Debug, PartialEq, Eq)]
pub enum Standard {
    /// `abs`
    Abs,
    /// `sign`
    Sign,
    /// `min`
    Min,
    /// `max`
    Max,
    /// `mod`
    Mod,
    /// `rem`
    Rem,
    /// `maxint`
    Maxint,
    /// `minint`
    Minint,
    /// `char`
    Char,
    /// `rank`
    Rank,
    /// `isochar`
    Isochar,
    /// `isorank`
    Isorank,
    /// `digit`
    Digit,
    /// `letter`
    Letter,
    /// `blanks`
    Blanks,
    /// `copy`
    Copy,
    /// `upcase`
    Upcase,
    /// `lowcase`
    Lowcase,
    /// `t.constant`
    TextConstant,
    /// `t.start`
    TextStart,
    /// `t.length`
    TextLength,
    /// `t.pos`
    TextPos,
    /// `t.more`
    TextMore,
    /// `t.main`
    TextMain,
    /// `t.setpos`
    TextSetpos,
    /// `t.getchar`
    TextGetchar,
    /// `t.putchar`
    TextPutchar,
    /// `t.sub`
    TextSub,
    /// `t.strip`
    TextStrip,
    /// `t.getint`
    TextGetint,
    /// `t.putint`
    TextPutint,
    /// `inimage`
    Inimage,
    /// `inchar`
    Inchar,
    /// `inint`
    Inint,
    /// `intext`
    Intext,
    /// `lastitem`
    Lastitem,
    /// `endfile`
    Endfile,
    /// `outimage`
    Outimage,
    /// `outchar`
    Outchar,
    /// `outtext`
    Outtext,
    /// `outint`
    Outint,
    /// `image` of sysin or sysout
    Image,
    /// `pos` of sysin or sysout
    Pos,
    /// `setpos` of sysin or sysout
    Setpos,
    /// `more` of sysin or sysout
    More,
    /// `length` of sysin or sysout
    Length,
    /// `detach`
    Detach,
    /// `call`
    Call,
    /// `resume`
    Resume,
    /// `suc` of a linkage
    Suc,
    /// `pred` of a linkage
    Pred,
    /// `prev` of a linkage
    Prev,
    /// `out` of a link
    Out,
    /// `follow` of a link
    Follow,
    /// `precede` of a link
    Precede,
    /// `into` of a link
    Into,
    /// `first` of a head
    First,
    /// `last` of a head
    Last,
    /// `empty` of a head
    Empty,
    /// `cardinal` of a head
    Cardinal,
    /// `clear` of a head
    Clear,
    /// `idle` of a process
    Idle,
    /// `terminated` of a process
    Terminated,
    /// `evtime` of a process
    Evtime,
    /// `nextev` of a process
    Nextev,
    /// `time` of a simulation
    Time,
    /// `current` of a simulation
    Current,
    /// `main` of a simulation
    Main,
    /// `hold` of a simulation
    Hold,
    /// `passivate` of a simulation
    Passivate,
    /// `wait` of a simulation
    Wait,
    /// `cancel` of a simulation
    Cancel,
}

/// The standard names, each at its number.
pub const STANDARD_NAMES: [Standard; 72] = [
    Standard::Abs,
    Standard::Sign,
    Standard::Min,
    Standard::Max,
    Standard::Mod,
    Standard::Rem,
    Standard::Maxint,
    Standard::Minint,
    Standard::Char,
    Standard::Rank,
    Standard::Isochar,
    Standard::Isorank,
    Standard::Digit,
    Standard::Letter,
    Standard::Blanks,
    Standard::Copy,
    Standard::Upcase,
    Standard::Lowcase,
    Standard::TextConstant,
    Standard::TextStart,
    Standard::TextLength,
    Standard::TextPos,
    Standard::TextMore,
    Standard::TextMain,
    Standard::TextSetpos,
    Standard::TextGetchar,
    Standard::TextPutchar,
    Standard::TextSub,
    Standard::TextStrip,
    Standard::TextGetint,
    Standard::TextPutint,
    Standard::Inimage,
    Standard::Inchar,
    Standard::Inint,
    Standard::Intext,
    Standard::Lastitem,
    Standard::Endfile,
    Standard::Outimage,
    Standard::Outchar,
    Standard::Outtext,
    Standard::Outint,
    Standard::Image,
    Standard::Pos,
    Standard::Setpos,
    Standard::More,
    Standard::Length,
    Standard::Detach,
    Standard::Call,
    Standard::Resume,
    Standard::Suc,
    Standard::Pred,
    Standard::Prev,
    Standard::Out,
    Standard::Follow,
    Standard::Precede,
    Standard::Into,
    Standard::First,
    Standard::Last,
    Standard::Empty,
    Standard::Cardinal,
    Standard::Clear,
    Standard::Idle,
    Standard::Terminated,
    Standard::Evtime,
    Standard::Nextev,
    Standard::Time,
    Standard::Current,
    Standard::Main,
    Standard::Hold,
    Standard::Passivate,
    Standard::Wait,
    Standard::Cancel,
];

impl Standard {
    /// The name of this number.
    pub fn from_number(number: usize) -> Option<Standard>
        ensures name { result ≡ slice_get STANDARD_NAMES number }
    {
        element_of(&STANDARD_NAMES, number)
    }

    /// Its number, from 0.
    pub fn number(self) -> usize
        ensures number { slice_get STANDARD_NAMES result ≡ Some self }
    {
        self as usize
    }

    /// Its spelling in small letters.
    #[tactic(auto, unfolding(crate::specs::Standard::row_of))]
    pub fn spelling(self) -> &'static str
        ensures spelling { result.now ≡ (row_of self).spelling }
    {
        match self {
            Standard::Abs => "abs",
            Standard::Sign => "sign",
            Standard::Min => "min",
            Standard::Max => "max",
            Standard::Mod => "mod",
            Standard::Rem => "rem",
            Standard::Maxint => "maxint",
            Standard::Minint => "minint",
            Standard::Char => "char",
            Standard::Rank => "rank",
            Standard::Isochar => "isochar",
            Standard::Isorank => "isorank",
            Standard::Digit => "digit",
            Standard::Letter => "letter",
            Standard::Blanks => "blanks",
            Standard::Copy => "copy",
            Standard::Upcase => "upcase",
            Standard::Lowcase => "lowcase",
            Standard::TextConstant => "constant",
            Standard::TextStart => "start",
            Standard::TextLength => "length",
            Standard::TextPos => "pos",
            Standard::TextMore => "more",
            Standard::TextMain => "main",
            Standard::TextSetpos => "setpos",
            Standard::TextGetchar => "getchar",
            Standard::TextPutchar => "putchar",
            Standard::TextSub => "sub",
            Standard::TextStrip => "strip",
            Standard::TextGetint => "getint",
            Standard::TextPutint => "putint",
            Standard::Inimage => "inimage",
            Standard::Inchar => "inchar",
            Standard::Inint => "inint",
            Standard::Intext => "intext",
            Standard::Lastitem => "lastitem",
            Standard::Endfile => "endfile",
            Standard::Outimage => "outimage",
            Standard::Outchar => "outchar",
            Standard::Outtext => "outtext",
            Standard::Outint => "outint",
            Standard::Image => "image",
            Standard::Pos => "pos",
            Standard::Setpos => "setpos",
            Standard::More => "more",
            Standard::Length => "length",
            Standard::Detach => "detach",
            Standard::Call => "call",
            Standard::Resume => "resume",
            Standard::Suc => "suc",
            Standard::Pred => "pred",
            Standard::Prev => "prev",
            Standard::Out => "out",
            Standard::Follow => "follow",
            Standard::Precede => "precede",
            Standard::Into => "into",
            Standard::First => "first",
            Standard::Last => "last",
            Standard::Empty => "empty",
            Standard::Cardinal => "cardinal",
            Standard::Clear => "clear",
            Standard::Idle => "idle",
            Standard::Terminated => "terminated",
            Standard::Evtime => "evtime",
            Standard::Nextev => "nextev",
            Standard::Time => "time",
            Standard::Current => "current",
            Standard::Main => "main",
            Standard::Hold => "hold",
            Standard::Passivate => "passivate",
            Standard::Wait => "wait",
            Standard::Cancel => "cancel",
        }
    }

    /// Where it is found.
    #[tactic(auto, unfolding(crate::specs::Standard::row_of))]
    pub fn owner(self) -> Owner
        ensures owner { result ≡ (row_of self).owner }
    {
        match self {
            Standard::Abs
            | Standard::Sign
            | Standard::Min
            | Standard::Max
            | Standard::Mod
            | Standard::Rem
            | Standard::Maxint
            | Standard::Minint
            | Standard::Char
            | Standard::Rank
            | Standard::Isochar
            | Standard::Isorank
            | Standard::Digit
            | Standard::Letter
            | Standard::Blanks
            | Standard::Copy
            | Standard::Upcase
            | Standard::Lowcase
            | Standard::Call
            | Standard::Resume => Owner::Environment,
            Standard::TextConstant
            | Standard::TextStart
            | Standard::TextLength
            | Standard::TextPos
            | Standard::TextMore
            | Standard::TextMain
            | Standard::TextSetpos
            | Standard::TextGetchar
            | Standard::TextPutchar
            | Standard::TextSub
            | Standard::TextStrip
            | Standard::TextGetint
            | Standard::TextPutint => Owner::Text,
            Standard::Inimage
            | Standard::Inchar
            | Standard::Inint
            | Standard::Intext
            | Standard::Lastitem
            | Standard::Endfile => Owner::Sysin,
            Standard::Outimage | Standard::Outchar | Standard::Outtext | Standard::Outint =>
                Owner::Sysout,
            Standard::Image
            | Standard::Pos
            | Standard::Setpos
            | Standard::More
            | Standard::Length => Owner::Images,
            Standard::Detach => Owner::Object,
            Standard::Suc | Standard::Pred | Standard::Prev => Owner::Linkage,
            Standard::Out | Standard::Follow | Standard::Precede | Standard::Into => Owner::Link,
            Standard::First
            | Standard::Last
            | Standard::Empty
            | Standard::Cardinal
            | Standard::Clear => Owner::Head,
            Standard::Idle | Standard::Terminated | Standard::Evtime | Standard::Nextev =>
                Owner::Process,
            Standard::Time
            | Standard::Current
            | Standard::Main
            | Standard::Hold
            | Standard::Passivate
            | Standard::Wait
            | Standard::Cancel => Owner::Simulation,
        }
    }

    /// The types of its parameters, but for the text or object before a dot.
    #[tactic(auto, unfolding(crate::specs::Standard::row_of))]
    pub fn parameters(self) -> &'static [StandardType]
        ensures parameters { result.now ≡ (row_of self).parameters }
        // A name that has its meaning here takes what is before the dot, and these.
        ensures operands { HasItsOperands self }
    {
        match self {
            Standard::Abs
            | Standard::Sign
            | Standard::Char
            | Standard::Isochar
            | Standard::Blanks
            | Standard::TextSetpos
            | Standard::TextPutint
            | Standard::Intext
            | Standard::Setpos
            | Standard::Hold => &[StandardType::Integer],
            Standard::Min
            | Standard::Max
            | Standard::Mod
            | Standard::Rem
            | Standard::TextSub
            | Standard::Outint => &[StandardType::Integer, StandardType::Integer],
            Standard::Maxint
            | Standard::Minint
            | Standard::TextConstant
            | Standard::TextStart
            | Standard::TextLength
            | Standard::TextPos
            | Standard::TextMore
            | Standard::TextMain
            | Standard::TextGetchar
            | Standard::TextStrip
            | Standard::TextGetint
            | Standard::Inimage
            | Standard::Inchar
            | Standard::Inint
            | Standard::Lastitem
            | Standard::Endfile
            | Standard::Outimage
            | Standard::Image
            | Standard::Pos
            | Standard::More
            | Standard::Length
            | Standard::Detach
            | Standard::Suc
            | Standard::Pred
            | Standard::Prev
            | Standard::Out
            | Standard::First
            | Standard::Last
            | Standard::Empty
            | Standard::Cardinal
            | Standard::Clear
            | Standard::Idle
            | Standard::Terminated
            | Standard::Evtime
            | Standard::Nextev
            | Standard::Time
            | Standard::Current
            | Standard::Main
            | Standard::Passivate => &[],
            Standard::Rank
            | Standard::Isorank
            | Standard::Digit
            | Standard::Letter
            | Standard::TextPutchar
            | Standard::Outchar => &[StandardType::Character],
            Standard::Copy | Standard::Upcase | Standard::Lowcase | Standard::Outtext => &[
                StandardType::Text,
            ],
            Standard::Call | Standard::Resume => &[StandardType::Reference],
            Standard::Follow | Standard::Precede => &[StandardType::Linkage],
            Standard::Into | Standard::Wait => &[StandardType::Head],
            Standard::Cancel => &[StandardType::Process],
        }
    }

    /// The type of its result, if it has one.
    #[tactic(auto, unfolding(crate::specs::Standard::row_of))]
    pub fn result(self) -> Option<StandardType>
        ensures result { result ≡ (row_of self).result }
    {
        match self {
            Standard::Abs
            | Standard::Sign
            | Standard::Min
            | Standard::Max
            | Standard::Mod
            | Standard::Rem
            | Standard::Maxint
            | Standard::Minint
            | Standard::Rank
            | Standard::Isorank
            | Standard::TextStart
            | Standard::TextLength
            | Standard::TextPos
            | Standard::TextGetint
            | Standard::Inint
            | Standard::Pos
            | Standard::Length
            | Standard::Cardinal
            | Standard::Evtime
            | Standard::Time => Some(StandardType::Integer),
            Standard::Char | Standard::Isochar | Standard::TextGetchar | Standard::Inchar => Some(
                StandardType::Character,
            ),
            Standard::Digit
            | Standard::Letter
            | Standard::TextConstant
            | Standard::TextMore
            | Standard::Lastitem
            | Standard::Endfile
            | Standard::More
            | Standard::Empty
            | Standard::Idle
            | Standard::Terminated => Some(StandardType::Boolean),
            Standard::Blanks
            | Standard::Copy
            | Standard::Upcase
            | Standard::Lowcase
            | Standard::TextMain
            | Standard::TextSub
            | Standard::TextStrip
            | Standard::Intext
            | Standard::Image => Some(StandardType::Text),
            Standard::TextSetpos
            | Standard::TextPutchar
            | Standard::TextPutint
            | Standard::Inimage
            | Standard::Outimage
            | Standard::Outchar
            | Standard::Outtext
            | Standard::Outint
            | Standard::Setpos
            | Standard::Detach
            | Standard::Call
            | Standard::Resume
            | Standard::Out
            | Standard::Follow
            | Standard::Precede
            | Standard::Into
            | Standard::Clear
            | Standard::Hold
            | Standard::Passivate
            | Standard::Wait
            | Standard::Cancel => None,
            Standard::Suc | Standard::Pred | Standard::First | Standard::Last => Some(
                StandardType::Link,
            ),
            Standard::Prev => Some(StandardType::Linkage),
            Standard::Nextev | Standard::Current | Standard::Main => Some(StandardType::Process),
        }
    }
}

/// The name at this place of a list of names, if there is one.
fn element_of(names: &[Standard], place: usize) -> Option<Standard>
    ensures { result ≡ slice_get names.now place }
{
    names.get(place).copied()
}
