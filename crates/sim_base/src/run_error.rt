//! The run-time errors, each with its number and its text.
ghost use Rattle.std.specs.Prelude.{◌≡◌, Some};
ghost use Rattle.sim_base.specs.RunError.{run_error_code, run_error_text};

use std::fmt;

/// A run-time error. A run that meets one ends at once, with the line of its token.
#[derive(Clone, Copy, Debug, PartialEq, Eq)]
pub enum RunError {
    /// `E1`: integer overflow.
    IntegerOverflow,
    /// `E2`: zero divisor.
    ZeroDivisor,
    /// `E3`: bad exponent.
    BadExponent,
    /// `E4`: subscript out of bounds.
    SubscriptOutOfBounds,
    /// `E5`: wrong number of subscripts.
    WrongNumberOfSubscripts,
    /// `E6`: access through none.
    AccessThroughNone,
    /// `E7`: value outside its qualification.
    OutsideQualification,
    /// `E8`: no match of a virtual.
    NoMatch,
    /// `E9`: actual parameter is no variable.
    ActualIsNoVariable,
    /// `E10`: wrong number of parameters.
    WrongNumberOfParameters,
    /// `E11`: wrong kind or type of a parameter.
    WrongParameter,
    /// `E12`: no such character.
    NoSuchCharacter,
    /// `E13`: array too large.
    ArrayTooLarge,
    /// `E20`: subtext out of range.
    SubtextOutOfRange,
    /// `E21`: text too long for its place.
    TextTooLong,
    /// `E22`: text is constant.
    TextIsConstant,
    /// `E23`: getchar past the end.
    GetcharPastEnd,
    /// `E24`: putchar past the end.
    PutcharPastEnd,
    /// `E25`: no integer item.
    NoIntegerItem,
    /// `E26`: putint on notext.
    PutintOnNotext,
    /// `E27`: negative length.
    NegativeLength,
    /// `E28`: integer item too large.
    IntegerItemTooLarge,
    /// `E30`: field longer than the image.
    FieldTooLong,
    /// `E31`: input line longer than the image.
    InputLineTooLong,
    /// `E32`: input is at its end.
    InputAtEnd,
    /// `E34`: no item before the end of input.
    NoItemBeforeEnd,
    /// `E40`: none is no component.
    NoneIsNoComponent,
    /// `E41`: component is attached.
    ComponentIsAttached,
    /// `E42`: component is terminated.
    ComponentIsTerminated,
    /// `E43`: component is resumed.
    ComponentIsResumed,
    /// `E44`: object is not operating.
    ObjectNotOperating,
    /// `E45`: system is not operating.
    SystemNotOperating,
    /// `E46`: component is attached.
    ResumedIsAttached,
    /// `E50`: no notice is left.
    NoNoticeLeft,
    /// `E51`: time too large.
    TimeTooLarge,
    /// `E52`: no event time.
    NoEventTime,
    /// `E53`: process of another simulation.
    OtherSimulation,
}

impl RunError {
    /// The number and the words, as they are printed.
    pub fn text(self) -> &'static str
        ensures text { result.now ≡ run_error_text self }
    {
        match self {
            RunError::IntegerOverflow => "E1 integer overflow",
            RunError::ZeroDivisor => "E2 zero divisor",
            RunError::BadExponent => "E3 bad exponent",
            RunError::SubscriptOutOfBounds => "E4 subscript out of bounds",
            RunError::WrongNumberOfSubscripts => "E5 wrong number of subscripts",
            RunError::AccessThroughNone => "E6 access through none",
            RunError::OutsideQualification => "E7 value outside its qualification",
            RunError::NoMatch => "E8 no match of a virtual",
            RunError::ActualIsNoVariable => "E9 actual parameter is no variable",
            RunError::WrongNumberOfParameters => "E10 wrong number of parameters",
            RunError::WrongParameter => "E11 wrong kind or type of a parameter",
            RunError::NoSuchCharacter => "E12 no such character",
            RunError::ArrayTooLarge => "E13 array too large",
            RunError::SubtextOutOfRange => "E20 subtext out of range",
            RunError::TextTooLong => "E21 text too long for its place",
            RunError::TextIsConstant => "E22 text is constant",
            RunError::GetcharPastEnd => "E23 getchar past the end",
            RunError::PutcharPastEnd => "E24 putchar past the end",
            RunError::NoIntegerItem => "E25 no integer item",
            RunError::PutintOnNotext => "E26 putint on notext",
            RunError::NegativeLength => "E27 negative length",
            RunError::IntegerItemTooLarge => "E28 integer item too large",
            RunError::FieldTooLong => "E30 field longer than the image",
            RunError::InputLineTooLong => "E31 input line longer than the image",
            RunError::InputAtEnd => "E32 input is at its end",
            RunError::NoItemBeforeEnd => "E34 no item before the end of input",
            RunError::NoneIsNoComponent => "E40 none is no component",
            RunError::ComponentIsAttached => "E41 component is attached",
            RunError::ComponentIsTerminated => "E42 component is terminated",
            RunError::ComponentIsResumed => "E43 component is resumed",
            RunError::ObjectNotOperating => "E44 object is not operating",
            RunError::SystemNotOperating => "E45 system is not operating",
            RunError::ResumedIsAttached => "E46 component is attached",
            RunError::NoNoticeLeft => "E50 no notice is left",
            RunError::TimeTooLarge => "E51 time too large",
            RunError::NoEventTime => "E52 no event time",
            RunError::OtherSimulation => "E53 process of another simulation",
        }
    }

    /// The printed number alone.
    pub fn code(self) -> &'static str
        ensures code { result.now ≡ run_error_code self }
    {
        match self {
            RunError::IntegerOverflow => "E1",
            RunError::ZeroDivisor => "E2",
            RunError::BadExponent => "E3",
            RunError::SubscriptOutOfBounds => "E4",
            RunError::WrongNumberOfSubscripts => "E5",
            RunError::AccessThroughNone => "E6",
            RunError::OutsideQualification => "E7",
            RunError::NoMatch => "E8",
            RunError::ActualIsNoVariable => "E9",
            RunError::WrongNumberOfParameters => "E10",
            RunError::WrongParameter => "E11",
            RunError::NoSuchCharacter => "E12",
            RunError::ArrayTooLarge => "E13",
            RunError::SubtextOutOfRange => "E20",
            RunError::TextTooLong => "E21",
            RunError::TextIsConstant => "E22",
            RunError::GetcharPastEnd => "E23",
            RunError::PutcharPastEnd => "E24",
            RunError::NoIntegerItem => "E25",
            RunError::PutintOnNotext => "E26",
            RunError::NegativeLength => "E27",
            RunError::IntegerItemTooLarge => "E28",
            RunError::FieldTooLong => "E30",
            RunError::InputLineTooLong => "E31",
            RunError::InputAtEnd => "E32",
            RunError::NoItemBeforeEnd => "E34",
            RunError::NoneIsNoComponent => "E40",
            RunError::ComponentIsAttached => "E41",
            RunError::ComponentIsTerminated => "E42",
            RunError::ComponentIsResumed => "E43",
            RunError::ObjectNotOperating => "E44",
            RunError::SystemNotOperating => "E45",
            RunError::ResumedIsAttached => "E46",
            RunError::NoNoticeLeft => "E50",
            RunError::TimeTooLarge => "E51",
            RunError::NoEventTime => "E52",
            RunError::OtherSimulation => "E53",
        }
    }
}

impl fmt::Display for RunError {
    ghost output = { λ error. Some (run_error_text error) };

    fn fmt<W: fmt::Write>(&self, f: &mut fmt::Formatter<W>) -> fmt::Result {
        f.write_str(self.text())
    }
}
