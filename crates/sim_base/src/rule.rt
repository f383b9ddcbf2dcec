//! The static rules, each with its number and its text.
ghost use Rattle.std.specs.Prelude.{◌≡◌, Some};
ghost use Rattle.sim_base.specs.Rule.{rule_code, rule_text};

use std::fmt;

/// A static rule. A source that breaks one is refused, by the first that it breaks: the lexical rules
/// `X`, then the grammar `Y`, then the rules `S`, `L` and `N` on names and types.
#[derive(Clone, Copy, Debug, PartialEq, Eq)]
pub enum Rule {
    /// `X1`: byte begins no token.
    ByteBeginsNoToken,
    /// `X2`: text constant not closed.
    TextConstantNotClosed,
    /// `X3`: bad character constant.
    BadCharacterConstant,
    /// `X4`: real constant left out.
    RealConstant,
    /// `X5`: integer too large.
    IntegerTooLarge,
    /// `X6`: comment not closed.
    CommentNotClosed,
    /// `X7`: directive left out.
    Directive,
    /// `X8`: source too long.
    SourceTooLong,
    /// `X9`: word left out.
    WordLeftOut,
    /// `Y1`: unexpected token.
    UnexpectedToken,
    /// `Y2`: nested too deeply.
    NestedTooDeeply,
    /// `S1`: identifier declared twice.
    DeclaredTwice,
    /// `S2`: prefix is no class of this block.
    PrefixIsNoClass,
    /// `S3`: class in its own prefix chain.
    ClassInItsOwnChain,
    /// `S4`: parameter and specification disagree.
    SpecificationDisagrees,
    /// `S5`: mode not allowed.
    ModeNotAllowed,
    /// `S6`: inner out of place.
    InnerOutOfPlace,
    /// `L1`: too many block levels.
    TooManyLevels,
    /// `L2`: too many cells.
    TooManyCells,
    /// `L3`: too many declarations.
    TooManyDeclarations,
    /// `S7`: qualification is no class.
    QualificationIsNoClass,
    /// `S8`: match does not fit its virtual.
    MatchDoesNotFit,
    /// `S9`: protection of no such attribute.
    ProtectionOfNoAttribute,
    /// `S10`: identifier not declared.
    NotDeclared,
    /// `S11`: attribute not accessible here.
    NotAccessible,
    /// `S12`: wrong kind of identifier.
    WrongKind,
    /// `S13`: wrong type.
    WrongType,
    /// `S14`: left side is no variable.
    LeftSideIsNoVariable,
    /// `S15`: wrong number of parameters or subscripts.
    WrongNumber,
    /// `S16`: qualifications on different chains.
    DifferentChains,
    /// `S17`: class with classes accessed from outside.
    ClassWithClasses,
    /// `S18`: this outside its class.
    ThisOutsideItsClass,
    /// `S19`: controlled variable not simple.
    ControlledVariableNotSimple,
    /// `S20`: activation outside a simulation.
    ActivationOutsideSimulation,
    /// `S21`: class only for prefixing.
    OnlyForPrefixing,
    /// `S22`: array bound depends on its own block.
    BoundDependsOnItsBlock,
    /// `S23`: standard name in a form left out.
    StandardNameLeftOut,
    /// `N1`: real function left out.
    RealFunction,
    /// `N2`: random drawing left out.
    RandomDrawing,
    /// `N3`: file or layout left out.
    FileOrLayout,
    /// `N4`: environment name left out.
    EnvironmentName,
}

impl Rule {
    /// The number and the words, as they are printed.
    pub fn text(self) -> &'static str
        ensures text { result.now ≡ rule_text self }
    {
        match self {
            Rule::ByteBeginsNoToken => "X1 byte begins no token",
            Rule::TextConstantNotClosed => "X2 text constant not closed",
            Rule::BadCharacterConstant => "X3 bad character constant",
            Rule::RealConstant => "X4 real constant left out",
            Rule::IntegerTooLarge => "X5 integer too large",
            Rule::CommentNotClosed => "X6 comment not closed",
            Rule::Directive => "X7 directive left out",
            Rule::SourceTooLong => "X8 source too long",
            Rule::WordLeftOut => "X9 word left out",
            Rule::UnexpectedToken => "Y1 unexpected token",
            Rule::NestedTooDeeply => "Y2 nested too deeply",
            Rule::DeclaredTwice => "S1 identifier declared twice",
            Rule::PrefixIsNoClass => "S2 prefix is no class of this block",
            Rule::ClassInItsOwnChain => "S3 class in its own prefix chain",
            Rule::SpecificationDisagrees => "S4 parameter and specification disagree",
            Rule::ModeNotAllowed => "S5 mode not allowed",
            Rule::InnerOutOfPlace => "S6 inner out of place",
            Rule::TooManyLevels => "L1 too many block levels",
            Rule::TooManyCells => "L2 too many cells",
            Rule::TooManyDeclarations => "L3 too many declarations",
            Rule::QualificationIsNoClass => "S7 qualification is no class",
            Rule::MatchDoesNotFit => "S8 match does not fit its virtual",
            Rule::ProtectionOfNoAttribute => "S9 protection of no such attribute",
            Rule::NotDeclared => "S10 identifier not declared",
            Rule::NotAccessible => "S11 attribute not accessible here",
            Rule::WrongKind => "S12 wrong kind of identifier",
            Rule::WrongType => "S13 wrong type",
            Rule::LeftSideIsNoVariable => "S14 left side is no variable",
            Rule::WrongNumber => "S15 wrong number of parameters or subscripts",
            Rule::DifferentChains => "S16 qualifications on different chains",
            Rule::ClassWithClasses => "S17 class with classes accessed from outside",
            Rule::ThisOutsideItsClass => "S18 this outside its class",
            Rule::ControlledVariableNotSimple => "S19 controlled variable not simple",
            Rule::ActivationOutsideSimulation => "S20 activation outside a simulation",
            Rule::OnlyForPrefixing => "S21 class only for prefixing",
            Rule::BoundDependsOnItsBlock => "S22 array bound depends on its own block",
            Rule::StandardNameLeftOut => "S23 standard name in a form left out",
            Rule::RealFunction => "N1 real function left out",
            Rule::RandomDrawing => "N2 random drawing left out",
            Rule::FileOrLayout => "N3 file or layout left out",
            Rule::EnvironmentName => "N4 environment name left out",
        }
    }

    /// The printed number alone.
    pub fn code(self) -> &'static str
        ensures code { result.now ≡ rule_code self }
    {
        match self {
            Rule::ByteBeginsNoToken => "X1",
            Rule::TextConstantNotClosed => "X2",
            Rule::BadCharacterConstant => "X3",
            Rule::RealConstant => "X4",
            Rule::IntegerTooLarge => "X5",
            Rule::CommentNotClosed => "X6",
            Rule::Directive => "X7",
            Rule::SourceTooLong => "X8",
            Rule::WordLeftOut => "X9",
            Rule::UnexpectedToken => "Y1",
            Rule::NestedTooDeeply => "Y2",
            Rule::DeclaredTwice => "S1",
            Rule::PrefixIsNoClass => "S2",
            Rule::ClassInItsOwnChain => "S3",
            Rule::SpecificationDisagrees => "S4",
            Rule::ModeNotAllowed => "S5",
            Rule::InnerOutOfPlace => "S6",
            Rule::TooManyLevels => "L1",
            Rule::TooManyCells => "L2",
            Rule::TooManyDeclarations => "L3",
            Rule::QualificationIsNoClass => "S7",
            Rule::MatchDoesNotFit => "S8",
            Rule::ProtectionOfNoAttribute => "S9",
            Rule::NotDeclared => "S10",
            Rule::NotAccessible => "S11",
            Rule::WrongKind => "S12",
            Rule::WrongType => "S13",
            Rule::LeftSideIsNoVariable => "S14",
            Rule::WrongNumber => "S15",
            Rule::DifferentChains => "S16",
            Rule::ClassWithClasses => "S17",
            Rule::ThisOutsideItsClass => "S18",
            Rule::ControlledVariableNotSimple => "S19",
            Rule::ActivationOutsideSimulation => "S20",
            Rule::OnlyForPrefixing => "S21",
            Rule::BoundDependsOnItsBlock => "S22",
            Rule::StandardNameLeftOut => "S23",
            Rule::RealFunction => "N1",
            Rule::RandomDrawing => "N2",
            Rule::FileOrLayout => "N3",
            Rule::EnvironmentName => "N4",
        }
    }
}

impl fmt::Display for Rule {
    ghost output = { λ rule. Some (rule_text rule) };

    fn fmt<W: fmt::Write>(&self, f: &mut fmt::Formatter<W>) -> fmt::Result {
        f.write_str(self.text())
    }
}
