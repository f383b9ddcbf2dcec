// The words and signs of the language.
ghost use Rattle.std.specs.Prelude.{◌≡◌};
ghost use Rattle.sim_print.specs.Words.{word};

use sim_base::TokenKind;

/// How a word or a sign is written. Nothing for what is written by its value.
#[tactic(auto, unfolding(crate::specs::Words::word))]
pub(crate) fn word_of(kind: TokenKind) -> &'static str
    ensures { result.now ≡ word kind }
{
    match kind {
        TokenKind::Activate => "activate",
        TokenKind::After => "after",
        TokenKind::And => "and",
        TokenKind::Array => "array",
        TokenKind::At => "at",
        TokenKind::Before => "before",
        TokenKind::Begin => "begin",
        TokenKind::Boolean => "boolean",
        TokenKind::CharacterWord => "character",
        TokenKind::Class => "class",
        TokenKind::Delay => "delay",
        TokenKind::Do => "do",
        TokenKind::Else => "else",
        TokenKind::End => "end",
        TokenKind::Eqv => "eqv",
        TokenKind::False => "false",
        TokenKind::For => "for",
        TokenKind::Hidden => "hidden",
        TokenKind::If => "if",
        TokenKind::Imp => "imp",
        TokenKind::In => "in",
        TokenKind::Inner => "inner",
        TokenKind::Inspect => "inspect",
        TokenKind::IntegerWord => "integer",
        TokenKind::Is => "is",
        TokenKind::Name => "name",
        TokenKind::New => "new",
        TokenKind::None => "none",
        TokenKind::Not => "not",
        TokenKind::Notext => "notext",
        TokenKind::Or => "or",
        TokenKind::Otherwise => "otherwise",
        TokenKind::Prior => "prior",
        TokenKind::Procedure => "procedure",
        TokenKind::Protected => "protected",
        TokenKind::Qua => "qua",
        TokenKind::Reactivate => "reactivate",
        TokenKind::Ref => "ref",
        TokenKind::Step => "step",
        TokenKind::TextWord => "text",
        TokenKind::Then => "then",
        TokenKind::This => "this",
        TokenKind::True => "true",
        TokenKind::Until => "until",
        TokenKind::Value => "value",
        TokenKind::Virtual => "virtual",
        TokenKind::When => "when",
        TokenKind::While => "while",
        TokenKind::To => "to",
        TokenKind::AndThen => "and then",
        TokenKind::OrElse => "or else",
        TokenKind::Open => "(",
        TokenKind::Close => ")",
        TokenKind::Comma => ",",
        TokenKind::Semicolon => ";",
        TokenKind::Colon => ":",
        TokenKind::Dot => ".",
        TokenKind::Plus => "+",
        TokenKind::Minus => "-",
        TokenKind::Times => "*",
        TokenKind::Power => "**",
        TokenKind::Divide => "//",
        TokenKind::Ampersand => "&",
        TokenKind::Assign => ":=",
        TokenKind::AssignReference => ":-",
        TokenKind::Equal => "=",
        TokenKind::SameReference => "==",
        TokenKind::OtherReference => "=/=",
        TokenKind::Less => "<",
        TokenKind::LessEqual => "<=",
        TokenKind::Greater => ">",
        TokenKind::GreaterEqual => ">=",
        TokenKind::NotEqual => "<>",
        TokenKind::Identifier
        | TokenKind::Integer
        | TokenKind::Character
        | TokenKind::Text
        | TokenKind::EndOfSource => "",
    }
}
