//! Tokens of a source: its lexemes without separators and comments.

ghost use Rattle.std.specs.Prelude.{◌≡◌};
ghost use Rattle.sim_base.specs.Lexeme.{bare, bytes_of, character_of, integer_of};

use crate::{ByteString, Line};

/// The kinds of tokens: the words, the signs, and what has a value. The grammar sees nothing else of a token.
#[derive(Clone, Copy, Debug, PartialEq, Eq)]
pub enum TokenKind {
    /// `activate`.
    Activate,
    /// `after`.
    After,
    /// `and`.
    And,
    /// `array`.
    Array,
    /// `at`.
    At,
    /// `before`.
    Before,
    /// `begin`.
    Begin,
    /// `boolean`.
    Boolean,
    /// `character`.
    CharacterWord,
    /// `class`.
    Class,
    /// `delay`.
    Delay,
    /// `do`.
    Do,
    /// `else`.
    Else,
    /// `end`.
    End,
    /// `eqv`.
    Eqv,
    /// `false`.
    False,
    /// `for`.
    For,
    /// `hidden`.
    Hidden,
    /// `if`.
    If,
    /// `imp`.
    Imp,
    /// `in`.
    In,
    /// `inner`.
    Inner,
    /// `inspect`.
    Inspect,
    /// `integer`.
    IntegerWord,
    /// `is`.
    Is,
    /// `name`.
    Name,
    /// `new`.
    New,
    /// `none`.
    None,
    /// `not`.
    Not,
    /// `notext`.
    Notext,
    /// `or`.
    Or,
    /// `otherwise`.
    Otherwise,
    /// `prior`.
    Prior,
    /// `procedure`.
    Procedure,
    /// `protected`.
    Protected,
    /// `qua`.
    Qua,
    /// `reactivate`.
    Reactivate,
    /// `ref`.
    Ref,
    /// `step`.
    Step,
    /// `text`.
    TextWord,
    /// `then`.
    Then,
    /// `this`.
    This,
    /// `true`.
    True,
    /// `until`.
    Until,
    /// `value`.
    Value,
    /// `virtual`.
    Virtual,
    /// `when`.
    When,
    /// `while`.
    While,
    /// `to`, which begins nothing.
    To,
    /// `and then`.
    AndThen,
    /// `or else`.
    OrElse,
    /// `(`.
    Open,
    /// `)`.
    Close,
    /// `,`.
    Comma,
    /// `;`.
    Semicolon,
    /// `:`.
    Colon,
    /// `.`.
    Dot,
    /// `+`.
    Plus,
    /// `-`.
    Minus,
    /// `*`.
    Times,
    /// `**`.
    Power,
    /// `//`.
    Divide,
    /// `&`.
    Ampersand,
    /// `:=`.
    Assign,
    /// `:-`.
    AssignReference,
    /// `=` or `eq`.
    Equal,
    /// `==`.
    SameReference,
    /// `=/=`.
    OtherReference,
    /// `<` or `lt`.
    Less,
    /// `<=` or `le`.
    LessEqual,
    /// `>` or `gt`.
    Greater,
    /// `>=` or `ge`.
    GreaterEqual,
    /// `<>` or `ne`.
    NotEqual,
    /// An identifier.
    Identifier,
    /// An integer constant.
    Integer,
    /// A character constant.
    Character,
    /// A text constant, with the pieces joined that separators alone stand between.
    Text,
    /// The end of the source.
    EndOfSource,
}

/// What stands beside the kind of a token.
#[derive(Debug, Drop)]
pub enum TokenValue {
    /// Words and signs have no value.
    Absent,
    /// The letters of an identifier, in lower case, or the bytes of a text constant.
    Bytes(ByteString),
    /// The number of an integer constant, at most 2^63 - 1.
    Integer(i64),
    /// The code of a character constant.
    Character(u8),
}

impl TokenValue {
    /// The bytes of an identifier or a text constant; of any other value none.
    pub fn bytes(&self) -> &[u8]
        ensures { result.now ≡ bytes_of self.now }
    {
        match self {
            TokenValue::Bytes(bytes) => bytes.as_bytes(),
            _ => &[],
        }
    }

    /// The number of an integer constant; of any other value 0.
    pub fn integer(&self) -> i64
        ensures { result ≡ integer_of self.now }
    {
        match self {
            TokenValue::Integer(number) => *number,
            _ => 0,
        }
    }

    /// The code of a character constant; of any other value 0.
    pub fn character(&self) -> u8
        ensures { result ≡ character_of self.now }
    {
        match self {
            TokenValue::Character(code) => *code,
            _ => 0,
        }
    }
}

/// What a token is: its kind, and the value beside it.
#[derive(Debug, Drop)]
pub struct Lexeme {
    /// What the grammar sees of it.
    pub kind: TokenKind,
    /// What the grammar does not see.
    pub value: TokenValue,
}

impl Lexeme {
    /// A word or a sign.
    pub fn bare(kind: TokenKind) -> Lexeme
        ensures { result ≡ bare kind }
    {
        Lexeme {
            kind,
            value: TokenValue::Absent,
        }
    }
}

/// A token of the source.
#[derive(Debug, Drop)]
pub struct Token {
    /// What it is.
    pub lexeme: Lexeme,
    /// The place of its first byte, from 0.
    pub place: u32,
    /// The line of that place.
    pub line: Line,
}
