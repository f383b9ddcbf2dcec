//! What may stand around an operand: a sign or `not` in front of it, and operators behind it.
#![tactic(auto, unfolding(sim_tree::specs::Grammar::is))]

ghost use Rattle.std.specs.Prelude.{◌≡◌, ◌<◌, length, MatchOption, ◌&&◌, nat_le};
ghost use Rattle.sim_tree.specs.Grammar.{is, one_of, signs};
ghost use Rattle.sim_tree.specs.Reading.{kind_at};
ghost use Rattle.sim_base.specs.declared.token.TokenKind.TheVariants as k;
ghost use Rattle.sim_expr_parser.specs.Level.{below_of, level_of, operators_of};
ghost use Rattle.sim_expr_parser.specs.Operators.{Follows, NoneFollows};

use crate::level::Level;
use crate::source::Source;
use sim_base::TokenKind;

/// The operators of one level.
#[derive(Clone, Copy)]
pub enum Operators {
    /// The only one of its level.
    Single(Level),
    /// Relations and tests of classes, of which one stands at most.
    Relations,
    /// `+` and `-`.
    Signs,
    /// `*` and `//`.
    Multiplications,
}

impl Operators {
    /// Those that a kind is one of.
    pub fn of(kind: TokenKind) -> Option<Operators>
        ensures { result ≡ operators_of kind }
    {
        match kind {
            TokenKind::OrElse => Some(Operators::Single(Level::OrElse)),
            TokenKind::AndThen => Some(Operators::Single(Level::AndThen)),
            TokenKind::Eqv => Some(Operators::Single(Level::Eqv)),
            TokenKind::Imp => Some(Operators::Single(Level::Imp)),
            TokenKind::Or => Some(Operators::Single(Level::Or)),
            TokenKind::And => Some(Operators::Single(Level::And)),
            TokenKind::Ampersand => Some(Operators::Single(Level::Concatenation)),
            TokenKind::Power => Some(Operators::Single(Level::Power)),
            TokenKind::Plus | TokenKind::Minus => Some(Operators::Signs),
            TokenKind::Times | TokenKind::Divide => Some(Operators::Multiplications),
            TokenKind::Less
            | TokenKind::LessEqual
            | TokenKind::Equal
            | TokenKind::GreaterEqual
            | TokenKind::Greater
            | TokenKind::NotEqual
            | TokenKind::SameReference
            | TokenKind::OtherReference
            | TokenKind::Is
            | TokenKind::In => Some(Operators::Relations),
            _ => None,
        }
    }

    /// The level of their operands, from 1, that of a primary with what is taken of it.
    pub fn operand(self) -> u32
        ensures number { result ≡ below_of self }
        ensures low { result < 13 }
    {
        match self {
            Operators::Single(level) => level.operand(),
            Operators::Relations => 5,
            Operators::Signs => 3,
            Operators::Multiplications => 2,
        }
    }
}

/// The operators at a token, if they are those of a level above `reached` and not above `top`.
pub fn operators_at(source: &Source, at: usize, reached: u32, top: u32) -> Option<Operators>
    requires { at < length source.now }
    ensures { MatchOption result (NoneFollows source.now at reached top) (Follows source.now at reached top) }
{
    let operators = Operators::of(source.kind_at(at))?;
    let level = operators.operand() + 1;
    if reached < level && level <= top {
        Some(operators)
    } else {
        None
    }
}

/// Whether `not` stands at a token, and may begin a part of this level.
pub fn begins_with_not(source: &Source, at: usize, top: u32) -> bool
    requires { at < length source.now }
    ensures { result ≡ (nat_le 7 top && is (kind_at source.now at) k.Not) }
{
    top >= 7 && source.kind_at(at) == TokenKind::Not
}

/// Whether a sign stands at a token, and may begin a part of this level.
pub fn begins_with_sign(source: &Source, at: usize, top: u32) -> bool
    requires { at < length source.now }
    ensures { result ≡ (nat_le 4 top && one_of signs (kind_at source.now at)) }
{
    top >= 4 && is_sign(source.kind_at(at))
}

fn is_sign(kind: TokenKind) -> bool
    ensures { result ≡ one_of signs kind }
{
    matches!(kind, TokenKind::Plus | TokenKind::Minus)
}
