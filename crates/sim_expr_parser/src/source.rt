//! The tokens of a source, and steps over single ones.
#![tactic(auto, unfolding(sim_tree::specs::Grammar::is))]

ghost use Rattle.std.specs.Prelude.{◌≡◌, ◌+◌, ◌^◌, ◌<◌, ℕ, true, false, length, IfOk, MatchOption, MatchResult};
ghost use Rattle.sim_tree.specs.Grammar.{is, just, Kept};
ghost use Rattle.sim_base.specs.declared.token.TokenKind.TheVariants as k;
ghost use Rattle.sim_base.specs.declared.token.TokenValue.TheVariants as token_value;
ghost use Rattle.sim_base.specs.Lexeme.{value_for};
ghost use Rattle.sim_tree.specs.Reading.{kind_at, value_at};
ghost use Rattle.sim_tree.specs.Derivation.{identifier};
ghost use Rattle.sim_expr_parser.specs.Parsing.{IsSource, GivesTo, GivesConstant};

use crate::refusal::Stop;
use sim_base::{ByteString, Token, TokenKind, TokenNo, TokenValue};
use sim_tree::{Expr, Identifier};
use std::alloc::{AllocError, Global};
use std::marker::Model;

/// The tokens of a source, the last of which ends it, and what allocates the tree that is made of them.
#[derive(Drop)]
pub struct Source<'a> {
    alloc: Global,
    tokens: &'a [Token],
}

impl<'a> Model for Source<'a> {
    ghost use Rattle.std.specs.Prelude.{List};
    ghost use Rattle.sim_base.specs.declared.token.Token.{Token as Word};
    ghost use Rattle.sim_expr_parser.specs.Parsing.{IsSource};

    ghost Value = { List Word };

    ghost view = { λ s. s.tokens.now };

    ghost invariant = { λ s. IsSource s.tokens.now };
}

/// The kind of a token.
pub fn kind_at_token(tokens: &[Token], at: usize) -> TokenKind
    requires { at < length tokens.now }
    ensures { result ≡ kind_at tokens.now at }
{
    tokens[at].lexeme.kind
}

// The value beside the kind of a token.
fn value_of_token(tokens: &[Token], at: usize) -> &TokenValue
    requires { at < length tokens.now }
    ensures { value_at tokens.now at ≡ value_for (kind_at tokens.now at) result.now }
{
    &tokens[at].lexeme.value
}

impl<'a> Source<'a> {
    /// The source of these tokens.
    pub fn new(alloc: Global, tokens: &'a [Token]) -> Source<'a>
        requires { IsSource tokens.now }
        ensures { result ≡ tokens.now }
    {
        Source { alloc, tokens }
    }

    /// What allocates the tree.
    pub fn allocator(&self) -> Global {
        self.alloc
    }

    /// The tokens.
    pub fn tokens(&self) -> &'a [Token]
        ensures tokens { result.now ≡ self.now }
        ensures whole { IsSource self.now }
    {
        self.tokens
    }

    /// The kind of a token.
    pub fn kind_at(&self, at: usize) -> TokenKind
        requires within { at < length self.now }
        ensures { result ≡ kind_at self.now at }
    {
        kind_at_token(self.tokens, at)
    }

    /// The number of a token.
    pub fn token_no(&self, at: usize) -> TokenNo
        requires within { at < length self.now }
        ensures { result.0 ≡ at }
    {
        prove!(self.tokens.len() < 1 << 32);
        TokenNo(at as u32)
    }

    /// The index after a token of this kind.
    pub fn eat(&self, at: usize, kind: TokenKind) -> Option<usize>
        requires within { at < length self.now }
        requires no_end { is k.EndOfSource kind ≡ false }
        ensures { MatchOption result (is (kind_at self.now at) kind ≡ false)
            (λ next. (is (kind_at self.now at) kind ≡ true) × (next ≡ at + 1) × (next < length self.now)) }
    {
        if kind_at_token(self.tokens, at) == kind {
            Some(at + 1)
        } else {
            None
        }
    }

    /// The same, where the token has to be there.
    pub fn expect(&self, at: usize, kind: TokenKind) -> Result<usize, Stop>
        requires within { at < length self.now }
        requires no_end { is k.EndOfSource kind ≡ false }
        ensures { MatchResult result (λ next. (is (kind_at self.now at) kind ≡ true) × (next ≡ at + 1) × (next < length self.now))
            (λ e. (is (kind_at self.now at) kind ≡ false) × (e ≡ Stop.Unexpected at)) }
    {
        self.eat(at, kind).ok_or(Stop::Unexpected(at))
    }

    /// The number beside an integer constant.
    pub fn integer_at(&self, at: usize) -> i64
        requires within { at < length self.now }
        ensures { kind_at self.now at ≡ k.Integer → value_at self.now at ≡ token_value.Integer result }
    {
        value_of_token(self.tokens, at).integer()
    }

    /// The code beside a character constant.
    pub fn character_at(&self, at: usize) -> u8
        requires within { at < length self.now }
        ensures { kind_at self.now at ≡ k.Character → value_at self.now at ≡ token_value.Character result }
    {
        value_of_token(self.tokens, at).character()
    }

    /// The bytes beside an identifier or a text constant, in memory of their own.
    pub fn bytes_at(&self, at: usize) -> Result<ByteString, AllocError>
        requires within { at < length self.now }
        ensures name { IfOk result (λ bytes. kind_at self.now at ≡ k.Identifier → value_at self.now at ≡ token_value.Bytes bytes) }
        ensures text { IfOk result (λ bytes. kind_at self.now at ≡ k.Text → value_at self.now at ≡ token_value.Bytes bytes) }
    {
        let bytes = value_of_token(self.tokens, at).bytes();
        Ok(ByteString::new(Vec::from_slice(self.alloc, bytes)?))
    }

    /// The identifier at a token, and the index after it.
    pub fn identifier_at(&self, at: usize) -> Result<(Identifier, usize), Stop>
        requires within { at < length self.now }
        ensures { (d : ℕ) → GivesTo self.now d (Kept (just k.Identifier)) at identifier result }
    {
        let next = self.expect(at, TokenKind::Identifier)?;
        let token = self.token_no(at);
        let name = self.bytes_at(at)?;
        Ok((Identifier { token, name }, next))
    }

    /// The constant at a token, and the index after it.
    #[inline(never)]
    pub fn constant_at(&self, at: usize) -> Result<(Expr, usize), Stop>
        requires within { at < length self.now }
        ensures { GivesConstant self.now at result }
    {
        let token = self.token_no(at);
        let constant = match kind_at_token(self.tokens, at) {
            TokenKind::Integer => Expr::Integer {
                token,
                value: self.integer_at(at),
            },
            TokenKind::Character => Expr::Character {
                token,
                value: self.character_at(at),
            },
            TokenKind::Text => Expr::Text {
                token,
                value: self.bytes_at(at)?,
            },
            TokenKind::True => Expr::True { token },
            TokenKind::False => Expr::False { token },
            TokenKind::None => Expr::NoObject { token },
            TokenKind::Notext => Expr::Notext { token },
            _ => return Err(Stop::Unexpected(at)),
        };
        Ok((constant, at + 1))
    }
}
