// A text that is laid out token by token.
ghost use Rattle.std.specs.Prelude.{◌≡◌, ◌++◌, ◌∷◌, [], IfOk, OnOk};
ghost use Rattle.sim_base.specs.Lexeme.{character as character_lexeme, named, text as text_lexeme, whole_number};
ghost use Rattle.sim_print.specs.Laid.{Prints, advanced, closed, nothing, opened, put};
ghost use Rattle.sim_print.specs.Layout.{ends_line, holds_back, holds_on, is_applied, is_begin, is_end};
ghost use Rattle.sim_print.specs.Tokens.{name as name_tokens, one};

use crate::constants::{push_all_in_text, push_in_character};
use crate::words::word_of;
use sim_base::{ByteString, TokenKind};
use sim_tree::Identifier;
use std::alloc::{AllocError, Global};
use std::marker::Model;

/// The text so far. Between `begin` and `end` each line is two blanks further in.
#[derive(Drop)]
pub(crate) struct Layout {
    text: Vec<u8>,
    // The blanks that the next line begins with.
    margin: Vec<u8>,
    last: Option<TokenKind>,
}

impl Model for Layout {
    ghost use Rattle.sim_print.specs.Laid.{LaidOut};

    ghost Value = { LaidOut };

    ghost view = { λ layout. record { text = layout.text.items; margin = layout.margin.items; last = layout.last } };
}

// Whether a line ends behind it.
fn ends_line(kind: TokenKind) -> bool
    ensures { result ≡ ends_line kind }
{
    match kind {
        TokenKind::Begin | TokenKind::Semicolon => true,
        _ => false,
    }
}

fn is_begin(kind: TokenKind) -> bool
    ensures { result ≡ is_begin kind }
{
    match kind {
        TokenKind::Begin => true,
        _ => false,
    }
}

// Before it a line begins.
fn is_end(kind: TokenKind) -> bool
    ensures { result ≡ is_end kind }
{
    match kind {
        TokenKind::End => true,
        _ => false,
    }
}

// Whether no blank stands before it.
fn holds_back(kind: TokenKind) -> bool
    ensures { result ≡ holds_back kind }
{
    match kind {
        TokenKind::Semicolon | TokenKind::Comma | TokenKind::Close | TokenKind::Dot => true,
        _ => false,
    }
}

// Whether no blank stands behind it.
fn holds_on(kind: TokenKind) -> bool
    ensures { result ≡ holds_on kind }
{
    match kind {
        TokenKind::Open | TokenKind::Dot => true,
        _ => false,
    }
}

// An identifier, and the parenthesis of its parameters.
fn is_applied(before: TokenKind, next: TokenKind) -> bool
    ensures { result ≡ is_applied before next }
{
    match before {
        TokenKind::Identifier => match next {
            TokenKind::Open => true,
            _ => false,
        },
        _ => false,
    }
}

impl Layout {
    /// Nothing yet.
    pub(crate) fn new(alloc: Global) -> Layout
        ensures { result ≡ nothing }
    {
        Layout {
            text: Vec::new(alloc),
            margin: Vec::new(alloc),
            last: None,
        }
    }

    // What stands in front of the next token.
    #[tactic(auto, using(crate::proofs::Tokens::token_rules), unfolding(crate::specs::Laid::advanced, crate::specs::Layout::between))]
    fn advance(&mut self, kind: TokenKind) -> Result<(), AllocError>
        ensures { OnOk result (self.new ≡ advanced self.old kind) }
    {
        if let Some(before) = self.last {
            if ends_line(before) || is_end(kind) {
                self.text.push(b'\n')?;
                self.text.extend_from_slice(&self.margin)?;
            } else if !holds_back(kind) && !holds_on(before) && !is_applied(before, kind) {
                self.text.push(b' ')?;
            }
        }
        self.last = Some(kind);
        Ok(())
    }

    // Before `end` a line begins with two blanks fewer.
    fn close(&mut self, kind: TokenKind)
        ensures { self.new ≡ record self.old { margin = closed kind self.old.margin } }
    {
        if is_end(kind) {
            let most = self.margin.len().saturating_sub(2);
            self.margin.truncate(most);
        }
    }

    // Behind `begin` a line begins with two blanks more.
    fn open(&mut self, kind: TokenKind) -> Result<(), AllocError>
        ensures { OnOk result (self.new ≡ record self.old { margin = opened kind self.old.margin }) }
    {
        if is_begin(kind) {
            self.margin.extend_from_slice(b"  ")?;
        }
        Ok(())
    }

    // A token of this kind and these bytes.
    #[tactic(auto, using(crate::proofs::Tokens::token_rules))]
    fn put(&mut self, kind: TokenKind, bytes: &[u8]) -> Result<(), AllocError>
        ensures { OnOk result (self.new ≡ put self.old kind bytes.now) }
    {
        self.close(kind);
        self.advance(kind)?;
        self.text.extend_from_slice(bytes)?;
        self.open(kind)
    }

    /// A word or a sign.
    #[tactic(auto, using(crate::proofs::Tokens::token_rules))]
    pub(crate) fn word(&mut self, kind: TokenKind) -> Result<(), AllocError>
        ensures { OnOk result (Prints self.old self.new (one kind)) }
    {
        self.put(kind, word_of(kind).as_bytes())
    }

    /// An identifier.
    #[tactic(auto, using(crate::proofs::Tokens::token_rules))]
    pub(crate) fn name(&mut self, identifier: &Identifier) -> Result<(), AllocError>
        ensures { OnOk result (Prints self.old self.new (name_tokens identifier.now)) }
    {
        self.put(TokenKind::Identifier, identifier.name.as_bytes())
    }

    /// An integer constant, in decimal digits.
    #[tactic(auto, using(crate::proofs::Tokens::token_rules))]
    pub(crate) fn integer(&mut self, value: i64) -> Result<(), AllocError>
        ensures { OnOk result (Prints self.old self.new (whole_number value ∷ [])) }
    {
        let mut buffer = itoa::Buffer::new();
        self.put(TokenKind::Integer, buffer.format(value).as_bytes())
    }

    /// A character constant.
    #[tactic(auto, using(crate::proofs::Tokens::token_rules))]
    pub(crate) fn character(&mut self, value: u8) -> Result<(), AllocError>
        ensures { OnOk result (Prints self.old self.new (character_lexeme value ∷ [])) }
    {
        self.advance(TokenKind::Character)?;
        self.text.push(b'\'')?;
        push_in_character(&mut self.text, value)?;
        self.text.push(b'\'')?;
        Ok(())
    }

    /// A text constant.
    #[tactic(auto, using(crate::proofs::Tokens::token_rules))]
    pub(crate) fn text(&mut self, value: &ByteString) -> Result<(), AllocError>
        ensures { OnOk result (Prints self.old self.new (text_lexeme value.now ∷ [])) }
    {
        self.advance(TokenKind::Text)?;
        self.text.push(b'"')?;
        push_all_in_text(&mut self.text, value.as_bytes())?;
        self.text.push(b'"')?;
        Ok(())
    }

    /// The text, with a line feed at its end.
    pub(crate) fn finish(self) -> Result<Vec<u8>, AllocError>
        ensures { IfOk result (λ text. text.items ≡ self.text ++ (10 ∷ [])) }
    {
        let mut text = self.text;
        text.push(b'\n')?;
        Ok(text)
    }
}
