//! The calls that make a text.
ghost use Rattle.std.specs.Prelude.{◌≡◌, ◌+◌, ◌-◌, ◌^◌, ◌<◌, ◌≤◌, ◌∷◌, [], ◌++◌, length, true, false, replicate, None, OnOk, OnErr, IfOk, IfErr};
ghost use Rattle.sim_values.specs.Texts.{IsText, KeepsTexts, SameBut, characters, new_text, with_new, blanks, copy, join};
ghost use Rattle.sim_values.specs.Words.{text_words};
ghost use Rattle.text_objects.specs.Making.{Makes};

use super::{NOTEXT, Texts};
use crate::fault::TextFault;
use crate::frame::TextFrame;
use sim_base::{Memory, RunError};
use sim_values::{TextVal, words_text};

impl Texts {
    /// Makes a frame of these bytes, and the text that is all of it.
    fn add(&mut self, bytes: Vec<u8>, constant: bool) -> Result<TextVal, Memory>
        requires { length bytes.items < 2 ^ 32 - 1 }
        ensures made { IfOk result (λ t. t ≡ record { text_frame = length self.old; start = 1; length = length bytes.items; pos = 1 }) }
        ensures ok { OnOk result (self.new ≡ self.old ++ (record { bytes = bytes.items; constant = constant }) ∷ []) }
        ensures err { OnErr result (self.new ≡ self.old) }
    {
        let text_frame = u32::try_from(self.frames.len()).map_err(|_| Memory)?;
        let length = bytes.len() as u32;
        self.frames.push(TextFrame::new(bytes, constant))?;
        Ok(TextVal {
            text_frame,
            start: 1,
            length,
            pos: 1,
        })
    }

    /// Makes a constant text of these characters.
    pub fn constant(&mut self, bytes: &[u8]) -> Result<TextVal, Memory>
        requires { length bytes.now < 2 ^ 32 - 1 }
        ensures made { IfOk result (λ t. t ≡ record { text_frame = length self.old; start = 1; length = length bytes.now; pos = 1 }) }
        ensures ok { OnOk result (self.new ≡ self.old ++ (record { bytes = bytes.now; constant = true }) ∷ []) }
        ensures err { OnErr result (self.new ≡ self.old) }
        ensures valid { IfOk result (IsText self.new) }
        ensures keeps { KeepsTexts self.old self.new }
        ensures others { SameBut (length self.old) self.old self.new }
    {
        let characters = Vec::from_slice(*self.frames.allocator(), bytes)?;
        self.add(characters, true)
    }

    /// Makes a text of `count` blanks for an image.
    pub fn image(&mut self, count: u16) -> Result<TextVal, Memory>
        ensures made { IfOk result (λ t. t ≡ record { text_frame = length self.old; start = 1; length = count; pos = 1 }) }
        ensures ok { OnOk result (self.new ≡ self.old ++ (record { bytes = replicate count 32; constant = false }) ∷ []) }
        ensures err { OnErr result (self.new ≡ self.old) }
        ensures valid { IfOk result (IsText self.new) }
        ensures keeps { KeepsTexts self.old self.new }
        ensures others { SameBut (length self.old) self.old self.new }
    {
        let characters = vec![in *self.frames.allocator(); b' '; usize::from(count)]?;
        self.add(characters, false)
    }

    /// `blanks(n)`: a new text of `n` blanks; E27 where `n` is negative.
    pub fn blanks(&mut self, n: i64, room: u64) -> Result<TextVal, TextFault>
        requires { room ≤ 50000000 }
        ensures making { Makes (blanks self.old n) room self.old self.new result }
        ensures valid { IfOk result (IsText self.new) }
        ensures keeps { KeepsTexts self.old self.new }
        ensures others { SameBut (length self.old) self.old self.new }
    {
        if n < 0 {
            return Err(TextFault::Run(RunError::NegativeLength));
        }
        let length = n.unsigned_abs();
        fits(length, room)?;
        let characters = vec![in *self.frames.allocator(); b' '; length as usize]?;
        self.add_text(characters)
    }

    /// `copy(t)`: a new text of the same characters.
    pub fn copy(&mut self, t: TextVal, room: u64) -> Result<TextVal, TextFault>
        requires text { IsText self.old t }
        requires room { room ≤ 50000000 }
        ensures making { Makes (copy self.old t) room self.old self.new result }
        ensures valid { IfOk result (IsText self.new) }
        ensures keeps { KeepsTexts self.old self.new }
        ensures others { SameBut (length self.old) self.old self.new }
    {
        fits(u64::from(t.length), room)?;
        let characters = Vec::from_slice(*self.frames.allocator(), self.characters(t))?;
        self.add_text(characters)
    }

    /// `a & b`: a new text of the characters of both.
    pub fn join(&mut self, a: TextVal, b: TextVal, room: u64) -> Result<TextVal, TextFault>
        requires left { IsText self.old a }
        requires right { IsText self.old b }
        requires room { room ≤ 50000000 }
        ensures making { Makes (join self.old a b) room self.old self.new result }
        ensures valid { IfOk result (IsText self.new) }
        ensures keeps { KeepsTexts self.old self.new }
        ensures others { SameBut (length self.old) self.old self.new }
    {
        let length = u64::from(a.length) + u64::from(b.length);
        fits(length, room)?;
        let mut characters = Vec::with_capacity(*self.frames.allocator(), length as usize)?;
        characters.extend_from_slice(self.characters(a))?;
        characters.extend_from_slice(self.characters(b))?;
        self.add_text(characters)
    }

    /// Makes a text of these characters; no frame for none.
    fn add_text(&mut self, characters: Vec<u8>) -> Result<TextVal, TextFault>
        requires { length characters.items < 2 ^ 32 - 1 }
        ensures made { IfOk result (λ t. t ≡ new_text self.old (length characters.items)) }
        ensures ok { OnOk result (self.new ≡ with_new self.old characters.items) }
        ensures err { OnErr result (self.new ≡ self.old) }
        ensures fault { IfErr result (λ fault. fault ≡ TextFault.Memory) }
        ensures valid { IfOk result (IsText self.new) }
        ensures keeps { KeepsTexts self.old self.new }
        ensures others { SameBut (length self.old) self.old self.new }
    {
        if characters.is_empty() {
            return Ok(NOTEXT);
        }
        Ok(self.add(characters, false)?)
    }
}

/// Refuses a text of more words than the room.
fn fits(length: u64, room: u64) -> Result<(), TextFault>
    ensures ok { OnOk result (text_words length ≤ room) }
    ensures full { IfErr result (λ fault. (room < text_words length) × (fault ≡ TextFault.Full (text_words length))) }
{
    let wanted = words_text(length);
    if wanted > room {
        return Err(TextFault::Full { wanted });
    }
    Ok(())
}
