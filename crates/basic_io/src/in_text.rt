//! Texts read from an input.
ghost use Rattle.std.specs.Prelude.{◌≡◌, ◌≤◌, true, false, length, IfOk};
ghost use Rattle.sim_values.specs.Images.{characters_read};
ghost use Rattle.sim_values.specs.Words.{count_from};
ghost use Rattle.text_objects.specs.declared.fault.TextFault.{TextFault as AnyFault};
ghost use Rattle.sim_values.specs.Texts.{IsText, KeepsTexts, at_position};
ghost use Rattle.basic_io.specs.Image.{IsImage, SameButBoth};
ghost use Rattle.basic_io.specs.Input.{InputCause, IsTarget, Performs, Told, WantsInText, input_state, needs_no_byte, reading};
ghost use Rattle.basic_io.specs.Intext.{IntextCause, ReadsText, holds_characters};

use crate::fault::{IntextFault, IoFault};
use crate::in_image::InImage;
use sim_ports::Source;
use sim_values::TextVal;
use text_objects::Texts;

impl InImage {
    /// `intext(n)`: makes a text of `n` characters, and reads each of them as `inchar` does. E27 where `n` is negative; `room` is
    /// the number of words that are left for the text.
    pub fn intext<I: Source>(
        &mut self,
        texts: &mut Texts,
        input: &mut I,
        n: i64,
        room: u64,
    ) -> Result<TextVal, IntextFault>
        requires image { IsImage texts.old self.old.image }
        requires room { room ≤ 50000000 }
        ensures outcome { Told (I.left input.old) (I.left input.new) (λ before now. ReadsText n room (input_state texts.old self.old before) result (input_state texts.new self.new now)) }
        ensures cause { IntextCause (I.faults input.old) (I.faults input.new) result }

        // Nothing is read where what is held is enough. Where no text was made nothing has changed at all.
        ensures unread { holds_characters (count_from n) self.old ≡ true → input.new ≡ input.old }
        ensures untouched { (x : AnyFault) → result ≡ Err (IntextFault.NoText x) → (texts.new ≡ texts.old) × (self.new ≡ self.old) × (input.new ≡ input.old) }
        ensures wanted { result ≡ Err (IntextFault.NotRead IoFault.InputFault) → needs_no_byte self.new ≡ false }
        ensures valid { IsImage texts.new self.new.image }
        ensures text { IfOk result (IsText texts.new) }
        ensures same { self.new.image ≡ at_position self.old.image self.new.image.pos }
        ensures keeps { KeepsTexts texts.old texts.new }
        ensures others { SameButBoth (length texts.old) self.old.image.text_frame texts.old texts.new }
    {
        let text = texts.blanks(n, room)?;
        if text.length == 0 {
            return Ok(text);
        }
        self.read_characters(texts, input, text)?;
        Ok(text)
    }

    // Reads characters into all of a text, each as `inchar` reads it.
    pub(crate) fn read_characters<I: Source>(
        &mut self,
        texts: &mut Texts,
        input: &mut I,
        text: TextVal,
    ) -> Result<(), IoFault>
        requires image { IsImage texts.old self.old.image }
        requires target { IsTarget texts.old self.old.image text }
        requires begun { text.pos ≡ 1 }
        ensures outcome { Performs (characters_read text.length text) (WantsInText text.length text) (reading texts.old self.old (I.left input.old)) (reading texts.new self.new (I.left input.new)) result }
        ensures cause { InputCause (I.faults input.old) (I.faults input.new) result }
        ensures unread { holds_characters text.length self.old ≡ true → input.new ≡ input.old }
        ensures wanted { result ≡ Err IoFault.InputFault → needs_no_byte self.new ≡ false }
        ensures valid { IsImage texts.new self.new.image }
        ensures same { self.new.image ≡ at_position self.old.image self.new.image.pos }
        ensures keeps { KeepsTexts texts.old texts.new }
        ensures others { SameButBoth text.text_frame self.old.image.text_frame texts.old texts.new }
    {
        let mut rest = text;
        for _ in 0..text.length {
            let character = self.inchar(texts, input)?;
            texts.putchar(&mut rest, character)?;
        }
        Ok(())
    }
}
