//! The image of an input.
ghost use Rattle.std.specs.Prelude.{◌≡◌, ◌+◌, ◌≤◌, ◌<◌, ◌∷◌, [], ◌++◌, true, false, length, replicate, IfOk, OnOk, OnErr};
ghost use Rattle.sim_values.specs.Images.{inchar, inimage, inimage_if_used_up};
ghost use Rattle.sim_values.specs.Texts.{KeepsTexts, SameBut, at_position};
ghost use Rattle.basic_io.specs.Image.{IsImage};
ghost use Rattle.basic_io.specs.Input.{DoneWithin, InputCause, Performs, WantsCharacter, WantsImage, holds_character, images_left, needs_no_byte, reading};

use crate::fault::IoFault;
use crate::image::fill;
use crate::line::LineBuffer;
use sim_base::{Memory, RunError};
use sim_ports::Source;
use sim_values::TextVal;
use std::alloc::Global;
use std::marker::Model;
use text_objects::Texts;

/// What an image holds at the end of the input, in front of blanks.
const END_MARK: u8 = 25;

/// The image of an input: its last line as a text, with what was read of the input beyond it. Each call is given the same
/// source and the same texts.
#[derive(Drop)]
pub struct InImage {
    pub(crate) image: TextVal,
    pub(crate) endfile: bool,
    held: LineBuffer,
}

impl Model for InImage {
    ghost use Rattle.std.specs.Prelude.{◌≡◌, ◌+◌};
    ghost use Rattle.basic_io.specs.Input.{HeldInput};

    ghost Value = { HeldInput };

    ghost view = { λ i. record { image = i.image; endfile = i.endfile; held = i.held } };

    ghost invariant = { λ i. i.held.room ≡ i.image.length + 1 };
}

impl InImage {
    /// An image of blanks, used up, so that the first character is that of the first line. The memory for all that it is to
    /// hold is taken here.
    pub fn new(alloc: Global, texts: &mut Texts, count: u16) -> Result<InImage, Memory>
        requires { 1 ≤ count }
        ensures made { IfOk result (λ i. i ≡ record {
          image = record { text_frame = length texts.old; start = 1; length = count; pos = count + 1 };
          endfile = false;
          held = record { bytes = []; room = count + 1; ended = false };
        }) }
        ensures ok { OnOk result (texts.new ≡ texts.old ++ (record { bytes = replicate count 32; constant = false }) ∷ []) }
        ensures err { OnErr result (texts.new ≡ texts.old) }
        ensures valid { IfOk result (λ i. IsImage texts.new i.image) }
        ensures keeps { KeepsTexts texts.old texts.new }
    {
        let held = LineBuffer::new(alloc, usize::from(count) + 1)?;
        let mut image = texts.image(count)?;
        image.pos = u32::from(count) + 1;
        Ok(InImage {
            image,
            endfile: false,
            held,
        })
    }

    /// The image.
    pub fn image(&self) -> TextVal
        ensures { result ≡ self.now.image }
    {
        self.image
    }

    /// Whether an image was asked for at the end of the input.
    pub fn endfile(&self) -> bool
        ensures { result ≡ self.now.endfile }
    {
        self.endfile
    }

    /// Moves the position of the image.
    pub fn set_pos(&mut self, pos: u32)
        requires above { 1 ≤ pos }
        requires within { pos ≤ self.old.image.length + 1 }
        ensures { self.new ≡ record { image = at_position self.old.image pos; endfile = self.old.endfile; held = self.old.held } }
    {
        self.image.pos = pos;
    }

    /// `inimage`: the bytes up to the next line feed, or the rest of the input, with blanks behind them, at position 1. E31
    /// where the line is longer than the image. At the end of the input the image holds the character of code 25 and blanks,
    /// and another call is E32.
    pub fn inimage<I: Source>(&mut self, texts: &mut Texts, input: &mut I) -> Result<(), IoFault>
        requires image { IsImage texts.old self.old.image }
        ensures outcome { Performs inimage WantsImage (reading texts.old self.old (I.left input.old)) (reading texts.new self.new (I.left input.new)) result }
        ensures cause { InputCause (I.faults input.old) (I.faults input.new) result }

        // Nothing is read while a line is held, or the end. Where the input fails, no line is.
        ensures unread { needs_no_byte self.old ≡ true → input.new ≡ input.old }
        ensures within { needs_no_byte self.old ≡ true → DoneWithin inimage texts.old self.old texts.new self.new result }
        ensures wanted { result ≡ Err IoFault.InputFault → needs_no_byte self.new ≡ false }

        ensures begun { OnOk result (self.new.image.pos ≡ 1) }
        ensures fewer { OnOk result (images_left self.new (I.can_give input.new) < images_left self.old (I.can_give input.old)) }
        ensures valid { IsImage texts.new self.new.image }
        ensures same { self.new.image ≡ at_position self.old.image self.new.image.pos }
        ensures keeps { KeepsTexts texts.old texts.new }
        ensures others { SameBut self.old.image.text_frame texts.old texts.new }
    {
        if self.endfile {
            return Err(IoFault::Run(RunError::InputAtEnd));
        }
        self.held.read_line(input)?;
        if self.held.is_empty() {
            fill(texts, &mut self.image, &[END_MARK]);
            self.endfile = true;
            return Ok(());
        }
        let line = self.held.line();
        if line.len() > self.image.length as usize {
            return Err(IoFault::Run(RunError::InputLineTooLong));
        }
        fill(texts, &mut self.image, line);
        self.held.drop_line();
        Ok(())
    }

    // Another image, where this one is used up.
    fn next_image<I: Source>(&mut self, texts: &mut Texts, input: &mut I) -> Result<(), IoFault>
        requires image { IsImage texts.old self.old.image }
        ensures outcome { Performs inimage_if_used_up WantsCharacter (reading texts.old self.old (I.left input.old)) (reading texts.new self.new (I.left input.new)) result }
        ensures more { OnOk result (self.new.image.pos ≤ self.new.image.length) }
        ensures cause { InputCause (I.faults input.old) (I.faults input.new) result }
        ensures unread { holds_character self.old ≡ true → input.new ≡ input.old }
        ensures within { holds_character self.old ≡ true → DoneWithin inimage_if_used_up texts.old self.old texts.new self.new result }
        ensures wanted { result ≡ Err IoFault.InputFault → needs_no_byte self.new ≡ false }
        ensures valid { IsImage texts.new self.new.image }
        ensures same { self.new.image ≡ at_position self.old.image self.new.image.pos }
        ensures keeps { KeepsTexts texts.old texts.new }
        ensures others { SameBut self.old.image.text_frame texts.old texts.new }
    {
        if self.image.pos > self.image.length {
            self.inimage(texts, input)
        } else {
            Ok(())
        }
    }

    /// `inchar`: the character at the position, which moves one on; `inimage` first where the image is used up.
    pub fn inchar<I: Source>(&mut self, texts: &mut Texts, input: &mut I) -> Result<u8, IoFault>
        requires image { IsImage texts.old self.old.image }
        ensures outcome { Performs inchar WantsCharacter (reading texts.old self.old (I.left input.old)) (reading texts.new self.new (I.left input.new)) result }
        ensures cause { InputCause (I.faults input.old) (I.faults input.new) result }

        // Nothing is read where the character is in the image, or while a line is held, or the end.
        ensures unread { holds_character self.old ≡ true → input.new ≡ input.old }
        ensures within { holds_character self.old ≡ true → DoneWithin inchar texts.old self.old texts.new self.new result }
        ensures wanted { result ≡ Err IoFault.InputFault → needs_no_byte self.new ≡ false }
        ensures valid { IsImage texts.new self.new.image }
        ensures same { self.new.image ≡ at_position self.old.image self.new.image.pos }
        ensures keeps { KeepsTexts texts.old texts.new }
        ensures others { SameBut self.old.image.text_frame texts.old texts.new }
    {
        self.next_image(texts, input)?;
        Ok(texts.getchar(&mut self.image)?)
    }
}
