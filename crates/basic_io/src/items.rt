//! Integers in an input.
ghost use Rattle.std.specs.Prelude.{◌≡◌, [], false};
ghost use Rattle.sim_values.specs.Images.{behind_separators, inint, lastitem};
ghost use Rattle.sim_values.specs.Texts.{KeepsTexts, SameBut, at_position};
ghost use Rattle.basic_io.specs.Image.{IsImage};
ghost use Rattle.basic_io.specs.Input.{HoldsItem, InputCause, Performs, WantsItem, input_state, needs_no_byte, reading};

use crate::fault::IoFault;
use crate::in_image::InImage;
use sim_base::RunError;
use sim_ports::Source;
use text_objects::Texts;

impl InImage {
    // Moves the position behind the blanks and tabs at it.
    fn skip_separators(&mut self, texts: &Texts)
        requires image { IsImage texts.now self.old.image }
        ensures moved { self.new.image ≡ (behind_separators (input_state texts.now self.old [])).image }
        ensures endfile { self.new.endfile ≡ self.old.endfile }
        ensures held { self.new.held ≡ self.old.held }
        ensures valid { IsImage texts.now self.new.image }
    {
        let characters = texts.characters(self.image);
        while self.image.pos <= self.image.length {
            let character = characters[self.image.pos as usize - 1];
            if character != b' ' && character != b'\t' {
                return;
            }
            self.image.pos += 1;
        }
    }

    /// `lastitem`: whether nothing but blanks, tabs and line ends is left of the input. Blanks and tabs are skipped, over as many
    /// images as need be.
    pub fn lastitem<I: Source>(&mut self, texts: &mut Texts, input: &mut I) -> Result<bool, IoFault>
        requires image { IsImage texts.old self.old.image }
        ensures outcome { Performs lastitem WantsItem (reading texts.old self.old (I.left input.old)) (reading texts.new self.new (I.left input.new)) result }
        ensures cause { InputCause (I.faults input.old) (I.faults input.new) result }
        ensures unread { HoldsItem texts.old self.old → input.new ≡ input.old }
        ensures wanted { result ≡ Err IoFault.InputFault → needs_no_byte self.new ≡ false }
        ensures valid { IsImage texts.new self.new.image }
        ensures same { self.new.image ≡ at_position self.old.image self.new.image.pos }
        ensures keeps { KeepsTexts texts.old texts.new }
        ensures others { SameBut self.old.image.text_frame texts.old texts.new }
    {
        while !self.endfile {
            self.skip_separators(texts);
            if self.image.pos <= self.image.length {
                return Ok(false);
            }
            self.inimage(texts, input)?;
        }
        Ok(true)
    }

    /// `inint`: the next integer of the input; the position is then after its last digit. E34 where there is no item before the
    /// end of the input, E25 where the next item is no integer, E28 where it is outside the range.
    pub fn inint<I: Source>(&mut self, texts: &mut Texts, input: &mut I) -> Result<i64, IoFault>
        requires image { IsImage texts.old self.old.image }
        ensures outcome { Performs inint WantsItem (reading texts.old self.old (I.left input.old)) (reading texts.new self.new (I.left input.new)) result }
        ensures cause { InputCause (I.faults input.old) (I.faults input.new) result }
        ensures unread { HoldsItem texts.old self.old → input.new ≡ input.old }
        ensures wanted { result ≡ Err IoFault.InputFault → needs_no_byte self.new ≡ false }
        ensures valid { IsImage texts.new self.new.image }
        ensures same { self.new.image ≡ at_position self.old.image self.new.image.pos }
        ensures keeps { KeepsTexts texts.old texts.new }
        ensures others { SameBut self.old.image.text_frame texts.old texts.new }
    {
        if self.lastitem(texts, input)? {
            return Err(IoFault::Run(RunError::NoItemBeforeEnd));
        }
        let place = i64::from(self.image.pos);
        let end = i64::from(self.image.length) + 1;
        let mut rest = texts.sub(self.image, place, end - place)?;
        let value = texts.getint(&mut rest)?;
        self.image.pos += rest.pos - 1;
        Ok(value)
    }
}
