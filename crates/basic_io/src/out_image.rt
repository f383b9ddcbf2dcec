//! The image of an output.
ghost use Rattle.std.specs.Prelude.{◌≡◌, ◌+◌, ◌≤◌, ◌∷◌, [], ◌++◌, true, false, ℤ, pos, int_lt, Ok, length, replicate, IfOk, IsOk, OnOk, OnErr};
ghost use Rattle.std.specs.Fmt.{signed_decimal};
ghost use Rattle.sim_values.specs.Images.{all_placed, integer_field, is_used_up, outchar, outimage, outint, outtext, with_room};
ghost use Rattle.sim_values.specs.Texts.{IsText, KeepsTexts, SameBut, at_position};
ghost use Rattle.basic_io.specs.Image.{IsImage};
ghost use Rattle.basic_io.specs.Output.{OutputCause, OutputStops, Performs, WritesInText, field, lacks_room, output_state, writing};

use crate::fault::IoFault;
use crate::image::fill;
use sim_base::{Memory, RunError};
use sim_ports::{Sink, write_all};
use sim_values::TextVal;
use std::marker::Model;
use text_objects::Texts;

/// The image of an output: the line that is written next, as a text. Each call is given the same sink and the same texts.
/// Contracts see the text.
#[derive(Debug, Drop)]
pub struct OutImage {
    image: TextVal,
}

impl Model for OutImage {
    ghost use Rattle.sim_values.specs.declared.value.TextVal.{TextVal};

    ghost Value = { TextVal };

    ghost view = { λ o. o.image };
}

impl OutImage {
    /// An image of blanks, at position 1.
    pub fn new(texts: &mut Texts, count: u16) -> Result<OutImage, Memory>
        requires { 1 ≤ count }
        ensures made { IfOk result (λ o. o ≡ record { text_frame = length texts.old; start = 1; length = count; pos = 1 }) }
        ensures ok { OnOk result (texts.new ≡ texts.old ++ (record { bytes = replicate count 32; constant = false }) ∷ []) }
        ensures err { OnErr result (texts.new ≡ texts.old) }
        ensures valid { IfOk result (IsImage texts.new) }
        ensures keeps { KeepsTexts texts.old texts.new }
    {
        let image = texts.image(count)?;
        Ok(OutImage { image })
    }

    /// The image.
    pub fn image(&self) -> TextVal
        ensures { result ≡ self.now }
    {
        self.image
    }

    /// Moves the position of the image.
    pub fn set_pos(&mut self, pos: u32)
        requires above { 1 ≤ pos }
        requires within { pos ≤ self.old.length + 1 }
        ensures { self.new ≡ at_position self.old pos }
    {
        self.image.pos = pos;
    }

    /// `outimage`: writes the image without trailing blanks, and a line feed; the image is then blank, at position 1.
    pub fn outimage<O: Sink>(&mut self, texts: &mut Texts, out: &mut O) -> Result<(), IoFault>
        requires image { IsImage texts.old self.old }
        ensures outcome { let s = output_state texts.old self.old in
            Performs (Ok (outimage s)) (λ r. r ≡ s) (writing texts.old self.old (O.written out.old)) (writing texts.new self.new (O.written out.new)) result }
        ensures cause { OutputCause (O.faults out.old) (O.faults out.new) result }
        ensures stops { OutputStops O.written O.faults out.old out.new result }
        ensures valid { IsImage texts.new self.new }
        ensures same { self.new ≡ at_position self.old self.new.pos }
        ensures keeps { KeepsTexts texts.old texts.new }
        ensures others { SameBut self.old.text_frame texts.old texts.new }
    {
        let content = texts.strip(self.image);
        write_all(out, texts.characters(content))?;
        write_all(out, b"\n")?;
        fill(texts, &mut self.image, &[]);
        Ok(())
    }

    /// `outchar(c)`: writes the character at the position, which moves one on; `outimage` first where the image is full.
    pub fn outchar<O: Sink>(&mut self, texts: &mut Texts, out: &mut O, c: u8) -> Result<(), IoFault>
        requires image { IsImage texts.old self.old }
        ensures outcome { let s = output_state texts.old self.old in
            Performs (Ok (outchar s c)) (λ r. (is_used_up s.image ≡ true) × (r ≡ s)) (writing texts.old self.old (O.written out.old)) (writing texts.new self.new (O.written out.new)) result }
        ensures cause { OutputCause (O.faults out.old) (O.faults out.new) result }
        ensures stops { OutputStops O.written O.faults out.old out.new result }
        ensures valid { IsImage texts.new self.new }
        ensures same { self.new ≡ at_position self.old self.new.pos }
        ensures keeps { KeepsTexts texts.old texts.new }
        ensures others { SameBut self.old.text_frame texts.old texts.new }
    {
        if self.image.pos > self.image.length {
            self.outimage(texts, out)?;
        }
        texts.putchar(&mut self.image, c)?;
        Ok(())
    }

    // Writes the image where so many characters do not fit in the rest of it.
    fn make_room<O: Sink>(
        &mut self,
        texts: &mut Texts,
        out: &mut O,
        count: u32,
    ) -> Result<(), IoFault>
        requires image { IsImage texts.old self.old }
        ensures outcome { let s = output_state texts.old self.old in
            Performs (Ok (with_room s count)) (λ r. (lacks_room s count ≡ true) × (r ≡ s)) (writing texts.old self.old (O.written out.old)) (writing texts.new self.new (O.written out.new)) result }
        ensures cause { OutputCause (O.faults out.old) (O.faults out.new) result }
        ensures stops { OutputStops O.written O.faults out.old out.new result }
        ensures valid { IsImage texts.new self.new }
        ensures same { self.new ≡ at_position self.old self.new.pos }
        ensures keeps { KeepsTexts texts.old texts.new }
        ensures others { SameBut self.old.text_frame texts.old texts.new }
    {
        if u64::from(self.image.pos) + u64::from(count) > u64::from(self.image.length) + 1 {
            self.outimage(texts, out)
        } else {
            Ok(())
        }
    }

    /// `outtext(t)`: writes the characters of a text, each read when it is written; `outimage` first where the position is above
    /// 1 and the text does not fit in the rest of the image, and wherever the image is full.
    pub fn outtext<O: Sink>(
        &mut self,
        texts: &mut Texts,
        out: &mut O,
        t: TextVal,
    ) -> Result<(), IoFault>
        requires image { IsImage texts.old self.old }
        requires text { IsText texts.old t }
        ensures outcome { let s = output_state texts.old self.old in
            Performs (Ok (outtext s t)) (WritesInText s t) (writing texts.old self.old (O.written out.old)) (writing texts.new self.new (O.written out.new)) result }
        ensures cause { OutputCause (O.faults out.old) (O.faults out.new) result }
        ensures stops { OutputStops O.written O.faults out.old out.new result }
        ensures valid { IsImage texts.new self.new }
        ensures same { self.new ≡ at_position self.old self.new.pos }
        ensures keeps { KeepsTexts texts.old texts.new }
        ensures others { SameBut self.old.text_frame texts.old texts.new }
    {
        if self.image.pos > 1 {
            self.make_room(texts, out, t.length)?;
        }
        for place in 0..t.length as usize {
            let character = texts.characters(t)[place];
            self.outchar(texts, out, character)?;
        }
        Ok(())
    }

    // Writes these characters from the position on, which moves behind them.
    fn put_all(&mut self, texts: &mut Texts, characters: &[u8]) -> Result<(), RunError>
        requires image { IsImage texts.old self.old }
        requires fits { self.old.pos + length characters.now ≤ self.old.length + 1 }
        ensures ok { IsOk result }
        ensures frames { texts.new ≡ (all_placed (output_state texts.old self.old) characters.now).frames }
        ensures image { self.new ≡ (all_placed (output_state texts.old self.old) characters.now).image }
        ensures moved { self.new ≡ at_position self.old (self.old.pos + length characters.now) }
        ensures valid { IsImage texts.new self.new }
        ensures keeps { KeepsTexts texts.old texts.new }
        ensures others { SameBut self.old.text_frame texts.old texts.new }
    {
        for character in characters {
            texts.putchar(&mut self.image, *character)?;
        }
        Ok(())
    }

    // Writes one character so many times.
    fn put_repeated(&mut self, texts: &mut Texts, character: u8, count: u32) -> Result<(), RunError>
        requires image { IsImage texts.old self.old }
        requires fits { self.old.pos + count ≤ self.old.length + 1 }
        ensures ok { IsOk result }
        ensures frames { texts.new ≡ (all_placed (output_state texts.old self.old) (replicate count character)).frames }
        ensures image { self.new ≡ (all_placed (output_state texts.old self.old) (replicate count character)).image }
        ensures moved { self.new ≡ at_position self.old (self.old.pos + count) }
        ensures valid { IsImage texts.new self.new }
        ensures keeps { KeepsTexts texts.old texts.new }
        ensures others { SameBut self.old.text_frame texts.old texts.new }
    {
        for _ in 0..count {
            texts.putchar(&mut self.image, character)?;
        }
        Ok(())
    }

    /// `outint(i, width)`: writes an integer in a field, right-justified in `width` places, left-justified in `-width` places for
    /// a width below 0, and in as many places as it needs for a width of 0; stars where it does not fit. `outimage` first where
    /// the field does not fit in the rest of the image; E30, and nothing is done, where it is longer than the image.
    pub fn outint<O: Sink>(
        &mut self,
        texts: &mut Texts,
        out: &mut O,
        i: i64,
        width: i64,
    ) -> Result<(), IoFault>
        requires image { IsImage texts.old self.old }
        ensures outcome { let s = output_state texts.old self.old in
            Performs (outint s i width) (λ r. (lacks_room s (length (integer_field i width)) ≡ true) × (r ≡ s)) (writing texts.old self.old (O.written out.old)) (writing texts.new self.new (O.written out.new)) result }
        ensures cause { OutputCause (O.faults out.old) (O.faults out.new) result }
        ensures stops { OutputStops O.written O.faults out.old out.new result }
        ensures valid { IsImage texts.new self.new }
        ensures same { self.new ≡ at_position self.old self.new.pos }
        ensures keeps { KeepsTexts texts.old texts.new }
        ensures others { SameBut self.old.text_frame texts.old texts.new }
    {
        let mut buffer = itoa::Buffer::new();
        let digits = buffer.format(i).as_bytes();
        let places = field_places(digits, width);
        if places > u64::from(self.image.length) {
            return Err(IoFault::Run(RunError::FieldTooLong));
        }
        let places = places as u32;
        self.make_room(texts, out, places)?;
        self.put_field(texts, digits, places, width < 0)?;
        Ok(())
    }

    // Writes an integer's characters at one end of so many places, or stars throughout where they do not fit.
    fn put_field(
        &mut self,
        texts: &mut Texts,
        digits: &[u8],
        places: u32,
        left: bool,
    ) -> Result<(), RunError>
        requires image { IsImage texts.old self.old }
        requires fits { self.old.pos + places ≤ self.old.length + 1 }
        ensures ok { IsOk result }
        ensures frames { texts.new ≡ (all_placed (output_state texts.old self.old) (field digits.now places left)).frames }
        ensures image { self.new ≡ (all_placed (output_state texts.old self.old) (field digits.now places left)).image }
        ensures valid { IsImage texts.new self.new }
        ensures same { self.new ≡ at_position self.old self.new.pos }
        ensures keeps { KeepsTexts texts.old texts.new }
        ensures others { SameBut self.old.text_frame texts.old texts.new }
    {
        if digits.len() > places as usize {
            return self.put_repeated(texts, b'*', places);
        }
        let blanks = places - digits.len() as u32;
        if left {
            self.put_all(texts, digits)?;
            return self.put_repeated(texts, b' ', blanks);
        }
        self.put_repeated(texts, b' ', blanks)?;
        self.put_all(texts, digits)
    }
}

// How many places the field of an integer with these digits has: for a width of 0 as many as they need.
fn field_places(digits: &[u8], width: i64) -> u64
    ensures { (i : ℤ) → digits.now ≡ signed_decimal i → integer_field i width ≡ field digits.now result (int_lt width (pos 0)) }
{
    if width == 0 {
        digits.len() as u64
    } else {
        width.unsigned_abs()
    }
}
