//! The texts of a run, and what is read of them.
ghost use Rattle.std.specs.Prelude.{◌≡◌, ◌+◌, ◌-◌, ◌*◌, ◌^◌, ◌<◌, ◌≤◌, ◌↔◌, [], length, pos, IsTrue, IfOk, OnOk, OnErr};
ghost use Rattle.std.specs.Result.{result_err};
ghost use Rattle.std.specs.Ordering.{nat_cmp};
ghost use Rattle.std.specs.Cmp.{IsTotalOrder};
ghost use Rattle.std.specs.Cmp.Lexicographic.{slice_cmp};
ghost use Rattle.sim_values.specs.Texts.{IsText, LiesIn, frame_at, characters, is_constant, constant_refusal, compare_texts, part, sub, strip, main_text, at_position, done, outcome, setpos, getchar, getint};

mod change;
mod make;

use crate::bytes::content_length;
use crate::frame::TextFrame;
use crate::item::integer_item;
use sim_base::RunError;
use sim_values::TextVal;
use std::alloc::Global;
use std::cmp::Ordering;
use std::marker::Model;

/// The text of no characters.
const NOTEXT: TextVal = TextVal {
    text_frame: 0,
    start: 1,
    length: 0,
    pos: 1,
};

/// The frames of all texts, in the order in which they were made. Contracts see the list of the frames.
#[derive(Debug, Drop)]
pub struct Texts {
    frames: Vec<TextFrame>,
}

impl Model for Texts {
    ghost use Rattle.std.specs.Prelude.{List};
    ghost use Rattle.sim_values.specs.Texts.{Frame};

    ghost Value = { List Frame };

    ghost view = { λ texts. texts.frames.items };
}

impl Texts {
    /// No frames.
    pub fn new(alloc: Global) -> Texts
        ensures empty { result ≡ [] }
    {
        Texts {
            frames: Vec::new(alloc),
        }
    }

    /// The frame in which a text lies.
    fn frame(&self, t: TextVal) -> &TextFrame
        requires { LiesIn self.now t }
        ensures { result.now ≡ frame_at self.now t.text_frame }
    {
        &self.frames[t.text_frame as usize]
    }

    /// Whether it is a text of these frames: its characters are in a frame that was made, and its position is at one of them or
    /// behind the last one.
    #[inline(always)]
    pub fn is_text(&self, t: TextVal) -> bool
        ensures text { IsTrue result ↔ IsText self.now t }
    {
        if t.start < 1 || t.pos < 1 || u64::from(t.pos) > u64::from(t.length) + 1 {
            return false;
        }
        let end = u64::from(t.start) + u64::from(t.length);
        end <= 1 || self.holds(t.text_frame, end)
    }

    /// Whether there is a frame of this number, which has characters up to this place.
    #[inline(always)]
    fn holds(&self, text_frame: u32, end: u64) -> bool
        ensures { IsTrue result ↔ ((text_frame < length self.now) × (end ≤ length (frame_at self.now text_frame).bytes + 1)) }
    {
        match self.frames.get(text_frame as usize) {
            Some(frame) => end <= u64::from(frame.len()) + 1,
            None => false,
        }
    }

    /// The characters of a text.
    pub fn characters(&self, t: TextVal) -> &[u8]
        requires { IsText self.now t }
        ensures characters { result.now ≡ characters self.now t }
        ensures count { length result.now ≡ t.length }
    {
        if t.length == 0 {
            return &[];
        }
        let first = t.start as usize - 1;
        &self.frame(t).bytes()[first..first + t.length as usize]
    }

    /// `t.constant`: whether the text is a constant; a text of no characters is one.
    pub fn is_constant(&self, t: TextVal) -> bool
        requires { IsText self.now t }
        ensures constant { result ≡ is_constant self.now t }
    {
        t.length == 0 || self.frame(t).is_constant()
    }

    /// E22 where the text is a constant of positive length.
    fn check_variable(&self, t: TextVal) -> Result<(), RunError>
        requires { IsText self.now t }
        ensures { result_err result ≡ constant_refusal self.now t }
    {
        if t.length > 0 && self.frame(t).is_constant() {
            return Err(RunError::TextIsConstant);
        }
        Ok(())
    }

    /// The position behind the last character.
    fn end(&self, t: TextVal) -> u32
        requires { IsText self.now t }
        ensures end { result ≡ t.length + 1 }
        ensures short { t.start + t.length < 2 ^ 32 }
    {
        if t.start == 1 && t.length == 0 {
            return 1;
        }
        let room = self.frame(t).len();
        prove!(t.length <= room);
        t.length + 1
    }

    /// `t.start`: the place of the first character in its frame.
    pub fn start(&self, t: TextVal) -> i64
        ensures start { result ≡ pos t.start }
    {
        i64::from(t.start)
    }

    /// `t.length`: the number of characters.
    pub fn length(&self, t: TextVal) -> i64
        ensures length { result ≡ pos t.length }
    {
        i64::from(t.length)
    }

    /// `t.pos`: the position.
    pub fn pos(&self, t: TextVal) -> i64
        ensures position { result ≡ pos t.pos }
    {
        i64::from(t.pos)
    }

    /// `t.more`: whether the position is at a character.
    pub fn more(&self, t: TextVal) -> bool
        ensures more { IsTrue result ↔ (t.pos ≤ t.length) }
    {
        t.pos <= t.length
    }

    /// `t.main`: the whole frame, at position 1.
    pub fn main(&self, t: TextVal) -> TextVal
        requires { IsText self.now t }
        ensures whole { result ≡ main_text self.now t }
        ensures valid { IsText self.now result }
    {
        if t.length == 0 {
            return NOTEXT;
        }
        TextVal {
            text_frame: t.text_frame,
            start: 1,
            length: self.frame(t).len(),
            pos: 1,
        }
    }

    /// `t.setpos(i)`: moves the position to `i`, or behind the last character where `i` is the place of none.
    pub fn setpos(&self, t: &mut TextVal, i: i64)
        requires { IsText self.now t.old }
        ensures step { setpos self.now t.old i ≡ done self.now t.new tt }
        ensures same { t.new ≡ at_position t.old t.new.pos }
        ensures valid { IsText self.now t.new }
    {
        let end = self.end(*t);
        t.pos = match u32::try_from(i) {
            Ok(place) if place >= 1 && place < end => place,
            _ => end,
        };
    }

    /// `t.getchar`: the character at the position, which moves one on; E23 where the position is behind the last character.
    pub fn getchar(&self, t: &mut TextVal) -> Result<u8, RunError>
        requires { IsText self.now t.old }
        ensures step { getchar self.now t.old ≡ outcome self.now t.new result }
        ensures same { t.new ≡ at_position t.old t.new.pos }
        ensures valid { IsText self.now t.new }
    {
        let text = *t;
        if text.pos >= self.end(text) {
            return Err(RunError::GetcharPastEnd);
        }
        let character = self.characters(text)[text.pos as usize - 1];
        t.pos = text.pos + 1;
        Ok(character)
    }

    /// `t.sub(i, n)`: `n` characters from the place `i` on; E20 where they are no part of the text.
    pub fn sub(&self, t: TextVal, i: i64, n: i64) -> Result<TextVal, RunError>
        requires { IsText self.now t }
        ensures part { result ≡ sub t i n }
        ensures valid { IfOk result (IsText self.now) }
    {
        let end = i64::from(self.end(t));
        if i < 1 || n < 0 || i > end || n > end - i {
            return Err(RunError::SubtextOutOfRange);
        }
        Ok(part(t, i as u32, n as u32))
    }

    /// `t.strip`: the text without trailing blanks.
    pub fn strip(&self, t: TextVal) -> TextVal
        requires { IsText self.now t }
        ensures stripped { result ≡ strip self.now t }
        ensures valid { IsText self.now result }
    {
        let length = content_length(self.characters(t));
        prove!(length <= t.length as usize);
        part(t, 1, length as u32)
    }

    /// `t.getint`: the integer that the text begins with; the position is then after its last digit. E25 where no integer is
    /// there, E28 where it is outside the range.
    pub fn getint(&self, t: &mut TextVal) -> Result<i64, RunError>
        requires { IsText self.now t.old }
        ensures step { getint self.now t.old ≡ outcome self.now t.new result }
        ensures same { t.new ≡ at_position t.old t.new.pos }
        ensures valid { IsText self.now t.new }
    {
        let text = *t;
        let end = self.end(text);
        let (value, used) = integer_item(self.characters(text))?;
        prove!(used < end as usize);
        t.pos = used as u32 + 1;
        Ok(value)
    }

    /// The order of two texts: character by character, and a proper prefix is less.
    pub fn compare(&self, a: TextVal, b: TextVal) -> Ordering
        requires left { IsText self.now a }
        requires right { IsText self.now b }
        ensures order { result ≡ compare_texts self.now a b }
    {
        self.characters(a).cmp(self.characters(b))
    }
}

/// The order of `compare` is a total order on lists of characters.
pub fn compare_law()
    ensures total { IsTotalOrder (slice_cmp nat_cmp) }
{}

/// `length` characters of a text from the place `place` on.
fn part(t: TextVal, place: u32, length: u32) -> TextVal
    requires first { 1 ≤ place }
    requires short { 0 < length → t.start + place ≤ 2 ^ 32 }
    ensures { result ≡ part t place length }
{
    if length == 0 {
        return NOTEXT;
    }
    TextVal {
        text_frame: t.text_frame,
        start: t.start + (place - 1),
        length,
        pos: 1,
    }
}
