//! The calls that change the characters of a text in place.
ghost use Rattle.std.specs.Prelude.{◌≡◌, ◌+◌, ◌-◌, ◌^◌, ◌<◌, ◌≤◌, ◌≢◌, false, length, map, OnOk, OnErr, IfOk};
ghost use Rattle.std.specs.Result.{result_err};
ghost use Rattle.sim_values.specs.Texts.{IsText, LiesIn, KeepsTexts, SameBut, assign, at_position, assigned, characters, frame_at, lowcase, outcome, padded, putchar, putint, upcase, with_characters};
ghost use Rattle.text_objects.specs.Frames.{KeepsFrames};

use super::Texts;
use crate::frame::TextFrame;
use sim_base::RunError;
use sim_values::TextVal;
use std::mem;

impl Texts {
    /// `left := right`: the characters of `right`, with blanks behind them up to the end of `left`. Where the two overlap,
    /// the characters copied are those before the assignment. E21 where `right` is longer, then E22 where `left` is a
    /// constant of positive length.
    #[tactic(auto, using(crate::proofs::FrameLemmas::written_nothing))]
    pub fn assign(&mut self, left: TextVal, right: TextVal) -> Result<(), RunError>
        requires left { IsText self.old left }
        requires right { IsText self.old right }
        ensures step { assign self.old left right ≡ outcome self.new left result }
        ensures keeps { KeepsTexts self.old self.new }
        ensures shapes { KeepsFrames self.old self.new }
        ensures others { SameBut left.text_frame self.old self.new }
    {
        if right.length > left.length {
            return Err(RunError::TextTooLong);
        }
        self.check_variable(left)?;
        if left.length > 0 {
            self.write_padded(left, right);
        }
        Ok(())
    }

    /// Writes the characters of `right` into `left`, with blanks behind them.
    fn write_padded(&mut self, left: TextVal, right: TextVal)
        requires left { LiesIn self.old left }
        requires start { 1 ≤ left.start }
        requires right { IsText self.old right }
        requires fits { right.length ≤ left.length }
        ensures { self.new ≡ assigned self.old left right }
    {
        let at = left.start as usize - 1;
        let count = right.length as usize;
        if count == 0 {
            let target = &mut self.frames[left.text_frame as usize];
            target.blank(at, left.length as usize);
        } else if left.text_frame == right.text_frame {
            let target = &mut self.frames[left.text_frame as usize];
            target.move_within(right.start as usize - 1, at, count);
            target.blank(at + count, left.length as usize - count);
        } else {
            self.copy_between(left, right);
            let target = &mut self.frames[left.text_frame as usize];
            target.blank(at + count, left.length as usize - count);
        }
    }

    /// Writes these characters into a text that is no constant, with blanks behind them up to its end.
    #[tactic(auto, using(crate::proofs::FrameLemmas::same_but_set))]
    pub fn fill(&mut self, t: TextVal, characters: &[u8])
        requires text { LiesIn self.old t }
        requires start { 1 ≤ t.start }
        requires variable { (frame_at self.old t.text_frame).constant ≡ false }
        requires fits { length characters.now ≤ t.length }
        ensures filled { self.new ≡ with_characters self.old t (padded t.length characters.now) }
        ensures keeps { KeepsTexts self.old self.new }
        ensures shapes { KeepsFrames self.old self.new }
        ensures others { SameBut t.text_frame self.old self.new }
    {
        let at = t.start as usize - 1;
        let count = characters.len();
        let frame = &mut self.frames[t.text_frame as usize];
        frame.write(at, characters);
        frame.blank(at + count, t.length as usize - count);
    }

    /// Writes the characters of `right` into the front of `left`, which lies in another frame.
    fn copy_between(&mut self, left: TextVal, right: TextVal)
        requires left { LiesIn self.old left }
        requires start { 1 ≤ left.start }
        requires right { IsText self.old right }
        requires fits { right.length ≤ left.length }
        requires apart { left.text_frame ≢ right.text_frame }
        ensures { self.new ≡ with_characters self.old left (characters self.old right) }
    {
        let place = left.text_frame as usize;
        let empty = TextFrame::new(Vec::new(*self.frames.allocator()), false);
        let mut target = mem::replace(&mut self.frames[place], empty);
        target.write(left.start as usize - 1, self.characters(right));
        self.frames[place] = target;
    }

    /// `upcase(t)`: makes its small letters capitals; the text at position 1. E22 for a constant of positive length.
    pub fn upcase(&mut self, t: TextVal) -> Result<TextVal, RunError>
        requires { IsText self.old t }
        ensures step { upcase self.old t ≡ outcome self.new t result }
        ensures valid { IfOk result (IsText self.new) }
        ensures keeps { KeepsTexts self.old self.new }
        ensures shapes { KeepsFrames self.old self.new }
        ensures others { SameBut t.text_frame self.old self.new }
    {
        self.check_variable(t)?;
        if t.length > 0 {
            let frame = &mut self.frames[t.text_frame as usize];
            frame.upcase(t.start as usize - 1, t.length as usize);
        }
        Ok(TextVal { pos: 1, ..t })
    }

    /// `lowcase(t)`: makes its capital letters small; the text at position 1. E22 for a constant of positive length.
    pub fn lowcase(&mut self, t: TextVal) -> Result<TextVal, RunError>
        requires { IsText self.old t }
        ensures step { lowcase self.old t ≡ outcome self.new t result }
        ensures valid { IfOk result (IsText self.new) }
        ensures keeps { KeepsTexts self.old self.new }
        ensures shapes { KeepsFrames self.old self.new }
        ensures others { SameBut t.text_frame self.old self.new }
    {
        self.check_variable(t)?;
        if t.length > 0 {
            let frame = &mut self.frames[t.text_frame as usize];
            frame.lowcase(t.start as usize - 1, t.length as usize);
        }
        Ok(TextVal { pos: 1, ..t })
    }

    /// `t.putchar(c)`: writes the character at the position, which moves one on. E24 where the position is behind the last
    /// character, then E22 where the text is a constant.
    #[tactic(auto, using(crate::proofs::FrameLemmas::same_but_set))]
    pub fn putchar(&mut self, t: &mut TextVal, c: u8) -> Result<(), RunError>
        requires { IsText self.old t.old }
        ensures step { putchar self.old t.old c ≡ outcome self.new t.new result }
        ensures same { t.new ≡ at_position t.old t.new.pos }
        ensures valid { IsText self.new t.new }
        ensures keeps { KeepsTexts self.old self.new }
        ensures shapes { KeepsFrames self.old self.new }
        ensures others { SameBut t.old.text_frame self.old self.new }
    {
        let text = *t;
        if text.pos >= self.end(text) {
            return Err(RunError::PutcharPastEnd);
        }
        self.check_variable(text)?;
        let frame = &mut self.frames[text.text_frame as usize];
        frame.set(text.start as usize + text.pos as usize - 2, c);
        t.pos = text.pos + 1;
        Ok(())
    }

    /// `t.putint(i)`: writes the integer at the right end of the text, with blanks before it, or stars throughout where it
    /// does not fit; the position is then behind the last character. E26 where the text has no characters, then E22 where it
    /// is a constant.
    #[tactic(auto, using(crate::proofs::FrameLemmas::same_but_set), unfolding(crate::specs::Frames::field))]
    pub fn putint(&mut self, t: &mut TextVal, i: i64) -> Result<(), RunError>
        requires { IsText self.old t.old }
        ensures step { putint self.old t.old i ≡ outcome self.new t.new result }
        ensures same { t.new ≡ at_position t.old t.new.pos }
        ensures valid { IsText self.new t.new }
        ensures keeps { KeepsTexts self.old self.new }
        ensures shapes { KeepsFrames self.old self.new }
        ensures others { SameBut t.old.text_frame self.old self.new }
    {
        let text = *t;
        if text.length == 0 {
            return Err(RunError::PutintOnNotext);
        }
        self.check_variable(text)?;
        let end = self.end(text);
        let frame = &mut self.frames[text.text_frame as usize];
        frame.put_integer(text.start as usize - 1, text.length as usize, i);
        t.pos = end;
        Ok(())
    }
}
