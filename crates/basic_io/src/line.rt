//! The bytes of an input that are read and not used yet.
ghost use Rattle.std.specs.Prelude.{◌≡◌, ◌+◌, ◌<◌, ◌↔◌, if◌then◌else◌, true, false, [], length, IfOk, IsTrue, OnOk, OnErr};
ghost use Rattle.std.specs.List.{after_first, before_first};
ghost use Rattle.std.specs.Io.KnownBytes.{Keeps};
ghost use Rattle.sim_ports.specs.Faults.{HasCause};
ghost use Rattle.sim_values.specs.Images.{is_line_feed};
ghost use Rattle.basic_io.specs.Input.{Told, holds_line, left_of};

use sim_base::Memory;
use sim_ports::{Failed, Source};
use std::alloc::Global;
use std::marker::Model;

/// The bytes that were taken from a source and not used yet. Contracts see them, how many they can be, and whether the source
/// has ended behind them.
#[derive(Drop)]
pub struct LineBuffer {
    bytes: Vec<u8>,
    count: usize,
    ended: bool,
}

impl Model for LineBuffer {
    ghost use Rattle.std.specs.Prelude.{◌≤◌, take, vec_len};
    ghost use Rattle.basic_io.specs.Input.{Held};

    ghost Value = { Held };

    ghost view = { λ b. record { bytes = take b.count b.bytes.items; room = vec_len b.bytes; ended = b.ended } };

    ghost invariant = { λ b. b.count ≤ vec_len b.bytes };
}

impl LineBuffer {
    /// No byte, with room for so many.
    pub fn new(alloc: Global, room: usize) -> Result<LineBuffer, Memory>
        ensures fresh { IfOk result (λ b. b ≡ record { bytes = []; room = room; ended = false }) }
    {
        Ok(LineBuffer {
            bytes: vec![in alloc; 0; room]?,
            count: 0,
            ended: false,
        })
    }

    fn held(&self) -> &[u8]
        ensures { result.now ≡ self.now.bytes }
    {
        &self.bytes[..self.count]
    }

    /// Whether no byte is held.
    pub fn is_empty(&self) -> bool
        ensures { IsTrue result ↔ (self.now.bytes ≡ []) }
    {
        self.count == 0
    }

    // Whether the next line is held, or as much of it as there is room for.
    fn holds_line(&self) -> bool
        ensures { result ≡ holds_line self.now }
    {
        self.ended || self.count == self.bytes.len() || self.held().contains(&b'\n')
    }

    /// Reads one piece of the source, behind the bytes that are held. It is the only read of an input, and is never made while a
    /// line is held, or the end.
    fn read_piece<I: Source>(&mut self, input: &mut I) -> Result<(), Failed>
        requires no_line { holds_line self.old ≡ false }
        ensures err { OnErr result (self.new ≡ self.old) }
        ensures err_left { OnErr result (Keeps (I.left input.old) (I.left input.new)) }
        ensures room { self.new.room ≡ self.old.room }
        ensures left { OnOk result (Told (I.left input.old) (I.left input.new) (λ before now. left_of self.new now ≡ left_of self.old before)) }
        ensures gives { length self.new.bytes + I.can_give input.new ≡ length self.old.bytes + I.can_give input.old }
        ensures falls { OnOk result (I.can_give input.new + (if self.new.ended then 0 else 1) < I.can_give input.old + 1) }
        ensures cause { HasCause (I.faults input.old) (I.faults input.new) result }
        ensures steady { OnOk result (I.faults input.new ≡ I.faults input.old) }
    {
        let held = self.count;
        let count = input.read(&mut self.bytes[held..])?;
        self.count = held + count;
        self.ended = count == 0;
        Ok(())
    }

    /// Reads until the next line is held, or as much of it as there is room for. Where the source fails no line is held yet.
    pub fn read_line<I: Source>(&mut self, input: &mut I) -> Result<(), Failed>
        ensures held { OnOk result (holds_line self.new ≡ true) }
        ensures wanted { OnErr result (holds_line self.new ≡ false) }
        ensures room { self.new.room ≡ self.old.room }
        ensures left { Told (I.left input.old) (I.left input.new) (λ before now. left_of self.new now ≡ left_of self.old before) }
        ensures gives { length self.new.bytes + I.can_give input.new ≡ length self.old.bytes + I.can_give input.old }
        ensures unread { holds_line self.old ≡ true → (input.new ≡ input.old) × (self.new ≡ self.old) }
        ensures cause { HasCause (I.faults input.old) (I.faults input.new) result }
        ensures steady { OnOk result (I.faults input.new ≡ I.faults input.old) }
    {
        while !self.holds_line() {
            self.read_piece(input)?;
        }
        Ok(())
    }

    /// The bytes held up to the first line feed, or all of them.
    pub fn line(&self) -> &[u8]
        ensures { result.now ≡ before_first is_line_feed self.now.bytes }
    {
        let held = self.held();
        let end = held.iter().position(|byte| *byte == b'\n');
        &held[..end.unwrap_or(held.len())]
    }

    /// Drops the bytes held up to the first line feed, and that too.
    pub fn drop_line(&mut self)
        ensures bytes { self.new.bytes ≡ after_first is_line_feed self.old.bytes }
        ensures room { self.new.room ≡ self.old.room }
        ensures ended { self.new.ended ≡ self.old.ended }
    {
        let used = self.count.min(self.line().len() + 1);
        self.bytes.copy_within(used..self.count, 0);
        self.count -= used;
    }
}
