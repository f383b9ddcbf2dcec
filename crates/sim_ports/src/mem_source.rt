//! An input in memory.
ghost use Rattle.std.specs.Prelude.{◌≡◌, ◌+◌, ◌<◌, ℕ, [], Some, drop, length, min, not, is_ok, IfOk, OnOk, OnErr, Ok, IsOk};
ghost use Rattle.std.specs.Io.{ReadsAtMost};
ghost use Rattle.std.specs.Io.KnownBytes.{ReadConsumes};
ghost use Rattle.sim_ports.specs.Calls.{calls_in_pieces, fails_next, after_piece};
ghost use Rattle.sim_ports.specs.Faults.{HasCause};
ghost use Rattle.sim_ports.specs.Memory.{fresh_input};

use crate::calls::Calls;
use crate::copying::copy_front;
use crate::{Failed, Source};
use sim_base::Memory;
use std::alloc::Global;
use std::marker::Model;

/// An input in memory. The calls with the listed numbers fail, and no others. Calls are numbered from 0; one with an
/// empty piece has no number.
#[derive(Drop)]
pub struct MemSource {
    bytes: Vec<u8>,
    place: usize,
    calls: Calls,
}

impl Model for MemSource {
    ghost use Rattle.std.specs.Prelude.{◌≤◌, drop, vec_len};
    ghost use Rattle.sim_ports.specs.Memory.{StoredInput};

    ghost Value = { StoredInput };

    ghost view = { λ source. record { left = drop source.place source.bytes.items; calls = source.calls } };

    ghost invariant = { λ source. source.place ≤ vec_len source.bytes };
}

impl MemSource {
    /// An input that gives these bytes.
    pub fn new(alloc: Global, bytes: &[u8], failing: &[u64]) -> Result<MemSource, Memory>
        ensures fresh { IfOk result (λ source. source ≡ fresh_input bytes.now failing.now) }
    {
        Ok(MemSource {
            bytes: Vec::from_slice(alloc, bytes)?,
            place: 0,
            calls: Calls::new(alloc, failing)?,
        })
    }

    /// The same input, of which each later call moves at most `size` bytes.
    pub fn in_pieces(mut self, size: usize) -> Self
        requires { 0 < size }
        ensures left { result.left ≡ self.left }
        ensures pieces { result.calls ≡ calls_in_pieces size self.calls }
    {
        self.calls.move_in_pieces(size);
        self
    }

    // The bytes left.
    fn rest(&self) -> &[u8]
        ensures same { result.now ≡ self.now.left }
    {
        &self.bytes[self.place..]
    }
}

impl Source for MemSource {
    ghost left = { λ source. Some source.left };

    ghost can_give = { λ source. length source.left };

    ghost faults = { λ source. source.calls.faults };

    ghost is_sound = { λ source. source.calls.failing ≡ [] };

    fn read(&mut self, into: &mut [u8]) -> Result<usize, Failed>
        ensures bound { ReadsAtMost result into.new }
        ensures empty { length into.old ≡ 0 → result ≡ Ok 0 }
        ensures bytes { ReadConsumes (Some self.old.left) (Some self.new.left) result into.new }
        ensures gives { IfOk result (λ count. length self.old.left ≡ length self.new.left + count) }
        ensures gives_none { OnErr result (length self.new.left ≡ length self.old.left) }
        ensures cause { HasCause self.old.calls.faults self.new.calls.faults result }
        ensures steady { OnOk result (self.new.calls.faults ≡ self.old.calls.faults) }
        ensures sound { self.old.calls.failing ≡ [] → (self.new.calls.failing ≡ []) × IsOk result }

        // Exactly the listed calls fail, and the others give as much as there is room for, in a piece.
        ensures fails { 0 < length into.old → is_ok result ≡ not (fails_next self.old.calls) }
        ensures count { IfOk result (λ count. count ≡ min (min (length into.old) (length self.old.left)) self.old.calls.most) }
        ensures calls { self.new.calls ≡ after_piece (length into.old) (is_ok result) self.old.calls }
    {
        if into.is_empty() {
            return Ok(0);
        }
        if self.calls.fails_next() {
            self.calls.count(false);
            return Err(Failed);
        }
        let count = copy_front(self.rest(), into, self.calls.most());
        self.place += count;
        self.calls.count(true);
        Ok(count)
    }
}
