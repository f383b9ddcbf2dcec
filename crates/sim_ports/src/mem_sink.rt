//! An output in memory.
ghost use Rattle.std.specs.Prelude.{◌≡◌, ◌+◌, ◌-◌, ◌<◌, ◌≤◌, ℕ, Some, length, min, not, ◌&&◌, nat_lt, is_ok, IfOk, OnOk, OnErr, Ok, IsOk};
ghost use Rattle.std.specs.Io.KnownBytes.{WriteAppends};
ghost use Rattle.sim_ports.specs.Calls.{calls_in_pieces, fails_next, after_piece};
ghost use Rattle.sim_ports.specs.Faults.{HasCause};
ghost use Rattle.sim_ports.specs.Memory.{fresh_output, sure_room};

use crate::calls::Calls;
use crate::{Failed, Sink};
use sim_base::Memory;
use std::alloc::Global;
use std::marker::Model;

/// An output in memory with room for a number of bytes. The calls with the listed numbers fail, and those that find no
/// room left, and no others. Calls are numbered from 0; one with an empty piece has no number.
#[derive(Drop)]
pub struct MemSink {
    bytes: Vec<u8>,
    room: usize,
    calls: Calls,
}

impl Model for MemSink {
    ghost use Rattle.std.specs.Prelude.{◌+◌, ◌≤◌, vec_len, vec_capacity};
    ghost use Rattle.sim_ports.specs.Memory.{StoredOutput};

    ghost Value = { StoredOutput };

    ghost view = { λ sink. record { written = sink.bytes.items; room = sink.room; calls = sink.calls } };

    ghost invariant = { λ sink. vec_len sink.bytes + sink.room ≤ vec_capacity sink.bytes };
}

impl MemSink {
    /// An output to which nothing was written. The memory for all of its room is taken here.
    pub fn new(alloc: Global, failing: &[u64], room: usize) -> Result<MemSink, Memory>
        ensures fresh { IfOk result (λ sink. sink ≡ fresh_output failing.now room) }
    {
        Ok(MemSink {
            bytes: Vec::with_capacity(alloc, room)?,
            room,
            calls: Calls::new(alloc, failing)?,
        })
    }

    /// The same output, of which each later call moves at most `size` bytes.
    pub fn in_pieces(mut self, size: usize) -> Self
        requires { 0 < size }
        ensures written { result.written ≡ self.written }
        ensures room { result.room ≡ self.room }
        ensures pieces { result.calls ≡ calls_in_pieces size self.calls }
    {
        self.calls.move_in_pieces(size);
        self
    }

    /// What was written.
    pub fn bytes(&self) -> &[u8]
        ensures same { result.now ≡ self.now.written }
    {
        &self.bytes
    }
}

impl Sink for MemSink {
    ghost written = { λ sink. Some sink.written };

    ghost faults = { λ sink. sink.calls.faults };

    ghost room = { λ sink. sure_room sink.calls.failing sink.room };

    fn write(&mut self, piece: &[u8]) -> Result<usize, Failed>
        ensures bound { IfOk result (λ count. count ≤ length piece.now) }
        ensures empty { length piece.now ≡ 0 → result ≡ Ok 0 }
        ensures progress { IfOk result (λ count. 0 < length piece.now → 0 < count) }
        ensures bytes { WriteAppends (Some self.old.written) (Some self.new.written) result piece.now }
        ensures cause { HasCause self.old.calls.faults self.new.calls.faults result }
        ensures steady { OnOk result (self.new.calls.faults ≡ self.old.calls.faults) }
        ensures sound { 0 < sure_room self.old.calls.failing self.old.room → IsOk result }
        ensures room { IfOk result (λ count.
            sure_room self.old.calls.failing self.old.room ≤ sure_room self.new.calls.failing self.new.room + count) }

        // Exactly the listed calls fail and those without room, and the others take as much as there is room for, in
        // a piece.
        ensures fails { 0 < length piece.now → is_ok result ≡ (not (fails_next self.old.calls) && nat_lt 0 self.old.room) }
        ensures count { IfOk result (λ count. count ≡ min (min (length piece.now) self.old.room) self.old.calls.most) }
        ensures left { IfOk result (λ count. self.old.room ≡ self.new.room + count) }
        ensures kept { OnErr result ((self.new.written ≡ self.old.written) × (self.new.room ≡ self.old.room)) }
        ensures calls { self.new.calls ≡ after_piece (length piece.now) (is_ok result) self.old.calls }
    {
        if piece.is_empty() {
            return Ok(0);
        }
        if self.calls.fails_next() || self.room == 0 {
            self.calls.count(false);
            return Err(Failed);
        }
        let count = piece.len().min(self.room).min(self.calls.most());
        self.bytes.extend_from_slice(&piece[..count]).unwrap();
        self.room -= count;
        self.calls.count(true);
        Ok(count)
    }
}
