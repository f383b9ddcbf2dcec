//! The calls on an end in memory, of which some are to fail.
ghost use Rattle.std.specs.Prelude.{◌≡◌, ◌<◌, ◌≤◌, IfOk};
ghost use Rattle.sim_ports.specs.Calls.{fresh_calls, calls_in_pieces, fails_next, after_call};

use sim_base::Memory;
use std::alloc::Global;
use std::marker::Model;

/// The calls that were made, numbered from 0, the numbers of those that fail, the count of faults, and the most bytes
/// that one call moves.
#[derive(Drop)]
pub struct Calls {
    failing: Vec<u64>,
    made: u64,
    faults: u64,
    most: usize,
}

impl Model for Calls {
    ghost use Rattle.std.specs.Prelude.{◌<◌};
    ghost use Rattle.sim_ports.specs.Calls.{CallLog};

    ghost Value = { CallLog };

    ghost view = { λ calls. record { failing = calls.failing.items; made = calls.made; faults = calls.faults; most = calls.most } };

    ghost invariant = { λ calls. 0 < calls.most };
}

impl Calls {
    /// No call was made yet.
    pub fn new(alloc: Global, failing: &[u64]) -> Result<Calls, Memory>
        ensures fresh { IfOk result (λ calls. calls ≡ fresh_calls failing.now) }
    {
        Ok(Calls {
            failing: Vec::from_slice(alloc, failing)?,
            made: 0,
            faults: 0,
            most: usize::MAX,
        })
    }

    /// Lets each later call move at most so many bytes.
    pub fn move_in_pieces(&mut self, size: usize)
        requires { 0 < size }
        ensures pieces { self.new ≡ calls_in_pieces size self.old }
    {
        self.most = size;
    }

    /// How many bytes a call moves at the most.
    pub fn most(&self) -> usize
        ensures same { result ≡ self.now.most }
        ensures some { 0 < result }
    {
        self.most
    }

    /// Whether the next call is one of those that fail.
    pub fn fails_next(&self) -> bool
        ensures answer { result ≡ fails_next self.now }
    {
        self.failing.contains(&self.made)
    }

    /// Counts a call, and its fault where it did not succeed.
    pub fn count(&mut self, succeeded: bool)
        ensures counted { self.new ≡ after_call succeeded self.old }
        ensures later { self.old.faults ≤ self.new.faults }
    {
        self.made = self.made.saturating_add(1);
        if !succeeded {
            self.faults = self.faults.saturating_add(1);
        }
    }
}
