//! An input over any reader.
ghost use Rattle.std.specs.Prelude.{◌≡◌, ◌^◌, ◌-◌};

use crate::calls::read_once;
use sim_ports::{Failed, Source};
use std::io::Read;

// The bytes that an input can give.
const MOST_GIVEN: usize = (1 << 63) - 1;

/// An input over any reader, such as standard input, whose bytes it tells where the reader does. It gives at most 2^63-1 bytes: a read after these is a fault, as is
/// one that fails.
#[derive(Drop)]
pub struct Input<R: Read> {
    reader: R,
    can_give: usize,
    faults: u64,
}

impl<R: Read> Input<R> {
    /// Nothing was read, and there was no fault.
    pub fn new(reader: R) -> Self
        ensures bytes { ⟦<Input<R> as Source>⟧.left result ≡ R.remaining reader }
        ensures whole { ⟦<Input<R> as Source>⟧.can_give result ≡ 2 ^ 63 - 1 }
        ensures faultless { ⟦<Input<R> as Source>⟧.faults result ≡ 0 }
    {
        Input {
            reader,
            can_give: MOST_GIVEN,
            faults: 0,
        }
    }
}

impl<R: Read> Source for Input<R> {
    ghost left = { λ input. R.remaining input.reader };

    ghost can_give = { λ input. input.can_give };

    ghost faults = { λ input. input.faults };

    ghost is_sound = { λ input. ⊥ };

    fn read(&mut self, into: &mut [u8]) -> Result<usize, Failed> {
        if into.is_empty() {
            return Ok(0);
        }
        let room = into.len().min(self.can_give);
        if room > 0
            && let Ok(count) = read_once(&mut self.reader, &mut into[..room])
        {
            self.can_give -= count;
            return Ok(count);
        }
        self.faults = self.faults.saturating_add(1);
        Err(Failed)
    }
}
