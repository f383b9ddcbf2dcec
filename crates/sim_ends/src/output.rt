//! An output over any writer.
ghost use Rattle.std.specs.Prelude.{◌≡◌};

use crate::calls::write_once;
use sim_ports::{Failed, Sink};
use std::io::Write;

/// An output over any writer, such as standard output, whose bytes it tells where the writer does. A write that fails is a fault, and so is one that takes nothing
/// of a piece that isn't empty. It holds nothing back.
#[derive(Drop)]
pub struct Output<W: Write> {
    writer: W,
    faults: u64,
}

impl<W: Write> Output<W> {
    /// Nothing was written, and there was no fault.
    pub fn new(writer: W) -> Self
        ensures bytes { ⟦<Output<W> as Sink>⟧.written result ≡ W.contents writer }
        ensures faultless { ⟦<Output<W> as Sink>⟧.faults result ≡ 0 }
    {
        Output { writer, faults: 0 }
    }
}

impl<W: Write> Sink for Output<W> {
    ghost written = { λ output. W.contents output.writer };

    ghost faults = { λ output. output.faults };

    ghost room = { λ output. 0 };

    fn write(&mut self, piece: &[u8]) -> Result<usize, Failed> {
        if piece.is_empty() {
            return Ok(0);
        }
        match write_once(&mut self.writer, piece) {
            Ok(count) if count > 0 => Ok(count),
            _ => {
                self.faults = self.faults.saturating_add(1);
                Err(Failed)
            }
        }
    }
}
