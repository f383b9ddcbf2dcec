//! Writing a piece whole.
ghost use Rattle.std.specs.Prelude.{◌≡◌, ◌+◌, ◌≤◌, length, take, IsOk, OnOk, OnErr, IfErr};
ghost use Rattle.std.specs.Io.KnownBytes.{Appends};
ghost use Rattle.sim_ports.specs.Faults.{HasCause, StopsAt};

use crate::{Failed, Sink};
use thiserror::Error;

/// The sink failed after the first `written` bytes of the piece: these were appended, and no others.
#[derive(Clone, Copy, Debug, PartialEq, Eq, Error)]
#[error("the output failed after {written} bytes")]
pub struct WriteFailed {
    /// How many bytes of the piece were appended.
    pub written: usize,
}

/// Writes the whole piece, in as many calls as the sink needs. It stops at the first call that fails.
pub fn write_all<S: Sink>(sink: &mut S, piece: &[u8]) -> Result<(), WriteFailed>
    ensures whole { OnOk result (Appends (S.written sink.old) (S.written sink.new) piece.now) }
    ensures within { IfErr result (λ failed. failed.written ≤ length piece.now) }
    ensures part { IfErr result (λ failed.
        Appends (S.written sink.old) (S.written sink.new) (take failed.written piece.now)) }
    ensures cause { HasCause (S.faults sink.old) (S.faults sink.new) result }
    ensures stops { OnErr result (StopsAt S.written S.faults sink.old sink.new) }
    ensures steady { OnOk result (S.faults sink.new ≡ S.faults sink.old) }
    ensures sound { length piece.now ≤ S.room sink.old → IsOk result }
    ensures room { OnOk result (S.room sink.old ≤ S.room sink.new + length piece.now) }
{
    let mut written = 0;
    while written < piece.len() {
        match sink.write(&piece[written..]) {
            Ok(count) => written += count,
            Err(Failed) => return Err(WriteFailed { written }),
        }
    }
    Ok(())
}
