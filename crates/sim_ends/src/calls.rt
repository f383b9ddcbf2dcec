//! One real read or write. A call that a signal interrupts is no fault: it is made again, and its error is never handed on.
ghost use Rattle.std.specs.Io.{ReadsAtMost, WritesAtMost};
ghost use Rattle.std.specs.Io.KnownBytes.{ReadConsumes, WriteAppends};
ghost use Rattle.std.specs.IoError.{error_kind};
ghost use Rattle.std.specs.Prelude.{◌≡◌, true, false, IfErr};
ghost use Rattle.std.specs.declared.io.ErrorKind.TheVariants.{Interrupted};

use std::io;
use std::io::{ErrorKind, Read, Write};

/// One read of the reader, with its error where it fails.
pub fn read_once<R: Read>(reader: &mut R, into: &mut [u8]) -> io::Result<usize>
    ensures bound { ReadsAtMost result into.new }
    ensures bytes { ReadConsumes (R.remaining reader.old) (R.remaining reader.new) result into.new }
    ensures made_again { IfErr result (λ error. error_kind error ≡ Interrupted → ⊥) }
{
    for _ in 0..u64::MAX {
        match reader.read(into) {
            Ok(count) => return Ok(count),
            Err(error) if is_interrupt(&error) => {}
            Err(error) => return Err(error),
        }
    }
    Err(ErrorKind::TimedOut.into())
}

/// One write of the writer, with its error where it fails.
pub fn write_once<W: Write>(writer: &mut W, piece: &[u8]) -> io::Result<usize>
    ensures bound { WritesAtMost result piece.now }
    ensures bytes { WriteAppends (W.contents writer.old) (W.contents writer.new) result piece.now }
    ensures made_again { IfErr result (λ error. error_kind error ≡ Interrupted → ⊥) }
{
    for _ in 0..u64::MAX {
        match writer.write(piece) {
            Ok(count) => return Ok(count),
            Err(error) if is_interrupt(&error) => {}
            Err(error) => return Err(error),
        }
    }
    Err(ErrorKind::TimedOut.into())
}

// Whether a signal made the error, which then says nothing of the reader or the writer.
fn is_interrupt(error: &io::Error) -> bool
    ensures is_one { result ≡ true → error_kind error.now ≡ Interrupted }
    ensures is_none { result ≡ false → error_kind error.now ≡ Interrupted → ⊥ }
{
    error.kind() == ErrorKind::Interrupted
}
