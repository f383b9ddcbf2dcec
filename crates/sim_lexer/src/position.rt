//! How far a source was read.
ghost use Rattle.std.specs.Prelude.{◌≡◌, ◌+◌, ◌<◌, ◌≤◌, ◌^◌, length};
ghost use Rattle.sim_lexer.specs.Scanning.{past, past_byte};

/// How far a source was read.
#[derive(Clone, Copy)]
pub struct Position {
    /// The number of bytes that were read.
    pub place: u32,
    /// One more than the number of line feeds that were read.
    pub line: u32,
    /// Whether a line begins here.
    pub begins_line: bool,
}

/// The position behind these bytes.
pub(crate) fn past(at: Position, bytes: &[u8]) -> Position
    requires place { at.place + length bytes.now < 2 ^ 31 }
    requires line { at.line ≤ at.place + 1 }
    ensures position { result ≡ past at bytes.now }
    ensures place { result.place ≡ at.place + length bytes.now }
    ensures line { result.line ≤ result.place + 1 }
{
    let mut position = at;
    for byte in bytes {
        position = past_byte(position, *byte);
    }
    position
}

// The position one byte further.
fn past_byte(at: Position, byte: u8) -> Position
    requires place { at.place < 2 ^ 31 }
    requires line { at.line ≤ at.place + 1 }
    ensures position { result ≡ past_byte at byte }
{
    let begins_line = byte == b'\n';
    Position {
        place: at.place + 1,
        line: if begins_line { at.line + 1 } else { at.line },
        begins_line,
    }
}
