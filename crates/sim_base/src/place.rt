//! Places in a source: bytes count from 0, lines from 1.
ghost use Rattle.std.specs.Prelude.{◌≡◌, ◌≤◌, ◌<◌, ◌+◌, ◌^◌, ◌-◌, length};
ghost use Rattle.sim_base.specs.Place.{line_at};

use crate::Line;

/// The line of a place, which is one more than the line feeds before it.
#[tactic(auto, unfolding(crate::specs::Place::line_at))]
pub fn line_of(source: &[u8], place: usize) -> Line
    requires short { length source.now < 2 ^ 32 - 1 }
    requires within { place ≤ length source.now }
    ensures line { result.0 ≡ line_at source.now place }
{
    let before = &source[..place];
    let mut line = 1;
    for byte in before {
        if *byte == b'\n' {
            line += 1;
        }
    }
    Line(line)
}
