// An input that has no bytes.
ghost use Rattle.std.specs.Prelude.{Some, [], ⊤};

use sim_ports::{Failed, Source};

/// No input: it is at its end from the start, and never fails.
#[derive(Drop)]
pub struct NoInput;

impl Source for NoInput {
    ghost left = { λ _. Some [] };

    ghost can_give = { λ _. 0 };

    ghost faults = { λ _. 0 };

    ghost is_sound = { λ _. ⊤ };

    fn read(&mut self, _into: &mut [u8]) -> Result<usize, Failed> {
        Ok(0)
    }
}
