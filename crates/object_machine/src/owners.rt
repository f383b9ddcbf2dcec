//! Frames whose activations are at work.
ghost use Rattle.std.specs.Prelude.{◌≡◌, Some, None, true, false};
ghost use Rattle.object_machine.specs.Keeping.{owner_at};

use crate::machine::Registers;

/// Whether a thunk is at work, which is the activation of no frame.
#[inline(always)]
pub fn is_thunk(regs: &Registers) -> bool
    ensures yes { result ≡ true → owner_at regs.now ≡ None }
    ensures no { result ≡ false → owner_at regs.now ≡ Some regs.now.home.stamp }
{
    match regs.thunk {
        Some(_) => true,
        None => false,
    }
}
