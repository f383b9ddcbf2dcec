//! Frames on the operating chain that are kept.
ghost use Rattle.std.specs.Prelude.{◌≡◌, ℕ, ◌∷◌, List, Some, true};
ghost use Rattle.sim_code.specs.Instances.{kept_on};
ghost use Rattle.sim_code.specs.Machine.{Activation as ActivationOf, Frames, owner};
ghost use Rattle.frame_arena.specs.Frames.{Holds, rooms};
ghost use Rattle.object_machine.specs.Keeping.{KeepsOne, KeptIn, owner_at};
ghost use Rattle.object_machine.specs.Standing.{below_of};

use crate::machine::{Activation, Registers};
use frame_arena::Slot;
use frame_arena::frames::{self, Frame};
use sim_values::FrameRef;

/// What is done for one activation on the chain.
#[derive(Clone, Copy)]
pub enum Kept {
    /// Its frame is kept, or it is a thunk, which has none. The one below it may be kept.
    Further,
    /// Its frame is none of a class-free sub-block or procedure, so those below it are left as they are.
    Ends,
    /// Its frame was given back. No frame on the chain of a run was.
    Missing,
}

// A frame is kept, if it is that of a class-free sub-block or procedure.
#[inline(always)]
fn keep_frame(frames: &mut [Frame], home: FrameRef) -> Kept
    ensures stacks { rooms frames.new ≡ rooms frames.old }
    ensures row { (cells : List Slot) (m : Frames) → Holds frames.old cells m → KeepsOne result frames.old frames.new cells m (Some home.stamp) }
{
    let Some(place) = frames::find(frames, home) else {
        return Kept::Missing;
    };
    if !frames[place].passing {
        return Kept::Ends;
    }
    frames::keep(frames, place);
    Kept::Further
}

// The frame of an activation is kept, if it is that of a class-free sub-block or procedure.
#[inline(always)]
fn keep_one(frames: &mut [Frame], regs: Registers) -> Kept
    ensures stacks { rooms frames.new ≡ rooms frames.old }
    ensures row { (cells : List Slot) (m : Frames) → Holds frames.old cells m → KeepsOne result frames.old frames.new cells m (owner_at regs) }
{
    match regs.thunk {
        Some(_) => Kept::Further,
        None => keep_frame(frames, regs.home),
    }
}

/// The frames of class-free sub-blocks and procedures on top of the chain are kept, down to the first frame that is none of these. Thunks are
/// passed over. It answers whether the frames were all there, as they are in a run.
pub fn keep_frames(frames: &mut [Frame], top: Registers, below: &[Activation]) -> bool
    ensures stacks { rooms frames.new ≡ rooms frames.old }
    ensures row { result ≡ true → (cells : List Slot) (m : Frames) (a : ActivationOf) → owner a ≡ owner_at top → Holds frames.old cells m →
        KeptIn frames.old frames.new cells m (kept_on owner (a ∷ below_of below.now) m) }
{
    match keep_one(frames, top) {
        Kept::Further => {}
        Kept::Ends => return true,
        Kept::Missing => return false,
    }
    let mut at = below.len();
    while at > 0 {
        at -= 1;
        match keep_one(frames, below[at].registers) {
            Kept::Further => {}
            Kept::Ends => return true,
            Kept::Missing => return false,
        }
    }
    true
}
