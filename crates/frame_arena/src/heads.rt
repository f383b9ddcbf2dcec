//! System heads.
ghost use Rattle.std.specs.Prelude.{◌≡◌, ◌<◌, ℕ, List, IfSome, length, true, false};
ghost use Rattle.sim_code.specs.Instances.{system_head as head_of_system};
ghost use Rattle.sim_code.specs.Machine.{Frames};
ghost use Rattle.frame_arena.specs.declared.slot.Slot.{Slot};
ghost use Rattle.frame_arena.specs.Frames.{Has, Holds, frame_at, is_object_as};

use crate::frames::{Component, Frame, find};
use sim_values::FrameRef;

/// Whether a frame that stands so is that of an object.
#[inline(always)]
pub fn is_object(component: Component) -> bool
    ensures { result ≡ is_object_as component }
{
    match component {
        Component::NoObject => false,
        Component::Waiting => false,
        Component::Attached => true,
        Component::Detached => true,
        Component::Resumed => true,
        Component::Terminated => true,
    }
}

/// The system head of the object in a region: the nearest frame outward along its textual enclosers that is that of no object. There
/// is none where such an encloser was given back, or all are objects, to which no run comes.
pub fn system_head(frames: &[Frame], place: usize) -> Option<FrameRef>
    requires there { place < length frames.now }
    requires live { (frame_at frames.now place).live ≡ true }
    ensures there { IfSome result (λ head. Has frames.now head.frame head.stamp) }
    ensures apart { IfSome result (λ head. is_object_as (frame_at frames.now head.frame).component ≡ false) }
    ensures head { IfSome result (λ head. (number : ℕ) (cells : List Slot) (m : Frames) → Has frames.now place number → Holds frames.now cells m → head.stamp ≡ head_of_system m number) }
{
    let mut at = frames[place].parent;
    for _ in 0..frames[place].number {
        let Some(encloser) = at else {
            return None;
        };
        let Some(region) = find(frames, encloser) else {
            return None;
        };
        if !is_object(frames[region].component) {
            return Some(encloser);
        }
        at = frames[region].parent;
    }
    None
}
