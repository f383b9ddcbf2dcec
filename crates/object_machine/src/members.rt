//! The objects that are linkages.
ghost use Rattle.std.specs.Prelude.{◌≡◌, ℕ, ◌<◌, List, IfOk, IfSome, length};
ghost use Rattle.sim_code.specs.Machine.{Frames};
ghost use Rattle.sim_code.specs.Outcome.{World};
ghost use Rattle.sim_code.specs.Sets.{enrolled};
ghost use Rattle.simset.specs.Instances.{Memberships, linkage_of, with_linkage};
ghost use Rattle.frame_arena.specs.declared.frames.Frame.{Frame};
ghost use Rattle.frame_arena.specs.Frames.{Leads};
ghost use Rattle.object_machine.specs.Enrolling.{AllBelow, Enrolled, Rises, fresh_as, made_as, stamps};

use crate::machine::Members;
use crate::marks::Kind;
use sim_base::Memory;
use sim_values::FrameRef;

/// The place of the object with a number among these, whose numbers rise, if it is there.
pub fn place_of(objects: &[FrameRef], stamp: u64) -> Option<usize>
    ensures within { IfSome result (λ x. x < length objects.now) }
    ensures is { Rises (stamps objects.now) → result ≡ linkage_of (stamps objects.now) stamp }
{
    let mut low = 0;
    let mut high = objects.len();
    while low < high {
        let middle = low + (high - low) / 2;
        let there = objects[middle].stamp;
        if there == stamp {
            return Some(middle);
        }
        if there < stamp {
            low = middle + 1;
        } else {
            high = middle;
        }
    }
    None
}

// An object becomes a linkage of a kind.
fn add(members: &mut Members, kind: Kind, object: FrameRef) -> Result<(), Memory>
    ensures row { IfOk result (λ u. (frames : List Frame) (m : Frames) (o : Memberships) → Enrolled frames m members.old o → AllBelow object.stamp o.instances → Leads frames m object →
        Enrolled frames m members.new (with_linkage object.stamp (fresh_as kind) o)) }
{
    let count = members.rings.len();
    if count >= u32::MAX as usize {
        return Err(Memory);
    }
    members.rings.reserve(count + 1)?;
    let Ok(()) = members.objects.push(object) else {
        return Err(Memory);
    };
    match kind {
        Kind::Link => {
            members.rings.add_link();
        }
        Kind::Head => {
            members.rings.add_head();
        }
    }
    Ok(())
}

/// An object that was just made becomes a linkage, if it is one.
pub fn enroll(members: &mut Members, linkage: Option<Kind>, object: FrameRef) -> Result<(), Memory>
    ensures row { IfOk result (λ u. (frames : List Frame) (m : Frames) (o : World) → Enrolled frames m members.old o.members → AllBelow object.stamp o.members.instances → Leads frames m object →
        Enrolled frames m members.new (enrolled object.stamp (made_as linkage) o).members) }
{
    let Some(kind) = linkage else {
        return Ok(());
    };
    add(members, kind, object)
}
