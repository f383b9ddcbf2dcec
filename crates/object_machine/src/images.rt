//! The images of the input and of the output, by their numbers.
ghost use Rattle.std.specs.Prelude.{◌≡◌, ◌<◌, ℕ, List, Option, IfSome};
ghost use Rattle.sim_values.specs.Store.{Store, with_image};
ghost use Rattle.sim_values.specs.Texts.{Frame as TextFrame};
ghost use Rattle.sim_values.specs.declared.value.TextVal.{TextVal as TextOf};
ghost use Rattle.sim_code.specs.Events.{image_value};
ghost use Rattle.sim_code.specs.Machine.{Frames, of_plain};
ghost use Rattle.sim_code.specs.Outcome.{ArrayOf, World};
ghost use Rattle.frame_arena.specs.declared.frames.Frame.{Frame};
ghost use Rattle.frame_arena.specs.Arrays.{RegionOf, SlotLeadsArray};
ghost use Rattle.frame_arena.specs.Frames.{SlotLeads, found_value};
ghost use Rattle.object_machine.specs.Images.{IsInside, image_in};
ghost use Rattle.object_machine.specs.Standing.{HasImages, ports_in, ports_of};

use crate::machine::Images;
use frame_arena::Slot;
use sim_values::TextVal;

impl Images {
    /// The image of sysin, 0, or of sysout, 1.
    pub fn image(&self, number: u32) -> Option<TextVal>
        ensures { result ≡ image_in self.now number }
    {
        if number == 0 {
            return Some(self.input.image());
        }
        if number == 1 {
            return Some(self.output.image());
        }
        None
    }

    /// Moves the position of an image.
    pub fn set_pos(&mut self, number: u32, pos: u32)
        requires inside { IsInside pos (image_in self.old number) }
        ensures valid { (texts : List TextFrame) → HasImages texts self.old → HasImages texts self.new }
        ensures moved { (s : Store) (source : List ℕ) (t : TextOf) → t.pos ≡ pos → ports_in s ≡ ports_of self.old source → ports_in (with_image s number t) ≡ ports_of self.new source }
    {
        if number == 0 {
            self.input.set_pos(pos);
            return;
        }
        if number == 1 {
            self.output.set_pos(pos);
        }
    }
}

/// An image as a value.
pub fn image_slot(images: &Images, number: u32) -> Option<Slot>
    ensures value { (o : World) (source : List ℕ) → ports_in o.store ≡ ports_of images.now source → found_value result ≡ of_plain (image_value o number) }
    ensures leads { (frames : List Frame) (m : Frames) → IfSome result (λ s. SlotLeads frames m s) }
    ensures leads_arrays { (regions : List RegionOf) (arrays : List ArrayOf) → IfSome result (λ s. SlotLeadsArray regions arrays s) }
{
    let Some(image) = images.image(number) else {
        return None;
    };
    let slot = Slot::text(image);
    Some(slot)
}
