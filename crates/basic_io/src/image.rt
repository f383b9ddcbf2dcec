//! Images as texts.
ghost use Rattle.std.specs.Prelude.{◌≡◌, ◌≤◌, length};
ghost use Rattle.sim_values.specs.Texts.{KeepsTexts, SameBut, at_position, padded, with_characters};
ghost use Rattle.basic_io.specs.Image.{IsImage};

use sim_values::TextVal;
use text_objects::Texts;

/// Writes these characters into an image, and blanks behind them, and moves it to position 1.
#[tactic(auto, using(crate::proofs::ImageFrames::image_filled))]
pub fn fill(texts: &mut Texts, image: &mut TextVal, characters: &[u8])
    requires image { IsImage texts.old image.old }
    requires fits { length characters.now ≤ image.old.length }
    ensures filled { texts.new ≡ with_characters texts.old image.old (padded image.old.length characters.now) }
    ensures moved { image.new ≡ at_position image.old 1 }
    ensures valid { IsImage texts.new image.new }
    ensures keeps { KeepsTexts texts.old texts.new }
    ensures others { SameBut image.old.text_frame texts.old texts.new }
{
    texts.fill(*image, characters);
    image.pos = 1;
}
