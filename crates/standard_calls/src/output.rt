//! Names of the output.
ghost use Rattle.std.specs.Prelude.{◌≡◌, ◌∷◌, [], ℕ, List};
ghost use Rattle.sim_values.specs.declared.standard.Standard.TheVariants as name;
ghost use Rattle.sim_values.specs.Plain.{Character, Integer, Text};
ghost use Rattle.sim_values.specs.Texts.{IsText, KeepsTexts, at_position};
ghost use Rattle.basic_io.specs.Image.{IsImage};
ghost use Rattle.basic_io.specs.Input.{HeldInput};
ghost use Rattle.standard_calls.specs.Calls.{CameAs, CameSink, CameStops, IfCameMoved, IsScalarCame, KeepsImages, NoValue};
ghost use Rattle.standard_calls.specs.Performed.{parts};

use crate::came::{Came, done};
use crate::input::refused;
use basic_io::OutImage;
use sim_ports::Sink;
use sim_values::TextVal;
use text_objects::Texts;

/// `outimage`.
#[inline(always)]
pub fn outimage<O: Sink>(texts: &mut Texts, image: &mut OutImage, out: &mut O) -> Came
    requires image { IsImage texts.old image.old }
    ensures came { (budget words : ℕ) (input : HeldInput) (source : List ℕ) → CameAs result budget name.Outimage [] (parts texts.old input source image.old (O.written out.old) words) (parts texts.new input source image.new (O.written out.new) words) }
    ensures scalar { IsScalarCame result }
    ensures value { NoValue result }
    ensures faults { CameSink result (O.faults out.old) (O.faults out.new) }
    ensures stops { CameStops O.written O.faults out.old out.new result }
    ensures still { IfCameMoved result (O.written out.new ≡ O.written out.old) }
    ensures valid { IsImage texts.new image.new }
    ensures same { image.new ≡ at_position image.old image.new.pos }
    ensures keeps { KeepsTexts texts.old texts.new }
    ensures images { KeepsImages texts.old texts.new }
{
    match image.outimage(texts, out) {
        Ok(()) => done(),
        Err(fault) => refused(fault),
    }
}

/// `outchar`.
#[inline(always)]
pub fn outchar<O: Sink>(c: u8, texts: &mut Texts, image: &mut OutImage, out: &mut O) -> Came
    requires image { IsImage texts.old image.old }
    ensures came { (budget words : ℕ) (input : HeldInput) (source : List ℕ) → CameAs result budget name.Outchar (Character c ∷ []) (parts texts.old input source image.old (O.written out.old) words) (parts texts.new input source image.new (O.written out.new) words) }
    ensures scalar { IsScalarCame result }
    ensures faults { CameSink result (O.faults out.old) (O.faults out.new) }
    ensures stops { CameStops O.written O.faults out.old out.new result }
    ensures still { IfCameMoved result (O.written out.new ≡ O.written out.old) }
    ensures valid { IsImage texts.new image.new }
    ensures same { image.new ≡ at_position image.old image.new.pos }
    ensures keeps { KeepsTexts texts.old texts.new }
    ensures images { KeepsImages texts.old texts.new }
{
    match image.outchar(texts, out, c) {
        Ok(()) => done(),
        Err(fault) => refused(fault),
    }
}

/// `outtext`.
#[inline(always)]
pub fn outtext<O: Sink>(text: TextVal, texts: &mut Texts, image: &mut OutImage, out: &mut O) -> Came
    requires image { IsImage texts.old image.old }
    requires text { IsText texts.old text }
    ensures came { (budget words : ℕ) (input : HeldInput) (source : List ℕ) → CameAs result budget name.Outtext (Text text ∷ []) (parts texts.old input source image.old (O.written out.old) words) (parts texts.new input source image.new (O.written out.new) words) }
    ensures scalar { IsScalarCame result }
    ensures faults { CameSink result (O.faults out.old) (O.faults out.new) }
    ensures stops { CameStops O.written O.faults out.old out.new result }
    ensures still { IfCameMoved result (O.written out.new ≡ O.written out.old) }
    ensures valid { IsImage texts.new image.new }
    ensures same { image.new ≡ at_position image.old image.new.pos }
    ensures keeps { KeepsTexts texts.old texts.new }
    ensures images { KeepsImages texts.old texts.new }
{
    match image.outtext(texts, out, text) {
        Ok(()) => done(),
        Err(fault) => refused(fault),
    }
}

/// `outint`.
#[inline(always)]
pub fn outint<O: Sink>(
    i: i64,
    width: i64,
    texts: &mut Texts,
    image: &mut OutImage,
    out: &mut O,
) -> Came
    requires image { IsImage texts.old image.old }
    ensures came { (budget words : ℕ) (input : HeldInput) (source : List ℕ) → CameAs result budget name.Outint (Integer width ∷ Integer i ∷ []) (parts texts.old input source image.old (O.written out.old) words) (parts texts.new input source image.new (O.written out.new) words) }
    ensures scalar { IsScalarCame result }
    ensures faults { CameSink result (O.faults out.old) (O.faults out.new) }
    ensures stops { CameStops O.written O.faults out.old out.new result }
    ensures still { IfCameMoved result (O.written out.new ≡ O.written out.old) }
    ensures valid { IsImage texts.new image.new }
    ensures same { image.new ≡ at_position image.old image.new.pos }
    ensures keeps { KeepsTexts texts.old texts.new }
    ensures images { KeepsImages texts.old texts.new }
{
    match image.outint(texts, out, i, width) {
        Ok(()) => done(),
        Err(fault) => refused(fault),
    }
}
