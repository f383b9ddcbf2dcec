//! Standard names that are not quiet: they read or write, or have no operands.
ghost use Rattle.std.specs.Prelude.{◌≡◌, [], ℕ, List, Some, map};
ghost use Rattle.sim_values.specs.Texts.{KeepsTexts, at_position};
ghost use Rattle.basic_io.specs.Image.{IsImage};
ghost use Rattle.standard_calls.specs.Calls.{CameAs, CameFaults, CameStops, GivesValue, HasText, IfCameMoved, IsScalarCame, name_of, nothing_name, operands};
ghost use Rattle.sim_code.specs.Machine.{Of};
ghost use Rattle.standard_calls.specs.Performed.{parts};
ghost use Rattle.standard_calls.specs.declared.manner.Manner.TheVariants as manner;
ghost use Rattle.standard_calls.specs.Quiet.{manner_of};
ghost use Rattle.standard_calls.specs.Taking.{CallTakes};
ghost use Rattle.standard_calls.specs.Unread.{Unread};

use crate::calls::{Call, OfNothing};
use crate::came::Came;
use crate::functions::given;
use crate::input::{Reading, intext, of_input};
use crate::output::{outchar, outimage, outint, outtext};
use basic_io::{InImage, OutImage};
use frame_arena::Slot;
use sim_ports::{Sink, Source};
use text_objects::Texts;

// A name of no operands.
#[tactic(auto, using(crate::proofs::Unread::reads_none, crate::proofs::Taking::takes_none))]
fn of_nothing<I: Source, O: Sink>(
    function: OfNothing,
    texts: &mut Texts,
    sysin: &mut InImage,
    image: &mut OutImage,
    input: &mut I,
    out: &mut O,
) -> Came
    requires image { IsImage texts.old image.old }
    requires sysin { IsImage texts.old sysin.old.image }
    ensures came { (budget words : ℕ) (s : List ℕ) → I.left input.old ≡ Some s → (s2 : List ℕ) × (I.left input.new ≡ Some s2)
        × CameAs result budget (nothing_name function) [] (parts texts.old sysin.old s image.old (O.written out.old) words) (parts texts.new sysin.new s2 image.new (O.written out.new) words) }
    ensures scalar { IsScalarCame result }
    ensures value { GivesValue (Call.Nothing function) result }
    ensures unread { Unread (nothing_name function) [] texts.old sysin.old input.old input.new }
    ensures faults { CameFaults result (O.faults out.old) (O.faults out.new) (I.faults input.old) (I.faults input.new) }
    ensures stops { CameStops O.written O.faults out.old out.new result }
    ensures still { IfCameMoved result (O.written out.new ≡ O.written out.old) }
    ensures valid { IsImage texts.new image.new }
    ensures valid_in { IsImage texts.new sysin.new.image }
    ensures same { image.new ≡ at_position image.old image.new.pos }
    ensures same_in { sysin.new.image ≡ at_position sysin.old.image sysin.new.image.pos }
    ensures keeps { KeepsTexts texts.old texts.new }
{
    match function {
        OfNothing::Maxint => given(Slot::integer(i64::MAX)),
        OfNothing::Minint => given(Slot::integer(i64::MIN)),
        OfNothing::Endfile => given(Slot::truth(sysin.endfile())),
        OfNothing::Inimage => of_input(Reading::Inimage, texts, sysin, input),
        OfNothing::Inchar => of_input(Reading::Inchar, texts, sysin, input),
        OfNothing::Inint => of_input(Reading::Inint, texts, sysin, input),
        OfNothing::Lastitem => of_input(Reading::Lastitem, texts, sysin, input),
        OfNothing::Outimage => outimage(texts, image, out),
    }
}

/// What becomes of a name that is not quiet, on its operands.
#[tactic(auto, using(crate::proofs::Unread::reads_none, crate::proofs::Taking::takes_none))]
pub fn come<I: Source, O: Sink>(
    call: Call,
    budget: u64,
    words: &mut u64,
    texts: &mut Texts,
    sysin: &mut InImage,
    image: &mut OutImage,
    input: &mut I,
    out: &mut O,
) -> Came
    requires loud { manner_of (name_of call) ≡ manner.Ports }
    requires image { IsImage texts.old image.old }
    requires sysin { IsImage texts.old sysin.old.image }
    requires text { HasText texts.old call }
    ensures came { (s : List ℕ) → I.left input.old ≡ Some s → (s2 : List ℕ) × (I.left input.new ≡ Some s2)
        × CameAs result budget (name_of call) (operands call) (parts texts.old sysin.old s image.old (O.written out.old) words.old) (parts texts.new sysin.new s2 image.new (O.written out.new) words.new) }
    ensures scalar { IsScalarCame result }
    ensures value { GivesValue call result }
    ensures unread { Unread (name_of call) (map Of (operands call)) texts.old sysin.old input.old input.new }
    ensures takes { (s : List ℕ) → I.left input.old ≡ Some s → CallTakes budget (name_of call) (operands call) (parts texts.old sysin.old s image.old (O.written out.old) words.old) input.old input.new }
    ensures faults { CameFaults result (O.faults out.old) (O.faults out.new) (I.faults input.old) (I.faults input.new) }
    ensures stops { CameStops O.written O.faults out.old out.new result }
    ensures still { IfCameMoved result (O.written out.new ≡ O.written out.old) }
    ensures valid { IsImage texts.new image.new }
    ensures valid_in { IsImage texts.new sysin.new.image }
    ensures same { image.new ≡ at_position image.old image.new.pos }
    ensures same_in { sysin.new.image ≡ at_position sysin.old.image sysin.new.image.pos }
    ensures keeps { KeepsTexts texts.old texts.new }
{
    match call {
        Call::Nothing(function) => of_nothing(function, texts, sysin, image, input, out),
        Call::Integer(_function, i) => intext(i, budget, words, texts, sysin, input),
        Call::Integers(_function, i, j) => outint(i, j, texts, image, out),
        Call::Character(_function, c) => outchar(c, texts, image, out),
        Call::Text(_function, text) => outtext(text, texts, image, out),
        Call::TextAndInteger(_, _, _) => unreachable!(),
        Call::TextAndIntegers(_, _, _) => unreachable!(),
        Call::TextAndCharacter(_, _) => unreachable!(),
    }
}
