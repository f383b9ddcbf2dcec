//! Names of the input.
ghost use Rattle.std.specs.Prelude.{◌≡◌, ◌≤◌, ◌∷◌, [], ℕ, List, Option, Some};
ghost use Rattle.sim_code.specs.Machine.{Of};
ghost use Rattle.sim_values.specs.declared.standard.Standard.TheVariants as name;
ghost use Rattle.sim_values.specs.declared.value.TextVal.{TextVal as AnyText};
ghost use Rattle.sim_values.specs.Plain.{Integer};
ghost use Rattle.sim_values.specs.Texts.{KeepsTexts, at_position};
ghost use Rattle.basic_io.specs.Image.{IsImage};
ghost use Rattle.standard_calls.specs.Calls.{CameAs, CameSource, IsScalarCame, KeepsImages, NoValue, reading_name, refused_as, unfit_as, unread_as, words_after};
ghost use Rattle.standard_calls.specs.Performed.{parts};
ghost use Rattle.standard_calls.specs.Taking.{CallTakes};
ghost use Rattle.standard_calls.specs.Unread.{Unread};

use crate::came::{Came, done, value};
use crate::texts::{room, words_for};
use basic_io::{InImage, IntextFault, IoFault};
use frame_arena::Slot;
use sim_base::RunError;
use sim_ports::Source;
use text_objects::{TextFault, Texts};

/// A name that reads the input and has no operands.
#[derive(Clone, Copy)]
pub enum Reading {
    /// `inimage`
    Inimage,
    /// `inchar`
    Inchar,
    /// `inint`
    Inint,
    /// `lastitem`
    Lastitem,
}

/// A call on an input or an output that is refused.
#[inline(always)]
pub fn refused(fault: IoFault) -> Came
    ensures { result ≡ refused_as fault }
{
    match fault {
        IoFault::Run(error) => Came::Fault(error),
        IoFault::InputFault => Came::InputFault,
        IoFault::WriteFault => Came::WriteFault,
    }
}

/// Reads the input.
#[tactic(auto, using(crate::proofs::Unread::reads_none, crate::proofs::Taking::takes_none))]
#[inline(always)]
pub fn of_input<I: Source>(
    function: Reading,
    texts: &mut Texts,
    sysin: &mut InImage,
    input: &mut I,
) -> Came
    requires image { IsImage texts.old sysin.old.image }
    ensures came { (budget words : ℕ) (image : AnyText) (sink : Option (List ℕ)) (s : List ℕ) → I.left input.old ≡ Some s → (s2 : List ℕ) × (I.left input.new ≡ Some s2)
        × CameAs result budget (reading_name function) [] (parts texts.old sysin.old s image sink words) (parts texts.new sysin.new s2 image sink words) }
    ensures scalar { IsScalarCame result }
    ensures value { function ≡ Reading.Inimage → NoValue result }
    ensures unread { Unread (reading_name function) [] texts.old sysin.old input.old input.new }
    ensures faults { CameSource result (I.faults input.old) (I.faults input.new) }
    ensures valid { IsImage texts.new sysin.new.image }
    ensures same { sysin.new.image ≡ at_position sysin.old.image sysin.new.image.pos }
    ensures keeps { KeepsTexts texts.old texts.new }
    ensures images { KeepsImages texts.old texts.new }
{
    match function {
        Reading::Inimage => match sysin.inimage(texts, input) {
            Ok(()) => done(),
            Err(fault) => refused(fault),
        },
        Reading::Inchar => match sysin.inchar(texts, input) {
            Ok(c) => value(Slot::character(c)),
            Err(fault) => refused(fault),
        },
        Reading::Inint => match sysin.inint(texts, input) {
            Ok(z) => value(Slot::integer(z)),
            Err(fault) => refused(fault),
        },
        Reading::Lastitem => match sysin.lastitem(texts, input) {
            Ok(last) => value(Slot::truth(last)),
            Err(fault) => refused(fault),
        },
    }
}

/// `intext`.
#[tactic(auto, using(crate::proofs::Unread::reads_none, crate::proofs::Taking::takes_none))]
#[inline(always)]
pub fn intext<I: Source>(
    n: i64,
    budget: u64,
    words: &mut u64,
    texts: &mut Texts,
    sysin: &mut InImage,
    input: &mut I,
) -> Came
    requires image { IsImage texts.old sysin.old.image }
    ensures came { (image : AnyText) (sink : Option (List ℕ)) (s : List ℕ) → I.left input.old ≡ Some s → (s2 : List ℕ) × (I.left input.new ≡ Some s2)
        × CameAs result budget name.Intext (Integer n ∷ []) (parts texts.old sysin.old s image sink words.old) (parts texts.new sysin.new s2 image sink words.new) }
    ensures unread { Unread name.Intext (Of (Integer n) ∷ []) texts.old sysin.old input.old input.new }
    ensures takes { (image : AnyText) (sink : Option (List ℕ)) (s : List ℕ) → I.left input.old ≡ Some s → CallTakes budget name.Intext (Integer n ∷ []) (parts texts.old sysin.old s image sink words.old) input.old input.new }
    ensures scalar { IsScalarCame result }
    ensures faults { CameSource result (I.faults input.old) (I.faults input.new) }
    ensures valid { IsImage texts.new sysin.new.image }
    ensures same { sysin.new.image ≡ at_position sysin.old.image sysin.new.image.pos }
    ensures keeps { KeepsTexts texts.old texts.new }
    ensures images { KeepsImages texts.old texts.new }
{
    if n < 0 {
        return Came::Fault(RunError::NegativeLength);
    }
    let Some(room) = room(budget, *words) else {
        return Came::Memory;
    };
    let taken = words_for(n);
    match sysin.intext(texts, input, n, room) {
        Ok(text) => {
            *words = words.saturating_add(taken);
            value(Slot::text(text))
        }
        Err(fault) => unread(fault, taken, words),
    }
}

// A text that could not be made, though its length is not below 0.
#[inline(always)]
fn unfit(fault: TextFault) -> Came
    ensures { result ≡ unfit_as fault }
{
    match fault {
        TextFault::Full { wanted } => Came::Full { wanted },
        _ => Came::Memory,
    }
}

// A text that could not be made or read. One that was made has taken its words.
#[inline(always)]
fn unread(fault: IntextFault, taken: u64, words: &mut u64) -> Came
    ensures came { result ≡ unread_as fault }
    ensures words { words.new ≡ words_after fault words.old taken }
{
    match fault {
        IntextFault::NotRead(fault) => {
            *words = words.saturating_add(taken);
            refused(fault)
        }
        IntextFault::NoText(fault) => unfit(fault),
    }
}
