//! Names of texts, and those that make texts.
ghost use Rattle.std.specs.Prelude.{◌≡◌, ◌-◌, ◌≤◌, ◌<◌, ◌∷◌, [], ℕ, ℤ, List, Option, Some, None, Ok, Err, IfSome, length};
ghost use Rattle.sim_values.specs.declared.standard.Standard.{Standard};
ghost use Rattle.sim_values.specs.declared.standard.Standard.TheVariants as name;
ghost use Rattle.sim_values.specs.declared.value.TextVal.{TextVal as AnyText};
ghost use Rattle.sim_values.specs.Plain.{Plain, Integer, Character, Text};
ghost use Rattle.sim_values.specs.Store.{changes, makes, moves, unvalued, valued};
ghost use Rattle.sim_values.specs.Texts.{Frame, IsText, KeepsTexts, Making, TextStep, outcome};
ghost use Rattle.sim_values.specs.Words.{count_from, text_words};
ghost use Rattle.basic_io.specs.Input.{HeldInput};
ghost use Rattle.standard_calls.specs.Calls.{CameAs, EffectIs, IsScalarCame, KeepsImages, MakesWithin, QuietCame, unmade_as};
ghost use Rattle.standard_calls.specs.Performed.{Parts, parts, store_of};

use crate::came::{Came, value};
use crate::functions::text_came;
use frame_arena::Slot;
use sim_base::RunError;
use sim_values::{TextVal, words_text};
use text_objects::{TextFault, Texts};

/// The most words that are used for one text.
const MOST_ROOM: u64 = 50_000_000;

/// The words that are left, if they are so few as a run can have.
#[inline(always)]
pub fn room(budget: u64, words: u64) -> Option<u64>
    ensures room { IfSome result (λ n. (n ≡ budget - words) × (words ≤ budget) × (n ≤ 50000000)) }
{
    if words > budget || budget - words > MOST_ROOM {
        return None;
    }
    Some(budget - words)
}

/// The words of a new text of so many characters; none for a number below 0.
#[inline(always)]
pub fn words_for(count: i64) -> u64
    ensures words { result ≡ text_words (count_from count) }
{
    if count < 0 {
        0
    } else {
        words_text(count as u64)
    }
}

/// A text that was not made.
#[inline(always)]
pub fn unmade(fault: TextFault) -> Came
    ensures came { result ≡ unmade_as fault }
    ensures scalar { IsScalarCame result }
    ensures quiet { QuietCame result }
{
    match fault {
        TextFault::Run(error) => Came::Fault(error),
        TextFault::Full { wanted } => Came::Full { wanted },
        TextFault::Memory => Came::Memory,
    }
}

/// A name that makes a text of so many words.
#[inline(always)]
pub fn made(answer: Result<TextVal, TextFault>, taken: u64, budget: u64, words: &mut u64) -> Came
    requires within { words.old ≤ budget }
    ensures came { (name : Standard) (vs : List Plain) (old new : List Frame) (making : Making) (input : HeldInput) (source : List ℕ) (image : AnyText) (sink : Option (List ℕ)) →
        MakesWithin taken making (budget - words.old) old new answer → EffectIs name vs (parts old input source image sink words.old) (λ written. makes making (store_of (parts old input source image sink words.old) written)) →
        CameAs result budget name vs (parts old input source image sink words.old) (parts new input source image sink words.new) }
    ensures scalar { IsScalarCame result }
    ensures quiet { QuietCame result }
{
    match answer {
        Ok(text) => {
            *words = words.saturating_add(taken);
            value(Slot::text(text))
        }
        Err(fault) => unmade(fault),
    }
}

/// A call that has moved a text, or is refused.
#[inline(always)]
pub fn moved(answer: Result<(), RunError>, text: TextVal) -> Came
    ensures came { (budget : ℕ) (name : Standard) (vs : List Plain) (p : Parts) (frames : List Frame) (step : TextStep (Unit {0})) →
        step ≡ outcome frames text answer → EffectIs name vs p (λ written. moves unvalued step (store_of p written)) → CameAs result budget name vs p (record p { frames = frames }) }
    ensures scalar { IsScalarCame result }
    ensures quiet { QuietCame result }
{
    match answer {
        Ok(()) => Came::Done {
            value: None,
            moved: Some(text),
        },
        Err(error) => Came::Fault(error),
    }
}

/// A call that has moved a text and gives a character, or is refused.
#[inline(always)]
pub fn moved_character(answer: Result<u8, RunError>, text: TextVal) -> Came
    ensures came { (budget : ℕ) (name : Standard) (vs : List Plain) (p : Parts) (frames : List Frame) (step : TextStep ℕ) →
        step ≡ outcome frames text answer → EffectIs name vs p (λ written. moves (valued Character) step (store_of p written)) → CameAs result budget name vs p (record p { frames = frames }) }
    ensures scalar { IsScalarCame result }
    ensures quiet { QuietCame result }
{
    match answer {
        Ok(c) => Came::Done {
            value: Some(Slot::character(c)),
            moved: Some(text),
        },
        Err(error) => Came::Fault(error),
    }
}

/// A call that has moved a text and gives an integer, or is refused.
#[inline(always)]
pub fn moved_integer(answer: Result<i64, RunError>, text: TextVal) -> Came
    ensures came { (budget : ℕ) (name : Standard) (vs : List Plain) (p : Parts) (frames : List Frame) (step : TextStep ℤ) →
        step ≡ outcome frames text answer → EffectIs name vs p (λ written. moves (valued Integer) step (store_of p written)) → CameAs result budget name vs p (record p { frames = frames }) }
    ensures scalar { IsScalarCame result }
    ensures quiet { QuietCame result }
{
    match answer {
        Ok(z) => Came::Done {
            value: Some(Slot::integer(z)),
            moved: Some(text),
        },
        Err(error) => Came::Fault(error),
    }
}

/// A call that has changed characters and gives a text, or is refused.
#[inline(always)]
pub fn changed(answer: Result<TextVal, RunError>) -> Came
    ensures came { (budget : ℕ) (name : Standard) (vs : List Plain) (p : Parts) (frames : List Frame) (t : AnyText) (step : TextStep AnyText) →
        step ≡ outcome frames t answer → EffectIs name vs p (λ written. changes step (store_of p written)) → CameAs result budget name vs p (record p { frames = frames }) }
    ensures scalar { IsScalarCame result }
    ensures quiet { QuietCame result }
{
    match answer {
        Ok(text) => value(Slot::text(text)),
        Err(error) => Came::Fault(error),
    }
}

/// `getchar`.
#[inline(always)]
pub fn getchar(text: TextVal, texts: &Texts) -> Came
    requires text { IsText texts.now text }
    ensures came { (budget : ℕ) (p : Parts) → p.frames ≡ texts.now → CameAs result budget name.TextGetchar (Text text ∷ []) p (record p { frames = texts.now }) }
    ensures scalar { IsScalarCame result }
    ensures quiet { QuietCame result }
{
    let mut t = text;
    let answer = texts.getchar(&mut t);
    moved_character(answer, t)
}

/// `setpos`.
#[inline(always)]
pub fn setpos(text: TextVal, i: i64, texts: &Texts) -> Came
    requires text { IsText texts.now text }
    ensures came { (budget : ℕ) (p : Parts) → p.frames ≡ texts.now → CameAs result budget name.TextSetpos (Integer i ∷ Text text ∷ []) p (record p { frames = texts.now }) }
    ensures scalar { IsScalarCame result }
    ensures quiet { QuietCame result }
{
    let mut t = text;
    texts.setpos(&mut t, i);
    moved(Ok(()), t)
}

/// `putint`.
#[inline(always)]
pub fn putint(text: TextVal, i: i64, texts: &mut Texts) -> Came
    requires text { IsText texts.old text }
    ensures came { (budget : ℕ) (p : Parts) → p.frames ≡ texts.old → CameAs result budget name.TextPutint (Integer i ∷ Text text ∷ []) p (record p { frames = texts.new }) }
    ensures scalar { IsScalarCame result }
    ensures quiet { QuietCame result }
    ensures keeps { KeepsTexts texts.old texts.new }
    ensures images { KeepsImages texts.old texts.new }
{
    let mut t = text;
    let answer = texts.putint(&mut t, i);
    moved(answer, t)
}

/// `putchar`.
#[inline(always)]
pub fn putchar(text: TextVal, c: u8, texts: &mut Texts) -> Came
    requires text { IsText texts.old text }
    ensures came { (budget : ℕ) (p : Parts) → p.frames ≡ texts.old → CameAs result budget name.TextPutchar (Character c ∷ Text text ∷ []) p (record p { frames = texts.new }) }
    ensures scalar { IsScalarCame result }
    ensures quiet { QuietCame result }
    ensures keeps { KeepsTexts texts.old texts.new }
    ensures images { KeepsImages texts.old texts.new }
{
    let mut t = text;
    let answer = texts.putchar(&mut t, c);
    moved(answer, t)
}

/// `sub`.
#[inline(always)]
pub fn sub(text: TextVal, i: i64, n: i64, texts: &Texts) -> Came
    requires text { IsText texts.now text }
    ensures came { (budget : ℕ) (p : Parts) → CameAs result budget name.TextSub (Integer n ∷ Integer i ∷ Text text ∷ []) p p }
    ensures scalar { IsScalarCame result }
    ensures quiet { QuietCame result }
{
    text_came(texts.sub(text, i, n))
}
