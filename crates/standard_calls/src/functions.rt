//! Functions that only give a value.
ghost use Rattle.std.specs.Prelude.{◌≡◌, ℕ, List, Option, Some, Result};
ghost use Rattle.sim_base.specs.declared.run_error.RunError.{RunError as AnyError};
ghost use Rattle.sim_values.specs.declared.standard.Standard.{Standard};
ghost use Rattle.sim_values.specs.Plain.{Plain, Integer, Character, Text};
ghost use Rattle.sim_values.specs.Store.{computes, gives as gives_value};
ghost use Rattle.sim_code.specs.Machine.{plain};
ghost use Rattle.frame_arena.specs.Slots.{value_of};
ghost use Rattle.standard_calls.specs.Calls.{CameAs, EffectIs, IfCameMoved, IsScalar, IsScalarCame, QuietCame};
ghost use Rattle.standard_calls.specs.Performed.{Parts, store_of};

use crate::came::{Came, value};
use frame_arena::Slot;
use sim_base::RunError;
use sim_values::TextVal;

/// A name that gives this value.
#[inline(always)]
pub fn given(slot: Slot) -> Came
    requires scalar { IsScalar slot }
    ensures came { (budget : ℕ) (name : Standard) (vs : List Plain) (p : Parts) (q : Plain) → plain (value_of slot) ≡ Some q → EffectIs name vs p (λ written. gives_value q (store_of p written)) → CameAs result budget name vs p p }
    ensures scalar { IsScalarCame result }
    ensures quiet { QuietCame result }
    ensures unmoved { IfCameMoved result ⊥ }
{
    value(slot)
}

/// A name that gives an integer, or a run-time error.
#[inline(always)]
pub fn integer_came(answer: Result<i64, RunError>) -> Came
    ensures came { (budget : ℕ) (name : Standard) (vs : List Plain) (p : Parts) → EffectIs name vs p (λ written. computes Integer answer (store_of p written)) → CameAs result budget name vs p p }
    ensures scalar { IsScalarCame result }
    ensures quiet { QuietCame result }
    ensures unmoved { IfCameMoved result ⊥ }
{
    match answer {
        Ok(z) => value(Slot::integer(z)),
        Err(error) => Came::Fault(error),
    }
}

/// A name that gives a character, or a run-time error.
#[inline(always)]
pub fn character_came(answer: Result<u8, RunError>) -> Came
    ensures came { (budget : ℕ) (name : Standard) (vs : List Plain) (p : Parts) → EffectIs name vs p (λ written. computes Character answer (store_of p written)) → CameAs result budget name vs p p }
    ensures scalar { IsScalarCame result }
    ensures quiet { QuietCame result }
    ensures unmoved { IfCameMoved result ⊥ }
{
    match answer {
        Ok(c) => value(Slot::character(c)),
        Err(error) => Came::Fault(error),
    }
}

/// A name that gives a text, or a run-time error.
#[inline(always)]
pub fn text_came(answer: Result<TextVal, RunError>) -> Came
    ensures came { (budget : ℕ) (name : Standard) (vs : List Plain) (p : Parts) → EffectIs name vs p (λ written. computes Text answer (store_of p written)) → CameAs result budget name vs p p }
    ensures scalar { IsScalarCame result }
    ensures quiet { QuietCame result }
{
    match answer {
        Ok(t) => value(Slot::text(t)),
        Err(error) => Came::Fault(error),
    }
}
