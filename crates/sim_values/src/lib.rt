//! Values, operators, standard names, arithmetic and storage words, with the definitions of texts, images and standard
//! procedures that the layers above cite.
#![tactic(auto)]

mod arithmetic;
mod characters;
mod kind;
pub mod laws;
mod operators;
mod standard;
mod value;
mod words;

pub use arithmetic::{
    absolute, add, div, greater, modulo, mul, negate, pow, remainder, sign, smaller, step_goes_on,
    sub, with_sign,
};
pub use characters::{character, digit, letter, rank};
pub use kind::Kind;
pub use operators::{Calculation, Comparison, Connective, Dyadic, Monadic};
pub use standard::{Owner, STANDARD_NAMES, Standard, StandardType};
pub use value::{ArrayRef, FrameRef, Place, TextVal, Value};
pub use words::{is_exhausted, words_array, words_instance, words_text};
