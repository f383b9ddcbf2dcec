//! The lexer: from the bytes of a source to its tokens.
#![tactic(auto)]

mod bytes;
mod constants;
mod end_comments;
mod item;
mod joining;
mod laws;
mod position;
mod refusal;
mod signs;
mod spelling;
mod texts;
mod words;

pub use laws::{longest_number, longest_sign, longest_word, one_reading, places_and_lines};
pub use refusal::LexRefusal;
pub use spelling::{SOURCE_LIMIT, lex};
