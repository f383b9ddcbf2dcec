//! The tables on the texts of a program, made once.
#![tactic(auto)]

mod by_token;
mod constants;
mod formals;
mod numbers;
mod places;
mod tables;
mod texts;

pub use by_token::{declarations_by_token, declared_at};
pub use tables::cells_of;
pub use texts::constant_texts;
