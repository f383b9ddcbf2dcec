//! What every layer shares: places in a source, tokens, the rules and run-time errors with their texts, and limits.
#![tactic(auto)]

mod byte_string;
mod limits;
mod memory;
mod numbering;
mod place;
mod rule;
mod run_error;
mod token;

pub use byte_string::ByteString;
pub use limits::Limits;
pub use memory::Memory;
pub use numbering::{DeclNo, InstNo, Line, TokenNo};
pub use place::line_of;
pub use rule::Rule;
pub use run_error::RunError;
pub use token::{Lexeme, Token, TokenKind, TokenValue};
