//! Expressions: the tree that the grammar gives, or the first bad token, or the first one that nests too deeply.
#![tactic(auto)]

mod level;
mod lists;
mod operators;
mod parser;
mod refusal;
mod signs;
mod source;

pub use level::Level;
pub use lists::add;
pub use parser::{LIMIT, arguments, expression, parse_expr, postfix, selectors};
pub use refusal::{Stop, SyntaxRefusal};
pub use signs::leading_sign;
pub use source::{Source, kind_at_token};
