//! What an expression is: the declarations that it uses, the types of its parts, and the rules that it breaks.
#![tactic(auto)]

mod bindings;
mod calls;
mod chains;
mod expressions;
mod fit;
mod headings;
pub mod laws;
mod outcomes;
mod parameters;
mod references;
mod typing;

pub use bindings::{bound, used_in};
pub use chains::{common, subordinate};
pub use expressions::{actuals, judge, operand};
pub use fit::{is_reference, is_same, misfit_of};
pub use headings::{formal_of, formals_of, result_in};
pub use outcomes::{bars, called, either, is_standard_class, is_stream};
pub use parameters::{actual, formal_or_none, with_actual};
pub use references::{
    block_of_class, class_fits, class_named, class_type, formal_count, is_only_prefix,
};
pub use typing::type_of;
