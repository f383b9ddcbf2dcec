//! Scopes: what a program declares, in block tables, and what its identifiers denote. And the plain definitions on which the static
//! rules above and the meaning of programs rest.
#![tactic(auto)]

mod access;
mod along;
mod bound;
mod building;
mod declaring;
mod formals;
mod found;
mod headings;
pub mod laws;
mod levels;
mod names;
mod outcome;
mod parts;
mod provided;
mod providing;
mod refusal;
mod scopes;
mod search;
mod standard;
mod types;

pub use access::{
    accessible, block_at, encloser, first_around, has_detach_at, hidden_outside, hides,
    is_class_text, is_connection_block, is_standard_class_block, names_hidden, protector, protects,
    some_around,
};
pub use along::{first_along, some_along};
pub use bound::Bound;
pub use declaring::{Declared, declare};
pub use formals::{class_formal, class_formals_count, formals_at};
pub use found::{Fault, Found, lesser, precedes};
pub use levels::{
    base, class_block, first_level, has_classes, has_level, has_simulation, has_standard,
    has_standard_class, has_standard_prefix, holds_class, is_for_prefixing, is_in_chain,
    is_simulation_block, on_one_chain, owner_of_level, shared_class, simulation_level, some_level,
};
pub use names::Names;
pub use outcome::{
    Actual, Actuals, Barred, Extent, Fit, LeftSides, Occurrence, Outcome, Parameter, Side,
};
pub use refusal::StaticRefusal;
pub use scopes::{Block, Declaration, Denotation, Protection, Qualification, Scopes};
pub use search::{
    binding, binding_and_block, brought_by, declaration_from, declared_or_standard, entry_of,
    found_in, is_detach, is_passed_over, level_shows, lookup, outward, represented, shown,
    standard_at, virtual_of,
};
pub use standard::{
    Place, Signature, StandardName, standard_name, standard_prefix, sysin_attribute,
    sysout_attribute, text_attribute, undeclared,
};
pub use types::{
    BlockKind, Entry, Formal, FormalKind, Mode, Position, SimType, StandardClass, StandardPrefix,
    WrittenMode,
};
