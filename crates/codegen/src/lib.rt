//! Code of programs: which code stands for which part of a program, and the compiler that writes it.
#![tactic(auto)]

mod activations;
mod arrays;
mod calls;
mod class_texts;
mod connections;
mod elements;
mod frames;
pub mod laws;
mod leaves;
mod left;
mod level_records;
mod levels;
mod lists;
mod matches;
mod measure;
mod own_matches;
mod places;
mod plan;
mod prefixed;
mod processes;
mod program;
mod records;
mod references;
mod several;
mod statement;
mod targets;
mod texts;
mod transfers;

pub use program::compile;
pub use records::holds_class;
