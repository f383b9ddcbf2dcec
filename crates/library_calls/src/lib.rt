//! Happy paths of the calls of the libraries that take memory, with ample of it, and what no clause says of their inputs. They stand
//! here, above all, so that a change of a test proves no other crate again, and a crate without tests is proved once.
#![tactic(auto)]

#[cfg(test)]
mod code_files;
#[cfg(test)]
mod code_runs;
#[cfg(test)]
mod images;
#[cfg(test)]
mod parameters;
#[cfg(test)]
mod scheduling;
#[cfg(test)]
mod texts;
