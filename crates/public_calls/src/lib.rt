//! Tests of the public calls of the crates below: that they answer with ample memory, the ends that fail, and the deepest sources. They
//! stand here, above all, so that a change of a test proves no other crate again, and a crate without tests is proved once.
#![tactic(auto)]

#[cfg(test)]
mod adapters;
#[cfg(test)]
mod ample_memory;
#[cfg(test)]
mod code_commands;
#[cfg(test)]
mod executed;
#[cfg(test)]
mod failing_ends;
#[cfg(test)]
mod generated;
#[cfg(test)]
mod limited_runs;
#[cfg(test)]
mod matches;
#[cfg(test)]
mod nesting;
#[cfg(test)]
mod references;
#[cfg(test)]
mod top_call;
