//! Connections: the class of each one, and what is seen through it.
#![tactic(auto)]

mod connecting;
mod scope;

pub use connecting::connections;
pub use scope::{Scope, connect};
