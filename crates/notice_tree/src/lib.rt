//! Event notices in a balanced tree.
#![tactic(auto)]

mod balance;
mod climb;
mod edit;
mod node;
mod order;
mod spot;
mod tree;

pub use tree::NoticeTree;
