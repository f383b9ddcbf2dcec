//! A set of event notices as a balanced tree.
ghost use Rattle.std.specs.Prelude.{◌≡◌, ◌<◌, ◌≤◌, ◌+◌, ◌^◌, ℕ, [], length, OnOk};
ghost use Rattle.notice_tree.specs.Nodes.{node_at};

use crate::edit::take_out;
use crate::node::{Node, VACANT, height_at, node_at};
use crate::order::{first_event, next_process, put_at, put_beside, put_direct};
use notices::{NoticeSet, ProcessNo};
use sim_base::Memory;
use std::alloc::Global;
use std::marker::Model;

/// A set of event notices, kept as a balanced binary tree in the order of the events.
///
/// The node of each process stands at its number and is made by `reserve`; each node knows its parent, so that a notice is found by
/// its process. Every call but `reserve` takes a time that grows as the height, which is at most twice the binary logarithm of one more
/// than the number of notices.
#[derive(Debug, Drop)]
pub struct NoticeTree {
    nodes: Vec<Node>,
    root: Option<ProcessNo>,
}

// Clauses see the notices in their order, and the room, which is the number of nodes.
impl Model for NoticeTree {
    ghost use Rattle.std.specs.Prelude.{length};
    ghost use Rattle.notices.specs.Seen.{NoticeList};
    ghost use Rattle.notice_tree.specs.Trees.{in_order};
    ghost use Rattle.notice_tree.specs.Held.{tree_at, IsNoticeTree};

    ghost Value = { NoticeList };

    ghost view = { λ s. record { notices = in_order (tree_at s.nodes.items s.root); room = length s.nodes.items } };

    ghost invariant = { λ s. IsNoticeTree s.nodes.items s.root };
}

impl NoticeTree {
    /// The empty set, with no room. It takes no memory.
    pub fn new(alloc: Global) -> NoticeTree
        ensures { result.notices ≡ [] }
    {
        NoticeTree {
            nodes: Vec::new(alloc),
            root: None,
        }
    }

    /// The number of nodes on the longest way from the root, 0 of the empty tree.
    pub fn height(&self) -> usize
        ensures low { 2 ^ result ≤ (length self.now.notices + 1) ^ 2 }
        ensures enough { length self.now.notices < 2 ^ result }
    {
        height_at(&self.nodes, self.root)
    }
}

/// Makes nodes up to the number `n`.
fn make_nodes(nodes: &mut Vec<Node>, n: usize) -> Result<(), Memory>
    ensures same { (x : ℕ) → node_at nodes.new.items x ≡ node_at nodes.old.items x }
    ensures not_lower { length nodes.old.items ≤ length nodes.new.items }
    ensures reserved { OnOk result (n ≤ length nodes.new.items) }
{
    if n <= nodes.len() {
        return Ok(());
    }
    nodes.resize(n, VACANT)?;
    Ok(())
}

impl NoticeSet for NoticeTree {
    ghost notices = { λ s. s.notices };

    ghost room = { λ s. s.room };

    fn reserve(&mut self, n: usize) -> Result<(), Memory> {
        make_nodes(&mut self.nodes, n)
    }

    fn put_at(&mut self, time: i64, prior: bool, process: ProcessNo) {
        self.root = put_at(&mut self.nodes, self.root, time, prior, process);
    }

    fn put_direct(&mut self, process: ProcessNo) {
        self.root = put_direct(&mut self.nodes, self.root, process);
    }

    fn put_near(&mut self, process: ProcessNo, other: ProcessNo, before: bool) -> bool {
        let found = node_at(&self.nodes, other).time.is_some();
        if process == other {
            return found;
        }
        self.root = put_beside(&mut self.nodes, self.root, process, other, before);
        found
    }

    fn take_out(&mut self, process: ProcessNo) -> bool {
        let found = node_at(&self.nodes, process).time.is_some();
        self.root = take_out(&mut self.nodes, self.root, process);
        found
    }

    fn first(&self) -> Option<(i64, ProcessNo)> {
        first_event(&self.nodes, self.root)
    }

    fn next(&self, process: ProcessNo) -> Option<ProcessNo> {
        next_process(&self.nodes, process)
    }

    fn time_of(&self, process: ProcessNo) -> Option<i64> {
        node_at(&self.nodes, process).time
    }
}
