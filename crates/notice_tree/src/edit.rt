//! How a notice comes into a tree, and how it goes.
ghost use Rattle.std.specs.Prelude.{◌≡◌, ◌+◌, ◌<◌, ◌≤◌, ℕ, List, ◌∷◌, ◌++◌, Option, Some, length, if◌then◌else◌};
ghost use Rattle.std.specs.List.{sum_by};
ghost use Rattle.notices.specs.declared.notice.Notice.{Notice};
ghost use Rattle.notices.specs.declared.notice.ProcessNo.{ProcessNo};
ghost use Rattle.notices.specs.Notices.{removed};
ghost use Rattle.notices.specs.Schedule.{IsOnce, IsSchedule};
ghost use Rattle.notice_tree.specs.Nodes.{linked_at};
ghost use Rattle.notice_tree.specs.Trees.{Tree, Branch, total, one, one_of, IsBalanced, Stands};
ghost use Rattle.notice_tree.specs.Balance.{AreMerged};
ghost use Rattle.notice_tree.specs.Held.{IsHeld, IsOpen};

use crate::balance::balance;
use crate::climb::climb;
use crate::node::{Node, VACANT, hang, node_at, write_node};
use crate::spot::{Aim, Spot, seek};
use notices::ProcessNo;

/// A node with another child on one side.
fn with_child(mut node: Node, on_left: bool, child: Option<ProcessNo>) -> Node
    ensures { result ≡ (if on_left then record node { left = child } else record node { right = child }) }
{
    if on_left {
        node.left = child;
        return node;
    }
    node.right = child;
    node
}

/// Hangs a node under that of a place, if there is one.
fn link(nodes: &mut [Node], spot: Spot, process: ProcessNo)
    ensures { nodes.new ≡ linked_at nodes.old spot.parent spot.on_left process }
{
    if let Some(up) = spot.parent {
        let node = with_child(node_at(nodes, up), spot.on_left, Some(process));
        write_node(nodes, up, node);
    }
}

/// Puts a notice of `process` into an empty place. Answers the root.
pub fn insert(nodes: &mut [Node], spot: Spot, process: ProcessNo, time: i64) -> Option<ProcessNo>
    ensures { (front back : List Notice) → IsOpen nodes.old spot front back → process.0 < length nodes.old → IsOnce (front ++ back) → sum_by (one_of process.0) (front ++ back) ≡ 0 → length (front ++ back) < length nodes.old → IsHeld nodes.new result (front ++ record { time = time; process = process } ∷ back) }
{
    let leaf = Node {
        time: Some(time),
        left: None,
        right: None,
        parent: None,
        height: 1,
    };
    write_node(nodes, process, leaf);
    link(nodes, spot, process);
    let root = climb(nodes, process, Some(process), spot.parent, None);
    hang(nodes, root, None);
    root
}

/// Makes one tree of the two that are under a node: the first node of the right one comes between the rest of it and the left one.
fn merge(nodes: &mut [Node], process: ProcessNo) -> Option<ProcessNo>
    ensures { (parent : Option ProcessNo) (l r : Tree) (n : Notice) → Stands nodes.old parent (Branch l n r) → n.process ≡ process → IsBalanced (Branch l n r) → ((x : ℕ) → total (one_of x) (Branch l n r) ≤ 1) → total one (Branch l n r) ≤ length nodes.old → AreMerged nodes.old nodes.new l n r result }
{
    let node = node_at(nodes, process);
    if node.right.is_none() {
        return node.left;
    }
    let spot = Spot {
        parent: Some(process),
        on_left: false,
    };
    let place = seek(nodes, spot, node.right, Aim::First);
    let next = place.parent.unwrap_or(process);
    let first = node_at(nodes, next);
    let rest = climb(nodes, next, first.right, first.parent, Some(process));
    Some(balance(nodes, node.left, next, rest))
}

/// Removes the notice of a process that has one. Answers the root.
fn remove(nodes: &mut [Node], process: ProcessNo) -> Option<ProcessNo>
    ensures { (root : Option ProcessNo) (l : List Notice) → IsHeld nodes.old root l → IsSchedule l (length nodes.old) → 1 ≤ sum_by (one_of process.0) l → IsHeld nodes.new result (removed process.0 l) }
{
    let parent = node_at(nodes, process).parent;
    let below = merge(nodes, process);
    write_node(nodes, process, VACANT);
    let root = climb(nodes, process, below, parent, None);
    hang(nodes, root, None);
    root
}

/// Removes the notice of a process, if it has one. Answers the root.
pub fn take_out(
    nodes: &mut [Node],
    root: Option<ProcessNo>,
    process: ProcessNo,
) -> Option<ProcessNo>
    ensures { (l : List Notice) → IsHeld nodes.old root l → IsSchedule l (length nodes.old) → IsHeld nodes.new result (removed process.0 l) }
{
    if node_at(nodes, process).time.is_none() {
        root
    } else {
        remove(nodes, process)
    }
}
