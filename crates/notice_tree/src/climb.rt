//! The way up: a tree is made balanced again from a place where something came or went.
ghost use Rattle.std.specs.Prelude.{◌≡◌, ℕ, List, ◌∷◌, Option, Some, true};
ghost use Rattle.notice_tree.specs.Trees.{Tree, Step};
ghost use Rattle.notices.specs.declared.notice.ProcessNo.{ProcessNo};
ghost use Rattle.notice_tree.specs.Climb.{IsGap, IsOneUp, IsSettled, IsUp, IsWhole};
ghost use Rattle.notice_tree.specs.Nodes.{node_at};

use crate::balance::balance;
use crate::node::{Node, node_at};
use notices::ProcessNo;

/// Joins the tree at `below`, in the place of the node `from`, with the node above it and the tree beside it.
fn join_above(
    nodes: &mut [Node],
    process: ProcessNo,
    from: ProcessNo,
    below: Option<ProcessNo>,
) -> ProcessNo
    ensures { (stop : Option ProcessNo) (step : Step) (way : List Step) (t : Tree) (h : ℕ) → IsGap nodes.old from below (Some process) stop (step ∷ way) t h → IsOneUp nodes.old nodes.new step t result }
{
    let node = node_at(nodes, process);
    if node.left == Some(from) {
        balance(nodes, below, process, node.right)
    } else {
        balance(nodes, node.left, process, below)
    }
}

// Whether the root of what came to the place of a node is that node again, under the same parent and as high as before.
fn is_as_before(nodes: &[Node], root: ProcessNo, process: ProcessNo, before: Node) -> bool
    ensures { result ≡ true → (root ≡ process) × ((node_at nodes.now process.0).parent ≡ before.parent) × ((node_at nodes.now process.0).height ≡ before.height) }
{
    let node = node_at(nodes, process);
    root == process && node.parent == before.parent && node.height == before.height
}

// One step up, to the node above the place. Where the tree at `below` is settled, nothing is to be done. Answers the root there, and whether the
// tree is settled.
fn step_up(
    nodes: &mut [Node],
    process: ProcessNo,
    from: ProcessNo,
    below: Option<ProcessNo>,
    settled: bool,
) -> (ProcessNo, bool)
    ensures { (stop : Option ProcessNo) (step : Step) (way : List Step) (t : Tree) (h : ℕ) → IsGap nodes.old from below (Some process) stop (step ∷ way) t h → (settled ≡ true → IsSettled nodes.old from (Some process) t h) → IsUp nodes.old nodes.new step t process result.0 h result.1 }
{
    if settled {
        return (process, true);
    }
    let before = node_at(nodes, process);
    let root = join_above(nodes, process, from, below);
    (root, is_as_before(nodes, root, process, before))
}

/// Puts the tree at `below` in the place of the node `from`, which was under `parent`, and makes the whole tree balanced, up to the
/// root that is under `stop`. Answers the root. Above the first tree that has the root and the height of the one that was there nothing changes.
pub fn climb(
    nodes: &mut [Node],
    mut from: ProcessNo,
    mut below: Option<ProcessNo>,
    mut parent: Option<ProcessNo>,
    stop: Option<ProcessNo>,
) -> Option<ProcessNo>
    ensures { (way : List Step) (t : Tree) (h : ℕ) → IsGap nodes.old from below parent stop way t h → IsWhole nodes.old nodes.new result way t h }
{
    let mut settled = false;
    // A way has no more steps than there are nodes.
    for _step in 0..nodes.len() {
        if parent == stop {
            return below;
        }
        let Some(process) = parent else {
            return below;
        };
        parent = node_at(nodes, process).parent;
        let (root, stays) = step_up(nodes, process, from, below, settled);
        below = Some(root);
        from = process;
        settled = stays;
    }
    below
}
