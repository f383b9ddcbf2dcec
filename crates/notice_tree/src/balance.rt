//! Rotations: how a tree stays balanced, so that no way from its root is long.
ghost use Rattle.std.specs.Prelude.{◌≡◌, ◌+◌, ◌<◌, ◌≤◌, Some, MatchOption};
ghost use Rattle.notices.specs.declared.notice.Notice.{Notice};
ghost use Rattle.notice_tree.specs.Nodes.{height_at};
ghost use Rattle.notice_tree.specs.Trees.{Tree, Branch, height};
ghost use Rattle.notice_tree.specs.Balance.{AreParts, AreJoined};

use crate::node::{Node, height_at, join, node_at};
use notices::ProcessNo;

/// The root of a tree, where it is higher than another by more than `slack`.
fn if_higher(
    nodes: &[Node],
    link: Option<ProcessNo>,
    other: Option<ProcessNo>,
    slack: usize,
) -> Option<ProcessNo>
    ensures { MatchOption result (height_at nodes.now link ≤ height_at nodes.now other + slack) (λ x. (link ≡ Some x) × (height_at nodes.now other + slack < height_at nodes.now link)) }
{
    if height_at(nodes, link).saturating_sub(height_at(nodes, other)) > slack {
        link
    } else {
        None
    }
}

/// Makes one tree, where the left part, whose root is `top`, is too high by one.
fn rotate_right(
    nodes: &mut [Node],
    top: ProcessNo,
    process: ProcessNo,
    right: Option<ProcessNo>,
) -> ProcessNo
    ensures { (a b r : Tree) (m n : Notice) → AreParts nodes.old (Some top) process right (Branch a m b) n r → height (Branch a m b) ≡ height r + 2 → AreJoined nodes.old nodes.new (Branch a m b) n r result }
{
    let node = node_at(nodes, top);
    match if_higher(nodes, node.right, node.left, 0) {
        Some(middle) => {
            let between = node_at(nodes, middle);
            join(nodes, node.left, top, between.left);
            join(nodes, between.right, process, right);
            join(nodes, Some(top), middle, Some(process));
            middle
        }
        None => {
            join(nodes, node.right, process, right);
            join(nodes, node.left, top, Some(process));
            top
        }
    }
}

/// Makes one tree, where the right part, whose root is `top`, is too high by one.
fn rotate_left(
    nodes: &mut [Node],
    left: Option<ProcessNo>,
    process: ProcessNo,
    top: ProcessNo,
) -> ProcessNo
    ensures { (l b d : Tree) (n m : Notice) → AreParts nodes.old left process (Some top) l n (Branch b m d) → height (Branch b m d) ≡ height l + 2 → AreJoined nodes.old nodes.new l n (Branch b m d) result }
{
    let node = node_at(nodes, top);
    match if_higher(nodes, node.left, node.right, 0) {
        Some(middle) => {
            let between = node_at(nodes, middle);
            join(nodes, left, process, between.left);
            join(nodes, between.right, top, node.right);
            join(nodes, Some(process), middle, Some(top));
            middle
        }
        None => {
            join(nodes, left, process, node.left);
            join(nodes, Some(process), top, node.right);
            top
        }
    }
}

/// Makes one balanced tree of two whose heights differ by at most two, with the notice of a process between them. Answers its root.
pub fn balance(
    nodes: &mut [Node],
    left: Option<ProcessNo>,
    process: ProcessNo,
    right: Option<ProcessNo>,
) -> ProcessNo
    ensures { (l r : Tree) (n : Notice) → AreParts nodes.old left process right l n r → height l ≤ height r + 2 → height r ≤ height l + 2 → AreJoined nodes.old nodes.new l n r result }
{
    match if_higher(nodes, left, right, 1) {
        Some(top) => rotate_right(nodes, top, process, right),
        None => match if_higher(nodes, right, left, 1) {
            Some(top) => rotate_left(nodes, left, process, top),
            None => {
                join(nodes, left, process, right);
                process
            }
        },
    }
}
