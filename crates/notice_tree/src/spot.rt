//! Places of a tree where a notice can come: what stands in front of them, and what behind.
ghost use Rattle.std.specs.Prelude.{◌≡◌, ◌≢◌, ◌≤◌, ℕ, List, Option, Some, None, true, false, length, if◌then◌else◌};
ghost use Rattle.notices.specs.declared.notice.Notice.{Notice};
ghost use Rattle.notices.specs.declared.notice.ProcessNo.{ProcessNo};
ghost use Rattle.notice_tree.specs.Nodes.{node_at};
ghost use Rattle.notice_tree.specs.Trees.{Tree, Step, in_order, top, total, one, one_of, after, way_total, Stands, WayStands};
ghost use Rattle.notice_tree.specs.Spots.{stands_in_front, IsParted, SideIs, IsSought, first_process};

use crate::node::{Node, node_at};
use notices::ProcessNo;

/// Where a new notice comes among those of a tree.
#[derive(Clone, Copy, Debug, PartialEq, Eq)]
pub enum Aim {
    /// Before all.
    First,
    /// After all.
    Last,
    /// After those of this time or less, or, with `prior`, before those of this time.
    At { time: i64, prior: bool },
}

/// A place under a node, on its left or on its right; with no node, the place of the root.
#[derive(Clone, Copy, Debug, PartialEq, Eq)]
pub struct Spot {
    pub parent: Option<ProcessNo>,
    pub on_left: bool,
}

/// Whether a notice of a time stands in front of a new one.
fn is_in_front(aim: Aim, time: Option<i64>) -> bool
    ensures { (n : Notice) → time ≡ Some n.time → result ≡ stands_in_front aim n }
{
    match aim {
        Aim::First => false,
        Aim::Last => true,
        Aim::At { time: limit, prior } => match time {
            None => false,
            Some(time) => if prior { time < limit } else { time <= limit },
        },
    }
}

/// The node below, on one side.
fn child(node: &Node, on_left: bool) -> Option<ProcessNo>
    ensures { result ≡ (if on_left then node.now.left else node.now.right) }
{
    if on_left { node.left } else { node.right }
}

/// The empty place for a new notice in the tree at `link`, which hangs in the place `spot`.
pub fn seek(nodes: &[Node], mut spot: Spot, mut link: Option<ProcessNo>, aim: Aim) -> Spot
    ensures { (stop : Option ProcessNo) (way : List Step) (t : Tree) → WayStands nodes.now stop link way spot.parent → SideIs spot.on_left way → Stands nodes.now spot.parent t → top t ≡ link → IsParted aim t → total one t ≤ length nodes.now → IsSought nodes.now stop aim way t result }
{
    // A way has no more steps than there are nodes.
    for _step in 0..nodes.len() {
        let Some(process) = link else {
            return spot;
        };
        let node = node_at(nodes, process);
        let on_left = !is_in_front(aim, node.time);
        link = child(&node, on_left);
        spot = Spot {
            parent: Some(process),
            on_left,
        };
    }
    spot
}

/// The place of a node.
pub fn spot_of(nodes: &[Node], process: ProcessNo) -> Spot
    ensures parent { result.parent ≡ (node_at nodes.now process.0).parent }
    ensures left { (up : ProcessNo) → result.parent ≡ Some up → result.on_left ≡ true → (node_at nodes.now up.0).left ≡ Some process }
    ensures right { (up : ProcessNo) → result.parent ≡ Some up → result.on_left ≡ false → (node_at nodes.now up.0).left ≢ Some process }
{
    let parent = node_at(nodes, process).parent;
    let on_left = match parent {
        None => true,
        Some(up) => node_at(nodes, up).left == Some(process),
    };
    Spot { parent, on_left }
}

/// The process of the first notice behind a place.
pub fn follower(nodes: &[Node], mut spot: Spot) -> Option<ProcessNo>
    ensures { (link : Option ProcessNo) (way : List Step) → WayStands nodes.now None link way spot.parent → SideIs spot.on_left way → ((x : ℕ) → way_total (one_of x) way ≤ 1) → way_total one way ≤ length nodes.now → result ≡ first_process (after way) }
{
    // A way has no more steps than there are nodes.
    for _step in 0..nodes.len() {
        if spot.on_left {
            return spot.parent;
        }
        let Some(process) = spot.parent else {
            return None;
        };
        spot = spot_of(nodes, process);
    }
    spot.parent
}
