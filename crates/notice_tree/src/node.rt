//! The nodes of a tree of event notices, one for each process.
ghost use Rattle.std.specs.Prelude.{◌≡◌, set};
ghost use Rattle.notice_tree.specs.Nodes.{node_at, height_at, hung, joined};

use notices::ProcessNo;

/// The node of a process. The nodes stand in a vector, the node of a process at its number; what hangs together is a binary tree.
#[derive(Clone, Copy, Debug, PartialEq, Eq)]
pub struct Node {
    /// The time of the notice, or none where the process has no notice and its node is in no tree.
    pub time: Option<i64>,
    pub left: Option<ProcessNo>,
    pub right: Option<ProcessNo>,
    pub parent: Option<ProcessNo>,
    /// The number of nodes on the longest way down, with this one.
    pub height: usize,
}

/// A node that is in no tree.
pub const VACANT: Node = Node {
    time: None,
    left: None,
    right: None,
    parent: None,
    height: 0,
};

/// The node of a process.
pub fn node_at(nodes: &[Node], process: ProcessNo) -> Node
    ensures { result ≡ node_at nodes.now process.0 }
{
    let place = process.0 as usize;
    if place < nodes.len() {
        nodes[place]
    } else {
        VACANT
    }
}

/// Writes the node of a process.
pub fn write_node(nodes: &mut [Node], process: ProcessNo, node: Node)
    ensures { nodes.new ≡ set nodes.old process.0 node }
{
    let place = process.0 as usize;
    if place < nodes.len() {
        nodes[place] = node;
    }
}

/// The height of the tree under a link.
pub fn height_at(nodes: &[Node], link: Option<ProcessNo>) -> usize
    ensures { result ≡ height_at nodes.now link }
{
    match link {
        None => 0,
        Some(process) => node_at(nodes, process).height,
    }
}

/// Hangs the tree under a link under another node, or under none.
pub fn hang(nodes: &mut [Node], link: Option<ProcessNo>, parent: Option<ProcessNo>)
    ensures { nodes.new ≡ hung nodes.old link parent }
{
    if let Some(process) = link {
        let mut node = node_at(nodes, process);
        node.parent = parent;
        write_node(nodes, process, node);
    }
}

/// Joins two trees under the node of a process.
#[tactic(auto, unfolding(crate::specs::Nodes::joined))]
pub fn join(
    nodes: &mut [Node],
    left: Option<ProcessNo>,
    process: ProcessNo,
    right: Option<ProcessNo>,
)
    ensures { nodes.new ≡ joined nodes.old left process right }
{
    hang(nodes, left, Some(process));
    hang(nodes, right, Some(process));
    let height = height_at(nodes, left)
        .max(height_at(nodes, right))
        .saturating_add(1);
    let mut node = node_at(nodes, process);
    node.left = left;
    node.right = right;
    node.height = height;
    write_node(nodes, process, node);
}
