//! Where the notice of a process is put among the others, and which notice is first and which is next.
ghost use Rattle.std.specs.Prelude.{◌≡◌, ◌≢◌, ◌<◌, ◌≤◌, ◌^◌, ◌+◌, List, [], Option, Some, None, length};
ghost use Rattle.notices.specs.declared.notice.Notice.{Notice};
ghost use Rattle.notices.specs.declared.notice.ProcessNo.{ProcessNo};
ghost use Rattle.notices.specs.Notices.{notice_of, first_event, next_process, has_notice, placed_at, placed_direct, placed_near};
ghost use Rattle.notices.specs.Schedule.{IsSchedule};
ghost use Rattle.notice_tree.specs.First.{first_time};
ghost use Rattle.notice_tree.specs.Spots.{first_process};
ghost use Rattle.notice_tree.specs.Held.{IsHeld, IsOpen, front_beside, back_beside};

use crate::edit::{insert, take_out};
use crate::node::{Node, node_at};
use crate::spot::{Aim, Spot, follower, seek};
use notices::ProcessNo;

/// The place of the root.
const ROOT: Spot = Spot {
    parent: None,
    on_left: true,
};

/// Puts a notice of `process` after all notices of time at most `time`, or, with `prior`, before those of time `time`. An older
/// notice of the process goes. Answers the root.
pub fn put_at(
    nodes: &mut [Node],
    root: Option<ProcessNo>,
    time: i64,
    prior: bool,
    process: ProcessNo,
) -> Option<ProcessNo>
    ensures { (l : List Notice) → IsHeld nodes.old root l → IsSchedule l (length nodes.old) → process.0 < length nodes.old → IsHeld nodes.new result (placed_at time prior process.0 l) }
{
    let root = take_out(nodes, root, process);
    let spot = seek(nodes, ROOT, root, Aim::At { time, prior });
    insert(nodes, spot, process, time)
}

/// The empty place directly before or after the notice of a process.
fn beside(nodes: &[Node], process: ProcessNo, before: bool) -> Spot
    ensures { (root : Option ProcessNo) (l : List Notice) (m : Notice) → IsHeld nodes.now root l → IsSchedule l (length nodes.now) → notice_of process.0 l ≡ Some m → IsOpen nodes.now result (front_beside before process.0 m l) (back_beside before process.0 m l) }
{
    let node = node_at(nodes, process);
    let spot = Spot {
        parent: Some(process),
        on_left: before,
    };
    if before {
        seek(nodes, spot, node.left, Aim::Last)
    } else {
        seek(nodes, spot, node.right, Aim::First)
    }
}

/// Puts a notice of `process` directly before or after that of another process, at its time. An older notice of the process goes;
/// where the other has no notice, it has none then. Answers the root.
pub fn put_beside(
    nodes: &mut [Node],
    root: Option<ProcessNo>,
    process: ProcessNo,
    other: ProcessNo,
    before: bool,
) -> Option<ProcessNo>
    ensures { (l : List Notice) → IsHeld nodes.old root l → IsSchedule l (length nodes.old) → process.0 < length nodes.old → process.0 ≢ other.0 → IsHeld nodes.new result (placed_near before other.0 process.0 l) }
{
    let root = take_out(nodes, root, process);
    match node_at(nodes, other).time {
        None => root,
        Some(time) => {
            let spot = beside(nodes, other, before);
            insert(nodes, spot, process, time)
        }
    }
}

/// The process of the first notice.
fn first_process(nodes: &[Node], root: Option<ProcessNo>) -> Option<ProcessNo>
    ensures { (l : List Notice) → IsHeld nodes.now root l → IsSchedule l (length nodes.now) → result ≡ first_process l }
{
    let spot = seek(nodes, ROOT, root, Aim::First);
    follower(nodes, spot)
}

/// The time of the first notice.
fn first_time(nodes: &[Node], root: Option<ProcessNo>) -> Option<i64>
    ensures { (l : List Notice) → IsHeld nodes.now root l → IsSchedule l (length nodes.now) → result ≡ first_time l }
{
    let process = first_process(nodes, root)?;
    node_at(nodes, process).time
}

/// The time and the process of the first notice.
pub fn first_event(nodes: &[Node], root: Option<ProcessNo>) -> Option<(i64, ProcessNo)>
    ensures { (l : List Notice) → IsHeld nodes.now root l → IsSchedule l (length nodes.now) → result ≡ first_event l }
{
    let process = first_process(nodes, root)?;
    let time = node_at(nodes, process).time?;
    Some((time, process))
}

/// Puts a notice of `process` in front, at the time of the first notice. An older notice of the process goes. Answers the root.
pub fn put_direct(
    nodes: &mut [Node],
    root: Option<ProcessNo>,
    process: ProcessNo,
) -> Option<ProcessNo>
    ensures { (l : List Notice) → IsHeld nodes.old root l → IsSchedule l (length nodes.old) → process.0 < length nodes.old → l ≢ [] → IsHeld nodes.new result (placed_direct process.0 l) }
{
    match first_time(nodes, root) {
        None => root,
        Some(time) => put_at(nodes, root, time, true, process),
    }
}

/// The process of the notice after that of a process.
pub fn next_process(nodes: &[Node], process: ProcessNo) -> Option<ProcessNo>
    ensures { (root : Option ProcessNo) (l : List Notice) → IsHeld nodes.now root l → IsSchedule l (length nodes.now) → result ≡ next_process process.0 l }
{
    if node_at(nodes, process).time.is_none() {
        return None;
    }
    let spot = beside(nodes, process, false);
    follower(nodes, spot)
}
