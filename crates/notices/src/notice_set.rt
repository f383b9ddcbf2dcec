//! What a set of event notices is, however it is kept.
ghost use Rattle.std.specs.Prelude.{◌≡◌, ◌≢◌, ℕ, ◌<◌, ◌≤◌, List, [], OnOk};
ghost use Rattle.notices.specs.declared.notice.Notice.{Notice};
ghost use Rattle.notices.specs.Notices.{first_event, next_process, event_time, has_notice, removed, placed_at, placed_direct, placed_near};
ghost use Rattle.notices.specs.Schedule.{IsSchedule};

use crate::ProcessNo;
use sim_base::Memory;

/// The event notices of one simulation block (SIMULA Standard, SIMULATION).
///
/// Its meaning is the list of the notices and a number, the room. The list is ordered by time, each
/// process has at most one notice in it, and all its processes are below the room. No call lowers the room,
/// and no call but `reserve` takes memory.
pub trait NoticeSet {
    ghost notices: { Self → List Notice };

    ghost room: { Self → ℕ };

    /// Makes the room at least `n`. The notices stay, whatever the answer.
    ///
    /// # Errors
    ///
    /// `Memory`, and the room is then not lower than before.
    fn reserve(&mut self, n: usize) -> Result<(), Memory>
        ensures stays { notices self.new ≡ notices self.old }
        ensures reserved { OnOk result (n ≤ room self.new) }
        ensures not_lower { room self.old ≤ room self.new };

    /// Puts a notice of `process` after all notices of time at most `time`, or, with `prior`, before those
    /// of time `time`. An older notice of the process goes.
    fn put_at(&mut self, time: i64, prior: bool, process: ProcessNo)
        requires { process.0 < room self.old }
        ensures placed { notices self.new ≡ placed_at time prior process.0 (notices self.old) }
        ensures not_lower { room self.old ≤ room self.new };

    /// Puts a notice of `process` in front, at the time of the first notice. An older notice of the
    /// process goes.
    fn put_direct(&mut self, process: ProcessNo)
        requires within { process.0 < room self.old }
        requires begun { notices self.old ≢ [] }
        ensures placed { notices self.new ≡ placed_direct process.0 (notices self.old) }
        ensures not_lower { room self.old ≤ room self.new };

    /// Puts a notice of `process` directly before or after that of `other`, at its time; an older notice of
    /// the process goes. It answers whether `other` has a notice. Where it has none, `process` is left
    /// without one too; where the two are one process, nothing changes.
    fn put_near(&mut self, process: ProcessNo, other: ProcessNo, before: bool) -> bool
        requires { process.0 < room self.old }
        ensures found { result ≡ has_notice other.0 (notices self.old) }
        ensures placed { notices self.new ≡ placed_near before other.0 process.0 (notices self.old) }
        ensures not_lower { room self.old ≤ room self.new };

    /// Removes the notice of `process`, and answers whether there was one.
    fn take_out(&mut self, process: ProcessNo) -> bool
        ensures found { result ≡ has_notice process.0 (notices self.old) }
        ensures removed { notices self.new ≡ removed process.0 (notices self.old) }
        ensures not_lower { room self.old ≤ room self.new };

    /// The time and the process of the first notice, or `None` where there is none.
    fn first(&self) -> Option<(i64, ProcessNo)>
        ensures first { result ≡ first_event (notices self.now) }
        // At all times: ordered by time, each process at most once, all below the room.
        ensures schedule { IsSchedule (notices self.now) (room self.now) };

    /// The process of the notice after that of `process`. It is `None` where `process` has no notice or
    /// the last one.
    fn next(&self, process: ProcessNo) -> Option<ProcessNo>
        ensures { result ≡ next_process process.0 (notices self.now) };

    /// The time of the notice of `process`, or `None` where it has none.
    fn time_of(&self, process: ProcessNo) -> Option<i64>
        ensures { result ≡ event_time process.0 (notices self.now) };
}
