//! Event notices in a sorted vector.
ghost use Rattle.std.specs.Prelude.{◌≡◌, ◌<◌, ◌≤◌, [], length, take, drop, vec_len, vec_capacity};
ghost use Rattle.std.specs.List.{position, insert};
ghost use Rattle.notices.specs.Notices.{is_of, has_notice, removed, front_at, back_at};
ghost use Rattle.notices.specs.Schedule.{IsOrdered, IsOnce};

use crate::{Notice, NoticeSet, ProcessNo};
use sim_base::Memory;
use std::alloc::Global;
use std::marker::Model;

/// A set of event notices, kept as a vector in the order of the events.
///
/// A search for a time is binary; a notice that comes or goes moves those behind it.
#[derive(Debug, Drop)]
pub struct NoticeVec {
    items: Vec<Notice>,
}

// Clauses see the notices in their order, and the room, for which the vector has capacity.
impl Model for NoticeVec {
    ghost use Rattle.std.specs.Prelude.{vec_capacity};
    ghost use Rattle.notices.specs.Seen.{NoticeList};
    ghost use Rattle.notices.specs.Schedule.{IsSchedule};

    ghost Value = { NoticeList };

    ghost view = { λ s. record { notices = s.items.items; room = vec_capacity s.items } };

    ghost invariant = { λ s. IsSchedule s.items.items (vec_capacity s.items) };
}

impl NoticeVec {
    /// The empty set, with no room. It takes no memory.
    pub fn new(alloc: Global) -> NoticeVec
        ensures { result.notices ≡ [] }
    {
        NoticeVec {
            items: Vec::new(alloc),
        }
    }
}

/// The place of the notice of `process`.
fn place_of(items: &[Notice], process: ProcessNo) -> Option<usize>
    ensures { result ≡ position (is_of process.0) items.now }
{
    items.iter().position(|notice| notice.process == process)
}

/// The place after all notices of time at most `time`, or, with `prior`, before those of time `time`.
fn place_at(items: &[Notice], time: i64, prior: bool) -> usize
    requires { IsOrdered items.now }
    ensures within { result ≤ length items.now }
    ensures front { take result items.now ≡ front_at time prior items.now }
    ensures back { drop result items.now ≡ back_at time prior items.now }
{
    if prior {
        items.partition_point(|notice| notice.time < time)
    } else {
        items.partition_point(|notice| notice.time <= time)
    }
}

/// Removes the notice of `process`, and answers whether there was one.
fn remove_notice(items: &mut Vec<Notice>, process: ProcessNo) -> bool
    requires { IsOnce items.old.items }
    ensures found { result ≡ has_notice process.0 items.old.items }
    ensures removed { items.new.items ≡ removed process.0 items.old.items }
    ensures capacity { vec_capacity items.new ≡ vec_capacity items.old }
{
    match place_of(items, process) {
        None => false,
        Some(place) => {
            items.remove(place);
            true
        }
    }
}

/// Puts a notice at a place, within the capacity.
fn insert_notice(items: &mut Vec<Notice>, place: usize, notice: Notice)
    requires place { place ≤ vec_len items.old }
    requires capacity { vec_len items.old < vec_capacity items.old }
    ensures inserted { items.new.items ≡ insert items.old.items place notice }
    ensures capacity { vec_capacity items.old ≤ vec_capacity items.new }
{
    let _ = items.insert(place, notice);
}

impl NoticeSet for NoticeVec {
    ghost notices = { λ s. s.notices };

    ghost room = { λ s. s.room };

    fn reserve(&mut self, n: usize) -> Result<(), Memory> {
        let more = n.saturating_sub(self.items.len());
        self.items.reserve_exact(more)?;
        Ok(())
    }

    fn put_at(&mut self, time: i64, prior: bool, process: ProcessNo) {
        remove_notice(&mut self.items, process);
        let place = place_at(&self.items, time, prior);
        insert_notice(&mut self.items, place, Notice { time, process });
    }

    fn put_direct(&mut self, process: ProcessNo) {
        let time = self.items[0].time;
        remove_notice(&mut self.items, process);
        insert_notice(&mut self.items, 0, Notice { time, process });
    }

    fn put_near(&mut self, process: ProcessNo, other: ProcessNo, before: bool) -> bool {
        if process == other {
            return place_of(&self.items, other).is_some();
        }
        remove_notice(&mut self.items, process);
        match place_of(&self.items, other) {
            None => false,
            Some(place) => {
                let time = self.items[place].time;
                let place = if before { place } else { place + 1 };
                insert_notice(&mut self.items, place, Notice { time, process });
                true
            }
        }
    }

    fn take_out(&mut self, process: ProcessNo) -> bool {
        remove_notice(&mut self.items, process)
    }

    fn first(&self) -> Option<(i64, ProcessNo)> {
        let notice = self.items.first()?;
        Some((notice.time, notice.process))
    }

    fn next(&self, process: ProcessNo) -> Option<ProcessNo> {
        let place = place_of(&self.items, process)?;
        let notice = self.items.get(place + 1)?;
        Some(notice.process)
    }

    fn time_of(&self, process: ProcessNo) -> Option<i64> {
        let place = place_of(&self.items, process)?;
        Some(self.items[place].time)
    }
}
