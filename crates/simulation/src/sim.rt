//! The scheduling of one simulation block.
ghost use Rattle.std.specs.Prelude.{◌≡◌, ◌≢◌, ◌<◌, ◌≤◌, pos, List, [], ◌∷◌, Some, OnOk};
ghost use Rattle.std.specs.Option.{ForSome};
ghost use Rattle.simset.specs.Instances.{number_of};
ghost use Rattle.simset.specs.Sets.{IsLinkAt, IsHeadAt, into};
ghost use Rattle.notices.specs.Scheduling.{time, current, main, idle, evtime, nextev, HasRoom, held, passivated, cancelled, activated, list_after, next_of, answer_of};

use crate::steps::{activate, next_after, number_of, present, put_later, test_references};
use notices::{Activation, Next, NoticeSet, ProcessNo, ProcessRef};
use sim_base::{Memory, RunError};
use simset::{LinkageNo, Rings};
use std::marker::Model;

/// The scheduling of one simulation block (SIMULA Standard, SIMULATION), over any set of event notices.
///
/// The first notice is that of the current process, at the present time. A process that the program itself calls or resumes operates
/// without being current. No procedure takes memory.
#[derive(Drop)]
pub struct Sim<N: NoticeSet> {
    set: N,
}

// Clauses see the list of the notices and the room.
impl<N: NoticeSet> Model for Sim<N> {
    ghost use Rattle.notices.specs.Seen.{NoticeList};

    ghost Value = { NoticeList };

    ghost view = { λ sim. record { notices = N.notices sim.set; room = N.room sim.set } };
}

impl<N: NoticeSet> Sim<N> {
    /// The beginning of a simulation: the notice of `main` at time 0.
    pub fn new(notices: N) -> Sim<N>
        requires empty { N.notices notices ≡ [] }
        requires room { 0 < N.room notices }
        ensures begun { result.notices ≡ record { time = pos 0; process = record { 0 = main } } ∷ [] }
        ensures not_lower { N.room notices ≤ result.room }
    {
        let mut set = notices;
        set.put_at(0, false, ProcessNo(0));
        Sim { set }
    }

    /// Makes the room at least `n`: the processes below it can have notices.
    ///
    /// # Errors
    ///
    /// `Memory`, and the room is then not lower than before.
    pub fn reserve(&mut self, n: usize) -> Result<(), Memory>
        ensures stays { self.new.notices ≡ self.old.notices }
        ensures reserved { OnOk result (n ≤ self.new.room) }
        ensures not_lower { self.old.room ≤ self.new.room }
    {
        self.set.reserve(n)
    }

    /// The event notices.
    pub fn notices(&self) -> &N
        ensures notices { N.notices result.now ≡ self.now.notices }
        ensures room { N.room result.now ≡ self.now.room }
    {
        &self.set
    }

    /// `hold`: the current process goes on `t` time units later, after all events of that time or less;
    /// where `t` is not above 0, after those of the present time.
    ///
    /// # Errors
    ///
    /// `E51` where the time is too large; then nothing changes.
    pub fn hold(&mut self, t: i64) -> Result<Next, RunError>
        requires { self.old.notices ≢ [] }
        ensures list { self.new.notices ≡ list_after self.old.notices (held t self.old.notices) }
        ensures answer { result ≡ answer_of self.old.notices (held t self.old.notices) }
        ensures not_lower { self.old.room ≤ self.new.room }
    {
        let (now, current) = present(&self.set);
        put_later(&mut self.set, now, t, false, current)?;
        next_after(&self.set, current)
    }

    /// `passivate`: the current process loses its notice.
    ///
    /// # Errors
    ///
    /// `E50` where no notice is left.
    pub fn passivate(&mut self) -> Result<Next, RunError>
        requires { self.old.notices ≢ [] }
        ensures list { self.new.notices ≡ passivated self.old.notices }
        ensures answer { result ≡ next_of self.old.notices (passivated self.old.notices) }
        ensures not_lower { self.old.room ≤ self.new.room }
    {
        let (_, current) = present(&self.set);
        self.set.take_out(current);
        next_after(&self.set, current)
    }

    /// `wait`: the current process, whose link this is, goes last into the set of the head, or with
    /// none out of its set, and then loses its notice as by `passivate`.
    ///
    /// # Errors
    ///
    /// `E50` where no notice is left; the link is then in its set.
    pub fn wait(
        &mut self,
        rings: &mut Rings,
        link: LinkageNo,
        head: Option<LinkageNo>,
    ) -> Result<Next, RunError>
        requires begun { self.old.notices ≢ [] }
        requires link { IsLinkAt rings.old.sets link.0 }
        requires head { ForSome head (λ h. IsHeadAt rings.old.sets h.0) }
        ensures sets { rings.new.sets ≡ into rings.old.sets link.0 (number_of head) }
        ensures links { rings.new.room ≡ rings.old.room }
        ensures list { self.new.notices ≡ passivated self.old.notices }
        ensures answer { result ≡ next_of self.old.notices (passivated self.old.notices) }
        ensures not_lower { self.old.room ≤ self.new.room }
    {
        rings.into(link, head);
        self.passivate()
    }

    /// `cancel`: the process loses its notice. Of none, and of a process without a notice, nothing is done.
    ///
    /// # Errors
    ///
    /// `E53` of a process of another block; then nothing changes. `E50` where no notice is left.
    pub fn cancel(&mut self, x: Option<ProcessRef>) -> Result<Next, RunError>
        requires { self.old.notices ≢ [] }
        ensures list { self.new.notices ≡ list_after self.old.notices (cancelled x self.old.notices) }
        ensures answer { result ≡ answer_of self.old.notices (cancelled x self.old.notices) }
        ensures not_lower { self.old.room ≤ self.new.room }
    {
        let (_, current) = present(&self.set);
        let operand: Option<ProcessRef> = None;
        test_references(&x, &operand)?;
        if let Some(process) = number_of(&x) {
            self.set.take_out(process);
        }
        next_after(&self.set, current)
    }

    /// An activation statement.
    ///
    /// # Errors
    ///
    /// `E7` where the process, or that after `before` or `after`, is an object that is no process; `E53` where one of them is of
    /// another block; where something is done, `E51` where the time of a `delay` is too large. Then nothing changes. `E50` where no
    /// notice is left.
    pub fn activate(&mut self, activation: Activation) -> Result<Next, RunError>
        requires begun { self.old.notices ≢ [] }
        requires within { ForSome activation.process (HasRoom self.old.room) }
        ensures list { self.new.notices ≡ list_after self.old.notices (activated activation self.old.notices) }
        ensures answer { result ≡ answer_of self.old.notices (activated activation self.old.notices) }
        ensures not_lower { self.old.room ≤ self.new.room }
    {
        let (now, current) = present(&self.set);
        if let Err(error) = activate(&mut self.set, now, &activation) {
            return Err(error);
        }
        next_after(&self.set, current)
    }

    /// `time`: the present time.
    pub fn time(&self) -> i64
        requires { self.now.notices ≢ [] }
        ensures { result ≡ time self.now.notices }
    {
        present(&self.set).0
    }

    /// `current`: the process of the first notice.
    pub fn current(&self) -> ProcessNo
        requires { self.now.notices ≢ [] }
        ensures { current self.now.notices ≡ Some result }
    {
        present(&self.set).1
    }

    /// `idle`: whether the process has no notice.
    pub fn idle(&self, process: ProcessNo) -> bool
        ensures { result ≡ idle process.0 self.now.notices }
    {
        self.set.time_of(process).is_none()
    }

    /// `evtime`: the time of the notice of the process.
    ///
    /// # Errors
    ///
    /// `E52` where it has none.
    pub fn evtime(&self, process: ProcessNo) -> Result<i64, RunError>
        ensures { result ≡ evtime process.0 self.now.notices }
    {
        self.set.time_of(process).ok_or(RunError::NoEventTime)
    }

    /// `nextev`: the process of the next notice after that of the process, or `None`.
    pub fn nextev(&self, process: ProcessNo) -> Option<ProcessNo>
        ensures { result ≡ nextev process.0 self.now.notices }
    {
        self.set.next(process)
    }
}
