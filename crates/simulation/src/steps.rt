//! What the procedures of scheduling are made of, over any set of event notices.
ghost use Rattle.std.specs.Prelude.{◌≡◌, ◌≢◌, ◌<◌, ◌≤◌, Some, []};
ghost use Rattle.std.specs.Option.{ForSome};
ghost use Rattle.notices.specs.Notices.{first_event};
ghost use Rattle.notices.specs.Schedule.{IsOnce};
ghost use Rattle.notices.specs.Scheduling.{time, later_by, number_of, is_no_process, is_of_another, tested, scheduled_at, placed_beside_process, scheduled, HasRoom, activated_reference, activated_process, activated, list_after};
ghost use Rattle.simulation.specs.Steps.{refusal_of, next_after};

use notices::{Activation, Next, NoticeSet, Placement, ProcessNo, ProcessRef};
use sim_base::RunError;

/// The present time and the current process.
pub fn present<N: NoticeSet>(notices: &N) -> (i64, ProcessNo)
    requires { N.notices notices.now ≢ [] }
    ensures present { first_event (N.notices notices.now) ≡ Some (result.0, result.1) }
    ensures within { result.1.0 < N.room notices.now }
    ensures once { IsOnce (N.notices notices.now) }
{
    notices.first().unwrap()
}

/// Who goes on, after `current` was the current process.
pub fn next_after<N: NoticeSet>(notices: &N, current: ProcessNo) -> Result<Next, RunError>
    ensures { result ≡ next_after current.0 (N.notices notices.now) }
{
    match notices.first() {
        None => Err(RunError::NoNoticeLeft),
        Some((_, process)) if process == current => Ok(Next::Stay),
        Some((_, process)) => Ok(Next::Resume(process)),
    }
}

/// The process of this block to which a reference leads.
pub fn number_of(reference: &Option<ProcessRef>) -> Option<ProcessNo>
    ensures { result ≡ number_of reference.now }
{
    match reference {
        Some(ProcessRef::OfThis { process, .. }) => Some(*process),
        _ => None,
    }
}

/// Whether a reference leads to an object that is no process.
fn is_no_process(reference: &Option<ProcessRef>) -> bool
    ensures { result ≡ is_no_process reference.now }
{
    match reference {
        Some(ProcessRef::NoProcess) => true,
        _ => false,
    }
}

/// Whether a reference leads to a process of another simulation block.
fn is_of_another(reference: &Option<ProcessRef>) -> bool
    ensures { result ≡ is_of_another reference.now }
{
    match reference {
        Some(ProcessRef::OfAnother) => true,
        _ => false,
    }
}

/// Tests the references that a procedure is given: `E7` of both, then `E53` of both.
pub fn test_references(
    process: &Option<ProcessRef>,
    operand: &Option<ProcessRef>,
) -> Result<(), RunError>
    ensures { result ≡ tested process.now operand.now }
{
    if is_no_process(process) || is_no_process(operand) {
        Err(RunError::OutsideQualification)
    } else if is_of_another(process) || is_of_another(operand) {
        Err(RunError::OtherSimulation)
    } else {
        Ok(())
    }
}

/// Puts a notice of `process` at `delay` time units after `now`.
pub fn put_later<N: NoticeSet>(
    notices: &mut N,
    now: i64,
    delay: i64,
    prior: bool,
    process: ProcessNo,
) -> Result<(), RunError>
    requires { process.0 < N.room notices.old }
    ensures list { N.notices notices.new ≡ list_after (N.notices notices.old) (scheduled_at (later_by delay now) prior process.0 (N.notices notices.old)) }
    ensures answer { result ≡ refusal_of (scheduled_at (later_by delay now) prior process.0 (N.notices notices.old)) }
    ensures not_lower { N.room notices.old ≤ N.room notices.new }
{
    let time = now.checked_add(delay.max(0)).ok_or(RunError::TimeTooLarge)?;
    notices.put_at(time, prior, process);
    Ok(())
}

/// Puts a notice of `process` directly before or after that of another process, or of none.
pub fn put_beside<N: NoticeSet>(
    notices: &mut N,
    process: ProcessNo,
    other: Option<ProcessNo>,
    before: bool,
)
    requires { process.0 < N.room notices.old }
    ensures list { N.notices notices.new ≡ placed_beside_process before other process.0 (N.notices notices.old) }
    ensures not_lower { N.room notices.old ≤ N.room notices.new }
{
    match other {
        None => notices.take_out(process),
        Some(other) => notices.put_near(process, other, before),
    };
}

/// Puts a notice of `process` in its place; the present time is `now`.
pub fn schedule<N: NoticeSet>(
    notices: &mut N,
    now: i64,
    process: ProcessNo,
    placement: &Placement,
) -> Result<(), RunError>
    requires within { process.0 < N.room notices.old }
    requires begun { N.notices notices.old ≢ [] }
    requires present { time (N.notices notices.old) ≡ now }
    ensures list { N.notices notices.new ≡ list_after (N.notices notices.old) (scheduled placement.now process.0 (N.notices notices.old)) }
    ensures answer { result ≡ refusal_of (scheduled placement.now process.0 (N.notices notices.old)) }
    ensures not_lower { N.room notices.old ≤ N.room notices.new }
{
    match placement {
        Placement::Direct => notices.put_direct(process),
        Placement::At { time, prior } => notices.put_at((*time).max(now), *prior, process),
        Placement::Delay { time, prior } => put_later(notices, now, *time, *prior, process)?,
        Placement::Before(other) => put_beside(notices, process, number_of(other), true),
        Placement::After(other) => put_beside(notices, process, number_of(other), false),
    }
    Ok(())
}

/// Does what an activation of a reference says, which is tested; the present time is `now`.
fn activate_reference<N: NoticeSet>(
    notices: &mut N,
    now: i64,
    reference: &ProcessRef,
    again: bool,
    placement: &Placement,
) -> Result<(), RunError>
    requires within { HasRoom (N.room notices.old) reference.now }
    requires begun { N.notices notices.old ≢ [] }
    requires present { time (N.notices notices.old) ≡ now }
    ensures list { N.notices notices.new ≡ list_after (N.notices notices.old) (activated_reference reference.now again placement.now (N.notices notices.old)) }
    ensures answer { result ≡ refusal_of (activated_reference reference.now again placement.now (N.notices notices.old)) }
    ensures not_lower { N.room notices.old ≤ N.room notices.new }
{
    match reference {
        ProcessRef::OfThis {
            process,
            terminated,
        } => {
            if *terminated || (notices.time_of(*process).is_some() && !again) {
                return Ok(());
            }
            schedule(notices, now, *process, placement)
        }
        _ => Ok(()),
    }
}

/// Does what an activation says whose references are tested; the present time is `now`.
fn activate_process<N: NoticeSet>(
    notices: &mut N,
    now: i64,
    process: &Option<ProcessRef>,
    again: bool,
    placement: &Placement,
) -> Result<(), RunError>
    requires within { ForSome process.now (HasRoom (N.room notices.old)) }
    requires begun { N.notices notices.old ≢ [] }
    requires present { time (N.notices notices.old) ≡ now }
    ensures list { N.notices notices.new ≡ list_after (N.notices notices.old) (activated_process process.now again placement.now (N.notices notices.old)) }
    ensures answer { result ≡ refusal_of (activated_process process.now again placement.now (N.notices notices.old)) }
    ensures not_lower { N.room notices.old ≤ N.room notices.new }
{
    match process {
        None => Ok(()),
        Some(reference) => activate_reference(notices, now, reference, again, placement),
    }
}

/// Does what an activation says; the present time is `now`.
pub fn activate<N: NoticeSet>(
    notices: &mut N,
    now: i64,
    activation: &Activation,
) -> Result<(), RunError>
    requires within { ForSome activation.now.process (HasRoom (N.room notices.old)) }
    requires begun { N.notices notices.old ≢ [] }
    requires present { time (N.notices notices.old) ≡ now }
    ensures list { N.notices notices.new ≡ list_after (N.notices notices.old) (activated activation.now (N.notices notices.old)) }
    ensures answer { result ≡ refusal_of (activated activation.now (N.notices notices.old)) }
    ensures not_lower { N.room notices.old ≤ N.room notices.new }
{
    let operand = activation.placement.operand();
    match test_references(&activation.process, &operand) {
        Err(error) => Err(error),
        Ok(()) => activate_process(
            notices,
            now,
            &activation.process,
            activation.again,
            &activation.placement,
        ),
    }
}
