//! Which transfers of control are refused, with which error, and what is done where they are not.
ghost use Rattle.std.specs.Prelude.{◌≡◌};
ghost use Rattle.sim_chains.specs.Refusals.{answer_to_call, answer_to_detach, answer_to_main, answer_to_resume};

use crate::State;
use sim_base::RunError;

/// What a transfer of control does with the chains.
#[derive(Clone, Copy, Debug, PartialEq, Eq)]
pub enum Transfer {
    /// Nothing: control stays where it is.
    Stay,
    /// The chain of the object goes on top of the operating chain, and the object is attached.
    Call,
    /// The object keeps the operating chain down to itself, and the rest operates.
    Leave,
    /// The chain of the object takes the place of what stands above its system head, and the object is resumed.
    Resume,
    /// The main component of the system gets control, in place of the resumed object.
    ResumeMain,
}

/// `call` of an instance in this state; `None` is that of an instance that is no object, as a prefixed block.
///
/// # Errors
///
/// `E41` where it is attached or no object, `E42` where it is terminated, `E43` where it is resumed.
pub fn test_call(state: Option<State>) -> Result<Transfer, RunError>
    ensures { result ≡ answer_to_call state }
{
    match state {
        None | Some(State::Attached) => Err(RunError::ComponentIsAttached),
        Some(State::Terminated) => Err(RunError::ComponentIsTerminated),
        Some(State::Resumed) => Err(RunError::ComponentIsResumed),
        Some(State::Detached) => Ok(Transfer::Call),
    }
}

/// `resume` of an instance in this state, also by scheduling; `head_operates` tells whether its system head stands on the
/// operating chain.
///
/// # Errors
///
/// `E46` where it is attached or no object, `E42` where it is terminated; then `E45` where the head does not operate. A resumed
/// object is never refused.
pub fn test_resume(state: Option<State>, head_operates: bool) -> Result<Transfer, RunError>
    ensures { result ≡ answer_to_resume state head_operates }
{
    match state {
        None | Some(State::Attached) => Err(RunError::ResumedIsAttached),
        Some(State::Terminated) => Err(RunError::ComponentIsTerminated),
        Some(State::Resumed) => Ok(Transfer::Stay),
        Some(State::Detached) if head_operates => Ok(Transfer::Resume),
        Some(State::Detached) => Err(RunError::SystemNotOperating),
    }
}

/// Control for the main component of a system, which waits where a resumed object operates in its place.
///
/// # Errors
///
/// `E45` where it waits and the system head is not on the operating chain.
pub fn test_resume_main(waits: bool, head_operates: bool) -> Result<Transfer, RunError>
    ensures { result ≡ answer_to_main waits head_operates }
{
    if !waits {
        Ok(Transfer::Stay)
    } else if head_operates {
        Ok(Transfer::ResumeMain)
    } else {
        Err(RunError::SystemNotOperating)
    }
}

/// `detach` in an instance in this state; `operates` tells whether it stands on the operating chain.
///
/// # Errors
///
/// `E44` where it is an object that does not.
pub fn test_detach(state: Option<State>, operates: bool) -> Result<Transfer, RunError>
    ensures { result ≡ answer_to_detach state operates }
{
    match state {
        None => Ok(Transfer::Stay),
        Some(State::Attached) if operates => Ok(Transfer::Leave),
        Some(State::Resumed) if operates => Ok(Transfer::ResumeMain),
        Some(_) => Err(RunError::ObjectNotOperating),
    }
}
