//! Activation statements.
ghost use Rattle.std.specs.Prelude.{◌≡◌};
ghost use Rattle.notices.specs.Scheduling.{operand_of};

use crate::ProcessNo;

/// A reference other than `none` that a scheduling procedure is given, as one simulation block sees it.
#[derive(Clone, Copy, Debug, PartialEq, Eq)]
pub enum ProcessRef {
    /// To an object that is not in the class `process`.
    NoProcess,
    /// To a process of another simulation block.
    OfAnother,
    /// To a process of this block, and whether its body has ended.
    OfThis {
        process: ProcessNo,
        terminated: bool,
    },
}

/// Where an activation puts the notice of its process.
#[derive(Clone, Copy, Debug, PartialEq, Eq)]
pub enum Placement {
    /// The plain form: in front, at the present time.
    Direct,
    /// `at`: after the notices of this time or less, or, with `prior`, before those of this time. A time in
    /// the past counts as the present one.
    At { time: i64, prior: bool },
    /// `delay`: as `at`, at the present time and so many time units.
    Delay { time: i64, prior: bool },
    /// `before`: directly before the notice of a process, at its time. Before none, or before a process that
    /// has no notice, there is no place.
    Before(Option<ProcessRef>),
    /// `after`: the same, directly after the notice.
    After(Option<ProcessRef>),
}

impl Placement {
    /// The reference after `before` or `after`; none in the other forms.
    pub fn operand(&self) -> Option<ProcessRef>
        ensures { result ≡ operand_of self.now }
    {
        match self {
            Placement::Before(other) | Placement::After(other) => *other,
            _ => None,
        }
    }
}

/// An activation statement, `activate` or, with `again`, `reactivate`, of a reference or of `none`.
#[derive(Clone, Copy, Debug, PartialEq, Eq)]
pub struct Activation {
    pub process: Option<ProcessRef>,
    pub again: bool,
    pub placement: Placement,
}
