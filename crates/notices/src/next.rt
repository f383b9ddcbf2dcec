//! Who goes on.

use crate::ProcessNo;

/// Where control goes after a scheduling procedure.
#[derive(Clone, Copy, Debug, PartialEq, Eq)]
pub enum Next {
    /// The first notice is still that of the process that was current before.
    Stay,
    /// The first notice is that of this process now.
    Resume(ProcessNo),
}
