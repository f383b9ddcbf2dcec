//! Event notices and the numbers of processes.

/// The number of a process in its simulation block: the processes are numbered from 0 in the order in which they are made, and the
/// main program of the block is 0.
#[derive(Clone, Copy, Debug, PartialEq, Eq)]
pub struct ProcessNo(pub u32);

/// An event to come: at `time` it is the turn of `process`.
///
/// A time is a number of time units; 0 is the time at which the simulation begins.
#[derive(Clone, Copy, Debug, PartialEq, Eq)]
pub struct Notice {
    pub time: i64,
    pub process: ProcessNo,
}
