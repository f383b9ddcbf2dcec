//! The states of an object.

/// The state of an object as a component (SIMULA Standard, the chapter on sequencing).
#[derive(Clone, Copy, Debug, PartialEq, Eq)]
pub enum State {
    /// It belongs to the component that generated or called it.
    Attached,
    /// It has a chain of its own, which waits for `call` or `resume`.
    Detached,
    /// It operates in its system in place of the main component.
    Resumed,
    /// Its body is done.
    Terminated,
}
