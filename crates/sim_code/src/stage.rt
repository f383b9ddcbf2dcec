//! How far an object or a prefixed block is.

/// What of an object or a prefixed block is under way. It has levels: the class without a prefix is level 0, and what is written last
/// is the innermost one. All declarations come first, from level 0 inward; then the statements, from level 0 inward; and the parts behind
/// `inner` from the innermost level outward.
#[derive(Clone, Copy, Debug, PartialEq, Eq)]
pub enum Stage {
    /// Nothing of the kind: a sub-block or a procedure has no levels.
    NoStage,
    /// The declarations of a level.
    Declaring(u32),
    /// The statements of a level, up to its `inner`.
    Stating(u32),
    /// The part of a level behind its `inner`.
    Behind(u32),
}
