//! What the common type of references is. Each law is a function that does nothing; its clause is the law.
ghost use Rattle.sim_types.specs.Chains.{InnermostInCommon, NoneInCommon};

/// The common class of two classes is the innermost one that stands in the prefix chains of both, and where there is none, the chains share
/// no class.
pub fn classes_in_common()
    ensures innermost { InnermostInCommon }
    ensures none { NoneInCommon }
{}
