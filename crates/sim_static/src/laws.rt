//! What the static rules say of small sources. Each law is a function that does nothing; its clause is the law.
ghost use Rattle.sim_static.specs.Examples.{WorkedRules};

/// Each rule refuses a small source that breaks it, at the token where it is broken, and lets one through that does not.
pub fn worked_rules()
    ensures { WorkedRules }
{}
