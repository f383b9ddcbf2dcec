//! What code of small programs shows. Each law is a function that does nothing; its clause is the law.
ghost use Rattle.codegen.specs.Examples.{SameShown};

/// The code of small programs shows in the end what the programs show: the same output, ticks and words, and the same ending.
pub fn worked_codes()
    ensures { SameShown }
{}
