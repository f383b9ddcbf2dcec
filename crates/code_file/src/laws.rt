//! Laws of code files. Each law is a function that does nothing; its clause is the law.
ghost use Rattle.std.specs.Prelude.{ℕ, List};
ghost use Rattle.code_file.specs.Laws.{OneOutcome};

/// Bytes spell one code, or they break one rule at one place: never both, and never neither.
#[tactic(auto, using(crate::proofs::FileLaws::one_outcome))]
pub fn one_outcome()
    ensures { (bytes : List ℕ) → OneOutcome bytes }
{}
