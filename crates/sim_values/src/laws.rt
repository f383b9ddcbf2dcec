//! Worked rows and laws of the definitions. Each is a function that does nothing; its clauses are the rows.
ghost use Rattle.std.specs.Prelude.{◌≡◌, ◌+◌, List, pos, true};
ghost use Rattle.sim_values.specs.Examples.{WorkedCalls, WorkedImages, WorkedNumbers, WorkedOperators, WorkedSteps, WorkedStores, WorkedTexts};
ghost use Rattle.sim_values.specs.Arithmetic.{is_integer};
ghost use Rattle.sim_values.specs.Plain.{initial, kind_of};
ghost use Rattle.sim_values.specs.Texts.{Frame, IsText, concatenated, join};
ghost use Rattle.sim_values.specs.declared.value.TextVal.{TextVal as AnyText};
ghost use Rattle.sim_values.specs.declared.kind.Kind.{Kind as AnyKind};

/// Each operator gives what the language says of operands of its kinds, with its errors, and has no answer for others; so does the
/// test of a step element.
pub fn worked_operators()
    ensures operators { WorkedOperators }
    ensures steps { WorkedSteps }
{}

/// Each standard name on integers, characters, texts and images does what the language says, with its errors, and nothing with
/// operands of other kinds.
pub fn worked_names()
    ensures numbers { WorkedNumbers }
    ensures texts { WorkedTexts }
    ensures images { WorkedImages }
{}

/// Calls one after another write and answer what the language says.
pub fn worked_calls()
    ensures { WorkedCalls }
{}

/// With which texts and images a run begins, and what it writes at its end.
pub fn worked_stores()
    ensures { WorkedStores }
{}

/// A variable begins with a value of its kind.
pub fn first_values()
    ensures kind { (k : AnyKind) → kind_of (initial k) ≡ k }
{}

/// `&` makes a new text that has the characters of both, with its words, where an integer is the place behind them.
#[tactic(auto, using(crate::proofs::Joins::joins))]
pub fn joined_texts()
    ensures { (frames : List Frame) (a b : AnyText) → IsText frames a → IsText frames b → is_integer (pos (a.length + 1 + b.length)) ≡ true → concatenated frames a b ≡ join frames a b }
{}
