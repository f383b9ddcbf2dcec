//! The answer of the static rules. Each law is a function that does nothing; its clause is the law.
ghost use Rattle.std.specs.Prelude.{◌≡◌, Result};
ghost use Rattle.sim_scope.specs.Expressions.{judge};
ghost use Rattle.sim_scope.specs.Tables.{Tables};
ghost use Rattle.sim_scope.specs.declared.bound.Bound.{Bound as AnyBound};
ghost use Rattle.sim_scope.specs.declared.outcome.Extent.{Extent as AnyExtent};
ghost use Rattle.sim_scope.specs.declared.refusal.StaticRefusal.{StaticRefusal as AnyRefusal};
ghost use Rattle.sim_static.specs.Check.{Answers};
ghost use Rattle.sim_tree.specs.Syntax.{Expression};
ghost use Rattle.sim_tree.specs.declared.program.Program.{Program as Tree};
ghost use Rattle.static_rules.specs.Answer.{AnswersByRules, IsDecided};
ghost use Rattle.static_rules.specs.Index.{IsIndex};
ghost use Rattle.static_rules.specs.Types.{what};

/// A program is refused by the least rule that it breaks of the first round in which it breaks one, and by none where it breaks none. There is
/// one such answer.
pub fn least_of_the_first_round()
    ensures { (p : Tree) → IsDecided p }
{}

/// So a check that comes to an end answers this rule, and lets through what breaks none.
#[tactic(auto, using(crate::proofs::Answers::by_rules))]
pub fn a_check_answers_by_the_rules()
    ensures { (p : Tree) (result : Result AnyBound AnyRefusal) → Answers p result → AnswersByRules p result }
{}

/// The table has each rule with its printed number and words, in the order in which faults at one token come. Each rule that a program breaks has its
/// row there, in the round in which it is broken.
pub fn rules_have_rows()
    ensures { IsIndex }
{}

/// What an expression is, and so its type, is what its parts make of it; there is no rule in this. The judgement of an expression says the same.
#[tactic(auto, using(crate::proofs::Whats::what_is))]
pub fn types_without_rules()
    ensures { (s : Tables) (e : AnyExtent) (x : Expression) → (judge s e x).value ≡ what s e x }
{}
