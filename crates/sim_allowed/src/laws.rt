//! That what the static rules allow is typed. Each law is a function that does nothing; its clause is the law.
ghost use Rattle.std.specs.Prelude.{◌≡◌, ℕ, List};
ghost use Rattle.sim_base.specs.declared.limits.Limits.{Limits};
ghost use Rattle.sim_base.specs.declared.token.Token.{Token};
ghost use Rattle.sim_tree.specs.declared.program.Program.{Program as Tree};
ghost use Rattle.sim_tree.specs.SyntaxOfProgram.{program_syntax};
ghost use Rattle.sim_tree.specs.Tree.{IsTree};
ghost use Rattle.sim_scope.specs.Source.{Source};
ghost use Rattle.sim_static.specs.Check.{Allowed, check_of};
ghost use Rattle.sim_code.specs.Outcome.{Ended, NoRule, World};
ghost use Rattle.sim_meaning.specs.Meaning.{run};
ghost use Rattle.sim_sound.specs.Typed.{Typed};

/// A program of tokens that the static rules allow is typed.
#[tactic(auto, using(crate::proofs::Main::allowed_typed))]
pub fn allowed_programs_are_typed()
    ensures { (tokens : List Token) (tree : Tree) (s : Source) → IsTree tokens tree → s.program ≡ program_syntax tree → check_of tree ≡ Allowed s.tables s.uses s.found_in s.types → Typed s }
{}

/// So no such program comes to where there is no rule, whatever the limits and the input are.
#[tactic(auto, using(crate::proofs::Main::allowed_never_no_rule))]
pub fn allowed_programs_have_a_rule()
    ensures { (tokens : List Token) (tree : Tree) (s : Source) → IsTree tokens tree → s.program ≡ program_syntax tree → check_of tree ≡ Allowed s.tables s.uses s.found_in s.types
        → (l : Limits) (input : List ℕ) (n : ℕ) (o : World) → run s l input n ≡ Ended o NoRule → ⊥ }
{}
