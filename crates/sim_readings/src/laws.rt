//! That reading comes to something. Each law does nothing but call the laws that it stands on; its clauses are the law.
ghost use Rattle.std.specs.Prelude.{List, length, map, ℕ, ◌≡◌, ◌<◌, ◌^◌};
ghost use Rattle.sim_base.specs.declared.token.Token.{Token};
ghost use Rattle.sim_lexer.specs.Spelling.{Reads as Spells, Spelled};
ghost use Rattle.sim_tree.specs.declared.program.Program.{Program as Tree};
ghost use Rattle.sim_tree.specs.Claim.{one};
ghost use Rattle.sim_tree.specs.Grammar.{Part};
ghost use Rattle.sim_tree.specs.Named.{IsAscending};
ghost use Rattle.sim_tree.specs.Reading.{Fault};
ghost use Rattle.sim_tree.specs.SyntaxOfProgram.{program_syntax};
ghost use Rattle.sim_tree.specs.Tree.{IsTree};
ghost use Rattle.sim_readings.specs.Readable.{EndsOnce, ProgramFails, ReadsOrFails, SourceOutcome, TreeOrFault, place_of};

use sim_lexer::one_reading;
use sim_tree::grammar::{one_fault, one_tree};

/// From each token of each list, each part of the grammar has a derivation or comes to a fault, however deep it may nest. That there is no
/// more than one of both is said by the laws of the grammar.
pub fn every_list_reads_or_fails()
    ensures { (limit : ℕ) (tokens : List Token) (depth start : ℕ) (n : Part) → ReadsOrFails limit tokens depth (one n) start }
{}

/// Each list of tokens that ends once has exactly one tree or exactly one fault, and never both: its derivation, where there is one, is
/// that of a tree. Two trees of it have the same abstract syntax. (The number of a token has 32 bits.)
pub fn one_tree_or_one_fault()
    ensures either { (tokens : List Token) → EndsOnce tokens → length tokens < 2 ^ 32 → TreeOrFault tokens }
    ensures never_both { (tokens : List Token) (p : Tree) (e : Fault) → IsTree tokens p → ProgramFails tokens e → ⊥ }
    ensures one_tree { (tokens : List Token) (p q : Tree) → IsTree tokens p → IsTree tokens q → program_syntax p ≡ program_syntax q }
    ensures one_fault { (tokens : List Token) (e h : Fault) → ProgramFails tokens e → ProgramFails tokens h → e ≡ h }
{
    one_tree();
    one_fault();
}

/// Each source breaks a rule of spelling, or its tokens come to a fault, or they have a tree. The tokens that it spells end once, are fewer than
/// 2^32, and each stands behind the one before it. That no two of these hold, and each in one way, say `sim_lexer::one_reading` and
/// `one_tree_or_one_fault`.
pub fn each_source_is_read()
    ensures outcome { (source : List ℕ) → SourceOutcome source }
    ensures tokens { (source : List ℕ) (tokens : List Token) → Spells source (Spelled tokens) → EndsOnce tokens × (length tokens < 2 ^ 32) }
    ensures ascend { (source : List ℕ) (tokens : List Token) → Spells source (Spelled tokens) → IsAscending (map place_of tokens) }
{
    one_reading();
}
