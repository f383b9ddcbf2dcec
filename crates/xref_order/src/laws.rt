//! Laws of the cross references of a source. Each does nothing but call the laws that it stands on; its clause is the law.
ghost use Rattle.std.specs.List.{AllPairs};
ghost use Rattle.std.specs.Prelude.{List, ℕ};
ghost use Rattle.sim_base.specs.declared.numbering.DeclNo.{DeclNo as AnyDeclNo};
ghost use Rattle.sim_base.specs.declared.token.Token.{Token as AnyToken};
ghost use Rattle.sim_lexer.specs.Spelling.{Reads as Spells, Spelled};
ghost use Rattle.sim_scope.specs.declared.bound.Bound.{Bound as AnyBound};
ghost use Rattle.sim_scope.specs.Source.{source_of};
ghost use Rattle.sim_static.specs.Check.{IsBound};
ghost use Rattle.sim_tree.specs.declared.program.Program.{Program as Tree};
ghost use Rattle.sim_tree.specs.Named.{IsAscending};
ghost use Rattle.sim_tree.specs.SyntaxOfProgram.{program_syntax};
ghost use Rattle.sim_tree.specs.Tree.{IsTree};
ghost use Rattle.sim_xref.specs.Rows.{rows_of, uses_of};
ghost use Rattle.sim_xref.specs.Text.{lines_of};
ghost use Rattle.xref_order.specs.Declared.{declared_tokens};
ghost use Rattle.xref_order.specs.Order.{AreTheirLines, InFront};

use sim_lexer::places_and_lines;
use sim_readings::laws::each_source_is_read;
use sim_xref::laws::{exact_lines, exact_uses};

/// The tokens of the identifiers that a program declares, formal parameters and virtual procedures among them, ascend in the order in which it is
/// read.
#[tactic(auto, using(crate::proofs::Declaring::declared_ascend))]
pub fn declared_in_order()
    ensures { (tokens : List AnyToken) (p : Tree) → IsTree tokens p → IsAscending (declared_tokens (program_syntax p)) }
{}

/// The rows of a program that breaks no static rule stand in the order of its text: the declaration of each stands in front of those of the rows
/// behind it.
pub fn rows_in_order()
    ensures { (tokens : List AnyToken) (b : AnyBound) → IsTree tokens b.program → IsBound b → AllPairs InFront (rows_of (source_of b)) }
{}

/// Of the program of a source of bytes that breaks no static rule: the lines that are written for a declaration are exactly those of its uses,
/// ascending and each once.
pub fn lines_of_uses()
    ensures { (source : List ℕ) (tokens : List AnyToken) (b : AnyBound) (d : AnyDeclNo) → Spells source (Spelled tokens) → IsTree tokens b.program → IsBound b
        → AreTheirLines (source_of b) (uses_of (source_of b) d.0) (lines_of (source_of b) (uses_of (source_of b) d.0)) }
{
    places_and_lines();
    each_source_is_read();
    exact_uses();
    exact_lines();
}
