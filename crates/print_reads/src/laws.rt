//! That a canonical text is read again. Each law does nothing; its clause is the law.
ghost use Rattle.std.specs.Prelude.{List, [], ◌∷◌, ◌++◌, length, map, ℕ, ◌≡◌, ◌≤◌};
ghost use Rattle.std.specs.List.{AllByRecursion};
ghost use Rattle.sim_base.specs.Lexeme.{bare};
ghost use Rattle.sim_base.specs.declared.token.Lexeme.{Lexeme as AnyLexeme};
ghost use Rattle.sim_base.specs.declared.token.Token.{Token as AnyToken};
ghost use Rattle.sim_base.specs.declared.token.TokenKind.TheVariants as k;
ghost use Rattle.sim_lexer.specs.Spelling.{Reads as Spells, Spelled};
ghost use Rattle.sim_print.specs.Canonical.{canonical_text};
ghost use Rattle.sim_print.specs.Layout.{text_of};
ghost use Rattle.sim_print.specs.Tokens.{program};
ghost use Rattle.sim_print.specs.Unnumbered.{unnumbered};
ghost use Rattle.sim_tree.specs.declared.program.Program.{Program as Tree};
ghost use Rattle.sim_tree.specs.Syntax.{Program as AnyProgram};
ghost use Rattle.sim_tree.specs.SyntaxOfProgram.{program_syntax};
ghost use Rattle.sim_tree.specs.Tree.{IsTree};
ghost use Rattle.print_reads.specs.ReadBack.{IsSame, ReadsAs, ReadsBack, lexeme_of};
ghost use Rattle.print_reads.specs.Writable.{CanBeWritten, IsByte, IsWritable, Stand};

use sim_lexer::one_reading;
use sim_print::laws::no_numbers;
use sim_readings::laws::{each_source_is_read, one_tree_or_one_fault};

/// Lexemes that are laid out on lines are read again: where each can be written, and each two neighbours may stand side by side, their text
/// spells tokens that are these lexemes, one by one, and then the end of the source. (A source has at most 1,048,576 bytes.)
#[tactic(auto, using(crate::proofs::Readings::read_again))]
pub fn lexemes_are_read_again()
    ensures { (xs : List AnyLexeme) → AllByRecursion IsWritable xs → Stand xs → length (text_of xs) ≤ 1048576 → ReadsAs (text_of xs) xs }
{}

/// The tokens of each program's syntax, in the order of the grammar, may stand side by side.
#[tactic(auto, using(crate::proofs::Neighbours::tokens_stand))]
pub fn tokens_may_stand()
    ensures { (p : AnyProgram) → Stand (program p) }
{}

/// The canonical text of a program is read as the tokens of its syntax, where its names and constants can be written.
#[tactic(auto, using(crate::proofs::Programs::canonical_read))]
pub fn canonical_text_is_read_again()
    ensures { (p : AnyProgram) → AllByRecursion IsWritable (program p) → length (canonical_text p) ≤ 1048576 → ReadsAs (canonical_text p) (program p) }
{}

/// Each token that a source of bytes spells can be written, but for the end of the source.
#[tactic(auto, using(crate::proofs::Sources::spelled_are_writable))]
pub fn spelled_tokens_can_be_written()
    ensures { (source : List ℕ) (tokens : List AnyToken) → AllByRecursion IsByte source → Spells source (Spelled tokens) → AllByRecursion CanBeWritten tokens }
{}

/// The tokens of the syntax of a tree can be written where the tokens that it was read from can.
#[tactic(auto, using(crate::proofs::Printed::tokens_writable))]
pub fn trees_can_be_written()
    ensures { (tokens : List AnyToken) (p : Tree) → AllByRecursion CanBeWritten tokens → IsTree tokens p → AllByRecursion IsWritable (program (program_syntax p)) }
{}

/// What is printed of the program of a source of bytes is read as the program's tokens, and breaks no rule of spelling.
#[tactic(auto, using(crate::proofs::Printed::printed_read))]
pub fn printed_program_is_read_again()
    ensures { (source : List ℕ) (tokens : List AnyToken) (p : Tree) → AllByRecursion IsByte source → Spells source (Spelled tokens) → IsTree tokens p
        → length (canonical_text (program_syntax p)) ≤ 1048576 → ReadsAs (canonical_text (program_syntax p)) (program (program_syntax p)) }
{}

/// The tokens of a program's syntax, and then the end of the source, have the tree of that program and no other, but for the numbers of tokens:
/// so the semicolons that are left out, the one that is put behind each declaration and the order of `hidden` and `protected` say nothing.
#[tactic(auto, using(crate::proofs::Backs::same_program))]
pub fn canonical_tokens_are_the_program()
    ensures { (tokens others : List AnyToken) (p q : Tree) → IsTree tokens p → IsTree others q → map lexeme_of others ≡ program (program_syntax p) ++ bare k.EndOfSource ∷ []
        → IsSame (program_syntax q) (program_syntax p) }
{}

/// What is printed of the program of a source of bytes is that program again: the text is spelled, its tokens have a tree, each tree of theirs is
/// the program but for the numbers of tokens, and what is printed of it is the same text.
pub fn printed_program_is_the_program()
    ensures { (source : List ℕ) (tokens : List AnyToken) (p : Tree) → AllByRecursion IsByte source → Spells source (Spelled tokens) → IsTree tokens p
        → length (canonical_text (program_syntax p)) ≤ 1048576 → ReadsBack (canonical_text (program_syntax p)) (program_syntax p) }
{
    no_numbers();
    each_source_is_read();
    one_tree_or_one_fault();
}

/// Programs that have one canonical text have the same tokens.
pub fn text_tells_the_tokens()
    ensures { (p q : AnyProgram) → AllByRecursion IsWritable (program p) → AllByRecursion IsWritable (program q) → length (canonical_text p) ≤ 1048576
        → canonical_text p ≡ canonical_text q → program p ≡ program q }
{
    one_reading();
}

/// Programs that differ in no more than the numbers of their tokens have one canonical text.
pub fn one_text()
    ensures { (p q : AnyProgram) → unnumbered p ≡ unnumbered q → canonical_text p ≡ canonical_text q }
{
    no_numbers();
}

/// Sources of one canonical text have one program, but for the numbers of tokens.
pub fn text_tells_the_program()
    ensures { (first second : List ℕ) (tokens others : List AnyToken) (p q : Tree) → AllByRecursion IsByte first → AllByRecursion IsByte second
        → Spells first (Spelled tokens) → Spells second (Spelled others) → IsTree tokens p → IsTree others q → length (canonical_text (program_syntax p)) ≤ 1048576
        → canonical_text (program_syntax p) ≡ canonical_text (program_syntax q) → IsSame (program_syntax p) (program_syntax q) }
{
    one_reading();
    printed_program_is_the_program();
}
