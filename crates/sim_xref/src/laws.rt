//! What cross references hold. Each law is a function that does nothing; its clause is the law.
ghost use Rattle.std.specs.Prelude.{List};
ghost use Rattle.sim_base.specs.declared.numbering.DeclNo.{DeclNo as AnyDeclNo};
ghost use Rattle.sim_base.specs.declared.numbering.TokenNo.{TokenNo as AnyTokenNo};
ghost use Rattle.sim_scope.specs.Source.{Source as AnySource};
ghost use Rattle.sim_xref.specs.Laws.{AreItsRows, AreItsUses, AreTheirLines};
ghost use Rattle.sim_xref.specs.Rows.{rows_of, uses_of};
ghost use Rattle.sim_xref.specs.Text.{lines_of};

/// The uses of a declaration are exactly the tokens that denote it, none left out and none twice.
pub fn exact_uses()
    ensures { (s : AnySource) (d : AnyDeclNo) → AreItsUses s d (uses_of s d.0) }
{}

/// The rows are exactly the declarations of the source, none left out and none twice.
pub fn exact_rows()
    ensures { (s : AnySource) → AreItsRows s (rows_of s) }
{}

/// The lines that are written for uses are exactly theirs, each once, as long as the lines of tokens do not fall.
pub fn exact_lines()
    ensures { (s : AnySource) (uses : List AnyTokenNo) → AreTheirLines s uses (lines_of s uses) }
{}
