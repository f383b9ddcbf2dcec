//! Laws of the definitions. Each is a function that does nothing; its clause is the law.
ghost use Rattle.std.specs.Prelude.{◌≡◌, ℕ, Option, Some};
ghost use Rattle.sim_base.specs.declared.numbering.DeclNo.{DeclNo};
ghost use Rattle.sim_scope.specs.Levels.{class_block};
ghost use Rattle.sim_scope.specs.Tables.{Tables};
ghost use Rattle.virtual_match.specs.Matching.{IsMatch, match_of, name_of};

/// The match of a virtual in a class is what the last of its levels declares, at or inside the virtual's, that declares the identifier.
pub fn last_match()
    ensures matched { (s : Tables) (class virtual : DeclNo) (block : ℕ) (m : Option DeclNo) → class_block s class ≡ Some block → IsMatch s (name_of s virtual) block m → match_of s class virtual ≡ m }
    ensures found { (s : Tables) (class virtual d : DeclNo) (block : ℕ) → class_block s class ≡ Some block → match_of s class virtual ≡ Some d → IsMatch s (name_of s virtual) block (Some d) }
{}
