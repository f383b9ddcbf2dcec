//! Laws of the levels of classes. Each is a function that does nothing; its clause is the law.
ghost use Rattle.std.specs.Prelude.{◌≡◌, ◌∷◌, ◌++◌, [], false, ℕ, List, Some};
ghost use Rattle.sim_base.specs.declared.numbering.DeclNo.{DeclNo};
ghost use Rattle.sim_scope.specs.Levels.{base};
ghost use Rattle.sim_scope.specs.Tables.{Tables};
ghost use Rattle.prefix_bind.specs.Classes.{IsClass, Outermost, levels_of};
ghost use Rattle.prefix_bind.specs.Prefixes.{is_in_own_chain};

/// The levels of a class end with itself.
pub fn last_level()
    ensures { (s : Tables) (d : DeclNo) (block : ℕ) → IsClass s d block → (outer : List DeclNo) × (levels_of s d ≡ outer ++ d ∷ []) }
{}

/// They begin with its outermost prefix.
pub fn first_level()
    ensures { (s : Tables) (d outermost : DeclNo) → Outermost s d outermost → (inner : List DeclNo) × (levels_of s d ≡ outermost ∷ inner) }
{}

/// The levels of a class that is in no cycle are those of its prefix, and itself.
pub fn levels_of_prefix()
    ensures { (s : Tables) (d prefix : DeclNo) (block around : ℕ) → IsClass s d block → IsClass s prefix around → base s block ≡ Some around → is_in_own_chain s block ≡ false
        → levels_of s d ≡ levels_of s prefix ++ d ∷ [] }
{}
