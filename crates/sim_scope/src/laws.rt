//! Laws of the definitions. Each is a function that does nothing; its clause is the law.
ghost use Rattle.std.specs.Prelude.{◌≡◌, ◌<◌, ℕ, List, None, Option, Some, length, map, slice_get};
ghost use Rattle.sim_base.specs.declared.numbering.DeclNo.{DeclNo};
ghost use Rattle.sim_tree.specs.Syntax.{Program};
ghost use Rattle.sim_scope.specs.Access.{block_at};
ghost use Rattle.sim_scope.specs.Bodies.{program_bodies};
ghost use Rattle.sim_scope.specs.BodyExample.{WorkedBodies};
ghost use Rattle.sim_scope.specs.Breaks.{broken_by};
ghost use Rattle.sim_scope.specs.Declare.{declared_by, declaring};
ghost use Rattle.sim_scope.specs.Found.{Event};
ghost use Rattle.sim_scope.specs.Laws.{Innermost, IsPlace, Named, Nested, Rising, outline, shape_of};
ghost use Rattle.sim_scope.specs.Least.{IsLeast, faults, least_found};
ghost use Rattle.sim_scope.specs.Scopes.{beyond, declaration_from, found_in, searched, shown};
ghost use Rattle.sim_scope.specs.Tables.{Tables};
ghost use Rattle.sim_scope.specs.Walk.{program_events};
ghost use Rattle.sim_scope.specs.declared.scopes.Denotation.{Denotation};
ghost use Rattle.sim_scope.specs.declared.types.SimType.{SimType};

/// The answer of a round is one of the rules that are broken, and none of these stands before it.
pub fn least_of_all()
    ensures { (es : List Event) (uses : List (Option Denotation)) (found_in : List (Option ℕ)) (types : List (Option SimType)) → IsLeast (faults es) (least_found es uses found_in types) }
{}

/// What stands as the fault of a program's declarations is one of the rules that they break, and none of these stands before it.
pub fn least_declared()
    ensures { (p : Program) → IsLeast (broken_by p) (declared_by p).least }
{}

/// In the tables of a program each block stands behind the one around it, and what a block declares are the declarations that stand in it.
/// So an identifier that its block has already is declared before in that block.
pub fn tables_agree()
    ensures nested { (p : Program) → Nested (declared_by p).tables.blocks }
    ensures named { (p : Program) → Named (declared_by p).tables.blocks (declared_by p).tables.declarations }
{}

/// The blocks of the tables of a program are its bodies, number by number.
#[tactic(auto, using(crate::proofs::BodiesOfTables::blocks_are_bodies))]
pub fn blocks_are_bodies()
    ensures { (p : Program) → map shape_of (declared_by p).tables.blocks ≡ map outline (program_bodies p) }
{}

/// The bodies of a small program.
#[tactic(auto, using(crate::proofs::BodiesOfTables::worked_bodies))]
pub fn worked_bodies()
    ensures { WorkedBodies }
{}

/// The block of a token is the innermost one whose text has it, where the tokens of a program rise in its text and each block ends.
pub fn places()
    ensures { (p : Program) → Rising 0 (program_events declaring p) → (declared_by p).current ≡ None → (token : ℕ) (place : Option ℕ) → slice_get (declared_by p).tables.places token ≡ Some place
        → IsPlace (declared_by p).tables.blocks token place }
{}

/// The search outward finds the declaration of the innermost block that shows the name. Where each block stands behind the one around
/// it it finds every such declaration.
pub fn innermost()
    ensures found { (s : Tables) (from : Option ℕ) (most block : ℕ) (name : List ℕ) (d : DeclNo) → searched s from most block name ≡ Some d → Innermost s from name block d }
    ensures every { (s : Tables) (from : Option ℕ) (block : ℕ) (name : List ℕ) (d : DeclNo) → Nested s.blocks → Innermost s from name block d → block < length s.blocks → searched s from (length s.blocks) block name ≡ Some d }
{}

/// A name denotes what the block shows in which it is found.
pub fn shown_where_found()
    ensures { (s : Tables) (token : ℕ) (name : List ℕ) → declaration_from s (Some token) (block_at s token) name ≡ beyond (λ b. shown s (Some token) b name) (found_in s token name) }
{}
