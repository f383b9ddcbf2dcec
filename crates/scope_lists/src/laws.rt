//! What is found in the lists of scopes. Each law is a function that does nothing; its clause is the law.
ghost use Rattle.std.specs.Prelude.{◌≡◌, ◌∷◌, ℕ, false, List, Option, length};
ghost use Rattle.sim_base.specs.declared.numbering.DeclNo.{DeclNo};
ghost use Rattle.sim_tree.specs.Syntax.{Program};
ghost use Rattle.sim_scope.specs.Access.{accessible, block_at, encloser, hides, protector};
ghost use Rattle.sim_scope.specs.Declare.{declared_by};
ghost use Rattle.sim_scope.specs.Levels.{base, has_classes, is_for_prefixing, is_in_chain, shared_class};
ghost use Rattle.sim_scope.specs.References.{this_block};
ghost use Rattle.sim_scope.specs.Scopes.{binding, declaration_from, found_in, is_passed_over, represented, shown, virtual_of};
ghost use Rattle.sim_scope.specs.Tables.{Tables};
ghost use Rattle.sim_scope.specs.declared.scopes.Denotation.{Denotation};
ghost use Rattle.sim_scope.specs.Statements.{process_at};
ghost use Rattle.prefix_bind.specs.Classes.{levels_of};
ghost use Rattle.prefix_bind.specs.Prefixes.{is_in_own_chain, prefixed};
ghost use Rattle.virtual_match.specs.Matching.{match_of};
ghost use Rattle.virtual_match.specs.Qualifying.{qualified};
ghost use Rattle.inspect_types.specs.Connecting.{connected};
ghost use Rattle.scope_lists.specs.Accessible.{hides_it, is_accessible, protecting_level};
ghost use Rattle.scope_lists.specs.Classes.{HasBlocks, classes_inward, common_class, has_classes_in, is_subclass, match_in_class, only_for_prefixing, process_around, this_means};
ghost use Rattle.scope_lists.specs.Denoted.{declared, denotes, found, is_declared_around, shows, stands_for, virtual_at};
ghost use Rattle.scope_lists.specs.Example.{WorkedCycle, WorkedScopes, class_with_prefix, cycle, tables_of};
ghost use Rattle.scope_lists.specs.Lists.{Lists, of_block};

/// Each table has its two lists, and only one of each.
pub fn one_list_of_each()
    ensures there { (s : Tables) → Lists s }
    ensures alone { (s : Tables) (k l : Lists s) (block : ℕ) → ◌≡◌ (k.levels block) (l.levels block) × ◌≡◌ (k.outward block) (l.outward block) }
{}

/// The levels of a block that is none of the levels of its prefix, as S3 asks of each class, are the block and all levels of its
/// prefix. In the tables of each program the scopes from a block outward are the block and all those from the block around it.
#[tactic(auto, using(crate::proofs::Repeated::levels_of_prefix, crate::proofs::Completed::declared_scopes, crate::proofs::Completed::completed_scopes))]
pub fn nothing_comes_again()
    ensures levels { (s : Tables) (l : Lists s) (block : ℕ) → is_in_own_chain s block ≡ false → l.levels block ≡ block ∷ of_block l.levels (base s block) }
    ensures declared { (p : Program) (l : Lists (declared_by p).tables) (block : ℕ) → l.outward block ≡ block ∷ of_block l.outward (encloser (declared_by p).tables block) }
    ensures completed { (p : Program) (l : Lists (connected (qualified (prefixed (declared_by p).tables)) p)) (block : ℕ) → l.outward block ≡ block ∷ of_block l.outward (encloser (connected (qualified (prefixed (declared_by p).tables)) p) block) }
{}

/// The lists of two small programs, and what an identifier denotes in one of them.
pub fn worked_lists()
    ensures scopes { (l : Lists (tables_of class_with_prefix)) → WorkedScopes l }
    ensures cycle { (l : Lists (tables_of cycle)) → WorkedCycle l }
{}

/// A block shows what the first of its levels shows.
#[tactic(auto, using(crate::proofs::Denoted::shown_same))]
pub fn what_a_block_shows()
    ensures { (s : Tables) (l : Lists s) (from : Option ℕ) (name : List ℕ) (block : ℕ) → shown s from block name ≡ shows s l from name block }
{}

/// An identifier is declared as what the first of the scopes around it shows, denotes what that stands for, else a standard name, and is found in
/// that scope.
#[tactic(auto, using(crate::proofs::Denoted::declared_same, crate::proofs::Denoted::binding_same, crate::proofs::Denoted::found_same, crate::proofs::Denoted::passed_same))]
pub fn what_an_identifier_denotes()
    ensures declared { (s : Tables) (l : Lists s) (from : Option ℕ) (token : ℕ) (name : List ℕ) → declaration_from s from (block_at s token) name ≡ declared s l from token name }
    ensures denoted { (s : Tables) (l : Lists s) (token : ℕ) (name : List ℕ) → binding s token name ≡ denotes s l token name }
    ensures found { (s : Tables) (l : Lists s) (token : ℕ) (name : List ℕ) → found_in s token name ≡ found s l token name }
    ensures passed_over { (s : Tables) (l : Lists s) (token : ℕ) (name : List ℕ) → is_passed_over s token name ≡ is_declared_around s l token name }
{}

/// A declaration is accessible at a token where its attribute is not protected, or where the text of a scope around has access.
/// What a level protects or hides is an attribute of the first level, from itself outward, that protects one of this name.
#[tactic(auto, using(crate::proofs::Access::accessible_same, crate::proofs::Access::protector_first, crate::proofs::Access::hides_same))]
pub fn what_is_accessible()
    ensures protected { (s : Tables) (l : Lists s) (name : List ℕ) (block : ℕ) → protector s block name ≡ protecting_level s l name block }
    ensures hidden { (s : Tables) (l : Lists s) (level : ℕ) (name : List ℕ) (block : ℕ) → hides s level name block ≡ hides_it s l level name block }
    ensures accessible { (s : Tables) (l : Lists s) (token : ℕ) (d : DeclNo) → accessible s token d ≡ is_accessible s l token d }
{}

/// The virtual of an identifier is the first one of its levels, a match stands for it, and its match in a class is what the first level declares.
#[tactic(auto, using(crate::proofs::Denoted::virtual_same, crate::proofs::Denoted::represented_same, crate::proofs::Classes::match_same))]
pub fn virtuals_and_matches()
    ensures of_level { (s : Tables) (l : Lists s) (name : List ℕ) (block : ℕ) → virtual_of s (length s.blocks) block name ≡ virtual_at s l block name }
    ensures represented { (s : Tables) (l : Lists s) (d : DeclNo) → represented s d ≡ stands_for s l d }
    ensures matched { (s : Tables) (l : Lists s) (class virtual : DeclNo) → match_of s class virtual ≡ match_in_class s l class virtual }
{}

/// A class has classes, or is only for prefixing, by one of its levels; two classes have the first level of the one in common that the other has too;
/// an activation is in the simulation of the first scope around that has one; the classes that are levels, from the outermost prefix inward, are the
/// list turned round.
#[tactic(auto, using(crate::proofs::Classes::classes_same, crate::proofs::Classes::prefixing_same, crate::proofs::Chained::common_same, crate::proofs::Ordered::process_same, crate::proofs::Ordered::levels_same))]
pub fn what_levels_bring()
    ensures classes { (s : Tables) (l : Lists s) (block : ℕ) → has_classes s block ≡ has_classes_in s l block }
    ensures prefixing { (s : Tables) (l : Lists s) (block : ℕ) → is_for_prefixing s block ≡ only_for_prefixing s l block }
    ensures common { (s : Tables) (l : Lists s) (c d : DeclNo) → shared_class s c d ≡ common_class s l c d }
    ensures simulation { (s : Tables) (l : Lists s) (token : ℕ) → process_at s token ≡ process_around s l token }
    ensures inward { (s : Tables) (l : Lists s) (class : DeclNo) → levels_of s class ≡ classes_inward s l class }
{}

/// In the tables of each program each class has its block: as it is declared, and with the class of each prefix, reference and connection.
#[tactic(auto, using(crate::proofs::ClassBlocks::declared_blocks, crate::proofs::Completed::completed_blocks))]
pub fn classes_have_blocks()
    ensures declared { (p : Program) → HasBlocks (declared_by p).tables }
    ensures completed { (p : Program) → HasBlocks (connected (qualified (prefixed (declared_by p).tables)) p) }
{}

/// `this C` means the first scope around that is of C, and a subclass has the class among its levels, where each class has its block in the table.
#[tactic(auto, using(crate::proofs::Chained::this_same, crate::proofs::Chained::subclass_same))]
pub fn classes_in_chains()
    ensures this { (s : Tables) (l : Lists s) → HasBlocks s → (token : ℕ) (class : Denotation) → this_block s token class ≡ this_means s l token class }
    ensures subclass { (s : Tables) (l : Lists s) → HasBlocks s → (c d : DeclNo) → is_in_chain s c d ≡ is_subclass s l c d }
{}
