//! That what breaks no rule is built. Each law is a function that does nothing; its clause is the law.
ghost use Rattle.std.specs.Prelude.{List};
ghost use Rattle.sim_base.specs.declared.token.Token.{Token};
ghost use Rattle.sim_meaning.specs.Sane.{HasRules, NamesObjects, StaysSane};
ghost use Rattle.sim_scope.specs.Source.{Source};
ghost use Rattle.sim_agree.specs.Inners.{Inners};
ghost use Rattle.sim_agree.specs.TablesAgree.{TablesAgree};
ghost use Rattle.sim_sound.specs.Typed.{Typed};
ghost use Rattle.codegen.specs.BuiltProgram.{ProgramBuilt};
ghost use Rattle.sim_tree.specs.declared.program.Program.{Program as Tree};
ghost use Rattle.sim_tree.specs.Filled.{Filled};
ghost use Rattle.sim_built.specs.Allowed.{IsAllowed};
ghost use Rattle.sim_built.specs.Laid.{Laid};

/// A typed program is built, where its tables lie as those of a program do.
pub fn typed_programs_are_built()
    ensures { (s : Source) → Typed s → Laid s → Filled s.program → ProgramBuilt s }
{}

/// Tables that agree with the texts of their program, also in where `inner` stands, lie as code needs them.
pub fn tables_lie()
    ensures { (s : Source) → TablesAgree s → Inners s → Laid s }
{}

/// A program that breaks no rule is built, and never comes to where its meaning has no rule, whatever the limits and the input are. At each moment of its run the instance that operates lives with its enclosers, and stands at no other place of
/// the chains but as the home of parameters by name that are evaluated; and each reference in hand, and each that lies where an address in hand
/// leads, names an object, or the main program of a simulation, which is there.
pub fn allowed_programs_run()
    ensures built { (tokens : List Token) (tree : Tree) (s : Source) → IsAllowed tokens tree s → ProgramBuilt s }
    ensures ruled { (tokens : List Token) (tree : Tree) (s : Source) → IsAllowed tokens tree s → HasRules s }
    ensures stays_sane { (tokens : List Token) (tree : Tree) (s : Source) → IsAllowed tokens tree s → StaysSane s }
    ensures names_objects { (tokens : List Token) (tree : Tree) (s : Source) → IsAllowed tokens tree s → NamesObjects s }
{}
