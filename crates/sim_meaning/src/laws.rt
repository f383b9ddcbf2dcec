//! What the meaning makes of small programs, and which texts a program has. Each law is a function that does nothing; its clause is the law.
ghost use Rattle.std.specs.Prelude.{◌≡◌, Some, map};
ghost use Rattle.sim_scope.specs.Bodies.{program_bodies};
ghost use Rattle.sim_tree.specs.Syntax.{Program};
ghost use Rattle.sim_meaning.specs.ClassExamples.{WorkedClasses};
ghost use Rattle.sim_meaning.specs.CoroutineExamples.{WorkedCoroutines};
ghost use Rattle.sim_meaning.specs.Examples.{Worked};
ghost use Rattle.sim_meaning.specs.FormalExamples.{WorkedFormals};
ghost use Rattle.sim_meaning.specs.NameExamples.{WorkedNames};
ghost use Rattle.sim_meaning.specs.SetExamples.{WorkedSets};
ghost use Rattle.sim_meaning.specs.SimulationExamples.{WorkedSimulations};
ghost use Rattle.sim_meaning.specs.TextExamples.{WorkedTexts};
ghost use Rattle.sim_meaning.specs.Texts.{program_texts, text_of};
ghost use Rattle.sim_meaning.specs.VirtualExamples.{WorkedVirtuals};

/// Small programs show in the end what they should: their output, their ticks and words, and how they end.
pub fn worked_programs()
    ensures { Worked }
{}

/// Small programs with texts, input and output do so too.
pub fn worked_programs_with_texts()
    ensures { WorkedTexts }
{}

/// Small programs with classes do so too.
pub fn worked_programs_with_classes()
    ensures { WorkedClasses }
{}

/// Small programs with coroutines do so too.
pub fn worked_programs_with_coroutines()
    ensures { WorkedCoroutines }
{}

/// Small programs with sets do so too.
pub fn worked_programs_with_sets()
    ensures { WorkedSets }
{}

/// Small programs with simulations do so too.
pub fn worked_programs_with_simulations()
    ensures { WorkedSimulations }
{}

/// Small programs with virtuals do so too.
pub fn worked_programs_with_virtuals()
    ensures { WorkedVirtuals }
{}

/// Small programs with parameters by name do so too.
pub fn worked_programs_with_names()
    ensures { WorkedNames }
{}

/// Small programs with formal procedures do so too.
pub fn worked_programs_with_formals()
    ensures { WorkedFormals }
{}

/// The texts of each program are what its bodies are made of, one for one and in their order. Since the blocks of the tables of scopes are
/// these bodies, text k is that of block k.
#[tactic(auto, using(crate::proofs::TextsOfBodies::texts_are_bodies))]
pub fn texts_are_bodies()
    ensures { (p : Program) → map text_of (program_bodies p) ≡ map Some (program_texts p.prefix p.block) }
{}
