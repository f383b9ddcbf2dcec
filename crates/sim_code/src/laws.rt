//! What the machine makes of small codes. Each law is a function that does nothing; its clause is the law.
ghost use Rattle.std.specs.Prelude.{◌≡◌, ℕ, List, Option, Some};
ghost use Rattle.sim_code.specs.Examples.{Worked};
ghost use Rattle.sim_code.specs.ClassExamples.{Worked as WorkedClasses};
ghost use Rattle.sim_code.specs.CoroutineExamples.{Worked as WorkedCoroutines};
ghost use Rattle.sim_code.specs.SetExamples.{Worked as WorkedSets};
ghost use Rattle.sim_code.specs.SimulationExamples.{Worked as WorkedSimulations};
ghost use Rattle.sim_code.specs.VirtualExamples.{Worked as WorkedVirtuals};
ghost use Rattle.sim_code.specs.FormalExamples.{Worked as WorkedFormals};
ghost use Rattle.sim_code.specs.Growing.{OutputGrows};
ghost use Rattle.sim_code.specs.Instances.{Memory};
ghost use Rattle.sim_code.specs.Deciding.{DecidesAsComponents};
ghost use Rattle.sim_code.specs.Outcome.{Simulation, World};
ghost use Rattle.sim_code.specs.Transfers.{EndsAsComponent, TransfersAsComponents};

/// Small codes show in the end what they should: their output, their ticks and words, and how they end; and where they have no rule.
pub fn worked_codes()
    ensures { Worked }
{}

/// The same of codes with classes: which levels a class has, in which classes objects are, what references lead to, and how objects and
/// prefixed blocks go from stage to stage.
pub fn worked_classes()
    ensures { WorkedClasses }
{}

/// The same of codes with coroutines: what goes on behind `detach`, `call` and `resume`, and what is refused.
pub fn worked_coroutines()
    ensures { WorkedCoroutines }
{}

/// The same of codes with sets: which objects are linkages, what the procedures of SIMSET do, and of which objects they are none.
pub fn worked_sets()
    ensures { WorkedSets }
{}

/// The same of codes with simulations: who goes on after each scheduling procedure and each form of activation, how a process ends, what is
/// refused, and what a main program is.
pub fn worked_simulations()
    ensures { WorkedSimulations }
{}

/// The same of codes with virtuals: what matches one in the class of an object, what a procedure in hand is held against, and what is refused.
pub fn worked_virtuals()
    ensures { WorkedVirtuals }
{}

/// The same of codes with formal procedures and with procedures in hand that have parameters: how each kind is passed, which actual parameters
/// fit, and what is refused.
pub fn worked_formals()
    ensures { WorkedFormals }
{}

/// What a run has written stays written: later output begins with it.
pub fn output_grows()
    ensures { OutputGrows }
{}

/// An object ends as a component does, whether it is attached or resumed.
pub fn objects_end<C, A>()
    ensures { (owner : A → Option ℕ) (o : World) (m : Memory C A) (j : ℕ) (top : A) (below : List A) → owner top ≡ Some j → EndsAsComponent owner o top below m j }
{}

/// `detach`, `call` and `resume` move control as among components: the run goes on with what they leave, and the instances stay as they are; or
/// it ends with their error at the line of the word.
pub fn transfers_move<C, A>()
    ensures { (owner : A → Option ℕ) (line : ℕ) (o : World) (chain : List A) (m : Memory C A) → TransfersAsComponents owner line o chain m }
{}

/// A scheduling procedure or an activation of a simulation block moves control as among components: the process of the first notice goes on, or
/// the run ends with the error of the procedure or of the move, or with E50 where no notice is left.
pub fn scheduling_moves<C, A>()
    ensures { (owner : A → Option ℕ) (line : ℕ) (o : World) (chain : List A) (m : Memory C A) (x : ℕ × Simulation) → DecidesAsComponents owner line o chain m x }
{}
