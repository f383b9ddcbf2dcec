//! What evaluations of actual parameters by name are for the instances of a program. Each law is a function that does nothing; its clause is the law.
ghost use Rattle.sim_scope.specs.Source.{Source};
ghost use Rattle.sim_meaning.specs.Sane.{StaysSane};
ghost use Rattle.closed_actuals.specs.Closed.{ClosesAsWherePassed};
ghost use Rattle.closed_actuals.specs.Evaluations.{ChainsAreOfInstances, WorksOffPending};

/// An actual parameter that is closed when its evaluation begins has the tree that closing gives where it is passed, and at each moment between at
/// which its home operates. So it is of each source whose runs stay sane, and those of typed programs do.
#[tactic(auto, using(crate::proofs::Closed::closes_as_where_passed))]
pub fn closing_later_gives_the_same_tree()
    ensures { (s : Source) → StaysSane s → ClosesAsWherePassed s }
{}

/// The pending work of an instance is that of the evaluations above it, followed by its own: each step of a run does the first item of it for the
/// instance that operates, and leaves what others have pending. So it is of each source.
#[tactic(auto, using(crate::proofs::Pending::works_off_pending))]
pub fn each_step_does_what_is_pending()
    ensures { (s : Source) → WorksOffPending s }
{}

/// Evaluations left out, each step does to the chains of instances what the definitions of chains say, of the numbers of instances alone. So it is
/// of each source whose runs stay sane.
#[tactic(auto, using(crate::proofs::Chains::chains_are_of_instances))]
pub fn chains_are_those_of_instances()
    ensures { (s : Source) → StaysSane s → ChainsAreOfInstances s }
{}
