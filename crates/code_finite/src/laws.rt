//! That the run of whatever code comes to an end. The law is a function that does nothing; its clause is the law.
ghost use Rattle.std.specs.Prelude.{List, ℕ};
ghost use Rattle.sim_base.specs.declared.limits.Limits.{Limits};
ghost use Rattle.sim_code.specs.Code.{CodeOf};
ghost use Rattle.code_finite.specs.Coming.{ComesToAnEnd};

/// The run of whatever code comes to an end by the machine's table, whatever its limits and its input are: only a tick, an entry or a use of a
/// parameter by name lets control go backward, of ticks there are only so many, and between two of them there is only so much to do on all chains.
/// So it is also of code that no program has.
#[tactic(auto, using(crate::proofs::Main::comes_to_an_end))]
pub fn every_code_ends()
    ensures { (code : CodeOf) (l : Limits) (input : List ℕ) → ComesToAnEnd code l input }
{}
