//! A law of the canonical text. Its function does nothing; its clause is the law.
ghost use Rattle.std.specs.Prelude.{◌≡◌};
ghost use Rattle.sim_tree.specs.Syntax.{Program as AnyProgram};
ghost use Rattle.sim_print.specs.Canonical.{canonical_text};
ghost use Rattle.sim_print.specs.Unnumbered.{unnumbered};

/// The canonical text hangs on no number of a token: it is that of the syntax without them.
#[tactic(auto, using(crate::proofs::NoNumbers::no_numbers))]
pub fn no_numbers()
    ensures { (p : AnyProgram) → canonical_text p ≡ canonical_text (unnumbered p) }
{}
