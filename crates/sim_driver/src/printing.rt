// Writes the canonical text of a source.
ghost use Rattle.std.specs.Prelude.{◌≡◌, ◌<◌, ◌^◌, ◌-◌, length, Err, OnOk, List, ℕ};
ghost use Rattle.sim_base.specs.declared.limits.Limits.{Limits as AnyLimits};
ghost use Rattle.sim_driver.specs.OutputAfter.{OutputAfter, WritesAtTheEnd};
ghost use Rattle.sim_driver.specs.SourceMeaning.{Does, Meaning, SourceMeans};

use crate::compiling::{Refusal, text_of};
use crate::failure::RunFailure;
use crate::status::Ending;
use command_line::Command;
use sim_ports::{Sink, write_all};
use std::alloc::Global;

/// Writes the canonical text of a source, where it is the text of a program.
pub fn print_source<O: Sink>(
    alloc: Global,
    source: &[u8],
    out: &mut O,
) -> Result<Ending, RunFailure>
    requires { length source.now < 2 ^ 32 - 1 }
    ensures known { (l : AnyLimits) (given : List ℕ) → OnOk result ((meaning : Meaning) × SourceMeans Command.Print l source.now given meaning) }
    ensures does { (l : AnyLimits) (given : List ℕ) (meaning : Meaning) → SourceMeans Command.Print l source.now given meaning → Does meaning (O.written out.old) (O.written out.new) result }
    ensures no_input { result ≡ Err RunFailure.Input → ⊥ }
    ensures at_the_end { WritesAtTheEnd out.old out.new result }
    ensures output { OutputAfter O.written O.faults out.old out.new result }
{
    match text_of(alloc, source) {
        Ok(text) => match write_all(out, &text) {
            Ok(()) => Ok(Ending::Normal),
            Err(_) => Err(RunFailure::Output),
        },
        Err(Refusal::Broken { rule, line }) => Ok(Ending::Refused { rule, line }),
        Err(Refusal::Memory) => Err(RunFailure::Memory),
    }
}
