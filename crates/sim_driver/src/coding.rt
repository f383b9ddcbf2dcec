// The code of a program, as a code file and as text.
ghost use Rattle.std.specs.Prelude.{◌≡◌, Err, IfOk};
ghost use Rattle.sim_run.specs.RunEnds.{IsRunnable};
ghost use Rattle.sim_scope.specs.Source.{source_of};
ghost use Rattle.sim_driver.specs.Output.{Holds, IsCodeFile, IsListing, Output};
ghost use Rattle.sim_driver.specs.OutputAfter.{OutputAfter, WritesAtTheEnd};
ghost use Rattle.sim_driver.specs.SourceMeaning.{Does};

use crate::failure::RunFailure;
use crate::status::Ending;
use code_file::{listing, write_code};
use codegen::compile;
use sim_base::Memory;
use sim_ports::{Sink, write_all};
use sim_scope::Bound;
use std::alloc::{AllocError, Global};

/// The code file of a program. Code that no code file can say, of 2^32 records of a kind or more, is want of memory.
pub fn code_file_of(alloc: Global, bound: &Bound) -> Result<Vec<u8>, Memory>
    requires { IsRunnable (source_of bound.now) }
    ensures { IfOk result (λ bytes. IsCodeFile (source_of bound.now) bytes.items) }
{
    match compile(alloc, bound) {
        Ok(code) => write_code(alloc, &code),
        Err(AllocError) => Err(Memory),
    }
}

/// The listing of a program's code.
pub fn listing_of(alloc: Global, bound: &Bound) -> Result<Vec<u8>, Memory>
    requires { IsRunnable (source_of bound.now) }
    ensures { IfOk result (λ bytes. IsListing (source_of bound.now) bytes.items) }
{
    match compile(alloc, bound) {
        Ok(code) => listing(alloc, &code),
        Err(AllocError) => Err(Memory),
    }
}

/// Writes what was made; a normal end where all of it is written.
pub fn write_made<O: Sink>(made: Result<Vec<u8>, Memory>, out: &mut O) -> Result<Ending, RunFailure>
    ensures does { (output : Output) → IfOk made (λ bytes. Holds output bytes.items)
        → Does (record { ending = Ending.Normal; output = output }) (O.written out.old) (O.written out.new) result }
    ensures no_input { result ≡ Err RunFailure.Input → ⊥ }
    ensures at_the_end { WritesAtTheEnd out.old out.new result }
    ensures output { OutputAfter O.written O.faults out.old out.new result }
{
    match made {
        Ok(bytes) => match write_all(out, &bytes) {
            Ok(()) => Ok(Ending::Normal),
            Err(_) => Err(RunFailure::Output),
        },
        Err(Memory) => Err(RunFailure::Memory),
    }
}
