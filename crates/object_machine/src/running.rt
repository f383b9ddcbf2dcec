//! Running code.
ghost use Rattle.std.specs.Prelude.{◌≡◌, ℕ, List, Some};
ghost use Rattle.object_machine.specs.Running.{FaultsAs, InputAs, RanAs};
ghost use Rattle.object_machine.specs.Taking.{TakesNothing};

use crate::begin::Begun;
use crate::ending::answer;
use crate::first::begin;
use crate::layout::place;
use crate::machine::Flow;
use crate::start::start;
use crate::steps::steps;
use sim_base::Limits;
use sim_code::{Code, Ending};
use sim_ports::{Sink, Source};
use std::alloc::Global;

/// Runs code, whatever code it is, from its first step to its end, reads its input as far as it asks for it, and writes its output.
pub fn run<I: Source, O: Sink>(
    alloc: Global,
    code: &Code,
    limits: &Limits,
    input: &mut I,
    out: &mut O,
) -> Ending
    ensures ran { (bytes : List ℕ) → I.left input.old ≡ Some bytes → RanAs (I.faults input.old) (I.faults input.new) code.now limits.now bytes result (O.written out.old) (O.written out.new) }
    ensures faults { FaultsAs O.written O.faults result out.old out.new }
    ensures input_faults { InputAs (I.faults input.old) (I.faults input.new) result }

    // The input is as it was where the run takes nothing of it, whatever is answered.
    ensures takes { (bytes : List ℕ) → I.left input.old ≡ Some bytes → TakesNothing code.now limits.now bytes → input.new ≡ input.old }
{
    let Ok(mut storage) = start(alloc, &code.texts, code.blocks.len(), limits) else {
        return Ending::Memory;
    };
    let Ok(placed) = place(alloc, code) else {
        return Ending::Memory;
    };
    let begun = begin(
        alloc,
        &code.blocks,
        &code.instrs,
        &code.classes,
        limits,
        &mut storage,
    );
    match begun {
        Begun::Stopped(stop) => answer(limits, &mut storage, out, stop),
        Begun::Started(mut top) => {
            let mut below = Vec::new(alloc);
            let stop = steps(
                alloc,
                &placed,
                &code.blocks,
                &code.instrs,
                &code.texts,
                &code.classes,
                &code.actual_lists,
                &code.thunks,
                limits,
                &mut storage,
                input,
                out,
                &mut top,
                &mut below,
            );
            match stop.flow {
                Flow::WriteFault => Ending::WriteFault,
                _ => answer(limits, &mut storage, out, stop),
            }
        }
    }
}
