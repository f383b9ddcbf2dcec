//! How a run ends.
ghost use Rattle.std.specs.Prelude.{◌≡◌, ◌≤◌, ◌++◌, ℕ, List, Option, true, false};
ghost use Rattle.std.specs.Io.KnownBytes.{Appends};
ghost use Rattle.sim_ports.specs.Faults.{StopsAt};
ghost use Rattle.sim_values.specs.Store.{Store, closing_store};
ghost use Rattle.basic_io.specs.Image.{IsImage};
ghost use Rattle.sim_base.specs.declared.limits.Limits.{Limits as LimitsOf};
ghost use Rattle.sim_code.specs.Code.{CodeOf};
ghost use Rattle.sim_code.specs.Machine.{Machine};
ghost use Rattle.sim_code.specs.Outcome.{Run};
ghost use Rattle.frame_arena.specs.declared.slot.Slot.{Slot};
ghost use Rattle.object_machine.specs.Named.{InputEnds};
ghost use Rattle.object_machine.specs.Running.{FaultsAs, InputAs, IsClosing, Ran, Stops, StopsAtRead};
ghost use Rattle.object_machine.specs.Standing.{HasImages, Outside, WrotePart, outside};

use crate::begin::Stop;
use crate::machine::{Activation, Flow, Registers, Storage};
use basic_io::OutImage;
use sim_base::Limits;
use sim_code::Ending;
use sim_ports::Sink;
use text_objects::Texts;

/// Writes what stands in the image of sysout. It answers whether that was written.
pub fn close<O: Sink>(texts: &mut Texts, image: &mut OutImage, out: &mut O) -> bool
    requires image { IsImage texts.old image.old }
    ensures done { result ≡ true → (before : Option (List ℕ)) (s : Store) → s.frames ≡ texts.old → s.sysout ≡ image.old → Appends before (O.written out.old) s.written → Appends before (O.written out.new) (closing_store s).written }
    ensures cut { result ≡ false → (before : Option (List ℕ)) (s : Store) → s.frames ≡ texts.old → s.sysout ≡ image.old → Appends before (O.written out.old) s.written → WrotePart before (O.written out.new) (closing_store s).written }
    ensures steady { result ≡ true → O.faults out.new ≡ O.faults out.old }
    ensures stops { result ≡ false → StopsAt O.written O.faults out.old out.new }
{
    if image.image().pos <= 1 {
        return true;
    }
    match image.outimage(texts, out) {
        Ok(()) => true,
        Err(_) => false,
    }
}

// The answer of a run that has ended, when the image of sysout is written, or a fault of the output.
fn closed<O: Sink>(storage: &mut Storage, out: &mut O, ending: Ending) -> Ending
    requires images { HasImages storage.old.texts storage.old.image }
    requires other { (ending ≡ Ending.WriteFault → ⊥) }
    requires read { (ending ≡ Ending.InputFault → ⊥) }
    ensures ran { (code : CodeOf) (l : LimitsOf) (from : Run Machine) (before : Option (List ℕ)) → (source : List ℕ) (faults faults_now : ℕ) → IsClosing faults faults_now code l from ending storage.old before (outside (O.written out.old) source) → Ran faults faults_now code l from result before (O.written out.new) }
    ensures ends { FaultsAs O.written O.faults result out.old out.new }
    ensures input { (before now : ℕ) → now ≡ before → InputAs before now result }
{
    if close(&mut storage.texts, &mut storage.image.output, out) {
        return ending;
    }
    Ending::WriteFault
}

// The answer where there is no rule.
fn without_rule(at: usize) -> Ending
    ensures ran { (code : CodeOf) (l : LimitsOf) (from : Run Machine) (line : ℕ) (p : Storage) (r : Registers) (stack : List Slot) (below : List Activation) (before : Option (List ℕ)) (now : Outside) (faults faults_now : ℕ) → Stops code l from Flow.NoRule line at p r stack below before now → Ran faults faults_now code l from result before now.sink }
    ensures other { result ≡ Ending.WriteFault → ⊥ }
    ensures read { result ≡ Ending.InputFault → ⊥ }
{
    match u32::try_from(at) {
        Ok(at) => Ending::BadCode { at },
        Err(_) => Ending::Memory,
    }
}

/// The answer of a run whose last step ends it.
pub fn answer<O: Sink>(limits: &Limits, storage: &mut Storage, out: &mut O, stop: Stop) -> Ending
    requires images { HasImages storage.old.texts storage.old.image }
    ensures ran { (code : CodeOf) (from : Run Machine) (r : Registers) (stack : List Slot) (below : List Activation) (before : Option (List ℕ)) (source : List ℕ) (faults faults_now : ℕ) → StopsAtRead faults faults_now code limits.now from stop.flow stop.line.0 stop.at storage.old r stack below before (outside (O.written out.old) source) → Ran faults faults_now code limits.now from result before (O.written out.new) }
    ensures ends { FaultsAs O.written O.faults result out.old out.new }
    ensures input { (before now : ℕ) → InputEnds before now stop.flow → InputAs before now result }
{
    match stop.flow {
        Flow::Normal => closed(storage, out, Ending::Normal),
        Flow::TickLimit => {
            let ticks = limits.ticks;
            closed(storage, out, Ending::TickLimit { ticks })
        }
        Flow::Exhausted => {
            let ending = Ending::StorageExhausted {
                line: stop.line,
                used: storage.words,
                wanted: storage.wanted,
            };
            closed(storage, out, ending)
        }
        Flow::ExhaustedAt(line) => {
            let used = storage.words;
            let wanted = storage.wanted;
            closed(
                storage,
                out,
                Ending::StorageExhausted { line, used, wanted },
            )
        }
        Flow::Fault(error) => {
            let line = stop.line;
            closed(storage, out, Ending::RunFault { error, line })
        }
        Flow::FaultAt(error, line) => closed(storage, out, Ending::RunFault { error, line }),
        Flow::NoRule => without_rule(stop.at),
        Flow::Memory => Ending::Memory,
        Flow::InputFault => Ending::InputFault,
        Flow::WriteFault => Ending::Memory,
        Flow::On => Ending::Memory,
        Flow::Jumped => Ending::Memory,
    }
}
