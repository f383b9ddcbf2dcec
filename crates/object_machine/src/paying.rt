//! What an entry costs.
ghost use Rattle.std.specs.Prelude.{◌≡◌, ◌+◌, ℕ, List, Option};
ghost use Rattle.sim_code.specs.Machine.{Frames};
ghost use Rattle.sim_code.specs.Outcome.{World};
ghost use Rattle.object_machine.specs.Entering.{Pays};
ghost use Rattle.object_machine.specs.Standing.{Outside, Stores};

use crate::machine::{Flow, Storage};
use sim_base::Limits;

/// Takes a tick, and then so many words.
#[inline(always)]
pub fn pay(limits: &Limits, storage: &mut Storage, wanted: u64) -> Flow
    ensures texts { storage.new.texts ≡ storage.old.texts }
    ensures image { storage.new.image ≡ storage.old.image }
    ensures read { result ≡ Flow.InputFault → ⊥ }
    ensures same { result ≡ Flow.On → storage.new ≡ record storage.old { ticks = storage.old.ticks + 1; words = storage.old.words + wanted; wanted = wanted } }
    ensures row { (line : ℕ) (before : Option (List ℕ)) (now : Outside) (o : World) (m : Frames) → Stores limits.now storage.old before now o m → Pays result limits.now line wanted storage.new before now o m }
{
    if storage.ticks >= limits.ticks {
        return Flow::TickLimit;
    }
    storage.ticks += 1;
    storage.wanted = wanted;
    let budget = u64::from(limits.storage);
    if wanted > budget || storage.words > budget - wanted {
        return Flow::Exhausted;
    }
    storage.words += wanted;
    Flow::On
}
