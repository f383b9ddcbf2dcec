//! What the product asks of files, input and output. Each counts its faults.
ghost use Rattle.std.specs.Prelude.{◌≡◌, ◌+◌, ◌<◌, ◌≤◌, ℕ, List, Option, Some, None, length, is_ok, string_bytes, IfOk, IfSome, OnOk, OnErr, Ok, IsOk, IsSome};
ghost use Rattle.std.specs.Io.{ReadsAtMost};
ghost use Rattle.std.specs.Io.KnownBytes.{ReadConsumes, WriteAppends};
ghost use Rattle.sim_ports.specs.Faults.{HasCause};
ghost use Rattle.sim_ports.specs.Named.{Selected, IsOpen};

use thiserror::Error;

/// The outside has failed at this call: nothing was read or written, and the fault was counted.
#[derive(Clone, Copy, Debug, PartialEq, Eq, Error)]
#[error("the outside failed")]
pub struct Failed;

/// Files by name, of which one is selected, once, and then read.
pub trait Files {
    /// The bytes of each name, where they are told.
    ghost content: { Self → List ℕ → Option (List ℕ) };

    /// The bytes left of the selected file, where they are told: a file's whole bytes need not be told for that.
    ghost left: { Self → Option (List ℕ) };

    /// The name that was selected, and whether that call answered Ok.
    ghost selected: { Self → Option Selected };

    /// How often the outside has failed. It stands still at 2^64-1.
    ghost faults: { Self → ℕ };

    /// No call fails, but for a name whose bytes aren't told.
    ghost is_sound: { Self → Type 0 };

    /// Opens the file of this name. A name that isn't there is `Failed`.
    fn select(&mut self, name: String) -> Result<(), Failed>
        requires { selected self.old ≡ None }
        ensures chosen { selected self.new ≡ Some (record { name = string_bytes name; is_open = is_ok result }) }
        ensures content { OnOk result (IfSome (content self.old (string_bytes name)) (λ bytes. left self.new ≡ Some bytes)) }
        ensures cause { HasCause (faults self.old) (faults self.new) result }
        ensures steady { OnOk result (faults self.new ≡ faults self.old) }
        ensures sound { is_sound self.old → is_sound self.new × (IsSome (content self.old (string_bytes name)) → IsOk result) };

    /// Reads the next bytes of the selected file, which must be open, and answers how many. Of a nonempty piece there
    /// are none only at the end of the file.
    fn read(&mut self, into: &mut [u8]) -> Result<usize, Failed>
        requires { IsOpen (selected self.old) }
        ensures bound { ReadsAtMost result into.new }
        ensures empty { length into.old ≡ 0 → result ≡ Ok 0 }
        ensures bytes { ReadConsumes (left self.old) (left self.new) result into.new }
        ensures chosen { selected self.new ≡ selected self.old }
        ensures cause { HasCause (faults self.old) (faults self.new) result }
        ensures steady { OnOk result (faults self.new ≡ faults self.old) }
        ensures sound { is_sound self.old → is_sound self.new × IsOk result };
}

/// An input.
pub trait Source {
    /// The bytes left, where they are told.
    ghost left: { Self → Option (List ℕ) };

    /// The number of bytes that it can still give. It is always told, so a loop over any input ends.
    ghost can_give: { Self → ℕ };

    /// How often the outside has failed. It stands still at 2^64-1.
    ghost faults: { Self → ℕ };

    /// No call fails.
    ghost is_sound: { Self → Type 0 };

    /// Reads the next bytes, and answers how many. Of a nonempty piece there are none only at the end.
    fn read(&mut self, into: &mut [u8]) -> Result<usize, Failed>
        ensures bound { ReadsAtMost result into.new }
        ensures empty { length into.old ≡ 0 → result ≡ Ok 0 }
        ensures bytes { ReadConsumes (left self.old) (left self.new) result into.new }
        ensures gives { IfOk result (λ count. can_give self.old ≡ can_give self.new + count) }
        ensures gives_none { OnErr result (can_give self.new ≡ can_give self.old) }
        ensures cause { HasCause (faults self.old) (faults self.new) result }
        ensures steady { OnOk result (faults self.new ≡ faults self.old) }
        ensures sound { is_sound self.old → is_sound self.new × IsOk result };
}

/// An output.
pub trait Sink {
    /// The bytes written, where they are told.
    ghost written: { Self → Option (List ℕ) };

    /// How often the outside has failed. It stands still at 2^64-1.
    ghost faults: { Self → ℕ };

    /// The number of bytes that it takes with no fault, in whatever pieces.
    ghost room: { Self → ℕ };

    /// Writes some of the first bytes of the piece, and answers how many: at least one of a nonempty piece.
    fn write(&mut self, piece: &[u8]) -> Result<usize, Failed>
        ensures bound { IfOk result (λ count. count ≤ length piece.now) }
        ensures empty { length piece.now ≡ 0 → result ≡ Ok 0 }
        ensures progress { IfOk result (λ count. 0 < length piece.now → 0 < count) }
        ensures bytes { WriteAppends (written self.old) (written self.new) result piece.now }
        ensures cause { HasCause (faults self.old) (faults self.new) result }
        ensures steady { OnOk result (faults self.new ≡ faults self.old) }
        ensures sound { 0 < room self.old → IsOk result }
        ensures room { IfOk result (λ count. room self.old ≤ room self.new + count) };
}
