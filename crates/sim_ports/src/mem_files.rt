//! Files in memory.
ghost use Rattle.std.specs.Prelude.{◌≡◌, ◌+◌, ◌<◌, ◌^◌, ℕ, [], None, Some, length, map, min, not, ◌&&◌, is_ok, is_some, string_bytes, IfOk, IfSome, OnOk, OnErr, Ok, IsOk, IsSome};
ghost use Rattle.std.specs.Io.{ReadsAtMost};
ghost use Rattle.std.specs.Io.KnownBytes.{ReadConsumes};
ghost use Rattle.std.specs.Option.{option_map};
ghost use Rattle.sim_ports.specs.Calls.{calls_in_pieces, fails_next, after_call, after_piece};
ghost use Rattle.sim_ports.specs.Faults.{HasCause};
ghost use Rattle.sim_ports.specs.Memory.{bytes_named, fresh_files, kept_named, left_of, plain};
ghost use Rattle.sim_ports.specs.Named.{IsOpen};

use crate::calls::Calls;
use crate::copying::copy_front;
use crate::{Failed, Files};
use sim_base::Memory;
use std::alloc::Global;
use std::marker::Model;

/// Files in memory. The calls with the listed numbers fail, and a `select` of a name that isn't there, and no others.
/// Calls are numbered from 0, `select` and `read` together; a `read` with an empty piece has no number. Of two files of
/// one name the first counts.
#[derive(Drop)]
pub struct MemFiles {
    files: Vec<(String, Vec<u8>)>,
    selected: Option<String>,
    is_open: bool,
    place: usize,
    calls: Calls,
}

impl Model for MemFiles {
    ghost use Rattle.std.specs.Prelude.{map};
    ghost use Rattle.sim_ports.specs.Memory.{StoredFiles, plain, left_of};
    ghost use Rattle.sim_ports.specs.Named.{selected_of};

    ghost Value = { StoredFiles };

    ghost view = { λ store. record {
      files = map plain store.files.items;
      selected = selected_of store.selected store.is_open;
      left = left_of (map plain store.files.items) store.selected store.is_open store.place;
      calls = store.calls;
    } };
}

impl MemFiles {
    /// Files with these names and bytes, of which none is selected.
    pub fn new(
        alloc: Global,
        files: &[(String, Vec<u8>)],
        failing: &[u64],
    ) -> Result<MemFiles, Memory>
        ensures fresh { IfOk result (λ store. store ≡ fresh_files (map plain files.now) failing.now) }
    {
        let mut copies = Vec::new(alloc);
        for (name, bytes) in files {
            copies.push((name.clone()?, Vec::from_slice(alloc, bytes)?))?;
        }
        Ok(MemFiles {
            files: copies,
            selected: None,
            is_open: false,
            place: 0,
            calls: Calls::new(alloc, failing)?,
        })
    }

    /// The same files, of which each later call moves at most `size` bytes.
    pub fn in_pieces(mut self, size: usize) -> Self
        requires { 0 < size }
        ensures files { result.files ≡ self.files }
        ensures selected { result.selected ≡ self.selected }
        ensures left { result.left ≡ self.left }
        ensures pieces { result.calls ≡ calls_in_pieces size self.calls }
    {
        self.calls.move_in_pieces(size);
        self
    }
}

// The bytes of the first file of this name.
#[tactic(auto, unfolding(crate::specs::Memory::kept_named))]
fn find_file<'a>(files: &'a [(String, Vec<u8>)], name: &str) -> Option<&'a [u8]>
    ensures { option_map (λ bytes. bytes.now) result ≡ kept_named files.entry.now name.now }
{
    files
        .iter()
        .find(|file| file.0.as_str() == name)
        .map(|file| file.1.as_slice())
}

// The bytes of the selected file behind a place, and none where no file is open.
#[tactic(auto, using(crate::proofs::FileLemmas::bytes_named_plain))]
fn rest_of<'a>(
    files: &'a [(String, Vec<u8>)],
    selected: &Option<String>,
    is_open: bool,
    place: usize,
) -> &'a [u8]
    ensures same { IfSome (left_of (map plain files.entry.now) selected.now is_open place) (λ left. result.now ≡ left) }
    ensures within { place + length result.now < 2 ^ 64 }
{
    if is_open
        && let Some(name) = selected
        && let Some(bytes) = find_file(files, name.as_str())
    {
        return &bytes[place.min(bytes.len())..];
    }
    &[]
}

impl Files for MemFiles {
    ghost content = { λ store name. bytes_named store.files name };

    ghost left = { λ store. store.left };

    ghost selected = { λ store. store.selected };

    ghost faults = { λ store. store.calls.faults };

    ghost is_sound = { λ store. store.calls.failing ≡ [] };

    #[tactic(auto, using(crate::proofs::FileLemmas::bytes_named_plain))]
    fn select(&mut self, name: String) -> Result<(), Failed>
        requires { self.old.selected ≡ None }
        ensures chosen { self.new.selected ≡ Some (record { name = string_bytes name; is_open = is_ok result }) }
        ensures content { OnOk result (IfSome (bytes_named self.old.files (string_bytes name)) (λ bytes. self.new.left ≡ Some bytes)) }
        ensures opened { OnOk result (self.new.left ≡ bytes_named self.old.files (string_bytes name)) }
        ensures cause { HasCause self.old.calls.faults self.new.calls.faults result }
        ensures steady { OnOk result (self.new.calls.faults ≡ self.old.calls.faults) }
        ensures sound { self.old.calls.failing ≡ [] → (self.new.calls.failing ≡ [])
            × (IsSome (bytes_named self.old.files (string_bytes name)) → IsOk result) }

        // Exactly the listed calls fail and those with an unknown name.
        ensures fails { is_ok result ≡ (not (fails_next self.old.calls) && is_some (bytes_named self.old.files (string_bytes name))) }
        ensures calls { self.new.calls ≡ after_call (is_ok result) self.old.calls }
        ensures closed { OnErr result (self.new.left ≡ None) }
        ensures files { self.new.files ≡ self.old.files }
    {
        let is_there = find_file(&self.files, name.as_str()).is_some();
        self.is_open = is_there && !self.calls.fails_next();
        self.selected = Some(name);
        self.place = 0;
        self.calls.count(self.is_open);
        if self.is_open { Ok(()) } else { Err(Failed) }
    }

    fn read(&mut self, into: &mut [u8]) -> Result<usize, Failed>
        requires { IsOpen self.old.selected }
        ensures bound { ReadsAtMost result into.new }
        ensures empty { length into.old ≡ 0 → result ≡ Ok 0 }
        ensures bytes { ReadConsumes self.old.left self.new.left result into.new }
        ensures chosen { self.new.selected ≡ self.old.selected }
        ensures cause { HasCause self.old.calls.faults self.new.calls.faults result }
        ensures steady { OnOk result (self.new.calls.faults ≡ self.old.calls.faults) }
        ensures sound { self.old.calls.failing ≡ [] → (self.new.calls.failing ≡ []) × IsOk result }

        // Exactly the listed calls fail, and the others give as much as there is room for, in a piece.
        ensures fails { 0 < length into.old → is_ok result ≡ not (fails_next self.old.calls) }
        ensures count { IfOk result (λ count. IfSome self.old.left (λ left. count ≡ min (min (length into.old) (length left)) self.old.calls.most)) }
        ensures calls { self.new.calls ≡ after_piece (length into.old) (is_ok result) self.old.calls }
        ensures files { self.new.files ≡ self.old.files }
    {
        if into.is_empty() {
            return Ok(0);
        }
        if self.calls.fails_next() {
            self.calls.count(false);
            return Err(Failed);
        }
        let rest = rest_of(&self.files, &self.selected, self.is_open, self.place);
        let count = copy_front(rest, into, self.calls.most());
        self.place += count;
        self.calls.count(true);
        Ok(count)
    }
}
