//! Records that stand one behind the other.
ghost use Rattle.std.specs.Prelude.{◌≡◌, ◌<◌, ◌≤◌, ◌*◌, ℕ, [], ◌∷◌, List, Result, length, IfOk, OnOk};
ghost use Rattle.std.specs.Prelude.{vec_capacity};
ghost use Rattle.std.specs.List.{flat_map};
ghost use Rattle.code_file.specs.Fields.{Field};
ghost use Rattle.code_file.specs.Reading.{Gives, Reader, records_at, section_at};
ghost use Rattle.code_file.specs.Spelling.{section};
ghost use Rattle.code_file.specs.Writing.{Appends};

use crate::fault::Fault;
use crate::fields::{put_count, read_number};
use std::alloc::{AllocError, Global};

/// A record of a code file.
pub trait Record: Drop {
    /// The fields of a record.
    ghost fields: { Self → List Field };

    /// What reads a record at the front of bytes.
    ghost reading: { Reader Self };

    /// How many bytes the least record has.
    ghost LEAST: { ℕ };

    /// How many bytes the least record has.
    const LEAST: usize;

    /// The record at the front of the bytes, and the bytes behind it.
    fn read(alloc: Global, bytes: &[u8]) -> Result<(Self, &[u8]), Fault>
        ensures { Gives (λ x. (x.0, x.1.now)) result (reading bytes.now) };

    /// Writes the record at the end.
    fn write(&self, out: &mut Vec<u8>) -> Result<(), AllocError>
        ensures { OnOk result (Appends out.old.items out.new.items (fields self.now)) };

    /// No record has no bytes.
    ghost some: { 0 < LEAST };
}

// A list that has room for so many records, but for no more than the bytes can hold.
fn with_room<R: Record>(alloc: Global, count: usize, bytes: &[u8]) -> Result<Vec<R>, AllocError>
    ensures empty { IfOk result (λ records. records.items ≡ []) }
    ensures room { IfOk result (λ records. vec_capacity records * R.LEAST ≤ length bytes.now) }
{
    Vec::with_capacity(alloc, count.min(bytes.len() / R::LEAST))
}

/// So many records. Room is taken for those that are there, whatever the count says.
pub fn read_records<R: Record>(
    alloc: Global,
    bytes: &[u8],
    count: usize,
) -> Result<(Vec<R>, &[u8]), Fault>
    ensures { Gives (λ x. (x.0.items, x.1.now)) result (records_at R.reading count bytes.now) }
{
    let mut records = with_room(alloc, count, bytes)?;
    let mut rest = bytes;
    for _ in 0..count {
        let (record, after) = R::read(alloc, rest)?;
        records.push(record)?;
        rest = after;
    }
    Ok((records, rest))
}

/// A count, and so many records.
#[tactic(auto, unfolding(crate::specs::Reading::section_at))]
pub fn read_section<R: Record>(alloc: Global, bytes: &[u8]) -> Result<(Vec<R>, &[u8]), Fault>
    ensures { Gives (λ x. (x.0.items, x.1.now)) result (section_at R.reading bytes.now) }
{
    let (count, rest) = read_number(bytes)?;
    read_records(alloc, rest, count as usize)
}

/// Writes the records.
pub fn put_records<R: Record>(out: &mut Vec<u8>, records: &[R]) -> Result<(), AllocError>
    ensures { OnOk result (Appends out.old.items out.new.items (flat_map R.fields records.now)) }
{
    for record in records {
        record.write(out)?;
    }
    Ok(())
}

/// Writes how many records there are, and the records.
pub fn put_section<R: Record>(out: &mut Vec<u8>, records: &[R]) -> Result<(), AllocError>
    ensures { OnOk result (Appends out.old.items out.new.items (section R.fields records.now)) }
{
    put_count(out, records.len())?;
    put_records(out, records)?;
    Ok(())
}
