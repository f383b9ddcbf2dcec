// Reads a file up to a limit.
ghost use Rattle.std.specs.Prelude.{◌≡◌, ◌+◌, ◌<◌, ◌≤◌, ◌^◌, None, length, take, List, ℕ, IfOk, IfSome, IsSome, IsErrOf, Some};
ghost use Rattle.sim_ports.specs.Faults.{Rose};
ghost use Rattle.sim_ports.specs.Named.{IsOpen};
ghost use Rattle.sim_driver.specs.Reading.{TakesAtMost};

use sim_lexer::SOURCE_LIMIT;
use sim_ports::{Failed, Files};
use std::alloc::{AllocError, Global};
use thiserror::Error;

/// Why a file wasn't read.
#[derive(Clone, Copy, Debug, PartialEq, Eq, Error)]
pub enum ReadFailure {
    #[error("want of memory")]
    Memory,
    #[error("cannot read the file")]
    File,
}

impl From<AllocError> for ReadFailure {
    ghost use Rattle.std.specs.Prelude.{◌≡◌};
    ghost use Rattle.sim_driver.specs.declared.reading.ReadFailure.TheVariants.{Memory};

    ghost from_gives = { λ _ failure. failure ≡ Memory };

    fn from(_: AllocError) -> Self {
        ReadFailure::Memory
    }
}

/// The bytes of a source file, of one that is longer than `SOURCE_LIMIT` one more than so many. It reads no further.
pub fn read_source<F: Files>(
    alloc: Global,
    files: &mut F,
    name: &str,
) -> Result<Vec<u8>, ReadFailure>
    requires { F.selected files.old ≡ None }
    ensures bytes { (content : List ℕ) → F.content files.old name.now ≡ Some content → IfOk result (λ bytes. bytes.items ≡ take (SOURCE_LIMIT + 1) content) }
    ensures within { IfOk result (λ bytes. length bytes.items ≤ SOURCE_LIMIT + 1) }
    ensures fault { IsErrOf result ReadFailure.File → Rose (F.faults files.old) (F.faults files.new) × IsSome (F.selected files.new) }
    ensures chosen { IfSome (F.selected files.new) (λ chosen. chosen.name ≡ name.now) }
    ensures read_to { (content : List ℕ) → F.content files.old name.now ≡ Some content → IsOpen (F.selected files.new) → TakesAtMost (SOURCE_LIMIT + 1) content (F.left files.new) }
    ensures later { F.faults files.old ≤ F.faults files.new }
{
    read_file(alloc, files, name, SOURCE_LIMIT)
}

/// The bytes of a file, of one that is longer than a limit one more than so many. It reads no further.
pub fn read_file<F: Files>(
    alloc: Global,
    files: &mut F,
    name: &str,
    limit: usize,
) -> Result<Vec<u8>, ReadFailure>
    requires selected { F.selected files.old ≡ None }
    requires room { limit + 1 < 2 ^ 64 }
    ensures bytes { (content : List ℕ) → F.content files.old name.now ≡ Some content → IfOk result (λ bytes. bytes.items ≡ take (limit + 1) content) }
    ensures within { IfOk result (λ bytes. length bytes.items ≤ limit + 1) }
    ensures fault { IsErrOf result ReadFailure.File → Rose (F.faults files.old) (F.faults files.new) × IsSome (F.selected files.new) }
    ensures chosen { IfSome (F.selected files.new) (λ chosen. chosen.name ≡ name.now) }
    ensures read_to { (content : List ℕ) → F.content files.old name.now ≡ Some content → IsOpen (F.selected files.new) → TakesAtMost (limit + 1) content (F.left files.new) }
    ensures later { F.faults files.old ≤ F.faults files.new }
{
    let name = String::from_str(alloc, name)?;
    files.select(name).map_err(|_| ReadFailure::File)?;
    read_open(alloc, files, limit)
}

// The bytes of the open file, at most one more than a limit.
fn read_open<F: Files>(alloc: Global, files: &mut F, limit: usize) -> Result<Vec<u8>, ReadFailure>
    requires open { IsOpen (F.selected files.old) }
    requires room { limit + 1 < 2 ^ 64 }
    ensures bytes { (content : List ℕ) → F.left files.old ≡ Some content → IfOk result (λ bytes. bytes.items ≡ take (limit + 1) content) }
    ensures within { IfOk result (λ bytes. length bytes.items ≤ limit + 1) }
    ensures fault { IsErrOf result ReadFailure.File → Rose (F.faults files.old) (F.faults files.new) }
    ensures chosen { F.selected files.new ≡ F.selected files.old }
    ensures read_to { (content : List ℕ) → F.left files.old ≡ Some content → TakesAtMost (limit + 1) content (F.left files.new) }
    ensures later { F.faults files.old ≤ F.faults files.new }
{
    let mut bytes = Vec::new(alloc);
    let mut buffer = [0u8; 4096];
    'reading: while bytes.len() <= limit {
        let room = buffer.len().min(limit + 1 - bytes.len());
        let Ok(count) = files.read(&mut buffer[..room]) else {
            return Err(ReadFailure::File);
        };
        if count == 0 {
            return Ok(bytes);
        }
        bytes.extend_from_slice(&buffer[..count])?;
    }
    Ok(bytes)
}
