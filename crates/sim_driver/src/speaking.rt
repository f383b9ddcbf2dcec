// Writes the line of a status to the diagnostic output.
ghost use Rattle.std.specs.Prelude.{◌≡◌, ◌≤◌, ◌⊎◌, IfOk, false, true, string_bytes};
ghost use Rattle.std.specs.Io.KnownBytes.{Appends};
ghost use Rattle.sim_ports.specs.Faults.{Rose, Steady};
ghost use Rattle.sim_driver.specs.Speaking.{Says, after_cut, needs_memory};
ghost use Rattle.sim_driver.specs.Status.{is_told, line_text};

use crate::status::Status;
use sim_ports::{Sink, write_all};
use std::alloc::{AllocError, Global};

/// Writes the line of a status, and answers what the status is then. Where memory is refused for the line, it writes that
/// of want of memory. A status behind which the output may have been written to takes no memory.
pub fn write_status_line<D: Sink>(alloc: Global, status: Status, diag: &mut D) -> Status
    ensures ends { (result ≡ status) ⊎ ((result ≡ Status.Memory) ⊎ (result ≡ Status.WriteFault) × Rose (D.faults diag.old) (D.faults diag.new)) }
    ensures line { Steady (D.faults diag.old) (D.faults diag.new) → Appends (D.written diag.old) (D.written diag.new) (line_text result) }
    ensures told { is_told result ≡ true → Appends (D.written diag.old) (D.written diag.new) (line_text result) × (D.faults diag.new ≡ D.faults diag.old) }
    ensures says { Says status result (D.written diag.old) (D.written diag.new) (D.faults diag.old) (D.faults diag.new)
        ⊎ Says Status.Memory result (D.written diag.old) (D.written diag.new) (D.faults diag.old) (D.faults diag.new) }
    ensures later { D.faults diag.old ≤ D.faults diag.new }
    ensures wants { result ≡ Status.Memory → needs_memory status ≡ true }
{
    match status {
        Status::Normal => write_line(status, b"", diag),
        Status::WriteFault => write_line(status, b"output fault\n", diag),
        status => match line_of(alloc, status) {
            Ok(line) => write_line(status, line.as_bytes(), diag),
            Err(AllocError) => write_line(Status::Memory, b"want of memory\n", diag),
        },
    }
}

// The line of a status that is no normal end, with its line feed.
fn line_of(alloc: Global, status: Status) -> Result<String, AllocError>
    requires { status ≡ Status.Normal → ⊥ }
    ensures { IfOk result (λ line. string_bytes line ≡ line_text status) }
{
    format!(in alloc; "{status}\n")
}

// Writes a line, which is that of a status, and answers what the status is then.
fn write_line<D: Sink>(status: Status, line: &[u8], diag: &mut D) -> Status
    requires { line.now ≡ line_text status }
    ensures ends { (result ≡ status) ⊎ ((result ≡ Status.Memory) ⊎ (result ≡ Status.WriteFault) × Rose (D.faults diag.old) (D.faults diag.new)) }
    ensures line { Steady (D.faults diag.old) (D.faults diag.new) → Appends (D.written diag.old) (D.written diag.new) (line_text result) }
    ensures told { is_told result ≡ true → Appends (D.written diag.old) (D.written diag.new) (line_text result) × (D.faults diag.new ≡ D.faults diag.old) }
    ensures says { Says status result (D.written diag.old) (D.written diag.new) (D.faults diag.old) (D.faults diag.new) }
    ensures later { D.faults diag.old ≤ D.faults diag.new }
    ensures wants { result ≡ Status.Memory → status ≡ Status.Memory }
{
    match write_all(diag, line) {
        Ok(()) => status,
        Err(_) => after_cut(status),
    }
}

// The status after its line could not be written whole.
fn after_cut(status: Status) -> Status
    ensures cut { result ≡ after_cut status }
    ensures untold { is_told result ≡ false }
    ensures which { (result ≡ Status.Memory) ⊎ (result ≡ Status.WriteFault) }
    ensures wants { result ≡ Status.Memory → status ≡ Status.Memory }
{
    match status {
        Status::Memory => Status::Memory,
        _ => Status::WriteFault,
    }
}
