//! Code as text.
ghost use Rattle.std.specs.Prelude.{◌≡◌, ◌++◌, ◌≤◌, IfOk, OnOk, ℤ, length, take};
ghost use Rattle.std.specs.List.{flat_map};
ghost use Rattle.code_file.specs.Listing.{listed_line, listed_operand, listing_of};

use crate::instructions::row_of;
use itoa::Buffer;
use sim_base::Memory;
use sim_code::{Code, Lined};
use std::alloc::{AllocError, Global};

// The operands, each behind a blank.
fn put_operands(out: &mut Vec<u8>, operands: &[i64]) -> Result<(), AllocError>
    ensures { OnOk result (out.new.items ≡ out.old.items ++ flat_map listed_operand operands.now) }
{
    let mut buffer = Buffer::new();
    for operand in operands {
        out.push(b' ')?;
        out.extend_from_slice(buffer.format(*operand).as_bytes())?;
    }
    Ok(())
}

// The line of an instruction.
fn put_line(out: &mut Vec<u8>, index: usize, lined: Lined) -> Result<(), AllocError>
    ensures { OnOk result (out.new.items ≡ out.old.items ++ listed_line index lined) }
{
    let mut buffer = Buffer::new();
    let row = row_of(lined.instr);
    out.extend_from_slice(buffer.format(index).as_bytes())?;
    out.push(b' ')?;
    out.extend_from_slice(row.name.as_bytes())?;
    put_operands(out, &row.operands[..row.count])?;
    out.extend_from_slice(b" ; line ")?;
    out.extend_from_slice(buffer.format(lined.line.0).as_bytes())?;
    out.push(b'\n')?;
    Ok(())
}

/// The listing of a code: for each instruction its index, its name and operands, and its line.
pub fn listing(alloc: Global, code: &Code) -> Result<Vec<u8>, Memory>
    ensures { IfOk result (λ text. text.items ≡ listing_of code.now) }
{
    let mut out = Vec::new(alloc);
    for (index, lined) in code.instrs.iter().enumerate() {
        put_line(&mut out, index, *lined)?;
    }
    Ok(out)
}
