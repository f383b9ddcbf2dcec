//! The fields of a code file, one by one: each reader answers the bytes behind the field, each writer puts the field at the end.
ghost use Rattle.std.specs.Prelude.{◌≡◌, ◌<◌, [], ◌∷◌, map, OnOk};
ghost use Rattle.code_file.specs.Fields.{Number, Opcode, Operand, Characters};
ghost use Rattle.code_file.specs.Reading.{Gives, number_at, listed_at, opcode_at, long_at, operand_at, characters_at};
ghost use Rattle.code_file.specs.Writing.{Appends};

use crate::fault::Fault;
use crate::rule::CodeRule;
use std::alloc::{AllocError, Global};

const ENDS_EARLY: Fault = Fault::Broken {
    rule: CodeRule::EndsEarly,
    left: 0,
};

/// The highest number of an instruction.
pub const LAST_OPCODE: u8 = 69;

/// A number.
pub fn read_number(bytes: &[u8]) -> Result<(u32, &[u8]), Fault>
    ensures { Gives (λ x. (x.0, x.1.now)) result (number_at bytes.now) }
{
    if bytes.len() < 4 {
        return Err(ENDS_EARLY);
    }
    let (front, rest) = bytes.split_at(4);
    let number = u32::from_le_bytes([front[0], front[1], front[2], front[3]]);
    Ok((number, rest))
}

/// A number of a list that goes from 0 to `last`.
#[tactic(auto, unfolding(crate::specs::Reading::listed_at))]
pub fn read_listed(bytes: &[u8], last: u32) -> Result<(u32, &[u8]), Fault>
    ensures { Gives (λ x. (x.0, x.1.now)) result (listed_at last bytes.now) }
{
    let (number, rest) = read_number(bytes)?;
    if number > last {
        return Err(Fault::Broken {
            rule: CodeRule::OutOfRange,
            left: bytes.len(),
        });
    }
    Ok((number, rest))
}

/// The number of an instruction.
#[tactic(auto, unfolding(crate::specs::Reading::opcode_at))]
pub fn read_opcode(bytes: &[u8]) -> Result<(u8, &[u8]), Fault>
    ensures { Gives (λ x. (x.0, x.1.now)) result (opcode_at bytes.now) }
{
    match bytes {
        [] => Err(ENDS_EARLY),
        [number, rest @ ..] => {
            if *number > LAST_OPCODE {
                return Err(Fault::Broken {
                    rule: CodeRule::OutOfRange,
                    left: bytes.len(),
                });
            }
            Ok((*number, rest))
        }
    }
}

// Eight bytes as an integer.
fn read_long(bytes: &[u8]) -> Result<(i64, &[u8]), Fault>
    ensures { Gives (λ x. (x.0, x.1.now)) result (long_at bytes.now) }
{
    if bytes.len() < 8 {
        return Err(ENDS_EARLY);
    }
    let (front, rest) = bytes.split_at(8);
    let number = i64::from_le_bytes([
        front[0], front[1], front[2], front[3], front[4], front[5], front[6], front[7],
    ]);
    Ok((number, rest))
}

/// An operand, which is 0 where the instruction has none there.
#[tactic(auto, unfolding(crate::specs::Reading::operand_at))]
pub fn read_operand(bytes: &[u8], used: bool) -> Result<(i64, &[u8]), Fault>
    ensures { Gives (λ x. (x.0, x.1.now)) result (operand_at used bytes.now) }
{
    let (operand, rest) = read_long(bytes)?;
    if !used && operand != 0 {
        return Err(Fault::Broken {
            rule: CodeRule::NotZero,
            left: bytes.len(),
        });
    }
    Ok((operand, rest))
}

/// So many characters.
#[tactic(auto, unfolding(crate::specs::Reading::characters_at))]
pub fn read_characters(alloc: Global, bytes: &[u8], count: u32) -> Result<(Vec<u8>, &[u8]), Fault>
    ensures { Gives (λ x. (x.0.items, x.1.now)) result (characters_at count bytes.now) }
{
    let count = count as usize;
    if bytes.len() < count {
        return Err(ENDS_EARLY);
    }
    let (text, rest) = bytes.split_at(count);
    Ok((Vec::from_slice(alloc, text)?, rest))
}

/// Writes a number.
pub fn put_number(out: &mut Vec<u8>, number: u32) -> Result<(), AllocError>
    ensures { OnOk result (Appends out.old.items out.new.items (Number number ∷ [])) }
{
    out.extend_from_slice(&number.to_le_bytes())?;
    Ok(())
}

/// Writes how many records there are. No file can say that there are 2^32 or more, and none has room for them.
pub fn put_count(out: &mut Vec<u8>, count: usize) -> Result<(), AllocError>
    ensures { OnOk result (Appends out.old.items out.new.items (Number count ∷ [])) }
{
    let count = u32::try_from(count).map_err(|_| AllocError)?;
    put_number(out, count)?;
    Ok(())
}

/// Writes the number of an instruction.
pub fn put_opcode(out: &mut Vec<u8>, number: u8) -> Result<(), AllocError>
    requires { number < 70 }
    ensures { OnOk result (Appends out.old.items out.new.items (Opcode number ∷ [])) }
{
    out.push(number)?;
    Ok(())
}

// Writes an operand.
fn put_operand(out: &mut Vec<u8>, operand: i64) -> Result<(), AllocError>
    ensures { OnOk result (Appends out.old.items out.new.items (Operand operand ∷ [])) }
{
    out.extend_from_slice(&operand.to_le_bytes())?;
    Ok(())
}

/// Writes operands.
pub fn put_operands(out: &mut Vec<u8>, operands: &[i64]) -> Result<(), AllocError>
    ensures { OnOk result (Appends out.old.items out.new.items (map Operand operands.now)) }
{
    for operand in operands {
        put_operand(out, *operand)?;
    }
    Ok(())
}

/// Writes the characters of a text.
pub fn put_characters(out: &mut Vec<u8>, text: &[u8]) -> Result<(), AllocError>
    ensures { OnOk result (Appends out.old.items out.new.items (Characters text.now ∷ [])) }
{
    out.extend_from_slice(text)?;
    Ok(())
}
