//! Whole code files.
ghost use Rattle.std.specs.Prelude.{◌≡◌, ◌<◌, ◌≤◌, ℕ, length, IfOk, IfErr, OnOk};
ghost use Rattle.std.specs.List.{AllByRecursion};
ghost use Rattle.sim_code.specs.Code.{CodeOf};
ghost use Rattle.code_file.specs.Faults.{Breaks};
ghost use Rattle.code_file.specs.Reading.{Gives, LeavesWithin, Tells, code_at, file_at, limited, limited_rule, read_of, refusal_of};
ghost use Rattle.code_file.specs.Spelling.{HasTypes, IsCode, Spells, code_fields, largest, spelling};
ghost use Rattle.code_file.specs.Writing.{Appends};
ghost use Rattle.code_file.specs.Laws.{Answers, IsTold, Refuses};

use crate::fault::{CodeRefusal, Fault};
use crate::rule::CodeRule;
use crate::sections::{put_section, read_section};
use sim_base::Memory;
use sim_code::Code;
use std::alloc::{AllocError, Global};

/// What each code file begins with.
const HEADER: [u8; 8] = *b"SIMCODE1";

/// How many bytes a code file has at most.
const LARGEST: usize = 1 << 30;

// The code that stands at the front of the bytes.
#[tactic(auto, unfolding(crate::specs::Reading::code_at))]
fn read_sections(alloc: Global, bytes: &[u8]) -> Result<(Code, &[u8]), Fault>
    ensures { Gives (λ x. (x.0, x.1.now)) result (code_at bytes.now) }
{
    let (texts, rest) = read_section(alloc, bytes)?;
    let (blocks, rest) = read_section(alloc, rest)?;
    let (classes, rest) = read_section(alloc, rest)?;
    let (thunks, rest) = read_section(alloc, rest)?;
    let (actual_lists, rest) = read_section(alloc, rest)?;
    let (instrs, rest) = read_section(alloc, rest)?;
    let code = Code {
        texts,
        blocks,
        classes,
        thunks,
        actual_lists,
        instrs,
    };
    Ok((code, rest))
}

// The code that the bytes spell, however many they are.
#[tactic(auto, unfolding(crate::specs::Reading::file_at))]
fn read_file(alloc: Global, bytes: &[u8]) -> Result<Code, Fault>
    ensures { Gives (λ x. x) result (file_at bytes.now) }
{
    let Some(sections) = bytes.strip_prefix(&HEADER) else {
        return Err(Fault::Broken {
            rule: CodeRule::NoHeader,
            left: bytes.len(),
        });
    };
    let (code, rest) = read_sections(alloc, sections)?;
    if !rest.is_empty() {
        return Err(Fault::Broken {
            rule: CodeRule::AfterEnd,
            left: rest.len(),
        });
    }
    Ok(code)
}

// What is wrong, with its place in so many bytes.
fn refusal(fault: Fault, count: usize) -> CodeRefusal
    requires { LeavesWithin fault count }
    ensures { result ≡ refusal_of fault count }
{
    match fault {
        Fault::Memory => CodeRefusal::Memory,
        Fault::Broken { rule, left } => CodeRefusal::Broken {
            rule,
            place: (count - left) as u64,
        },
    }
}

// Where the bytes go on past the limit, they do not end early: there are too many.
fn limited_rule(rule: CodeRule) -> CodeRule
    ensures { result ≡ limited_rule rule }
{
    match rule {
        CodeRule::NoHeader => CodeRule::NoHeader,
        CodeRule::EndsEarly => CodeRule::AfterEnd,
        CodeRule::OutOfRange => CodeRule::OutOfRange,
        CodeRule::NotZero => CodeRule::NotZero,
        CodeRule::AfterEnd => CodeRule::AfterEnd,
    }
}

fn limited(fault: Fault) -> Fault
    ensures { result ≡ limited fault }
{
    match fault {
        Fault::Memory => Fault::Memory,
        Fault::Broken { rule, left } => Fault::Broken {
            rule: limited_rule(rule),
            left,
        },
    }
}

// The code of bytes within the limit.
fn read_within(alloc: Global, bytes: &[u8]) -> Result<Code, CodeRefusal>
    requires { length bytes.now ≤ largest }
    ensures { Tells result (read_of bytes.now) }
{
    match read_file(alloc, bytes) {
        Ok(code) => Ok(code),
        Err(fault) => Err(refusal(fault, bytes.len())),
    }
}

// What is wrong with more bytes than a code file has.
fn read_past(alloc: Global, bytes: &[u8]) -> Result<Code, CodeRefusal>
    requires { largest < length bytes.now }
    ensures { Tells result (read_of bytes.now) }
{
    match read_file(alloc, &bytes[..LARGEST]) {
        Ok(_) => Err(CodeRefusal::Broken {
            rule: CodeRule::AfterEnd,
            place: LARGEST as u64,
        }),
        Err(fault) => Err(refusal(limited(fault), LARGEST)),
    }
}

// The code of the bytes, or what is wrong with them.
fn read(alloc: Global, bytes: &[u8]) -> Result<Code, CodeRefusal>
    ensures { Tells result (read_of bytes.now) }
{
    if bytes.len() <= LARGEST {
        read_within(alloc, bytes)
    } else {
        read_past(alloc, bytes)
    }
}

/// The code that the bytes spell: a code file of 2^30 bytes at most. Of bytes that are none the first thing that is wrong is told; memory is
/// asked for what is there, and for nothing that a count only claims.
pub fn read_code(alloc: Global, bytes: &[u8]) -> Result<Code, CodeRefusal>
    ensures found { IfOk result (λ code. Spells bytes.now code) }
    ensures only { (code : CodeOf) → Spells bytes.now code → Answers code result }
    ensures broken { IfErr result (λ refusal. IsTold bytes.now refusal) }
    ensures refused { (rule : CodeRule) (place : ℕ) → Breaks bytes.now rule place → Refuses rule place result }
{
    read(alloc, bytes)
}

// Writes the sections of a code at the end.
fn put_code(out: &mut Vec<u8>, code: &Code) -> Result<(), AllocError>
    ensures { OnOk result (Appends out.old.items out.new.items (code_fields code.now)) }
{
    put_section(out, code.texts.as_slice())?;
    put_section(out, code.blocks.as_slice())?;
    put_section(out, code.classes.as_slice())?;
    put_section(out, code.thunks.as_slice())?;
    put_section(out, code.actual_lists.as_slice())?;
    put_section(out, code.instrs.as_slice())?;
    Ok(())
}

/// The code as a code file. A list of 2^32 records or more has no place there: it is want of memory.
pub fn write_code(alloc: Global, code: &Code) -> Result<Vec<u8>, Memory>
    requires { AllByRecursion HasTypes code.now.blocks }
    ensures is_code { IfOk result (λ bytes. IsCode code.now) }
    ensures spelt { IfOk result (λ bytes. bytes.items ≡ spelling code.now) }
{
    let mut out = Vec::from_slice(alloc, &HEADER)?;
    put_code(&mut out, code)?;
    Ok(out)
}
