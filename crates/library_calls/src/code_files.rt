//! Code files: the example of the format, a code with each kind of record, and what is told of bytes that are no code file.
ghost use Rattle.std.specs.Prelude.{IfOk};
ghost use Rattle.std.specs.List.{AllByRecursion};
ghost use Rattle.code_file.specs.Spelling.{HasTypes};

use code_file::{CodeRefusal, CodeRule, listing, read_code, write_code};
use sim_base::{ByteString, Line};
use sim_code::{
    ActualList, BlockKind, BlockRecord, ClassRecord, Code, CodeActual, CodeFormal, CodeMode,
    CodeType, FormalShape, Instr, Lined, Match, ThunkRecord,
};
use std::alloc::{AllocError, Global};
use std::test::*;

// Where the fields of the example begin.
const BLOCK: usize = 16;

const INSTRUCTION: usize = 72;

// One block of level 1 with zeros else, and one instruction, `Pop` at line 1.
fn example(alloc: Global) -> Result<Vec<u8>, AllocError> {
    let mut bytes = Vec::from_slice(alloc, b"SIMCODE1\0\0\0\0\x01\0\0\0")?;
    bytes.extend_from_slice(b"\0\0\0\0\x01\0\0\0")?;
    for _ in 0..8 {
        bytes.extend_from_slice(b"\0\0\0\0")?;
    }
    // No classes, no thunks, no actual lists, and one instruction.
    bytes.extend_from_slice(b"\0\0\0\0\0\0\0\0\0\0\0\0\x01\0\0\0")?;
    bytes.push(18)?;
    for _ in 0..24 {
        bytes.push(0)?;
    }
    bytes.extend_from_slice(b"\x01\0\0\0")?;
    Ok(bytes)
}

// The same with another byte at a place.
fn altered(alloc: Global, place: usize, byte: u8) -> Result<Vec<u8>, AllocError> {
    let mut bytes = example(alloc)?;
    if place < bytes.len() {
        bytes[place] = byte;
    }
    Ok(bytes)
}

// Whether this rule is told, at this place.
fn tells(alloc: Global, bytes: &[u8], rule: CodeRule, place: u64) -> bool {
    match read_code(alloc, bytes) {
        Err(
            CodeRefusal::Broken {
                rule: told,
                place: at,
            },
        ) => told == rule && at == place,
        _ => false,
    }
}

#[test]
fn the_example(rt: HostRuntime) -> Result<(), Fail> {
    let alloc = rt.alloc();
    let bytes = example(alloc)?;
    assert_eq!(rt; bytes.len(), 101);
    let code = read_code(alloc, &bytes)
        .ok()
        .ok_or("the bytes are a code file")?;
    assert_eq!(rt; code.blocks.len(), 1);
    assert_eq!(rt; code.instrs.len(), 1);
    assert!(rt; code.instrs[0].instr == Instr::Pop);
    assert_eq!(rt; code.instrs[0].line, Line(1));
    let text = listing(alloc, &code).ok().ok_or("there is memory")?;
    assert_eq!(rt; text.as_slice(), b"0 Pop ; line 1\n".as_slice());
    Ok(())
}

#[test]
fn cut_at_each_byte(rt: HostRuntime) -> Result<(), Fail> {
    let alloc = rt.alloc();
    let bytes = example(alloc)?;
    for count in 0..bytes.len() {
        let cut = &bytes[..count];
        if count < 8 {
            assert!(rt; tells(alloc, cut, CodeRule::NoHeader, 0));
        } else {
            assert!(rt; tells(alloc, cut, CodeRule::EndsEarly, count as u64));
        }
    }
    Ok(())
}

#[test]
fn faults(rt: HostRuntime) -> Result<(), Fail> {
    let alloc = rt.alloc();
    let table = [
        (0, 115, CodeRule::NoHeader, 0),
        // A kind of block, a class-free field and a result type that are none.
        (BLOCK, 4, CodeRule::OutOfRange, 16),
        (BLOCK + 3, 1, CodeRule::OutOfRange, 16),
        (BLOCK + 24, 2, CodeRule::OutOfRange, 40),
        (BLOCK + 28, 6, CodeRule::OutOfRange, 44),
        // Two cells: their types are the counts of classes and thunks, and what follows is shorter by as much.
        (BLOCK + 8, 2, CodeRule::AfterEnd, 88),
        // A formal parameter: its fields are the counts up to that of instructions, and then there is a class, whose mark of a process is none.
        (BLOCK + 36, 1, CodeRule::OutOfRange, 96),
        // Counts without records.
        (8, 255, CodeRule::EndsEarly, 101),
        (68 + 3, 255, CodeRule::EndsEarly, 101),
        // No instruction has the number 70, and `Pop` has no operands.
        (INSTRUCTION, 70, CodeRule::OutOfRange, 72),
        (INSTRUCTION + 8, 1, CodeRule::NotZero, 73),
        (INSTRUCTION + 9, 1, CodeRule::NotZero, 81),
        (INSTRUCTION + 24, 255, CodeRule::NotZero, 89),
        // No instruction where there is one.
        (68, 0, CodeRule::AfterEnd, 72),
    ];
    for (place, byte, rule, at) in &table {
        let bytes = altered(alloc, *place, *byte)?;
        assert!(rt; tells(alloc, &bytes, *rule, *at));
    }
    let mut more = example(alloc)?;
    more.push(0)?;
    assert!(rt; tells(alloc, &more, CodeRule::AfterEnd, 101));
    Ok(())
}

fn formals(alloc: Global) -> Result<Vec<CodeFormal>, AllocError> {
    let mut formals = Vec::new(alloc);
    formals.push(CodeFormal {
        mode: CodeMode::Name,
        shape: FormalShape::Procedure,
        code_type: CodeType::Text,
        class: 7,
    })?;
    Ok(formals)
}

fn block(alloc: Global) -> Result<BlockRecord, AllocError>
    ensures { IfOk result (λ block. HasTypes block) }
{
    let mut types = Vec::new(alloc);
    types.push(CodeType::Integer)?;
    types.push(CodeType::Reference)?;
    Ok(BlockRecord {
        kind: BlockKind::Prefixed,
        level: 1,
        cells: 1,
        temps: 1,
        room: 9,
        entry: u32::MAX,
        class_free: true,
        result_type: CodeType::Nothing,
        class: 3,
        types,
        formals: formals(alloc)?,
    })
}

fn class(alloc: Global) -> Result<ClassRecord, AllocError> {
    let mut matches = Vec::new(alloc);
    matches.push(Match {
        virtual_number: 5,
        block: 6,
    })?;
    Ok(ClassRecord {
        prefix: 0,
        block: 1,
        declarations: 2,
        statements: 3,
        after_inner: 4,
        process: true,
        matches,
    })
}

fn actual_list(alloc: Global) -> Result<ActualList, AllocError> {
    let mut actuals = Vec::new(alloc);
    actuals.push(CodeActual {
        code_type: CodeType::Text,
        variable: true,
        array: CodeType::Integer,
        procedure: false,
        result_type: CodeType::Character,
        formals: 3,
        class: 4,
    })?;
    Ok(ActualList { actuals })
}

// A code with each kind of record.
fn a_code(alloc: Global) -> Result<Code, AllocError>
    ensures { IfOk result (λ code. AllByRecursion HasTypes code.blocks) }
{
    let mut code = Code {
        texts: Vec::new(alloc),
        blocks: Vec::new(alloc),
        classes: Vec::new(alloc),
        thunks: Vec::new(alloc),
        actual_lists: Vec::new(alloc),
        instrs: Vec::new(alloc),
    };
    code.texts
        .push(ByteString::new(Vec::from_slice(alloc, b"a text")?))?;
    code.texts.push(ByteString::new(Vec::new(alloc)))?;
    code.blocks.push(block(alloc)?)?;
    code.classes.push(class(alloc)?)?;
    code.thunks.push(ThunkRecord {
        entry: 77,
        room: 78,
    })?;
    code.actual_lists.push(actual_list(alloc)?)?;
    code.instrs.push(Lined {
        instr: Instr::Addr {
            level: 1,
            cell: -2,
            class: i64::MIN,
        },
        line: Line(3),
    })?;
    code.instrs.push(Lined {
        instr: Instr::Int(i64::MAX),
        line: Line(u32::MAX),
    })?;
    Ok(code)
}

#[test]
fn written_and_read(rt: HostRuntime) -> Result<(), Fail> {
    let alloc = rt.alloc();
    let code = a_code(alloc)?;
    let bytes = write_code(alloc, &code).ok().ok_or("there is memory")?;
    let read = read_code(alloc, &bytes)
        .ok()
        .ok_or("the bytes are a code file")?;
    let again = write_code(alloc, &read).ok().ok_or("there is memory")?;
    assert!(rt; bytes.as_slice() == again.as_slice());
    let text = listing(alloc, &read).ok().ok_or("there is memory")?;
    assert_eq!(rt;
        text.as_slice(),
        b"0 Addr 1 -2 -9223372036854775808 ; line 3\n1 Int 9223372036854775807 ; line 4294967295\n".as_slice()
    );
    Ok(())
}
