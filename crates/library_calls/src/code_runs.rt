//! Codes that are run to their ends: those of the machine's table, also where it has no rule.

use code_run::{CodeEnd, exec};
use sim_base::{Limits, Line};
use sim_code::{BlockKind, BlockRecord, Code, CodeType, Instr, Lined};
use sim_ports::{MemSink, MemSource};
use std::alloc::{AllocError, Global};
use std::test::*;

// The code of one block without cells, with these instructions, each at line 1.
fn code_of(alloc: Global, instrs: &[Instr]) -> Result<Code, AllocError> {
    let mut code = Code {
        texts: Vec::new(alloc),
        blocks: Vec::new(alloc),
        classes: Vec::new(alloc),
        thunks: Vec::new(alloc),
        actual_lists: Vec::new(alloc),
        instrs: Vec::new(alloc),
    };
    code.blocks.push(BlockRecord {
        kind: BlockKind::SubBlock,
        level: 1,
        cells: 0,
        temps: 0,
        room: 9,
        entry: 0,
        class_free: false,
        result_type: CodeType::Nothing,
        class: 0,
        types: Vec::new(alloc),
        formals: Vec::new(alloc),
    })?;
    for at in 0..instrs.len() {
        code.instrs.push(Lined {
            instr: instrs[at],
            line: Line(1),
        })?;
    }
    Ok(code)
}

#[test]
fn ends(rt: HostRuntime) -> Result<(), Fail> {
    let alloc = rt.alloc();
    let limits = Limits {
        storage: 1000,
        ticks: 7,
        in_length: 80,
        out_length: 132,
    };
    let rows = [
        (
            [Instr::Char(65), Instr::Std(38), Instr::Halt].as_slice(),
            CodeEnd::Normal,
            b"A\n".as_slice(),
        ),
        // The image of sysin has a number among the standard names, and there is no rule for it.
        (
            [Instr::Tick, Instr::Std(41), Instr::Halt].as_slice(),
            CodeEnd::BadCode { at: 1 },
            b"".as_slice(),
        ),
        (
            [Instr::Pop].as_slice(),
            CodeEnd::BadCode { at: 0 },
            b"".as_slice(),
        ),
        (
            [Instr::Tick].as_slice(),
            CodeEnd::BadCode { at: 1 },
            b"".as_slice(),
        ),
        (
            [Instr::Tick, Instr::Jump(0)].as_slice(),
            CodeEnd::TickLimit { ticks: 7 },
            b"".as_slice(),
        ),
        // No frame has so many cells, which is no want of memory.
        (
            [
                Instr::Tick,
                Instr::Addr {
                    level: 1,
                    cell: 4294967296,
                    class: 0,
                },
            ]
            .as_slice(),
            CodeEnd::BadCode { at: 1 },
            b"".as_slice(),
        ),
        // A jump leads back to a tick alone.
        (
            [Instr::Char(65), Instr::Pop, Instr::Jump(0)].as_slice(),
            CodeEnd::BadCode { at: 2 },
            b"".as_slice(),
        ),
    ];
    for (instrs, end, written) in rows.into_iter() {
        let code = code_of(alloc, instrs)?;
        let mut input = MemSource::new(alloc, b"", &[])?;
        let mut out = MemSink::new(alloc, &[], 9)?;
        assert_eq!(rt; exec(alloc, code, &limits, &mut input, &mut out), Ok(end));
        assert_eq!(rt; out.bytes(), written);
    }
    Ok(())
}
