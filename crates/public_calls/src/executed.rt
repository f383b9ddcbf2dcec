// `exec`: what is wrong with a code file, and what the run of its code comes to.

use crate::top_call::{Wanted, answer_of, check, sound};
use std::alloc::Global;
use std::process::Abort;

const PROGRAM: &[u8] =
    b"begin\n  integer array a(1:4); integer k, i;\n  integer procedure sum(v, lo, hi, term); name v, term; integer v, lo, hi, term;\n  begin integer s;\n    v := lo;\n    while v <= hi do begin s := s + term; v := v + 1 end;\n    sum := s\n  end;\n  for i := 1 step 1 until 4 do a(i) := i + 10;\n  outint(sum(k, 1, 4, a(k)*k), 6); outimage\nend";

// A simulation block that is entered twice. Each time it has a process of its own.
const TWO_ENTRIES: &[u8] =
    b"begin\nclass k; ;\nref(k) keep, y; integer i;\nfor i := 1, 2 do\nsimulation begin\nprocess class p; ;\nref(p) x;\nx :- new p;\nif i = 1 then keep :- y\nelse\nactivate\nx\nend\nend";

// One block of level 1 with zeros else, and one instruction, `Pop` at line 1.
const POP: [u8; 101] =
    *b"SIMCODE1\0\0\0\0\x01\0\0\0\0\0\0\0\x01\0\0\0\0\0\0\0\0\0\0\0\0\0\0\0\0\0\0\0\0\0\0\0\0\0\0\0\0\0\0\0\0\0\0\0\0\0\0\0\0\0\0\0\0\0\0\0\x01\0\0\0\x12\0\0\0\0\0\0\0\0\0\0\0\0\0\0\0\0\0\0\0\0\0\0\0\0\x01\0\0\0";

#[test]
fn no_code_files(rt: HostRuntime) {
    let rows = [
        (
            b"".as_slice(),
            11,
            b"code byte 0: K1 no header\n".as_slice(),
        ),
        (b"SIMCODE1", 11, b"code byte 8: K2 file ends early\n"),
        (b"SIMCODE1\0\0", 11, b"code byte 10: K2 file ends early\n"),
        (&POP, 10, b"code 0: no rule\n"),
    ];
    for (row, (source, status, diag)) in rows.into_iter().enumerate() {
        let wanted = Wanted {
            status,
            out: b"",
            diag,
        };
        check(
            &rt,
            rt.alloc(),
            row,
            &["exec", "source.sim"],
            sound(source),
            wanted,
        );
    }
}

// The code of a program shows what the program shows, under each limit.
#[test]
fn compiled_code(rt: HostRuntime) {
    let code = answer_of(&rt, rt.alloc(), &["compile", "source.sim"], sound(PROGRAM));
    assert!(rt; code.status == 0);
    let rows = [
        (
            ["exec", "source.sim"].as_slice(),
            0,
            b"   130\n".as_slice(),
            b"".as_slice(),
        ),
        (
            &["exec", "--ticks=2", "source.sim"],
            4,
            b"",
            b"tick limit 2 reached\n",
        ),
        (
            &["exec", "source.sim", "--out-length", "3"],
            2,
            b"",
            b"line 10: E30 field longer than the image\n",
        ),
    ];
    for (row, (words, status, out, diag)) in rows.into_iter().enumerate() {
        let wanted = Wanted { status, out, diag };
        check(&rt, rt.alloc(), row, words, sound(code.out.bytes()), wanted);
    }
    let mut failing = sound(code.out.bytes());
    failing.out_failing = &[0];
    let wanted = Wanted {
        status: 8,
        out: b"",
        diag: b"output fault\n",
    };
    check(&rt, rt.alloc(), 3, &["exec", "source.sim"], failing, wanted);
}

// A file with other bytes at some places.
fn with_bytes(rt: &impl Abort, alloc: Global, file: &[u8], changes: &[(usize, u8)]) -> Vec<u8> {
    let mut changed = Vec::new(alloc);
    changed
        .extend_from_slice(file)
        .expect(rt, "memory is ample");
    for (place, byte) in changes.iter() {
        assert!(rt; *place < changed.len());
        changed[*place] = *byte;
    }
    changed
}

// In the second entry of a simulation block the process of the first one is activated. No source comes to that: the code that keeps
// nothing in the first entry, and takes the block's own process in the second, is changed.
#[test]
fn process_of_another_entry(rt: HostRuntime) {
    let compiled = answer_of(
        &rt,
        rt.alloc(),
        &["compile", "source.sim"],
        sound(TWO_ENTRIES),
    );
    assert!(rt; compiled.status == 0);
    let changes = [
        // In the first entry `Load 2 0`, `Store 1 0` and a jump behind them, in place of an address and what `y` has.
        (1719, 0x0f),
        (1720, 2),
        (1736, 0),
        (1748, 0x10),
        (1757, 0),
        (1777, 0x26),
        (1778, 42),
        // In the second one `Load 1 0`.
        (1894, 1),
    ];
    let changed = with_bytes(&rt, rt.alloc(), compiled.out.bytes(), &changes);
    let wanted = Wanted {
        status: 2,
        out: b"",
        diag: b"line 11: E53 process of another simulation\n",
    };
    check(
        &rt,
        rt.alloc(),
        0,
        &["exec", "source.sim"],
        sound(&changed),
        wanted,
    );
}
