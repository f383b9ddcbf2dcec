// Sources that nest as deep as they may, or one deeper. They take much stack, and a program of the gate is run as two
// compilers build it, so they stand in a test and are no data of `examples`.

use crate::top_call::{Wanted, check, sound};
use std::alloc::Global;
use std::process::Abort;

fn add(rt: &impl Abort, source: &mut Vec<u8>, text: &[u8]) {
    source.extend_from_slice(text).expect(rt, "memory is ample");
}

// A text, so many times.
fn add_repeated(rt: &impl Abort, source: &mut Vec<u8>, text: &[u8], count: usize) {
    for _ in 0..count {
        add(rt, source, text);
    }
}

// Blocks in blocks, the outermost of which declares `i`, then an assignment of a value in parentheses. What stands innermost begins line 2.
fn nested(
    rt: &impl Abort,
    alloc: Global,
    blocks: usize,
    parentheses: usize,
    innermost: &[u8],
) -> Vec<u8> {
    let mut source = Vec::new(alloc);
    add(rt, &mut source, b"begin integer i; ");
    add_repeated(rt, &mut source, b"begin ", blocks.saturating_sub(1));
    if parentheses > 0 {
        add(rt, &mut source, b"i := ");
        add_repeated(rt, &mut source, b"(", parentheses);
    }
    add(rt, &mut source, b"\n");
    add(rt, &mut source, innermost);
    add_repeated(rt, &mut source, b")", parentheses);
    add_repeated(rt, &mut source, b" end", blocks);
    source
}

#[test]
fn nesting(rt: HostRuntime) {
    let prefix = b"line 2: S2 prefix is no class of this block\n".as_slice();
    let deep = b"line 2: Y2 nested too deeply\n".as_slice();
    let bad = b"line 2: Y1 unexpected token\n".as_slice();
    let rows = [
        (1, 198, b"1".as_slice(), b"".as_slice()),
        (1, 199, b"1", deep),
        (201, 0, b"", b""),
        (201, 0, b"begin end", deep),
        (201, 0, b"i := 1", deep),
        (201, 0, b"a class b;", prefix),
        (201, 0, b"a class b; i", deep),
        (201, 0, b"inner", deep),
        (201, 0, b"else", bad),
        (101, 98, b"1", b""),
        (101, 99, b"1", deep),
        (101, 99, b"else", bad),
    ];
    for (row, (blocks, parentheses, innermost, diag)) in rows.into_iter().enumerate() {
        let source = nested(&rt, rt.alloc(), blocks, parentheses, innermost);
        let wanted = Wanted {
            status: if diag.is_empty() { 0 } else { 1 },
            out: b"",
            diag,
        };
        check(
            &rt,
            rt.alloc(),
            row,
            &["run", "source.sim"],
            sound(&source),
            wanted,
        );
    }
}

// The value of the innermost expression comes out through as many parentheses as there may be.
#[test]
fn parentheses(rt: HostRuntime) {
    let deep = b"line 1: Y2 nested too deeply\n".as_slice();
    let rows = [
        (198, 0, b" 1\n".as_slice(), b"".as_slice()),
        (199, 1, b"", deep),
    ];
    for (row, (count, status, out, diag)) in rows.into_iter().enumerate() {
        let mut source = Vec::new(rt.alloc());
        add(&rt, &mut source, b"begin integer i; i := ");
        add_repeated(&rt, &mut source, b"(", count);
        add(&rt, &mut source, b"1");
        add_repeated(&rt, &mut source, b")", count);
        add(&rt, &mut source, b"; outint(i,2) end");
        let wanted = Wanted { status, out, diag };
        check(
            &rt,
            rt.alloc(),
            row,
            &["run", "source.sim"],
            sound(&source),
            wanted,
        );
    }
}
