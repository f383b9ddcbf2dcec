// The commands that write the code of a program: what `list` writes is the listing of the code file that `compile` writes.

use crate::top_call::{Wanted, check, sound};
use code_file::{listing, read_code};
use sim_driver::simula;
use sim_ports::{MemFiles, MemSink, MemSource};
use std::alloc::Global;
use std::process::Abort;
use std::test::Fail;

const PROGRAM: &[u8] =
    b"begin\n  class a(n); integer n;\n  begin text t; t :- copy(\"ab\"); inner; outint(n, 3) end;\n  a class b; begin integer k; k := n end;\n  integer procedure p(i); name i; integer i; p := i + i;\n  ref (b) x;\n  x :- new b(p(2));\n  inspect x do outint(k, 3);\n  outimage\nend";

// What a command writes of the program, where it ends normally.
fn written(rt: &impl Abort, alloc: Global, command: &str) -> MemSink {
    let mut words = Vec::new(alloc);
    for word in [command, "source.sim"] {
        let text = String::from_str(alloc, word).expect(rt, "memory is ample");
        words.push(text).expect(rt, "memory is ample");
    }
    let name = String::from_str(alloc, "source.sim").expect(rt, "memory is ample");
    let source = Vec::from_slice(alloc, PROGRAM).expect(rt, "memory is ample");
    let mut files = MemFiles::new(alloc, &[(name, source)], &[]).expect(rt, "memory is ample");
    let mut input = MemSource::new(alloc, b"", &[]).expect(rt, "memory is ample");
    let mut out = MemSink::new(alloc, &[], 100_000).expect(rt, "memory is ample");
    let mut diag = MemSink::new(alloc, &[], 100).expect(rt, "memory is ample");
    let status = simula(alloc, &words, &mut files, &mut input, &mut out, &mut diag);
    assert!(rt; status.number() == 0);
    out
}

#[test]
fn one_code(rt: HostRuntime) {
    let alloc = rt.alloc();
    let file = written(&rt, alloc, "compile");
    let listed = written(&rt, alloc, "list");
    match read_code(alloc, file.bytes()) {
        Ok(code) => {
            let text = listing(alloc, &code).expect(&rt, "memory is ample");
            assert!(rt; text.as_slice() == listed.bytes());
        }
        Err(_) => assert!(rt; false, "it is a code file"),
    }
}

// Each refusal of a run, and a full output.
#[test]
fn refused(rt: HostRuntime) {
    let rows = [
        (
            b"begin zz end".as_slice(),
            b"line 1: S10 identifier not declared\n".as_slice(),
        ),
        (
            b"begin integer i;\ni :=\nend",
            b"line 3: Y1 unexpected token\n",
        ),
    ];
    for (row, (source, diag)) in rows.into_iter().enumerate() {
        for command in ["compile", "list"] {
            let wanted = Wanted {
                status: 1,
                out: b"",
                diag,
            };
            check(
                &rt,
                rt.alloc(),
                row,
                &[command, "source.sim"],
                sound(source),
                wanted,
            );
        }
    }
    for command in ["compile", "list"] {
        let mut failing = sound(b"begin end");
        failing.out_failing = &[0];
        let wanted = Wanted {
            status: 8,
            out: b"",
            diag: b"output fault\n",
        };
        check(
            &rt,
            rt.alloc(),
            2,
            &[command, "source.sim"],
            failing,
            wanted,
        );
    }
}
