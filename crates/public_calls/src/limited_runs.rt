// Programs run under limits of their own, by the call that compiles and runs, with fewer words than an option may give.

ghost use Rattle.std.specs.Prelude.{◌<◌, length};

use command_line::Command;
use sim_base::{Limits, Line};
use sim_driver::bind;
use sim_ports::{MemSink, MemSource};
use sim_run::{RunEnd, compile_and_run};
use std::alloc::Global;
use std::process::Abort;

// How the run of a short source ends; none where it has no end of its own.
fn run_source(
    alloc: Global,
    source: &[u8],
    limits: &Limits,
    input: &mut MemSource,
    out: &mut MemSink,
) -> Option<RunEnd>
    requires { length source.now < 1000 }
{
    match bind(alloc, Command::Run, source) {
        Ok(bound) => {
            let ran = compile_and_run(alloc, &bound, limits, input, out).ok()?;
            Some(ran.end)
        }
        Err(_) => None,
    }
}

// Runs a short source in few words and ticks, with lines of five characters, and compares how it ends and what it writes.
fn check_run(rt: &impl Abort, alloc: Global, source: &[u8], ending: RunEnd, written: &[u8]) {
    let limits = Limits {
        storage: 20,
        ticks: 100,
        in_length: 80,
        out_length: 5,
    };
    let mut input = MemSource::new(alloc, b"", &[]).expect(rt, "memory is ample");
    let mut out = MemSink::new(alloc, &[], 50).expect(rt, "memory is ample");
    assert!(rt; source.len() < 1000);
    let ended = run_source(alloc, source, &limits, &mut input, &mut out);
    assert!(rt; ended == Some(ending));
    assert!(rt; out.bytes() == written);
}

#[test]
fn limits(rt: HostRuntime) {
    let alloc = rt.alloc();
    let endless = RunEnd::TickLimit { ticks: 100 };
    check_run(&rt, alloc, b"begin while true do; end", endless, b"");
    let full = RunEnd::StorageExhausted {
        line: Line(1),
        used: 5,
        wanted: 25,
    };
    check_run(&rt, alloc, b"begin integer array a(1:20); end", full, b"");
    let source = b"begin outtext(\"ab\"); outtext(\"abcdefgh\") end";
    check_run(&rt, alloc, source, RunEnd::Normal, b"ab\nabcde\nfgh\n");
}
