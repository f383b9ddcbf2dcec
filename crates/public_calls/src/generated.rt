// `gen N`: the text of the generated program, and its run by the top call, whatever files and the input are.

use crate::top_call::{Setting, USAGE, Wanted, check, sound};
use generated_program::generated_program;
use std::test::Fail;

#[test]
fn text_of_three(rt: HostRuntime) {
    let text = generated_program(rt.alloc(), 3).expect(&rt, "memory is ample");
    let wanted = "simulation begin
integer done, total;
process class p(k); integer k;
begin
integer j;
for j := 1 step 1 until 3 do begin hold(k); total := total + time end;
done := done + 1
end;
activate new p(8);
activate new p(5);
activate new p(2);
hold(100); outint(done, 8); outint(total, 8); outimage
end
";
    assert!(rt; text.as_slice() == wanted.as_bytes());
}

#[test]
fn runs(rt: HostRuntime) {
    let rows = [
        (["gen", "3"].as_slice(), b"       3      90\n".as_slice()),
        (&["gen", "10"], b"      10     330\n"),
        (&["gen", "--", "0005"], b"       5     180\n"),
        (&["gen", "1", "--"], b"       1      48\n"),
    ];
    for (row, (words, out)) in rows.into_iter().enumerate() {
        let setting = Setting {
            files_failing: &[0],
            input_failing: &[0],
            ..sound(b"begin zz end")
        };
        let wanted = Wanted {
            status: 0,
            out,
            diag: b"",
        };
        check(&rt, rt.alloc(), row, words, setting, wanted);
    }
}

#[test]
fn words(rt: HostRuntime) {
    let rows = [
        ["gen"].as_slice(),
        &["gen", "0"],
        &["gen", "20001"],
        &["gen", "-3"],
        &["gen", "--", "-3"],
        &["gen", "+3"],
        &["gen", ""],
        &["gen", "3x"],
        &["gen", "00000000000000000003"],
        &["gen", "3", "3"],
        &["gen", "--ticks=5", "3"],
        &["gen", "3", "--storage", "1000"],
    ];
    for (row, words) in rows.into_iter().enumerate() {
        let wanted = Wanted {
            status: 5,
            out: b"",
            diag: USAGE,
        };
        check(&rt, rt.alloc(), row, words, sound(b""), wanted);
    }
}

// A full output.
#[test]
fn full(rt: HostRuntime) {
    let setting = Setting {
        out_failing: &[0],
        ..sound(b"")
    };
    let wanted = Wanted {
        status: 8,
        out: b"",
        diag: b"output fault\n",
    };
    check(&rt, rt.alloc(), 0, &["gen", "3"], setting, wanted);
}
