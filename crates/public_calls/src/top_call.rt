// Whole commands over files, input, output and diagnostic output in memory: the words with their options, the limit of a source, and calls
// that fail.
// Whole sources stand in the data of the crate `examples`.

use sim_driver::{Status, simula};
use sim_lexer::SOURCE_LIMIT;
use sim_ports::{MemFiles, MemSink, MemSource};
use std::alloc::Global;
use std::process::Abort;
use std::test::Fail;

// The line of words that are no command.
pub const USAGE: &[u8] =
    b"usage: simula run|exec [--storage W] [--ticks N] [--in-length N] [--out-length N] FILE, check|compile|list|print|xref FILE, gen N\n";

// What is done to a command: the source in the file `source.sim`, the input, the calls that fail, and the most bytes that one call moves.
#[derive(Clone, Copy)]
pub struct Setting<'a> {
    pub source: &'a [u8],
    pub files_failing: &'a [u64],
    pub input: &'a [u8],
    pub input_failing: &'a [u64],
    pub out_failing: &'a [u64],
    pub out_room: usize,
    pub diag_failing: &'a [u64],
    pub diag_room: usize,
    pub piece: usize,
}

// What a command is to answer: its status, its output and its line.
#[derive(Clone, Copy)]
pub struct Wanted<'a> {
    pub status: u8,
    pub out: &'a [u8],
    pub diag: &'a [u8],
}

// What a command answered.
#[derive(Drop)]
pub struct Answer {
    pub status: u8,
    pub out: MemSink,
    pub diag: MemSink,
}

// Nothing fails, and each call moves as much as there is.
pub fn sound(source: &[u8]) -> Setting<'_> {
    Setting {
        source,
        files_failing: &[],
        input: b"",
        input_failing: &[],
        out_failing: &[],
        out_room: 4096,
        diag_failing: &[],
        diag_room: 4096,
        piece: usize::MAX,
    }
}

fn texts(rt: &impl Abort, alloc: Global, words: &[&str]) -> Vec<String> {
    let mut texts = Vec::new(alloc);
    for word in words {
        let text = String::from_str(alloc, word).expect(rt, "memory is ample");
        texts.push(text).expect(rt, "memory is ample");
    }
    texts
}

// The one file of a setting.
fn file(rt: &impl Abort, alloc: Global, source: &[u8]) -> (String, Vec<u8>) {
    let name = String::from_str(alloc, "source.sim").expect(rt, "memory is ample");
    let source = Vec::from_slice(alloc, source).expect(rt, "memory is ample");
    (name, source)
}

// Does the command of these words in such a setting.
pub fn answer_of(rt: &impl Abort, alloc: Global, words: &[&str], setting: Setting) -> Answer {
    assert!(rt; setting.piece > 0);
    let words = texts(rt, alloc, words);
    let file = file(rt, alloc, setting.source);
    let files = MemFiles::new(alloc, &[file], setting.files_failing).expect(rt, "memory is ample");
    let input = MemSource::new(alloc, setting.input, setting.input_failing).expect(
        rt,
        "memory is ample",
    );
    let out = MemSink::new(alloc, setting.out_failing, setting.out_room).expect(
        rt,
        "memory is ample",
    );
    let diag = MemSink::new(alloc, setting.diag_failing, setting.diag_room).expect(
        rt,
        "memory is ample",
    );
    let mut files = files.in_pieces(setting.piece);
    let mut input = input.in_pieces(setting.piece);
    let mut out = out.in_pieces(setting.piece);
    let mut diag = diag.in_pieces(setting.piece);
    let status: Status = simula(alloc, &words, &mut files, &mut input, &mut out, &mut diag);
    Answer {
        status: status.number(),
        out,
        diag,
    }
}

// Does the command of these words in such a setting, and compares what it answers.
pub fn check(
    rt: &impl Abort,
    alloc: Global,
    row: usize,
    words: &[&str],
    setting: Setting,
    wanted: Wanted,
) {
    let answer = answer_of(rt, alloc, words, setting);
    assert!(rt; answer.status == wanted.status, "status of row {row}");
    assert!(rt; answer.out.bytes() == wanted.out, "output of row {row}");
    assert!(rt; answer.diag.bytes() == wanted.diag, "line of row {row}");
}

#[test]
fn words(rt: HostRuntime) {
    let usage = USAGE;
    let unread = b"cannot read the file\n".as_slice();
    let rows = [
        ([].as_slice(), 5, b"".as_slice(), usage),
        (&["run"], 5, b"", usage),
        (&["ru", "source.sim"], 5, b"", usage),
        (&["run", "source.sim", "source.sim"], 5, b"", usage),
        (&["check", "--ticks", "5", "source.sim"], 5, b"", usage),
        (
            &["run", "--ticks=5", "--ticks=5", "source.sim"],
            5,
            b"",
            usage,
        ),
        (&["run", "--storage", "999", "source.sim"], 5, b"", usage),
        (&["print", "--storage=1000", "source.sim"], 5, b"", usage),
        (&["xref", "--ticks=5", "source.sim"], 5, b"", usage),
        (&["xref"], 5, b"", usage),
        (&["compile", "--ticks=5", "source.sim"], 5, b"", usage),
        (&["list"], 5, b"", usage),
        (&["run", "--", "--ticks=5", "source.sim"], 5, b"", usage),
        (&["check", "other.sim"], 6, b"", unread),
        (&["run", "source.sim"], 0, b"  42\n", b""),
        (&["check", "source.sim"], 0, b"", b""),
        (
            &["print", "source.sim"],
            0,
            b"begin\n  outint(42, 4);\n  outimage\nend\n",
            b"",
        ),
    ];
    for (row, (words, status, out, diag)) in rows.into_iter().enumerate() {
        let setting = sound(b"begin outint(42,4); outimage end");
        let wanted = Wanted { status, out, diag };
        check(&rt, rt.alloc(), row, words, setting, wanted);
    }
}

// `print` asks the rules of spelling and of the grammar alone.
#[test]
fn printing(rt: HostRuntime) {
    let unexpected = b"line 1: Y1 unexpected token\n".as_slice();
    let rows = [
        (b"".as_slice(), 1, b"".as_slice(), unexpected),
        (
            b"begin\n# end",
            1,
            b"",
            b"line 2: X1 byte begins no token\n",
        ),
        (
            b"BEGIN comment hello; INTEGER A,b = -5; ; Text t; ; ;\nIF a LT 3 THEN BEGIN a := 2R11 END ELSE outtext(\"x\"\"y\" \"z!65!!9!!\");\nt.PUTCHAR(''');;\nEND of it ; ;",
            0,
            b"begin\n  integer a, b = - 5;\n  text t;\n  if a < 3 then begin\n    a := 3\n  end else outtext(\"x\"\"yzA!9!!33!\");\n  t.putchar('!39!');\n  ;\nend\n",
            b"",
        ),
        (
            b"begin class c; protected hidden n; begin integer n end; ref(c) x; undeclared end",
            0,
            b"begin\n  class c;\n  hidden protected n;\n  begin\n    integer n;\n  end;\n  ref (c) x;\n  undeclared\nend\n",
            b"",
        ),
    ];
    for (row, (source, status, out, diag)) in rows.into_iter().enumerate() {
        let wanted = Wanted { status, out, diag };
        check(
            &rt,
            rt.alloc(),
            row,
            &["print", "source.sim"],
            sound(source),
            wanted,
        );
        if status == 0 {
            let again = Wanted { status, out, diag };
            check(
                &rt,
                rt.alloc(),
                row,
                &["print", "source.sim"],
                sound(out),
                again,
            );
        }
    }
    let failing = Setting {
        out_failing: &[0],
        ..sound(b"begin end")
    };
    let wanted = Wanted {
        status: 8,
        out: b"",
        diag: b"output fault\n",
    };
    check(
        &rt,
        rt.alloc(),
        4,
        &["print", "source.sim"],
        failing,
        wanted,
    );
}

// The program takes 1001 words and 4 ticks, and reads a line of 81 characters.
#[test]
fn options(rt: HostRuntime) {
    let too_long = b"line 1: E31 input line longer than the image\n".as_slice();
    let exhausted = b"line 1: storage exhausted, 5 of 1000 words used, 996 wanted\n".as_slice();
    let ticks = b"tick limit 3 reached\n".as_slice();
    let rows = [
        (
            ["run", "source.sim"].as_slice(),
            2,
            b"    80   132\n".as_slice(),
            too_long,
        ),
        (
            &["run", "--in-length", "81", "--ticks=4", "source.sim"],
            0,
            b"    81   132\n",
            b"",
        ),
        (
            &[
                "run",
                "--out-length=12",
                "source.sim",
                "--in-length=100",
                "--storage=1001",
            ],
            0,
            b"   100    12\n",
            b"",
        ),
        (
            &["run", "--ticks", "3", "source.sim"],
            4,
            b"    80   132\n",
            ticks,
        ),
        (
            &["run", "--storage", "1000", "source.sim"],
            3,
            b"",
            exhausted,
        ),
    ];
    let line = [b'x'; 81];
    for (row, (words, status, out, diag)) in rows.into_iter().enumerate() {
        let setting = Setting {
            input: &line,
            ..sound(
                b"begin integer array a(1:991); outint(sysin.length,6); outint(length,6); inimage end",
            )
        };
        let wanted = Wanted { status, out, diag };
        check(&rt, rt.alloc(), row, words, setting, wanted);
    }
}

#[test]
fn sources_at_the_limit(rt: HostRuntime) -> Result<(), Fail> {
    let mut source = vec![in rt.alloc(); b'\n'; SOURCE_LIMIT - 9]?;
    source.extend_from_slice(b"begin end")?;
    let words = ["run", "source.sim"];
    let accepted = Wanted {
        status: 0,
        out: b"",
        diag: b"",
    };
    check(&rt, rt.alloc(), 0, &words, sound(&source), accepted);
    source.push(b'\n')?;
    let refused = Wanted {
        status: 1,
        out: b"",
        diag: b"line 1048568: X8 source too long\n",
    };
    check(&rt, rt.alloc(), 1, &words, sound(&source), refused);
    Ok(())
}

#[test]
fn files_that_fail(rt: HostRuntime) {
    // The name, then the read of the source, then the read that finds its end.
    for (row, failing) in [[0], [1], [2]].into_iter().enumerate() {
        let setting = Setting {
            files_failing: &failing,
            ..sound(b"begin outint(42,4); outimage end")
        };
        let wanted = Wanted {
            status: 6,
            out: b"",
            diag: b"cannot read the file\n",
        };
        check(
            &rt,
            rt.alloc(),
            row,
            &["run", "source.sim"],
            setting,
            wanted,
        );
    }
}

#[test]
fn outputs_that_fail(rt: HostRuntime) {
    let runs = b"begin outint(42,4); outimage; outint(43,4) end".as_slice();
    let refused = b"begin i := 1 end".as_slice();
    let fault = b"output fault\n".as_slice();
    let undeclared = b"line 1: S10 identifier not declared\n".as_slice();
    // The source; of the output the calls that fail and the room; the same of the diagnostic output; the status; what was
    // written to both.
    type Row<'a> = (
        &'a [u8],
        &'a [u64],
        usize,
        &'a [u64],
        usize,
        u8,
        &'a [u8],
        &'a [u8],
    );
    let rows: [Row; 11] = [
        (runs, &[0], 4096, &[], 4096, 8, b"", fault),
        (runs, &[1], 4096, &[], 4096, 8, b"  42", fault),
        (runs, &[2], 4096, &[], 4096, 8, b"  42\n", fault),
        (runs, &[3], 4096, &[], 4096, 8, b"  42\n  43", fault),
        (runs, &[], 7, &[], 4096, 8, b"  42\n  ", fault),
        (runs, &[0], 4096, &[0], 4096, 8, b"", b""),
        (runs, &[], 4096, &[0], 4096, 0, b"  42\n  43\n", b""),
        (refused, &[], 4096, &[0], 4096, 8, b"", b""),
        (refused, &[], 4096, &[], 6, 8, b"", b"line 1"),
        (refused, &[0], 4096, &[], 4096, 1, b"", undeclared),
        (b"begin end", &[0], 4096, &[0], 4096, 0, b"", b""),
    ];
    for (row, (source, out_failing, out_room, diag_failing, diag_room, status, out, diag)) in rows
        .into_iter()
        .enumerate()
    {
        let setting = Setting {
            out_failing,
            out_room,
            diag_failing,
            diag_room,
            ..sound(source)
        };
        let wanted = Wanted { status, out, diag };
        check(
            &rt,
            rt.alloc(),
            row,
            &["run", "source.sim"],
            setting,
            wanted,
        );
    }
}

// Reads that fail: nothing more is written then. What is not read does not fail.
#[test]
fn inputs_that_fail(rt: HostRuntime) {
    let numbers = b"begin while not lastitem do outint(inint, 4); outimage end".as_slice();
    let lines =
        b"begin outtext(\"a\"); outimage; outtext(\"b\"); inimage; outtext(\"c\"); outimage; inimage end".as_slice();
    let reads_nothing =
        b"begin outtext(\"a\"); if endfile then outtext(\"b\"); outint(sysin.pos,3) end".as_slice();
    let fault = b"input fault\n".as_slice();
    let rows = [
        (
            "run",
            numbers,
            [9],
            0,
            b"  12  -5   7\n".as_slice(),
            b"".as_slice(),
        ),
        ("run", numbers, [0], 7, b"", fault),
        ("run", lines, [0], 7, b"a\n", fault),
        ("run", lines, [1], 7, b"a\nbc\n", fault),
        ("run", lines, [9], 0, b"a\nbc\n", b""),
        ("run", reads_nothing, [0], 0, b"a 81\n", b""),
        ("check", numbers, [0], 0, b"", b""),
    ];
    for (row, (command, source, failing, status, out, diag)) in rows.into_iter().enumerate() {
        let setting = Setting {
            input: b"12 -5\n  7",
            input_failing: &failing,
            ..sound(source)
        };
        let words = [command, "source.sim"];
        let wanted = Wanted { status, out, diag };
        check(&rt, rt.alloc(), row, &words, setting, wanted);
    }
}
