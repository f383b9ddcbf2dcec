// Whole commands over ends that fail at each of their calls in turn or move few bytes at a time, over sources that are cut, and under small
// budgets.

use crate::top_call::{Setting, Wanted, answer_of, check, sound};
use std::alloc::Global;
use std::process::Abort;

// A shop with one clerk, one queue, and customers at stated times; and what its run writes.
const SHOP: &[u8] = b"simulation begin\n\
    comment one clerk, one queue, customers at stated times;\n\
    ref(head) queue; ref(clerk) server;\n\
    integer served, waited, longest;\n\
    procedure report(what, n); text what; integer n;\n\
    begin\n\
      outtext(\"t =\"); outint(time, 4); outtext(\"  \"); outtext(what);\n\
      outint(n, 3); outimage\n\
    end report;\n\
    process class customer(number, need); integer number, need;\n\
    begin\n\
      integer arrived, stood;\n\
      arrived := time;\n\
      report(\"arrives\", number);\n\
      if server.idle then activate server delay 0;\n\
      wait(queue);\n\
      report(\"leaves \", number)\n\
    end customer;\n\
    process class clerk;\n\
    begin\n\
      ref(customer) who;\n\
      while true do\n\
      begin\n\
        while not queue.empty do\n\
        begin\n\
          who :- queue.first qua customer;\n\
          who.out;\n\
          who.stood := time - who.arrived;\n\
          waited := waited + who.stood;\n\
          if who.stood > longest then longest := who.stood;\n\
          report(\"serves \", who.number);\n\
          hold(who.need);\n\
          served := served + 1;\n\
          activate who\n\
        end of the queue;\n\
        passivate\n\
      end\n\
    end clerk;\n\
    process class source;\n\
    begin\n\
      integer i;\n\
      for i := 1 step 1 until 4 do\n\
      begin\n\
        activate new customer(i, if i = 2 then 9 else 4);\n\
        hold(if i < 3 then 2 else 6)\n\
      end\n\
    end source;\n\
    queue :- new head;\n\
    server :- new clerk;\n\
    activate new source;\n\
    hold(60);\n\
    outtext(\"served\"); outint(served, 4);\n\
    outtext(\"  waited\"); outint(waited, 4);\n\
    outtext(\"  longest\"); outint(longest, 4);\n\
    outimage\n\
    end";

const SHOP_OUTPUT: &[u8] = b"t =   0  arrives  1\n\
    t =   0  serves   1\n\
    t =   2  arrives  2\n\
    t =   4  leaves   1\n\
    t =   4  serves   2\n\
    t =   4  arrives  3\n\
    t =  10  arrives  4\n\
    t =  13  leaves   2\n\
    t =  13  serves   3\n\
    t =  17  leaves   3\n\
    t =  17  serves   4\n\
    t =  21  leaves   4\n\
    served   4  waited  18  longest   9\n";

// It reads numbers to the end of the input, and then one line too many.
const NUMBERS: &[u8] = b"begin integer n;\n\
    while not lastitem do begin n := inint; outint(n, 4) end;\n\
    outimage;\n\
    if endfile then outtext(\"eof\"); outimage;\n\
    inimage\n\
    end";

const NUMBERS_INPUT: &[u8] = b"12 -5\n  7";

const NUMBERS_ANSWER: Wanted<'static> = Wanted {
    status: 2,
    out: b"  12  -5   7\neof\n",
    diag: b"line 5: E32 input is at its end\n",
};

// A sum that is too large, behind a text that waits in the image.
const OVERFLOW: &[u8] = b"begin integer i;\n\
    outtext(\"max \");\n\
    i := 9223372036854775807; i := i + 1;\n\
    outtext(\"never\")\n\
    end";

const FACTORIAL: &[u8] =
    b"begin integer procedure f(n); integer n; f := if n = 0 then 1 else n*f(n-1); outint(f(166),20); outimage end";

// The end whose calls fail.
#[derive(Clone, Copy, PartialEq, Eq)]
enum End {
    File,
    Input,
    Output,
}

fn with_failing<'a>(setting: Setting<'a>, end: End, failing: &'a [u64]) -> Setting<'a> {
    match end {
        End::File => Setting {
            files_failing: failing,
            ..setting
        },
        End::Input => Setting {
            input_failing: failing,
            ..setting
        },
        End::Output => Setting {
            out_failing: failing,
            ..setting
        },
    }
}

// Runs a source with one call on an end failing, each in turn up to the first that isn't made, when the answer is that of a run in which nothing
// fails. A call that fails gives the status and the line of its fault, and what was written begins the whole output: the more, the later it
// fails. It answers how many calls were made.
fn check_each_call(
    rt: &impl Abort,
    alloc: Global,
    end: End,
    setting: Setting,
    fault: (u8, &[u8]),
    whole: Wanted,
) -> u64 {
    let mut written = 0;
    for number in 0..1000 {
        let failing = [number];
        let answer = answer_of(
            rt,
            alloc,
            &["run", "source.sim"],
            with_failing(setting, end, &failing),
        );
        if answer.status == whole.status {
            assert!(rt; answer.out.bytes() == whole.out);
            assert!(rt; answer.diag.bytes() == whole.diag);
            return number;
        }
        assert!(rt;
            answer.status == fault.0,
            "status where call {number} fails"
        );
        assert!(rt;
            answer.diag.bytes() == fault.1,
            "line where call {number} fails"
        );
        assert!(rt;
            whole.out.starts_with(answer.out.bytes()),
            "output where call {number} fails"
        );
        let grown = answer.out.bytes().len();
        assert!(rt;
            grown >= written,
            "less is written where call {number} fails"
        );
        // Each write before the one that fails has moved something.
        if end == End::Output && number > 0 {
            assert!(rt; grown > written, "write {number}");
        }
        written = grown;
    }
    0
}

#[test]
fn each_write_fails(rt: HostRuntime) {
    let fault = (8, b"output fault\n".as_slice());
    let whole = Wanted {
        status: 0,
        out: SHOP_OUTPUT,
        diag: b"",
    };
    let alloc = rt.alloc();
    let calls = check_each_call(&rt, alloc, End::Output, sound(SHOP), fault, whole);
    // Each of the thirteen lines is written where it ends.
    assert!(rt; calls >= 13);
    let silent = Setting {
        diag_failing: &[0],
        ..sound(OVERFLOW)
    };
    let wanted = Wanted {
        status: 8,
        out: b"max\n",
        diag: b"",
    };
    check(&rt, alloc, 0, &["run", "source.sim"], silent, wanted);
}

#[test]
fn each_read_fails(rt: HostRuntime) {
    let alloc = rt.alloc();
    // All nine bytes at once, and the end; or each byte by itself.
    for (piece, least) in [(usize::MAX, 2), (1, 10)] {
        let setting = Setting {
            input: NUMBERS_INPUT,
            piece,
            ..sound(NUMBERS)
        };
        let fault = (7, b"input fault\n".as_slice());
        let calls = check_each_call(&rt, alloc, End::Input, setting, fault, NUMBERS_ANSWER);
        assert!(rt; calls >= least);
    }
    // The name, the bytes of the source, and its end.
    for (piece, least) in [(usize::MAX, 3), (7, 10)] {
        let setting = Setting {
            piece,
            ..sound(b"begin integer i; i := 2; outint(i*21,4); outimage end")
        };
        let fault = (6, b"cannot read the file\n".as_slice());
        let whole = Wanted {
            status: 0,
            out: b"  42\n",
            diag: b"",
        };
        let calls = check_each_call(&rt, alloc, End::File, setting, fault, whole);
        assert!(rt; calls >= least);
    }
}

#[test]
fn small_pieces(rt: HostRuntime) {
    let shop = Wanted {
        status: 0,
        out: SHOP_OUTPUT,
        diag: b"",
    };
    for (row, piece) in [1, 2, 7].into_iter().enumerate() {
        let setting = Setting {
            input: NUMBERS_INPUT,
            piece,
            ..sound(NUMBERS)
        };
        check(
            &rt,
            rt.alloc(),
            row,
            &["run", "source.sim"],
            setting,
            NUMBERS_ANSWER,
        );
        let setting = Setting {
            piece,
            ..sound(SHOP)
        };
        check(&rt, rt.alloc(), row, &["run", "source.sim"], setting, shop);
    }
}

// Whether a line tells a rule of spelling or of the grammar.
fn tells_form(line: &[u8]) -> bool {
    let rule = line
        .iter()
        .skip_while(|byte| **byte != b':')
        .nth(2)
        .copied();
    line.starts_with(b"line ")
        && line.ends_with(b"\n")
        && (rule == Some(b'X') || rule == Some(b'Y'))
}

// A source that is cut before its last letter breaks a rule of spelling or of the grammar.
#[test]
fn cut_sources(rt: HostRuntime) {
    for length in 0..SHOP.len() {
        let cut = sound(&SHOP[..length]);
        let answer = answer_of(&rt, rt.alloc(), &["run", "source.sim"], cut);
        assert!(rt; answer.status == 1, "status of the first {length} bytes");
        assert!(rt; answer.out.bytes().is_empty());
        assert!(rt;
            tells_form(answer.diag.bytes()),
            "line of the first {length} bytes"
        );
    }
}

// The block takes 4 words, and each of 167 calls 6, so that 1006 words suffice.
#[test]
fn small_budgets(rt: HostRuntime) {
    for words in 1000..1007 {
        let option = format!(in rt.alloc(); "--storage={words}").expect(&rt, "memory is ample");
        let exhausted = format!(in rt.alloc();
            "line 1: storage exhausted, 1000 of {words} words used, 6 wanted\n"
        ).expect(&rt, "memory is ample");
        let (status, diag) = if words < 1006 {
            (3, exhausted.as_bytes())
        } else {
            (2, b"line 1: E1 integer overflow\n".as_slice())
        };
        let wanted = Wanted {
            status,
            out: b"",
            diag,
        };
        check(
            &rt,
            rt.alloc(),
            0,
            &["run", option.as_str(), "source.sim"],
            sound(FACTORIAL),
            wanted,
        );
    }
}
