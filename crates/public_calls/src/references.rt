// The command that writes cross references.

use crate::top_call::{Wanted, check, sound};

// Sources that break no rule, with what is written.
#[test]
fn written(rt: HostRuntime) {
    let rows = [
        (b"begin end".as_slice(), b"".as_slice()),
        // parameters and their uses, several on one line
        (
            b"begin procedure p(x); name x; integer x; x := 1;\ninteger i;\np(i); outint(i, 2);\np(i + 1)\nend",
            b"p 1: 3 4\nx 1: 1\ni 2: 3 4\n",
        ),
        // mode and specification parts, bounds, a procedure's own result
        (
            b"begin integer j;\nprocedure p(a,\nb, f); name a; value b; integer a; text b; integer procedure f;\na := f;\ninteger procedure q; q := 1;\ninteger array m(1:\n4);\ntext t;\np(j\n, t,\nq);\np(m(\nj), \"x\", q)\nend",
            b"j 1: 9 13\np 2: 9 12\na 2: 4\nb 3:\nf 3: 4\nq 5: 5 11 13\nm 6: 12\nt 8: 10\n",
        ),
        // virtuals and their matches, prefixes and references to classes
        (
            b"begin class a; ; class b(x, y);\nref(a) x, y; virtual:\nref(a) procedure v; begin\nref(a) procedure v; v :- none end;\na class c; begin ref(a) z; end\nend",
            b"a 1: 4 5\nb 1:\nx 1:\ny 1:\nv 3: 4\nv 4:\nc 5:\nz 5:\n",
        ),
        // names in lower case; hidden and protected attributes, and what is shadowed
        (
            b"BEGIN INTEGER Sum; CLASS c;\nhidden protected SUM; begin integer sum;\nsum := 1; begin integer sum; sum := 2 end end;\nSUM := 3\nEND",
            b"sum 1: 4\nc 1:\nsum 2: 3\nsum 3: 3\n",
        ),
    ];
    for (row, (source, out)) in rows.into_iter().enumerate() {
        let wanted = Wanted {
            status: 0,
            out,
            diag: b"",
        };
        check(
            &rt,
            rt.alloc(),
            row,
            &["xref", "source.sim"],
            sound(source),
            wanted,
        );
    }
}

// What `simulation` declares is not written, also where the source uses it.
#[test]
fn simulation(rt: HostRuntime) {
    let source = b"simulation begin
comment one clerk, one queue, customers at stated times;
ref(head) queue; ref(clerk) server;
integer served, waited, longest;
procedure report(what, n); text what; integer n;
begin
  outtext(\"t =\"); outint(time, 4); outtext(\"  \"); outtext(what);
  outint(n, 3); outimage
end report;
process class customer(number, need); integer number, need;
begin
  integer arrived, stood;
  arrived := time;
  report(\"arrives\", number);
  if server.idle then activate server delay 0;
  wait(queue);
  report(\"leaves \", number)
end customer;
process class clerk;
begin
  ref(customer) who;
  while true do
  begin
    while not queue.empty do
    begin
      who :- queue.first qua customer;
      who.out;
      who.stood := time - who.arrived;
      waited := waited + who.stood;
      if who.stood > longest then longest := who.stood;
      report(\"serves \", who.number);
      hold(who.need);
      served := served + 1;
      activate who
    end of the queue;
    passivate
  end
end clerk;
process class source;
begin
  integer i;
  for i := 1 step 1 until 4 do
  begin
    activate new customer(i, if i = 2 then 9 else 4);
    hold(if i < 3 then 2 else 6)
  end
end source;
queue :- new head;
server :- new clerk;
activate new source;
hold(60);
outtext(\"served\"); outint(served, 4);
outtext(\"  waited\"); outint(waited, 4);
outtext(\"  longest\"); outint(longest, 4);
outimage
end";
    let wanted = Wanted {
        status: 0,
        out: b"queue 3: 16 24 26 48
server 3: 15 49
served 4: 33 52
waited 4: 29 53
longest 4: 30 54
report 5: 14 17 31
what 5: 7
n 5: 8
customer 10: 21 26 44
number 10: 14 17 31
need 10: 32
arrived 12: 13 28
stood 12: 28 29 30
clerk 19: 3 49
who 21: 26 27 28 29 30 31 32 34
source 39: 50
i 41: 42 44 45
",
        diag: b"",
    };
    check(
        &rt,
        rt.alloc(),
        0,
        &["xref", "source.sim"],
        sound(source),
        wanted,
    );
}

// What each rule refuses, a full output, and a file that is not there.
#[test]
fn refused(rt: HostRuntime) {
    let rows = [
        (
            b"begin\n# end".as_slice(),
            b"line 2: X1 byte begins no token\n".as_slice(),
        ),
        (b"begin", b"line 1: Y1 unexpected token\n"),
        (
            b"begin\nclass a; hidden protected secret;\nbegin integer secret; secret := 7 end;\na class b;\nbegin\n  this b.secret := 8\nend;\nnew b\nend",
            b"line 6: S11 attribute not accessible here\n",
        ),
    ];
    for (row, (source, diag)) in rows.into_iter().enumerate() {
        let wanted = Wanted {
            status: 1,
            out: b"",
            diag,
        };
        check(
            &rt,
            rt.alloc(),
            row,
            &["xref", "source.sim"],
            sound(source),
            wanted,
        );
    }
    let mut failing = sound(b"begin integer i; i := 1 end");
    failing.out_failing = &[0];
    let full = Wanted {
        status: 8,
        out: b"",
        diag: b"output fault\n",
    };
    check(&rt, rt.alloc(), 3, &["xref", "source.sim"], failing, full);
    let unread = Wanted {
        status: 6,
        out: b"",
        diag: b"cannot read the file\n",
    };
    check(
        &rt,
        rt.alloc(),
        4,
        &["xref", "other.sim"],
        sound(b"begin end"),
        unread,
    );
}
