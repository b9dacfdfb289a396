//! What no clause says, of this crate and of those below it: worked cases with their texts and statuses, and that
//! calls succeed where memory is ample.

mod books;
mod conditions;
mod cycles;
mod geometry;
mod marked_cycles;
mod memory;
mod paces;
mod reports;
mod runs;
mod tables;
mod texts;
mod walks;

use mk_outputs::Status;
use runs::{Case, ample, run};
use std::alloc::Global;
use std::sync::Wait;
use std::thread::Threads;
use tables::{Asks, all_hold, lines};

const FIRST_RUN: &[u8] = b"heap 1 1\ntype A n*32\nscript s\nptr p A\nnum n\nnew p A\nconst n 7\n\
    setn p 1 n\nconst n 0\ngetn n p 1\nprint n\n";

/// Runs: a name, the words of a command, a text with `/` for a newline, and what is written, or the line that is
/// reported. A row is `NAME | WORDS | TEXT -> WRITTEN`.
const RUNS: &str = "\
the first script | run | heap 1 1/type A n*32/script s/ptr p A/num n/new p A/const n 7/setn p 1 n/const n 0/\
    getn n p 1/print n/ -> script s/7/
a load that null refuses | run | \
    heap 1 1/type A n*2/script s/ptr p A/num n/const n 5/getn n p 0/print n/ -> script s/7: null/0/
a full heap | run | heap 1 1/type A n*32/script s/ptr p A/new p A/new p A/new p A/ -> script s/7: full/
a loop of two rounds and a branch | run | \
    heap 1 1/type A n/script s/ptr p A/num n/const n 3/new p A/repeat 2/setn p 0 n/const n 0/\
    getn n p 0/if n/print n/else/new p A/end/end/ -> script s/3/3/
a dangling load | run | heap 1 1/type A n*32/script s/ptr p A/num n/new p A/const n 7/setn p 1 n/free p/const n 0/\
    getn n p 1/print n/ -> script s/7/
a load from a freed run | run | \
    heap 1 1/type A n*33/script s/ptr p A/num n/new p A/free p/getn n p 0/print n/ -> script s/8: fault/0/
a second free | run | heap 1 1/type A n/script s/ptr p A/new p A/free p/free p/ -> script s/7: double/
a script without instructions | run | heap 1 1/type A n p:A+0/script s/ptr p A -> script s/
two scripts without instructions | run | heap 1 1/script s/script t/ -> script s/script t/
a marker | run --markers 1 | heap 1 1/script s/ -> script s/
a sweep | run --sweep | heap 1 1/script s/ -> script s/
freed objects that point to each other, which a sweep keeps | run --sweep | \
    heap 1 1/type A p:A n*31/script s/ptr p A/ptr q A/new p A/new q A/setp p 0 q/setp q 0 p/free p/free q/\
    clear p/clear q/new p A/show p/ -> script s/14: full/null/
freed objects that point to each other, which a cycle releases | run | \
    heap 1 1/type A p:A n*31/script s/ptr p A/ptr q A/new p A/new q A/setp p 0 q/setp q 0 p/free p/free q/\
    clear p/clear q/new p A/show p/ -> script s/ptr/
no markers, and `--` behind them | run --markers=0 -- | heap 1 1/script s/ -> script s/
what keeps a freed object: a register | run --why | \
    heap 1 1/type A n*31 p:A/script s/ptr x A/ptr y A/new x A/new y A/setp x 31 y/free y/ -> \
    script s/kept 65792 32/register s y/
what keeps released objects: nothing | run --why | \
    heap 1 1/type A p:A n*31/script s/ptr p A/ptr q A/new p A/new q A/setp p 0 q/setp q 0 p/\
    free p/free q/clear p/clear q/ -> script s/
what keeps freed objects in a sweep: each other | run --sweep --why | \
    heap 1 1/type A p:A n*31/script s/ptr p A/ptr q A/new p A/new q A/setp p 0 q/setp q 0 p/\
    free p/free q/clear p/clear q/ -> script s/kept 65536 32/floating/kept 65792 32/floating/
a program with well-typed scripts | check | \
    heap 1 1/type A n/script s/ptr p A/num n/const n 3/new p A/repeat 2/setn p 0 n/const n 0/\
    getn n p 0/if n/print n/else/new p A/end/end/ -> ok/
as many instructions as a script may execute | check | heap 1 1/script s/num n/print n/repeat 499999/print n/end/ -> ok/
a canonical text | print |  heap 1  1/ type A n n n p:A+0/script s/ptr p A+0 -> \
    heap 1 1/type A n*3 p:A/script s/ptr p A/
a load of a global before the store, and one after it, in a schedule that ends within a call | replay | \
    heap 1 1/type A n*2/global g A/script s/ptr p A/new p A/storeg p g/show p/script t/\
    ptr q A/num n/loadg q g/getn n q 0/print n/loadg q g/show q/schedule/c1 enter; getg; reg; leave/\
    c1 enter; reg; leave/c0 take; head 0 13; used 0 1; grant; tally held 2; give/\
    c0 enter; reg; setg; leave/c1  enter;  getg; reg; leave /c1 enter; reg; leave/\
    c0 enter; reg -> script s/script t/13: null/0/ptr/
a trace with two cycles | trace | \
    trace 1 1/slot x 32/a x/f x/c x/a x/a x/ -> events 5/refused 0/held 64/quarantined 32/reserved 0/cycles 2/\
    age 2 1/
a trace with a free run | trace | \
    trace 4 2/slot b 65/a b/f b/c b/a b/ -> events 4/refused 0/held 128/quarantined 128/reserved 128/cycles 0/
a trace with a freed object that points to another | trace | \
    trace 1 1/slot x 32/a x/f x/k x/f x/c x/a x/ -> events 6/refused 0/held 64/quarantined 64/reserved 0/cycles 3/\
    age 2 1/age 3 1/
the smallest generated program | gen 0 48 |  -> \
    script s0 ops 12 refused 0/script s1 ops 12 refused 0/script s2 ops 12 refused 0/\
    script s3 ops 12 refused 0/total 48/
the smallest generated program, beside a marker | gen 0 --markers 1 48 |  -> \
    script s0 ops 12 refused 0/script s1 ops 12 refused 0/script s2 ops 12 refused 0/\
    script s3 ops 12 refused 0/total 48/
";

/// Words of no form, behind the name of each. `run` alone and `check --` are of one.
const WORDS: &str = "\
an unknown command | fly
a second command | run run
an option without a name | run -
help for `run` | run --help
a version of `run` | run --version
help by a letter | run -h
`--markers` without a number | run --markers
`--markers` with `--` for its number | run --markers --
nine markers | run --markers 9
a number with a zero in front | run --markers 02
`--markers` with an empty number | run --markers=
a negative number | run --markers -1
`--markers` twice | run --markers 1 --markers 1
`--why` twice | run --why --why
`--why` with an empty value | run --why=
`--report` twice | run --report --why --report
`--report` with a value | run --report=1
`--report` with an empty value | run --report=
`--report` for `check` | check --report
`--report` for `print` | print --report
`--report` for `replay` | replay --report
`--report` for `trace` | trace --report
`--sweep` beside markers | run --sweep --markers 1
an option behind `--` | run -- --why
`--` twice | run -- --
`--why` for `check` | check --why
`--markers` for `check` | check --markers 0
a word behind `print` | print x
`--sweep` for `replay` | replay --sweep
`gen` without a seed and a size | gen
`gen` without a size | gen 1
a smaller program than the smallest | gen 1 47
a larger program than the largest | gen 1 3000001
a seed of more than 64 bits | gen 18446744073709551616 48
a seed with a zero in front | gen 01 48
a third number for `gen` | gen 1 48 48
`--why` for `gen` | gen 1 48 --why
`--report` for `gen` | gen 1 48 --report
an option of `gen` behind `--` | gen -- --markers 1 48
a word behind `trace` | trace 1
`--` without a command | --
a command behind `--` | -- run
help without a command | --help
";

/// What a row of `RUNS` says, after its name.
#[derive(Clone, Copy)]
struct Said<'a> {
    words: &'a str,
    text: &'a str,
    ending: &'a str,
}

fn run_said(row: &str) -> Option<Said> {
    let (_name, rest) = row.split_once(" | ")?;
    let (words, rest) = rest.split_once(" | ")?;
    let (text, ending) = rest.split_once(" -> ")?;
    Some(Said {
        words,
        text,
        ending,
    })
}

/// Whether a row as those of `RUNS` goes as it says.
fn goes<R: Threads + Wait + Sync>(rt: &R, alloc: Global, row: &str) -> Option<bool> {
    let said = run_said(row)?;
    let text = lines(alloc, said.text)?;
    let ending = lines(alloc, said.ending)?;
    let ended = run(rt, alloc, &ample(said.words, text.as_bytes()))?;
    Some(ended.is("", ending.as_str()) || ended.is(ending.as_str(), ""))
}

#[test]
fn runs_end_as_they_should(rt: HostRuntime) {
    all_hold(&rt, rt.alloc(), Asks::Run, RUNS);
}

/// Whether a run ends with a status, and writes no more than this.
fn ends<R: Threads + Wait + Sync>(
    rt: &R,
    alloc: Global,
    case: &Case,
    status: Status,
    written: &str,
) -> Option<bool> {
    let ended = run(rt, alloc, case)?;
    Some(ended.status == status && ended.written.as_slice() == written.as_bytes())
}

#[test]
fn a_byte_at_a_time_will_do(rt: HostRuntime) {
    let bytewise = Case {
        source: (1, &[]),
        sink: (1, &[]),
        ..ample("run", FIRST_RUN)
    };
    let found = ends(&rt, rt.alloc(), &bytewise, Status::Ok, "script s\n7\n");
    assert!(rt; found == Some(true));
}

/// Whether the words of a row of `WORDS` are refused.
pub fn are_no_words<R: Threads + Wait + Sync>(rt: &R, alloc: Global, row: &str) -> Option<bool> {
    let (_name, words) = row.split_once(" | ")?;
    ends(rt, alloc, &ample(words, FIRST_RUN), Status::Usage, "")
}

#[test]
fn words_of_no_form_are_refused(rt: HostRuntime) {
    all_hold(&rt, rt.alloc(), Asks::Words, WORDS);
    let found = ends(&rt, rt.alloc(), &ample("", b""), Status::Usage, "");
    assert!(rt; found == Some(true));
}

/// Whether the first script ends so, if this call of 4 bytes fails.
fn write_fails<R: Threads + Wait + Sync>(
    rt: &R,
    alloc: Global,
    call: u64,
    status: Status,
    written: &str,
) -> bool {
    let case = Case {
        sink: (4, &[call]),
        ..ample("run", FIRST_RUN)
    };
    ends(rt, alloc, &case, status, written) == Some(true)
}

/// The first script writes 11 bytes, which are 3 calls of 4.
#[test]
fn a_write_may_fail_at_each_call(rt: HostRuntime) {
    let alloc = rt.alloc();
    assert!(rt; write_fails(&rt, alloc, 1, Status::WriteFault, ""));
    assert!(rt; write_fails(&rt, alloc, 2, Status::WriteFault, "scri"));
    assert!(rt; write_fails(&rt, alloc, 3, Status::WriteFault, "script s"));
    assert!(rt; write_fails(&rt, alloc, 4, Status::Ok, "script s\n7\n"));
}

/// Whether the first script ends as it should, if this call for 16 bytes fails. It has 102 bytes, which are 7 calls,
/// and an eighth one finds the end.
fn read_fails<R: Threads + Wait + Sync>(rt: &R, alloc: Global, call: u64) -> Option<bool> {
    let case = Case {
        source: (16, &[call]),
        ..ample("run", FIRST_RUN)
    };
    if call <= 8 {
        ends(rt, alloc, &case, Status::ReadFault, "")
    } else {
        ends(rt, alloc, &case, Status::Ok, "script s\n7\n")
    }
}

#[test]
fn a_read_may_fail_at_each_call(rt: HostRuntime) {
    for call in 1..=9u64 {
        assert!(rt;
            read_fails(&rt, rt.alloc(), call) == Some(true),
            "call {call}"
        );
    }
}
