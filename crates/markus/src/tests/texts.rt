//! Texts, and the line that is reported for each: the first fault, or none.

use super::geometry::number;
use super::runs::{ample, run};
use super::tables::{Asks, all_hold, lines};
use std::alloc::Global;
use std::sync::Wait;
use std::thread::Threads;

/// Texts of one beginning.
#[derive(Clone, Copy)]
pub struct Group {
    command: &'static str,
    front: &'static str,
    /// A line for each: its name and ` | `, how it goes on, with `/` for a newline, and ` -> ` and the line that is
    /// reported.
    texts: &'static str,
}

const FIRST_LINES: Group = Group {
    command: "print",
    front: "",
    texts: "\
an empty line and nothing else | / -> line 1: header
an empty text |  -> line 1: header
a first line with a word too few | heap 1 -> line 1: header
a tab between words | heap\t1 1 -> line 1: header
a word in place of a number | heap x 1 -> line 1: number
a number with a zero in front | heap 01 1 -> line 1: number
too many pages | heap 4097 0 -> line 1: limit pages 4097
no pages | heap 0 1/script s -> line 1: limit pages 0
more resident pages than pages | heap 1 2 -> line 1: limit resident 2
no resident pages | heap 4096 0 -> line 1: limit resident 0
resident pages, before a later fault | heap 2 3/script 1/ -> line 1: limit resident 3
no scripts | heap 1 1 -> line 1: limit scripts 0
a last line without a newline | heap 1 1/script s -> fine
more than one space between words, and spaces at both ends |   heap  1 1 /script s/ -> fine
an empty line | heap 1 1// -> line 2: word
",
};

const TYPES: Group = Group {
    command: "print",
    front: "heap 1 1/",
    texts: "\
a type, and no scripts | type A n -> line 2: limit scripts 0
a type of the greatest size | type A n*4096 -> line 2: limit scripts 0
a pointer as the last word of the greatest size | type A n*4095 p:A+1 -> line 2: limit scripts 0
a pointer as a word too many | type A n*4096 p:A+1 -> line 2: limit words 4097
a word too many | type A n*4097 -> line 2: limit words 4097
more words than a number counts | type A n*18446744073709551615 n*5 -> line 2: limit words 18446744073709551615
a count of more than 64 bits | type A n*18446744073709551616 -> line 2: word
a count of 0 | type A n*0 -> line 2: word
a count with a zero in front | type A n*01 -> line 2: word
an offset with a zero in front | type A p:A+01 -> line 2: word
a type without words | type A -> line 2: word
a fault in a word before one in a name | type 1 n*0 -> line 2: word
a name that begins with a digit | type 1 n -> line 2: name
a name twice, before another fault of the line | type A n/type A n*4097 -> line 3: twice
names of a type, a global and a script that are alike | type A n/global A A/script A -> fine
",
};

const LINES: Group = Group {
    command: "print",
    front: "heap 1 1/script s/",
    texts: "\
a pointer with an offset | ptr p A+1 -> fine
a word in place of an offset | ptr p A+x -> line 3: number
two offsets | ptr p A+1+1 -> line 3: number
an offset without a type | ptr p +1 -> line 3: name
the longest name | ptr a234567890123456 A -> fine
a name that is too long | ptr a2345678901234567 A -> line 3: name
a fault in a name, before one in a number | setn 1 01 n -> line 3: name
a fault in a number, before one in a name | setn q 01 1 -> line 3: number
registers that are not declared | casp n q 0 p r -> fine
an instruction without its operand | show -> line 3: word
a tab between words | show\tp -> line 3: word
two spaces between words | show  p -> fine
a word that is no instruction | wait 01 -> line 3: word
a second line of a heap | heap 01 1 -> line 3: word
a global in a script | global g A -> line 3: word
a name of a pointer and of a number | ptr p A/num p -> line 4: twice
a name of two numbers | num n/num n -> line 4: twice
a name of numbers in two scripts | num n/script t/num n -> fine
a name of two scripts | script s -> line 3: twice
a register behind an instruction | show p/ptr p A -> line 4: word
a register in the next script | show p/script t/ptr p A -> fine
an empty branch in a loop | repeat 2/if n/else/end/end -> fine
a branch that ends a loop | repeat 2/else/end -> line 4: end
a second `else` | if n/else/else/end -> line 5: end
an `else` outside a branch | else -> line 3: end
an `end` outside a block | end -> line 3: end
a block that is open at the next script | if n/script t -> line 4: end
a name of two scripts, in an open block | if n/script s -> line 4: twice
a block that is open at the end | repeat 2/if n/end -> line 5: end
",
};

const ILL_TYPED: Group = Group {
    command: "check",
    front: "heap 1 1/type A n p:A+1/global g A/script s/ptr p A/ptr r A+1/num n/",
    texts: "\
a type that there isn't, before another fault | new p B/free q -> line 8: no type
a new object for an interior pointer | new r A -> line 8: kind
a global that there isn't | loadg p h -> line 8: no global
a register that there isn't, before a wrong offset | getn n q 9 -> line 8: no register
an offset past the type | getn n p 2 -> line 8: offset
a number loaded from a pointer's word | getn n p 1 -> line 8: kind
an exchange with a register of another type | casp n p 1 p r -> line 8: kind
a free by an interior pointer | free r -> line 8: interior free
an instruction too many | repeat 500000/print n/end -> line 4: too long 1000001
",
};

/// The script part comes first, and types after all text.
const SCHEDULES: Group = Group {
    command: "replay",
    front: "",
    texts: "\
a schedule without a program | schedule/h take/ -> line 1: header
a schedule without scripts | heap 1 1/schedule/ -> line 1: limit scripts 0
a program without a schedule | heap 1 1/script s/show p/ -> line 3: end
an empty line in a program | heap 1 1/script s//schedule/ -> line 3: word
words behind `schedule` | heap 1 1/script s/schedule now/ -> line 3: word
a fault of the program, before one of the schedule | heap 1 1/script s/x/schedule// -> line 3: word
a fault of the schedule, before one of types | heap 1 1/script s/show p/schedule/h gave/ -> line 5: word
a fault of types, before an event that may not come | heap 1 1/script s/show p/schedule/h give/ -> line 3: no register
an empty schedule | heap 1 1/script s/schedule -> fine
spaces around `schedule` | heap 1 1/script s/  schedule / -> fine
a second `schedule` | heap 1 1/script s/schedule/h take/schedule/ -> line 5: word
",
};

const EVENTS: Group = Group {
    command: "replay",
    front: "heap 1 1/script s/schedule/",
    texts: "\
two spaces between words, and between events | h  take;  give -> fine
spaces at both ends |  h take  -> fine
no space between events | h take;give -> line 4: word
nothing behind a semicolon | h take; -> line 4: word
nothing but a space behind a semicolon | h take;  -> line 4: word
a seat alone | c0  -> line 4: word
an empty line | / -> line 4: word
an empty line behind events | h take// -> line 5: word
a seat that there isn't | x take -> line 4: word
a caller without a number | c take -> line 4: number
a fault in a word before one in a number | c take; gave -> line 4: word
a word too many | h take 1 -> line 4: word
a number of more than 64 bits | h take; clear 18446744073709551616 -> line 4: number
faults in two numbers | mx claim 0 01 -> line 4: number
a word too few | m0 claim 0 -> line 4: word
an event of a caller that there isn't, in a second line | h take/c1 enter -> line 5: event 1 not enabled, condition 1
a third event that is out of order | h take; give; give -> line 4: event 3 not enabled, condition 3
a second event that does not meet its own condition | m3 attend; claim 0 0 -> line 4: event 2 not enabled, condition 7
",
};

/// Whether this line is told of a text; `fine` stands for none.
fn is_told<R: Threads + Wait + Sync>(
    rt: &R,
    alloc: Global,
    command: &str,
    text: &str,
    line: &str,
) -> Option<bool> {
    let ended = run(rt, alloc, &ample(command, text.as_bytes()))?;
    Some(match ended.told.split_last() {
        Some((end, told)) => *end == b'\n' && told == line.as_bytes(),
        None => line == "fine",
    })
}

impl Group {
    /// The front, and then this.
    fn text(&self, alloc: Global, back: &str) -> Option<String> {
        let mut text = lines(alloc, self.front)?;
        text.push_str(lines(alloc, back)?.as_str()).ok()?;
        Some(text)
    }
}

/// Whether a row of a group holds.
pub fn is_told_in<R: Threads + Wait + Sync>(
    rt: &R,
    alloc: Global,
    group: &Group,
    row: &str,
) -> Option<bool> {
    let (_name, rest) = row.split_once(" | ")?;
    let (back, line) = rest.split_once(" -> ")?;
    is_told(
        rt,
        alloc,
        group.command,
        group.text(alloc, back)?.as_str(),
        line,
    )
}

const GROUPS: &[Group] = &[FIRST_LINES, TYPES, LINES, ILL_TYPED, SCHEDULES, EVENTS];

#[test]
fn the_first_fault_is_told(rt: HostRuntime) {
    for group in GROUPS {
        all_hold(&rt, rt.alloc(), Asks::Told(group), group.texts);
    }
}

/// A name; how a text begins; a line that declares a name, with `#` for a number; the greatest number of such lines;
/// what stands after them; and what is told of one line more.
const LIMITS: &str = "\
types | heap 1 1/ | type x# n | 64 | script s/ | line 66: limit types 65
globals | heap 1 1/ | global x# A | 64 | script s/ | line 66: limit globals 65
scripts | heap 1 1/ | script x# | 16 |  | line 18: limit scripts 17
pointer registers | heap 1 1/script s/ | ptr x# A | 8 |  | line 11: limit pointers 9
number registers | heap 1 1/script s/ | num x# | 8 |  | line 11: limit numbers 9
blocks in each other | heap 1 1/script s/ | if x# | 32 | \
    end/end/end/end/end/end/end/end/end/end/end/end/end/end/end/end/\
    end/end/end/end/end/end/end/end/end/end/end/end/end/end/end/end/ | line 35: limit depth 33
";

/// What a row of `LIMITS` says, after its name.
#[derive(Clone, Copy)]
struct Limit<'a> {
    front: &'a str,
    line: &'a str,
    greatest: u64,
    back: &'a str,
}

fn limit_said(row: &str) -> Option<(Limit, &str)> {
    let (_name, rest) = row.split_once(" | ")?;
    let (front, rest) = rest.split_once(" | ")?;
    let (line, rest) = rest.split_once(" | ")?;
    let (greatest, rest) = rest.split_once(" | ")?;
    let (back, told) = rest.split_once(" | ")?;
    let greatest = number(greatest)?;
    Some((
        Limit {
            front,
            line,
            greatest,
            back,
        },
        told,
    ))
}

/// Writes so many lines that declare `x0`, `x1` and so on.
fn declare(text: &mut String, line: &str, count: u64) -> Option<()> {
    let (word, end) = line.split_once('#')?;
    for index in 0..count {
        writeln!(text, "{word}{index}{end}").ok()?;
    }
    Some(())
}

/// A front, so many lines that declare names, and what stands after them.
fn declaring(alloc: Global, limit: &Limit) -> Option<String> {
    let mut text = lines(alloc, limit.front)?;
    declare(&mut text, limit.line, limit.greatest)?;
    text.push_str(lines(alloc, limit.back)?.as_str()).ok()?;
    Some(text)
}

fn is_told_of<R: Threads + Wait + Sync>(
    rt: &R,
    alloc: Global,
    limit: &Limit,
    line: &str,
) -> Option<bool> {
    is_told(rt, alloc, "print", declaring(alloc, limit)?.as_str(), line)
}

/// Whether a row of `LIMITS` holds: so many lines are fine, and one more isn't.
pub fn is_limit<R: Threads + Wait + Sync>(rt: &R, alloc: Global, row: &str) -> Option<bool> {
    let (limit, line) = limit_said(row)?;
    let fits = is_told_of(rt, alloc, &limit, "fine")?;
    let more = Limit {
        greatest: limit.greatest.wrapping_add(1),
        back: "",
        ..limit
    };
    Some(is_told_of(rt, alloc, &more, line)? && fits)
}

#[test]
fn limits_are_kept(rt: HostRuntime) {
    all_hold(&rt, rt.alloc(), Asks::Limit, LIMITS);
}

#[test]
fn a_name_is_found_before_a_limit(rt: HostRuntime) {
    let text = Limit {
        front: "heap 1 1/",
        line: "type x# n",
        greatest: 64,
        back: "type x5 n",
    };
    assert!(rt; is_told_of(&rt, rt.alloc(), &text, "line 66: twice") == Some(true));
}

/// Whether this line is told of a text of so many spaces.
fn is_told_of_spaces<R: Threads + Wait + Sync>(
    rt: &R,
    alloc: Global,
    command: &str,
    spaces: usize,
    line: &str,
) -> Option<bool> {
    let text = " ".repeat(alloc, spaces).ok()?;
    is_told(rt, alloc, command, text.as_str(), line)
}

#[test]
fn bytes_are_limited(rt: HostRuntime) {
    for command in ["print", "replay"] {
        let fits = is_told_of_spaces(&rt, rt.alloc(), command, 1_048_576, "line 1: header");
        let line = "line 0: limit bytes 1048577";
        let is_long = is_told_of_spaces(&rt, rt.alloc(), command, 1_048_577, line);
        assert!(rt; (fits, is_long) == (Some(true), Some(true)), "{command}");
    }
}
