//! Whether the seven conditions, as they are defined, are those that are meant: schedules, and events that are
//! refused at places of them.

use super::conditions::{FREES, FULL, GATES, MARKS, ORDER, PHASES, PLACES, RANGES, RUN_FREED};
use super::cycles::{
    ANSWERS, BLACKS, CARVED, FREED_BEHIND, FREED_PAGES, GLOBALS, MOVE, RELEASE, SCAN, STOP,
};
use super::runs::{ample, run};
use std::alloc::Global;
use std::sync::Wait;
use std::thread::Threads;

/// Scripts, a schedule, and what the scripts have printed after it. A line of the schedule is made, except one that
/// begins with the number of a condition: each of its events, with ` | ` between them, is refused there by that
/// condition. What that shows comes last in the line, behind ` -- `.
#[derive(Clone, Copy)]
pub struct Walk {
    pub name: &'static str,
    pub scripts: &'static str,
    pub lines: &'static str,
    pub written: &'static str,
}

/// A line of refused events.
#[derive(Clone, Copy)]
struct Refusals<'a> {
    condition: &'a str,
    seat: &'a str,
    events: &'a str,
}

/// What a line of refused events says; none for another line, and for one that doesn't say what it shows.
fn refusals_in(line: &str) -> Option<Refusals> {
    let (asked, _shown) = line.split_once(" -- ")?;
    let (condition, rest) = asked.split_once(' ')?;
    let (seat, events) = rest.split_once(' ')?;
    if !"1234567".contains(condition) {
        return None;
    }
    Some(Refusals {
        condition,
        seat,
        events,
    })
}

/// Whether just this is told and written of a schedule.
fn replays<R: Threads + Wait + Sync>(
    rt: &R,
    alloc: Global,
    text: &str,
    told: &str,
    written: &str,
) -> Option<bool> {
    Some(run(rt, alloc, &ample("replay", text.as_bytes()))?.is(told, written))
}

/// What is told if the first event after what is made is refused by a condition.
fn refusal(alloc: Global, made: &str, condition: &str) -> Option<String> {
    let line = (made.lines().count() as u64).wrapping_add(1);
    format!(in alloc; "line {line}: event 1 not enabled, condition {condition}\n").ok()
}

/// Whether this is told of what is made with one event more.
fn is_told_of<R: Threads + Wait + Sync>(
    rt: &R,
    alloc: Global,
    made: &str,
    seat: &str,
    event: &str,
    told: &str,
) -> Option<bool> {
    let text = format!(in alloc; "{made}{seat} {event}\n").ok()?;
    replays(rt, alloc, text.as_str(), told, "")
}

/// Whether each of these events is refused by the condition after what is made.
fn are_refused<R: Threads + Wait + Sync>(
    rt: &R,
    alloc: Global,
    made: &str,
    refusals: &Refusals,
) -> Option<bool> {
    let told = refusal(alloc, made, refusals.condition)?;
    for event in refusals.events.split(" | ") {
        if !is_told_of(rt, alloc, made, refusals.seat, event, told.as_str())? {
            return Some(false);
        }
    }
    Some(true)
}

/// Whether a line goes as it says after what is made, where it is put if it is no line of refused events.
fn goes<R: Threads + Wait + Sync>(
    rt: &R,
    alloc: Global,
    made: &mut String,
    line: &str,
) -> Option<bool> {
    if let Some(refusals) = refusals_in(line) {
        return are_refused(rt, alloc, made.as_str(), &refusals);
    }
    made.push_str(line).ok()?;
    made.push_str("\n").ok()?;
    Some(true)
}

/// The first line of a walk that goes otherwise than it says, or what else does.
fn astray<R: Threads + Wait + Sync>(rt: &R, alloc: Global, walk: &Walk) -> Option<&'static str> {
    let Ok(mut made) = format!(in alloc; "{}schedule\n", walk.scripts) else {
        return Some("memory is refused");
    };
    for line in walk.lines.lines() {
        if goes(rt, alloc, &mut made, line) != Some(true) {
            return Some(line);
        }
    }
    match replays(rt, alloc, made.as_str(), "", walk.written) {
        Some(true) => None,
        _ => Some("something else is written"),
    }
}

#[test]
fn events_are_refused_by_the_condition_that_is_meant(rt: HostRuntime) {
    for walk in [
        ORDER, RANGES, GATES, PHASES, PLACES, FREES, RUN_FREED, MARKS, FULL,
    ] {
        assert_eq!(rt; astray(&rt, rt.alloc(), &walk), None, "{}", walk.name);
    }
}

#[test]
fn whole_cycles_go_as_they_are_meant(rt: HostRuntime) {
    for walk in [
        GLOBALS,
        BLACKS,
        STOP,
        RELEASE,
        FREED_PAGES,
        SCAN,
        FREED_BEHIND,
        CARVED,
        MOVE,
        ANSWERS,
    ] {
        assert_eq!(rt; astray(&rt, rt.alloc(), &walk), None, "{}", walk.name);
    }
}
