//! Tables: texts of which each line is a row that holds or doesn't.

use super::texts::{Group, is_limit, is_told_in};
use super::{are_no_words, books, geometry, goes, paces};
use std::alloc::Global;
use std::process::Abort;
use std::sync::Wait;
use std::thread::Threads;

/// What the rows of a table ask: each is a function of its own.
#[derive(Clone, Copy)]
pub enum Asks<'a> {
    Run,
    Words,
    Told(&'a Group),
    Limit,
    Way,
    Class,
    Pages,
    Header,
    Address,
    Place,
    Due,
}

/// Whether a row holds; none if it isn't a row, or memory doesn't suffice to tell.
fn holds<R: Threads + Wait + Sync>(rt: &R, alloc: Global, asks: Asks, row: &str) -> Option<bool> {
    match asks {
        Asks::Run => goes(rt, alloc, row),
        Asks::Words => are_no_words(rt, alloc, row),
        Asks::Told(group) => is_told_in(rt, alloc, group, row),
        Asks::Limit => is_limit(rt, alloc, row),
        Asks::Way => paces::is_paced_once(rt, alloc, row),
        Asks::Class => geometry::is_class(row),
        Asks::Pages => geometry::are_pages(row),
        Asks::Header => geometry::is_header(row),
        Asks::Address => geometry::is_address(row),
        Asks::Place => books::is_place(row),
        Asks::Due => books::is_due(row),
    }
}

/// Asserts that each row of a table holds.
pub fn all_hold<R: Threads + Wait + Sync + Abort>(rt: &R, alloc: Global, asks: Asks, rows: &str) {
    for row in rows.lines() {
        assert!(rt; holds(rt, alloc, asks, row) == Some(true), "{row}");
    }
}

/// The text with a newline for each `/`.
pub fn lines(alloc: Global, text: &str) -> Option<String> {
    text.replace(alloc, "/", "\n").ok()
}
