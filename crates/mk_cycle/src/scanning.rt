//! The scan of a gray cell: its words are looked at, and what they point into is marked. Most words are null or small
//! numbers, so those of a group are looked at together first.
ghost use Rattle.std.specs.Prelude.{◌≡◌, ℕ, ◌+◌, ◌*◌, ◌/◌, ◌<◌, ◌≤◌, min, true, Some, slice_index};
ghost use Rattle.mk_core.specs.Cells.{first_word, words_point_well};
ghost use Rattle.mk_cycle.specs.Grays.{LooksOn, IsDue, listed, with_last, MarksAndNotes, Scans};
ghost use Rattle.mk_cycle.specs.Stops.{MayTrace, still_words};

use crate::noted::Noted;
use crate::noting::{mark_address, mark_and_note, mark_value};
use crate::stepping::look_at_word;
use crate::tables::Table;
use crate::worklist::Worklist;
use mk_geom::{HEAP_START, PAGE_WORDS};
use mk_words::Stopped;

/// The words of a cell are groups of this many, and at most seven more.
const GROUP: u64 = 8;

/// How many groups of a cell are on a page.
const PAGE_GROUPS: u64 = PAGE_WORDS / GROUP;

/// Looks at a group of words of a gray cell, from this one on, which are on this page of the cell. Returns true only if
/// all are before the heap, as null is.
#[inline(always)]
fn are_before_heap(table: Table, stop: &mut Stopped, gray: Noted, part: u64, first: u64) -> bool
    requires may { MayTrace table.words.now stop.old.pass }
    requires due { IsDue table.pages (still_words stop.old.pass) gray }
    requires group { first + 8 ≤ gray.words }
    requires part { (i : ℕ) → i < 8 → part ≡ (first + i) / 64 }
    ensures looks { LooksOn stop.old stop.new }
    ensures before { result ≡ true → (i : ℕ) → i < 8
        → slice_index (still_words stop.old.pass).heap (first_word (still_words stop.old.pass) gray.cell + (first + i))
        < 65536 }
{
    let mut all = 0;
    for i in 0..GROUP {
        all |= look_at_word(table, stop, gray, part, first + i);
    }
    all < HEAP_START
}

/// Looks at the words of a gray cell that is on one page, from this word on, after another cell was noted. What one
/// points into is marked before the next is looked at. Returns what was noted last.
#[inline(always)]
fn scan_rest(
    table: Table,
    stop: &mut Stopped,
    work: &mut Worklist,
    gray: Noted,
    from: u64,
    noted: Noted,
) -> Noted
    requires may { MayTrace table.words.now stop.old.pass }
    requires due { IsDue table.pages (still_words stop.old.pass) gray }
    requires few { gray.words ≤ 64 }
    ensures { Scans table.entry.pages stop.old (with_last work.old (Some noted)) stop.new
        (with_last work.new (Some result)) gray.cell from gray.words }
{
    let mut last = noted;
    for i in from..gray.words {
        let value = look_at_word(table, stop, gray, 0, i);
        last = mark_and_note(table, stop, work, value, last);
    }
    last
}

/// Looks at each word of a gray cell that is on one page, and marks what it points into. The loop ends with the first
/// cell that is noted, so it has none to keep: most cells point into one such cell, or none. Returns what was noted
/// last.
#[inline(always)]
fn scan_few(table: Table, stop: &mut Stopped, work: &mut Worklist, gray: Noted) -> Option<Noted>
    requires may { MayTrace table.words.now stop.old.pass }
    requires due { IsDue table.pages (still_words stop.old.pass) gray }
    requires few { gray.words ≤ 64 }
    ensures { Scans table.entry.pages stop.old (listed work.old) stop.new (with_last work.new result) gray.cell 0
        gray.words }
{
    for i in 0..gray.words {
        let value = look_at_word(table, stop, gray, 0, i);
        let noted = mark_value(table, stop, work, value);
        if let Some(one) = noted {
            let last = scan_rest(table, stop, work, gray, i + 1, one);
            return Some(last);
        }
    }
    None
}

/// Looks at so many words of a gray cell, from one on, which are on this page of the cell, and marks what they point
/// into.
#[inline(always)]
fn scan_from(
    table: Table,
    stop: &mut Stopped,
    work: &mut Worklist,
    gray: Noted,
    part: u64,
    first: u64,
    count: u64,
)
    requires may { MayTrace table.words.now stop.old.pass }
    requires due { IsDue table.pages (still_words stop.old.pass) gray }
    requires within { first + count ≤ gray.words }
    requires part { (i : ℕ) → i < count → part ≡ (first + i) / 64 }
    ensures { Scans table.entry.pages stop.old (listed work.old) stop.new (listed work.new) gray.cell first
        (first + count) }
{
    for i in 0..count {
        let value = look_at_word(table, stop, gray, part, first + i);
        mark_address(table, stop, work, value);
    }
}

/// Looks at the words of a group of a gray cell, from this one on, which are on this page of the cell, and marks what
/// they point into. Few groups have a word that points into the heap.
#[inline(always)]
fn scan_words(
    table: Table,
    stop: &mut Stopped,
    work: &mut Worklist,
    gray: Noted,
    part: u64,
    first: u64,
)
    requires may { MayTrace table.words.now stop.old.pass }
    requires due { IsDue table.pages (still_words stop.old.pass) gray }
    requires within { first + 8 ≤ gray.words }
    requires part { (i : ℕ) → i < 8 → part ≡ (first + i) / 64 }
    ensures { Scans table.entry.pages stop.old (listed work.old) stop.new (listed work.new) gray.cell first
        (first + 8) }
{
    scan_from(table, stop, work, gray, part, first, GROUP);
}

/// Looks at the words of a group of a gray cell, which are on this page of the cell, and marks what they point into.
#[inline(always)]
fn scan_group(
    table: Table,
    stop: &mut Stopped,
    work: &mut Worklist,
    gray: Noted,
    part: u64,
    group: u64,
)
    requires may { MayTrace table.words.now stop.old.pass }
    requires due { IsDue table.pages (still_words stop.old.pass) gray }
    requires group { 8 * group + 8 ≤ gray.words }
    requires part { part ≡ group / 8 }
    ensures { Scans table.entry.pages stop.old (listed work.old) stop.new (listed work.new) gray.cell (8 * group)
        (8 * group + 8) }
{
    let first = GROUP * group;
    if are_before_heap(table, stop, gray, part, first) {
        return;
    }
    scan_words(table, stop, work, gray, part, first);
}

/// Looks at each word of the groups of a gray cell that are on one page of it, and marks what it points into.
#[inline(always)]
fn scan_part(table: Table, stop: &mut Stopped, work: &mut Worklist, gray: Noted, part: u64)
    requires may { MayTrace table.words.now stop.old.pass }
    requires due { IsDue table.pages (still_words stop.old.pass) gray }
    requires part { 64 * part ≤ gray.words }
    ensures { Scans table.entry.pages stop.old (listed work.old) stop.new (listed work.new) gray.cell
        (64 * part) (min (64 * part + 64) (8 * (gray.words / 8))) }
{
    let first = PAGE_GROUPS * part;
    let end = (first + PAGE_GROUPS).min(gray.words / GROUP);
    for group in first..end {
        scan_group(table, stop, work, gray, part, group);
    }
}

/// Looks at each word of two groups of a gray cell, which are on this page of the cell, and marks what it points into.
#[inline(always)]
fn scan_two_groups(
    table: Table,
    stop: &mut Stopped,
    work: &mut Worklist,
    gray: Noted,
    part: u64,
    group: u64,
)
    requires may { MayTrace table.words.now stop.old.pass }
    requires due { IsDue table.pages (still_words stop.old.pass) gray }
    requires groups { 8 * group + 16 ≤ gray.words }
    requires first { part ≡ group / 8 }
    requires last { part ≡ (group + 1) / 8 }
    ensures { Scans table.entry.pages stop.old (listed work.old) stop.new (listed work.new) gray.cell (8 * group)
        (8 * group + 16) }
{
    scan_group(table, stop, work, gray, part, group);
    scan_group(table, stop, work, gray, part, group + 1);
}

/// Looks at each word of four groups of a gray cell, which are on this page of the cell, and marks what it points into.
#[inline(always)]
fn scan_four_groups(
    table: Table,
    stop: &mut Stopped,
    work: &mut Worklist,
    gray: Noted,
    part: u64,
    group: u64,
)
    requires may { MayTrace table.words.now stop.old.pass }
    requires due { IsDue table.pages (still_words stop.old.pass) gray }
    requires groups { 8 * group + 32 ≤ gray.words }
    requires first { part ≡ group / 8 }
    requires last { part ≡ (group + 3) / 8 }
    ensures { Scans table.entry.pages stop.old (listed work.old) stop.new (listed work.new) gray.cell (8 * group)
        (8 * group + 32) }
{
    scan_two_groups(table, stop, work, gray, part, group);
    scan_two_groups(table, stop, work, gray, part, group + 2);
}

/// Looks at each word of a page of a gray cell, and marks what it points into. There is no loop over the groups, so no
/// count of them is kept, and each word's place on the page is known.
#[inline(always)]
fn scan_page(table: Table, stop: &mut Stopped, work: &mut Worklist, gray: Noted, part: u64)
    requires may { MayTrace table.words.now stop.old.pass }
    requires due { IsDue table.pages (still_words stop.old.pass) gray }
    requires page { 64 * part + 64 ≤ gray.words }
    ensures { Scans table.entry.pages stop.old (listed work.old) stop.new (listed work.new) gray.cell (64 * part)
        (64 * part + 64) }
{
    let group = PAGE_GROUPS * part;
    scan_four_groups(table, stop, work, gray, part, group);
    scan_four_groups(table, stop, work, gray, part, group + 4);
}

/// Looks at each word of a gray cell of at least eight words that is on one page, and marks what it points into.
#[inline(always)]
fn scan_near(table: Table, stop: &mut Stopped, work: &mut Worklist, gray: Noted)
    requires may { MayTrace table.words.now stop.old.pass }
    requires due { IsDue table.pages (still_words stop.old.pass) gray }
    requires few { gray.words < 64 }
    ensures marks { MarksAndNotes table.entry.pages stop.old (listed work.old) stop.new (listed work.new) }
    ensures well { words_point_well table.entry.pages (still_words stop.new.pass) gray.cell ≡ true }
{
    scan_part(table, stop, work, gray, 0);
    let first = GROUP * (gray.words / GROUP);
    scan_from(table, stop, work, gray, 0, first, gray.words - first);
}

/// Looks at each word of a gray cell of at least eight words, one page of it after the other, and marks what it points
/// into.
#[inline(never)]
fn scan_groups(table: Table, stop: &mut Stopped, work: &mut Worklist, gray: Noted)
    requires may { MayTrace table.words.now stop.old.pass }
    requires due { IsDue table.pages (still_words stop.old.pass) gray }
    ensures marks { MarksAndNotes table.entry.pages stop.old (listed work.old) stop.new (listed work.new) }
    ensures well { words_point_well table.entry.pages (still_words stop.new.pass) gray.cell ≡ true }
{
    let last = gray.words / PAGE_WORDS;
    for part in 0..last {
        scan_page(table, stop, work, gray, part);
    }
    scan_part(table, stop, work, gray, last);
    let first = GROUP * (gray.words / GROUP);
    scan_from(table, stop, work, gray, last, first, gray.words - first);
}

/// Looks at each word of a gray cell, of this many, and marks what it points into. Most cells have few words. Returns
/// what was noted last.
#[inline(always)]
pub(crate) fn scan(
    table: Table,
    stop: &mut Stopped,
    work: &mut Worklist,
    gray: Noted,
) -> Option<Noted>
    requires may { MayTrace table.words.now stop.old.pass }
    requires due { IsDue table.pages (still_words stop.old.pass) gray }
    ensures marks { MarksAndNotes table.entry.pages stop.old (listed work.old) stop.new (with_last work.new result) }
    ensures well { words_point_well table.entry.pages (still_words stop.new.pass) gray.cell ≡ true }
{
    if gray.words < GROUP {
        return scan_few(table, stop, work, gray);
    }
    if gray.words < PAGE_WORDS {
        scan_near(table, stop, work, gray);
        return None;
    }
    scan_groups(table, stop, work, gray);
    None
}
