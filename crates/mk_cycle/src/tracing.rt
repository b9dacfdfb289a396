//! Tracing: every marked cell is scanned and blackened.
ghost use Rattle.std.specs.Prelude.{◌≡◌, ℕ, ◌<◌, true, Some};
ghost use Rattle.mk_core.specs.MarkingConditions.{may_turn_black};
ghost use Rattle.mk_cycle.specs.Grays.{BlackensOne, ColoursMore, HasNoGray, MarksOn, MarksAndNotes};
ghost use Rattle.mk_cycle.specs.{Grays.{AreNoted, IsGrayNoted, listed, with_last}, Stops.{MayTrace, still_words}};

use crate::grays::next_gray;
use crate::noted::Noted;
use crate::scanning::scan;
use crate::stepping::blacken_cell;
use crate::tables::Table;
use crate::worklist::Worklist;
use mk_words::Stopped;

/// Scans a gray cell, if it may have pointers. Returns what was noted last.
#[inline(always)]
fn scan_if_due(table: Table, stop: &mut Stopped, work: &mut Worklist, gray: Noted) -> Option<Noted>
    requires may { MayTrace table.words.now stop.old.pass }
    requires gray { IsGrayNoted table.pages (still_words stop.old.pass) gray }
    ensures marks { MarksAndNotes table.entry.pages stop.old (listed work.old) stop.new (with_last work.new result) }
    ensures turns { may_turn_black table.entry.pages (still_words stop.new.pass) gray.cell ≡ true }
{
    if gray.words == 0 {
        return None;
    }
    scan(table, stop, work, gray)
}

/// Scans a gray cell, if it may have pointers, and blackens it. Returns what was noted last.
#[inline(always)]
fn blacken(table: Table, stop: &mut Stopped, work: &mut Worklist, gray: Noted) -> Option<Noted>
    requires may { MayTrace table.words.now stop.old.pass }
    requires gray { IsGrayNoted table.pages (still_words stop.old.pass) gray }
    ensures on { MarksOn stop.old stop.new }
    ensures one { BlackensOne (still_words stop.old.pass) gray.cell (still_words stop.new.pass) }
    ensures noted { AreNoted table.entry.pages (still_words stop.old.pass) (with_last work.old (Some gray))
        → AreNoted table.entry.pages (still_words stop.new.pass) (with_last work.new result) }
{
    let last = scan_if_due(table, stop, work, gray);
    blacken_cell(table, stop, gray.cell);
    last
}

/// Blackens every marked cell. What its words point into is marked first.
pub(crate) fn trace(table: Table, stop: &mut Stopped, work: &mut Worklist)
    requires may { MayTrace table.words.now stop.old.pass }
    requires noted { AreNoted table.pages (still_words stop.old.pass) (listed work.old) }
    ensures on { MarksOn stop.old stop.new }
    ensures more { ColoursMore (still_words stop.old.pass) (still_words stop.new.pass) }
    ensures black { (p : ℕ) → p < table.entry.pages → HasNoGray (still_words stop.new.pass) p }
{
    let mut last = None;
    while let Some(gray) = next_gray(table, stop, work, last) {
        last = blacken(table, stop, work, gray);
    }
}
