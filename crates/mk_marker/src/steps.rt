//! The steps of a marker, each with what it leaves.
ghost use Rattle.std.specs.Prelude.{◌≡◌, ◌<◌, ◌≤◌, ◌%◌, ◌&&◌, true, false, None, Some};
ghost use Rattle.mk_geom.specs.Addresses.{header_of};
ghost use Rattle.mk_core.specs.{Words.named_word, Conditions.is_word, MarkingConditions.{is_markers_word, is_out}};
ghost use Rattle.mk_core.specs.{MarkingConditions.{may_mmark, may_mblack}, Cells.{cells_under, words_scanned}};
ghost use Rattle.mk_words.specs.{States.now_of, Steps.marker_in};
ghost use Rattle.mk_marker.specs.Markers.{IsOut, attends, between_scans, IsBlackIn};
ghost use Rattle.mk_marker.specs.Steps.{IsOf, MovesMarker, Moved, IsMarkedIn, IsScanning, IsScanOf, ClaimsMarked};
ghost use Rattle.mk_marker.specs.Steps.{words_left};
ghost use Rattle.mk_core.specs.declared.events.Step.TheVariants as step;

use crate::cells::MarkedCell;
use mk_core::Word;
use mk_words::{MarkerPass, Words};

/// Comes in, and returns the phase word as it was, which has one of the six phases.
#[inline(always)]
pub(crate) fn attend(words: &Words, pass: &mut MarkerPass) -> u64
    requires marker { IsOf words.now pass.old }
    requires out { IsOut pass.old }
    ensures moves { MovesMarker pass.old step.Attend result pass.new }
    ensures phase { result % 8 ≤ 5 }
{
    pass.attend(words)
}

/// Goes out.
#[inline(always)]
pub(crate) fn quit(words: &Words, pass: &mut MarkerPass)
    requires marker { IsOf words.now pass.old }
    requires comes { is_out (marker_in pass.old).presence ≡ false }
    ensures { Moved pass.old step.Quit pass.new }
{
    pass.quit(words);
}

/// Looks at the phase, or at a mark, black or header word.
#[inline(always)]
pub(crate) fn look(words: &Words, pass: &mut MarkerPass, x: Word) -> u64
    requires marker { IsOf words.now pass.old }
    requires attends { attends pass.old ≡ true }
    requires word { (is_markers_word x && is_word words.now.config x) ≡ true }
    ensures moves { MovesMarker pass.old (step.Mlook x) result pass.new }
    ensures shows { result ≡ named_word (now_of pass.new).words x }
{
    pass.marker_look(words, x)
}

/// Claims a cell that it has seen marked. It is marked still, since no mark is taken back while a marker attends.
#[inline(always)]
pub(crate) fn claim(words: &Words, pass: &mut MarkerPass, cell: MarkedCell)
    requires marker { IsOf words.now pass.old }
    requires seen { marker_in pass.old ≡ between_scans (Some (record { page = cell.page; header = cell.header })) }
    requires page { cell.page < words.now.config.pages }
    requires index { cell.index < cells_under (header_of cell.header) }
    requires marked { IsMarkedIn pass.old cell.page cell.index }
    ensures claims { ClaimsMarked pass.old cell pass.new }
    ensures scanning { IsScanning (marker_in pass.new) None }
    ensures cell { IsScanOf (marker_in pass.new) cell.page cell.index }
    ensures left { words_left (marker_in pass.new) ≡ words_scanned (header_of cell.header) }
{
    pass.claim(words, cell.page, cell.index);
}

/// Loads the next word of the cell.
#[inline(always)]
pub(crate) fn load(words: &Words, pass: &mut MarkerPass) -> u64
    requires marker { IsOf words.now pass.old }
    requires scanning { IsScanning (marker_in pass.old) None }
    requires more { 0 < words_left (marker_in pass.old) }
    ensures { MovesMarker pass.old step.Mload result pass.new }
{
    pass.marker_load(words)
}

/// Marks the cell that it has seen, into which its open hand points.
#[inline(always)]
pub(crate) fn mark(words: &Words, pass: &mut MarkerPass)
    requires marker { IsOf words.now pass.old }
    requires cell { may_mmark words.now.config (marker_in pass.old) ≡ true }
    ensures { Moved pass.old step.Mmark pass.new }
{
    pass.marker_mark(words);
}

/// Blackens the cell that it has scanned.
#[inline(always)]
pub(crate) fn blacken(words: &Words, pass: &mut MarkerPass, cell: MarkedCell)
    requires marker { IsOf words.now pass.old }
    requires scanned { may_mblack (marker_in pass.old) ≡ true }
    requires cell { IsScanOf (marker_in pass.old) cell.page cell.index }
    requires page { cell.page < words.now.config.pages }
    requires index { cell.index < 64 }
    ensures moves { Moved pass.old step.Mblack pass.new }
    ensures black { IsBlackIn pass.new cell.page cell.index }
{
    pass.marker_black(words);
}
