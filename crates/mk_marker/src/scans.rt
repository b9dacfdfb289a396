//! The scan of a cell: each of its words is loaded, and what that points into is marked.
ghost use Rattle.std.specs.Prelude.{◌≡◌, ◌+◌, ◌<◌, None, Some};
ghost use Rattle.mk_geom.specs.Addresses.{header_of, page_at_address};
ghost use Rattle.mk_core.specs.Cells.{cells_under};
ghost use Rattle.mk_words.specs.Steps.{marker_in};
ghost use Rattle.mk_marker.specs.Markers.{between_scans, IsBetweenScans, IsBlackIn};
ghost use Rattle.mk_marker.specs.Steps.{IsOf, IsMarkedIn, IsScanning, SameScan, ScansOn, ScansCell};
ghost use Rattle.mk_marker.specs.Steps.{words_left};

use crate::cells::MarkedCell;
use crate::steps::{blacken, claim, load, look, mark};
use mk_core::{Word, words_scanned};
use mk_geom::{heap_page, lookup};
use mk_words::{MarkerPass, Words};

/// Marks the cell into which the value in its hand points, or finds that it points into nothing.
fn mark_target(words: &Words, pass: &mut MarkerPass, page: u64, value: u64)
    requires marker { IsOf words.now pass.old }
    requires holding { IsScanning (marker_in pass.old) (Some value) }
    requires page { page ≡ page_at_address value }
    requires within { page < words.now.config.pages }
    ensures scanning { IsScanning (marker_in pass.new) None }
    ensures cell { SameScan (marker_in pass.old) (marker_in pass.new) }
    ensures left { words_left (marker_in pass.new) ≡ words_left (marker_in pass.old) }
    ensures goes { ScansOn pass.old 0 pass.new }
{
    let header = look(words, pass, Word::Head(page));
    match lookup(words.pages(), header, value) {
        Some(_) => mark(words, pass),
        None => {}
    }
}

/// Loads the next word of the cell, and marks what it points into.
fn scan_word(words: &Words, pass: &mut MarkerPass)
    requires marker { IsOf words.now pass.old }
    requires scanning { IsScanning (marker_in pass.old) None }
    requires more { 0 < words_left (marker_in pass.old) }
    ensures scanning { IsScanning (marker_in pass.new) None }
    ensures cell { SameScan (marker_in pass.old) (marker_in pass.new) }
    ensures left { words_left (marker_in pass.new) + 1 ≡ words_left (marker_in pass.old) }
    ensures goes { ScansOn pass.old 1 pass.new }
{
    let value = load(words, pass);
    match heap_page(words.pages(), value) {
        Some(page) => mark_target(words, pass, page, value),
        None => {}
    }
}

/// Scans the words of the cell.
fn scan_words(words: &Words, pass: &mut MarkerPass, count: u64)
    requires marker { IsOf words.now pass.old }
    requires scanning { IsScanning (marker_in pass.old) None }
    requires left { words_left (marker_in pass.old) ≡ count }
    ensures scanning { IsScanning (marker_in pass.new) None }
    ensures cell { SameScan (marker_in pass.old) (marker_in pass.new) }
    ensures none_left { words_left (marker_in pass.new) ≡ 0 }
    ensures goes { ScansOn pass.old count pass.new }
{
    'words: for _loaded in 0..count {
        scan_word(words, pass);
    }
}

/// Scans a cell that it has seen marked, and makes it black.
pub(crate) fn scan_cell(words: &Words, pass: &mut MarkerPass, cell: MarkedCell)
    requires marker { IsOf words.now pass.old }
    requires seen { marker_in pass.old ≡ between_scans (Some (record { page = cell.page; header = cell.header })) }
    requires page { cell.page < words.now.config.pages }
    requires index { cell.index < cells_under (header_of cell.header) }
    requires marked { IsMarkedIn pass.old cell.page cell.index }
    ensures scans { ScansCell pass.old cell pass.new }
    ensures black { IsBlackIn pass.new cell.page cell.index }
    ensures between { IsBetweenScans pass.new }
{
    claim(words, pass, cell);
    scan_words(words, pass, words_scanned(cell.header));
    blacken(words, pass, cell);
}
