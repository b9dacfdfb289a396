//! A marker that scans one cell.
ghost use Rattle.std.specs.Prelude.{◌≡◌, ◌<◌, ◌≤◌, ◌+◌, ◌*◌, true, false, Some, None, IfSome, IfNone};
ghost use Rattle.mk_core.specs.{Effects.scan_onward, MarkingConditions.has_next_word};
ghost use Rattle.mk_geom.specs.Addresses.{class_words_of};
ghost use Rattle.mk_heap.specs.Below.Words.Steps.{marker_in};
ghost use Rattle.mk_clients.specs.Clients.{IsOutside, IsAttending, IsAt};

use mk_core::{Phase, Word};
use mk_geom::{Header, cells, class_words, decode, heap_page, lookup};
use mk_heap::lower::words::{MarkerPass, Words};

/// Loads the next word of the cell, and marks what it points to.
fn scan_word(words: &Words, pass: &mut MarkerPass)
    requires one_table { pass.old.table ≡ words.now }
    requires attends { IsAttending pass.old }
    requires next { has_next_word (marker_in pass.old).scan ≡ true }
    ensures one_table { pass.new.table ≡ words.now }
    ensures attends { IsAttending pass.new }
    ensures scan { (marker_in pass.new).scan ≡ scan_onward (marker_in pass.old).scan }
{
    let value = pass.marker_load(words);
    match heap_page(words.pages(), value) {
        Some(page) => {
            let header = pass.marker_look(words, Word::Head(page));
            match lookup(words.pages(), header, value) {
                Some(_) => pass.marker_mark(words),
                None => {}
            }
        }
        None => {}
    }
}

/// Scans a cell that it has claimed, and blackens it.
fn scan_words(words: &Words, pass: &mut MarkerPass, page: u64, k: u64, count: u64)
    requires one_table { pass.old.table ≡ words.now }
    requires attends { IsAttending pass.old }
    requires at { IsAt pass.old page k (64 * page + k * count) (64 * page + k * count + count) }
    ensures one_table { pass.new.table ≡ words.now }
    ensures attends { IsAttending pass.new }
{
    let mut done = 0;
    while done < count {
        scan_word(words, pass);
        done += 1;
    }
    pass.marker_black(words);
}

/// Scans a cell of a block, if it is marked.
fn scan_cell(words: &Words, pass: &mut MarkerPass, page: u64, k: u64)
    requires one_table { pass.old.table ≡ words.now }
    requires attends { IsAttending pass.old }
    requires idle { (marker_in pass.old).scan ≡ None }
    requires page { page < words.now.config.pages }
    ensures one_table { pass.new.table ≡ words.now }
    ensures attends { IsAttending pass.new }
{
    let header = pass.marker_look(words, Word::Head(page));
    match decode(header) {
        Some(Header::Block(class)) => {
            if k < cells(class) && pass.claim(words, page, k) {
                scan_words(words, pass, page, k, class_words(class));
            }
        }
        _ => {}
    }
}

/// Comes in, scans a cell if the marker attends, and goes out.
pub fn visit(words: &Words, pass: &mut MarkerPass, page: u64, k: u64)
    requires one_table { pass.old.table ≡ words.now }
    requires outside { IsOutside pass.old }
    requires page { page < words.now.config.pages }
    ensures one_table { pass.new.table ≡ words.now }
    ensures outside { IsOutside pass.new }
{
    if Phase::Marking.is_in(pass.attend(words)) {
        scan_cell(words, pass, page, k);
        pass.quit(words);
    } else {
        pass.quit(words);
    }
}
