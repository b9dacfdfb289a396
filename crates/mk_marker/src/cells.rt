//! A marker finds the cells that are marked and not black by looking at mark and black words, page by page.
ghost use Rattle.std.specs.Prelude.{◌≡◌, ◌≢◌, ◌+◌, ◌<◌, ◌≤◌, true, IfSome, IfNone};
ghost use Rattle.mk_core.specs.Words.{has_bit, without};
ghost use Rattle.mk_marker.specs.{Markers.IsBetweenScans, Steps.{IsOf, LooksInVain, SeesCell}};

use crate::steps::look;
use mk_core::{Word, lowest_bit, without};
use mk_words::{MarkerPass, Words};

/// A cell that a marker has seen marked and not black, under this header word of its page.
#[derive(Clone, Copy, Debug, PartialEq, Eq)]
pub(crate) struct MarkedCell {
    pub(crate) page: u64,
    pub(crate) index: u64,
    pub(crate) header: u64,
}

/// Looks for a cell of the page that is marked and not black. A page without header has no cell yet: a `New` marks
/// the cells that it carves first.
fn find_on_page(words: &Words, pass: &mut MarkerPass, page: u64) -> Option<MarkedCell>
    requires marker { IsOf words.now pass.old }
    requires between { IsBetweenScans pass.old }
    requires page { page < words.now.config.pages }
    ensures none { IfNone result (LooksInVain pass.old page (page + 1) pass.new) }
    ensures some { IfSome result (λ cell. SeesCell pass.old cell pass.new) }
    ensures within { IfSome result (λ cell. cell.page < words.now.config.pages) }
{
    let marks = look(words, pass, Word::Mark(page));
    let blacks = look(words, pass, Word::Black(page));
    let bits = without(marks, blacks);
    if bits == 0 {
        return None;
    }
    let header = look(words, pass, Word::Head(page));
    if header == 0 {
        None
    } else {
        Some(MarkedCell {
            page,
            index: lowest_bit(bits),
            header,
        })
    }
}

/// Looks for such a cell from one page on, up to another.
fn find_between(words: &Words, pass: &mut MarkerPass, first: u64, end: u64) -> Option<MarkedCell>
    requires marker { IsOf words.now pass.old }
    requires between { IsBetweenScans pass.old }
    requires end { end ≤ words.now.config.pages }
    ensures none { IfNone result (LooksInVain pass.old first end pass.new) }
    ensures some { IfSome result (λ cell. SeesCell pass.old cell pass.new) }
    ensures within { IfSome result (λ cell. cell.page < words.now.config.pages) }
{
    'pages: for page in first..end {
        if let Some(cell) = find_on_page(words, pass, page) {
            return Some(cell);
        }
    }
    None
}

/// Looks for such a cell on all pages, from this one on and then from page 0 on.
pub(crate) fn find_cell(words: &Words, pass: &mut MarkerPass, first: u64) -> Option<MarkedCell>
    requires marker { IsOf words.now pass.old }
    requires between { IsBetweenScans pass.old }
    requires first { first < words.now.config.pages }
    ensures none { IfNone result (LooksInVain pass.old 0 words.now.config.pages pass.new) }
    ensures some { IfSome result (λ cell. SeesCell pass.old cell pass.new) }
    ensures within { IfSome result (λ cell. cell.page < words.now.config.pages) }
{
    match find_between(words, pass, first, words.pages()) {
        None => find_between(words, pass, 0, first),
        found => found,
    }
}
