//! What a marker may do, and when the host may end all: the own conditions of the markers' kinds of step
//! and of `over`.
ghost use Rattle.std.specs.Prelude.{◌≡◌};
ghost use Rattle.mk_core.specs.MarkingConditions.{is_out, is_markers_word, has_seen_cell, has_next_word, is_scanned};
ghost use Rattle.mk_core.specs.MarkingConditions.{may_mlook, may_claim, may_mload, may_mmark, may_mblack, may_end_all};
ghost use Rattle.mk_core.specs.Enabled.{marker_may};

use crate::cells::cells_under;
use crate::scans::cell_seen;
use crate::stop_conditions::is_attending;
use crate::{Core, Marker, Phase, Presence, Scan, SeenHeader, Step, Word};

fn is_out(presence: Presence) -> bool
    ensures { result ≡ is_out presence }
{
    matches!(presence, Presence::Out)
}

/// Whether a marker looks at the word.
fn is_markers_word(word: Word) -> bool
    ensures { result ≡ is_markers_word word }
{
    matches!(
        word,
        Word::Phase | Word::Mark(_) | Word::Black(_) | Word::Head(_)
    )
}

/// Whether the last look was at the page's header, and showed a cell of this index.
fn has_seen_cell(seen: Option<SeenHeader>, page: u64, index: u64) -> bool
    ensures { result ≡ has_seen_cell seen page index }
{
    seen.is_some_and(|seen| seen.page == page && index < cells_under(seen.header))
}

fn has_next_word(scan: Option<Scan>) -> bool
    ensures { result ≡ has_next_word scan }
{
    scan.is_some_and(|scan| scan.next < scan.end)
}

fn is_scanned(scan: Option<Scan>) -> bool
    ensures { result ≡ is_scanned scan }
{
    scan.is_some_and(|scan| scan.next >= scan.end)
}

fn may_mlook(marker: Marker, word: Word) -> bool
    ensures { result ≡ may_mlook marker word }
{
    is_attending(marker.presence) && is_markers_word(word)
}

fn may_claim(marker: Marker, page: u64, cell: u64) -> bool
    ensures { result ≡ may_claim marker page cell }
{
    is_attending(marker.presence) && marker.scan.is_none() && has_seen_cell(marker.seen, page, cell)
}

impl Core {
    /// Whether the marker's step meets its kind's own condition.
    pub(crate) fn marker_may(&self, marker: Marker, step: Step) -> bool
        ensures { result ≡ marker_may self.now.config marker step }
    {
        match step {
            Step::Attend => is_out(marker.presence),
            Step::Quit => !is_out(marker.presence),
            Step::Mlook(word) => may_mlook(marker, word),
            Step::Claim { page, cell } => may_claim(marker, page, cell),
            Step::Mload => has_next_word(marker.scan) && marker.hand.is_none(),
            Step::Mmark => cell_seen(&self.config, marker).is_some(),
            Step::Mblack => is_scanned(marker.scan) && marker.hand.is_none(),
            _ => true,
        }
    }

    /// Whether the host has the turn while nothing is marked.
    pub(crate) fn may_end_all(&self) -> bool
        ensures { result ≡ may_end_all self.now.config self.now.now }
    {
        self.host_has_turn() && self.table.is_at(Phase::None)
    }
}
