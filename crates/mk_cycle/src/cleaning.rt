//! What comes before a cycle's `begin`: the marks of the cycle before are cleared, and the snapshot is taken. Free
//! pages that may be marked are looked at, and then the pages in use, once each. A word that has the right value
//! already isn't stored to.
ghost use Rattle.std.specs.Prelude.{◌≡◌, ◌≢◌, ◌<◌, ◌≤◌, ℕ, true, false};
ghost use Rattle.mk_core.specs.{Conditions.is_word, Words.{header_at, named_word}};
ghost use Rattle.mk_words.specs.{PageMaps.HasNoMarks, States.now_of};
ghost use Rattle.mk_cycle.specs.BeginCycle.{Cleans, IsUnmarked, IsUnscanned, HasTakenSnapshot, IsReadyPage, WasUndirty};
ghost use Rattle.mk_cycle.specs.{EngineLaw.{IsTurnAmong, IsTurnAt, is_register}, Freeing.IsQuarantineWord};

use crate::turn_steps::look_among;
use mk_core::{QuarantineWord, Word};
use mk_words::{Turn, Words};

/// Looks at a word before the `begin`, in a table of this many pages.
#[inline(always)]
fn look_before(turn: &mut Turn, words: &Words, pages: u64, x: Word) -> u64
    requires turn { IsTurnAmong 0 words.now turn.old.pass pages }
    requires in_range { is_word words.now.config x ≡ true }
    requires no_register { is_register x ≡ false }
    ensures cleans { Cleans turn.old.pass turn.new.pass }
    ensures reads { result ≡ named_word (now_of turn.new.pass).words x }
{
    look_among(turn, words, pages, x)
}

/// Clears the marks of a page, which were found to be these.
#[tactic(auto, using(crate::proofs::Allowed::clear_allowed, crate::proofs::CleaningSteps::cleans_nothing))]
fn clear_marks(turn: &mut Turn, words: &Words, page: u64, marks: u64)
    requires turn { IsTurnAt 0 words.now turn.old.pass }
    requires within { page < words.now.config.pages }
    requires found { marks ≡ 0 → IsUnmarked turn.old.pass page }
    ensures cleans { Cleans turn.old.pass turn.new.pass }
    ensures unmarked { IsUnmarked turn.new.pass page }
{
    if marks != 0 {
        turn.clear(words, page);
    }
}

/// Clears the black word of a page, which was found to be this one.
#[tactic(auto, using(crate::proofs::Allowed::unblack_allowed, crate::proofs::CleaningSteps::cleans_nothing))]
fn clear_black(turn: &mut Turn, words: &Words, page: u64, blacks: u64)
    requires turn { IsTurnAt 0 words.now turn.old.pass }
    requires within { page < words.now.config.pages }
    requires found { blacks ≡ 0 → IsUnscanned turn.old.pass page }
    ensures cleans { Cleans turn.old.pass turn.new.pass }
    ensures unscanned { IsUnscanned turn.new.pass page }
{
    if blacks != 0 {
        turn.unblack(words, page);
    }
}

/// Clears the dirty word of a page, which was found to be this one. A caller may set it again at once.
#[tactic(auto, using(crate::proofs::Allowed::undirty_allowed, crate::proofs::CleaningSteps::cleans_nothing))]
fn clear_dirty(turn: &mut Turn, words: &Words, page: u64, dirty: u64)
    requires turn { IsTurnAt 0 words.now turn.old.pass }
    requires within { page < words.now.config.pages }
    ensures cleans { Cleans turn.old.pass turn.new.pass }
    ensures undirty { dirty ≢ 0 → WasUndirty page turn.old.pass turn.new.pass }
{
    if dirty != 0 {
        turn.undirty(words, page);
    }
}

/// Makes the freed cells of a page with this quarantine word its snapshot.
#[inline(always)]
fn copy_freed(turn: &mut Turn, words: &Words, pages: u64, page: u64, quarantine: u64)
    requires turn { IsTurnAmong 0 words.now turn.old.pass pages }
    requires within { page < words.now.config.pages }
    requires found { IsQuarantineWord turn.old.pass page quarantine }
    ensures cleans { Cleans turn.old.pass turn.new.pass }
    ensures snapshot { HasTakenSnapshot turn.new.pass page }
{
    let QuarantineWord { freed, snapshot } = QuarantineWord::of(quarantine);
    if snapshot != freed {
        let copied = QuarantineWord {
            freed,
            snapshot: freed,
        };
        turn.quar_still_freed(words, pages, page, copied.word());
    }
}

/// Clears the mark word and the black word of a page.
#[inline(always)]
fn clear_colours(turn: &mut Turn, words: &Words, pages: u64, page: u64)
    requires turn { IsTurnAmong 0 words.now turn.old.pass pages }
    requires within { page < words.now.config.pages }
    ensures cleans { Cleans turn.old.pass turn.new.pass }
    ensures bare { HasNoMarks (now_of turn.new.pass).words page }
{
    let marks = look_before(turn, words, pages, Word::Mark(page));
    let blacks = look_before(turn, words, pages, Word::Black(page));
    clear_marks(turn, words, page, marks);
    clear_black(turn, words, page, blacks);
}

/// Whether both words are 0.
#[inline(always)]
pub(crate) fn are_zero(first: u64, second: u64) -> bool
    ensures first { result ≡ true → first ≡ 0 }
    ensures second { result ≡ true → second ≡ 0 }
{
    first | second == 0
}

/// Clears what is left of the cycle before on a page in use, and takes its snapshot. Most aren't dirty and have no
/// freed cells, which one test shows.
#[inline(always)]
fn clean_page(turn: &mut Turn, words: &Words, pages: u64, page: u64)
    requires turn { IsTurnAmong 0 words.now turn.old.pass pages }
    requires within { page < words.now.config.pages }
    ensures cleans { Cleans turn.old.pass turn.new.pass }
    ensures ready { IsReadyPage page turn.old.pass turn.new.pass }
{
    clear_colours(turn, words, pages, page);
    let dirty = look_before(turn, words, pages, Word::Dirty(page));
    let quarantine = look_before(turn, words, pages, Word::Quar(page));
    if are_zero(dirty, quarantine) {
        return;
    }
    copy_freed(turn, words, pages, page, quarantine);
    clear_dirty(turn, words, page, dirty);
}

/// Clears the marks of a free page, and reports it to the page map.
fn clean_free(turn: &mut Turn, words: &Words, page: u64)
    requires turn { IsTurnAt 0 words.now turn.old.pass }
    requires within { page < words.now.config.pages }
    ensures cleans { Cleans turn.old.pass turn.new.pass }
    ensures bare { HasNoMarks (now_of turn.new.pass).words page }
{
    clear_colours(turn, words, words.pages(), page);
    turn.cleaned(page);
}

/// Clears the marks of free pages. Few free pages have any: those that a cycle freed, on which a number pointed at a
/// cell that nobody had.
#[inline(always)]
fn clean_free_pages(turn: &mut Turn, words: &Words)
    requires turn { IsTurnAt 0 words.now turn.old.pass }
    ensures cleans { Cleans turn.old.pass turn.new.pass }
    ensures bare { (page : ℕ) → page < words.now.config.pages → header_at (now_of turn.new.pass).words page ≡ 0
        → HasNoMarks (now_of turn.new.pass).words page }
{
    words.is_within_limits();
    let mut from = 0;
    while let Some(page) = turn.next_uncleaned(from) {
        clean_free(turn, words, page);
        from = page + 1;
    }
}

/// Clears what is left of the cycle before on the pages from one on and below another, and takes their snapshots.
#[inline(always)]
fn clean_range(turn: &mut Turn, words: &Words, pages: u64, from: u64, end: u64)
    requires turn { IsTurnAmong 0 words.now turn.old.pass pages }
    requires within { end ≤ words.now.config.pages }
    ensures cleans { Cleans turn.old.pass turn.new.pass }
    ensures ready { (page : ℕ) → from ≤ page → page < end → IsReadyPage page turn.old.pass turn.new.pass }
{
    for page in from..end {
        clean_page(turn, words, pages, page);
    }
}

/// Clears what is left of the cycle before on pages in use, and takes their snapshots. Nothing is on the others. First
/// fit leaves few free pages between others, so it goes from one range of pages in use to the next.
#[inline(always)]
fn clean_pages_in_use(turn: &mut Turn, words: &Words)
    requires turn { IsTurnAt 0 words.now turn.old.pass }
    requires bare { (page : ℕ) → page < words.now.config.pages → header_at (now_of turn.old.pass).words page ≡ 0
        → HasNoMarks (now_of turn.old.pass).words page }
    ensures cleans { Cleans turn.old.pass turn.new.pass }
    ensures ready { (page : ℕ) → page < words.now.config.pages → IsReadyPage page turn.old.pass turn.new.pass }
{
    words.is_within_limits();
    let pages = words.pages();
    let mut from = 0;
    while let Some(page) = turn.next_in_use(from) {
        let end = turn.next_free(page + 1).unwrap_or(pages);
        clean_range(turn, words, pages, page, end);
        from = end;
    }
}

/// Makes all pages ready for a `begin`. Most of them are.
#[inline(always)]
pub(crate) fn clean_pages(turn: &mut Turn, words: &Words)
    requires turn { IsTurnAt 0 words.now turn.old.pass }
    ensures cleans { Cleans turn.old.pass turn.new.pass }
    ensures ready { (page : ℕ) → page < words.now.config.pages → IsReadyPage page turn.old.pass turn.new.pass }
{
    clean_free_pages(turn, words);
    clean_pages_in_use(turn, words);
}
