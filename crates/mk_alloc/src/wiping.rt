//! The words of the run of a large object that a Free has freed and unmapped are wiped. Most are 0 already, so those of
//! a group are looked at together first. A word that is 0 isn't stored to.
ghost use Rattle.std.specs.Prelude.{◌≡◌, ◌+◌, ◌*◌, ◌<◌, true};
ghost use Rattle.mk_alloc.specs.FreeParts.{MayWipe, MayWipeFrom, MayWipeGroups, Wipes, WipesTo};

use mk_caller::lower::words::{Turn, Words};
use mk_core::{RunPages, Word};
use mk_geom::PAGE_WORDS;

/// The words of a page are groups of this many.
const GROUP: u64 = 8;

/// How many groups a page has.
const PAGE_GROUPS: u64 = PAGE_WORDS / GROUP;

/// Looks at a group of words of the run, which are on this page of it. Returns true only if all are 0.
#[inline(always)]
fn are_zero(
    words: &Words,
    turn: &mut Turn,
    pages: u64,
    run: RunPages,
    part: u64,
    group: u64,
) -> bool
    requires { MayWipeGroups words.now turn.old.pass pages run part group 1 }
    ensures still { WipesTo turn.old.pass run (8 * group) turn.new.pass }
    ensures zero { result ≡ true → WipesTo turn.old.pass run (8 * group + 8) turn.new.pass }
{
    words.is_within_limits();
    let first = GROUP * group;
    let mut all = 0;
    for i in 0..GROUP {
        let word = first + i;
        let at = Word::Heap(PAGE_WORDS * run.page + word);
        all |= turn.look_on_page(words, pages, run.page + part, at);
    }
    all == 0
}

/// Wipes a group of words of the run, which are on this page of it. Few groups have a word that isn't 0.
#[inline(never)]
fn wipe_words(words: &Words, turn: &mut Turn, pages: u64, run: RunPages, part: u64, group: u64)
    requires { MayWipeGroups words.now turn.old.pass pages run part group 1 }
    ensures { WipesTo turn.old.pass run (8 * group + 8) turn.new.pass }
{
    words.is_within_limits();
    let first = GROUP * group;
    for i in 0..GROUP {
        let word = first + i;
        let at = Word::Heap(PAGE_WORDS * run.page + word);
        let found = turn.look_on_page(words, pages, run.page + part, at);
        if found != 0 {
            turn.wipe(words, PAGE_WORDS * run.page + word);
        }
    }
}

/// Wipes what isn't 0 of a group of words of the run, which are on this page of it.
#[inline(always)]
fn wipe_group(words: &Words, turn: &mut Turn, pages: u64, run: RunPages, part: u64, group: u64)
    requires { MayWipeGroups words.now turn.old.pass pages run part group 1 }
    ensures { WipesTo turn.old.pass run (8 * group + 8) turn.new.pass }
{
    if are_zero(words, turn, pages, run, part, group) {
        return;
    }
    wipe_words(words, turn, pages, run, part, group);
}

/// Wipes what isn't 0 of two groups of words of the run, which are on this page of it.
#[inline(always)]
fn wipe_two_groups(words: &Words, turn: &mut Turn, pages: u64, run: RunPages, part: u64, group: u64)
    requires { MayWipeGroups words.now turn.old.pass pages run part group 2 }
    ensures { WipesTo turn.old.pass run (8 * group + 16) turn.new.pass }
{
    words.is_within_limits();
    wipe_group(words, turn, pages, run, part, group);
    wipe_group(words, turn, pages, run, part, group + 1);
}

/// Wipes what isn't 0 of four groups of words of the run, which are on this page of it.
#[inline(always)]
fn wipe_four_groups(
    words: &Words,
    turn: &mut Turn,
    pages: u64,
    run: RunPages,
    part: u64,
    group: u64,
)
    requires { MayWipeGroups words.now turn.old.pass pages run part group 4 }
    ensures { WipesTo turn.old.pass run (8 * group + 32) turn.new.pass }
{
    words.is_within_limits();
    wipe_two_groups(words, turn, pages, run, part, group);
    wipe_two_groups(words, turn, pages, run, part, group + 2);
}

/// Wipes the words of a page of the run. There is no loop over its groups, so that no count of them is kept and each
/// word's place on the page is known.
#[inline(always)]
fn wipe_page(words: &Words, turn: &mut Turn, pages: u64, run: RunPages, part: u64)
    requires from { MayWipeFrom words.now turn.old.pass pages run (64 * part) }
    requires part { part < run.count }
    ensures { WipesTo turn.old.pass run (64 * part + 64) turn.new.pass }
{
    words.is_within_limits();
    let group = PAGE_GROUPS * part;
    wipe_four_groups(words, turn, pages, run, part, group);
    wipe_four_groups(words, turn, pages, run, part, group + 4);
}

/// Wipes the words of the run that the call has freed and unmapped.
pub(crate) fn wipe_run(words: &Words, turn: &mut Turn, run: RunPages)
    requires one_table { turn.old.pass.table ≡ words.now }
    requires may { MayWipe turn.old.pass run }
    ensures { Wipes turn.old.pass run turn.new.pass }
{
    let pages = words.pages();
    for part in 0..run.count {
        wipe_page(words, turn, pages, run, part);
    }
}
