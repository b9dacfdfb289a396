//! Steps of the turn's holder that store the header words of a whole run. The page map is told of all of them at once,
//! which takes fewer instructions than a call for each page.
ghost use Rattle.std.specs.Prelude.{◌≡◌, ◌+◌, ◌*◌, ◌<◌, ◌≤◌, ◌^◌, true, false, ℕ};
ghost use Rattle.mk_core.specs.Below.Books.KnownPages.{HeadersSay, StandsOn, AreBare, run_word};
ghost use Rattle.mk_geom.specs.PageUses.{PartOfRun};
ghost use Rattle.mk_words.specs.{TurnSteps.{MayStoreHeads, StoresHeads}, States.{IsTurn, now_of}};
ghost use Rattle.mk_words.specs.{Steps.IsEnabledTo, TurnSteps.Acts};
ghost use Rattle.mk_core.specs.declared.events.Step.TheVariants as step;

use crate::gates::Gates;
use crate::tokens::TurnToken;
use crate::turns::TurnAt;
use crate::words::Words;
use mk_core::{Access, Step, TableWord, Word};

/// Stores a page's header word. The map isn't told.
#[inline(always)]
fn store_header(pass: &mut TurnToken, words: &Words, page: u64, value: u64)
    requires one_table { pass.old.table ≡ words.now }
    requires turn { IsTurn pass.old }
    requires enabled { IsEnabledTo pass.old (step.Head page value) }
    ensures { Acts pass.old (step.Head page value) pass.new }
{
    let head = TableWord::Named(Word::Head(page));
    pass.perform(
        words,
        Step::Head { page, value },
        head,
        Access::Store(value),
    );
}

/// Stores header words on this many pages: the first gets `head`, the second `next`, and each of the others 16 more
/// than the page before it. The map isn't told.
#[inline(always)]
fn store_headers(pass: &mut TurnToken, words: &Words, first: u64, count: u64, head: u64, next: u64)
    requires one_table { pass.old.table ≡ words.now }
    requires turn { IsTurn pass.old }
    requires within { first + count < 2 ^ 64 }
    requires few { next + 16 * count < 2 ^ 64 }
    requires may { MayStoreHeads pass.old first count (run_word head next) }
    ensures { StoresHeads pass.old first count (run_word head next) pass.new }
{
    for distance in 0..count {
        let header = if distance == 0 {
            head
        } else {
            next + 16 * (distance - 1)
        };
        store_header(pass, words, first + distance, header);
    }
}

/// Stores 0 as the header word of this many pages. The map isn't told.
#[inline(always)]
fn clear_headers(pass: &mut TurnToken, words: &Words, first: u64, count: u64)
    requires one_table { pass.old.table ≡ words.now }
    requires turn { IsTurn pass.old }
    requires within { first + count < 2 ^ 64 }
    requires may { MayStoreHeads pass.old first count (λ _. 0) }
    ensures { StoresHeads pass.old first count (λ _. 0) pass.new }
{
    for distance in 0..count {
        store_header(pass, words, first + distance, 0);
    }
}

impl<G: Gates> TurnAt<G> {
    /// Makes a mapped run of this many free pages. The first page's header word will be `head`, the second's `next`,
    /// and each of the others 16 more than that of the page before it.
    #[inline(always)]
    pub fn make_run(&mut self, words: &Words, first: u64, count: u64, head: u64, next: u64)
        requires one_table { self.old.pass.table ≡ words.now }
        requires within { first + count ≤ words.now.config.pages }
        requires some { 0 < count }
        requires few { next + 16 * count < 2 ^ 64 }
        requires bare { AreBare (now_of self.old.pass).words.pages first count }
        requires headers { HeadersSay (PartOfRun true) count (run_word head next) }
        requires may { MayStoreHeads self.old.pass first count (run_word head next) }
        ensures { StoresHeads self.old.pass first count (run_word head next) self.new.pass }
    {
        words.is_within_limits();
        store_headers(&mut self.pass, words, first, count, head, next);
        self.map.run_made(first, count, head, next);
    }

    /// Unmaps this many pages of a mapped run. The first page's header word will be `head`, the second's `next`, and
    /// each of the others 16 more than that of the page before it.
    pub fn unmap_run(&mut self, words: &Words, first: u64, count: u64, head: u64, next: u64)
        requires one_table { self.old.pass.table ≡ words.now }
        requires within { first + count ≤ words.now.config.pages }
        requires few { next + 16 * count < 2 ^ 64 }
        requires mapped { StandsOn (PartOfRun true) (now_of self.old.pass).words.pages first count }
        requires headers { HeadersSay (PartOfRun false) count (run_word head next) }
        requires may { MayStoreHeads self.old.pass first count (run_word head next) }
        ensures { StoresHeads self.old.pass first count (run_word head next) self.new.pass }
    {
        words.is_within_limits();
        store_headers(&mut self.pass, words, first, count, head, next);
        self.map.run_unmapped(first, count, head, next);
    }

    /// Frees this many pages of an unmapped run: their header words will be 0.
    pub fn free_pages(&mut self, words: &Words, first: u64, count: u64)
        requires one_table { self.old.pass.table ≡ words.now }
        requires within { first + count ≤ words.now.config.pages }
        requires some { 0 < count }
        requires unmapped { StandsOn (PartOfRun false) (now_of self.old.pass).words.pages first count }
        requires may { MayStoreHeads self.old.pass first count (λ _. 0) }
        ensures { StoresHeads self.old.pass first count (λ _. 0) self.new.pass }
    {
        words.is_within_limits();
        clear_headers(&mut self.pass, words, first, count);
        self.map.run_freed(first, count);
    }
}
