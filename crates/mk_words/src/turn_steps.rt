//! The steps of the turn's holder.
ghost use Rattle.std.specs.Prelude.{◌≡◌, ◌≢◌, ◌%◌, ◌^◌, true, slice_index};
ghost use Rattle.mk_core.specs.declared.accesses.Access.TheVariants.{Load};
ghost use Rattle.mk_core.specs.{declared.accesses.TableWord.TheVariants.Named, Accesses.{register_met, reg_access}};
ghost use Rattle.mk_core.specs.{Calls.{d_of, progress_reg}, Words.header_at};
ghost use Rattle.mk_words.specs.{PageMaps.IsOnPage, States.{call_of, now_of}, Steps.register_of};
ghost use Rattle.mk_words.specs.Steps.{IsEnabledTo, IsAdmittedTo, Finds, Goes, may_decide};
ghost use Rattle.mk_words.specs.TurnSteps.{Acts, granted_address};
ghost use Rattle.mk_core.specs.declared.events.Step.TheVariants as step;

use crate::gates::Gates;
use crate::indexes::page_of;
use crate::turns::{Turn, TurnAt};
use crate::words::Words;
use mk_core::{Access, Step, TableWord, Tally, Word, tally_word};

impl<G: Gates> TurnAt<G> {
    /// Looks at a word. After an undecided Free's look at its target's quarantine word the call may be decided.
    #[inline(always)]
    pub fn look(&mut self, words: &Words, x: Word) -> u64
        requires one_table { self.old.pass.table ≡ words.now }
        requires enabled { IsEnabledTo self.old.pass (step.Look x) }
        requires admitted { may_decide (step.Look x) ≡ true → IsAdmittedTo self.old.pass (step.Look x) }
        ensures acts { Acts self.old.pass (step.Look x) self.new.pass }
        ensures finds { Finds self.old.pass (step.Look x) result self.new.pass }
    {
        self.look_among(words, words.pages(), x)
    }

    /// Looks at a word as `look` does, in a table of this many pages. Loops over pages have the number at hand, and
    /// needn't load it again after each access.
    #[inline(always)]
    pub fn look_among(&mut self, words: &Words, pages: u64, x: Word) -> u64
        requires one_table { self.old.pass.table ≡ words.now }
        requires pages { pages ≡ words.now.config.pages }
        requires enabled { IsEnabledTo self.old.pass (step.Look x) }
        requires admitted { may_decide (step.Look x) ≡ true → IsAdmittedTo self.old.pass (step.Look x) }
        ensures acts { Acts self.old.pass (step.Look x) self.new.pass }
        ensures finds { Finds self.old.pass (step.Look x) result self.new.pass }
    {
        self.look_on_page(words, pages, page_of(TableWord::Named(x)), x)
    }

    /// Looks at a word as `look_among` does. One of the heap is on this page. A loop over the words of a page has the
    /// page at hand, and needn't work it out for each word.
    #[inline(always)]
    pub fn look_on_page(&mut self, words: &Words, pages: u64, page: u64, x: Word) -> u64
        requires one_table { self.old.pass.table ≡ words.now }
        requires pages { pages ≡ words.now.config.pages }
        requires page { IsOnPage page (Named x) }
        requires enabled { IsEnabledTo self.old.pass (step.Look x) }
        requires admitted { may_decide (step.Look x) ≡ true → IsAdmittedTo self.old.pass (step.Look x) }
        ensures acts { Acts self.old.pass (step.Look x) self.new.pass }
        ensures finds { Finds self.old.pass (step.Look x) result self.new.pass }
    {
        let at = TableWord::Named(x);
        self.perform_near(words, pages, page, Step::Look(x), at, Access::Load)
    }

    /// Stores a page's header.
    #[inline(always)]
    pub fn head(&mut self, words: &Words, page: u64, v: u64)
        requires one_table { self.old.pass.table ≡ words.now }
        requires enabled { IsEnabledTo self.old.pass (step.Head page v) }
        ensures { Acts self.old.pass (step.Head page v) self.new.pass }
    {
        let head = TableWord::Named(Word::Head(page));
        self.perform_told(words, Step::Head { page, value: v }, head, Access::Store(v));
    }

    /// Stores a page's quarantine word.
    pub fn quar(&mut self, words: &Words, page: u64, v: u64)
        requires one_table { self.old.pass.table ≡ words.now }
        requires enabled { IsEnabledTo self.old.pass (step.Quar page v) }
        requires admitted { IsAdmittedTo self.old.pass (step.Quar page v) }
        ensures { Acts self.old.pass (step.Quar page v) self.new.pass }
    {
        let quar = TableWord::Named(Word::Quar(page));
        self.perform_told(words, Step::Quar { page, value: v }, quar, Access::Store(v));
    }

    /// Stores a page's quarantine word whose freed half stays, in a table of this many pages. The map knows the freed
    /// half alone, so it needn't be told.
    #[inline(always)]
    pub fn quar_still_freed(&mut self, words: &Words, pages: u64, page: u64, v: u64)
        requires one_table { self.old.pass.table ≡ words.now }
        requires pages { pages ≡ words.now.config.pages }
        requires freed { v % 2 ^ 32 ≡ slice_index (now_of self.old.pass).words.freed page }
        requires enabled { IsEnabledTo self.old.pass (step.Quar page v) }
        requires admitted { IsAdmittedTo self.old.pass (step.Quar page v) }
        ensures { Acts self.old.pass (step.Quar page v) self.new.pass }
    {
        let step = Step::Quar { page, value: v };
        let quar = TableWord::Named(Word::Quar(page));
        self.pass
            .perform_near(words, pages, page, step, quar, Access::Store(v));
    }

    /// Clears a page's marks.
    pub fn clear(&mut self, words: &Words, page: u64)
        requires one_table { self.old.pass.table ≡ words.now }
        requires enabled { IsEnabledTo self.old.pass (step.Clear page) }
        ensures { Acts self.old.pass (step.Clear page) self.new.pass }
    {
        let mark = TableWord::Named(Word::Mark(page));
        self.perform(words, Step::Clear(page), mark, Access::Store(0));
    }

    /// Marks cells of a page.
    pub fn mark(&mut self, words: &Words, page: u64, v: u64)
        requires one_table { self.old.pass.table ≡ words.now }
        requires enabled { IsEnabledTo self.old.pass (step.Mark page v) }
        ensures { Acts self.old.pass (step.Mark page v) self.new.pass }
    {
        let mark = TableWord::Named(Word::Mark(page));
        self.perform_told(words, Step::Mark { page, value: v }, mark, Access::Or(v));
    }

    /// Marks cells of a page in use, in a table of this many pages. Since the page has a header, the map needn't be
    /// told.
    #[inline(always)]
    pub fn mark_in_use(&mut self, words: &Words, pages: u64, page: u64, v: u64)
        requires one_table { self.old.pass.table ≡ words.now }
        requires pages { pages ≡ words.now.config.pages }
        requires in_use { header_at (now_of self.old.pass).words page ≢ 0 }
        requires enabled { IsEnabledTo self.old.pass (step.Mark page v) }
        ensures { Acts self.old.pass (step.Mark page v) self.new.pass }
    {
        let step = Step::Mark { page, value: v };
        let mark = TableWord::Named(Word::Mark(page));
        self.pass
            .perform_near(words, pages, page, step, mark, Access::Or(v));
    }

    /// Wipes a heap word.
    pub fn wipe(&mut self, words: &Words, word: u64)
        requires one_table { self.old.pass.table ≡ words.now }
        requires enabled { IsEnabledTo self.old.pass (step.Wipe word) }
        ensures { Acts self.old.pass (step.Wipe word) self.new.pass }
    {
        let heap = TableWord::Named(Word::Heap(word));
        self.perform(words, Step::Wipe(word), heap, Access::Store(0));
    }

    /// Ends the cycle.
    pub fn end(&mut self, words: &Words)
        requires one_table { self.old.pass.table ≡ words.now }
        requires enabled { IsEnabledTo self.old.pass step.End }
        ensures { Acts self.old.pass step.End self.new.pass }
    {
        let phase = TableWord::Named(Word::Phase);
        self.perform(words, Step::End, phase, Access::Sub(4));
    }

    /// Clears a page's dirty word.
    pub fn undirty(&mut self, words: &Words, page: u64)
        requires one_table { self.old.pass.table ≡ words.now }
        requires enabled { IsEnabledTo self.old.pass (step.Undirty page) }
        ensures { Acts self.old.pass (step.Undirty page) self.new.pass }
    {
        let dirty = TableWord::Named(Word::Dirty(page));
        self.perform(words, Step::Undirty(page), dirty, Access::Store(0));
    }

    /// Clears a page's black word.
    pub fn unblack(&mut self, words: &Words, page: u64)
        requires one_table { self.old.pass.table ≡ words.now }
        requires enabled { IsEnabledTo self.old.pass (step.Unblack page) }
        ensures { Acts self.old.pass (step.Unblack page) self.new.pass }
    {
        let black = TableWord::Named(Word::Black(page));
        self.perform(words, Step::Unblack(page), black, Access::Store(0));
    }

    /// Stores a tally: words for `Held` and `Fresh`, and how often it came for the others.
    pub fn tally(&mut self, words: &Words, n: Tally, v: u64)
        requires one_table { self.old.pass.table ≡ words.now }
        requires enabled { IsEnabledTo self.old.pass (step.Tally n v) }
        ensures { Acts self.old.pass (step.Tally n v) self.new.pass }
    {
        let word = TableWord::Named(tally_word(n));
        let step = Step::Tally { tally: n, value: v };
        self.perform(words, step, word, Access::Store(v));
    }

    /// Stores a page's used word.
    #[inline(always)]
    pub fn used(&mut self, words: &Words, page: u64, v: u64)
        requires one_table { self.old.pass.table ≡ words.now }
        requires enabled { IsEnabledTo self.old.pass (step.Used page v) }
        ensures { Acts self.old.pass (step.Used page v) self.new.pass }
    {
        let used = TableWord::Named(Word::Used(page));
        self.perform_told(words, Step::Used { page, value: v }, used, Access::Store(v));
    }
}

impl Turn {
    /// Loads the register of an undecided Free.
    pub fn reg_load(&mut self, words: &Words, r: u8) -> u64
        requires one_table { self.old.pass.table ≡ words.now }
        requires enabled { IsEnabledTo self.old.pass step.Reg }
        requires admitted { IsAdmittedTo self.old.pass step.Reg }
        requires register { r ≡ register_met (call_of self.old.pass) (call_of self.old.pass).stage }
        requires loads { reg_access (call_of self.old.pass) (call_of self.old.pass).stage ≡ Load }
        ensures acts { Acts self.old.pass step.Reg self.new.pass }
        ensures finds { Finds self.old.pass step.Reg result self.new.pass }
        ensures goes { Goes self.old.pass step.Reg
            (progress_reg (call_of self.old.pass) (call_of self.old.pass).stage result) self.new.pass }
        ensures own { result ≡ register_of self.old.pass r }
    {
        let register = TableWord::Named(Word::Reg {
            caller: self.pass.caller(),
            register: r as u64,
        });
        self.perform(words, Step::Reg, register, Access::Load)
    }

    /// Puts the address of the new object into the register of a New whose cell is taken, which decides it.
    pub fn grant(&mut self, words: &Words, r: u8, address: u64)
        requires one_table { self.old.pass.table ≡ words.now }
        requires enabled { IsEnabledTo self.old.pass step.Grant }
        requires admitted { IsAdmittedTo self.old.pass step.Grant }
        requires register { r ≡ d_of (call_of self.old.pass).op }
        requires address { address ≡ granted_address self.old.pass }
        ensures { Acts self.old.pass step.Grant self.new.pass }
    {
        let register = TableWord::Named(Word::Reg {
            caller: self.pass.caller(),
            register: r as u64,
        });
        self.perform(words, Step::Grant, register, Access::Store(address));
    }
}
