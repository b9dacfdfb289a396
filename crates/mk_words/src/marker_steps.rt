//! The steps of markers. A marker's pass keeps what the marker is at, so these need no further numbers.
ghost use Rattle.std.specs.Prelude.{◌≡◌, None};
ghost use Rattle.mk_core.specs.Moments.{outside};
ghost use Rattle.mk_words.specs.Steps.{marker_in, Marks, Claims, IsEnabledTo, Makes};
ghost use Rattle.mk_core.specs.declared.events.Step.TheVariants as step;

use crate::marker_passes::MarkerPass;
use crate::words::Words;
use mk_core::{
    Access, Step, TableWord, Word, cell_seen, has_bit, next_word, scan_bit, scan_page, seen_bit,
    seen_page,
};

impl MarkerPass {
    /// Comes in, and returns the phase word as it was: where that is marking, the marker attends.
    pub fn attend(&mut self, words: &Words) -> u64
        requires one_table { self.old.table ≡ words.now }
        requires enabled { IsEnabledTo self.old step.Attend }
        ensures { Marks self.old step.Attend result self.new }
    {
        let phase = TableWord::Named(Word::Phase);
        self.perform_marking(words, Step::Attend, phase, Access::Add(8))
    }

    /// Goes out, and drops what it was at.
    pub fn quit(&mut self, words: &Words)
        requires one_table { self.old.table ≡ words.now }
        requires enabled { IsEnabledTo self.old step.Quit }
        ensures makes { Makes self.old step.Quit self.new }
        ensures out { marker_in self.new ≡ outside }
    {
        let phase = TableWord::Named(Word::Phase);
        self.perform_marking(words, Step::Quit, phase, Access::Sub(8));
    }

    /// Looks at the phase, or at a mark, black or header word.
    pub fn marker_look(&mut self, words: &Words, x: Word) -> u64
        requires one_table { self.old.table ≡ words.now }
        requires enabled { IsEnabledTo self.old (step.Mlook x) }
        ensures { Marks self.old (step.Mlook x) result self.new }
    {
        self.perform_marking(words, Step::Mlook(x), TableWord::Named(x), Access::Load)
    }

    /// Claims a cell that it has seen, and begins to scan it where the cell is marked.
    pub fn claim(&mut self, words: &Words, page: u64, k: u64) -> bool
        requires one_table { self.old.table ≡ words.now }
        requires enabled { IsEnabledTo self.old (step.Claim page k) }
        ensures { Claims self.old page k result self.new }
    {
        let found = self.perform_marking(
            words,
            Step::Claim { page, cell: k },
            TableWord::Named(Word::Mark(page)),
            Access::Load,
        );
        has_bit(found, k)
    }

    /// Loads the next word of the cell that it scans.
    pub fn marker_load(&mut self, words: &Words) -> u64
        requires one_table { self.old.table ≡ words.now }
        requires enabled { IsEnabledTo self.old step.Mload }
        ensures { Marks self.old step.Mload result self.new }
    {
        let marker = self.marker();
        let word = TableWord::Named(Word::Heap(next_word(marker.scan)));
        self.perform_marking(words, Step::Mload, word, Access::Load)
    }

    /// Marks the cell into which its open hand points.
    pub fn marker_mark(&mut self, words: &Words)
        requires one_table { self.old.table ≡ words.now }
        requires enabled { IsEnabledTo self.old step.Mmark }
        ensures makes { Makes self.old step.Mmark self.new }
        ensures marker { marker_in self.new ≡ record (marker_in self.old) { hand = None } }
    {
        let cell = cell_seen(&words.config, self.marker());
        let word = TableWord::Named(Word::Mark(seen_page(cell)));
        self.perform_marking(words, Step::Mmark, word, Access::Or(seen_bit(cell)));
    }

    /// Blackens the cell that it has scanned.
    pub fn marker_black(&mut self, words: &Words)
        requires one_table { self.old.table ≡ words.now }
        requires enabled { IsEnabledTo self.old step.Mblack }
        ensures makes { Makes self.old step.Mblack self.new }
        ensures marker { marker_in self.new ≡ record (marker_in self.old) { scan = None } }
    {
        let marker = self.marker();
        let word = TableWord::Named(Word::Black(scan_page(marker.scan)));
        self.perform_marking(words, Step::Mblack, word, Access::Or(scan_bit(marker.scan)));
    }
}
