//! A marker.
ghost use Rattle.std.specs.Prelude.{◌≡◌, ◌<◌, ◌≤◌, true, false, OnOk, IfErr};
ghost use Rattle.mk_marker.specs.Markers.{IsMarkers, IsOut, attends};

use crate::cells::find_cell;
use crate::phases::phase_in;
use crate::scans::scan_cell;
use crate::steps::{attend, look, quit};
use mk_core::{Phase, Seat, Word};
use mk_words::{MarkerPass, Pass, Words};
use std::marker::Model;

/// The phase that `attend` found, which isn't marking.
#[derive(Clone, Copy)]
pub struct NotMarking {
    pub phase: Phase,
}

/// What a marker found to do.
#[derive(Clone, Copy, Debug, PartialEq, Eq)]
pub enum Work {
    /// It scanned a marked cell, and made it black.
    Worked,
    /// It saw every page without work.
    Idle,
    /// The phase is wanted for closing, so it is to quit.
    Wanted,
}

/// One marker: a pass, the words, and the page where it last worked.
#[derive(Drop)]
pub struct Marker<'h> {
    words: &'h Words,
    pass: MarkerPass,
    page: u64,
}

impl<'h> Model for Marker<'h> {
    ghost use Rattle.mk_words.specs.States.{PassState};
    ghost use Rattle.mk_marker.specs.Markers.{IsAtRest};

    ghost Value = { PassState };

    ghost view = { λ m. m.pass };

    ghost invariant = { λ m. IsAtRest m.words.now m.pass m.page };
}

/// Where a marker begins to look: each in a part of its own, so that they don't all scan the same cells.
fn first_page(pages: u64, number: u64) -> u64
    requires some { 1 ≤ pages }
    requires few { pages ≤ 4096 }
    requires number { number < 8 }
    ensures { result < pages }
{
    pages * number / 8
}

impl<'h> Marker<'h> {
    ghost use Rattle.mk_marker.specs.Markers.{ComesIn, FindsPhase, GoesOut, WorksSo};

    /// A marker that is out.
    pub fn new(words: &'h Words, pass: Pass) -> Marker<'h>
        requires one_table { pass.table ≡ words.now }
        requires marker { IsMarkers pass }
        requires out { IsOut pass }
        ensures { result ≡ pass }
    {
        words.is_within_limits();
        pass.is_in_order();
        let number = match pass.seat() {
            Seat::Marker(number) => number,
            Seat::Caller(_) | Seat::Host => 0,
        };
        let page = first_page(words.pages(), number);
        Marker {
            words,
            pass: MarkerPass::new(pass),
            page,
        }
    }

    /// Comes in, to mark for the cycle that is on. Where none is marking, it is out again.
    pub fn attend(&mut self) -> Result<(), NotMarking>
        requires out { attends self.old ≡ false }
        ensures comes_in { OnOk result (ComesIn self.old self.new) }
        ensures not_marking { IfErr result (λ e. FindsPhase self.old e.phase self.new) }
        ensures pass { self.new ≡ record self.old { seen = self.new.seen } }
    {
        let found = attend(self.words, &mut self.pass);
        if Phase::Marking.is_in(found) {
            Ok(())
        } else {
            quit(self.words, &mut self.pass);
            Err(NotMarking {
                phase: phase_in(found),
            })
        }
    }

    /// Scans a cell that is marked and not black, where it finds one and the phase isn't wanted for closing.
    pub fn work(&mut self) -> Work
        requires attends { attends self.old ≡ true }
        ensures cause { WorksSo result self.old self.new }
        ensures attends { attends self.new ≡ true }
        ensures pass { self.new ≡ record self.old { seen = self.new.seen } }
    {
        let words = self.words;
        if Phase::Wanted.is_in(look(words, &mut self.pass, Word::Phase)) {
            return Work::Wanted;
        }
        match find_cell(words, &mut self.pass, self.page) {
            Some(cell) => {
                self.page = cell.page;
                scan_cell(words, &mut self.pass, cell);
                Work::Worked
            }
            None => Work::Idle,
        }
    }

    /// Goes out.
    pub fn quit(&mut self)
        requires attends { attends self.old ≡ true }
        ensures out { GoesOut self.old self.new }
        ensures pass { self.new ≡ record self.old { seen = self.new.seen } }
    {
        quit(self.words, &mut self.pass);
    }

    /// Returns the pass, whose marker is out.
    pub fn finish(self) -> Pass
        requires out { attends self ≡ false }
        ensures pass { result ≡ self.entry }
        ensures out { IsOut result }
    {
        let Marker { pass, .. } = self;
        pass.into_pass()
    }
}
