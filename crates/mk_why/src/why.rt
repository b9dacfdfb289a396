//! The engine that reports why.
ghost use Rattle.std.specs.Prelude.{◌≡◌, [], IfOk, false, length};
ghost use Rattle.mk_core.specs.{declared.config.Config.Config, History.World};
ghost use Rattle.mk_sweep.specs.Below.Cycles.{BeginCycle.IsBegun, TurnKeeps.{OnlyDoes, begins_marking}};
ghost use Rattle.mk_sweep.specs.Below.Cycles.EngineLaw.{IsAtPhase, IsFreeForCycle};
ghost use Rattle.mk_sweep.specs.Below.Words.Sweeping.{SweepsNothing};
ghost use Rattle.mk_why.specs.{Chains.AreKept, Searching.{IsTold, HasKeptNothing}, Stops.pages_for};
ghost use Rattle.mk_why.specs.Stops.{IsClosedBefore, IsToldBefore, view_of};

use crate::entries::list_entries;
use crate::kept::Kept;
use crate::listing::list_kept;
use crate::searching::search;
use crate::tables::Tables;
use mk_never::NoMemory;
use mk_sweep::lower::cycles::Engine;
use mk_sweep::lower::words::{Stopped, Turn, Words};
use std::alloc::Global;
use std::marker::Model;
use std::sync::Wait;
use std::thread::Threads;

/// A heap has no more pages.
const MOST_PAGES: u64 = 4096;

/// An engine around another one, which makes the marks. After them, still in the stop, it searches from the roots,
/// breadth first, and notes what the cycle keeps of its snapshot, and which words lead to it.
#[derive(Drop)]
pub struct Why<E: Engine> {
    inner: E,
    pub(crate) tables: Tables,
}

impl<E: Engine> Model for Why<E> {
    ghost use Rattle.mk_why.specs.Searching.{WhyState};

    ghost Value = { WhyState E };

    ghost view = { λ why. record { inner = why.inner; found = why.tables.found.items; kept = why.tables.kept.items } };
}

impl<E: Engine> Why<E> {
    /// What the last `close_marks` found kept, and why. Before the first the list is empty.
    pub fn kept(&self, alloc: Global) -> Result<Vec<Kept>, NoMemory>
        ensures kept { (c : Config) (w : World) → ⟦<Why<E> as Engine>⟧.ways.tells self.now c w
            → IfOk result (λ entries. AreKept c w entries.items) }
        ensures none { HasKeptNothing self.now → IfOk result (λ entries. entries.items ≡ []) }
    {
        list_entries(&self.tables, alloc)
    }
}

impl<E: Engine> Engine for Why<E> {
    ghost ways = { record {
      on = E.ways.on;
      sweeps = E.ways.sweeps;
      begins = E.ways.begins;
      tells = λ why c w. IsToldBefore (E.ways.tells why.inner) c w × IsTold c why.found why.kept (view_of w);
      closes = λ why p q. IsClosedBefore (E.ways.closes why.inner) p q;
    } };

    ghost made_for = { λ why. pages_for (E.made_for why.inner) (length why.found) };

    fn make(alloc: Global, pages: u64) -> Result<Why<E>, NoMemory>
        ensures made_for { IfOk result (λ why. ⟦<Why<E> as Engine>⟧.made_for why ≡ pages) }
        ensures none { IfOk result HasKeptNothing }
    {
        let inner = E::make(alloc, pages)?;
        let tables = Tables::new(alloc, pages.min(MOST_PAGES))?;
        Ok(Why { inner, tables })
    }

    fn keeps_on(&self) -> bool {
        self.inner.keeps_on()
    }

    fn begin<R: Threads + Wait + Sync>(&mut self, rt: &R, words: &Words, turn: &mut Turn)
        requires one_table { turn.old.pass.table ≡ words.now }
        requires made_for { ⟦<Why<E> as Engine>⟧.made_for self.old ≡ words.now.config.pages }
        requires marking { IsAtPhase turn.old.pass 1 }
        requires free { IsFreeForCycle turn.old.pass }
        ensures made_for { ⟦<Why<E> as Engine>⟧.made_for self.new ≡ ⟦<Why<E> as Engine>⟧.made_for self.old }
        ensures found { self.new.found ≡ self.old.found }
        ensures kept { self.new.kept ≡ self.old.kept }
        ensures law { OnlyDoes begins_marking turn.old.pass turn.new.pass }
        ensures reached { E.ways.sweeps ≡ false → SweepsNothing turn.old.pass turn.new.pass }
        ensures begun { IsBegun E.ways.begins turn.old.pass turn.new.pass }
    {
        words.is_within_limits();
        self.inner.begin(rt, words, turn);
    }

    fn close_marks<R: Threads + Wait + Sync>(&mut self, rt: &R, words: &Words, stop: &mut Stopped) {
        words.is_within_limits();
        self.inner.close_marks(rt, words, stop);
        self.tables.forget_found();
        search(words, stop, &mut self.tables);
        self.tables.forget_kept();
        list_kept(words, stop, &mut self.tables);
    }
}
