//! The beginning of a cycle.
ghost use Rattle.std.specs.Prelude.{◌≡◌, false, true};
ghost use Rattle.mk_words.specs.Sweeping.{SweepsNothing};
ghost use Rattle.mk_cycle.specs.BeginCycle.{BeginsCycle, EachIsBegun, IsBegunLast};
ghost use Rattle.mk_cycle.specs.EngineLaw.{IsFreeForCycle, IsAtPhase};

use crate::cleaning::clean_pages;
use crate::engine::Engine;
use mk_core::Tally;
use mk_words::{Turn, Words};
use std::sync::Wait;
use std::thread::Threads;

/// Begins a cycle: its snapshot is what is freed now. Directly after its `begin` the engine does its part.
pub fn begin_cycle<E: Engine, R: Threads + Wait + Sync>(
    rt: &R,
    words: &Words,
    turn: &mut Turn,
    engine: &mut E,
)
    requires one_table { turn.old.pass.table ≡ words.now }
    requires made_for { E.made_for engine.old ≡ words.now.config.pages }
    requires phase { IsAtPhase turn.old.pass 0 }
    requires free { IsFreeForCycle turn.old.pass }
    ensures made_for { E.made_for engine.new ≡ E.made_for engine.old }
    ensures law { BeginsCycle turn.old.pass turn.new.pass }
    ensures reached { E.ways.sweeps ≡ false → SweepsNothing turn.old.pass turn.new.pass }
    ensures begun { EachIsBegun true E.ways.begins turn.old.pass turn.new.pass }
    ensures last { IsBegunLast E.ways.begins turn.old.pass turn.new.pass }
{
    clean_pages(turn, words);
    turn.tally(words, Tally::Fresh, 0);
    turn.begin(words);
    engine.begin(rt, words, turn);
}
