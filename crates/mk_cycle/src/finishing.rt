//! The end of a cycle.
ghost use Rattle.std.specs.Prelude.{◌≡◌, false};
ghost use Rattle.mk_words.specs.Sweeping.{SweepsNothing};
ghost use Rattle.mk_cycle.specs.{Stops.IsClosedBy, EngineLaw.{IsFreeForCycle, IsAtPhase}};
ghost use Rattle.mk_cycle.specs.{FinishCycle.{FinishesCycle, HasReleased}, Stops.IsToldAtClose};

use crate::engine::Engine;
use crate::giving::give_all_back;
use crate::settling::Settled;
use crate::tallying::count_cycle;
use mk_words::{Turn, Words};
use std::sync::Wait;
use std::thread::Threads;

/// What a cycle released: allocations and their storage words; and how many allocations of its snapshot were kept.
#[derive(Clone, Copy, Debug, PartialEq, Eq)]
pub struct Released {
    pub count: u64,
    pub words: u64,
    pub kept: u64,
}

/// Finishes the cycle that is on: what is left unmarked of its snapshot is released and given back, and the tallies are
/// set. It waits until no other caller is in a call and no marker attends.
pub fn finish_cycle<E: Engine, R: Threads + Wait + Sync>(
    rt: &R,
    words: &Words,
    turn: Turn,
    engine: &mut E,
) -> (Turn, Released)
    requires one_table { turn.pass.table ≡ words.now }
    requires made_for { E.made_for engine.old ≡ words.now.config.pages }
    requires phase { IsAtPhase turn.pass 1 }
    requires free { IsFreeForCycle turn.pass }
    ensures made_for { E.made_for engine.new ≡ E.made_for engine.old }
    ensures law { FinishesCycle turn.pass result.0.pass }
    ensures released { HasReleased turn.pass result.0.pass result.1 }
    ensures reached { E.ways.sweeps ≡ false → SweepsNothing turn.pass result.0.pass }
    ensures told { IsToldAtClose (E.ways.tells engine.new) turn.pass result.0.pass }
    ensures closed { IsClosedBy (E.ways.closes engine.new) turn.pass result.0.pass }
{
    let (mut turn, settled) = give_all_back(rt, words, turn, engine);
    let Settled { released, held } = settled;
    turn.end(words);
    count_cycle(&mut turn, words, held, released.count);
    (turn, released)
}
