//! A marker that comes before a cycle, to a cycle that is on, and when all is over. All is done on one thread.
ghost use Rattle.std.specs.Prelude.{◌≡◌, ◌<◌, length, true, false, IfOk, IfSome};
ghost use Rattle.mk_core.specs.Moments.{IsWithinLimits};
ghost use Rattle.mk_run.specs.Below.Markers.Markers.{attends};
ghost use Rattle.mk_run.specs.Below.Heaps.Hosts.{IsFirstPass};
ghost use Rattle.mk_heap_tests.specs.HeldObjects.{HostIsMarking, IsHostsPass, IsMarkerOut};

use crate::beginnings::Split;
use crate::objects::make;
use crate::turns::take;
use mk_core::{Config, Phase, Seat, Word};
use mk_never::NoMemory;
use mk_run::lower::callers::Caller;
use mk_run::lower::cycles::{Engine, begin_cycle};
use mk_run::lower::heaps::{Heap, Report};
use mk_run::lower::markers::{Marker, Work};
use mk_run::lower::words::{Pass, Turn, Words};
use std::alloc::Global;
use std::sync::Wait;
use std::thread::Threads;

/// Whether the marker comes while no cycle is on, and finds this phase.
fn finds_phase(marker: &mut Marker, phase: Phase) -> bool
    requires out { attends marker.old ≡ false }
    ensures out { result ≡ true → attends marker.new ≡ false }
    ensures pass { marker.new ≡ record marker.old { seen = marker.new.seen } }
{
    match marker.attend() {
        Ok(()) => false,
        Err(found) => found.phase.number() == phase.number(),
    }
}

/// Whether it comes in, scans one cell, and then finds nothing to do.
fn scans_one_cell(marker: &mut Marker) -> bool
    requires out { attends marker.old ≡ false }
    ensures attends { result ≡ true → attends marker.new ≡ true }
    ensures pass { marker.new ≡ record marker.old { seen = marker.new.seen } }
{
    if marker.attend().is_err() {
        return false;
    }
    let first = marker.work();
    let second = marker.work();
    (first == Work::Worked) & (second == Work::Idle)
}

/// The host takes the turn and begins a cycle, if none is on.
fn begin<E: Engine, R: Threads + Wait + Sync>(
    rt: &R,
    words: &Words,
    host: Pass,
    engine: &mut E,
) -> Option<Turn>
    requires host { IsHostsPass words.now host }
    requires made_for { E.made_for engine.old ≡ words.now.config.pages }
    ensures { IfSome result (λ turn. HostIsMarking words.now turn.pass) }
{
    let mut turn = take(rt, words, host, None);
    let found = turn.look(words, Word::Phase);
    if Phase::Marking.is_in(found) {
        turn.abandon();
        return None;
    }
    begin_cycle(rt, words, &mut turn, engine);
    Some(turn)
}

/// The host holds the gate of the one caller and wants the close. What the marker is told, which is in and goes out
/// then.
fn want_close(words: &Words, turn: Turn, marker: &mut Marker) -> Option<Work>
    requires turn { HostIsMarking words.now turn.pass }
    requires one { words.now.config.callers ≡ 1 }
    requires attends { attends marker.old ≡ true }
{
    let mut turn = turn;
    if turn.try_hold(words, 0).is_err() {
        turn.abandon();
        return None;
    }
    let mut stop = turn.stopped();
    stop.want(words);
    let told = marker.work();
    marker.quit();
    stop.abandon();
    Some(told)
}

/// The passes are those of the one caller and of the one marker of a heap.
pub(crate) fn split_for_one(alloc: Global, config: &Config) -> Result<Split, NoMemory>
    requires limits { IsWithinLimits config.now }
    requires one { config.now.callers ≡ 1 }
    ensures config { IfOk result (λ made. made.0.config ≡ config.now) }
    ensures host { IfOk result (λ made. IsHostsPass made.0 made.1) }
    ensures caller { IfOk result (λ made. IsFirstPass made.0 0 made.2) }
    ensures marker { IfOk result (λ made. IsMarkerOut made.0 made.3) }
{
    let (words, mut host) = Words::new(alloc, config)?;
    let caller = Words::split(&words, &mut host, Seat::Caller(0));
    let marker = Words::split(&words, &mut host, Seat::Marker(0));
    Ok((words, host, caller, marker))
}

/// The caller creates an object, and a cycle begins. What the marker is told when its close is wanted, if it found no
/// cycle before, and one cell to scan in this one.
pub(crate) fn come_to_a_cycle<E: Engine, R: Threads + Wait + Sync>(
    rt: &R,
    split: Split,
    engine: &mut E,
) -> Option<Work>
    requires host { IsHostsPass split.0 split.1 }
    requires caller { IsFirstPass split.0 0 split.2 }
    requires marker { IsMarkerOut split.0 split.3 }
    requires one { split.0.config.callers ≡ 1 }
    requires ty { 0 < length split.0.config.types }
    requires made_for { E.made_for engine.old ≡ split.0.config.pages }
{
    let (words, host, caller, marker) = split;
    let mut marker = Marker::new(&words, marker);
    if !finds_phase(&mut marker, Phase::None) {
        return None;
    }
    let mut caller = Caller::new(&words, caller);
    let made = make(rt, &mut caller, engine, 0);
    let _pass = caller.finish();
    if !made {
        return None;
    }
    let turn = begin(rt, &words, host, engine)?;
    if !scans_one_cell(&mut marker) {
        turn.abandon();
        return None;
    }
    want_close(&words, turn, &mut marker)
}

/// The marker comes when the one caller is joined and all is over. The report, if it finds that.
pub(crate) fn come_when_over<E: Engine, R: Threads + Wait + Sync>(
    rt: &R,
    alloc: Global,
    config: &Config,
) -> Result<Option<Report>, NoMemory>
    requires limits { IsWithinLimits config.now }
    requires one { config.now.callers ≡ 1 }
    requires marker { config.now.markers ≡ 1 }
{
    let mut engine = E::make(alloc, config.pages)?;
    let (heap, mut host) = Heap::new(alloc, config)?;
    let mut marker = host.marker(&heap);
    let caller = host.caller(&heap);
    host.join_caller(&heap, caller.finish());
    host.over(rt, &heap, &mut engine);
    if !finds_phase(&mut marker, Phase::Over) {
        return Ok(None);
    }
    host.join_marker(&heap, marker.finish());
    Ok(Some(heap.close(host)))
}

#[cfg(test)]
mod tests {
    use super::{come_to_a_cycle, come_when_over, split_for_one};
    use crate::configs::one_page;
    use crate::reports::counts_of;
    use mk_never::Kind;
    use mk_run::lower::cycles::{Engine, MostlyEngine};
    use mk_run::lower::markers::Work;

    /// At the `begin` the engine marks the object that the register points to, and that one alone is scanned.
    #[test]
    fn a_marker_comes_to_a_cycle_and_is_told_to_go(rt: HostRuntime) {
        let config = one_page(
            rt.alloc(),
            1,
            1,
            &[Kind::To { ty: 0, offset: 0 }, Kind::Num],
        )
        .expect(&rt, "memory");
        let split = split_for_one(rt.alloc(), &config).expect(&rt, "memory");
        let mut engine = MostlyEngine::make(rt.alloc(), config.pages).expect(&rt, "memory");
        let told = come_to_a_cycle(&rt, split, &mut engine);
        assert!(rt; told == Some(Work::Wanted));
    }

    #[test]
    fn a_marker_that_comes_when_all_is_over_finds_that(rt: HostRuntime) {
        let config = one_page(rt.alloc(), 1, 1, &[Kind::Num]).expect(&rt, "memory");
        let report = come_when_over::<MostlyEngine, HostRuntime>(&rt, rt.alloc(), &config).expect(
            &rt, "memory",
        );
        let report = report.expect(&rt, "the phase of the end");
        assert_eq!(rt; counts_of(&report), [0; 6]);
    }
}
