//! Markers, each on a thread of its own, beside the callers.
ghost use Rattle.std.specs.{Prelude.{◌≡◌, ◌+◌, ◌≤◌, true, false}, Thread.IsSync};
ghost use Rattle.mk_marker.specs.Markers.{attends};
ghost use Rattle.mk_heap.specs.Hosts.{HasMade, HasMarkersOut, IsMarkersPass, RanBeside, HostState};

use crate::heaps::Heap;
use crate::hosts::Host;
use crate::paces::Pace;
use mk_alloc::lower::words::{Pass, Patience, Words};
use mk_core::Phase;
use mk_marker::{Marker, NotMarking, Work};
use std::sync::Wait;
use std::thread;
use std::thread::Threads;

/// Marks for the cycle that is on, until its close is wanted.
fn mark_until_wanted<P: Pace, R: Wait>(
    rt: &R,
    words: &Words,
    marker: &mut Marker,
    number: u64,
    pace: &P,
)
    requires attends { attends marker.old ≡ true }
    ensures out { attends marker.new ≡ false }
    ensures pass { marker.new ≡ record marker.old { seen = marker.new.seen } }
{
    let mut patience = Patience::new();
    'cells: for _ in rt.forever() {
        match marker.work() {
            Work::Worked => {
                pace.marked(number);
                patience.reset();
            }
            Work::Idle => patience.pause_for_phase(rt, words, Phase::Marking.number()),
            Work::Wanted => break,
        }
    }
    marker.quit();
}

/// The work of a marker's thread: it marks for each cycle that goes on beside the callers, until all is over.
fn mark_until_over<P: Pace, R: Wait>(rt: &R, heap: &Heap, pass: Pass, number: u64, pace: &P) -> Pass
    requires { IsMarkersPass heap.now number pass }
    ensures { IsMarkersPass heap.now number result }
{
    let words = heap.words();
    let mut marker = Marker::new(words, pass);
    let mut patience = Patience::new();
    'cycles: for _ in rt.forever() {
        match marker.attend() {
            Ok(()) => {
                mark_until_wanted(rt, words, &mut marker, number, pace);
                patience.reset();
            }
            Err(NotMarking { phase: Phase::Over }) => return marker.finish(),
            Err(NotMarking { phase }) => patience.pause_for_phase(rt, words, phase.number()),
        }
    }
    unreachable!()
}

/// Runs the markers from `number` on, each on a thread of its own, and this work beside them, and joins them. By the
/// end of the work the host has said that all is over. A marker whose thread can't be started finds that.
pub fn beside_markers<T, F: FnOnce(Host) -> (Host, T), P: Pace + Sync, R: Threads + Wait + Sync>(
    rt: &R,
    heap: &Heap,
    pace: &P,
    markers: u64,
    number: u64,
    mut host: Host,
    work: F,
) -> (Host, T)
    requires shared { IsSync R.row × IsSync P.row }
    requires markers { markers ≡ heap.now.config.markers }
    requires few { markers ≤ 8 }
    requires number { number ≤ markers }
    requires host { HasMade heap.now number 0 host }
    requires callable { (h : HostState) → HasMade heap.now markers 0 h → F.pre work h }
    requires keeps { (h : HostState) (ran : HostState × T) → HasMade heap.now markers 0 h → F.post work h ran
        → HasMarkersOut heap.now ran.0 }
    ensures { RanBeside (F.post work) heap.now number result }
{
    if number == markers {
        let (host, done) = work(host);
        host.is_in_order();
        return (host, done);
    }
    let pass = host.marker(heap).finish();
    let (pass, ran) = thread::join(
        rt,
        move || -> Pass
            requires shared { IsSync R.row × IsSync P.row }
            requires pass { IsMarkersPass heap.now number pass }
            ensures { IsMarkersPass heap.entry.now number result }
        { mark_until_over(rt, heap, pass, number, pace) },
        move || -> (Host, T)
            requires shared { IsSync R.row × IsSync P.row }
            requires markers { markers ≡ heap.now.config.markers }
            requires few { markers ≤ 8 }
            requires number { number + 1 ≤ markers }
            requires host { HasMade heap.now (number + 1) 0 host }
            requires callable { (h : HostState) → HasMade heap.now markers 0 h → F.pre work h }
            requires keeps { (h : HostState) (ran : HostState × T) → HasMade heap.now markers 0 h → F.post work h ran
                → HasMarkersOut heap.now ran.0 }
            ensures { RanBeside (F.post work) heap.entry.now (number + 1) result }
        { beside_markers(rt, heap, pace, markers, number + 1, host, work) },
    );
    let (mut host, done) = ran;
    host.join_marker(heap, pass);
    (host, done)
}
