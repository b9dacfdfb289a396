//! Laws of traces and peaks.
ghost use Rattle.std.specs.Prelude.{ℕ, List, false};
ghost use Rattle.mk_core.specs.declared.{config.Config.Config, events.Event.Event};
ghost use Rattle.mk_core.specs.{Allocations.PlacedAllocation, History.IsHistory};
ghost use Rattle.mk_heap.specs.Below.Objects.Bounds.{QuarantineIsBounded};
ghost use Rattle.mk_trace.specs.{Playing.{IsPlayable, IsGreatest}, Peaks.{PeaksBoundQuarantine, greatest, peaks_of}};
ghost use Rattle.mk_trace.specs.Grammar.{Contents, IsOfSomeTraceText};

/// A trace of some text can be played: its heap is within the limits, and its events are of its slots.
pub fn traces_are_playable()
    ensures { (trace : Contents) → IsOfSomeTraceText trace → IsPlayable trace }
{}

/// The greatest measure of what a history leaves is over all its beginnings.
pub fn greatest_is_over_all_beginnings()
    ensures { (c : Config) (measure : List PlacedAllocation → ℕ) (es : List Event)
        → IsGreatest c measure es (greatest c measure es) }
{}

/// Where calls end the cycles that they begin, the peaks bound what quarantine costs: at each moment at which nobody
/// holds the turn, what was freed since the last `begin` is at most a quarter of the peak of held words.
pub fn peaks_bound_quarantine()
    ensures { (c : Config) (es : List Event) → IsHistory c es → QuarantineIsBounded false c es
        → PeaksBoundQuarantine c es (peaks_of c es) }
{}
