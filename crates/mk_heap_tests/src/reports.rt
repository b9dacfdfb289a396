//! What is said of a heap at its end.

use mk_run::lower::heaps::Report;

/// The words held and those fresh, the objects quarantined and those released, the cycles, and the refusals of a full
/// heap.
pub(crate) fn counts_of(report: &Report) -> [u64; 6] {
    [
        report.held,
        report.fresh,
        report.quarantined,
        report.released,
        report.cycles,
        report.full,
    ]
}
