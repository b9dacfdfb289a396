//! What is reported of a heap that is closed.

use mk_alloc::lower::words::Final;

/// The counts of the heap's history: storage words held and fresh, freed and unreleased allocations, released ones,
/// cycles ended and Full answers. The history itself stays known, to proofs alone.
#[derive(Drop)]
pub struct Report {
    pub held: u64,
    pub fresh: u64,
    pub quarantined: u64,
    pub released: u64,
    pub cycles: u64,
    pub full: u64,
    pub(crate) last: Final,
}
