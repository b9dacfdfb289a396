//! What a trace is played with.

use crate::ledger::Ledger;
use mk_heap::Host;
use mk_heap::lower::cycles::Engine;

/// The host of a heap, the engine of its caller, and the ledger of what is held and quarantined.
#[derive(Drop)]
pub(crate) struct Player<E: Engine> {
    pub(crate) host: Host,
    pub(crate) engine: E,
    pub(crate) ledger: Ledger,
}
