//! The engines of a run.
ghost use Rattle.std.specs.Prelude.{◌≡◌, length, All, IfOk};

use mk_heap::lower::cycles::Engine;
use mk_never::NoMemory;
use std::alloc::Global;

/// An engine for a caller, and one for each caller after it.
#[derive(Drop)]
pub(crate) struct CallerEngines<E: Engine> {
    pub(crate) first: E,
    pub(crate) others: Vec<E>,
}

/// An engine for each caller, and one for the host.
#[derive(Drop)]
pub(crate) struct Engines<E: Engine> {
    pub(crate) callers: CallerEngines<E>,
    pub(crate) host: E,
}

/// This many engines for a heap of this many pages.
fn equal_engines<E: Engine>(alloc: Global, count: u64, pages: u64) -> Result<Vec<E>, NoMemory>
    ensures count { IfOk result (λ engines. length engines.items ≡ count) }
    ensures made { IfOk result (λ engines. All (λ engine. E.made_for engine ≡ pages) engines.items) }
{
    let mut engines = Vec::new(alloc);
    for _engine in 0..count {
        engines.push(E::make(alloc, pages)?)?;
    }
    Ok(engines)
}

impl<E: Engine> Engines<E> {
    /// Engines for a caller and this many others, on a heap of this many pages.
    pub(crate) fn new(alloc: Global, others: u64, pages: u64) -> Result<Engines<E>, NoMemory>
        ensures count { IfOk result (λ engines. length engines.callers.others.items ≡ others) }
        ensures first { IfOk result (λ engines. E.made_for engines.callers.first ≡ pages) }
        ensures others { IfOk result (λ engines.
            All (λ engine. E.made_for engine ≡ pages) engines.callers.others.items) }
        ensures host { IfOk result (λ engines. E.made_for engines.host ≡ pages) }
    {
        let host = E::make(alloc, pages)?;
        let first = E::make(alloc, pages)?;
        let others: Vec<E> = equal_engines(alloc, others, pages)?;
        let callers = CallerEngines { first, others };
        Ok(Engines { callers, host })
    }
}
