//! What a run has ready before its first thread starts.
ghost use Rattle.std.specs.Prelude.{◌≡◌, length, IfOk};
ghost use Rattle.mk_script.specs.Scopes.{script_names};
ghost use Rattle.mk_run.specs.Running.{IsReadyRun};

use mk_check::{Checked, Feed};
use mk_core::Config;
use mk_heap::lower::cycles::Engine;
use mk_never::NoMemory;
use std::alloc::Global;
use std::collections::VecDeque;

/// A script that is ready to run: at its first operation, with an engine for its turns. It is made before its thread
/// starts: threads that all take memory when they start wait for each other in the system.
#[derive(Drop)]
pub struct ReadyScript<E: Engine> {
    pub feed: Feed,
    pub engine: E,
}

/// All scripts of a run, in order, and an engine for the host, of another kind.
#[derive(Drop)]
pub(crate) struct ReadyRun<E: Engine, F: Engine> {
    pub(crate) scripts: VecDeque<ReadyScript<E>>,
    pub(crate) host: F,
}

impl<E: Engine, F: Engine> ReadyRun<E, F> {
    /// The scripts of a program, and engines for a heap of these sizes.
    pub(crate) fn new(
        alloc: Global,
        program: &Checked,
        config: &Config,
    ) -> Result<ReadyRun<E, F>, NoMemory>
        requires scripts { config.now.callers ≡ length (script_names program.now) }
        ensures ready { IfOk result (λ ready. IsReadyRun E.made_for F.made_for program.now config.now ready) }
    {
        let host = F::make(alloc, config.pages)?;
        let mut scripts = VecDeque::new(alloc);
        for script in 0..config.callers {
            let feed = Feed::start(alloc, program, script)?;
            let engine = E::make(alloc, config.pages)?;
            scripts.push_back(ReadyScript { feed, engine })?;
        }
        Ok(ReadyRun { scripts, host })
    }
}
