//! A heap: the words that callers and markers share.
ghost use Rattle.std.specs.Prelude.{◌≡◌, IfOk};
ghost use Rattle.mk_core.specs.Moments.{IsWithinLimits};
ghost use Rattle.mk_heap.specs.Hosts.{first_host, AllAreJoined};
ghost use Rattle.mk_heap.specs.Hosts.{history_of, config_of, HasCounts, IsWhole, MarkersAreBelow};

use crate::hosts::Host;
use crate::reports::Report;
use mk_alloc::lower::words::Words;
use mk_core::Config;
use mk_never::NoMemory;
use std::alloc::Global;
use std::marker::Model;

/// A heap. It is seen as its words are.
#[derive(Drop)]
pub struct Heap {
    pub(crate) words: Words,
}

impl Model for Heap {
    ghost use Rattle.mk_alloc.specs.Below.Words.States.{WordsState};

    ghost Value = { WordsState };

    ghost view = { λ h. h.words };
}

impl Heap {
    /// A heap that nobody has used, and its host.
    pub fn new(alloc: Global, config: &Config) -> Result<(Heap, Host), NoMemory>
        requires { IsWithinLimits config.now }
        ensures config { IfOk result (λ made. made.0.config ≡ config.now) }
        ensures host { IfOk result (λ made. made.1 ≡ first_host made.0) }
    {
        let (words, pass) = Words::new(alloc, config)?;
        Ok((
            Heap { words },
            Host {
                pass: Some(pass),
                callers: 0,
                markers: 0,
            },
        ))
    }

    /// Its words, for callers and markers that are created with passes of the host.
    pub fn words(&self) -> &Words
        ensures { result.now ≡ self.now }
    {
        &self.words
    }

    /// Ends the heap. All that happened to it is what the host has seen.
    pub fn close(self, host: Host) -> Report
        requires one_table { host.pass.table ≡ self }
        requires joined { AllAreJoined host }
        ensures history { history_of result ≡ host.pass.seen }
        ensures config { config_of result ≡ self.config }
        ensures whole { IsWhole (config_of result) (history_of result) }
        ensures counts { HasCounts (config_of result) (history_of result) result }
        ensures markers { MarkersAreBelow host.markers (history_of result) }
    {
        let Heap { words } = self;
        let Host { pass, .. } = host;
        let home = pass.unwrap();
        home.is_in_order();
        let last = Words::close(words, home);
        Report {
            held: last.held,
            fresh: last.fresh,
            quarantined: last.quarantined,
            released: last.released,
            cycles: last.cycles,
            full: last.full,
            last,
        }
    }
}
