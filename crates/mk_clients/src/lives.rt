//! The life of a table, from its first word to its tallies.
ghost use Rattle.std.specs.Prelude.{◌≡◌, IfOk};
ghost use Rattle.mk_core.specs.Moments.{IsWithinLimits};
ghost use Rattle.mk_heap.specs.Below.Words.States.{config_of};

use mk_core::{Config, Seat};
use mk_heap::lower::words::{Final, Words};
use mk_never::NoMemory;
use std::alloc::Global;

/// A table with a caller and a marker, which do nothing.
pub fn one_life(alloc: Global, config: &Config) -> Result<Final, NoMemory>
    requires within_limits { IsWithinLimits config.now }
    ensures { IfOk result (λ last. config_of last ≡ config.now) }
{
    let (words, mut host) = Words::new(alloc, config)?;
    let caller = Words::split(&words, &mut host, Seat::Caller(0));
    let marker = Words::split(&words, &mut host, Seat::Marker(0));
    Words::join(&words, &mut host, marker);
    Words::join(&words, &mut host, caller);
    Ok(Words::close(words, host))
}
