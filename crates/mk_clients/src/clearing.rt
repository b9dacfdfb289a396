//! Passes in threads of their own.
ghost use Rattle.std.specs.Prelude.{◌≡◌};
ghost use Rattle.mk_clients.specs.Clients.{IsCallers, StaysAdmitted};
ghost use Rattle.mk_never.specs.declared.operations.Op.TheVariants as op;

use crate::calls::clear;
use mk_heap::lower::words::{Pass, Words};
use std::thread;
use std::thread::Threads;

fn clear_first(words: &Words, mut pass: Pass) -> Pass
    requires one_table { pass.table ≡ words.now }
    requires callers { IsCallers pass }
    requires admitted { StaysAdmitted pass (op.Clear 0) }
    ensures table { result.table ≡ words.now }
    ensures callers { IsCallers result }
{
    let _ = clear(words, &mut pass, 0);
    pass
}

/// Two callers at once.
pub fn both<R: Threads + Sync>(rt: &R, words: &Words, a: Pass, b: Pass) -> (Pass, Pass)
    requires a { (a.table ≡ words.now) × IsCallers a × StaysAdmitted a (op.Clear 0) }
    requires b { (b.table ≡ words.now) × IsCallers b × StaysAdmitted b (op.Clear 0) }
    ensures a { (result.0.table ≡ words.now) × IsCallers result.0 }
    ensures b { (result.1.table ≡ words.now) × IsCallers result.1 }
{
    thread::join(
        rt,
        move || -> Pass
            requires { (a.table ≡ words.now) × IsCallers a × StaysAdmitted a (op.Clear 0) }
            ensures { (result.table ≡ words.entry.now) × IsCallers result }
        { clear_first(words, a) },
        move || -> Pass
            requires { (b.table ≡ words.now) × IsCallers b × StaysAdmitted b (op.Clear 0) }
            ensures { (result.table ≡ words.entry.now) × IsCallers result }
        { clear_first(words, b) },
    )
}
