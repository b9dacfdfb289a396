//! Two callers at once, each of which creates an object of its own.
ghost use Rattle.std.specs.{Prelude.{◌≡◌, IfOk}, Thread.IsSync};
ghost use Rattle.mk_clients.specs.Owned.{ComesBack, MayMakeNumber};
ghost use denote.Param.Send.{IsSend};

use crate::numbers::number_in_new_object;
use crate::outcomes::Loaded;
use mk_heap::lower::callers::Caller;
use mk_heap::lower::cycles::Engine;
use mk_heap::lower::words::{Pass, Words};
use std::sync::Wait;
use std::thread;
use std::thread::Threads;

/// The work of a caller's thread. The caller is finished, so that its pass can be joined.
fn number_alone<E: Engine, R: Threads + Wait + Sync>(
    rt: &R,
    words: &Words,
    pass: Pass,
    mut engine: E,
    d: u8,
    ty: u64,
    n: u64,
) -> Loaded
    requires one_table { pass.table ≡ words.now }
    requires may { MayMakeNumber (E.made_for engine) pass d ty }
    ensures loaded { IfOk result.number (λ loaded. loaded ≡ n) }
    ensures back { ComesBack pass result.pass }
{
    let mut caller = Caller::new(words, pass);
    let number = number_in_new_object(rt, &mut caller, &mut engine, d, ty, n);
    Loaded {
        pass: caller.finish(),
        number,
    }
}

/// Two callers at once, each with an engine of its own: each loads the number that it stored, and hands its pass back.
pub fn numbers_at_once<E: Engine + Send, R: Threads + Wait + Sync>(
    rt: &R,
    words: &Words,
    a: Pass,
    for_a: E,
    b: Pass,
    for_b: E,
    d: u8,
    ty: u64,
) -> (Loaded, Loaded)
    requires a { (a.table ≡ words.now) × MayMakeNumber (E.made_for for_a) a d ty }
    requires b { (b.table ≡ words.now) × MayMakeNumber (E.made_for for_b) b d ty }
    ensures a { IfOk result.0.number (λ loaded. loaded ≡ 1) }
    ensures b { IfOk result.1.number (λ loaded. loaded ≡ 2) }
    ensures a_back { ComesBack a result.0.pass }
    ensures b_back { ComesBack b result.1.pass }
{
    thread::join(
        rt,
        move || -> Loaded
            requires shared { IsSync R.row × IsSend E.row }
            requires may { (a.table ≡ words.now) × MayMakeNumber (E.made_for for_a) a d ty }
            ensures loaded { IfOk result.number (λ loaded. loaded ≡ 1) }
            ensures back { ComesBack a result.pass }
        { number_alone(rt, words, a, for_a, d, ty, 1) },
        move || -> Loaded
            requires shared { IsSync R.row × IsSend E.row }
            requires may { (b.table ≡ words.now) × MayMakeNumber (E.made_for for_b) b d ty }
            ensures loaded { IfOk result.number (λ loaded. loaded ≡ 2) }
            ensures back { ComesBack b result.pass }
        { number_alone(rt, words, b, for_b, d, ty, 2) },
    )
}
