//! Callers in threads of their own, which hand back their passes.
ghost use Rattle.std.specs.Prelude.{◌≡◌};
ghost use Rattle.mk_never.specs.declared.operations.Op.TheVariants as op;
ghost use Rattle.mk_heap.specs.Below.Callers.States.{Admits, IsIdleCaller};

use mk_heap::lower::callers::Caller;
use mk_heap::lower::words::{Pass, Words};
use std::thread;
use std::thread::Threads;

fn clears_alone(words: &Words, pass: Pass, d: u8) -> Pass
    requires one_table { pass.table ≡ words.now }
    requires idle { IsIdleCaller pass }
    requires admitted { Admits pass (op.Clear d) }
    ensures { IsIdleCaller result }
{
    let mut caller = Caller::new(words, pass);
    let _ = caller.clear(d);
    caller.finish()
}

/// Two callers at once.
pub fn clear_at_once<R: Threads + Sync>(
    rt: &R,
    words: &Words,
    a: Pass,
    b: Pass,
    d: u8,
) -> (Pass, Pass)
    requires a { (a.table ≡ words.now) × IsIdleCaller a × Admits a (op.Clear d) }
    requires b { (b.table ≡ words.now) × IsIdleCaller b × Admits b (op.Clear d) }
    ensures a { IsIdleCaller result.0 }
    ensures b { IsIdleCaller result.1 }
{
    thread::join(
        rt,
        move || -> Pass
            requires { (a.table ≡ words.now) × IsIdleCaller a × Admits a (op.Clear d) }
            ensures { IsIdleCaller result }
        { clears_alone(words, a, d) },
        move || -> Pass
            requires { (b.table ≡ words.now) × IsIdleCaller b × Admits b (op.Clear d) }
            ensures { IsIdleCaller result }
        { clears_alone(words, b, d) },
    )
}
