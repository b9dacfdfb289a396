//! Pointers that a caller moves through registers, globals and memory: what it gets back whatever others do.
ghost use Rattle.std.specs.Prelude.{◌≡◌, ◌≢◌, ◌<◌, IfOk, true, []};
ghost use Rattle.mk_never.specs.declared.operations.Op.TheVariants as op;
ghost use Rattle.mk_core.specs.declared.events.Seat.TheVariants.{Caller as OfCaller, Host};
ghost use Rattle.mk_heap.specs.Below.{Words.States.Has, Callers.States.Admits};
ghost use Rattle.mk_clients.specs.Clients.{IsOnlyCall, TakesOut, is_set_of, is_store};

use mk_core::Seat;
use mk_heap::lower::callers::{Caller, Refusal};
use mk_heap::lower::words::{Held, Pass, Words};

/// A pointer that is moved to another register is the same there.
pub fn moves_through_registers(caller: &mut Caller, d: u8, q: u8) -> Result<bool, Held>
    requires home { caller.old.home ≡ true }
    requires admitted { Admits caller.old.pass (op.Move d q) }
    ensures { IfOk result (λ same. same ≡ true) }
{
    caller.move_ptr(d, q)?;
    caller.same(d, q)
}

/// A pointer that is moved through a global is the same, where no other caller sets that global in between.
pub fn moves_through_global(caller: &mut Caller, d: u8, g: u8, p: u8) -> Result<bool, Held>
    requires home { caller.old.home ≡ true }
    requires admitted { Admits caller.old.pass (op.SetGlobal g p) }
    requires register { d < 8 }
    requires another { d ≢ p }
    ensures { IfOk result (λ same. IsOnlyCall (is_set_of g) caller.old.pass (op.SetGlobal g p) caller.new.pass
        → same ≡ true) }
{
    caller.set_global(g, p)?;
    caller.get_global(d, g)?;
    caller.same(p, d)
}

/// A pointer that one caller puts into a global and this one takes out is the same, where this one had seen that call,
/// and nobody has set the global since. A register says what it is to be the same as.
pub fn takes_out_of_global(caller: &mut Caller, d: u8, g: u8, x: u8) -> Result<bool, Held>
    requires home { caller.old.home ≡ true }
    requires admitted { Admits caller.old.pass (op.GetGlobal d g) }
    requires register { x < 8 }
    requires another { d ≢ x }
    ensures { IfOk result (λ same. TakesOut caller.old.pass g x same caller.new.pass) }
{
    caller.get_global(d, g)?;
    caller.same(d, x)
}

/// A number that is stored is what is loaded, where no other caller stores in between.
pub fn moves_through_memory(caller: &mut Caller, q: u8, i: u64, n: u64) -> Result<u64, Refusal>
    requires home { caller.old.home ≡ true }
    requires admitted { Admits caller.old.pass (op.SetNum q i n) }
    ensures { IfOk result (λ loaded. IsOnlyCall is_store caller.old.pass (op.SetNum q i n) caller.new.pass
        → loaded ≡ n) }
{
    caller.set_num(q, i, n)?;
    caller.get_num(q, i)
}

/// A caller's first call, of a heap that nobody has used: its register is null.
pub fn first_register_is_null(words: &Words, host: &mut Pass) -> Result<bool, Held>
    requires one_table { host.old.table ≡ words.now }
    requires host { host.old.seat ≡ Host }
    requires first { host.old.seen ≡ [] }
    requires caller { Has host.old.seats (OfCaller 0) }
    ensures { IfOk result (λ null. null ≡ true) }
{
    words.is_within_limits();
    let pass = Words::split(words, host, Seat::Caller(0));
    let mut caller = Caller::new(words, pass);
    let null = caller.is_null(0);
    Words::join(words, host, caller.finish());
    null
}
