//! Calls of callers, from `enter` to `leave`.
ghost use Rattle.std.specs.Prelude.{◌≡◌, ◌<◌};
ghost use Rattle.mk_clients.specs.Clients.{IsCallers, StaysAdmitted};
ghost use Rattle.mk_never.specs.declared.operations.Op.TheVariants as op;

use mk_heap::lower::words::{Held, Pass, Words};
use mk_never::Op;

/// `Clear`.
pub fn clear(words: &Words, pass: &mut Pass, d: u8) -> Result<(), Held>
    requires one_table { pass.old.table ≡ words.now }
    requires callers { IsCallers pass.old }
    requires register { d < 8 }
    requires admitted { StaysAdmitted pass.old (op.Clear d) }
    ensures table { pass.new.table ≡ words.now }
    ensures callers { IsCallers pass.new }
{
    let caller = pass.caller();
    pass.enter(words, caller, Op::Clear { d })?;
    pass.reg_store(words, caller, d, 0);
    pass.leave(words, caller);
    Ok(())
}
