//! Calls that access a word of the heap.
ghost use Rattle.std.specs.Prelude.{◌≡◌, ◌<◌};
ghost use Rattle.mk_clients.specs.Clients.{IsCallers, PointsWell, StaysAdmitted};
ghost use Rattle.mk_never.specs.declared.operations.Op.TheVariants as op;

use mk_geom::{HEAP_START, PAGE_WORDS, WORD_BYTES, is_unmapped};
use mk_heap::lower::words::{Held, Pass, Words};
use mk_never::Op;

/// `SetPtr`, through a pointer that points well.
pub fn set_ptr(words: &Words, pass: &mut Pass, q: u8, i: u64, p: u8) -> Result<(), Held>
    requires one_table { pass.old.table ≡ words.now }
    requires callers { IsCallers pass.old }
    requires to { q < 8 }
    requires from { p < 8 }
    requires points { PointsWell pass.old q i }
    requires admitted { StaysAdmitted pass.old (op.SetPtr q i p) }
    ensures table { pass.new.table ≡ words.now }
    ensures callers { IsCallers pass.new }
{
    let caller = pass.caller();
    let pages = words.pages();
    pass.enter(words, caller, Op::SetPtr { q, i, p })?;
    let to = pass.reg_load(words, caller, q);
    let value = pass.reg_load(words, caller, p);
    let word = (to - HEAP_START) / WORD_BYTES + i;
    let header = pass.probe(words, word / PAGE_WORDS);
    if is_unmapped(header) {
        pass.leave(words, caller);
        return Ok(());
    }
    pass.write(words, pages, word, value);
    pass.dirty(words, pages, word / PAGE_WORDS);
    pass.leave(words, caller);
    Ok(())
}
