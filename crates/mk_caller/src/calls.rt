//! The calls of a caller, over the words and its pass.
ghost use Rattle.std.specs.Prelude.{◌≡◌, ◌≢◌, IfOk, OnOk, OnErr, IfErr};
ghost use Rattle.mk_never.specs.{declared.values.Value.TheVariants.Null, NeverHeap.is_same};
ghost use Rattle.mk_caller.specs.{States.{IsPassOfCaller, value_of}, Called.{Called, Says, IsAnswered}};
ghost use Rattle.mk_caller.specs.Called.{FindsGateHeld, IsRefused, ProbesAWord, CallComparesValues};
ghost use Rattle.mk_caller.specs.Moves.{MayBeginCall};
ghost use Rattle.mk_never.specs.declared.operations.Op.TheVariants as op;
ghost use Rattle.mk_core.specs.declared.events.Answer.TheVariants as answer;
ghost use Rattle.mk_caller.specs.declared.refusals.Refusal.TheVariants as refusal;

use crate::accesses::{begin_access, mark_and_leave, probe_access, store_and_leave};
use crate::refusals::Refusal;
use crate::steps::{cas, enter, global_load, global_store, leave, load, moved_on, read, write};
use crate::tables::CallerTable;
use mk_never::Op;
use mk_words::{Held, Pass};

#[inline(always)]
pub(crate) fn is_null(table: CallerTable, pass: &mut Pass, p: u8) -> Result<bool, Held>
    requires own { IsPassOfCaller table.words.now table.caller pass.old }
    requires ready { MayBeginCall pass.old (op.IsNull p) }
    ensures called { IfOk result (λ null. Says pass.old (op.IsNull p) null pass.new) }
    ensures tells { IfOk result (λ null. null ≡ is_same (value_of pass.old p) Null) }
    ensures held { OnErr result (FindsGateHeld pass.old (op.IsNull p) pass.new) }
{
    enter(table, pass, Op::IsNull { p })?;
    let value = load(table, pass, p);
    leave(table, pass);
    Ok(value == 0)
}

#[inline(always)]
pub(crate) fn same(table: CallerTable, pass: &mut Pass, p: u8, q: u8) -> Result<bool, Held>
    requires own { IsPassOfCaller table.words.now table.caller pass.old }
    requires ready { MayBeginCall pass.old (op.Same p q) }
    ensures called { IfOk result (λ same. Says pass.old (op.Same p q) same pass.new) }
    ensures tells { IfOk result (λ same. same ≡ is_same (value_of pass.old p) (value_of pass.old q)) }
    ensures held { OnErr result (FindsGateHeld pass.old (op.Same p q) pass.new) }
{
    enter(table, pass, Op::Same { p, q })?;
    let one = load(table, pass, p);
    let other = load(table, pass, q);
    leave(table, pass);
    Ok(one == other)
}

#[inline(always)]
pub(crate) fn clear(table: CallerTable, pass: &mut Pass, d: u8) -> Result<(), Held>
    requires own { IsPassOfCaller table.words.now table.caller pass.old }
    requires ready { MayBeginCall pass.old (op.Clear d) }
    ensures called { OnOk result (Called pass.old (op.Clear d) answer.Done pass.new) }
    ensures held { OnErr result (FindsGateHeld pass.old (op.Clear d) pass.new) }
{
    enter(table, pass, Op::Clear { d })?;
    store_and_leave(table, pass, d, 0);
    Ok(())
}

#[inline(always)]
pub(crate) fn move_ptr(table: CallerTable, pass: &mut Pass, d: u8, q: u8) -> Result<(), Held>
    requires own { IsPassOfCaller table.words.now table.caller pass.old }
    requires ready { MayBeginCall pass.old (op.Move d q) }
    ensures called { OnOk result (Called pass.old (op.Move d q) answer.Done pass.new) }
    ensures held { OnErr result (FindsGateHeld pass.old (op.Move d q) pass.new) }
{
    enter(table, pass, Op::Move { d, q })?;
    let value = load(table, pass, q);
    store_and_leave(table, pass, d, value);
    Ok(())
}

#[inline(always)]
pub(crate) fn get_global(table: CallerTable, pass: &mut Pass, d: u8, g: u8) -> Result<(), Held>
    requires own { IsPassOfCaller table.words.now table.caller pass.old }
    requires ready { MayBeginCall pass.old (op.GetGlobal d g) }
    ensures called { OnOk result (IsAnswered pass.old (op.GetGlobal d g) pass.new) }
    ensures held { OnErr result (FindsGateHeld pass.old (op.GetGlobal d g) pass.new) }
{
    enter(table, pass, Op::GetGlobal { d, g })?;
    let value = global_load(table, pass, g);
    store_and_leave(table, pass, d, value);
    Ok(())
}

#[inline(always)]
pub(crate) fn set_global(table: CallerTable, pass: &mut Pass, g: u8, p: u8) -> Result<(), Held>
    requires own { IsPassOfCaller table.words.now table.caller pass.old }
    requires ready { MayBeginCall pass.old (op.SetGlobal g p) }
    ensures called { OnOk result (Called pass.old (op.SetGlobal g p) answer.Done pass.new) }
    ensures held { OnErr result (FindsGateHeld pass.old (op.SetGlobal g p) pass.new) }
{
    enter(table, pass, Op::SetGlobal { g, p })?;
    let value = load(table, pass, p);
    global_store(table, pass, g, value);
    leave(table, pass);
    Ok(())
}

#[inline(always)]
pub(crate) fn lea(table: CallerTable, pass: &mut Pass, d: u8, q: u8, i: u64) -> Result<(), Refusal>
    requires own { IsPassOfCaller table.words.now table.caller pass.old }
    requires ready { MayBeginCall pass.old (op.Lea d q i) }
    ensures called { OnOk result (Called pass.old (op.Lea d q i) answer.Done pass.new) }
    ensures some { OnOk result (value_of pass.old q ≢ Null) }
    ensures refused { IfErr result (λ e. IsRefused pass.old (op.Lea d q i) e pass.new) }
    ensures no_fault { IfErr result (λ e. e ≢ refusal.Fault) }
{
    let u = begin_access(table, pass, Op::Lea { d, q, i }, Some(d), q)?;
    let value = moved_on(table, pass, u, i);
    store_and_leave(table, pass, d, value);
    Ok(())
}

#[inline(always)]
pub(crate) fn get_num(table: CallerTable, pass: &mut Pass, q: u8, i: u64) -> Result<u64, Refusal>
    requires own { IsPassOfCaller table.words.now table.caller pass.old }
    requires ready { MayBeginCall pass.old (op.GetNum q i) }
    ensures called { IfOk result (λ n. Called pass.old (op.GetNum q i) (answer.Num n) pass.new) }
    ensures reached { OnOk result (ProbesAWord pass.old (op.GetNum q i) pass.new) }
    ensures refused { IfErr result (λ e. IsRefused pass.old (op.GetNum q i) e pass.new) }
{
    let u = begin_access(table, pass, Op::GetNum { q, i }, None, q)?;
    let Some(word) = probe_access(table, pass, None, u, i) else {
        return Err(Refusal::Fault);
    };
    let n = read(table, pass, word);
    leave(table, pass);
    Ok(n)
}

#[inline(always)]
pub(crate) fn set_num(
    table: CallerTable,
    pass: &mut Pass,
    q: u8,
    i: u64,
    n: u64,
) -> Result<(), Refusal>
    requires own { IsPassOfCaller table.words.now table.caller pass.old }
    requires ready { MayBeginCall pass.old (op.SetNum q i n) }
    ensures called { OnOk result (Called pass.old (op.SetNum q i n) answer.Done pass.new) }
    ensures reached { OnOk result (ProbesAWord pass.old (op.SetNum q i n) pass.new) }
    ensures refused { IfErr result (λ e. IsRefused pass.old (op.SetNum q i n) e pass.new) }
{
    let u = begin_access(table, pass, Op::SetNum { q, i, n }, None, q)?;
    let Some(word) = probe_access(table, pass, None, u, i) else {
        return Err(Refusal::Fault);
    };
    write(table, pass, word, n);
    mark_and_leave(table, pass, word);
    Ok(())
}

#[inline(always)]
pub(crate) fn get_ptr(
    table: CallerTable,
    pass: &mut Pass,
    d: u8,
    q: u8,
    i: u64,
) -> Result<(), Refusal>
    requires own { IsPassOfCaller table.words.now table.caller pass.old }
    requires ready { MayBeginCall pass.old (op.GetPtr d q i) }
    ensures called { OnOk result (IsAnswered pass.old (op.GetPtr d q i) pass.new) }
    ensures reached { OnOk result (ProbesAWord pass.old (op.GetPtr d q i) pass.new) }
    ensures refused { IfErr result (λ e. IsRefused pass.old (op.GetPtr d q i) e pass.new) }
{
    let u = begin_access(table, pass, Op::GetPtr { d, q, i }, Some(d), q)?;
    let Some(word) = probe_access(table, pass, Some(d), u, i) else {
        return Err(Refusal::Fault);
    };
    let value = read(table, pass, word);
    store_and_leave(table, pass, d, value);
    Ok(())
}

#[inline(always)]
pub(crate) fn set_ptr(
    table: CallerTable,
    pass: &mut Pass,
    q: u8,
    i: u64,
    p: u8,
) -> Result<(), Refusal>
    requires own { IsPassOfCaller table.words.now table.caller pass.old }
    requires ready { MayBeginCall pass.old (op.SetPtr q i p) }
    ensures called { OnOk result (Called pass.old (op.SetPtr q i p) answer.Done pass.new) }
    ensures reached { OnOk result (ProbesAWord pass.old (op.SetPtr q i p) pass.new) }
    ensures refused { IfErr result (λ e. IsRefused pass.old (op.SetPtr q i p) e pass.new) }
{
    let u = begin_access(table, pass, Op::SetPtr { q, i, p }, None, q)?;
    let value = load(table, pass, p);
    let Some(word) = probe_access(table, pass, None, u, i) else {
        return Err(Refusal::Fault);
    };
    write(table, pass, word, value);
    mark_and_leave(table, pass, word);
    Ok(())
}

#[inline(always)]
pub(crate) fn cas_ptr(
    table: CallerTable,
    pass: &mut Pass,
    q: u8,
    i: u64,
    p: u8,
    r: u8,
) -> Result<bool, Refusal>
    requires own { IsPassOfCaller table.words.now table.caller pass.old }
    requires ready { MayBeginCall pass.old (op.CasPtr q i p r) }
    ensures called { IfOk result (λ exchanged. Says pass.old (op.CasPtr q i p r) exchanged pass.new) }
    ensures compares { IfOk result (λ exchanged. CallComparesValues pass.old q i p r exchanged pass.new) }
    ensures reached { OnOk result (ProbesAWord pass.old (op.CasPtr q i p r) pass.new) }
    ensures refused { IfErr result (λ e. IsRefused pass.old (op.CasPtr q i p r) e pass.new) }
{
    let u = begin_access(table, pass, Op::CasPtr { q, i, p, r }, None, q)?;
    let expected = load(table, pass, p);
    let new = load(table, pass, r);
    let Some(word) = probe_access(table, pass, None, u, i) else {
        return Err(Refusal::Fault);
    };
    let exchanged = cas(table, pass, word, expected, new);
    mark_and_leave(table, pass, word);
    Ok(exchanged)
}
