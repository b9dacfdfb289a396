//! A script's end of the heap.
ghost use Rattle.std.specs.Prelude.{◌≡◌, ◌≢◌, IfOk, OnOk, OnErr, IfErr, is_some, true, false};
ghost use Rattle.mk_never.specs.{declared.values.Value.TheVariants.Null, NeverHeap.is_same};
ghost use Rattle.mk_core.specs.Calls.{at_rest};
ghost use Rattle.mk_words.specs.States.{call_of};
ghost use Rattle.mk_caller.specs.States.{Admits, IsAtHome, IsHomePass, IsIdleCaller, IsLent, caller_of_pass};
ghost use Rattle.mk_caller.specs.States.{home_prop, pass_of, value_of};
ghost use Rattle.mk_caller.specs.Called.{Called, Says, IsAnswered, FindsGateHeld, IsRefused, ProbesAWord};
ghost use Rattle.mk_caller.specs.Called.{CallComparesValues};
ghost use Rattle.mk_never.specs.declared.operations.Op.TheVariants as op;
ghost use Rattle.mk_core.specs.declared.events.Answer.TheVariants as answer;
ghost use Rattle.mk_caller.specs.declared.refusals.Refusal.TheVariants as refusal;

use crate::calls;
use crate::refusals::Refusal;
use crate::tables::CallerTable;
use mk_core::Seat;
use mk_words::{Held, Pass, Words};
use std::marker::Model;

/// One script's end of the heap: its pass, which may be lent, and the words. It has no `Drop`, so it can't be
/// forgotten: it ends with `finish`.
pub struct Caller<'h> {
    table: CallerTable<'h>,
    pass: Option<Pass>,
    ghost in_order: { is_some pass ≡ true → IsHomePass (pass_of table.words.now table.caller pass) } by { home_prop },
}

impl<'h> Model for Caller<'h> {
    ghost use Rattle.std.specs.{Coded.codes, Prelude.{◌≡◌, is_some}};
    ghost use Rattle.mk_core.specs.declared.events.Seat.TheVariants.{Caller};
    ghost use Rattle.mk_caller.specs.States.{CallerState, home_prop, pass_of};

    ghost Value = { CallerState };

    ghost coded = { Prim.hlevel (codes, home_prop) };

    ghost view = { λ c. record {
      pass = pass_of c.table.words.now c.table.caller c.pass;
      home = is_some c.pass;
      in_order = c.in_order;
    } };

    ghost invariant = { λ c. record {
      table : (pass_of c.table.words.now c.table.caller c.pass).table ≡ c.table.words.now;
      seat : (pass_of c.table.words.now c.table.caller c.pass).seat ≡ Caller c.table.caller;
    } };
}

/// Does something with a caller's pass, which is home.
macro_rules! at_home {
    ($home:expr, $pass:ident => $call:expr) => {
        match $home {
            Some($pass) => $call,
            None => unreachable!(),
        }
    };
}

impl<'h> Caller<'h> {
    /// A caller with the pass of a caller's seat.
    pub fn new(words: &'h Words, pass: Pass) -> Caller<'h>
        requires one_table { pass.table ≡ words.now }
        requires idle { IsIdleCaller pass }
        ensures { IsAtHome result pass }
    {
        let number = match pass.seat() {
            Seat::Caller(number) => number,
            Seat::Marker(_) | Seat::Host => unreachable!(),
        };
        Caller {
            table: CallerTable::of(words, number),
            pass: Some(pass),
        }
    }

    /// The caller's number.
    pub fn number(&self) -> u64
        ensures { result ≡ caller_of_pass self.now.pass }
    {
        self.table.caller
    }

    /// The words of its heap.
    pub fn words(&self) -> &'h Words
        ensures { result.now ≡ self.now.pass.table }
    {
        self.table.words
    }

    /// Hands the pass out, for calls under the turn.
    pub fn lend(&mut self) -> Pass
        requires home { self.old.home ≡ true }
        ensures pass { result ≡ self.old.pass }
        ensures idle { IsIdleCaller result }
        ensures lent { IsLent self.new self.old.pass }
    {
        at_home!(self.pass.take(), pass => pass)
    }

    /// Takes the pass back.
    pub fn back(&mut self, pass: Pass)
        requires away { self.old.home ≡ false }
        requires one_table { pass.table ≡ self.old.pass.table }
        requires own { pass.seat ≡ self.old.pass.seat }
        requires rest { call_of pass ≡ at_rest }
        ensures { IsAtHome self.new pass }
    {
        self.pass = Some(pass);
    }

    /// Hands the pass back, with no call in flight.
    pub fn finish(self) -> Pass
        requires home { self.home ≡ true }
        ensures pass { result ≡ self.entry.pass }
        ensures idle { IsIdleCaller self.entry.pass }
    {
        let Caller { table: _, pass } = self;
        at_home!(pass, pass => pass)
    }

    /// The number in the word `i` words after the pointer in `q`.
    #[inline(always)]
    pub fn get_num(&mut self, q: u8, i: u64) -> Result<u64, Refusal>
        requires home { self.old.home ≡ true }
        requires admitted { Admits self.old.pass (op.GetNum q i) }
        ensures home { self.new.home ≡ true }
        ensures called { IfOk result (λ n. Called self.old.pass (op.GetNum q i) (answer.Num n) self.new.pass) }
        ensures reached { OnOk result (ProbesAWord self.old.pass (op.GetNum q i) self.new.pass) }
        ensures refused { IfErr result (λ e. IsRefused self.old.pass (op.GetNum q i) e self.new.pass) }
    {
        at_home!(&mut self.pass, pass => calls::get_num(self.table, pass, q, i))
    }

    /// Writes a number to the word `i` words after the pointer in `q`.
    #[inline(always)]
    pub fn set_num(&mut self, q: u8, i: u64, n: u64) -> Result<(), Refusal>
        requires home { self.old.home ≡ true }
        requires admitted { Admits self.old.pass (op.SetNum q i n) }
        ensures home { self.new.home ≡ true }
        ensures called { OnOk result (Called self.old.pass (op.SetNum q i n) answer.Done self.new.pass) }
        ensures reached { OnOk result (ProbesAWord self.old.pass (op.SetNum q i n) self.new.pass) }
        ensures refused { IfErr result (λ e. IsRefused self.old.pass (op.SetNum q i n) e self.new.pass) }
    {
        at_home!(&mut self.pass, pass => calls::set_num(self.table, pass, q, i, n))
    }

    /// Sets `d` to the pointer in the word `i` words after the pointer in `q`, or to null where it is refused.
    #[inline(always)]
    pub fn get_ptr(&mut self, d: u8, q: u8, i: u64) -> Result<(), Refusal>
        requires home { self.old.home ≡ true }
        requires admitted { Admits self.old.pass (op.GetPtr d q i) }
        ensures home { self.new.home ≡ true }
        ensures called { OnOk result (IsAnswered self.old.pass (op.GetPtr d q i) self.new.pass) }
        ensures reached { OnOk result (ProbesAWord self.old.pass (op.GetPtr d q i) self.new.pass) }
        ensures refused { IfErr result (λ e. IsRefused self.old.pass (op.GetPtr d q i) e self.new.pass) }
    {
        at_home!(&mut self.pass, pass => calls::get_ptr(self.table, pass, d, q, i))
    }

    /// Writes the pointer in `p`, or null, to the word `i` words after the pointer in `q`.
    #[inline(always)]
    pub fn set_ptr(&mut self, q: u8, i: u64, p: u8) -> Result<(), Refusal>
        requires home { self.old.home ≡ true }
        requires admitted { Admits self.old.pass (op.SetPtr q i p) }
        ensures home { self.new.home ≡ true }
        ensures called { OnOk result (Called self.old.pass (op.SetPtr q i p) answer.Done self.new.pass) }
        ensures reached { OnOk result (ProbesAWord self.old.pass (op.SetPtr q i p) self.new.pass) }
        ensures refused { IfErr result (λ e. IsRefused self.old.pass (op.SetPtr q i p) e self.new.pass) }
    {
        at_home!(&mut self.pass, pass => calls::set_ptr(self.table, pass, q, i, p))
    }

    /// Writes the pointer in `r` to the word `i` words after the pointer in `q`, where that is the pointer in `p`, and
    /// says whether it was.
    #[inline(always)]
    pub fn cas_ptr(&mut self, q: u8, i: u64, p: u8, r: u8) -> Result<bool, Refusal>
        requires home { self.old.home ≡ true }
        requires admitted { Admits self.old.pass (op.CasPtr q i p r) }
        ensures home { self.new.home ≡ true }
        ensures called { IfOk result (λ exchanged. Says self.old.pass (op.CasPtr q i p r) exchanged self.new.pass) }
        ensures compares { IfOk result (λ exchanged. CallComparesValues self.old.pass q i p r exchanged self.new.pass) }
        ensures reached { OnOk result (ProbesAWord self.old.pass (op.CasPtr q i p r) self.new.pass) }
        ensures refused { IfErr result (λ e. IsRefused self.old.pass (op.CasPtr q i p r) e self.new.pass) }
    {
        at_home!(&mut self.pass, pass => calls::cas_ptr(self.table, pass, q, i, p, r))
    }

    /// Sets `d` to the pointer `i` words after that in `q`, or to null where it is refused.
    #[inline(always)]
    pub fn lea(&mut self, d: u8, q: u8, i: u64) -> Result<(), Refusal>
        requires home { self.old.home ≡ true }
        requires admitted { Admits self.old.pass (op.Lea d q i) }
        ensures home { self.new.home ≡ true }
        ensures called { OnOk result (Called self.old.pass (op.Lea d q i) answer.Done self.new.pass) }
        ensures some { OnOk result (value_of self.old.pass q ≢ Null) }
        ensures refused { IfErr result (λ e. IsRefused self.old.pass (op.Lea d q i) e self.new.pass) }
        ensures no_fault { IfErr result (λ e. e ≢ refusal.Fault) }
    {
        at_home!(&mut self.pass, pass => calls::lea(self.table, pass, d, q, i))
    }

    /// Sets `d` to what is in `q`.
    #[inline(always)]
    pub fn move_ptr(&mut self, d: u8, q: u8) -> Result<(), Held>
        requires home { self.old.home ≡ true }
        requires admitted { Admits self.old.pass (op.Move d q) }
        ensures home { self.new.home ≡ true }
        ensures called { OnOk result (Called self.old.pass (op.Move d q) answer.Done self.new.pass) }
        ensures held { OnErr result (FindsGateHeld self.old.pass (op.Move d q) self.new.pass) }
    {
        at_home!(&mut self.pass, pass => calls::move_ptr(self.table, pass, d, q))
    }

    /// Sets `d` to null.
    #[inline(always)]
    pub fn clear(&mut self, d: u8) -> Result<(), Held>
        requires home { self.old.home ≡ true }
        requires admitted { Admits self.old.pass (op.Clear d) }
        ensures home { self.new.home ≡ true }
        ensures called { OnOk result (Called self.old.pass (op.Clear d) answer.Done self.new.pass) }
        ensures held { OnErr result (FindsGateHeld self.old.pass (op.Clear d) self.new.pass) }
    {
        at_home!(&mut self.pass, pass => calls::clear(self.table, pass, d))
    }

    /// Sets `d` to what is in the global.
    #[inline(always)]
    pub fn get_global(&mut self, d: u8, g: u8) -> Result<(), Held>
        requires home { self.old.home ≡ true }
        requires admitted { Admits self.old.pass (op.GetGlobal d g) }
        ensures home { self.new.home ≡ true }
        ensures called { OnOk result (IsAnswered self.old.pass (op.GetGlobal d g) self.new.pass) }
        ensures held { OnErr result (FindsGateHeld self.old.pass (op.GetGlobal d g) self.new.pass) }
    {
        at_home!(&mut self.pass, pass => calls::get_global(self.table, pass, d, g))
    }

    /// Sets the global to what is in `p`.
    #[inline(always)]
    pub fn set_global(&mut self, g: u8, p: u8) -> Result<(), Held>
        requires home { self.old.home ≡ true }
        requires admitted { Admits self.old.pass (op.SetGlobal g p) }
        ensures home { self.new.home ≡ true }
        ensures called { OnOk result (Called self.old.pass (op.SetGlobal g p) answer.Done self.new.pass) }
        ensures held { OnErr result (FindsGateHeld self.old.pass (op.SetGlobal g p) self.new.pass) }
    {
        at_home!(&mut self.pass, pass => calls::set_global(self.table, pass, g, p))
    }

    /// Whether the two registers hold one value.
    #[inline(always)]
    pub fn same(&mut self, p: u8, q: u8) -> Result<bool, Held>
        requires home { self.old.home ≡ true }
        requires admitted { Admits self.old.pass (op.Same p q) }
        ensures home { self.new.home ≡ true }
        ensures called { IfOk result (λ same. Says self.old.pass (op.Same p q) same self.new.pass) }
        ensures tells { IfOk result (λ same. same ≡ is_same (value_of self.old.pass p) (value_of self.old.pass q)) }
        ensures held { OnErr result (FindsGateHeld self.old.pass (op.Same p q) self.new.pass) }
    {
        at_home!(&mut self.pass, pass => calls::same(self.table, pass, p, q))
    }

    /// Whether the register is null.
    #[inline(always)]
    pub fn is_null(&mut self, p: u8) -> Result<bool, Held>
        requires home { self.old.home ≡ true }
        requires admitted { Admits self.old.pass (op.IsNull p) }
        ensures home { self.new.home ≡ true }
        ensures called { IfOk result (λ null. Says self.old.pass (op.IsNull p) null self.new.pass) }
        ensures tells { IfOk result (λ null. null ≡ is_same (value_of self.old.pass p) Null) }
        ensures held { OnErr result (FindsGateHeld self.old.pass (op.IsNull p) self.new.pass) }
    {
        at_home!(&mut self.pass, pass => calls::is_null(self.table, pass, p))
    }
}
