//! The steps of a caller's call, between its `enter` and its `leave`. The order is that of the operation's steps.
//!
//! A number that the event doesn't carry is the one that the pass's own list gives for the step. Who makes a call has
//! the caller's number and the number of pages at hand, so neither is loaded again after each access.
ghost use Rattle.std.specs.Prelude.{◌≡◌, OnOk, OnErr, Some, None};
ghost use Rattle.mk_core.specs.declared.accesses.Access.TheVariants.{Load, Store};
ghost use Rattle.mk_core.specs.{Accesses.{caller_number, register_met, reg_access}, Calls.{at_rest, begun, onward}};
ghost use Rattle.mk_core.specs.Calls.{still, word_met, page_met, g_of, value_written, one_if, progress_reg};
ghost use Rattle.mk_core.specs.{Calls.{progress_read, progress_getg}, Effects.progress_probe};
ghost use Rattle.mk_words.specs.{States.call_of, Steps.{IsEnabledTo, IsAdmittedTo, Finds, Goes}};
ghost use Rattle.mk_words.specs.Steps.{register_of, LeavesRegisters, KeepsOtherRegisters, FindsHeld};
ghost use Rattle.mk_core.specs.declared.events.Answer.TheVariants as answer;
ghost use Rattle.mk_core.specs.declared.events.Step.TheVariants as step;

use crate::passes::Pass;
use crate::words::Words;
use mk_core::{Access, Step, TableWord, Word};
use mk_never::Op;

/// The holder of the turn held the caller's gate, so no call was begun.
#[derive(Clone, Copy, Debug, PartialEq, Eq)]
pub struct Held;

impl Pass {
    /// Begins a call, unless the gate is held.
    pub fn enter(&mut self, words: &Words, caller: u64, op: Op) -> Result<(), Held>
        requires one_table { self.old.table ≡ words.now }
        requires caller { caller ≡ caller_number self.old.seat }
        requires enabled { IsEnabledTo self.old (step.Enter op) }
        ensures goes { OnOk result
            (Goes self.old (step.Enter op) (record { flight = begun op; answer = None }) self.new) }
        ensures held { OnErr result (FindsHeld self.old op self.new) }
        ensures stays { OnErr result (Goes self.old (step.Enter op) (still (call_of self.old)) self.new) }
        ensures registers { LeavesRegisters self.old self.new }
    {
        let gate = TableWord::Named(Word::Gate(caller));
        let found = self.perform(
            words,
            Step::Enter(op),
            gate,
            Access::Exchange { old: 0, new: 1 },
        );
        if found == 0 { Ok(()) } else { Err(Held) }
    }

    /// Ends a call.
    pub fn leave(&mut self, words: &Words, caller: u64)
        requires one_table { self.old.table ≡ words.now }
        requires caller { caller ≡ caller_number self.old.seat }
        requires enabled { IsEnabledTo self.old step.Leave }
        ensures goes { Goes self.old step.Leave (record { flight = at_rest; answer = None }) self.new }
        ensures registers { LeavesRegisters self.old self.new }
    {
        let gate = TableWord::Named(Word::Gate(caller));
        self.perform(words, Step::Leave, gate, Access::Store(0));
    }

    /// Loads a register of its own, which is as the pass knows it.
    pub fn reg_load(&mut self, words: &Words, caller: u64, r: u8) -> u64
        requires one_table { self.old.table ≡ words.now }
        requires caller { caller ≡ caller_number self.old.seat }
        requires enabled { IsEnabledTo self.old step.Reg }
        requires admitted { IsAdmittedTo self.old step.Reg }
        requires register { r ≡ register_met (call_of self.old) (call_of self.old).stage }
        requires loads { reg_access (call_of self.old) (call_of self.old).stage ≡ Load }
        ensures finds { Finds self.old step.Reg result self.new }
        ensures goes { Goes self.old step.Reg
            (progress_reg (call_of self.old) (call_of self.old).stage result) self.new }
        ensures own { result ≡ register_of self.old r }
        ensures registers { LeavesRegisters self.old self.new }
    {
        let register = TableWord::Named(Word::Reg {
            caller,
            register: r as u64,
        });
        self.perform(words, Step::Reg, register, Access::Load)
    }

    /// Stores to a register of its own.
    pub fn reg_store(&mut self, words: &Words, caller: u64, r: u8, v: u64)
        requires one_table { self.old.table ≡ words.now }
        requires caller { caller ≡ caller_number self.old.seat }
        requires enabled { IsEnabledTo self.old step.Reg }
        requires admitted { IsAdmittedTo self.old step.Reg }
        requires register { r ≡ register_met (call_of self.old) (call_of self.old).stage }
        requires stores { reg_access (call_of self.old) (call_of self.old).stage ≡ Store v }
        ensures goes { Goes self.old step.Reg (progress_reg (call_of self.old) (call_of self.old).stage v) self.new }
        ensures stored { register_of self.new r ≡ v }
        ensures registers { KeepsOtherRegisters r self.old self.new }
    {
        let register = TableWord::Named(Word::Reg {
            caller,
            register: r as u64,
        });
        self.perform(words, Step::Reg, register, Access::Store(v));
    }

    /// Loads the header of the page of the word that the call accesses.
    pub fn probe(&mut self, words: &Words, page: u64) -> u64
        requires one_table { self.old.table ≡ words.now }
        requires enabled { IsEnabledTo self.old step.Probe }
        requires admitted { IsAdmittedTo self.old step.Probe }
        requires page { page ≡ page_met (call_of self.old) }
        ensures finds { Finds self.old step.Probe result self.new }
        ensures goes { Goes self.old step.Probe (progress_probe (call_of self.old) result) self.new }
        ensures registers { LeavesRegisters self.old self.new }
    {
        let header = TableWord::Named(Word::Head(page));
        self.perform(words, Step::Probe, header, Access::Load)
    }

    /// Loads the word that the call accesses.
    pub fn read(&mut self, words: &Words, pages: u64, word: u64) -> u64
        requires one_table { self.old.table ≡ words.now }
        requires pages { pages ≡ words.now.config.pages }
        requires enabled { IsEnabledTo self.old step.Read }
        requires admitted { IsAdmittedTo self.old step.Read }
        requires word { word ≡ word_met (call_of self.old) }
        ensures finds { Finds self.old step.Read result self.new }
        ensures goes { Goes self.old step.Read
            (progress_read (call_of self.old) (call_of self.old).op result) self.new }
        ensures registers { LeavesRegisters self.old self.new }
    {
        let heap = TableWord::Named(Word::Heap(word));
        self.perform_among(words, pages, Step::Read, heap, Access::Load)
    }

    /// Stores to the word that the call accesses.
    pub fn write(&mut self, words: &Words, pages: u64, word: u64, v: u64)
        requires one_table { self.old.table ≡ words.now }
        requires pages { pages ≡ words.now.config.pages }
        requires enabled { IsEnabledTo self.old step.Write }
        requires admitted { IsAdmittedTo self.old step.Write }
        requires word { word ≡ word_met (call_of self.old) }
        requires value { v ≡ value_written (call_of self.old) (call_of self.old).op }
        ensures goes { Goes self.old step.Write (onward (call_of self.old) (Some answer.Done)) self.new }
        ensures registers { LeavesRegisters self.old self.new }
    {
        let heap = TableWord::Named(Word::Heap(word));
        self.perform_among(words, pages, Step::Write, heap, Access::Store(v));
    }

    /// Stores to the word that the call accesses where it finds the expected value, and returns whether it did.
    pub fn cas(&mut self, words: &Words, pages: u64, word: u64, expected: u64, new: u64) -> bool
        requires one_table { self.old.table ≡ words.now }
        requires pages { pages ≡ words.now.config.pages }
        requires enabled { IsEnabledTo self.old step.Cas }
        requires admitted { IsAdmittedTo self.old step.Cas }
        requires word { word ≡ word_met (call_of self.old) }
        requires expected { expected ≡ (call_of self.old).p }
        requires new { new ≡ (call_of self.old).r }
        ensures goes { Goes self.old step.Cas (onward (call_of self.old) (Some (answer.Num (one_if result)))) self.new }
        ensures registers { LeavesRegisters self.old self.new }
    {
        let heap = TableWord::Named(Word::Heap(word));
        let found = self.perform_among(
            words,
            pages,
            Step::Cas,
            heap,
            Access::Exchange { old: expected, new },
        );
        found == expected
    }

    /// Loads the global of the call.
    pub fn global_load(&mut self, words: &Words, g: u8) -> u64
        requires one_table { self.old.table ≡ words.now }
        requires enabled { IsEnabledTo self.old step.Getg }
        requires admitted { IsAdmittedTo self.old step.Getg }
        requires global { g ≡ g_of (call_of self.old).op }
        ensures finds { Finds self.old step.Getg result self.new }
        ensures goes { Goes self.old step.Getg (progress_getg (call_of self.old) result) self.new }
        ensures registers { LeavesRegisters self.old self.new }
    {
        let global = TableWord::Named(Word::Global(g as u64));
        self.perform(words, Step::Getg, global, Access::Load)
    }

    /// Stores to the global of the call.
    pub fn global_store(&mut self, words: &Words, g: u8, v: u64)
        requires one_table { self.old.table ≡ words.now }
        requires enabled { IsEnabledTo self.old step.Setg }
        requires admitted { IsAdmittedTo self.old step.Setg }
        requires global { g ≡ g_of (call_of self.old).op }
        requires value { v ≡ (call_of self.old).p }
        ensures goes { Goes self.old step.Setg (onward (call_of self.old) (Some answer.Done)) self.new }
        ensures registers { LeavesRegisters self.old self.new }
    {
        let global = TableWord::Named(Word::Global(g as u64));
        self.perform(words, Step::Setg, global, Access::Store(v));
    }

    /// Marks the page of the word that the call wrote.
    pub fn dirty(&mut self, words: &Words, pages: u64, page: u64)
        requires one_table { self.old.table ≡ words.now }
        requires pages { pages ≡ words.now.config.pages }
        requires enabled { IsEnabledTo self.old step.Dirty }
        requires page { page ≡ page_met (call_of self.old) }
        ensures goes { Goes self.old step.Dirty (onward (call_of self.old) None) self.new }
        ensures registers { LeavesRegisters self.old self.new }
    {
        let dirty = TableWord::Named(Word::Dirty(page));
        self.perform_among(words, pages, Step::Dirty, dirty, Access::Store(1));
    }
}
