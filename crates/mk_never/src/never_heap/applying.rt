//! Operations on the heap that never reuses storage, one by one.
ghost use Rattle.std.specs.Prelude.{◌≡◌, false, IsTrue, IfOk, OnOk, OnErr};
ghost use Rattle.mk_never.specs.NeverHeap.{reply_of, after_op, grants_object};
ghost use Rattle.mk_never.specs.Admitted.{IsCaller, OperandsAreInRange, AccessIsAdmitted};

use super::{NeverHeap, NoMemory, are_same, bit_of, number_in};
use crate::values::Target;
use crate::{Op, Reply, Value};

impl NeverHeap {
    /// Does an operation for a caller, and gives the reply.
    pub fn apply(&mut self, caller: u64, op: Op) -> Result<Reply, NoMemory>
        requires caller { IsCaller self.old caller }
        requires in_range { OperandsAreInRange self.old op }
        requires access { AccessIsAdmitted self.old caller op }
        ensures reply { IfOk result (λ reply. reply ≡ reply_of self.old caller op) }
        ensures left { OnOk result (self.new ≡ after_op self.old caller op) }
        ensures unchanged { OnErr result (self.new ≡ self.old) }
        ensures no_memory { OnErr result (IsTrue (grants_object op)) }
    {
        match op {
            Op::New { d, ty, full } => self.new_object(caller, d, ty, full),
            Op::Free { p } => Ok(self.free(caller, p)),
            Op::GetNum { q, i } => Ok(self.get_num(caller, q, i)),
            Op::SetNum { q, i, n } => Ok(self.set_num(caller, q, i, n)),
            Op::GetPtr { d, q, i } => Ok(self.get_ptr(caller, d, q, i)),
            Op::SetPtr { q, i, p } => Ok(self.set_ptr(caller, q, i, p)),
            Op::CasPtr { q, i, p, r } => Ok(self.cas_ptr(caller, q, i, p, r)),
            Op::Lea { d, q, i } => Ok(self.lea(caller, d, q, i)),
            Op::Move { d, q } => Ok(self.move_ptr(caller, d, q)),
            Op::Clear { d } => Ok(self.clear(caller, d)),
            Op::GetGlobal { d, g } => Ok(self.get_global(caller, d, g)),
            Op::SetGlobal { g, p } => Ok(self.set_global(caller, g, p)),
            Op::Same { p, q } => Ok(self.same(caller, p, q)),
            Op::IsNull { p } => Ok(self.is_null(caller, p)),
        }
    }

    fn new_object(&mut self, caller: u64, d: u8, ty: u64, full: bool) -> Result<Reply, NoMemory>
        requires caller { IsCaller self.old caller }
        requires in_range { OperandsAreInRange self.old (Op.New d ty full) }
        ensures reply { IfOk result (λ reply. reply ≡ reply_of self.old caller (Op.New d ty full)) }
        ensures left { OnOk result (self.new ≡ after_op self.old caller (Op.New d ty full)) }
        ensures unchanged { OnErr result (self.new ≡ self.old) }
        ensures no_memory { OnErr result (full ≡ false) }
    {
        if full {
            return Ok(Reply::Full);
        }
        let number = self.objects.len() as u64;
        self.allocate(ty)?;
        let object = Value::Ptr {
            number,
            ty,
            offset: 0,
        };
        self.set_register(caller, d, object);
        Ok(Reply::Done)
    }

    fn free(&mut self, caller: u64, p: u8) -> Reply
        requires caller { IsCaller self.old caller }
        requires in_range { OperandsAreInRange self.old (Op.Free p) }
        ensures reply { result ≡ reply_of self.old caller (Op.Free p) }
        ensures left { self.new ≡ after_op self.old caller (Op.Free p) }
    {
        let Value::Ptr { number, .. } = self.register(caller, p) else {
            return Reply::Done;
        };
        self.set_freed(number)
    }

    fn get_num(&self, caller: u64, q: u8, i: u64) -> Reply
        requires caller { IsCaller self.now caller }
        requires in_range { OperandsAreInRange self.now (Op.GetNum q i) }
        requires access { AccessIsAdmitted self.now caller (Op.GetNum q i) }
        ensures { result ≡ reply_of self.now caller (Op.GetNum q i) }
    {
        match self.target(self.register(caller, q), i) {
            Target::Nothing => Reply::Null,
            Target::Unmapped => Reply::Fault,
            Target::WordOf { number, place } => Reply::Num(number_in(self.word(number, place))),
        }
    }

    fn set_num(&mut self, caller: u64, q: u8, i: u64, n: u64) -> Reply
        requires caller { IsCaller self.old caller }
        requires in_range { OperandsAreInRange self.old (Op.SetNum q i n) }
        requires access { AccessIsAdmitted self.old caller (Op.SetNum q i n) }
        ensures reply { result ≡ reply_of self.old caller (Op.SetNum q i n) }
        ensures left { self.new ≡ after_op self.old caller (Op.SetNum q i n) }
    {
        match self.target(self.register(caller, q), i) {
            Target::Nothing => Reply::Null,
            Target::Unmapped => Reply::Fault,
            Target::WordOf { number, place } => {
                self.set_word(number, place, Value::Num(n));
                Reply::Done
            }
        }
    }

    fn get_ptr(&mut self, caller: u64, d: u8, q: u8, i: u64) -> Reply
        requires caller { IsCaller self.old caller }
        requires in_range { OperandsAreInRange self.old (Op.GetPtr d q i) }
        requires access { AccessIsAdmitted self.old caller (Op.GetPtr d q i) }
        ensures reply { result ≡ reply_of self.old caller (Op.GetPtr d q i) }
        ensures left { self.new ≡ after_op self.old caller (Op.GetPtr d q i) }
    {
        let (loaded, reply) = match self.target(self.register(caller, q), i) {
            Target::Nothing => (Value::Null, Reply::Null),
            Target::Unmapped => (Value::Null, Reply::Fault),
            Target::WordOf { number, place } => {
                let value = self.word(number, place);
                (value, Reply::Val(value))
            }
        };
        self.set_register(caller, d, loaded);
        reply
    }

    fn set_ptr(&mut self, caller: u64, q: u8, i: u64, p: u8) -> Reply
        requires caller { IsCaller self.old caller }
        requires in_range { OperandsAreInRange self.old (Op.SetPtr q i p) }
        requires access { AccessIsAdmitted self.old caller (Op.SetPtr q i p) }
        ensures reply { result ≡ reply_of self.old caller (Op.SetPtr q i p) }
        ensures left { self.new ≡ after_op self.old caller (Op.SetPtr q i p) }
    {
        match self.target(self.register(caller, q), i) {
            Target::Nothing => Reply::Null,
            Target::Unmapped => Reply::Fault,
            Target::WordOf { number, place } => {
                let value = self.register(caller, p);
                self.set_word(number, place, value);
                Reply::Done
            }
        }
    }

    fn cas_ptr(&mut self, caller: u64, q: u8, i: u64, p: u8, r: u8) -> Reply
        requires caller { IsCaller self.old caller }
        requires in_range { OperandsAreInRange self.old (Op.CasPtr q i p r) }
        requires access { AccessIsAdmitted self.old caller (Op.CasPtr q i p r) }
        ensures reply { result ≡ reply_of self.old caller (Op.CasPtr q i p r) }
        ensures left { self.new ≡ after_op self.old caller (Op.CasPtr q i p r) }
    {
        match self.target(self.register(caller, q), i) {
            Target::Nothing => Reply::Null,
            Target::Unmapped => Reply::Fault,
            Target::WordOf { number, place } => {
                let expected = self.register(caller, p);
                let new = self.register(caller, r);
                let found = are_same(self.word(number, place), expected);
                if found {
                    self.set_word(number, place, new);
                }
                Reply::Num(bit_of(found))
            }
        }
    }

    fn lea(&mut self, caller: u64, d: u8, q: u8, i: u64) -> Reply
        requires caller { IsCaller self.old caller }
        requires in_range { OperandsAreInRange self.old (Op.Lea d q i) }
        requires access { AccessIsAdmitted self.old caller (Op.Lea d q i) }
        ensures reply { result ≡ reply_of self.old caller (Op.Lea d q i) }
        ensures left { self.new ≡ after_op self.old caller (Op.Lea d q i) }
    {
        match self.register(caller, q) {
            Value::Ptr { number, ty, offset } => {
                let offset = self.place_behind(number, offset, i);
                self.set_register(caller, d, Value::Ptr { number, ty, offset });
                Reply::Done
            }
            _ => {
                self.set_register(caller, d, Value::Null);
                Reply::Null
            }
        }
    }

    fn move_ptr(&mut self, caller: u64, d: u8, q: u8) -> Reply
        requires caller { IsCaller self.old caller }
        requires in_range { OperandsAreInRange self.old (Op.Move d q) }
        ensures reply { result ≡ reply_of self.old caller (Op.Move d q) }
        ensures left { self.new ≡ after_op self.old caller (Op.Move d q) }
    {
        let value = self.register(caller, q);
        self.set_register(caller, d, value);
        Reply::Done
    }

    fn clear(&mut self, caller: u64, d: u8) -> Reply
        requires caller { IsCaller self.old caller }
        requires in_range { OperandsAreInRange self.old (Op.Clear d) }
        ensures reply { result ≡ reply_of self.old caller (Op.Clear d) }
        ensures left { self.new ≡ after_op self.old caller (Op.Clear d) }
    {
        self.set_register(caller, d, Value::Null);
        Reply::Done
    }

    fn get_global(&mut self, caller: u64, d: u8, g: u8) -> Reply
        requires caller { IsCaller self.old caller }
        requires in_range { OperandsAreInRange self.old (Op.GetGlobal d g) }
        ensures reply { result ≡ reply_of self.old caller (Op.GetGlobal d g) }
        ensures left { self.new ≡ after_op self.old caller (Op.GetGlobal d g) }
    {
        let value = self.globals[g as usize];
        self.set_register(caller, d, value);
        Reply::Val(value)
    }

    fn set_global(&mut self, caller: u64, g: u8, p: u8) -> Reply
        requires caller { IsCaller self.old caller }
        requires in_range { OperandsAreInRange self.old (Op.SetGlobal g p) }
        ensures reply { result ≡ reply_of self.old caller (Op.SetGlobal g p) }
        ensures left { self.new ≡ after_op self.old caller (Op.SetGlobal g p) }
    {
        let value = self.register(caller, p);
        self.globals[g as usize] = value;
        Reply::Done
    }

    fn same(&self, caller: u64, p: u8, q: u8) -> Reply
        requires caller { IsCaller self.now caller }
        requires in_range { OperandsAreInRange self.now (Op.Same p q) }
        ensures { result ≡ reply_of self.now caller (Op.Same p q) }
    {
        Reply::Num(bit_of(are_same(self.register(caller, p), self.register(caller, q))))
    }

    fn is_null(&self, caller: u64, p: u8) -> Reply
        requires caller { IsCaller self.now caller }
        requires in_range { OperandsAreInRange self.now (Op.IsNull p) }
        ensures { result ≡ reply_of self.now caller (Op.IsNull p) }
    {
        Reply::Num(bit_of(are_same(self.register(caller, p), Value::Null)))
    }
}
