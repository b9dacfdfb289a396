//! The heap that never reuses storage, as a machine of one thread.
ghost use Rattle.std.specs.Prelude.{◌≡◌, ◌+◌, ◌*◌, ◌^◌, ◌<◌, length, if◌then◌else◌, IfOk, OnOk, OnErr};
ghost use Rattle.mk_never.specs.{Types.{kinds_of, zero_of, zero_words, is_large}, NeverHeap.{start_of, register_at}};
ghost use Rattle.mk_never.specs.NeverHeap.{with_register, word_at, words_of, with_word, with_new, with_freed};
ghost use Rattle.mk_never.specs.NeverHeap.{target_of, allocation_at, is_unmapped, number_of, is_same, bit};
ghost use Rattle.mk_never.specs.Admitted.{IsCaller, Meets};

mod applying;

use crate::values::Target;
use crate::{Kind, Reply, TypeTable, Value};
use std::alloc::{AllocError, AllocFailed, Global};
use std::marker::Model;

/// There is no memory.
#[derive(Clone, Copy, Debug, PartialEq, Eq)]
pub struct NoMemory;

impl From<AllocError> for NoMemory {
    fn from(_refused: AllocError) -> NoMemory {
        NoMemory
    }
}

impl<T: Drop> From<AllocFailed<T>> for NoMemory {
    fn from(_refused: AllocFailed<T>) -> NoMemory {
        NoMemory
    }
}

/// An allocation: the type that it was made for, its words, and whether it was freed.
#[derive(Drop)]
struct Object {
    ty: u64,
    words: Vec<Value>,
    freed: bool,
}

impl Model for Object {
    ghost use Rattle.mk_never.specs.NeverHeap.{Allocation};

    ghost Value = { Allocation };

    ghost view = { λ o. record { ty = o.ty; words = o.words.items; freed = o.freed } };
}

/// The heap that never reuses storage. It is built to be compared with: an allocation is never given
/// back, so each `New` that isn't refused takes memory for the object's words.
#[derive(Drop)]
pub struct NeverHeap {
    alloc: Global,
    types: TypeTable,
    objects: Vec<Object>,
    registers: Vec<Value>,
    globals: Vec<Value>,
}

impl Model for NeverHeap {
    ghost use Rattle.std.specs.Prelude.{◌≡◌, length};
    ghost use Rattle.mk_never.specs.NeverHeap.{NeverState};

    ghost Value = { NeverState };

    ghost view = { λ h. record {
      types = h.types;
      allocations = h.objects.items;
      registers = h.registers.items;
      globals = h.globals.items;
    } };
}

fn bit_of(b: bool) -> u64
    ensures { result ≡ bit b }
{
    if b { 1 } else { 0 }
}

fn are_same(a: Value, b: Value) -> bool
    ensures { result ≡ is_same a b }
{
    match (a, b) {
        (Value::Null, Value::Null) => true,
        (Value::Num(m), Value::Num(k)) => m == k,
        (
            Value::Ptr { number, ty, offset },
            Value::Ptr {
                number: other,
                ty: other_ty,
                offset: other_offset,
            },
        ) => number == other && ty == other_ty && offset == other_offset,
        _ => false,
    }
}

fn number_in(value: Value) -> u64
    ensures { result ≡ number_of value }
{
    match value {
        Value::Num(n) => n,
        _ => 0,
    }
}

fn zero(kind: &Kind) -> Value
    ensures { result ≡ zero_of kind.now }
{
    match kind {
        Kind::Num => Value::Num(0),
        Kind::To { .. } => Value::Null,
    }
}

/// The words of a new object.
fn zeros(alloc: Global, kinds: &[Kind]) -> Result<Vec<Value>, NoMemory>
    ensures { IfOk result (λ words. words.items ≡ zero_words kinds.now) }
{
    Ok(kinds.iter().map(|kind| zero(kind)).collect(alloc)?)
}

impl NeverHeap {
    /// A heap without allocations, for this many callers, numbered from 0. All their registers and all globals are
    /// null.
    pub fn start(alloc: Global, types: &TypeTable, callers: u64) -> Result<NeverHeap, NoMemory>
        ensures { IfOk result (λ heap. heap ≡ start_of types.now callers) }
    {
        let Some(count) = 8u64.checked_mul(callers) else {
            return Err(NoMemory);
        };
        let types = types.try_clone(alloc)?;
        let registers = Vec::from_elem(alloc, Value::Null, count as usize)?;
        let globals = Vec::from_elem(alloc, Value::Null, 64)?;
        Ok(NeverHeap {
            alloc,
            types,
            objects: Vec::new(alloc),
            registers,
            globals,
        })
    }

    fn register(&self, caller: u64, r: u8) -> Value
        requires r { r < 8 }
        requires caller { IsCaller self.now caller }
        ensures { result ≡ register_at self.now caller r }
    {
        self.registers[(8 * caller + r as u64) as usize]
    }

    fn set_register(&mut self, caller: u64, r: u8, value: Value)
        requires r { r < 8 }
        requires caller { IsCaller self.old caller }
        ensures { self.new ≡ with_register self.old caller r value }
    {
        self.registers[(8 * caller + r as u64) as usize] = value;
    }

    fn word(&self, number: u64, place: u64) -> Value
        requires { place < length (words_of self.now number) }
        ensures { result ≡ word_at self.now number place }
    {
        self.objects[number as usize].words[place as usize]
    }

    fn set_word(&mut self, number: u64, place: u64, value: Value)
        requires { place < length (words_of self.old number) }
        ensures { self.new ≡ with_word self.old number place value }
    {
        let object = &mut self.objects[number as usize];
        object.words[place as usize] = value;
    }

    /// The word `i` words after a word of an object.
    fn place_behind(&self, number: u64, offset: u64, i: u64) -> u64
        requires { offset + i < length (words_of self.now number) }
        ensures { result ≡ offset + i }
    {
        let object = &self.objects[number as usize];
        let _words = object.words.len();
        offset + i
    }

    /// Marks an object as freed, if there is one of this number.
    fn set_freed(&mut self, number: u64) -> Reply
        ensures reply { result ≡ (if (allocation_at self.old number).freed then Reply.Double else Reply.Done) }
        ensures left { self.new ≡ with_freed self.old number }
    {
        let number = number as usize;
        if number >= self.objects.len() {
            return Reply::Done;
        }
        let object = &mut self.objects[number];
        if object.freed {
            return Reply::Double;
        }
        object.freed = true;
        Reply::Done
    }

    /// What an access through the value reaches, `i` words after the one that it points to.
    fn target(&self, value: Value, i: u64) -> Target
        requires { Meets self.now value i (λ kind. Unit {0}) }
        ensures { result ≡ target_of self.now value i }
    {
        match value {
            Value::Ptr { number, offset, .. } => {
                let object = &self.objects[number as usize];
                if object.freed && object.words.len() > 32 {
                    Target::Unmapped
                } else {
                    Target::WordOf {
                        number,
                        place: offset + i,
                    }
                }
            }
            _ => Target::Nothing,
        }
    }

    /// Appends a new object of a type.
    fn allocate(&mut self, ty: u64) -> Result<(), NoMemory>
        requires { ty < length self.old.types }
        ensures ok { OnOk result (self.new ≡ with_new self.old ty) }
        ensures err { OnErr result (self.new ≡ self.old) }
    {
        let words = zeros(self.alloc, self.types.kinds(ty))?;
        let object = Object {
            ty,
            words,
            freed: false,
        };
        Ok(self.objects.push(object)?)
    }
}
