//! Types: what each word of an object holds.
ghost use Rattle.std.specs.Prelude.{◌≡◌, ◌<◌, length, [], ◌∷◌, ◌++◌, IfOk, OnOk, OnErr};
ghost use Rattle.mk_never.specs.Types.{is_leaf, is_number, kinds_of};

use crate::NoMemory;
use std::alloc::Global;
use std::marker::Model;

/// What a word of a type holds.
#[derive(Clone, Copy, Debug, PartialEq, Eq)]
pub enum Kind {
    /// A number.
    Num,
    /// A pointer to a word of a type, counted from the type's first word, 0.
    To { ty: u64, offset: u64 },
}

/// The kinds of a type, and whether none of them is a pointer's.
#[derive(Drop)]
struct TypeWords {
    kinds: Vec<Kind>,
    leaf: bool,
}

impl Model for TypeWords {
    ghost use Rattle.std.specs.Prelude.{◌≡◌, List};
    ghost use Rattle.mk_never.specs.{declared.types.Kind.Kind, Types.is_leaf};

    ghost Value = { List Kind };

    ghost view = { λ t. t.kinds.items };

    ghost invariant = { λ t. t.leaf ≡ is_leaf t.kinds.items };
}

fn is_number(kind: &Kind) -> bool
    ensures { result ≡ is_number kind.now }
{
    matches!(kind, Kind::Num)
}

fn is_leaf(kinds: &[Kind]) -> bool
    ensures { result ≡ is_leaf kinds.now }
{
    kinds.iter().all(is_number)
}

/// The types of a program, numbered from 0, each a list of kinds, one kind a word.
#[derive(Drop)]
pub struct TypeTable {
    types: Vec<TypeWords>,
}

impl Model for TypeTable {
    ghost use Rattle.std.specs.Prelude.{List};
    ghost use Rattle.mk_never.specs.declared.types.Kind.{Kind};

    ghost Value = { List (List Kind) };

    ghost view = { λ t. t.types.items };
}

impl TypeTable {
    /// A table without types. The allocator is kept for `add`; no memory is taken.
    pub fn new(alloc: Global) -> TypeTable
        ensures { result ≡ [] }
    {
        TypeTable {
            types: Vec::new(alloc),
        }
    }

    /// Appends a type, whose number is the count of the types before it.
    pub fn add(&mut self, kinds: Vec<Kind>) -> Result<(), NoMemory>
        ensures added { OnOk result (self.new ≡ self.old ++ kinds.items ∷ []) }
        ensures unchanged { OnErr result (self.new ≡ self.old) }
    {
        let leaf = is_leaf(&kinds);
        Ok(self.types.push(TypeWords { kinds, leaf })?)
    }

    /// The kinds of a type, one for each of its words.
    pub fn kinds(&self, ty: u64) -> &[Kind]
        requires { ty < length self.now }
        ensures { result.now ≡ kinds_of self.now ty }
    {
        self.types[ty as usize].kinds.as_slice()
    }

    /// Whether none of a type's words is a pointer.
    pub fn is_leaf(&self, ty: u64) -> bool
        requires { ty < length self.now }
        ensures { result ≡ is_leaf (kinds_of self.now ty) }
    {
        self.types[ty as usize].leaf
    }

    /// How many types there are.
    pub fn count(&self) -> u64
        ensures { result ≡ length self.now }
    {
        self.types.len() as u64
    }

    /// A copy of the table, in memory of its own.
    pub fn try_clone(&self, alloc: Global) -> Result<TypeTable, NoMemory>
        ensures { IfOk result (λ copy. copy ≡ self.now) }
    {
        let mut copy = TypeTable::new(alloc);
        for ty in 0..self.count() {
            let kinds = self.kinds(ty).to_vec(alloc)?;
            copy.add(kinds)?;
        }
        Ok(copy)
    }
}
