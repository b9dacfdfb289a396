//! What a heap is started with.
ghost use Rattle.std.specs.Prelude.{◌≡◌, ◌<◌, ◌≤◌, length, [], ◌∷◌, ◌++◌, IfOk, OnOk, OnErr};

use mk_never::{NoMemory, TypeTable};
use std::alloc::Global;
use std::marker::Model;

/// The globals of a program, numbered from 0: the number of each one's type. There are at most 64.
#[derive(Drop)]
pub struct GlobalTable {
    types: Vec<u64>,
}

impl Model for GlobalTable {
    ghost use Rattle.std.specs.Prelude.{ℕ, List, length, ◌≤◌};

    ghost Value = { List ℕ };

    ghost view = { λ g. g.types.items };

    ghost invariant = { λ g. length g.types.items ≤ 64 };
}

impl GlobalTable {
    /// A table without globals. The allocator is kept for `add`; no memory is taken.
    pub fn new(alloc: Global) -> GlobalTable
        ensures { result ≡ [] }
    {
        GlobalTable {
            types: Vec::new(alloc),
        }
    }

    /// Appends a global of this type, whose number is the count of the globals before it.
    pub fn add(&mut self, ty: u64) -> Result<(), NoMemory>
        requires { length self.old < 64 }
        ensures added { OnOk result (self.new ≡ self.old ++ ty ∷ []) }
        ensures unchanged { OnErr result (self.new ≡ self.old) }
    {
        Ok(self.types.push(ty)?)
    }

    /// A copy.
    pub fn try_clone(&self, alloc: Global) -> Result<GlobalTable, NoMemory>
        ensures { IfOk result (λ globals. globals ≡ self.now) }
    {
        let mut types = Vec::new(alloc);
        types.extend_from_slice(&self.types)?;
        Ok(GlobalTable { types })
    }

    /// The types, in the order of the globals' numbers.
    pub fn types(&self) -> &[u64]
        ensures types { result.now ≡ self.now }
        ensures within { length self.now ≤ 64 }
    {
        self.types.as_slice()
    }
}

/// What a heap is started with: how many pages of 64 words it has, how many of them may be resident, how many callers
/// and how many threads that mark there are, and the types and globals of its program.
#[derive(Drop)]
pub struct Config {
    pub pages: u64,
    pub resident: u64,
    pub callers: u64,
    pub markers: u64,
    pub types: TypeTable,
    pub globals: GlobalTable,
}

impl Config {
    /// A copy.
    pub fn try_clone(&self, alloc: Global) -> Result<Config, NoMemory>
        ensures { IfOk result (λ config. config ≡ self.now) }
    {
        Ok(Config {
            pages: self.pages,
            resident: self.resident,
            callers: self.callers,
            markers: self.markers,
            types: self.types.try_clone(alloc)?,
            globals: self.globals.try_clone(alloc)?,
        })
    }
}
