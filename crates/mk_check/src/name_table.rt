//! Names of one sort.
ghost use Rattle.std.specs.Prelude.{◌≡◌, ◌<◌, ◌≤◌, [], ◌∷◌, ◌++◌, length, IfOk, OnOk, OnErr};
ghost use Rattle.mk_script.specs.Scopes.{names_of};
ghost use Rattle.mk_check.specs.Declarations.{number_of_name, key_of};

use mk_never::NoMemory;
use mk_script::{Item, Name, Sort, declared_name};
use std::alloc::Global;
use std::marker::Model;

/// How many keys there are.
const KEYS: usize = 64;

/// A number below `KEYS`, the same for the same names. Names that end in different numbers of two digits mostly have
/// different keys.
#[inline(always)]
fn key(name: &Name) -> usize
    ensures is { result ≡ key_of name.now }
    ensures within { result < 64 }
{
    match name.as_bytes() {
        [] => 0,
        [only] => usize::from(*only) % KEYS,
        [.., second, last] => (10 * usize::from(*second) + usize::from(*last)) % KEYS,
    }
}

/// Names of one sort, in the order of their lines.
#[derive(Drop)]
pub struct NameTable<'a> {
    names: Vec<&'a Name>,
    /// For each key a place before which no name has it.
    starts: [usize; KEYS],
}

impl<'a> Model for NameTable<'a> {
    ghost use Rattle.std.specs.Prelude.{ℕ, List};
    ghost use Rattle.mk_check.specs.{Declarations.IsIndex, Feed.referred_names};

    ghost Value = { List (List ℕ) };

    ghost view = { λ t. referred_names t.names.items };

    ghost invariant = { λ t. IsIndex t.starts (referred_names t.names.items) };
}

impl<'a> NameTable<'a> {
    /// No names.
    pub fn new(alloc: Global) -> NameTable<'a>
        ensures { result ≡ [] }
    {
        NameTable {
            names: Vec::new(alloc),
            starts: [usize::MAX; KEYS],
        }
    }

    /// How many names.
    pub fn len(&self) -> usize
        ensures { result ≡ length self.now }
    {
        self.names.len()
    }

    /// Adds a name after these.
    pub fn add(&mut self, name: &'a Name) -> Result<(), NoMemory>
        ensures added { OnOk result (self.new ≡ self.old ++ name.now ∷ []) }
        ensures unchanged { OnErr result (self.new ≡ self.old) }
    {
        let place = self.names.len();
        let key = key(name);
        self.names.push(name)?;
        self.starts[key] = self.starts[key].min(place);
        Ok(())
    }

    /// Takes all names out.
    pub fn clear(&mut self)
        ensures { self.new ≡ [] }
    {
        self.names.clear();
        self.starts = [usize::MAX; KEYS];
    }

    /// The place of a name among these; their count, where it isn't among them.
    #[inline(always)]
    pub fn number_of(&self, name: &Name) -> usize
        ensures value { result ≡ number_of_name name.now self.now }
        ensures within { result ≤ length self.now }
    {
        let count = self.names.len();
        for place in self.starts[key(name)].min(count)..count {
            if name.is(self.names[place]) {
                return place;
            }
        }
        count
    }
}

/// The names of a sort, in the order of their lines.
pub fn names_among(alloc: Global, sort: Sort, items: &[Item]) -> Result<NameTable<'_>, NoMemory>
    ensures { IfOk result (λ names. names ≡ names_of sort items.now) }
{
    let mut names = NameTable::new(alloc);
    for item in items {
        if let Some(name) = declared_name(sort, item) {
            names.add(name)?;
        }
    }
    Ok(names)
}
