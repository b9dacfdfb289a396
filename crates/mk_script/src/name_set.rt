//! Sets of names.
ghost use Rattle.std.specs.{Prelude.{◌≡◌, ◌<◌, ◌^◌, [], ◌∷◌, ◌++◌, length, false, OnOk}, List.Sorted.IsPermutation};
ghost use Rattle.mk_script.specs.Lines.{is_among};

use crate::names::Name;
use std::alloc::{AllocError, Global};
use std::collections::HashSet;
use std::marker::Model;

/// Names that differ, in no order.
#[derive(Drop)]
pub struct NameSet {
    names: HashSet<Vec<u8>>,
}

impl Model for NameSet {
    ghost use Rattle.std.specs.Prelude.{ℕ, List, map};

    ghost Value = { List (List ℕ) };

    ghost view = { λ s. map (λ name. name.items) s.names.keys };
}

impl NameSet {
    /// No names.
    pub fn new(alloc: Global) -> NameSet
        ensures { result ≡ [] }
    {
        NameSet {
            names: HashSet::new(alloc),
        }
    }

    /// The name is one of them.
    pub fn contains(&self, name: &Name) -> bool
        ensures { result ≡ is_among name.now self.now }
    {
        self.names.contains(name.as_bytes())
    }

    /// How many names.
    pub fn len(&self) -> usize
        ensures count { result ≡ length self.now }
        ensures small { result < 2 ^ 63 }
    {
        self.names.len()
    }

    /// Adds a name that isn't among these.
    pub fn insert(&mut self, alloc: Global, name: &Name) -> Result<(), AllocError>
        ensures { is_among name.now self.old ≡ false
            → OnOk result (IsPermutation (self.old ++ name.now ∷ []) self.new) }
    {
        let bytes = Vec::from_slice(alloc, name.as_bytes())?;
        self.names.insert(bytes)?;
        Ok(())
    }
}
