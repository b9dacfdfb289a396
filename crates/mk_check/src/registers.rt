//! The registers that a script declares.
ghost use Rattle.std.specs.{Prelude.{◌≡◌, List, [], ◌∷◌, ◌++◌, IfOk, OnOk, OnErr}, Option.option_copied};
ghost use Rattle.mk_check.specs.Typing.{pointer_at};
ghost use Rattle.mk_script.specs.declared.items.Item.{Item};
ghost use Rattle.mk_check.specs.Typing.{lines_behind, AreRegisters};

use crate::name_table::NameTable;
use mk_never::NoMemory;
use mk_script::{At, Item, Name};
use std::alloc::Global;

/// The registers of a script, which are few.
#[derive(Drop)]
pub struct Registers<'a> {
    pub pointers: NameTable<'a>,
    /// Where each is declared to point.
    pub places: Vec<&'a At>,
    pub numbers: NameTable<'a>,
}

impl<'a> Registers<'a> {
    /// None.
    pub fn new(alloc: Global) -> Registers<'a>
        ensures { AreRegisters result [] }
    {
        Registers {
            pointers: NameTable::new(alloc),
            places: Vec::new(alloc),
            numbers: NameTable::new(alloc),
        }
    }

    /// Those of these lines.
    pub fn of_lines(alloc: Global, lines: &'a [Item]) -> Result<Registers<'a>, NoMemory>
        ensures { IfOk result (λ registers. AreRegisters registers lines.now) }
    {
        let mut registers = Registers::new(alloc);
        for item in lines {
            registers.add(item)?;
        }
        Ok(registers)
    }

    /// Adds what a line declares.
    #[inline(always)]
    fn add(&mut self, item: &'a Item) -> Result<(), NoMemory>
        ensures added { OnOk result ((lines : List Item) → AreRegisters self.old lines
            → AreRegisters self.new (lines ++ item.now ∷ [])) }
        ensures unchanged { OnErr result ((lines : List Item) → AreRegisters self.old lines
            → AreRegisters self.new lines) }
    {
        match item {
            Item::Ptr { name, at } => {
                self.places.reserve(1)?;
                self.pointers.add(name)?;
                self.places.push_reserved(at);
                Ok(())
            }
            Item::Num { name } => self.numbers.add(name),
            _ => Ok(()),
        }
    }

    /// Reads the next line, with which another script may begin.
    #[inline(always)]
    pub fn read(&mut self, item: &'a Item) -> Result<(), NoMemory>
        ensures added { OnOk result ((lines : List Item) → AreRegisters self.old lines
            → AreRegisters self.new (lines_behind lines item.now)) }
        ensures unchanged { OnErr result ((lines : List Item) → AreRegisters self.old lines
            → AreRegisters self.new lines) }
    {
        match item {
            Item::Script { .. } => {
                self.pointers.clear();
                self.places.clear();
                self.numbers.clear();
                Ok(())
            }
            _ => self.add(item),
        }
    }

    /// Where the pointer register of this name is declared to point.
    #[inline(always)]
    pub fn pointer_at(&self, name: &Name) -> Option<&'a At>
        ensures { (lines : List Item) → AreRegisters self.now lines
            → option_copied result ≡ pointer_at name.now lines }
    {
        let number = self.pointers.number_of(name);
        self.places.get(number).copied()
    }
}
