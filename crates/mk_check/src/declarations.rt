//! The types and globals that a program declares.
ghost use Rattle.std.specs.Prelude.{◌≡◌, List, [], ◌∷◌, ◌++◌, IfOk, OnOk};
ghost use Rattle.mk_script.specs.declared.items.Item.{Item};
ghost use Rattle.mk_check.specs.Typing.{AreDeclared};

use crate::name_table::NameTable;
use mk_never::NoMemory;
use mk_script::{Item, Name, TypeWord};
use std::alloc::Global;

/// The words of types and the types of globals, in the order of their names.
#[derive(Drop)]
pub struct Declarations<'a> {
    pub types: NameTable<'a>,
    pub words: Vec<&'a [TypeWord]>,
    pub globals: NameTable<'a>,
    pub global_types: Vec<&'a Name>,
}

impl<'a> Declarations<'a> {
    fn new(alloc: Global) -> Declarations<'a>
        ensures { AreDeclared result [] }
    {
        Declarations {
            types: NameTable::new(alloc),
            words: Vec::new(alloc),
            globals: NameTable::new(alloc),
            global_types: Vec::new(alloc),
        }
    }

    /// Those of a program.
    pub fn of_program(alloc: Global, program: &'a [Item]) -> Result<Declarations<'a>, NoMemory>
        ensures { IfOk result (λ declarations. AreDeclared declarations program.now) }
    {
        let mut declarations = Declarations::new(alloc);
        for item in program {
            declarations.add(item)?;
        }
        Ok(declarations)
    }

    /// Adds what a line declares.
    #[inline(always)]
    fn add(&mut self, item: &'a Item) -> Result<(), NoMemory>
        ensures { OnOk result ((lines : List Item) → AreDeclared self.old lines
            → AreDeclared self.new (lines ++ item.now ∷ [])) }
    {
        match item {
            Item::TypeLine { name, words } => {
                self.types.add(name)?;
                Ok(self.words.push(words.as_slice())?)
            }
            Item::Global { name, ty } => {
                self.globals.add(name)?;
                Ok(self.global_types.push(ty)?)
            }
            _ => Ok(()),
        }
    }
}
