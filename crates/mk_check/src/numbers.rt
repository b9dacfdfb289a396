//! Types and globals of a program as tables, where a type is its number.
ghost use Rattle.std.specs.Prelude.{◌≡◌, ◌≤◌, map, length, IfOk};
ghost use Rattle.mk_script.specs.Scopes.{global_names, type_names};
ghost use Rattle.mk_check.specs.Declarations.{number_of_name, kind_of, types_of, globals_of};

use crate::name_table::{NameTable, names_among};
use mk_core::GlobalTable;
use mk_never::{Kind, NoMemory, TypeTable};
use mk_script::{Item, Name, Sort, TypeWord};
use std::alloc::Global;
use std::marker::Model;

/// The names of a program's types, each of which stands at its number.
#[derive(Drop)]
pub struct TypeNumbers<'a> {
    program: &'a [Item],
    types: NameTable<'a>,
}

impl<'a> Model for TypeNumbers<'a> {
    ghost use Rattle.std.specs.Prelude.{List};
    ghost use Rattle.mk_script.specs.{declared.items.Item.Item, Scopes.type_names};
    ghost use Rattle.std.specs.Prelude.{◌≡◌};

    ghost Value = { List Item };

    ghost view = { λ t. t.program.now };

    ghost invariant = { λ t. t.types ≡ type_names t.program.now };
}

impl<'a> TypeNumbers<'a> {
    /// The numbers of a program's names.
    pub fn of_program(alloc: Global, program: &'a [Item]) -> Result<TypeNumbers<'a>, NoMemory>
        ensures { IfOk result (λ numbers. numbers ≡ program.now) }
    {
        Ok(TypeNumbers {
            program,
            types: names_among(alloc, Sort::Type, program)?,
        })
    }

    /// The number of a type; the count of types for another name.
    fn number(&self, name: &Name) -> u64
        ensures { result ≡ number_of_name name.now (type_names self.now) }
    {
        self.types.number_of(name) as u64
    }

    fn kind(&self, word: &TypeWord) -> Kind
        ensures { result ≡ kind_of (type_names self.now) word.now }
    {
        match word {
            TypeWord::Number => Kind::Num,
            TypeWord::Pointer(at) => Kind::To {
                ty: self.number(&at.name),
                offset: at.offset,
            },
        }
    }

    fn kinds(&self, alloc: Global, words: &[TypeWord]) -> Result<Vec<Kind>, NoMemory>
        ensures { IfOk result (λ kinds. kinds.items ≡ map (kind_of (type_names self.now)) words.now) }
    {
        Ok(words.iter().map(|word| self.kind(word)).collect(alloc)?)
    }

    /// The types that the program declares.
    pub fn types(&self, alloc: Global) -> Result<TypeTable, NoMemory>
        ensures { IfOk result (λ types. types ≡ types_of self.now) }
    {
        let mut types = TypeTable::new(alloc);
        for item in self.program {
            if let Item::TypeLine { words, .. } = item {
                types.add(self.kinds(alloc, words.as_slice())?)?;
            }
        }
        Ok(types)
    }

    /// The globals that it declares.
    pub fn globals(&self, alloc: Global) -> Result<GlobalTable, NoMemory>
        requires { length (global_names self.now) ≤ 64 }
        ensures { IfOk result (λ globals. globals ≡ globals_of self.now) }
    {
        let mut globals = GlobalTable::new(alloc);
        for item in self.program {
            if let Item::Global { ty, .. } = item {
                globals.add(self.number(ty))?;
            }
        }
        Ok(globals)
    }
}
