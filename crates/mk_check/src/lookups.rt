//! What names stand for, as the lines of a program are read.
ghost use Rattle.std.specs.Prelude.{◌≡◌, ◌+◌, ◌<◌, length, IfOk, OnOk};
ghost use Rattle.std.specs.{List.list_any, Option.option_copied, Str.bytes_eq};
ghost use Rattle.mk_script.specs.Scopes.{number_names};
ghost use Rattle.mk_check.specs.Typing.{type_words, global_type, pointer_at, around, AreDeclared};

use crate::declarations::Declarations;
use crate::registers::Registers;
use mk_never::NoMemory;
use mk_script::{At, Item, Name, TypeWord};
use std::alloc::Global;
use std::marker::Model;

/// Look-ups of names in a program of which some lines were read.
#[derive(Drop)]
pub struct Lookups<'d, 'a> {
    program: &'a [Item],
    count: usize,
    declarations: &'d Declarations<'a>,
    registers: Registers<'a>,
}

impl<'d, 'a> Model for Lookups<'d, 'a> {
    ghost use Rattle.std.specs.Prelude.{◌≤◌, length, take};
    ghost use Rattle.mk_script.specs.Scopes.{this_script};
    ghost use Rattle.mk_check.specs.Typing.{Reading, AreDeclared, AreRegisters};

    ghost Value = { Reading };

    ghost view = { λ l. record { program = l.program.now; count = l.count } };

    ghost invariant = { λ l. (l.count ≤ length l.program.now) × AreDeclared l.declarations.now l.program.now
        × AreRegisters l.registers (this_script (take l.count l.program.now)) };
}

impl<'d, 'a> Lookups<'d, 'a> {
    /// No line is read.
    pub fn new(
        alloc: Global,
        program: &'a [Item],
        declarations: &'d Declarations<'a>,
    ) -> Lookups<'d, 'a>
        requires { AreDeclared declarations.now program.now }
        ensures { result ≡ record { program = program.now; count = 0 } }
    {
        Lookups {
            program,
            count: 0,
            declarations,
            registers: Registers::new(alloc),
        }
    }

    /// Reads the next line.
    pub fn read(&mut self) -> Result<(), NoMemory>
        requires { self.old.count < length self.old.program }
        ensures { OnOk result (self.new ≡ record self.old { count = self.old.count + 1 }) }
    {
        let program = self.program;
        self.registers.read(&program[self.count])?;
        self.count += 1;
        Ok(())
    }

    /// The words of a type.
    pub fn type_words(&self, name: &Name) -> Option<&'a [TypeWord]>
        ensures { option_copied result ≡ type_words name.now self.now.program }
    {
        let number = self.declarations.types.number_of(name);
        self.declarations.words.get(number).copied()
    }

    /// The type of a global.
    pub fn global_type(&self, name: &Name) -> Option<&'a Name>
        ensures { option_copied result ≡ global_type name.now self.now.program }
    {
        let number = self.declarations.globals.number_of(name);
        self.declarations.global_types.get(number).copied()
    }

    /// Where a pointer register of the script so far is declared to point.
    pub fn pointer_at(&self, name: &Name) -> Option<&'a At>
        ensures { option_copied result ≡ pointer_at name.now (around self.now).script }
    {
        self.registers.pointer_at(name)
    }

    /// Whether a number register of the script so far has this name.
    pub fn has_number(&self, name: &Name) -> bool
        ensures { result ≡ list_any (bytes_eq name.now) (number_names (around self.now).script) }
    {
        self.registers.numbers.number_of(name) < self.registers.numbers.len()
    }
}
