//! Names of a program and of one of its scripts, with their numbers.
ghost use Rattle.std.specs.Prelude.{◌≡◌, List, map, IfOk};
ghost use Rattle.mk_script.specs.declared.items.Item.{Item};
ghost use Rattle.mk_check.specs.{Declarations.number_of_name, Typing.AreDeclared};
ghost use Rattle.mk_check.specs.{Feed.scope_of, Steps.{instruction_of, number_place}};

use crate::declarations::Declarations;
use crate::feeding::instructions::{Element, Instruction, NumberRegister};
use crate::registers::Registers;
use mk_never::NoMemory;
use mk_script::{Item, Name};
use std::alloc::Global;
use std::marker::Model;

/// The names that a script may use.
#[derive(Drop)]
pub struct Names<'d, 'a> {
    declarations: &'d Declarations<'a>,
    registers: Registers<'a>,
}

impl<'d, 'a> Model for Names<'d, 'a> {
    ghost use Rattle.mk_check.specs.Feed.{Scope};

    ghost Value = { Scope };

    ghost view = { λ n. record {
      types = n.declarations.now.types;
      globals = n.declarations.now.globals;
      pointers = n.registers.pointers;
      numbers = n.registers.numbers;
    } };
}

impl<'d, 'a> Names<'d, 'a> {
    ghost use Rattle.mk_script.specs.Scopes.{is_number_access, is_pointer_access, is_pointer_line, is_number_line};
    ghost use Rattle.mk_check.specs.{Feed.{HasFew, pointer_place}, Steps.{element_of, instruction_of_sort}};

    /// The names that are declared for a script of a program with these declarations.
    pub fn of(
        alloc: Global,
        declarations: &'d Declarations<'a>,
        script: &'a [Item],
    ) -> Result<Names<'d, 'a>, NoMemory>
        ensures { (program : List Item) → AreDeclared declarations.now program
            → IfOk result (λ names. names ≡ scope_of program script.now) }
    {
        Ok(Names {
            declarations,
            registers: Registers::of_lines(alloc, script)?,
        })
    }

    fn ty(&self, name: &Name) -> u64
        ensures { result ≡ number_of_name name.now self.now.types }
    {
        self.declarations.types.number_of(name) as u64
    }

    fn global(&self, name: &Name) -> u8
        requires { HasFew self.now }
        ensures { result ≡ number_of_name name.now self.now.globals }
    {
        self.declarations.globals.number_of(name) as u8
    }

    fn pointer(&self, name: &Name) -> u8
        requires { HasFew self.now }
        ensures { result ≡ pointer_place self.now name.now }
    {
        self.registers.pointers.number_of(name) as u8
    }

    fn number(&self, name: &Name) -> NumberRegister
        requires { HasFew self.now }
        ensures { result ≡ number_place self.now name.now }
    {
        NumberRegister::at(self.registers.numbers.number_of(name))
    }

    fn number_access(&self, item: &Item) -> Instruction
        requires { HasFew self.now }
        ensures { result ≡ instruction_of_sort is_number_access self.now item.now }
    {
        match item {
            Item::Getn {
                number,
                pointer,
                index,
            } => Instruction::GetNum {
                q: self.pointer(pointer),
                number: self.number(number),
                i: *index,
            },
            Item::Setn {
                pointer,
                index,
                number,
            } => Instruction::SetNum {
                q: self.pointer(pointer),
                number: self.number(number),
                i: *index,
            },
            _ => Instruction::Nothing,
        }
    }

    fn pointer_access(&self, item: &Item) -> Instruction
        requires { HasFew self.now }
        ensures { result ≡ instruction_of_sort is_pointer_access self.now item.now }
    {
        match item {
            Item::Getp {
                loaded,
                pointer,
                index,
            } => Instruction::GetPtr {
                d: self.pointer(loaded),
                q: self.pointer(pointer),
                i: *index,
            },
            Item::Setp {
                pointer,
                index,
                stored,
            } => Instruction::SetPtr {
                q: self.pointer(pointer),
                i: *index,
                p: self.pointer(stored),
            },
            Item::Casp {
                number,
                pointer,
                index,
                expected,
                stored,
            } => Instruction::CasPtr {
                q: self.pointer(pointer),
                p: self.pointer(expected),
                r: self.pointer(stored),
                number: self.number(number),
                i: *index,
            },
            _ => Instruction::Nothing,
        }
    }

    fn pointer_line(&self, item: &Item) -> Instruction
        requires { HasFew self.now }
        ensures { result ≡ instruction_of_sort is_pointer_line self.now item.now }
    {
        match item {
            Item::New { pointer, ty } => Instruction::New {
                d: self.pointer(pointer),
                ty: self.ty(ty),
            },
            Item::Free { pointer } => Instruction::Free {
                p: self.pointer(pointer),
            },
            Item::Lea {
                moved,
                pointer,
                index,
            } => Instruction::Lea {
                d: self.pointer(moved),
                q: self.pointer(pointer),
                i: *index,
            },
            Item::Move { copied, pointer } => Instruction::Move {
                d: self.pointer(copied),
                q: self.pointer(pointer),
            },
            Item::Clear { pointer } => Instruction::Clear {
                d: self.pointer(pointer),
            },
            Item::Loadg { loaded, global } => Instruction::GetGlobal {
                d: self.pointer(loaded),
                g: self.global(global),
            },
            Item::Storeg { stored, global } => Instruction::SetGlobal {
                g: self.global(global),
                p: self.pointer(stored),
            },
            _ => Instruction::Nothing,
        }
    }

    fn number_line(&self, item: &Item) -> Instruction
        requires { HasFew self.now }
        ensures { result ≡ instruction_of_sort is_number_line self.now item.now }
    {
        match item {
            Item::Same {
                number,
                first,
                second,
            } => Instruction::Same {
                p: self.pointer(first),
                q: self.pointer(second),
                number: self.number(number),
            },
            Item::Isnull { number, pointer } => Instruction::IsNull {
                p: self.pointer(pointer),
                number: self.number(number),
            },
            Item::Show { pointer } => Instruction::Show {
                p: self.pointer(pointer),
            },
            Item::Const { number, value } => Instruction::Const {
                number: self.number(number),
                value: *value,
            },
            Item::Add {
                number,
                left,
                right,
            } => Instruction::Add {
                number: self.number(number),
                left: self.number(left),
                right: self.number(right),
            },
            Item::Sub {
                number,
                left,
                right,
            } => Instruction::Sub {
                number: self.number(number),
                left: self.number(left),
                right: self.number(right),
            },
            Item::Print { number } => Instruction::Print {
                number: self.number(number),
            },
            _ => Instruction::Nothing,
        }
    }

    /// The instruction of a line, by its sort.
    fn instruction(&self, item: &Item) -> Instruction
        requires { HasFew self.now }
        ensures { result ≡ instruction_of self.now item.now }
    {
        match item {
            Item::Getn { .. } | Item::Setn { .. } => self.number_access(item),
            Item::Getp { .. } | Item::Setp { .. } | Item::Casp { .. } => self.pointer_access(item),
            Item::New { .. }
            | Item::Free { .. }
            | Item::Lea { .. }
            | Item::Move { .. }
            | Item::Clear { .. }
            | Item::Loadg { .. }
            | Item::Storeg { .. } => self.pointer_line(item),
            _ => self.number_line(item),
        }
    }

    /// What a line adds to a script's tree.
    fn element(&self, item: &Item) -> Element
        requires { HasFew self.now }
        ensures { result ≡ element_of self.now item.now }
    {
        match item {
            Item::Repeat { rounds } => Element::Repeat(*rounds),
            Item::If { number } => Element::If(self.number(number)),
            Item::Else => Element::Else,
            Item::End => Element::End,
            _ => Element::Line(self.instruction(item)),
        }
    }

    /// What the lines add to a script's tree, one by one.
    pub fn elements(&self, alloc: Global, lines: &[Item]) -> Result<Vec<Element>, NoMemory>
        requires { HasFew self.now }
        ensures { IfOk result (λ elements. elements.items ≡ map (element_of self.now) lines.now) }
    {
        Ok(lines.iter().map(|line| self.element(line)).collect(alloc)?)
    }
}
