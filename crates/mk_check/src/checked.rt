//! Programs that are well typed.
ghost use Rattle.std.specs.Prelude.{◌≡◌, ◌≤◌, length, IfOk, IfErr, OnOk};
ghost use Rattle.mk_core.specs.Moments.{IsWithinLimits};
ghost use Rattle.mk_script.specs.{Grammar.IsOfSomeText, Scopes.script_names};
ghost use Rattle.mk_check.specs.Declarations.{pages_of, resident_of, config_of};
ghost use Rattle.mk_check.specs.Typing.{IsWellTyped, NamesFirstFault};

use crate::TypeStop;
use crate::checking::check_lines;
use crate::numbers::TypeNumbers;
use crate::scripts::is_script;
use mk_core::Config;
use mk_never::NoMemory;
use mk_script::{Item, Program};
use std::alloc::Global;
use std::marker::Model;

/// A program that is well typed, seen as its items.
#[derive(Drop)]
pub struct Checked {
    program: Program,
}

impl Model for Checked {
    ghost use Rattle.std.specs.Prelude.{List};
    ghost use Rattle.mk_script.specs.{declared.items.Item.Item, Grammar.IsOfSomeText};
    ghost use Rattle.mk_check.specs.Typing.{IsWellTyped};

    ghost Value = { List Item };

    ghost view = { λ c. c.program };

    ghost invariant = { λ c. IsWellTyped c.program × IsOfSomeText c.program };
}

impl Checked {
    /// The program, which is well typed.
    pub fn program(&self) -> &Program
        ensures program { result.now ≡ self.now }
        ensures well_typed { IsWellTyped self.now }
        ensures of_some_text { IsOfSomeText self.now }
    {
        &self.program
    }

    /// How many scripts it has.
    pub fn scripts(&self) -> u64
        ensures { result ≡ length (script_names self.now) }
    {
        let items = self.program.items();
        items.iter().filter(|item| is_script(item)).count() as u64
    }

    /// What a heap for its scripts is started with, where each script is a caller.
    pub fn config(&self, alloc: Global, markers: u64) -> Result<Config, NoMemory>
        requires { markers ≤ 8 }
        ensures config { IfOk result (λ config. config ≡ config_of self.now markers) }

        // What the grammar's limits and the types say of these.
        ensures within_limits { IfOk result IsWithinLimits }
    {
        let items = self.program.items();
        let heap = heap_pages(items);
        let numbers = TypeNumbers::of_program(alloc, items)?;
        Ok(Config {
            pages: heap.pages,
            resident: heap.resident,
            callers: self.scripts(),
            markers,
            types: numbers.types(alloc)?,
            globals: numbers.globals(alloc)?,
        })
    }
}

/// The pages of a program's heap, and how many of them may be resident.
#[derive(Clone, Copy)]
struct HeapPages {
    pages: u64,
    resident: u64,
}

/// What the first `heap` line says.
fn heap_pages(items: &[Item]) -> HeapPages
    ensures pages { result.pages ≡ pages_of items.now }
    ensures resident { result.resident ≡ resident_of items.now }
{
    for item in items {
        if let Item::Heap { pages, resident } = item {
            return HeapPages {
                pages: *pages,
                resident: *resident,
            };
        }
    }
    HeapPages {
        pages: 0,
        resident: 0,
    }
}

/// The program, if it is well typed, in time linear in its length but for look-ups by name. Else its
/// first fault: that of its least ill-typed line, where a script that is too long is one of its
/// `script` line.
pub fn check(alloc: Global, program: Program) -> Result<Checked, TypeStop>
    ensures program { IfOk result (λ checked. checked ≡ program) }
    ensures well_typed { OnOk result (IsWellTyped program) }
    ensures first_fault { IfErr result (NamesFirstFault program) }
{
    check_lines(alloc, program.items())?;
    Ok(Checked { program })
}
