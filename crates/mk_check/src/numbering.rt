//! A script of a program, with numbers for its names.
ghost use Rattle.std.specs.Prelude.{◌≡◌, IfOk};
ghost use Rattle.mk_script.specs.Grammar.{IsOfSomeText};
ghost use Rattle.mk_check.specs.{Laws.IsScript, Feeding.elements_of_script};

use crate::declarations::Declarations;
use crate::feeding::instructions::Element;
use crate::names::Names;
use crate::scripts::script_at;
use mk_never::NoMemory;
use mk_script::Item;
use std::alloc::Global;
use std::marker::Model;

/// A script's lines, with numbers for their names.
#[derive(Drop)]
pub struct NumberedScript {
    lines: Vec<Element>,
}

impl Model for NumberedScript {
    ghost use Rattle.std.specs.Prelude.{List};
    ghost use Rattle.mk_check.specs.declared.feeding.instructions.Element.{Element};

    ghost Value = { List Element };

    ghost view = { λ s. s.lines.items };
}

impl NumberedScript {
    /// Script `k` of a program, from 0 on.
    pub fn of_program(alloc: Global, items: &[Item], k: u64) -> Result<NumberedScript, NoMemory>
        requires exists { IsScript items.now k }
        requires text { IsOfSomeText items.now }
        ensures { IfOk result (λ script. script ≡ elements_of_script items.now k) }
    {
        let Some(script) = script_at(items, k) else {
            unreachable!()
        };
        let declarations = Declarations::of_program(alloc, items)?;
        let names = Names::of(alloc, &declarations, script.items)?;
        Ok(NumberedScript {
            lines: names.elements(alloc, script.items)?,
        })
    }

    /// The lines.
    pub fn lines(&self) -> &[Element]
        ensures { result.now ≡ self.now }
    {
        self.lines.as_slice()
    }
}
