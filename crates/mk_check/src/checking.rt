//! Checks a program line by line.
ghost use Rattle.std.specs.Prelude.{◌≡◌, ℕ, List, IfOk, IfErr, OnOk};
ghost use Rattle.mk_script.specs.declared.items.Item.TheVariants.{Script};
ghost use Rattle.mk_check.specs.Typing.{around, Around, typing_fault, IsWellTyped, NamesFirstFault};

use crate::declarations::Declarations;
use crate::lengths::script_length;
use crate::lookups::Lookups;
use crate::scripts::items_of_script;
use crate::typing::unless;
use crate::{TypeKind, TypeStop};
use mk_never::NoMemory;
use mk_script::Item;
use std::alloc::Global;

/// The most instructions that a script may execute.
const MOST_INSTRUCTIONS: u64 = 1_000_000;

/// What is wrong with a line that begins a script, before the lines after it.
fn length_fault(alloc: Global, behind: &[Item]) -> Result<Option<TypeKind>, NoMemory>
    ensures { IfOk result (λ fault. (a : Around) (line : ℕ) (name : List ℕ)
        → fault ≡ typing_fault a line behind.now (Script name)) }
{
    let count = script_length(alloc, items_of_script(behind))?;
    Ok(unless(count <= MOST_INSTRUCTIONS, TypeKind::TooLong { count }))
}

/// What is wrong with a line, before the lines after it.
fn line_fault(
    alloc: Global,
    lookups: &Lookups,
    item: &Item,
    behind: &[Item],
) -> Result<Option<TypeKind>, NoMemory>
    ensures { IfOk result (λ fault. (line : ℕ) → fault ≡ typing_fault (around lookups.now) line behind.now item.now) }
{
    match item {
        Item::Script { .. } => length_fault(alloc, behind),
        _ => Ok(lookups.fault(item)),
    }
}

/// Whether a program of these lines is well typed.
pub fn check_lines(alloc: Global, items: &[Item]) -> Result<(), TypeStop>
    ensures well_typed { OnOk result (IsWellTyped items.now) }
    ensures first_fault { IfErr result (NamesFirstFault items.now) }
{
    let declarations = Declarations::of_program(alloc, items)?;
    let mut lookups = Lookups::new(alloc, items, &declarations);
    for (place, item) in items.iter().enumerate() {
        if let Some(kind) = line_fault(alloc, &lookups, item, &items[place + 1..])? {
            return Err(TypeStop::IllTyped {
                line: place as u64 + 1,
                kind,
            });
        }
        lookups.read()?;
    }
    Ok(())
}
