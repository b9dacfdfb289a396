//! Lines that declare, and what the names that they declare stand for.
ghost use Rattle.std.specs.{Prelude.{◌≡◌}, Option.option_copied};
ghost use Rattle.mk_script.specs.Scopes.{declared_name, is_declaration};

use crate::items::Item;
use crate::names::Name;

/// What a name stands for.
#[derive(Clone, Copy)]
pub enum Sort {
    Type,
    Global,
    Script,
    Pointer,
    Number,
}

/// The name that a line declares, of this sort.
pub fn declared_name(sort: Sort, item: &Item) -> Option<&Name>
    ensures { option_copied result ≡ declared_name sort item.now }
{
    match (sort, item) {
        (Sort::Type, Item::TypeLine { name, .. })
        | (Sort::Global, Item::Global { name, .. })
        | (Sort::Script, Item::Script { name })
        | (Sort::Pointer, Item::Ptr { name, .. })
        | (Sort::Number, Item::Num { name }) => Some(name),
        _ => None,
    }
}

/// Whether the line declares something. Each other line is an instruction of a script.
pub fn is_declaration(item: &Item) -> bool
    ensures { result ≡ is_declaration item.now }
{
    matches!(
        item,
        Item::Heap { .. }
            | Item::TypeLine { .. }
            | Item::Global { .. }
            | Item::Script { .. }
            | Item::Ptr { .. }
            | Item::Num { .. }
    )
}
