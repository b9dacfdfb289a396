//! Programs.
ghost use Rattle.std.specs.Prelude.{◌≡◌};

use crate::Item;
use std::marker::Model;

/// The items of a script text, one a line, so that an item's line is its place plus 1. It is the
/// program of some text.
#[derive(Drop)]
pub struct Program {
    items: Vec<Item>,
}

impl Model for Program {
    ghost use Rattle.std.specs.Prelude.{List};
    ghost use Rattle.mk_script.specs.{declared.items.Item.Item, Grammar.IsOfSomeText};

    ghost Value = { List Item };

    ghost view = { λ p. p.items.items };

    ghost invariant = { λ p. IsOfSomeText p.items.items };
}

impl Program {
    ghost use Rattle.mk_script.specs.Grammar.{IsOfSomeText};

    pub(crate) fn from_items(items: Vec<Item>) -> Program
        requires { IsOfSomeText items.items }
        ensures { result ≡ items.items }
    {
        Program { items }
    }

    /// The items, in the order of their lines.
    pub fn items(&self) -> &[Item]
        ensures items { result.now ≡ self.now }
        ensures of_some_text { IsOfSomeText self.now }
    {
        self.items.as_slice()
    }
}
