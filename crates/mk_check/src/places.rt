//! Words that pointers point to.
ghost use Rattle.std.specs.{Prelude.{◌≡◌, Some, option_map}, Option.option_copied};
ghost use Rattle.mk_check.specs.Typing.{at_of, base_of, moved_by, same_at, pointed_place};

use mk_script::{At, Name, TypeWord};

/// A word of a type, or one after its end.
#[derive(Clone, Copy)]
pub struct Place<'a> {
    pub name: &'a Name,
    pub offset: u128,
}

impl<'a> Place<'a> {
    /// The word that is named here.
    pub fn new(at: &'a At) -> Place<'a>
        ensures { at_of result ≡ at.now }
    {
        Place {
            name: &at.name,
            offset: u128::from(at.offset),
        }
    }

    /// This many words after where the register points.
    pub fn behind(at: &'a At, index: u64) -> Place<'a>
        ensures { at_of result ≡ moved_by index at.now }
    {
        Place {
            name: &at.name,
            offset: u128::from(at.offset) + u128::from(index),
        }
    }

    /// A type's first word.
    pub fn base(ty: &'a Name) -> Place<'a>
        ensures { at_of result ≡ base_of ty.now }
    {
        Place {
            name: ty,
            offset: 0,
        }
    }

    /// They are one word.
    pub fn is(self, other: Place) -> bool
        ensures { result ≡ same_at (Some (at_of self.entry)) (Some (at_of other.entry)) }
    {
        self.name.is(other.name) && self.offset == other.offset
    }
}

/// Where a word points, if it is a pointer.
pub fn pointed_place<'a>(word: Option<&'a TypeWord>) -> Option<Place<'a>>
    ensures { option_map at_of result ≡ pointed_place (option_copied word.entry) }
{
    match word {
        Some(TypeWord::Pointer(at)) => Some(Place::new(at)),
        _ => None,
    }
}
