//! Laws of the script language.
ghost use Rattle.std.specs.Prelude.{List};
ghost use Rattle.mk_script.specs.{declared.items.Item.Item, Canonical.IsReadBack};

/// A program that is printed and read again is the same program, where what is printed isn't longer than
/// a text may be.
pub fn canonical_texts_are_read_back()
    ensures { (items : List Item) → IsReadBack items }
{}
