//! The words of a heap, with what a loop over its pages needs of them at hand.
ghost use Rattle.std.specs.Prelude.{◌≡◌};

use mk_words::Words;

/// The words of a table, and how many pages it has. Loops over pages have the number at hand, and needn't load it again
/// after each access.
#[derive(Clone, Copy)]
pub(crate) struct Table<'a> {
    pub(crate) words: &'a Words,
    pub(crate) pages: u64,
    ghost sized: { pages ≡ words.now.config.pages },
}

impl<'a> Table<'a> {
    /// The table of these words.
    pub(crate) fn of(words: &'a Words) -> Table<'a>
        ensures { result.words.now ≡ words.now }
    {
        Table {
            words,
            pages: words.pages(),
        }
    }
}
