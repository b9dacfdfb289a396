//! The words of a heap, as one of its callers has them.
ghost use Rattle.std.specs.Prelude.{◌≡◌};

use mk_words::Words;

/// The words of a table, with the number of the caller that makes calls on them, and how many pages there are.
#[derive(Clone, Copy)]
pub(crate) struct CallerTable<'h> {
    pub(crate) words: &'h Words,
    pub(crate) caller: u64,
    pub(crate) pages: u64,
    ghost sized: { pages ≡ words.now.config.pages },
}

impl<'h> CallerTable<'h> {
    /// The table of these words, for the calls of this caller.
    pub(crate) fn of(words: &'h Words, caller: u64) -> CallerTable<'h>
        ensures words { result.words.now ≡ words.now }
        ensures caller { result.caller ≡ caller }
    {
        CallerTable {
            words,
            caller,
            pages: words.pages(),
        }
    }
}
