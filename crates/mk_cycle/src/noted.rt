//! What is noted of a marked cell: what follows from its page's header word, which is looked at once.
ghost use Rattle.std.specs.Prelude.{◌≡◌, ◌<◌, ◌≤◌, ◌+◌, Some, None, IfSome, IfNone};
ghost use Rattle.mk_core.specs.Cells.{cells_under, words_scanned};
ghost use Rattle.mk_geom.specs.Addresses.{cell_of_block, header_of};

use mk_core::{cells_under, words_scanned};
use mk_geom::{Cell, class_words, index_in_block};

/// Where the cells of a block end in their page, by class. What comes after them is the block's tail.
const CELLS_END: [u64; 8] = [64, 64, 60, 64, 60, 64, 48, 64];

/// A cell, and how many of its words are scanned.
#[derive(Clone, Copy)]
pub(crate) struct Noted {
    pub(crate) cell: Cell,
    pub(crate) words: u64,
}

impl Noted {
    /// The cell of a page, if there is one of its index under the header word.
    pub(crate) fn under(header: u64, cell: Cell) -> Option<Noted>
        ensures cell { IfSome result (λ noted. noted.cell ≡ cell) }
        ensures known { IfSome result (λ noted. noted.cell.index < cells_under (header_of header)) }
        ensures words { IfSome result (λ noted. noted.words ≡ words_scanned (header_of header)) }
        ensures none { IfNone result (cells_under (header_of header) ≤ cell.index) }
    {
        if cell.index >= cells_under(header) {
            return None;
        }
        let words = words_scanned(header);
        Some(Noted { cell, words })
    }

    /// The cell that has a word of a page, which is a block of this class for objects with pointers. None if the
    /// word is in the block's tail.
    #[inline(always)]
    pub(crate) fn in_block(class: u64, page: u64, word: u64) -> Option<Noted>
        requires class { class < 8 }
        requires word { word < 64 }
        ensures some { IfSome result (λ noted. cell_of_block class page word ≡ Some noted.cell) }
        ensures page { IfSome result (λ noted. noted.cell.page ≡ page) }
        ensures known { IfSome result (λ noted. noted.cell.index < cells_under (header_of (1 + class))) }
        ensures words { IfSome result (λ noted. noted.words ≡ words_scanned (header_of (1 + class))) }
        ensures none { IfNone result (cell_of_block class page word ≡ None) }
    {
        if word >= CELLS_END[class as usize] {
            return None;
        }
        let words = class_words(class);
        let cell = Cell {
            page,
            index: index_in_block(class, word),
        };
        Some(Noted { cell, words })
    }
}
