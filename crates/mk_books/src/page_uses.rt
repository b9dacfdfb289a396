//! What is on one page.
ghost use Rattle.std.specs.Prelude.{◌≡◌, ◌<◌, ◌≤◌, not, count_by, IfSome, IfNone};
ghost use Rattle.mk_geom.specs.PageUses.{Cells, is_free_page, is_resident_page, cells_taken, first_where, held_by_use};
ghost use Rattle.mk_geom.specs.{PageUses.{use_of_page, bits_of}, Addresses.cells_of};
ghost use Rattle.mk_books.specs.Cells.{HasNoCells};

use mk_geom::{Header, PAGE_WORDS, Page, cells, class_words, decode};

pub(crate) fn is_free(page: Page) -> bool
    ensures { result ≡ is_free_page (use_of_page page) }
{
    matches!(decode(page.header), Some(Header::Free))
}

pub(crate) fn is_resident(page: Page) -> bool
    ensures { result ≡ is_resident_page (use_of_page page) }
{
    match decode(page.header) {
        None | Some(Header::Free) => false,
        Some(Header::Run { mapped, .. } | Header::Later { mapped, .. }) => mapped,
        Some(Header::Block(_) | Header::LeafBlock(_) | Header::LeafRun { .. }) => true,
    }
}

/// What the cells of a block are for.
#[derive(Clone, Copy)]
pub(crate) struct BlockKind {
    pub(crate) class: u64,
    pub(crate) leaf: bool,
}

/// The class and sort of a block; none if the page is no block.
pub(crate) fn block_of(page: Page) -> Option<BlockKind>
    ensures in_range { IfSome result (λ kind. kind.class < 8) }
    ensures block { IfSome result
        (λ kind. use_of_page page ≡ Cells kind.class kind.leaf (bits_of (cells_of kind.class) page.used)) }
    ensures none { IfNone result (HasNoCells (use_of_page page)) }
{
    match decode(page.header)? {
        Header::Block(class) => Some(BlockKind { class, leaf: false }),
        Header::LeafBlock(class) => Some(BlockKind { class, leaf: true }),
        Header::Free | Header::Run { .. } | Header::Later { .. } | Header::LeafRun { .. } => None,
    }
}

/// The lowest cell that isn't taken, if the page is a block of this class and sort.
pub(crate) fn free_cell(page: Page, class: u64, leaf: bool) -> Option<u64>
    requires { class < 8 }
    ensures { result ≡ first_where not (cells_taken class leaf (use_of_page page)) }
{
    match block_of(page) {
        Some(kind) if kind.class == class && kind.leaf == leaf => {
            lowest_clear(page.used, cells(class))
        }
        _ => None,
    }
}

/// The place of the lowest 0 among the low bits.
fn lowest_clear(word: u64, bits: u64) -> Option<u64>
    requires { bits ≤ 64 }
    ensures { result ≡ first_where not (bits_of bits word) }
{
    let place = u64::from(word.trailing_ones());
    (place < bits).then_some(place)
}

/// How many words of the page are held: those of the cells that are taken, or all of a page of a mapped run.
pub(crate) fn words_on(page: Page) -> u64
    ensures { result ≡ held_by_use (use_of_page page) }
{
    match decode(page.header) {
        Some(Header::Block(class) | Header::LeafBlock(class)) => {
            class_words(class) * count_set(page.used, cells(class))
        }
        Some(
            Header::Run { mapped: true, .. }
            | Header::Later { mapped: true, .. }
            | Header::LeafRun { .. },
        ) => PAGE_WORDS,
        _ => 0,
    }
}

/// How many of the low bits are 1.
fn count_set(word: u64, bits: u64) -> u64
    requires { bits < 64 }
    ensures exact { result ≡ count_by (λ bit. bit) (bits_of bits word) }
    ensures few { result ≤ bits }
{
    let low_bits = (1 << bits) - 1;
    u64::from((word & low_bits).count_ones())
}

/// How many of the low bits are 0.
pub(crate) fn count_clear(word: u64, bits: u64) -> u64
    requires { bits < 64 }
    ensures { result ≡ count_by not (bits_of bits word) }
{
    bits - count_set(word, bits)
}
