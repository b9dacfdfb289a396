//! What an address points into. The heap's words come one after the other from the heap's start on, 8 bytes each.
ghost use Rattle.std.specs.Prelude.{◌≡◌, ◌<◌, ◌≤◌, true, false, IfSome, IfNone};
ghost use Rattle.mk_geom.specs.Addresses.{cell_at, cell_of_block, head_page_under, is_heap_address, page_at_address};
ghost use Rattle.mk_geom.specs.Addresses.{header_of};

use crate::classes::PAGE_WORDS;
use crate::{Header, cells, decode, index_in_block};

/// The address of the heap's first word.
pub const HEAP_START: u64 = 65536;

pub const WORD_BYTES: u64 = 8;

pub const PAGE_BYTES: u64 = WORD_BYTES * PAGE_WORDS;

/// A cell of a block, or a run, which is a cell of index 0 at its head page.
#[derive(Clone, Copy, Debug, PartialEq, Eq)]
pub struct Cell {
    pub page: u64,
    pub index: u64,
}

/// The page that an address is in, counted from 0. An address before the heap counts as one of page 0.
pub fn page_at(address: u64) -> u64
    ensures { result ≡ page_at_address address }
{
    address.saturating_sub(HEAP_START) / PAGE_BYTES
}

/// The page that an address is in, in a heap of this many pages. None if the address is outside the heap.
pub fn heap_page(pages: u64, address: u64) -> Option<u64>
    ensures page { IfSome result (λ page. page ≡ page_at_address address) }
    ensures within { IfSome result (λ page. page < pages) }
    ensures inside { IfSome result (λ page. is_heap_address pages address ≡ true) }
    ensures outside { IfNone result (is_heap_address pages address ≡ false) }
{
    let offset = address.checked_sub(HEAP_START)?;
    let page = offset / PAGE_BYTES;
    (page < pages).then_some(page)
}

/// The head page of a page's run, by the page's header word. A page of no run is its own head page.
pub fn head_page_under(header: u64, page: u64) -> u64
    ensures exact { result ≡ head_page_under (header_of header) page }
    ensures least { result ≤ page }
{
    match decode(header) {
        Some(Header::Later { distance, .. }) => page.saturating_sub(distance),
        _ => page,
    }
}

/// The cell or run that an address points into, used or not, in a heap of this many pages. `header` is the header word
/// of the address's page. None if the address is outside the heap, in a block's tail or on a free page. None too if the
/// word is no header word, or if its distance leads to before the heap.
#[inline(always)]
pub fn lookup(pages: u64, header: u64, address: u64) -> Option<Cell>
    ensures { result ≡ cell_at pages header address }
{
    let offset = address.checked_sub(HEAP_START)?;
    let page = offset / PAGE_BYTES;
    if page >= pages {
        return None;
    }
    match decode(header)? {
        Header::Free => None,
        Header::Block(class) | Header::LeafBlock(class) => {
            cell_of_word(class, page, offset / WORD_BYTES % PAGE_WORDS)
        }
        Header::Run { .. } | Header::LeafRun { .. } => Some(Cell { page, index: 0 }),
        Header::Later { distance, .. } => {
            let page = page.checked_sub(distance)?;
            Some(Cell { page, index: 0 })
        }
    }
}

fn cell_of_word(class: u64, page: u64, word: u64) -> Option<Cell>
    requires class { class < 8 }
    requires word { word < 64 }
    ensures { result ≡ cell_of_block class page word }
{
    let index = index_in_block(class, word);
    (index < cells(class)).then_some(Cell { page, index })
}
