//! The heap's geometry: size classes, the header word of a page, and what an address points into.
//! Each function computes what the definition of its name says; pages as words and storages as a list are one.
//! Start with `classes` and `headers`; `specs/PageUses.antt` defines first fit.
#![tactic(auto)]

mod addresses;
mod classes;
mod headers;
mod laws;
mod pages;

pub use addresses::{
    Cell, HEAP_START, PAGE_BYTES, WORD_BYTES, head_page_under, heap_page, lookup, page_at,
};
pub use classes::{
    PAGE_WORDS, SMALL_WORDS, cells, class_of, class_words, index_in_block, run_pages,
};
pub use headers::{Header, decode, encode, is_unmapped};
pub use laws::{
    a_storage_has_its_cell, first_fit_finds_places, free_pages_stand_for_nothing,
    pages_have_the_words_of_storages, pages_show_what_stands_there,
};
pub use pages::{Census, FREE_PAGE, Page, Place};
