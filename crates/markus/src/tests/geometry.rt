//! Classes, headers and addresses, worked out by hand. A row of a table is its name, what is asked, and the answer,
//! with ` | ` between them.

use super::tables::{Asks, all_hold};
use mk_geom::{Cell, Header, cells, class_of, class_words, decode, encode, lookup, run_pages};
use mk_script::parse_number;

/// A size in words, and the class of an object of that size.
const CLASSES: &str = "\
no words | 0 | none
the smallest object | 1 | 0
the largest of class 0 | 2 | 0
the smallest of class 1 | 3 | 1
the largest of class 1 | 4 | 1
the smallest of class 2 | 5 | 2
the largest of class 2 | 6 | 2
the smallest of class 3 | 7 | 3
the largest of class 3 | 8 | 3
the smallest of class 4 | 9 | 4
the largest of class 4 | 12 | 4
the smallest of class 5 | 13 | 5
the largest of class 5 | 16 | 5
the smallest of class 6 | 17 | 6
the largest of class 6 | 24 | 6
the smallest of class 7 | 25 | 7
the largest of class 7 | 32 | 7
the smallest large object | 33 | none
the greatest number | 18446744073709551615 | none
";

/// A size in words, and the pages of a run for it.
const RUNS: &str = "\
no words | 0 | 0
the smallest large object | 33 | 1
a whole page | 64 | 1
a word more than a page | 65 | 2
two whole pages | 128 | 2
the greatest number | 18446744073709551615 | 288230376151711744
";

/// A header word, and what it says.
const HEADERS: &str = "\
a free page | 0 | free
a free page with a count | 16 | none
the first class | 1 | block 0
the last class | 8 | block 7
the first class with a count | 17 | none
the last class with a count | 24 | none
a run of no pages | 9 | none
a run of a page | 25 | run 1
the longest run | 1033 | run 64
a longer run | 1049 | none
a later page at no distance | 10 | none
the nearest later page | 26 | later 1
the farthest later page | 1018 | later 63
a farther later page | 1034 | none
an unmapped run of no pages | 11 | none
an unmapped run of a page | 27 | unmapped run 1
the longest unmapped run | 1035 | unmapped run 64
a longer unmapped run | 1051 | none
an unmapped later page at no distance | 12 | none
the nearest unmapped later page | 28 | unmapped later 1
the farthest unmapped later page | 1020 | unmapped later 63
a farther unmapped later page | 1036 | none
the first leaf class | 13 | leaf block 0
the last leaf class | 125 | leaf block 7
a leaf class too many | 141 | none
a leaf run of no pages | 14 | none
a leaf run of a page | 30 | leaf run 1
the longest leaf run | 1038 | leaf run 64
a longer leaf run | 1054 | none
the kind that there isn't | 15 | none
the kind that there isn't, with a count | 31 | none
the greatest number | 18446744073709551615 | none
";

/// The pages of a heap, the header word of the address's page, and the address; and the page and index of the cell
/// that this points into. The heap's first address is 65536, and a page has 512 bytes.
const ADDRESSES: &str = "\
null | 4 8 0 | none
the last address before the heap | 4 8 65535 | none
the first byte of the heap | 4 8 65536 | cell 0 of page 0
the last byte of a cell of 32 words | 4 8 65791 | cell 0 of page 0
the first byte of the next cell | 4 8 65792 | cell 1 of page 0
the last byte of a page | 4 8 66047 | cell 1 of page 0
the first byte of the next page | 4 8 66048 | cell 0 of page 1
the last byte of the heap | 4 8 67583 | cell 1 of page 3
the first address behind the heap | 4 8 67584 | none
a heap of no pages | 0 8 65536 | none
the greatest numbers | 18446744073709551615 8 18446744073709551615 | cell 1 of page 36028797018963839
the last byte of a block's last cell of 6 words | 4 3 66015 | cell 9 of page 0
the first byte of a block's tail | 4 3 66016 | none
the last byte of a block's tail | 4 3 66047 | none
a cell of a leaf block | 4 45 65584 | cell 1 of page 0
the tail of a leaf block | 4 45 66016 | none
a free page | 4 0 65536 | none
the first page of a run | 4 57 66559 | cell 0 of page 1
a later page, two behind the first | 4 42 67072 | cell 0 of page 1
a later page, whose run begins with the heap | 4 42 66560 | cell 0 of page 0
a later page, whose run would begin before the heap | 4 42 66048 | none
the first page of an unmapped run | 4 59 66048 | cell 0 of page 1
a later page of an unmapped run | 4 44 67072 | cell 0 of page 1
the first page of a leaf run | 4 62 66048 | cell 0 of page 1
no header word | 4 9 65536 | none
";

/// What a row asks, and the answer; its name is the first of the three.
pub fn asked(row: &str) -> Option<(&str, &str)> {
    let (_name, rest) = row.split_once(" | ")?;
    rest.split_once(" | ")
}

/// The number that a word is.
pub fn number(word: &str) -> Option<u64> {
    parse_number(word.as_bytes())
}

/// The three numbers that a text has, with a space between them.
pub fn three(text: &str) -> Option<[u64; 3]> {
    let (first, rest) = text.split_once(' ')?;
    let (second, third) = rest.split_once(' ')?;
    Some([number(first)?, number(second)?, number(third)?])
}

/// The header that is said; none for `none`.
fn header_said(words: &str) -> Option<Header> {
    if words == "free" {
        return Some(Header::Free);
    }
    let (sort, count) = words.rsplit_once(' ')?;
    header_of(sort, number(count)?)
}

fn header_of(sort: &str, count: u64) -> Option<Header> {
    let mapped = !sort.starts_with("unmapped ");
    match sort {
        "block" => Some(Header::Block(count)),
        "leaf block" => Some(Header::LeafBlock(count)),
        "leaf run" => Some(Header::LeafRun { pages: count }),
        "run" | "unmapped run" => Some(Header::Run {
            pages: count,
            mapped,
        }),
        "later" | "unmapped later" => Some(Header::Later {
            distance: count,
            mapped,
        }),
        _ => None,
    }
}

/// The cell that is said; none for `none`.
pub fn cell_said(words: &str) -> Option<Cell> {
    let (index, page) = words.strip_prefix("cell ")?.split_once(" of page ")?;
    Some(Cell {
        page: number(page)?,
        index: number(index)?,
    })
}

/// Whether a row of `CLASSES` holds.
pub fn is_class(row: &str) -> Option<bool> {
    let (of, said) = asked(row)?;
    Some(class_of(number(of)?) == number(said))
}

#[test]
fn small_objects_have_the_least_class(rt: HostRuntime) {
    all_hold(&rt, rt.alloc(), Asks::Class, CLASSES);
}

/// Of each class, in order, the words of a cell and how many cells a block has. Its tail, which is less than a cell,
/// has none.
const CELLS: [(u64, u64); 8] = [
    (2, 32),
    (4, 16),
    (6, 10),
    (8, 8),
    (12, 5),
    (16, 4),
    (24, 2),
    (32, 2),
];

#[test]
fn blocks_have_whole_cells(rt: HostRuntime) {
    for class in 0..8 {
        let found = (class_words(class), cells(class));
        assert!(rt; found == CELLS[class as usize], "class {class}");
    }
}

/// Whether a row of `RUNS` holds.
pub fn are_pages(row: &str) -> Option<bool> {
    let (of, said) = asked(row)?;
    Some(Some(run_pages(number(of)?)) == number(said))
}

#[test]
fn runs_have_whole_pages(rt: HostRuntime) {
    all_hold(&rt, rt.alloc(), Asks::Pages, RUNS);
}

/// Whether a word is that of a header, or of none.
fn is_word_of(word: u64, said: Option<Header>) -> bool {
    match decode(word) {
        Some(header) => Some(header) == said && encode(header) == word,
        None => said.is_none(),
    }
}

/// Whether a row of `HEADERS` holds.
pub fn is_header(row: &str) -> Option<bool> {
    let (of, said) = asked(row)?;
    Some(is_word_of(number(of)?, header_said(said)))
}

#[test]
fn words_of_each_kind_within_and_outside_their_limits(rt: HostRuntime) {
    all_hold(&rt, rt.alloc(), Asks::Header, HEADERS);
}

/// Whether a row of `ADDRESSES` holds.
pub fn is_address(row: &str) -> Option<bool> {
    let (of, said) = asked(row)?;
    let [pages, header, address] = three(of)?;
    Some(lookup(pages, header, address) == cell_said(said))
}

#[test]
fn addresses_point_into_cells_and_runs(rt: HostRuntime) {
    all_hold(&rt, rt.alloc(), Asks::Address, ADDRESSES);
}
