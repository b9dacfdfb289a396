//! First fit, the counts and what is given back, on pages that are worked out by hand.

use super::geometry::{asked, cell_said, number, three};
use super::tables::{Asks, all_hold};
use mk_books::{Census, Page, Place, census, due, first_fit, free_pages, freeable, held_by_pages};
use mk_geom::{Cell, FREE_PAGE};

/// A full block of cells of 32 words, a leaf block with its cell 1 free, a block with its cell 0 free, a
/// free page, a mapped run of a page, and a free page.
const FRAGMENTED: [Page; 6] = [
    Page {
        header: 8,
        used: 0b11,
    },
    Page {
        header: 13 + 16 * 7,
        used: 0b01,
    },
    Page {
        header: 8,
        used: 0b10,
    },
    FREE_PAGE,
    Page {
        header: 9 + 16,
        used: 1,
    },
    FREE_PAGE,
];

/// A run of a page whose storage isn't mapped, and two free pages.
const AFTER_UNMAPPED: [Page; 3] = [
    Page {
        header: 11 + 16,
        used: 1,
    },
    FREE_PAGE,
    FREE_PAGE,
];

/// How many pages may be resident, how many words an object has, and 1 if it is leaf; and the place that it gets on
/// `FRAGMENTED`, of which four pages are resident.
const PLACES: &str = "\
a free cell of a block | 6 32 0 | cell 0 of page 2
a free cell of a leaf block | 6 32 1 | cell 1 of page 1
a class without a block | 6 2 0 | cell 0 of page 3, new
a class without a block, and room for one page more | 5 2 0 | cell 0 of page 3, new
a class without a block, and no room for a page more | 4 2 0 | none
a run of a page | 5 33 0 | cell 0 of page 3, new
a run of a page, and no room for a page more | 4 33 0 | none
a run of two pages, where no two free pages are neighbours | 6 65 0 | none
";

/// The place that is said; none for `none`.
fn place_said(words: &str) -> Option<Place> {
    let (cell, carve) = match words.strip_suffix(", new") {
        Some(cell) => (cell, true),
        None => (words, false),
    };
    let Cell { page, index } = cell_said(cell)?;
    Some(Place { page, index, carve })
}

/// Whether a row of `PLACES` holds.
pub fn is_place(row: &str) -> Option<bool> {
    let (of, said) = asked(row)?;
    let [limit, words, leaf] = three(of)?;
    Some(first_fit(&FRAGMENTED, limit, words, leaf == 1) == place_said(said))
}

#[test]
fn the_first_place_that_fits_is_found(rt: HostRuntime) {
    all_hold(&rt, rt.alloc(), Asks::Place, PLACES);
    let found = first_fit(&AFTER_UNMAPPED, 2, 65, true);
    assert!(rt; found == place_said("cell 0 of page 1, new"));
}

#[test]
fn books_are_those_of_the_pages(rt: HostRuntime) {
    let mut free_cells = [0; 16];
    free_cells[7] = 1;
    free_cells[15] = 1;
    let expected = Census {
        free_pages: 2,
        longest_range: 1,
        resident: 4,
        free_cells,
    };
    assert!(rt; census(&FRAGMENTED) == expected);
    assert!(rt; (free_pages(&FRAGMENTED), held_by_pages(&FRAGMENTED)) == (2, 64 + 32 + 32 + 64));
}

#[test]
fn a_run_that_is_not_mapped_counts_for_nothing(rt: HostRuntime) {
    let found = census(&AFTER_UNMAPPED);
    assert!(rt;
        (
            found.resident,
            found.longest_range,
            held_by_pages(&AFTER_UNMAPPED)
        ) == (0, 2, 0)
    );
}

/// The words that were freed since the last cycle, and those that are held.
const DUE: &str = "\
a quarter of what is held | 16 64 | no
more than a quarter | 18 64 | yes
the greatest numbers | 18446744073709551615 18446744073709551615 | yes
nothing | 0 0 | no
";

/// Whether a row of `DUE` holds.
pub fn is_due(row: &str) -> Option<bool> {
    let (of, said) = asked(row)?;
    let (fresh, held) = of.split_once(' ')?;
    Some(due(number(fresh)?, number(held)?) == (said == "yes"))
}

#[test]
fn a_cycle_is_due_by_what_is_fresh_and_held(rt: HostRuntime) {
    all_hold(&rt, rt.alloc(), Asks::Due, DUE);
}

#[test]
fn marked_cells_are_not_given_back(rt: HostRuntime) {
    assert_eq!(rt; freeable(0b111, 0b11 << 32, 0b01), 0b10);
}
