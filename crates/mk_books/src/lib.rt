//! The heap's books: where an object goes, counts of the pages, and a map of the pages that travels with the turn.
//! Places are first-fit places and counts exact, and the map answers as the pages that it shows do (`Shows`).
//! Start with `fitting` and `trigger`, then `page_map`.
#![tactic(auto)]

mod changes;
mod counting;
mod finding;
mod fitting;
mod kinds;
mod laws;
mod page_map;
mod page_uses;
mod quarantine;
mod runs;
mod sets;
mod sorting;
mod trigger;

pub use counting::{census, free_pages, held_by_pages};
pub use fitting::{first_fit, free_pages_from};
pub use laws::the_lowest_block_has_the_place;
pub use mk_geom::{Census, Page, Place};
pub use page_map::PageMap;
pub use quarantine::QuarantineWord;
pub use trigger::{due, freeable};
