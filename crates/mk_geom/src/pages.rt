//! Pages as two words each, where an object can go on them, and counts of what is on them.

/// A page: its header word, and its used word, in which bit k says that cell k is used. A run has bit 0 at its head
/// page.
#[derive(Clone, Copy, Debug, PartialEq, Eq)]
pub struct Page {
    pub header: u64,
    pub used: u64,
}

/// The two words of a free page.
pub const FREE_PAGE: Page = Page { header: 0, used: 0 };

/// Where an object goes: cell `index` of the page, or a run from this page on, with index 0. `carve` says that the
/// pages are free, and have to become a block or a run first.
#[derive(Clone, Copy, Debug, PartialEq, Eq)]
pub struct Place {
    pub page: u64,
    pub index: u64,
    pub carve: bool,
}

/// How many pages of a heap are free, how many pages its longest range of free pages has, and how many pages are
/// resident. Place c of `free_cells` counts the free cells of class c in blocks, and place 8 + c those in leaf blocks.
#[derive(Clone, Copy, Debug, PartialEq, Eq)]
pub struct Census {
    pub free_pages: u64,
    pub longest_range: u64,
    pub resident: u64,
    pub free_cells: [u64; 16],
}
