//! What pages are by their header words.
ghost use Rattle.std.specs.Prelude.{◌≡◌, ℕ, ◌<◌, ◌==◌, is_some, not};
ghost use Rattle.mk_geom.specs.{Addresses.{cells_of, header_of}, PageUses.first_where};
ghost use Rattle.mk_geom.specs.PageUses.{is_free_page, is_resident_page, bits_of, use_under};
ghost use Rattle.mk_books.specs.PageSets.{HasClass, is_mapped_run, use_of_kind};

use mk_geom::cells;

/// What a page is by its header word. A page whose header is no header word counts as one of an unmapped run.
#[derive(Clone, Copy)]
pub(crate) enum PageKind {
    Free,
    Block { class: u64, leaf: bool },
    Run { mapped: bool },
}

/// Whether the header word is that of a mapped run's page. Its head has kind 9, or 14 in a leaf run, and the others 10.
#[inline(always)]
fn is_mapped(word: u64) -> bool
    ensures { result ≡ is_mapped_run (header_of word) }
{
    let kind = word % 16;
    // A run has 64 pages at most, of which one is its head. Most pages of runs are later ones.
    if kind == 10 {
        return (1..=63).contains(&(word / 16));
    }
    matches!(kind, 9 | 14) && (1..=64).contains(&(word / 16))
}

/// The kind of a page with this header word. Mapped runs come before leaf blocks, and what is left is an unmapped run,
/// whatever its number of pages: so pages of runs are told apart in few steps.
#[inline(always)]
pub(crate) fn kind_of(header: u64) -> PageKind
    ensures class { HasClass result }
    ensures free { (used : ℕ) → is_free_page (use_of_kind result used) ≡ (header == 0) }
    ensures kind { (used : ℕ) → use_under (header_of header) used ≡ use_of_kind result used }
{
    if header == 0 {
        return PageKind::Free;
    }
    if header <= 8 {
        return PageKind::Block {
            class: header - 1,
            leaf: false,
        };
    }
    let class = header / 16;
    if header % 16 == 13 && class < 8 {
        return PageKind::Block { class, leaf: true };
    }
    PageKind::Run {
        mapped: is_mapped(header),
    }
}

impl PageKind {
    pub(crate) fn is_resident(self) -> bool
        ensures { (used : ℕ) → is_resident_page (use_of_kind self used) ≡ result }
    {
        match self {
            PageKind::Free => false,
            PageKind::Block { .. } => true,
            PageKind::Run { mapped } => mapped,
        }
    }
}

/// Whether a block of the class with this used word has a cell that isn't used.
pub(crate) fn has_free_cell(class: u64, used: u64) -> bool
    requires { class < 8 }
    ensures { result ≡ is_some (first_where not (bits_of (cells_of class) used)) }
{
    u64::from(used.trailing_ones()) < cells(class)
}
