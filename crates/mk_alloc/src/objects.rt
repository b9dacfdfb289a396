//! The objects of a program's types: how large they are, and what their pages become.
ghost use Rattle.std.specs.Prelude.{◌≡◌, ◌<◌, ◌≤◌, ◌*◌, ◌%◌, ◌^◌, if◌then◌else◌, length, true};
ghost use Rattle.mk_never.specs.Types.{kinds_of};
ghost use Rattle.mk_core.specs.NewPlaces.{object_of, is_small_object, class_made, pages_made, header_made, bits_made};
ghost use Rattle.mk_core.specs.{NewPlaces.base_made, Allocations.{IsSized, words_made}};
ghost use Rattle.mk_geom.specs.Addresses.{address_of, class_words_of, run_pages_of, IsInRange};
ghost use Rattle.mk_geom.specs.Storages.{block_header, run_header};
ghost use Rattle.mk_alloc.specs.Placing.{object_shaped};

use mk_geom::{
    HEAP_START, Header, PAGE_WORDS, Place, SMALL_WORDS, WORD_BYTES, cells, class_of, class_words,
    encode, run_pages,
};
use mk_never::TypeTable;

/// What a New requests: an object of this type, to which this register is to point.
#[derive(Clone, Copy)]
pub struct Request {
    pub register: u8,
    pub ty: u64,
}

/// What an object is: its words, and whether none of them is a pointer.
#[derive(Clone, Copy)]
pub(crate) struct Shape {
    pub(crate) words: u64,
    pub(crate) leaf: bool,
}

/// What a New gets: an object of this shape, to which this register is to point, in a place on a page with this used
/// word, or on free pages.
#[derive(Clone, Copy)]
pub(crate) struct Grant {
    pub(crate) register: u8,
    pub(crate) shape: Shape,
    pub(crate) place: Place,
    pub(crate) used: u64,
    pub(crate) free: bool,
}

/// The shape of an object of a type.
pub(crate) fn shape_of(types: &TypeTable, ty: u64) -> Shape
    requires { ty < length types.now }
    ensures { object_shaped result ≡ object_of (kinds_of types.now ty) }
{
    Shape {
        words: types.kinds(ty).len() as u64,
        leaf: types.is_leaf(ty),
    }
}

impl Shape {
    pub(crate) fn is_small(self) -> bool
        ensures { result ≡ is_small_object (object_shaped self) }
    {
        self.words <= SMALL_WORDS
    }

    fn class(self) -> u64
        ensures exact { result ≡ class_made (object_shaped self) }
        ensures known { result < 8 }
    {
        class_of(self.words).unwrap_or(0)
    }

    /// How many pages its cell or run has from its place's page on.
    pub(crate) fn pages(self) -> u64
        ensures { result ≡ pages_made (object_shaped self) }
    {
        if self.is_small() {
            1
        } else {
            run_pages(self.words)
        }
    }

    /// How many words its cell or run has.
    pub(crate) fn storage(self) -> u64
        requires { IsSized (object_shaped self) }
        ensures { result ≡ words_made (object_shaped self) }
    {
        if self.is_small() {
            class_words(self.class())
        } else {
            64 * run_pages(self.words)
        }
    }

    /// The header of its block.
    fn block(self) -> Header
        ensures exact { result ≡ block_header (class_made (object_shaped self)) self.leaf }
        ensures in_range { IsInRange result }
    {
        let class = self.class();
        if self.leaf {
            Header::LeafBlock(class)
        } else {
            Header::Block(class)
        }
    }

    /// The header of a page of its run.
    fn run(self, distance: u64) -> Header
        requires large { 32 < self.words }
        requires sized { self.words ≤ 4096 }
        requires within { distance < run_pages_of self.words }
        ensures exact { result ≡ run_header (run_pages_of self.words) true self.leaf distance }
        ensures in_range { IsInRange result }
    {
        let pages = run_pages(self.words);
        if distance > 0 {
            Header::Later {
                distance,
                mapped: true,
            }
        } else if self.leaf {
            Header::LeafRun { pages }
        } else {
            Header::Run {
                pages,
                mapped: true,
            }
        }
    }

    /// The header word of its page so far after the first.
    pub(crate) fn header_word(self, distance: u64) -> u64
        requires sized { IsSized (object_shaped self) }
        requires within { distance < pages_made (object_shaped self) }
        ensures { result ≡ header_made (object_shaped self) distance }
    {
        if self.is_small() {
            encode(self.block())
        } else {
            encode(self.run(distance))
        }
    }

    /// The header word of a later page of its run, so far after the first.
    #[inline(always)]
    pub(crate) fn later_word(self, distance: u64) -> u64
        requires sized { IsSized (object_shaped self) }
        requires later { 1 ≤ distance }
        requires within { distance < pages_made (object_shaped self) }
        ensures { result ≡ header_made (object_shaped self) distance }
    {
        encode(Header::Later {
            distance,
            mapped: true,
        })
    }

    /// The bits of the cells of its first page.
    pub(crate) fn bits(self) -> u64
        ensures { result ≡ bits_made (object_shaped self) }
    {
        if self.is_small() {
            (1 << cells(self.class())) - 1
        } else {
            1
        }
    }

    /// The word of its page where the object in this cell begins.
    fn first_word(self, index: u64) -> u64
        requires { index < 64 }
        ensures exact { result ≡ (if is_small_object (object_shaped self)
            then index * class_words_of (class_made (object_shaped self)) else 0) }
        ensures few { result ≤ 2048 }
    {
        if self.is_small() {
            index * class_words(self.class())
        } else {
            0
        }
    }

    /// The address of its object at this place.
    pub(crate) fn address(self, place: Place) -> u64
        requires page { place.page < 4096 }
        requires index { place.index < 64 }
        ensures { result ≡ address_of (base_made (object_shaped self) place) % 2 ^ 64 }
    {
        let word = PAGE_WORDS * place.page + self.first_word(place.index);
        HEAP_START + WORD_BYTES * word
    }
}
