//! Header words: what a page is, in one word.
ghost use Rattle.std.specs.Prelude.{◌≡◌, ◌≢◌, Some, IfSome, IfNone};
ghost use Rattle.mk_geom.specs.declared.headers.Header.{Header};
ghost use Rattle.mk_geom.specs.Addresses.{IsInRange, word_of, header_of, is_unmapped_header};

/// What a page is. Classes are 0 to 7. A run has 1 to 64 pages. A distance counts the pages from the head of the run to
/// this one, 1 to 63. The later pages of a leaf run are as those of another mapped run.
#[derive(Clone, Copy, Debug, PartialEq, Eq)]
pub enum Header {
    Free,
    /// A block of cells of a class.
    Block(u64),
    /// The head page of a run.
    Run { pages: u64, mapped: bool },
    /// Another page of a run.
    Later { distance: u64, mapped: bool },
    /// A block of cells of a class for leaf objects.
    LeafBlock(u64),
    /// The head page of a mapped run for a leaf object.
    LeafRun { pages: u64 },
}

/// The header word that says this.
pub fn encode(header: Header) -> u64
    requires { IsInRange header }
    ensures exact { result ≡ word_of header }
    ensures round_trip { header_of result ≡ Some header }
{
    match header {
        Header::Free => 0,
        Header::Block(class) => 1 + class,
        Header::Run { pages, mapped } => 16 * pages + if mapped { 9 } else { 11 },
        Header::Later { distance, mapped } => 16 * distance + if mapped { 10 } else { 12 },
        Header::LeafBlock(class) => 16 * class + 13,
        Header::LeafRun { pages } => 16 * pages + 14,
    }
}

/// What a header word says; none if the word is no header word. Free pages and blocks come first, since most pages are
/// one of these.
#[inline(always)]
pub fn decode(word: u64) -> Option<Header>
    ensures exact { result ≡ header_of word }
    ensures some { IfSome result (λ header. IsInRange header × (word_of header ≡ word)) }
    ensures none { IfNone result ((header : Header) → IsInRange header → word_of header ≢ word) }
{
    if word == 0 {
        return Some(Header::Free);
    }
    if word <= 8 {
        return Some(Header::Block(word - 1));
    }
    let parameter = word / 16;
    match (word % 16, parameter) {
        (9, 1..=64) => Some(Header::Run {
            pages: parameter,
            mapped: true,
        }),
        (10, 1..=63) => Some(Header::Later {
            distance: parameter,
            mapped: true,
        }),
        (11, 1..=64) => Some(Header::Run {
            pages: parameter,
            mapped: false,
        }),
        (12, 1..=63) => Some(Header::Later {
            distance: parameter,
            mapped: false,
        }),
        (13, 0..=7) => Some(Header::LeafBlock(parameter)),
        (14, 1..=64) => Some(Header::LeafRun { pages: parameter }),
        _ => None,
    }
}

/// Whether the header word is that of an unmapped run's page. For most words the low four bits are enough to tell.
#[inline(always)]
pub fn is_unmapped(word: u64) -> bool
    ensures { result ≡ is_unmapped_header (header_of word) }
{
    let kind = word % 16;
    if !(11..=12).contains(&kind) {
        return false;
    }
    // A run has 64 pages at most, of which one is its head.
    let most = if kind == 11 { 64 } else { 63 };
    (1..=most).contains(&(word / 16))
}
