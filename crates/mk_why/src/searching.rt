//! The search, breadth first: from the roots, and then from each allocation that was found, in the order in which they
//! were, so that each is found through the fewest links.
ghost use Rattle.std.specs.Prelude.{◌≡◌, ◌+◌, ◌*◌, ◌<◌, ◌≤◌, ℕ, None, length, slice_index};
ghost use Rattle.mk_core.specs.Cycles.{PointsIntoAllocation};
ghost use Rattle.mk_why.specs.{declared.kept.Root.Root, Chains.{IsRoot, word_of_root}};
ghost use Rattle.mk_why.specs.Searching.{AreScannedFrom, AreWays, FindsMore, IsSearched, IsExplored, IsFound};
ghost use Rattle.mk_why.specs.Searching.{IsFoundThrough, IsNoted, IsSearch, IsWay, SearchesOn, entry_at, links_in};
ghost use Rattle.mk_why.specs.Searching.{links_of, root_numbered, root_word};
ghost use Rattle.mk_why.specs.Stops.{IsStill, LooksWhileStill, view_by, world_in};

use crate::found::{Found, Way};
use crate::kept::Root;
use crate::stepping::look_at;
use crate::tables::Tables;
use crate::values::{base_pointed, scanned_size};
use mk_core::Word;
use mk_geom::{HEAP_START, WORD_BYTES};
use mk_sweep::lower::cycles::{GLOBALS, REGISTERS};
use mk_sweep::lower::words::{Stopped, Words};

/// Notes what a value points into, as found in this way.
fn note_value(words: &Words, stop: &mut Stopped, tables: &mut Tables, value: u64, found: Found)
    requires one_table { stop.old.pass.table ≡ words.now }
    requires still { IsStill stop.old.pass }
    requires search { IsSearch words.now.config (view_by stop.old.pass) tables.old found.links }
    requires shallow { found.links ≤ tables.old.count }
    requires way { (b : ℕ) → PointsIntoAllocation words.now.config (world_in (view_by stop.old.pass)) value b
        → IsWay words.now.config (view_by stop.old.pass) tables.old.found.items found.way found.links b }
    ensures on { SearchesOn words.now.config stop.old stop.new tables.old tables.new found.links }
    ensures noted { IsNoted words.now.config (view_by stop.old.pass) tables.new.found.items value found.links }
{
    words.is_within_limits();
    let Some(base) = base_pointed(words, stop, value) else {
        return;
    };
    tables.note(base, found);
}

/// The name of a root's word.
fn root_word(root: Root) -> Word
    ensures { result ≡ root_word root }
{
    match root {
        Root::Register { caller, register } => Word::Reg { caller, register },
        Root::Global(global) => Word::Global(global),
    }
}

/// Looks at a root, and notes what it points into.
fn search_root(words: &Words, stop: &mut Stopped, tables: &mut Tables, root: Root)
    requires one_table { stop.old.pass.table ≡ words.now }
    requires still { IsStill stop.old.pass }
    requires search { IsSearch words.now.config (view_by stop.old.pass) tables.old 0 }
    requires root { IsRoot words.now.config root }
    ensures on { SearchesOn words.now.config stop.old stop.new tables.old tables.new 0 }
    ensures noted { IsNoted words.now.config (view_by stop.old.pass) tables.new.found.items
        (word_of_root (view_by stop.old.pass).words root) 0 }
{
    let value = look_at(words, stop, root_word(root));
    let way = Way::Start(root);
    note_value(words, stop, tables, value, Found { way, links: 0 });
}

/// The root of this number. The registers of this many callers come before the globals.
fn root_numbered(callers: u64, number: u64) -> Root
    requires { callers ≤ 16 }
    ensures { result ≡ root_numbered callers number }
{
    let registers = REGISTERS * callers;
    if number < registers {
        Root::Register {
            caller: number / REGISTERS,
            register: number % REGISTERS,
        }
    } else {
        Root::Global(number - registers)
    }
}

/// Looks at all roots.
fn search_roots(words: &Words, stop: &mut Stopped, tables: &mut Tables)
    requires one_table { stop.old.pass.table ≡ words.now }
    requires still { IsStill stop.old.pass }
    requires search { IsSearch words.now.config (view_by stop.old.pass) tables.old 0 }
    ensures on { SearchesOn words.now.config stop.old stop.new tables.old tables.new 0 }
    ensures noted { (root : Root) → IsRoot words.now.config root
        → IsNoted words.now.config (view_by stop.old.pass) tables.new.found.items
        (word_of_root (view_by stop.old.pass).words root) 0 }
{
    words.is_within_limits();
    let callers = words.callers();
    for number in 0..REGISTERS * callers + GLOBALS {
        search_root(words, stop, tables, root_numbered(callers, number));
    }
}

/// Looks at this many words of the allocation that begins at a heap word, and notes what each points into, through one
/// link more.
fn search_words(
    words: &Words,
    stop: &mut Stopped,
    tables: &mut Tables,
    base: u64,
    size: u64,
    links: u64,
)
    requires one_table { stop.old.pass.table ≡ words.now }
    requires still { IsStill stop.old.pass }
    requires search { IsSearch words.now.config (view_by stop.old.pass) tables.old (links + 1) }
    requires found { IsFoundThrough tables.old.found.items base links }
    requires shallow { links + 1 ≤ tables.old.count }
    requires within { base + size ≤ 64 * words.now.config.pages }
    requires scanned { AreScannedFrom words.now.config (view_by stop.old.pass) base size }
    ensures on { SearchesOn words.now.config stop.old stop.new tables.old tables.new (links + 1) }
    ensures noted { (i : ℕ) → i < size → IsNoted words.now.config (view_by stop.old.pass) tables.new.found.items
        (slice_index (view_by stop.old.pass).words.heap (base + i)) (links + 1) }
{
    words.is_within_limits();
    for i in 0..size {
        let word = base + i;
        let value = look_at(words, stop, Word::Heap(word));
        let way = Way::Link {
            link: HEAP_START + WORD_BYTES * word,
            from: base,
        };
        let found = Found {
            way,
            links: links + 1,
        };
        note_value(words, stop, tables, value, found);
    }
}

/// Searches from the allocation in a place of the queue.
fn search_from(words: &Words, stop: &mut Stopped, tables: &mut Tables, place: usize)
    requires one_table { stop.old.pass.table ≡ words.now }
    requires still { IsStill stop.old.pass }
    requires place { place < tables.old.count }
    requires search { IsSearch words.now.config (view_by stop.old.pass) tables.old (links_of tables.old place + 1) }
    ensures on { SearchesOn words.now.config stop.old stop.new tables.old tables.new (links_of tables.old place + 1) }
    ensures done { IsSearched words.now.config (view_by stop.old.pass) tables.new.found.items
        (slice_index tables.old.queue.items place) }
{
    let base = tables.queue.get(place);
    let Some(found) = tables.found.get(base as usize) else {
        return;
    };
    let size = scanned_size(words, stop, base);
    search_words(words, stop, tables, base, size, found.links);
}

/// Searches from each allocation of the queue.
fn search_queue(words: &Words, stop: &mut Stopped, tables: &mut Tables)
    requires one_table { stop.old.pass.table ≡ words.now }
    requires still { IsStill stop.old.pass }
    requires search { IsSearch words.now.config (view_by stop.old.pass) tables.old 0 }
    ensures on { LooksWhileStill stop.old stop.new }
    ensures size { length tables.new.found.items ≡ 64 * words.now.config.pages }
    ensures grows { FindsMore tables.old tables.new }
    ensures ways { AreWays words.now.config (view_by stop.old.pass) tables.new.found.items }
    ensures done { (base : ℕ) → IsFound tables.new.found.items base
        → IsSearched words.now.config (view_by stop.old.pass) tables.new.found.items base }
{
    let mut place = 0;
    while place < tables.count {
        search_from(words, stop, tables, place);
        place += 1;
    }
}

/// Finds each allocation to which there is a chain, by a shortest one.
pub(crate) fn search(words: &Words, stop: &mut Stopped, tables: &mut Tables)
    requires one_table { stop.old.pass.table ≡ words.now }
    requires still { IsStill stop.old.pass }
    requires size { length tables.old.found.items ≡ 64 * words.now.config.pages }
    requires none { (base : ℕ) → entry_at tables.old.found.items base ≡ None }
    requires empty { tables.old.count ≡ 0 }
    ensures on { LooksWhileStill stop.old stop.new }
    ensures size { length tables.new.found.items ≡ 64 * words.now.config.pages }
    ensures explored { IsExplored words.now.config (view_by stop.old.pass) tables.new.found.items }
{
    search_roots(words, stop, tables);
    search_queue(words, stop, tables);
}
