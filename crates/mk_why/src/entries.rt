//! The entries of kept allocations, with the chains that lead to them.
ghost use Rattle.std.specs.Prelude.{◌≡◌, ◌<◌, ◌++◌, [], ◌∷◌, None, Some, IfOk, IfSome, OnOk, length, ℕ};
ghost use Rattle.mk_core.specs.declared.config.Config.{Config};
ghost use Rattle.mk_why.specs.{declared.found.Storage.Storage as StorageState, Searching.{AreEntriesBelow, IsLed}};
ghost use Rattle.mk_why.specs.Searching.{IsMadeOf, IsOneMore, root_of, step_back, IsTold};
ghost use Rattle.mk_why.specs.{Searching.{BeginApart, AreWays, IsWay, entry_at}, Stops.View};

use crate::found::{Found, Storage, Way};
use crate::kept::{Kept, Root};
use crate::tables::Tables;
use mk_never::NoMemory;
use std::alloc::Global;

/// Appends an element, if there is memory.
fn append<T: Drop>(list: &mut Vec<T>, element: T) -> Result<(), NoMemory>
    ensures { OnOk result (list.new.items ≡ list.old.items ++ element ∷ []) }
{
    Ok(list.push(element)?)
}

/// The link through which an allocation was found, and how the allocation that has it was found.
fn step_back(tables: &Tables, found: Found) -> Option<(u64, Found)>
    ensures exact { result ≡ step_back tables.now.found.items found }
    ensures less { IfSome result (λ back. back.1.links < found.links) }
{
    let Way::Link { link, from } = found.way else {
        return None;
    };
    let place = from as usize;
    if place >= tables.found.end() {
        return None;
    }
    let Some(before) = tables.found.get(place) else {
        return None;
    };
    if before.links < found.links {
        Some((link, before))
    } else {
        None
    }
}

/// The root at which a way starts.
fn root_of(way: Way) -> Option<Root>
    ensures { result ≡ root_of way }
{
    match way {
        Way::Start(root) => Some(root),
        Way::Link { .. } => None,
    }
}

/// The root and the links of the chain by which an allocation was found.
fn chain(tables: &Tables, alloc: Global, found: Found) -> Result<(Option<Root>, Vec<u64>), NoMemory>
    ensures { IfOk result (λ chain. (c : Config) (v : View) (b : ℕ) → AreWays c v tables.now.found.items → BeginApart v
        → IsWay c v tables.now.found.items found.way found.links b
        → IsLed c v b found.links chain.0 chain.1.items) }
{
    let mut links = Vec::new(alloc);
    let mut current = found;
    while let Some((link, before)) = step_back(tables, current) {
        append(&mut links, link)?;
        current = before;
    }
    links.reverse();
    Ok((root_of(current.way), links))
}

/// The entry of an allocation that was found so, if it was.
fn entry(
    tables: &Tables,
    alloc: Global,
    storage: Storage,
    found: Option<Found>,
) -> Result<Kept, NoMemory>
    ensures { IfOk result (λ entry. IsMadeOf tables.now.found.items storage found entry) }
{
    let Storage { address, words } = storage;
    let Some(found) = found else {
        let links = Vec::new(alloc);
        return Ok(Kept {
            address,
            words,
            root: None,
            links,
        });
    };
    let (root, links) = chain(tables, alloc, found)?;
    Ok(Kept {
        address,
        words,
        root,
        links,
    })
}

/// Adds the entry of the kept allocation that begins at a heap word, if one does.
fn push_entry(
    tables: &Tables,
    alloc: Global,
    base: usize,
    entries: &mut Vec<Kept>,
) -> Result<(), NoMemory>
    requires { base < length tables.now.found.items }
    ensures none { entry_at tables.now.kept.items base ≡ None → entries.new ≡ entries.old }
    ensures more { OnOk result ((s : StorageState) → entry_at tables.now.kept.items base ≡ Some s
        → IsOneMore tables.now.found.items s
        (entry_at tables.now.found.items base) entries.old.items entries.new.items) }
{
    let Some(storage) = tables.kept.get(base) else {
        return Ok(());
    };
    let kept = entry(tables, alloc, storage, tables.found.get(base))?;
    append(entries, kept)?;
    Ok(())
}

/// The entries of all kept allocations.
pub(crate) fn list_entries(tables: &Tables, alloc: Global) -> Result<Vec<Kept>, NoMemory>
    ensures kept { IfOk result (λ entries. (c : Config) (v : View)
        → IsTold c tables.now.found.items tables.now.kept.items v
        → AreEntriesBelow c v (length tables.now.kept.items) entries.items) }
    ensures none { ((base : ℕ) → entry_at tables.now.kept.items base ≡ None)
        → IfOk result (λ entries. entries.items ≡ []) }
{
    let mut entries = Vec::new(alloc);
    for base in 0..tables.kept.end() {
        push_entry(tables, alloc, base, &mut entries)?;
    }
    Ok(entries)
}
