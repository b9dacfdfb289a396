//! What is kept of a heap while a trace is played on it: what is held and quarantined, the most that it ever was, and
//! the ages of what was released.

ghost use Rattle.std.specs.Prelude.{◌≡◌, ◌<◌, [], nat_le, not, sum_by, if◌then◌else◌, OnOk};
ghost use Rattle.mk_core.specs.Counts.{in_a_word};
ghost use Rattle.mk_trace.specs.{Ledgers.{Notes, aged, objects_kept, risen, weighed_anew}, Peaks.with_one};

use mk_geom::Cell;
use mk_never::NoMemory;
use std::alloc::Global;

/// Words of storage, and the most that they ever were. A number above 2^64 - 1 stands as 2^64 - 1.
#[derive(Clone, Copy)]
pub(crate) struct Peak {
    pub(crate) now: u64,
    pub(crate) most: u64,
}

impl Peak {
    fn zero() -> Peak
        ensures now { result.now ≡ 0 }
        ensures most { result.most ≡ 0 }
    {
        Peak { now: 0, most: 0 }
    }

    fn rise(&mut self, words: u64)
        ensures { self.new ≡ risen self.old words }
    {
        self.now = self.now.saturating_add(words);
        self.most = self.most.max(self.now);
    }
}

/// A freed object: its cell, the words of its storage, those of a large object's, whose addresses stay reserved, and
/// how many cycles have ended since it was freed.
#[derive(Clone, Copy)]
pub(crate) struct FreedObject {
    pub(crate) cell: Cell,
    pub(crate) storage: u64,
    pub(crate) reserved: u64,
    pub(crate) age: u64,
}

impl FreedObject {
    pub(crate) fn new(cell: Cell, storage: u64) -> FreedObject
        ensures cell { result.cell ≡ cell }
        ensures storage { result.storage ≡ storage }
        ensures reserved { result.reserved ≡ (if not (nat_le storage 32) then storage else 0) }
        ensures age { result.age ≡ 0 }
    {
        let reserved = if storage > 32 { storage } else { 0 };
        FreedObject {
            cell,
            storage,
            reserved,
            age: 0,
        }
    }

    /// It, where one more cycle has ended.
    pub(crate) fn aged(self) -> FreedObject
        ensures { result ≡ aged self }
    {
        FreedObject {
            cell: self.cell,
            storage: self.storage,
            reserved: self.reserved,
            age: self.age.saturating_add(1),
        }
    }
}

/// What is kept of freed objects.
#[derive(Drop)]
pub(crate) struct Freed {
    pub(crate) quarantined: Peak,
    pub(crate) reserved: Peak,
    /// Those that aren't released yet.
    pub(crate) quarantine: Vec<FreedObject>,
    /// How many cycles have ended.
    pub(crate) ends: u64,
    /// Ages, ascending, and how many objects were released at each.
    pub(crate) ages: Vec<(u64, u64)>,
}

impl Freed {
    fn new(alloc: Global) -> Freed
        ensures quarantined { result.quarantined ≡ record { now = 0; most = 0 } }
        ensures reserved { result.reserved ≡ record { now = 0; most = 0 } }
        ensures objects { objects_kept result ≡ [] }
        ensures ages { result.ages.items ≡ [] }
        ensures ends { result.ends ≡ 0 }
    {
        Freed {
            quarantined: Peak::zero(),
            reserved: Peak::zero(),
            quarantine: Vec::new(alloc),
            ends: 0,
            ages: Vec::new(alloc),
        }
    }

    /// An object was freed, if there is one.
    pub(crate) fn note(&mut self, object: Option<FreedObject>) -> Result<(), NoMemory>
        ensures { OnOk result (Notes self.old object self.new) }
    {
        match object {
            Some(object) => {
                self.quarantined.rise(object.storage);
                self.reserved.rise(object.reserved);
                Ok(self.quarantine.push(object)?)
            }
            None => {
                self.quarantined.rise(0);
                self.reserved.rise(0);
                Ok(())
            }
        }
    }

    /// These are left, where this many cycles have ended.
    pub(crate) fn keep(&mut self, kept: Vec<FreedObject>, ends: u64)
        ensures quarantined { self.new.quarantined
            ≡ weighed_anew (λ object. object.storage) kept.items self.old.quarantined }
        ensures reserved { self.new.reserved
            ≡ weighed_anew (λ object. object.reserved) kept.items self.old.reserved }
        ensures objects { objects_kept self.new ≡ kept.items }
        ensures ages { self.new.ages.items ≡ self.old.ages.items }
        ensures ends { self.new.ends ≡ ends }
    {
        let (storage, reserved) = totals_of(kept.as_slice());
        self.quarantined.now = storage;
        self.reserved.now = reserved;
        self.quarantine = kept;
        self.ends = ends;
    }
}

/// The words of their storage, and those of the large ones.
fn totals_of(kept: &[FreedObject]) -> (u64, u64)
    ensures storage { result.0 ≡ in_a_word (sum_by (λ object. object.storage) kept.now) }
    ensures reserved { result.1 ≡ in_a_word (sum_by (λ object. object.reserved) kept.now) }
{
    let mut storage: u64 = 0;
    let mut reserved: u64 = 0;
    for object in kept {
        storage = storage.saturating_add(object.storage);
        reserved = reserved.saturating_add(object.reserved);
    }
    (storage, reserved)
}

#[derive(Drop)]
pub(crate) struct Ledger {
    /// The most that was ever held.
    pub(crate) held: u64,
    pub(crate) freed: Freed,
}

impl Ledger {
    pub(crate) fn new(alloc: Global) -> Ledger
        ensures held { result.held ≡ 0 }
        ensures quarantined { result.freed.quarantined ≡ record { now = 0; most = 0 } }
        ensures reserved { result.freed.reserved ≡ record { now = 0; most = 0 } }
        ensures objects { objects_kept result.freed ≡ [] }
        ensures ages { result.freed.ages.items ≡ [] }
        ensures ends { result.freed.ends ≡ 0 }
    {
        Ledger {
            held: 0,
            freed: Freed::new(alloc),
        }
    }

    pub(crate) fn held_at_most(&self) -> u64
        ensures same { result ≡ self.now.held }
        ensures fits { result < 18446744073709551616 }
    {
        self.held
    }
}

/// Counts one more of an age among pairs of an age and how many have it, ascending.
pub(crate) fn count_age(ages: &mut Vec<(u64, u64)>, age: u64) -> Result<(), NoMemory>
    ensures { OnOk result (ages.new.items ≡ with_one ages.old.items age) }
{
    for place in 0..ages.len() {
        let (found, count) = ages[place];
        if age == found {
            ages[place] = (found, count.saturating_add(1));
            return Ok(());
        }
        if age < found {
            return Ok(ages.insert(place, (age, 1))?);
        }
    }
    Ok(ages.push((age, 1))?)
}
