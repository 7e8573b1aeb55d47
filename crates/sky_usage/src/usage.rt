//! How many bytes of each object are in use.

ghost use Rattle.std.specs.Prelude.{◌≡◌, ◌^◌, ◌<◌, ◌↔◌, IsTrue, OnErr, OnOk, length, min};
ghost use Rattle.std.specs.FinMap.{empty, entries, len};

use crate::iter::UsageIter;
use sky_base::{Dir, Location, NoMemory, SegName};
use std::alloc::Global;
use std::collections::BTreeMap;
use std::marker::Model;

/// How many bytes of each object are in use. Contracts see it as a finite map from the names of objects to these
/// counts. A name of which nothing is in use isn't there, and takes no room.
///
/// `raise`, `lower` and `live` take time in the logarithm of the number of names, and `total` goes over all names.
#[derive(Drop)]
pub struct Usage {
    counts: BTreeMap<SegName, u64>,
}

impl Model for Usage {
    ghost use Rattle.std.specs.Prelude.{ℕ};
    ghost use Rattle.std.specs.FinMap.{FinMap, code, from_entries};
    ghost use Rattle.std.specs.Coded.{coded_ℕ};
    ghost use Rattle.sky_base.specs.Order.{name_order};
    ghost use Rattle.sky_base.specs.contracts.object.SegName as name;

    ghost Value = { FinMap name_order ℕ };

    ghost coded = { code name.the_row.coded coded_ℕ };

    ghost use Rattle.sky_usage.specs.Counts.{IsKept};

    ghost view = { λ u. from_entries u.counts.entries };

    ghost invariant = { λ u. IsKept u.counts.entries };
}

impl Usage {
    ghost use Rattle.sky_usage.specs.LiveBytes.{HasNoZero, counted, lowered, max_counted, name_of, raised, total_of, with_count};

    /// Nothing is in use.
    pub fn new(alloc: Global) -> Usage
        ensures { result ≡ empty }
    {
        Usage {
            counts: BTreeMap::new(alloc),
        }
    }

    /// A location is in use: its length is added to what is counted for its object. Where that would pass 2^64 - 1, the
    /// count stands there.
    ///
    /// `NoMemory` where there is no memory for a name that wasn't there. All is as it was then.
    pub fn raise(&mut self, at: Location) -> Result<(), NoMemory>
        ensures ok { OnOk result (self.new ≡ raised self.old at) }
        ensures err { OnErr result (self.new ≡ self.old) }
        ensures absent { OnErr result (counted self.old (name_of at) ≡ 0) }
    {
        let name = at.name();
        let count = self.live(name).saturating_add(u64::from(at.length));
        self.count(name, count)
    }

    /// A location is no longer in use: its length is taken off what is counted for its object. Where less is counted,
    /// 0 is left. No memory is needed.
    pub fn lower(&mut self, at: Location)
        ensures { self.new ≡ lowered self.old at }
    {
        let name = at.name();
        let count = self.live(name).saturating_sub(u64::from(at.length));
        // A name that has a count already takes no more memory.
        let _ = self.count(name, count);
    }

    /// Counts so many bytes for a name. `NoMemory` only where the name wasn't there, and then all is as it was.
    fn count(&mut self, name: SegName, count: u64) -> Result<(), NoMemory>
        ensures ok { OnOk result (self.new ≡ with_count self.old name count) }
        ensures err { OnErr result (self.new ≡ self.old) }
        ensures absent { OnErr result (counted self.old name ≡ 0) }
        ensures wanted { OnErr result (0 < count) }
    {
        if count == 0 {
            self.counts.remove(&name);
            return Ok(());
        }
        self.counts.insert(name, count)?;
        Ok(())
    }

    /// How many bytes of an object are in use, 0 where nothing is counted for it.
    pub fn live(&self, name: SegName) -> u64
        ensures count { result ≡ counted self.now name }
        ensures no_zero { HasNoZero self.now }
    {
        self.counts.get(&name).copied().unwrap_or(0)
    }

    /// How many names there are of which something is in use.
    pub fn len(&self) -> usize
        ensures { result ≡ len self.now }
    {
        self.counts.len()
    }

    /// Whether nothing is in use.
    pub fn is_empty(&self) -> bool
        ensures { IsTrue result ↔ (self.now ≡ empty) }
    {
        self.counts.len() == 0
    }

    /// The names and how many bytes of each are in use, in the order of the names.
    pub fn iter(&self) -> UsageIter<'_>
        ensures entries { result ≡ entries self.now }
        ensures fits { length result < 2 ^ 63 }
    {
        UsageIter::of(self.counts.iter())
    }

    /// How many bytes are in use in the objects of a directory together. Where there would be more than 2^64 - 1, it is
    /// that number.
    pub fn total(&self, dir: Dir) -> u64
        ensures { result ≡ min (total_of self.now dir) max_counted }
    {
        let mut total: u64 = 0;
        for (name, count) in self.iter() {
            if name.dir == dir {
                total = total.saturating_add(count);
            }
        }
        total
    }
}
