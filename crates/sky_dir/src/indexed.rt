//! A directory as the calls leave it, kept by two maps.

ghost use Rattle.std.specs.Prelude.{◌≡◌, ◌+◌, ◌^◌, ◌<◌, ◌≤◌, IfNone, IfOk, IfSome, OnErr, OnOk, None, filter, length, map, nat_lt};
ghost use Rattle.sky_base.specs.Limits.{max_cookie};
ghost use Rattle.sky_base.specs.Listing.{new_listing, fileid_at, with_entry, without_entry};
ghost use Rattle.sky_dir.specs.Items.{item_entry};
ghost use Rattle.sky_dir.specs.Kept.{IsIndexed};
ghost use Rattle.sky_dir.specs.Orderly.{AscendsBelow, IsOrderly};
ghost use Rattle.sky_dir.specs.Rows.{entry_of, listing_of_rows};

use crate::page::PageIter;
use sky_base::{Name, NoMemory};
use std::alloc::Global;
use std::collections::BTreeMap;
use std::marker::Model;
use std::ops::Bound;

/// What the map has at a cookie.
#[derive(Drop)]
pub struct Item {
    pub name: Name,
    pub fileid: u64,
}

/// A directory with cookies and names as the calls leave them: each cookie is below all behind it and below
/// the next one, and no name stands twice. It is a map from cookies to entries, and one from names to cookies.
#[derive(Drop)]
pub struct Indexed {
    items: BTreeMap<u64, Item>,
    index: BTreeMap<Vec<u8>, u64>,
    next: u64,
    alloc: Global,
}

impl Model for Indexed {
    ghost use Rattle.sky_base.specs.Listing.{Listing};

    ghost Value = { Listing };

    ghost use Rattle.sky_dir.specs.Kept.{listing_kept, IsKept};

    ghost view = { λ a. listing_kept a.items.entries a.next };

    ghost invariant = { λ a. IsKept a.items.entries a.index a.next };
}

/// The index of rows that are as directories have them. `None` where a cookie isn't above the one before it
/// and below the next cookie, or where a name stands twice.
pub fn index_of(
    alloc: Global,
    rows: &[(u64, Name, u64)],
    next: u64,
) -> Result<Option<BTreeMap<Vec<u8>, u64>>, NoMemory>
    ensures some { IfOk result (λ found. IfSome found (λ index. IsIndexed (map entry_of rows.now) index next)) }
    ensures none { IfOk result (λ found. IfNone found (¬ (IsOrderly next (map entry_of rows.now)))) }
{
    let mut index = BTreeMap::new(alloc);
    let mut least = 0;
    for row in rows {
        if row.0 < least || row.0 >= next {
            return Ok(None);
        }
        let key = Vec::from_slice(alloc, row.1.as_bytes())?;
        if index.insert(key, row.0)?.is_some() {
            return Ok(None);
        }
        least = row.0 + 1;
    }
    Ok(Some(index))
}

/// The rows by their cookies, which ascend.
fn items_of(alloc: Global, mut rows: Vec<(u64, Name, u64)>) -> Result<BTreeMap<u64, Item>, NoMemory>
    requires { AscendsBelow (2 ^ 64) (map entry_of rows.items) }
    ensures { IfOk result (λ items. map item_entry items.entries ≡ map entry_of rows.items) }
{
    let mut items = BTreeMap::new(alloc);
    while let Some((cookie, name, fileid)) = rows.pop() {
        items.insert(cookie, Item { name, fileid })?;
    }
    Ok(items)
}

impl Indexed {
    /// The directory with these rows, which have this index.
    pub fn of(
        alloc: Global,
        rows: Vec<(u64, Name, u64)>,
        index: BTreeMap<Vec<u8>, u64>,
        next: u64,
    ) -> Result<Indexed, NoMemory>
        requires indexed { IsIndexed (map entry_of rows.items) index next }
        requires bound { next ≤ max_cookie }
        ensures { IfOk result (λ d. d ≡ listing_of_rows rows.items next) }
    {
        let items = items_of(alloc, rows)?;
        Ok(Indexed {
            items,
            index,
            next,
            alloc,
        })
    }

    /// An empty directory, whose next cookie is 3.
    pub fn new(alloc: Global) -> Indexed
        ensures { result ≡ new_listing }
    {
        Indexed {
            items: BTreeMap::new(alloc),
            index: BTreeMap::new(alloc),
            next: 3,
            alloc,
        }
    }

    /// How many entries there are.
    pub fn len(&self) -> usize
        ensures { result ≡ length self.now.entries }
    {
        self.items.len()
    }

    /// The cookie of the entry that is added next.
    pub fn next_cookie(&self) -> u64
        ensures { result ≡ self.now.next_cookie }
    {
        self.next
    }

    /// The fileid of a name's entry.
    pub fn find(&self, name: &[u8]) -> Option<u64>
        ensures { result ≡ fileid_at self.now name.now }
    {
        match self.index.get(name) {
            Some(cookie) => self.items.get(cookie).map(|item| item.fileid),
            None => None,
        }
    }

    /// Adds an entry, and answers its cookie. `NoMemory` leaves all as it was.
    pub fn add(&mut self, name: Name, fileid: u64) -> Result<u64, NoMemory>
        requires absent { fileid_at self.old name ≡ None }
        requires room { self.old.next_cookie < max_cookie }
        ensures cookie { IfOk result (λ cookie. cookie ≡ self.old.next_cookie) }
        ensures added { OnOk result (self.new ≡ with_entry self.old name fileid) }
        ensures err { OnErr result (self.new ≡ self.old) }
    {
        let cookie = self.next;
        self.replace(name, fileid)?;
        Ok(cookie)
    }

    /// Takes a name's entry away, and answers its fileid.
    pub fn drop_name(&mut self, name: &[u8]) -> Option<u64>
        ensures fileid { result ≡ fileid_at self.old name.now }
        ensures dropped { self.new ≡ without_entry self.old name.now }
    {
        match self.index.remove(name) {
            Some(cookie) => self.items.remove(&cookie).map(|item| item.fileid),
            None => None,
        }
    }

    /// The first entry of the name goes where there is one, and one of the name and this fileid goes last.
    /// `NoMemory` leaves all as it was.
    pub fn replace(&mut self, name: Name, fileid: u64) -> Result<(), NoMemory>
        requires { self.old.next_cookie < max_cookie }
        ensures replaced { OnOk result (self.new ≡ with_entry (without_entry self.old name) name fileid) }
        ensures err { OnErr result (self.new ≡ self.old) }
    {
        let cookie = self.next;
        let key = Vec::from_slice(self.alloc, name.as_bytes())?;
        self.items.insert(cookie, Item { name, fileid })?;
        let Ok(old) = self.index.insert(key, cookie) else {
            self.items.remove(&cookie);
            return Err(NoMemory);
        };
        if let Some(old) = old {
            self.items.remove(&old);
        }
        self.next = cookie + 1;
        Ok(())
    }

    /// The entries that have a greater cookie.
    pub fn page(&self, after: u64) -> PageIter<'_>
        ensures entries { result ≡ filter (λ e. nat_lt after e.cookie) self.now.entries }
        ensures fits { length result < 2 ^ 64 }
    {
        let range = (Bound::Excluded(after), Bound::Unbounded);
        PageIter::of_range(self.items.range(range))
    }
}
