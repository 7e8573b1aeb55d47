//! The entries of a directory.

ghost use Rattle.std.specs.Prelude.{◌≡◌, ◌^◌, ◌<◌, ◌≤◌, ◌↔◌, [], Err, IfNone, IfOk, IfSome, IsTrue, None, OnErr, OnOk, filter, length, nat_lt, sum_by};
ghost use Rattle.sky_base.specs.Limits.{max_cookie, max_directory_bytes};
ghost use Rattle.sky_base.specs.Listing.{fileid_at, new_listing, size_of_listing, size_of_name, with_entry, without_entry};
ghost use Rattle.sky_dir.specs.Rows.{is_crowded, listing_of_rows};

use crate::fault::DirFault;
use crate::indexed::Indexed;
use crate::kind::Kind;
use crate::page::PageIter;
use sky_base::{Name, NoMemory};
use std::alloc::Global;
use std::marker::Model;

/// The entries of a directory, in the order in which they were added, and the cookie of the one that is
/// added next. Contracts see it as a `Listing`.
///
/// Where cookies and names are as the calls leave them, the entries are kept by two maps, one from cookies
/// and one from names: each cookie is below all behind it and below the next one, and no name stands twice.
/// So each name is held twice. `find`, `add`, `replace` and `drop_name` take time in the logarithm of the
/// number of entries, and so does the first entry of a `page`.
///
/// A list that `of` is given in another state is kept as it came: `find`, `replace`, `drop_name` and `page` go
/// over it, and `replace` and `drop_name` move what stands behind the entry that goes. `add` puts the entry at
/// its end.
///
/// `len`, `size`, `next_cookie` and `is_crowded` go over nothing.
#[derive(Drop)]
pub struct Entries {
    kind: Kind,
    size: u64,
}

impl Model for Entries {
    ghost use Rattle.std.specs.Prelude.{◌≡◌};
    ghost use Rattle.sky_base.specs.Listing.{Listing, size_of_listing};

    ghost Value = { Listing };

    ghost use Rattle.sky_dir.specs.Kinds.{listing_in};

    ghost view = { λ a. listing_in a.kind };

    ghost invariant = { λ a. a.size ≡ size_of_listing (listing_in a.kind) };
}

/// What each entry has beside its name, in bytes.
const ENTRY_OVERHEAD: u64 = 18;

/// The bytes of the rows together, where there are fewer than 2^64.
fn size_of(rows: &[(u64, Name, u64)]) -> Option<u64>
    ensures size { IfSome result (λ size. size ≡ sum_by (λ row. size_of_name row.1) rows.now) }
    ensures none { IfNone result (2 ^ 64 ≤ sum_by (λ row. size_of_name row.1) rows.now) }
{
    let mut size: u64 = 0;
    for row in rows {
        size = size.checked_add(ENTRY_OVERHEAD + row.1.as_bytes().len() as u64)?;
    }
    Some(size)
}

impl Entries {
    /// The most bytes that a directory has.
    pub const MAX: u64 = 1 << 20;

    /// The next cookie of a directory that has given out its last one.
    pub const MAX_COOKIE: u64 = 1 << 62;

    /// An empty directory, whose next cookie is 3. The cookies 1 and 2 are those of `.` and `..`.
    pub fn new(alloc: Global) -> Entries
        ensures { result ≡ new_listing }
    {
        Entries {
            kind: Kind::Indexed(Indexed::new(alloc)),
            size: 0,
        }
    }

    /// The directory with these cookies, names and fileids and that next cookie, whatever they are. It takes
    /// time in the length of the list, times its logarithm.
    ///
    /// `NoMemory` where there is no memory for it, or where the sizes of the entries pass 2^64. The list is
    /// given up then.
    pub fn of(alloc: Global, list: Vec<(u64, Name, u64)>, next: u64) -> Result<Entries, NoMemory>
        requires { next ≤ max_cookie }
        ensures { IfOk result (λ entries. entries ≡ listing_of_rows list.items next) }
    {
        let Some(size) = size_of(list.as_slice()) else {
            return Err(NoMemory);
        };
        let kind = Kind::of(alloc, list, next)?;
        Ok(Entries { kind, size })
    }

    /// How many entries there are.
    pub fn len(&self) -> usize
        ensures { result ≡ length self.now.entries }
    {
        self.kind.len()
    }

    /// Whether there are none.
    pub fn is_empty(&self) -> bool
        ensures { IsTrue result ↔ (self.now.entries ≡ []) }
    {
        self.kind.len() == 0
    }

    /// The bytes of the entries together: 18 each and those of the name.
    pub fn size(&self) -> u64
        ensures { result ≡ size_of_listing self.now }
    {
        self.size
    }

    /// The bytes of the entries without the first one of a name.
    pub fn size_without(&self, name: &[u8]) -> u64
        ensures { result ≡ size_of_listing (without_entry self.now name.now) }
    {
        match self.kind.find(name) {
            Some(_) => self.size - ENTRY_OVERHEAD - name.len() as u64,
            None => self.size,
        }
    }

    /// The cookie of the entry that is added next.
    pub fn next_cookie(&self) -> u64
        ensures { result ≡ self.now.next_cookie }
    {
        self.kind.next_cookie()
    }

    /// Whether an entry of this name would make the directory larger than `MAX`, or whether no cookie is left.
    pub fn is_crowded(&self, name: &[u8]) -> bool
        ensures { result ≡ is_crowded self.now name.now }
    {
        let more = ENTRY_OVERHEAD + name.len() as u64;
        let fits = more <= Entries::MAX && self.size <= Entries::MAX - more;
        !fits || self.kind.next_cookie() >= Entries::MAX_COOKIE
    }

    /// The fileid that a name stands for: that of the first entry of the name.
    pub fn find(&self, name: &[u8]) -> Option<u64>
        ensures { result ≡ fileid_at self.now name.now }
    {
        self.kind.find(name)
    }

    /// Adds an entry of a name that isn't there, behind all others. It takes the next cookie, which is answered.
    ///
    /// `Crowded` where the directory would have more than `MAX` bytes or the next cookie is `MAX_COOKIE`, and
    /// `Memory` where there is no memory. All is as it was then.
    pub fn add(&mut self, name: Name, fileid: u64) -> Result<u64, DirFault>
        requires { fileid_at self.old name ≡ None }
        ensures crowded { (result ≡ Err DirFault.Crowded) ↔ IsTrue (is_crowded self.old name) }
        ensures cookie { IfOk result (λ cookie. cookie ≡ self.old.next_cookie) }
        ensures added { OnOk result (self.new ≡ with_entry self.old name fileid) }
        ensures err { OnErr result (self.new ≡ self.old) }
    {
        if self.is_crowded(name.as_bytes()) {
            return Err(DirFault::Crowded);
        }
        let size = self.size + ENTRY_OVERHEAD + name.as_bytes().len() as u64;
        let cookie = self.kind.add(name, fileid)?;
        self.size = size;
        Ok(cookie)
    }

    /// Takes the first entry of a name away, and answers its fileid. Without such an entry all is as it was.
    /// No memory is needed.
    pub fn drop_name(&mut self, name: &[u8]) -> Option<u64>
        ensures fileid { result ≡ fileid_at self.old name.now }
        ensures dropped { self.new ≡ without_entry self.old name.now }
    {
        match self.kind.drop_name(name) {
            Some(fileid) => {
                self.size -= ENTRY_OVERHEAD + name.len() as u64;
                Some(fileid)
            }
            None => None,
        }
    }

    /// The first entry of the name goes where there is one, and one of the name and this fileid comes behind
    /// all others. It takes the next cookie, so that a page that goes on behind the old entry shows it.
    ///
    /// The directory may pass `MAX` by the new entry, as it does for a moment where an entry gets another
    /// name and its old one goes after.
    ///
    /// `NoMemory` where there is no memory for the new entry. All is as it was then.
    pub fn replace(&mut self, name: Name, fileid: u64) -> Result<(), NoMemory>
        requires cookie { self.old.next_cookie < max_cookie }
        requires size { size_of_listing self.old ≤ max_directory_bytes }
        ensures replaced { OnOk result (self.new ≡ with_entry (without_entry self.old name) name fileid) }
        ensures err { OnErr result (self.new ≡ self.old) }
    {
        let more = ENTRY_OVERHEAD + name.as_bytes().len() as u64;
        let size = self.size_without(name.as_bytes()) + more;
        self.kind.replace(name, fileid)?;
        self.size = size;
        Ok(())
    }

    /// The entries with a cookie greater than `after`, in order.
    pub fn page(&self, after: u64) -> PageIter<'_>
        ensures entries { result ≡ filter (λ e. nat_lt after e.cookie) self.now.entries }
        ensures fits { length result < 2 ^ 64 }
    {
        self.kind.page(after)
    }
}
