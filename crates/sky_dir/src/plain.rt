//! A directory as a bare list.

ghost use Rattle.std.specs.Prelude.{◌≡◌, ◌+◌, ◌^◌, ◌<◌, ◌≤◌, IfOk, OnErr, OnOk, filter, length, nat_lt};
ghost use Rattle.sky_base.specs.Limits.{max_cookie};
ghost use Rattle.sky_base.specs.Listing.{fileid_at, with_entry, without_entry};
ghost use Rattle.sky_dir.specs.Rows.{listing_of_rows, place_in};

use crate::page::PageIter;
use sky_base::{Name, NoMemory};
use std::marker::Model;

/// A directory as a bare list, whatever cookies and names it has. Each call goes over the list.
#[derive(Drop)]
pub struct Plain {
    rows: Vec<(u64, Name, u64)>,
    next: u64,
}

impl Model for Plain {
    ghost use Rattle.std.specs.Prelude.{◌≤◌};
    ghost use Rattle.sky_base.specs.Limits.{max_cookie};
    ghost use Rattle.sky_base.specs.Listing.{Listing};
    ghost use Rattle.sky_dir.specs.Rows.{listing_of_rows};

    ghost Value = { Listing };

    ghost view = { λ a. listing_of_rows a.rows.items a.next };

    ghost invariant = { λ a. a.next ≤ max_cookie };
}

/// The place of the first row of a name.
fn place_of(rows: &[(u64, Name, u64)], name: &[u8]) -> Option<usize>
    ensures { result ≡ place_in name.now rows.now }
{
    for (i, row) in rows.iter().enumerate() {
        if row.1.as_bytes() == name {
            return Some(i);
        }
    }
    None
}

impl Plain {
    /// The directory with these rows and that next cookie.
    pub fn of(rows: Vec<(u64, Name, u64)>, next: u64) -> Plain
        requires { next ≤ max_cookie }
        ensures { result ≡ listing_of_rows rows.items next }
    {
        Plain { rows, next }
    }

    /// How many entries there are.
    pub fn len(&self) -> usize
        ensures { result ≡ length self.now.entries }
    {
        self.rows.len()
    }

    /// The cookie of the entry that is added next.
    pub fn next_cookie(&self) -> u64
        ensures { result ≡ self.now.next_cookie }
    {
        self.next
    }

    /// The fileid of the first entry of a name.
    pub fn find(&self, name: &[u8]) -> Option<u64>
        ensures { result ≡ fileid_at self.now name.now }
    {
        match place_of(self.rows.as_slice(), name) {
            Some(place) => Some(self.rows[place].2),
            None => None,
        }
    }

    /// Adds an entry, and answers its cookie. `NoMemory` leaves all as it was.
    pub fn add(&mut self, name: Name, fileid: u64) -> Result<u64, NoMemory>
        requires { self.old.next_cookie < max_cookie }
        ensures cookie { IfOk result (λ cookie. cookie ≡ self.old.next_cookie) }
        ensures added { OnOk result (self.new ≡ with_entry self.old name fileid) }
        ensures err { OnErr result (self.new ≡ self.old) }
    {
        let cookie = self.next;
        self.rows.push((cookie, name, fileid))?;
        self.next += 1;
        Ok(cookie)
    }

    /// Takes the first entry of a name away, and answers its fileid.
    pub fn drop_name(&mut self, name: &[u8]) -> Option<u64>
        ensures fileid { result ≡ fileid_at self.old name.now }
        ensures dropped { self.new ≡ without_entry self.old name.now }
    {
        match place_of(self.rows.as_slice(), name) {
            Some(place) => {
                let (_, _, fileid) = self.rows.remove(place);
                Some(fileid)
            }
            None => None,
        }
    }

    /// The first entry of the name goes where there is one, and one of the name and this fileid goes last.
    /// `NoMemory` leaves all as it was.
    pub fn replace(&mut self, name: Name, fileid: u64) -> Result<(), NoMemory>
        requires { self.old.next_cookie < max_cookie }
        ensures replaced { OnOk result (self.new ≡ with_entry (without_entry self.old name) name fileid) }
        ensures err { OnErr result (self.new ≡ self.old) }
    {
        let old = place_of(self.rows.as_slice(), name.as_bytes());
        self.rows.push((self.next, name, fileid))?;
        if let Some(place) = old {
            self.rows.remove(place);
        }
        self.next += 1;
        Ok(())
    }

    /// The entries that have a greater cookie.
    pub fn page(&self, after: u64) -> PageIter<'_>
        ensures entries { result ≡ filter (λ e. nat_lt after e.cookie) self.now.entries }
        ensures fits { length result < 2 ^ 64 }
    {
        PageIter::of_rows(self.rows.as_slice(), after)
    }
}
