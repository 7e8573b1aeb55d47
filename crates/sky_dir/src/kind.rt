//! The two ways in which a directory is kept.

ghost use Rattle.std.specs.Prelude.{◌≡◌, ◌^◌, ◌<◌, ◌≤◌, IfOk, IsTrue, OnErr, OnOk, None, filter, length, map, nat_lt};
ghost use Rattle.sky_base.specs.Limits.{max_cookie};
ghost use Rattle.sky_base.specs.Listing.{fileid_at, with_entry, without_entry};
ghost use Rattle.sky_dir.specs.Kinds.{is_by_maps, listing_in};
ghost use Rattle.sky_dir.specs.Orderly.{IsOrderly};
ghost use Rattle.sky_dir.specs.Rows.{entry_of, listing_of_rows};

use crate::indexed::{Indexed, index_of};
use crate::page::PageIter;
use crate::plain::Plain;
use sky_base::{Name, NoMemory};
use std::alloc::Global;

/// The two ways in which a directory is kept.
#[derive(Drop)]
pub enum Kind {
    /// By maps, where cookies and names are as the calls leave them.
    Indexed(Indexed),
    /// As it came, in all other cases.
    Plain(Plain),
}

impl Kind {
    /// The directory with these rows and that next cookie, by maps where they allow it.
    pub fn of(alloc: Global, rows: Vec<(u64, Name, u64)>, next: u64) -> Result<Kind, NoMemory>
        requires { next ≤ max_cookie }
        ensures same { IfOk result (λ kind. listing_in kind ≡ listing_of_rows rows.items next) }
        ensures by_maps { IfOk result (λ kind. IsOrderly next (map entry_of rows.items) → IsTrue (is_by_maps kind)) }
    {
        match index_of(alloc, rows.as_slice(), next)? {
            Some(index) => Ok(Kind::Indexed(Indexed::of(alloc, rows, index, next)?)),
            None => Ok(Kind::Plain(Plain::of(rows, next))),
        }
    }

    /// How many entries there are.
    pub fn len(&self) -> usize
        ensures { result ≡ length (listing_in self.now).entries }
    {
        match self {
            Kind::Indexed(directory) => directory.len(),
            Kind::Plain(directory) => directory.len(),
        }
    }

    /// The cookie of the entry that is added next.
    pub fn next_cookie(&self) -> u64
        ensures { result ≡ (listing_in self.now).next_cookie }
    {
        match self {
            Kind::Indexed(directory) => directory.next_cookie(),
            Kind::Plain(directory) => directory.next_cookie(),
        }
    }

    /// The fileid of the first entry of a name.
    pub fn find(&self, name: &[u8]) -> Option<u64>
        ensures { result ≡ fileid_at (listing_in self.now) name.now }
    {
        match self {
            Kind::Indexed(directory) => directory.find(name),
            Kind::Plain(directory) => directory.find(name),
        }
    }

    /// Adds an entry, and answers its cookie. `NoMemory` leaves all as it was.
    pub fn add(&mut self, name: Name, fileid: u64) -> Result<u64, NoMemory>
        requires absent { fileid_at (listing_in self.old) name ≡ None }
        requires room { (listing_in self.old).next_cookie < max_cookie }
        ensures cookie { IfOk result (λ cookie. cookie ≡ (listing_in self.old).next_cookie) }
        ensures added { OnOk result (listing_in self.new ≡ with_entry (listing_in self.old) name fileid) }
        ensures err { OnErr result (listing_in self.new ≡ listing_in self.old) }
    {
        match self {
            Kind::Indexed(directory) => directory.add(name, fileid),
            Kind::Plain(directory) => directory.add(name, fileid),
        }
    }

    /// Takes the first entry of a name away, and answers its fileid.
    pub fn drop_name(&mut self, name: &[u8]) -> Option<u64>
        ensures fileid { result ≡ fileid_at (listing_in self.old) name.now }
        ensures dropped { listing_in self.new ≡ without_entry (listing_in self.old) name.now }
    {
        match self {
            Kind::Indexed(directory) => directory.drop_name(name),
            Kind::Plain(directory) => directory.drop_name(name),
        }
    }

    /// The first entry of the name goes where there is one, and one of the name and this fileid goes last.
    /// `NoMemory` leaves all as it was.
    pub fn replace(&mut self, name: Name, fileid: u64) -> Result<(), NoMemory>
        requires { (listing_in self.old).next_cookie < max_cookie }
        ensures replaced { OnOk result (listing_in self.new ≡ with_entry (without_entry (listing_in self.old) name) name fileid) }
        ensures err { OnErr result (listing_in self.new ≡ listing_in self.old) }
    {
        match self {
            Kind::Indexed(directory) => directory.replace(name, fileid),
            Kind::Plain(directory) => directory.replace(name, fileid),
        }
    }

    /// The entries that have a greater cookie.
    pub fn page(&self, after: u64) -> PageIter<'_>
        ensures entries { result ≡ filter (λ e. nat_lt after e.cookie) (listing_in self.now).entries }
        ensures fits { length result < 2 ^ 64 }
    {
        match self {
            Kind::Indexed(directory) => directory.page(after),
            Kind::Plain(directory) => directory.page(after),
        }
    }
}
