//! What a page of a directory shows.

ghost use Rattle.std.specs.Prelude.{◌≡◌, ◌^◌, ◌<◌, map, filter, length, nat_lt, option_map};
ghost use Rattle.std.specs.Iterator.{item_count, YieldsFirstBy};
ghost use Rattle.sky_dir.specs.Items.{listed_of, item_entry};
ghost use Rattle.sky_dir.specs.Rows.{entry_of};

use crate::indexed::Item;
use sky_base::Name;
use std::collections::btree_map::Range;
use std::marker::Model;

/// An entry as a page shows it.
#[derive(Clone, Copy)]
pub struct Listed<'a> {
    /// The cookie behind which a listing goes on.
    pub cookie: u64,
    /// The name's bytes.
    pub name: &'a [u8],
    /// The fileid that the name stands for.
    pub fileid: u64,
}

/// The entries of a directory behind a cookie, in order. Contracts see it as the list of those that are left.
#[derive(Drop)]
pub struct PageIter<'a> {
    walk: Walk<'a>,
}

#[derive(Drop)]
enum Walk<'a> {
    Search(Range<'a, u64, Item>),
    Pass(&'a [(u64, Name, u64)], u64),
}

impl<'a> Model for PageIter<'a> {
    ghost use Rattle.std.specs.Prelude.{List};
    ghost use Rattle.sky_base.specs.Listing.{Entry};

    ghost Value = { List Entry };

    ghost use Rattle.sky_dir.specs.Pages.{left_of};

    ghost view = { λ a. left_of a.walk };
}

impl<'a> PageIter<'a> {
    /// The entries of a part of a directory's map.
    pub(crate) fn of_range(range: Range<'a, u64, Item>) -> PageIter<'a>
        ensures { result ≡ map item_entry range.entry }
    {
        PageIter {
            walk: Walk::Search(range),
        }
    }

    /// The entries of a list that have a greater cookie.
    pub(crate) fn of_rows(rows: &'a [(u64, Name, u64)], after: u64) -> PageIter<'a>
        requires { length rows.now < 2 ^ 64 }
        ensures entries { result ≡ filter (λ e. nat_lt after e.cookie) (map entry_of rows.now) }
        ensures fits { length result < 2 ^ 64 }
    {
        PageIter {
            walk: Walk::Pass(rows, after),
        }
    }
}

impl<'a> Iterator for PageIter<'a> {
    type Item = Listed<'a>;

    ghost next_gives = { YieldsFirstBy listed_of (λ s. s) };

    ghost remaining = { item_count (λ s. s) };

    fn next(&mut self) -> Option<Listed<'a>> {
        match &mut self.walk {
            Walk::Search(range) => shown(range.next()),
            Walk::Pass(rows, after) => passed(rows, *after),
        }
    }
}

/// The entry of the map's next pair.
fn shown<'a>(pair: Option<(&'a u64, &'a Item)>) -> Option<Listed<'a>>
    ensures { option_map listed_of result ≡ option_map (λ p. item_entry (p.0.now, p.1.now)) pair.entry }
{
    let (cookie, item) = pair?;
    Some(Listed {
        cookie: *cookie,
        name: item.name.as_bytes(),
        fileid: item.fileid,
    })
}

/// Goes on to the next row that has a greater cookie, and behind it.
fn passed<'a>(rows: &mut &'a [(u64, Name, u64)], after: u64) -> Option<Listed<'a>>
    ensures { YieldsFirstBy listed_of (λ r. filter (λ e. nat_lt after e.cookie) (map entry_of r)) rows.old.now result rows.new.now }
{
    while let Some((row, rest)) = rows.split_first() {
        *rows = rest;
        if row.0 > after {
            return Some(Listed {
                cookie: row.0,
                name: row.1.as_bytes(),
                fileid: row.2,
            });
        }
    }
    None
}
