//! A page of the map of inodes.

ghost use Rattle.std.specs.Prelude.{◌≡◌, ◌≢◌, ◌<◌, ◌≤◌, ◌↔◌, IsTrue, None, OnErr, OnOk, ok_or};
ghost use Rattle.std.specs.FinMap.{empty, get, len};
ghost use Rattle.sky_base.specs.Limits.{max_page_slots, max_pages};
ghost use Rattle.sky_imap.specs.PageMap.{page_of};

use crate::links::{is_at, link_at, place_of};
use sky_base::{ItemId, Link, NoMemory};
use sky_item::{Item, NumberedLink, NumberedLinks, PageItem};
use std::alloc::Global;
use std::marker::Model;

/// The number of the page that a fileid belongs to: the fileid divided by 2,048, rounded down.
pub fn page_of(fileid: u64) -> u64
    ensures { result ≡ page_of fileid }
{
    fileid / Page::SLOTS
}

/// A page of the map of inodes: where the inodes of 2,048 fileids lie, of those that it has slots for. Contracts see it as a
/// `PageMap`: its number, and a finite map from fileids to places.
///
/// `slot` takes time in the logarithm of the number of slots. `set` and `clear` move what stands behind the slot, which are
/// fewer than 2,048.
#[derive(Drop)]
pub struct Page {
    number: u64,
    slots: Vec<NumberedLink>,
}

impl Model for Page {
    ghost use Rattle.sky_imap.specs.PageMap.{PageMap, page_code};

    ghost Value = { PageMap };

    ghost coded = { page_code };

    ghost use Rattle.sky_imap.specs.Kept.{IsKept, page_kept};

    ghost view = { λ p. page_kept p.number p.slots.items };

    ghost invariant = { λ p. IsKept p.number p.slots.items };
}

impl Page {
    ghost use Rattle.sky_item.specs.Items.{IsId, IsItem};
    ghost use Rattle.sky_imap.specs.PageMap.{HasLinks, IsOrderly, IsPage, empty_page, item_of_page, page_in, with_slot, without_slot};

    /// How many fileids a page is for.
    pub const SLOTS: u64 = 2048;

    /// How many pages there are, which are numbered from 0.
    pub const COUNT: u64 = 32768;

    /// The page of this number, without slots.
    pub fn new(alloc: Global, number: u64) -> Page
        requires { number < max_pages }
        ensures { result ≡ empty_page number }
    {
        Page {
            number,
            slots: Vec::new(alloc),
        }
    }

    /// The page that an item is. An item of another kind is handed back.
    pub fn of(item: Item) -> Result<Page, Item>
        requires { IsOrderly item }
        ensures { result ≡ ok_or (page_in item) item }
    {
        match item {
            Item::Page(page) => Ok(Page {
                number: page.number,
                slots: page.slots.into_vec(),
            }),
            other => Err(other),
        }
    }

    /// The item that this page is in the log, under an identifier. A page without slots is none.
    pub fn into_item(self, id: ItemId) -> Item
        requires { self.slots ≢ empty }
        ensures made { result ≡ item_of_page id self }
        ensures item { IsId id → HasLinks self → IsItem result }
        ensures orderly { IsOrderly result }
    {
        Item::Page(PageItem {
            id,
            number: self.number,
            slots: NumberedLinks::new(self.slots),
        })
    }

    /// Its number.
    pub fn number(&self) -> u64
        ensures number { result ≡ self.now.number }
        ensures page { IsPage self.now }
    {
        self.number
    }

    /// How many slots it has.
    pub fn len(&self) -> usize
        ensures slots { result ≡ len self.now.slots }
        ensures most { result ≤ max_page_slots }
    {
        self.slots.as_slice().len()
    }

    /// Whether it has none.
    pub fn is_empty(&self) -> bool
        ensures { IsTrue result ↔ (self.now.slots ≡ empty) }
    {
        self.slots.as_slice().is_empty()
    }

    /// Where the inode of a fileid lies, if there is a slot for it.
    pub fn slot(&self, fileid: u64) -> Option<Link>
        ensures { result ≡ get self.now.slots fileid }
    {
        link_at(self.slots.as_slice(), fileid)
    }

    /// The inode of a fileid of this page lies here. A slot that was there is replaced.
    ///
    /// `NoMemory` where there is no memory for a slot that wasn't there. All is as it was then.
    pub fn set(&mut self, fileid: u64, link: Link) -> Result<(), NoMemory>
        requires { page_of fileid ≡ self.old.number }
        ensures ok { OnOk result (self.new ≡ with_slot self.old fileid link) }
        ensures err { OnErr result (self.new ≡ self.old) }
        ensures absent { OnErr result (get self.old.slots fileid ≡ None) }
    {
        let place = place_of(self.slots.as_slice(), fileid);
        let slot = NumberedLink {
            number: fileid,
            link,
        };
        if is_at(self.slots.as_slice(), place, fileid) {
            self.slots[place] = slot;
            return Ok(());
        }
        self.slots.insert(place, slot)?;
        Ok(())
    }

    /// There is no slot for this fileid any more. No memory is needed.
    pub fn clear(&mut self, fileid: u64)
        ensures { self.new ≡ without_slot self.old fileid }
    {
        let place = place_of(self.slots.as_slice(), fileid);
        if is_at(self.slots.as_slice(), place, fileid) {
            self.slots.remove(place);
        }
    }
}
