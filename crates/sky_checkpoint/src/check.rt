//! A checkpoint.

ghost use Rattle.std.specs.Prelude.{◌≡◌, ok_or};
ghost use Rattle.std.specs.FinMap.{get};
ghost use Rattle.sky_imap.specs.Links.{links_in, map_of};

use sky_base::{ItemId, Link};
use sky_imap::link_at;
use sky_item::{CheckItem, Fileids, Item, NumberedLink, NumberedLinks};
use std::marker::Model;

/// Where the pages of the map of inodes lie. Contracts see them as a finite map from their numbers to these places.
#[derive(Drop)]
pub struct PageLinks {
    links: Vec<NumberedLink>,
}

impl Model for PageLinks {
    ghost use Rattle.std.specs.Coded.{coded_ℕ};
    ghost use Rattle.std.specs.FinMap.{FinMap, code};
    ghost use Rattle.std.specs.Ordering.{nat_cmp};
    ghost use Rattle.sky_base.specs.contracts.place.Link as link;
    ghost use Rattle.sky_base.specs.declared.place.Link.{Link};

    ghost Value = { FinMap nat_cmp Link };

    ghost coded = { code coded_ℕ link.the_row.coded };

    ghost use Rattle.sky_imap.specs.Links.{map_of};
    ghost use Rattle.sky_checkpoint.specs.Pages.{ArePages};

    ghost view = { λ p. map_of p.links.items };

    ghost invariant = { λ p. ArePages p.links.items };
}

impl PageLinks {
    ghost use Rattle.sky_checkpoint.specs.Pages.{ArePages};

    /// These pages, which ascend by their numbers.
    pub fn new(links: Vec<NumberedLink>) -> PageLinks
        requires { ArePages links.items }
        ensures { result ≡ map_of links.items }
    {
        PageLinks { links }
    }

    /// Where the page of a number lies, if there is one. It takes time in the logarithm of the number of pages.
    pub fn get(&self, number: u64) -> Option<Link>
        ensures { result ≡ get self.now number }
    {
        link_at(self.links.as_slice(), number)
    }

    /// The pages in the order of their numbers, to read.
    pub fn as_slice(&self) -> &[NumberedLink]
        ensures pages { result.now ≡ links_in self.now }
        ensures order { ArePages result.now }
    {
        self.links.as_slice()
    }

    /// The pages in the order of their numbers, given back.
    pub fn into_vec(self) -> Vec<NumberedLink>
        ensures pages { result.items ≡ links_in self }
        ensures order { ArePages result.items }
    {
        self.links
    }
}

/// A checkpoint: where the map of inodes lies, and up to which change of the history it stands for it. The fields are those of
/// the item.
#[derive(Drop)]
pub struct Check {
    pub id: ItemId,
    /// The number of the volume.
    pub volume: u64,
    /// How many changes of the history it covers.
    pub covers: u64,
    /// The fileid of the node that is made next.
    pub next_fileid: u64,
    /// The number of the first object of its batch.
    pub first_seq: u64,
    /// The last run of the cleaner that was merged.
    pub merged: u64,
    /// Of the cleaner: the epoch of the checkpoint that the run began from. Of the proxy: 0.
    pub base_epoch: u64,
    /// Of the cleaner: the number of that checkpoint's object. Of the proxy: 0.
    pub base_seq: u64,
    /// The pages of the map of inodes.
    pub pages: PageLinks,
    /// Of the cleaner: the files whose inodes the run wrote. Of the proxy: none.
    pub touched: Fileids,
}

impl Check {
    ghost use Rattle.sky_checkpoint.specs.Checks.{IsOrderly, check_in, item_of_check};

    /// The checkpoint that an item is. An item of another kind is handed back.
    pub fn of(item: Item) -> Result<Check, Item>
        requires { IsOrderly item }
        ensures { result ≡ ok_or (check_in item) item }
    {
        match item {
            Item::Check(check) => Ok(Check {
                id: check.id,
                volume: check.volume,
                covers: check.covers,
                next_fileid: check.next_fileid,
                first_seq: check.first_seq,
                merged: check.merged,
                base_epoch: check.base_epoch,
                base_seq: check.base_seq,
                pages: PageLinks::new(check.pages.into_vec()),
                touched: check.touched,
            }),
            other => Err(other),
        }
    }

    /// The item that this checkpoint is in the log.
    pub fn into_item(self) -> Item
        ensures made { result ≡ item_of_check self }
        ensures orderly { IsOrderly result }
    {
        Item::Check(CheckItem {
            id: self.id,
            volume: self.volume,
            covers: self.covers,
            next_fileid: self.next_fileid,
            first_seq: self.first_seq,
            merged: self.merged,
            base_epoch: self.base_epoch,
            base_seq: self.base_seq,
            pages: NumberedLinks::new(self.pages.into_vec()),
            touched: self.touched,
        })
    }

    /// Where a page of the map of inodes lies, if the checkpoint has that page.
    pub fn page(&self, number: u64) -> Option<Link>
        ensures { result ≡ get self.now.pages number }
    {
        self.pages.get(number)
    }
}
