//! What holds of pages as such. A call of these functions does nothing: each of their clauses is a law that is proved.

ghost use Rattle.std.specs.Prelude.{◌≡◌, ℕ, Some};
ghost use Rattle.sky_base.specs.Limits.{max_page_slots, max_pages};
ghost use Rattle.sky_base.specs.declared.place.ItemId.{ItemId};
ghost use Rattle.sky_base.specs.declared.place.Link.{Link};
ghost use Rattle.sky_item.specs.Items.{IsItem, IsLink};
ghost use Rattle.sky_item.specs.declared.item.Item.{Item};
ghost use Rattle.sky_imap.specs.PageMap.{HasLinks, IsOrderly, PageMap, empty_page, item_of_page, page_in, with_slot, without_slot};

use crate::page::Page;

/// The limits that the code has are those of the definitions.
pub fn limits_are_as_defined()
    ensures slots { Page.SLOTS ≡ max_page_slots }
    ensures count { Page.COUNT ≡ max_pages }
{}

/// A page is the one that its item is, and each item of the format has its slots in order.
pub fn pages_come_back()
    ensures page { (id : ItemId) (page : PageMap) → page_in (item_of_page id page) ≡ Some page }
    ensures orderly { (item : Item) → IsItem item → IsOrderly item }
{}

/// The links of a page are those that were set, or those of the item that it was.
pub fn pages_keep_their_links()
    ensures new { (number : ℕ) → HasLinks (empty_page number) }
    ensures set { (page : PageMap) (fileid : ℕ) (link : Link) → HasLinks page → IsLink link → HasLinks (with_slot page fileid link) }
    ensures clear { (page : PageMap) (fileid : ℕ) → HasLinks page → HasLinks (without_slot page fileid) }
    ensures item { (item : Item) (page : PageMap) → IsItem item → page_in item ≡ Some page → HasLinks page }
{}
