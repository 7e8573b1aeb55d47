//! Items that go by numbers, found by these.

ghost use Rattle.std.specs.Prelude.{◌≡◌, ◌↔◌, ℕ, IsTrue, drop};
ghost use Rattle.std.specs.FinMap.{get};
ghost use Rattle.sky_item.specs.Items.{AscendsWithin};
ghost use Rattle.sky_imap.specs.Links.{Begins, IsPlaceOf, map_of, numbers_of};

use sky_base::Link;
use sky_item::NumberedLink;

/// Where the item of this number lies, in a list of items that ascend by their numbers. It takes time in the logarithm of
/// the length of the list.
pub fn link_at(links: &[NumberedLink], number: u64) -> Option<Link>
    ensures { (least bound : ℕ) → AscendsWithin least bound (numbers_of links.now)
        → result ≡ get (map_of links.now) number }
{
    let place = place_of(links, number);
    if is_at(links, place, number) {
        Some(links[place].link)
    } else {
        None
    }
}

/// How many of the items have a lower number, where they ascend by their numbers.
pub(crate) fn place_of(links: &[NumberedLink], number: u64) -> usize
    ensures { (least bound : ℕ) → AscendsWithin least bound (numbers_of links.now)
        → IsPlaceOf number least bound links.now result }
{
    links.partition_point(|link| link.number < number)
}

/// Whether the item at a place has this number.
pub(crate) fn is_at(links: &[NumberedLink], place: usize, number: u64) -> bool
    ensures { IsTrue result ↔ Begins number (drop place links.now) }
{
    place < links.len() && links[place].number == number
}
