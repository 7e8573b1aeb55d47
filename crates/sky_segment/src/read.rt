//! Reading whole objects.

ghost use Rattle.std.specs.Prelude.{◌≡◌, ◌≤◌, ◌<◌, List, [], ◌∷◌, ◌++◌, None, Ok, IfOk, OnOk, OnErr, IsErrOf, length, drop};
ghost use Rattle.sky_base.specs.Limits.{max_number, max_object_bytes};
ghost use Rattle.sky_item.specs.declared.item.Item.{Item};
ghost use Rattle.sky_segment.specs.Objects.{IsObject, object_header_bytes};
ghost use Rattle.sky_segment.specs.Damages.{GivesBy, next_item, items_at, behind_header, object_at};

use crate::header::{HEADER_BYTES, number_at, wrong_field};
use crate::writing::OBJECT_BYTES;
use sky_base::{Damage, SegName};
use sky_item::{Item, ItemFault, read_item};
use std::alloc::Global;

/// How many bytes an item has before its locations.
const ITEM_HEADER_BYTES: usize = 60;

/// The number of the kind that a checkpoint has.
const CHECK: u32 = 4;

/// The item that bytes begin with, and the bytes behind it.
#[tactic(auto, unfolding(crate::specs::Damages::next_item))]
fn take_item(alloc: Global, last: bool, bytes: &[u8]) -> Result<(Item, &[u8]), ItemFault>
    requires { length bytes.now ≤ max_object_bytes }
    ensures { GivesBy (λ x. (x.0, x.1.now)) result (next_item last bytes.now) }
{
    let held = bytes.len() as u64;
    if bytes.len() < ITEM_HEADER_BYTES {
        return Err(ItemFault::Damage(Damage::Short { held }));
    }
    let start = ITEM_HEADER_BYTES + 28 * number_at(bytes, 24) as usize;
    let size = start + number_at(bytes, 20) as usize;
    if bytes.len() < size {
        return Err(ItemFault::Damage(Damage::Short { held }));
    }
    if (number_at(bytes, 0) == CHECK) != last {
        return Err(ItemFault::Damage(Damage::Form { at: 0 }));
    }
    let item = read_item(alloc, &bytes[..size])?;
    Ok((item, &bytes[size..]))
}

/// Puts an item behind the others.
fn push(items: &mut Vec<Item>, item: Item) -> Result<(), ItemFault>
    ensures ok { OnOk result (items.new.items ≡ items.old.items ++ item ∷ []) }
    ensures err { OnErr result (IsErrOf result ItemFault.Memory) }
{
    items.push(item).map_err(|_| ItemFault::Memory)
}

/// So many items, one behind the other, and the bytes behind them. How many there are is not trusted: room is kept for no more
/// than the bytes at hand can hold.
fn take_items(
    alloc: Global,
    last: bool,
    count: u32,
    bytes: &[u8],
) -> Result<(Vec<Item>, &[u8]), ItemFault>
    requires { length bytes.now ≤ max_object_bytes }
    ensures { GivesBy (λ x. (x.0.items, x.1.now)) result (items_at last count bytes.now) }
{
    let room = (count as usize).min(bytes.len() / ITEM_HEADER_BYTES);
    let Ok(mut items) = Vec::with_capacity(alloc, room) else {
        return Err(ItemFault::Memory);
    };
    let mut rest = bytes;
    for _ in 0..count {
        let (item, behind) = take_item(alloc, last, rest)?;
        push(&mut items, item)?;
        rest = behind;
    }
    Ok((items, rest))
}

/// The items behind a header that is as the object's name wants it.
fn read_items(alloc: Global, last: bool, bytes: &[u8]) -> Result<Vec<Item>, ItemFault>
    requires whole { object_header_bytes ≤ length bytes.now }
    requires within { length bytes.now ≤ max_object_bytes }
    ensures { GivesBy (λ v. v.items) result (behind_header last bytes.now None) }
{
    let count = number_at(bytes, 32);
    let (items, rest) = take_items(alloc, last, count, &bytes[HEADER_BYTES..])?;
    if !rest.is_empty() {
        let at = bytes.len().saturating_sub(rest.len()) as u32;
        return Err(ItemFault::Damage(Damage::Form { at }));
    }
    Ok(items)
}

/// The items of the object of this name.
#[tactic(auto, unfolding(crate::specs::Damages::object_at))]
fn read_whole(alloc: Global, name: SegName, bytes: &[u8]) -> Result<Vec<Item>, ItemFault>
    ensures { GivesBy (λ v. v.items) result (object_at name bytes.now) }
{
    if bytes.len() > OBJECT_BYTES {
        let at = OBJECT_BYTES as u32;
        return Err(ItemFault::Damage(Damage::Form { at }));
    }
    if bytes.len() < HEADER_BYTES {
        let held = bytes.len() as u64;
        return Err(ItemFault::Damage(Damage::Short { held }));
    }
    match wrong_field(name, bytes) {
        Some(at) => Err(ItemFault::Damage(Damage::Form { at })),
        None => read_items(alloc, name.last, bytes),
    }
}

/// The items of the object of this name, in order.
///
/// `Damage` where the bytes are not that object, with what is wrong with them first: `Form` at 4,194,304 where they are more;
/// `Short` with how many they are where they are fewer than the header's 36; `Form` with the offset of the first field of the
/// header that does not agree with the name; then, item by item, `Short` with how many bytes are left for it, `Form` at 0 where its
/// kind may not stand in that object, or else what `read_item` says, with places in the item; then `Form` with the offset of the
/// first byte behind the last item. `Memory` where there is no memory for the items. The condition is that the name's numbers are
/// below 2^62.
pub fn read_segment(alloc: Global, name: SegName, bytes: &[u8]) -> Result<Vec<Item>, ItemFault>
    requires run { name.run < max_number }
    requires seq { name.seq < max_number }
    ensures found { IfOk result (λ items. IsObject name bytes.now items.items) }
    // The items of the object that they are are given, unless there was no memory.
    ensures given { (items : List Item) → IsObject name bytes.now items → GivesBy (λ v. v.items) result (Ok items) }
    // All of that, and each damage with its place, in one computing definition.
    ensures exact { GivesBy (λ v. v.items) result (object_at name bytes.now) }
{
    read_whole(alloc, name, bytes)
}
