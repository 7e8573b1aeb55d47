//! Reading whole items.

ghost use Rattle.std.specs.Prelude.{◌≡◌, ◌≤◌, ◌<◌, ◌^◌, ◌+◌, ◌==◌, Ok, IfOk, length, drop};
ghost use Rattle.sky_xdr.specs.Reading.{word};
ghost use Rattle.sky_item.specs.Encoding.{size_of, size_of_rows};
ghost use Rattle.sky_item.specs.declared.item.Item.{Item};
ghost use Rattle.sky_item.specs.Items.{EncodesItem};
ghost use Rattle.sky_item.specs.Reading.{ended};
ghost use Rattle.sky_item.specs.Fields.{inode_at, sized, page_at, check_at, body_item, least_body, most_body, head_at, fields_of, said_start, said_length, stored_digest, verified, item_at};
ghost use Rattle.sky_item.specs.Taking.{Takes, Gives, GivesItem};

use crate::fault::{ItemFault, Refusal};
use crate::fields::{take_id, take_raw, take_u32};
use crate::item::{BlockItem, Content, Item};
use crate::length::links_of;
use crate::lists::ItemBytes;
use crate::parts::Head;
use crate::reading::{take_check, take_inode, take_page};
use crate::taking::take_locations;
use sha2::{Digest, Sha256};
use sky_base::{Damage, ItemId, Location, Name};
use sky_xdr::Reader;
use std::alloc::Global;

/// What each entry of a directory has beside its name, in bytes.
const ROW_OVERHEAD: u64 = 18;

/// Whether a directory with these entries has this size.
fn have_size(rows: &[(u64, Name, u64)], size: u64) -> bool
    ensures { result ≡ (size == size_of_rows rows.now) }
{
    let mut left = size;
    for row in rows {
        let part = ROW_OVERHEAD + row.1.as_bytes().len() as u64;
        if left < part {
            return false;
        }
        left -= part;
    }
    left == 0
}

/// Whether a node with this content has this size.
fn has_size(content: &Content, size: u64) -> bool
    ensures { result ≡ (size == size_of content.now) }
{
    match content {
        Content::Regular { size: own, .. } => size == *own,
        Content::Directory { rows, .. } => have_size(rows.as_slice(), size),
        Content::SymbolicLink { text } => size == text.as_slice().len() as u64,
    }
}

/// The inode that these bytes are.
fn read_inode(
    alloc: Global,
    id: ItemId,
    locations: &[Location],
    body: &[u8],
) -> Result<Item, Refusal>
    ensures { Gives result (sized body.now (ended (inode_at id locations.now body.now))) }
{
    let mut reader = Reader::over(body);
    let (size, inode) = take_inode(alloc, &mut reader, id, locations)?;
    let left = reader.rest().len();
    if left > 0 {
        return Err(Refusal::At { left });
    }
    if !has_size(&inode.content, size) {
        return Err(Refusal::At {
            left: body.len().saturating_sub(20),
        });
    }
    Ok(Item::Inode(inode))
}

/// The page that these bytes are.
fn read_page(
    alloc: Global,
    id: ItemId,
    locations: &[Location],
    body: &[u8],
) -> Result<Item, Refusal>
    ensures { Gives result (ended (page_at id locations.now body.now)) }
{
    let mut reader = Reader::over(body);
    let item = take_page(alloc, &mut reader, id, locations)?;
    let left = reader.rest().len();
    if left > 0 {
        return Err(Refusal::At { left });
    }
    Ok(item)
}

/// The checkpoint that these bytes are.
fn read_check(
    alloc: Global,
    id: ItemId,
    locations: &[Location],
    body: &[u8],
) -> Result<Item, Refusal>
    ensures { Gives result (ended (check_at id locations.now body.now)) }
{
    let mut reader = Reader::over(body);
    let item = take_check(alloc, &mut reader, id, locations)?;
    let left = reader.rest().len();
    if left > 0 {
        return Err(Refusal::At { left });
    }
    Ok(item)
}

/// The item with this body.
fn read_body(
    alloc: Global,
    head: Head,
    locations: &[Location],
    body: &[u8],
) -> Result<Item, Refusal>
    ensures { Gives result (body_item head locations.now body.now) }
{
    match head.kind {
        1 => Ok(Item::Block(BlockItem {
            id: head.id,
            bytes: ItemBytes::new(Vec::from_slice(alloc, body)?),
        })),
        2 => read_inode(alloc, head.id, locations, body),
        3 => read_page(alloc, head.id, locations, body),
        _ => read_check(alloc, head.id, locations, body),
    }
}

/// The fewest bytes of a body of a kind.
fn least_of(kind: u32) -> u32
    ensures { result ≡ least_body kind }
{
    if kind == 1 { 1 } else { 0 }
}

/// The most bytes of a body of a kind.
fn most_of(kind: u32) -> u32
    ensures { result ≡ most_body kind }
{
    if kind == 1 { 32_768 } else { u32::MAX }
}

/// Takes what stands before the locations of an item.
#[tactic(auto, unfolding(crate::specs::Fields::head_at, crate::specs::Reading::bind, crate::specs::Reading::give))]
fn take_head(reader: &mut Reader<'_>) -> Result<Head, Refusal>
    ensures { Takes result reader.new (head_at reader.old) }
{
    let kind = take_u32(reader, 1, 4)?;
    let id = take_id(reader)?;
    let body = take_u32(reader, least_of(kind), most_of(kind))?;
    let count = take_u32(reader, 0, u32::MAX)?;
    let mut digest = [0; 32];
    digest.copy_from_slice(take_raw(reader, 32)?);
    Ok(Head {
        kind,
        id,
        body,
        count,
        digest,
    })
}

/// The item that has all of these bytes, whatever its digest is.
#[tactic(auto, unfolding(crate::specs::Fields::fields_of))]
fn read_fields(alloc: Global, bytes: &[u8]) -> Result<Item, Refusal>
    ensures { Gives result (fields_of bytes.now) }
{
    let mut reader = Reader::over(bytes);
    let head = take_head(&mut reader)?;
    let locations = take_locations(alloc, &mut reader, head.count)?;
    let item = read_body(alloc, head, &locations, reader.rest())?;
    if links_of(&item) != head.count as usize {
        return Err(Refusal::At {
            left: bytes.len().saturating_sub(24),
        });
    }
    Ok(item)
}

/// The number in four bytes at a place.
#[tactic(auto, unfolding(sky_xdr::specs::Reading::word))]
fn number_at(bytes: &[u8], place: usize) -> u32
    requires { place + 4 ≤ length bytes.now }
    ensures { result ≡ word (drop place bytes.now) }
{
    u32::from_be_bytes([
        bytes[place],
        bytes[place + 1],
        bytes[place + 2],
        bytes[place + 3],
    ])
}

/// The digest that an item says.
fn stored_digest(bytes: &[u8]) -> [u8; 32]
    requires { 60 ≤ length bytes.now }
    ensures { result ≡ stored_digest bytes.now }
{
    let mut digest = [0; 32];
    digest.copy_from_slice(&bytes[28..60]);
    digest
}

/// The item of these bytes, of which it says that so many stand before its body, and so many are all: what is judged behind its
/// fields.
fn verify(bytes: &[u8], start: usize, size: usize, item: Item) -> Result<Item, ItemFault>
    requires small { length bytes.now < 2 ^ 32 }
    requires header { 60 ≤ length bytes.now }
    requires start { start ≡ said_start bytes.now }
    requires size { size ≡ said_length bytes.now }
    requires within { size ≤ length bytes.now }
    ensures { GivesItem result (verified bytes.now (Ok item)) }
{
    if size < bytes.len() {
        return Err(ItemFault::Damage(Damage::Form { at: size as u32 }));
    }
    let stored = stored_digest(bytes);
    let computed = Sha256::digest(&bytes[start..]);
    if stored != computed {
        return Err(ItemFault::Damage(Damage::Digest { stored, computed }));
    }
    Ok(item)
}

/// The item of these bytes, or what is wrong with them.
#[tactic(auto, unfolding(crate::specs::Fields::item_at))]
fn read_whole(alloc: Global, bytes: &[u8]) -> Result<Item, ItemFault>
    requires { length bytes.now < 2 ^ 32 }
    ensures { GivesItem result (item_at bytes.now) }
{
    let held = bytes.len() as u64;
    if bytes.len() < 60 {
        return Err(ItemFault::Damage(Damage::Short { held }));
    }
    let start = 60 + 28 * number_at(bytes, 24) as usize;
    let size = start + number_at(bytes, 20) as usize;
    if bytes.len() < size {
        return Err(ItemFault::Damage(Damage::Short { held }));
    }
    match read_fields(alloc, &bytes[..size]) {
        Ok(item) => verify(bytes, start, size, item),
        Err(Refusal::At { left }) => Err(ItemFault::Damage(Damage::Form {
            at: size.saturating_sub(left) as u32,
        })),
        Err(Refusal::Memory) => Err(ItemFault::Memory),
    }
}

/// The item of these bytes.
///
/// `Damage` where they are not the encoding of an item, with what is wrong with them first: `Short` where they are fewer than
/// the item says that it has, with how many they are; else `Form` with the place of the first field that is not of the format
/// or passes a limit; else `Form` with the item's length where bytes stand behind it; else `Digest` where the digest is not
/// that of the body. `Memory` where there is no memory for what the item holds. The condition is that there are fewer than 2^32
/// bytes, so that each place among them can be said.
pub fn read_item(alloc: Global, bytes: &[u8]) -> Result<Item, ItemFault>
    requires { length bytes.now < 2 ^ 32 }
    ensures found { IfOk result (λ item. EncodesItem bytes.now item) }
    // The item whose encoding they are is given, unless there was no memory.
    ensures given { (item : Item) → EncodesItem bytes.now item → GivesItem result (Ok item) }
    // All of that, and each damage with its place, in one computing definition.
    ensures exact { GivesItem result (item_at bytes.now) }
{
    read_whole(alloc, bytes)
}
