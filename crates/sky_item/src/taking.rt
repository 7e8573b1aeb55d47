//! Taking the lists of items, one value behind the other. How many there are is not trusted: room is kept for no more than the
//! bytes at hand can hold.

ghost use Rattle.std.specs.Prelude.{◌≡◌, ◌≤◌, ◌<◌, ◌^◌, ◌+◌, IfOk, OnErr, IsErrOf, length, drop};
ghost use Rattle.sky_base.specs.Limits.{max_name_bytes};
ghost use Rattle.sky_item.specs.Fields.{locations_at, next_location, locations_behind, block_at, blocks_at, row_at, rows_at, numbered_at, all_numbered_at, fileids_at};
ghost use Rattle.sky_item.specs.Taking.{Takes, TakesBy};

use crate::fault::Refusal;
use crate::fields::{take_id, take_location, take_raw, take_u16, take_u64};
use crate::lists::NumberedLink;
use sky_base::{Dir, Link, Location, Name};
use sky_xdr::Reader;
use std::alloc::{AllocError, Global};

/// The largest fileid.
pub const LAST_FILEID: u64 = (1 << 26) - 1;

/// The most bytes of a name.
const NAME_BYTES: u16 = 255;

/// Takes so many locations.
#[tactic(auto, unfolding(crate::specs::Fields::locations_at))]
pub fn take_locations(
    alloc: Global,
    reader: &mut Reader<'_>,
    count: u32,
) -> Result<Vec<Location>, Refusal>
    ensures { TakesBy (λ v. v.items) result reader.new (locations_at count reader.old) }
{
    let room = (count as usize).min(reader.rest().len() / 28);
    let mut items = Vec::with_capacity(alloc, room)?;
    for _ in 0..count {
        let at = take_location(reader)?;
        items.push(at).map_err(AllocError::from)?;
    }
    Ok(items)
}

/// The next location, or any where none is left.
fn next_of(locations: &[Location]) -> Location
    ensures { result ≡ next_location locations.now }
{
    match locations.first() {
        Some(at) => *at,
        None => Location {
            dir: Dir::Proxy,
            run: 0,
            seq: 0,
            offset: 0,
            length: 0,
        },
    }
}

/// The locations behind the next.
fn behind_next(locations: &[Location]) -> &[Location]
    ensures { result.now ≡ drop 1 locations.now }
{
    match locations.split_first() {
        Some((_, others)) => others,
        None => locations,
    }
}

/// Takes a block of a file.
#[tactic(auto, unfolding(crate::specs::Fields::block_at, crate::specs::Reading::bind, crate::specs::Reading::give))]
fn take_block(reader: &mut Reader<'_>, locations: &[Location]) -> Result<Option<Link>, Refusal>
    ensures { Takes result reader.new (block_at locations.now reader.old) }
{
    let id = take_id(reader)?;
    if id.epoch == 0 && id.counter == 0 {
        return Ok(None);
    }
    Ok(Some(Link {
        id,
        at: next_of(locations),
    }))
}

/// The locations behind a block.
fn behind_block(locations: &[Location], block: Option<Link>) -> &[Location]
    ensures { result.now ≡ locations_behind locations.now block }
{
    match block {
        None => locations,
        Some(_) => behind_next(locations),
    }
}

/// Takes so many blocks of a file.
#[tactic(auto, unfolding(crate::specs::Fields::blocks_at))]
pub fn take_blocks(
    alloc: Global,
    reader: &mut Reader<'_>,
    count: u32,
    locations: &[Location],
) -> Result<Vec<Option<Link>>, Refusal>
    ensures { TakesBy (λ v. v.items) result reader.new (blocks_at count locations.now reader.old) }
{
    let room = (count as usize).min(reader.rest().len() / 16);
    let mut items = Vec::with_capacity(alloc, room)?;
    let mut left = locations;
    for _ in 0..count {
        let block = take_block(reader, left)?;
        left = behind_block(left, block);
        items.push(block).map_err(AllocError::from)?;
    }
    Ok(items)
}

/// Takes an item that goes by a number, from the least to the last one.
#[tactic(auto, unfolding(crate::specs::Fields::numbered_at, crate::specs::Reading::bind, crate::specs::Reading::give))]
fn take_numbered(
    reader: &mut Reader<'_>,
    least: u64,
    last: u64,
    locations: &[Location],
) -> Result<NumberedLink, Refusal>
    requires { last < 2 ^ 63 }
    ensures exact { Takes result reader.new (numbered_at (last + 1) (least, locations.now) reader.old) }
    ensures most { IfOk result (λ n. n.number ≤ last) }
{
    let number = take_u64(reader, least, last)?;
    let id = take_id(reader)?;
    Ok(NumberedLink {
        number,
        link: Link {
            id,
            at: next_of(locations),
        },
    })
}

/// Takes so many items that go by numbers, from the least to the last one.
#[tactic(auto, unfolding(crate::specs::Fields::all_numbered_at))]
pub fn take_all_numbered(
    alloc: Global,
    reader: &mut Reader<'_>,
    count: u32,
    range: (u64, u64),
    locations: &[Location],
) -> Result<Vec<NumberedLink>, Refusal>
    requires { range.1 < 2 ^ 63 }
    ensures { TakesBy (λ v. v.items) result reader.new (all_numbered_at count range.0 (range.1 + 1) locations.now reader.old) }
{
    let room = (count as usize).min(reader.rest().len() / 24);
    let mut items = Vec::with_capacity(alloc, room)?;
    let mut least = range.0;
    let mut left = locations;
    for _ in 0..count {
        let item = take_numbered(reader, least, range.1, left)?;
        least = item.number + 1;
        left = behind_next(left);
        items.push(item).map_err(AllocError::from)?;
    }
    Ok(items)
}

/// Takes so many numbers of files.
#[tactic(auto, unfolding(crate::specs::Fields::fileids_at))]
pub fn take_fileids(alloc: Global, reader: &mut Reader<'_>, count: u32) -> Result<Vec<u64>, Refusal>
    ensures { TakesBy (λ v. v.items) result reader.new (fileids_at count reader.old) }
{
    let room = (count as usize).min(reader.rest().len() / 8);
    let mut items = Vec::with_capacity(alloc, room)?;
    let mut least = 0;
    for _ in 0..count {
        let fileid = take_u64(reader, least, LAST_FILEID)?;
        least = fileid + 1;
        items.push(fileid).map_err(AllocError::from)?;
    }
    Ok(items)
}

/// A copy of at most 255 bytes, as a name.
fn name_of(alloc: Global, bytes: &[u8]) -> Result<Name, Refusal>
    requires { length bytes.now ≤ max_name_bytes }
    ensures same { IfOk result (λ n. n ≡ bytes.now) }
    ensures err { OnErr result (IsErrOf result Refusal.Memory) }
{
    match Name::new(Vec::from_slice(alloc, bytes)?) {
        Some(name) => Ok(name),
        None => Err(Refusal::Memory),
    }
}

/// Takes an entry of a directory.
#[tactic(auto, unfolding(crate::specs::Fields::row_at, crate::specs::Reading::bind, crate::specs::Reading::give))]
fn take_row(alloc: Global, reader: &mut Reader<'_>) -> Result<(u64, Name, u64), Refusal>
    ensures { Takes result reader.new (row_at reader.old) }
{
    let cookie = take_u64(reader, 0, u64::MAX)?;
    let fileid = take_u64(reader, 0, LAST_FILEID)?;
    let long = take_u16(reader, NAME_BYTES)?;
    let name = take_raw(reader, long as usize)?;
    Ok((cookie, name_of(alloc, name)?, fileid))
}

/// Takes so many entries of a directory.
#[tactic(auto, unfolding(crate::specs::Fields::rows_at))]
pub fn take_rows(
    alloc: Global,
    reader: &mut Reader<'_>,
    count: u32,
) -> Result<Vec<(u64, Name, u64)>, Refusal>
    ensures { TakesBy (λ v. v.items) result reader.new (rows_at count reader.old) }
{
    let room = (count as usize).min(reader.rest().len() / 18);
    let mut items = Vec::with_capacity(alloc, room)?;
    for _ in 0..count {
        let row = take_row(alloc, reader)?;
        items.push(row).map_err(AllocError::from)?;
    }
    Ok(items)
}
