//! Taking the bodies of items.

ghost use Rattle.std.specs.Prelude.{◌≡◌, ◌≤◌, ◌<◌, ◌^◌, ◌+◌, ◌*◌, ◌-◌, IfOk};
ghost use Rattle.sky_base.specs.Limits.{max_file_bytes, max_link_text_bytes};
ghost use Rattle.sky_item.specs.Encoding.{blocks_of};
ghost use Rattle.sky_item.specs.Reading.{behind, ended};
ghost use Rattle.sky_item.specs.Fields.{max_uint, most_links, most_size, node_kind_at, kind_or_refused, owner_at, moment_at, times_at, verifier_at, kept_or_zero, regular_at, directory_at, link_at, content_at, inode_at, page_at, check_numbers_at, check_at};
ghost use Rattle.sky_item.specs.Taking.{Takes, TakesBy, Gives};

use crate::fault::Refusal;
use crate::fields::{LAST_NUMBER, take_raw, take_u32, take_u64};
use crate::item::{Attributes, CheckItem, Content, InodeItem, Item, PageItem, Times};
use crate::lists::{BlockLinks, DirRows, Fileids, ItemBytes, NumberedLinks};
use crate::parts::{CheckNumbers, Owner};
use crate::taking::{LAST_FILEID, take_all_numbered, take_blocks, take_fileids, take_rows};
use sky_base::{ItemId, Kind, Location, Moment};
use sky_xdr::Reader;
use std::alloc::Global;

/// The most bytes of a file, of a directory and of the text of a link.
const FILE_BYTES: u64 = 1 << 30;

const DIRECTORY_BYTES: u64 = 1 << 20;

const TEXT_BYTES: u64 = 1024;

/// The most links of a file.
const LINKS: u32 = 32_000;

/// The largest access bits of a node.
const MODE: u32 = 0o7777;

/// The largest cookie that is given next, the largest volume, and the largest fileid that is given next.
const NEXT_COOKIE: u64 = 1 << 62;

const VOLUME: u64 = 1 << 62;

const NEXT_FILEID: u64 = 1 << 26;

/// The fileids that a page is for, and the number of pages.
const PAGE_SLOTS: u32 = 2048;

const PAGES: u32 = 32_768;

/// Takes the kind of a node (`ftype3`, RFC 1813 section 2.6).
#[tactic(auto, unfolding(crate::specs::Fields::node_kind_at))]
fn take_kind(reader: &mut Reader<'_>) -> Result<Kind, Refusal>
    ensures { Takes result reader.new (node_kind_at reader.old) }
{
    let left = reader.rest().len();
    match take_u32(reader, 0, u32::MAX)? {
        1 => Ok(Kind::Regular),
        2 => Ok(Kind::Directory),
        5 => Ok(Kind::SymbolicLink),
        _ => Err(Refusal::At { left }),
    }
}

/// The most links of a node of a kind.
fn links_of(kind: Kind) -> u32
    ensures { result ≡ most_links kind }
{
    match kind {
        Kind::Regular | Kind::SymbolicLink => LINKS,
        Kind::Directory => u32::MAX,
    }
}

/// The largest size of a node of a kind.
fn size_of(kind: Kind) -> u64
    ensures { result ≡ most_size kind }
{
    match kind {
        Kind::Regular => FILE_BYTES,
        Kind::Directory => DIRECTORY_BYTES,
        Kind::SymbolicLink => TEXT_BYTES,
    }
}

/// Takes who may do what with a node that has at most so many links.
#[tactic(auto, unfolding(crate::specs::Fields::owner_at, crate::specs::Reading::bind, crate::specs::Reading::give))]
fn take_owner(reader: &mut Reader<'_>, links: u32) -> Result<Owner, Refusal>
    ensures { Takes result reader.new (owner_at links reader.old) }
{
    let mode = take_u32(reader, 0, MODE)?;
    let nlink = take_u32(reader, 0, links)?;
    let uid = take_u32(reader, 0, u32::MAX)?;
    let gid = take_u32(reader, 0, u32::MAX)?;
    Ok(Owner {
        mode,
        nlink,
        uid,
        gid,
    })
}

/// Takes a moment.
#[tactic(auto, unfolding(crate::specs::Fields::moment_at, crate::specs::Reading::bind, crate::specs::Reading::give))]
fn take_moment(reader: &mut Reader<'_>) -> Result<Moment, Refusal>
    ensures { Takes result reader.new (moment_at reader.old) }
{
    let seconds = take_u32(reader, 0, u32::MAX)?;
    let nanos = take_u32(reader, 0, u32::MAX)?;
    Ok(Moment { seconds, nanos })
}

/// Takes the moments of a node.
#[tactic(auto, unfolding(crate::specs::Fields::times_at, crate::specs::Reading::bind, crate::specs::Reading::give))]
fn take_times(reader: &mut Reader<'_>) -> Result<Times, Refusal>
    ensures { Takes result reader.new (times_at reader.old) }
{
    let atime = take_moment(reader)?;
    let mtime = take_moment(reader)?;
    let ctime = take_moment(reader)?;
    Ok(Times {
        atime,
        mtime,
        ctime,
    })
}

/// Takes a verifier, where one is kept; else eight bytes that are zero.
#[tactic(auto, unfolding(crate::specs::Reading::bind, crate::specs::Reading::give))]
fn take_kept(reader: &mut Reader<'_>, kept: u32) -> Result<Option<[u8; 8]>, Refusal>
    ensures { Takes result reader.new (kept_or_zero kept reader.old) }
{
    if kept == 0 {
        take_u64(reader, 0, 0)?;
        return Ok(None);
    }
    let bytes = take_raw(reader, 8)?;
    let mut verifier = [0; 8];
    verifier.copy_from_slice(bytes);
    Ok(Some(verifier))
}

/// Takes whether a verifier is kept, and the verifier.
#[tactic(auto, unfolding(crate::specs::Fields::verifier_at, crate::specs::Reading::bind, crate::specs::Reading::give))]
fn take_verifier(reader: &mut Reader<'_>) -> Result<Option<[u8; 8]>, Refusal>
    ensures { Takes result reader.new (verifier_at reader.old) }
{
    let kept = take_u32(reader, 0, 1)?;
    take_kept(reader, kept)
}

/// Takes the blocks of a file of a size.
#[tactic(auto, unfolding(crate::specs::Fields::regular_at, crate::specs::Reading::bind, crate::specs::Reading::give))]
fn take_regular(
    alloc: Global,
    reader: &mut Reader<'_>,
    locations: &[Location],
    size: u64,
) -> Result<Content, Refusal>
    requires { size ≤ max_file_bytes }
    ensures { Takes result reader.new (regular_at locations.now size reader.old) }
{
    let count = ((size + 32_767) / 32_768) as u32;
    let n = take_u32(reader, count, count)?;
    let blocks = take_blocks(alloc, reader, n, locations)?;
    Ok(Content::Regular {
        size,
        blocks: BlockLinks::new(blocks),
    })
}

/// Takes what stands for a directory.
#[tactic(auto, unfolding(crate::specs::Fields::directory_at, crate::specs::Reading::bind, crate::specs::Reading::give))]
fn take_directory(alloc: Global, reader: &mut Reader<'_>) -> Result<Content, Refusal>
    ensures { Takes result reader.new (directory_at reader.old) }
{
    let parent = take_u64(reader, 0, LAST_FILEID)?;
    let next_cookie = take_u64(reader, 0, NEXT_COOKIE)?;
    let count = take_u32(reader, 0, u32::MAX)?;
    let rows = take_rows(alloc, reader, count)?;
    Ok(Content::Directory {
        parent,
        next_cookie,
        rows: DirRows::new(rows),
    })
}

/// Takes the text of a link of a size.
#[tactic(auto, unfolding(crate::specs::Fields::link_at, crate::specs::Reading::bind, crate::specs::Reading::give))]
fn take_link(alloc: Global, reader: &mut Reader<'_>, size: u64) -> Result<Content, Refusal>
    requires { size ≤ max_link_text_bytes }
    ensures { Takes result reader.new (link_at size reader.old) }
{
    let count = take_u32(reader, size as u32, size as u32)?;
    let text = take_raw(reader, count as usize)?;
    Ok(Content::SymbolicLink {
        text: ItemBytes::new(Vec::from_slice(alloc, text)?),
    })
}

/// Takes what stands for the content of a node of a kind and a size.
fn take_content(
    alloc: Global,
    reader: &mut Reader<'_>,
    kind: Kind,
    locations: &[Location],
    size: u64,
) -> Result<Content, Refusal>
    requires { size ≤ most_size kind }
    ensures { Takes result reader.new (content_at kind locations.now size reader.old) }
{
    match kind {
        Kind::Regular => take_regular(alloc, reader, locations, size),
        Kind::Directory => take_directory(alloc, reader),
        Kind::SymbolicLink => take_link(alloc, reader, size),
    }
}

/// Takes an inode, and the size that it says.
#[tactic(auto, unfolding(crate::specs::Fields::inode_at, crate::specs::Reading::bind, crate::specs::Reading::give))]
pub fn take_inode(
    alloc: Global,
    reader: &mut Reader<'_>,
    id: ItemId,
    locations: &[Location],
) -> Result<(u64, InodeItem), Refusal>
    ensures { Takes result reader.new (inode_at id locations.now reader.old) }
{
    let kind = take_kind(reader)?;
    let owner = take_owner(reader, links_of(kind))?;
    let size = take_u64(reader, 0, size_of(kind))?;
    let times = take_times(reader)?;
    let verifier = take_verifier(reader)?;
    let fileid = take_u64(reader, 0, LAST_FILEID)?;
    let content = take_content(alloc, reader, kind, locations, size)?;
    let attributes = Attributes {
        mode: owner.mode,
        nlink: owner.nlink,
        uid: owner.uid,
        gid: owner.gid,
        times,
        verifier,
        fileid,
    };
    Ok((
        size,
        InodeItem {
            id,
            attributes,
            content,
        },
    ))
}

/// Takes a page of the map of inodes.
#[tactic(auto, unfolding(crate::specs::Fields::page_at, crate::specs::Reading::bind, crate::specs::Reading::give))]
pub fn take_page(
    alloc: Global,
    reader: &mut Reader<'_>,
    id: ItemId,
    locations: &[Location],
) -> Result<Item, Refusal>
    ensures { Takes result reader.new (page_at id locations.now reader.old) }
{
    let number = take_u64(reader, 0, PAGES as u64 - 1)?;
    let count = take_u32(reader, 1, PAGE_SLOTS)?;
    let first = number * PAGE_SLOTS as u64;
    let range = (first, first + (PAGE_SLOTS as u64 - 1));
    let slots = take_all_numbered(alloc, reader, count, range, locations)?;
    Ok(Item::Page(PageItem {
        id,
        number,
        slots: NumberedLinks::new(slots),
    }))
}

/// Takes the numbers of a checkpoint.
#[tactic(auto, unfolding(crate::specs::Fields::check_numbers_at, crate::specs::Reading::bind, crate::specs::Reading::give))]
fn take_check_numbers(reader: &mut Reader<'_>) -> Result<CheckNumbers, Refusal>
    ensures { Takes result reader.new (check_numbers_at reader.old) }
{
    let volume = take_u64(reader, 1, VOLUME)?;
    let covers = take_u64(reader, 0, LAST_NUMBER)?;
    let next_fileid = take_u64(reader, 0, NEXT_FILEID)?;
    let first_seq = take_u64(reader, 0, LAST_NUMBER)?;
    let merged = take_u64(reader, 0, LAST_NUMBER)?;
    let base_epoch = take_u64(reader, 0, LAST_NUMBER)?;
    let base_seq = take_u64(reader, 0, LAST_NUMBER)?;
    Ok(CheckNumbers {
        volume,
        covers,
        next_fileid,
        first_seq,
        merged,
        base_epoch,
        base_seq,
    })
}

/// Takes a checkpoint.
#[tactic(auto, unfolding(crate::specs::Fields::check_at, crate::specs::Reading::bind, crate::specs::Reading::give))]
pub fn take_check(
    alloc: Global,
    reader: &mut Reader<'_>,
    id: ItemId,
    locations: &[Location],
) -> Result<Item, Refusal>
    ensures { Takes result reader.new (check_at id locations.now reader.old) }
{
    let numbers = take_check_numbers(reader)?;
    let count = take_u32(reader, 0, PAGES)?;
    let range = (0, PAGES as u64 - 1);
    let pages = take_all_numbered(alloc, reader, count, range, locations)?;
    let files = take_u32(reader, 0, u32::MAX)?;
    let touched = take_fileids(alloc, reader, files)?;
    Ok(Item::Check(CheckItem {
        id,
        volume: numbers.volume,
        covers: numbers.covers,
        next_fileid: numbers.next_fileid,
        first_seq: numbers.first_seq,
        merged: numbers.merged,
        base_epoch: numbers.base_epoch,
        base_seq: numbers.base_seq,
        pages: NumberedLinks::new(pages),
        touched: Fileids::new(touched),
    }))
}
