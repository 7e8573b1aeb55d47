//! Writing the bodies of items, and whole items.

ghost use Rattle.std.specs.Prelude.{◌≡◌, ◌+◌, ◌*◌, ◌≤◌, ◌<◌, ◌^◌, ◌++◌, ◌↔◌, Ok, length, take, drop, map, IsOk, IfOk, OnOk, OnErr};
ghost use Rattle.std.specs.List.{flat_map};
ghost use Rattle.sha2.specs.Sha256.{sha256};
ghost use Rattle.sky_xdr.specs.Encoding.{uint, uhyper};
ghost use Rattle.sky_item.specs.Encoding.{id_of, kind_code, node_code, size_of, location_bytes, block_bytes, row_bytes, block_locations, numbered_locations, locations_of, block_location_bytes, numbered_location_bytes, id_bytes, content_bytes, inode_bytes, owner_bytes, page_bytes, numbers_bytes, all_numbered_bytes, check_bytes, body_bytes, item_header, item_front, item_bytes};
ghost use Rattle.sky_item.specs.Items.{IsContent, IsItem, AreNumbered, AscendsWithin};
ghost use Rattle.sky_item.specs.Fields.{item_at};
ghost use Rattle.sky_item.specs.Writing.{Puts};

use crate::item::{CheckItem, Content, InodeItem, Item, PageItem};
use crate::length::{item_length, links_of, node_size};
use crate::lists::NumberedLink;
use crate::output::Output;
use crate::writing::{
    put_all_numbered, put_blocks, put_fileids, put_id, put_location, put_numbers, put_owner,
    put_rows, put_times, put_verifier,
};
use sha2::{Digest, Sha256};
use sky_base::{ItemId, Link, Name};
use sky_xdr::NoRoom;

/// Writes the blocks of a file: how many, and each.
#[tactic(auto, using(crate::proofs::Puts::puts_then, crate::proofs::Puts::stops_then))]
fn put_regular(out: &mut Output<'_>, blocks: &[Option<Link>]) -> Result<(), NoRoom>
    requires { length blocks.now < 2 ^ 32 }
    ensures { Puts result (uint (length blocks.now) ++ flat_map block_bytes blocks.now) out.old out.new }
{
    out.put_u32(blocks.len() as u32)?;
    put_blocks(out, blocks)
}

/// Writes the entries of a directory: how many, and each.
#[tactic(auto, using(crate::proofs::Puts::puts_then, crate::proofs::Puts::stops_then))]
fn put_entries(out: &mut Output<'_>, rows: &[(u64, Name, u64)]) -> Result<(), NoRoom>
    requires { length rows.now < 2 ^ 32 }
    ensures { Puts result (uint (length rows.now) ++ flat_map row_bytes rows.now) out.old out.new }
{
    out.put_u32(rows.len() as u32)?;
    put_rows(out, rows)
}

/// Writes bytes: how many, and each.
#[tactic(auto, using(crate::proofs::Puts::puts_then, crate::proofs::Puts::stops_then))]
fn put_text(out: &mut Output<'_>, text: &[u8]) -> Result<(), NoRoom>
    requires { length text.now < 2 ^ 32 }
    ensures { Puts result (uint (length text.now) ++ text.now) out.old out.new }
{
    out.put_u32(text.len() as u32)?;
    out.put(text)
}

/// Writes what stands for a directory.
#[tactic(auto, using(crate::proofs::Puts::puts_then, crate::proofs::Puts::stops_then))]
fn put_directory(
    out: &mut Output<'_>,
    parent: u64,
    next_cookie: u64,
    rows: &[(u64, Name, u64)],
) -> Result<(), NoRoom>
    requires { length rows.now < 2 ^ 32 }
    ensures { Puts result (uhyper parent ++ uhyper next_cookie ++ (uint (length rows.now) ++ flat_map row_bytes rows.now)) out.old out.new }
{
    out.put_u64(parent)?;
    out.put_u64(next_cookie)?;
    put_entries(out, rows)
}

/// Writes what stands for the content of a node.
#[tactic(auto, unfolding(crate::specs::Encoding::content_bytes))]
fn put_content(out: &mut Output<'_>, content: &Content) -> Result<(), NoRoom>
    requires { IsContent content.now }
    ensures { Puts result (content_bytes content.now) out.old out.new }
{
    match content {
        Content::Regular { blocks, .. } => put_regular(out, blocks.as_slice()),
        Content::Directory {
            parent,
            next_cookie,
            rows,
        } => put_directory(out, *parent, *next_cookie, rows.as_slice()),
        Content::SymbolicLink { text } => put_text(out, text.as_slice()),
    }
}

/// The number of the kind of a node (`ftype3`, RFC 1813 section 2.6).
fn code_of(content: &Content) -> u32
    ensures { result ≡ node_code content.now }
{
    match content {
        Content::Regular { .. } => 1,
        Content::Directory { .. } => 2,
        Content::SymbolicLink { .. } => 5,
    }
}

/// Writes what an inode says first: the kind of the node, who may do what with it, and its size.
#[tactic(auto, using(crate::proofs::Puts::puts_then, crate::proofs::Puts::stops_then))]
fn put_node(out: &mut Output<'_>, inode: &InodeItem) -> Result<(), NoRoom>
    requires { IsContent inode.now.content }
    ensures { Puts result (uint (node_code inode.now.content) ++ owner_bytes inode.now.attributes ++ uhyper (size_of inode.now.content)) out.old out.new }
{
    out.put_u32(code_of(&inode.content))?;
    put_owner(out, &inode.attributes)?;
    out.put_u64(node_size(&inode.content))
}

/// Writes an inode.
#[tactic(auto, unfolding(crate::specs::Encoding::inode_bytes), using(crate::proofs::Puts::puts_then, crate::proofs::Puts::stops_then))]
fn put_inode(out: &mut Output<'_>, inode: &InodeItem) -> Result<(), NoRoom>
    requires { IsContent inode.now.content }
    ensures { Puts result (inode_bytes inode.now) out.old out.new }
{
    put_node(out, inode)?;
    put_times(out, inode.attributes.times)?;
    put_verifier(out, inode.attributes.verifier)?;
    out.put_u64(inode.attributes.fileid)?;
    put_content(out, &inode.content)
}

/// Writes a page of the map of inodes.
#[tactic(auto, unfolding(crate::specs::Encoding::page_bytes), using(crate::proofs::Puts::puts_then, crate::proofs::Puts::stops_then))]
fn put_page(out: &mut Output<'_>, page: &PageItem) -> Result<(), NoRoom>
    requires { length page.now.slots < 2 ^ 32 }
    ensures { Puts result (page_bytes page.now) out.old out.new }
{
    out.put_u64(page.number)?;
    put_all_numbered(out, page.slots.as_slice())
}

/// Writes a checkpoint.
#[tactic(auto, unfolding(crate::specs::Encoding::check_bytes), using(crate::proofs::Puts::puts_then, crate::proofs::Puts::stops_then))]
fn put_check(out: &mut Output<'_>, check: &CheckItem) -> Result<(), NoRoom>
    requires pages { length check.now.pages < 2 ^ 32 }
    requires touched { length check.now.touched < 2 ^ 32 }
    ensures { Puts result (check_bytes check.now) out.old out.new }
{
    put_numbers(out, check)?;
    put_all_numbered(out, check.pages.as_slice())?;
    out.put_u32(check.touched.as_slice().len() as u32)?;
    put_fileids(out, check.touched.as_slice())
}

/// Writes the body of an item.
#[tactic(auto, unfolding(crate::specs::Encoding::body_bytes))]
fn put_body(out: &mut Output<'_>, item: &Item) -> Result<(), NoRoom>
    requires { IsItem item.now }
    ensures { Puts result (body_bytes item.now) out.old out.new }
{
    match item {
        Item::Block(block) => out.put(block.bytes.as_slice()),
        Item::Inode(inode) => put_inode(out, inode),
        Item::Page(page) => put_page(out, page),
        Item::Check(check) => put_check(out, check),
    }
}

/// Writes where a block of a file lies, if it is no hole.
fn put_block_location(out: &mut Output<'_>, block: Option<Link>) -> Result<(), NoRoom>
    ensures { Puts result (block_location_bytes block) out.old out.new }
{
    match block {
        None => Ok(()),
        Some(link) => put_location(out, link.at),
    }
}

/// Writes where the blocks of a file lie that are no holes, one behind the other.
fn put_block_locations(out: &mut Output<'_>, blocks: &[Option<Link>]) -> Result<(), NoRoom>
    ensures { Puts result (flat_map block_location_bytes blocks.now) out.old out.new }
{
    for block in blocks {
        put_block_location(out, *block)?;
    }
    Ok(())
}

/// Writes where items lie that go by numbers, one behind the other.
fn put_numbered_locations(out: &mut Output<'_>, items: &[NumberedLink]) -> Result<(), NoRoom>
    ensures { Puts result (flat_map numbered_location_bytes items.now) out.old out.new }
{
    for item in items {
        put_location(out, item.link.at)?;
    }
    Ok(())
}

/// Writes where the items lie that an item links to, one behind the other.
#[tactic(auto, using(crate::proofs::Located::blocks_located, crate::proofs::Located::numbered_located))]
fn put_locations(out: &mut Output<'_>, item: &Item) -> Result<(), NoRoom>
    ensures { Puts result (flat_map location_bytes (locations_of item.now)) out.old out.new }
{
    match item {
        Item::Block(_) => Ok(()),
        Item::Inode(inode) => match &inode.content {
            Content::Regular { blocks, .. } => put_block_locations(out, blocks.as_slice()),
            Content::Directory { .. } | Content::SymbolicLink { .. } => Ok(()),
        },
        Item::Page(page) => put_numbered_locations(out, page.slots.as_slice()),
        Item::Check(check) => put_numbered_locations(out, check.pages.as_slice()),
    }
}

/// The number of the kind of an item.
fn number_of(item: &Item) -> u32
    ensures { result ≡ kind_code item.now }
{
    match item {
        Item::Block(_) => 1,
        Item::Inode(_) => 2,
        Item::Page(_) => 3,
        Item::Check(_) => 4,
    }
}

/// How many bytes stand behind the header of an item, and the digest of its body.
#[derive(Clone, Copy)]
pub struct Counts {
    pub body: u32,
    pub locations: u32,
    pub digest: [u8; 32],
}

/// Writes what stands before the locations of an item.
#[tactic(auto, using(crate::proofs::Puts::puts_then, crate::proofs::Puts::stops_then))]
fn put_header(out: &mut Output<'_>, kind: u32, id: ItemId, counts: &Counts) -> Result<(), NoRoom>
    ensures { Puts result (uint kind ++ id_bytes id ++ uint counts.now.body ++ uint counts.now.locations ++ counts.now.digest) out.old out.new }
{
    out.put_u32(kind)?;
    put_id(out, id)?;
    out.put_u32(counts.body)?;
    out.put_u32(counts.locations)?;
    out.put(&counts.digest)
}

/// Writes what stands before the body of an item to the start of a buffer.
#[tactic(auto, unfolding(crate::specs::Encoding::item_header), using(crate::proofs::Puts::puts_then, crate::proofs::Puts::stops_then))]
fn put_front(out: &mut Output<'_>, item: &Item, counts: &Counts) -> Result<(), NoRoom>
    requires body { counts.now.body ≡ length (body_bytes item.now) }
    requires locations { counts.now.locations ≡ length (locations_of item.now) }
    requires digest { counts.now.digest ≡ sha256 (body_bytes item.now) }
    ensures { Puts result (item_front item.now) out.old out.new }
{
    put_header(out, number_of(item), item.id(), counts)?;
    put_locations(out, item)
}

/// Writes what stands before the body of an item to the start of a buffer.
fn write_front(buf: &mut [u8], item: &Item, counts: &Counts) -> Result<usize, NoRoom>
    requires body { counts.now.body ≡ length (body_bytes item.now) }
    requires locations { counts.now.locations ≡ length (locations_of item.now) }
    requires digest { counts.now.digest ≡ sha256 (body_bytes item.now) }
    ensures err { OnErr result (length buf.old < length (item_front item.now)) }
    ensures written { IfOk result (λ n. take n buf.new ≡ item_front item.now) }
    ensures behind { IfOk result (λ n. drop n buf.new ≡ drop n buf.old) }
    ensures count { IfOk result (λ n. n ≡ length (item_front item.now)) }
{
    let mut out = Output::over(buf);
    put_front(&mut out, item, counts)?;
    Ok(out.written())
}

/// Writes the body of an item to the start of a buffer.
fn write_body(buf: &mut [u8], item: &Item) -> Result<usize, NoRoom>
    requires { IsItem item.now }
    ensures err { OnErr result (length buf.old < length (body_bytes item.now)) }
    ensures written { IfOk result (λ n. take n buf.new ≡ body_bytes item.now) }
    ensures behind { IfOk result (λ n. drop n buf.new ≡ drop n buf.old) }
    ensures count { IfOk result (λ n. n ≡ length (body_bytes item.now)) }
{
    let mut out = Output::over(buf);
    put_body(&mut out, item)?;
    Ok(out.written())
}

/// Writes an item that has so many bytes, and as many locations: its body, whose digest is then known, and what stands before it.
fn write_parts(buf: &mut [u8], item: &Item, locations: u32, size: usize) -> Result<(), NoRoom>
    requires item { IsItem item.now }
    requires locations { locations ≡ length (locations_of item.now) }
    requires size { size ≡ 60 + 28 * locations + length (body_bytes item.now) }
    requires small { size < 2 ^ 32 }
    requires room { size ≤ length buf.old }
    ensures ok { IsOk result }
    ensures written { take size buf.new ≡ item_front item.now ++ body_bytes item.now }
    ensures behind { drop size buf.new ≡ drop size buf.old }
{
    let start = 60 + 28 * locations as usize;
    write_body(&mut buf[start..], item)?;
    let counts = Counts {
        body: (size - start) as u32,
        locations,
        digest: Sha256::digest(&buf[start..size]),
    };
    write_front(buf, item, &counts)?;
    Ok(())
}

/// Writes an item to the start of a buffer, and says how many bytes it has. The condition is that it is an item of the format.
///
/// `NoRoom` where the buffer is shorter than that; nothing is written then.
pub fn write_item(buf: &mut [u8], item: &Item) -> Result<usize, NoRoom>
    requires { IsItem item.now }
    ensures fits { IsOk result ↔ (length (item_bytes item.now) ≤ length buf.old) }
    ensures count { IfOk result (λ n. n ≡ length (item_bytes item.now)) }
    ensures written { IfOk result (λ n. take n buf.new ≡ item_bytes item.now) }
    ensures behind { IfOk result (λ n. drop n buf.new ≡ drop n buf.old) }
    ensures err { OnErr result (buf.new ≡ buf.old) }
    // What was written is read again as the item.
    ensures read_again { OnOk result (item_at (item_bytes item.now) ≡ Ok item.now) }
{
    let size = item_length(item) as usize;
    if buf.len() < size {
        return Err(NoRoom);
    }
    let locations = links_of(item);
    write_parts(buf, item, locations as u32, size)?;
    Ok(size)
}
