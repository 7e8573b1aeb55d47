//! How many bytes items have.

ghost use Rattle.std.specs.Prelude.{◌≡◌, ◌+◌, ◌*◌, ◌^◌, ◌<◌, ◌≤◌, count_by, is_some, length};
ghost use Rattle.sky_item.specs.Encoding.{size_of, size_of_rows, locations_of, item_bytes, length_of_content, length_of_body};
ghost use Rattle.sky_item.specs.Items.{IsContent, IsItem};

use crate::item::{Content, Item};
use sky_base::{Link, Name};

/// What each entry of a directory has beside its name, in bytes.
const ROW_OVERHEAD: u64 = 18;

/// The size of a directory with these entries.
fn rows_size(rows: &[(u64, Name, u64)]) -> u64
    requires { size_of_rows rows.now < 2 ^ 32 }
    ensures { result ≡ size_of_rows rows.now }
{
    let mut size: u64 = 0;
    for row in rows {
        size += ROW_OVERHEAD + row.1.as_bytes().len() as u64;
    }
    size
}

/// The size of a node.
pub fn node_size(content: &Content) -> u64
    requires { IsContent content.now }
    ensures { result ≡ size_of content.now }
{
    match content {
        Content::Regular { size, .. } => *size,
        Content::Directory { rows, .. } => rows_size(rows.as_slice()),
        Content::SymbolicLink { text } => text.as_slice().len() as u64,
    }
}

/// How many of the blocks of a file are no holes.
fn links_in(blocks: &[Option<Link>]) -> usize
    ensures { result ≡ count_by is_some blocks.now }
{
    blocks.iter().filter(|block| block.is_some()).count()
}

/// How many items an item links to.
#[tactic(auto, using(crate::proofs::Sizes::links_count))]
pub fn links_of(item: &Item) -> usize
    ensures { result ≡ length (locations_of item.now) }
{
    match item {
        Item::Block(_) => 0,
        Item::Inode(inode) => match &inode.content {
            Content::Regular { blocks, .. } => links_in(blocks.as_slice()),
            Content::Directory { .. } | Content::SymbolicLink { .. } => 0,
        },
        Item::Page(page) => page.slots.as_slice().len(),
        Item::Check(check) => check.pages.as_slice().len(),
    }
}

/// How many bytes stand for the content of a node.
fn content_length(content: &Content) -> usize
    requires { IsContent content.now }
    ensures { result ≡ length_of_content content.now }
{
    match content {
        Content::Regular { blocks, .. } => 4 + 16 * blocks.as_slice().len(),
        Content::Directory { rows, .. } => 20 + rows_size(rows.as_slice()) as usize,
        Content::SymbolicLink { text } => 4 + text.as_slice().len(),
    }
}

/// How many bytes the body of an item has.
pub fn body_length(item: &Item) -> usize
    requires { IsItem item.now }
    ensures { result ≡ length_of_body item.now }
{
    match item {
        Item::Block(block) => block.bytes.as_slice().len(),
        Item::Inode(inode) => 72 + content_length(&inode.content),
        Item::Page(page) => 12 + 24 * page.slots.as_slice().len(),
        Item::Check(check) => {
            64 + 24 * check.pages.as_slice().len() + 8 * check.touched.as_slice().len()
        }
    }
}

/// How many bytes the encoding of an item has: 60, 28 for each item that it links to, and those of its body. The condition is
/// that it is an item of the format.
pub fn item_length(item: &Item) -> u32
    requires { IsItem item.now }
    ensures { result ≡ length (item_bytes item.now) }
{
    (60 + 28 * links_of(item) + body_length(item)) as u32
}
