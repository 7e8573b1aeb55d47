//! The items of the log.

ghost use Rattle.std.specs.Prelude.{◌≡◌};

use crate::lists::{BlockLinks, DirRows, Fileids, ItemBytes, NumberedLinks};
use sky_base::{ItemId, Moment};

/// A block: 1 to 32,768 bytes of a file, from a multiple of 32,768 on. What of that range lies behind them in the file is zero.
#[derive(Drop)]
pub struct BlockItem {
    pub id: ItemId,
    pub bytes: ItemBytes,
}

/// When a node was last read, when its content last changed, and when its content or its attributes last changed.
#[derive(Clone, Copy)]
pub struct Times {
    pub atime: Moment,
    pub mtime: Moment,
    pub ctime: Moment,
}

/// What an inode says of a node of any kind.
#[derive(Clone, Copy)]
pub struct Attributes {
    /// The access bits, below 0o10000.
    pub mode: u32,
    /// The number of hard links; at most 32,000, but for a directory.
    pub nlink: u32,
    pub uid: u32,
    pub gid: u32,
    pub times: Times,
    /// The verifier that it was created under, if any (createverf3, RFC 1813 section 3.3.8).
    pub verifier: Option<[u8; 8]>,
    /// Its number in the volume, below 2^26.
    pub fileid: u64,
}

/// What a node holds.
#[derive(Drop)]
pub enum Content {
    /// A regular file.
    Regular {
        /// Its size in bytes, at most 2^30.
        size: u64,
        /// Its blocks, as many as the size takes.
        blocks: BlockLinks,
    },
    /// A directory.
    Directory {
        /// The fileid of the directory that it lies in, below 2^26.
        parent: u64,
        /// The cookie of the entry that is added next, at most 2^62.
        next_cookie: u64,
        /// Its entries, of at most 2^20 bytes as the size of a directory counts them.
        rows: DirRows,
    },
    /// A symbolic link.
    SymbolicLink {
        /// Its text, at most 1,024 bytes.
        text: ItemBytes,
    },
}

/// An inode: a node of the tree, with links to the blocks of a file.
#[derive(Drop)]
pub struct InodeItem {
    pub id: ItemId,
    pub attributes: Attributes,
    pub content: Content,
}

/// A page of the map of inodes: where the inodes of 2,048 fileids lie, by these.
#[derive(Drop)]
pub struct PageItem {
    pub id: ItemId,
    /// The number of the page, below 32,768: the fileids divided by 2,048.
    pub number: u64,
    /// The inodes, 1 to 2,048 of them, by their fileids.
    pub slots: NumberedLinks,
}

/// A checkpoint: where the map of inodes lies, and up to which change of the history it stands for it.
#[derive(Drop)]
pub struct CheckItem {
    pub id: ItemId,
    /// The number of the volume, from 1 to 2^62.
    pub volume: u64,
    /// How many changes of the history it covers, below 2^62.
    pub covers: u64,
    /// The fileid of the node that is made next, at most 2^26.
    pub next_fileid: u64,
    /// The number of the first object of its batch, below 2^62.
    pub first_seq: u64,
    /// The last run of the cleaner that was merged, below 2^62.
    pub merged: u64,
    /// Of the cleaner: the epoch of the checkpoint that the run began from, below 2^62.
    pub base_epoch: u64,
    /// Of the cleaner: the number of that checkpoint's object, below 2^62.
    pub base_seq: u64,
    /// The pages of the map of inodes, by their numbers.
    pub pages: NumberedLinks,
    /// Of the cleaner: the files whose inodes the run wrote.
    pub touched: Fileids,
}

/// An item of the log.
#[derive(Drop)]
pub enum Item {
    /// 1: bytes of a file.
    Block(BlockItem),
    /// 2: a node.
    Inode(InodeItem),
    /// 3: a page of the map of inodes.
    Page(PageItem),
    /// 4: a checkpoint.
    Check(CheckItem),
}

impl Item {
    ghost use Rattle.sky_item.specs.Encoding.{id_of};

    /// Its identifier.
    pub fn id(&self) -> ItemId
        ensures { result ≡ id_of self.now }
    {
        match self {
            Item::Block(block) => block.id,
            Item::Inode(inode) => inode.id,
            Item::Page(page) => page.id,
            Item::Check(check) => check.id,
        }
    }
}
