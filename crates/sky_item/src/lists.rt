//! The lists that items hold.

ghost use Rattle.std.specs.Prelude.{◌≡◌};

use sky_base::{Link, Name};
use std::marker::Model;

/// Bytes of an item: those of a block, or the text of a symbolic link. Contracts see them as a list.
#[derive(Drop)]
pub struct ItemBytes {
    bytes: Vec<u8>,
}

impl Model for ItemBytes {
    ghost use Rattle.std.specs.Prelude.{List, ℕ};

    ghost Value = { List ℕ };

    ghost view = { λ b. b.bytes.items };
}

impl ItemBytes {
    /// These bytes, which it takes over.
    pub fn new(bytes: Vec<u8>) -> ItemBytes
        ensures { result ≡ bytes.items }
    {
        ItemBytes { bytes }
    }

    /// The bytes, to read.
    pub fn as_slice(&self) -> &[u8]
        ensures { result.now ≡ self.now }
    {
        self.bytes.as_slice()
    }

    /// The bytes, given back.
    pub fn into_vec(self) -> Vec<u8>
        ensures { result.items ≡ self }
    {
        self.bytes
    }
}

/// The blocks of a file in order: where each lies, and `None` for a hole. Contracts see them as a list.
#[derive(Drop)]
pub struct BlockLinks {
    links: Vec<Option<Link>>,
}

impl Model for BlockLinks {
    ghost use Rattle.std.specs.Prelude.{List, Option};
    ghost use Rattle.sky_base.specs.declared.place.Link.{Link};

    ghost Value = { List (Option Link) };

    ghost view = { λ b. b.links.items };
}

impl BlockLinks {
    /// These blocks, which it takes over.
    pub fn new(links: Vec<Option<Link>>) -> BlockLinks
        ensures { result ≡ links.items }
    {
        BlockLinks { links }
    }

    /// The blocks, to read.
    pub fn as_slice(&self) -> &[Option<Link>]
        ensures { result.now ≡ self.now }
    {
        self.links.as_slice()
    }

    /// The blocks, given back.
    pub fn into_vec(self) -> Vec<Option<Link>>
        ensures { result.items ≡ self }
    {
        self.links
    }
}

/// An item that goes by a number: an inode by its fileid, or a page of the map of inodes by the page's number.
#[derive(Clone, Copy)]
pub struct NumberedLink {
    pub number: u64,
    pub link: Link,
}

/// Items that go by numbers, each once, ascending by these. Contracts see them as a list.
#[derive(Drop)]
pub struct NumberedLinks {
    links: Vec<NumberedLink>,
}

impl Model for NumberedLinks {
    ghost use Rattle.std.specs.Prelude.{List};
    ghost use Rattle.sky_item.specs.declared.lists.NumberedLink.{NumberedLink};

    ghost Value = { List NumberedLink };

    ghost view = { λ n. n.links.items };
}

impl NumberedLinks {
    /// These items, which it takes over.
    pub fn new(links: Vec<NumberedLink>) -> NumberedLinks
        ensures { result ≡ links.items }
    {
        NumberedLinks { links }
    }

    /// The items, to read.
    pub fn as_slice(&self) -> &[NumberedLink]
        ensures { result.now ≡ self.now }
    {
        self.links.as_slice()
    }

    /// The items, given back.
    pub fn into_vec(self) -> Vec<NumberedLink>
        ensures { result.items ≡ self }
    {
        self.links
    }
}

/// The entries of a directory in order, each a row of its cookie, its name and the fileid that it names. Contracts see them as
/// a list.
#[derive(Drop)]
pub struct DirRows {
    rows: Vec<(u64, Name, u64)>,
}

impl Model for DirRows {
    ghost use Rattle.std.specs.Prelude.{List, ℕ};

    ghost Value = { List (ℕ × List ℕ × ℕ) };

    ghost view = { λ r. r.rows.items };
}

impl DirRows {
    /// These entries, which it takes over.
    pub fn new(rows: Vec<(u64, Name, u64)>) -> DirRows
        ensures { result ≡ rows.items }
    {
        DirRows { rows }
    }

    /// The entries, to read.
    pub fn as_slice(&self) -> &[(u64, Name, u64)]
        ensures { result.now ≡ self.now }
    {
        self.rows.as_slice()
    }

    /// The entries, given back.
    pub fn into_vec(self) -> Vec<(u64, Name, u64)>
        ensures { result.items ≡ self }
    {
        self.rows
    }
}

/// The numbers of files, each once, ascending. Contracts see them as a list.
#[derive(Drop)]
pub struct Fileids {
    ids: Vec<u64>,
}

impl Model for Fileids {
    ghost use Rattle.std.specs.Prelude.{List, ℕ};

    ghost Value = { List ℕ };

    ghost view = { λ f. f.ids.items };
}

impl Fileids {
    /// These numbers, which it takes over.
    pub fn new(ids: Vec<u64>) -> Fileids
        ensures { result ≡ ids.items }
    {
        Fileids { ids }
    }

    /// The numbers, to read.
    pub fn as_slice(&self) -> &[u64]
        ensures { result.now ≡ self.now }
    {
        self.ids.as_slice()
    }

    /// The numbers, given back.
    pub fn into_vec(self) -> Vec<u64>
        ensures { result.items ≡ self }
    {
        self.ids
    }
}
