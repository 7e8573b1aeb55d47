//! Where an item of the log lies, and how one is lost.

ghost use Rattle.std.specs.Prelude.{◌≡◌, false};

use crate::object::{Dir, SegName};

/// The identifier of an item of the log: a block, an inode, a page or a checkpoint. Copies of an item at several places
/// have one identifier.
#[derive(Clone, Copy, Debug, PartialEq, Eq)]
pub struct ItemId {
    /// The epoch of the proxy that made it, or the number of the cleaner's run.
    pub epoch: u64,
    /// Its number within that.
    pub counter: u64,
}

/// Where an item lies in the cloud: in a segment, an object of the kind `.s`.
#[derive(Clone, Copy, PartialEq, Eq)]
pub struct Location {
    /// Whose directory the segment lies in.
    pub dir: Dir,
    /// The segment's epoch or run, below 2^62.
    pub run: u64,
    /// The segment's number within that, below 2^62.
    pub seq: u64,
    /// Where the item begins in the segment, in bytes.
    pub offset: u32,
    /// How many bytes the item has.
    pub length: u32,
}

impl Location {
    /// The name of the segment that it lies in.
    pub fn name(&self) -> SegName
        ensures dir { result.dir ≡ self.now.dir }
        ensures run { result.run ≡ self.now.run }
        ensures seq { result.seq ≡ self.now.seq }
        ensures last { result.last ≡ false }
    {
        SegName {
            dir: self.dir,
            run: self.run,
            seq: self.seq,
            last: false,
        }
    }
}

/// An item and where it lies.
#[derive(Clone, Copy, PartialEq, Eq)]
pub struct Link {
    pub id: ItemId,
    pub at: Location,
}

/// What is wrong with the bytes of an item or of an object.
#[derive(Clone, Copy, Debug, PartialEq, Eq)]
pub enum Damage {
    /// They end too early.
    Short {
        /// How many bytes there are.
        held: u64,
    },
    /// A field is not of the format.
    Form {
        /// Where the field begins, in bytes.
        at: u32,
    },
    /// The digest that is stored is not that of the body (SHA-256, FIPS 180-4).
    Digest {
        stored: [u8; 32],
        computed: [u8; 32],
    },
    /// It is another item than the one that was looked for.
    Identity {
        wanted: ItemId,
        found: ItemId,
    },
}

/// Why an item cannot be had from the cloud.
#[derive(Clone, Copy, PartialEq, Eq)]
pub enum Lost {
    /// The cloud holds no object of this name.
    Missing { name: SegName },
    /// The object's bytes are not the item's.
    Damaged { name: SegName, damage: Damage },
}
