//! Parts of items while they are read.

use sky_base::ItemId;

/// What stands before the locations of an item.
#[derive(Clone, Copy)]
pub struct Head {
    /// Of which kind it is, from 1 to 4.
    pub kind: u32,
    pub id: ItemId,
    /// How many bytes its body has.
    pub body: u32,
    /// How many locations follow.
    pub count: u32,
    /// The digest of its body, as it says.
    pub digest: [u8; 32],
}

/// The first fields of a node behind its kind.
#[derive(Clone, Copy)]
pub struct Owner {
    pub mode: u32,
    pub nlink: u32,
    pub uid: u32,
    pub gid: u32,
}

/// The first fields of a checkpoint.
#[derive(Clone, Copy)]
pub struct CheckNumbers {
    pub volume: u64,
    pub covers: u64,
    pub next_fileid: u64,
    pub first_seq: u64,
    pub merged: u64,
    pub base_epoch: u64,
    pub base_seq: u64,
}
