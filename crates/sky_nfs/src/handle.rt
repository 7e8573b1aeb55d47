//! File handles.

ghost use Rattle.std.specs.Prelude.{◌≡◌, ◌≤◌, length};
ghost use Rattle.sky_base.specs.Limits.{max_handle_bytes};

use std::marker::Model;

/// A file handle of this server: the volume and the node that it names.
#[derive(Clone, Copy)]
pub struct Handle {
    /// The volume's number.
    pub volume: u64,
    /// The node's number in the volume.
    pub fileid: u64,
}

/// A file handle as a caller sent it (`nfs_fh3`, RFC 1813 section 2.6): at most 64 bytes. Contracts see it as the
/// list of its bytes.
#[derive(Drop)]
pub struct RawHandle {
    bytes: [u8; RawHandle::MAX],
    count: usize,
}

impl Model for RawHandle {
    ghost use Rattle.std.specs.Prelude.{List, ℕ, ◌≤◌, take};
    ghost use Rattle.sky_base.specs.Limits.{max_handle_bytes};

    ghost Value = { List ℕ };

    ghost view = { λ h. take h.count h.bytes };

    ghost invariant = { λ h. h.count ≤ max_handle_bytes };
}

impl RawHandle {
    /// The most bytes that a handle has.
    pub const MAX: usize = 64;

    /// A handle of these bytes.
    pub fn new(from: &[u8]) -> RawHandle
        requires { length from.now ≤ max_handle_bytes }
        ensures { result ≡ from.now }
    {
        let mut bytes = [0; RawHandle::MAX];
        bytes[..from.len()].copy_from_slice(from);
        RawHandle {
            bytes,
            count: from.len(),
        }
    }

    /// Its bytes, to read.
    pub fn as_bytes(&self) -> &[u8]
        ensures same { result.now ≡ self.now }
        ensures most { length self.now ≤ max_handle_bytes }
    {
        &self.bytes[..self.count]
    }
}
