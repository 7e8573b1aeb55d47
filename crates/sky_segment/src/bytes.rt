//! The bytes of an object.

ghost use Rattle.std.specs.Prelude.{◌≡◌};

use std::marker::Model;

/// The bytes of an object that was built. Contracts see them as a list.
#[derive(Drop)]
pub struct SegmentBytes {
    bytes: Vec<u8>,
}

impl Model for SegmentBytes {
    ghost use Rattle.std.specs.Prelude.{List, ℕ};

    ghost Value = { List ℕ };

    ghost view = { λ b. b.bytes.items };
}

impl SegmentBytes {
    /// These bytes, which it takes over.
    pub(crate) fn new(bytes: Vec<u8>) -> SegmentBytes
        ensures { result ≡ bytes.items }
    {
        SegmentBytes { bytes }
    }

    /// The bytes, to read.
    pub fn as_slice(&self) -> &[u8]
        ensures { result.now ≡ self.now }
    {
        self.bytes.as_slice()
    }

    /// The bytes, given back.
    pub fn into_vec(self) -> Vec<u8>
        ensures { result.items ≡ self }
    {
        self.bytes
    }
}
