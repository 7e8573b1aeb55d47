//! The name of an entry of a directory.

ghost use Rattle.std.specs.Prelude.{◌≡◌, ◌≤◌, ◌↔◌, length, IsSome, IfSome};
ghost use Rattle.sky_base.specs.Limits.{max_name_bytes};

use std::marker::Model;

/// The name of an entry of a directory: at most 255 bytes. Contracts see it as the list of its bytes.
#[derive(Drop)]
pub struct Name {
    bytes: Vec<u8>,
}

impl Model for Name {
    ghost use Rattle.std.specs.Prelude.{List, ℕ, ◌≤◌, length};
    ghost use Rattle.sky_base.specs.Limits.{max_name_bytes};

    ghost Value = { List ℕ };

    ghost view = { λ n. n.bytes.items };

    ghost invariant = { λ n. length n.bytes.items ≤ max_name_bytes };
}

impl Name {
    /// The most bytes that a name has.
    pub const MAX: usize = 255;

    /// The name with these bytes, which it takes over. `None` where there are more than 255; they are given up then.
    pub fn new(bytes: Vec<u8>) -> Option<Name>
        ensures fits { IsSome result ↔ (length bytes.items ≤ max_name_bytes) }
        ensures same { IfSome result (λ name. name ≡ bytes.items) }
    {
        if bytes.len() <= Name::MAX {
            Some(Name { bytes })
        } else {
            None
        }
    }

    /// Its bytes, to read.
    pub fn as_bytes(&self) -> &[u8]
        ensures same { result.now ≡ self.now }
        ensures most { length self.now ≤ max_name_bytes }
    {
        self.bytes.as_slice()
    }

    /// Its bytes, given back.
    pub fn into_bytes(self) -> Vec<u8>
        ensures same { result.items ≡ self }
        ensures most { length self ≤ max_name_bytes }
    {
        self.bytes
    }
}
