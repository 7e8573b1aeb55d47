//! What an entry of the journal is made of.

ghost use Rattle.std.specs.Prelude.{◌≡◌, List, ℕ, Bool, IfOk};

use sky_base::NoMemory;
use std::alloc::Global;

/// What entries are: the journal itself knows only that an entry begins with its length.
pub trait Grammar {
    /// Whether bytes are one entry.
    ghost is_entry: { List ℕ → Bool };

    /// Says whether these bytes are one entry. `NoMemory` where there is no memory to find out.
    fn spells(&mut self, alloc: Global, entry: &[u8]) -> Result<bool, NoMemory>
        ensures { IfOk result (λ is. is ≡ Self.is_entry entry.now) };
}
