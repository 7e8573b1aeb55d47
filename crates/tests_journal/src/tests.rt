//! What the tests of the journal share.

use sky_base::NoMemory;
use sky_journal::Grammar;
use std::alloc::Global;

mod bases;
mod entries;
mod script;

/// The bytes of an area in these tests.
const AREA: u64 = 1 << 18;

/// The grammar of entries that are a length and a digit.
#[derive(Drop)]
struct Digits;

impl Grammar for Digits {
    ghost use Rattle.std.specs.Prelude.{◌==◌, ◌&&◌, length, slice_index, nat_le};

    ghost is_entry = { λ e. length e == 5 && nat_le 48 (slice_index e 4) && nat_le (slice_index e 4) 57 };

    fn spells(&mut self, _alloc: Global, entry: &[u8]) -> Result<bool, NoMemory> {
        Ok(entry.len() == 5 && entry[4] >= 48 && entry[4] <= 57)
    }
}
