//! Writing into the bytes of an object.

ghost use Rattle.std.specs.Prelude.{◌≡◌, ◌≤◌, ◌+◌, ◌++◌, length, take, drop, vec_capacity, OnOk, OnErr};
ghost use Rattle.sky_base.specs.Limits.{max_object_bytes};
ghost use Rattle.sky_xdr.specs.Encoding.{uint};
ghost use Rattle.sky_item.specs.Encoding.{item_bytes};
ghost use Rattle.sky_item.specs.Items.{IsItem};
ghost use Rattle.sky_segment.specs.Objects.{object_header_bytes};
ghost use Rattle.sky_segment.specs.Damages.{count_place};

use sky_base::NoMemory;
use sky_item::{Item, item_length, write_item};

/// The most bytes of an object.
pub const OBJECT_BYTES: usize = 4_194_304;

/// Makes room for more bytes: at least twice as much as there was, but no more than an object may have.
fn make_room(bytes: &mut Vec<u8>, more: usize) -> Result<(), NoMemory>
    requires { length bytes.old.items + more ≤ max_object_bytes }
    ensures same { bytes.new.items ≡ bytes.old.items }
    ensures room { OnOk result (length bytes.old.items + more ≤ vec_capacity bytes.new) }
{
    let needed = bytes.len() + more;
    if bytes.capacity() < needed {
        let room = bytes
            .capacity()
            .saturating_mul(2)
            .min(OBJECT_BYTES)
            .max(needed);
        bytes.reserve_exact(room - bytes.len())?;
    }
    Ok(())
}

/// Writes an item to the end of bytes, where just its bytes are kept free.
fn write_behind(bytes: &mut [u8], start: usize, item: &Item)
    requires item { IsItem item.now }
    requires room { length bytes.old ≡ start + length (item_bytes item.now) }
    ensures { bytes.new ≡ take start bytes.old ++ item_bytes item.now }
{
    write_item(&mut bytes[start..], item).unwrap();
}

/// Puts an item behind bytes.
pub fn push_item(bytes: &mut Vec<u8>, item: &Item) -> Result<(), NoMemory>
    requires item { IsItem item.now }
    requires fits { length bytes.old.items + length (item_bytes item.now) ≤ max_object_bytes }
    ensures ok { OnOk result (bytes.new.items ≡ bytes.old.items ++ item_bytes item.now) }
    ensures err { OnErr result (bytes.new.items ≡ bytes.old.items) }
{
    let start = bytes.len();
    let size = item_length(item) as usize;
    make_room(bytes, size)?;
    bytes.resize(start + size, 0)?;
    write_behind(bytes.as_mut_slice(), start, item);
    Ok(())
}

/// Writes into a header how many items there are.
#[tactic(auto, unfolding(sky_xdr::specs::Encoding::uint))]
fn write_count(bytes: &mut [u8], count: u32)
    requires { object_header_bytes ≤ length bytes.old }
    ensures written { bytes.new ≡ take count_place bytes.old ++ uint count ++ drop object_header_bytes bytes.old }
    ensures size { length bytes.new ≡ length bytes.old }
{
    bytes[32..36].copy_from_slice(&count.to_be_bytes());
}

/// Writes into the header of an object how many items there are.
pub fn set_count(bytes: &mut Vec<u8>, count: u32)
    requires { object_header_bytes ≤ length bytes.old.items }
    ensures { bytes.new.items ≡ take count_place bytes.old.items ++ uint count ++ drop object_header_bytes bytes.old.items }
{
    write_count(bytes.as_mut_slice(), count);
}
