//! Taking the fields of items, each judged by itself and by those before it.

ghost use Rattle.std.specs.Prelude.{◌≡◌, ◌≤◌, IfOk, length};
ghost use Rattle.sky_base.specs.Limits.{max_number, max_object_bytes};
ghost use Rattle.sky_item.specs.Reading.{uint_within, uhyper_within, raw_at, ushort_up_to};
ghost use Rattle.sky_item.specs.Fields.{id_at, dir_of, location_at};
ghost use Rattle.sky_item.specs.Taking.{Takes, TakesBy};

use crate::fault::Refusal;
use sky_base::{Dir, ItemId, Location};
use sky_xdr::Reader;

/// The largest number of an epoch, of a run, and of an object within it.
pub const LAST_NUMBER: u64 = (1 << 62) - 1;

/// The most bytes of an object.
pub const OBJECT_BYTES: u32 = 4_194_304;

/// Takes a number of four bytes, from the least to the most.
#[tactic(auto, unfolding(crate::specs::Reading::uint_within))]
pub fn take_u32(reader: &mut Reader<'_>, least: u32, most: u32) -> Result<u32, Refusal>
    ensures exact { Takes result reader.new (uint_within least most reader.old) }
    ensures least { IfOk result (λ n. least ≤ n) }
    ensures most { IfOk result (λ n. n ≤ most) }
{
    let left = reader.rest().len();
    let Ok(n) = reader.take_u32() else {
        return Err(Refusal::At { left });
    };
    if n < least || most < n {
        return Err(Refusal::At { left });
    }
    Ok(n)
}

/// Takes a number of eight bytes, from the least to the most.
#[tactic(auto, unfolding(crate::specs::Reading::uhyper_within))]
pub fn take_u64(reader: &mut Reader<'_>, least: u64, most: u64) -> Result<u64, Refusal>
    ensures exact { Takes result reader.new (uhyper_within least most reader.old) }
    ensures least { IfOk result (λ n. least ≤ n) }
    ensures most { IfOk result (λ n. n ≤ most) }
{
    let left = reader.rest().len();
    let Ok(n) = reader.take_u64() else {
        return Err(Refusal::At { left });
    };
    if n < least || most < n {
        return Err(Refusal::At { left });
    }
    Ok(n)
}

/// Takes so many bytes.
#[tactic(auto, unfolding(crate::specs::Reading::raw_at))]
pub fn take_raw<'a>(reader: &mut Reader<'a>, count: usize) -> Result<&'a [u8], Refusal>
    ensures exact { TakesBy (λ x. x.now) result reader.new (raw_at count reader.old) }
    ensures size { IfOk result (λ x. length x.now ≡ count) }
{
    let rest = reader.rest();
    if rest.len() < count {
        return Err(Refusal::At { left: rest.len() });
    }
    let (bytes, behind) = rest.split_at(count);
    *reader = Reader::over(behind);
    Ok(bytes)
}

/// Takes a number of two bytes, at most the most.
#[tactic(auto, unfolding(crate::specs::Reading::ushort_up_to, crate::specs::Reading::half_word))]
pub fn take_u16(reader: &mut Reader<'_>, most: u16) -> Result<u16, Refusal>
    ensures exact { Takes result reader.new (ushort_up_to most reader.old) }
    ensures most { IfOk result (λ n. n ≤ most) }
{
    let rest = reader.rest();
    if rest.len() < 2 {
        return Err(Refusal::At { left: rest.len() });
    }
    let n = u16::from_be_bytes([rest[0], rest[1]]);
    if most < n {
        return Err(Refusal::At { left: rest.len() });
    }
    *reader = Reader::over(&rest[2..]);
    Ok(n)
}

/// Takes an identifier.
#[tactic(auto, unfolding(crate::specs::Fields::id_at, crate::specs::Reading::bind, crate::specs::Reading::give))]
pub fn take_id(reader: &mut Reader<'_>) -> Result<ItemId, Refusal>
    ensures { Takes result reader.new (id_at reader.old) }
{
    let epoch = take_u64(reader, 0, LAST_NUMBER)?;
    let counter = take_u64(reader, 0, u64::MAX)?;
    Ok(ItemId { epoch, counter })
}

/// The directory that a number stands for.
fn dir_of(code: u32) -> Dir
    ensures { result ≡ dir_of code }
{
    if code == 0 { Dir::Proxy } else { Dir::Cleaner }
}

/// Takes a location.
#[tactic(auto, unfolding(crate::specs::Fields::location_at, crate::specs::Reading::bind, crate::specs::Reading::give))]
pub fn take_location(reader: &mut Reader<'_>) -> Result<Location, Refusal>
    ensures { Takes result reader.new (location_at reader.old) }
{
    let dir = take_u32(reader, 0, 1)?;
    let run = take_u64(reader, 0, LAST_NUMBER)?;
    let seq = take_u64(reader, 0, LAST_NUMBER)?;
    let offset = take_u32(reader, 0, OBJECT_BYTES)?;
    let length = take_u32(reader, 0, OBJECT_BYTES - offset)?;
    Ok(Location {
        dir: dir_of(dir),
        run,
        seq,
        offset,
        length,
    })
}
