//! The header of an object.

ghost use Rattle.std.specs.Prelude.{◌≡◌, ◌≤◌, ◌+◌, ◌++◌, length, drop, IfOk};
ghost use Rattle.sky_xdr.specs.Reading.{word, double_word};
ghost use Rattle.sky_item.specs.Encoding.{dir_code};
ghost use Rattle.sky_segment.specs.Objects.{last_code, object_header, object_header_bytes};
ghost use Rattle.sky_segment.specs.Damages.{header_fields, first_wrong};

use sky_base::{Dir, SegName};
use std::alloc::{AllocError, Global};

/// What an object begins with.
const MAGIC: [u8; 8] = *b"SKYSEG1\n";

/// How many bytes an object has before its items.
pub const HEADER_BYTES: usize = 36;

/// The number of a directory of the cloud.
fn code_of(dir: Dir) -> u32
    ensures { result ≡ dir_code dir }
{
    match dir {
        Dir::Proxy => 0,
        Dir::Cleaner => 1,
    }
}

/// The number that says whether an object ends a batch.
fn code_of_last(last: bool) -> u32
    ensures { result ≡ last_code last }
{
    if last { 1 } else { 0 }
}

/// The number in four bytes at a place.
#[tactic(auto, unfolding(sky_xdr::specs::Reading::word))]
pub fn number_at(bytes: &[u8], place: usize) -> u32
    requires { place + 4 ≤ length bytes.now }
    ensures { result ≡ word (drop place bytes.now) }
{
    u32::from_be_bytes([
        bytes[place],
        bytes[place + 1],
        bytes[place + 2],
        bytes[place + 3],
    ])
}

/// The number in eight bytes at a place.
#[tactic(auto, unfolding(sky_xdr::specs::Reading::double_word))]
fn long_number_at(bytes: &[u8], place: usize) -> u64
    requires { place + 8 ≤ length bytes.now }
    ensures { result ≡ double_word (drop place bytes.now) }
{
    u64::from_be_bytes([
        bytes[place],
        bytes[place + 1],
        bytes[place + 2],
        bytes[place + 3],
        bytes[place + 4],
        bytes[place + 5],
        bytes[place + 6],
        bytes[place + 7],
    ])
}

/// The place of the first field of a header that is not as the object's name wants it.
pub fn wrong_field(name: SegName, bytes: &[u8]) -> Option<u32>
    requires { object_header_bytes ≤ length bytes.now }
    ensures { result ≡ first_wrong (header_fields name bytes.now) }
{
    if bytes[..8] != MAGIC[..] {
        return Some(0);
    }
    if number_at(bytes, 8) != code_of(name.dir) {
        return Some(8);
    }
    if long_number_at(bytes, 12) != name.run {
        return Some(12);
    }
    if long_number_at(bytes, 20) != name.seq {
        return Some(20);
    }
    if number_at(bytes, 28) != code_of_last(name.last) {
        return Some(28);
    }
    if name.last && number_at(bytes, 32) != 1 {
        return Some(32);
    }
    None
}

/// The header of an object of no items.
#[tactic(auto, unfolding(crate::specs::Objects::object_header, sky_xdr::specs::Encoding::uint, sky_xdr::specs::Encoding::uhyper))]
pub fn empty_header(alloc: Global, name: SegName) -> Result<Vec<u8>, AllocError>
    ensures { IfOk result (λ bytes. bytes.items ≡ object_header name 0) }
{
    let mut bytes = Vec::with_capacity(alloc, HEADER_BYTES)?;
    bytes.extend_from_slice(&MAGIC)?;
    bytes.extend_from_slice(&code_of(name.dir).to_be_bytes())?;
    bytes.extend_from_slice(&name.run.to_be_bytes())?;
    bytes.extend_from_slice(&name.seq.to_be_bytes())?;
    bytes.extend_from_slice(&code_of_last(name.last).to_be_bytes())?;
    bytes.extend_from_slice(&0u32.to_be_bytes())?;
    Ok(bytes)
}
