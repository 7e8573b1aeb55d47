//! The words of rows. Each function gives `None` where a word can't be read.

ghost use Rattle.std.specs.Prelude.{◌<◌, IfSome};
ghost use Rattle.sky_base.specs.Limits.{max_number};

use crate::bench::Kept;
use sky_base::{ItemId, Link, Location, SegName};
use std::alloc::Global;

/// A decimal number.
pub fn number(word: &str) -> Option<u64> {
    word.parse::<u64>().ok()
}

/// A decimal number below 2^32.
pub fn small(word: &str) -> Option<u32> {
    word.parse::<u32>().ok()
}

/// A decimal number of bytes.
pub fn size(word: &str) -> Option<usize> {
    word.parse::<usize>().ok()
}

/// Bytes in the notation of rows: parts joined by `+`, each of them hexadecimal digits, `-` for none or `@` and the name of a row
/// that keeps bytes, and behind it `*` and how often it comes, where that isn't once. `None` too where there is no memory.
pub fn bytes_of(alloc: Global, kept: &Kept, word: &str) -> Option<Vec<u8>> {
    let mut bytes = Vec::new(alloc);
    for part in word.split('+') {
        add_part(alloc, kept, &mut bytes, part)?;
    }
    Some(bytes)
}

/// Adds the bytes of a part, so many times as it says.
fn add_part(alloc: Global, kept: &Kept, bytes: &mut Vec<u8>, part: &str) -> Option<()> {
    let (unit, count) = match part.split_once('*') {
        Some((unit, count)) => (unit, number(count)?),
        None => (part, 1),
    };
    if unit == "-" {
        return Some(());
    }
    match unit.strip_prefix('@') {
        Some(name) => add_copies(bytes, kept.get(name)?, count),
        None => add_copies(bytes, &hex::decode(alloc, unit).ok()?, count),
    }
}

/// Adds bytes so many times.
fn add_copies(bytes: &mut Vec<u8>, unit: &[u8], count: u64) -> Option<()> {
    for _ in 0..count {
        bytes.extend_from_slice(unit).ok()?;
    }
    Some(())
}

/// The name of an object, by its text.
pub fn name_of(word: &str) -> Option<SegName>
    ensures run { IfSome result (λ name. name.run < max_number) }
    ensures seq { IfSome result (λ name. name.seq < max_number) }
{
    SegName::from_text(word.as_bytes()).ok()
}

/// A place: the name of the object, the offset in it and the length.
pub fn location_of(words: &[&str]) -> Option<Location> {
    let [segment, offset, length] = words else {
        return None;
    };
    let name = name_of(segment)?;
    Some(Location {
        dir: name.dir,
        run: name.run,
        seq: name.seq,
        offset: small(offset)?,
        length: small(length)?,
    })
}

/// An identifier, and a place.
pub fn link_of(words: &[&str]) -> Option<Link> {
    let [epoch, counter, at @ ..] = words else {
        return None;
    };
    Some(Link {
        id: ItemId {
            epoch: number(epoch)?,
            counter: number(counter)?,
        },
        at: location_of(at)?,
    })
}
