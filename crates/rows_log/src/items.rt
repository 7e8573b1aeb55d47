//! Rows of bytes that are items or objects.

ghost use Rattle.std.specs.Prelude.{IfOk};
ghost use Rattle.sky_item.specs.Items.{IsItem};

use crate::bench::Kept;
use crate::text::{Bytes, Fault, Shown};
use crate::words::{bytes_of, name_of, size};
use sky_base::{Damage, SegName};
use sky_item::{Item, ItemFault, item_length, read_item, write_item};
use sky_segment::read_segment;
use std::alloc::Global;
use std::io;

/// What each byte of a buffer is before an item is written into it.
const BEFORE: u8 = 9;

/// `item WHAT BYTES ..`: what a row of items answers.
pub fn item(
    rt: &impl Print,
    alloc: Global,
    kept: &Kept,
    row: &str,
    args: &[&str],
) -> Option<io::Result<()>> {
    let [what, word, others @ ..] = args else {
        return None;
    };
    let mut bytes = bytes_of(alloc, kept, word)?;
    match *what {
        "read" => Some(read(rt, alloc, row, &bytes)),
        "changed" => {
            change(alloc, kept, &mut bytes, others)?;
            Some(read(rt, alloc, row, &bytes))
        }
        "write" => write(rt, alloc, row, &bytes, others),
        "prefixes" => Some(prefixes(rt, alloc, row, None, &bytes)),
        _ => None,
    }
}

/// `object WHAT NAME BYTES ..`: what a row of objects answers.
pub fn object(
    rt: &impl Print,
    alloc: Global,
    kept: &Kept,
    row: &str,
    args: &[&str],
) -> Option<io::Result<()>> {
    let [what, object, word, others @ ..] = args else {
        return None;
    };
    let object = name_of(object)?;
    let mut bytes = bytes_of(alloc, kept, word)?;
    match *what {
        "read" => Some(count(rt, alloc, row, object, &bytes)),
        "items" => Some(items(rt, alloc, row, object, &bytes)),
        "changed" => {
            change(alloc, kept, &mut bytes, others)?;
            Some(count(rt, alloc, row, object, &bytes))
        }
        "prefixes" => Some(prefixes(rt, alloc, row, Some(object), &bytes)),
        _ => None,
    }
}

/// `AT BYTES`: has others stand in bytes from a place on.
fn change(alloc: Global, kept: &Kept, bytes: &mut [u8], args: &[&str]) -> Option<()> {
    let [at, word] = args else {
        return None;
    };
    let at = size(at)?;
    let new = bytes_of(alloc, kept, word)?;
    if at > bytes.len() || new.len() > bytes.len() - at {
        return None;
    }
    bytes[at..at + new.len()].copy_from_slice(&new);
    Some(())
}

/// The item that bytes are, or why they are none.
pub fn item_of(alloc: Global, bytes: &[u8]) -> Result<Item, ItemFault>
    ensures { IfOk result IsItem }
{
    if bytes.len() >= 1 << 32 {
        return Err(ItemFault::Memory);
    }
    read_item(alloc, bytes)
}

/// The items that an object is, or why it is none.
fn items_of(alloc: Global, object: SegName, bytes: &[u8]) -> Result<Vec<Item>, ItemFault> {
    if object.run >= 1 << 62 || object.seq >= 1 << 62 {
        return Err(ItemFault::Memory);
    }
    read_segment(alloc, object, bytes)
}

/// Prints the item that bytes are, or what is wrong with them.
fn read(rt: &impl Print, alloc: Global, row: &str, bytes: &[u8]) -> io::Result<()> {
    match item_of(alloc, bytes) {
        Ok(item) => println!(rt; "{row} {}", Shown(&item)),
        Err(fault) => println!(rt; "{row} {}", Fault(fault)),
    }
}

/// Prints how many items an object is, or what is wrong with its bytes.
fn count(
    rt: &impl Print,
    alloc: Global,
    row: &str,
    object: SegName,
    bytes: &[u8],
) -> io::Result<()> {
    match items_of(alloc, object, bytes) {
        Ok(items) => println!(rt; "{row} {} items", items.len()),
        Err(fault) => println!(rt; "{row} {}", Fault(fault)),
    }
}

/// Prints the items that an object is, a line each, or what is wrong with its bytes.
fn items(
    rt: &impl Print,
    alloc: Global,
    row: &str,
    object: SegName,
    bytes: &[u8],
) -> io::Result<()> {
    match items_of(alloc, object, bytes) {
        Ok(items) => lines(rt, row, &items),
        Err(fault) => println!(rt; "{row} {}", Fault(fault)),
    }
}

/// Prints items, a line each.
fn lines(rt: &impl Print, row: &str, items: &[Item]) -> io::Result<()> {
    for item in items {
        println!(rt; "{row} {}", Shown(item))?;
    }
    Ok(())
}

/// `ROOM`: prints the length of an item, and what a buffer of so many bytes is when it was written there.
fn write(
    rt: &impl Print,
    alloc: Global,
    row: &str,
    bytes: &[u8],
    args: &[&str],
) -> Option<io::Result<()>> {
    let room = size(args.first()?)?;
    let item = item_of(alloc, bytes).ok()?;
    let mut buffer = Vec::new(alloc);
    buffer.resize(room, BEFORE).ok()?;
    let written = write_item(&mut buffer, &item).ok();
    Some(print_written(rt, row, item_length(&item), written, &buffer))
}

/// Prints the length of an item, and how many bytes of a buffer were written, or that there was no room.
fn print_written(
    rt: &impl Print,
    row: &str,
    length: u32,
    written: Option<usize>,
    buffer: &[u8],
) -> io::Result<()> {
    print!(rt; "{row} length {length} ")?;
    match written.and_then(|count| buffer.split_at_checked(count)) {
        Some((front, behind)) => {
            println!(rt;
                "wrote {}: {} and behind it {}",
                front.len(),
                Bytes(front),
                Bytes(behind)
            )
        }
        None => println!(rt; "no room: {}", Bytes(buffer)),
    }
}

/// Prints which prefixes of an object, or of an item, are too short from where on: ranges of lengths, each without its end.
fn prefixes(
    rt: &impl Print,
    alloc: Global,
    row: &str,
    object: Option<SegName>,
    bytes: &[u8],
) -> io::Result<()> {
    print!(rt; "{row} prefixes")?;
    let mut since = 0;
    let mut last = None;
    for n in 0..bytes.len() {
        let start = short_from(alloc, object, &bytes[..n]);
        if n > 0 && start != last {
            print_range(rt, since, n, last)?;
            since = n;
        }
        last = start;
    }
    print_range(rt, since, bytes.len(), last)?;
    println!(rt; "")
}

/// From where on bytes are too short for an object, or for an item, if they are.
fn short_from(alloc: Global, object: Option<SegName>, bytes: &[u8]) -> Option<u64> {
    let fault = match object {
        Some(name) => items_of(alloc, name, bytes).err(),
        None => item_of(alloc, bytes).err(),
    };
    match fault {
        Some(ItemFault::Damage(Damage::Short { held })) => (bytes.len() as u64).checked_sub(held),
        _ => None,
    }
}

/// Prints a range of lengths.
fn print_range(rt: &impl Print, since: usize, until: usize, start: Option<u64>) -> io::Result<()> {
    match start {
        Some(at) => print!(rt; " {since}..{until} short from {at}"),
        None => print!(rt; " {since}..{until} not short"),
    }
}
