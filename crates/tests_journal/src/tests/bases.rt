//! An area's base, the number of the last entry before it: below 2^62, as is each entry's, and not above what is kept elsewhere.

use super::{AREA, Digits};
use sky_journal::{JournalFault, read_journal};
use sky_memory::MemSite;
use std::alloc::{AllocError, Global};
use std::test::Fail;

/// What an area has before its base: an open gate, and the volume.
const HEAD: [u8; 16] = [1, 0, 0, 0, 0, 0, 0, 0, 0, 0, 0, 0, 0, 0, 0, 1];

/// What it has behind its base: forty bytes, and a batch with an open gate and one entry, the digit 1.
const BATCH: [u8; 61] = [
    0, 0, 0, 0, 0, 0, 0, 0, 0, 0, 0, 0, 0, 0, 0, 0, 0, 0, 0, 0, 0, 0, 0, 0, 0, 0, 0, 0, 0, 0, 0, 0,
    0, 0, 0, 0, 0, 0, 0, 0, 1, 0, 0, 0, 0, 0, 0, 1, 0, 0, 0, 0, 0, 0, 0, 5, 0, 0, 0, 1, b'1',
];

/// What the journal's disk has, and what it is read as.
#[derive(Clone, Copy)]
struct Row {
    name: &'static str,
    /// Where its one open area is.
    start: u64,
    base: u64,
    /// What it has behind the base, where that is not blank.
    behind: &'static [u8],
    /// The entries up to this number are kept elsewhere too.
    covers: u64,
    /// The number of the last entry, or the place at which the disk is no journal.
    says: Result<u64, u64>,
}

static ROWS: [Row; 7] = [
    Row {
        name: "2^62 is no base",
        start: 0,
        base: 1 << 62,
        behind: &[],
        covers: u64::MAX,
        says: Err(16),
    },
    Row {
        name: "a base below 2^62",
        start: 0,
        base: 63 << 56,
        behind: &[],
        covers: u64::MAX,
        says: Ok(63 << 56),
    },
    Row {
        name: "a base above what is kept",
        start: 0,
        base: 7,
        behind: &[],
        covers: 6,
        says: Err(16),
    },
    Row {
        name: "a base at what is kept",
        start: 0,
        base: 7,
        behind: &[],
        covers: 7,
        says: Ok(7),
    },
    Row {
        name: "a base above what is kept, in the second area",
        start: AREA,
        base: 7,
        behind: &[],
        covers: 6,
        says: Err(AREA + 16),
    },
    Row {
        name: "no entry has the number 2^62",
        start: 0,
        base: (1 << 62) - 1,
        behind: &BATCH,
        covers: u64::MAX,
        says: Err(64),
    },
    Row {
        name: "an entry has the number 2^62 - 1",
        start: 0,
        base: (1 << 62) - 2,
        behind: &BATCH,
        covers: u64::MAX,
        says: Ok((1 << 62) - 1),
    },
];

/// The disk of a row, of two areas for the volume 1.
fn image_of(alloc: Global, row: &Row) -> Result<Vec<u8>, AllocError> {
    let mut image = vec![in alloc; 0; row.start as usize]?;
    image.extend_from_slice(&HEAD)?;
    image.extend_from_slice(&row.base.to_be_bytes())?;
    image.extend_from_slice(row.behind)?;
    image.resize(2 * AREA as usize, 0)?;
    Ok(image)
}

/// Checks a row.
fn check(alloc: Global, row: &Row) -> Option<()> {
    let image = image_of(alloc, row).ok()?;
    let mut site = MemSite::over(alloc, image, Vec::new(alloc), 90, 200, Vec::new(alloc)).ok()?;
    let read = read_journal(alloc, &mut site, &mut Digits, 1, AREA, row.covers);
    let as_it_says = match (read, row.says) {
        (Ok(journal), Ok(last)) => journal.last() == last,
        (Err(JournalFault::Foreign { at }), Err(place)) => at == place,
        _ => false,
    };
    if as_it_says { Some(()) } else { None }
}

#[test]
fn no_entry_has_the_number_2_62(rt: HostRuntime) -> Result<(), Fail> {
    for row in &ROWS {
        check(rt.alloc(), row).ok_or(row.name)?;
    }
    Ok(())
}
