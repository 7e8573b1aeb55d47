//! An entry's bytes into buffers of its length, and of one byte less.

ghost use Rattle.std.specs.Prelude.{◌^◌, ◌<◌, length, IsTrue};
ghost use Rattle.sky_nfs.specs.Calls.{is_change};
ghost use Rattle.sky_entry.specs.Entry.{entry_bytes};

use sky_entry::{entry_length, read_entry, write_entry};
use sky_nfs::Change;
use std::alloc::{AllocError, Global};
use std::test::Fail;

/// Entries as another encoder writes them, in words: one of each procedure that changes the tree, of callers with no further
/// groups, with some, and with 16.
static ROWS: [(&'static [u32], &'static str); 9] = [
    (
        &[
            84, 10, 11, 65534, 65534, 0, 8, 16, 0, 1, 0, 1, 1, 0x61000000, 1, 1, 420, 0, 0, 0, 0, 0,
        ],
        "CREATE",
    ),
    (
        &[
            80, 12, 999999999, 1000, 100, 2, 4, 24, 7, 16, 0, 1, 0, 2, 1, 1, 5, 2, 5, 0x68656c6c,
            0x6f000000,
        ],
        "WRITE",
    ),
    (
        &[
            100, 13, 0, 0, 0, 1, 1, 2, 16, 0, 1, 0, 2, 0, 0, 0, 1, 0, 7, 1, 2, 5, 6, 1, 12, 13,
        ],
        "SETATTR",
    ),
    (
        &[
            84, 0, 0, 1, 2, 0, 9, 16, 0, 1, 0, 1, 2, 0x62630000, 0, 1, 3, 1, 4, 0, 0, 0,
        ],
        "MKDIR",
    ),
    (
        &[
            84, 0xffffffff, 0xffffffff, 1, 2, 0, 10, 16, 0, 1, 0, 1, 3, 0x64656600, 0, 0, 0, 0, 0,
            0, 2, 0x2f780000,
        ],
        "SYMLINK",
    ),
    (
        &[52, 1, 2, 1, 2, 0, 12, 16, 0, 1, 0, 1, 1, 0x61000000],
        "REMOVE",
    ),
    (
        &[52, 1, 2, 1, 2, 0, 13, 16, 0, 1, 0, 1, 4, 0x62636465],
        "RMDIR",
    ),
    (
        &[
            144, 14, 15, 7, 8, 16, 9, 10, 11, 12, 13, 14, 15, 16, 17, 18, 19, 20, 21, 22, 23, 24,
            14, 16, 0, 1, 0, 1, 1, 0x61000000, 16, 0, 1, 0, 1, 1, 0x62000000,
        ],
        "RENAME",
    ),
    (
        &[
            76, 1, 2, 1, 2, 1, 3, 15, 16, 0, 1, 0, 2, 16, 0, 1, 0, 1, 3, 0x67686900,
        ],
        "LINK",
    ),
];

/// The bytes of words.
fn bytes_of(alloc: Global, words: &[u32]) -> Result<Vec<u8>, AllocError> {
    let mut bytes = Vec::new(alloc);
    for word in words {
        bytes.extend_from_slice(&word.to_be_bytes())?;
    }
    Ok(bytes)
}

/// Whether all of these bytes are 9.
fn are_nines(bytes: &[u8]) -> bool {
    for byte in bytes {
        if *byte != 9 {
            return false;
        }
    }
    true
}

/// Whether a change's entry is written as all of these bytes but the last, which is 9 and stays, and nothing is written into a buffer of
/// one byte less than the entry.
fn is_written(alloc: Global, change: &Change, bytes: &[u8]) -> Result<bool, AllocError>
    requires changes { IsTrue (is_change change.now.call) }
    requires small { length (entry_bytes change.now) < 2 ^ 32 }
{
    let size = bytes.len().saturating_sub(1);
    let mut short = vec![in alloc; 9; size.saturating_sub(1)]?;
    let mut whole = vec![in alloc; 9; bytes.len()]?;
    let refused = write_entry(&mut short, change).is_err() && are_nines(&short);
    let written = matches!(write_entry(&mut whole, change), Ok(count) if count == size);
    let length = entry_length(change) as usize;
    Ok(refused && written && length == size && whole.as_slice() == bytes)
}

/// Whether the entry of these words is read, whatever follows it, and written again.
fn is_as_written(alloc: Global, words: &[u32]) -> Option<bool> {
    let mut bytes = bytes_of(alloc, words).ok()?;
    let size = bytes.len();
    bytes.push(9).ok()?;
    if size > 160 {
        return None;
    }
    let (change, count) = read_entry(alloc, &bytes).ok()?;
    let written = is_written(alloc, &change, &bytes).ok()?;
    Some(written && count == size)
}

#[test]
fn rows_are_read_and_written(rt: HostRuntime) -> Result<(), Fail> {
    for (words, name) in &ROWS {
        if is_as_written(rt.alloc(), words) != Some(true) {
            return Err((*name).into());
        }
    }
    Ok(())
}
