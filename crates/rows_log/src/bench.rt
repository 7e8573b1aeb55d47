//! What rows keep for the rows behind them.

use crate::words::bytes_of;
use sky_imap::Page;
use sky_segment::Builder;
use sky_usage::Usage;
use std::alloc::{AllocError, Global};
use std::io;

/// Bytes that a row keeps under its name.
#[derive(Drop)]
struct KeptRow {
    name: String,
    bytes: Vec<u8>,
}

/// The bytes that rows keep under their names.
#[derive(Drop)]
pub struct Kept {
    rows: Vec<KeptRow>,
}

impl Kept {
    /// The bytes that the row of a name keeps.
    pub fn get(&self, name: &str) -> Option<&[u8]> {
        for row in self.rows.as_slice() {
            if row.name.as_str() == name {
                return Some(row.bytes.as_slice());
            }
        }
        None
    }

    /// Keeps bytes under a name.
    pub fn put(&mut self, alloc: Global, name: &str, bytes: Vec<u8>) -> Result<(), AllocError> {
        let name = String::from_str(alloc, name)?;
        self.rows.push(KeptRow { name, bytes })?;
        Ok(())
    }
}

/// What rows keep: bytes under names, the page and the object that are being made, and the usage.
#[derive(Drop)]
pub struct Bench {
    pub kept: Kept,
    pub page: Page,
    pub builder: Option<Builder>,
    pub usage: Usage,
}

impl Bench {
    /// Nothing is kept yet.
    pub fn new(alloc: Global) -> Bench {
        Bench {
            kept: Kept {
                rows: Vec::new(alloc),
            },
            page: Page::new(alloc, 0),
            builder: None,
            usage: Usage::new(alloc),
        }
    }
}

/// Keeps bytes under the row's name.
pub fn keep(
    rt: &impl Print,
    alloc: Global,
    kept: &mut Kept,
    name: &str,
    args: &[&str],
) -> Option<io::Result<()>> {
    let [word] = args else {
        return None;
    };
    let bytes = bytes_of(alloc, kept, word)?;
    let count = bytes.len();
    kept.put(alloc, name, bytes).ok()?;
    Some(println!(rt; "{name} {count} bytes"))
}

/// Whether bytes are the same.
pub fn same(
    rt: &impl Print,
    alloc: Global,
    kept: &Kept,
    name: &str,
    args: &[&str],
) -> Option<io::Result<()>> {
    let [one, other] = args else {
        return None;
    };
    let one = bytes_of(alloc, kept, one)?;
    if one != bytes_of(alloc, kept, other)? {
        return Some(println!(rt; "{name} not the same"));
    }
    Some(println!(rt; "{name} the same {} bytes", one.len()))
}
