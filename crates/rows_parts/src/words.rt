//! Words of a row, and bytes as they are shown.

use std::alloc::Global;
use std::fmt;

/// A decimal number.
pub fn number(word: &str) -> Option<u64> {
    word.parse::<u64>().ok()
}

/// A decimal number below 2^32.
pub fn small(word: &str) -> Option<u32> {
    word.parse::<u32>().ok()
}

/// The bytes that a word says: `-` for none, else pieces joined by `+`. A piece is hexadecimal digits, behind which `*3` may say that
/// they come three times.
pub fn bytes_of(alloc: Global, word: &str) -> Option<Vec<u8>> {
    let mut bytes = Vec::new(alloc);
    if word != "-" {
        for piece in word.split('+') {
            put_piece(alloc, &mut bytes, piece)?;
        }
    }
    Some(bytes)
}

/// Puts the bytes of a piece behind the others.
fn put_piece(alloc: Global, bytes: &mut Vec<u8>, piece: &str) -> Option<()> {
    let (digits, times) = match piece.split_once('*') {
        Some((digits, times)) => (digits, small(times)?),
        None => (piece, 1),
    };
    let part = hex::decode(alloc, digits).ok()?;
    for _ in 0..times {
        bytes.extend_from_slice(&part).ok()?;
    }
    Some(())
}

/// Bytes in hexadecimal, `-` for none.
#[derive(Clone, Copy)]
pub struct Hex<'a>(pub &'a [u8]);

impl fmt::Display for Hex<'_> {
    fn fmt<W: fmt::Write>(&self, f: &mut fmt::Formatter<W>) -> fmt::Result {
        if self.0.is_empty() {
            return write!(f, "-");
        }
        for byte in self.0 {
            write!(f, "{byte:02x}")?;
        }
        Ok(())
    }
}

/// How many bytes were written, or that there was no room.
#[derive(Clone, Copy)]
pub struct Count(pub Option<usize>);

impl fmt::Display for Count {
    fn fmt<W: fmt::Write>(&self, f: &mut fmt::Formatter<W>) -> fmt::Result {
        match self.0 {
            Some(count) => write!(f, "{count}"),
            None => write!(f, "no room"),
        }
    }
}

/// `ok`, or another word.
pub fn word_of(well: bool, other: &'static str) -> &'static str {
    if well { "ok" } else { other }
}
