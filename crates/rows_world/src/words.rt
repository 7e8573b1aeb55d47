//! Words of a row.

use std::alloc::Global;

/// The bytes that a word says: `-` for none, else pieces joined by `+`. A piece is hexadecimal digits, behind which `*3` may say that
/// they come three times.
pub fn bytes_of(alloc: Global, word: &str) -> Option<Vec<u8>> {
    let mut bytes = Vec::new(alloc);
    if word != "-" {
        for piece in word.split('+') {
            put_piece(alloc, &mut bytes, piece)?;
        }
    }
    Some(bytes)
}

/// Puts the bytes of a piece behind the others.
fn put_piece(alloc: Global, bytes: &mut Vec<u8>, piece: &str) -> Option<()> {
    let (digits, times) = match piece.split_once('*') {
        Some((digits, times)) => (digits, times.parse::<u32>().ok()?),
        None => (piece, 1),
    };
    let part = hex::decode(alloc, digits).ok()?;
    for _ in 0..times {
        bytes.extend_from_slice(&part).ok()?;
    }
    Some(())
}

/// The numbers of a list such as `3,5`, or `-` for none.
pub fn numbers_of(alloc: Global, word: &str) -> Option<Vec<u64>> {
    let mut numbers = Vec::new(alloc);
    if word == "-" {
        return Some(numbers);
    }
    for number in word.split(',') {
        numbers.push(number.parse::<u64>().ok()?).ok()?;
    }
    Some(numbers)
}
