//! A stream as a list of pieces.

ghost use Rattle.std.specs.Prelude.{◌≡◌, ℕ, ◌<◌, ◌≤◌, List, [], ◌∷◌, ◌++◌, length, take, OnOk, IfOk};
ghost use Rattle.std.specs.List.{flat_map};
ghost use Rattle.sky_record.specs.Stream.{Received, nothing, IsOpen, ReadsRecords};
ghost use Rattle.sky_record.specs.Feeding.{contents};

use crate::assembler::{Assembler, Fed};
use sky_base::NoMemory;
use std::alloc::Global;

/// Moves the message to the end of the records.
fn take_message(
    alloc: Global,
    assembler: &mut Assembler,
    records: &mut Vec<Vec<u8>>,
) -> Result<(), NoMemory>
    ensures records { OnOk result (contents records.new.items ≡ contents records.old.items ++ assembler.old.bytes ∷ []) }
    ensures cleared { OnOk result (assembler.new ≡ nothing) }
{
    let message = Vec::from_slice(alloc, assembler.message())?;
    records.push(message)?;
    assembler.clear();
    Ok(())
}

/// Feeds the piece once, and adds the record that ends in it, if one does. Answers how many bytes were taken.
fn feed_once(
    alloc: Global,
    assembler: &mut Assembler,
    piece: &[u8],
    records: &mut Vec<Vec<u8>>,
) -> Result<usize, NoMemory>
    requires ready { IsOpen assembler.old.progress }
    ensures taken { IfOk result (λ taken. taken ≤ length piece.now) }
    ensures some { IfOk result (λ taken. 0 < length piece.now → 0 < taken) }
    ensures reads { IfOk result (λ taken. (stream : List ℕ) → ReadsRecords stream (contents records.old.items) assembler.old
        → ReadsRecords (stream ++ take taken piece.now) (contents records.new.items) assembler.new) }
{
    let (taken, fed) = assembler.feed(piece);
    match fed {
        Fed::Message => {
            take_message(alloc, assembler, records)?;
            Ok(taken)
        }
        Fed::More | Fed::TooLong => Ok(taken),
    }
}

/// Takes a whole piece, and adds each record that ends in it. Behind a record that is too long nothing is read.
fn feed_whole(
    alloc: Global,
    assembler: &mut Assembler,
    piece: &[u8],
    records: &mut Vec<Vec<u8>>,
) -> Result<(), NoMemory>
    ensures { OnOk result ((stream : List ℕ) → ReadsRecords stream (contents records.old.items) assembler.old
        → ReadsRecords (stream ++ piece.now) (contents records.new.items) assembler.new) }
{
    let mut taken = 0;
    while taken < piece.len() && assembler.is_ready() {
        taken += feed_once(alloc, assembler, &piece[taken..], records)?;
    }
    Ok(())
}

/// The records of a stream that comes in these pieces, and the assembler as it stands behind the last piece: with the
/// record under way, or with the one that is too long. Fails where memory runs out.
pub fn assemble(alloc: Global, pieces: &[&[u8]]) -> Result<(Vec<Vec<u8>>, Assembler), NoMemory>
    // Joined, the pieces read as these records and this end.
    ensures reads { IfOk result (λ read. ReadsRecords (flat_map (λ piece. piece.now) pieces.now) (contents read.0.items) read.1) }
    // They read in no other way, so it does not matter how the stream was cut into pieces.
    ensures only { IfOk result (λ read. (others : List (List ℕ)) (end : Received)
        → ReadsRecords (flat_map (λ piece. piece.now) pieces.now) others end → (contents read.0.items ≡ others) × (read.1 ≡ end)) }
{
    let mut assembler = Assembler::new(alloc)?;
    let mut records = Vec::new(alloc);
    for piece in pieces {
        feed_whole(alloc, &mut assembler, piece, &mut records)?;
    }
    Ok((records, assembler))
}
