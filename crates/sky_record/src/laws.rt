//! What is true of every stream: functions with nothing to do, whose clauses are the laws.

ghost use Rattle.std.specs.Prelude.{◌≡◌, ℕ, ◌<◌, ◌≤◌, List, [], ◌++◌, length, map};
ghost use Rattle.std.specs.List.{flat_map, AllByRecursion};
ghost use Rattle.sky_base.specs.Limits.{max_record_bytes};
ghost use Rattle.sky_record.specs.Record.{Fragment, encoding, joined, IsWhole, IsRecord};
ghost use Rattle.sky_record.specs.Stream.{Received, nothing, IsOpen, ReadsRecords, Completes};

use crate::RECORD_LIMIT;

/// The limit that the code has is that of the definition.
pub fn limit_is_as_defined()
    ensures { RECORD_LIMIT ≡ max_record_bytes }
{}

/// Each stream reads as some records and an end, and in no other way, whichever fragments it is read as. Records that
/// were cut into fragments in any way read as those records, and each part of a record that is not all of it reads as
/// no record and the end that it has come to.
pub fn each_stream_has_one_reading()
    ensures some { (stream : List ℕ) → AllByRecursion (λ byte. byte < 256) stream
        → (records : List (List ℕ)) × (end : Received) × ReadsRecords stream records end }
    ensures one { (stream : List ℕ) (records others : List (List ℕ)) (end other : Received)
        → ReadsRecords stream records end → ReadsRecords stream others other → (records ≡ others) × (end ≡ other) }
    ensures any_cut { (cuts : List (List Fragment))
        → AllByRecursion (λ cut. IsWhole cut × (length (joined cut) ≤ max_record_bytes)) cuts
        → ReadsRecords (flat_map encoding cuts) (map joined cuts) nothing }
    ensures part { (text more bytes : List ℕ) → AllByRecursion (λ byte. byte < 256) text → 0 < length more
        → IsRecord (text ++ more) bytes → (end : Received) × IsOpen end.progress × ReadsRecords text [] end }
{}

/// A piece behind a stream completes some further records, and no others: the records that the stream had stay.
pub fn each_piece_completes_its_records()
    ensures some { (stream piece : List ℕ) → AllByRecursion (λ byte. byte < 256) stream → AllByRecursion (λ byte. byte < 256) piece
        → (records : List (List ℕ)) × (end : Received) × Completes stream piece records end }
    ensures one { (stream piece : List ℕ) (records others : List (List ℕ)) (end other : Received)
        → Completes stream piece records end → Completes stream piece others other → (records ≡ others) × (end ≡ other) }
    ensures stay { (stream more : List ℕ) (records all : List (List ℕ)) (end last : Received)
        → ReadsRecords stream records end → ReadsRecords (stream ++ more) all last → (later : List (List ℕ)) × (all ≡ records ++ later) }
{}
