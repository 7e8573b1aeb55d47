//! Assembling records from the pieces of a stream.

ghost use Rattle.std.specs.Prelude.{◌≡◌, ℕ, ◌+◌, ◌-◌, ◌<◌, ◌≤◌, ◌↔◌, List, [], ◌++◌, length, take, min, slice_index, IfOk, IsTrue, vec_len};
ghost use Rattle.std.specs.Vec.{vec_capacity};
ghost use Rattle.sky_base.specs.Limits.{max_record_bytes};
ghost use Rattle.sky_record.specs.Record.{IsRecord};
ghost use Rattle.sky_record.specs.Stream.{Received, Whole, TooLong, nothing, IsOpen, Comes, StopsTooLong, ReadsRecords};
ghost use Rattle.sky_record.specs.Feeding.{answer_at, FedReads};
ghost use Rattle.sky_record.specs.Parts as spec;
ghost use Rattle.sky_record.specs.Parts.{progress_of, StateFits};

use crate::RECORD_LIMIT;
use sky_base::NoMemory;
use std::alloc::Global;
use std::marker::Model;

/// The highest bit of a header, which says that the fragment is the last of its record.
const LAST: u32 = 0x8000_0000;

/// The bytes of a header: one word of 32 bits, the highest byte first.
const HEADER_SIZE: usize = 4;

/// What a piece of a stream led to.
#[derive(Clone, Copy)]
pub enum Fed {
    /// The bytes that were taken end a record. It is the message until the assembler is cleared.
    Message,
    /// All bytes of the piece were taken, and none of them ended a record.
    More,
    /// The bytes that were taken end a header at which the record passes `RECORD_LIMIT`. None of that fragment's bytes
    /// was looked at, and the stream cannot be read further.
    TooLong,
}

/// How far the record under way has come.
#[derive(Clone, Copy)]
enum State {
    /// At a header, of which so many bytes have come, fewer than four.
    Header(usize),
    /// In a fragment, of which so many bytes are due, one at least.
    Fragment { last: bool, due: usize },
    /// To its end.
    Message,
    /// At a header that makes it pass the limit.
    TooLong,
}

/// How far a record is with so many bytes of a fragment due.
fn with_due(last: bool, due: usize) -> State
    ensures state { (header : List ℕ) → progress_of header result ≡ spec.with_due last due }
    ensures fits { (had : ℕ) → had + due ≤ max_record_bytes → StateFits had result }
{
    if due > 0 {
        State::Fragment { last, due }
    } else if last {
        State::Message
    } else {
        State::Header(0)
    }
}

/// How far a record is at the end of a header, with so many bytes of the record before it.
fn with_header(header: &[u8; HEADER_SIZE], had: usize) -> State
    requires { had ≤ max_record_bytes }
    ensures state { progress_of header.now result ≡ spec.with_header had header.now }
    ensures fits { StateFits had result }
{
    let word = u32::from_be_bytes(*header);
    let size = (word % LAST) as usize;
    if had + size > RECORD_LIMIT {
        return State::TooLong;
    }
    with_due(word >= LAST, size)
}

/// Takes what is missing of a header, as far as the piece has it. Answers how far the record is then, and how many
/// bytes that took.
fn take_header(
    header: &mut [u8; HEADER_SIZE],
    count: usize,
    had: usize,
    piece: &[u8],
) -> (State, usize)
    requires part { count < 4 }
    requires within { had ≤ max_record_bytes }
    ensures taken { result.1 ≡ min (4 - count) (length piece.now) }
    ensures header { (i : ℕ) → slice_index header.old i < 256 }
    ensures state { progress_of header.new result.0 ≡ spec.with_header had (take count header.old ++ take result.1 piece.now) }
    ensures fits { StateFits had result.0 }
{
    let taken = piece.len().min(HEADER_SIZE - count);
    header[count..count + taken].copy_from_slice(&piece[..taken]);
    if count + taken < HEADER_SIZE {
        return (State::Header(count + taken), taken);
    }
    (with_header(header, had), taken)
}

/// Takes what is due of a fragment, as far as the piece has it. Answers how far the record is then, and how many bytes
/// that took.
fn take_fragment(bytes: &mut Vec<u8>, last: bool, due: usize, piece: &[u8]) -> (State, usize)
    requires room { vec_len bytes.old + due ≤ vec_capacity bytes.old }
    requires within { vec_len bytes.old + due ≤ max_record_bytes }
    ensures taken { result.1 ≡ min due (length piece.now) }
    ensures bytes { bytes.new.items ≡ bytes.old.items ++ take result.1 piece.now }
    ensures room { vec_capacity bytes.old ≤ vec_capacity bytes.new }
    ensures state { (header : List ℕ) → progress_of header result.0 ≡ spec.with_due last (due - result.1) }
    ensures fits { StateFits (vec_len bytes.new) result.0 }
{
    let taken = piece.len().min(due);
    bytes.extend_from_slice(&piece[..taken]).unwrap();
    (with_due(last, due - taken), taken)
}

/// Assembles the records of one stream (record marking, RFC 5531, section 11) from the pieces in which the stream
/// comes. A piece may end anywhere, within a header too.
///
/// A fragment is a header of four bytes and the fragment's bytes: the header's highest bit marks the last fragment of a
/// record, and its other 31 bits are the length. A record is its fragments' bytes, one fragment's after the other's, and
/// at most `RECORD_LIMIT` of them.
/// Any fragment may be empty, the last one too.
///
/// Room for the longest record is reserved when the assembler is made, and nothing else takes memory. Each byte of a
/// fragment is copied once, from the piece to its place in the record.
#[derive(Drop)]
pub struct Assembler {
    bytes: Vec<u8>,
    header: [u8; HEADER_SIZE],
    state: State,
}

impl Model for Assembler {
    ghost use Rattle.sky_record.specs.Stream.{Received};

    ghost Value = { Received };

    ghost use Rattle.sky_record.specs.Inside.{received, IsKept};

    ghost view = { received };

    ghost invariant = { IsKept };
}

impl Assembler {
    /// An assembler that has received nothing. It reserves `RECORD_LIMIT` bytes, and fails where there is no memory for
    /// them.
    pub fn new(alloc: Global) -> Result<Assembler, NoMemory>
        ensures empty { IfOk result (λ a. a ≡ nothing) }
        ensures text { IfOk result (λ a. Comes [] a) }
        ensures stream { IfOk result (λ a. ReadsRecords [] [] a) }
    {
        Ok(Assembler {
            bytes: Vec::with_capacity(alloc, RECORD_LIMIT)?,
            header: [0; HEADER_SIZE],
            state: State::Header(0),
        })
    }

    /// The bytes of the record as far as it has come, without headers: the whole record once `feed` answered
    /// `Fed::Message`, and until `clear`.
    pub fn message(&self) -> &[u8]
        ensures bytes { result.now ≡ self.now.bytes }
        ensures within { length result.now ≤ max_record_bytes }
    {
        self.bytes.as_slice()
    }

    /// Lets go of what was received, so that the next byte begins a record. The room stays reserved.
    pub fn clear(&mut self)
        ensures empty { self.new ≡ nothing }
        ensures text { Comes [] self.new }
    {
        self.bytes.clear();
        self.state = State::Header(0);
    }

    /// Whether `feed` may be called: no message stands, and no record that is too long.
    pub fn is_ready(&self) -> bool
        ensures { IsTrue result ↔ IsOpen self.now.progress }
    {
        match self.state {
            State::Header(_) | State::Fragment { .. } => true,
            State::Message | State::TooLong => false,
        }
    }

    /// Takes what is missing of a header, or what is due of a fragment, as far as the piece has it.
    fn take_some(&mut self, piece: &[u8]) -> usize
        requires open { IsOpen self.old.progress }
        ensures taken { result ≤ length piece.now }
        ensures some { 0 < length piece.now → 0 < result }
        ensures goes_on { (text : List ℕ) → Comes text self.old → Comes (text ++ take result piece.now) self.new }
    {
        match self.state {
            State::Header(count) => {
                let had = self.bytes.len();
                let (state, taken) = take_header(&mut self.header, count, had, piece);
                self.state = state;
                taken
            }
            State::Fragment { last, due } => {
                let (state, taken) = take_fragment(&mut self.bytes, last, due, piece);
                self.state = state;
                taken
            }
            State::Message | State::TooLong => unreachable!(),
        }
    }

    /// What to answer where the record is.
    fn answer(&self) -> Fed
        ensures { result ≡ answer_at self.now.progress }
    {
        match self.state {
            State::Header(_) | State::Fragment { .. } => Fed::More,
            State::Message => Fed::Message,
            State::TooLong => Fed::TooLong,
        }
    }

    /// Takes bytes from the start of a piece: up to the end of the record under way, up to the header at which it passes
    /// `RECORD_LIMIT`, or else all of them. Answers how many it took. It costs what these bytes cost, and no memory.
    pub fn feed(&mut self, piece: &[u8]) -> (usize, Fed)
        requires ready { IsOpen self.old.progress }
        ensures taken { result.0 ≤ length piece.now }
        ensures some { 0 < length piece.now → 0 < result.0 }
        ensures answer { result.1 ≡ answer_at self.new.progress }
        ensures more { result.1 ≡ Fed.More → result.0 ≡ length piece.now }

        // What has come of the record goes on by exactly the bytes that were taken.
        ensures goes_on { (text : List ℕ) → Comes text self.old → Comes (text ++ take result.0 piece.now) self.new }

        // A piece in which the record ends, or passes the limit, is taken up to there.
        ensures message { (text : List ℕ) (count : ℕ) (bytes : List ℕ) → Comes text self.old → count ≤ length piece.now
            → IsRecord (text ++ take count piece.now) bytes → (result.0 ≡ count) × (self.new ≡ record { bytes = bytes; progress = Whole }) }
        ensures too_long { (text : List ℕ) (count : ℕ) (bytes : List ℕ) → Comes text self.old → count ≤ length piece.now
            → StopsTooLong (text ++ take count piece.now) bytes → (result.0 ≡ count) × (self.new ≡ record { bytes = bytes; progress = TooLong }) }

        // So it is with the whole stream.
        ensures stream { (stream : List ℕ) (records : List (List ℕ)) → ReadsRecords stream records self.old
            → FedReads result.1 (stream ++ take result.0 piece.now) records self.new }
    {
        let mut taken = 0;
        while taken < piece.len() && self.is_ready() {
            taken += self.take_some(&piece[taken..]);
        }
        (taken, self.answer())
    }
}
