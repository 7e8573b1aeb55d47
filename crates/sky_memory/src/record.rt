//! What a site in memory was asked for, call by call.

ghost use Rattle.std.specs.Prelude.{◌≡◌, ◌<◌, ◌↔◌, [], length, IsTrue, IfOk, Some, slice_get};

use sky_base::{NoMemory, SegName};
use std::alloc::Global;
use std::marker::Model;

/// What a call asks for.
#[derive(Clone, Copy)]
pub enum Step {
    /// To read the disk, or to look into the cloud.
    Look,
    /// To write from this place of the disk on.
    Write { at: u64 },
    Sync,
    /// To store an object under this name.
    Put { name: SegName },
    /// To remove the object of this name.
    Remove { name: SegName },
}

// A call, and where its bytes lie.
#[derive(Clone, Copy)]
pub struct Entry {
    step: Step,
    happened: bool,
    from: usize,
    length: usize,
}

/// The calls of a site, for a number of them and of their bytes for which memory was reserved.
#[derive(Drop)]
pub struct Record {
    entries: Vec<Entry>,
    bytes: Vec<u8>,
    most: usize,
    room: usize,
}

impl Model for Record {
    ghost use Rattle.std.specs.Prelude.{map, length};
    ghost use Rattle.sky_memory.specs.Record.{RecordState};

    ghost Value = { RecordState };

    ghost use Rattle.sky_memory.specs.Entries.{call_of, IsWithinRoom};

    ghost view = { λ r. record { calls = map (call_of r.bytes.items) r.entries.items; most = r.most; used = length r.bytes.items; room = r.room } };

    ghost invariant = { IsWithinRoom };
}

impl Record {
    ghost use Rattle.sky_memory.specs.Past.{IsAllowed};
    ghost use Rattle.sky_memory.specs.Record.{has_room, noted};

    /// No calls, and room for so many calls and for so many bytes.
    ///
    /// `NoMemory`: there was no memory for them.
    pub fn new(alloc: Global, most: usize, room: usize) -> Result<Record, NoMemory>
        ensures { IfOk result (λ r. r ≡ record { calls = []; most = most; used = 0; room = room }) }
    {
        Ok(Record {
            entries: Vec::with_capacity(alloc, most)?,
            bytes: Vec::with_capacity(alloc, room)?,
            most,
            room,
        })
    }

    /// How many calls there were.
    pub fn len(&self) -> usize
        ensures { result ≡ length self.now.calls }
    {
        self.entries.len()
    }

    /// For how many calls it has room.
    pub fn most(&self) -> usize
        ensures { result ≡ self.now.most }
    {
        self.most
    }

    /// For how many bytes.
    pub fn room(&self) -> usize
        ensures { result ≡ self.now.room }
    {
        self.room
    }

    /// Whether a call with so many bytes still fits.
    pub fn has_room(&self, length: usize) -> bool
        ensures { result ≡ has_room self.now length }
    {
        self.entries.len() < self.most && length <= self.room - self.bytes.len()
    }

    /// Keeps a call.
    pub fn note(&mut self, step: Step, happened: bool, bytes: &[u8])
        requires fits { IsTrue (has_room self.old (length bytes.now)) }
        requires allowed { IsAllowed step }
        ensures { self.new ≡ noted self.old (record { step = step; bytes = bytes.now; happened = happened }) }
    {
        let from = self.bytes.len();
        // Neither needs memory, which was reserved.
        self.bytes.extend_from_slice(bytes).unwrap();
        self.entries
            .push(Entry {
                step,
                happened,
                from,
                length: bytes.len(),
            })
            .unwrap();
    }

    /// What the call of this number asked for, whether it happened, and its bytes.
    pub fn get(&self, number: usize) -> (Step, bool, &[u8])
        requires { number < length self.now.calls }
        ensures call { slice_get self.now.calls number ≡ Some (record { step = result.0; bytes = result.2.now; happened = result.1 }) }
        ensures allowed { IsAllowed result.0 }
    {
        let entry = self.entries[number];
        (
            entry.step,
            entry.happened,
            &self.bytes[entry.from..entry.from + entry.length],
        )
    }
}
