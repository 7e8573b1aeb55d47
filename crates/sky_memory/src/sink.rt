//! Sinks in memory.

ghost use Rattle.std.specs.Prelude.{◌≡◌, ◌<◌, ◌+◌, ◌↔◌, ◌⊎◌, [], ◌++◌, length, Some, None, Ok, IfOk, OnOk, OnErr, IsErr, is_err};
ghost use Rattle.sky_outside.specs.Count.{Counts};

use crate::calls::Calls;
use sky_base::NoMemory;
use sky_outside::{Failed, Sink};
use std::alloc::Global;
use std::marker::Model;

/// A sink over room in memory, reserved once. It tells the bytes that it was given, and takes each
/// piece whole. A piece for which no room is left fails, and so do the calls that are listed, each
/// raising its count of faults. A write takes no memory.
#[derive(Drop)]
pub struct MemSink {
    bytes: Vec<u8>,
    room: usize,
    calls: Calls,
}

impl Model for MemSink {
    ghost use Rattle.std.specs.Prelude.{◌≤◌, vec_len, vec_capacity};
    ghost use Rattle.sky_memory.specs.Device.{SinkState};

    ghost Value = { SinkState };

    ghost view = { λ s. record { written = s.bytes.items; room = s.room; log = s.calls } };

    ghost invariant = { λ s. (vec_len s.bytes ≤ s.room) × (s.room ≤ vec_capacity s.bytes) };
}

impl MemSink {
    ghost use Rattle.sky_memory.specs.Calls.{no_calls};

    /// A sink with room for this many bytes. The writes whose numbers are listed fail, where the first
    /// has the number 0.
    ///
    /// `NoMemory`: the room could not be reserved.
    pub fn new(alloc: Global, room: usize, fail: Vec<u64>) -> Result<MemSink, NoMemory>
        ensures told { IfOk result (λ sink. ⟦<MemSink as Sink>⟧.written sink ≡ Some []) }
        ensures faults { IfOk result (λ sink. ⟦<MemSink as Sink>⟧.faults sink ≡ 0) }
        ensures room { IfOk result (λ sink. sink.room ≡ room) }
        ensures log { IfOk result (λ sink. sink.log ≡ no_calls fail.items) }
    {
        Ok(MemSink {
            bytes: Vec::with_capacity(alloc, room)?,
            room,
            calls: Calls::new(fail),
        })
    }

    /// The bytes that it was given.
    pub fn bytes(&self) -> &[u8]
        ensures { ⟦<MemSink as Sink>⟧.written self.now ≡ Some result.now }
    {
        &self.bytes
    }
}

impl Sink for MemSink {
    ghost use Rattle.std.specs.Prelude.{Some};
    ghost use Rattle.sky_memory.specs.Calls.{after_call, IsToFail};

    ghost written = { λ s. Some s.written };

    ghost faults = { λ s. s.log.faults };

    /// Takes the whole piece. It fails where no room is left for it, and at the calls that are listed.
    fn write(&mut self, bytes: &[u8]) -> Result<usize, Failed>
        ensures bytes { OnOk result (self.new.written ≡ self.old.written ++ bytes.now) }
        ensures err { OnErr result (self.new.written ≡ self.old.written) }
        ensures whole { IfOk result (λ n. n ≡ length bytes.now) }
        ensures fails { IsErr result ↔
            (IsToFail self.old.log ⊎ (self.old.room < length self.old.written + length bytes.now)) }
        ensures room { self.new.room ≡ self.old.room }
        ensures cause { Counts self.old.log.faults self.new.log.faults (IsErr result) }
        ensures log { self.new.log ≡ after_call self.old.log (is_err result) }
    {
        let count = bytes.len();
        let fits = count <= self.room - self.bytes.len();
        self.calls.count(fits)?;
        // It needs no memory, which was reserved.
        self.bytes.extend_from_slice(bytes).unwrap();
        Ok(count)
    }
}

/// A sink that never fails. It takes whole pieces, and neither keeps nor tells their bytes.
#[derive(Clone, Copy)]
pub struct SureSink;

impl SureSink {
    /// A sink.
    pub fn new() -> SureSink
        ensures told { ⟦<SureSink as Sink>⟧.written result ≡ None }
        ensures faults { ⟦<SureSink as Sink>⟧.faults result ≡ 0 }
    {
        SureSink
    }
}

impl Sink for SureSink {
    ghost use Rattle.std.specs.Prelude.{None};

    ghost written = { λ _. None };

    ghost faults = { λ _. 0 };

    /// Takes the whole piece.
    fn write(&mut self, bytes: &[u8]) -> Result<usize, Failed>
        ensures whole { result ≡ Ok (length bytes.now) }
    {
        Ok(bytes.len())
    }
}
