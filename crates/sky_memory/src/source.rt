//! Sources in memory.

ghost use Rattle.std.specs.Prelude.{◌≡◌, ◌↔◌, ◌++◌, length, take, min, Some, IfOk, OnErr, IsErr, IsOk, is_err};
ghost use Rattle.sky_outside.specs.Count.{Counts};

use crate::calls::Calls;
use sky_outside::{Failed, Source};
use std::marker::Model;

// Bytes that are taken one after the other, from the first on.
#[derive(Drop)]
struct Supply {
    bytes: Vec<u8>,
    taken: usize,
}

impl Model for Supply {
    ghost use Rattle.std.specs.Prelude.{List, ℕ, drop, ◌≤◌, vec_len};

    ghost Value = { List ℕ };

    ghost view = { λ s. drop s.taken s.bytes.items };

    ghost invariant = { λ s. s.taken ≤ vec_len s.bytes };
}

impl Supply {
    fn new(bytes: Vec<u8>) -> Supply
        ensures { result ≡ bytes.items }
    {
        Supply { bytes, taken: 0 }
    }

    // Takes as many bytes as the buffer has room for, and says how many.
    fn take_into(&mut self, buf: &mut [u8]) -> usize
        ensures count { result ≡ min (length buf.old) (length self.old) }
        ensures bytes { self.old ≡ take result buf.new ++ self.new }
    {
        let left = &self.bytes[self.taken..];
        let count = buf.len().min(left.len());
        buf[..count].copy_from_slice(&left[..count]);
        self.taken += count;
        count
    }
}

/// A source over bytes in memory. It tells the bytes that are left, and a read gives as many as the
/// buffer has room for. Calls that are listed fail, each raising its count of faults.
#[derive(Drop)]
pub struct MemSource {
    supply: Supply,
    calls: Calls,
}

impl Model for MemSource {
    ghost use Rattle.sky_memory.specs.Device.{SourceState};

    ghost Value = { SourceState };

    ghost view = { λ s. record { left = s.supply; log = s.calls } };
}

impl MemSource {
    ghost use Rattle.sky_memory.specs.Calls.{no_calls};

    /// A source of these bytes. The reads whose numbers are listed fail, where the first has the
    /// number 0.
    pub fn new(bytes: Vec<u8>, fail: Vec<u64>) -> MemSource
        ensures told { ⟦<MemSource as Source>⟧.left result ≡ Some bytes.items }
        ensures faults { ⟦<MemSource as Source>⟧.faults result ≡ 0 }
        ensures log { result.log ≡ no_calls fail.items }
    {
        MemSource {
            supply: Supply::new(bytes),
            calls: Calls::new(fail),
        }
    }
}

impl Source for MemSource {
    ghost use Rattle.std.specs.Prelude.{Some};
    ghost use Rattle.sky_memory.specs.Calls.{after_call, IsToFail};

    ghost left = { λ s. Some s.left };

    ghost faults = { λ s. s.log.faults };

    /// Reads as many bytes as the buffer has room for. It fails at the calls that are listed.
    fn read(&mut self, buf: &mut [u8]) -> Result<usize, Failed>
        ensures count { IfOk result (λ n. n ≡ min (length buf.old) (length self.old.left)) }
        ensures bytes { IfOk result (λ n. self.old.left ≡ take n buf.new ++ self.new.left) }
        ensures err { OnErr result (self.new.left ≡ self.old.left) }
        ensures fails { IsErr result ↔ IsToFail self.old.log }
        ensures cause { Counts self.old.log.faults self.new.log.faults (IsErr result) }
        ensures log { self.new.log ≡ after_call self.old.log (is_err result) }
    {
        self.calls.count(true)?;
        Ok(self.supply.take_into(buf))
    }
}

/// A source over bytes in memory that never fails. It tells the bytes that are left, and a read gives
/// as many as the buffer has room for.
#[derive(Drop)]
pub struct SureSource(Supply);

impl Model for SureSource {
    ghost use Rattle.std.specs.Prelude.{List, ℕ};

    ghost Value = { List ℕ };

    ghost view = { λ s. s.0 };
}

impl SureSource {
    /// A source of these bytes.
    pub fn new(bytes: Vec<u8>) -> SureSource
        ensures told { ⟦<SureSource as Source>⟧.left result ≡ Some bytes.items }
        ensures faults { ⟦<SureSource as Source>⟧.faults result ≡ 0 }
    {
        SureSource(Supply::new(bytes))
    }
}

impl Source for SureSource {
    ghost use Rattle.std.specs.Prelude.{Some};

    ghost left = { λ s. Some s };

    ghost faults = { λ _. 0 };

    /// Reads as many bytes as the buffer has room for.
    fn read(&mut self, buf: &mut [u8]) -> Result<usize, Failed>
        ensures sure { IsOk result }
        ensures count { IfOk result (λ n. n ≡ min (length buf.old) (length self.old)) }
        ensures bytes { IfOk result (λ n. self.old ≡ take n buf.new ++ self.new) }
    {
        Ok(self.0.take_into(buf))
    }
}
