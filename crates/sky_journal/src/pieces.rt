//! Looking at the disk piece by piece.

ghost use Rattle.std.specs.Prelude.{◌≡◌, ◌↔◌, ◌+◌, ◌≤◌, ℕ, List, Some, None, length, vec_len, ◌<◌, ◌^◌, IfOk, OnOk, IsTrue, is_err};
ghost use Rattle.sky_outside.specs.Image.{bytes_at};
ghost use Rattle.sky_journal.specs.Looking.{AreHeld, Covers, Shows, Went};

use sky_outside::{Disk, Failed};
use std::alloc::{AllocError, Global};

/// How many bytes are read ahead.
const PIECE: usize = 65536;

/// A piece of the disk in memory.
#[derive(Drop)]
pub(crate) struct Pieces {
    /// Where on the disk it begins, once there is one.
    at: Option<u64>,
    buf: Vec<u8>,
}

impl Pieces {
    /// Memory for a piece, and nothing in it yet.
    pub(crate) fn new(alloc: Global) -> Result<Pieces, AllocError>
        ensures { IfOk result (λ pieces. pieces.at ≡ None) }
    {
        let buf = vec![in alloc; 0u8; PIECE]?;
        Ok(Pieces { at: None, buf })
    }

    /// No memory, with which nothing is read ahead.
    pub(crate) fn none(alloc: Global) -> Pieces
        ensures { result.at ≡ None }
    {
        Pieces {
            at: None,
            buf: Vec::new(alloc),
        }
    }

    /// Whether the piece covers so many bytes from this place on.
    fn holds(&self, from: u64, n: u64) -> bool
        requires { from + n < 2 ^ 64 }
        ensures { IsTrue result ↔ Covers self.now.at (vec_len self.now.buf) from n }
    {
        match self.at {
            Some(at) => at <= from && from - at + n <= self.buf.len() as u64,
            None => false,
        }
    }

    /// Reads the piece that begins at this place.
    fn refill<D: Disk>(&mut self, disk: &mut D, from: u64) -> Result<(), Failed>
        requires { from + vec_len self.old.buf ≤ D.bytes_of disk.old }
        ensures at { OnOk result (self.new.at ≡ Some from) }
        ensures len { vec_len self.new.buf ≡ vec_len self.old.buf }
        ensures went { Went D.Storage disk.old self.old disk.new self.new (is_err result) }
    {
        self.at = None;
        disk.read(from, self.buf.as_mut_slice())?;
        self.at = Some(from);
        Ok(())
    }

    /// Copies bytes of the piece, which covers them.
    fn take(&self, from: u64, to: &mut [u8])
        requires { Covers self.now.at (vec_len self.now.buf) from (length to.old) }
        ensures { (image : List ℕ) → AreHeld self.now.at self.now.buf.items image → to.new ≡ bytes_at image from (length to.old) }
    {
        if let Some(at) = self.at {
            let start = (from - at) as usize;
            to.copy_from_slice(&self.buf[start..start + to.len()]);
        }
    }

    /// Copies what the disk has from this place on.
    pub(crate) fn copy<D: Disk>(
        &mut self,
        disk: &mut D,
        from: u64,
        to: &mut [u8],
    ) -> Result<(), Failed>
        requires { from + length to.old ≤ D.bytes_of disk.old }
        ensures bytes { OnOk result ((image : List ℕ) → Shows D.Storage disk.old self.old image
            → to.new ≡ bytes_at image from (length to.old)) }
        ensures went { Went D.Storage disk.old self.old disk.new self.new (is_err result) }
        ensures size { D.bytes_of disk.new ≡ D.bytes_of disk.old }
    {
        let held = self.buf.len() as u64;
        let n = to.len() as u64;
        let size = disk.size();
        if n > held || held > size {
            return disk.read(from, to);
        }
        if !self.holds(from, n) {
            self.refill(disk, from.min(size - held))?;
        }
        self.take(from, to);
        Ok(())
    }
}
