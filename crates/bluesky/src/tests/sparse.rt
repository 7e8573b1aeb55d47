//! A site of the size that a journal asks for, of which little is kept, so that a test can have many of them.

ghost use Rattle.std.specs.Prelude.{◌+◌, ◌≤◌, None};

use sky_base::{NoMemory, SegName};
use sky_memory::{Fail as FailingCall, MemSite};
use sky_outside::{Cloud, Disk, Failed, GetFault, Held, PutFault, Site, Storage};
use std::alloc::Global;

/// The bytes of an area of the journal, and how many of them are kept.
const AREA: u64 = 1 << 26;

const KEPT: u64 = 1 << 13;

/// A journal's disk and a cloud in memory. Of each area of the disk the first bytes are kept, on the small disk of a `MemSite`: behind
/// them a read gives zeros, and what is written is lost. Each call is one call of that site, which fails where a list says so, and within
/// which the site may be stopped. It tells nothing.
#[derive(Drop)]
pub struct SparseSite {
    kept: MemSite,
    size: u64,
}

impl SparseSite {
    /// A blank site whose disk has so many bytes, and of which the calls that are listed fail.
    pub fn new(alloc: Global, size: u64, fail: Vec<FailingCall>) -> Result<SparseSite, NoMemory> {
        let kept = MemSite::new(alloc, 2 * KEPT, Vec::new(alloc), 400, 100_000, fail)?;
        Ok(SparseSite { kept, size })
    }

    /// What a stop within a call leaves: with the part 0 nothing of the call, with 1 all of it, and with 2 all of it inverted.
    pub fn stopped(&self, call: u64, part: u8) -> Result<SparseSite, NoMemory> {
        let kept = self.kept.stopped(call, part)?;
        Ok(SparseSite {
            kept,
            size: self.size,
        })
    }

    /// How many calls there were.
    pub fn calls(&self) -> u64 {
        self.kept.calls()
    }
}

/// Where a place of the disk lies among the bytes that are kept, and how many of so many bytes from there on are kept.
fn kept_part(size: u64, at: u64, length: usize) -> (u64, usize)
    ensures within { result.0 + result.1 ≤ size }
    ensures part { result.1 ≤ length }
{
    let (area, offset) = if at < AREA {
        (0, at)
    } else {
        (KEPT, at - AREA)
    };
    let skipped = offset.min(KEPT);
    let place = (area + skipped).min(size);
    let count = (length as u64).min(KEPT - skipped).min(size - place);
    (place, count as usize)
}

impl Storage for SparseSite {
    ghost use Rattle.std.specs.Prelude.{None};

    ghost disk_faults = { λ s. ⟦<MemSite as Storage>⟧.disk_faults s.kept };

    ghost cloud_faults = { λ s. ⟦<MemSite as Storage>⟧.cloud_faults s.kept };

    ghost bytes_of = { λ s. s.size };

    ghost image = { λ _. None };

    ghost may_leave = { λ _ _. ⊥ };

    ghost moment = { λ _. 0 };

    ghost left_since = { λ _ _ _ _. ⊥ };

    ghost objects = { λ _. None };

    ghost standing = { λ _. None };

    ghost counts_now = { λ _ _ _ _ _ left _. left };

    ghost only_now = { λ _ _ _ left. absurd left };

    ghost leaves_what_is_read = { λ _ _ _. tt };

    ghost has_size = { λ _. tt };

    ghost leaves_its_size = { λ _ _ left. absurd left };
}

impl Disk for SparseSite {
    fn size(&self) -> u64 {
        self.size
    }

    fn read(&mut self, at: u64, buf: &mut [u8]) -> Result<(), Failed> {
        let (place, count) = kept_part(self.kept.size(), at, buf.len());
        buf[count..].fill(0);
        self.kept.read(place, &mut buf[..count])
    }

    fn write_at(&mut self, at: u64, bytes: &[u8]) -> Result<(), Failed> {
        let (place, count) = kept_part(self.kept.size(), at, bytes.len());
        self.kept.write_at(place, &bytes[..count])
    }

    fn sync(&mut self) -> Result<(), Failed> {
        self.kept.sync()
    }
}

impl Cloud for SparseSite {
    fn put(&mut self, name: SegName, bytes: &[u8]) -> Result<(), PutFault> {
        self.kept.put(name, bytes)
    }

    fn get(&mut self, name: SegName, offset: u64, buf: &mut [u8]) -> Result<(), GetFault> {
        self.kept.get(name, offset, buf)
    }

    fn list(&mut self) -> Result<Vec<Held>, PutFault> {
        self.kept.list()
    }
}

impl Site for SparseSite {
    fn remove(&mut self, name: SegName) -> Result<(), Failed> {
        self.kept.remove(name)
    }
}
