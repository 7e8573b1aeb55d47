//! The journal as it is known in memory.

ghost use Rattle.std.specs.Prelude.{◌≡◌, ◌+◌, ◌<◌, ◌≤◌, [], ◌∷◌, ◌++◌, length, IfErr, IsErrOf, IsSome, OnErr, OnOk, is_some};
ghost use Rattle.std.specs.Option.{option_map};
ghost use Rattle.sky_base.specs.Limits.{max_number};
ghost use Rattle.sky_journal.specs.declared.fault.AppendFault.TheVariants.{Full};
ghost use Rattle.sky_journal.specs.Journal.{IsJournal, last_of, number_behind, room_of, wanted_of, IsFramed, SameButSpare};

use crate::batch::push_entry;
use crate::fault::AppendFault;
use crate::open_area::OpenArea;
use sky_base::NoMemory;
use std::marker::Model;

/// The number below which every number of an entry is.
pub(crate) const MAX_NUMBER: u64 = 1 << 62;

/// The journal of one volume: which areas of its disk are open and how far they are filled, and the entries that are not on the
/// disk yet. Contracts see it as a `JournalView`.
///
/// It is read from a disk by `read_journal`, and stands for the entries there and for the pending ones. `append` adds a pending
/// entry, `commit` brings all of them to the disk. It holds the pending bytes alone, never the entries of the disk.
#[derive(Drop)]
pub struct Journal {
    pub(crate) volume: u64,
    pub(crate) size: u64,
    pub(crate) disk: u64,
    pub(crate) older: Option<OpenArea>,
    pub(crate) newer: Option<OpenArea>,
    /// How many entries are pending.
    pub(crate) count: u32,
    /// What a commit writes behind the gate of the batch to come: 15 bytes of the batch's header, the pending entries, and a closed gate.
    pub(crate) batch: Vec<u8>,
    pub(crate) down: bool,
}

impl Model for Journal {
    ghost use Rattle.std.specs.Prelude.{◌≡◌, ◌≤◌, ◌+◌, ◌-◌, length, vec_len, vec_capacity, Some, false};
    ghost use Rattle.sky_journal.specs.Layout.{is_open};
    ghost use Rattle.sky_journal.specs.Journal.{JournalView, IsJournal};
    ghost use Rattle.sky_journal.specs.Pending.{body_in, pending_in};
    ghost use Rattle.sky_journal.specs.Text.{entries_in};

    ghost Value = { JournalView };

    ghost view = { λ j. record {
      volume = j.volume;
      size = j.size;
      disk = j.disk;
      older = j.older;
      newer = j.newer;
      pending = pending_in j.count j.batch.items;
      spare = vec_capacity j.batch - vec_len j.batch;
      down = j.down;
    } };

    ghost invariant = { λ j. IsJournal (record {
      volume = j.volume;
      size = j.size;
      disk = j.disk;
      older = j.older;
      newer = j.newer;
      pending = pending_in j.count j.batch.items;
      spare = vec_capacity j.batch - vec_len j.batch;
      down = j.down;
    }) × (16 ≤ length j.batch.items) × (is_open (length j.batch.items - 1) j.batch.items ≡ false) × (entries_in j.count (body_in j.batch.items) ≡ Some (pending_in j.count j.batch.items)) };
}

impl Journal {
    /// Tells what is true of every journal, for proofs. It does nothing.
    pub fn facts(&self)
        ensures { IsJournal self.now }
    {
        let _down = self.down;
    }

    /// How many bytes are left in the newer area for a batch and the gate behind it: 0 where no area is open, or where the last number
    /// is 2^62 - 1.
    pub fn room(&self) -> u64
        ensures { result ≡ room_of self.now }
    {
        match self.newer {
            Some(area) => {
                if area.last + self.count as u64 + 1 == MAX_NUMBER {
                    0
                } else {
                    self.size - area.end
                }
            }
            None => 0,
        }
    }

    /// How many bytes a batch of the pending entries and one of this length would take, with the gate behind it: 17 and those of
    /// the entries.
    pub fn wanted(&self, entry: u32) -> u64
        ensures { result ≡ wanted_of self.now entry }
    {
        self.batch.len() as u64 + entry as u64 + 1
    }

    /// The base of the newer or only open area: the number of the last entry before it.
    pub fn base(&self) -> Option<u64>
        ensures { result ≡ option_map (λ a. a.base) self.now.newer }
    {
        match self.newer {
            Some(area) => Some(area.base),
            None => None,
        }
    }

    /// Whether both areas are open. The last number of the older is then the newer's base.
    pub fn two_open(&self) -> bool
        ensures { result ≡ is_some self.now.older }
    {
        self.older.is_some()
    }

    /// The number of the last entry, pending ones included; 0 where no area is open. It is below 2^62.
    pub fn last(&self) -> u64
        ensures value { result ≡ last_of self.now }
        ensures below { result < max_number }
    {
        match self.newer {
            Some(area) => area.last + self.count as u64,
            None => 0,
        }
    }

    /// The number of the last entry on the disk; 0 where no area is open.
    pub fn stored(&self) -> u64
        ensures { result ≡ number_behind self.now.newer 0 }
    {
        match self.newer {
            Some(area) => area.last,
            None => 0,
        }
    }

    /// Whether a call of the disk failed. The journal is then to be read anew, and no call may bring it to the disk.
    pub fn is_down(&self) -> bool
        ensures { result ≡ self.now.down }
    {
        self.down
    }

    /// Takes memory for an entry of this many bytes, which an `append` then needs none for.
    pub fn reserve(&mut self, entry: u32) -> Result<(), NoMemory>
        ensures spare { OnOk result (entry ≤ self.new.spare) }
        ensures kept { self.old.spare ≤ self.new.spare }
        ensures same { SameButSpare self.old self.new }
    {
        match self.batch.reserve(entry as usize) {
            Ok(()) => Ok(()),
            Err(_) => Err(NoMemory),
        }
    }

    /// Adds an entry behind the pending ones. The bytes are at least 4, of which the first 4 are the number of those that follow, and
    /// an area is open. It copies the entry once.
    ///
    /// `Full` exactly where the batch with it would be larger than the room. `Memory` never comes where a `reserve` took memory for it.
    /// Of that memory it takes no more than the entry.
    pub fn append(&mut self, entry: &[u8]) -> Result<(), AppendFault>
        requires open { IsSome self.old.newer }
        requires framed { IsFramed entry.now }
        ensures appended { OnOk result (self.new ≡ record self.old {
          pending = self.old.pending ++ entry.now ∷ [];
          spare = self.new.spare;
        }) }
        ensures fits { OnOk result (wanted_of self.old (length entry.now) ≤ room_of self.old) }
        ensures full { (room wanted : _) → IsErrOf result (Full room wanted)
            → (room ≡ room_of self.old) × (wanted ≡ wanted_of self.old (length entry.now)) × (room < wanted) }
        ensures memory { length entry.now ≤ self.old.spare → IsErrOf result AppendFault.Memory → ⊥ }
        ensures spare { self.old.spare ≤ self.new.spare + length entry.now }
        ensures err { OnErr result (SameButSpare self.old self.new) }
    {
        let room = self.room();
        let wanted = (self.batch.len() + 1) as u64 + entry.len() as u64;
        if wanted > room {
            return Err(AppendFault::Full { room, wanted });
        }
        if self.batch.reserve(entry.len()).is_err() {
            return Err(AppendFault::Memory);
        }
        push_entry(&mut self.batch, entry);
        self.count += 1;
        Ok(())
    }
}
