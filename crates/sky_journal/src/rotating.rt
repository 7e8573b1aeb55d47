//! Opening an area of the journal beside the one that is open.

ghost use Rattle.std.specs.Prelude.{◌≡◌, ◌<◌, ℕ, false, List, [], None, IfSome, OnOk, OnErr, IsErr, is_err};
ghost use Rattle.sky_base.specs.Limits.{max_number};
ghost use Rattle.sky_outside.specs.Count.{Counts};
ghost use Rattle.sky_outside.specs.Moments.{SameCloud, LeavesOnly, BesideObjects};
ghost use Rattle.sky_outside.specs.Told.{WhereTold, BothTold};
ghost use Rattle.sky_journal.specs.Journal.{StandsFor, StandsOn, ReadsAs, SameButSpare, after_rotation, entries, first_base, start_beside as start_of_new};
ghost use Rattle.sky_journal.specs.Rest.{after_failure, LeavesRest};
ghost use Rattle.sky_journal.specs.Written.{HasAreaUnused};

use crate::batch::{AREA_HEADER, behind_area_gate};
use crate::gate::write_and_open;
use crate::journal::Journal;
use crate::open_area::OpenArea;
use sky_outside::{Disk, Failed};

impl Journal {
    /// Where the area begins that a rotation opens: behind the first, where that is open, and else at the disk's start.
    fn start_beside(&self) -> u64
        ensures { result ≡ start_of_new self.now.size self.now.newer }
    {
        match self.newer {
            Some(area) => { if area.start == 0 { self.size } else { 0 } }
            None => 0,
        }
    }

    /// Opens the free area behind an entry of this number: that of the last entry, where an area is open, and below 2^62. From then on
    /// entries go into the new area, and the one that was open is the older. There is a free area, and nothing is pending. It writes
    /// the new area's header behind a closed gate, syncs, opens the gate, and syncs. `Failed` only where the disk's count of faults
    /// rose; the journal is down then, and is to be read anew.
    ///
    /// A crash at any moment of it leaves the entries as they were.
    pub fn rotate<D: Disk>(&mut self, disk: &mut D, base: u64) -> Result<(), Failed>
        requires up { self.old.down ≡ false }
        requires stands { StandsOn D.Storage self.old disk.old }
        requires free { self.old.older ≡ None }
        requires settled { self.old.pending ≡ [] }
        requires number { base < max_number }
        requires goes_on { IfSome self.old.newer (λ a. base ≡ a.last) }

        ensures ok { OnOk result (SameButSpare (after_rotation self.old base) self.new) }
        ensures holds { OnOk result (BothTold (λ old new. (older newer : List (List ℕ)) → StandsFor self.old old older newer
            → StandsFor self.new new newer []) (D.image disk.old) (D.image disk.new)) }
        ensures stands { OnOk result (StandsOn D.Storage self.new disk.new) }

        ensures any_moment { WhereTold (D.image disk.old) (λ image. (older newer : List (List ℕ)) → StandsFor self.old image older newer
            → LeavesOnly D.Storage disk.old disk.new (BesideObjects D.Storage disk.old
            (ReadsAs self.old.volume self.old.size (first_base (after_rotation self.old base)) (entries self.old older newer)))) }

        // Bytes that are not used are zero in what it writes.
        ensures unused { OnOk result (WhereTold (D.image disk.new) (HasAreaUnused (start_of_new self.old.size self.old.newer))) }
        ensures rest { BothTold (LeavesRest (after_rotation self.old base)) (D.image disk.old) (D.image disk.new) }
        ensures down { self.new.down ≡ is_err result }
        ensures failed { OnErr result (self.new ≡ after_failure self.old) }
        ensures spare { self.new.spare ≡ self.old.spare }
        ensures beside { SameCloud D.Storage disk.old disk.new }
        ensures size { D.bytes_of disk.new ≡ D.bytes_of disk.old }
        ensures cause { Counts (D.disk_faults disk.old) (D.disk_faults disk.new) (IsErr result) }
        ensures cloud { D.cloud_faults disk.new ≡ D.cloud_faults disk.old }
    {
        let start = self.start_beside();
        self.down = true;
        write_and_open(disk, start, &behind_area_gate(self.volume, base))?;
        self.older = self.newer;
        self.newer = Some(OpenArea {
            start,
            base,
            last: base,
            end: AREA_HEADER,
        });
        self.down = false;
        Ok(())
    }
}
