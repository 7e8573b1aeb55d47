//! Bringing the journal to its disk: commits, rotations, and the closing of areas.

ghost use Rattle.std.specs.Prelude.{◌≡◌, ◌≢◌, ◌+◌, ◌≤◌, false, [], Some, IfSome, OnOk, OnErr, IsErr, is_err};
ghost use Rattle.sky_base.specs.Limits.{max_number};
ghost use Rattle.sky_outside.specs.Count.{Counts};
ghost use Rattle.sky_outside.specs.Moments.{SameCloud};
ghost use Rattle.sky_outside.specs.Told.{WhereTold, BothTold};
ghost use Rattle.sky_journal.specs.Journal.{StandsOn, SameButSpare, after_commit};
ghost use Rattle.sky_journal.specs.Lasting.{HoldsMore, LeavesMore, LeavesOldOrMore};
ghost use Rattle.sky_journal.specs.Rest.{after_failure, LeavesRest};
ghost use Rattle.sky_journal.specs.Written.{HasBatchUnused};

use crate::batch::{AREA_HEADER, behind_area_gate, clear_batch, complete_batch};
use crate::gate::{CLOSED, write_and_open};
use crate::journal::Journal;
use crate::open_area::OpenArea;
use sky_outside::{Disk, Failed, write_through};

impl Journal {
    /// Brings the pending entries, of which there is one at least, to this area, which is the newer.
    fn commit_to<D: Disk>(&mut self, area: OpenArea, disk: &mut D) -> Result<(), Failed>
        requires newer { self.old.newer ≡ Some area }
        requires some { self.old.pending ≡ [] → ⊥ }
        requires stands { StandsOn D.Storage self.old disk.old }
        requires up { self.old.down ≡ false }
        ensures ok { OnOk result (SameButSpare (after_commit self.old) self.new) }
        ensures holds { OnOk result (HoldsMore D.Storage disk.old disk.new self.old self.new self.old.pending) }
        ensures stands { OnOk result (StandsOn D.Storage self.new disk.new) }
        ensures unused { OnOk result (WhereTold (D.image disk.new) (HasBatchUnused (area.start + area.end))) }
        ensures any_moment { LeavesOldOrMore D.Storage disk.old disk.new self.old self.old.pending }
        ensures rest { BothTold (LeavesRest self.old) (D.image disk.old) (D.image disk.new) }
        ensures down { self.new.down ≡ is_err result }
        ensures failed { OnErr result (self.new ≡ after_failure self.old) }
        ensures spare { self.old.spare ≤ self.new.spare }
        ensures beside { SameCloud D.Storage disk.old disk.new }
        ensures size { D.bytes_of disk.new ≡ D.bytes_of disk.old }
        ensures cause { Counts (D.disk_faults disk.old) (D.disk_faults disk.new) (IsErr result) }
        ensures cloud { D.cloud_faults disk.new ≡ D.cloud_faults disk.old }
    {
        self.down = true;
        complete_batch(&mut self.batch, self.count);
        write_and_open(disk, area.start + area.end, self.batch.as_slice())?;
        self.newer = Some(OpenArea {
            last: area.last + self.count as u64,
            end: area.end + self.batch.len() as u64,
            ..area
        });
        self.count = 0;
        clear_batch(&mut self.batch);
        self.down = false;
        Ok(())
    }

    /// Brings all pending entries to the disk as one batch: it writes the batch behind a closed gate, syncs, opens the gate, and syncs.
    /// Where nothing is pending it makes no call of the disk. `Failed` only where the disk's count of faults rose; the journal is down
    /// then, and is to be read anew. Whether it fails or not, what is behind the second area and in an area that is closed stays,
    /// and so does the memory that `reserve` took.
    ///
    /// A crash at any moment of it leaves the entries before the call, or those and all of the batch.
    pub fn commit<D: Disk>(&mut self, disk: &mut D) -> Result<(), Failed>
        requires up { self.old.down ≡ false }
        requires stands { StandsOn D.Storage self.old disk.old }

        ensures ok { OnOk result (SameButSpare (after_commit self.old) self.new) }
        ensures holds { OnOk result (HoldsMore D.Storage disk.old disk.new self.old self.new self.old.pending) }
        ensures stands { OnOk result (StandsOn D.Storage self.new disk.new) }

        ensures any_moment { LeavesOldOrMore D.Storage disk.old disk.new self.old self.old.pending }
        // Acknowledged: from then on each crash leaves the batch.
        ensures durable { OnOk result (LeavesMore D.Storage disk.old disk.new self.old self.old.pending) }

        // Bytes that are not used are zero in what it writes.
        ensures unused { OnOk result (self.old.pending ≢ []
            → IfSome self.old.newer (λ a. WhereTold (D.image disk.new) (HasBatchUnused (a.start + a.end)))) }
        ensures quiet { self.old.pending ≡ [] → disk.new ≡ disk.old }
        ensures rest { BothTold (LeavesRest self.old) (D.image disk.old) (D.image disk.new) }
        ensures down { self.new.down ≡ is_err result }
        ensures failed { OnErr result (self.new ≡ after_failure self.old) }
        ensures spare { self.old.spare ≤ self.new.spare }
        ensures beside { SameCloud D.Storage disk.old disk.new }
        ensures size { D.bytes_of disk.new ≡ D.bytes_of disk.old }
        ensures cause { Counts (D.disk_faults disk.old) (D.disk_faults disk.new) (IsErr result) }
        ensures cloud { D.cloud_faults disk.new ≡ D.cloud_faults disk.old }
    {
        let Some(area) = self.newer else {
            return Ok(());
        };
        if self.count == 0 {
            return Ok(());
        }
        self.commit_to(area, disk)
    }
}
