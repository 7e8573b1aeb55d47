//! Closing areas of the journal, whose entries are then no longer on its disk.

ghost use Rattle.std.specs.Prelude.{◌≡◌, ◌⊎◌, ◌≤◌, ℕ, false, List, [], None, Some, OnOk, OnErr, IsErr, is_err};
ghost use Rattle.sky_outside.specs.Count.{Counts};
ghost use Rattle.sky_outside.specs.Moments.{SameCloud, LeavesOnly, BesideObjects};
ghost use Rattle.sky_outside.specs.Told.{WhereTold, BothTold};
ghost use Rattle.sky_journal.specs.Journal.{StandsFor, StandsOn, ReadsEntries, SameButSpare, without_older, without_newer, wiped};
ghost use Rattle.sky_journal.specs.Rest.{after_failure, LeavesRest};

use crate::batch::clear_batch;
use crate::gate::CLOSED;
use crate::journal::Journal;
use crate::open_area::OpenArea;
use sky_outside::{Disk, Failed, write_through};

impl Journal {
    /// Closes this area, which is the older of two.
    fn close_older<D: Disk>(&mut self, area: OpenArea, disk: &mut D) -> Result<(), Failed>
        requires older { self.old.older ≡ Some area }
        requires up { self.old.down ≡ false }
        requires stands { StandsOn D.Storage self.old disk.old }
        ensures ok { OnOk result (SameButSpare (without_older self.old) self.new) }
        ensures holds { OnOk result (BothTold (λ old new. (older newer : List (List ℕ)) → StandsFor self.old old older newer
            → StandsFor self.new new [] newer) (D.image disk.old) (D.image disk.new)) }
        ensures stands { OnOk result (StandsOn D.Storage self.new disk.new) }
        ensures any_moment { WhereTold (D.image disk.old) (λ image. (older newer : List (List ℕ)) → StandsFor self.old image older newer
            → LeavesOnly D.Storage disk.old disk.new (BesideObjects D.Storage disk.old
            (λ left. ReadsEntries self.old older newer left ⊎ ReadsEntries (without_older self.old) [] newer left))) }
        ensures rest { BothTold (LeavesRest self.old) (D.image disk.old) (D.image disk.new) }
        ensures down { self.new.down ≡ is_err result }
        ensures failed { OnErr result (self.new ≡ after_failure self.old) }
        ensures spare { self.new.spare ≡ self.old.spare }
        ensures beside { SameCloud D.Storage disk.old disk.new }
        ensures size { D.bytes_of disk.new ≡ D.bytes_of disk.old }
        ensures cause { Counts (D.disk_faults disk.old) (D.disk_faults disk.new) (IsErr result) }
        ensures cloud { D.cloud_faults disk.new ≡ D.cloud_faults disk.old }
    {
        self.down = true;
        write_through(disk, area.start, &[CLOSED])?;
        self.older = None;
        self.down = false;
        Ok(())
    }

    /// Closes this area, which is the newer or only one, and drops the pending entries.
    fn close_last<D: Disk>(&mut self, area: OpenArea, disk: &mut D) -> Result<(), Failed>
        requires newer { self.old.newer ≡ Some area }
        requires up { self.old.down ≡ false }
        requires stands { StandsOn D.Storage self.old disk.old }
        ensures ok { OnOk result (SameButSpare (without_newer self.old) self.new) }
        ensures holds { OnOk result (BothTold (λ old new. (older newer : List (List ℕ)) → StandsFor self.old old older newer
            → StandsFor self.new new [] older) (D.image disk.old) (D.image disk.new)) }
        ensures stands { OnOk result (StandsOn D.Storage self.new disk.new) }
        ensures any_moment { WhereTold (D.image disk.old) (λ image. (older newer : List (List ℕ)) → StandsFor self.old image older newer
            → LeavesOnly D.Storage disk.old disk.new (BesideObjects D.Storage disk.old
            (λ left. ReadsEntries self.old older newer left ⊎ ReadsEntries (without_newer self.old) [] older left))) }
        ensures rest { BothTold (LeavesRest self.old) (D.image disk.old) (D.image disk.new) }
        ensures down { self.new.down ≡ is_err result }
        ensures failed { OnErr result (self.new ≡ after_failure self.old) }
        ensures spare { self.old.spare ≤ self.new.spare }
        ensures beside { SameCloud D.Storage disk.old disk.new }
        ensures size { D.bytes_of disk.new ≡ D.bytes_of disk.old }
        ensures cause { Counts (D.disk_faults disk.old) (D.disk_faults disk.new) (IsErr result) }
        ensures cloud { D.cloud_faults disk.new ≡ D.cloud_faults disk.old }
    {
        self.down = true;
        write_through(disk, area.start, &[CLOSED])?;
        self.newer = self.older;
        self.older = None;
        self.count = 0;
        clear_batch(&mut self.batch);
        self.down = false;
        Ok(())
    }

    /// Closes the newer or only area, where one is open, and drops the pending entries.
    fn close_newer<D: Disk>(&mut self, disk: &mut D) -> Result<(), Failed>
        requires up { self.old.down ≡ false }
        requires stands { StandsOn D.Storage self.old disk.old }
        ensures ok { OnOk result (SameButSpare (without_newer self.old) self.new) }
        ensures holds { OnOk result (BothTold (λ old new. (older newer : List (List ℕ)) → StandsFor self.old old older newer
            → StandsFor self.new new [] older) (D.image disk.old) (D.image disk.new)) }
        ensures stands { OnOk result (StandsOn D.Storage self.new disk.new) }
        ensures any_moment { WhereTold (D.image disk.old) (λ image. (older newer : List (List ℕ)) → StandsFor self.old image older newer
            → LeavesOnly D.Storage disk.old disk.new (BesideObjects D.Storage disk.old
            (λ left. ReadsEntries self.old older newer left ⊎ ReadsEntries (without_newer self.old) [] older left))) }
        ensures quiet { self.old.newer ≡ None → disk.new ≡ disk.old }
        ensures none { self.old.newer ≡ None → self.new.newer ≡ None }
        ensures rest { BothTold (LeavesRest self.old) (D.image disk.old) (D.image disk.new) }
        ensures down { self.new.down ≡ is_err result }
        ensures failed { OnErr result (self.new ≡ after_failure self.old) }
        ensures spare { self.old.spare ≤ self.new.spare }
        ensures beside { SameCloud D.Storage disk.old disk.new }
        ensures size { D.bytes_of disk.new ≡ D.bytes_of disk.old }
        ensures cause { Counts (D.disk_faults disk.old) (D.disk_faults disk.new) (IsErr result) }
        ensures cloud { D.cloud_faults disk.new ≡ D.cloud_faults disk.old }
    {
        match self.newer {
            Some(area) => self.close_last(area, disk),
            None => Ok(()),
        }
    }

    /// Closes the older of two open areas: its entries are no longer on the disk, and the pending ones stay pending. Where the older is
    /// closed already, it makes no call of the disk. `Failed` only where the disk's count of faults rose; the journal is down then, and
    /// is to be read anew.
    ///
    /// A crash at any moment of it leaves the entries of both areas, or those of the newer.
    pub fn release<D: Disk>(&mut self, disk: &mut D) -> Result<(), Failed>
        requires up { self.old.down ≡ false }
        requires stands { StandsOn D.Storage self.old disk.old }

        ensures ok { OnOk result (SameButSpare (without_older self.old) self.new) }
        ensures holds { OnOk result (BothTold (λ old new. (older newer : List (List ℕ)) → StandsFor self.old old older newer
            → StandsFor self.new new [] newer) (D.image disk.old) (D.image disk.new)) }
        ensures stands { OnOk result (StandsOn D.Storage self.new disk.new) }

        ensures any_moment { WhereTold (D.image disk.old) (λ image. (older newer : List (List ℕ)) → StandsFor self.old image older newer
            → LeavesOnly D.Storage disk.old disk.new (BesideObjects D.Storage disk.old
            (λ left. ReadsEntries self.old older newer left ⊎ ReadsEntries (without_older self.old) [] newer left))) }

        ensures quiet { self.old.older ≡ None → disk.new ≡ disk.old }
        ensures rest { BothTold (LeavesRest self.old) (D.image disk.old) (D.image disk.new) }
        ensures down { self.new.down ≡ is_err result }
        ensures failed { OnErr result (self.new ≡ after_failure self.old) }
        ensures spare { self.new.spare ≡ self.old.spare }
        ensures beside { SameCloud D.Storage disk.old disk.new }
        ensures size { D.bytes_of disk.new ≡ D.bytes_of disk.old }
        ensures cause { Counts (D.disk_faults disk.old) (D.disk_faults disk.new) (IsErr result) }
        ensures cloud { D.cloud_faults disk.new ≡ D.cloud_faults disk.old }
    {
        match self.older {
            Some(area) => self.close_older(area, disk),
            None => Ok(()),
        }
    }

    /// Closes all open areas, and drops the pending entries: the newer area first, then the older, with a sync after each. Where no area
    /// is open it makes no call of the disk. `Failed` only where the disk's count of faults rose; the journal is down then, and is to be
    /// read anew.
    ///
    /// A crash at any moment of it leaves the entries of both areas, those of the older, or none.
    pub fn wipe<D: Disk>(&mut self, disk: &mut D) -> Result<(), Failed>
        requires up { self.old.down ≡ false }
        requires stands { StandsOn D.Storage self.old disk.old }

        ensures ok { OnOk result (SameButSpare (wiped self.old) self.new) }
        ensures holds { OnOk result (BothTold (λ old new. (older newer : List (List ℕ)) → StandsFor self.old old older newer
            → StandsFor self.new new [] []) (D.image disk.old) (D.image disk.new)) }
        ensures stands { OnOk result (StandsOn D.Storage self.new disk.new) }

        ensures any_moment { WhereTold (D.image disk.old) (λ image. (older newer : List (List ℕ)) → StandsFor self.old image older newer
            → LeavesOnly D.Storage disk.old disk.new (BesideObjects D.Storage disk.old
            (λ left. ReadsEntries self.old older newer left ⊎ ReadsEntries (without_newer self.old) [] older left ⊎ ReadsEntries (wiped self.old) [] [] left))) }

        ensures quiet { self.old.newer ≡ None → disk.new ≡ disk.old }
        ensures rest { BothTold (LeavesRest self.old) (D.image disk.old) (D.image disk.new) }
        ensures down { self.new.down ≡ is_err result }
        ensures failed { OnErr result ((self.new ≡ after_failure self.old)
            ⊎ (self.new ≡ record (after_failure (without_newer self.old)) { spare = self.new.spare })) }
        ensures spare { self.old.spare ≤ self.new.spare }
        ensures beside { SameCloud D.Storage disk.old disk.new }
        ensures size { D.bytes_of disk.new ≡ D.bytes_of disk.old }
        ensures cause { Counts (D.disk_faults disk.old) (D.disk_faults disk.new) (IsErr result) }
        ensures cloud { D.cloud_faults disk.new ≡ D.cloud_faults disk.old }
    {
        self.close_newer(disk)?;
        self.close_newer(disk)
    }
}
