//! Leaving the journal's areas ready for changes.

ghost use Rattle.std.specs.Prelude.{◌≡◌, ◌<◌, ◌≤◌, [], false, true, IfSome, IsErr, OnOk, is_err};
ghost use Rattle.sky_base.specs.Limits.{max_number};
ghost use Rattle.sky_outside.specs.Count.{Counts};
ghost use Rattle.sky_outside.specs.Moments.{SameCloud};
ghost use Rattle.sky_outside.specs.Told.{WhereTold};
ghost use Rattle.sky_journal.specs.Journal.{SameButSpare, StandsOn, number_behind};
ghost use Rattle.sky_sound.specs.Settled.{settled};
ghost use Rattle.sky_recover.specs.Settling.{IsRead, LeavesAbove, StaysAbove};

use sky_journal::Journal;
use sky_outside::{Disk, Failed};

/// Closes all areas, and opens the one at the disk's start behind an entry of this number.
fn begin_anew<D: Disk>(journal: &mut Journal, disk: &mut D, covers: u64) -> Result<(), Failed>
    requires up { journal.old.down ≡ false }
    requires pending { journal.old.pending ≡ [] }
    requires stands { StandsOn D.Storage journal.old disk.old }
    requires read { WhereTold (D.image disk.old) (IsRead journal.old covers) }
    requires number { covers < max_number }
    requires covered { number_behind journal.old.newer 0 ≤ covers }
    ensures settled { OnOk result (SameButSpare (settled covers journal.old) journal.new) }
    ensures stands { OnOk result (StandsOn D.Storage journal.new disk.new) }
    ensures read { OnOk result (WhereTold (D.image disk.new) (IsRead journal.new covers)) }
    ensures above { OnOk result (StaysAbove D.Storage disk.old disk.new journal.old covers) }
    ensures any_moment { LeavesAbove D.Storage disk.old disk.new journal.old covers }
    ensures down { journal.new.down ≡ is_err result }
    ensures beside { SameCloud D.Storage disk.old disk.new }
    ensures size { D.bytes_of disk.new ≡ D.bytes_of disk.old }
    ensures cause { Counts (D.disk_faults disk.old) (D.disk_faults disk.new) (IsErr result) }
    ensures cloud { D.cloud_faults disk.new ≡ D.cloud_faults disk.old }
{
    journal.facts();
    journal.wipe(disk)?;
    journal.rotate(disk, covers)?;
    Ok(())
}

/// Whether both areas are open, and the older has no entry above this number.
fn older_is_covered(journal: &Journal, covers: u64) -> bool
    ensures covered { result ≡ true → IfSome journal.now.older (λ a. a.last ≤ covers) }
    ensures uncovered { result ≡ false → IfSome journal.now.older (λ a. covers < a.last) }
{
    journal.facts();
    match journal.base() {
        Some(base) => journal.two_open() && base <= covers,
        None => false,
    }
}

/// Closes the older area, where it has no entry above this number.
fn release_covered<D: Disk>(journal: &mut Journal, disk: &mut D, covers: u64) -> Result<(), Failed>
    requires up { journal.old.down ≡ false }
    requires pending { journal.old.pending ≡ [] }
    requires stands { StandsOn D.Storage journal.old disk.old }
    requires read { WhereTold (D.image disk.old) (IsRead journal.old covers) }
    requires above { covers < number_behind journal.old.newer 0 }
    ensures settled { OnOk result (SameButSpare (settled covers journal.old) journal.new) }
    ensures stands { OnOk result (StandsOn D.Storage journal.new disk.new) }
    ensures read { OnOk result (WhereTold (D.image disk.new) (IsRead journal.new covers)) }
    ensures above { OnOk result (StaysAbove D.Storage disk.old disk.new journal.old covers) }
    ensures any_moment { LeavesAbove D.Storage disk.old disk.new journal.old covers }
    ensures down { journal.new.down ≡ is_err result }
    ensures beside { SameCloud D.Storage disk.old disk.new }
    ensures size { D.bytes_of disk.new ≡ D.bytes_of disk.old }
    ensures cause { Counts (D.disk_faults disk.old) (D.disk_faults disk.new) (IsErr result) }
    ensures cloud { D.cloud_faults disk.new ≡ D.cloud_faults disk.old }
{
    journal.facts();
    if older_is_covered(journal, covers) {
        journal.release(disk)?;
    }
    Ok(())
}

/// Leaves the areas of a journal that was just read ready for changes, where the entries up to covers are kept elsewhere too. Where no entry is
/// above covers, both areas are closed, the newer first, and the one at the disk's start is opened with covers as its base; else the older
/// area is closed where none of its entries is above covers.
///
/// `Failed` only where the disk's count of faults rose. A crash at any moment of it leaves the entries above covers as they were.
pub(crate) fn settle<D: Disk>(
    journal: &mut Journal,
    disk: &mut D,
    covers: u64,
) -> Result<(), Failed>
    requires up { journal.old.down ≡ false }
    requires pending { journal.old.pending ≡ [] }
    requires stands { StandsOn D.Storage journal.old disk.old }
    requires read { WhereTold (D.image disk.old) (IsRead journal.old covers) }
    requires number { covers < max_number }
    ensures settled { OnOk result (SameButSpare (settled covers journal.old) journal.new) }
    ensures stands { OnOk result (StandsOn D.Storage journal.new disk.new) }
    ensures read { OnOk result (WhereTold (D.image disk.new) (IsRead journal.new covers)) }
    // The entries above covers are those from before, also at each moment in between.
    ensures above { OnOk result (StaysAbove D.Storage disk.old disk.new journal.old covers) }
    ensures any_moment { LeavesAbove D.Storage disk.old disk.new journal.old covers }
    ensures down { journal.new.down ≡ is_err result }
    ensures beside { SameCloud D.Storage disk.old disk.new }
    ensures size { D.bytes_of disk.new ≡ D.bytes_of disk.old }
    ensures cause { Counts (D.disk_faults disk.old) (D.disk_faults disk.new) (IsErr result) }
    ensures cloud { D.cloud_faults disk.new ≡ D.cloud_faults disk.old }
{
    if journal.stored() <= covers {
        begin_anew(journal, disk, covers)
    } else {
        release_covered(journal, disk, covers)
    }
}
