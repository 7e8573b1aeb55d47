//! Reading the journal of changes.

ghost use Rattle.std.specs.Prelude.{◌≡◌, ℕ, ◌≤◌, [], Err, false, IfOk, IsErrOf};
ghost use Rattle.sky_base.specs.Limits.{max_journal_area, min_journal_area};
ghost use Rattle.sky_outside.specs.Count.{Counts};
ghost use Rattle.sky_outside.specs.Moments.{OnlyLooks};
ghost use Rattle.sky_outside.specs.Told.{WhereTold};
ghost use Rattle.sky_journal.specs.declared.fault.JournalFault.TheVariants.{DiskFault, Foreign};
ghost use Rattle.sky_sound.specs.Entries.{journal_of};
ghost use Rattle.sky_recover.specs.Settling.{IsRead};

use crate::grammar::ChangeGrammar;
use sky_journal::{Journal, JournalFault, read_journal};
use sky_outside::Disk;
use std::alloc::Global;

/// Reads the journal of a volume's changes from a disk, with two areas of this many bytes, where the changes up to covers are kept elsewhere
/// too. It only looks at the disk.
///
/// `Foreign` exactly where the image is not a journal of the volume whose entries are those of changes, with the first place, in the order
/// of reading, at which it is not.
pub(crate) fn read_changes<D: Disk>(
    alloc: Global,
    disk: &mut D,
    volume: u64,
    area: u64,
    covers: u64,
) -> Result<Journal, JournalFault>
    requires least { min_journal_area ≤ area }
    requires most { area ≤ max_journal_area }
    ensures read { IfOk result (λ j. WhereTold (D.image disk.old) (IsRead j covers)) }
    ensures foreign { (at : ℕ) → IsErrOf result (Foreign at) → WhereTold (D.image disk.old) (λ image. journal_of volume area covers image ≡ Err at) }
    ensures volume { IfOk result (λ j. j.volume ≡ volume) }
    ensures size { IfOk result (λ j. j.size ≡ area) }
    ensures disk { IfOk result (λ j. j.disk ≡ D.bytes_of disk.old) }
    ensures pending { IfOk result (λ j. j.pending ≡ []) }
    ensures up { IfOk result (λ j. j.down ≡ false) }
    ensures looks { OnlyLooks D.Storage disk.old disk.new }
    ensures cause { Counts (D.disk_faults disk.old) (D.disk_faults disk.new) (IsErrOf result DiskFault) }
    ensures cloud { D.cloud_faults disk.new ≡ D.cloud_faults disk.old }
{
    let mut grammar = ChangeGrammar;
    read_journal(alloc, disk, &mut grammar, volume, area, covers)
}
