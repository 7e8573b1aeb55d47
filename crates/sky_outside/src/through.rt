//! Writing bytes so that they last through a crash.

ghost use Rattle.std.specs.Prelude.{◌≡◌, ◌+◌, ◌≤◌, length, OnOk, IsErr};
ghost use Rattle.std.specs.Option.{option_map};
ghost use Rattle.sky_outside.specs.Count.{Counts};
ghost use Rattle.sky_outside.specs.Image.{written, Torn};
ghost use Rattle.sky_outside.specs.Moments.{NothingPending, SameCloud, LeavesOnly, BesideObjects};
ghost use Rattle.sky_outside.specs.Told.{WhereTold, BothTold};

use crate::site::Disk;
use crate::stream::Failed;

/// Writes the bytes from this place on and syncs, where nothing is pending before. After `Ok` nothing
/// is pending again. A crash at any moment of it leaves what was read before, with any bytes in the
/// range, and so does a read after `Failed`.
pub fn write_through<D: Disk>(disk: &mut D, at: u64, bytes: &[u8]) -> Result<(), Failed>
    requires within { at + length bytes.now ≤ D.bytes_of disk.old }
    requires durable { NothingPending D.Storage disk.old }
    ensures written { OnOk result
        (D.image disk.new ≡ option_map (λ image. written image at bytes.now) (D.image disk.old)) }
    ensures torn { BothTold (Torn at (length bytes.now)) (D.image disk.old) (D.image disk.new) }
    ensures durable { OnOk result (NothingPending D.Storage disk.new) }
    ensures any_moment { WhereTold (D.image disk.old) (λ image. LeavesOnly D.Storage disk.old disk.new
        (BesideObjects D.Storage disk.old (Torn at (length bytes.now) image))) }
    ensures beside { SameCloud D.Storage disk.old disk.new }
    ensures size { D.bytes_of disk.new ≡ D.bytes_of disk.old }
    ensures cause { Counts (D.disk_faults disk.old) (D.disk_faults disk.new) (IsErr result) }
    ensures cloud { D.cloud_faults disk.new ≡ D.cloud_faults disk.old }
{
    disk.write_at(at, bytes)?;
    disk.sync()
}
