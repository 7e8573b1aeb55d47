//! Gates: a byte that says whether what stands behind it counts.

ghost use Rattle.std.specs.Prelude.{◌≡◌, ◌+◌, ◌^◌, ◌<◌, ◌≤◌, [], ◌∷◌, length, OnOk, IsErr};
ghost use Rattle.std.specs.Option.{option_map};
ghost use Rattle.sky_outside.specs.Count.{Counts};
ghost use Rattle.sky_outside.specs.Image.{written, Torn};
ghost use Rattle.sky_outside.specs.Moments.{NothingPending, SameCloud, LeavesOnly, BesideObjects};
ghost use Rattle.sky_outside.specs.Told.{WhereTold, BothTold};
ghost use Rattle.sky_journal.specs.Written.{IsOpening};

use sky_outside::{Disk, Failed, write_through};

/// The byte of an open gate. Every other byte is a closed one.
pub const OPEN: u8 = 1;

/// The byte that closes a gate.
pub const CLOSED: u8 = 0;

/// Writes bytes behind the gate at this place, which is closed, and then opens it: two writes and two syncs. A crash at any moment of it
/// leaves any bytes behind the gate, or all of these and any gate. All else is as it was, also after `Failed`.
pub fn write_and_open<D: Disk>(disk: &mut D, gate: u64, bytes: &[u8]) -> Result<(), Failed>
    requires within { gate + 1 + length bytes.now ≤ D.bytes_of disk.old }
    requires small { gate + 1 < 2 ^ 64 }
    requires durable { NothingPending D.Storage disk.old }
    ensures written { OnOk result (D.image disk.new
        ≡ option_map (λ image. written (written image (gate + 1) bytes.now) gate (1 ∷ [])) (D.image disk.old)) }
    ensures torn { BothTold (Torn gate (1 + length bytes.now)) (D.image disk.old) (D.image disk.new) }
    ensures durable { OnOk result (NothingPending D.Storage disk.new) }
    ensures any_moment { WhereTold (D.image disk.old) (λ image. LeavesOnly D.Storage disk.old disk.new
        (BesideObjects D.Storage disk.old (IsOpening gate bytes.now image))) }
    ensures beside { SameCloud D.Storage disk.old disk.new }
    ensures size { D.bytes_of disk.new ≡ D.bytes_of disk.old }
    ensures cause { Counts (D.disk_faults disk.old) (D.disk_faults disk.new) (IsErr result) }
    ensures cloud { D.cloud_faults disk.new ≡ D.cloud_faults disk.old }
{
    write_through(disk, gate + 1, bytes)?;
    write_through(disk, gate, &[OPEN])
}
