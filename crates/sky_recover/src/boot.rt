//! Claiming an epoch, by the object that the proxy puts when it opens a volume.

ghost use Rattle.std.specs.Prelude.{◌≡◌, ◌<◌, IfOk, IsErrOf, OnErr, OnOk};
ghost use Rattle.sky_base.specs.Limits.{max_number};
ghost use Rattle.sky_outside.specs.CloudMap.{after_put, Happened, HappenedOrNot};
ghost use Rattle.sky_outside.specs.Count.{Counts};
ghost use Rattle.sky_outside.specs.Moments.{LeavesOnly, SameDisk};
ghost use Rattle.sky_outside.specs.declared.site.PutFault.TheVariants as put;
ghost use Rattle.sky_sound.specs.Boot.{boot_bytes, boot_name as name_of_boot};
ghost use Rattle.sky_recover.specs.Steps.{PutsOrNot};

use sky_base::{Dir, NoMemory, SegName};
use sky_outside::{Cloud, PutFault};
use sky_segment::{Builder, SegmentBytes};
use std::alloc::Global;

/// The name of the boot object of an epoch.
fn boot_name(epoch: u64) -> SegName
    ensures { result ≡ name_of_boot epoch }
{
    SegName {
        dir: Dir::Proxy,
        run: epoch,
        seq: 0,
        last: false,
    }
}

/// The boot object of an epoch: an object without items, of 36 bytes.
fn boot_object(alloc: Global, epoch: u64) -> Result<SegmentBytes, NoMemory>
    requires { epoch < max_number }
    ensures { IfOk result (λ bytes. bytes ≡ boot_bytes epoch) }
{
    let builder = Builder::new(alloc, Dir::Proxy, epoch, 0, false)?;
    Ok(builder.finish())
}

/// Claims an epoch: puts its boot object into the cloud.
///
/// `Failed` where the put failed, and the object may be there all the same; `Memory` where there was no memory for it.
pub(crate) fn claim_epoch<C: Cloud>(
    alloc: Global,
    cloud: &mut C,
    epoch: u64,
) -> Result<(), PutFault>
    requires { epoch < max_number }
    ensures claimed { OnOk result (Happened (after_put (name_of_boot epoch) (boot_bytes epoch)) (C.objects cloud.old) (C.objects cloud.new)) }
    ensures unclaimed { OnErr result (HappenedOrNot (after_put (name_of_boot epoch) (boot_bytes epoch)) (C.objects cloud.old) (C.objects cloud.new)) }
    ensures any_moment { LeavesOnly C.Storage cloud.old cloud.new (PutsOrNot C.Storage (after_put (name_of_boot epoch) (boot_bytes epoch)) cloud.old) }
    ensures beside { SameDisk C.Storage cloud.old cloud.new }
    ensures size { C.bytes_of cloud.new ≡ C.bytes_of cloud.old }
    ensures cause { Counts (C.cloud_faults cloud.old) (C.cloud_faults cloud.new) (IsErrOf result put.Failed) }
    ensures disk { C.disk_faults cloud.new ≡ C.disk_faults cloud.old }
{
    match boot_object(alloc, epoch) {
        Ok(object) => cloud.put(boot_name(epoch), object.as_slice()),
        Err(NoMemory) => Err(PutFault::Memory),
    }
}
