//! What a list of the cloud says: the next epoch, and the last checkpoint of the proxy.

ghost use Rattle.std.specs.Prelude.{◌≡◌, ◌<◌, ◌≤◌, All, IfOk, IsErrOf};
ghost use Rattle.sky_base.specs.Limits.{max_number};
ghost use Rattle.sky_outside.specs.CloudMap.{listing};
ghost use Rattle.sky_outside.specs.Count.{Counts};
ghost use Rattle.sky_outside.specs.Moments.{OnlyLooks};
ghost use Rattle.sky_outside.specs.Told.{WhereTold};
ghost use Rattle.sky_outside.specs.declared.site.PutFault.TheVariants as put;
ghost use Rattle.sky_sound.specs.Cloud.{epoch_after, epoch_behind as epoch_behind_of, next_epoch};
ghost use Rattle.sky_recover.specs.Faults.{of_listing};
ghost use Rattle.sky_recover.specs.Refusals.{IsJudged};
ghost use Rattle.sky_recover.specs.declared.fault.ListFault.TheVariants.{CloudFault};

use crate::fault::ListFault;
use sky_base::{Damage, Dir, Lost, SegName};
use sky_checkpoint::last_check;
use sky_outside::{Cloud, Held, PutFault};

/// What no epoch reaches.
const MAX_EPOCH: u64 = 1 << 62;

/// The objects that the cloud holds.
fn list_cloud<C: Cloud>(cloud: &mut C) -> Result<Vec<Held>, PutFault>
    ensures listed { IfOk result (λ held. WhereTold (C.objects cloud.old) (λ objects. held.items ≡ listing objects)) }
    ensures runs { IfOk result (λ held. All (λ h. h.name.run < max_number) held.items) }
    ensures looks { OnlyLooks C.Storage cloud.old cloud.new }
    ensures cause { Counts (C.cloud_faults cloud.old) (C.cloud_faults cloud.new) (IsErrOf result put.Failed) }
    ensures disk { C.disk_faults cloud.new ≡ C.disk_faults cloud.old }
{
    cloud.list()
}

/// The epoch behind that of an object of the proxy; the first epoch, whatever the cleaner has.
fn epoch_behind(name: SegName) -> u64
    requires { name.run < max_number }
    ensures value { result ≡ epoch_behind_of name.dir name.run }
    ensures least { 1 ≤ result }
    ensures most { result ≤ max_number }
{
    match name.dir {
        Dir::Proxy => name.run + 1,
        Dir::Cleaner => 1,
    }
}

/// The next epoch by a list of objects: 1 more than the greatest of which the proxy has an object, or 1.
fn epoch_in(held: &[Held]) -> u64
    requires { All (λ h. h.name.run < max_number) held.now }
    ensures value { result ≡ next_epoch held.now }
    ensures least { 1 ≤ result }
    ensures most { result ≤ max_number }
{
    let mut epoch = 1;
    for object in held {
        epoch = epoch.max(epoch_behind(object.name));
    }
    epoch
}

/// The next epoch of the proxy, which is below 2^62. It only looks at the cloud.
///
/// `CloudFault` where the cloud failed, `Memory` where there was no memory for the list. Checkpoints are not read yet: where the cloud
/// lists one of the proxy, it is `Lost`, the greatest as damaged in its first field. `Worn` exactly where the epoch would be 2^62.
pub(crate) fn find_epoch<C: Cloud>(cloud: &mut C) -> Result<u64, ListFault>
    ensures epoch { IfOk result (λ epoch. WhereTold (C.objects cloud.old) (λ objects. epoch ≡ epoch_after objects)) }
    ensures least { IfOk result (λ epoch. 1 ≤ epoch) }
    ensures below { IfOk result (λ epoch. epoch < max_number) }
    ensures judged { WhereTold (C.objects cloud.old) (IsJudged (of_listing result)) }
    ensures looks { OnlyLooks C.Storage cloud.old cloud.new }
    ensures cause { Counts (C.cloud_faults cloud.old) (C.cloud_faults cloud.new) (IsErrOf result CloudFault) }
    ensures disk { C.disk_faults cloud.new ≡ C.disk_faults cloud.old }
{
    let held = list_cloud(cloud)?;
    if let Some(name) = last_check(&held) {
        return Err(ListFault::Lost(Lost::Damaged {
            name,
            damage: Damage::Form { at: 0 },
        }));
    }
    let epoch = epoch_in(&held);
    if epoch == MAX_EPOCH {
        return Err(ListFault::Worn);
    }
    Ok(epoch)
}
