//! Opening a volume from a site's journal and its cloud.

ghost use Rattle.std.specs.Prelude.{◌≡◌, ◌⊎◌, ◌<◌, ◌≤◌, ℕ, List, [], false, IfErr, IfOk, IsErrOf, OnErr, OnOk, Ok, Err};
ghost use Rattle.sky_base.specs.Limits.{max_journal_area, max_number, max_volume, min_journal_area};
ghost use Rattle.sky_nfs.specs.Tree.{empty_tree};
ghost use Rattle.sky_journal.specs.Journal.{IsJournal, StandsOn};
ghost use Rattle.sky_outside.specs.CloudMap.{after_put, Happened, HappenedOrNot};
ghost use Rattle.sky_outside.specs.Count.{Counts, Rose};
ghost use Rattle.sky_outside.specs.Moments.{LeavesOnly, NothingPending, SameCloud};
ghost use Rattle.sky_outside.specs.Told.{BothTold, WhereTold};
ghost use Rattle.sky_sound.specs.Boot.{boot_bytes, boot_name, claimed};
ghost use Rattle.sky_sound.specs.Entries.{journal_of};
ghost use Rattle.sky_sound.specs.Recovery.{IsSound};
ghost use Rattle.sky_recover.specs.Opening.{IsOpened, LeavesFound, WhereBothTold};
ghost use Rattle.sky_recover.specs.Refusals.{IsJudged, IsOfDevices, IsRefusedBy, LeavesRefused};
ghost use Rattle.sky_recover.specs.Replaying.{FailsAt};
ghost use Rattle.sky_recover.specs.Settling.{IsRead};
ghost use Rattle.sky_recover.specs.Steps.{IsContinued, KeepsEntries, PutsOrNot};
ghost use Rattle.sky_recover.specs.declared.fault.ClaimFault.TheVariants as claim;
ghost use Rattle.sky_recover.specs.declared.fault.OpenFault.TheVariants.{CloudFault, DiskFault};
ghost use Rattle.sky_recover.specs.declared.fault.ReplayFault.TheVariants as replay;

use crate::boot::claim_epoch;
use crate::fault::{ClaimFault, OpenFault, ReplayFault};
use crate::listing::find_epoch;
use crate::opened::Opened;
use crate::reading::read_changes;
use crate::replaying::replay;
use crate::settling::settle;
use sky_calls::DurableTree;
use sky_journal::Journal;
use sky_nfs::valid_trees_stay_valid;
use sky_outside::{Disk, Site};
use sky_settings::Settings;
use sky_tree::Tree;
use std::alloc::Global;

/// Up to which change the cloud covers a volume, while checkpoints are not read.
const COVERS: u64 = 0;

/// Reads the journal of a volume, and then claims the epoch.
///
/// `Foreign` where the disk is not a journal of the volume: then nothing is put.
fn read_and_claim<S: Site>(
    alloc: Global,
    site: &mut S,
    volume: u64,
    area: u64,
    epoch: u64,
) -> Result<Journal, ClaimFault>
    requires least { min_journal_area ≤ area }
    requires most { area ≤ max_journal_area }
    requires epoch { epoch < max_number }
    requires settled { NothingPending S.Storage site.old }
    ensures read { IfOk result (λ j. WhereTold (S.image site.new) (IsRead j 0)) }
    ensures stands { IfOk result (λ j. StandsOn S.Storage j site.new) }
    ensures is { IfOk result IsJournal }
    ensures volume { IfOk result (λ j. j.volume ≡ volume) }
    ensures size { IfOk result (λ j. j.size ≡ area) }
    ensures pending { IfOk result (λ j. j.pending ≡ []) }
    ensures up { IfOk result (λ j. j.down ≡ false) }
    ensures foreign { (at : ℕ) → IsErrOf result (claim.Foreign at) → WhereTold (S.image site.old) (λ image. journal_of volume area 0 image ≡ Err at) }
    ensures image { S.image site.new ≡ S.image site.old }
    ensures claimed { OnOk result (Happened (after_put (boot_name epoch) (boot_bytes epoch)) (S.objects site.old) (S.objects site.new)) }
    ensures unclaimed { OnErr result (HappenedOrNot (after_put (boot_name epoch) (boot_bytes epoch)) (S.objects site.old) (S.objects site.new)) }
    ensures unread { WhereTold (S.image site.old) (λ image. (at : ℕ) → journal_of volume area 0 image ≡ Err at → S.objects site.new ≡ S.objects site.old) }
    ensures any_moment { LeavesOnly S.Storage site.old site.new (PutsOrNot S.Storage (after_put (boot_name epoch) (boot_bytes epoch)) site.old) }
    ensures bytes { S.bytes_of site.new ≡ S.bytes_of site.old }
    ensures disk_cause { Counts (S.disk_faults site.old) (S.disk_faults site.new) (IsErrOf result claim.DiskFault) }
    ensures cloud_cause { Counts (S.cloud_faults site.old) (S.cloud_faults site.new) (IsErrOf result claim.CloudFault) }
{
    let journal = read_changes(alloc, site, volume, area, COVERS)?;
    journal.facts();
    claim_epoch(alloc, site, epoch)?;
    Ok(journal)
}

/// Does the changes of a journal that was just read again, on the empty tree of the volume, and leaves its areas ready for changes.
///
/// `Foreign` where the answer to one of them is not OK, with the place at which its entry lies.
fn continue_from<D: Disk>(
    alloc: Global,
    disk: &mut D,
    journal: Journal,
    volume: u64,
) -> Result<DurableTree, ReplayFault>
    requires volume { volume ≤ max_volume }
    requires pending { journal.pending ≡ [] }
    requires up { journal.down ≡ false }
    requires stands { StandsOn D.Storage journal disk.old }
    requires read { WhereTold (D.image disk.old) (IsRead journal 0) }
    ensures continued { IfOk result (IsContinued D.Storage volume journal disk.old disk.new) }
    ensures is { IfOk result (λ d. IsJournal d.journal) }
    ensures foreign { (at : ℕ) → IsErrOf result (replay.Foreign at) → WhereTold (D.image disk.old) (λ image. (list : List (ℕ × List ℕ))
        → journal_of journal.volume journal.size 0 image ≡ Ok list → FailsAt (empty_tree volume) journal.size 0 list image at) }
    ensures kept { (at : ℕ) → IsErrOf result (replay.Foreign at) → D.image disk.new ≡ D.image disk.old }
    ensures any_moment { KeepsEntries D.Storage journal.volume journal.size disk.old disk.new }
    ensures tells { OnOk result (BothTold (λ old new. Unit {0}) (D.image disk.old) (D.image disk.new)) }
    ensures beside { SameCloud D.Storage disk.old disk.new }
    ensures bytes { D.bytes_of disk.new ≡ D.bytes_of disk.old }
    ensures cause { Counts (D.disk_faults disk.old) (D.disk_faults disk.new) (IsErrOf result replay.DiskFault) }
    ensures cloud { D.cloud_faults disk.new ≡ D.cloud_faults disk.old }
{
    let mut tree = Tree::empty(alloc, volume)?;
    replay(alloc, &journal, disk, &mut tree)?;
    let mut journal = journal;
    settle(&mut journal, disk, COVERS)?;
    journal.facts();
    Ok(DurableTree::new(alloc, tree, journal))
}

/// Opens the volume of the settings: lists the cloud, reads the journal, claims the next epoch by the boot object, does the changes of the journal
/// again, and leaves its areas ready for changes. When it begins, nothing that was written to the disk may wait for a sync.
///
/// What comes first ends it: `CloudFault` and `Memory` where the cloud could not be listed; `Lost` where a checkpoint of the proxy is listed, as
/// none is read yet; `Worn` exactly where the epoch would be 2^62; `DiskFault`, `Memory` and `Foreign` where the journal could not be read;
/// `CloudFault` and `Memory` where the boot object could not be put, which may be there all the same; `DiskFault`, `Memory` and `Foreign` where a
/// change could not be done again; `DiskFault` where an area could not be closed or opened. `DiskFault` and `CloudFault` come only where that count of
/// faults rose.
///
/// A stop at any moment of it leaves what recovery finds as it was, and never a smaller next epoch.
pub fn recover<S: Site>(
    alloc: Global,
    site: &mut S,
    settings: &Settings,
) -> Result<(DurableTree, Opened), OpenFault>
    requires settled { NothingPending S.Storage site.old }

    // What it found, and that it is open now.
    ensures found { IfOk result (λ r. IsOpened S.Storage settings.now.volume settings.now.journal_area site.old site.new r.0 r.1) }
    ensures epochs { IfOk result (λ r. (1 ≤ r.1.epoch) × (r.1.epoch < max_number)) }
    ensures any_moment { LeavesFound S.Storage settings.now.volume settings.now.journal_area site.old site.new }

    // The cloud has the boot object more, or nothing more.
    ensures claimed { OnOk result (BothTold (λ old new. new ≡ claimed old) (S.objects site.old) (S.objects site.new)) }
    ensures unclaimed { OnErr result (BothTold (λ old new. (new ≡ old) ⊎ (new ≡ claimed old)) (S.objects site.old) (S.objects site.new)) }

    // Where the disk is not a journal of the volume, nothing is put.
    ensures unread { WhereTold (S.image site.old) (λ image. (at : ℕ)
        → journal_of settings.now.volume settings.now.journal_area 0 image ≡ Err at → S.objects site.new ≡ S.objects site.old) }

    // Why it was refused.
    ensures judged { WhereTold (S.objects site.old) (IsJudged result) }
    ensures refused { IfErr result (λ fault. WhereBothTold S.Storage site.old
        (IsRefusedBy settings.now.volume settings.now.journal_area fault)) }
    // A site that is refused for what it has is left as it was.
    ensures untouched { IfErr result (LeavesRefused S.Storage site.old site.new) }
    ensures sound { WhereBothTold S.Storage site.old (λ image objects.
        IsSound settings.now.volume settings.now.journal_area image objects → IsOfDevices result) }
    ensures disk_cause { Counts (S.disk_faults site.old) (S.disk_faults site.new) (IsErrOf result DiskFault) }
    ensures cloud_grows { S.cloud_faults site.old ≤ S.cloud_faults site.new }
    ensures cloud_cause { IsErrOf result CloudFault → Rose (S.cloud_faults site.old) (S.cloud_faults site.new) }
    // This goes as soon as a step that ends well can raise the count.
    ensures cloud_quiet { (IsErrOf result CloudFault → ⊥) → S.cloud_faults site.new ≡ S.cloud_faults site.old }

    ensures tells { OnOk result (BothTold (λ old new. Unit {0}) (S.image site.old) (S.image site.new)) }
    ensures size { S.bytes_of site.new ≡ S.bytes_of site.old }
{
    valid_trees_stay_valid();
    let volume = settings.volume();
    let area = settings.journal_area();
    let epoch = find_epoch(site)?;
    let journal = read_and_claim(alloc, site, volume, area, epoch)?;
    let durable = continue_from(alloc, site, journal, volume)?;
    let k = durable.journal().stored();
    let opened = Opened {
        epoch,
        k,
        journal: k > COVERS,
    };
    Ok((durable, opened))
}
