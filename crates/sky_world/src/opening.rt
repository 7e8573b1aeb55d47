//! Opening a site, and the status of a run where that is refused.

ghost use Rattle.std.specs.Prelude.{◌≡◌, IfOk, IfErr, IsErrOf, OnErr, OnOk};
ghost use Rattle.sky_nfs.specs.History.{History, last_tree, history_length};
ghost use Rattle.sky_outside.specs.Count.{Counts};
ghost use Rattle.sky_outside.specs.Moments.{NothingPending};
ghost use Rattle.sky_outside.specs.Told.{BothTold};
ghost use Rattle.sky_recover.specs.Opening.{Found, IsFoundOn, IsOpenOn, LeavesFound, WhereBothTold};
ghost use Rattle.sky_script.specs.Frame.{Opened as OpenedFrame};
ghost use Rattle.sky_sound.specs.Boot.{Claims, MayClaim};
ghost use Rattle.sky_world.specs.Meaning.{opening};
ghost use Rattle.sky_world.specs.Opening.{IsOfOpening, IsRefusedAs, LeavesRefusedAs, status_of};

use sky_base::{Lost, Status};
use sky_calls::DurableTree;
use sky_outside::Site;
use sky_recover::{OpenFault, Opened, recover};
use sky_settings::Settings;
use std::alloc::Global;

/// The status of a run whose opening was refused.
fn status_of(fault: OpenFault) -> Status
    ensures status { result ≡ status_of fault }
    ensures statuses { IsOfOpening result }
{
    match fault {
        OpenFault::DiskFault => Status::JournalFault,
        OpenFault::CloudFault => Status::CloudFault,
        OpenFault::Memory => Status::Memory,
        OpenFault::Foreign { at } => Status::Foreign { at },
        OpenFault::Lost(Lost::Missing { name }) => Status::Missing { name },
        OpenFault::Lost(Lost::Damaged { name, damage }) => Status::Damaged { name, damage },
        OpenFault::Worn => Status::Worn,
    }
}

/// Opens a site, and says what was found there; or with which status a run ends that can't open it.
pub fn open_site<S: Site>(
    alloc: Global,
    site: &mut S,
    settings: &Settings,
) -> Result<(DurableTree, Opened), Status>
    requires settled { NothingPending S.Storage site.old }
    ensures found { IfOk result (λ r. (found : Found) × IsFoundOn S.Storage settings.now.volume settings.now.journal_area site.old found
        × IsOpenOn S.Storage site.new found × (r.0.tree ≡ last_tree found.history) × (r.0.journal ≡ found.journal)
        × (opening found ≡ OpenedFrame r.1.epoch r.1.k r.1.journal) × (r.1.epoch ≡ found.epoch)) }
    ensures any_moment { LeavesFound S.Storage settings.now.volume settings.now.journal_area site.old site.new }
    ensures claims { OnOk result (Claims 1 (S.objects site.old) (S.objects site.new)) }
    ensures unclaimed { OnErr result (MayClaim 1 (S.objects site.old) (S.objects site.new)) }
    ensures tells { OnOk result (BothTold (λ old new. Unit {0}) (S.image site.old) (S.image site.new)) }
    ensures refused { IfErr result (λ status. WhereBothTold S.Storage site.old
        (IsRefusedAs settings.now.volume settings.now.journal_area status)) }
    ensures untouched { IfErr result (LeavesRefusedAs S.Storage site.old site.new) }
    ensures statuses { IfErr result IsOfOpening }
    ensures size { S.bytes_of site.new ≡ S.bytes_of site.old }
    ensures disk_cause { Counts (S.disk_faults site.old) (S.disk_faults site.new) (IsErrOf result Status.JournalFault) }
    ensures cloud_cause { Counts (S.cloud_faults site.old) (S.cloud_faults site.new) (IsErrOf result Status.CloudFault) }
{
    match recover(alloc, site, settings) {
        Ok(opened) => Ok(opened),
        Err(fault) => Err(status_of(fault)),
    }
}
