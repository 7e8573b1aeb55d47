//! What answers the calls of a session.

ghost use Rattle.std.specs.Prelude.{◌≡◌, ◌⊎◌, ◌<◌, ◌≤◌, ◌^◌, ℕ, List, [], false, true, IsErr, IsTrue, OnOk, is_none, length};
ghost use Rattle.sky_calls.specs.Durable.{is_down};
ghost use Rattle.sky_entry.specs.Entry.{entry_bytes};
ghost use Rattle.sky_nfs.specs.Calls.{is_change};
ghost use Rattle.sky_outside.specs.Count.{Counts};
ghost use Rattle.sky_outside.specs.Moments.{BesideObjects, LeavesOnly, NothingPending, SameCloud};
ghost use Rattle.sky_outside.specs.Told.{BothTold, WhereTold};
ghost use Rattle.sky_journal.specs.Journal.{ReadsEntries, StandsFor, last_of, number_behind, wiped, without_newer};
ghost use Rattle.sky_nfs.specs.Tree.{epoch_start};
ghost use Rattle.sky_world.specs.Carried.{Becomes, IsServing, has_committed};

use sky_base::Moment;
use sky_calls::{DurableTree, Outcome};
use sky_nfs::{Answer, Change};
use sky_outside::{Disk, Failed};
use std::marker::Model;

/// The moment before the first that is set: the beginning of 1970.
const FIRST_MOMENT: Moment = Moment {
    seconds: 0,
    nanos: 0,
};

/// What answers the calls of a session: the file tree with its journal, the number of this opening, and the moment of the calls.
#[derive(Drop)]
pub struct Service {
    epoch: u64,
    files: DurableTree,
    moment: Moment,
}

impl Model for Service {
    ghost use Rattle.sky_world.specs.World.{ServiceView};

    ghost Value = { ServiceView };

    ghost view = { λ s. record { epoch = s.epoch; tree = s.files.tree; journal = s.files.journal; moment = s.moment } };
}

/// Whether an answer is that to a COMMIT which is OK.
fn is_committed(answer: &Answer) -> bool
    ensures { result ≡ has_committed answer.now }
{
    matches!(answer, Answer::Commit(Ok(_)))
}

impl Service {
    /// What answers the calls over these files, at this opening.
    pub fn new(epoch: u64, files: DurableTree) -> Service
        ensures { result ≡ record { epoch = epoch; tree = files.tree; journal = files.journal; moment = epoch_start } }
    {
        Service {
            epoch,
            files,
            moment: FIRST_MOMENT,
        }
    }

    /// What answers the calls after the site was opened again: these files, at this opening. The moment stays.
    pub fn reopen(&mut self, epoch: u64, files: DurableTree)
        ensures { self.new ≡ record { epoch = epoch; tree = files.tree; journal = files.journal; moment = self.old.moment } }
    {
        self.epoch = epoch;
        self.files = files;
    }

    /// The moment of the calls that follow.
    pub fn moment(&self) -> Moment
        ensures { result ≡ self.now.moment }
    {
        self.moment
    }

    /// Sets the moment of the calls that follow.
    pub fn set_moment(&mut self, at: Moment)
        ensures { self.new ≡ record self.old { moment = at } }
    {
        self.moment = at;
    }

    /// The number of the volume.
    pub fn volume(&self) -> u64
        ensures { result ≡ self.now.tree.volume }
    {
        self.files.tree().volume()
    }

    /// The number of this opening.
    pub fn epoch(&self) -> u64
        ensures { result ≡ self.now.epoch }
    {
        self.epoch
    }

    /// The number of the last change that is on the journal's disk.
    pub fn mark(&self) -> u64
        ensures { result ≡ number_behind self.now.journal.newer 0 }
    {
        self.files.journal().stored()
    }

    /// The number of the last change, of those too that are not on the disk yet.
    pub fn last(&self) -> u64
        ensures { result ≡ last_of self.now.journal }
    {
        self.files.journal().last()
    }
}

impl Service {
    /// Answers a call that changes the files.
    fn change<D: Disk>(&mut self, disk: &mut D, change: &Change) -> Outcome
        requires changes { IsTrue (is_change change.now.call) }
        requires small { length (entry_bytes change.now) < 2 ^ 32 }
        requires serving { IsServing D.Storage self.old disk.old }
        ensures becomes { Becomes D.Storage self.old disk.old change.now result self.new disk.new }
        ensures size { D.bytes_of disk.new ≡ D.bytes_of disk.old }
        ensures down { self.new.journal.down ≡ is_down result }
        ensures cause { Counts (D.disk_faults disk.old) (D.disk_faults disk.new) (IsTrue (is_down result)) }
        ensures cloud { D.cloud_faults disk.new ≡ D.cloud_faults disk.old }
        ensures objects { D.objects disk.new ≡ D.objects disk.old }
    {
        self.files.facts();
        let outcome = self.files.change(disk, self.epoch, change);
        self.files.facts();
        outcome
    }

    /// Answers a call that changes no file; a COMMIT brings all changes that are pending to the disk.
    fn look<D: Disk>(&mut self, disk: &mut D, change: &Change) -> Outcome
        requires reads { is_change change.now.call ≡ false }
        requires serving { IsServing D.Storage self.old disk.old }
        ensures becomes { Becomes D.Storage self.old disk.old change.now result self.new disk.new }
        ensures size { D.bytes_of disk.new ≡ D.bytes_of disk.old }
        ensures down { self.new.journal.down ≡ is_down result }
        ensures cause { Counts (D.disk_faults disk.old) (D.disk_faults disk.new) (IsTrue (is_down result)) }
        ensures cloud { D.cloud_faults disk.new ≡ D.cloud_faults disk.old }
        ensures objects { D.objects disk.new ≡ D.objects disk.old }
    {
        self.files.facts();
        let Ok(answer) = self
            .files
            .answer(self.epoch, &change.cred, &change.call, change.moment)
        else {
            return Outcome::Memory;
        };
        if !is_committed(&answer) {
            return Outcome::Done(answer);
        }
        if self.files.commit(disk).is_err() {
            return Outcome::Down;
        }
        self.files.facts();
        Outcome::Done(answer)
    }

    /// Answers a call of NFS. A change that is answered OK is in the journal, and on its disk unless it is a WRITE whose data may wait; a
    /// COMMIT that is answered OK brings all that is pending to the disk.
    ///
    /// `Jukebox` exactly where the answer would be OK and the journal has no room, `Down` where a call of the disk failed, `Memory`
    /// where there is no memory for it. After `Jukebox` and `Memory` all is as it was.
    pub fn answer<D: Disk>(&mut self, disk: &mut D, change: &Change) -> Outcome
        requires small { length (entry_bytes change.now) < 2 ^ 32 }
        requires serving { IsServing D.Storage self.old disk.old }
        ensures becomes { Becomes D.Storage self.old disk.old change.now result self.new disk.new }
        ensures size { D.bytes_of disk.new ≡ D.bytes_of disk.old }
        ensures down { self.new.journal.down ≡ is_down result }
        ensures cause { Counts (D.disk_faults disk.old) (D.disk_faults disk.new) (IsTrue (is_down result)) }
        ensures cloud { D.cloud_faults disk.new ≡ D.cloud_faults disk.old }
        ensures objects { D.objects disk.new ≡ D.objects disk.old }
    {
        if change.call.changes() {
            self.change(disk, change)
        } else {
            self.look(disk, change)
        }
    }

    /// Gives up all that the journal has, on its disk too (what `Journal::wipe` says holds of it). The tree stays.
    pub fn wipe<D: Disk>(&mut self, disk: &mut D) -> Result<(), Failed>
        requires serving { IsServing D.Storage self.old disk.old }
        ensures leaves { WhereTold (D.image disk.old) (λ image. (older newer : List (List ℕ)) → StandsFor self.old.journal image older newer
            → LeavesOnly D.Storage disk.old disk.new (BesideObjects D.Storage disk.old
            (λ left. ReadsEntries self.old.journal older newer left ⊎ ReadsEntries (without_newer self.old.journal) [] older left ⊎ ReadsEntries (wiped self.old.journal) [] [] left))) }
        ensures holds { OnOk result (BothTold (λ old new. (older newer : List (List ℕ)) → StandsFor self.old.journal old older newer
            → StandsFor (wiped self.old.journal) new [] []) (D.image disk.old) (D.image disk.new)) }
        ensures durable { OnOk result (NothingPending D.Storage disk.new) }
        ensures rest { (self.new.epoch ≡ self.old.epoch) × (self.new.tree ≡ self.old.tree) × (self.new.moment ≡ self.old.moment) }
        ensures beside { SameCloud D.Storage disk.old disk.new }
        ensures size { D.bytes_of disk.new ≡ D.bytes_of disk.old }
        ensures cause { Counts (D.disk_faults disk.old) (D.disk_faults disk.new) (IsErr result) }
        ensures cloud { D.cloud_faults disk.new ≡ D.cloud_faults disk.old }
    {
        self.files.wipe(disk)
    }
}
