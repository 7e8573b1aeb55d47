//! The file tree with the journal that its changes go through.

ghost use Rattle.std.specs.Prelude.{◌≡◌, ◌<◌, ◌≤◌, ◌^◌, ◌⊎◌, ℕ, List, [], ◌∷◌, ◌++◌, None, true, false, length, IfOk, IsErr, IsSome, IsTrue, OnErr, OnOk, is_err};
ghost use Rattle.sky_nfs.specs.Calls.{is_change};
ghost use Rattle.sky_nfs.specs.History.{is_done, tree_after_change};
ghost use Rattle.sky_nfs.specs.Procedure.{procedure};
ghost use Rattle.sky_nfs.specs.Validity.{IsValidTree};
ghost use Rattle.sky_entry.specs.Entry.{entry_bytes, IsEntry};
ghost use Rattle.sky_outside.specs.Count.{Counts};
ghost use Rattle.sky_outside.specs.Moments.{SameCloud, LeavesOnly, BesideObjects};
ghost use Rattle.sky_outside.specs.Told.{WhereTold, BothTold};
ghost use Rattle.sky_journal.specs.Journal.{IsJournal, StandsFor, StandsOn, ReadsEntries, SameButSpare, IsFramed, after_commit, without_newer, wiped, room_of, wanted_of};
ghost use Rattle.sky_calls.specs.Durable.{is_down, IfDone, IfPutOff, IfJukebox, entries_kept, LeavesOldOrAll, Lasts, journal_after};
ghost use Rattle.sky_journal.specs.Lasting.{HoldsMore, LeavesMore, LeavesOldOrMore};
ghost use Rattle.sky_calls.specs.Stable.{is_stable_call};
ghost use Rattle.sky_tree.specs.Memory.{takes_memory};
ghost use Rattle.sky_calls.specs.declared.outcome.Outcome.TheVariants.{Down, Memory};

use crate::outcome::Outcome;
use crate::stable::is_stable;
use sky_base::{Cred, Moment, NoMemory};
use sky_entry::{entry_length, write_entry};
use sky_journal::Journal;
use sky_nfs::{Answer, Call, Change};
use sky_outside::{Disk, Failed};
use sky_tree::Tree;
use std::alloc::Global;
use std::marker::Model;

/// A file tree in memory, and the journal that its changes go through. Contracts see it as a `DurableView`.
#[derive(Drop)]
pub struct DurableTree {
    tree: Tree,
    journal: Journal,
    /// The bytes of an entry.
    entry: Vec<u8>,
}

impl Model for DurableTree {
    ghost use Rattle.sky_calls.specs.Durable.{DurableView};

    ghost Value = { DurableView };

    ghost view = { λ d. record { tree = d.tree; journal = d.journal } };
}

impl DurableTree {
    /// A tree with its journal.
    pub fn new(alloc: Global, tree: Tree, journal: Journal) -> DurableTree
        ensures tree { result.tree ≡ tree }
        ensures journal { result.journal ≡ journal }
    {
        DurableTree {
            tree,
            journal,
            entry: Vec::new(alloc),
        }
    }

    /// Tells what is true of every tree with its journal, for proofs. It does nothing.
    pub fn facts(&self)
        ensures tree { IsValidTree self.now.tree }
        ensures journal { IsJournal self.now.journal }
    {
        self.tree.facts();
        self.journal.facts();
    }

    /// The tree.
    pub fn tree(&self) -> &Tree
        ensures { result.now ≡ self.now.tree }
    {
        &self.tree
    }

    /// The journal.
    pub fn journal(&self) -> &Journal
        ensures { result.now ≡ self.now.journal }
    {
        &self.journal
    }
}

impl DurableTree {
    /// Does a change that was found to be answered OK and to have room, and keeps it.
    fn carry_out<D: Disk>(&mut self, disk: &mut D, epoch: u64, change: &Change) -> Outcome
        requires changes { IsTrue (is_change change.now.call) }
        requires small { length (entry_bytes change.now) < 2 ^ 32 }
        requires done { is_done self.old.tree change.now ≡ true }
        requires open { IsSome self.old.journal.newer }
        requires fits { wanted_of self.old.journal (length (entry_bytes change.now)) ≤ room_of self.old.journal }
        requires up { self.old.journal.down ≡ false }
        requires stands { StandsOn D.Storage self.old.journal disk.old }
        ensures answer { IfDone result (λ answer. answer ≡ (procedure self.old.tree epoch change.now.cred change.now.call change.now.moment).answer) }
        ensures tree { IfDone result (λ _. self.new.tree ≡ tree_after_change self.old.tree change.now) }
        ensures journal { IfDone result (λ _. SameButSpare (journal_after (is_stable_call change.now.call) self.old.journal (entry_bytes change.now)) self.new.journal) }
        ensures holds { IfDone result (λ _. HoldsMore D.Storage disk.old disk.new self.old.journal self.new.journal
            (entries_kept (is_stable_call change.now.call) self.old.journal (entry_bytes change.now))) }
        ensures formed { IfDone result (λ _. IsEntry (entry_bytes change.now) change.now) }
        ensures tried_formed { is_down result ≡ true → IsEntry (entry_bytes change.now) change.now }
        ensures stands { is_down result ≡ false → StandsOn D.Storage self.new.journal disk.new }
        ensures durable { IfDone result (λ _. is_stable_call change.now.call ≡ true → Lasts D.Storage disk.old disk.new self.old.journal (entry_bytes change.now)) }
        ensures any_moment { LeavesOldOrAll D.Storage disk.old disk.new self.old.journal (entry_bytes change.now) }
        ensures put_off { IfPutOff result ((self.new.tree ≡ self.old.tree) × SameButSpare self.old.journal self.new.journal × (disk.new ≡ disk.old)) }
        ensures room { IfJukebox result (λ _ _. ⊥) }
        ensures quiet { is_stable_call change.now.call ≡ false → disk.new ≡ disk.old }
        ensures down { self.new.journal.down ≡ is_down result }
        ensures beside { SameCloud D.Storage disk.old disk.new }
        ensures size { D.bytes_of disk.new ≡ D.bytes_of disk.old }
        ensures cause { Counts (D.disk_faults disk.old) (D.disk_faults disk.new) (IsTrue (is_down result)) }
        ensures cloud { D.cloud_faults disk.new ≡ D.cloud_faults disk.old }
    {
        self.journal.facts();
        if self.journal.reserve(entry_length(change)).is_err() {
            return Outcome::Memory;
        }
        if encode(&mut self.entry, change).is_err() {
            return Outcome::Memory;
        }
        let Ok(answer) = self
            .tree
            .apply(epoch, &change.cred, &change.call, change.moment)
        else {
            return Outcome::Memory;
        };
        let kept = keep(
            &mut self.journal,
            disk,
            self.entry.as_slice(),
            is_stable(&change.call),
        );
        if kept.is_err() {
            return Outcome::Down;
        }
        Outcome::Done(answer)
    }
}

impl DurableTree {
    /// Does a change: answers it, and keeps it in the journal where the answer is OK. A change that is stable is on the disk, with all that was
    /// pending, before it is answered; a WRITE whose data may wait is pending in memory. The call is one of those that change the
    /// tree, its entry has fewer than 2^32 bytes, an area of the journal is open, and the journal is not down.
    ///
    /// `Jukebox` exactly where the answer would be OK and the journal has no room; `Down` only where the disk's count of faults rose: the
    /// change may then be on the disk or not, and the journal is to be read anew. After `Jukebox` and `Memory` all is as it was. All memory is
    /// taken before the first write of the disk.
    pub fn change<D: Disk>(&mut self, disk: &mut D, epoch: u64, change: &Change) -> Outcome
        requires changes { IsTrue (is_change change.now.call) }
        requires small { length (entry_bytes change.now) < 2 ^ 32 }
        requires open { IsSome self.old.journal.newer }
        requires up { self.old.journal.down ≡ false }
        requires stands { StandsOn D.Storage self.old.journal disk.old }

        ensures answer { IfDone result (λ answer. answer ≡ (procedure self.old.tree epoch change.now.cred change.now.call change.now.moment).answer) }
        ensures tree { IfDone result (λ _. self.new.tree ≡ tree_after_change self.old.tree change.now) }
        ensures journal { IfDone result (λ _. is_done self.old.tree change.now ≡ true
            → SameButSpare (journal_after (is_stable_call change.now.call) self.old.journal (entry_bytes change.now)) self.new.journal) }
        ensures holds { IfDone result (λ _. is_done self.old.tree change.now ≡ true → HoldsMore D.Storage disk.old disk.new self.old.journal self.new.journal
            (entries_kept (is_stable_call change.now.call) self.old.journal (entry_bytes change.now))) }
        ensures formed { IfDone result (λ _. is_done self.old.tree change.now ≡ true → IsEntry (entry_bytes change.now) change.now) }
        ensures refused { is_done self.old.tree change.now ≡ false → (self.new ≡ self.old) × (disk.new ≡ disk.old) }
        ensures stands { is_down result ≡ false → StandsOn D.Storage self.new.journal disk.new }

        // Acknowledged as stable: from then on each crash leaves the change, and all before it.
        ensures durable { IfDone result (λ _. is_done self.old.tree change.now ≡ true → is_stable_call change.now.call ≡ true
            → Lasts D.Storage disk.old disk.new self.old.journal (entry_bytes change.now)) }
        ensures any_moment { LeavesOldOrAll D.Storage disk.old disk.new self.old.journal (entry_bytes change.now) }

        ensures room { IfDone result (λ _. is_done self.old.tree change.now ≡ true
            → wanted_of self.old.journal (length (entry_bytes change.now)) ≤ room_of self.old.journal) }
        ensures tried { is_down result ≡ true → (is_done self.old.tree change.now ≡ true)
            × (wanted_of self.old.journal (length (entry_bytes change.now)) ≤ room_of self.old.journal) }
        ensures tried_formed { is_down result ≡ true → IsEntry (entry_bytes change.now) change.now }
        ensures jukebox { IfJukebox result (λ room wanted. (is_done self.old.tree change.now ≡ true) × (room ≡ room_of self.old.journal)
            × (wanted ≡ wanted_of self.old.journal (length (entry_bytes change.now))) × (room < wanted)) }
        ensures put_off { IfPutOff result ((self.new.tree ≡ self.old.tree) × SameButSpare self.old.journal self.new.journal × (disk.new ≡ disk.old)) }
        ensures memory { result ≡ Memory → is_done self.old.tree change.now ≡ true }
        ensures quiet { is_stable_call change.now.call ≡ false → disk.new ≡ disk.old }
        ensures down { self.new.journal.down ≡ is_down result }
        ensures beside { SameCloud D.Storage disk.old disk.new }
        ensures size { D.bytes_of disk.new ≡ D.bytes_of disk.old }
        ensures cause { Counts (D.disk_faults disk.old) (D.disk_faults disk.new) (IsTrue (is_down result)) }
        ensures cloud { D.cloud_faults disk.new ≡ D.cloud_faults disk.old }
    {
        self.journal.facts();
        let Ok(answer) = self
            .tree
            .answer(epoch, &change.cred, &change.call, change.moment)
        else {
            return Outcome::Memory;
        };
        if !answer.is_ok() {
            return Outcome::Done(answer);
        }
        let room = self.journal.room();
        let wanted = self.journal.wanted(entry_length(change));
        if wanted > room {
            return Outcome::Jukebox { room, wanted };
        }
        self.carry_out(disk, epoch, change)
    }
}

impl DurableTree {
    /// What is answered to a call, told while the tree stays as it is (RFC 1813 section 3.3): the way in which calls that only read are
    /// answered.
    ///
    /// `NoMemory` where there is no memory for the bytes, the text or the entries that the answer carries.
    pub fn answer(
        &self,
        epoch: u64,
        cred: &Cred,
        call: &Call,
        moment: Moment,
    ) -> Result<Answer, NoMemory>
        ensures answer { IfOk result (λ answer. answer ≡ (procedure self.now.tree epoch cred.now call.now moment).answer) }
        ensures reads { OnErr result (is_change call.now ≡ false) }
        ensures memory { OnErr result (IsTrue (takes_memory self.now.tree cred.now call.now)) }
    {
        self.tree.answer(epoch, cred, call, moment)
    }

    /// Brings all that is pending to the disk, as a COMMIT asks for (RFC 1813 section 3.3.21). The tree stays. Where nothing is pending no
    /// call of the disk is made. No memory is needed. The journal is not down.
    ///
    /// `Failed` only where the disk's count of faults rose: what was pending may then be on the disk or not, all of it together, and the
    /// journal is to be read anew.
    pub fn commit<D: Disk>(&mut self, disk: &mut D) -> Result<(), Failed>
        requires up { self.old.journal.down ≡ false }
        requires stands { StandsOn D.Storage self.old.journal disk.old }

        ensures tree { self.new.tree ≡ self.old.tree }
        ensures journal { OnOk result (SameButSpare (after_commit self.old.journal) self.new.journal) }
        ensures holds { OnOk result (HoldsMore D.Storage disk.old disk.new self.old.journal self.new.journal self.old.journal.pending) }
        ensures stands { OnOk result (StandsOn D.Storage self.new.journal disk.new) }

        // Acknowledged: from then on each crash leaves all that was pending.
        ensures durable { OnOk result (LeavesMore D.Storage disk.old disk.new self.old.journal self.old.journal.pending) }
        ensures any_moment { LeavesOldOrMore D.Storage disk.old disk.new self.old.journal self.old.journal.pending }

        ensures quiet { self.old.journal.pending ≡ [] → disk.new ≡ disk.old }
        ensures down { self.new.journal.down ≡ is_err result }
        ensures beside { SameCloud D.Storage disk.old disk.new }
        ensures size { D.bytes_of disk.new ≡ D.bytes_of disk.old }
        ensures cause { Counts (D.disk_faults disk.old) (D.disk_faults disk.new) (IsErr result) }
        ensures cloud { D.cloud_faults disk.new ≡ D.cloud_faults disk.old }
    {
        self.journal.commit(disk)
    }

    /// Closes all open areas of the journal, and drops its pending entries: the newer area first, then the older, with a sync after each.
    /// The tree stays. Where no area is open no call of the disk is made. No memory is needed. The journal is not down.
    ///
    /// `Failed` only where the disk's count of faults rose; the journal is down then, and is to be read anew. A crash at any moment leaves
    /// the entries of both areas, those of the older, or none.
    pub fn wipe<D: Disk>(&mut self, disk: &mut D) -> Result<(), Failed>
        requires up { self.old.journal.down ≡ false }
        requires stands { StandsOn D.Storage self.old.journal disk.old }

        ensures tree { self.new.tree ≡ self.old.tree }
        ensures ok { OnOk result (SameButSpare (wiped self.old.journal) self.new.journal) }
        ensures holds { OnOk result (BothTold (λ old new. (older newer : List (List ℕ)) → StandsFor self.old.journal old older newer
            → StandsFor self.new.journal new [] []) (D.image disk.old) (D.image disk.new)) }
        ensures stands { OnOk result (StandsOn D.Storage self.new.journal disk.new) }

        ensures any_moment { WhereTold (D.image disk.old) (λ image. (older newer : List (List ℕ)) → StandsFor self.old.journal image older newer
            → LeavesOnly D.Storage disk.old disk.new (BesideObjects D.Storage disk.old
            (λ left. ReadsEntries self.old.journal older newer left ⊎ ReadsEntries (without_newer self.old.journal) [] older left ⊎ ReadsEntries (wiped self.old.journal) [] [] left))) }

        ensures quiet { self.old.journal.newer ≡ None → disk.new ≡ disk.old }
        ensures down { self.new.journal.down ≡ is_err result }
        ensures beside { SameCloud D.Storage disk.old disk.new }
        ensures size { D.bytes_of disk.new ≡ D.bytes_of disk.old }
        ensures cause { Counts (D.disk_faults disk.old) (D.disk_faults disk.new) (IsErr result) }
        ensures cloud { D.cloud_faults disk.new ≡ D.cloud_faults disk.old }
    {
        self.journal.wipe(disk)
    }
}

/// Writes the entry of a change into a buffer of its length.
fn encode(entry: &mut Vec<u8>, change: &Change) -> Result<(), NoMemory>
    requires changes { IsTrue (is_change change.now.call) }
    requires small { length (entry_bytes change.now) < 2 ^ 32 }
    ensures written { OnOk result (entry.new.items ≡ entry_bytes change.now) }
    ensures formed { OnOk result (IsEntry (entry_bytes change.now) change.now) }
{
    let length = entry_length(change) as usize;
    entry.clear();
    if entry.resize(length, 0).is_err() {
        return Err(NoMemory);
    }
    write_entry(entry.as_mut_slice(), change).unwrap();
    Ok(())
}

/// Appends an entry that there is room and memory for, and commits it where it is to be stable.
fn keep<D: Disk>(
    journal: &mut Journal,
    disk: &mut D,
    entry: &[u8],
    stable: bool,
) -> Result<(), Failed>
    requires open { IsSome journal.old.newer }
    requires framed { IsFramed entry.now }
    requires fits { wanted_of journal.old (length entry.now) ≤ room_of journal.old }
    requires spare { length entry.now ≤ journal.old.spare }
    requires up { journal.old.down ≡ false }
    requires stands { StandsOn D.Storage journal.old disk.old }
    ensures ok { OnOk result (SameButSpare (journal_after stable journal.old entry.now) journal.new) }
    ensures holds { OnOk result (HoldsMore D.Storage disk.old disk.new journal.old journal.new (entries_kept stable journal.old entry.now)) }
    ensures stands { OnOk result (StandsOn D.Storage journal.new disk.new) }
    ensures any_moment { LeavesOldOrAll D.Storage disk.old disk.new journal.old entry.now }
    ensures durable { OnOk result (stable ≡ true → Lasts D.Storage disk.old disk.new journal.old entry.now) }
    ensures quiet { stable ≡ false → disk.new ≡ disk.old }
    ensures down { journal.new.down ≡ is_err result }
    ensures beside { SameCloud D.Storage disk.old disk.new }
    ensures size { D.bytes_of disk.new ≡ D.bytes_of disk.old }
    ensures cause { Counts (D.disk_faults disk.old) (D.disk_faults disk.new) (IsErr result) }
    ensures cloud { D.cloud_faults disk.new ≡ D.cloud_faults disk.old }
{
    journal.facts();
    journal.append(entry).unwrap();
    if stable {
        journal.commit(disk)?;
    }
    Ok(())
}
