//! Doing the changes of a journal again.

ghost use Rattle.std.specs.Prelude.{◌≡◌, ◌+◌, ◌-◌, ◌^◌, min, ℕ, List, ◌∷◌, false, true, None, IfOk, IfSome, IsErrOf, IsTrue, Ok, OnOk, if◌then◌else◌};
ghost use Rattle.sky_nfs.specs.Calls.{is_change};
ghost use Rattle.sky_nfs.specs.History.{is_done};
ghost use Rattle.sky_nfs.specs.declared.call.Change.{Change};
ghost use Rattle.sky_outside.specs.Count.{Counts};
ghost use Rattle.sky_outside.specs.Moments.{OnlyLooks};
ghost use Rattle.sky_outside.specs.Told.{WhereTold};
ghost use Rattle.sky_journal.specs.Place.{Left, start_in};
ghost use Rattle.sky_sound.specs.Entries.{is_of_change, IsStorable, journal_of};
ghost use Rattle.sky_recover.specs.Replaying.{DoesNext, FailsAt, FailsNext, IsFirstOf, IsRedone, IsRefused, IsReplayed, IsWhose};
ghost use Rattle.sky_recover.specs.Settling.{IsRead};
ghost use Rattle.sky_recover.specs.declared.fault.ChangeFault.TheVariants as undone;
ghost use Rattle.sky_recover.specs.declared.fault.ReplayFault.TheVariants.{DiskFault, Foreign};

use crate::fault::{ChangeFault, ReplayFault};
use sky_entry::{EntryFault, read_entry};
use sky_journal::{Journal, Place};
use sky_nfs::Change;
use sky_outside::Disk;
use sky_tree::Tree;
use std::alloc::Global;

/// The epoch in which changes are done again: neither the tree nor whether a change is answered OK depends on it.
const EPOCH: u64 = 1;

/// The change of an entry that lies at this place of the disk.
fn change_at(alloc: Global, entry: &[u8], at: u64) -> Result<Change, ChangeFault>
    ensures whose { IfOk result (λ change. IsTrue (is_of_change entry.now) → IsWhose entry.now change) }
    ensures changes { IfOk result (λ change. IsTrue (is_change change.call)) }
    ensures storable { IfOk result IsStorable }
    ensures foreign { (place : ℕ) → IsErrOf result (undone.Foreign place) → (place ≡ at) × (is_of_change entry.now ≡ false) }
{
    match read_entry(alloc, entry) {
        Ok((change, _)) => Ok(change),
        Err(EntryFault::Bad) => Err(ChangeFault::Foreign { at }),
        Err(EntryFault::Memory) => Err(ChangeFault::Memory),
    }
}

/// Does a change, whose entry lies at this place of the disk.
fn redo_change(tree: &mut Tree, change: &Change, at: u64) -> Result<(), ChangeFault>
    requires changes { IsTrue (is_change change.now.call) }
    ensures redone { OnOk result (IsRedone tree.old change.now tree.new) }
    ensures foreign { (place : ℕ) → IsErrOf result (undone.Foreign place) → (place ≡ at) × (is_done tree.old change.now ≡ false) }
{
    match tree.apply(EPOCH, &change.cred, &change.call, change.moment) {
        Ok(answer) => {
            if answer.is_ok() {
                Ok(())
            } else {
                Err(ChangeFault::Foreign { at })
            }
        }
        Err(_) => Err(ChangeFault::Memory),
    }
}

/// Does the change of an entry that lies at this place of the disk.
fn redo(alloc: Global, tree: &mut Tree, entry: &[u8], at: u64) -> Result<(), ChangeFault>
    ensures redone { OnOk result ((change : Change) × IsRedone tree.old change tree.new × IsStorable change
        × (IsTrue (is_of_change entry.now) → IsWhose entry.now change)) }
    ensures foreign { (place : ℕ) → IsErrOf result (undone.Foreign place) → (place ≡ at) × (IsTrue (is_of_change entry.now) → IsRefused tree.old entry.now) }
{
    let change = change_at(alloc, entry, at)?;
    redo_change(tree, &change, at)
}

/// Whether the older area has no entry behind this place, which is in it.
fn is_past(journal: &Journal, place: Place) -> bool
    ensures older { result ≡ false → place.newer ≡ false → IfSome journal.now.older (λ a. place.last ≡ a.last → ⊥) }
    ensures some { result ≡ false → place.newer ≡ false → journal.now.older ≡ None → ⊥ }
    ensures past { result ≡ true → (place.newer ≡ false) × IfSome journal.now.older (λ a. place.last ≡ a.last) }
{
    journal.facts();
    if place.newer {
        return false;
    }
    if !journal.two_open() {
        return true;
    }
    journal.base() == Some(place.last)
}

/// Where on the disk the body of the batch begins that has its gate at this place of the newer or the older area, in bytes.
fn body_behind(journal: &Journal, newer: bool, gate: u64) -> u64
    ensures { result ≡ min (start_in (if newer then journal.now.newer else journal.now.older) + (gate + 16)) (2 ^ 64 - 1) }
{
    journal.position(Place {
        newer,
        at: gate.saturating_add(16),
        left: 0,
        end: gate,
        last: 0,
    })
}

/// Where on the disk the entry behind a place lies, in bytes, where one is left there: behind the header of the next batch, where none is left
/// of the place's own.
fn entry_position(journal: &Journal, place: Place) -> u64
    ensures { (image : List ℕ) (e : ℕ × List ℕ) (rest : List (ℕ × List ℕ)) (places : List ℕ)
        → Left journal.now image place (e ∷ rest) places → IsFirstOf places result }
{
    journal.facts();
    if is_past(journal, place) {
        return body_behind(journal, true, 64);
    }
    if place.left > 0 {
        return journal.position(place);
    }
    body_behind(journal, place.newer, place.end)
}

/// Does the change of the next entry of a journal, and moves the place past it. Where none is left, which a disk may feign that gives other
/// bytes than when the journal was read, it is `Foreign` at the place.
fn replay_next<D: Disk>(
    alloc: Global,
    journal: &Journal,
    disk: &mut D,
    place: &mut Place,
    entry: &mut Vec<u8>,
    tree: &mut Tree,
) -> Result<(), ReplayFault>
    requires { D.bytes_of disk.old ≡ journal.now.disk }
    ensures redone { OnOk result ((change : Change) × IsRedone tree.old change tree.new × IsStorable change
        × WhereTold (D.image disk.old) (DoesNext journal.now place.old place.new change)) }
    ensures foreign { (at : ℕ) → IsErrOf result (Foreign at) → WhereTold (D.image disk.old) (FailsNext journal.now place.old tree.old at) }
    ensures looks { OnlyLooks D.Storage disk.old disk.new }
    ensures cause { Counts (D.disk_faults disk.old) (D.disk_faults disk.new) (IsErrOf result DiskFault) }
    ensures cloud { D.cloud_faults disk.new ≡ D.cloud_faults disk.old }
{
    let at = entry_position(journal, *place);
    match journal.next_entry(disk, place, entry) {
        Ok(Some(_)) => Ok(redo(alloc, tree, entry.as_slice(), at)?),
        Ok(None) => Err(ReplayFault::Foreign { at }),
        Err(fault) => Err(fault.into()),
    }
}

/// Does all changes of a journal again, in order, from the tree that they were made on. Nothing is kept elsewhere, so that its first entry has
/// the number 1. It only looks at the disk.
///
/// `Foreign` where the answer to a change is not OK, with the place at which its entry lies; or where the disk gives other bytes than when the
/// journal was read. After each fault the tree has some of the changes.
pub(crate) fn replay<D: Disk>(
    alloc: Global,
    journal: &Journal,
    disk: &mut D,
    tree: &mut Tree,
) -> Result<(), ReplayFault>
    requires size { D.bytes_of disk.old ≡ journal.now.disk }
    requires read { WhereTold (D.image disk.old) (IsRead journal.now 0) }
    ensures replayed { OnOk result (IsReplayed D.Storage journal.now disk.old tree.old tree.new) }
    ensures foreign { (at : ℕ) → IsErrOf result (Foreign at) → WhereTold (D.image disk.old) (λ image. (list : List (ℕ × List ℕ))
        → journal_of journal.now.volume journal.now.size 0 image ≡ Ok list → FailsAt tree.old journal.now.size 0 list image at) }
    ensures looks { OnlyLooks D.Storage disk.old disk.new }
    ensures cause { Counts (D.disk_faults disk.old) (D.disk_faults disk.new) (IsErrOf result DiskFault) }
    ensures cloud { D.cloud_faults disk.new ≡ D.cloud_faults disk.old }
{
    journal.facts();
    let mut place = journal.first();
    let mut entry = Vec::new(alloc);
    'entries: for _done in 0..journal.stored() {
        replay_next(alloc, journal, disk, &mut place, &mut entry, tree)?;
    }
    Ok(())
}
