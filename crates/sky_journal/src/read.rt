//! Reading the journal of a disk.

ghost use Rattle.std.specs.Prelude.{◌≡◌, ◌*◌, ◌≤◌, ℕ, List, [], Some, Ok, Err, false, IfOk, IsErrOf, IsTrue, OnOk, replicate};
ghost use Rattle.sky_base.specs.Limits.{min_journal_area, max_journal_area};
ghost use Rattle.sky_outside.specs.Count.{Counts};
ghost use Rattle.sky_outside.specs.Moments.{OnlyLooks};
ghost use Rattle.sky_outside.specs.Told.{WhereTold};
ghost use Rattle.sky_journal.specs.AreasRead.{AreKnown, AreLaid, as_read};
ghost use Rattle.sky_journal.specs.Faults.{is_disk_fault};
ghost use Rattle.sky_journal.specs.Journal.{entries, StandsFor};
ghost use Rattle.sky_journal.specs.Looking.{Says};
ghost use Rattle.sky_journal.specs.Text.{entries_of};
ghost use Rattle.sky_journal.specs.declared.fault.JournalFault.TheVariants.{DiskFault, Foreign};

use crate::areas::{Areas, read_areas};
use crate::fault::JournalFault;
use crate::grammar::Grammar;
use crate::journal::Journal;
use crate::pieces::Pieces;
use sky_outside::Disk;
use std::alloc::{AllocError, Global};

/// Reads the open areas of a disk, where it is large enough for two areas of this size.
fn find_areas<D: Disk, G: Grammar>(
    alloc: Global,
    disk: &mut D,
    grammar: &mut G,
    volume: u64,
    area: u64,
    covers: u64,
) -> Result<Areas, JournalFault>
    requires least { min_journal_area ≤ area }
    requires most { area ≤ max_journal_area }
    ensures says { (image : List ℕ) → D.image disk.old ≡ Some image
        → Says result (entries_of G.is_entry volume area covers image) (AreLaid volume area image) }
    ensures known { IfOk result (AreKnown area) }
    ensures fits { OnOk result (2 * area ≤ D.bytes_of disk.old) }
    ensures looks { OnlyLooks D.Storage disk.old disk.new }
    ensures cause { Counts (D.disk_faults disk.old) (D.disk_faults disk.new) (IsTrue (is_disk_fault result)) }
    ensures cloud { D.cloud_faults disk.new ≡ D.cloud_faults disk.old }
{
    let size = disk.size();
    if size < 2 * area {
        return Err(JournalFault::Foreign { at: size });
    }
    let mut pieces = Pieces::new(alloc)?;
    read_areas(alloc, disk, &mut pieces, grammar, area, volume, covers)
}

/// The bytes of a batch with no entries.
fn empty_batch(alloc: Global) -> Result<Vec<u8>, AllocError>
    ensures { IfOk result (λ batch. batch.items ≡ replicate 16 0) }
{
    vec![in alloc; 0u8; 16]
}

impl Journal {
    /// The journal with these areas and no pending entry.
    fn of_areas(
        alloc: Global,
        volume: u64,
        size: u64,
        disk: u64,
        areas: Areas,
    ) -> Result<Journal, AllocError>
        requires least { min_journal_area ≤ size }
        requires most { size ≤ max_journal_area }
        requires fits { 2 * size ≤ disk }
        requires known { AreKnown size areas }
        ensures { IfOk result (λ j. j ≡ as_read volume size disk areas j.spare) }
    {
        let batch = empty_batch(alloc)?;
        Ok(Journal {
            volume,
            size,
            disk,
            older: areas.older,
            newer: areas.newer,
            count: 0,
            batch,
            down: false,
        })
    }
}

/// Reads the journal of a volume from a disk, with two areas of this many bytes, where the entries up to covers are kept elsewhere too.
/// Each entry is read once, and handed to the grammar; the disk is read piece by piece. It takes memory for a piece of 64 KiB, for the
/// largest entry, and for the batch to come.
///
/// `Foreign` exactly where the image is not a journal of the volume, with the first place, in the order of reading, at which it is not.
pub fn read_journal<D: Disk, G: Grammar>(
    alloc: Global,
    disk: &mut D,
    grammar: &mut G,
    volume: u64,
    area: u64,
    covers: u64,
) -> Result<Journal, JournalFault>
    requires least { min_journal_area ≤ area }
    requires most { area ≤ max_journal_area }
    // It stands for what the image says, where that is told.
    ensures ok { IfOk result (λ j. WhereTold (D.image disk.old) (λ image. (older newer : List (List ℕ)) × StandsFor j image older newer
        × (entries_of G.is_entry volume area covers image ≡ Ok (entries j older newer)))) }
    ensures foreign { (at : ℕ) → IsErrOf result (Foreign at)
        → WhereTold (D.image disk.old) (λ image. entries_of G.is_entry volume area covers image ≡ Err at) }
    ensures volume { IfOk result (λ j. j.volume ≡ volume) }
    ensures size { IfOk result (λ j. j.size ≡ area) }
    ensures disk { IfOk result (λ j. j.disk ≡ D.bytes_of disk.old) }
    ensures pending { IfOk result (λ j. j.pending ≡ []) }
    ensures down { IfOk result (λ j. j.down ≡ false) }
    ensures looks { OnlyLooks D.Storage disk.old disk.new }
    ensures cause { Counts (D.disk_faults disk.old) (D.disk_faults disk.new) (IsErrOf result DiskFault) }
    ensures cloud { D.cloud_faults disk.new ≡ D.cloud_faults disk.old }
{
    let areas = find_areas(alloc, disk, grammar, volume, area, covers)?;
    Ok(Journal::of_areas(alloc, volume, area, disk.size(), areas)?)
}
