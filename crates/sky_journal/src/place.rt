//! Going through the entries that are on the disk.

ghost use Rattle.std.specs.Prelude.{◌≡◌, ◌+◌, ◌<◌, ◌≤◌, ◌^◌, ℕ, List, Some, true, IfNone, IfOk, IfSome, IsErrOf, IsSomeAnd, IsTrue, MatchOption, OnErr, is_err, map};
ghost use Rattle.sky_outside.specs.Count.{Counts};
ghost use Rattle.sky_outside.specs.Moments.{OnlyLooks};
ghost use Rattle.sky_outside.specs.Told.{WhereTold};
ghost use Rattle.sky_journal.specs.EntryPlaces.{LieAt, places_of};
ghost use Rattle.sky_journal.specs.Faults.{is_disk_failure};
ghost use Rattle.sky_journal.specs.Journal.{entries, IsJournal, IsOpenArea, JournalView, StandsFor};
ghost use Rattle.sky_journal.specs.Looking.{area_in, Shows, Went};
ghost use Rattle.sky_journal.specs.Place.{GivesNext, IsAhead, IsBehindEntry, IsInBatch, IsPast, Left, LeftAt, LeftIn, LeftInBatch, position_of, start_in};
ghost use Rattle.sky_journal.specs.declared.open_area.OpenArea.{OpenArea};
ghost use Rattle.sky_journal.specs.declared.fault.NextFault.TheVariants.{DiskFault};

use crate::fault::NextFault;
use crate::journal::Journal;
use crate::looking::{bytes_in, number_4_at, number_8_at};
use crate::one_batch::entry_size;
use crate::open_area::OpenArea;
use crate::pieces::Pieces;
use crate::span::Span;
use sky_outside::{Disk, Failed};

/// A place between the entries that are on the disk.
#[derive(Clone, Copy)]
pub struct Place {
    /// Whether it is in the newer or only open area.
    pub newer: bool,
    /// Where in the area the next entry of the batch is, in bytes.
    pub at: u64,
    /// How many entries of the batch are left.
    pub left: u32,
    /// Where the batch ends.
    pub end: u64,
    /// The number of the entry before it.
    pub last: u64,
}

/// The place before an area's first batch.
fn start_of(newer: bool, area: OpenArea) -> Place
    ensures { result ≡ record { newer = newer; at = 64; left = 0; end = 64; last = area.base } }
{
    Place {
        newer,
        at: 64,
        left: 0,
        end: 64,
        last: area.base,
    }
}

/// A place in a batch in which an entry is left.
fn into_batch<D: Disk>(
    disk: &mut D,
    pieces: &mut Pieces,
    span: Span,
    place: Place,
) -> Result<Option<Place>, Failed>
    requires order { place.at ≤ place.end }
    requires inside { place.end ≤ span.size }
    requires within { span.start + span.size ≤ D.bytes_of disk.old }
    ensures left { IfOk result (λ found. (image : List ℕ) (a : OpenArea) (list : List (ℕ × List ℕ)) (places : List ℕ)
        → Shows D.Storage disk.old pieces.old image → LeftIn (area_in span image).bytes a place list places → place.last < a.last
        → IsSomeAnd found (LeftInBatch (area_in span image).bytes a place list places)) }
    ensures range { IfOk result (λ found. IfSome found (IsInBatch span place)) }
    ensures went { Went D.Storage disk.old pieces.old disk.new pieces.new (is_err result) }
    ensures size { D.bytes_of disk.new ≡ D.bytes_of disk.old }
{
    if place.left > 0 {
        return Ok(Some(place));
    }
    let p = place.end;
    let room = span.size - p;
    if room <= 16 {
        return Ok(None);
    }
    let left = number_4_at(disk, pieces, span, p + 4)?;
    let body = number_8_at(disk, pieces, span, p + 8)?;
    if left == 0 {
        return Ok(None);
    }
    if body > room - 16 {
        return Ok(None);
    }
    let at = p + 16;
    Ok(Some(Place {
        newer: place.newer,
        at,
        left,
        end: at + body,
        last: place.last,
    }))
}

/// Reads the entry at a place in a batch.
fn take_entry<D: Disk>(
    disk: &mut D,
    pieces: &mut Pieces,
    span: Span,
    place: Place,
    entry: &mut Vec<u8>,
) -> Result<Option<Place>, NextFault>
    requires order { place.at ≤ place.end }
    requires inside { place.end ≤ span.size }
    requires some { 0 < place.left }
    requires number { place.last + 1 < 2 ^ 64 }
    requires within { span.start + span.size ≤ D.bytes_of disk.old }
    ensures given { IfOk result (λ found. (image : List ℕ) (a : OpenArea) (list : List (ℕ × List ℕ)) (places : List ℕ)
        → Shows D.Storage disk.old pieces.old image → LeftIn (area_in span image).bytes a place list places
        → IsSomeAnd found (IsBehindEntry (area_in span image).bytes a place entry.new.items list places)) }
    ensures none { IfOk result (λ found. IfNone found (entry.new ≡ entry.old)) }
    ensures went { Went D.Storage disk.old pieces.old disk.new pieces.new (is_disk_failure result) }
    ensures size { D.bytes_of disk.new ≡ D.bytes_of disk.old }
{
    let Some(n) = entry_size(disk, pieces, span, place.at, place.end)? else {
        return Ok(None);
    };
    bytes_in(disk, pieces, span, place.at, n, entry)?;
    Ok(Some(Place {
        newer: place.newer,
        at: place.at + n,
        left: place.left - 1,
        end: place.end,
        last: place.last + 1,
    }))
}

/// Reads the entry behind a place of an area.
fn entry_behind<D: Disk>(
    disk: &mut D,
    span: Span,
    place: Place,
    entry: &mut Vec<u8>,
) -> Result<Option<Place>, NextFault>
    requires number { place.last + 1 < 2 ^ 64 }
    requires within { span.start + span.size ≤ D.bytes_of disk.old }
    ensures given { IfOk result (λ found. (image : List ℕ) (a : OpenArea) (list : List (ℕ × List ℕ)) (places : List ℕ) → D.image disk.old ≡ Some image
        → LeftIn (area_in span image).bytes a place list places → place.last < a.last
        → IsSomeAnd found (IsBehindEntry (area_in span image).bytes a place entry.new.items list places)) }
    ensures none { IfOk result (λ found. IfNone found (entry.new ≡ entry.old)) }
    ensures looks { OnlyLooks D.Storage disk.old disk.new }
    ensures cause { Counts (D.disk_faults disk.old) (D.disk_faults disk.new) (IsTrue (is_disk_failure result)) }
    ensures cloud { D.cloud_faults disk.new ≡ D.cloud_faults disk.old }
{
    if place.at > place.end {
        return Ok(None);
    }
    if place.end > span.size {
        return Ok(None);
    }
    let mut pieces = Pieces::none(*entry.allocator());
    let Some(next) = into_batch(disk, &mut pieces, span, place)? else {
        return Ok(None);
    };
    take_entry(disk, &mut pieces, span, next, entry)
}

/// The place before the first entry of these areas.
fn first_of(older: Option<OpenArea>, newer: Option<OpenArea>) -> Place
    ensures { (j : JournalView) (image : List ℕ) (first second : List (List ℕ)) → j.older ≡ older → j.newer ≡ newer → IsJournal j
        → StandsFor j image first second → Left j image result (entries j first second) (places_of j.size image) }
{
    match older {
        Some(area) => start_of(false, area),
        None => match newer {
            Some(area) => start_of(true, area),
            None => Place {
                newer: true,
                at: 64,
                left: 0,
                end: 64,
                last: 0,
            },
        },
    }
}

/// The newer area and the place in it, where an entry is left behind the place.
fn newer_ahead(newer: Option<OpenArea>, place: Place) -> Option<(OpenArea, Place)>
    requires { place.newer ≡ true }
    ensures ahead { (j : JournalView) (image : List ℕ) (list : List (ℕ × List ℕ)) (places : List ℕ) → j.newer ≡ newer
        → Left j image place list places → IsAhead j image list places result }
    ensures last { IfSome result (λ x. x.1.last < x.0.last) }
    ensures known { (size : ℕ) → IfSome newer (IsOpenArea size) → IfSome result (λ x. IsOpenArea size x.0) }
{
    match newer {
        Some(area) => {
            if place.last < area.last {
                Some((area, place))
            } else {
                None
            }
        }
        None => None,
    }
}

/// The newer area and the place before its first batch, where it has an entry.
fn newer_start(newer: Option<OpenArea>) -> Option<(OpenArea, Place)>
    ensures ahead { (j : JournalView) (image : List ℕ) (list : List (ℕ × List ℕ)) (places : List ℕ) → j.newer ≡ newer
        → IsPast j image list places → IsAhead j image list places result }
    ensures last { IfSome result (λ x. x.1.last < x.0.last) }
    ensures known { (size : ℕ) → IfSome newer (IsOpenArea size) → IfSome result (λ x. IsOpenArea size x.0) }
{
    match newer {
        Some(area) => {
            if area.base < area.last {
                Some((area, start_of(true, area)))
            } else {
                None
            }
        }
        None => None,
    }
}

/// The area in which the next entry is, and the place in it.
fn area_ahead(
    older: Option<OpenArea>,
    newer: Option<OpenArea>,
    place: Place,
) -> Option<(OpenArea, Place)>
    ensures ahead { (j : JournalView) (image : List ℕ) (list : List (ℕ × List ℕ)) (places : List ℕ) → j.older ≡ older → j.newer ≡ newer
        → Left j image place list places → IsAhead j image list places result }
    ensures last { IfSome result (λ x. x.1.last < x.0.last) }
    ensures known { (size : ℕ) → IfSome older (IsOpenArea size) → IfSome newer (IsOpenArea size)
        → IfSome result (λ x. IsOpenArea size x.0) }
{
    if place.newer {
        return newer_ahead(newer, place);
    }
    match older {
        Some(area) => {
            if place.last < area.last {
                Some((area, place))
            } else {
                newer_start(newer)
            }
        }
        None => newer_start(newer),
    }
}

/// Where on the disk an area begins; 0 where none is open.
fn start_or_zero(area: Option<OpenArea>) -> u64
    ensures { result ≡ start_in area }
{
    match area {
        Some(area) => area.start,
        None => 0,
    }
}

impl Journal {
    /// Where on the disk a place is, in bytes from its start. Where the place's area is not open it counts from the disk's start.
    pub fn position(&self, place: Place) -> u64
        ensures { result ≡ position_of self.now place }
    {
        let area = if place.newer { self.newer } else { self.older };
        start_or_zero(area).saturating_add(place.at)
    }

    /// The place before the first entry on the disk.
    pub fn first(&self) -> Place
        ensures left { (image : List ℕ) (older newer : List (List ℕ)) → StandsFor self.now image older newer
            → Left self.now image result (entries self.now older newer) (places_of self.now.size image) }
        ensures lie { (image : List ℕ) (older newer : List (List ℕ)) → StandsFor self.now image older newer
            → LieAt image (map (λ e. e.1) (entries self.now older newer)) (places_of self.now.size image) }
    {
        first_of(self.older, self.newer)
    }

    /// Reads the entry behind a place into a buffer, moves the place past it, and answers its number. `None` where none is left on
    /// the disk, which leaves the place and the buffer. The place is to be one that `first` or this call gave on the journal as it is now.
    ///
    /// Both faults leave the place, and the buffer may then hold any bytes.
    pub fn next_entry<D: Disk>(
        &self,
        disk: &mut D,
        place: &mut Place,
        entry: &mut Vec<u8>,
    ) -> Result<Option<u64>, NextFault>
        requires { D.bytes_of disk.old ≡ self.now.disk }
        ensures next { IfOk result (λ found. WhereTold (D.image disk.old) (λ image. (list : List (ℕ × List ℕ)) (places : List ℕ)
            → Left self.now image place.old list places → GivesNext self.now image found entry.new.items place.new list places)) }
        ensures none { IfOk result (λ found. IfNone found (place.new ≡ place.old)) }
        ensures buffer { IfOk result (λ found. IfNone found (entry.new ≡ entry.old)) }
        ensures err { OnErr result (place.new ≡ place.old) }
        ensures looks { OnlyLooks D.Storage disk.old disk.new }
        ensures cause { Counts (D.disk_faults disk.old) (D.disk_faults disk.new) (IsErrOf result DiskFault) }
        ensures cloud { D.cloud_faults disk.new ≡ D.cloud_faults disk.old }
    {
        let Some(ahead) = area_ahead(self.older, self.newer, *place) else {
            return Ok(None);
        };
        let span = Span {
            start: ahead.0.start,
            size: self.size,
        };
        let Some(next) = entry_behind(disk, span, ahead.1, entry)? else {
            return Ok(None);
        };
        *place = next;
        Ok(Some(next.last))
    }
}
