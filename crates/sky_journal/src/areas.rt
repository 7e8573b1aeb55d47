//! Reading both areas of a disk.

ghost use Rattle.std.specs.Prelude.{◌≡◌, ◌*◌, ◌+◌, ◌<◌, ◌≤◌, ℕ, List, [], ◌∷◌, length, false, IfOk, is_err};
ghost use Rattle.sky_base.specs.Limits.{max_journal_area};
ghost use Rattle.sky_journal.specs.Layout.{is_open, area_header};
ghost use Rattle.sky_journal.specs.Text.{areas_entries, first_area, in_order, open_areas, second_area, second_is_older};
ghost use Rattle.sky_journal.specs.AreasRead.{AreBeside, AreBothOpen, AreKnown, AreLaid, AreOpen, AreRead, IsHalf, IsInSpan, IsOnlyOpen, IsReadArea};
ghost use Rattle.sky_journal.specs.Faults.{is_disk_fault};
ghost use Rattle.sky_journal.specs.Looking.{area_in, Says, Shows, Went};

use crate::area::{Base, read_area};
use crate::fault::JournalFault;
use crate::grammar::Grammar;
use crate::looking::{gate_at, number_8_at};
use crate::open_area::OpenArea;
use crate::pieces::Pieces;
use crate::span::Span;
use sky_outside::{Disk, Failed};
use std::alloc::Global;

/// The open areas of a disk.
#[derive(Clone, Copy)]
pub(crate) struct Areas {
    /// The older of two.
    pub(crate) older: Option<OpenArea>,
    /// The newer of two, or the only one.
    pub(crate) newer: Option<OpenArea>,
}

/// Whether the second of two open areas is the older.
fn is_second_older<D: Disk>(
    disk: &mut D,
    pieces: &mut Pieces,
    first: Span,
    second: Span,
) -> Result<bool, Failed>
    requires first { area_header < first.size }
    requires second { area_header < second.size }
    requires first_within { first.start + first.size ≤ D.bytes_of disk.old }
    requires second_within { second.start + second.size ≤ D.bytes_of disk.old }
    ensures value { IfOk result (λ older. (image : List ℕ) → Shows D.Storage disk.old pieces.old image
        → older ≡ second_is_older (area_in first image) (area_in second image)) }
    ensures went { Went D.Storage disk.old pieces.old disk.new pieces.new (is_err result) }
    ensures size { D.bytes_of disk.new ≡ D.bytes_of disk.old }
{
    let base = number_8_at(disk, pieces, first, 16)?;
    let other = number_8_at(disk, pieces, second, 16)?;
    if base != other {
        return Ok(other < base);
    }
    if !gate_at(disk, pieces, first, 64)? {
        return Ok(false);
    }
    Ok(!gate_at(disk, pieces, second, 64)?)
}

/// Reads the older of two open areas, and then the newer.
fn read_two<D: Disk, G: Grammar>(
    alloc: Global,
    disk: &mut D,
    pieces: &mut Pieces,
    grammar: &mut G,
    spans: (Span, Span),
    volume: u64,
    covers: u64,
) -> Result<(OpenArea, OpenArea), JournalFault>
    requires older { area_header < spans.0.size }
    requires newer { area_header < spans.1.size }
    requires older_within { spans.0.start + spans.0.size ≤ D.bytes_of disk.old }
    requires newer_within { spans.1.start + spans.1.size ≤ D.bytes_of disk.old }
    ensures says { (image : List ℕ) → Shows D.Storage disk.old pieces.old image
        → Says result (areas_entries G.is_entry volume covers (area_in spans.0 image ∷ area_in spans.1 image ∷ []))
        (AreRead volume (area_in spans.0 image) (area_in spans.1 image)) }
    ensures older { IfOk result (λ areas. IsInSpan spans.0 areas.0) }
    ensures newer { IfOk result (λ areas. IsInSpan spans.1 areas.1) }
    ensures number { IfOk result (λ areas. areas.1.base ≡ areas.0.last) }
    ensures went { Went D.Storage disk.old pieces.old disk.new pieces.new (is_disk_fault result) }
    ensures size { D.bytes_of disk.new ≡ D.bytes_of disk.old }
{
    let older = read_area(
        alloc,
        disk,
        pieces,
        grammar,
        spans.0,
        volume,
        Base::UpTo(covers),
    )?;
    let newer = read_area(
        alloc,
        disk,
        pieces,
        grammar,
        spans.1,
        volume,
        Base::Exactly(older.last),
    )?;
    Ok((older, newer))
}

/// Reads the only open area.
fn read_only<D: Disk, G: Grammar>(
    alloc: Global,
    disk: &mut D,
    pieces: &mut Pieces,
    grammar: &mut G,
    span: Span,
    volume: u64,
    covers: u64,
) -> Result<Areas, JournalFault>
    requires inside { area_header < span.size }
    requires half { IsHalf span }
    requires within { span.start + span.size ≤ D.bytes_of disk.old }
    ensures says { (image : List ℕ) → Shows D.Storage disk.old pieces.old image → IsOnlyOpen span image
        → Says result (areas_entries G.is_entry volume covers (area_in span image ∷ [])) (AreLaid volume span.size image) }
    ensures known { IfOk result (AreKnown span.size) }
    ensures went { Went D.Storage disk.old pieces.old disk.new pieces.new (is_disk_fault result) }
    ensures size { D.bytes_of disk.new ≡ D.bytes_of disk.old }
{
    let area = read_area(
        alloc,
        disk,
        pieces,
        grammar,
        span,
        volume,
        Base::UpTo(covers),
    )?;
    Ok(Areas {
        older: None,
        newer: Some(area),
    })
}

/// Reads the two halves of a disk, which are open, the older first.
fn read_ordered<D: Disk, G: Grammar>(
    alloc: Global,
    disk: &mut D,
    pieces: &mut Pieces,
    grammar: &mut G,
    spans: (Span, Span),
    volume: u64,
    covers: u64,
) -> Result<Areas, JournalFault>
    requires inside { area_header < spans.0.size }
    requires beside { AreBeside spans }
    requires within { 2 * spans.0.size ≤ D.bytes_of disk.old }
    ensures says { (image : List ℕ) → Shows D.Storage disk.old pieces.old image → AreOpen spans image
        → Says result (areas_entries G.is_entry volume covers (area_in spans.0 image ∷ area_in spans.1 image ∷ []))
        (AreLaid volume spans.0.size image) }
    ensures known { IfOk result (AreKnown spans.0.size) }
    ensures went { Went D.Storage disk.old pieces.old disk.new pieces.new (is_disk_fault result) }
    ensures size { D.bytes_of disk.new ≡ D.bytes_of disk.old }
{
    let areas = read_two(alloc, disk, pieces, grammar, spans, volume, covers)?;
    Ok(Areas {
        older: Some(areas.0),
        newer: Some(areas.1),
    })
}

/// Reads the two halves of a disk, which are open.
fn read_both<D: Disk, G: Grammar>(
    alloc: Global,
    disk: &mut D,
    pieces: &mut Pieces,
    grammar: &mut G,
    size: u64,
    volume: u64,
    covers: u64,
) -> Result<Areas, JournalFault>
    requires least { area_header < size }
    requires most { size ≤ max_journal_area }
    requires within { 2 * size ≤ D.bytes_of disk.old }
    ensures says { (image : List ℕ) → Shows D.Storage disk.old pieces.old image → AreBothOpen size image
        → Says result (areas_entries G.is_entry volume covers (in_order (first_area size image) (second_area size image)))
        (AreLaid volume size image) }
    ensures known { IfOk result (AreKnown size) }
    ensures went { Went D.Storage disk.old pieces.old disk.new pieces.new (is_disk_fault result) }
    ensures size { D.bytes_of disk.new ≡ D.bytes_of disk.old }
{
    let first = Span { start: 0, size };
    let second = Span { start: size, size };
    if is_second_older(disk, pieces, first, second)? {
        return read_ordered(
            alloc,
            disk,
            pieces,
            grammar,
            (second, first),
            volume,
            covers,
        );
    }
    read_ordered(
        alloc,
        disk,
        pieces,
        grammar,
        (first, second),
        volume,
        covers,
    )
}

/// Reads the open areas of a disk.
pub(crate) fn read_areas<D: Disk, G: Grammar>(
    alloc: Global,
    disk: &mut D,
    pieces: &mut Pieces,
    grammar: &mut G,
    size: u64,
    volume: u64,
    covers: u64,
) -> Result<Areas, JournalFault>
    requires least { area_header < size }
    requires most { size ≤ max_journal_area }
    requires within { 2 * size ≤ D.bytes_of disk.old }
    ensures says { (image : List ℕ) → Shows D.Storage disk.old pieces.old image
        → Says result (areas_entries G.is_entry volume covers (open_areas (first_area size image) (second_area size image)))
        (AreLaid volume size image) }
    ensures known { IfOk result (AreKnown size) }
    ensures went { Went D.Storage disk.old pieces.old disk.new pieces.new (is_disk_fault result) }
    ensures size { D.bytes_of disk.new ≡ D.bytes_of disk.old }
{
    let first = Span { start: 0, size };
    let second = Span { start: size, size };
    let one = gate_at(disk, pieces, first, 0)?;
    let two = gate_at(disk, pieces, second, 0)?;
    if one {
        if two {
            return read_both(alloc, disk, pieces, grammar, size, volume, covers);
        }
        return read_only(alloc, disk, pieces, grammar, first, volume, covers);
    }
    if two {
        return read_only(alloc, disk, pieces, grammar, second, volume, covers);
    }
    Ok(Areas {
        older: None,
        newer: None,
    })
}
