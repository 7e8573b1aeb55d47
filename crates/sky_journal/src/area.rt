//! Reading one area.

ghost use Rattle.std.specs.Prelude.{◌≡◌, ◌+◌, ◌<◌, ◌≤◌, ℕ, List, length, IfOk, false};
ghost use Rattle.sky_base.specs.Limits.{max_number};
ghost use Rattle.sky_journal.specs.Layout.{is_open, area_header};
ghost use Rattle.sky_journal.specs.Text.{area_entries, base_of, batches_from};
ghost use Rattle.sky_journal.specs.AreasRead.{is_foreign_base, IsInSpan, IsReadArea};
ghost use Rattle.sky_journal.specs.Faults.{is_disk_fault};
ghost use Rattle.sky_journal.specs.Looking.{area_in, Says, Shows, Went};
ghost use Rattle.sky_journal.specs.OnePass.{IsFilled};

use crate::fault::JournalFault;
use crate::grammar::Grammar;
use crate::journal::MAX_NUMBER;
use crate::looking::{gate_at, number_8_at};
use crate::one_batch::{Filled, read_batch};
use crate::open_area::OpenArea;
use crate::pieces::Pieces;
use crate::span::Span;
use sky_outside::Disk;
use std::alloc::Global;

/// Which base an area may have.
#[derive(Clone, Copy)]
pub(crate) enum Base {
    /// One up to this number.
    UpTo(u64),
    /// This one alone.
    Exactly(u64),
}

/// Whether this is not a base that an area may have.
fn is_foreign(base: u64, allowed: Base) -> bool
    ensures { result ≡ is_foreign_base allowed base }
{
    match allowed {
        Base::UpTo(covers) => covers < base,
        Base::Exactly(number) => base != number,
    }
}

/// Reads the batches of an area, behind an entry of this number.
fn read_batches<D: Disk, G: Grammar>(
    alloc: Global,
    disk: &mut D,
    pieces: &mut Pieces,
    grammar: &mut G,
    span: Span,
    base: u64,
) -> Result<Filled, JournalFault>
    requires inside { area_header < span.size }
    requires number { base < max_number }
    requires within { span.start + span.size ≤ D.bytes_of disk.old }
    ensures says { (image : List ℕ) → Shows D.Storage disk.old pieces.old image
        → Says result (batches_from G.is_entry (area_in span image) (length (area_in span image).bytes) area_header base)
        (λ filled entries. IsFilled base (area_in span image).bytes filled.last filled.end entries
        × (is_open filled.end (area_in span image).bytes ≡ false)) }
    ensures end { IfOk result (λ filled. (area_header ≤ filled.end) × (filled.end < span.size)) }
    ensures last { IfOk result (λ filled. (base ≤ filled.last) × (filled.last < max_number)) }
    ensures went { Went D.Storage disk.old pieces.old disk.new pieces.new (is_disk_fault result) }
    ensures size { D.bytes_of disk.new ≡ D.bytes_of disk.old }
{
    let mut filled = Filled {
        last: base,
        end: 64,
    };
    'batches: while gate_at(disk, pieces, span, filled.end)? {
        filled = read_batch(alloc, disk, pieces, grammar, span, filled)?;
    }
    Ok(filled)
}

/// Reads an open area of a volume.
pub(crate) fn read_area<D: Disk, G: Grammar>(
    alloc: Global,
    disk: &mut D,
    pieces: &mut Pieces,
    grammar: &mut G,
    span: Span,
    volume: u64,
    allowed: Base,
) -> Result<OpenArea, JournalFault>
    requires inside { area_header < span.size }
    requires within { span.start + span.size ≤ D.bytes_of disk.old }
    ensures says { (image : List ℕ) → Shows D.Storage disk.old pieces.old image
        → Says result (area_entries G.is_entry volume (area_in span image) (is_foreign_base allowed (base_of (area_in span image))))
        (IsReadArea volume (area_in span image)) }
    ensures known { IfOk result (IsInSpan span) }
    ensures base { IfOk result (λ a. is_foreign_base allowed a.base ≡ false) }
    ensures went { Went D.Storage disk.old pieces.old disk.new pieces.new (is_disk_fault result) }
    ensures size { D.bytes_of disk.new ≡ D.bytes_of disk.old }
{
    if number_8_at(disk, pieces, span, 8)? != volume {
        return Err(JournalFault::Foreign { at: span.start + 8 });
    }
    let base = number_8_at(disk, pieces, span, 16)?;
    if base >= MAX_NUMBER {
        return Err(JournalFault::Foreign {
            at: span.start + 16,
        });
    }
    if is_foreign(base, allowed) {
        return Err(JournalFault::Foreign {
            at: span.start + 16,
        });
    }
    let filled = read_batches(alloc, disk, pieces, grammar, span, base)?;
    Ok(OpenArea {
        start: span.start,
        base,
        last: filled.last,
        end: filled.end,
    })
}
