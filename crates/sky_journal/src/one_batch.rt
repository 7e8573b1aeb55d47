//! Reading one batch of an area.

ghost use Rattle.std.specs.Prelude.{◌≡◌, ◌+◌, ◌<◌, ◌≤◌, ℕ, List, None, length, IfOk, IfSome, OnOk, is_err};
ghost use Rattle.sky_base.specs.Limits.{max_number};
ghost use Rattle.sky_journal.specs.Text.{batch_at};
ghost use Rattle.sky_journal.specs.Faults.{is_disk_failure, is_disk_fault};
ghost use Rattle.sky_journal.specs.Looking.{area_in, between, Says, Shows, Went};
ghost use Rattle.sky_journal.specs.OnePass.{entries_read, IsBehind, IsEntrySize, IsNext};

use crate::fault::{JournalFault, NextFault};
use crate::grammar::Grammar;
use crate::journal::MAX_NUMBER;
use crate::looking::{is_entry_at, number_4_at, number_8_at};
use crate::pieces::Pieces;
use crate::span::Span;
use sky_outside::{Disk, Failed};
use std::alloc::Global;

/// How far a batch was read.
#[derive(Clone, Copy)]
pub(crate) struct Mark {
    /// Where in the area the next entry begins.
    pub(crate) at: u64,
    /// The first place of the disk at which an entry is not of the grammar.
    pub(crate) foreign: Option<u64>,
}

/// How many bytes the entry at this place has, where one lies before an end.
pub(crate) fn entry_size<D: Disk>(
    disk: &mut D,
    pieces: &mut Pieces,
    span: Span,
    p: u64,
    end: u64,
) -> Result<Option<u64>, Failed>
    requires order { p ≤ end }
    requires inside { end ≤ span.size }
    requires within { span.start + span.size ≤ D.bytes_of disk.old }
    ensures first { IfOk result (λ found. (image : List ℕ) → Shows D.Storage disk.old pieces.old image
        → IsEntrySize (area_in span image).bytes p end found) }
    ensures range { IfOk result (λ found. IfSome found (λ n. p + n ≤ end)) }
    ensures went { Went D.Storage disk.old pieces.old disk.new pieces.new (is_err result) }
    ensures size { D.bytes_of disk.new ≡ D.bytes_of disk.old }
{
    let left = end - p;
    if left < 4 {
        return Ok(None);
    }
    let n = 4 + number_4_at(disk, pieces, span, p)? as u64;
    Ok(if left < n { None } else { Some(n) })
}

/// Reads one entry before an end.
fn next_mark<D: Disk, G: Grammar>(
    alloc: Global,
    disk: &mut D,
    pieces: &mut Pieces,
    grammar: &mut G,
    span: Span,
    mark: Mark,
    end: u64,
    buffer: &mut Vec<u8>,
) -> Result<Option<Mark>, NextFault>
    requires order { mark.at ≤ end }
    requires inside { end ≤ span.size }
    requires within { span.start + span.size ≤ D.bytes_of disk.old }
    ensures next { IfOk result (λ found. (image : List ℕ) → Shows D.Storage disk.old pieces.old image
        → IsNext G.is_entry (area_in span image) end mark found) }
    ensures range { IfOk result (λ found. IfSome found (λ next. (mark.at ≤ next.at) × (next.at ≤ end))) }
    ensures went { Went D.Storage disk.old pieces.old disk.new pieces.new (is_disk_failure result) }
    ensures size { D.bytes_of disk.new ≡ D.bytes_of disk.old }
{
    let Some(n) = entry_size(disk, pieces, span, mark.at, end)? else {
        return Ok(None);
    };
    let at = mark.at + n;
    if mark.foreign.is_some() {
        return Ok(Some(Mark {
            at,
            foreign: mark.foreign,
        }));
    }
    let is = is_entry_at(alloc, disk, pieces, grammar, span, mark.at, n, buffer)?;
    Ok(Some(Mark {
        at,
        foreign: if is { None } else { Some(span.start + mark.at) },
    }))
}

/// Reads the entries of the batch at a place, of which there are to be so many up to an end.
fn entries<D: Disk, G: Grammar>(
    alloc: Global,
    disk: &mut D,
    pieces: &mut Pieces,
    grammar: &mut G,
    span: Span,
    p: u64,
    count: u32,
    end: u64,
) -> Result<(), JournalFault>
    requires order { p + 16 ≤ end }
    requires inside { end < span.size }
    requires within { span.start + span.size ≤ D.bytes_of disk.old }
    ensures says { (image : List ℕ) → Shows D.Storage disk.old pieces.old image
        → Says result (entries_read G.is_entry (span.start + p) (span.start + (p + 16)) None count
        (between (p + 16) end (area_in span image).bytes)) (λ _ entries. length entries ≡ count) }
    ensures went { Went D.Storage disk.old pieces.old disk.new pieces.new (is_disk_fault result) }
    ensures size { D.bytes_of disk.new ≡ D.bytes_of disk.old }
{
    let mut buffer = Vec::new(alloc);
    let mut mark = Mark {
        at: p + 16,
        foreign: None,
    };
    for read in 0..count {
        match next_mark(alloc, disk, pieces, grammar, span, mark, end, &mut buffer)? {
            Some(next) => mark = next,
            None => return Err(JournalFault::Foreign { at: span.start + p }),
        }
    }
    if mark.at != end {
        return Err(JournalFault::Foreign { at: span.start + p });
    }
    match mark.foreign {
        Some(at) => Err(JournalFault::Foreign { at }),
        None => Ok(()),
    }
}

/// How far an area is filled.
#[derive(Clone, Copy)]
pub(crate) struct Filled {
    /// The number of the last entry.
    pub(crate) last: u64,
    /// Where in the area the gate behind the last batch is.
    pub(crate) end: u64,
}

/// Reads the open batch behind the ones that were read.
pub(crate) fn read_batch<D: Disk, G: Grammar>(
    alloc: Global,
    disk: &mut D,
    pieces: &mut Pieces,
    grammar: &mut G,
    span: Span,
    filled: Filled,
) -> Result<Filled, JournalFault>
    requires inside { filled.end < span.size }
    requires number { filled.last < max_number }
    requires within { span.start + span.size ≤ D.bytes_of disk.old }
    ensures says { (image : List ℕ) → Shows D.Storage disk.old pieces.old image
        → Says result (batch_at G.is_entry (area_in span image) filled.end filled.last) (IsBehind (area_in span image) filled) }
    ensures end { IfOk result (λ next. (filled.end < next.end) × (next.end < span.size)) }
    ensures last { IfOk result (λ next. (filled.last ≤ next.last) × (next.last < max_number)) }
    ensures went { Went D.Storage disk.old pieces.old disk.new pieces.new (is_disk_fault result) }
    ensures size { D.bytes_of disk.new ≡ D.bytes_of disk.old }
{
    let p = filled.end;
    let foreign = JournalFault::Foreign { at: span.start + p };
    let left = span.size - p;
    if left <= 16 {
        return Err(foreign);
    }
    let count = number_4_at(disk, pieces, span, p + 4)?;
    let body = number_8_at(disk, pieces, span, p + 8)?;
    if count == 0 {
        return Err(foreign);
    }
    if body >= left - 16 {
        return Err(foreign);
    }
    if count as u64 >= MAX_NUMBER - filled.last {
        return Err(foreign);
    }
    let end = p + 16 + body;
    entries(alloc, disk, pieces, grammar, span, p, count, end)?;
    Ok(Filled {
        last: filled.last + count as u64,
        end,
    })
}
