//! What stands at a place of an area.

ghost use Rattle.std.specs.Prelude.{◌≡◌, ◌+◌, ◌<◌, ◌≤◌, ℕ, List, length, IfOk, OnOk, is_err};
ghost use Rattle.sky_outside.specs.Image.{bytes_at};
ghost use Rattle.sky_journal.specs.Layout.{is_open, number_4, number_8};
ghost use Rattle.sky_journal.specs.Faults.{is_disk_failure};
ghost use Rattle.sky_journal.specs.Looking.{area_in, Shows, Went};

use crate::fault::NextFault;
use crate::gate::OPEN;
use crate::grammar::Grammar;
use crate::pieces::Pieces;
use crate::span::Span;
use sky_outside::{Disk, Failed};
use std::alloc::Global;

/// Copies what an area has from a place of it on.
#[tactic(auto, using(crate::proofs::Parts::part_of_part))]
fn copy_in<D: Disk>(
    disk: &mut D,
    pieces: &mut Pieces,
    span: Span,
    p: u64,
    to: &mut [u8],
) -> Result<(), Failed>
    requires inside { p + length to.old ≤ span.size }
    requires within { span.start + span.size ≤ D.bytes_of disk.old }
    ensures bytes { OnOk result ((image : List ℕ) → Shows D.Storage disk.old pieces.old image
        → to.new ≡ bytes_at (area_in span image).bytes p (length to.old)) }
    ensures went { Went D.Storage disk.old pieces.old disk.new pieces.new (is_err result) }
    ensures size { D.bytes_of disk.new ≡ D.bytes_of disk.old }
{
    pieces.copy(disk, span.start + p, to)
}

/// Whether the gate at this place is open.
pub(crate) fn gate_at<D: Disk>(
    disk: &mut D,
    pieces: &mut Pieces,
    span: Span,
    p: u64,
) -> Result<bool, Failed>
    requires inside { p < span.size }
    requires within { span.start + span.size ≤ D.bytes_of disk.old }
    ensures value { IfOk result (λ is. (image : List ℕ) → Shows D.Storage disk.old pieces.old image
        → is ≡ is_open p (area_in span image).bytes) }
    ensures went { Went D.Storage disk.old pieces.old disk.new pieces.new (is_err result) }
    ensures size { D.bytes_of disk.new ≡ D.bytes_of disk.old }
{
    let mut gate = [0u8; 1];
    copy_in(disk, pieces, span, p, &mut gate)?;
    Ok(gate[0] == OPEN)
}

/// The number of four bytes at this place.
#[tactic(auto, unfolding(crate::specs::Layout::number_4))]
pub(crate) fn number_4_at<D: Disk>(
    disk: &mut D,
    pieces: &mut Pieces,
    span: Span,
    p: u64,
) -> Result<u32, Failed>
    requires inside { p + 4 ≤ span.size }
    requires within { span.start + span.size ≤ D.bytes_of disk.old }
    ensures value { IfOk result (λ n. (image : List ℕ) → Shows D.Storage disk.old pieces.old image
        → n ≡ number_4 p (area_in span image).bytes) }
    ensures went { Went D.Storage disk.old pieces.old disk.new pieces.new (is_err result) }
    ensures size { D.bytes_of disk.new ≡ D.bytes_of disk.old }
{
    let mut word = [0u8; 4];
    copy_in(disk, pieces, span, p, &mut word)?;
    Ok(u32::from_be_bytes(word))
}

/// The number of eight bytes at this place.
#[tactic(auto, unfolding(crate::specs::Layout::number_8))]
pub(crate) fn number_8_at<D: Disk>(
    disk: &mut D,
    pieces: &mut Pieces,
    span: Span,
    p: u64,
) -> Result<u64, Failed>
    requires inside { p + 8 ≤ span.size }
    requires within { span.start + span.size ≤ D.bytes_of disk.old }
    ensures value { IfOk result (λ n. (image : List ℕ) → Shows D.Storage disk.old pieces.old image
        → n ≡ number_8 p (area_in span image).bytes) }
    ensures went { Went D.Storage disk.old pieces.old disk.new pieces.new (is_err result) }
    ensures size { D.bytes_of disk.new ≡ D.bytes_of disk.old }
{
    let mut word = [0u8; 8];
    copy_in(disk, pieces, span, p, &mut word)?;
    Ok(u64::from_be_bytes(word))
}

/// Reads this many bytes at this place.
pub(crate) fn bytes_in<D: Disk>(
    disk: &mut D,
    pieces: &mut Pieces,
    span: Span,
    p: u64,
    n: u64,
    bytes: &mut Vec<u8>,
) -> Result<(), NextFault>
    requires inside { p + n ≤ span.size }
    requires within { span.start + span.size ≤ D.bytes_of disk.old }
    ensures value { OnOk result ((image : List ℕ) → Shows D.Storage disk.old pieces.old image
        → bytes.new.items ≡ bytes_at (area_in span image).bytes p n) }
    ensures went { Went D.Storage disk.old pieces.old disk.new pieces.new (is_disk_failure result) }
    ensures size { D.bytes_of disk.new ≡ D.bytes_of disk.old }
{
    bytes.clear();
    bytes.resize(n as usize, 0)?;
    copy_in(disk, pieces, span, p, bytes.as_mut_slice())?;
    Ok(())
}

/// Whether these bytes are an entry of the grammar. They are read into a buffer.
pub(crate) fn is_entry_at<D: Disk, G: Grammar>(
    alloc: Global,
    disk: &mut D,
    pieces: &mut Pieces,
    grammar: &mut G,
    span: Span,
    p: u64,
    n: u64,
    buffer: &mut Vec<u8>,
) -> Result<bool, NextFault>
    requires inside { p + n ≤ span.size }
    requires within { span.start + span.size ≤ D.bytes_of disk.old }
    ensures value { IfOk result (λ is. (image : List ℕ) → Shows D.Storage disk.old pieces.old image
        → is ≡ G.is_entry (bytes_at (area_in span image).bytes p n)) }
    ensures went { Went D.Storage disk.old pieces.old disk.new pieces.new (is_disk_failure result) }
    ensures size { D.bytes_of disk.new ≡ D.bytes_of disk.old }
{
    bytes_in(disk, pieces, span, p, n, buffer)?;
    Ok(grammar.spells(alloc, buffer)?)
}
