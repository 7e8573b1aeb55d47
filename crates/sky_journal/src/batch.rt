//! The bytes of a batch to come, as they stand in memory.

ghost use Rattle.std.specs.Int.{w32, w64, to_be_bytes};
ghost use Rattle.std.specs.Prelude.{◌≡◌, ◌+◌, ◌-◌, ◌≤◌, ℕ, false, List, [], ◌∷◌, ◌++◌, Some, length, replicate, take, vec_capacity};
ghost use Rattle.sky_outside.specs.Image.{written};
ghost use Rattle.sky_journal.specs.Layout.{is_open};
ghost use Rattle.sky_journal.specs.Pending.{body_in};
ghost use Rattle.sky_journal.specs.Text.{entries_in};
ghost use Rattle.sky_journal.specs.Written.{IsBehindBatchGate, IsBehindAreaGate};

use crate::gate::CLOSED;

/// How many bytes of a batch in memory are not entries: 15 of its header, and the closed gate behind it.
pub const BATCH_FRAME: usize = 16;

/// How many bytes an area has before its first batch.
pub const AREA_HEADER: u64 = 64;

/// Puts an entry before the closed gate at the end of a batch, for which there is memory.
pub fn push_entry(batch: &mut Vec<u8>, entry: &[u8])
    requires some { 1 ≤ length batch.old.items }
    requires room { length batch.old.items + length entry.now ≤ vec_capacity batch.old }
    ensures items { batch.new.items ≡ take (length batch.old.items - 1) batch.old.items ++ entry.now ++ 0 ∷ [] }
    ensures size { length batch.new.items ≡ length batch.old.items + length entry.now }
    ensures capacity { vec_capacity batch.old ≤ vec_capacity batch.new }
{
    batch.pop();
    batch.extend_from_slice(entry).unwrap();
    batch.push(CLOSED).unwrap();
}

/// Writes a number of four bytes, the highest first.
fn put_u32(bytes: &mut [u8], at: usize, n: u32)
    requires { at + 4 ≤ length bytes.old }
    ensures { bytes.new ≡ written bytes.old at (to_be_bytes w32 n) }
{
    bytes[at..at + 4].copy_from_slice(&n.to_be_bytes());
}

/// Writes a number of eight bytes, the highest first.
fn put_u64(bytes: &mut [u8], at: usize, n: u64)
    requires { at + 8 ≤ length bytes.old }
    ensures { bytes.new ≡ written bytes.old at (to_be_bytes w64 n) }
{
    bytes[at..at + 8].copy_from_slice(&n.to_be_bytes());
}

/// Writes zeros into the first three bytes.
fn put_zeros(bytes: &mut [u8])
    requires { 3 ≤ length bytes.old }
    ensures { bytes.new ≡ written bytes.old 0 (replicate 3 0) }
{
    bytes[0..3].copy_from_slice(&[0; 3]);
}

/// Writes into the bytes of a batch, as zero, those of its header that are not used.
fn clear_unused(batch: &mut [u8])
    requires { 16 ≤ length batch.old }
    ensures unused { take 3 batch.new ≡ replicate 3 0 }
    ensures body { body_in batch.new ≡ body_in batch.old }
    ensures size { length batch.new ≡ length batch.old }
    ensures gate { is_open (length batch.new - 1) batch.new ≡ is_open (length batch.old - 1) batch.old }
{
    put_zeros(batch);
}

/// Writes into the bytes of a batch how many entries it has, and how many bytes these have.
fn put_numbers(batch: &mut [u8], count: u32)
    requires framed { 16 ≤ length batch.old }
    requires unused { take 3 batch.old ≡ replicate 3 0 }
    requires closed { is_open (length batch.old - 1) batch.old ≡ false }
    ensures complete { (entries : List (List ℕ)) → entries_in count (body_in batch.old) ≡ Some entries
        → IsBehindBatchGate batch.new entries }
    ensures body { body_in batch.new ≡ body_in batch.old }
    ensures size { length batch.new ≡ length batch.old }
    ensures closed { is_open (length batch.new - 1) batch.new ≡ false }
{
    let size = (batch.len() - BATCH_FRAME) as u64;
    put_u32(batch, 3, count);
    put_u64(batch, 7, size);
}

/// Writes the header of a batch behind its gate, for so many entries.
fn put_header(batch: &mut [u8], count: u32)
    requires framed { 16 ≤ length batch.old }
    requires closed { is_open (length batch.old - 1) batch.old ≡ false }
    ensures complete { (entries : List (List ℕ)) → entries_in count (body_in batch.old) ≡ Some entries
        → IsBehindBatchGate batch.new entries }
    ensures body { body_in batch.new ≡ body_in batch.old }
    ensures size { length batch.new ≡ length batch.old }
    ensures closed { is_open (length batch.new - 1) batch.new ≡ false }
{
    clear_unused(batch);
    put_numbers(batch, count);
}

/// Writes into a batch how many entries it has, and how many bytes these have.
pub fn complete_batch(batch: &mut Vec<u8>, count: u32)
    requires framed { 16 ≤ length batch.old.items }
    requires closed { is_open (length batch.old.items - 1) batch.old.items ≡ false }
    ensures complete { (entries : List (List ℕ)) → entries_in count (body_in batch.old.items) ≡ Some entries
        → IsBehindBatchGate batch.new.items entries }
    ensures body { body_in batch.new.items ≡ body_in batch.old.items }
    ensures size { length batch.new.items ≡ length batch.old.items }
    ensures closed { is_open (length batch.new.items - 1) batch.new.items ≡ false }
    ensures capacity { vec_capacity batch.new ≡ vec_capacity batch.old }
{
    put_header(batch.as_mut_slice(), count);
}

/// Takes all entries out of a batch.
pub fn clear_batch(batch: &mut Vec<u8>)
    requires framed { 16 ≤ length batch.old.items }
    ensures size { length batch.new.items ≡ 16 }
    ensures closed { is_open 15 batch.new.items ≡ false }
    ensures capacity { vec_capacity batch.new ≡ vec_capacity batch.old }
{
    batch.truncate(BATCH_FRAME);
    batch[BATCH_FRAME - 1] = CLOSED;
}

/// What stands behind the gate of an area of this volume and base, up to the closed gate of its first batch.
pub fn behind_area_gate(volume: u64, base: u64) -> [u8; 64]
    ensures { IsBehindAreaGate result volume base }
{
    let mut bytes = [0; 64];
    put_u64(&mut bytes, 7, volume);
    put_u64(&mut bytes, 15, base);
    bytes
}
