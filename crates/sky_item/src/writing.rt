//! Writing items.

ghost use Rattle.std.specs.Prelude.{◌≡◌, ◌≤◌, ◌<◌, ◌^◌, ◌++◌, length};
ghost use Rattle.std.specs.List.{flat_map};
ghost use Rattle.sky_base.specs.Limits.{max_name_bytes};
ghost use Rattle.sky_xdr.specs.Encoding.{uint, uhyper};
ghost use Rattle.sky_item.specs.Encoding.{id_bytes, dir_code, location_bytes, block_bytes, row_bytes, numbered_bytes, all_numbered_bytes, moment_bytes, times_bytes, verifier_bytes, owner_bytes, numbers_bytes};
ghost use Rattle.sky_item.specs.Writing.{Puts};

use crate::item::{Attributes, CheckItem, Times};
use crate::lists::NumberedLink;
use crate::output::Output;
use sky_base::{Dir, ItemId, Link, Location, Moment, Name};
use sky_xdr::NoRoom;

/// The number of a directory of the cloud.
fn code_of(dir: Dir) -> u32
    ensures { result ≡ dir_code dir }
{
    match dir {
        Dir::Proxy => 0,
        Dir::Cleaner => 1,
    }
}

/// Writes an identifier.
#[tactic(auto, unfolding(crate::specs::Encoding::id_bytes), using(crate::proofs::Puts::puts_then, crate::proofs::Puts::stops_then))]
pub fn put_id(out: &mut Output<'_>, id: ItemId) -> Result<(), NoRoom>
    ensures { Puts result (id_bytes id) out.old out.new }
{
    out.put_u64(id.epoch)?;
    out.put_u64(id.counter)
}

/// Writes a location.
#[tactic(auto, unfolding(crate::specs::Encoding::location_bytes), using(crate::proofs::Puts::puts_then, crate::proofs::Puts::stops_then))]
pub fn put_location(out: &mut Output<'_>, at: Location) -> Result<(), NoRoom>
    ensures { Puts result (location_bytes at) out.old out.new }
{
    out.put_u32(code_of(at.dir))?;
    out.put_u64(at.run)?;
    out.put_u64(at.seq)?;
    out.put_u32(at.offset)?;
    out.put_u32(at.length)
}

/// Writes a block of a file.
#[tactic(auto, unfolding(crate::specs::Encoding::block_bytes))]
fn put_block(out: &mut Output<'_>, block: Option<Link>) -> Result<(), NoRoom>
    ensures { Puts result (block_bytes block) out.old out.new }
{
    match block {
        None => put_id(
            out,
            ItemId {
                epoch: 0,
                counter: 0,
            },
        ),
        Some(link) => put_id(out, link.id),
    }
}

/// Writes the blocks of a file, one behind the other.
pub fn put_blocks(out: &mut Output<'_>, blocks: &[Option<Link>]) -> Result<(), NoRoom>
    ensures { Puts result (flat_map block_bytes blocks.now) out.old out.new }
{
    for block in blocks {
        put_block(out, *block)?;
    }
    Ok(())
}

/// Writes an entry of a directory.
#[tactic(auto, unfolding(crate::specs::Encoding::row_bytes), using(crate::proofs::Puts::puts_then, crate::proofs::Puts::stops_then))]
fn put_row(out: &mut Output<'_>, row: &(u64, Name, u64)) -> Result<(), NoRoom>
    ensures { Puts result (row_bytes row.now) out.old out.new }
{
    let name = row.1.as_bytes();
    out.put_u64(row.0)?;
    out.put_u64(row.2)?;
    out.put_u16(name.len() as u16)?;
    out.put(name)
}

/// Writes the entries of a directory, one behind the other.
pub fn put_rows(out: &mut Output<'_>, rows: &[(u64, Name, u64)]) -> Result<(), NoRoom>
    ensures { Puts result (flat_map row_bytes rows.now) out.old out.new }
{
    for row in rows {
        put_row(out, row)?;
    }
    Ok(())
}

/// Writes an item that goes by a number.
#[tactic(auto, unfolding(crate::specs::Encoding::numbered_bytes), using(crate::proofs::Puts::puts_then, crate::proofs::Puts::stops_then))]
fn put_numbered(out: &mut Output<'_>, item: NumberedLink) -> Result<(), NoRoom>
    ensures { Puts result (numbered_bytes item) out.old out.new }
{
    out.put_u64(item.number)?;
    put_id(out, item.link.id)
}

/// Writes items that go by numbers, one behind the other.
fn put_each_numbered(out: &mut Output<'_>, items: &[NumberedLink]) -> Result<(), NoRoom>
    ensures { Puts result (flat_map numbered_bytes items.now) out.old out.new }
{
    for item in items {
        put_numbered(out, *item)?;
    }
    Ok(())
}

/// Writes items that go by numbers: how many, and each.
#[tactic(auto, unfolding(crate::specs::Encoding::all_numbered_bytes), using(crate::proofs::Puts::puts_then, crate::proofs::Puts::stops_then))]
pub fn put_all_numbered(out: &mut Output<'_>, items: &[NumberedLink]) -> Result<(), NoRoom>
    requires { length items.now < 2 ^ 32 }
    ensures { Puts result (all_numbered_bytes items.now) out.old out.new }
{
    out.put_u32(items.len() as u32)?;
    put_each_numbered(out, items)
}

/// Writes the numbers of files, one behind the other.
pub fn put_fileids(out: &mut Output<'_>, fileids: &[u64]) -> Result<(), NoRoom>
    ensures { Puts result (flat_map uhyper fileids.now) out.old out.new }
{
    for fileid in fileids {
        out.put_u64(*fileid)?;
    }
    Ok(())
}

/// Writes a moment.
#[tactic(auto, unfolding(crate::specs::Encoding::moment_bytes), using(crate::proofs::Puts::puts_then, crate::proofs::Puts::stops_then))]
fn put_moment(out: &mut Output<'_>, moment: Moment) -> Result<(), NoRoom>
    ensures { Puts result (moment_bytes moment) out.old out.new }
{
    out.put_u32(moment.seconds)?;
    out.put_u32(moment.nanos)
}

/// Writes the moments of a node.
#[tactic(auto, unfolding(crate::specs::Encoding::times_bytes), using(crate::proofs::Puts::puts_then, crate::proofs::Puts::stops_then))]
pub fn put_times(out: &mut Output<'_>, times: Times) -> Result<(), NoRoom>
    ensures { Puts result (times_bytes times) out.old out.new }
{
    put_moment(out, times.atime)?;
    put_moment(out, times.mtime)?;
    put_moment(out, times.ctime)
}

/// Writes whether a verifier is kept, and the verifier.
#[tactic(auto, unfolding(crate::specs::Encoding::verifier_bytes), using(crate::proofs::Puts::puts_then, crate::proofs::Puts::stops_then))]
pub fn put_verifier(out: &mut Output<'_>, verifier: Option<[u8; 8]>) -> Result<(), NoRoom>
    ensures { Puts result (verifier_bytes verifier) out.old out.new }
{
    match verifier {
        None => {
            out.put_u32(0)?;
            out.put_u64(0)
        }
        Some(bytes) => {
            out.put_u32(1)?;
            out.put(&bytes)
        }
    }
}

/// Writes who may do what with a node.
#[tactic(auto, unfolding(crate::specs::Encoding::owner_bytes), using(crate::proofs::Puts::puts_then, crate::proofs::Puts::stops_then))]
pub fn put_owner(out: &mut Output<'_>, a: &Attributes) -> Result<(), NoRoom>
    ensures { Puts result (owner_bytes a.now) out.old out.new }
{
    out.put_u32(a.mode)?;
    out.put_u32(a.nlink)?;
    out.put_u32(a.uid)?;
    out.put_u32(a.gid)
}

/// Writes the numbers of a checkpoint.
#[tactic(auto, unfolding(crate::specs::Encoding::numbers_bytes), using(crate::proofs::Puts::puts_then, crate::proofs::Puts::stops_then))]
pub fn put_numbers(out: &mut Output<'_>, check: &CheckItem) -> Result<(), NoRoom>
    ensures { Puts result (numbers_bytes check.now) out.old out.new }
{
    out.put_u64(check.volume)?;
    out.put_u64(check.covers)?;
    out.put_u64(check.next_fileid)?;
    out.put_u64(check.first_seq)?;
    out.put_u64(check.merged)?;
    out.put_u64(check.base_epoch)?;
    out.put_u64(check.base_seq)
}
