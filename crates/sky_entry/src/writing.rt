//! Writing entries.

ghost use Rattle.std.specs.Prelude.{◌≡◌, ◌^◌, ◌<◌, ◌≤◌, ◌↔◌, ◌++◌, Some, List, ℕ, length, take, drop, IsOk, IfOk, OnOk, OnErr, IsTrue};
ghost use Rattle.sky_nfs.specs.Calls.{is_change};
ghost use Rattle.std.specs.List.{AllByRecursion};
ghost use Rattle.sky_xdr.specs.Encoding.{uint};
ghost use Rattle.sky_xdr.specs.Writing.{Puts};
ghost use Rattle.sky_rpc.specs.Call.{uints};
ghost use Rattle.sky_args.specs.Args.{args_bytes};
ghost use Rattle.sky_args.specs.Parts.{moment_bytes};
ghost use Rattle.sky_args.specs.Sizes.{FitsUint, FitsMoment, FitsTypes};
ghost use Rattle.sky_entry.specs.Entry.{caller_bytes, body_bytes, entry_bytes, FitsCred, IsEntry};
ghost use Rattle.sky_entry.specs.Reading.{entry_at};

use crate::length::entry_length;
use sky_args::{procedure_number, put_args, put_moment};
use sky_base::{Cred, Moment};
use sky_nfs::Change;
use sky_rpc::put_words;
use sky_xdr::{NoRoom, Writer};

/// Writes the further groups of a caller, one behind the other.
fn put_gids(writer: &mut Writer<'_>, gids: &[u32]) -> Result<(), NoRoom>
    ensures puts { Puts result (uints gids.now) writer.old writer.new }
    ensures fits { AllByRecursion FitsUint gids.now }
{
    put_words(writer, gids)
}

/// Writes who made a change.
#[tactic(auto, unfolding(crate::specs::Entry::caller_bytes), using(sky_xdr::proofs::Puts::puts_then, sky_xdr::proofs::Puts::stops_then))]
fn put_caller(writer: &mut Writer<'_>, cred: &Cred) -> Result<(), NoRoom>
    ensures puts { Puts result (caller_bytes cred.now) writer.old writer.new }
    ensures fits { OnOk result (FitsCred cred.now) }
{
    let gids = cred.gids.as_slice();
    writer.put_u32(cred.uid)?;
    writer.put_u32(cred.gid)?;
    writer.put_u32(gids.len() as u32)?;
    put_gids(writer, gids)
}

/// Writes what stands before the arguments: when a change was made, by whom, and the number of its procedure.
#[tactic(auto, using(sky_xdr::proofs::Puts::puts_then, sky_xdr::proofs::Puts::stops_then))]
fn put_head(
    writer: &mut Writer<'_>,
    moment: Moment,
    cred: &Cred,
    procedure: u32,
) -> Result<(), NoRoom>
    ensures puts { Puts result (moment_bytes moment ++ caller_bytes cred.now ++ uint procedure) writer.old writer.new }
    ensures fits { OnOk result (FitsMoment moment × FitsCred cred.now) }
{
    put_moment(writer, moment)?;
    put_caller(writer, cred)?;
    writer.put_u32(procedure)
}

/// Writes what of an entry follows its length.
#[tactic(auto, unfolding(crate::specs::Entry::body_bytes), using(sky_xdr::proofs::Puts::puts_then, sky_xdr::proofs::Puts::stops_then))]
fn put_body(writer: &mut Writer<'_>, change: &Change) -> Result<(), NoRoom>
    requires { length (args_bytes change.now.call) < 2 ^ 32 }
    ensures puts { Puts result (body_bytes change.now) writer.old writer.new }
    ensures fits { OnOk result (FitsMoment change.now.moment × FitsCred change.now.cred × FitsTypes change.now.call) }
{
    let procedure = procedure_number(&change.call);
    put_head(writer, change.moment, &change.cred, procedure)?;
    put_args(writer, &change.call)
}

/// Writes what of an entry follows its length at the beginning of a buffer, and says how many bytes it is.
pub fn write_body(buf: &mut [u8], change: &Change) -> Result<usize, NoRoom>
    requires { length (args_bytes change.now.call) < 2 ^ 32 }
    ensures fits { IsOk result ↔ (length (body_bytes change.now) ≤ length buf.old) }
    ensures count { IfOk result (λ n. n ≡ length (body_bytes change.now)) }
    ensures written { IfOk result (λ n. take n buf.new ≡ body_bytes change.now) }
{
    let mut writer = Writer::over(buf);
    put_body(&mut writer, change)?;
    Ok(writer.written())
}

/// Writes an entry that has so many bytes.
#[tactic(auto, unfolding(crate::specs::Entry::entry_bytes), using(sky_xdr::proofs::Puts::puts_then, sky_xdr::proofs::Puts::stops_then, crate::proofs::Sizes::entry_sizes))]
fn put_entry(writer: &mut Writer<'_>, change: &Change, size: u32) -> Result<(), NoRoom>
    requires { size ≡ length (entry_bytes change.now) }
    ensures puts { Puts result (entry_bytes change.now) writer.old writer.new }
    ensures fits { OnOk result (FitsMoment change.now.moment × FitsCred change.now.cred × FitsTypes change.now.call) }
{
    writer.put_u32(size - 4)?;
    put_body(writer, change)
}

/// Writes the entry of a change at the beginning of a buffer, and says how many bytes it has. The conditions are that the
/// call is one of those that change the tree, and that these are fewer than 2^32 bytes.
///
/// `NoRoom` where the buffer is shorter than that; nothing is written then.
pub fn write_entry(buf: &mut [u8], change: &Change) -> Result<usize, NoRoom>
    requires changes { IsTrue (is_change change.now.call) }
    requires small { length (entry_bytes change.now) < 2 ^ 32 }
    ensures fits { IsOk result ↔ (length (entry_bytes change.now) ≤ length buf.old) }
    ensures count { IfOk result (λ n. n ≡ length (entry_bytes change.now)) }
    ensures written { IfOk result (λ n. take n buf.new ≡ entry_bytes change.now) }
    ensures behind { IfOk result (λ n. drop n buf.new ≡ drop n buf.old) }
    ensures err { OnErr result (buf.new ≡ buf.old) }
    // What was written is the change's entry, and is read as the change, whatever follows it.
    ensures found { OnOk result (IsEntry (entry_bytes change.now) change.now) }
    ensures read_again { OnOk result ((rest : List ℕ)
        → entry_at (entry_bytes change.now ++ rest) ≡ Some (change.now, length (entry_bytes change.now))) }
{
    let size = entry_length(change);
    if buf.len() < size as usize {
        return Err(NoRoom);
    }
    let mut writer = Writer::over(buf);
    put_entry(&mut writer, change, size)?;
    Ok(writer.written())
}
