//! The results of READDIR and READDIRPLUS are written, each behind NFS3_OK (RFC 1813 sections 3.3.16 and 3.3.17).

ghost use Rattle.std.specs.Prelude.{◌≡◌, ◌+◌, ◌^◌, ◌<◌, ◌≤◌, ◌++◌, ◌↔◌, length, flat_map, false, IsTrue, IsOk, OnOk, None};
ghost use Rattle.sky_xdr.specs.Encoding.{bool};
ghost use Rattle.sky_xdr.specs.Writing.{written_of, room_of, name_of};
ghost use Rattle.sky_results.specs.Answers.{nfsstat3};
ghost use Rattle.sky_results.specs.Results as encoded;

use crate::attributes::{post_op_attr_length, put_post_op_attr, put_post_op_handle};
use crate::status::{TOO_LONG, put_ok};
use sky_nfs::{ListedEntry, ListedEntryPlus, ReadDirOk, ReadDirPlusOk};
use sky_xdr::{NoRoom, Writer, opaque_length};

/// The verifier of cookies: this server's cookies stay good.
const COOKIE_VERIFIER: u64 = 0;

/// Writes an entry of READDIR, behind that one follows.
#[tactic(auto, using(crate::proofs::Sizes::sizes), unfolding(crate::specs::Results::entry3))]
fn put_entry(writer: &mut Writer<'_>, entry: &ListedEntry) -> Result<(), NoRoom>
    requires { length entry.now.name < 2 ^ 32 }
    ensures fits { length (encoded.entry3 entry.now) ≤ room_of writer.old → IsOk result }
    ensures written { OnOk result (written_of writer.new ≡ written_of writer.old ++ encoded.entry3 entry.now) }
    ensures room { OnOk result (room_of writer.new + length (encoded.entry3 entry.now) ≡ room_of writer.old) }
    ensures same_buffer { name_of writer.new ≡ name_of writer.old }
{
    writer.put_bool(true)?;
    writer.put_u64(entry.fileid)?;
    writer.put_opaque(entry.name.as_slice())?;
    writer.put_u64(entry.cookie)
}

/// How many bytes that is.
#[tactic(auto, using(crate::proofs::Sizes::sizes), unfolding(crate::specs::Results::entry3))]
fn entry_length(entry: &ListedEntry) -> usize
    requires { length (encoded.entry3 entry.now) < 2 ^ 64 }
    ensures { result ≡ length (encoded.entry3 entry.now) }
{
    20 + opaque_length(entry.name.as_slice())
}

/// Writes an entry of READDIRPLUS, behind that one follows.
#[tactic(auto, using(crate::proofs::Sizes::sizes), unfolding(crate::specs::Results::entryplus3))]
fn put_entry_plus(writer: &mut Writer<'_>, entry: &ListedEntryPlus) -> Result<(), NoRoom>
    requires { length entry.now.entry.name < 2 ^ 32 }
    ensures fits { length (encoded.entryplus3 entry.now) ≤ room_of writer.old → IsOk result }
    ensures written { OnOk result (written_of writer.new ≡ written_of writer.old ++ encoded.entryplus3 entry.now) }
    ensures room { OnOk result (room_of writer.new + length (encoded.entryplus3 entry.now) ≡ room_of writer.old) }
    ensures same_buffer { name_of writer.new ≡ name_of writer.old }
{
    put_entry(writer, &entry.entry)?;
    put_post_op_attr(writer, &entry.attributes)?;
    put_post_op_handle(writer, entry.handle)
}

/// How many bytes that is.
#[tactic(auto, using(crate::proofs::Sizes::sizes), unfolding(crate::specs::Results::entryplus3))]
fn entry_plus_length(entry: &ListedEntryPlus) -> usize
    requires { length (encoded.entryplus3 entry.now) < 2 ^ 64 }
    ensures { result ≡ length (encoded.entryplus3 entry.now) }
{
    entry_length(&entry.entry) + post_op_attr_length(&entry.attributes) + 24
}

/// Writes entries of READDIR.
#[tactic(auto, using(crate::proofs::Sizes::sizes))]
fn put_entries(writer: &mut Writer<'_>, entries: &[ListedEntry]) -> Result<(), NoRoom>
    requires { length (flat_map encoded.entry3 entries.now) < 2 ^ 32 }
    ensures fits { length (flat_map encoded.entry3 entries.now) ≤ room_of writer.old → IsOk result }
    ensures written { OnOk result (written_of writer.new ≡ written_of writer.old ++ flat_map encoded.entry3 entries.now) }
    ensures room { OnOk result (room_of writer.new + length (flat_map encoded.entry3 entries.now) ≡ room_of writer.old) }
    ensures same_buffer { name_of writer.new ≡ name_of writer.old }
{
    for entry in entries {
        put_entry(writer, entry)?;
    }
    Ok(())
}

/// How many bytes they are.
#[tactic(auto, using(crate::proofs::Sizes::sizes))]
fn entries_length(entries: &[ListedEntry]) -> usize
    requires { length (flat_map encoded.entry3 entries.now) < 2 ^ 64 }
    ensures { result ≡ length (flat_map encoded.entry3 entries.now) }
{
    let mut sum = 0;
    for entry in entries {
        sum += entry_length(entry);
    }
    sum
}

/// Whether they have fewer than 2^32 bytes.
fn entries_are_short(entries: &[ListedEntry]) -> bool
    ensures { IsTrue result ↔ (length (flat_map encoded.entry3 entries.now) < 2 ^ 32) }
{
    let mut sum = 0;
    for entry in entries {
        let name = entry.name.as_slice();
        if name.len() >= TOO_LONG {
            return false;
        }
        sum += entry_length(entry);
        if sum >= TOO_LONG {
            return false;
        }
    }
    true
}

/// Writes entries of READDIRPLUS.
#[tactic(auto, using(crate::proofs::Sizes::sizes))]
fn put_entries_plus(writer: &mut Writer<'_>, entries: &[ListedEntryPlus]) -> Result<(), NoRoom>
    requires { length (flat_map encoded.entryplus3 entries.now) < 2 ^ 32 }
    ensures fits { length (flat_map encoded.entryplus3 entries.now) ≤ room_of writer.old → IsOk result }
    ensures written { OnOk result (written_of writer.new ≡ written_of writer.old ++ flat_map encoded.entryplus3 entries.now) }
    ensures room { OnOk result (room_of writer.new + length (flat_map encoded.entryplus3 entries.now) ≡ room_of writer.old) }
    ensures same_buffer { name_of writer.new ≡ name_of writer.old }
{
    for entry in entries {
        put_entry_plus(writer, entry)?;
    }
    Ok(())
}

/// How many bytes they are.
#[tactic(auto, using(crate::proofs::Sizes::sizes))]
fn entries_plus_length(entries: &[ListedEntryPlus]) -> usize
    requires { length (flat_map encoded.entryplus3 entries.now) < 2 ^ 64 }
    ensures { result ≡ length (flat_map encoded.entryplus3 entries.now) }
{
    let mut sum = 0;
    for entry in entries {
        sum += entry_plus_length(entry);
    }
    sum
}

/// Whether they have fewer than 2^32 bytes.
fn entries_plus_are_short(entries: &[ListedEntryPlus]) -> bool
    ensures { IsTrue result ↔ (length (flat_map encoded.entryplus3 entries.now) < 2 ^ 32) }
{
    let mut sum = 0;
    for entry in entries {
        let name = entry.entry.name.as_slice();
        if name.len() >= TOO_LONG {
            return false;
        }
        sum += entry_plus_length(entry);
        if sum >= TOO_LONG {
            return false;
        }
    }
    true
}

/// Writes that no entry follows, and whether the listing ends here.
#[tactic(auto, using(crate::proofs::Sizes::sizes))]
fn put_page_end(writer: &mut Writer<'_>, eof: bool) -> Result<(), NoRoom>
    ensures fits { length (bool false ++ bool eof) ≤ room_of writer.old → IsOk result }
    ensures written { OnOk result (written_of writer.new ≡ written_of writer.old ++ bool false ++ bool eof) }
    ensures room { OnOk result (room_of writer.new + length (bool false ++ bool eof) ≡ room_of writer.old) }
    ensures same_buffer { name_of writer.new ≡ name_of writer.old }
{
    writer.put_bool(false)?;
    writer.put_bool(eof)
}

/// Writes the results of READDIR (section 3.3.16).
#[tactic(auto, using(crate::proofs::Sizes::sizes), unfolding(crate::specs::Results::readdir_ok))]
pub(crate) fn put_readdir(writer: &mut Writer<'_>, r: &ReadDirOk) -> Result<(), NoRoom>
    requires { length (encoded.readdir_ok r.now) < 2 ^ 32 }
    ensures fits { length (nfsstat3 None ++ encoded.readdir_ok r.now) ≤ room_of writer.old → IsOk result }
    ensures written { OnOk result (written_of writer.new ≡ written_of writer.old ++ nfsstat3 None ++ encoded.readdir_ok r.now) }
    ensures room { OnOk result (room_of writer.new + length (nfsstat3 None ++ encoded.readdir_ok r.now) ≡ room_of writer.old) }
    ensures same_buffer { name_of writer.new ≡ name_of writer.old }
{
    put_ok(writer)?;
    put_post_op_attr(writer, &r.directory)?;
    writer.put_u64(COOKIE_VERIFIER)?;
    put_entries(writer, r.entries.as_slice())?;
    put_page_end(writer, r.eof)
}

/// How many bytes they are behind the status.
#[tactic(auto, using(crate::proofs::Sizes::sizes), unfolding(crate::specs::Results::readdir_ok))]
pub(crate) fn readdir_length(r: &ReadDirOk) -> usize
    requires { length (encoded.readdir_ok r.now) < 2 ^ 64 }
    ensures { result ≡ length (encoded.readdir_ok r.now) }
{
    post_op_attr_length(&r.directory) + 16 + entries_length(r.entries.as_slice())
}

/// Whether they, with the status, have fewer than 2^32 bytes.
#[tactic(auto, using(crate::proofs::Sizes::sizes), unfolding(crate::specs::Results::readdir_ok))]
pub(crate) fn readdir_is_short(r: &ReadDirOk) -> bool
    ensures { IsTrue result ↔ (4 + length (encoded.readdir_ok r.now) < 2 ^ 32) }
{
    if !entries_are_short(r.entries.as_slice()) {
        return false;
    }
    4 + readdir_length(r) < TOO_LONG
}

/// Writes the results of READDIRPLUS (section 3.3.17).
#[tactic(auto, using(crate::proofs::Sizes::sizes), unfolding(crate::specs::Results::readdirplus_ok))]
pub(crate) fn put_readdirplus(writer: &mut Writer<'_>, r: &ReadDirPlusOk) -> Result<(), NoRoom>
    requires { length (encoded.readdirplus_ok r.now) < 2 ^ 32 }
    ensures fits { length (nfsstat3 None ++ encoded.readdirplus_ok r.now) ≤ room_of writer.old → IsOk result }
    ensures written { OnOk result (written_of writer.new ≡ written_of writer.old ++ nfsstat3 None ++ encoded.readdirplus_ok r.now) }
    ensures room { OnOk result (room_of writer.new + length (nfsstat3 None ++ encoded.readdirplus_ok r.now) ≡ room_of writer.old) }
    ensures same_buffer { name_of writer.new ≡ name_of writer.old }
{
    put_ok(writer)?;
    put_post_op_attr(writer, &r.directory)?;
    writer.put_u64(COOKIE_VERIFIER)?;
    put_entries_plus(writer, r.entries.as_slice())?;
    put_page_end(writer, r.eof)
}

/// How many bytes they are behind the status.
#[tactic(auto, using(crate::proofs::Sizes::sizes), unfolding(crate::specs::Results::readdirplus_ok))]
pub(crate) fn readdirplus_length(r: &ReadDirPlusOk) -> usize
    requires { length (encoded.readdirplus_ok r.now) < 2 ^ 64 }
    ensures { result ≡ length (encoded.readdirplus_ok r.now) }
{
    post_op_attr_length(&r.directory) + 16 + entries_plus_length(r.entries.as_slice())
}

/// Whether they, with the status, have fewer than 2^32 bytes.
#[tactic(auto, using(crate::proofs::Sizes::sizes), unfolding(crate::specs::Results::readdirplus_ok))]
pub(crate) fn readdirplus_is_short(r: &ReadDirPlusOk) -> bool
    ensures { IsTrue result ↔ (4 + length (encoded.readdirplus_ok r.now) < 2 ^ 32) }
{
    if !entries_plus_are_short(r.entries.as_slice()) {
        return false;
    }
    4 + readdirplus_length(r) < TOO_LONG
}
