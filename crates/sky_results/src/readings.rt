//! The results of procedures that read are written, each behind NFS3_OK (RFC 1813 section 3.3).

ghost use Rattle.std.specs.Prelude.{◌≡◌, ◌+◌, ◌^◌, ◌<◌, ◌≤◌, ◌++◌, ◌↔◌, length, IsTrue, IsOk, OnOk, None};
ghost use Rattle.sky_xdr.specs.Encoding.{bool as boolean, uint, uhyper};
ghost use Rattle.sky_xdr.specs.Writing.{written_of, room_of, name_of};
ghost use Rattle.sky_results.specs.Answers.{nfsstat3};
ghost use Rattle.sky_results.specs.Attributes.{fattr3, nfstime3};
ghost use Rattle.sky_results.specs.Results as encoded;

use crate::attributes::{post_op_attr_length, put_attr, put_handle, put_moment, put_post_op_attr};
use crate::status::{TOO_LONG, put_ok};
use sky_base::Attr;
use sky_nfs::{AccessOk, FsInfoOk, FsStatOk, LookupOk, PathConfOk, ReadLinkOk, ReadOk};
use sky_xdr::{NoRoom, Writer, opaque_length};

/// Writes the results of GETATTR, 88 bytes (section 3.3.1).
#[tactic(auto, using(crate::proofs::Sizes::sizes))]
pub(crate) fn put_getattr(writer: &mut Writer<'_>, a: &Attr) -> Result<(), NoRoom>
    ensures fits { length (nfsstat3 None ++ fattr3 a.now) ≤ room_of writer.old → IsOk result }
    ensures written { OnOk result (written_of writer.new ≡ written_of writer.old ++ nfsstat3 None ++ fattr3 a.now) }
    ensures room { OnOk result (room_of writer.new + length (nfsstat3 None ++ fattr3 a.now) ≡ room_of writer.old) }
    ensures same_buffer { name_of writer.new ≡ name_of writer.old }
{
    put_ok(writer)?;
    put_attr(writer, a)
}

/// Writes the results of LOOKUP (section 3.3.3).
#[tactic(auto, using(crate::proofs::Sizes::sizes), unfolding(crate::specs::Results::lookup_ok))]
pub(crate) fn put_lookup(writer: &mut Writer<'_>, r: &LookupOk) -> Result<(), NoRoom>
    ensures fits { length (nfsstat3 None ++ encoded.lookup_ok r.now) ≤ room_of writer.old → IsOk result }
    ensures written { OnOk result (written_of writer.new ≡ written_of writer.old ++ nfsstat3 None ++ encoded.lookup_ok r.now) }
    ensures room { OnOk result (room_of writer.new + length (nfsstat3 None ++ encoded.lookup_ok r.now) ≡ room_of writer.old) }
    ensures same_buffer { name_of writer.new ≡ name_of writer.old }
{
    put_ok(writer)?;
    put_handle(writer, r.handle)?;
    put_post_op_attr(writer, &r.object)?;
    put_post_op_attr(writer, &r.directory)
}

/// How many bytes they are behind the status.
#[tactic(auto, using(crate::proofs::Sizes::sizes), unfolding(crate::specs::Results::lookup_ok))]
pub(crate) fn lookup_length(r: &LookupOk) -> usize
    ensures { result ≡ length (encoded.lookup_ok r.now) }
{
    20 + post_op_attr_length(&r.object) + post_op_attr_length(&r.directory)
}

/// Writes the results of ACCESS (section 3.3.4).
#[tactic(auto, using(crate::proofs::Sizes::sizes), unfolding(crate::specs::Results::access_ok))]
pub(crate) fn put_access(writer: &mut Writer<'_>, r: &AccessOk) -> Result<(), NoRoom>
    ensures fits { length (nfsstat3 None ++ encoded.access_ok r.now) ≤ room_of writer.old → IsOk result }
    ensures written { OnOk result (written_of writer.new ≡ written_of writer.old ++ nfsstat3 None ++ encoded.access_ok r.now) }
    ensures room { OnOk result (room_of writer.new + length (nfsstat3 None ++ encoded.access_ok r.now) ≡ room_of writer.old) }
    ensures same_buffer { name_of writer.new ≡ name_of writer.old }
{
    put_ok(writer)?;
    put_post_op_attr(writer, &r.object)?;
    writer.put_u32(r.rights)
}

/// How many bytes they are behind the status.
#[tactic(auto, using(crate::proofs::Sizes::sizes), unfolding(crate::specs::Results::access_ok))]
pub(crate) fn access_length(r: &AccessOk) -> usize
    ensures { result ≡ length (encoded.access_ok r.now) }
{
    post_op_attr_length(&r.object) + 4
}

/// Writes the results of READLINK (section 3.3.5).
#[tactic(auto, using(crate::proofs::Sizes::opaque_sizes), unfolding(crate::specs::Results::readlink_ok))]
pub(crate) fn put_readlink(writer: &mut Writer<'_>, r: &ReadLinkOk) -> Result<(), NoRoom>
    requires { length (encoded.readlink_ok r.now) < 2 ^ 32 }
    ensures fits { length (nfsstat3 None ++ encoded.readlink_ok r.now) ≤ room_of writer.old → IsOk result }
    ensures written { OnOk result (written_of writer.new ≡ written_of writer.old ++ nfsstat3 None ++ encoded.readlink_ok r.now) }
    ensures room { OnOk result (room_of writer.new + length (nfsstat3 None ++ encoded.readlink_ok r.now) ≡ room_of writer.old) }
    ensures same_buffer { name_of writer.new ≡ name_of writer.old }
{
    put_ok(writer)?;
    put_post_op_attr(writer, &r.link)?;
    writer.put_opaque(r.text.as_slice())
}

/// How many bytes they are behind the status.
#[tactic(auto, using(crate::proofs::Sizes::sizes), unfolding(crate::specs::Results::readlink_ok))]
pub(crate) fn readlink_length(r: &ReadLinkOk) -> usize
    requires { length (encoded.readlink_ok r.now) < 2 ^ 64 }
    ensures { result ≡ length (encoded.readlink_ok r.now) }
{
    post_op_attr_length(&r.link) + opaque_length(r.text.as_slice())
}

/// Whether they, with the status, have fewer than 2^32 bytes.
#[tactic(auto, using(crate::proofs::Sizes::opaque_sizes), unfolding(crate::specs::Results::readlink_ok))]
pub(crate) fn readlink_is_short(r: &ReadLinkOk) -> bool
    ensures { IsTrue result ↔ (4 + length (encoded.readlink_ok r.now) < 2 ^ 32) }
{
    let text = r.text.as_slice();
    if text.len() >= TOO_LONG {
        return false;
    }
    4 + readlink_length(r) < TOO_LONG
}

/// Writes the results of READ (section 3.3.6).
#[tactic(auto, using(crate::proofs::Sizes::opaque_sizes), unfolding(crate::specs::Results::read_ok))]
pub(crate) fn put_read(writer: &mut Writer<'_>, r: &ReadOk) -> Result<(), NoRoom>
    requires { length (encoded.read_ok r.now) < 2 ^ 32 }
    ensures fits { length (nfsstat3 None ++ encoded.read_ok r.now) ≤ room_of writer.old → IsOk result }
    ensures written { OnOk result (written_of writer.new ≡ written_of writer.old ++ nfsstat3 None ++ encoded.read_ok r.now) }
    ensures room { OnOk result (room_of writer.new + length (nfsstat3 None ++ encoded.read_ok r.now) ≡ room_of writer.old) }
    ensures same_buffer { name_of writer.new ≡ name_of writer.old }
{
    let data = r.data.as_slice();
    put_ok(writer)?;
    put_post_op_attr(writer, &r.file)?;
    writer.put_u32(data.len() as u32)?;
    writer.put_bool(r.eof)?;
    writer.put_opaque(data)
}

/// How many bytes they are behind the status.
#[tactic(auto, using(crate::proofs::Sizes::sizes), unfolding(crate::specs::Results::read_ok))]
pub(crate) fn read_length(r: &ReadOk) -> usize
    requires { length (encoded.read_ok r.now) < 2 ^ 64 }
    ensures { result ≡ length (encoded.read_ok r.now) }
{
    post_op_attr_length(&r.file) + 8 + opaque_length(r.data.as_slice())
}

/// Whether they, with the status, have fewer than 2^32 bytes.
#[tactic(auto, using(crate::proofs::Sizes::opaque_sizes), unfolding(crate::specs::Results::read_ok))]
pub(crate) fn read_is_short(r: &ReadOk) -> bool
    ensures { IsTrue result ↔ (4 + length (encoded.read_ok r.now) < 2 ^ 32) }
{
    let data = r.data.as_slice();
    if data.len() >= TOO_LONG {
        return false;
    }
    4 + read_length(r) < TOO_LONG
}

/// Writes three numbers: how many there may be, how many are left, and how many of them to this caller, 24 bytes.
#[tactic(auto, using(crate::proofs::Sizes::sizes))]
fn put_space(writer: &mut Writer<'_>, total: u64, free: u64, available: u64) -> Result<(), NoRoom>
    ensures fits { 24 ≤ room_of writer.old → IsOk result }
    ensures written { OnOk result (written_of writer.new ≡ written_of writer.old ++ uhyper total ++ uhyper free ++ uhyper available) }
    ensures room { OnOk result (room_of writer.new + 24 ≡ room_of writer.old) }
    ensures same_buffer { name_of writer.new ≡ name_of writer.old }
{
    writer.put_u64(total)?;
    writer.put_u64(free)?;
    writer.put_u64(available)
}

/// Writes the results of FSSTAT (section 3.3.18).
#[tactic(auto, using(crate::proofs::Sizes::sizes), unfolding(crate::specs::Results::fsstat_ok))]
pub(crate) fn put_fsstat(writer: &mut Writer<'_>, r: &FsStatOk) -> Result<(), NoRoom>
    ensures fits { length (nfsstat3 None ++ encoded.fsstat_ok r.now) ≤ room_of writer.old → IsOk result }
    ensures written { OnOk result (written_of writer.new ≡ written_of writer.old ++ nfsstat3 None ++ encoded.fsstat_ok r.now) }
    ensures room { OnOk result (room_of writer.new + length (nfsstat3 None ++ encoded.fsstat_ok r.now) ≡ room_of writer.old) }
    ensures same_buffer { name_of writer.new ≡ name_of writer.old }
{
    put_ok(writer)?;
    put_post_op_attr(writer, &r.root)?;
    put_space(writer, r.total_bytes, r.free_bytes, r.available_bytes)?;
    put_space(writer, r.total_files, r.free_files, r.available_files)?;
    writer.put_u32(r.invariant_seconds)
}

/// How many bytes they are behind the status.
#[tactic(auto, using(crate::proofs::Sizes::sizes), unfolding(crate::specs::Results::fsstat_ok))]
pub(crate) fn fsstat_length(r: &FsStatOk) -> usize
    ensures { result ≡ length (encoded.fsstat_ok r.now) }
{
    post_op_attr_length(&r.root) + 52
}

/// Writes three sizes of a call: the greatest, the one preferred, and the one that it is best a multiple of, 12 bytes.
#[tactic(auto, using(crate::proofs::Sizes::sizes))]
fn put_transfer(
    writer: &mut Writer<'_>,
    most: u32,
    preferred: u32,
    multiple: u32,
) -> Result<(), NoRoom>
    ensures fits { 12 ≤ room_of writer.old → IsOk result }
    ensures written { OnOk result (written_of writer.new ≡ written_of writer.old ++ uint most ++ uint preferred ++ uint multiple) }
    ensures room { OnOk result (room_of writer.new + 12 ≡ room_of writer.old) }
    ensures same_buffer { name_of writer.new ≡ name_of writer.old }
{
    writer.put_u32(most)?;
    writer.put_u32(preferred)?;
    writer.put_u32(multiple)
}

/// Writes what FSINFO says behind the sizes of a READ and of a WRITE, 24 bytes.
#[tactic(auto, using(crate::proofs::Sizes::sizes))]
fn put_limits(writer: &mut Writer<'_>, r: &FsInfoOk) -> Result<(), NoRoom>
    ensures fits { 24 ≤ room_of writer.old → IsOk result }
    ensures written { OnOk result (written_of writer.new ≡ written_of writer.old ++ uint r.now.directory_preferred ++ uhyper r.now.max_file_size ++ nfstime3 r.now.time_delta ++ uint r.now.properties) }
    ensures room { OnOk result (room_of writer.new + 24 ≡ room_of writer.old) }
    ensures same_buffer { name_of writer.new ≡ name_of writer.old }
{
    writer.put_u32(r.directory_preferred)?;
    writer.put_u64(r.max_file_size)?;
    put_moment(writer, r.time_delta)?;
    writer.put_u32(r.properties)
}

/// Writes the results of FSINFO (section 3.3.19).
#[tactic(auto, using(crate::proofs::Sizes::sizes), unfolding(crate::specs::Results::fsinfo_ok))]
pub(crate) fn put_fsinfo(writer: &mut Writer<'_>, r: &FsInfoOk) -> Result<(), NoRoom>
    ensures fits { length (nfsstat3 None ++ encoded.fsinfo_ok r.now) ≤ room_of writer.old → IsOk result }
    ensures written { OnOk result (written_of writer.new ≡ written_of writer.old ++ nfsstat3 None ++ encoded.fsinfo_ok r.now) }
    ensures room { OnOk result (room_of writer.new + length (nfsstat3 None ++ encoded.fsinfo_ok r.now) ≡ room_of writer.old) }
    ensures same_buffer { name_of writer.new ≡ name_of writer.old }
{
    put_ok(writer)?;
    put_post_op_attr(writer, &r.root)?;
    put_transfer(writer, r.read_max, r.read_preferred, r.read_multiple)?;
    put_transfer(writer, r.write_max, r.write_preferred, r.write_multiple)?;
    put_limits(writer, r)
}

/// How many bytes they are behind the status.
#[tactic(auto, using(crate::proofs::Sizes::sizes), unfolding(crate::specs::Results::fsinfo_ok))]
pub(crate) fn fsinfo_length(r: &FsInfoOk) -> usize
    ensures { result ≡ length (encoded.fsinfo_ok r.now) }
{
    post_op_attr_length(&r.root) + 48
}

/// Writes what PATHCONF says of names and owners, 16 bytes (section 3.3.20).
fn put_name_rules(writer: &mut Writer<'_>, r: &PathConfOk) -> Result<(), NoRoom>
    ensures fits { 16 ≤ room_of writer.old → IsOk result }
    ensures written { OnOk result (written_of writer.new ≡ written_of writer.old ++ boolean r.now.no_truncation
        ++ boolean r.now.chown_restricted ++ boolean r.now.case_insensitive ++ boolean r.now.case_preserving) }
    ensures room { OnOk result (room_of writer.new + 16 ≡ room_of writer.old) }
    ensures same_buffer { name_of writer.new ≡ name_of writer.old }
{
    writer.put_bool(r.no_truncation)?;
    writer.put_bool(r.chown_restricted)?;
    writer.put_bool(r.case_insensitive)?;
    writer.put_bool(r.case_preserving)
}

/// Writes how many links and how long names may be, and what PATHCONF says of names and owners, 24 bytes.
#[tactic(auto, using(crate::proofs::Sizes::sizes))]
fn put_path_limits(writer: &mut Writer<'_>, r: &PathConfOk) -> Result<(), NoRoom>
    ensures fits { 24 ≤ room_of writer.old → IsOk result }
    ensures written { OnOk result (written_of writer.new ≡ written_of writer.old ++ uint r.now.link_max ++ uint r.now.name_max ++ boolean r.now.no_truncation
        ++ boolean r.now.chown_restricted ++ boolean r.now.case_insensitive ++ boolean r.now.case_preserving) }
    ensures room { OnOk result (room_of writer.new + 24 ≡ room_of writer.old) }
    ensures same_buffer { name_of writer.new ≡ name_of writer.old }
{
    writer.put_u32(r.link_max)?;
    writer.put_u32(r.name_max)?;
    put_name_rules(writer, r)
}

/// Writes the results of PATHCONF (section 3.3.20).
#[tactic(auto, using(crate::proofs::Sizes::sizes), unfolding(crate::specs::Results::pathconf_ok))]
pub(crate) fn put_pathconf(writer: &mut Writer<'_>, r: &PathConfOk) -> Result<(), NoRoom>
    ensures fits { length (nfsstat3 None ++ encoded.pathconf_ok r.now) ≤ room_of writer.old → IsOk result }
    ensures written { OnOk result (written_of writer.new ≡ written_of writer.old ++ nfsstat3 None ++ encoded.pathconf_ok r.now) }
    ensures room { OnOk result (room_of writer.new + length (nfsstat3 None ++ encoded.pathconf_ok r.now) ≡ room_of writer.old) }
    ensures same_buffer { name_of writer.new ≡ name_of writer.old }
{
    put_ok(writer)?;
    put_post_op_attr(writer, &r.object)?;
    put_path_limits(writer, r)
}

/// How many bytes they are behind the status.
#[tactic(auto, using(crate::proofs::Sizes::sizes), unfolding(crate::specs::Results::pathconf_ok))]
pub(crate) fn pathconf_length(r: &PathConfOk) -> usize
    ensures { result ≡ length (encoded.pathconf_ok r.now) }
{
    post_op_attr_length(&r.object) + 24
}
