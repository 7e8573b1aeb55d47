//! The results of procedures that change the tree, or make changes stable, are written, each behind NFS3_OK (RFC 1813
//! section 3.3).

ghost use Rattle.std.specs.Prelude.{◌≡◌, ◌+◌, ◌≤◌, ◌++◌, length, IsOk, OnOk, Some, None};
ghost use Rattle.sky_xdr.specs.Writing.{written_of, room_of, name_of};
ghost use Rattle.sky_results.specs.Answers.{nfsstat3, refused};
ghost use Rattle.sky_results.specs.Results as encoded;
ghost use Rattle.sky_results.specs.Wcc.{wcc_data};

use crate::attributes::{post_op_attr_length, put_post_op_attr, put_post_op_handle};
use crate::status::{put_ok, put_status};
use crate::wcc::{put_wcc_data, wcc_data_length};
use sky_nfs::{CommitOk, CreateOk, LinkResults, Refused, RenameResults, WccData, WriteOk};
use sky_xdr::{NoRoom, Writer};

/// What was written may still be lost (`stable_how`, section 3.3.7).
const UNSTABLE: u32 = 0;

/// What was written is stable, and so are the attributes.
const FILE_SYNC: u32 = 2;

/// Writes the results of a change that tells one object before and after: SETATTR, REMOVE and RMDIR (sections 3.3.2,
/// 3.3.12 and 3.3.13).
#[tactic(auto, using(crate::proofs::Sizes::sizes))]
pub(crate) fn put_changed(writer: &mut Writer<'_>, w: &WccData) -> Result<(), NoRoom>
    ensures fits { length (nfsstat3 None ++ wcc_data w.now) ≤ room_of writer.old → IsOk result }
    ensures written { OnOk result (written_of writer.new ≡ written_of writer.old ++ nfsstat3 None ++ wcc_data w.now) }
    ensures room { OnOk result (room_of writer.new + length (nfsstat3 None ++ wcc_data w.now) ≡ room_of writer.old) }
    ensures same_buffer { name_of writer.new ≡ name_of writer.old }
{
    put_ok(writer)?;
    put_wcc_data(writer, w)
}

/// The number that tells whether what was written is stable.
fn stable_how(committed: bool) -> u32
    ensures { result ≡ encoded.stable_how committed }
{
    if committed { FILE_SYNC } else { UNSTABLE }
}

/// Writes the results of WRITE (section 3.3.7).
#[tactic(auto, using(crate::proofs::Sizes::sizes), unfolding(crate::specs::Results::write_ok))]
pub(crate) fn put_write(writer: &mut Writer<'_>, r: &WriteOk) -> Result<(), NoRoom>
    ensures fits { length (nfsstat3 None ++ encoded.write_ok r.now) ≤ room_of writer.old → IsOk result }
    ensures written { OnOk result (written_of writer.new ≡ written_of writer.old ++ nfsstat3 None ++ encoded.write_ok r.now) }
    ensures room { OnOk result (room_of writer.new + length (nfsstat3 None ++ encoded.write_ok r.now) ≡ room_of writer.old) }
    ensures same_buffer { name_of writer.new ≡ name_of writer.old }
{
    put_ok(writer)?;
    put_wcc_data(writer, &r.file)?;
    writer.put_u32(r.count)?;
    writer.put_u32(stable_how(r.committed))?;
    writer.put_u64(r.verifier)
}

/// How many bytes they are behind the status.
#[tactic(auto, using(crate::proofs::Sizes::sizes), unfolding(crate::specs::Results::write_ok))]
pub(crate) fn write_length(r: &WriteOk) -> usize
    ensures { result ≡ length (encoded.write_ok r.now) }
{
    wcc_data_length(&r.file) + 16
}

/// Writes the results of CREATE, MKDIR and SYMLINK (sections 3.3.8 to 3.3.10).
#[tactic(auto, using(crate::proofs::Sizes::sizes), unfolding(crate::specs::Results::create_ok))]
pub(crate) fn put_create(writer: &mut Writer<'_>, r: &CreateOk) -> Result<(), NoRoom>
    ensures fits { length (nfsstat3 None ++ encoded.create_ok r.now) ≤ room_of writer.old → IsOk result }
    ensures written { OnOk result (written_of writer.new ≡ written_of writer.old ++ nfsstat3 None ++ encoded.create_ok r.now) }
    ensures room { OnOk result (room_of writer.new + length (nfsstat3 None ++ encoded.create_ok r.now) ≡ room_of writer.old) }
    ensures same_buffer { name_of writer.new ≡ name_of writer.old }
{
    put_ok(writer)?;
    put_post_op_handle(writer, r.handle)?;
    put_post_op_attr(writer, &r.object)?;
    put_wcc_data(writer, &r.directory)
}

/// How many bytes they are behind the status.
#[tactic(auto, using(crate::proofs::Sizes::sizes), unfolding(crate::specs::Results::create_ok))]
pub(crate) fn create_length(r: &CreateOk) -> usize
    ensures { result ≡ length (encoded.create_ok r.now) }
{
    24 + post_op_attr_length(&r.object) + wcc_data_length(&r.directory)
}

/// Writes the two directories of RENAME (section 3.3.14).
#[tactic(auto, using(crate::proofs::Sizes::sizes), unfolding(crate::specs::Results::rename_results))]
fn put_directories(writer: &mut Writer<'_>, r: &RenameResults) -> Result<(), NoRoom>
    ensures fits { length (encoded.rename_results r.now) ≤ room_of writer.old → IsOk result }
    ensures written { OnOk result (written_of writer.new ≡ written_of writer.old ++ encoded.rename_results r.now) }
    ensures room { OnOk result (room_of writer.new + length (encoded.rename_results r.now) ≡ room_of writer.old) }
    ensures same_buffer { name_of writer.new ≡ name_of writer.old }
{
    put_wcc_data(writer, &r.from)?;
    put_wcc_data(writer, &r.to)
}

/// Writes the results of RENAME.
#[tactic(auto, using(crate::proofs::Sizes::sizes))]
pub(crate) fn put_rename(writer: &mut Writer<'_>, r: &RenameResults) -> Result<(), NoRoom>
    ensures fits { length (nfsstat3 None ++ encoded.rename_results r.now) ≤ room_of writer.old → IsOk result }
    ensures written { OnOk result (written_of writer.new ≡ written_of writer.old ++ nfsstat3 None ++ encoded.rename_results r.now) }
    ensures room { OnOk result (room_of writer.new + length (nfsstat3 None ++ encoded.rename_results r.now) ≡ room_of writer.old) }
    ensures same_buffer { name_of writer.new ≡ name_of writer.old }
{
    put_ok(writer)?;
    put_directories(writer, r)
}

/// Writes the refusal of RENAME.
#[tactic(auto, using(crate::proofs::Sizes::sizes))]
pub(crate) fn put_refused_rename(
    writer: &mut Writer<'_>,
    e: &Refused<RenameResults>,
) -> Result<(), NoRoom>
    ensures fits { length (refused encoded.rename_results e.now) ≤ room_of writer.old → IsOk result }
    ensures written { OnOk result (written_of writer.new ≡ written_of writer.old ++ refused encoded.rename_results e.now) }
    ensures room { OnOk result (room_of writer.new + length (refused encoded.rename_results e.now) ≡ room_of writer.old) }
    ensures same_buffer { name_of writer.new ≡ name_of writer.old }
{
    put_status(writer, e.status)?;
    put_directories(writer, &e.attributes)
}

/// How many bytes either has behind the status.
#[tactic(auto, using(crate::proofs::Sizes::sizes), unfolding(crate::specs::Results::rename_results))]
pub(crate) fn rename_length(r: &RenameResults) -> usize
    ensures { result ≡ length (encoded.rename_results r.now) }
{
    wcc_data_length(&r.from) + wcc_data_length(&r.to)
}

/// Writes the file and the directory of LINK (section 3.3.15).
#[tactic(auto, using(crate::proofs::Sizes::sizes), unfolding(crate::specs::Results::link_results))]
fn put_file_and_directory(writer: &mut Writer<'_>, r: &LinkResults) -> Result<(), NoRoom>
    ensures fits { length (encoded.link_results r.now) ≤ room_of writer.old → IsOk result }
    ensures written { OnOk result (written_of writer.new ≡ written_of writer.old ++ encoded.link_results r.now) }
    ensures room { OnOk result (room_of writer.new + length (encoded.link_results r.now) ≡ room_of writer.old) }
    ensures same_buffer { name_of writer.new ≡ name_of writer.old }
{
    put_post_op_attr(writer, &r.file)?;
    put_wcc_data(writer, &r.directory)
}

/// Writes the results of LINK.
#[tactic(auto, using(crate::proofs::Sizes::sizes))]
pub(crate) fn put_link(writer: &mut Writer<'_>, r: &LinkResults) -> Result<(), NoRoom>
    ensures fits { length (nfsstat3 None ++ encoded.link_results r.now) ≤ room_of writer.old → IsOk result }
    ensures written { OnOk result (written_of writer.new ≡ written_of writer.old ++ nfsstat3 None ++ encoded.link_results r.now) }
    ensures room { OnOk result (room_of writer.new + length (nfsstat3 None ++ encoded.link_results r.now) ≡ room_of writer.old) }
    ensures same_buffer { name_of writer.new ≡ name_of writer.old }
{
    put_ok(writer)?;
    put_file_and_directory(writer, r)
}

/// Writes the refusal of LINK.
#[tactic(auto, using(crate::proofs::Sizes::sizes))]
pub(crate) fn put_refused_link(
    writer: &mut Writer<'_>,
    e: &Refused<LinkResults>,
) -> Result<(), NoRoom>
    ensures fits { length (refused encoded.link_results e.now) ≤ room_of writer.old → IsOk result }
    ensures written { OnOk result (written_of writer.new ≡ written_of writer.old ++ refused encoded.link_results e.now) }
    ensures room { OnOk result (room_of writer.new + length (refused encoded.link_results e.now) ≡ room_of writer.old) }
    ensures same_buffer { name_of writer.new ≡ name_of writer.old }
{
    put_status(writer, e.status)?;
    put_file_and_directory(writer, &e.attributes)
}

/// How many bytes either has behind the status.
#[tactic(auto, using(crate::proofs::Sizes::sizes), unfolding(crate::specs::Results::link_results))]
pub(crate) fn link_length(r: &LinkResults) -> usize
    ensures { result ≡ length (encoded.link_results r.now) }
{
    post_op_attr_length(&r.file) + wcc_data_length(&r.directory)
}

/// Writes the results of COMMIT (section 3.3.21).
#[tactic(auto, using(crate::proofs::Sizes::sizes), unfolding(crate::specs::Results::commit_ok))]
pub(crate) fn put_commit(writer: &mut Writer<'_>, r: &CommitOk) -> Result<(), NoRoom>
    ensures fits { length (nfsstat3 None ++ encoded.commit_ok r.now) ≤ room_of writer.old → IsOk result }
    ensures written { OnOk result (written_of writer.new ≡ written_of writer.old ++ nfsstat3 None ++ encoded.commit_ok r.now) }
    ensures room { OnOk result (room_of writer.new + length (nfsstat3 None ++ encoded.commit_ok r.now) ≡ room_of writer.old) }
    ensures same_buffer { name_of writer.new ≡ name_of writer.old }
{
    put_ok(writer)?;
    put_wcc_data(writer, &r.file)?;
    writer.put_u64(r.verifier)
}

/// How many bytes they are behind the status.
#[tactic(auto, using(crate::proofs::Sizes::sizes), unfolding(crate::specs::Results::commit_ok))]
pub(crate) fn commit_length(r: &CommitOk) -> usize
    ensures { result ≡ length (encoded.commit_ok r.now) }
{
    wcc_data_length(&r.file) + 8
}
