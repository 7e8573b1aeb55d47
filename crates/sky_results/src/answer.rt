//! An answer is measured and written (RFC 1813 section 3.3).

ghost use Rattle.std.specs.Prelude.{◌≡◌, ◌+◌, ◌^◌, ◌<◌, ◌≤◌, ◌++◌, ◌↔◌, length, take, drop, IsTrue, IsErr, IfOk, OnErr, IsOk, OnOk};
ghost use Rattle.sky_xdr.specs.Writing.{written_of, room_of, name_of};
ghost use Rattle.sky_results.specs.Answers.{answer_bytes};

use crate::attributes::post_op_attr_length;
use crate::changes::{
    commit_length, create_length, link_length, put_changed, put_commit, put_create, put_link,
    put_refused_link, put_refused_rename, put_rename, put_write, rename_length, write_length,
};
use crate::pages::{
    put_readdir, put_readdirplus, readdir_is_short, readdir_length, readdirplus_is_short,
    readdirplus_length,
};
use crate::readings::{
    access_length, fsinfo_length, fsstat_length, lookup_length, pathconf_length, put_access,
    put_fsinfo, put_fsstat, put_getattr, put_lookup, put_pathconf, put_read, put_readlink,
    read_is_short, read_length, readlink_is_short, readlink_length,
};
use crate::status::{put_refusal, put_refused_change, put_status};
use crate::wcc::wcc_data_length;
use sky_nfs::Answer;
use sky_xdr::{NoRoom, Writer};

/// How many bytes an answer has in XDR.
#[tactic(auto, using(crate::proofs::Sizes::sizes), unfolding(crate::specs::Answers::answer_bytes))]
pub fn answer_length(answer: &Answer) -> usize
    requires { length (answer_bytes answer.now) < 2 ^ 64 }
    ensures { result ≡ length (answer_bytes answer.now) }
{
    match answer {
        Answer::Null => 0,
        Answer::GetAttr(Ok(_)) => 88,
        Answer::GetAttr(Err(_)) => 4,
        Answer::SetAttr(Ok(w)) | Answer::Remove(Ok(w)) | Answer::Rmdir(Ok(w)) => {
            4 + wcc_data_length(w)
        }
        Answer::Lookup(Ok(r)) => 4 + lookup_length(r),
        Answer::Access(Ok(r)) => 4 + access_length(r),
        Answer::ReadLink(Ok(r)) => 4 + readlink_length(r),
        Answer::Read(Ok(r)) => 4 + read_length(r),
        Answer::Write(Ok(r)) => 4 + write_length(r),
        Answer::Create(Ok(r)) | Answer::Mkdir(Ok(r)) | Answer::Symlink(Ok(r)) => {
            4 + create_length(r)
        }
        Answer::Rename(Ok(r)) => 4 + rename_length(r),
        Answer::Rename(Err(e)) => 4 + rename_length(&e.attributes),
        Answer::Link(Ok(r)) => 4 + link_length(r),
        Answer::Link(Err(e)) => 4 + link_length(&e.attributes),
        Answer::ReadDir(Ok(r)) => 4 + readdir_length(r),
        Answer::ReadDirPlus(Ok(r)) => 4 + readdirplus_length(r),
        Answer::FsStat(Ok(r)) => 4 + fsstat_length(r),
        Answer::FsInfo(Ok(r)) => 4 + fsinfo_length(r),
        Answer::PathConf(Ok(r)) => 4 + pathconf_length(r),
        Answer::Commit(Ok(r)) => 4 + commit_length(r),
        Answer::Lookup(Err(e))
        | Answer::Access(Err(e))
        | Answer::ReadLink(Err(e))
        | Answer::Read(Err(e))
        | Answer::ReadDir(Err(e))
        | Answer::ReadDirPlus(Err(e))
        | Answer::FsStat(Err(e))
        | Answer::FsInfo(Err(e))
        | Answer::PathConf(Err(e)) => 4 + post_op_attr_length(&e.attributes),
        Answer::SetAttr(Err(e))
        | Answer::Write(Err(e))
        | Answer::Create(Err(e))
        | Answer::Mkdir(Err(e))
        | Answer::Symlink(Err(e))
        | Answer::Mknod(e)
        | Answer::Remove(Err(e))
        | Answer::Rmdir(Err(e))
        | Answer::Commit(Err(e)) => 4 + wcc_data_length(&e.attributes),
    }
}

/// Whether an answer's encoding has fewer than 2^32 bytes, as `write_answer` asks. Each answer has but one with a text,
/// data or entries of nearly that many bytes.
#[tactic(auto, using(crate::proofs::Bounds::bounds), unfolding(crate::specs::Answers::answer_bytes))]
pub fn is_encodable(answer: &Answer) -> bool
    ensures { IsTrue result ↔ (length (answer_bytes answer.now) < 2 ^ 32) }
{
    match answer {
        Answer::ReadLink(Ok(r)) => readlink_is_short(r),
        Answer::Read(Ok(r)) => read_is_short(r),
        Answer::ReadDir(Ok(r)) => readdir_is_short(r),
        Answer::ReadDirPlus(Ok(r)) => readdirplus_is_short(r),
        _ => true,
    }
}

/// Writes an answer.
#[tactic(auto, unfolding(crate::specs::Answers::answer_bytes))]
fn put_answer(writer: &mut Writer<'_>, answer: &Answer) -> Result<(), NoRoom>
    requires { length (answer_bytes answer.now) < 2 ^ 32 }
    ensures fits { length (answer_bytes answer.now) ≤ room_of writer.old → IsOk result }
    ensures written { OnOk result (written_of writer.new ≡ written_of writer.old ++ answer_bytes answer.now) }
    ensures room { OnOk result (room_of writer.new + length (answer_bytes answer.now) ≡ room_of writer.old) }
    ensures same_buffer { name_of writer.new ≡ name_of writer.old }
{
    match answer {
        Answer::Null => Ok(()),
        Answer::GetAttr(Ok(a)) => put_getattr(writer, a),
        Answer::GetAttr(Err(status)) => put_status(writer, *status),
        Answer::SetAttr(Ok(w)) | Answer::Remove(Ok(w)) | Answer::Rmdir(Ok(w)) => {
            put_changed(writer, w)
        }
        Answer::Lookup(Ok(r)) => put_lookup(writer, r),
        Answer::Access(Ok(r)) => put_access(writer, r),
        Answer::ReadLink(Ok(r)) => put_readlink(writer, r),
        Answer::Read(Ok(r)) => put_read(writer, r),
        Answer::Write(Ok(r)) => put_write(writer, r),
        Answer::Create(Ok(r)) | Answer::Mkdir(Ok(r)) | Answer::Symlink(Ok(r)) => {
            put_create(writer, r)
        }
        Answer::Rename(Ok(r)) => put_rename(writer, r),
        Answer::Rename(Err(e)) => put_refused_rename(writer, e),
        Answer::Link(Ok(r)) => put_link(writer, r),
        Answer::Link(Err(e)) => put_refused_link(writer, e),
        Answer::ReadDir(Ok(r)) => put_readdir(writer, r),
        Answer::ReadDirPlus(Ok(r)) => put_readdirplus(writer, r),
        Answer::FsStat(Ok(r)) => put_fsstat(writer, r),
        Answer::FsInfo(Ok(r)) => put_fsinfo(writer, r),
        Answer::PathConf(Ok(r)) => put_pathconf(writer, r),
        Answer::Commit(Ok(r)) => put_commit(writer, r),
        Answer::Lookup(Err(e))
        | Answer::Access(Err(e))
        | Answer::ReadLink(Err(e))
        | Answer::Read(Err(e))
        | Answer::ReadDir(Err(e))
        | Answer::ReadDirPlus(Err(e))
        | Answer::FsStat(Err(e))
        | Answer::FsInfo(Err(e))
        | Answer::PathConf(Err(e)) => put_refusal(writer, e),
        Answer::SetAttr(Err(e))
        | Answer::Write(Err(e))
        | Answer::Create(Err(e))
        | Answer::Mkdir(Err(e))
        | Answer::Symlink(Err(e))
        | Answer::Mknod(e)
        | Answer::Remove(Err(e))
        | Answer::Rmdir(Err(e))
        | Answer::Commit(Err(e)) => put_refused_change(writer, e),
    }
}

/// Fills a buffer that is as long as the answer.
fn fill_answer(buf: &mut [u8], answer: &Answer)
    requires short { length (answer_bytes answer.now) < 2 ^ 32 }
    requires size { length buf.old ≡ length (answer_bytes answer.now) }
    ensures { buf.new ≡ answer_bytes answer.now }
{
    let mut writer = Writer::over(buf);
    put_answer(&mut writer, answer).unwrap();
}

/// Writes an answer in XDR at the beginning of a buffer, and says how many bytes it has. They have to be fewer than
/// 2^32, so that each length in it can be told.
///
/// `NoRoom` where the answer doesn't fit into the buffer; nothing is written then.
pub fn write_answer(buf: &mut [u8], answer: &Answer) -> Result<usize, NoRoom>
    requires { length (answer_bytes answer.now) < 2 ^ 32 }
    ensures no_room { IsErr result ↔ (length buf.old < length (answer_bytes answer.now)) }
    ensures count { IfOk result (λ n. n ≡ length (answer_bytes answer.now)) }
    ensures written { IfOk result (λ n. take n buf.new ≡ answer_bytes answer.now) }
    ensures behind { IfOk result (λ n. drop n buf.new ≡ drop n buf.old) }
    ensures err { OnErr result (buf.new ≡ buf.old) }
{
    let count = answer_length(answer);
    if buf.len() < count {
        return Err(NoRoom);
    }
    fill_answer(&mut buf[..count], answer);
    Ok(count)
}
