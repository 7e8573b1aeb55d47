//! WRITE, RFC 1813 section 3.3.7.

ghost use Rattle.std.specs.Prelude.{◌≡◌, ◌+◌, ◌≤◌, ◌^◌, IfOk, IsSome, OnErr, OnOk, length, take, cond, ◌==◌};
ghost use Rattle.std.specs.Result.{result_err};
ghost use Rattle.sky_nfs.specs.Changes.{edit};
ghost use Rattle.sky_nfs.specs.Handles.{fileid_in};
ghost use Rattle.sky_nfs.specs.Procedure.{refusal_of, tree_after};
ghost use Rattle.sky_nfs.specs.Procedures.Write.{is_stable, write_count, write_node, written_results};
ghost use Rattle.sky_nfs.specs.Results.{results_or, wcc};
ghost use Rattle.sky_nfs.specs.Tree.{node_at};
ghost use Rattle.sky_nfs.specs.declared.call.Call.{Call};

use crate::results::{post_attributes, pre_attributes};
use crate::rules::{lacks_unless_owner, node, refuse_if, resolve};
use sky_base::{Cred, Moment, NoMemory, Want};
use sky_nfs::{Bytes, NfsStatus, RawHandle, Refused, StableHow, WccData, WriteOk};
use sky_nodes::Nodes;

/// The most bytes that one WRITE moves.
const MAX_TRANSFER: u32 = 65536;

/// The most bytes of a file.
const MAX_FILE_BYTES: u64 = 1 << 30;

/// How many bytes are written: those that the caller names, as far as one WRITE moves them.
pub fn write_count(count: u32) -> u32
    ensures count { result ≡ write_count count }
    ensures most { result ≤ 65536 }
{
    count.min(MAX_TRANSFER)
}

/// Whether what is written is stable before the answer.
pub fn is_stable(how: StableHow) -> bool
    ensures { result ≡ is_stable how }
{
    match how {
        StableHow::Unstable => false,
        StableHow::DataSync | StableHow::FileSync => true,
    }
}

/// The file that a WRITE writes to, or why it is refused.
#[tactic(auto, unfolding(sky_nfs::specs::Procedure::refusal_of, sky_nfs::specs::Procedure::rules_of))]
pub fn check_write(
    nodes: &Nodes,
    cred: &Cred,
    file: &RawHandle,
    offset: u64,
    count: u32,
    how: StableHow,
    data: &Bytes,
) -> Result<u64, NfsStatus>
    ensures refused { result_err result ≡ refusal_of nodes.now cred.now (Call.Write file.now offset count how data.now) }
    ensures fileid { IfOk result (λ fileid. fileid ≡ fileid_in file.now) }
    ensures there { IfOk result (λ fileid. IsSome (node_at nodes.now.nodes fileid)) }
    ensures count { OnOk result (count ≡ length data.now) }
    ensures fits { OnOk result (offset + write_count count ≤ 2 ^ 30) }
{
    let fileid = resolve(nodes, file)?;
    refuse_if(!node(nodes, fileid).is_file(), NfsStatus::Inval)?;
    refuse_if(count as usize != data.as_slice().len(), NfsStatus::Inval)?;
    refuse_if(
        lacks_unless_owner(nodes, cred, fileid, Want::Write),
        NfsStatus::Acces,
    )?;
    let most = MAX_FILE_BYTES - write_count(count) as u64;
    refuse_if(offset > most, NfsStatus::FBig)?;
    Ok(fileid)
}

/// The file with the bytes written to it. A write of no bytes changes nothing.
fn write_bytes(
    nodes: &mut Nodes,
    fileid: u64,
    offset: u64,
    count: u32,
    data: &Bytes,
    now: Moment,
) -> Result<(), NoMemory>
    requires there { IsSome (node_at nodes.old.nodes fileid) }
    requires count { count ≡ length data.now }
    requires fits { offset + write_count count ≤ 2 ^ 30 }
    ensures written { OnOk result (nodes.new ≡ cond (write_count count == 0) nodes.old (edit nodes.old fileid (λ n. write_node now offset (take (write_count count) data.now) n))) }
    ensures err { OnErr result (nodes.new ≡ nodes.old) }
{
    let bytes = write_count(count);
    if bytes == 0 {
        return Ok(());
    }
    let piece = &data.as_slice()[..bytes as usize];
    nodes.write(fileid, now, offset, piece)
}

/// Does a WRITE, or says why it is refused.
fn do_write(
    nodes: &mut Nodes,
    cred: &Cred,
    file: &RawHandle,
    offset: u64,
    count: u32,
    how: StableHow,
    data: &Bytes,
    now: Moment,
) -> Result<Result<(), NfsStatus>, NoMemory>
    ensures refused { IfOk result (λ done. result_err done ≡ refusal_of nodes.old cred.now (Call.Write file.now offset count how data.now)) }
    ensures tree { OnOk result (nodes.new ≡ tree_after nodes.old cred.now (Call.Write file.now offset count how data.now) now) }
    ensures err { OnErr result (nodes.new ≡ nodes.old) }
{
    let fileid = match check_write(nodes, cred, file, offset, count, how, data) {
        Ok(fileid) => fileid,
        Err(status) => return Ok(Err(status)),
    };
    write_bytes(nodes, fileid, offset, count, data, now)?;
    Ok(Ok(()))
}

/// Does a WRITE, and answers it. `NoMemory` leaves all as it was.
pub fn write(
    nodes: &mut Nodes,
    epoch: u64,
    cred: &Cred,
    file: &RawHandle,
    offset: u64,
    count: u32,
    how: StableHow,
    data: &Bytes,
    now: Moment,
) -> Result<Result<WriteOk, Refused<WccData>>, NoMemory>
    ensures tree { OnOk result (nodes.new ≡ tree_after nodes.old cred.now (Call.Write file.now offset count how data.now) now) }
    ensures answer { IfOk result (λ answer. answer ≡ results_or (refusal_of nodes.old cred.now (Call.Write file.now offset count how data.now)) (written_results nodes.old nodes.new epoch file.now count how) (wcc nodes.old nodes.new file.now)) }
    ensures err { OnErr result (nodes.new ≡ nodes.old) }
{
    let before = pre_attributes(nodes, file);
    let done = do_write(nodes, cred, file, offset, count, how, data, now)?;
    let after = post_attributes(nodes, file);
    let attributes = WccData { before, after };
    match done {
        Ok(()) => Ok(Ok(WriteOk {
            file: attributes,
            count: write_count(count),
            committed: is_stable(how),
            verifier: epoch,
        })),
        Err(status) => Ok(Err(Refused { status, attributes })),
    }
}
