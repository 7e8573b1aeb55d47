//! READLINK, READ and COMMIT, RFC 1813 sections 3.3.5, 3.3.6 and 3.3.21.

ghost use Rattle.std.specs.Prelude.{◌≡◌, ◌+◌, IfOk, IsSome, OnErr, None, length, nat_le};
ghost use Rattle.std.specs.Result.{result_err};
ghost use Rattle.sky_nfs.specs.Handles.{fileid_in};
ghost use Rattle.sky_nfs.specs.Procedure.{refusal_of};
ghost use Rattle.sky_nfs.specs.Procedures.Commit.{commit_rules, committed};
ghost use Rattle.sky_nfs.specs.Procedures.Read.{bytes_at, read_data};
ghost use Rattle.sky_nfs.specs.Procedures.ReadLink.{link_text_of, readlink_rules};
ghost use Rattle.sky_nfs.specs.Results.{post_attributes, results_or, wcc};
ghost use Rattle.sky_nfs.specs.Rules.{first_of};
ghost use Rattle.sky_nfs.specs.Tree.{bytes_of, node_at, text_of};
ghost use Rattle.sky_nfs.specs.declared.call.Call.{Call};

use crate::results::{post_attributes, pre_attributes};
use crate::rules::{lacks_unless_owner, node, refuse_if, resolve};
use sky_base::{Attr, Cred, NoMemory, Want};
use sky_nfs::{Bytes, CommitOk, NfsStatus, RawHandle, ReadLinkOk, ReadOk, Refused, WccData};
use sky_nodes::{Content, Node, Nodes};
use std::alloc::Global;

/// The most bytes that one READ moves.
const MAX_TRANSFER: u32 = 65536;

/// The link that a READLINK reads, or why it is refused.
fn link_of(nodes: &Nodes, link: &RawHandle) -> Result<u64, NfsStatus>
    ensures refused { result_err result ≡ first_of (readlink_rules nodes.now link.now) }
    ensures fileid { IfOk result (λ fileid. fileid ≡ fileid_in link.now) }
    ensures there { IfOk result (λ fileid. IsSome (node_at nodes.now.nodes fileid)) }
{
    let fileid = resolve(nodes, link)?;
    refuse_if(!node(nodes, fileid).is_link(), NfsStatus::Inval)?;
    Ok(fileid)
}

/// The text of a symbolic link, and none of another node.
fn text_of(alloc: Global, node: &Node) -> Result<Bytes, NoMemory>
    ensures { IfOk result (λ text. text ≡ text_of node.now) }
{
    match node.content() {
        Content::Link(text) => Ok(Bytes::new(Vec::from_slice(alloc, text.as_slice())?)),
        _ => Ok(Bytes::new(Vec::new(alloc))),
    }
}

/// What READLINK answers: the text of a symbolic link. `NoMemory` where there is no memory for it.
pub fn readlink(
    alloc: Global,
    nodes: &Nodes,
    link: &RawHandle,
) -> Result<Result<ReadLinkOk, Refused<Option<Attr>>>, NoMemory>
    ensures answer { IfOk result (λ answer. answer ≡ results_or (first_of (readlink_rules nodes.now link.now)) (link_text_of nodes.now link.now) (post_attributes nodes.now link.now)) }
    ensures memory { OnErr result (first_of (readlink_rules nodes.now link.now) ≡ None) }
{
    let attributes = post_attributes(nodes, link);
    match link_of(nodes, link) {
        Ok(fileid) => {
            let text = text_of(alloc, node(nodes, fileid))?;
            Ok(Ok(ReadLinkOk {
                link: attributes,
                text,
            }))
        }
        Err(status) => Ok(Err(Refused { status, attributes })),
    }
}

/// The file that a READ reads, or why it is refused.
#[tactic(auto, unfolding(sky_nfs::specs::Procedure::refusal_of, sky_nfs::specs::Procedure::rules_of))]
fn file_to_read(
    nodes: &Nodes,
    cred: &Cred,
    file: &RawHandle,
    offset: u64,
    count: u32,
) -> Result<u64, NfsStatus>
    ensures refused { result_err result ≡ refusal_of nodes.now cred.now (Call.Read file.now offset count) }
    ensures fileid { IfOk result (λ fileid. fileid ≡ fileid_in file.now) }
    ensures there { IfOk result (λ fileid. IsSome (node_at nodes.now.nodes fileid)) }
{
    let fileid = resolve(nodes, file)?;
    refuse_if(!node(nodes, fileid).is_file(), NfsStatus::Inval)?;
    refuse_if(
        lacks_unless_owner(nodes, cred, fileid, Want::Read),
        NfsStatus::Acces,
    )?;
    Ok(fileid)
}

/// The bytes of a file from an offset on, as many as the caller asks for and one READ moves, and whether the file ends
/// with them.
fn piece_of(
    alloc: Global,
    node: &Node,
    offset: u64,
    count: u32,
) -> Result<(Vec<u8>, bool), NoMemory>
    ensures piece { IfOk result (λ r. r.0.items ≡ bytes_at (bytes_of node.now) offset count) }
    ensures eof { IfOk result (λ r. r.1 ≡ nat_le (length (bytes_of node.now)) (offset + length r.0.items)) }
{
    match node.content() {
        Content::File(bytes) => {
            let piece = bytes.read(alloc, offset, count.min(MAX_TRANSFER))?;
            let eof = bytes.len().saturating_sub(piece.len() as u64) <= offset;
            Ok((piece, eof))
        }
        _ => Ok((Vec::new(alloc), true)),
    }
}

/// What READ answers: bytes of a file. `NoMemory` where there is no memory for them.
pub fn read(
    alloc: Global,
    nodes: &Nodes,
    cred: &Cred,
    file: &RawHandle,
    offset: u64,
    count: u32,
) -> Result<Result<ReadOk, Refused<Option<Attr>>>, NoMemory>
    ensures answer { IfOk result (λ answer. answer ≡ results_or (refusal_of nodes.now cred.now (Call.Read file.now offset count)) (read_data nodes.now file.now offset count) (post_attributes nodes.now file.now)) }
    ensures memory { OnErr result (refusal_of nodes.now cred.now (Call.Read file.now offset count) ≡ None) }
{
    let attributes = post_attributes(nodes, file);
    match file_to_read(nodes, cred, file, offset, count) {
        Ok(fileid) => {
            let (piece, eof) = piece_of(alloc, node(nodes, fileid), offset, count)?;
            Ok(Ok(ReadOk {
                file: attributes,
                eof,
                data: Bytes::new(piece),
            }))
        }
        Err(status) => Ok(Err(Refused { status, attributes })),
    }
}

/// Why a COMMIT is refused.
fn check_commit(nodes: &Nodes, file: &RawHandle) -> Result<(), NfsStatus>
    ensures { result_err result ≡ first_of (commit_rules nodes.now file.now) }
{
    let fileid = resolve(nodes, file)?;
    refuse_if(!node(nodes, fileid).is_file(), NfsStatus::Inval)
}

/// What COMMIT answers: what was written is stable.
pub fn commit(nodes: &Nodes, epoch: u64, file: &RawHandle) -> Result<CommitOk, Refused<WccData>>
    ensures { result ≡ results_or (first_of (commit_rules nodes.now file.now)) (committed nodes.now epoch file.now) (wcc nodes.now nodes.now file.now) }
{
    let attributes = WccData {
        before: pre_attributes(nodes, file),
        after: post_attributes(nodes, file),
    };
    match check_commit(nodes, file) {
        Ok(()) => Ok(CommitOk {
            file: attributes,
            verifier: epoch,
        }),
        Err(status) => Err(Refused { status, attributes }),
    }
}
