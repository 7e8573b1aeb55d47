//! LINK, RFC 1813 section 3.3.15.

ghost use Rattle.std.specs.Prelude.{◌≡◌, IfOk, IsSome, OnErr, OnOk, true};
ghost use Rattle.std.specs.Result.{result_err};
ghost use Rattle.sky_nfs.specs.Handles.{fileid_in};
ghost use Rattle.sky_nfs.specs.Procedure.{refusal_of, tree_after};
ghost use Rattle.sky_nfs.specs.Procedures.Link.{linked};
ghost use Rattle.sky_nfs.specs.Results.{results_or};
ghost use Rattle.sky_nfs.specs.Rules.{first_of};
ghost use Rattle.sky_nfs.specs.Tree.{is_directory, node_at, the_node};
ghost use Rattle.sky_nfs.specs.declared.call.Call.{Call};
ghost use Rattle.sky_tree.specs.Linking.{link_name_rules, link_object_rules};

use crate::name_rules::{check_entry_room, check_new_name, new_name};
use crate::results::{post_attributes, pre_attributes};
use crate::rules::{check_name, node, refuse_if, resolve};
use sky_base::{Cred, Moment, NoMemory};
use sky_nfs::{DirOpArgs, LinkResults, NfsStatus, RawHandle, Refused, WccData};
use sky_nodes::Nodes;
use std::alloc::Global;

/// The most links of a file.
const MAX_LINKS: u32 = 32000;

/// The file and the directory of a LINK.
fn check_objects(
    nodes: &Nodes,
    file: &RawHandle,
    directory: &RawHandle,
) -> Result<(u64, u64), NfsStatus>
    ensures refused { result_err result ≡ first_of (link_object_rules nodes.now file.now directory.now) }
    ensures fileid { IfOk result (λ p. p.0 ≡ fileid_in file.now) }
    ensures dir { IfOk result (λ p. p.1 ≡ fileid_in directory.now) }
    ensures node { IfOk result (λ p. IsSome (node_at nodes.now.nodes p.0)) }
    ensures there { IfOk result (λ p. IsSome (node_at nodes.now.nodes p.1)) }
    ensures is_directory { IfOk result (λ p. is_directory (the_node nodes.now p.1) ≡ true) }
{
    let fileid = resolve(nodes, file)?;
    let dir = resolve(nodes, directory)?;
    refuse_if(!nodes.is_directory(dir), NfsStatus::NotDir)?;
    refuse_if(nodes.is_directory(fileid), NfsStatus::Inval)?;
    Ok((fileid, dir))
}

/// The name that a LINK gives.
fn check_link_name(
    nodes: &Nodes,
    cred: &Cred,
    fileid: u64,
    dir: u64,
    name: &[u8],
) -> Result<(), NfsStatus>
    requires node { IsSome (node_at nodes.now.nodes fileid) }
    requires there { IsSome (node_at nodes.now.nodes dir) }
    requires is_directory { is_directory (the_node nodes.now dir) ≡ true }
    ensures { result_err result ≡ first_of (link_name_rules nodes.now cred.now fileid dir name.now) }
{
    check_name(name)?;
    check_new_name(nodes, cred, dir, name)?;
    refuse_if(node(nodes, fileid).nlink() >= MAX_LINKS, NfsStatus::MLink)?;
    check_entry_room(node(nodes, dir), name)
}

/// The file and the directory of a LINK, or why it is refused.
pub fn check_link(
    nodes: &Nodes,
    cred: &Cred,
    file: &RawHandle,
    at: &DirOpArgs,
) -> Result<(u64, u64), NfsStatus>
    ensures refused { result_err result ≡ refusal_of nodes.now cred.now (Call.Link file.now at.now) }
    ensures fileid { IfOk result (λ p. p.0 ≡ fileid_in file.now) }
    ensures dir { IfOk result (λ p. p.1 ≡ fileid_in at.now.directory) }
{
    let (fileid, dir) = check_objects(nodes, file, &at.directory)?;
    let name = at.name.as_slice();
    check_link_name(nodes, cred, fileid, dir, name)?;
    Ok((fileid, dir))
}

/// Does a LINK, or says why it is refused.
fn do_link(
    alloc: Global,
    nodes: &mut Nodes,
    cred: &Cred,
    file: &RawHandle,
    at: &DirOpArgs,
    now: Moment,
) -> Result<Result<(), NfsStatus>, NoMemory>
    ensures refused { IfOk result (λ done. result_err done ≡ refusal_of nodes.old cred.now (Call.Link file.now at.now)) }
    ensures tree { OnOk result (nodes.new ≡ tree_after nodes.old cred.now (Call.Link file.now at.now) now) }
    ensures err { OnErr result (nodes.new ≡ nodes.old) }
{
    let (fileid, dir) = match check_link(nodes, cred, file, at) {
        Ok(found) => found,
        Err(status) => return Ok(Err(status)),
    };
    let name = new_name(alloc, &at.name)?;
    nodes.link(now, fileid, dir, name)?;
    Ok(Ok(()))
}

/// Does a LINK, and answers it. `NoMemory` leaves all as it was.
pub fn link(
    alloc: Global,
    nodes: &mut Nodes,
    cred: &Cred,
    file: &RawHandle,
    at: &DirOpArgs,
    now: Moment,
) -> Result<Result<LinkResults, Refused<LinkResults>>, NoMemory>
    ensures tree { OnOk result (nodes.new ≡ tree_after nodes.old cred.now (Call.Link file.now at.now) now) }
    ensures answer { IfOk result (λ answer. answer ≡ results_or (refusal_of nodes.old cred.now (Call.Link file.now at.now)) (linked nodes.old nodes.new file.now at.now) (linked nodes.old nodes.new file.now at.now)) }
    ensures err { OnErr result (nodes.new ≡ nodes.old) }
{
    let before = pre_attributes(nodes, &at.directory);
    let done = do_link(alloc, nodes, cred, file, at, now)?;
    let results = LinkResults {
        file: post_attributes(nodes, file),
        directory: WccData {
            before,
            after: post_attributes(nodes, &at.directory),
        },
    };
    match done {
        Ok(()) => Ok(Ok(results)),
        Err(status) => Ok(Err(Refused {
            status,
            attributes: results,
        })),
    }
}
