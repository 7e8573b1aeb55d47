//! REMOVE and RMDIR, RFC 1813 sections 3.3.12 and 3.3.13.

ghost use Rattle.std.specs.Prelude.{◌≡◌, [], ◌∷◌, IfOk, IsSome, Some, not};
ghost use Rattle.std.specs.Result.{result_err};
ghost use Rattle.sky_nfs.specs.Handles.{fileid_in};
ghost use Rattle.sky_nfs.specs.Procedure.{refusal_of, tree_after};
ghost use Rattle.sky_nfs.specs.Procedures.Remove.{has_entries, old_name_rules};
ghost use Rattle.sky_nfs.specs.Results.{results_or, wcc};
ghost use Rattle.sky_nfs.specs.Rules.{first_of, is_dot, is_dot_dot};
ghost use Rattle.sky_nfs.specs.Tree.{is_directory, named, node_at, the_node};
ghost use Rattle.sky_nfs.specs.declared.call.Call.{Call};
ghost use Rattle.sky_nfs.specs.declared.status.NfsStatus.TheVariants.{Exist, Inval, NotDir, NotEmpty};

use crate::results::{post_attributes, pre_attributes, wcc_answer};
use crate::rules::{check_name, is_dot, is_dot_dot, is_dots, lacks, refuse_if, resolve_directory};
use sky_base::{Cred, Moment, Want};
use sky_nfs::{DirOpArgs, NfsStatus, Refused, WccData};
use sky_nodes::Nodes;

/// The fileid of a name that is there, in a directory that the caller may change.
fn old_name(nodes: &Nodes, cred: &Cred, dir: u64, name: &[u8]) -> Result<u64, NfsStatus>
    requires { IsSome (node_at nodes.now.nodes dir) }
    ensures refused { result_err result ≡ first_of (old_name_rules nodes.now cred.now dir name.now) }
    ensures fileid { IfOk result (λ fileid. named nodes.now dir name.now ≡ Some fileid) }
{
    refuse_if(lacks(nodes, cred, dir, Want::Execute), NfsStatus::Acces)?;
    let fileid = nodes.named(dir, name).ok_or(NfsStatus::NoEnt)?;
    refuse_if(lacks(nodes, cred, dir, Want::Write), NfsStatus::Acces)?;
    Ok(fileid)
}

/// The directory in which a REMOVE removes a name, or why it is refused.
pub fn check_remove(nodes: &Nodes, cred: &Cred, at: &DirOpArgs) -> Result<u64, NfsStatus>
    ensures refused { result_err result ≡ refusal_of nodes.now cred.now (Call.Remove at.now) }
    ensures dir { IfOk result (λ dir. dir ≡ fileid_in at.now.directory) }
{
    let name = at.name.as_slice();
    let dir = resolve_directory(nodes, &at.directory)?;
    check_name(name)?;
    refuse_if(is_dots(name), NfsStatus::IsDir)?;
    let fileid = old_name(nodes, cred, dir, name)?;
    refuse_if(nodes.is_directory(fileid), NfsStatus::IsDir)?;
    Ok(dir)
}

/// A name that an RMDIR may remove: neither `.` nor `..`.
fn check_dots(name: &[u8]) -> Result<(), NfsStatus>
    ensures { result_err result ≡ first_of ((is_dot name.now, Inval) ∷ (is_dot_dot name.now, Exist) ∷ []) }
{
    refuse_if(is_dot(name), NfsStatus::Inval)?;
    refuse_if(is_dot_dot(name), NfsStatus::Exist)
}

/// A node that an RMDIR may remove: a directory without entries.
fn check_emptied(nodes: &Nodes, fileid: u64) -> Result<(), NfsStatus>
    ensures { result_err result ≡ first_of ((not (is_directory (the_node nodes.now fileid)), NotDir) ∷ (has_entries (the_node nodes.now fileid), NotEmpty) ∷ []) }
{
    refuse_if(!nodes.is_directory(fileid), NfsStatus::NotDir)?;
    refuse_if(has_entries(nodes, fileid), NfsStatus::NotEmpty)
}

/// The directory in which an RMDIR removes a name, or why it is refused.
pub fn check_rmdir(nodes: &Nodes, cred: &Cred, at: &DirOpArgs) -> Result<u64, NfsStatus>
    ensures refused { result_err result ≡ refusal_of nodes.now cred.now (Call.Rmdir at.now) }
    ensures dir { IfOk result (λ dir. dir ≡ fileid_in at.now.directory) }
{
    let name = at.name.as_slice();
    let dir = resolve_directory(nodes, &at.directory)?;
    check_name(name)?;
    check_dots(name)?;
    let fileid = old_name(nodes, cred, dir, name)?;
    check_emptied(nodes, fileid)?;
    Ok(dir)
}

/// Whether a directory of this fileid has entries.
pub fn has_entries(nodes: &Nodes, fileid: u64) -> bool
    ensures { result ≡ has_entries (the_node nodes.now fileid) }
{
    nodes.get(fileid).is_some_and(|node| node.has_entries())
}

/// Does a REMOVE, or says why it is refused.
fn do_remove(nodes: &mut Nodes, cred: &Cred, at: &DirOpArgs, now: Moment) -> Result<(), NfsStatus>
    ensures refused { result_err result ≡ refusal_of nodes.old cred.now (Call.Remove at.now) }
    ensures tree { nodes.new ≡ tree_after nodes.old cred.now (Call.Remove at.now) now }
{
    let dir = check_remove(nodes, cred, at)?;
    nodes.remove_name(now, dir, at.name.as_slice());
    Ok(())
}

/// Does an RMDIR, or says why it is refused.
fn do_rmdir(nodes: &mut Nodes, cred: &Cred, at: &DirOpArgs, now: Moment) -> Result<(), NfsStatus>
    ensures refused { result_err result ≡ refusal_of nodes.old cred.now (Call.Rmdir at.now) }
    ensures tree { nodes.new ≡ tree_after nodes.old cred.now (Call.Rmdir at.now) now }
{
    let dir = check_rmdir(nodes, cred, at)?;
    nodes.remove_name(now, dir, at.name.as_slice());
    Ok(())
}

/// Does a REMOVE, and answers it.
pub fn remove(
    nodes: &mut Nodes,
    cred: &Cred,
    at: &DirOpArgs,
    now: Moment,
) -> Result<WccData, Refused<WccData>>
    ensures tree { nodes.new ≡ tree_after nodes.old cred.now (Call.Remove at.now) now }
    ensures answer { result ≡ results_or (refusal_of nodes.old cred.now (Call.Remove at.now)) (wcc nodes.old nodes.new at.now.directory) (wcc nodes.old nodes.new at.now.directory) }
{
    let before = pre_attributes(nodes, &at.directory);
    let done = do_remove(nodes, cred, at, now);
    let after = post_attributes(nodes, &at.directory);
    wcc_answer(done, WccData { before, after })
}

/// Does an RMDIR, and answers it.
pub fn rmdir(
    nodes: &mut Nodes,
    cred: &Cred,
    at: &DirOpArgs,
    now: Moment,
) -> Result<WccData, Refused<WccData>>
    ensures tree { nodes.new ≡ tree_after nodes.old cred.now (Call.Rmdir at.now) now }
    ensures answer { result ≡ results_or (refusal_of nodes.old cred.now (Call.Rmdir at.now)) (wcc nodes.old nodes.new at.now.directory) (wcc nodes.old nodes.new at.now.directory) }
{
    let before = pre_attributes(nodes, &at.directory);
    let done = do_rmdir(nodes, cred, at, now);
    let after = post_attributes(nodes, &at.directory);
    wcc_answer(done, WccData { before, after })
}
