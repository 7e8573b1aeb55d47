//! LOOKUP, RFC 1813 section 3.3.3.

ghost use Rattle.std.specs.Prelude.{◌≡◌, IfOk, IsSome, Some};
ghost use Rattle.std.specs.Result.{result_err};
ghost use Rattle.sky_nfs.specs.Handles.{fileid_in};
ghost use Rattle.sky_nfs.specs.Procedure.{refusal_of};
ghost use Rattle.sky_nfs.specs.Procedures.Lookup.{found, looked_up};
ghost use Rattle.sky_nfs.specs.Results.{post_attributes, results_or};
ghost use Rattle.sky_nfs.specs.declared.call.Call.{Call};
ghost use Rattle.sky_nfs.specs.Tree.{node_at};

use crate::results::{object_attributes, post_attributes};
use crate::rules::{check_name, is_dot, is_dot_dot, lacks, refuse_if, resolve_directory};
use sky_base::{Attr, Cred, Want};
use sky_nfs::{DirOpArgs, Handle, LookupOk, NfsStatus, Refused};
use sky_nodes::Nodes;

/// The fileid that a name stands for in a directory: `.` is the directory, `..` its parent.
fn looked_up(nodes: &Nodes, dir: u64, name: &[u8]) -> Option<u64>
    requires { IsSome (node_at nodes.now.nodes dir) }
    ensures { result ≡ looked_up nodes.now dir name.now }
{
    if is_dot(name) {
        Some(dir)
    } else if is_dot_dot(name) {
        nodes.get(dir).map(|node| node.parent())
    } else {
        nodes.named(dir, name)
    }
}

#[tactic(auto, unfolding(sky_nfs::specs::Procedure::refusal_of, sky_nfs::specs::Procedure::rules_of))]
/// The fileid that a LOOKUP finds, or why it is refused.
fn find(nodes: &Nodes, cred: &Cred, at: &DirOpArgs) -> Result<u64, NfsStatus>
    ensures refused { result_err result ≡ refusal_of nodes.now cred.now (Call.Lookup at.now) }
    ensures fileid { IfOk result (λ fileid. looked_up nodes.now (fileid_in at.now.directory) at.now.name ≡ Some fileid) }
{
    let name = at.name.as_slice();
    let dir = resolve_directory(nodes, &at.directory)?;
    check_name(name)?;
    refuse_if(lacks(nodes, cred, dir, Want::Execute), NfsStatus::Acces)?;
    looked_up(nodes, dir, name).ok_or(NfsStatus::NoEnt)
}

/// What LOOKUP answers.
pub fn lookup(nodes: &Nodes, cred: &Cred, at: &DirOpArgs) -> Result<LookupOk, Refused<Option<Attr>>>
    ensures { result ≡ results_or (refusal_of nodes.now cred.now (Call.Lookup at.now)) (found nodes.now at.now) (post_attributes nodes.now at.now.directory) }
{
    let directory = post_attributes(nodes, &at.directory);
    match find(nodes, cred, at) {
        Ok(fileid) => Ok(LookupOk {
            handle: Handle {
                volume: nodes.volume(),
                fileid,
            },
            object: object_attributes(nodes, fileid),
            directory,
        }),
        Err(status) => Err(Refused {
            status,
            attributes: directory,
        }),
    }
}
