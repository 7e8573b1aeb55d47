//! The rules of refusal that several procedures share. Each is tried where the definition has it.

ghost use Rattle.std.specs.Prelude.{◌≡◌, [], ◌∷◌, IfOk, IsSome, Some, true};
ghost use Rattle.std.specs.Result.{result_err};
ghost use Rattle.sky_nfs.specs.Handles.{fileid_in};
ghost use Rattle.sky_nfs.specs.Rules.{directory_rules, first_of, handle_rules, is_bad_name, is_dot, is_dot_dot, is_dots, is_stranger, lacks, lacks_unless_owner, name_rules};
ghost use Rattle.sky_nfs.specs.Tree.{attributes_at, is_directory, node_at, the_node};

use crate::handle::read_handle;
use sky_base::{Attr, Cred, Want};
use sky_nfs::{NfsStatus, RawHandle};
use sky_nodes::{Node, Nodes};

/// A rule: this status where a test is true.
pub fn refuse_if(test: bool, status: NfsStatus) -> Result<(), NfsStatus>
    ensures { result_err result ≡ first_of ((test, status) ∷ []) }
{
    if test { Err(status) } else { Ok(()) }
}

/// The fileid of the node that a handle names.
pub fn resolve(nodes: &Nodes, fh: &RawHandle) -> Result<u64, NfsStatus>
    ensures refused { result_err result ≡ first_of (handle_rules nodes.now fh.now) }
    ensures fileid { IfOk result (λ fileid. fileid ≡ fileid_in fh.now) }
    ensures there { IfOk result (λ fileid. IsSome (node_at nodes.now.nodes fileid)) }
{
    let Some(fileid) = read_handle(nodes.volume(), fh.as_bytes()) else {
        return Err(NfsStatus::BadHandle);
    };
    match nodes.get(fileid) {
        Some(_) => Ok(fileid),
        None => Err(NfsStatus::Stale),
    }
}

/// The node of a fileid that is there.
pub fn node(nodes: &Nodes, fileid: u64) -> &Node
    requires { IsSome (node_at nodes.now.nodes fileid) }
    ensures same { result.now ≡ the_node nodes.now fileid }
    ensures there { node_at nodes.now.nodes fileid ≡ Some result.now }
{
    nodes.get(fileid).unwrap()
}

/// The fileid of the directory that a handle names.
pub fn resolve_directory(nodes: &Nodes, fh: &RawHandle) -> Result<u64, NfsStatus>
    ensures refused { result_err result ≡ first_of (directory_rules nodes.now fh.now) }
    ensures fileid { IfOk result (λ fileid. fileid ≡ fileid_in fh.now) }
    ensures there { IfOk result (λ fileid. IsSome (node_at nodes.now.nodes fileid)) }
    ensures directory { IfOk result (λ fileid. is_directory (the_node nodes.now fileid) ≡ true) }
{
    let fileid = resolve(nodes, fh)?;
    refuse_if(!nodes.is_directory(fileid), NfsStatus::NotDir)?;
    Ok(fileid)
}

/// Whether a name is `.`.
pub fn is_dot(name: &[u8]) -> bool
    ensures { result ≡ is_dot name.now }
{
    name == b".".as_slice()
}

/// Whether a name is `..`.
pub fn is_dot_dot(name: &[u8]) -> bool
    ensures { result ≡ is_dot_dot name.now }
{
    name == b"..".as_slice()
}

/// Whether a name is one of the two.
pub fn is_dots(name: &[u8]) -> bool
    ensures { result ≡ is_dots name.now }
{
    is_dot(name) || is_dot_dot(name)
}

/// Whether a name may not stand in a directory: it is empty, or has a `/` or a NUL.
fn is_bad_name(name: &[u8]) -> bool
    ensures { result ≡ is_bad_name name.now }
{
    name.is_empty() || name.contains(&b'/') || name.contains(&0)
}

/// A name as it may stand in a call.
pub fn check_name(name: &[u8]) -> Result<(), NfsStatus>
    ensures { result_err result ≡ first_of (name_rules name.now) }
{
    if name.len() > 255 {
        Err(NfsStatus::NameTooLong)
    } else if is_bad_name(name) {
        Err(NfsStatus::Acces)
    } else {
        Ok(())
    }
}

/// Whether a caller lacks a right.
pub fn lacks(nodes: &Nodes, cred: &Cred, fileid: u64, want: Want) -> bool
    requires { IsSome (node_at nodes.now.nodes fileid) }
    ensures { result ≡ lacks nodes.now cred.now fileid want }
{
    !sky_access::may(&attributes_at(nodes, fileid), cred, want)
}

/// Whether a caller lacks a right that the owner always has.
pub fn lacks_unless_owner(nodes: &Nodes, cred: &Cred, fileid: u64, want: Want) -> bool
    requires { IsSome (node_at nodes.now.nodes fileid) }
    ensures { result ≡ lacks_unless_owner nodes.now cred.now fileid want }
{
    !sky_access::may_or_owns(&attributes_at(nodes, fileid), cred, want)
}

/// The attributes of the node of a fileid that is there.
pub fn attributes_at(nodes: &Nodes, fileid: u64) -> Attr
    requires { IsSome (node_at nodes.now.nodes fileid) }
    ensures { result ≡ attributes_at nodes.now fileid }
{
    node(nodes, fileid).attributes(nodes.volume(), fileid)
}

/// Whether a caller is neither the owner nor user 0.
pub fn is_stranger(nodes: &Nodes, cred: &Cred, fileid: u64) -> bool
    requires { IsSome (node_at nodes.now.nodes fileid) }
    ensures { result ≡ is_stranger nodes.now cred.now fileid }
{
    !sky_access::is_owner_or_superuser(cred, &attributes_at(nodes, fileid))
}
