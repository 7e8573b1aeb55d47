//! GETATTR and ACCESS, RFC 1813 sections 3.3.1 and 3.3.4.

ghost use Rattle.std.specs.Prelude.{◌≡◌, cond};
ghost use Rattle.sky_nfs.specs.Procedure.{getattr};
ghost use Rattle.sky_nfs.specs.Procedures.Access.{access_rules, directory_rights, granted, other_rights};
ghost use Rattle.sky_nfs.specs.Results.{post_attributes, results_or};
ghost use Rattle.sky_nfs.specs.Rules.{first_of};

use crate::results::post_attributes;
use crate::rules::{node, resolve};
use sky_base::{Attr, Cred, Want};
use sky_nfs::{AccessOk, NfsStatus, RawHandle, Refused};
use sky_nodes::Nodes;

/// What GETATTR answers: the attributes of the object that a handle names.
pub fn getattr(nodes: &Nodes, object: &RawHandle) -> Result<Attr, NfsStatus>
    ensures { result ≡ getattr nodes.now object.now }
{
    let fileid = resolve(nodes, object)?;
    Ok(node(nodes, fileid).attributes(nodes.volume(), fileid))
}

/// A number of rights where they are granted.
fn where_granted(granted: bool, rights: u32) -> u32
    ensures { result ≡ cond granted rights 0 }
{
    if granted { rights } else { 0 }
}

/// The rights of a directory: READ 1, LOOKUP 2, MODIFY 4, EXTEND 8 and DELETE 16.
fn directory_rights(attr: &Attr, cred: &Cred) -> u32
    ensures { result ≡ directory_rights attr.now cred.now }
{
    where_granted(sky_access::may(attr, cred, Want::Read), 1)
        + where_granted(sky_access::may(attr, cred, Want::Execute), 2)
        + where_granted(sky_access::may(attr, cred, Want::Write), 28)
}

/// The rights of another object: READ 1, MODIFY 4, EXTEND 8 and EXECUTE 32.
fn other_rights(attr: &Attr, cred: &Cred) -> u32
    ensures { result ≡ other_rights attr.now cred.now }
{
    where_granted(sky_access::may(attr, cred, Want::Read), 1)
        + where_granted(sky_access::may(attr, cred, Want::Write), 12)
        + where_granted(sky_access::may(attr, cred, Want::Execute), 32)
}

/// What ACCESS answers: those of the rights asked for that the caller has.
pub fn access(
    nodes: &Nodes,
    cred: &Cred,
    object: &RawHandle,
    rights: u32,
) -> Result<AccessOk, Refused<Option<Attr>>>
    ensures { result ≡ results_or (first_of (access_rules nodes.now object.now)) (granted nodes.now cred.now object.now rights) (post_attributes nodes.now object.now) }
{
    let attributes = post_attributes(nodes, object);
    match resolve(nodes, object) {
        Ok(fileid) => {
            let node = node(nodes, fileid);
            let attr = node.attributes(nodes.volume(), fileid);
            let allowed = if node.is_directory() {
                directory_rights(&attr, cred)
            } else {
                other_rights(&attr, cred)
            };
            Ok(AccessOk {
                object: attributes,
                rights: rights & allowed,
            })
        }
        Err(status) => Err(Refused { status, attributes }),
    }
}
