//! The attributes that answers carry.

ghost use Rattle.std.specs.Prelude.{◌≡◌, IfOk, Some, option_map};
ghost use Rattle.std.specs.Result.{result_err};
ghost use Rattle.sky_nfs.specs.Handles.{fileid_in, handle_bytes};
ghost use Rattle.sky_nfs.specs.Procedures.Create.{created};
ghost use Rattle.sky_nfs.specs.Results.{post_attributes, pre_attributes, results_or, wcc, wcc_attr_of};
ghost use Rattle.sky_nfs.specs.Tree.{Tree, attributes_of, node_at};

use crate::handle::read_handle;
use sky_base::Attr;
use sky_nfs::{CreateOk, DirOpArgs, Handle, NfsStatus, RawHandle, Refused, WccAttr, WccData};
use sky_nodes::Nodes;

/// The attributes of the node of a fileid, where there is one, as one of this volume.
fn attributes(nodes: &Nodes, volume: u64, fileid: u64) -> Option<Attr>
    ensures { result ≡ option_map (λ n. attributes_of volume fileid n) (node_at nodes.now.nodes fileid) }
{
    let node = nodes.get(fileid)?;
    Some(node.attributes(volume, fileid))
}

/// The attributes of the object that a handle names, where it resolves.
pub fn post_attributes(nodes: &Nodes, fh: &RawHandle) -> Option<Attr>
    ensures { result ≡ post_attributes nodes.now fh.now }
{
    let volume = nodes.volume();
    attributes(nodes, volume, read_handle(volume, fh.as_bytes())?)
}

/// The attributes of the node of a fileid, where there is one.
pub fn object_attributes(nodes: &Nodes, fileid: u64) -> Option<Attr>
    ensures { result ≡ post_attributes nodes.now (handle_bytes nodes.now.volume fileid) }
{
    attributes(nodes, nodes.volume(), fileid)
}

/// Those attributes by which a change is seen.
pub fn wcc_attr(attr: Attr) -> WccAttr
    ensures { result ≡ wcc_attr_of attr }
{
    WccAttr {
        size: attr.size,
        mtime: attr.mtime,
        ctime: attr.ctime,
    }
}

/// Those of the object that a handle names, where it resolves.
pub fn pre_attributes(nodes: &Nodes, fh: &RawHandle) -> Option<WccAttr>
    ensures { result ≡ pre_attributes nodes.now fh.now }
{
    post_attributes(nodes, fh).map(wcc_attr)
}

/// The attributes of the object that a handle names before a call, and these after it.
pub fn wcc_after(nodes: &Nodes, fh: &RawHandle, after: Attr) -> WccData
    ensures { result ≡ record { before = pre_attributes nodes.now fh.now; after = Some after } }
{
    WccData {
        before: pre_attributes(nodes, fh),
        after: Some(after),
    }
}

/// The attributes of the object that a handle names, where a call leaves it.
pub fn unchanged(nodes: &Nodes, fh: &RawHandle) -> WccData
    ensures { result ≡ wcc nodes.now nodes.now fh.now }
{
    WccData {
        before: pre_attributes(nodes, fh),
        after: post_attributes(nodes, fh),
    }
}

/// The refusal of a call, which leaves the object that a handle names.
pub fn refused(nodes: &Nodes, fh: &RawHandle, status: NfsStatus) -> Refused<WccData>
    ensures { result ≡ record { status = status; attributes = wcc nodes.now nodes.now fh.now } }
{
    Refused {
        status,
        attributes: unchanged(nodes, fh),
    }
}

/// The answer of a procedure that tells the same whether it is done or refused.
pub fn wcc_answer(
    done: Result<(), NfsStatus>,
    attributes: WccData,
) -> Result<WccData, Refused<WccData>>
    ensures { result ≡ results_or (result_err done) attributes attributes }
{
    match done {
        Ok(()) => Ok(attributes),
        Err(status) => Err(Refused { status, attributes }),
    }
}

/// The answer of a procedure that makes an object, by the attributes of the directory before the call, and by its
/// fileid where the procedure is done.
pub fn create_answer(
    nodes: &Nodes,
    before: Option<WccAttr>,
    at: &DirOpArgs,
    done: Result<u64, NfsStatus>,
) -> Result<CreateOk, Refused<WccData>>
    requires { IfOk done (λ dir. dir ≡ fileid_in at.now.directory) }
    ensures { (t : Tree) → before ≡ pre_attributes t at.now.directory → result ≡ results_or (result_err done) (created t nodes.now at.now) (wcc t nodes.now at.now.directory) }
{
    let directory = WccData {
        before,
        after: post_attributes(nodes, &at.directory),
    };
    match done {
        Ok(dir) => {
            let volume = nodes.volume();
            let fileid = nodes.named(dir, at.name.as_slice()).unwrap_or(0);
            Ok(CreateOk {
                handle: Handle { volume, fileid },
                object: object_attributes(nodes, fileid),
                directory,
            })
        }
        Err(status) => Err(Refused {
            status,
            attributes: directory,
        }),
    }
}
