//! What MKDIR and SYMLINK will answer.

ghost use Rattle.std.specs.Prelude.{◌≡◌, Some};
ghost use Rattle.sky_nfs.specs.Changes.{new_node};
ghost use Rattle.sky_nfs.specs.Procedure.{refusal_of, tree_after};
ghost use Rattle.sky_nfs.specs.Procedures.Create.{created};
ghost use Rattle.sky_nfs.specs.Results.{pre_attributes, results_or, wcc};
ghost use Rattle.sky_nfs.specs.Tree.{attributes_of};
ghost use Rattle.sky_nfs.specs.Validity.{IsValidTree};
ghost use Rattle.sky_nfs.specs.declared.call.Call.{Call};
ghost use Rattle.sky_nodes.specs.Contents.{content_of};

use crate::attr_changes::{entered, linked, of_size};
use crate::create::{check_mkdir, check_symlink};
use crate::results::{refused, wcc_after};
use crate::rules::attributes_at;
use sky_base::{Attr, Cred, Moment};
use sky_dir::Entries;
use sky_nfs::{Bytes, CreateOk, DirOpArgs, Handle, Refused, SetAttr, WccData};
use sky_nodes::{Content, Node, Nodes};
use std::alloc::Global;

/// The results of a procedure that makes a node of these attributes, by those of its directory after the call.
pub fn made(nodes: &Nodes, at: &DirOpArgs, object: Attr, directory: Attr) -> CreateOk
    ensures { result ≡ record { handle = record { volume = nodes.now.volume; fileid = nodes.now.next_fileid }; object = Some object; directory = record { before = pre_attributes nodes.now at.now.directory; after = Some directory } } }
{
    CreateOk {
        handle: Handle {
            volume: nodes.volume(),
            fileid: nodes.next_fileid(),
        },
        object: Some(object),
        directory: wcc_after(nodes, &at.directory, directory),
    }
}

/// The attributes of a new node of a caller, which holds this and has this mode, at the next fileid.
pub fn new_attributes(
    nodes: &Nodes,
    cred: &Cred,
    now: Moment,
    mode: u32,
    set: &SetAttr,
    content: Content,
) -> Attr
    ensures { result ≡ attributes_of nodes.now.volume nodes.now.next_fileid (new_node cred.now now mode set.now (content_of content)) }
{
    let node = Node::new(cred, now, mode, set, content);
    node.attributes(nodes.volume(), nodes.next_fileid())
}

/// What a MKDIR will answer.
pub fn predict_mkdir(
    alloc: Global,
    nodes: &Nodes,
    cred: &Cred,
    at: &DirOpArgs,
    set: &SetAttr,
    now: Moment,
) -> Result<CreateOk, Refused<WccData>>
    requires { IsValidTree nodes.now }
    ensures { let call = Call.Mkdir at.now set.now in let after = tree_after nodes.now cred.now call now in result ≡ results_or (refusal_of nodes.now cred.now call) (created nodes.now after at.now) (wcc nodes.now after at.now.directory) }
{
    match check_mkdir(nodes, cred, at, set) {
        Ok(dir) => {
            let content = Content::Directory(dir, Entries::new(alloc));
            let object = new_attributes(nodes, cred, now, 0o755, set, content);
            let named = entered(&attributes_at(nodes, dir), at.name.as_slice(), now);
            Ok(made(nodes, at, object, linked(&named)))
        }
        Err(status) => Err(refused(nodes, &at.directory, status)),
    }
}

/// What a SYMLINK will answer. The new link's attributes are those of one without a text, but for the size.
pub fn predict_symlink(
    alloc: Global,
    nodes: &Nodes,
    cred: &Cred,
    at: &DirOpArgs,
    set: &SetAttr,
    text: &Bytes,
    now: Moment,
) -> Result<CreateOk, Refused<WccData>>
    requires { IsValidTree nodes.now }
    ensures { let call = Call.Symlink at.now set.now text.now in let after = tree_after nodes.now cred.now call now in result ≡ results_or (refusal_of nodes.now cred.now call) (created nodes.now after at.now) (wcc nodes.now after at.now.directory) }
{
    match check_symlink(nodes, cred, at, set, text) {
        Ok(dir) => {
            let content = Content::Link(Bytes::new(Vec::new(alloc)));
            let empty = new_attributes(nodes, cred, now, 0o777, set, content);
            let object = of_size(&empty, text.as_slice().len() as u64);
            let directory = entered(&attributes_at(nodes, dir), at.name.as_slice(), now);
            Ok(made(nodes, at, object, directory))
        }
        Err(status) => Err(refused(nodes, &at.directory, status)),
    }
}
