//! What CREATE will answer.

ghost use Rattle.std.specs.Prelude.{◌≡◌, IsSome, Some, true};
ghost use Rattle.sky_nfs.specs.Handles.{fileid_in};
ghost use Rattle.sky_nfs.specs.Procedure.{refusal_of, tree_after};
ghost use Rattle.sky_nfs.specs.Procedures.Create.{created, new_file, taken_tree};
ghost use Rattle.sky_nfs.specs.Results.{results_or, wcc};
ghost use Rattle.sky_nfs.specs.Tree.{attributes_of, is_directory, is_file, named, node_at, the_node};
ghost use Rattle.sky_nfs.specs.Validity.{IsValidTree};
ghost use Rattle.sky_nfs.specs.declared.call.Call.{Call};

use crate::attr_changes::{entered, of_size, taken};
use crate::create_file::{check_create, set_by, unchecked_size};
use crate::predict_make::{made, new_attributes};
use crate::results::{refused, unchanged};
use crate::rules::attributes_at;
use sky_base::{Attr, Cred, Moment};
use sky_nfs::{CreateHow, CreateOk, DirOpArgs, Handle, Refused, WccData};
use sky_nodes::{Content, FileBytes, Nodes};
use std::alloc::Global;

/// The attributes of a new file: those of one without bytes, but for the size.
fn new_file_attributes(
    alloc: Global,
    nodes: &Nodes,
    cred: &Cred,
    now: Moment,
    how: CreateHow,
) -> Attr
    ensures { result ≡ attributes_of nodes.now.volume nodes.now.next_fileid (new_file cred.now now how) }
{
    let set = set_by(how);
    let content = Content::File(FileBytes::new(alloc));
    let empty = new_attributes(nodes, cred, now, 0o644, &set, content);
    of_size(&empty, set.size.unwrap_or(0))
}

/// The results where the name stands for a file: its directory is left.
fn taken_results(
    nodes: &Nodes,
    at: &DirOpArgs,
    fileid: u64,
    size: Option<u64>,
    now: Moment,
) -> CreateOk
    requires valid { IsValidTree nodes.now }
    requires there { IsSome (node_at nodes.now.nodes fileid) }
    requires file { is_file (the_node nodes.now fileid) ≡ true }
    requires directory { is_directory (the_node nodes.now (fileid_in at.now.directory)) ≡ true }
    requires named { named nodes.now (fileid_in at.now.directory) at.now.name ≡ Some fileid }
    ensures { result ≡ created nodes.now (taken_tree nodes.now fileid size now) at.now }
{
    let object = taken(&attributes_at(nodes, fileid), size, now);
    CreateOk {
        handle: Handle {
            volume: nodes.volume(),
            fileid,
        },
        object: Some(object),
        directory: unchanged(nodes, &at.directory),
    }
}

/// What a CREATE will answer.
pub fn predict_create(
    alloc: Global,
    nodes: &Nodes,
    cred: &Cred,
    at: &DirOpArgs,
    how: CreateHow,
    now: Moment,
) -> Result<CreateOk, Refused<WccData>>
    requires { IsValidTree nodes.now }
    ensures { let call = Call.Create at.now how in let after = tree_after nodes.now cred.now call now in result ≡ results_or (refusal_of nodes.now cred.now call) (created nodes.now after at.now) (wcc nodes.now after at.now.directory) }
{
    let name = at.name.as_slice();
    match check_create(nodes, cred, at, how) {
        Ok(dir) => match nodes.named(dir, name) {
            Some(fileid) => Ok(taken_results(nodes, at, fileid, unchecked_size(how), now)),
            None => {
                let object = new_file_attributes(alloc, nodes, cred, now, how);
                let directory = entered(&attributes_at(nodes, dir), name, now);
                Ok(made(nodes, at, object, directory))
            }
        },
        Err(status) => Err(refused(nodes, &at.directory, status)),
    }
}
