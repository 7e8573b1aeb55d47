//! CREATE, RFC 1813 section 3.3.8.

ghost use Rattle.std.specs.Prelude.{◌≡◌, IfOk, IfSome, IsSome, OnErr, OnOk, true};
ghost use Rattle.std.specs.Result.{result_err};
ghost use Rattle.sky_nfs.specs.Changes.{add_node};
ghost use Rattle.sky_nfs.specs.Handles.{fileid_in};
ghost use Rattle.sky_nfs.specs.Procedure.{refusal_of, tree_after};
ghost use Rattle.sky_nfs.specs.Procedures.Create.{created, free_rules, keeps, new_file, set_by, taken_rules, taken_tree, unchecked_size};
ghost use Rattle.sky_nfs.specs.Results.{results_or, wcc};
ghost use Rattle.sky_nfs.specs.Rules.{first_of};
ghost use Rattle.sky_nfs.specs.Tree.{is_directory, named, node_at, the_node};
ghost use Rattle.sky_nfs.specs.Validity.{IsValidTree};
ghost use Rattle.sky_nfs.specs.declared.call.Call.{Call};
ghost use Rattle.sky_tree.specs.Creating.{place_rules, use_rules};

use crate::attribute_rules::{has_bad_time, is_too_big, may_not_set_owners};
use crate::name_rules::{check_new_room, new_name};
use crate::results::{create_answer, pre_attributes};
use crate::rules::{
    check_name, is_dots, lacks, lacks_unless_owner, node, refuse_if, resolve_directory,
};
use sky_base::{Cred, Moment, NoMemory, Want};
use sky_nfs::{CreateHow, CreateOk, DirOpArgs, NfsStatus, Refused, SetAttr, SetTime, WccData};
use sky_nodes::{Content, FileBytes, Node, Nodes};
use std::alloc::Global;

/// Nothing is set.
const NOTHING_SET: SetAttr = SetAttr {
    mode: None,
    uid: None,
    gid: None,
    size: None,
    atime: SetTime::Keep,
    mtime: SetTime::Keep,
};

/// The attributes of a new file: an exclusive CREATE gives none.
pub fn set_by(how: CreateHow) -> SetAttr
    ensures { result ≡ set_by how }
{
    match how {
        CreateHow::Unchecked(set) | CreateHow::Guarded(set) => set,
        CreateHow::Exclusive(_) => NOTHING_SET,
    }
}

/// The size that an unchecked CREATE sets.
pub fn unchecked_size(how: CreateHow) -> Option<u64>
    ensures { result ≡ unchecked_size how }
{
    match how {
        CreateHow::Unchecked(set) => set.size,
        CreateHow::Guarded(_) | CreateHow::Exclusive(_) => None,
    }
}

/// Whether a file keeps this verifier.
fn keeps(kept: Option<[u8; 8]>, verifier: [u8; 8]) -> bool
    ensures { result ≡ keeps kept verifier }
{
    match kept {
        Some(kept) => kept.as_slice() == verifier.as_slice(),
        None => false,
    }
}

/// Where the name stands for a node.
fn check_taken(nodes: &Nodes, cred: &Cred, fileid: u64, how: CreateHow) -> Result<(), NfsStatus>
    requires { IsSome (node_at nodes.now.nodes fileid) }
    ensures { result_err result ≡ first_of (taken_rules nodes.now cred.now fileid how) }
{
    let node = node(nodes, fileid);
    match how {
        CreateHow::Guarded(_) => Err(NfsStatus::Exist),
        CreateHow::Exclusive(verifier) => {
            refuse_if(!node.is_file(), NfsStatus::Exist)?;
            refuse_if(!keeps(node.verifier(), verifier), NfsStatus::Exist)
        }
        CreateHow::Unchecked(set) => {
            refuse_if(!node.is_file(), NfsStatus::Exist)?;
            let lacks = lacks_unless_owner(nodes, cred, fileid, Want::Write);
            refuse_if(set.size.is_some() && lacks, NfsStatus::Acces)?;
            refuse_if(is_too_big(set.size), NfsStatus::FBig)
        }
    }
}

/// Where the name is free.
fn check_free(
    nodes: &Nodes,
    cred: &Cred,
    dir: u64,
    name: &[u8],
    set: &SetAttr,
) -> Result<(), NfsStatus>
    requires there { IsSome (node_at nodes.now.nodes dir) }
    requires directory { is_directory (the_node nodes.now dir) ≡ true }
    ensures { result_err result ≡ first_of (free_rules nodes.now cred.now dir name.now set.now) }
{
    refuse_if(lacks(nodes, cred, dir, Want::Write), NfsStatus::Acces)?;
    refuse_if(has_bad_time(set), NfsStatus::Inval)?;
    refuse_if(
        may_not_set_owners(cred, cred.uid, cred.gid, set),
        NfsStatus::Perm,
    )?;
    refuse_if(is_too_big(set.size), NfsStatus::FBig)?;
    check_new_room(nodes, dir, name)
}

/// The directory and the name of a CREATE, as far as it doesn't matter what the name stands for.
fn check_place(nodes: &Nodes, cred: &Cred, at: &DirOpArgs) -> Result<u64, NfsStatus>
    ensures refused { result_err result ≡ first_of (place_rules nodes.now cred.now at.now) }
    ensures dir { IfOk result (λ dir. dir ≡ fileid_in at.now.directory) }
    ensures there { IfOk result (λ dir. IsSome (node_at nodes.now.nodes dir)) }
    ensures directory { IfOk result (λ dir. is_directory (the_node nodes.now dir) ≡ true) }
{
    let name = at.name.as_slice();
    let dir = resolve_directory(nodes, &at.directory)?;
    check_name(name)?;
    refuse_if(is_dots(name), NfsStatus::Exist)?;
    refuse_if(lacks(nodes, cred, dir, Want::Execute), NfsStatus::Acces)?;
    Ok(dir)
}

/// The use of a name: it stands for a node, or for none.
fn check_use(
    nodes: &Nodes,
    cred: &Cred,
    dir: u64,
    name: &[u8],
    named: Option<u64>,
    how: CreateHow,
) -> Result<(), NfsStatus>
    requires there { IsSome (node_at nodes.now.nodes dir) }
    requires directory { is_directory (the_node nodes.now dir) ≡ true }
    requires named { IfSome named (λ fileid. IsSome (node_at nodes.now.nodes fileid)) }
    ensures { result_err result ≡ first_of (use_rules nodes.now cred.now how dir name.now named) }
{
    match named {
        Some(fileid) => check_taken(nodes, cred, fileid, how),
        None => check_free(nodes, cred, dir, name, &set_by(how)),
    }
}

/// The directory in which a CREATE makes or takes a file, or why it is refused.
pub fn check_create(
    nodes: &Nodes,
    cred: &Cred,
    at: &DirOpArgs,
    how: CreateHow,
) -> Result<u64, NfsStatus>
    requires { IsValidTree nodes.now }
    ensures refused { result_err result ≡ refusal_of nodes.now cred.now (Call.Create at.now how) }
    ensures dir { IfOk result (λ dir. dir ≡ fileid_in at.now.directory) }
{
    let dir = check_place(nodes, cred, at)?;
    let name = at.name.as_slice();
    let named = nodes.named(dir, name);
    check_use(nodes, cred, dir, name, named, how)?;
    Ok(dir)
}

/// A new file. Its mode is 0644 where none is set.
fn new_file(alloc: Global, cred: &Cred, now: Moment, how: CreateHow) -> Result<Node, NoMemory>
    ensures { IfOk result (λ node. node ≡ new_file cred.now now how) }
{
    let set = set_by(how);
    let mut bytes = FileBytes::new(alloc);
    bytes.resize(set.size.unwrap_or(0))?;
    let mut node = Node::new(cred, now, 0o644, &set, Content::File(bytes));
    if let CreateHow::Exclusive(verifier) = how {
        node.keep_verifier(verifier);
    }
    Ok(node)
}

/// The file that has the name: an unchecked CREATE that sets a size cuts it or continues it, and all else stays.
fn take_file(nodes: &mut Nodes, fileid: u64, size: Option<u64>, now: Moment) -> Result<(), NoMemory>
    requires { IsSome (node_at nodes.old.nodes fileid) }
    ensures taken { OnOk result (nodes.new ≡ taken_tree nodes.old fileid size now) }
    ensures err { OnErr result (nodes.new ≡ nodes.old) }
{
    match size {
        Some(size) => nodes.take_size(fileid, size, now),
        None => Ok(()),
    }
}

/// Does a CREATE, or says why it is refused. The answer is the directory's fileid.
fn do_create(
    alloc: Global,
    nodes: &mut Nodes,
    cred: &Cred,
    at: &DirOpArgs,
    how: CreateHow,
    now: Moment,
) -> Result<Result<u64, NfsStatus>, NoMemory>
    requires { IsValidTree nodes.old }
    ensures refused { IfOk result (λ done. result_err done ≡ refusal_of nodes.old cred.now (Call.Create at.now how)) }
    ensures dir { IfOk result (λ done. IfOk done (λ dir. dir ≡ fileid_in at.now.directory)) }
    ensures tree { OnOk result (nodes.new ≡ tree_after nodes.old cred.now (Call.Create at.now how) now) }
    ensures err { OnErr result (nodes.new ≡ nodes.old) }
{
    let dir = match check_create(nodes, cred, at, how) {
        Ok(dir) => dir,
        Err(status) => return Ok(Err(status)),
    };
    match nodes.named(dir, at.name.as_slice()) {
        Some(fileid) => take_file(nodes, fileid, unchecked_size(how), now)?,
        None => {
            let name = new_name(alloc, &at.name)?;
            let file = new_file(alloc, cred, now, how)?;
            nodes.add_node(now, dir, name, file)?;
        }
    }
    Ok(Ok(dir))
}

/// Does a CREATE, and answers it. `NoMemory` leaves all as it was.
pub fn create(
    alloc: Global,
    nodes: &mut Nodes,
    cred: &Cred,
    at: &DirOpArgs,
    how: CreateHow,
    now: Moment,
) -> Result<Result<CreateOk, Refused<WccData>>, NoMemory>
    requires { IsValidTree nodes.old }
    ensures tree { OnOk result (nodes.new ≡ tree_after nodes.old cred.now (Call.Create at.now how) now) }
    ensures answer { IfOk result (λ answer. answer ≡ results_or (refusal_of nodes.old cred.now (Call.Create at.now how)) (created nodes.old nodes.new at.now) (wcc nodes.old nodes.new at.now.directory)) }
    ensures err { OnErr result (nodes.new ≡ nodes.old) }
{
    let before = pre_attributes(nodes, &at.directory);
    let done = do_create(alloc, nodes, cred, at, how, now)?;
    Ok(create_answer(nodes, before, at, done))
}
