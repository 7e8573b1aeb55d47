//! MKDIR and SYMLINK, RFC 1813 sections 3.3.9 and 3.3.10.

ghost use Rattle.std.specs.Prelude.{◌≡◌, [], ◌∷◌, ◌++◌, IfOk, IsSome, OnErr, OnOk, length, nat_lt, true};
ghost use Rattle.std.specs.Result.{result_err};
ghost use Rattle.sky_base.specs.Limits.{max_link_text_bytes};
ghost use Rattle.sky_nfs.specs.Handles.{fileid_in};
ghost use Rattle.sky_nfs.specs.Procedure.{refusal_of, tree_after};
ghost use Rattle.sky_nfs.specs.Procedures.Create.{created};
ghost use Rattle.sky_nfs.specs.Procedures.Mkdir.{new_attribute_rules, new_name_rules};
ghost use Rattle.sky_nfs.specs.Results.{results_or, wcc};
ghost use Rattle.sky_nfs.specs.Rules.{first_of, has_byte, new_room_rules};
ghost use Rattle.sky_nfs.specs.Tree.{is_directory, node_at, the_node};
ghost use Rattle.sky_nfs.specs.Validity.{IsValidTree};
ghost use Rattle.sky_nfs.specs.declared.call.Call.{Call};
ghost use Rattle.sky_nfs.specs.declared.status.NfsStatus.TheVariants.{Inval, NameTooLong};

use crate::attribute_rules::check_new_attributes;
use crate::name_rules::{check_new_name, check_new_room, new_name};
use crate::results::{create_answer, pre_attributes};
use crate::rules::{check_name, refuse_if, resolve_directory};
use sky_base::{Cred, Moment, NoMemory};
use sky_dir::Entries;
use sky_nfs::{Bytes, CreateOk, DirOpArgs, NfsStatus, Refused, SetAttr, WccData};
use sky_nodes::{Content, Node, Nodes};
use std::alloc::Global;

/// The most bytes of a symbolic link's text.
const MAX_TEXT: usize = 1024;

/// A new directory or link under a name of a directory: the name is free, the attributes can be set, and there is room.
fn check_new_object(
    nodes: &Nodes,
    cred: &Cred,
    dir: u64,
    name: &[u8],
    set: &SetAttr,
) -> Result<(), NfsStatus>
    requires there { IsSome (node_at nodes.now.nodes dir) }
    requires directory { is_directory (the_node nodes.now dir) ≡ true }
    ensures { result_err result ≡ first_of (new_name_rules nodes.now cred.now dir name.now ++ new_attribute_rules cred.now set.now ++ new_room_rules nodes.now dir name.now) }
{
    check_new_name(nodes, cred, dir, name)?;
    check_new_attributes(cred, set)?;
    check_new_room(nodes, dir, name)
}

/// The directory in which a MKDIR makes a directory, or why it is refused.
#[tactic(auto, unfolding(sky_nfs::specs::Procedure::refusal_of, sky_nfs::specs::Procedure::rules_of))]
pub fn check_mkdir(
    nodes: &Nodes,
    cred: &Cred,
    at: &DirOpArgs,
    set: &SetAttr,
) -> Result<u64, NfsStatus>
    ensures refused { result_err result ≡ refusal_of nodes.now cred.now (Call.Mkdir at.now set.now) }
    ensures dir { IfOk result (λ dir. dir ≡ fileid_in at.now.directory) }
{
    let name = at.name.as_slice();
    let dir = resolve_directory(nodes, &at.directory)?;
    check_name(name)?;
    check_new_object(nodes, cred, dir, name, set)?;
    Ok(dir)
}

/// Whether a text has a NUL.
fn has_nul(text: &[u8]) -> bool
    ensures { result ≡ has_byte 0 text.now }
{
    text.contains(&0)
}

/// A text that a symbolic link can have.
fn check_text(text: &[u8]) -> Result<(), NfsStatus>
    ensures { result_err result ≡ first_of ((nat_lt max_link_text_bytes (length text.now), NameTooLong) ∷ (has_byte 0 text.now, Inval) ∷ []) }
{
    refuse_if(text.len() > MAX_TEXT, NfsStatus::NameTooLong)?;
    refuse_if(has_nul(text), NfsStatus::Inval)
}

/// The directory in which a SYMLINK makes a link, or why it is refused.
pub fn check_symlink(
    nodes: &Nodes,
    cred: &Cred,
    at: &DirOpArgs,
    set: &SetAttr,
    text: &Bytes,
) -> Result<u64, NfsStatus>
    ensures refused { result_err result ≡ refusal_of nodes.now cred.now (Call.Symlink at.now set.now text.now) }
    ensures dir { IfOk result (λ dir. dir ≡ fileid_in at.now.directory) }
{
    let name = at.name.as_slice();
    let text = text.as_slice();
    let dir = resolve_directory(nodes, &at.directory)?;
    check_name(name)?;
    check_text(text)?;
    check_new_object(nodes, cred, dir, name, set)?;
    Ok(dir)
}

/// Does a MKDIR, or says why it is refused. The answer is the directory's fileid.
fn do_mkdir(
    alloc: Global,
    nodes: &mut Nodes,
    cred: &Cred,
    at: &DirOpArgs,
    set: &SetAttr,
    now: Moment,
) -> Result<Result<u64, NfsStatus>, NoMemory>
    requires { IsValidTree nodes.old }
    ensures refused { IfOk result (λ done. result_err done ≡ refusal_of nodes.old cred.now (Call.Mkdir at.now set.now)) }
    ensures dir { IfOk result (λ done. IfOk done (λ dir. dir ≡ fileid_in at.now.directory)) }
    ensures tree { OnOk result (nodes.new ≡ tree_after nodes.old cred.now (Call.Mkdir at.now set.now) now) }
    ensures err { OnErr result (nodes.new ≡ nodes.old) }
{
    let dir = match check_mkdir(nodes, cred, at, set) {
        Ok(dir) => dir,
        Err(status) => return Ok(Err(status)),
    };
    let name = new_name(alloc, &at.name)?;
    let content = Content::Directory(dir, Entries::new(alloc));
    nodes.add_node(now, dir, name, Node::new(cred, now, 0o755, set, content))?;
    nodes.add_link(dir);
    Ok(Ok(dir))
}

/// Does a SYMLINK, or says why it is refused. The answer is the directory's fileid.
fn do_symlink(
    alloc: Global,
    nodes: &mut Nodes,
    cred: &Cred,
    at: &DirOpArgs,
    set: &SetAttr,
    text: &Bytes,
    now: Moment,
) -> Result<Result<u64, NfsStatus>, NoMemory>
    requires { IsValidTree nodes.old }
    ensures refused { IfOk result (λ done. result_err done ≡ refusal_of nodes.old cred.now (Call.Symlink at.now set.now text.now)) }
    ensures dir { IfOk result (λ done. IfOk done (λ dir. dir ≡ fileid_in at.now.directory)) }
    ensures tree { OnOk result (nodes.new ≡ tree_after nodes.old cred.now (Call.Symlink at.now set.now text.now) now) }
    ensures err { OnErr result (nodes.new ≡ nodes.old) }
{
    let dir = match check_symlink(nodes, cred, at, set, text) {
        Ok(dir) => dir,
        Err(status) => return Ok(Err(status)),
    };
    let name = new_name(alloc, &at.name)?;
    let content = Content::Link(Bytes::new(Vec::from_slice(alloc, text.as_slice())?));
    nodes.add_node(now, dir, name, Node::new(cred, now, 0o777, set, content))?;
    Ok(Ok(dir))
}

/// Does a MKDIR, and answers it. `NoMemory` leaves all as it was.
pub fn mkdir(
    alloc: Global,
    nodes: &mut Nodes,
    cred: &Cred,
    at: &DirOpArgs,
    set: &SetAttr,
    now: Moment,
) -> Result<Result<CreateOk, Refused<WccData>>, NoMemory>
    requires { IsValidTree nodes.old }
    ensures tree { OnOk result (nodes.new ≡ tree_after nodes.old cred.now (Call.Mkdir at.now set.now) now) }
    ensures answer { IfOk result (λ answer. answer ≡ results_or (refusal_of nodes.old cred.now (Call.Mkdir at.now set.now)) (created nodes.old nodes.new at.now) (wcc nodes.old nodes.new at.now.directory)) }
    ensures err { OnErr result (nodes.new ≡ nodes.old) }
{
    let before = pre_attributes(nodes, &at.directory);
    let done = do_mkdir(alloc, nodes, cred, at, set, now)?;
    Ok(create_answer(nodes, before, at, done))
}

/// Does a SYMLINK, and answers it. `NoMemory` leaves all as it was.
pub fn symlink(
    alloc: Global,
    nodes: &mut Nodes,
    cred: &Cred,
    at: &DirOpArgs,
    set: &SetAttr,
    text: &Bytes,
    now: Moment,
) -> Result<Result<CreateOk, Refused<WccData>>, NoMemory>
    requires { IsValidTree nodes.old }
    ensures tree { OnOk result (nodes.new ≡ tree_after nodes.old cred.now (Call.Symlink at.now set.now text.now) now) }
    ensures answer { IfOk result (λ answer. answer ≡ results_or (refusal_of nodes.old cred.now (Call.Symlink at.now set.now text.now)) (created nodes.old nodes.new at.now) (wcc nodes.old nodes.new at.now.directory)) }
    ensures err { OnErr result (nodes.new ≡ nodes.old) }
{
    let before = pre_attributes(nodes, &at.directory);
    let done = do_symlink(alloc, nodes, cred, at, set, text, now)?;
    Ok(create_answer(nodes, before, at, done))
}
