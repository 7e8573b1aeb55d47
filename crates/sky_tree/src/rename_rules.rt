//! The rules of refusal of RENAME.

ghost use Rattle.std.specs.Prelude.{◌≡◌, ◌&&◌, IfOk, IsSome, Some, false, true};
ghost use Rattle.std.specs.Result.{result_err};
ghost use Rattle.std.specs.Str.{bytes_eq};
ghost use Rattle.sky_base.specs.Listing.{size_of_listing};
ghost use Rattle.sky_nfs.specs.Handles.{fileid_in};
ghost use Rattle.sky_nfs.specs.Procedure.{refusal_of};
ghost use Rattle.sky_nfs.specs.Procedures.Rename.{is_same, move_rules, staying, target_rules};
ghost use Rattle.sky_nfs.specs.Rules.{entry_room_rules, first_of};
ghost use Rattle.sky_nfs.specs.Tree.{is_at_or_below, is_directory, named, node_at, parent_of, the_node};
ghost use Rattle.sky_nfs.specs.declared.call.Call.{Call};
ghost use Rattle.sky_tree.specs.Renaming.{rename_name_rules, rename_place_rules, rename_source_rules, rename_target_rules};

use crate::remove::has_entries;
use crate::rules::{check_name, is_dots, lacks, node, refuse_if, resolve};
use sky_base::{Cred, Want};
use sky_dir::Entries;
use sky_nfs::{DirOpArgs, NfsStatus, RawHandle};
use sky_nodes::Nodes;

/// What an entry has beside its name, in bytes.
const ENTRY_OVERHEAD: u64 = 18;

/// What a RENAME moves: a node, from one directory to another one or within one, by their fileids.
#[derive(Clone, Copy)]
pub struct Move {
    pub from: u64,
    pub to: u64,
    pub fileid: u64,
}

/// The fileid of a directory's parent, and 0 where no directory stands.
fn parent_of(nodes: &Nodes, dir: u64) -> u64
    ensures { result ≡ parent_of (the_node nodes.now dir) }
{
    nodes.get(dir).map_or(0, |node| node.parent())
}

/// Whether a directory is another one, or lies below it. It goes up to the root, whose parent is the root.
fn is_at_or_below(nodes: &Nodes, start: u64, above: u64) -> bool
    ensures { result ≡ is_at_or_below nodes.now start above }
{
    let mut dir = start;
    for _step in 0..nodes.len() {
        if dir == above {
            return true;
        }
        let parent = parent_of(nodes, dir);
        if parent == dir {
            return false;
        }
        dir = parent;
    }
    false
}

/// Whether a directory stands at a fileid, and another one is it or lies below it.
fn is_directory_above(nodes: &Nodes, fileid: u64, dir: u64) -> bool
    ensures { result ≡ (is_directory (the_node nodes.now fileid) && is_at_or_below nodes.now dir fileid) }
{
    nodes.is_directory(fileid) && is_at_or_below(nodes, dir, fileid)
}

/// Both directories of a RENAME.
fn check_directories(
    nodes: &Nodes,
    from: &RawHandle,
    to: &RawHandle,
) -> Result<(u64, u64), NfsStatus>
    ensures refused { result_err result ≡ first_of (rename_place_rules nodes.now from.now to.now) }
    ensures from { IfOk result (λ p. p.0 ≡ fileid_in from.now) }
    ensures to { IfOk result (λ p. p.1 ≡ fileid_in to.now) }
    ensures source { IfOk result (λ p. IsSome (node_at nodes.now.nodes p.0)) }
    ensures target { IfOk result (λ p. IsSome (node_at nodes.now.nodes p.1)) }
    ensures is_directory { IfOk result (λ p. is_directory (the_node nodes.now p.1) ≡ true) }
{
    let source = resolve(nodes, from)?;
    let target = resolve(nodes, to)?;
    refuse_if(!nodes.is_directory(source), NfsStatus::NotDir)?;
    refuse_if(!nodes.is_directory(target), NfsStatus::NotDir)?;
    Ok((source, target))
}

/// Both names of a RENAME.
fn check_names(from_name: &[u8], to_name: &[u8]) -> Result<(), NfsStatus>
    ensures { result_err result ≡ first_of (rename_name_rules from_name.now to_name.now) }
{
    check_name(from_name)?;
    check_name(to_name)?;
    refuse_if(is_dots(from_name) || is_dots(to_name), NfsStatus::Inval)
}

/// The node that the old name stands for, where the caller may change both directories.
fn check_source(
    nodes: &Nodes,
    cred: &Cred,
    from: u64,
    name: &[u8],
    to: u64,
) -> Result<u64, NfsStatus>
    requires source { IsSome (node_at nodes.now.nodes from) }
    requires target { IsSome (node_at nodes.now.nodes to) }
    ensures refused { result_err result ≡ first_of (rename_source_rules nodes.now cred.now from name.now to) }
    ensures fileid { IfOk result (λ fileid. named nodes.now from name.now ≡ Some fileid) }
{
    refuse_if(lacks(nodes, cred, from, Want::Execute), NfsStatus::Acces)?;
    refuse_if(lacks(nodes, cred, from, Want::Write), NfsStatus::Acces)?;
    refuse_if(lacks(nodes, cred, to, Want::Execute), NfsStatus::Acces)?;
    refuse_if(lacks(nodes, cred, to, Want::Write), NfsStatus::Acces)?;
    nodes.named(from, name).ok_or(NfsStatus::NoEnt)
}

/// Whether a name stands for this node.
pub fn stands_for(nodes: &Nodes, dir: u64, name: &[u8], fileid: u64) -> bool
    ensures { result ≡ is_same (Some fileid) (named nodes.now dir name.now) }
{
    nodes.named(dir, name).is_some_and(|other| fileid == other)
}

/// What the new name stands for may be in the way of the node that moves.
fn check_target(nodes: &Nodes, fileid: u64, target: Option<u64>) -> Result<(), NfsStatus>
    ensures { result_err result ≡ first_of (target_rules nodes.now (the_node nodes.now fileid) target) }
{
    let Some(target) = target else {
        return Ok(());
    };
    let source_is_directory = nodes.is_directory(fileid);
    let target_is_directory = nodes.is_directory(target);
    refuse_if(
        source_is_directory && !target_is_directory || !source_is_directory && target_is_directory,
        NfsStatus::Exist,
    )?;
    refuse_if(
        target_is_directory && has_entries(nodes, target),
        NfsStatus::Exist,
    )
}

/// The size of what stays in the new directory when the target, and in the same directory the old name, are gone.
fn staying_size(nodes: &Nodes, from: u64, from_name: &[u8], to: u64, to_name: &[u8]) -> u64
    requires there { IsSome (node_at nodes.now.nodes to) }
    requires is_directory { is_directory (the_node nodes.now to) ≡ true }
    requires found { IsSome (named nodes.now from from_name.now) }
    requires differ { from ≡ to → bytes_eq to_name.now from_name.now ≡ false }
    ensures { result ≡ size_of_listing (staying nodes.now from from_name.now to to_name.now) }
{
    let rest = node(nodes, to).size_without(to_name);
    if from == to {
        rest - ENTRY_OVERHEAD - from_name.len() as u64
    } else {
        rest
    }
}

/// Room for the new name.
fn check_staying_room(
    nodes: &Nodes,
    from: u64,
    from_name: &[u8],
    to: u64,
    to_name: &[u8],
) -> Result<(), NfsStatus>
    requires there { IsSome (node_at nodes.now.nodes to) }
    requires is_directory { is_directory (the_node nodes.now to) ≡ true }
    requires found { IsSome (named nodes.now from from_name.now) }
    requires differ { from ≡ to → bytes_eq to_name.now from_name.now ≡ false }
    ensures { result_err result ≡ first_of (entry_room_rules (staying nodes.now from from_name.now to to_name.now) to_name.now) }
{
    let size = staying_size(nodes, from, from_name, to, to_name);
    let more = ENTRY_OVERHEAD + to_name.len() as u64;
    refuse_if(
        more > Entries::MAX || size > Entries::MAX - more,
        NfsStatus::NoSpc,
    )?;
    refuse_if(node(nodes, to).is_out_of_cookies(), NfsStatus::NoSpc)
}

/// A node that moves to a name that doesn't stand for it.
fn check_move(
    nodes: &Nodes,
    from: u64,
    from_name: &[u8],
    to: u64,
    to_name: &[u8],
    fileid: u64,
) -> Result<(), NfsStatus>
    requires there { IsSome (node_at nodes.now.nodes to) }
    requires is_directory { is_directory (the_node nodes.now to) ≡ true }
    requires found { IsSome (named nodes.now from from_name.now) }
    requires differ { from ≡ to → bytes_eq to_name.now from_name.now ≡ false }
    ensures { result_err result ≡ first_of (move_rules nodes.now from from_name.now to to_name.now fileid) }
{
    refuse_if(is_directory_above(nodes, fileid, to), NfsStatus::Inval)?;
    check_target(nodes, fileid, nodes.named(to, to_name))?;
    check_staying_room(nodes, from, from_name, to, to_name)
}

/// The new name, which the node may have already.
fn check_target_name(
    nodes: &Nodes,
    from: u64,
    from_name: &[u8],
    to: u64,
    to_name: &[u8],
    fileid: u64,
) -> Result<(), NfsStatus>
    requires there { IsSome (node_at nodes.now.nodes to) }
    requires is_directory { is_directory (the_node nodes.now to) ≡ true }
    requires found { named nodes.now from from_name.now ≡ Some fileid }
    ensures { result_err result ≡ first_of (rename_target_rules nodes.now from from_name.now to to_name.now) }
{
    if stands_for(nodes, to, to_name, fileid) {
        return Ok(());
    }
    check_move(nodes, from, from_name, to, to_name, fileid)
}

/// What a RENAME moves, or why it is refused.
pub fn check_rename(
    nodes: &Nodes,
    cred: &Cred,
    from: &DirOpArgs,
    to: &DirOpArgs,
) -> Result<Move, NfsStatus>
    ensures refused { result_err result ≡ refusal_of nodes.now cred.now (Call.Rename from.now to.now) }
    ensures from { IfOk result (λ m. m.from ≡ fileid_in from.now.directory) }
    ensures to { IfOk result (λ m. m.to ≡ fileid_in to.now.directory) }
    ensures fileid { IfOk result (λ m. named nodes.now m.from from.now.name ≡ Some m.fileid) }
{
    let (source, target) = check_directories(nodes, &from.directory, &to.directory)?;
    let from_name = from.name.as_slice();
    let to_name = to.name.as_slice();
    check_names(from_name, to_name)?;
    let fileid = check_source(nodes, cred, source, from_name, target)?;
    check_target_name(nodes, source, from_name, target, to_name, fileid)?;
    Ok(Move {
        from: source,
        to: target,
        fileid,
    })
}
