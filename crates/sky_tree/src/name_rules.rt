//! The rules of refusal on a name that a directory is to get.

ghost use Rattle.std.specs.Prelude.{◌≡◌, ◌≤◌, ◌<◌, ◌^◌, IfOk, IsSome, length, true};
ghost use Rattle.std.specs.Result.{result_err};
ghost use Rattle.sky_nfs.specs.Procedures.Mkdir.{new_name_rules};
ghost use Rattle.sky_nfs.specs.Rules.{entry_room_rules, first_of, new_room_rules, node_room_rules};
ghost use Rattle.sky_nfs.specs.Tree.{is_directory, listing_of, node_at, the_node};

use crate::rules::{is_dots, lacks, node, refuse_if};
use sky_base::{Cred, Name, NoMemory, Want};
use sky_nfs::{Bytes, NfsStatus};
use sky_nodes::{Node, Nodes};
use std::alloc::Global;

/// The most nodes of a volume.
const MAX_NODES: usize = 1 << 20;

/// The next fileid of a volume in which no further node is made.
const MAX_FILEID: u64 = 1 << 26;

/// A name that is free, in a directory that the caller may change.
pub fn check_new_name(nodes: &Nodes, cred: &Cred, dir: u64, name: &[u8]) -> Result<(), NfsStatus>
    requires { IsSome (node_at nodes.now.nodes dir) }
    ensures { result_err result ≡ first_of (new_name_rules nodes.now cred.now dir name.now) }
{
    refuse_if(is_dots(name), NfsStatus::Exist)?;
    refuse_if(lacks(nodes, cred, dir, Want::Execute), NfsStatus::Acces)?;
    refuse_if(nodes.named(dir, name).is_some(), NfsStatus::Exist)?;
    refuse_if(lacks(nodes, cred, dir, Want::Write), NfsStatus::Acces)
}

/// Room for a new node.
fn check_node_room(nodes: &Nodes) -> Result<(), NfsStatus>
    ensures { result_err result ≡ first_of (node_room_rules nodes.now) }
{
    refuse_if(nodes.len() >= MAX_NODES, NfsStatus::NoSpc)?;
    refuse_if(nodes.next_fileid() >= MAX_FILEID, NfsStatus::NoSpc)
}

/// Room for an entry in a directory.
pub fn check_entry_room(directory: &Node, name: &[u8]) -> Result<(), NfsStatus>
    requires { is_directory directory.now ≡ true }
    ensures { result_err result ≡ first_of (entry_room_rules (listing_of directory.now) name.now) }
{
    refuse_if(directory.is_crowded(name), NfsStatus::NoSpc)
}

/// Room for a new node under a name of a directory.
pub fn check_new_room(nodes: &Nodes, dir: u64, name: &[u8]) -> Result<(), NfsStatus>
    requires there { IsSome (node_at nodes.now.nodes dir) }
    requires directory { is_directory (the_node nodes.now dir) ≡ true }
    ensures { result_err result ≡ first_of (new_room_rules nodes.now dir name.now) }
{
    check_node_room(nodes)?;
    check_entry_room(node(nodes, dir), name)
}

/// The name of a new entry, which has at most 255 bytes. `NoMemory` where there is no memory for it.
pub fn new_name(alloc: Global, name: &Bytes) -> Result<Name, NoMemory>
    requires { length name.now ≤ 255 }
    ensures { IfOk result (λ r. r ≡ name.now) }
{
    let bytes = Vec::from_slice(alloc, name.as_slice())?;
    Ok(Name::new(bytes).unwrap())
}
