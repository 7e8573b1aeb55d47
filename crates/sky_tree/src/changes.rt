//! The procedures that change the tree.

ghost use Rattle.std.specs.Prelude.{◌≡◌, IfOk, IsTrue, OnErr, OnOk, true};
ghost use Rattle.sky_nfs.specs.Calls.{is_change};
ghost use Rattle.sky_nfs.specs.Procedure.{answer_of, refusal_of, tree_after};
ghost use Rattle.sky_nfs.specs.Validity.{IsValidTree};
ghost use Rattle.sky_tree.specs.Memory.{takes_memory};

use crate::create::{mkdir, symlink};
use crate::create_file::create;
use crate::link::link;
use crate::remove::{remove, rmdir};
use crate::rename::rename;
use crate::setattr::setattr;
use crate::write::write;
use sky_base::{Cred, Moment, NoMemory};
use sky_nfs::{Answer, Call};
use sky_nodes::Nodes;
use std::alloc::Global;

/// Does a call of a procedure that changes the tree, and answers it.
///
/// `NoMemory` where there is no memory for what the tree grows by. All is as it was then.
pub fn apply_change(
    alloc: Global,
    nodes: &mut Nodes,
    epoch: u64,
    cred: &Cred,
    call: &Call,
    now: Moment,
) -> Result<Answer, NoMemory>
    requires valid { IsValidTree nodes.old }
    requires changes { is_change call.now ≡ true }
    ensures answer { IfOk result (λ answer. answer ≡ answer_of (refusal_of nodes.old cred.now call.now) nodes.old nodes.new epoch cred.now call.now) }
    ensures tree { OnOk result (nodes.new ≡ tree_after nodes.old cred.now call.now now) }
    ensures err { OnErr result (nodes.new ≡ nodes.old) }
    ensures memory { OnErr result (IsTrue (takes_memory nodes.old cred.now call.now)) }
{
    match call {
        Call::SetAttr {
            object,
            attributes,
            guard,
        } => {
            let answer = setattr(nodes, cred, object, attributes, *guard, now)?;
            Ok(Answer::SetAttr(answer))
        }
        Call::Write {
            file,
            offset,
            count,
            stable,
            data,
        } => {
            let answer = write(
                nodes, epoch, cred, file, *offset, *count, *stable, data, now,
            )?;
            Ok(Answer::Write(answer))
        }
        Call::Create { at, how } => {
            let answer = create(alloc, nodes, cred, at, *how, now)?;
            Ok(Answer::Create(answer))
        }
        Call::Mkdir { at, attributes } => {
            let answer = mkdir(alloc, nodes, cred, at, attributes, now)?;
            Ok(Answer::Mkdir(answer))
        }
        Call::Symlink {
            at,
            attributes,
            text,
        } => {
            let answer = symlink(alloc, nodes, cred, at, attributes, text, now)?;
            Ok(Answer::Symlink(answer))
        }
        Call::Remove { at } => Ok(Answer::Remove(remove(nodes, cred, at, now))),
        Call::Rmdir { at } => Ok(Answer::Rmdir(rmdir(nodes, cred, at, now))),
        Call::Rename { from, to } => {
            let answer = rename(alloc, nodes, cred, from, to, now)?;
            Ok(Answer::Rename(answer))
        }
        Call::Link { file, at } => {
            let answer = link(alloc, nodes, cred, file, at, now)?;
            Ok(Answer::Link(answer))
        }
        Call::Null
        | Call::GetAttr { .. }
        | Call::Lookup { .. }
        | Call::Access { .. }
        | Call::ReadLink { .. }
        | Call::Read { .. }
        | Call::Mknod { .. }
        | Call::ReadDir { .. }
        | Call::ReadDirPlus { .. }
        | Call::FsStat { .. }
        | Call::FsInfo { .. }
        | Call::PathConf { .. }
        | Call::Commit { .. } => unreachable!(),
    }
}
