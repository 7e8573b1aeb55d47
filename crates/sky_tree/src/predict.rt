//! What the procedures that change the tree will answer, while the tree is as before.

ghost use Rattle.std.specs.Prelude.{◌≡◌, true};
ghost use Rattle.sky_nfs.specs.Calls.{is_change};
ghost use Rattle.sky_nfs.specs.Procedure.{answer_of, refusal_of, tree_after};
ghost use Rattle.sky_nfs.specs.Validity.{IsValidTree};

use crate::predict_create::predict_create;
use crate::predict_link::predict_link;
use crate::predict_make::{predict_mkdir, predict_symlink};
use crate::predict_remove::{predict_remove, predict_rmdir};
use crate::predict_rename::predict_rename;
use crate::predict_set::{predict_setattr, predict_write};
use sky_base::{Cred, Moment};
use sky_nfs::{Answer, Call};
use sky_nodes::Nodes;
use std::alloc::Global;

/// What a call of a procedure that changes the tree will answer.
#[tactic(auto, unfolding(sky_nfs::specs::Procedure::answer_of))]
pub fn predict_change(
    alloc: Global,
    nodes: &Nodes,
    epoch: u64,
    cred: &Cred,
    call: &Call,
    now: Moment,
) -> Answer
    requires valid { IsValidTree nodes.now }
    requires changes { is_change call.now ≡ true }
    ensures { result ≡ answer_of (refusal_of nodes.now cred.now call.now) nodes.now (tree_after nodes.now cred.now call.now now) epoch cred.now call.now }
{
    match call {
        Call::SetAttr {
            object,
            attributes,
            guard,
        } => Answer::SetAttr(predict_setattr(nodes, cred, object, attributes, *guard, now)),
        Call::Write {
            file,
            offset,
            count,
            stable,
            data,
        } => Answer::Write(predict_write(
            nodes, epoch, cred, file, *offset, *count, *stable, data, now,
        )),
        Call::Create { at, how } => Answer::Create(predict_create(
            alloc, nodes, cred, at, *how, now,
        )),
        Call::Mkdir { at, attributes } => Answer::Mkdir(predict_mkdir(
            alloc, nodes, cred, at, attributes, now,
        )),
        Call::Symlink {
            at,
            attributes,
            text,
        } => Answer::Symlink(predict_symlink(alloc, nodes, cred, at, attributes, text, now)),
        Call::Remove { at } => Answer::Remove(predict_remove(nodes, cred, at, now)),
        Call::Rmdir { at } => Answer::Rmdir(predict_rmdir(nodes, cred, at, now)),
        Call::Rename { from, to } => { Answer::Rename(predict_rename(nodes, cred, from, to, now)) }
        Call::Link { file, at } => Answer::Link(predict_link(nodes, cred, file, at, now)),
        Call::Null
        | Call::GetAttr { .. }
        | Call::Lookup { .. }
        | Call::Access { .. }
        | Call::ReadLink { .. }
        | Call::Read { .. }
        | Call::Mknod { .. }
        | Call::ReadDir { .. }
        | Call::ReadDirPlus { .. }
        | Call::FsStat { .. }
        | Call::FsInfo { .. }
        | Call::PathConf { .. }
        | Call::Commit { .. } => unreachable!(),
    }
}
