//! The procedures that read the tree.

ghost use Rattle.std.specs.Prelude.{◌≡◌, IfOk, IsTrue, OnErr, false};
ghost use Rattle.sky_nfs.specs.Calls.{is_change};
ghost use Rattle.sky_nfs.specs.Procedure.{answer_of, refusal_of};
ghost use Rattle.sky_tree.specs.Memory.{takes_memory};

use crate::attributes::{access, getattr};
use crate::filesystem::{fsinfo, fsstat, pathconf};
use crate::lookup::lookup;
use crate::mknod::mknod;
use crate::read::{commit, read, readlink};
use crate::read_dir::{readdir, readdirplus};
use sky_base::{Cred, NoMemory};
use sky_nfs::{Answer, Call};
use sky_nodes::Nodes;
use std::alloc::Global;

/// The answer to a call of a procedure that reads.
///
/// `NoMemory` where there is no memory for the text, the bytes or the entries that are read.
#[tactic(auto, unfolding(sky_nfs::specs::Procedure::answer_of, sky_nfs::specs::Procedure::refusal_of, sky_nfs::specs::Procedure::rules_of, crate::specs::Memory::takes_memory))]
pub fn answer_reading(
    alloc: Global,
    nodes: &Nodes,
    epoch: u64,
    cred: &Cred,
    call: &Call,
) -> Result<Answer, NoMemory>
    requires { is_change call.now ≡ false }
    ensures answer { IfOk result (λ answer. answer ≡ answer_of (refusal_of nodes.now cred.now call.now) nodes.now nodes.now epoch cred.now call.now) }
    ensures memory { OnErr result (IsTrue (takes_memory nodes.now cred.now call.now)) }
{
    let answer = match call {
        Call::Null => Answer::Null,
        Call::GetAttr { object } => Answer::GetAttr(getattr(nodes, object)),
        Call::Lookup { at } => Answer::Lookup(lookup(nodes, cred, at)),
        Call::Access { object, rights } => Answer::Access(access(nodes, cred, object, *rights)),
        Call::ReadLink { link } => Answer::ReadLink(readlink(alloc, nodes, link)?),
        Call::Read {
            file,
            offset,
            count,
        } => Answer::Read(read(alloc, nodes, cred, file, *offset, *count)?),
        Call::Mknod { at, .. } => Answer::Mknod(mknod(nodes, at)),
        Call::ReadDir {
            directory,
            cookie,
            verifier,
            count,
        } => {
            let page = readdir(alloc, nodes, cred, directory, *cookie, *verifier, *count)?;
            Answer::ReadDir(page)
        }
        Call::ReadDirPlus {
            directory,
            cookie,
            verifier,
            dircount,
            maxcount,
        } => {
            let page = readdirplus(
                alloc, nodes, cred, directory, *cookie, *verifier, *dircount, *maxcount,
            )?;
            Answer::ReadDirPlus(page)
        }
        Call::FsStat { root } => Answer::FsStat(fsstat(nodes, root)),
        Call::FsInfo { root } => Answer::FsInfo(fsinfo(nodes, root)),
        Call::PathConf { object } => Answer::PathConf(pathconf(nodes, object)),
        Call::Commit { file, .. } => Answer::Commit(commit(nodes, epoch, file)),
        Call::SetAttr { .. }
        | Call::Write { .. }
        | Call::Create { .. }
        | Call::Mkdir { .. }
        | Call::Symlink { .. }
        | Call::Remove { .. }
        | Call::Rmdir { .. }
        | Call::Rename { .. }
        | Call::Link { .. } => unreachable!(),
    };
    Ok(answer)
}
