//! RENAME, RFC 1813 section 3.3.14.

ghost use Rattle.std.specs.Prelude.{◌≡◌, IfOk, OnErr, OnOk};
ghost use Rattle.std.specs.Result.{result_err};
ghost use Rattle.sky_nfs.specs.Procedure.{refusal_of, tree_after};
ghost use Rattle.sky_nfs.specs.Procedures.Rename.{renamed};
ghost use Rattle.sky_nfs.specs.Results.{results_or};
ghost use Rattle.sky_nfs.specs.Validity.{IsValidTree};
ghost use Rattle.sky_nfs.specs.declared.call.Call.{Call};

use crate::name_rules::new_name;
use crate::rename_rules::{check_rename, stands_for};
use crate::results::{post_attributes, pre_attributes};
use sky_base::{Cred, Moment, NoMemory};
use sky_nfs::{DirOpArgs, NfsStatus, Refused, RenameResults, WccData};
use sky_nodes::Nodes;
use std::alloc::Global;

/// Does a RENAME, or says why it is refused. Nothing is done where both names stand for one node.
fn do_rename(
    alloc: Global,
    nodes: &mut Nodes,
    cred: &Cred,
    from: &DirOpArgs,
    to: &DirOpArgs,
    now: Moment,
) -> Result<Result<(), NfsStatus>, NoMemory>
    requires { IsValidTree nodes.old }
    ensures refused { IfOk result (λ done. result_err done ≡ refusal_of nodes.old cred.now (Call.Rename from.now to.now)) }
    ensures tree { OnOk result (nodes.new ≡ tree_after nodes.old cred.now (Call.Rename from.now to.now) now) }
    ensures err { OnErr result (nodes.new ≡ nodes.old) }
{
    let moved = match check_rename(nodes, cred, from, to) {
        Ok(moved) => moved,
        Err(status) => return Ok(Err(status)),
    };
    let from_name = from.name.as_slice();
    if stands_for(nodes, moved.to, to.name.as_slice(), moved.fileid) {
        return Ok(Ok(()));
    }
    let to_name = new_name(alloc, &to.name)?;
    nodes.move_name(now, moved.from, from_name, moved.to, to_name, moved.fileid)?;
    Ok(Ok(()))
}

/// Does a RENAME, and answers it. `NoMemory` leaves all as it was.
pub fn rename(
    alloc: Global,
    nodes: &mut Nodes,
    cred: &Cred,
    from: &DirOpArgs,
    to: &DirOpArgs,
    now: Moment,
) -> Result<Result<RenameResults, Refused<RenameResults>>, NoMemory>
    requires { IsValidTree nodes.old }
    ensures tree { OnOk result (nodes.new ≡ tree_after nodes.old cred.now (Call.Rename from.now to.now) now) }
    ensures answer { IfOk result (λ answer. answer ≡ results_or (refusal_of nodes.old cred.now (Call.Rename from.now to.now)) (renamed nodes.old nodes.new from.now to.now) (renamed nodes.old nodes.new from.now to.now)) }
    ensures err { OnErr result (nodes.new ≡ nodes.old) }
{
    let from_before = pre_attributes(nodes, &from.directory);
    let to_before = pre_attributes(nodes, &to.directory);
    let done = do_rename(alloc, nodes, cred, from, to, now)?;
    let results = RenameResults {
        from: WccData {
            before: from_before,
            after: post_attributes(nodes, &from.directory),
        },
        to: WccData {
            before: to_before,
            after: post_attributes(nodes, &to.directory),
        },
    };
    match done {
        Ok(()) => Ok(Ok(results)),
        Err(status) => Ok(Err(Refused {
            status,
            attributes: results,
        })),
    }
}
