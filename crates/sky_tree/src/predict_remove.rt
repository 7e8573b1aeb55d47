//! What REMOVE and RMDIR will answer.

ghost use Rattle.std.specs.Prelude.{◌≡◌};
ghost use Rattle.sky_nfs.specs.Procedure.{refusal_of, tree_after};
ghost use Rattle.sky_nfs.specs.Results.{results_or, wcc};
ghost use Rattle.sky_nfs.specs.declared.call.Call.{Call};

use crate::attr_changes::{left, unlinked};
use crate::remove::{check_remove, check_rmdir};
use crate::results::{refused, wcc_after};
use crate::rules::attributes_at;
use sky_base::{Cred, Moment};
use sky_nfs::{DirOpArgs, Refused, WccData};
use sky_nodes::Nodes;

/// What a REMOVE will answer.
pub fn predict_remove(
    nodes: &Nodes,
    cred: &Cred,
    at: &DirOpArgs,
    now: Moment,
) -> Result<WccData, Refused<WccData>>
    ensures { let call = Call.Remove at.now in let after = tree_after nodes.now cred.now call now in result ≡ results_or (refusal_of nodes.now cred.now call) (wcc nodes.now after at.now.directory) (wcc nodes.now after at.now.directory) }
{
    match check_remove(nodes, cred, at) {
        Ok(dir) => {
            let attr = left(&attributes_at(nodes, dir), at.name.as_slice(), now);
            Ok(wcc_after(nodes, &at.directory, attr))
        }
        Err(status) => Err(refused(nodes, &at.directory, status)),
    }
}

/// What an RMDIR will answer. The directory that goes counts no longer as a link of the one that it was in.
pub fn predict_rmdir(
    nodes: &Nodes,
    cred: &Cred,
    at: &DirOpArgs,
    now: Moment,
) -> Result<WccData, Refused<WccData>>
    ensures { let call = Call.Rmdir at.now in let after = tree_after nodes.now cred.now call now in result ≡ results_or (refusal_of nodes.now cred.now call) (wcc nodes.now after at.now.directory) (wcc nodes.now after at.now.directory) }
{
    match check_rmdir(nodes, cred, at) {
        Ok(dir) => {
            let unnamed = left(&attributes_at(nodes, dir), at.name.as_slice(), now);
            let attr = unlinked(&unnamed);
            Ok(wcc_after(nodes, &at.directory, attr))
        }
        Err(status) => Err(refused(nodes, &at.directory, status)),
    }
}
