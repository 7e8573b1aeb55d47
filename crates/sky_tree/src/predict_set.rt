//! What SETATTR and WRITE will answer.

ghost use Rattle.std.specs.Prelude.{◌≡◌};
ghost use Rattle.sky_nfs.specs.Procedure.{refusal_of, tree_after};
ghost use Rattle.sky_nfs.specs.Procedures.Write.{written_results};
ghost use Rattle.sky_nfs.specs.Results.{results_or, wcc};
ghost use Rattle.sky_nfs.specs.declared.call.Call.{Call};

use crate::attr_changes::{set, written};
use crate::results::{refused, wcc_after};
use crate::rules::attributes_at;
use crate::setattr::check_setattr;
use crate::write::{check_write, is_stable, write_count};
use sky_base::{Cred, Moment};
use sky_nfs::{Bytes, RawHandle, Refused, SetAttr, StableHow, WccData, WriteOk};
use sky_nodes::Nodes;

/// What a SETATTR will answer.
pub fn predict_setattr(
    nodes: &Nodes,
    cred: &Cred,
    object: &RawHandle,
    how: &SetAttr,
    guard: Option<Moment>,
    now: Moment,
) -> Result<WccData, Refused<WccData>>
    ensures { let call = Call.SetAttr object.now how.now guard in let after = tree_after nodes.now cred.now call now in result ≡ results_or (refusal_of nodes.now cred.now call) (wcc nodes.now after object.now) (wcc nodes.now after object.now) }
{
    match check_setattr(nodes, cred, object, how, guard) {
        Ok(fileid) => {
            let attr = set(&attributes_at(nodes, fileid), how, now);
            Ok(wcc_after(nodes, object, attr))
        }
        Err(status) => Err(refused(nodes, object, status)),
    }
}

/// What a WRITE will answer.
pub fn predict_write(
    nodes: &Nodes,
    epoch: u64,
    cred: &Cred,
    file: &RawHandle,
    offset: u64,
    count: u32,
    how: StableHow,
    data: &Bytes,
    now: Moment,
) -> Result<WriteOk, Refused<WccData>>
    ensures { let call = Call.Write file.now offset count how data.now in let after = tree_after nodes.now cred.now call now in result ≡ results_or (refusal_of nodes.now cred.now call) (written_results nodes.now after epoch file.now count how) (wcc nodes.now after file.now) }
{
    match check_write(nodes, cred, file, offset, count, how, data) {
        Ok(fileid) => {
            let count = write_count(count);
            let attr = written(&attributes_at(nodes, fileid), offset, count, now);
            Ok(WriteOk {
                file: wcc_after(nodes, file, attr),
                count,
                committed: is_stable(how),
                verifier: epoch,
            })
        }
        Err(status) => Err(refused(nodes, file, status)),
    }
}
