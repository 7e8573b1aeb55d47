//! What RENAME will answer.

ghost use Rattle.std.specs.Prelude.{◌≡◌, option_map};
ghost use Rattle.sky_nfs.specs.Procedure.{refusal_of, tree_after};
ghost use Rattle.sky_nfs.specs.Procedures.Rename.{renamed};
ghost use Rattle.sky_nfs.specs.Results.{results_or};
ghost use Rattle.sky_nfs.specs.Tree.{is_directory, named, the_node};
ghost use Rattle.sky_nfs.specs.Validity.{IsValidTree};
ghost use Rattle.sky_nfs.specs.declared.call.Call.{Call};

use crate::attr_changes::{came, cleared, went};
use crate::rename_rules::{check_rename, stands_for};
use crate::results::{unchanged, wcc_after};
use crate::rules::attributes_at;
use sky_base::{Cred, Moment};
use sky_nfs::{DirOpArgs, Refused, RenameResults};
use sky_nodes::Nodes;

/// The results of a RENAME that leaves both directories.
fn unmoved(nodes: &Nodes, from: &DirOpArgs, to: &DirOpArgs) -> RenameResults
    ensures { result ≡ renamed nodes.now nodes.now from.now to.now }
{
    RenameResults {
        from: unchanged(nodes, &from.directory),
        to: unchanged(nodes, &to.directory),
    }
}

/// Whether a directory stands behind a name, and `None` where the name is free.
fn directory_named(nodes: &Nodes, dir: u64, name: &[u8]) -> Option<bool>
    ensures { result ≡ option_map (λ fileid. is_directory (the_node nodes.now fileid)) (named nodes.now dir name.now) }
{
    let fileid = nodes.named(dir, name)?;
    Some(nodes.is_directory(fileid))
}

/// What a RENAME will answer.
pub fn predict_rename(
    nodes: &Nodes,
    cred: &Cred,
    from: &DirOpArgs,
    to: &DirOpArgs,
    now: Moment,
) -> Result<RenameResults, Refused<RenameResults>>
    requires { IsValidTree nodes.now }
    ensures { let call = Call.Rename from.now to.now in let after = tree_after nodes.now cred.now call now in result ≡ results_or (refusal_of nodes.now cred.now call) (renamed nodes.now after from.now to.now) (renamed nodes.now after from.now to.now) }
{
    let moved = match check_rename(nodes, cred, from, to) {
        Ok(moved) => moved,
        Err(status) => {
            return Err(Refused {
                status,
                attributes: unmoved(nodes, from, to),
            });
        }
    };
    let old_name = from.name.as_slice();
    let new_name = to.name.as_slice();
    if stands_for(nodes, moved.to, new_name, moved.fileid) {
        return Ok(unmoved(nodes, from, to));
    }
    let kind = nodes.is_directory(moved.fileid);
    let target = directory_named(nodes, moved.to, new_name);
    let free = cleared(&attributes_at(nodes, moved.to), target, new_name, now);
    if moved.from == moved.to {
        let both = came(&went(&free, kind, old_name, now), kind, new_name, now);
        return Ok(RenameResults {
            from: wcc_after(nodes, &from.directory, both),
            to: wcc_after(nodes, &to.directory, both),
        });
    }
    let source = went(&attributes_at(nodes, moved.from), kind, old_name, now);
    Ok(RenameResults {
        from: wcc_after(nodes, &from.directory, source),
        to: wcc_after(nodes, &to.directory, came(&free, kind, new_name, now)),
    })
}
