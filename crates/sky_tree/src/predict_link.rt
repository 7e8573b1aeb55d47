//! What LINK will answer.

ghost use Rattle.std.specs.Prelude.{◌≡◌};
ghost use Rattle.sky_nfs.specs.Procedure.{refusal_of, tree_after};
ghost use Rattle.sky_nfs.specs.Procedures.Link.{linked};
ghost use Rattle.sky_nfs.specs.Results.{results_or};
ghost use Rattle.sky_nfs.specs.declared.call.Call.{Call};

use crate::attr_changes::{entered, linked, stamped};
use crate::link::check_link;
use crate::results::{post_attributes, unchanged, wcc_after};
use crate::rules::attributes_at;
use sky_base::{Cred, Moment};
use sky_nfs::{DirOpArgs, LinkResults, RawHandle, Refused};
use sky_nodes::Nodes;

/// What a LINK will answer.
pub fn predict_link(
    nodes: &Nodes,
    cred: &Cred,
    file: &RawHandle,
    at: &DirOpArgs,
    now: Moment,
) -> Result<LinkResults, Refused<LinkResults>>
    ensures { let call = Call.Link file.now at.now in let after = tree_after nodes.now cred.now call now in result ≡ results_or (refusal_of nodes.now cred.now call) (linked nodes.now after file.now at.now) (linked nodes.now after file.now at.now) }
{
    match check_link(nodes, cred, file, at) {
        Ok(found) => {
            let object = stamped(&linked(&attributes_at(nodes, found.0)), now);
            let directory = entered(&attributes_at(nodes, found.1), at.name.as_slice(), now);
            Ok(LinkResults {
                file: Some(object),
                directory: wcc_after(nodes, &at.directory, directory),
            })
        }
        Err(status) => Err(Refused {
            status,
            attributes: LinkResults {
                file: post_attributes(nodes, file),
                directory: unchanged(nodes, &at.directory),
            },
        }),
    }
}
