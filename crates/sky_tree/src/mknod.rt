//! MKNOD, RFC 1813 section 3.3.11: this server makes no special objects.

ghost use Rattle.std.specs.Prelude.{◌≡◌, unwrap_or};
ghost use Rattle.sky_nfs.specs.Procedures.Mknod.{mknod_rules};
ghost use Rattle.sky_nfs.specs.Results.{wcc};
ghost use Rattle.sky_nfs.specs.Rules.{first_of};
ghost use Rattle.sky_nfs.specs.declared.status.NfsStatus.TheVariants.{NotSupp};

use crate::results::{post_attributes, pre_attributes};
use crate::rules::resolve;
use sky_nfs::{DirOpArgs, NfsStatus, Refused, WccData};
use sky_nodes::Nodes;

/// What MKNOD answers: that it isn't supported, where the directory's handle resolves.
pub fn mknod(nodes: &Nodes, at: &DirOpArgs) -> Refused<WccData>
    ensures { result ≡ record { status = unwrap_or (first_of (mknod_rules nodes.now at.now)) NotSupp; attributes = wcc nodes.now nodes.now at.now.directory } }
{
    let status = match resolve(nodes, &at.directory) {
        Ok(_) => NfsStatus::NotSupp,
        Err(status) => status,
    };
    let attributes = WccData {
        before: pre_attributes(nodes, &at.directory),
        after: post_attributes(nodes, &at.directory),
    };
    Refused { status, attributes }
}
