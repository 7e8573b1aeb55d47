//! FSSTAT, FSINFO and PATHCONF, RFC 1813 sections 3.3.18 to 3.3.20.

ghost use Rattle.std.specs.Prelude.{◌≡◌};
ghost use Rattle.sky_nfs.specs.Procedures.FsStat.{fsinfo, fsstat, pathconf};
ghost use Rattle.sky_nfs.specs.Results.{post_attributes, results_or};
ghost use Rattle.sky_nfs.specs.Rules.{first_of, handle_rules};

use crate::results::post_attributes;
use crate::rules::resolve;
use sky_base::{Attr, Moment};
use sky_nfs::{FsInfoOk, FsStatOk, PathConfOk, RawHandle, Refused};
use sky_nodes::Nodes;

/// The bytes that the file system tells it has.
const BYTES: u64 = 1 << 50;

/// The most nodes of a volume.
const MAX_NODES: u64 = 1 << 20;

/// The most bytes of a file.
const MAX_FILE_BYTES: u64 = 1 << 30;

/// The most bytes that one READ or WRITE moves, and that a page of a listing has.
const MAX_TRANSFER: u32 = 65536;

/// The size of which a READ or WRITE is best a multiple.
const TRANSFER_UNIT: u32 = 512;

/// Hard links, symbolic links, the same limits everywhere, and times that are set.
const PROPERTIES: u32 = 27;

/// What FSSTAT answers: how many nodes there can still be.
pub fn fsstat(nodes: &Nodes, root: &RawHandle) -> Result<FsStatOk, Refused<Option<Attr>>>
    ensures { result ≡ results_or (first_of (handle_rules nodes.now root.now)) (fsstat nodes.now root.now) (post_attributes nodes.now root.now) }
{
    let attributes = post_attributes(nodes, root);
    if let Err(status) = resolve(nodes, root) {
        return Err(Refused { status, attributes });
    }
    let free = MAX_NODES.saturating_sub(nodes.len() as u64);
    Ok(FsStatOk {
        root: attributes,
        total_bytes: BYTES,
        free_bytes: BYTES,
        available_bytes: BYTES,
        total_files: MAX_NODES,
        free_files: free,
        available_files: free,
        invariant_seconds: 0,
    })
}

/// What FSINFO answers.
pub fn fsinfo(nodes: &Nodes, root: &RawHandle) -> Result<FsInfoOk, Refused<Option<Attr>>>
    ensures { result ≡ results_or (first_of (handle_rules nodes.now root.now)) (fsinfo nodes.now root.now) (post_attributes nodes.now root.now) }
{
    let attributes = post_attributes(nodes, root);
    match resolve(nodes, root) {
        Ok(_) => Ok(FsInfoOk {
            root: attributes,
            read_max: MAX_TRANSFER,
            read_preferred: MAX_TRANSFER,
            read_multiple: TRANSFER_UNIT,
            write_max: MAX_TRANSFER,
            write_preferred: MAX_TRANSFER,
            write_multiple: TRANSFER_UNIT,
            directory_preferred: MAX_TRANSFER,
            max_file_size: MAX_FILE_BYTES,
            time_delta: Moment {
                seconds: 0,
                nanos: 1,
            },
            properties: PROPERTIES,
        }),
        Err(status) => Err(Refused { status, attributes }),
    }
}

/// What PATHCONF answers.
pub fn pathconf(nodes: &Nodes, object: &RawHandle) -> Result<PathConfOk, Refused<Option<Attr>>>
    ensures { result ≡ results_or (first_of (handle_rules nodes.now object.now)) (pathconf nodes.now object.now) (post_attributes nodes.now object.now) }
{
    let attributes = post_attributes(nodes, object);
    match resolve(nodes, object) {
        Ok(_) => Ok(PathConfOk {
            object: attributes,
            link_max: 32000,
            name_max: 255,
            no_truncation: true,
            chown_restricted: true,
            case_insensitive: false,
            case_preserving: true,
        }),
        Err(status) => Err(Refused { status, attributes }),
    }
}
