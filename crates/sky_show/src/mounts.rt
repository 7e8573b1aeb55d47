//! The results of MOUNT procedures (RFC 1813 section 5.2).

ghost use Rattle.std.specs.Prelude.{◌≡◌};
ghost use Rattle.std.specs.Option.{option_map};
ghost use Rattle.sky_show.specs.Names.{mount_statuses, name_in};

use crate::parts::{Handle, MAX_HANDLE_BYTES, Quoted};
use sky_xdr::{Reader, XdrFault};
use std::fmt;

/// The most bytes of a path (MNTPATHLEN, RFC 1813 section 5.1.4).
const MAX_PATH_BYTES: u32 = 1024;

/// What the results of a procedure mainly say.
#[derive(Clone, Copy)]
pub enum MountResults<'a> {
    /// There is no more to say than that it was done.
    Done,
    /// The root's handle: MNT.
    Mounted(&'a [u8]),
    /// The mount was refused with this status: MNT.
    Refused(u32),
    /// Whether any client is listed: DUMP.
    Mounts(bool),
    /// The first directory that is exported, if one is: EXPORT.
    Exports(Option<&'a [u8]>),
}

/// What the results of MNT say.
fn take_mounted<'a>(reader: &mut Reader<'a>) -> Result<MountResults<'a>, XdrFault> {
    match reader.take_u32()? {
        0 => Ok(MountResults::Mounted(reader.take_opaque(MAX_HANDLE_BYTES)?)),
        status => Ok(MountResults::Refused(status)),
    }
}

/// What the results of EXPORT say.
fn take_exports<'a>(reader: &mut Reader<'a>) -> Result<MountResults<'a>, XdrFault> {
    if reader.take_bool()? {
        Ok(MountResults::Exports(Some(reader.take_opaque(MAX_PATH_BYTES)?)))
    } else {
        Ok(MountResults::Exports(None))
    }
}

/// What the results of a procedure mainly say, by its number. What stands behind that is passed over. A fault where they end before it, or are
/// not of their grammar.
pub fn read_mount_results(procedure: u32, bytes: &[u8]) -> Result<MountResults<'_>, XdrFault> {
    let mut reader = Reader::over(bytes);
    match procedure {
        1 => take_mounted(&mut reader),
        2 => Ok(MountResults::Mounts(reader.take_bool()?)),
        5 => take_exports(&mut reader),
        _ => Ok(MountResults::Done),
    }
}

/// The name of a refusal (`mountstat3`, RFC 1813 section 5.1.5).
fn mount_status_name(status: u32) -> Option<&'static str>
    ensures { option_map (λ name. name.now) result ≡ name_in mount_statuses status }
{
    match status {
        1 => Some("MNT3ERR_PERM"),
        2 => Some("MNT3ERR_NOENT"),
        5 => Some("MNT3ERR_IO"),
        13 => Some("MNT3ERR_ACCES"),
        20 => Some("MNT3ERR_NOTDIR"),
        22 => Some("MNT3ERR_INVAL"),
        63 => Some("MNT3ERR_NAMETOOLONG"),
        10004 => Some("MNT3ERR_NOTSUPP"),
        10006 => Some("MNT3ERR_SERVERFAULT"),
        _ => None,
    }
}

impl fmt::Display for MountResults<'_> {
    fn fmt<W: fmt::Write>(&self, f: &mut fmt::Formatter<W>) -> fmt::Result {
        match *self {
            MountResults::Done => f.write_str("OK"),
            MountResults::Mounted(handle) => write!(f, "OK {}", Handle(handle)),
            MountResults::Refused(status) => match mount_status_name(status) {
                Some(name) => f.write_str(name),
                None => write!(f, "status {status}, which has no name here"),
            },
            MountResults::Mounts(true) => f.write_str("OK some mounts"),
            MountResults::Mounts(false) => f.write_str("OK no mounts"),
            MountResults::Exports(Some(path)) => write!(f, "OK exports {}", Quoted(path)),
            MountResults::Exports(None) => f.write_str("OK no exports"),
        }
    }
}
