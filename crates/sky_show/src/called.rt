//! What a call called, as far as its line needs it.

ghost use Rattle.std.specs.Prelude.{◌≡◌};
ghost use Rattle.sky_show.specs.Waiting.{called_in};

use crate::procedures::{mount_procedure, nfs_procedure};
use sky_rpc::{RpcRefusal, read_call};
use std::fmt;

/// The number of the program NFS (RFC 1813 section 3).
pub const NFS: u32 = 100_003;

/// The number of the program MOUNT (RFC 1813 section 5).
pub const MOUNT: u32 = 100_005;

/// The version of both that has procedures here.
pub const VERSION: u32 = 3;

/// What a call called, as far as its line needs it. As text: the procedure's name, or the numbers where it has none here.
#[derive(Clone, Copy, PartialEq, Eq)]
pub enum Called {
    /// A procedure of a version of a program.
    Procedure {
        program: u32,
        version: u32,
        procedure: u32,
    },
    /// A call that is denied before its procedure is read.
    Denied,
}

impl Called {
    /// The procedure's number, where the call is one of this program in the version that has procedures here.
    pub fn procedure_of(self, wanted: u32) -> Option<u32> {
        match self {
            Called::Procedure {
                program,
                version: VERSION,
                procedure,
            } if program == wanted => Some(procedure),
            _ => None,
        }
    }
}

/// The number of a call and what it called, or nothing where the bytes are no call, after which the proxy closes the session.
#[tactic(auto, unfolding(crate::specs::Waiting::called_in))]
pub fn read_called(message: &[u8]) -> Option<(u32, Called)>
    ensures { result ≡ called_in message.now }
{
    match read_call(message) {
        Ok(call) => Some((
            call.xid,
            Called::Procedure {
                program: call.program,
                version: call.version,
                procedure: call.procedure,
            },
        )),
        Err(RpcRefusal::BadVersion { xid } | RpcRefusal::BadCred { xid }) => Some((
            xid,
            Called::Denied,
        )),
        Err(RpcRefusal::NotCall) => None,
    }
}

/// Writes what a procedure is called, in the version of a program.
fn write_procedure<W: fmt::Write>(
    program: u32,
    version: u32,
    procedure: u32,
    f: &mut fmt::Formatter<W>,
) -> fmt::Result {
    let name = if version != VERSION {
        None
    } else if program == NFS {
        nfs_procedure(procedure)
    } else if program == MOUNT {
        mount_procedure(procedure)
    } else {
        None
    };
    match name {
        Some(name) if program == MOUNT => write!(f, "MOUNT {name}"),
        Some(name) => f.write_str(name),
        None => write!(
            f,
            "program {program} version {version} procedure {procedure}"
        ),
    }
}

impl fmt::Display for Called {
    fn fmt<W: fmt::Write>(&self, f: &mut fmt::Formatter<W>) -> fmt::Result {
        match *self {
            Called::Procedure {
                program,
                version,
                procedure,
            } => write_procedure(program, version, procedure, f),
            Called::Denied => f.write_str("a call"),
        }
    }
}
