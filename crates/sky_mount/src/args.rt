//! Reading the arguments of calls.

ghost use Rattle.std.specs.Prelude.{◌≡◌, ◌<◌, ◌≤◌, ◌↔◌, IfOk, IsErrOf};
ghost use Rattle.sky_xdr.specs.Reading.{Gives};
ghost use Rattle.sky_mount.specs.Mount.{procedure_of, IsArgs, HasNoCall};
ghost use Rattle.sky_mount.specs.Reading.{args_at};
ghost use Rattle.sky_mount.specs.Values.{call_of};

use sky_xdr::{Reader, XdrFault};

/// The most bytes of a path (MNTPATHLEN, RFC 1813 section 5.1.4).
const MAX_PATH_BYTES: u32 = 1024;

/// A call of MOUNT with its arguments (RFC 1813, section 5.2), in the order of the procedures' numbers 0 to 5.
#[derive(Clone, Copy)]
pub enum MountCall<'a> {
    /// 0: does nothing.
    Null,
    /// 1: the handle of the directory that is exported at a path.
    Mnt { path: &'a [u8] },
    /// 2: which clients have mounted what.
    Dump,
    /// 3: a client no longer mounts what is at a path.
    Umnt { path: &'a [u8] },
    /// 4: a client no longer mounts anything.
    UmntAll,
    /// 5: what can be mounted, and by whom.
    Export,
}

/// Why arguments could not be read.
#[derive(Clone, Copy)]
pub enum ArgFault {
    /// There is no procedure of this number.
    NoSuchProc,
    /// The bytes are not the arguments of the procedure.
    Garbage,
}

impl From<XdrFault> for ArgFault {
    ghost use Rattle.sky_mount.specs.declared.args.ArgFault.TheVariants.{Garbage};

    ghost from_gives = { λ _ e. e ≡ Garbage };

    fn from(_: XdrFault) -> ArgFault {
        ArgFault::Garbage
    }
}

/// The call of a procedure that has all of these bytes as its arguments.
#[tactic(auto, unfolding(crate::specs::Reading::args_at, crate::specs::Reading::none_at, crate::specs::Reading::path_at))]
fn read_whole(procedure: u32, bytes: &[u8]) -> Result<MountCall<'_>, ArgFault>
    ensures { Gives call_of result (args_at procedure bytes.now) }
{
    let mut reader = Reader::over(bytes);
    let call = match procedure {
        0 => MountCall::Null,
        1 => MountCall::Mnt {
            path: reader.take_opaque(MAX_PATH_BYTES)?,
        },
        2 => MountCall::Dump,
        3 => MountCall::Umnt {
            path: reader.take_opaque(MAX_PATH_BYTES)?,
        },
        4 => MountCall::UmntAll,
        5 => MountCall::Export,
        _ => return Err(ArgFault::NoSuchProc),
    };
    reader.end()?;
    Ok(call)
}

/// The call of a procedure that has these bytes as its arguments, by the procedure's number. All of the bytes belong to
/// it. A path has at most 1,024 bytes, which stay where they are.
///
/// `NoSuchProc` where the number is above 5. `Garbage` where no call of the procedure has these bytes.
pub fn read_mount(procedure: u32, bytes: &[u8]) -> Result<MountCall<'_>, ArgFault>
    ensures called { IfOk result (λ call. procedure_of (call_of call) ≡ procedure) }
    ensures found { IfOk result (λ call. IsArgs bytes.now (call_of call)) }
    ensures no_such_proc { IsErrOf result ArgFault.NoSuchProc ↔ (5 < procedure) }
    ensures garbage { IsErrOf result ArgFault.Garbage ↔ ((procedure ≤ 5) × HasNoCall procedure bytes.now) }
    // All of that in one computing definition.
    ensures exact { Gives call_of result (args_at procedure bytes.now) }
{
    read_whole(procedure, bytes)
}
