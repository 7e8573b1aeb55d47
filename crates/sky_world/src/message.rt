//! What a record of a session means.

ghost use Rattle.std.specs.Prelude.{◌≡◌, []};
ghost use Rattle.sky_mount.specs.Reading as mount;
ghost use Rattle.sky_rpc.specs.Values as rpc;
ghost use Rattle.sky_rpc.specs.Values.{reply_of, results_count};
ghost use Rattle.sky_world.specs.Message as specified;
ghost use Rattle.sky_world.specs.Message.{called_program, nfs_program, refused_call, served_version};
ghost use Rattle.sky_world.specs.Values.{IsOfCall, IsOfRecord, IsPlain};

use sky_args::{ArgFault, read_args};
use sky_base::Cred;
use sky_mount::{MountCall, read_mount};
use sky_nfs::Call;
use sky_rpc::{ReplyBody, RpcCall, RpcRefusal, read_call};
use std::alloc::Global;

/// The number of the program NFS (RFC 1813 section 3).
const NFS_PROGRAM: u32 = 100_003;

/// The number of the program MOUNT (RFC 1813 section 5).
const MOUNT_PROGRAM: u32 = 100_005;

/// The version of both that is served.
const SERVED_VERSION: u32 = 3;

/// What a record means.
#[derive(Drop)]
pub enum Message<'a> {
    /// The session is closed.
    Close,
    /// The call of this number has this reply, whatever the tree is. It is no success.
    Refused {
        xid: u32,
        reply: ReplyBody,
    },
    /// The call of this number is this call of MOUNT.
    Mount {
        xid: u32,
        call: MountCall<'a>,
    },
    /// The call of this number and procedure is this call of NFS, by this caller.
    Nfs {
        xid: u32,
        procedure: u32,
        cred: Cred,
        call: Call,
    },
    /// The call of this number is of this procedure of NFS, and there was no memory for its arguments.
    OutOfMemory {
        xid: u32,
        procedure: u32,
    },
}

/// What a record means that is no call, or a call that is refused as such.
fn refused(why: RpcRefusal) -> Message<'static>
    ensures { IsPlain result (refused_call why) }
{
    match why {
        RpcRefusal::NotCall => Message::Close,
        RpcRefusal::BadVersion { xid } => refusal(xid, ReplyBody::BadVersion),
        RpcRefusal::BadCred { xid } => refusal(xid, ReplyBody::BadCred),
    }
}

/// A call of this number is refused with this reply, which has no results.
fn refusal(xid: u32, reply: ReplyBody) -> Message<'static>
    requires { results_count reply ≡ 0 }
    ensures { IsPlain result (specified.Refused xid (reply_of reply [])) }
{
    Message::Refused { xid, reply }
}

/// What a call of MOUNT means, by its procedure and arguments.
fn called_mount(xid: u32, procedure: u32, args: &[u8]) -> Message<'_>
    ensures { IsPlain result (specified.called_mount xid (mount.args_at procedure args.now)) }
{
    match read_mount(procedure, args) {
        Ok(call) => Message::Mount { xid, call },
        Err(sky_mount::ArgFault::NoSuchProc) => refusal(xid, ReplyBody::ProcUnavail),
        Err(sky_mount::ArgFault::Garbage) => refusal(xid, ReplyBody::GarbageArgs),
    }
}

/// What a call of NFS means, by its procedure and arguments.
fn called_nfs<'a>(alloc: Global, call: RpcCall<'a>) -> Message<'a>
    requires program { call.program ≡ nfs_program }
    requires version { call.version ≡ served_version }
    ensures { IsOfCall result (rpc.message_of call.entry) }
{
    let (xid, procedure) = (call.xid, call.procedure);
    match read_args(alloc, procedure, call.args) {
        Ok(nfs) => Message::Nfs {
            xid,
            procedure,
            cred: call.cred,
            call: nfs,
        },
        Err(ArgFault::NoSuchProc) => refusal(xid, ReplyBody::ProcUnavail),
        Err(ArgFault::Garbage) => refusal(xid, ReplyBody::GarbageArgs),
        Err(ArgFault::Memory) => Message::OutOfMemory { xid, procedure },
    }
}

/// What a call means, by its program, version, procedure and arguments.
fn called<'a>(alloc: Global, call: RpcCall<'a>) -> Message<'a>
    ensures { IsOfCall result (rpc.message_of call.entry) }
{
    let xid = call.xid;
    if call.program != NFS_PROGRAM && call.program != MOUNT_PROGRAM {
        return refusal(xid, ReplyBody::ProgUnavail);
    }
    if call.version != SERVED_VERSION {
        return refusal(xid, ReplyBody::ProgMismatch);
    }
    if call.program == MOUNT_PROGRAM {
        called_mount(xid, call.procedure, call.args)
    } else {
        called_nfs(alloc, call)
    }
}

/// What a record means. Memory is taken for the names, the text and the data of a call.
#[tactic(auto, unfolding(crate::specs::Message::meaning_of))]
pub fn read_message(alloc: Global, text: &[u8]) -> Message<'_>
    ensures { IsOfRecord result text.now }
{
    match read_call(text) {
        Ok(call) => called(alloc, call),
        Err(why) => refused(why),
    }
}
