//! Reading calls.

ghost use Rattle.std.specs.Prelude.{◌≡◌, Ok, IfOk, IfErr};
ghost use Rattle.sky_xdr.specs.Reading.{Gives};
ghost use Rattle.sky_rpc.specs.Call.{IsCallMessage, IsRefused};
ghost use Rattle.sky_rpc.specs.Reading.{start_at, auth_at, body_at, call_at};
ghost use Rattle.sky_rpc.specs.Values.{Leaves, start_of, auth_of, body_of, message_of};

use crate::cred::read_cred;
use sky_base::Cred;
use sky_xdr::{Reader, XdrFault};

/// The message type of a call.
const CALL: u32 = 0;

/// The version of RPC.
const RPC_VERSION: u32 = 2;

/// The most bytes that the body of a credential or of a verifier has.
const MAX_AUTH_BYTES: u32 = 400;

/// Why a message is no call that is answered by its procedure.
#[derive(Clone, Copy)]
pub enum RpcRefusal {
    /// It is no call, or not a whole one: there is nothing to answer.
    NotCall,
    /// The version of RPC is another than 2.
    BadVersion { xid: u32 },
    /// The credential is neither AUTH_NONE nor an AUTH_SYS credential that says who calls.
    BadCred { xid: u32 },
}

/// A call (`call_body`, RFC 5531 section 9).
#[derive(Drop)]
pub struct RpcCall<'a> {
    /// The call's number, which its reply repeats.
    pub xid: u32,
    /// The number of the program.
    pub program: u32,
    /// The version of the program.
    pub version: u32,
    /// The number of the procedure in the program.
    pub procedure: u32,
    /// Who calls.
    pub cred: Cred,
    /// The bytes of the arguments.
    pub args: &'a [u8],
}

/// The first three words of a message.
#[derive(Clone, Copy)]
struct Start {
    xid: u32,
    kind: u32,
    rpcvers: u32,
}

/// A credential or a verifier (`opaque_auth`, RFC 5531 section 8.2).
#[derive(Clone, Copy)]
pub(crate) struct OpaqueAuth<'a> {
    pub(crate) flavor: u32,
    pub(crate) body: &'a [u8],
}

/// What stands behind the version of RPC.
#[derive(Clone, Copy)]
struct CallBody<'a> {
    program: u32,
    version: u32,
    procedure: u32,
    cred: OpaqueAuth<'a>,
    args: &'a [u8],
}

/// Takes the first three words of a message.
#[tactic(auto, unfolding(crate::specs::Reading::start_at))]
fn take_start(reader: &mut Reader<'_>) -> Result<Start, XdrFault>
    ensures { Leaves start_of result reader.new (start_at reader.old) }
{
    let xid = reader.take_u32()?;
    let kind = reader.take_u32()?;
    let rpcvers = reader.take_u32()?;
    Ok(Start { xid, kind, rpcvers })
}

/// Takes a credential or a verifier.
#[tactic(auto, unfolding(crate::specs::Reading::auth_at))]
fn take_auth<'a>(reader: &mut Reader<'a>) -> Result<OpaqueAuth<'a>, XdrFault>
    ensures { Leaves auth_of result reader.new (auth_at reader.old) }
{
    let flavor = reader.take_u32()?;
    let body = reader.take_opaque(MAX_AUTH_BYTES)?;
    Ok(OpaqueAuth { flavor, body })
}

/// Takes what stands behind the version of RPC, to the message's end. What the verifier says is passed over.
#[tactic(auto, unfolding(crate::specs::Reading::body_at))]
fn take_body<'a>(reader: &mut Reader<'a>) -> Result<CallBody<'a>, XdrFault>
    ensures { Gives body_of result (body_at reader.old) }
{
    let program = reader.take_u32()?;
    let version = reader.take_u32()?;
    let procedure = reader.take_u32()?;
    let cred = take_auth(reader)?;
    take_auth(reader)?;
    Ok(CallBody {
        program,
        version,
        procedure,
        cred,
        args: reader.rest(),
    })
}

/// Takes a call, to the message's end.
#[tactic(auto, unfolding(crate::specs::Reading::call_at))]
fn take_call<'a>(reader: &mut Reader<'a>) -> Result<RpcCall<'a>, RpcRefusal>
    ensures { Gives message_of result (call_at reader.old) }
{
    let start = take_start(reader).map_err(|_| RpcRefusal::NotCall)?;
    let xid = start.xid;
    if start.kind != CALL {
        return Err(RpcRefusal::NotCall);
    }
    if start.rpcvers != RPC_VERSION {
        return Err(RpcRefusal::BadVersion { xid });
    }
    let body = take_body(reader).map_err(|_| RpcRefusal::NotCall)?;
    let cred = read_cred(body.cred).ok_or(RpcRefusal::BadCred { xid })?;
    Ok(RpcCall {
        xid,
        program: body.program,
        version: body.version,
        procedure: body.procedure,
        cred,
        args: body.args,
    })
}

/// The call that a message is. Nothing is copied: the arguments stay in the message.
///
/// The first of these refusals that applies is answered:
/// - `NotCall` where the message has fewer than 12 bytes, or its type is not CALL;
/// - `BadVersion` where the version of RPC is not 2;
/// - `NotCall` where the message ends before its verifier does, or where the body of its credential or of its verifier
///   has more than 400 bytes;
/// - `BadCred` where the credential is neither AUTH_NONE nor AUTH_SYS, or where the body of an AUTH_SYS credential is not
///   exactly a stamp, a machine's name of at most 255 bytes, a user, a group and at most 16 further groups (RFC 5531,
///   appendix A).
///
/// AUTH_NONE is user 65534 of group 65534. Its body, and every verifier, may hold anything.
pub fn read_call(bytes: &[u8]) -> Result<RpcCall<'_>, RpcRefusal>
    ensures exact { Gives message_of result (call_at bytes.now) }
    ensures found { IfOk result (λ c. IsCallMessage bytes.now (message_of c)) }
    ensures refused { IfErr result (IsRefused bytes.now) }
{
    take_call(&mut Reader::over(bytes))
}
