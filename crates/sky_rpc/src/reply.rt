//! Writing replies.

ghost use Rattle.std.specs.Prelude.{◌≡◌, ℕ, ◌+◌, ◌*◌, ◌≤◌, ◌<◌, ◌^◌, ◌↔◌, List, ◌++◌, length, take, drop, IsOk, IfOk, OnOk, OnErr};
ghost use Rattle.sky_xdr.specs.Writing.{written_of, unwritten_of, room_of, name_of};
ghost use Rattle.sky_rpc.specs.Call.{uints};
ghost use Rattle.sky_rpc.specs.Reply.{reply_body, reply_record};
ghost use Rattle.sky_rpc.specs.Values.{reply_of, results_in, results_count, message_length};

use sky_xdr::{NoRoom, Writer};

/// Where the results of a call that succeeded begin in the record of its reply: at byte 28.
pub const RESULTS_AT: usize = 28;

/// What the header of a record's last fragment has above the fragment's length.
const LAST_FRAGMENT: u32 = 0x8000_0000;

/// The message type of a reply.
const REPLY: u32 = 1;

/// A reply to a call that was accepted.
const MSG_ACCEPTED: u32 = 0;

/// A reply to a call that was denied.
const MSG_DENIED: u32 = 1;

/// The flavor of a verifier that says nothing, and the length of its body.
const AUTH_NONE: u32 = 0;

const NO_BODY: u32 = 0;

/// The statuses of a call that was accepted (`accept_stat`, RFC 5531 section 9).
const SUCCESS: u32 = 0;

const PROG_UNAVAIL: u32 = 1;

const PROG_MISMATCH: u32 = 2;

const PROC_UNAVAIL: u32 = 3;

const GARBAGE_ARGS: u32 = 4;

const SYSTEM_ERR: u32 = 5;

/// The status of a call that was denied since its credential does not say who calls.
const AUTH_ERROR: u32 = 1;

/// What is wrong with such a credential.
const AUTH_BADCRED: u32 = 1;

/// The status of a call that was denied since it is of another version of RPC.
const RPC_MISMATCH: u32 = 0;

/// The version of RPC.
const RPC_VERSION: u32 = 2;

/// The version that each program has.
const PROGRAM_VERSION: u32 = 3;

/// A reply, but for the results of a call that succeeded (`reply_body`, RFC 5531 section 9).
#[derive(Clone, Copy)]
pub enum ReplyBody {
    /// The call was done. So many bytes of results are in place, from byte `RESULTS_AT` of the buffer on.
    Success { results: usize },
    /// There is no such program.
    ProgUnavail,
    /// The program has version 3 alone.
    ProgMismatch,
    /// The program has no such procedure.
    ProcUnavail,
    /// The arguments are not the procedure's.
    GarbageArgs,
    /// The server could not do the call, and the results have no status of their own that says so.
    SystemErr,
    /// The version of RPC is another than 2.
    BadVersion,
    /// The credential does not say who calls.
    BadCred,
}

/// How many bytes of results are in place.
fn count_of(body: ReplyBody) -> usize
    ensures { result ≡ results_count body }
{
    match body {
        ReplyBody::Success { results } => results,
        _ => 0,
    }
}

/// What stands in a reply behind its message type, up to the results, in words.
#[tactic(auto, using(std::proofs::lemmas::Grind::common_steps), unfolding(crate::specs::Reply::reply_body))]
fn words_of(body: ReplyBody) -> &'static [u32]
    ensures words { (bytes : List ℕ) → reply_body (reply_of body bytes) ≡ uints result.now ++ results_in body bytes }
    ensures count { 8 + 4 * length result.now + results_count body ≡ message_length body }
{
    match body {
        ReplyBody::Success { .. } => &[MSG_ACCEPTED, AUTH_NONE, NO_BODY, SUCCESS],
        ReplyBody::ProgUnavail => &[MSG_ACCEPTED, AUTH_NONE, NO_BODY, PROG_UNAVAIL],
        ReplyBody::ProgMismatch => {
            &[
                MSG_ACCEPTED,
                AUTH_NONE,
                NO_BODY,
                PROG_MISMATCH,
                PROGRAM_VERSION,
                PROGRAM_VERSION,
            ]
        }
        ReplyBody::ProcUnavail => &[MSG_ACCEPTED, AUTH_NONE, NO_BODY, PROC_UNAVAIL],
        ReplyBody::GarbageArgs => &[MSG_ACCEPTED, AUTH_NONE, NO_BODY, GARBAGE_ARGS],
        ReplyBody::SystemErr => &[MSG_ACCEPTED, AUTH_NONE, NO_BODY, SYSTEM_ERR],
        ReplyBody::BadVersion => &[MSG_DENIED, RPC_MISMATCH, RPC_VERSION, RPC_VERSION],
        ReplyBody::BadCred => &[MSG_DENIED, AUTH_ERROR, AUTH_BADCRED],
    }
}

/// Writes words, one behind the other, behind what was written before.
///
/// `NoRoom` where not all of them fit into what is left of the buffer; some of them may then have been written.
pub fn put_words(writer: &mut Writer<'_>, words: &[u32]) -> Result<(), NoRoom>
    ensures fits { IsOk result ↔ (4 * length words.now ≤ room_of writer.old) }
    ensures written { OnOk result (written_of writer.new ≡ written_of writer.old ++ uints words.now) }
    ensures unwritten { OnOk result (unwritten_of writer.new ≡ drop (4 * length words.now) (unwritten_of writer.old)) }
    ensures room { OnOk result (room_of writer.new + 4 * length words.now ≡ room_of writer.old) }
    ensures same_buffer { name_of writer.new ≡ name_of writer.old }
{
    for word in words {
        writer.put_u32(*word)?;
    }
    Ok(())
}

/// Writes words at the beginning of a buffer, first those of the head, and says how many bytes they have.
fn write_words(buf: &mut [u8], head: &[u32], words: &[u32]) -> Result<usize, NoRoom>
    ensures fits { IsOk result ↔ (4 * length head.now + 4 * length words.now ≤ length buf.old) }
    ensures len { IfOk result (λ n. n ≡ 4 * length head.now + 4 * length words.now) }
    ensures prefix { IfOk result (λ n. take n buf.new ≡ uints head.now ++ uints words.now) }
    ensures behind { IfOk result (λ n. drop n buf.new ≡ drop n buf.old) }
{
    let mut writer = Writer::over(buf);
    put_words(&mut writer, head)?;
    put_words(&mut writer, words)?;
    Ok(writer.written())
}

/// Writes the record of the reply to call `xid`, in one fragment, at the beginning of the buffer, and says how many bytes
/// it has. The results of a call that succeeded are in the buffer already, from byte `RESULTS_AT` on; nothing else of the
/// record is. The reply has fewer than 2^31 bytes.
///
/// `NoRoom` where the buffer ends before the record does; nothing is written then.
pub fn write_reply(buf: &mut [u8], xid: u32, body: ReplyBody) -> Result<usize, NoRoom>
    requires { message_length body < 2 ^ 31 }
    ensures fits { IsOk result ↔ (4 + message_length body ≤ length buf.old) }
    ensures len { IfOk result (λ n. n ≡ 4 + message_length body) }
    ensures written { IfOk result (λ n. take n buf.new ≡ reply_record xid (reply_of body (drop RESULTS_AT buf.old))) }
    ensures behind { IfOk result (λ n. drop n buf.new ≡ drop n buf.old) }
    ensures err { OnErr result (buf.new ≡ buf.old) }
{
    let results = count_of(body);
    let words = words_of(body);
    let message = 8 + 4 * words.len() + results;
    if buf.len() < 4 + message {
        return Err(NoRoom);
    }
    let head = write_words(buf, &[LAST_FRAGMENT + message as u32, xid, REPLY], words)?;
    Ok(head + results)
}
