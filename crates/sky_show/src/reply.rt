//! Replies of RPC (RFC 5531, section 9).

ghost use Rattle.std.specs.Prelude.{◌≡◌, ◌++◌, ℕ, List, IfOk, slice_get};
ghost use Rattle.std.specs.Option.{option_map};
ghost use Rattle.sky_xdr.specs.Encoding.{uint};
ghost use Rattle.sky_show.specs.Names.{accept_stats, auth_stats};

use sky_xdr::{Reader, XdrFault};
use std::fmt;

/// What the header of a record's last fragment has above the fragment's length.
const LAST_FRAGMENT: u32 = 0x8000_0000;

/// The message type of a reply.
const REPLY: u32 = 1;

/// A reply to a call that was accepted.
const MSG_ACCEPTED: u32 = 0;

/// A reply to a call that was denied.
const MSG_DENIED: u32 = 1;

/// The most bytes that the body of a verifier has.
const MAX_AUTH_BYTES: u32 = 400;

/// What a reply says of the call, but for what the results say. As text: the names of RFC 5531.
#[derive(Clone, Copy)]
pub enum Outcome<'a> {
    /// The call was done, with these results.
    Success(&'a [u8]),
    /// It was accepted, and not done for this reason (`accept_stat`).
    NotDone(u32),
    /// The program has the versions from the first to the second (`PROG_MISMATCH`).
    ProgMismatch(u32, u32),
    /// It was denied: RPC has the versions from the first to the second here (`RPC_MISMATCH`).
    RpcMismatch(u32, u32),
    /// It was denied, since it is not told who calls (`AUTH_ERROR`), for this reason (`auth_stat`).
    AuthError(u32),
}

/// A reply.
#[derive(Clone, Copy)]
pub struct Reply<'a> {
    /// The number of the call that it answers.
    pub xid: u32,
    pub outcome: Outcome<'a>,
}

/// Takes what stands behind MSG_ACCEPTED.
fn take_accepted<'a>(reader: &mut Reader<'a>) -> Result<Outcome<'a>, XdrFault> {
    reader.take_u32()?;
    reader.take_opaque(MAX_AUTH_BYTES)?;
    match reader.take_u32()? {
        0 => Ok(Outcome::Success(reader.rest())),
        2 => Ok(Outcome::ProgMismatch(reader.take_u32()?, reader.take_u32()?)),
        stat => Ok(Outcome::NotDone(stat)),
    }
}

/// Takes what stands behind MSG_DENIED. `BadBool` where the status is neither RPC_MISMATCH nor AUTH_ERROR.
fn take_denied<'a>(reader: &mut Reader<'a>) -> Result<Outcome<'a>, XdrFault> {
    match reader.take_u32()? {
        0 => Ok(Outcome::RpcMismatch(reader.take_u32()?, reader.take_u32()?)),
        1 => Ok(Outcome::AuthError(reader.take_u32()?)),
        _ => Err(XdrFault::BadBool),
    }
}

/// Whether a word is the header of a fragment that is the last of its record and has so many bytes.
fn is_header(word: u32, length: usize) -> bool {
    word >= LAST_FRAGMENT && (word - LAST_FRAGMENT) as usize == length
}

/// The reply that a record is, which is one fragment. Where bytes are no such record, a fault.
pub fn read_reply(bytes: &[u8]) -> Result<Reply<'_>, XdrFault>
    // The number that is told stands behind the header.
    ensures { IfOk result (λ r. (word : ℕ) × (more : List ℕ) × (bytes.now ≡ uint word ++ (uint r.xid ++ more))) }
{
    let mut reader = Reader::over(bytes);
    let header = reader.take_u32()?;
    if !is_header(header, reader.rest().len()) {
        return Err(XdrFault::Left);
    }
    let xid = reader.take_u32()?;
    if reader.take_u32()? != REPLY {
        return Err(XdrFault::BadBool);
    }
    let outcome = match reader.take_u32()? {
        MSG_ACCEPTED => take_accepted(&mut reader)?,
        MSG_DENIED => take_denied(&mut reader)?,
        _ => return Err(XdrFault::BadBool),
    };
    Ok(Reply { xid, outcome })
}

/// The name of why a call was accepted and not done (`accept_stat`, RFC 5531 section 9).
fn accept_stat(number: u32) -> Option<&'static str>
    ensures { option_map (λ name. name.now) result ≡ slice_get accept_stats number }
{
    match number {
        0 => Some("SUCCESS"),
        1 => Some("PROG_UNAVAIL"),
        2 => Some("PROG_MISMATCH"),
        3 => Some("PROC_UNAVAIL"),
        4 => Some("GARBAGE_ARGS"),
        5 => Some("SYSTEM_ERR"),
        _ => None,
    }
}

/// The name of why it is not told who calls (`auth_stat`, RFC 5531 section 9).
fn auth_stat(number: u32) -> Option<&'static str>
    ensures { option_map (λ name. name.now) result ≡ slice_get auth_stats number }
{
    match number {
        0 => Some("AUTH_OK"),
        1 => Some("AUTH_BADCRED"),
        2 => Some("AUTH_REJECTEDCRED"),
        3 => Some("AUTH_BADVERF"),
        4 => Some("AUTH_REJECTEDVERF"),
        5 => Some("AUTH_TOOWEAK"),
        6 => Some("AUTH_INVALIDRESP"),
        7 => Some("AUTH_FAILED"),
        _ => None,
    }
}

impl fmt::Display for Outcome<'_> {
    fn fmt<W: fmt::Write>(&self, f: &mut fmt::Formatter<W>) -> fmt::Result {
        match *self {
            Outcome::Success(results) => write!(f, "OK {} bytes of results", results.len()),
            Outcome::NotDone(stat) => match accept_stat(stat) {
                Some(name) => f.write_str(name),
                None => write!(f, "accept_stat {stat}"),
            },
            Outcome::ProgMismatch(low, high) => write!(f, "PROG_MISMATCH versions {low} to {high}"),
            Outcome::RpcMismatch(low, high) => write!(
                f,
                "denied RPC_MISMATCH versions {low} to {high}"
            ),
            Outcome::AuthError(stat) => match auth_stat(stat) {
                Some(name) => write!(f, "denied AUTH_ERROR {name}"),
                None => write!(f, "denied AUTH_ERROR auth_stat {stat}"),
            },
        }
    }
}
