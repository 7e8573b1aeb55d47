//! Replies as text.

use crate::called::{Called, MOUNT, NFS};
use crate::mounts::read_mount_results;
use crate::reply::{Outcome, Reply};
use crate::results::read_results;
use std::fmt;

/// A reply, and what the call called that it answers. As text: the call's number, the procedure, the status and what the results mainly say.
#[derive(Clone, Copy)]
pub struct Answered<'a> {
    pub reply: Reply<'a>,
    /// `None` where the recording has no such call.
    pub called: Option<Called>,
}

/// Results that can't be read. As text: how many bytes they are.
#[derive(Clone, Copy)]
struct Unread<'a>(&'a [u8]);

impl fmt::Display for Unread<'_> {
    fn fmt<W: fmt::Write>(&self, f: &mut fmt::Formatter<W>) -> fmt::Result {
        write!(f, "{} bytes of results that can't be read", self.0.len())
    }
}

/// Writes the results of a call that was done.
fn write_results<W: fmt::Write>(
    called: Called,
    bytes: &[u8],
    f: &mut fmt::Formatter<W>,
) -> fmt::Result {
    if let Some(procedure) = called.procedure_of(NFS) {
        return match read_results(procedure, bytes) {
            Ok(results) => write!(f, "{results}"),
            Err(_) => write!(f, "{}", Unread(bytes)),
        };
    }
    if let Some(procedure) = called.procedure_of(MOUNT) {
        return match read_mount_results(procedure, bytes) {
            Ok(results) => write!(f, "{results}"),
            Err(_) => write!(f, "{}", Unread(bytes)),
        };
    }
    write!(f, "{}", Outcome::Success(bytes))
}

impl fmt::Display for Answered<'_> {
    fn fmt<W: fmt::Write>(&self, f: &mut fmt::Formatter<W>) -> fmt::Result {
        write!(f, "xid {} ", self.reply.xid)?;
        match (self.called, self.reply.outcome) {
            (Some(called), Outcome::Success(bytes)) => {
                write!(f, "{called} ")?;
                write_results(called, bytes, f)
            }
            (Some(called), outcome) => write!(f, "{called} {outcome}"),
            (None, outcome) => write!(f, "answers no call of the recording: {outcome}"),
        }
    }
}
