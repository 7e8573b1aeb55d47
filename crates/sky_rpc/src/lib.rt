//! Messages of ONC RPC (RFC 5531): calls are read, and replies are written. No call takes memory.
#![tactic(auto)]

mod call;
mod cred;
mod laws;
mod reply;

pub use call::{RpcCall, RpcRefusal, read_call};
pub use cred::take_gids;
pub use laws::{calls_are_read, replies_are_told_apart};
pub use reply::{RESULTS_AT, ReplyBody, put_words, write_reply};
