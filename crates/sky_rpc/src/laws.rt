//! What holds of calls and replies as such. A call of these functions does nothing: each of their
//! clauses is a law that is proved.

ghost use Rattle.std.specs.Prelude.{◌≡◌, ℕ, List, MatchResult, Ok, Err};
ghost use Rattle.sky_xdr.specs.Encoding.{AreBytes};
ghost use Rattle.sky_rpc.specs.Call.{CallMessage, IsUint, IsCall, IsCallMessage, IsOtherVersion, HasBadCred, IsRefused, call_message};
ghost use Rattle.sky_rpc.specs.Reading.{call_at};
ghost use Rattle.sky_rpc.specs.Reply.{Reply, reply_record};

use crate::call::RpcRefusal;

/// What the grammar of calls says of some bytes is what they are read as, and what they are read as is what it says of
/// them. So no bytes are two calls, and none are both a call and refused.
pub fn calls_are_read()
    ensures calls { (bytes : List ℕ) (message : CallMessage) → IsCallMessage bytes message →
        call_at bytes ≡ Ok message }
    ensures other_versions { (bytes : List ℕ) (xid : ℕ) → IsOtherVersion bytes xid →
        call_at bytes ≡ Err (RpcRefusal.BadVersion xid) }
    ensures bad_creds { (bytes : List ℕ) (xid : ℕ) → AreBytes bytes → HasBadCred bytes xid →
        call_at bytes ≡ Err (RpcRefusal.BadCred xid) }
    ensures only { (bytes : List ℕ) → AreBytes bytes →
        MatchResult (call_at bytes) (IsCallMessage bytes) (IsRefused bytes) }
    // Each call has an encoding.
    ensures some { (message : CallMessage) → IsCall message → IsCallMessage (call_message message) message }
{}

/// A reply tells which call it answers and what the answer is: no two have one encoding.
pub fn replies_are_told_apart()
    ensures { (xid other : ℕ) (reply answer : Reply) → IsUint xid → IsUint other →
        reply_record xid reply ≡ reply_record other answer → (xid ≡ other) × (reply ≡ answer) }
{}
